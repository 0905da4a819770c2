// Memory lists converted between their two forms.
ghost use Rattle.memory_grouping.specs.Grouping.{to_v2};
ghost use Rattle.memory_expanding.specs.Expanding.{to_v1};
ghost use Rattle.memory_numbers.specs.Numbers.{ConvertedTo};

#[unsafe(no_mangle)]
pub extern "C" fn drc_memory_to_v2(size: u64, list: &[u8], out: &mut [u8], written: &mut u32) -> i32
    ensures { ConvertedTo result out.new written.new (to_v2 size list.now out.old written.old) }
{
    fustorbel::memory::drc_memory_to_v2(size, list, out, written)
}

#[unsafe(no_mangle)]
pub extern "C" fn drc_memory_to_v1(size: u64, list: &[u8], out: &mut [u8], written: &mut u32) -> i32
    ensures { ConvertedTo result out.new written.new (to_v1 size list.now out.old written.old) }
{
    fustorbel::memory::drc_memory_to_v1(size, list, out, written)
}
