// Memory lists converted each way, answered with document 02's numbers.
#![tactic(auto)]

ghost use Rattle.std.specs.Prelude.{◌≡◌, ℕ, List};
ghost use Rattle.memory_lists.specs.Converted.{answered, refusal_number};
ghost use Rattle.memory_grouping.specs.Grouping.{to_v2};
ghost use Rattle.memory_expanding.specs.Expanding.{to_v1};
ghost use Rattle.memory_numbers.specs.Numbers.{ConvertedTo};

use memory_expanding::to_v1;
use memory_grouping::to_v2;
use memory_lists::Refusal;

fn refusal_number(refusal: Refusal) -> i32
    ensures { result ≡ refusal_number refusal }
{
    match refusal {
        Refusal::ZeroSize => -41,
        Refusal::WrongSize => -42,
        Refusal::TooMany => -43,
        Refusal::ReservedNotZero => -44,
        Refusal::EmptySet => -45,
        Refusal::OutOfRange => -46,
        Refusal::NoRoom => -47,
    }
}

// 0 after a success, which alone writes the length; else the refusal's number.
fn answer(converted: Result<u32, Refusal>, written: &mut u32) -> i32
    ensures { (out : List ℕ) → ConvertedTo result out written.new (answered converted out written.old) }
{
    match converted {
        Ok(bytes) => {
            *written = bytes;
            0
        }
        Err(refusal) => refusal_number(refusal),
    }
}

pub fn memory_to_v2(size: u64, list: &[u8], out: &mut [u8], written: &mut u32) -> i32
    ensures { ConvertedTo result out.new written.new (to_v2 size list.now out.old written.old) }
{
    answer(to_v2(size, list, out), written)
}

pub fn memory_to_v1(size: u64, list: &[u8], out: &mut [u8], written: &mut u32) -> i32
    ensures { ConvertedTo result out.new written.new (to_v1 size list.now out.old written.old) }
{
    answer(to_v1(size, list, out), written)
}
