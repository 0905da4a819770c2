// Changed nodes after a migration: update-nodes, and the reader of its work area.
ghost use Rattle.changes_writer.specs.Writer.{update_nodes};
ghost use Rattle.changes_reader.specs.Reader.{read_updates};
ghost use Rattle.changes_numbers.specs.Numbers.{ReportedTo, AreaReadTo};

#[unsafe(no_mangle)]
pub extern "C" fn drc_update_nodes(scope: u32, changes: &[u32], work: &mut [u8]) -> i32
    ensures { ReportedTo result work.new (update_nodes scope changes.now work.old) }
{
    fustorbel::updates::drc_update_nodes(scope, changes, work)
}

#[unsafe(no_mangle)]
pub extern "C" fn drc_read_updates(work: &[u8], out: &mut [u32], written: &mut u32) -> i32
    ensures { AreaReadTo result out.new written.old written.new (read_updates work.now out.old) }
{
    fustorbel::updates::drc_read_updates(work, out, written)
}
