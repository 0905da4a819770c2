// Update-nodes and its reader, answered with the documents' numbers.
#![tactic(auto)]

ghost use Rattle.std.specs.Prelude.{◌≡◌};
ghost use Rattle.changes_writer.specs.Writer.{update_nodes};
ghost use Rattle.changes_reader.specs.Reader.{area_number, read_updates};
ghost use Rattle.changes_numbers.specs.Numbers.{AreaReadTo, ReportedTo};

use changes_reader::AreaFault;
use changes_writer::{Refused, Updating};

pub fn update_nodes(scope: u32, changes: &[u32], work: &mut [u8]) -> i32
    ensures { ReportedTo result work.new (update_nodes scope changes.now work.old) }
{
    match changes_writer::update_nodes(scope, changes, work) {
        Ok(Updating::Done) => 0,
        Ok(Updating::More) => 1,
        Err(Refused) => -3,
    }
}

fn area_number(fault: AreaFault) -> i32
    ensures { result ≡ area_number fault }
{
    match fault {
        AreaFault::WrongLength => -41,
        AreaFault::PastArea => -42,
        AreaFault::UnknownOpcode => -43,
        AreaFault::OddAdd => -44,
        AreaFault::NoTerminator => -45,
        AreaFault::NoRoom => -46,
    }
}

pub fn read_updates(work: &[u8], out: &mut [u32], written: &mut u32) -> i32
    ensures { AreaReadTo result out.new written.old written.new (read_updates work.now out.old) }
{
    match changes_reader::read_updates(work, out) {
        Ok(words) => {
            *written = words;
            0
        }
        Err(fault) => area_number(fault),
    }
}
