// Configure-connector over plain numbers, with the offset of a fault beside document 01's number.
#![tactic(auto)]

ghost use Rattle.std.specs.Prelude.{◌≡◌};
ghost use Rattle.step_status.specs.Status.{step_number};
ghost use Rattle.table.specs.Model.{table_of};
ghost use Rattle.calls.specs.Calls.{configure, Told};
ghost use Rattle.fault_numbers.specs.Faults.{configure_fault};

use table::WORDS;

// With -1 the offset of the token at fault, else 0, is written to `fault`.
pub fn configure_connector_at(
    table: &mut [u32; WORDS],
    partition: u32,
    work: &mut [u8],
    structure: &[u8],
    strings: &[u8],
    fault: &mut u32,
) -> i32
    ensures { Told step_number table.old table.new result (configure (table_of table.old) partition work.old structure.now strings.now).answer
        × (work.new ≡ (configure (table_of table.old) partition work.old structure.now strings.now).area)
        × (fault.new ≡ configure_fault (table_of table.old) partition work.old structure.now strings.now) }
{
    // That the strings are lent anew is for speed: docs/DECISIONS.md.
    let s = partition_walk::configure_connector(table, partition, work, structure, &*strings);
    *fault = faults::status_offset(s) as u32;
    step_status::status_number(s)
}
