// One step of a walk on a connector record that is lent by reference, and changed in place.
#![tactic(auto)]

ghost use Rattle.std.specs.Prelude.{◌≡◌};
ghost use Rattle.step_status.specs.Status.{step_number};
ghost use Rattle.table.specs.Model.{table_of};
ghost use Rattle.unowned.specs.Unowned.{unowned};
ghost use Rattle.walk.specs.Step.{step};
ghost use Rattle.faults.specs.Faults.{step_fault};

use connector::Connector;
use faults::NumberAt;
use table::WORDS;

// The step of `walk`, answered by document 01's number, and with -1 the offset of the token at fault.
pub fn step_in_place(
    c: &mut Connector,
    area: &mut [u8],
    structure: &[u8],
    strings: &[u8],
    table: &[u32; WORDS],
) -> NumberAt
    ensures { (result.number ≡ step_number (step (unowned (table_of table.now) c.old.partition) c.old area.old structure.now strings.now).stepped.status)
        × (result.fault ≡ step_fault (unowned (table_of table.now) c.old.partition) c.old area.old structure.now strings.now)
        × (c.new ≡ (step (unowned (table_of table.now) c.old.partition) c.old area.old structure.now strings.now).stepped.connector)
        × (area.new ≡ (step (unowned (table_of table.now) c.old.partition) c.old area.old structure.now strings.now).area) }
{
    let s = walk::step(*c, area, structure, strings, table);
    *c = s.connector;
    faults::number_at(s.status)
}
