// The partition's calls over plain numbers, answered with document 01's.
#![tactic(auto)]

ghost use Rattle.std.specs.Prelude.{◌≡◌};
ghost use Rattle.connector.specs.Orders.{order_number};
ghost use Rattle.step_status.specs.Status.{step_number};
ghost use Rattle.table.specs.Model.{table_of};
ghost use Rattle.calls.specs.Calls.{configure, get_sensor, set_indicator, Told};

use connector::orders;
use fault_numbers::configure_connector_at;
use kinds::Index;
use table::WORDS;

pub fn set_indicator(
    table: &mut [u32; WORDS],
    partition: u32,
    token: u32,
    index: u32,
    value: u32,
) -> i32
    ensures { Told order_number table.old table.new result (set_indicator (table_of table.old) partition token index value) }
{
    let s = partition::set_indicator(table, partition, token, Index(index), value);
    orders::status_number(s)
}

// The sensor's value, 0 when refused, is written to `value`.
pub fn get_sensor(
    table: &[u32; WORDS],
    partition: u32,
    token: u32,
    index: u32,
    value: &mut u32,
) -> i32
    ensures { (result ≡ order_number (get_sensor (table_of table.now) partition token index).status) × (value.new ≡ (get_sensor (table_of table.now) partition token index).value) }
{
    match partition::get_sensor(table, partition, token, Index(index)) {
        Ok(v) => {
            *value = v;
            0
        }
        Err(refusal) => {
            *value = 0;
            i32::from(refusal)
        }
    }
}

pub fn configure_connector(
    table: &mut [u32; WORDS],
    partition: u32,
    work: &mut [u8],
    structure: &[u8],
    strings: &[u8],
) -> i32
    ensures { Told step_number table.old table.new result (configure (table_of table.old) partition work.old structure.now strings.now).answer × (work.new ≡ (configure (table_of table.old) partition work.old structure.now strings.now).area) }
{
    let mut fault: u32 = 0;
    configure_connector_at(table, partition, work, structure, strings, &mut fault)
}
