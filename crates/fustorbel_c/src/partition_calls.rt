// The partition's calls.
ghost use Rattle.std.specs.Prelude.{◌≡◌};
ghost use Rattle.connector.specs.Orders.{order_number};
ghost use Rattle.step_status.specs.Status.{step_number};
ghost use Rattle.table.specs.Model.{table_of};
ghost use Rattle.calls.specs.Calls.{configure, get_sensor, set_indicator, Told};
ghost use Rattle.fault_numbers.specs.Faults.{configure_fault};

use table::WORDS;

#[unsafe(no_mangle)]
pub extern "C" fn drc_set_indicator(
    table: &mut [u32; WORDS],
    partition: u32,
    token: u32,
    index: u32,
    value: u32,
) -> i32
    ensures { Told order_number table.old table.new result (set_indicator (table_of table.old) partition token index value) }
{
    fustorbel::partition_calls::drc_set_indicator(table, partition, token, index, value)
}

// The sensor's value, 0 when refused, is written to `value`.
#[unsafe(no_mangle)]
pub extern "C" fn drc_get_sensor(
    table: &[u32; WORDS],
    partition: u32,
    token: u32,
    index: u32,
    value: &mut u32,
) -> i32
    ensures { (result ≡ order_number (get_sensor (table_of table.now) partition token index).status) × (value.new ≡ (get_sensor (table_of table.now) partition token index).value) }
{
    fustorbel::partition_calls::drc_get_sensor(table, partition, token, index, value)
}

#[unsafe(no_mangle)]
pub extern "C" fn drc_configure_connector(
    table: &mut [u32; WORDS],
    partition: u32,
    work: &mut [u8],
    structure: &[u8],
    strings: &[u8],
) -> i32
    ensures { Told step_number table.old table.new result (configure (table_of table.old) partition work.old structure.now strings.now).answer × (work.new ≡ (configure (table_of table.old) partition work.old structure.now strings.now).area) }
{
    fustorbel::partition_calls::drc_configure_connector(table, partition, work, structure, strings)
}

// The same; with -1 the offset of the token at fault, else 0, is written to `fault`.
#[unsafe(no_mangle)]
pub extern "C" fn drc_configure_connector_at(
    table: &mut [u32; WORDS],
    partition: u32,
    work: &mut [u8],
    structure: &[u8],
    strings: &[u8],
    fault: &mut u32,
) -> i32
    ensures { Told step_number table.old table.new result (configure (table_of table.old) partition work.old structure.now strings.now).answer
        × (work.new ≡ (configure (table_of table.old) partition work.old structure.now strings.now).area)
        × (fault.new ≡ configure_fault (table_of table.old) partition work.old structure.now strings.now) }
{
    fustorbel::partition_calls::drc_configure_connector_at(
        table, partition, work, structure, strings, fault,
    )
}
