// The platform's own calls.
ghost use Rattle.std.specs.Prelude.{◌≡◌, replicate};
ghost use Rattle.table.specs.Layout.{word_count};
ghost use Rattle.table.specs.Model.{table_of};
ghost use Rattle.pool.specs.Pool.{free_count, free_lowest};
ghost use Rattle.call_status.specs.Status.{call_number};
ghost use Rattle.calls.specs.Calls.{add_connector, add_resource, added_number, place, retract, Told};
ghost use Rattle.want_back.specs.WantBack.{want_back};

use table::WORDS;

// No connector and no resource.
#[unsafe(no_mangle)]
pub extern "C" fn drc_fresh(table: &mut [u32; WORDS])
    ensures { table.new ≡ replicate word_count 0 }
{
    fustorbel::platform_calls::drc_fresh(table);
}

#[unsafe(no_mangle)]
pub extern "C" fn drc_add_connector(
    table: &mut [u32; WORDS],
    kind: u32,
    index: u32,
    partition: u32,
    parent: u32,
) -> i32
    ensures { Told call_number table.old table.new result (add_connector (table_of table.old) kind index partition parent) }
{
    fustorbel::platform_calls::drc_add_connector(table, kind, index, partition, parent)
}

// The new resource's number, 0 when refused, is written to `number`.
#[unsafe(no_mangle)]
pub extern "C" fn drc_add_resource(table: &mut [u32; WORDS], kind: u32, number: &mut u32) -> i32
    ensures { Told call_number table.old table.new result (add_resource (table_of table.old) kind) × (number.new ≡ added_number (table_of table.old) kind) }
{
    fustorbel::platform_calls::drc_add_resource(table, kind, number)
}

#[unsafe(no_mangle)]
pub extern "C" fn drc_place(table: &mut [u32; WORDS], resource: u32, index: u32) -> i32
    ensures { Told call_number table.old table.new result (place (table_of table.old) resource index) }
{
    fustorbel::platform_calls::drc_place(table, resource, index)
}

#[unsafe(no_mangle)]
pub extern "C" fn drc_retract(table: &mut [u32; WORDS], index: u32) -> i32
    ensures { Told call_number table.old table.new result (retract (table_of table.old) index) }
{
    fustorbel::platform_calls::drc_retract(table, index)
}

#[unsafe(no_mangle)]
pub extern "C" fn drc_want_back(table: &mut [u32; WORDS], index: u32) -> i32
    ensures { Told call_number table.old table.new result (want_back (table_of table.old) index) }
{
    fustorbel::platform_calls::drc_want_back(table, index)
}

#[unsafe(no_mangle)]
pub extern "C" fn drc_free_count(table: &[u32; WORDS], kind: u32) -> u32
    ensures { result ≡ free_count kind (table_of table.now).ledger }
{
    fustorbel::platform_calls::drc_free_count(table, kind)
}

#[unsafe(no_mangle)]
pub extern "C" fn drc_free_lowest(table: &[u32; WORDS], kind: u32) -> u32
    ensures { result ≡ free_lowest kind (table_of table.now).ledger }
{
    fustorbel::platform_calls::drc_free_lowest(table, kind)
}
