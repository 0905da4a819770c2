// What only looks at the table: a connector by its row, a resource by its number, a row by its connector's index.
ghost use Rattle.std.specs.Prelude.{◌≡◌};
ghost use Rattle.table.specs.Model.{table_of};
ghost use Rattle.call_status.specs.Status.{call_number};
ghost use Rattle.ports.specs.Looks.{Looked, connector_look, found_row, resource_look};

use ports::{CONNECTOR_WORDS, RESOURCE_WORDS};
use table::WORDS;

#[unsafe(no_mangle)]
pub extern "C" fn drc_connector_at(
    table: &[u32; WORDS],
    row: u32,
    out: &mut [u32; CONNECTOR_WORDS],
) -> i32
    ensures { Looked call_number result out.new (connector_look (table_of table.now) row out.old) }
{
    fustorbel::looks::drc_connector_at(table, row, out)
}

#[unsafe(no_mangle)]
pub extern "C" fn drc_resource_at(
    table: &[u32; WORDS],
    number: u32,
    out: &mut [u32; RESOURCE_WORDS],
) -> i32
    ensures { Looked call_number result out.new (resource_look (table_of table.now) number out.old) }
{
    fustorbel::looks::drc_resource_at(table, number, out)
}

// The row of the first connector with this index, counted from 0.
#[unsafe(no_mangle)]
pub extern "C" fn drc_find(table: &[u32; WORDS], index: u32) -> i32
    ensures { result ≡ found_row (table_of table.now) index }
{
    fustorbel::looks::drc_find(table, index)
}
