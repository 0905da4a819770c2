// Looks at the table for a caller that holds no records: a connector and a line of the ledger copied out as words, a connector's row.
#![tactic(auto)]

ghost use Rattle.std.specs.Prelude.{◌≡◌};
ghost use Rattle.table.specs.Model.{table_of};
ghost use Rattle.call_status.specs.Status.{call_number};
ghost use Rattle.ports.specs.Looks.{connector_look, resource_look, Looked, found_row};

use calls::is_resource;
use connector::COLUMNS;
use connector_words::words_of;
use kinds::{Index, Resource};
use table::WORDS;

// A connector's words.
pub const CONNECTOR_WORDS: usize = COLUMNS;

// A resource's words.
pub const RESOURCE_WORDS: usize = 2;

// Row `row`'s connector is copied out, where there is one.
pub fn connector_at(t: &[u32; WORDS], row: u32, out: &mut [u32; CONNECTOR_WORDS]) -> i32
    ensures { Looked call_number result out.new (connector_look (table_of t.now) row out.old) }
{
    let i = row as usize;
    if table::count(t) <= i {
        return -16;
    }
    let c = table::connector_at(t, i);
    *out = words_of(c);
    0
}

// A resource's kind and the index of the connector where it stands are copied out, where there is such a resource.
pub fn resource_at(t: &[u32; WORDS], number: u32, out: &mut [u32; RESOURCE_WORDS]) -> i32
    ensures { Looked call_number result out.new (resource_look (table_of t.now) number out.old) }
{
    if !is_resource(t, Resource(number)) {
        return -17;
    }
    let j = (number - 1) as usize;
    let kind = ledger::line_kind(t, j);
    let at = ledger::line_at(t, j);
    *out = [kind, at.0];
    0
}

// The row of the first connector with this index, or the refusal's number.
pub fn row_of(t: &[u32; WORDS], index: u32) -> i32
    ensures { result ≡ found_row (table_of t.now) index }
{
    let n = table::used_rows(t);
    let i = table::find(t, Index(index));
    if i < n {
        return i as i32;
    }
    -16
}
