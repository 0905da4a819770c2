// The table: connectors and the ledger of resources, in words that the caller lends, and what is read of the connectors.
#![tactic(auto)]

ghost use Rattle.std.specs.Prelude.{◌≡◌, ◌+◌, ◌-◌, ◌<◌, ◌≤◌, eqb, min, drop, get_or, length};
ghost use Rattle.std.specs.List.{position as first_place};
ghost use Rattle.words.specs.Bytes.{part};
ghost use Rattle.connector.specs.Fields.{connector_from, connector_of};
ghost use Rattle.table.specs.Layout.{connector_at, connector_limit, count_of, row_cell};
ghost use Rattle.words.specs.Pick.{any};
ghost use Rattle.table.specs.Model.{blank_connector, has_index, position, rows, slot_below, table_of};

use connector::{COLUMNS, Connector, new_connector};
use connector_words::{connector_of, state_of};
use kinds::{Index, SLOT};
use states::in_use;

pub const CONNECTORS: usize = 1024;

pub const RESOURCES: usize = 1024;

pub const WORDS: usize = 2 + 2 * RESOURCES + COLUMNS * CONNECTORS;

// Where each column starts. A further field of a connector is a new last column.
pub const LINE_KIND: usize = 2;

pub const LINE_AT: usize = LINE_KIND + RESOURCES;

pub const INDEX: usize = LINE_AT + RESOURCES;

pub const KIND: usize = INDEX + CONNECTORS;

pub const PARTITION: usize = KIND + CONNECTORS;

pub const PARENT: usize = PARTITION + CONNECTORS;

pub const STATE: usize = PARENT + CONNECTORS;

pub const RESOURCE: usize = STATE + CONNECTORS;

pub const PLACE: usize = RESOURCE + CONNECTORS;

pub const DEPTH: usize = PLACE + CONNECTORS;

pub const PAGE: usize = DEPTH + CONNECTORS;

pub const WANTED: usize = PAGE + CONNECTORS;

// How many rows a look-up tests at once.
const AT_ONCE: usize = 16;

// A count over the limit reads as the limit.
pub fn at_most(w: u32, limit: usize) -> usize
    ensures { result ≡ min w limit }
{
    limit.min(w as usize)
}

// How many connectors there are: a count over the limit reads as the limit.
pub fn count(t: &[u32; WORDS]) -> usize
    ensures { result ≡ length (table_of t.now).connectors }
{
    used_rows(t)
}

// The same number, said of the words alone: the loops over columns prove with it.
pub fn used_rows(t: &[u32; WORDS]) -> usize
    ensures { result ≡ count_of t.now }
{
    at_most(t[0], CONNECTORS)
}

// A connector's words, column by column; a loop over the columns is no plainer.
fn get_row(t: &[u32; WORDS], i: usize) -> [u32; COLUMNS]
    requires { i < connector_limit }
    ensures { connector_of result ≡ connector_from (λ f. get_or t.now (row_cell f i) 0) }
{
    [
        t[INDEX + i],
        t[KIND + i],
        t[PARTITION + i],
        t[PARENT + i],
        t[STATE + i],
        t[RESOURCE + i],
        t[PLACE + i],
        t[DEPTH + i],
        t[PAGE + i],
        t[WANTED + i],
    ]
}

// Connector `i`, or a blank one past the last.
#[tactic(auto, unfolding(crate::specs::Layout::connector_at))]
pub fn connector_at(t: &[u32; WORDS], i: usize) -> Connector
    ensures { result ≡ get_or (table_of t.now).connectors i blank_connector }
{
    if used_rows(t) <= i {
        return new_connector(0, Index(0), 0, Index(0));
    }
    connector_of(&get_row(t, i))
}

// The indexes of the connectors, one after the other.
fn indexes(t: &[u32; WORDS]) -> &[u32]
    ensures { result.now ≡ part t.now (row_cell 0 0) (count_of t.now) }
{
    &t[INDEX..INDEX + used_rows(t)]
}

// How many rows are passed, sixteen at a time, before the first sixteen in which one has the index. All sixteen are looked
// at together: a plain `position` over the column is slower (docs/BENCHMARKS.md, find).
fn rows_passed(column: &[u32], index: Index) -> usize
    ensures { (result ≤ length column.now) × (result + position (λ k. eqb k index.0) (drop result column.now) ≡ position (λ k. eqb k index.0) column.now) }
{
    let mut passed = 0;
    for rows in column.chunks_exact(AT_ONCE) {
        if rows.contains(&index.0) {
            break;
        }
        passed += AT_ONCE;
    }
    passed
}

// The place of the first of these rows with the index.
fn first_row(column: &[u32], index: Index) -> Option<usize>
    ensures { result ≡ first_place (λ k. eqb k index.0) column.now }
{
    column.iter().position(|k| *k == index.0)
}

// The place of the first connector with this index, or the count where there is none.
pub fn find(t: &[u32; WORDS], index: Index) -> usize
    ensures { result ≡ position (has_index index.0) (table_of t.now).connectors }
{
    let column = indexes(t);
    let passed = rows_passed(column, index);
    let rest = &column[passed..];
    passed + first_row(rest, index).unwrap_or(rest.len())
}

// Whether a slot below the connector with this index, of whatever partition, is not Unusable. A `for`, since with `any` over
// the range the proof did not close.
pub fn slot_in_use(t: &[u32; WORDS], index: Index) -> bool
    ensures { result ≡ any (slot_below index.0) (table_of t.now).connectors }
{
    for i in 0..used_rows(t) {
        if is_slot_below(t, i, index) {
            return true;
        }
    }
    false
}

#[tactic(auto, unfolding(crate::specs::Layout::connector_at, words::specs::Pick::every, words::specs::Pick::pick))]
fn is_slot_below(t: &[u32; WORDS], i: usize, index: Index) -> bool
    requires { i < connector_limit }
    ensures { result ≡ slot_below index.0 (connector_at t.now i) }
{
    t[KIND + i] == SLOT
        && 1 <= t[PARENT + i]
        && t[PARENT + i] == index.0
        && in_use(state_of(t[STATE + i]))
}
