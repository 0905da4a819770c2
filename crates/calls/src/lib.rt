// What the platform's and the partition's calls answer, how both look up a connector, and what both do with the ledger. Their definitions are in specs/Calls.
#![tactic(auto)]

ghost use Rattle.std.specs.Prelude.{◌≡◌, ◌≤◌, Some, None};
ghost use Rattle.table.specs.Model.{table_of, writes};
ghost use Rattle.calls.specs.Calls.{at_index, is_resource, own_at, to_pool};

use connector::Connector;
use kinds::{Index, Resource};
use table::WORDS;

// The row of the first connector with this index, and the connector.
pub fn look_up(t: &[u32; WORDS], k: Index) -> Option<(usize, Connector)>
    ensures { result ≡ at_index (table_of t.now) k.0 (λ i c. Some (i, c)) None }
{
    let i = table::find(t, k);
    if table::count(t) <= i {
        return None;
    }
    Some((i, table::connector_at(t, i)))
}

// The first connector with this index, if it is the partition's own.
pub fn look_up_own(t: &[u32; WORDS], partition: u32, k: Index) -> Option<(usize, Connector)>
    ensures { result ≡ own_at (table_of t.now) partition k.0 (λ i c. Some (i, c)) None }
{
    let (i, c) = look_up(t, k)?;
    if c.partition != partition {
        return None;
    }
    Some((i, c))
}

// Whether the ledger has a line for this resource.
pub fn is_resource(t: &[u32; WORDS], r: Resource) -> bool
    ensures { result ≡ is_resource (table_of t.now) r.0 }
{
    if r.0 < 1 {
        return false;
    }
    r.0 as usize <= ledger::line_count(t)
}

// The resource goes to the pool, if its line names this connector.
pub fn to_pool(t: &mut [u32; WORDS], r: Resource, k: Index)
    ensures { t.new ≡ writes t.old (to_pool (table_of t.old) r.0 k.0) }
{
    if !is_resource(t, r) {
        return;
    }
    let j = (r.0 - 1) as usize;
    let at = ledger::line_at(t, j);
    if at.0 != k.0 {
        return;
    }
    edits::set_line(t, j, Index(0));
}
