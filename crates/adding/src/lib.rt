// The platform's calls that add: a connector, a resource.
#![tactic(auto)]

ghost use Rattle.std.specs.Prelude.{◌≡◌};
ghost use Rattle.table.specs.Model.{table_of};
ghost use Rattle.calls.specs.Calls.{phb_of, parent_fits, add_connector_status, add_connector, add_resource_status, add_resource, added_number, added_status, number_added, Answered};

use call_status::CallRefusal;
use calls::look_up;
use connector::new_connector;
use kinds::{Index, Resource};
use table::{CONNECTORS, RESOURCES, WORDS};

// How many partitions there may be.
pub const PARTITIONS: u32 = 32;

// Whether the first connector with this index is a PHB's, of this partition.
fn is_phb(t: &[u32; WORDS], partition: u32, k: Index) -> bool
    ensures { result ≡ phb_of (table_of t.now) partition k.0 }
{
    let Some((_, c)) = look_up(t, k) else {
        return false;
    };
    c.kind == kinds::PHB && c.partition == partition
}

// No parent is given, or to a kind that may have one a PHB of the same partition.
fn parent_fits(t: &[u32; WORDS], kind: u32, partition: u32, parent: Index) -> bool
    ensures { result ≡ parent_fits (table_of t.now) kind partition parent.0 }
{
    parent.0 == 0 || kinds::may_have_parent(kind) && is_phb(t, partition, parent)
}

fn add_connector_status(
    t: &[u32; WORDS],
    kind: u32,
    k: Index,
    partition: u32,
    parent: Index,
) -> Result<(), CallRefusal>
    ensures { result ≡ add_connector_status (table_of t.now) kind k.0 partition parent.0 }
{
    if !kinds::kind_fits(kind, k) {
        return Err(CallRefusal::UnknownKind);
    }
    if table::find(t, k) < table::count(t) {
        return Err(CallRefusal::IndexInUse);
    }
    if partition < 1 || PARTITIONS < partition {
        return Err(CallRefusal::NoPartition);
    }
    if !parent_fits(t, kind, partition, parent) {
        return Err(CallRefusal::BadParent);
    }
    if CONNECTORS <= table::count(t) {
        return Err(CallRefusal::Full);
    }
    Ok(())
}

pub fn add_connector(
    t: &mut [u32; WORDS],
    kind: u32,
    k: Index,
    partition: u32,
    parent: Index,
) -> Result<(), CallRefusal>
    ensures { Answered t.old t.new result (add_connector (table_of t.old) kind k.0 partition parent.0) }
{
    add_connector_status(t, kind, k, partition, parent)?;
    edits::push_connector(t, new_connector(kind, k, partition, parent));
    Ok(())
}

fn add_resource_status(t: &[u32; WORDS], kind: u32) -> Result<(), CallRefusal>
    ensures { result ≡ add_resource_status (table_of t.now) kind }
{
    if !kinds::known(kind) {
        return Err(CallRefusal::UnknownKind);
    }
    if RESOURCES <= ledger::line_count(t) {
        return Err(CallRefusal::Full);
    }
    Ok(())
}

// The new resource's number.
pub fn add_resource(t: &mut [u32; WORDS], kind: u32) -> Result<Resource, CallRefusal>
    ensures { Answered t.old t.new (added_status result) (add_resource (table_of t.old) kind) × (number_added result ≡ added_number (table_of t.old) kind) }
{
    add_resource_status(t, kind)?;
    let n = ledger::line_count(t);
    edits::push_line(t, kind);
    Ok(Resource((n + 1) as u32))
}
