// The platform's calls that place a resource at a connector and retract it. Those that add stand in `adding`.
#![tactic(auto)]

ghost use Rattle.std.specs.Prelude.{◌≡◌};
ghost use Rattle.table.specs.Model.{table_of};
ghost use Rattle.calls.specs.Calls.{holding, place_status, place_at, place, retract_in, retract_status, retract_at, retract, Answered};

use call_status::CallRefusal;
use calls::{is_resource, look_up, to_pool};
use connector::Connector;
use kinds::{Index, Resource};
use states::State;
use table::WORDS;

// The connector with a resource.
fn hold(c: Connector, r: Resource) -> Connector
    ensures { result ≡ holding r.0 c }
{
    Connector { resource: r, ..c }
}

fn place_status(t: &[u32; WORDS], r: Resource, c: Connector) -> Result<(), CallRefusal>
    ensures { result ≡ place_status (table_of t.now) r.0 c }
{
    if !is_resource(t, r) {
        return Err(CallRefusal::NoResource);
    }
    let j = (r.0 - 1) as usize;
    if ledger::line_kind(t, j) != c.kind {
        return Err(CallRefusal::KindsDiffer);
    }
    if ledger::line_at(t, j).0 != 0 {
        return Err(CallRefusal::NotInPool);
    }
    if c.resource.0 != 0 {
        return Err(CallRefusal::Holding);
    }
    Ok(())
}

// The resource stands at connector i, which is c.
fn place_at(t: &mut [u32; WORDS], r: Resource, i: usize, c: Connector) -> Result<(), CallRefusal>
    ensures { Answered t.old t.new result (place_at (table_of t.old) r.0 i c) }
{
    place_status(t, r, c)?;
    let j = (r.0 - 1) as usize;
    edits::set_line(t, j, c.index);
    edits::store(t, i, hold(c, r));
    Ok(())
}

pub fn place(t: &mut [u32; WORDS], r: Resource, k: Index) -> Result<(), CallRefusal>
    ensures { Answered t.old t.new result (place (table_of t.old) r.0 k.0) }
{
    let Some((i, c)) = look_up(t, k) else {
        return Err(CallRefusal::NoConnector);
    };
    place_at(t, r, i, c)
}

fn retract_in(s: State) -> Result<(), CallRefusal>
    ensures { result ≡ retract_in s }
{
    match s {
        State::Unusable => Ok(()),
        State::Available | State::Unisolated | State::Configured => Err(CallRefusal::InUse),
    }
}

fn retract_status(c: Connector) -> Result<(), CallRefusal>
    ensures { result ≡ retract_status c }
{
    if c.resource.0 == 0 {
        return Err(CallRefusal::Empty);
    }
    retract_in(c.state)
}

fn retract_at(t: &mut [u32; WORDS], i: usize, c: Connector) -> Result<(), CallRefusal>
    ensures { Answered t.old t.new result (retract_at (table_of t.old) i c) }
{
    retract_status(c)?;
    to_pool(t, c.resource, c.index);
    edits::store(t, i, c.vacated());
    Ok(())
}

pub fn retract(t: &mut [u32; WORDS], k: Index) -> Result<(), CallRefusal>
    ensures { Answered t.old t.new result (retract (table_of t.old) k.0) }
{
    let Some((i, c)) = look_up(t, k) else {
        return Err(CallRefusal::NoConnector);
    };
    retract_at(t, i, c)
}
