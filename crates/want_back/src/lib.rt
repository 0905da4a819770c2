// The platform's call that wants a connector back.
#![tactic(auto)]

ghost use Rattle.std.specs.Prelude.{◌≡◌};
ghost use Rattle.table.specs.Model.{table_of};
ghost use Rattle.calls.specs.Calls.{Answered};
ghost use Rattle.want_back.specs.WantBack.{want_back, want_back_at, want_back_status};

use call_status::CallRefusal;
use calls::look_up;
use connector::Connector;
use kinds::Index;
use table::WORDS;

// What holds nothing cannot be wanted back.
fn want_back_status(c: Connector) -> Result<(), CallRefusal>
    ensures { result ≡ want_back_status c }
{
    if c.resource.0 == 0 {
        return Err(CallRefusal::Empty);
    }
    Ok(())
}

fn want_back_at(t: &mut [u32; WORDS], i: usize, c: Connector) -> Result<(), CallRefusal>
    ensures { Answered t.old t.new result (want_back_at i c) }
{
    want_back_status(c)?;
    edits::store(t, i, c.wanted_back());
    Ok(())
}

// The connector with this index is wanted back from now on, until it is emptied.
pub fn want_back(t: &mut [u32; WORDS], k: Index) -> Result<(), CallRefusal>
    ensures { Answered t.old t.new result (want_back (table_of t.old) k.0) }
{
    let Some((i, c)) = look_up(t, k) else {
        return Err(CallRefusal::NoConnector);
    };
    want_back_at(t, i, c)
}
