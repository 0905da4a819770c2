// A connector's states, and the walk over its tree with the second page of its work area.
#![tactic(auto)]

ghost use Rattle.std.specs.Prelude.{◌≡◌};
ghost use Rattle.states.specs.States.{in_use, is_configured, sense_in, start};

#[derive(Clone, Copy, PartialEq, Eq)]
pub enum State {
    Unusable,
    Available,
    Unisolated,
    Configured,
}

// The second page of a walk's work area: neither asked for nor taken, asked for, taken.
#[derive(Clone, Copy, PartialEq, Eq)]
pub enum Page {
    None,
    Asked,
    Taken,
}

// Where a walk over the connector's tree stands.
#[derive(Clone, Copy, PartialEq, Eq)]
pub struct Walk {
    pub place: u32,
    pub depth: u32,
    pub page: Page,
}

// A walk's start: place 0, depth 0, no page asked for or taken.
pub fn start_of_walk() -> Walk
    ensures { result ≡ start }
{
    Walk {
        place: 0,
        depth: 0,
        page: Page::None,
    }
}

pub fn is_configured(s: State) -> bool
    ensures { result ≡ is_configured s }
{
    s == State::Configured
}

// Not Unusable.
pub fn in_use(s: State) -> bool
    ensures { result ≡ in_use s }
{
    s != State::Unusable
}

// What get-sensor answers in a state.
pub fn sense_in(s: State) -> u32
    ensures { result ≡ sense_in s }
{
    if s == State::Unusable { 2 } else { 1 }
}
