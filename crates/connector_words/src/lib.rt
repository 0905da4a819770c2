// A connector and its parts as words of the table: how they are read from words, and written to them.
#![tactic(auto)]

ghost use Rattle.std.specs.Prelude.{◌≡◌};
ghost use Rattle.states.specs.States.{page_of, state_of, word_of_page, word_of_state};
ghost use Rattle.connector.specs.Fields.{connector_of, connector_words, wanted_of, word_of_wanted};

use connector::{COLUMNS, Connector};
use kinds::{Index, Resource};
use states::{Page, State, Walk};

// A state as a word of the table.
pub fn word_of_state(s: State) -> u32
    ensures { result ≡ word_of_state s }
{
    match s {
        State::Unusable => 0,
        State::Available => 1,
        State::Unisolated => 2,
        State::Configured => 3,
    }
}

// The state that a word stands for; a word that is no state reads as Unusable.
pub fn state_of(w: u32) -> State
    ensures { result ≡ state_of w }
{
    match w {
        1 => State::Available,
        2 => State::Unisolated,
        3 => State::Configured,
        _ => State::Unusable,
    }
}

// A page's standing as a word of the table.
pub fn word_of_page(p: Page) -> u32
    ensures { result ≡ word_of_page p }
{
    match p {
        Page::None => 0,
        Page::Asked => 1,
        Page::Taken => 2,
    }
}

// The standing that a word stands for; any other word reads as None.
pub fn page_of(w: u32) -> Page
    ensures { result ≡ page_of w }
{
    match w {
        1 => Page::Asked,
        2 => Page::Taken,
        _ => Page::None,
    }
}

// Whether a connector is wanted back, as a word of the table.
pub fn word_of_wanted(wanted: bool) -> u32
    ensures { result ≡ word_of_wanted «wanted» }
{
    u32::from(wanted)
}

// Whether a word says that a connector is wanted back: 1 does, and no other.
pub fn wanted_of(w: u32) -> bool
    ensures { result ≡ wanted_of w }
{
    w == 1
}

// The connector that words mean, in the order of the table's columns.
pub fn connector_of(w: &[u32; COLUMNS]) -> Connector
    ensures { result ≡ connector_of w.now }
{
    Connector {
        index: Index(w[0]),
        kind: w[1],
        partition: w[2],
        parent: Index(w[3]),
        state: state_of(w[4]),
        resource: Resource(w[5]),
        walk: Walk {
            place: w[6],
            depth: w[7],
            page: page_of(w[8]),
        },
        wanted: wanted_of(w[9]),
    }
}

// A connector's words.
pub fn words_of(c: Connector) -> [u32; COLUMNS]
    ensures { result ≡ connector_words c }
{
    [
        c.index.0,
        c.kind,
        c.partition,
        c.parent.0,
        word_of_state(c.state),
        c.resource.0,
        c.walk.place,
        c.walk.depth,
        word_of_page(c.walk.page),
        word_of_wanted(c.wanted),
    ]
}
