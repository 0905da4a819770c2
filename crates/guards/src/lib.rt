// The tests that a step makes before it reads a token, and the page after a reply.
#![tactic(auto)]

ghost use Rattle.std.specs.Prelude.{◌≡◌};
ghost use Rattle.guards.specs.Guards.{is_area, is_unisolated, pages_meet, readable, page_after};

use states::{Page, State};

// One page or two.
#[tactic(auto, unfolding(words::specs::Pick::pick))]
pub fn is_area(lent: usize) -> bool
    ensures { result ≡ is_area lent }
{
    lent == 4096 || lent == 8192
}

pub fn is_unisolated(s: State) -> bool
    ensures { result ≡ is_unisolated s }
{
    s == State::Unisolated
}

pub fn pages_meet(p: Page, lent: usize) -> bool
    ensures { result ≡ pages_meet p lent }
{
    match p {
        Page::None => lent == 4096,
        Page::Asked => true,
        Page::Taken => lent == 8192,
    }
}

// Whether a token can be read: neither block too long, structure block and place multiples of four.
#[tactic(auto, unfolding(crate::specs::Guards::readable, words::specs::Pick::every, words::specs::Pick::pick))]
pub fn is_readable(s: usize, strings: usize, place: usize) -> bool
    ensures { result ≡ readable s strings place }
{
    s <= 32768 && strings <= 4096 && s % 4 == 0 && place % 4 == 0
}

#[tactic(auto, unfolding(words::specs::Pick::pick))]
pub fn page_after(lent: usize) -> Page
    ensures { result ≡ page_after lent }
{
    if lent == 8192 {
        Page::Taken
    } else {
        Page::None
    }
}
