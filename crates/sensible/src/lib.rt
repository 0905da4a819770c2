// Where a reply's name and value stand in the work area, and when the reply makes sense.
#![tactic(auto)]

ghost use Rattle.std.specs.Prelude.{◌≡◌, ◌≤◌};
ghost use Rattle.sensible.specs.Sensible.{no_parts, name_parts, property_parts, parts_of, name_fits, value_fits, parts_fit, allowed, area_size, sensible};

use replies::{Node, Reader, ReplyKind, most_of};
use words::{name_length, word_at};

// Where a reply's name and value stand in the work area, and how long they are.
#[derive(Clone, Copy, PartialEq, Eq)]
pub struct Parts {
    pub name: u32,
    pub n: u32,
    pub value: u32,
    pub len: u32,
}

fn no_parts() -> Parts
    ensures { result ≡ no_parts }
{
    Parts {
        name: 0,
        n: 0,
        value: 0,
        len: 0,
    }
}

// The name at the offset in word 2, of which at most `limit` bytes are read.
fn name_parts(area: &[u8], limit: usize) -> Parts
    requires { limit ≤ 48 }
    ensures { result ≡ name_parts limit area.now }
{
    let name = word_at(area, 8);
    Parts {
        name,
        n: name_length(area, name as usize, limit) as u32,
        ..no_parts()
    }
}

// The name, and the value whose length is in word 3 and whose offset is in word 4.
fn property_parts(area: &[u8]) -> Parts
    ensures { result ≡ property_parts area.now }
{
    Parts {
        value: word_at(area, 16),
        len: word_at(area, 12),
        ..name_parts(area, 32)
    }
}

// What a reply of this kind points to.
pub fn parts_of(kind: ReplyKind, area: &[u8]) -> Parts
    ensures { result ≡ parts_of kind area.now }
{
    match kind {
        ReplyKind::Sibling | ReplyKind::Child => name_parts(area, 48),
        ReplyKind::Property => property_parts(area),
        ReplyKind::Last | ReplyKind::Parent | ReplyKind::Wait | ReplyKind::Other => no_parts(),
    }
}

// Whether the name has 1 to `longest` bytes, and stands with its NUL in the first page after the words.
#[tactic(auto, unfolding(crate::specs::Sensible::name_fits, words::specs::Pick::every, words::specs::Pick::pick))]
fn name_fits(p: Parts, longest: u32) -> bool
    ensures { result ≡ name_fits longest p }
{
    20 <= p.name && 1 <= p.n && p.n <= longest && p.name as usize + p.n as usize <= 4095
}

// Whether the value stands in the work area, after the words.
#[tactic(auto, unfolding(crate::specs::Sensible::value_fits, words::specs::Pick::every, words::specs::Pick::pick))]
fn value_fits(p: Parts, area: usize) -> bool
    ensures { result ≡ value_fits p area }
{
    20 <= p.value && p.value as usize + p.len as usize <= area
}

// Whether what a reply of this kind points to is as it must be.
#[tactic(auto, unfolding(words::specs::Pick::every, words::specs::Pick::pick))]
fn parts_fit(kind: ReplyKind, p: Parts, area: usize) -> bool
    ensures { result ≡ parts_fit kind p area }
{
    match kind {
        ReplyKind::Sibling | ReplyKind::Child => name_fits(p, 47),
        ReplyKind::Property => name_fits(p, 31) && value_fits(p, area),
        ReplyKind::Last | ReplyKind::Parent | ReplyKind::Wait | ReplyKind::Other => true,
    }
}

// Whether a reply of this kind may come now.
#[tactic(auto, unfolding(words::specs::Pick::every, words::specs::Pick::pick))]
fn is_allowed(kind: ReplyKind, depth: u32, node: Node) -> bool
    ensures { result ≡ allowed kind depth node }
{
    match kind {
        ReplyKind::Last => depth == 1,
        ReplyKind::Sibling | ReplyKind::Parent => 2 <= depth,
        ReplyKind::Child => depth <= 7,
        ReplyKind::Property => 1 <= depth && node == Node::NoChild,
        ReplyKind::Wait => true,
        ReplyKind::Other => false,
    }
}

// One page or two: what `guards::is_area` says on the side that sends, of which the reader uses no crate.
#[tactic(auto, unfolding(words::specs::Pick::pick))]
fn area_size(n: usize) -> bool
    ensures { result ≡ area_size n }
{
    n == 4096 || n == 8192
}

// Whether a reply makes sense; the last three arguments are lengths.
#[tactic(auto, unfolding(crate::specs::Sensible::sensible, words::specs::Pick::every, words::specs::Pick::pick))]
pub fn is_sensible(
    r: Reader,
    kind: ReplyKind,
    p: Parts,
    area: usize,
    structure: usize,
    strings: usize,
) -> bool
    ensures { result ≡ sensible r kind p area structure strings }
{
    r.structure as usize <= most_of(structure)
        && r.strings as usize <= most_of(strings)
        && r.depth <= 8
        && r.node != Node::Finished
        && area_size(area)
        && is_allowed(kind, r.depth, r.node)
        && parts_fit(kind, p, area)
}
