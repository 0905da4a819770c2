// Where a property's name stands or goes in a strings block. In the first functions `used` is the block's used bytes.
#![tactic(auto)]

ghost use Rattle.std.specs.Prelude.{◌≡◌, ◌^◌, ◌<◌, ◌≤◌, length, take};
ghost use Rattle.words.specs.Pick.{pick};
ghost use Rattle.sensible.specs.Sensible.{name_in};
ghost use Rattle.name_places.specs.Names.{starts, stands_at, name_here, place_of};
ghost use Rattle.name_places.specs.Places.{no_place, property_place, place_for, lies_in};

use replies::ReplyKind;
use sensible::Parts;

// Where a property's name stands or goes in the strings block, and how many bytes it adds there.
#[derive(Clone, Copy, PartialEq, Eq)]
pub struct Place {
    pub at: u32,
    pub fresh: u32,
}

// Whether the name and a NUL stand at `p`.
fn stands_at(used: &[u8], name: &[u8], p: usize) -> bool
    requires { p < length used.now }
    ensures { result ≡ stands_at name.now used.now p }
{
    let rest = &used[p..];
    let n = name.len();
    n < rest.len() && &rest[..n] == name && rest[n] == 0
}

// Whether `p` is 0 or just after a NUL.
#[tactic(auto, unfolding(crate::specs::Names::starts, words::specs::Pick::pick))]
fn starts_at(used: &[u8], p: usize) -> bool
    requires { p < length used.now }
    ensures { result ≡ starts used.now p }
{
    p == 0 || used[p - 1] == 0
}

// Whether the name stands at `p` as a whole name.
#[tactic(auto, unfolding(crate::specs::Names::name_here, words::specs::Pick::pick))]
fn name_here(used: &[u8], name: &[u8], p: usize) -> bool
    requires { p < length used.now }
    ensures { result ≡ name_here name.now used.now p }
{
    starts_at(used, p) && stands_at(used, name, p)
}

// The first place of the name, or the end where it has none. Not inlined: its callers leave the search too few registers.
#[inline(never)]
fn find_name(used: &[u8], name: &[u8]) -> usize
    ensures { (result ≡ place_of name.now used.now) × (result ≤ length used.now) }
{
    for p in 0..used.len() {
        if name_here(used, name, p) {
            return p;
        }
    }
    used.len()
}

// Where a property's name stands or goes.
#[tactic(auto, unfolding(crate::specs::Names::new_name, words::specs::Pick::pick))]
fn property_place(used: &[u8], name: &[u8]) -> Place
    requires { (length used.now < 2 ^ 32) × (length name.now ≤ 48) }
    ensures { result ≡ property_place name.now used.now }
{
    let at = find_name(used, name);
    Place {
        at: at as u32,
        fresh: if at < used.len() {
            0
        } else {
            name.len() as u32 + 1
        },
    }
}

// Whether the used bytes and the name lie in their blocks, and the name has at most 48 bytes; the second and the third argument are lengths.
#[tactic(auto, unfolding(crate::specs::Places::lies_in, words::specs::Pick::every, words::specs::Pick::pick))]
fn lies_in(p: Parts, area: usize, strings: usize, used: u32) -> bool
    ensures { result ≡ lies_in p area strings used }
{
    used as usize <= strings && p.n <= 48 && p.name as usize + p.n as usize <= area
}

// Where the name of a reply stands or goes; no place where it or the used bytes pass their block. Only a property has a place.
#[tactic(auto, unfolding(crate::specs::Places::lies_in, words::specs::Bytes::part, words::specs::Pick::every, words::specs::Pick::pick))]
pub fn place_for(kind: ReplyKind, p: Parts, area: &[u8], strings: &[u8], used: u32) -> Place
    ensures { result ≡ pick (lies_in p (length area.now) (length strings.now) used) (place_for kind (name_in p area.now) (take used strings.now)) no_place }
{
    if kind == ReplyKind::Property && lies_in(p, area.len(), strings.len(), used) {
        let at = p.name as usize;
        property_place(&strings[..used as usize], &area[at..at + p.n as usize])
    } else {
        Place { at: 0, fresh: 0 }
    }
}
