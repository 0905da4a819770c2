// Changes of nodes, three words each: kind, node (of an add the parent) and, of an add, the index.
#![tactic(auto, unfolding(words::specs::Pick::pick, words::specs::Pick::any, crate::specs::Changes::is_kind))]

ghost use Rattle.std.specs.Prelude.{◌≡◌, ◌≤◌, eqb};
ghost use Rattle.words.specs.Pick.{pick};
ghost use Rattle.node_changes.specs.Changes.{changes_in, is_kind, tally_of};
ghost use Rattle.node_changes.specs.Lists.{width};

// The kinds are words of a list or an area, where any number may stand, so they are numbers.
pub const DELETE: u32 = 1;

pub const UPDATE: u32 = 2;

pub const ADD: u32 = 3;

// The bytes of a work area.
pub const AREA_BYTES: usize = 4096;

// The words of a change.
pub const CHANGE_WORDS: usize = 3;

// How many changes there are of each kind.
#[derive(Clone, Copy, PartialEq, Eq)]
pub struct Tally {
    pub deletes: usize,
    pub updates: usize,
    pub adds: usize,
}

// How many operands a change of a kind has.
pub fn operand_count(kind: u32) -> usize
    ensures { (result ≡ width kind) × (1 ≤ result) × (result ≤ 2) }
{
    if kind == ADD { 2 } else { 1 }
}

pub fn is_kind(kind: u32) -> bool
    ensures { result ≡ is_kind kind }
{
    matches!(kind, DELETE | UPDATE | ADD)
}

// 1 for a change of the kind `wanted`, else 0.
pub fn one_of(kind: u32, wanted: u32) -> usize
    ensures { (result ≡ pick (eqb kind wanted) 1 0) × (result ≤ 1) }
{
    usize::from(kind == wanted)
}

// One pass over the changes, as arrays: by `chunks_exact` it is compiled to one change a turn, and not four.
pub fn count_kinds(changes: &[u32]) -> Tally
    ensures { result ≡ tally_of (changes_in changes.now) }
{
    let mut t = Tally {
        deletes: 0,
        updates: 0,
        adds: 0,
    };
    let (entries, _) = changes.as_chunks::<CHANGE_WORDS>();
    for change in entries {
        let kind = change[0];
        t.deletes += one_of(kind, DELETE);
        t.updates += one_of(kind, UPDATE);
        t.adds += one_of(kind, ADD);
    }
    t
}
