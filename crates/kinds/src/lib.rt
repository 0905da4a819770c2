// The numbers of connectors and of resources, each a type of its own; their kinds, and what depends on the kind.
#![tactic(auto)]

ghost use Rattle.std.specs.Prelude.{◌≡◌};
ghost use Rattle.kinds.specs.Kinds.{first_state, kind_fits, kind_of_index, known, may_have_parent};

use states::State;

// A connector's index; 0 is none.
#[derive(Clone, Copy, PartialEq, Eq)]
pub struct Index(pub u32);

// A resource's number, from 1 on; 0 is none.
#[derive(Clone, Copy, PartialEq, Eq)]
pub struct Resource(pub u32);

// A kind is a number and no enum: a table's words may hold any, and `table_of` and `connector_of` keep what they hold.
pub const CPU: u32 = 1;

// A PCI host bridge, the only kind that has slots below it.
pub const PHB: u32 = 2;

pub const SLOT: u32 = 3;

// A block of memory.
pub const MEM: u32 = 8;

#[tactic(auto, unfolding(crate::specs::Kinds::known, words::specs::Pick::any, words::specs::Pick::pick))]
pub fn known(kind: u32) -> bool
    ensures { result ≡ known kind }
{
    matches!(kind, CPU | PHB | SLOT | MEM)
}

// The top four bits of an index.
pub fn kind_of_index(k: Index) -> u32
    ensures { result ≡ kind_of_index k.0 }
{
    k.0 / 268435456
}

// A kind that is known, and is that of the index.
#[tactic(auto, unfolding(words::specs::Pick::every, words::specs::Pick::pick))]
pub fn kind_fits(kind: u32, k: Index) -> bool
    ensures { result ≡ kind_fits kind k.0 }
{
    known(kind) && kind_of_index(k) == kind
}

// A slot may be given a parent, which is a PHB; no other kind.
pub fn may_have_parent(kind: u32) -> bool
    ensures { result ≡ may_have_parent kind }
{
    kind == SLOT
}

// The state in which a connector of this kind begins, and to which it comes back once it is empty.
pub fn first_state(kind: u32) -> State
    ensures { result ≡ first_state kind }
{
    State::Unusable
}
