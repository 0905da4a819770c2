// The replies of a walk to the guest's reader, by kind, the reader's record and its answers.
#![tactic(auto)]

ghost use Rattle.std.specs.Prelude.{◌≡◌};
ghost use Rattle.replies.specs.Replies.{reading_number, new_reader, kind_of, most, waits};

// Whether the innermost open node has a child yet, or the tree is finished.
#[derive(Clone, Copy, PartialEq, Eq)]
pub enum Node {
    NoChild,
    HasChild,
    Finished,
}

// How many bytes of the two buffers are used, how many nodes are open, and the innermost one.
#[derive(Clone, Copy, PartialEq, Eq)]
pub struct Reader {
    pub structure: u32,
    pub strings: u32,
    pub depth: u32,
    pub node: Node,
}

// What the reader answers to a reply.
#[derive(Clone, Copy, PartialEq, Eq)]
pub enum Reading {
    Finished,
    Taken,
    Waiting,
    Senseless,
    NoRoom,
}

// The kinds of replies.
#[derive(Clone, Copy, PartialEq, Eq)]
pub enum ReplyKind {
    Last,
    Sibling,
    Child,
    Property,
    Parent,
    Wait,
    Other,
}

// A reader before the first reply.
pub fn fresh() -> Reader
    ensures { result ≡ new_reader }
{
    Reader {
        structure: 0,
        strings: 0,
        depth: 0,
        node: Node::NoChild,
    }
}

// The number of an answer.
impl From<Reading> for i32 {
    ghost from_gives = { λ r n. n ≡ reading_number r };

    fn from(r: Reading) -> i32 {
        match r {
            Reading::Finished => 0,
            Reading::Taken => 1,
            Reading::Waiting => 2,
            Reading::Senseless => -31,
            Reading::NoRoom => -32,
        }
    }
}

// The same, by name.
pub fn reading_number(r: Reading) -> i32
    ensures { result ≡ reading_number r }
{
    i32::from(r)
}

// The kind of a reply, by its status.
#[tactic(auto, unfolding(words::specs::Pick::every, words::specs::Pick::pick))]
pub fn kind_of(status: i32) -> ReplyKind
    ensures { result ≡ kind_of status }
{
    match status {
        0 => ReplyKind::Last,
        1 => ReplyKind::Sibling,
        2 => ReplyKind::Child,
        3 => ReplyKind::Property,
        4 => ReplyKind::Parent,
        5 | 9900..=9905 => ReplyKind::Wait,
        _ => ReplyKind::Other,
    }
}

// How many bytes of a buffer of `n` bytes count.
pub fn most_of(n: usize) -> usize
    ensures { result ≡ most n }
{
    n.min(131072)
}

pub fn is_waiting(kind: ReplyKind) -> bool
    ensures { result ≡ waits kind }
{
    kind == ReplyKind::Wait
}
