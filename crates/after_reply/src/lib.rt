// The guest's reader after a reply: its innermost node, its answer, and whether its buffers have room.
#![tactic(auto)]

ghost use Rattle.std.specs.Prelude.{◌≡◌, ◌+◌, leb};
ghost use Rattle.replies.specs.Replies.{most};
ghost use Rattle.after_reply.specs.After.{node_after, answer_of};

use replies::{Node, Reading, ReplyKind, most_of};

// The innermost node after a reply of this kind.
pub fn node_after(kind: ReplyKind, node: Node) -> Node
    ensures { result ≡ node_after kind node }
{
    match kind {
        ReplyKind::Last => Node::Finished,
        ReplyKind::Sibling | ReplyKind::Child => Node::NoChild,
        ReplyKind::Parent => Node::HasChild,
        ReplyKind::Property | ReplyKind::Wait | ReplyKind::Other => node,
    }
}

// The answer to a reply of this kind that is taken.
pub fn answer_of(kind: ReplyKind) -> Reading
    ensures { result ≡ answer_of kind }
{
    match kind {
        ReplyKind::Last => Reading::Finished,
        ReplyKind::Sibling | ReplyKind::Child | ReplyKind::Property | ReplyKind::Parent =>
            Reading::Taken,
        ReplyKind::Wait => Reading::Waiting,
        ReplyKind::Other => Reading::Senseless,
    }
}

// Whether `size` bytes more than `used` fit into what counts of a buffer of `n` bytes.
pub fn has_room(n: usize, used: u32, size: usize) -> bool
    ensures { result ≡ leb (used + size) (most n) }
{
    let end = most_of(n);
    let at = used as usize;
    at <= end && size <= end - at
}
