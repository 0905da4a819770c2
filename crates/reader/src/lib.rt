// The guest's reader of a walk's replies: it writes a structure block and a strings block into two buffers.
#![tactic(auto)]

ghost use Rattle.std.specs.Prelude.{◌≡◌, ◌+◌, ◌<◌, ◌≤◌, length};
ghost use Rattle.replies.specs.declared.ReplyKind.TheVariants.{Parent};
ghost use Rattle.replies.specs.Replies.{most};
ghost use Rattle.sensible.specs.Sensible.{name_in, value_in};
ghost use Rattle.reader.specs.Replies.{tokens_of, depth_after, next, outcome, added, taken, reply};
ghost use Rattle.reader.specs.Steps.{Sound, size_of, fresh_bytes};

use after_reply::{answer_of, has_room, node_after};
use name_places::{Place, place_for};
use replies::{Node, Reader, Reading, ReplyKind, is_waiting, kind_of};
use sensible::{Parts, is_sensible, parts_of};
use tokens::{size_of, write_name, write_tokens};

mod tokens;

// An answer, and the record afterwards.
#[derive(Clone, Copy, PartialEq, Eq)]
pub struct Read {
    pub answer: Reading,
    pub reader: Reader,
}

fn depth_after(kind: ReplyKind, depth: u32) -> u32
    requires { (depth ≤ 8) × ((kind ≡ Parent) → 1 ≤ depth) }
    ensures { result ≡ depth_after kind depth }
{
    match kind {
        ReplyKind::Last => 0,
        ReplyKind::Child => depth + 1,
        ReplyKind::Parent => depth - 1,
        ReplyKind::Sibling | ReplyKind::Property | ReplyKind::Wait | ReplyKind::Other => depth,
    }
}

// The record after a reply that added so many bytes to each block.
fn next_reader(r: Reader, kind: ReplyKind, size: usize, fresh: u32) -> Reader
    requires { (r.structure + size ≤ 131072) × (r.strings + fresh ≤ 131072) × (r.depth ≤ 8) × (kind ≡ Parent → 1 ≤ r.depth) }
    ensures { result ≡ next r kind size fresh }
{
    Reader {
        structure: r.structure + size as u32,
        strings: r.strings + fresh,
        depth: depth_after(kind, r.depth),
        node: node_after(kind, r.node),
    }
}

// The reply's tokens and new name are written, for which there is room.
fn write(
    r: Reader,
    kind: ReplyKind,
    p: Parts,
    place: Place,
    size: usize,
    area: &[u8],
    structure: &mut [u8],
    strings: &mut [u8],
) -> Read
    requires { (Sound r kind p (length area.now) (length structure.old) (length strings.old)) × (size ≡ size_of kind p) × (r.structure + size ≤ most (length structure.old)) × (r.strings + place.fresh ≤ most (length strings.old)) × (0 < place.fresh → place.fresh ≡ p.n + 1) }
    ensures { outcome result structure.new strings.new ≡ added r kind (tokens_of kind place.at (name_in p area.now) (value_in p area.now)) (fresh_bytes place.fresh (name_in p area.now)) structure.old strings.old }
{
    write_tokens(kind, p, place.at, area, structure, r.structure as usize);
    write_name(p, place.fresh, area, strings, r.strings as usize);
    Read {
        answer: answer_of(kind),
        reader: next_reader(r, kind, size, place.fresh),
    }
}

// A reply that makes sense and does not wait.
fn take_reply(
    r: Reader,
    kind: ReplyKind,
    p: Parts,
    area: &[u8],
    structure: &mut [u8],
    strings: &mut [u8],
) -> Read
    requires { Sound r kind p (length area.now) (length structure.old) (length strings.old) }
    ensures { outcome result structure.new strings.new ≡ taken r kind p area.now structure.old strings.old }
{
    let size = size_of(kind, p);
    if !has_room(structure.len(), r.structure, size) {
        return Read {
            answer: Reading::NoRoom,
            reader: r,
        };
    }
    let place = place_for(kind, p, area, strings, r.strings);
    if !has_room(strings.len(), r.strings, place.fresh as usize) {
        return Read {
            answer: Reading::NoRoom,
            reader: r,
        };
    }
    write(r, kind, p, place, size, area, structure, strings)
}

// The reader takes one reply: its status and the work area.
pub fn read_reply(
    r: Reader,
    status: i32,
    area: &[u8],
    structure: &mut [u8],
    strings: &mut [u8],
) -> Read
    ensures { outcome result structure.new strings.new ≡ reply r status area.now structure.old strings.old }
{
    let kind = kind_of(status);
    let p = parts_of(kind, area);
    if !is_sensible(r, kind, p, area.len(), structure.len(), strings.len()) {
        return Read {
            answer: Reading::Senseless,
            reader: r,
        };
    }
    if is_waiting(kind) {
        return Read {
            answer: Reading::Waiting,
            reader: r,
        };
    }
    take_reply(r, kind, p, area, structure, strings)
}
