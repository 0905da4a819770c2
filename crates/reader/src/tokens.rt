// Tokens written into the structure block, and a new name into the strings block.
ghost use Rattle.std.specs.Prelude.{◌≡◌, ◌+◌, ◌^◌, ◌<◌, ◌≤◌, length};
ghost use Rattle.std.proofs.lemmas.List.Edits.{sets};
ghost use Rattle.devtree.specs.Tokens.{up4};
ghost use Rattle.reader.specs.Bytes.{filled, begin_bytes, prop_bytes};
ghost use Rattle.sensible.specs.Sensible.{name_in, value_in};
ghost use Rattle.reader.specs.Replies.{tokens_of};
ghost use Rattle.reader.specs.Steps.{size_of, fresh_bytes};

use buffer::{copy_bytes, put_word};
use replies::ReplyKind;
use sensible::Parts;

// `n` rounded up to a multiple of 4.
fn up_to_four(n: u32) -> usize
    ensures { result ≡ up4 n }
{
    (n as usize).next_multiple_of(4)
}

// The bytes of `src` and zeros: `size` bytes in all.
fn put_filled(dst: &mut [u8], at: usize, src: &[u8], size: usize)
    requires { (at + size ≤ length dst.old) × (length src.now ≤ size) }
    ensures { dst.new ≡ sets dst.old at (filled size src.now) }
{
    let n = src.len();
    copy_bytes(dst, at, src, 0, n);
    dst[at + n..at + size].fill(0);
}

// A begin-node token.
fn put_begin(dst: &mut [u8], at: usize, name: &[u8])
    requires { (length name.now ≤ 48) × (at + 4 + up4 (length name.now + 1) ≤ length dst.old) }
    ensures { dst.new ≡ sets dst.old at (begin_bytes name.now) }
{
    put_word(dst, at, 1);
    put_filled(dst, at + 4, name, up_to_four(name.len() as u32 + 1));
}

// A property token; its name stands at `offset` in the strings block.
fn put_property(dst: &mut [u8], at: usize, offset: u32, value: &[u8])
    requires { (length value.now < 2 ^ 32) × (at + 12 + up4 (length value.now) ≤ length dst.old) }
    ensures { dst.new ≡ sets dst.old at (prop_bytes offset value.now) }
{
    let n = value.len() as u32;
    put_word(dst, at, 3);
    put_word(dst, at + 4, n);
    put_word(dst, at + 8, offset);
    put_filled(dst, at + 12, value, up_to_four(n));
}

// How many bytes the tokens of a reply are.
pub(crate) fn size_of(kind: ReplyKind, p: Parts) -> usize
    requires { p.n ≤ 48 }
    ensures { result ≡ size_of kind p }
{
    match kind {
        ReplyKind::Last => 8,
        ReplyKind::Sibling => 8 + up_to_four(p.n + 1),
        ReplyKind::Child => 4 + up_to_four(p.n + 1),
        ReplyKind::Property => 12 + up_to_four(p.len),
        ReplyKind::Parent => 4,
        ReplyKind::Wait | ReplyKind::Other => 0,
    }
}

// The name in the work area, and the value.
fn name_of(p: Parts, area: &[u8]) -> &[u8]
    requires { p.name + p.n ≤ length area.now }
    ensures { result.now ≡ name_in p area.now }
{
    let at = p.name as usize;
    &area[at..at + p.n as usize]
}

fn value_of(p: Parts, area: &[u8]) -> &[u8]
    requires { p.value + p.len ≤ length area.now }
    ensures { result.now ≡ value_in p area.now }
{
    let at = p.value as usize;
    &area[at..at + p.len as usize]
}

// The tokens of a reply at `at`; `place` is where a property's name stands in the strings block.
#[tactic(auto, unfolding(crate::specs::Replies::tokens_of))]
pub(crate) fn write_tokens(
    kind: ReplyKind,
    p: Parts,
    place: u32,
    area: &[u8],
    structure: &mut [u8],
    at: usize,
)
    requires { (at + size_of kind p ≤ length structure.old) × (p.n ≤ 48) × (p.name + p.n ≤ length area.now) × (p.value + p.len ≤ length area.now) }
    ensures { structure.new ≡ sets structure.old at (tokens_of kind place (name_in p area.now) (value_in p area.now)) }
{
    match kind {
        ReplyKind::Last => {
            put_word(structure, at, 2);
            put_word(structure, at + 4, 9);
        }
        ReplyKind::Sibling => {
            put_word(structure, at, 2);
            put_begin(structure, at + 4, name_of(p, area));
        }
        ReplyKind::Child => put_begin(structure, at, name_of(p, area)),
        ReplyKind::Property => put_property(structure, at, place, value_of(p, area)),
        ReplyKind::Parent => put_word(structure, at, 2),
        ReplyKind::Wait | ReplyKind::Other => {}
    }
}

// A new name and its NUL at `at`, where it adds any bytes.
pub(crate) fn write_name(p: Parts, fresh: u32, area: &[u8], strings: &mut [u8], at: usize)
    requires { (at + fresh ≤ length strings.old) × (0 < fresh → fresh ≡ p.n + 1) × (p.n ≤ 48) × (p.name + p.n ≤ length area.now) }
    ensures { strings.new ≡ sets strings.old at (fresh_bytes fresh (name_in p area.now)) }
{
    if 0 < fresh {
        put_filled(strings, at, name_of(p, area), p.n as usize + 1);
    }
}
