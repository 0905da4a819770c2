// The types of connectors as texts, by kind and back.
#![tactic(auto)]

ghost use Rattle.std.specs.Prelude.{◌≡◌, ◌≤◌, length};
ghost use Rattle.words.specs.Bytes.{part};
ghost use Rattle.type_texts.specs.Types.{kind_of_text, type_text};

use kinds::{CPU, MEM, PHB, SLOT};

// Texts as words: the three bytes of a type with its NUL, the four of `SLOT` without.
pub const CPU_TEXT: u32 = 1129338112;

pub const PHB_TEXT: u32 = 1346912768;

pub const SLOT_TEXT: u32 = 1397509972;

pub const MEM_TEXT: u32 = 1296387328;

// How long the text of a kind is.
#[tactic(auto, unfolding(crate::specs::Types::text_in, words::specs::Pick::pick))]
pub fn text_length(kind: u32) -> usize
    ensures { (result ≡ length (type_text kind)) × (result ≤ 4) }
{
    match kind {
        CPU => 3,
        PHB => 3,
        SLOT => 4,
        MEM => 3,
        _ => 0,
    }
}

#[tactic(auto, using(crate::proofs::Types::same_pointwise), unfolding(crate::specs::Types::kind_in, words::specs::Pick::pick))]
fn kind_named(text: &[u8]) -> Option<u32>
    ensures { result ≡ kind_of_text text.now }
{
    if text == b"CPU".as_slice() {
        Some(CPU)
    } else if text == b"PHB".as_slice() {
        Some(PHB)
    } else if text == b"SLOT".as_slice() {
        Some(SLOT)
    } else if text == b"MEM".as_slice() {
        Some(MEM)
    } else {
        None
    }
}

// The kind whose text the `n` bytes from `at` on are, or as many as there are.
pub fn kind_of_text(s: &[u8], at: usize, n: usize) -> Option<u32>
    ensures { result ≡ kind_of_text (part s.now at n) }
{
    let rest = s.get(at..)?;
    kind_named(&rest[..n.min(rest.len())])
}
