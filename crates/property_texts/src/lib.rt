// The strings of an array property: where they end, and which types they are.
#![tactic(auto)]

ghost use Rattle.std.specs.Prelude.{◌≡◌, ◌-◌, ◌≤◌, length};
ghost use Rattle.property_texts.specs.Texts.{TypedAt, length_at, past_texts, unknown_in};
ghost use Rattle.words.specs.Bytes.{word_at};

use kinds::{CPU, MEM, PHB, SLOT};
use type_texts::{CPU_TEXT, MEM_TEXT, PHB_TEXT, SLOT_TEXT, kind_of_text};
use words::{name_length, room, word_at};

// How long the string at `at` is: up to its NUL, or to the end where it has none.
pub fn length_at(s: &[u8], at: usize) -> usize
    ensures { (result ≡ length_at s.now at) × (result ≤ length s.now - at) }
{
    name_length(s, at, room(s, at))
}

// The place behind the first `n` strings after the count, past the end where one has no NUL.
pub fn past_texts(s: &[u8], n: u32) -> usize
    ensures { result ≡ past_texts n s.now 4 }
{
    let mut at = 4;
    for _ in 0..n {
        if s.len() < at {
            return at;
        }
        at = at + length_at(s, at) + 1;
    }
    at
}

// A string's type: its kind, if it is one's, and how long the string is.
#[derive(Clone, Copy, PartialEq, Eq)]
pub struct Typed {
    pub kind: Option<u32>,
    pub long: usize,
}

fn any_type_at(s: &[u8], at: usize) -> Typed
    ensures { TypedAt s.now at result }
{
    let long = length_at(s, at);
    Typed {
        kind: kind_of_text(s, at, long),
        long,
    }
}

// A string that begins with `SLOT`.
fn slot_at(s: &[u8], at: usize) -> Typed
    requires { word_at s.now at ≡ 1397509972 }
    ensures { TypedAt s.now at result }
{
    if room(s, at) < 5 || s[at + 4] != 0 {
        return any_type_at(s, at);
    }
    Typed {
        kind: Some(SLOT),
        long: 4,
    }
}

fn of_three(kind: u32) -> Typed
    ensures { (result.kind ≡ Some kind) × (result.long ≡ 3) }
{
    Typed {
        kind: Some(kind),
        long: 3,
    }
}

// The type of the string at `at`: the known ones by their first four bytes. Inlined, as a `Typed` would come back
// through memory.
#[inline(always)]
pub fn type_at(s: &[u8], at: usize) -> Typed
    ensures { TypedAt s.now at result }
{
    match word_at(s, at) {
        CPU_TEXT => of_three(CPU),
        PHB_TEXT => of_three(PHB),
        MEM_TEXT => of_three(MEM),
        SLOT_TEXT => slot_at(s, at),
        _ => any_type_at(s, at),
    }
}

// Where strings end, and whether one of them is no type. This is no `Result`: the reader asks for the end in either
// case, as it refuses unended strings (`answer_to`) before unknown types.
#[derive(Clone, Copy, PartialEq, Eq)]
pub struct Scan {
    pub end: usize,
    pub unknown: bool,
}

// The first `n` strings after the count, which should be types.
pub fn scan_types(s: &[u8], n: u32) -> Scan
    ensures { (result.end ≡ past_texts n s.now 4) × (result.unknown ≡ unknown_in n s.now 4) }
{
    let mut at = 4;
    let mut unknown = false;
    for _ in 0..n {
        if s.len() < at {
            return Scan {
                end: at,
                unknown: true,
            };
        }
        let t = type_at(s, at);
        unknown |= t.kind.is_none();
        at = at + t.long + 1;
    }
    Scan { end: at, unknown }
}
