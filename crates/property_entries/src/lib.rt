// The entry of a connector in each of the four array properties: how long it is, and its bytes in a buffer.
#![tactic(auto)]

ghost use Rattle.std.specs.Prelude.{◌≡◌, [], ◌∷◌, ◌-◌, ◌≤◌, length};
ghost use Rattle.buffer.specs.Put.{put};
ghost use Rattle.kinds.specs.Kinds.{slot};
ghost use Rattle.type_texts.specs.Types.{type_text, with_nul};
ghost use Rattle.property_entries.specs.Entries.{entry, prefix_of};
ghost use Rattle.property_entries.specs.declared.ArrayProperty.TheVariants.{Names};

use buffer::put_word;
use decimal::{digit_count, put_digits};
use kinds::{CPU, MEM, PHB, SLOT};
use type_texts::{CPU_TEXT, MEM_TEXT, PHB_TEXT, SLOT_TEXT, text_length};
use words::room;

// The four arrays.
#[derive(Clone, Copy, PartialEq, Eq)]
pub enum ArrayProperty {
    Names,
    Indexes,
    Domains,
    Types,
}

// The power domain of every connector.
const DOMAIN: u32 = 4294967295;

// One past the low 28 bits of an index.
const LOW: u32 = 268435456;

// What stands before the decimal in a name, as a word: the type and a space.
const CPU_NAME: u32 = CPU_TEXT + 32;

const PHB_NAME: u32 = PHB_TEXT + 32;

const MEM_NAME: u32 = MEM_TEXT + 32;

// How long the part before the decimal in a name is.
#[tactic(auto, unfolding(crate::specs::Entries::prefix_of, type_texts::specs::Types::text_in, words::specs::Pick::pick))]
fn prefix_length(kind: u32) -> usize
    ensures { (result ≡ length (prefix_of kind)) × (result ≤ 4) }
{
    match kind {
        CPU => 4,
        PHB => 4,
        SLOT => 1,
        MEM => 4,
        _ => 1,
    }
}

// How long an entry is.
#[tactic(auto, unfolding(crate::specs::Entries::entry))]
pub fn entry_length(property: ArrayProperty, kind: u32, index: u32) -> usize
    ensures { (result ≡ length (entry property kind index)) × (result ≤ 16) }
{
    match property {
        ArrayProperty::Names => prefix_length(kind) + digit_count(index % LOW) + 1,
        ArrayProperty::Indexes => 4,
        ArrayProperty::Domains => 4,
        ArrayProperty::Types => text_length(kind) + 1,
    }
}

// The part before the decimal in a name.
#[tactic(auto, unfolding(crate::specs::Entries::prefix_of, type_texts::specs::Types::text_in, words::specs::Pick::pick))]
fn put_prefix(dst: &mut [u8], at: usize, kind: u32)
    ensures { dst.new ≡ put dst.old at (prefix_of kind) }
{
    match kind {
        CPU => put_word(dst, at, CPU_NAME),
        PHB => put_word(dst, at, PHB_NAME),
        SLOT => put_byte(dst, at, b'C'),
        MEM => put_word(dst, at, MEM_NAME),
        _ => put_byte(dst, at, b' '),
    }
}

// A name at `at`, for which there is room.
#[tactic(auto, using(crate::proofs::Entries::name_steps))]
fn put_name_here(dst: &mut [u8], at: usize, kind: u32, index: u32)
    requires { length (entry Names kind index) ≤ length dst.old - at }
    ensures { dst.new ≡ put dst.old at (entry Names kind index) }
{
    let n = prefix_length(kind);
    put_prefix(dst, at, kind);
    let digits = put_digits(dst, at + n, index % LOW);
    dst[at + n + digits] = 0;
}

fn put_name(dst: &mut [u8], at: usize, kind: u32, index: u32) -> usize
    ensures { (dst.new ≡ put dst.old at (entry Names kind index)) × (result ≡ length (entry Names kind index)) × (result ≤ 16) }
{
    let n = entry_length(ArrayProperty::Names, kind, index);
    if n <= room(dst, at) {
        put_name_here(dst, at, kind, index);
    }
    n
}

fn put_byte(dst: &mut [u8], at: usize, x: u8)
    ensures { dst.new ≡ put dst.old at (x ∷ []) }
{
    if at < dst.len() {
        dst[at] = x;
    }
}

// `SLOT` and its NUL.
#[tactic(auto, unfolding(type_texts::specs::Types::text_in, words::specs::Pick::pick))]
fn put_slot(dst: &mut [u8], at: usize)
    ensures { dst.new ≡ put dst.old at (with_nul (type_text slot)) }
{
    if 5 <= room(dst, at) {
        put_word(dst, at, SLOT_TEXT);
        dst[at + 4] = 0;
    }
}

// The text of a kind and its NUL.
#[tactic(auto, unfolding(type_texts::specs::Types::text_in, words::specs::Pick::pick))]
fn put_text(dst: &mut [u8], at: usize, kind: u32)
    ensures { dst.new ≡ put dst.old at (with_nul (type_text kind)) }
{
    match kind {
        CPU => put_word(dst, at, CPU_TEXT),
        PHB => put_word(dst, at, PHB_TEXT),
        SLOT => put_slot(dst, at),
        MEM => put_word(dst, at, MEM_TEXT),
        _ => put_byte(dst, at, 0),
    }
}

// An entry at `at`; the answer is how long it is.
#[tactic(auto, unfolding(crate::specs::Entries::entry))]
pub fn put_entry(dst: &mut [u8], at: usize, property: ArrayProperty, kind: u32, index: u32) -> usize
    ensures { (dst.new ≡ put dst.old at (entry property kind index)) × (result ≡ length (entry property kind index)) × (result ≤ 16) }
{
    match property {
        ArrayProperty::Names => put_name(dst, at, kind, index),
        ArrayProperty::Indexes => {
            put_word(dst, at, index);
            4
        }
        ArrayProperty::Domains => {
            put_word(dst, at, DOMAIN);
            4
        }
        ArrayProperty::Types => {
            put_text(dst, at, kind);
            text_length(kind) + 1
        }
    }
}
