// Lists of memory blocks and of sets of them: what both forms share.
#![tactic(auto)]

ghost use Rattle.std.specs.Prelude.{◌≡◌, ◌<◌, ◌≤◌, Ok, Err, MatchResult, IfOk, length};
ghost use mathlib.Core.List.{flat_map};
ghost use Rattle.buffer.specs.Put.{bytes32, put};
ghost use Rattle.memory_lists.specs.Lists.{long_at, rows, wrong_size};
ghost use Rattle.memory_lists.specs.Converted.{begun, counted};

use buffer::put_word;
use words::{room, word_at};

// A block: where it starts, the index of its connector, the index of its associativity list, and flags.
#[derive(Clone, Copy, PartialEq, Eq)]
pub struct Block {
    pub address: u64,
    pub index: u32,
    pub associativity: u32,
    pub flags: u32,
}

// So many blocks, each the next one after the one before.
#[derive(Clone, Copy, PartialEq, Eq)]
pub struct BlockSet {
    pub count: u32,
    pub first: Block,
}

// Why a list is not converted, in document 02's order.
#[derive(Clone, Copy, Debug, PartialEq, Eq)]
pub enum Refusal {
    ZeroSize,
    WrongSize,
    TooMany,
    ReservedNotZero,
    EmptySet,
    OutOfRange,
    NoRoom,
}

// The most blocks of a list that is converted.
pub const MOST_BLOCKS: usize = 1024;

// The bytes of a list's count, and of an entry.
pub const COUNT_BYTES: usize = 4;

pub const ENTRY_BYTES: usize = 24;

// The bytes of a block, or of a set.
pub type Entry = [u8; ENTRY_BYTES];

// The big-endian number of the eight bytes from `at` on; 0 where the list has no eight bytes there.
pub fn long_at(s: &[u8], at: usize) -> u64
    ensures { result ≡ long_at s.now at }
{
    if room(s, at) < 8 {
        return 0;
    }
    u64::from(word_at(s, at)) << 32 | u64::from(word_at(s, at + 4))
}

// Whether a list has no count, or more or fewer bytes than its count says.
pub fn wrong_size(s: &[u8]) -> bool
    ensures { result ≡ wrong_size s.now }
{
    if s.len() < COUNT_BYTES {
        return true;
    }
    s.len() != COUNT_BYTES + ENTRY_BYTES * word_at(s, 0) as usize
}

// The entries of a list that has as many bytes as its count says; the block size is not 0.
pub fn entries(size: u64, list: &[u8]) -> Result<&[Entry], Refusal>
    ensures count { MatchResult result (λ r. counted size list.now ≡ Ok (length r.now)) (λ e. counted size list.now ≡ Err e) }
    ensures rows { IfOk result (λ r. r.now ≡ rows list.now) }
    ensures few { IfOk result (λ r. length r.now < 4294967296) }
{
    if size == 0 {
        return Err(Refusal::ZeroSize);
    }
    if wrong_size(list) {
        return Err(Refusal::WrongSize);
    }
    let (entries, _) = list[COUNT_BYTES..].as_chunks();
    Ok(entries)
}

// The count of a list of `n` entries, where there is room for the list; the answer is how many bytes it has.
pub fn begin_list(out: &mut [u8], n: u16) -> Result<u32, Refusal>
    ensures { (result, out.new) ≡ begun n out.old }
{
    let bytes = COUNT_BYTES + ENTRY_BYTES * usize::from(n);
    if out.len() < bytes {
        return Err(Refusal::NoRoom);
    }
    put_word(out, 0, u32::from(n));
    Ok(bytes as u32)
}

// Six words at `at`, where there is room for them.
pub fn put_entry(out: &mut [u8], at: usize, words: [u32; 6])
    ensures { out.new ≡ put out.old at (flat_map bytes32 words) }
{
    if ENTRY_BYTES <= room(out, at) {
        let entry = &mut out[at..at + ENTRY_BYTES];
        for (i, word) in words.iter().enumerate() {
            put_word(entry, 4 * i, *word);
        }
    }
}
