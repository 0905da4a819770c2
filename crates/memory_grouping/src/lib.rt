// A list of memory blocks converted to a list of sets.
#![tactic(auto)]

ghost use Rattle.std.specs.Prelude.{◌≡◌, ℕ, ◌+◌, ◌*◌, ◌≤◌, length, map};
ghost use mathlib.Core.List.{flat_map};
ghost use Rattle.words.specs.Pick.{any};
ghost use Rattle.buffer.specs.Put.{put};
ghost use Rattle.memory_lists.specs.Blocks.{grouped, neighbours};
ghost use Rattle.memory_lists.specs.Lists.{block_at, reserved_at, set_bytes};
ghost use Rattle.memory_lists.specs.Converted.{answered};
ghost use Rattle.memory_grouping.specs.Grouping.{blocks_of, not_zero, to_v2};

use memory_lists::{
    Block, BlockSet, COUNT_BYTES, ENTRY_BYTES, Entry, MOST_BLOCKS, Refusal, begin_list, entries,
    long_at, put_entry,
};
use words::word_at;

// The block of an entry.
fn block_of(entry: &Entry) -> Block
    ensures { result ≡ block_at entry.now 0 }
{
    Block {
        address: long_at(entry, 0),
        index: word_at(entry, 8),
        associativity: word_at(entry, 16),
        flags: word_at(entry, 20),
    }
}

// Whether `b` is the next block after `a`; a sum that leaves its width is the address or the index of no block.
fn is_next(size: u64, a: Block, b: Block) -> bool
    ensures { result ≡ neighbours size a b }
{
    a.address.checked_add(size) == Some(b.address)
        && a.index.checked_add(1) == Some(b.index)
        && b.associativity == a.associativity
        && b.flags == a.flags
}

// Whether the block of one entry is the next one after that of another.
fn goes_on(size: u64, a: &Entry, b: &Entry) -> bool
    ensures { result ≡ neighbours size (block_at a.now 0) (block_at b.now 0) }
{
    is_next(size, block_of(a), block_of(b))
}

// One pass over the reserved words.
fn any_reserved(entries: &[Entry]) -> bool
    ensures { result ≡ any not_zero (map (λ e. reserved_at e 0) entries.now) }
{
    entries.iter().any(|entry| word_at(entry, 12) != 0)
}

// How many sets the blocks make, in one pass.
fn count_sets(size: u64, entries: &[Entry]) -> usize
    ensures { result ≡ length (grouped size (blocks_of entries.now)) }
{
    entries.chunk_by(|a, b| goes_on(size, a, b)).count()
}

// The entry of a set at `to`.
fn put_set(out: &mut [u8], to: usize, set: BlockSet)
    ensures { out.new ≡ put out.old to (set_bytes set) }
{
    put_entry(
        out,
        to,
        [
            set.count,
            (set.first.address >> 32) as u32,
            (set.first.address & 0xFFFF_FFFF) as u32,
            set.first.index,
            set.first.associativity,
            set.first.flags,
        ],
    );
}

// The entries of the sets that the blocks make, behind the count, for which there is room.
fn put_sets(size: u64, entries: &[Entry], out: &mut [u8])
    requires few { length entries.now ≤ 1024 }
    requires room { 4 + 24 * length (grouped size (blocks_of entries.now)) ≤ length out.old }
    ensures { out.new ≡ put out.old 4 (flat_map set_bytes (grouped size (blocks_of entries.now))) }
{
    // the place goes beside: after a loop over entries lent to be written, nothing is known of the buffer
    let mut to = COUNT_BYTES;
    for set in entries.chunk_by(|a, b| goes_on(size, a, b)) {
        let count = set.len() as u32;
        let first = block_of(&set[0]);
        put_set(out, to, BlockSet { count, first });
        to += ENTRY_BYTES;
    }
}

// The sets of a list of blocks as a list; the answer is how many bytes it has.
pub fn to_v2(size: u64, list: &[u8], out: &mut [u8]) -> Result<u32, Refusal>
    ensures { (written : ℕ) → answered result out.new written ≡ to_v2 size list.now out.old written }
{
    let blocks = entries(size, list)?;
    if MOST_BLOCKS < blocks.len() {
        return Err(Refusal::TooMany);
    }
    if any_reserved(blocks) {
        return Err(Refusal::ReservedNotZero);
    }
    let bytes = begin_list(out, count_sets(size, blocks) as u16)?;
    put_sets(size, blocks, out);
    Ok(bytes)
}
