// A list of sets of memory blocks converted to a list of blocks.
#![tactic(auto)]

ghost use Rattle.std.specs.Prelude.{◌≡◌, ℕ, true, false, ◌+◌, ◌-◌, ◌*◌, ◌<◌, ◌≤◌, length, MatchOption};
ghost use mathlib.Core.List.{flat_map};
ghost use Rattle.words.specs.Pick.{any};
ghost use Rattle.buffer.specs.Put.{put};
ghost use Rattle.memory_lists.specs.Blocks.{blocks_from, expanded};
ghost use Rattle.memory_lists.specs.Lists.{block_bytes, set_at};
ghost use Rattle.memory_lists.specs.Converted.{answered};
ghost use Rattle.memory_expanding.specs.Expanding.{block_after, is_empty, leaves, sets_of, sum_of, to_v1};

use memory_lists::{
    Block, BlockSet, COUNT_BYTES, ENTRY_BYTES, Entry, MOST_BLOCKS, Refusal, begin_list, entries,
    long_at, put_entry,
};
use words::word_at;

// The reserved word of a block's entry.
const RESERVED: u32 = 0;

// The set of an entry.
fn set_of(entry: &Entry) -> BlockSet
    ensures { result ≡ set_at entry.now 0 }
{
    BlockSet {
        count: word_at(entry, 0),
        first: Block {
            address: long_at(entry, 4),
            index: word_at(entry, 12),
            associativity: word_at(entry, 16),
            flags: word_at(entry, 20),
        },
    }
}

// How many blocks the sets have, in one pass.
fn count_blocks(entries: &[Entry]) -> usize
    requires { length entries.now < 4294967296 }
    ensures { result ≡ sum_of (sets_of entries.now) }
{
    entries.iter().map(|entry| word_at(entry, 0) as usize).sum()
}

// One pass over the lengths of the sets.
fn any_empty(entries: &[Entry]) -> bool
    ensures { result ≡ any is_empty (sets_of entries.now) }
{
    entries.iter().any(|entry| word_at(entry, 0) == 0)
}

// The block `n` places after the first one, where its address and its index stay in 64 and 32 bits.
fn block_after(size: u64, first: Block, n: u32) -> Option<Block>
    ensures { MatchOption result (leaves (block_after size n first) ≡ true) (λ b. (b ≡ block_after size n first) × (leaves b ≡ false)) }
{
    let far = u64::from(n).checked_mul(size)?;
    Some(Block {
        address: first.address.checked_add(far)?,
        index: first.index.checked_add(n)?,
        ..first
    })
}

// Whether a block of a set, and then its last one, leaves 64 or 32 bits.
fn set_leaves(size: u64, set: BlockSet) -> bool
    ensures { result ≡ any leaves (blocks_from size set.count set.first) }
{
    block_after(size, set.first, set.count.saturating_sub(1)).is_none()
}

// One pass over the sets.
fn any_leaves(size: u64, entries: &[Entry]) -> bool
    ensures { result ≡ any leaves (expanded size (sets_of entries.now)) }
{
    entries.iter().any(|entry| set_leaves(size, set_of(entry)))
}

// The entry of a block at `to`.
fn put_block(out: &mut [u8], to: usize, b: Block)
    ensures { out.new ≡ put out.old to (block_bytes b) }
{
    put_entry(
        out,
        to,
        [
            (b.address >> 32) as u32,
            (b.address & 0xFFFF_FFFF) as u32,
            b.index,
            RESERVED,
            b.associativity,
            b.flags,
        ],
    );
}

// The entries of a set's blocks from `to` on, for which there is room; none of them leaves 64 or 32 bits.
fn put_run(size: u64, set: BlockSet, out: &mut [u8], to: usize)
    requires room { 24 * set.count ≤ length out.old - to }
    requires stays { any leaves (blocks_from size set.count set.first) ≡ false }
    ensures { out.new ≡ put out.old to (flat_map block_bytes (blocks_from size set.count set.first)) }
{
    for i in 0..set.count {
        let block = block_after(size, set.first, i).unwrap();
        put_block(out, to + ENTRY_BYTES * i as usize, block);
    }
}

// The entries of the blocks of the sets, behind the count, for which there is room.
fn put_blocks(size: u64, entries: &[Entry], out: &mut [u8])
    requires room { 4 + 24 * sum_of (sets_of entries.now) ≤ length out.old }
    requires stays { any leaves (expanded size (sets_of entries.now)) ≡ false }
    ensures { out.new ≡ put out.old 4 (flat_map block_bytes (expanded size (sets_of entries.now))) }
{
    let mut to = COUNT_BYTES;
    for entry in entries {
        let set = set_of(entry);
        put_run(size, set, out, to);
        to += ENTRY_BYTES * set.count as usize;
    }
}

// The blocks of a list of sets as a list; the answer is how many bytes it has.
pub fn to_v1(size: u64, list: &[u8], out: &mut [u8]) -> Result<u32, Refusal>
    ensures { (written : ℕ) → answered result out.new written ≡ to_v1 size list.now out.old written }
{
    let sets = entries(size, list)?;
    let blocks = count_blocks(sets);
    if MOST_BLOCKS < blocks {
        return Err(Refusal::TooMany);
    }
    if any_empty(sets) {
        return Err(Refusal::EmptySet);
    }
    if any_leaves(size, sets) {
        return Err(Refusal::OutOfRange);
    }
    let bytes = begin_list(out, blocks as u16)?;
    put_blocks(size, sets, out);
    Ok(bytes)
}
