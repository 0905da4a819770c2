// The pool: how many free resources there are of a kind, and the lowest number among them.
#![tactic(auto)]

ghost use Rattle.std.specs.Prelude.{◌≡◌, ◌+◌, ◌-◌, ◌*◌, ◌<◌, ◌≤◌, min, drop, length, take};
ghost use Rattle.table.specs.Layout.{line_at, resource_limit};
ghost use Rattle.table.specs.Model.{rows, table_of};
ghost use Rattle.pool.specs.Pool.{bit_of, block, free_count, free_lowest, is_free, mask_of};

use kinds::{Resource, known};
use ledger::line_count;
use table::{LINE_AT, LINE_KIND, WORDS};

// How many lines a mask has bits for.
const BLOCK: usize = 64;

// What each of 32 bits counts for.
const WEIGHTS: [u32; 32] = [
    1, 2, 4, 8, 16, 32, 64, 128, 256, 512, 1024, 2048, 4096, 8192, 16384, 32768, 65536, 131072,
    262144, 524288, 1048576, 2097152, 4194304, 8388608, 16777216, 33554432, 67108864, 134217728,
    268435456, 536870912, 1073741824, 2147483648,
];

// `weight` where line `j`, whether it is in use or not, is of this kind and in the pool, else 0. Both tests are made and
// joined, so that the compiler needs no branch and takes several lines at once.
fn weighed(t: &[u32; WORDS], j: usize, kind: u32, weight: u32) -> u32
    requires { j < resource_limit }
    ensures { result ≡ bit_of (is_free kind (line_at t.now j)) * weight }
{
    if (t[LINE_KIND + j] == kind) & (t[LINE_AT + j] == 0) {
        weight
    } else {
        0
    }
}

// Bit i is set where line `start` + i, one of 32, is of this kind and in the pool.
fn half_mask(t: &[u32; WORDS], start: usize, kind: u32) -> u32
    requires { start + 32 ≤ resource_limit }
    ensures { result ≡ mask_of (is_free kind) (rows (line_at t.now) start 32) }
{
    // as a constant it would be written out anew at each turn
    let weights = WEIGHTS;
    let mut m: u32 = 0;
    let mut i = 0;
    while i < 32 {
        m += weighed(t, start + i, kind, weights[i]);
        i += 1;
    }
    m
}

// The same of a block of lines: a half, and 2 to the 32nd times the other.
fn whole_mask(t: &[u32; WORDS], start: usize, kind: u32) -> u64
    requires { start + block ≤ resource_limit }
    ensures { result ≡ mask_of (is_free kind) (rows (line_at t.now) start block) }
{
    let low = half_mask(t, start, kind);
    let high = half_mask(t, start + 32, kind);
    low as u64 + high as u64 * 4294967296
}

// How many lines there are from `start` on, at most a block.
fn block_length(t: &[u32; WORDS], start: usize) -> usize
    ensures { result ≡ min block (length (table_of t.now).ledger - start) }
{
    let n = line_count(t);
    if n <= start {
        return 0;
    }
    if n - start < BLOCK {
        return n - start;
    }
    BLOCK
}

// Bit i is set where line `start` + i is of this kind and in the pool.
fn mask(t: &[u32; WORDS], start: usize, kind: u32) -> u64
    requires { start + block ≤ resource_limit }
    ensures { result ≡ mask_of (is_free kind) (take block (drop start (table_of t.now).ledger)) }
{
    let m = whole_mask(t, start, kind);
    let n = block_length(t, start);
    if BLOCK <= n {
        return m;
    }
    m % (1 << n as u32)
}

// How many free resources there are of this kind, none of an unknown kind.
pub fn free_count(t: &[u32; WORDS], kind: u32) -> u32
    ensures { result ≡ free_count kind (table_of t.now).ledger }
{
    if !known(kind) {
        return 0;
    }
    let lines = line_count(t);
    let mut n: u32 = 0;
    let mut start = 0;
    while start < lines {
        n += u64::count_ones(mask(t, start, kind));
        start += BLOCK;
    }
    n
}

// The lowest number of a free resource of this kind; 0 if there is none, or the kind is unknown.
pub fn free_lowest(t: &[u32; WORDS], kind: u32) -> Resource
    ensures { result.0 ≡ free_lowest kind (table_of t.now).ledger }
{
    if !known(kind) {
        return Resource(0);
    }
    let n = line_count(t);
    let mut start = 0;
    while start < n {
        let m = mask(t, start, kind);
        if m != 0 {
            let number = start as u32 + u64::trailing_zeros(m) + 1;
            return Resource(number);
        }
        start += BLOCK;
    }
    Resource(0)
}
