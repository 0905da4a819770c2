// The entries of a list, each run whose numbers go up by the same from entry to entry written as its first entry, what each
// number goes up by, and how many entries there are.
ghost use Rattle.std.specs.Prelude.{◌+◌, ◌*◌, ◌<◌, ◌≤◌, length};

use crate::print::{print_text, print_word};
use case_io::STDOUT_FILENO;
use words::word_at;

// An entry's numbers: of a block its address, its index and the reserved word; of a set how many blocks it has, and the
// first one's address and index. Both then have the associativity index and the flags.
#[derive(Clone, Copy, PartialEq, Eq)]
pub struct Entry {
    pub first: u64,
    pub second: u64,
    pub third: u64,
    pub associativity: u64,
    pub flags: u64,
}

fn joined(high: u32, low: u32) -> u64 {
    u64::from(high) << 32 | u64::from(low)
}

// How many bytes an entry has.
const ENTRY: usize = 24;

// Entry `i` of a list of sets, or of blocks.
fn entry_at(s: &[u8], i: usize, sets: bool) -> Entry
    requires { ENTRY * i + ENTRY ≤ length s.now }
{
    let at = ENTRY * i;
    let a = word_at(s, at);
    let b = word_at(s, at + 4);
    let c = word_at(s, at + 8);
    Entry {
        first: if sets { u64::from(a) } else { joined(a, b) },
        second: if sets { joined(b, c) } else { u64::from(c) },
        third: u64::from(word_at(s, at + 12)),
        associativity: u64::from(word_at(s, at + 16)),
        flags: u64::from(word_at(s, at + 20)),
    }
}

// How much entry `i` is above the one before it.
fn step(s: &[u8], i: usize, sets: bool) -> Entry
    requires { (0 < i) × (ENTRY * i + ENTRY ≤ length s.now) }
{
    let a = entry_at(s, i - 1, sets);
    let b = entry_at(s, i, sets);
    Entry {
        first: b.first.wrapping_sub(a.first),
        second: b.second.wrapping_sub(a.second),
        third: b.third.wrapping_sub(a.third),
        associativity: b.associativity.wrapping_sub(a.associativity),
        flags: b.flags.wrapping_sub(a.flags),
    }
}

// Whether entry `i` is in one run with those before it.
fn in_run(s: &[u8], i: usize, sets: bool) -> bool
    requires { ENTRY * i + ENTRY ≤ length s.now }
{
    i < 2 || step(s, i - 1, sets) == step(s, i, sets)
}

// How many entries the first run has.
fn run_length(s: &[u8], sets: bool) -> usize
    requires { ENTRY ≤ length s.now }
    ensures { (0 < result) × (ENTRY * result ≤ length s.now) }
{
    let count = s.len() / ENTRY;
    for i in 1..count {
        if !in_run(s, i, sets) {
            return i;
        }
    }
    count
}

fn print_number(x: u64) {
    io::print_hex(STDOUT_FILENO, x, 1);
}

fn print_entry(e: Entry) {
    print_number(e.first);
    print_text(b":");
    print_number(e.second);
    print_text(b":");
    print_number(e.third);
    print_text(b":");
    print_number(e.associativity);
    print_text(b":");
    print_number(e.flags);
}

// The first run where it has three entries or more, else the first entry; the answer is what follows.
fn print_next(s: &[u8], sets: bool) -> &[u8]
    requires { ENTRY ≤ length s.now }
    ensures { length result.now < length s.now }
{
    let n = run_length(s, sets);
    print_entry(entry_at(s, 0, sets));
    if n < 3 {
        return &s[ENTRY..];
    }
    print_text(b"+");
    print_entry(step(s, 1, sets));
    print_text(b"*");
    io::print_decimal(STDOUT_FILENO, n as u64);
    &s[ENTRY * n..]
}

// The count of a list and its entries, each run after a space.
pub(crate) fn print_list(s: &[u8], sets: bool) {
    print_word(word_at(s, 0));
    let mut left = s.get(4..).unwrap_or(&[]);
    // a turn goes on by a whole run, so no `for` counts it
    while ENTRY <= left.len() {
        print_text(b" ");
        left = print_next(left, sets);
    }
}
