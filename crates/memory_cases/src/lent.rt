// The list that the lines before a call make.
ghost use Rattle.std.specs.Prelude.{◌≤◌};

use crate::entries::Entry;
use buffer::put_word;
use case_io::{bytes, long_number};
use words::room;

fn low_word(x: u64) -> u32 {
    (x & 0xFFFF_FFFF) as u32
}

// A word more at `at`, where there is room; the answer is the place past it.
fn put(list: &mut [u8], at: usize, x: u64) -> usize {
    if room(list, at) < 4 {
        return at;
    }
    put_word(list, at, low_word(x));
    at + 4
}

// A number more, of eight bytes or of four.
fn put_number(list: &mut [u8], at: usize, x: u64, long: bool) -> usize {
    if long {
        let low = put(list, at, x >> 32);
        return put(list, low, x);
    }
    put(list, at, x)
}

// An entry more, of a list of sets or of blocks.
fn put_entry(list: &mut [u8], at: usize, e: Entry, sets: bool) -> usize {
    let second = put_number(list, at, e.first, !sets);
    let third = put_number(list, second, e.second, sets);
    let associativity = put(list, third, e.third);
    let flags = put(list, associativity, e.associativity);
    put(list, flags, e.flags)
}

fn sum(a: Entry, b: Entry) -> Entry {
    Entry {
        first: a.first.wrapping_add(b.first),
        second: a.second.wrapping_add(b.second),
        third: a.third.wrapping_add(b.third),
        associativity: a.associativity.wrapping_add(b.associativity),
        flags: a.flags.wrapping_add(b.flags),
    }
}

// `n` entries more, the first of them `first`; the answer is the place past them.
fn put_entries(list: &mut [u8], from: usize, first: Entry, by: Entry, sets: bool, n: u64) -> usize {
    let mut at = from;
    let mut e = first;
    for _ in 0..n {
        at = put_entry(list, at, e, sets);
        e = sum(e, by);
    }
    at
}

// The five numbers from field `k` on.
fn entry_of(line: &[u8], k: usize) -> Entry
    requires { k ≤ 7 }
{
    Entry {
        first: long_number(line, k),
        second: long_number(line, k + 1),
        third: long_number(line, k + 2),
        associativity: long_number(line, k + 3),
        flags: long_number(line, k + 4),
    }
}

// The entries that the line says.
fn entries_line(list: &mut [u8], at: usize, line: &[u8], sets: bool) -> usize {
    let times = long_number(line, 6).max(1);
    put_entries(list, at, entry_of(line, 1), entry_of(line, 7), sets, times)
}

// The bytes whose digits follow the letter and a space, as far as there is room; the answer is the place past them.
fn bytes_line(list: &mut [u8], from: usize, line: &[u8]) -> usize {
    match (line.get(2..), list.get_mut(from..)) {
        (Some(digits), Some(left)) => from + bytes(digits, left),
        _ => from,
    }
}

// A line that makes the list; the answer is how many bytes it then has.
pub(crate) fn list_line(list: &mut [u8], used: usize, op: u8, line: &[u8]) -> usize {
    match op {
        b'n' => put(list, 0, long_number(line, 1)),
        b'o' => entries_line(list, used, line, false),
        b's' => entries_line(list, used, line, true),
        b'h' => bytes_line(list, used, line),
        b'w' => {
            put_word(
                list,
                long_number(line, 1) as usize,
                low_word(long_number(line, 2)),
            );
            used
        }
        _ => long_number(line, 1) as usize,
    }
}
