// Calls of update-nodes and of its reader, and what they answer.
ghost use Rattle.std.specs.Prelude.{◌≡◌, ◌≤◌, length};

use crate::lent::AREA;
use crate::print::{print_decimal, print_entry, print_same, print_status, print_text, print_word};
use crate::runs::print_runs;
use buffer::copy_bytes;
use case_io::part;
use changes_numbers::{read_updates, update_nodes};
use words::word_at;

// How many words an area has.
const AREA_WORDS: usize = 1024;

// How many words a buffer of the reader has room for.
const ROOM: usize = 4096;

// What stands in each word of a reader's buffer before a call, and what `written` then is.
const WORD_BEFORE: u32 = 0xA5A5A5A5;

const WRITTEN_BEFORE: u32 = 77777;

// More calls than any sequence has.
const CALLS: u32 = 100;

// The area's bytes, and zeros after them.
fn copy_of(area: &[u8]) -> [u8; AREA]
    ensures { 4100 ≡ length result }
{
    let mut copy = [0u8; AREA];
    copy_bytes(&mut copy, 0, area, 0, area.len());
    copy
}

// The words of an area.
fn words_of(area: &[u8]) -> [u32; AREA_WORDS]
    ensures { 1024 ≡ length result }
{
    std::array::from_fn(|i| word_at(area, 4 * i))
}

// The operands of an operator, as far as there are words; the answer is what follows them.
fn print_operands(w: &[u32], operator: u32) -> &[u32]
    ensures { length result.now ≤ length w.now }
{
    let n = ((operator % 16777216) as usize).min(w.len());
    let size = if operator / 16777216 == 3 { 2 } else { 1 };
    let (operands, rest) = w.split_at(n);
    print_runs(operands, size);
    rest
}

// The operators with their operands up to the terminator; the answer is what follows it.
fn print_lists(w: &[u32]) -> &[u32]
    ensures { length result.now ≤ length w.now }
{
    let mut left = w;
    // a turn goes on by an operator and its operands, so no `for` counts it
    while let [operator, rest @ ..] = left {
        print_text(b" ");
        print_word(*operator);
        if *operator == 0 {
            return rest;
        }
        left = print_operands(rest, *operator);
    }
    left
}

// Whether the bytes from `from` on are as before.
fn print_kept(area: &[u8], before: &[u8], from: usize) {
    print_same(check::same(part(area, from, area.len()), part(before, from, area.len())));
}

// What update-nodes left in an area.
fn print_area(area: &[u8], before: &[u8]) {
    let w = words_of(area);
    print_text(b" ");
    print_decimal(word_at(area, 0) as usize);
    print_text(b" ");
    print_entry(&w[1..4]);
    let left = print_lists(&w[4..]);
    print_kept(area, before, 4 * (AREA_WORDS - left.len()));
}

// Update-nodes with this list and area.
pub(crate) fn update(scope: u32, changes: &[u32], area: &mut [u8]) -> i32 {
    let before = copy_of(area);
    let s = update_nodes(scope, changes, area);
    print_text(b" ");
    print_status(s);
    if s < 0 {
        print_kept(area, part(&before, 0, area.len()), 0);
    } else {
        print_area(area, part(&before, 0, area.len()));
    }
    s
}

// Whether the words from `from` on are as before.
fn unwritten(out: &[u32], from: usize) -> bool {
    out.iter().skip(from).all(|x| *x == WORD_BEFORE)
}

// The reader on this area and with this buffer.
fn read_into(area: &[u8], out: &mut [u32]) {
    let mut written = WRITTEN_BEFORE;
    let s = read_updates(area, out, &mut written);
    let n = written as usize;
    print_text(b" ");
    print_status(s);
    print_text(b" ");
    print_decimal(n);
    if s < 0 {
        print_same(unwritten(out, 0));
    } else {
        print_runs(part(out, 0, n), 3);
        print_same(unwritten(out, n));
    }
}

// A buffer of the reader before a call.
fn unread() -> [u32; ROOM]
    ensures { 4096 ≡ length result }
{
    [WORD_BEFORE; ROOM]
}

// The reader on this area and with a buffer of so many words.
pub(crate) fn read(area: &[u8], room: usize) {
    let mut out = unread();
    let n = room.min(ROOM);
    read_into(area, &mut out[..n]);
}

// Update-nodes from the variable 0 on until it answers another status than 1, each area read. The rest of the area is
// filled anew before each call, with the next byte.
pub(crate) fn sequence(changes: &[u32], filler: u8) {
    let mut area = io::buffer();
    let mut x = filler;
    for _ in 0..CALLS {
        area[16..].fill(x);
        print_text(b"\n ");
        let s = update(1, changes, &mut area);
        print_text(b",");
        read(&area, ROOM);
        if s != 1 {
            return;
        }
        x = x.wrapping_add(1);
    }
}
