// Lists converted, and what that answers.
ghost use Rattle.std.specs.Prelude.{◌≡◌, length};

use crate::entries::print_list;
use crate::print::{print_same, print_status, print_text, print_word};
use case_io::{long_number, part};
use memory_numbers::{memory_to_v1, memory_to_v2};

// How many bytes a buffer has room for, more than a list of 1,024 entries has.
const ROOM: usize = 26404;

// What stands in each byte of a buffer before a call, and what `written` then is.
const BEFORE: u8 = 0xA5;

const WRITTEN_BEFORE: u32 = 77777;

// A buffer before a call.
fn fresh() -> [u8; ROOM]
    ensures { 26404 ≡ length result }
{
    [BEFORE; ROOM]
}

// Whether the bytes from `from` on are as before.
fn unwritten(out: &[u8], from: usize) -> bool {
    out.iter().skip(from).all(|x| *x == BEFORE)
}

// The list converted to sets, or to blocks; the answer is the status.
fn converted(size: u64, list: &[u8], out: &mut [u8], written: &mut u32, sets: bool) -> i32 {
    if sets {
        return memory_to_v2(size, list, out, written);
    }
    memory_to_v1(size, list, out, written)
}

// The same into this buffer, written out; the answer is what `written` then is.
fn convert(size: u64, list: &[u8], out: &mut [u8], sets: bool) -> usize {
    let mut written = WRITTEN_BEFORE;
    let s = converted(size, list, out, &mut written, sets);
    let n = written as usize;
    print_status(s);
    print_word(written);
    if s < 0 {
        print_same(unwritten(out, 0));
    } else {
        print_list(part(out, 0, n), sets);
        print_same(unwritten(out, n));
    }
    n
}

// The same with so much room.
fn convert_once(size: u64, list: &[u8], room: usize, sets: bool) {
    let mut out = fresh();
    let n = room.min(ROOM);
    convert(size, list, &mut out[..n], sets);
}

// A list converted to sets, these to blocks, and whether these are the list's bytes.
fn grouped_and_back(size: u64, list: &[u8]) {
    let mut sets = fresh();
    let n = convert(size, list, &mut sets, true);
    print_text(b",");
    let mut blocks = fresh();
    let m = convert(size, part(&sets, 0, n), &mut blocks, false);
    print_same(check::same(list, part(&blocks, 0, m)));
}

// A list converted to blocks, and these to sets and back.
fn expanded_and_back(size: u64, list: &[u8]) {
    let mut blocks = fresh();
    let n = convert(size, list, &mut blocks, false);
    print_text(b",");
    grouped_and_back(size, part(&blocks, 0, n));
}

// A call, with what it answers.
pub(crate) fn call(size: u64, list: &[u8], op: u8, line: &[u8]) {
    print_text(b":");
    match op {
        b'g' => convert_once(size, list, long_number(line, 1) as usize, true),
        b'e' => convert_once(size, list, long_number(line, 1) as usize, false),
        b't' => grouped_and_back(size, list),
        _ => expanded_and_back(size, list),
    }
}
