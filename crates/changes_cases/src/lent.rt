// The list of changes and the work area that the lines before a call make.
use crate::script::{low_byte, times};
use buffer::put_word;
use case_io::number;

// The most bytes that the area has in any line.
pub(crate) const AREA: usize = 4100;

// The three words of a change, or what they go up by.
#[derive(Clone, Copy, PartialEq, Eq)]
pub struct Change {
    pub kind: u32,
    pub node: u32,
    pub index: u32,
}

// A word more at `at`, where there is room; the answer is the place past it.
fn put(list: &mut [u32], at: usize, x: u32) -> usize {
    if list.len() <= at {
        return at;
    }
    list[at] = x;
    at + 1
}

fn put_change(list: &mut [u32], at: usize, c: Change) -> usize {
    let node = put(list, at, c.kind);
    let index = put(list, node, c.node);
    put(list, index, c.index)
}

// The kind before this one, 3 before 1.
fn kind_before(kind: u32) -> u32 {
    match kind {
        2 => 1,
        3 => 2,
        _ => 3,
    }
}

// The change after `c`: node and index go up, and the kind is the one before, or the same where `turning` is false.
fn next(c: Change, by: Change, turning: bool) -> Change {
    Change {
        kind: if turning { kind_before(c.kind) } else { c.kind },
        node: c.node.wrapping_add(by.node),
        index: c.index.wrapping_add(by.index),
    }
}

// `n` changes more, the first of them `first`; the answer is the place past them.
fn put_changes(
    list: &mut [u32],
    from: usize,
    first: Change,
    by: Change,
    turning: bool,
    n: u32,
) -> usize {
    let mut at = from;
    let mut c = first;
    for _ in 0..n {
        at = put_change(list, at, c);
        c = next(c, by, turning);
    }
    at
}

// The changes that the line says.
fn changes_line(list: &mut [u32], at: usize, line: &[u8], turning: bool) -> usize {
    let first = Change {
        kind: number(line, 1),
        node: number(line, 2),
        index: number(line, 3),
    };
    let by = Change {
        kind: 0,
        node: number(line, 5),
        index: number(line, 6),
    };
    put_changes(list, at, first, by, turning, times(line, 4))
}

// A line that makes the list; the answer is how many words it then has.
pub(crate) fn list_line(list: &mut [u32], words: usize, op: u8, line: &[u8]) -> usize {
    match op {
        b'c' => changes_line(list, words, line, false),
        b'm' => changes_line(list, words, line, true),
        b'w' => put(list, words, number(line, 1)),
        _ => 0,
    }
}

// A new area, as the line says; the answer is how many bytes it has.
fn new_area(area: &mut [u8], line: &[u8]) -> usize {
    area.fill(low_byte(line, 3));
    put_word(area, 0, number(line, 2));
    put_word(area, 4, 0);
    put_word(area, 8, 0);
    put_word(area, 12, 0);
    number(line, 1) as usize
}

// Words put into the area, as the line says.
fn words_line(area: &mut [u8], line: &[u8]) {
    let mut at = 4 * number(line, 1) as usize;
    let mut x = number(line, 2);
    for _ in 0..times(line, 3) {
        put_word(area, at, x);
        x = x.wrapping_add(number(line, 4));
        at = at.wrapping_add(4);
    }
}

// A byte put into the area, as the line says.
fn byte_line(area: &mut [u8], line: &[u8]) {
    if let Some(x) = area.get_mut(number(line, 1) as usize) {
        *x = low_byte(line, 2);
    }
}

// A line that makes the area; the answer is how many bytes it then has.
pub(crate) fn area_line(area: &mut [u8], bytes: usize, op: u8, line: &[u8]) -> usize {
    match op {
        b'a' => new_area(area, line),
        b'p' => {
            words_line(area, line);
            bytes
        }
        _ => {
            byte_line(area, line);
            bytes
        }
    }
}
