// Names: those that a script spells, and those of a list.
ghost use Rattle.std.specs.Prelude.{◌≤◌};

use crate::script::{add, character};

// A name of so many bytes, and the place past it in the script.
#[derive(Clone, Copy, PartialEq, Eq)]
pub struct Name {
    pub bytes: [u8; 64],
    pub len: usize,
    pub next: usize,
}

// The value of a digit 0 to 9 or A to F.
fn hex(c: u8) -> u8
    ensures { result ≤ 15 }
{
    match c {
        b'0'..=b'9' => c - b'0',
        b'A'..=b'F' => c - b'A' + 10,
        _ => 0,
    }
}

// The byte that the character at `i` stands for, or `%` and two digits there.
fn meant(t: &[u8], i: usize) -> u8 {
    match character(t, i) {
        b'%' => hex(character(t, add(i, 1))) * 16 + hex(character(t, add(i, 2))),
        c => c,
    }
}

fn past_byte(t: &[u8], i: usize) -> usize {
    if character(t, i) == b'%' {
        add(i, 3)
    } else {
        add(i, 1)
    }
}

// The name that is spelled from `from` up to a space.
pub(crate) fn spelled(t: &[u8], from: usize) -> Name {
    let mut bytes = [0u8; 64];
    let mut i = from;
    for len in 0..64 {
        if character(t, i) == b' ' {
            return Name {
                bytes,
                len,
                next: add(i, 1),
            };
        }
        bytes[len] = meant(t, i);
        i = past_byte(t, i);
    }
    Name {
        bytes,
        len: 64,
        next: i,
    }
}

fn letter(k: usize) -> u8 {
    b'a' + (k % 26) as u8
}

// Name number `k` in three letters, with so many `x` before and after.
pub(crate) fn lettered(k: usize, before: usize, after: usize) -> Name {
    let mut bytes = [b'x'; 64];
    let at = before % 48;
    bytes[at] = letter(k / 676);
    bytes[at + 1] = letter(k / 26);
    bytes[at + 2] = letter(k);
    Name {
        bytes,
        len: at + 3 + after % 48,
        next: 0,
    }
}

// 31 times one byte.
pub(crate) fn even(x: u8) -> Name {
    Name {
        bytes: [x; 64],
        len: 31,
        next: 0,
    }
}
