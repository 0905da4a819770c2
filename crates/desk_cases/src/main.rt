// Runs a script of calls on a table and writes each line of it with what the call answers. The script's first lines say
// what its letters mean.
#![tactic(auto)]

mod answers;
mod script;

use answers::{partition_call, platform_call};
use buffer::{copy_bytes, put_word};
use case_io::{STDIN_FILENO, STDOUT_FILENO, part};
use script::{ScriptLine, read_line};
use table::WORDS;
use words::room;

// The used lengths of the structure and the strings block.
#[derive(Clone, Copy, PartialEq, Eq)]
pub struct Used {
    pub structure: usize,
    pub strings: usize,
}

fn low(x: u32) -> u8 {
    (x % 256) as u8
}

// A word at the end of a block of which `used` bytes are used; the answer is how many then are.
fn put_last(b: &mut [u8], used: usize, x: u32) -> usize {
    if room(b, used) < 4 {
        return used;
    }
    put_word(b, used, x);
    used + 4
}

// So many bytes x at the end of a block.
fn put_bytes(b: &mut [u8], used: usize, n: usize, x: u8) -> usize {
    if room(b, used) < n {
        return used;
    }
    let run = [x; 8192];
    copy_bytes(b, used, &run, 0, n);
    used + n
}

// A line that adds to the tree.
fn tree_line(s: &mut [u8], strings: &mut [u8], u: Used, l: ScriptLine) -> Used {
    match l.op {
        b'u' => Used {
            structure: put_last(s, u.structure, l.a),
            ..u
        },
        b'z' => Used {
            structure: put_bytes(s, u.structure, l.a as usize, low(l.b)),
            ..u
        },
        b'U' => Used {
            strings: put_last(strings, u.strings, l.a),
            ..u
        },
        b'Z' => Used {
            strings: put_bytes(strings, u.strings, l.a as usize, low(l.b)),
            ..u
        },
        _ => Used {
            structure: 0,
            strings: 0,
        },
    }
}

// A word of the table set from outside; a place past the last changes nothing.
fn set_word(t: &mut [u32; WORDS], place: u32, x: u32) {
    if let Some(word) = t.get_mut(place as usize) {
        *word = x;
    }
}

// A line that is a call, with what it answers.
fn call_line(t: &mut [u32; WORDS], text: &[u8], l: ScriptLine, structure: &[u8], strings: &[u8]) {
    io::write_all(STDOUT_FILENO, text);
    io::write_all(STDOUT_FILENO, b": ");
    match l.op {
        b'i' | b's' | b'w' => partition_call(t, l, structure, strings),
        _ => platform_call(t, l),
    }
    io::write_all(STDOUT_FILENO, b"\n");
}

fn turn(t: &mut [u32; WORDS], s: &mut [u8], strings: &mut [u8], u: Used, text: &[u8]) -> Used {
    let l = read_line(text);
    match l.op {
        b'#' => {
            io::write_all(STDOUT_FILENO, text);
            io::write_all(STDOUT_FILENO, b"\n");
            u
        }
        b'n' => {
            edits::fresh(t);
            u
        }
        b'k' => {
            set_word(t, l.a, l.b);
            u
        }
        b'u' | b'z' | b'U' | b'Z' | b'e' => tree_line(s, strings, u, l),
        _ => {
            call_line(
                t,
                text,
                l,
                part(s, 0, u.structure),
                part(strings, 0, u.strings),
            );
            u
        }
    }
}

fn run(text: &[u8]) {
    let mut t = [0u32; WORDS];
    let mut s = [0u8; 40000];
    let mut strings = [0u8; 5000];
    let mut u = Used {
        structure: 0,
        strings: 0,
    };
    for line in text.split_inclusive(|b| *b == b'\n') {
        let line = line.strip_suffix(b"\n").unwrap_or(line);
        u = turn(&mut t, &mut s, &mut strings, u, line);
    }
}

fn main() {
    let mut text = io::large_buffer();
    let n = io::read_full(STDIN_FILENO, &mut text);
    run(&text[..n]);
}
