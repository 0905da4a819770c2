// Runs a script of calls on a table and of walks over a tree, and writes each call with what it answers. The script's
// first lines say what its letters mean.
#![tactic(auto)]

mod answers;
mod print;
mod script;

use answers::{answer, walk_page, walk_pages};
use case_io::{STDIN_FILENO, find};
use print::print_text;
use script::{Numbers, part, put_run, put_text, read_numbers};
use table::WORDS;

// The byte that a run repeats.
const FILL: u8 = 0xAB;

// The used lengths of the structure and the strings block.
#[derive(Clone, Copy, PartialEq, Eq)]
pub struct Used {
    pub structure: usize,
    pub strings: usize,
}

fn no_tree() -> Used {
    Used {
        structure: 0,
        strings: 0,
    }
}

// A line that adds to the tree.
fn tree_line(s: &mut [u8], strings: &mut [u8], u: Used, op: u8, text: &[u8]) -> Used {
    match op {
        b's' => Used {
            structure: put_text(text, s, u.structure),
            ..u
        },
        b'z' => Used {
            structure: put_run(s, u.structure, read_numbers(text).a, FILL),
            ..u
        },
        b'y' => Used {
            strings: put_run(strings, u.strings, read_numbers(text).a, FILL),
            ..u
        },
        _ => Used {
            strings: put_text(text, strings, u.strings),
            ..u
        },
    }
}

fn call(t: &mut [u32; WORDS], op: u8, n: Numbers, structure: &[u8], strings: &[u8]) {
    match op {
        b'w' => walk_page(t, n, structure, strings),
        b'W' => walk_pages(t, n, structure, strings),
        _ => answer(t, op, n),
    }
}

// A line that is a call, with what it answers.
fn call_line(
    t: &mut [u32; WORDS],
    op: u8,
    line: &[u8],
    text: &[u8],
    structure: &[u8],
    strings: &[u8],
) {
    print_text(line);
    print_text(b":");
    call(t, op, read_numbers(text), structure, strings);
    print_text(b"\n");
}

fn remark(line: &[u8]) {
    print_text(line);
    print_text(b"\n");
}

fn turn(t: &mut [u32; WORDS], s: &mut [u8], strings: &mut [u8], u: Used, line: &[u8]) -> Used {
    let Some(op) = line.first().copied() else {
        return u;
    };
    let text = &line[1..find(line, 1, line.len(), b';')];
    match op {
        b'#' => {
            remark(line);
            u
        }
        b'n' => {
            ledger_edits::fresh(t);
            no_tree()
        }
        b'e' => no_tree(),
        b's' | b'z' | b't' | b'y' => tree_line(s, strings, u, op, text),
        _ => {
            call_line(
                t,
                op,
                line,
                text,
                part(s, 0, u.structure),
                part(strings, 0, u.strings),
            );
            u
        }
    }
}

fn run(text: &[u8]) {
    let mut t = [0u32; WORDS];
    let mut s = [0u8; 40000];
    let mut strings = [0u8; 5000];
    let mut u = no_tree();
    for line in text.split(|b| *b == b'\n') {
        u = turn(&mut t, &mut s, &mut strings, u, line);
    }
}

fn main() {
    let mut text = io::large_buffer();
    let n = io::read_full(STDIN_FILENO, &mut text);
    run(&text[..n]);
}
