// Runs a script that lends changes and work areas to update-nodes, and areas to its reader, and writes each line of it, a
// call with what it answers. The script's first lines say what its letters mean.
#![tactic(auto)]

mod answers;
mod lent;
mod print;
mod runs;
mod script;

use answers::{read, sequence, update};
use case_io::{STDIN_FILENO, number, part};
use lent::{AREA, area_line, list_line};
use print::print_text;
use script::low_byte;

// More words than a list of 4,097 changes has.
const LIST: usize = 12300;

// How many words the list has, and how many bytes the area.
#[derive(Clone, Copy, PartialEq, Eq)]
pub struct Sizes {
    pub words: usize,
    pub bytes: usize,
}

fn update_line(changes: &[u32], area: &mut [u8], bytes: usize, line: &[u8]) {
    let n = bytes.min(area.len());
    update(number(line, 1), changes, &mut area[..n]);
}

// A call, with what it answers.
fn call(changes: &[u32], area: &mut [u8], bytes: usize, op: u8, line: &[u8]) {
    print_text(b":");
    match op {
        b'u' => update_line(changes, area, bytes, line),
        b's' => sequence(changes, low_byte(line, 1)),
        _ => read(part(area, 0, bytes), number(line, 1) as usize),
    }
}

// What a line does.
fn act(list: &mut [u32], area: &mut [u8], z: Sizes, op: u8, line: &[u8]) -> Sizes {
    match op {
        b'#' => z,
        b'n' | b'c' | b'm' | b'w' => Sizes {
            words: list_line(list, z.words, op, line),
            ..z
        },
        b'a' | b'p' | b'b' => Sizes {
            bytes: area_line(area, z.bytes, op, line),
            ..z
        },
        _ => {
            call(part(list, 0, z.words), area, z.bytes, op, line);
            z
        }
    }
}

fn turn(list: &mut [u32], area: &mut [u8], z: Sizes, line: &[u8]) -> Sizes {
    let Some(op) = line.first() else {
        return z;
    };
    print_text(line);
    let after = act(list, area, z, *op, line);
    print_text(b"\n");
    after
}

fn run(text: &[u8]) {
    let mut list = [0u32; LIST];
    let mut area = [0u8; AREA];
    let mut z = Sizes { words: 0, bytes: 0 };
    for line in text.split(|b| *b == b'\n') {
        z = turn(&mut list, &mut area, z, line);
    }
}

fn main() {
    let mut text = io::large_buffer();
    let n = io::read_full(STDIN_FILENO, &mut text);
    run(&text[..n]);
}
