// Runs a script that lends memory lists to be converted, and writes each line of it, a call with what it answers. The
// script's first lines say what its letters mean.
#![tactic(auto)]

mod answers;
mod entries;
mod lent;
mod print;

use answers::call;
use case_io::{STDIN_FILENO, long_number, part};
use lent::list_line;
use print::print_text;

// How many bytes the list has, and the block size.
#[derive(Clone, Copy, PartialEq, Eq)]
pub struct Sizes {
    pub list: usize,
    pub block: u64,
}

// What a line does.
fn act(list: &mut [u8], z: Sizes, op: u8, line: &[u8]) -> Sizes {
    match op {
        b'#' => z,
        b'z' => Sizes {
            block: long_number(line, 1),
            ..z
        },
        b'g' | b'e' | b't' | b'u' => {
            call(z.block, part(list, 0, z.list), op, line);
            z
        }
        _ => Sizes {
            list: list_line(list, z.list, op, line),
            ..z
        },
    }
}

fn turn(list: &mut [u8], z: Sizes, line: &[u8]) -> Sizes {
    let Some(op) = line.first() else {
        return z;
    };
    print_text(line);
    let after = act(list, z, *op, line);
    print_text(b"\n");
    after
}

fn run(text: &[u8], list: &mut [u8]) {
    let mut z = Sizes { list: 0, block: 0 };
    for line in text.split(|b| *b == b'\n') {
        z = turn(list, z, line);
    }
}

fn main() {
    let mut text = io::large_buffer();
    let mut list = io::large_buffer();
    let n = io::read_full(STDIN_FILENO, &mut text);
    run(&text[..n], &mut list);
}
