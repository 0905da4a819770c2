// Reads blocks, one to a line, and writes how long the name is and how many bytes are zero at each place of a block and
// past its end. The input's first lines say what its characters mean.
#![tactic(auto)]

use case_io::{STDIN_FILENO, STDOUT_FILENO};
use words::{name_length, zero_at};

// The byte that a character of a block stands for.
fn meant(c: u8) -> u8 {
    match c {
        b'.' => 0,
        b'1' => 0x01,
        b'7' => 0x7F,
        b'8' => 0x80,
        b'9' => 0x81,
        b'e' => 0xFE,
        b'f' => 0xFF,
        _ => c,
    }
}

// Each character becomes the byte that it stands for.
fn decode(line: &mut [u8]) {
    for c in line {
        *c = meant(*c);
    }
}

// How long the name is within each limit.
fn print_lengths(block: &[u8], at: usize) {
    for limit in [0, 1, 7, 8, 9, 15, 16, 17, 31, 32, 47, 48, 64] {
        io::print_decimal(STDOUT_FILENO, name_length(block, at, limit) as u64);
        io::write_all(STDOUT_FILENO, b" ");
    }
}

// For each of 0 to 9 bytes a 1 where they are all zero.
fn print_zeros(block: &[u8], at: usize) {
    for n in 0..10 {
        io::print_decimal(STDOUT_FILENO, u64::from(zero_at(block, at, n)));
    }
}

fn print_place(block: &[u8], at: usize) {
    io::write_all(STDOUT_FILENO, b": ");
    print_lengths(block, at);
    io::write_all(STDOUT_FILENO, b"| ");
    print_zeros(block, at);
    io::write_all(STDOUT_FILENO, b"\n");
}

// Each place from 0 to the length and 2 more, a sum that wraps for no block that the input has room for.
fn print_places(block: &[u8]) {
    for at in 0..block.len().wrapping_add(3) {
        io::print_decimal(STDOUT_FILENO, at as u64);
        print_place(block, at);
    }
}

fn print_far(block: &[u8]) {
    io::write_all(STDOUT_FILENO, b"far");
    print_place(block, usize::MAX);
    io::write_all(STDOUT_FILENO, b"far8");
    print_place(block, usize::MAX - 7);
}

fn turn(line: &mut [u8]) {
    io::write_all(STDOUT_FILENO, line);
    io::write_all(STDOUT_FILENO, b"\n");
    if line.first() == Some(&b'#') {
        return;
    }
    decode(line);
    print_places(line);
    print_far(line);
}

fn run(text: &mut [u8]) {
    for line in text.split_inclusive_mut(|b| *b == b'\n') {
        match line {
            [line @ .., b'\n'] => turn(line),
            line => turn(line),
        }
    }
}

fn main() {
    let mut text = io::large_buffer();
    let n = io::read_full(STDIN_FILENO, &mut text);
    run(&mut text[..n]);
}
