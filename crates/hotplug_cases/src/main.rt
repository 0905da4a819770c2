// Runs a script that writes and reads hot-plug event sections, and writes each line of it with what the call answers. The
// script's first lines say what its letters mean.
#![tactic(auto)]

mod answers;
mod print;

use answers::{back_line, read_line, trip_line, write_line};
use case_io::{STDIN_FILENO, STDOUT_FILENO};

// A line that is a call, with what it answers.
fn call_line(op: u8, line: &[u8]) {
    io::write_all(STDOUT_FILENO, line);
    io::write_all(STDOUT_FILENO, b": ");
    match op {
        b'w' => write_line(line),
        b'r' => read_line(line),
        b't' => trip_line(line),
        _ => back_line(line),
    }
    io::write_all(STDOUT_FILENO, b"\n");
}

fn turn(line: &[u8]) {
    match line.first() {
        None => {}
        Some(b'#') => {
            io::write_all(STDOUT_FILENO, line);
            io::write_all(STDOUT_FILENO, b"\n");
        }
        Some(op) => call_line(*op, line),
    }
}

fn run(text: &[u8]) {
    for line in text.split(|b| *b == b'\n') {
        turn(line);
    }
}

fn main() {
    let mut text = io::large_buffer();
    let n = io::read_full(STDIN_FILENO, &mut text);
    run(&text[..n]);
}
