// Runs a script that adds connectors and writes and reads array properties, and writes each line of it with what the
// call answers. The script's first lines say what its letters mean.
#![tactic(auto)]

mod answers;
mod print;

use answers::{read_line, trip_line, write_line};
use case_io::{STDIN_FILENO, STDOUT_FILENO, number};
use platform_numbers::add_connector;
use print::print_status;
use table::WORDS;

fn connector_line(t: &mut [u32; WORDS], line: &[u8]) {
    let s = add_connector(
        t,
        number(line, 1),
        number(line, 2),
        number(line, 3),
        number(line, 4),
    );
    print_status(s);
}

// A line that is a call, with what it answers.
fn call_line(t: &mut [u32; WORDS], op: u8, line: &[u8]) {
    io::write_all(STDOUT_FILENO, line);
    io::write_all(STDOUT_FILENO, b": ");
    match op {
        b'c' => connector_line(t, line),
        b'w' => write_line(t, line),
        b'r' => read_line(line),
        _ => trip_line(t, line),
    }
    io::write_all(STDOUT_FILENO, b"\n");
}

fn turn(t: &mut [u32; WORDS], line: &[u8]) {
    match line.first() {
        None => {}
        Some(b'#') => {
            io::write_all(STDOUT_FILENO, line);
            io::write_all(STDOUT_FILENO, b"\n");
        }
        Some(b'n') => ledger_edits::fresh(t),
        Some(op) => call_line(t, *op, line),
    }
}

fn run(text: &[u8]) {
    let mut t = [0u32; WORDS];
    for line in text.split(|b| *b == b'\n') {
        turn(&mut t, line);
    }
}

fn main() {
    let mut text = io::large_buffer();
    let n = io::read_full(STDIN_FILENO, &mut text);
    run(&text[..n]);
}
