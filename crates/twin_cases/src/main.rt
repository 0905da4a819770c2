// Reads cases, one to a line, builds the trees that their scripts describe, and writes each label with the answer: for
// `label|script` what the check answers, for `label|script|script` what the comparison does. The input's first lines say
// what the characters of a script mean.
#![tactic(auto)]

mod build;
mod names;
mod script;

use build::build;
use case_io::{STDIN_FILENO, STDOUT_FILENO, part};

fn checked(t: &[u8]) -> u32 {
    let mut s = [0u8; 40000];
    let mut strings = [0u8; 5000];
    let x = build(&mut s, &mut strings, t);
    treecheck::check_tree(part(&s, 0, x.at), part(&strings, 0, x.used))
}

fn compared(t: &[u8], t2: &[u8]) -> i32 {
    let mut s = [0u8; 40000];
    let mut strings = [0u8; 5000];
    let mut s2 = [0u8; 40000];
    let mut strings2 = [0u8; 5000];
    let x = build(&mut s, &mut strings, t);
    let y = build(&mut s2, &mut strings2, t2);
    treecompare::compare_trees(
        part(&s, 0, x.at),
        part(&strings, 0, x.used),
        part(&s2, 0, y.at),
        part(&strings2, 0, y.used),
    )
}

fn print_number(x: i32) {
    io::write_all(STDOUT_FILENO, itoa::Buffer::new().format(x).as_bytes());
}

// What stands before and after the first bar, where there is one.
fn at_bar(t: &[u8]) -> Option<(&[u8], &[u8])> {
    let bar = t.iter().position(|b| *b == b'|')?;
    Some((&t[..bar], &t[bar + 1..]))
}

fn answer(t: &[u8]) {
    match at_bar(t) {
        Some((script, script2)) => print_number(compared(script, script2)),
        None => {
            io::print_decimal(STDOUT_FILENO, u64::from(checked(t)));
        }
    }
}

// A line without `|` is a remark, and is written as it is.
fn case(t: &[u8]) {
    match at_bar(t) {
        None => {
            io::write_all(STDOUT_FILENO, t);
        }
        Some((label, scripts)) => {
            io::write_all(STDOUT_FILENO, label);
            io::write_all(STDOUT_FILENO, b": ");
            answer(scripts);
        }
    }
    io::write_all(STDOUT_FILENO, b"\n");
}

fn cases(text: &[u8]) {
    for line in text.split_inclusive(|b| *b == b'\n') {
        case(line.strip_suffix(b"\n").unwrap_or(line));
    }
}

fn main() {
    let mut text = io::large_buffer();
    let n = io::read_full(STDIN_FILENO, &mut text);
    cases(&text[..n]);
}
