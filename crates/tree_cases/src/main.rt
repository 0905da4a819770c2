// Reads cases, one to a line, builds the trees that their scripts describe, and writes each label with the answer: for
// `label|script` what the check answers, for `label|script|script` what the comparison does.
#![tactic(auto)]

mod build;

use build::build;
use case_io::{STDIN_FILENO, STDOUT_FILENO, find, part};

fn checked(t: &[u8], from: usize, end: usize) -> u32 {
    let mut s = [0u8; 40000];
    let mut strings = [0u8; 10000];
    let x = build(&mut s, &mut strings, t, from, end);
    treecheck::check_tree(part(&s, 0, x.at), part(&strings, 0, x.used))
}

fn compared(t: &[u8], from: usize, end: usize, from2: usize, end2: usize) -> i32 {
    let mut s = [0u8; 40000];
    let mut strings = [0u8; 10000];
    let mut s2 = [0u8; 40000];
    let mut strings2 = [0u8; 10000];
    let x = build(&mut s, &mut strings, t, from, end);
    let y = build(&mut s2, &mut strings2, t, from2, end2);
    treecompare::compare_trees(
        part(&s, 0, x.at),
        part(&strings, 0, x.used),
        part(&s2, 0, y.at),
        part(&strings2, 0, y.used),
    )
}

fn print_number(x: i32) {
    match x {
        0 => io::write_all(STDOUT_FILENO, b"0"),
        1 => io::write_all(STDOUT_FILENO, b"1"),
        -33 => io::write_all(STDOUT_FILENO, b"-33"),
        _ => io::write_all(STDOUT_FILENO, b"?"),
    };
}

fn answer(t: &[u8], from: usize, end: usize) {
    let bar = find(t, from, end, b'|');
    if bar < end {
        print_number(compared(t, from, bar, bar + 1, end));
    } else {
        io::print_decimal(STDOUT_FILENO, u64::from(checked(t, from, end)));
    }
}

fn case(t: &[u8], from: usize, end: usize) {
    let bar = find(t, from, end, b'|');
    if bar < end {
        io::write_all(STDOUT_FILENO, part(t, from, bar));
        io::write_all(STDOUT_FILENO, b": ");
        answer(t, bar + 1, end);
        io::write_all(STDOUT_FILENO, b"\n");
    }
}

// The loop goes by places, not by lines: a script may read past its line's end.
fn cases(t: &[u8], n: usize) {
    let mut from = 0;
    while from < n {
        let end = find(t, from, n, b'\n');
        case(t, from, end);
        if n <= end {
            return;
        }
        from = end + 1;
    }
}

fn main() {
    let mut text = io::large_buffer();
    let n = io::read_full(STDIN_FILENO, &mut text);
    cases(&text, n);
}
