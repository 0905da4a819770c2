// Walks the tree of its input, which is that of `walk_statuses`, over one page, and writes words 2 to 4 of the work area after
// each property.
#![tactic(auto)]

use buffer::put_word;
use case_io::{STDIN_FILENO, STDOUT_FILENO};
use step_status::StepStatus;
use table::WORDS;
use walk::step;
use words::word_at;

fn print_word(area: &[u8], at: usize, after: &[u8]) {
    io::print_decimal(STDOUT_FILENO, u64::from(word_at(area, at)));
    io::write_all(STDOUT_FILENO, after);
}

fn print_words(area: &[u8]) {
    print_word(area, 8, b" ");
    print_word(area, 12, b" ");
    print_word(area, 16, b"\n");
}

fn walk_tree(structure: &[u8], strings: &[u8]) {
    let table: [u32; WORDS] = [0; WORDS];
    let mut page: [u8; 4096] = [0; 4096];
    put_word(&mut page, 0, walked_connector::INDEX);
    let mut c = walked_connector::own_connector();
    for _ in 0..structure.len() {
        let r = step(c, &mut page, structure, strings, &table);
        c = r.connector;
        match r.status {
            StepStatus::NextProperty => print_words(&page),
            StepStatus::NextChild | StepStatus::PreviousParent => {}
            _ => return,
        }
    }
}

fn walk_input(input: &[u8]) {
    if input.len() < 4 {
        return;
    }
    let end = 4 + word_at(input, 0) as usize;
    if input.len() < end {
        return;
    }
    walk_tree(&input[4..end], &input[end..]);
}

fn main() {
    let mut input = [0u8; 36869];
    let n = io::read_full(STDIN_FILENO, &mut input);
    walk_input(&input[..n]);
}
