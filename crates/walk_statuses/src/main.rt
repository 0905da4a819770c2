// Document 01's small program: reads the structure block's length, the structure block and the strings block, and writes
// the statuses of a walk. The buffer has a byte more than the longest input that is not refused.
#![tactic(auto)]

use case_io::{STDIN_FILENO, STDOUT_FILENO};

fn main() {
    let mut input = [0u8; 36869];
    let n = io::read_full(STDIN_FILENO, &mut input);
    let mut output = [0u8; 196620];
    let m = statuses::walk_statuses(&input[..n], &mut output);
    io::write_all(STDOUT_FILENO, &output[..m]);
}
