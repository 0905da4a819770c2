// Statuses, words and bytes written out.
use case_io::STDOUT_FILENO;

pub(crate) fn print_status(x: i32) {
    io::write_all(STDOUT_FILENO, itoa::Buffer::new().format(x).as_bytes());
}

// A word as eight digits.
pub(crate) fn print_word(x: u32) {
    io::write_all(STDOUT_FILENO, b" ");
    io::print_hex(STDOUT_FILENO, u64::from(x), 8);
}

// The bytes as digits, a dash where there are none.
pub(crate) fn print_bytes(b: &[u8]) {
    io::write_all(STDOUT_FILENO, b" ");
    if b.is_empty() {
        io::write_all(STDOUT_FILENO, b"-");
    }
    for x in b {
        io::print_hex(STDOUT_FILENO, u64::from(*x), 2);
    }
}
