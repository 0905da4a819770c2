// Numbers, bytes and text written out.
use case_io::STDOUT_FILENO;

pub(crate) fn print_status(x: i32) {
    io::write_all(STDOUT_FILENO, itoa::Buffer::new().format(x).as_bytes());
}

// A further number of an answer.
pub(crate) fn print_also(x: u64) {
    io::write_all(STDOUT_FILENO, b" ");
    io::print_decimal(STDOUT_FILENO, x);
}

// The bytes as digits, a dash where there are none.
pub(crate) fn print_bytes(b: &[u8]) {
    io::write_all(STDOUT_FILENO, b" ");
    if b.is_empty() {
        io::write_all(STDOUT_FILENO, b"-");
    }
    for x in b {
        io::print_hex(STDOUT_FILENO, u64::from(*x), 2);
    }
}

// The bytes as text, a point for each that cannot be printed.
fn print_letters(b: &[u8]) {
    for x in b {
        let letter = if matches!(x, b' '..=b'~') { *x } else { b'.' };
        io::write_all(STDOUT_FILENO, &[letter]);
    }
}

// The bytes as digits, and as text.
pub(crate) fn print_text(b: &[u8]) {
    print_bytes(b);
    io::write_all(STDOUT_FILENO, b" \"");
    print_letters(b);
    io::write_all(STDOUT_FILENO, b"\"");
}
