// Statuses and numbers written out.
use case_io::STDOUT_FILENO;

pub(crate) fn print_text(b: &[u8]) {
    io::write_all(STDOUT_FILENO, b);
}

// A status after a space.
pub(crate) fn print_status(x: i32) {
    print_text(b" ");
    print_text(itoa::Buffer::new().format(x).as_bytes());
}

// A word after a space.
pub(crate) fn print_word(x: u32) {
    print_text(b" ");
    io::print_decimal(STDOUT_FILENO, u64::from(x));
}

// Whether what was compared is the same.
pub(crate) fn print_same(same: bool) {
    if same {
        print_text(b" same");
    } else {
        print_text(b" other");
    }
}
