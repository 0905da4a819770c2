// Statuses, numbers and words written out.
use case_io::STDOUT_FILENO;

pub(crate) fn print_text(b: &[u8]) {
    io::write_all(STDOUT_FILENO, b);
}

pub(crate) fn print_status(x: i32) {
    print_text(itoa::Buffer::new().format(x).as_bytes());
}

pub(crate) fn print_decimal(x: usize) {
    io::print_decimal(STDOUT_FILENO, x as u64);
}

// A word as eight digits.
pub(crate) fn print_word(x: u32) {
    io::print_hex(STDOUT_FILENO, u64::from(x), 8);
}

// A word as few digits.
fn print_short(x: u32) {
    io::print_hex(STDOUT_FILENO, u64::from(x), 1);
}

// Words as few digits each, with a colon between them.
pub(crate) fn print_entry(w: &[u32]) {
    for (i, x) in w.iter().enumerate() {
        if 0 < i {
            print_text(b":");
        }
        print_short(*x);
    }
}

// Whether what was compared is the same.
pub(crate) fn print_same(same: bool) {
    if same {
        print_text(b" same");
    } else {
        print_text(b" other");
    }
}
