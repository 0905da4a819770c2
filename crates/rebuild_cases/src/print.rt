// Numbers and bytes written out.
use case_io::STDOUT_FILENO;

pub(crate) fn print_number(x: i32) {
    io::write_all(STDOUT_FILENO, itoa::Buffer::new().format(x).as_bytes());
}

pub(crate) fn print_bytes(b: &[u8]) {
    for x in b {
        io::print_hex(STDOUT_FILENO, u64::from(*x), 2);
    }
}
