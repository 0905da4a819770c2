// Numbers, names and values written out.
use crate::script::part;
use case_io::STDOUT_FILENO;
use words::{name_length, word_at};

pub(crate) fn print_text(b: &[u8]) {
    io::write_all(STDOUT_FILENO, b);
}

pub(crate) fn print_status(x: i32) {
    print_text(itoa::Buffer::new().format(x).as_bytes());
}

// A further number of an answer.
pub(crate) fn print_also(x: u32) {
    print_text(b" ");
    io::print_decimal(STDOUT_FILENO, u64::from(x));
}

// The bytes as digits, a dash where there are none.
fn print_bytes(b: &[u8]) {
    if b.is_empty() {
        print_text(b"-");
    }
    for x in b {
        io::print_hex(STDOUT_FILENO, u64::from(*x), 2);
    }
}

// The name whose offset stands in word 2 of the work area.
fn print_name(area: &[u8]) {
    let at = word_at(area, 8) as usize;
    print_text(b" ");
    print_text(part(area, at, name_length(area, at, 48)));
}

// The value whose length and offset stand in words 3 and 4.
fn print_value(area: &[u8]) {
    let n = word_at(area, 12) as usize;
    let at = word_at(area, 16) as usize;
    print_text(b" ");
    print_bytes(part(area, at, n));
}

// The offset of a fault; of a status that is none, one that is not 0.
fn print_fault(status: i32, fault: u32) {
    if status == -1 || fault != 0 {
        print_text(b"@");
        io::print_decimal(STDOUT_FILENO, u64::from(fault));
    }
}

// A reply of a walk on a line of its own, with the offset of a fault, the node's name, or the property's name and value.
pub(crate) fn print_reply(status: i32, fault: u32, area: &[u8]) {
    print_text(b"\n  ");
    print_status(status);
    print_fault(status, fault);
    match status {
        2 => print_name(area),
        3 => {
            print_name(area);
            print_value(area);
        }
        _ => {}
    }
}
