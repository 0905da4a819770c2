// Sections written and read, and what that answers.
ghost use Rattle.std.specs.Prelude.{◌≡◌, length};

use crate::print::{print_bytes, print_status, print_word};
use case_io::{STDOUT_FILENO, bytes, field, number, size};
use hotplug_numbers::{EVENT_WORDS, read_event, write_event};

// The size of a buffer, more than any section has.
const BUFFER: usize = 32;

// What stands in each byte of a buffer before a call, and in each word of an event.
const BEFORE: u8 = 0xA5;

const WORD_BEFORE: u32 = 0xA5A5A5A5;

fn buffer() -> [u8; BUFFER]
    ensures { 32 ≡ length result }
{
    [BEFORE; BUFFER]
}

// The event whose words are the fields from 2 on.
fn event_of_line(line: &[u8]) -> [u32; EVENT_WORDS] {
    std::array::from_fn(|i| number(line, 2 + i))
}

// Writes into this buffer.
fn write_into(modern: u32, e: &[u32; EVENT_WORDS], out: &mut [u8]) {
    let s = write_event(modern, e, out);
    print_status(s);
    print_bytes(out);
}

// Reads this section into these words.
fn read_into(modern: u32, section: &[u8], e: &mut [u32; EVENT_WORDS]) {
    let s = read_event(modern, section, e);
    print_status(s);
    for x in e {
        print_word(*x);
    }
}

// Writes the event that the line says into a buffer of the length that it says.
pub(crate) fn write_line(line: &[u8]) {
    let e = event_of_line(line);
    let mut out = buffer();
    let n = size(line, 7, &out);
    write_into(number(line, 1), &e, &mut out[..n]);
}

// Reads the section that the line says.
pub(crate) fn read_line(line: &[u8]) {
    let mut section = buffer();
    let n = bytes(field(line, 2), &mut section);
    let mut e = [WORD_BEFORE; EVENT_WORDS];
    read_into(number(line, 1), &section[..n], &mut e);
}

// Reads the section, writes what was read into this buffer, and says whether the same bytes then stand there.
fn trip(modern: u32, section: &[u8], out: &mut [u8]) {
    let mut e = [WORD_BEFORE; EVENT_WORDS];
    read_into(modern, section, &mut e);
    io::write_all(STDOUT_FILENO, b", ");
    write_into(modern, &e, out);
    if check::same(section, out) {
        io::write_all(STDOUT_FILENO, b" same");
    } else {
        io::write_all(STDOUT_FILENO, b" other");
    }
}

// Reads the section that the line says, and writes what was read into a buffer as long.
pub(crate) fn trip_line(line: &[u8]) {
    let mut section = buffer();
    let mut out = buffer();
    let n = bytes(field(line, 2), &mut section);
    trip(number(line, 1), &section[..n], &mut out[..n]);
}

// Writes the event into this buffer, and reads back what then stands there.
fn back(modern: u32, event: &[u32; EVENT_WORDS], out: &mut [u8]) {
    write_into(modern, event, out);
    io::write_all(STDOUT_FILENO, b", ");
    let mut e = [WORD_BEFORE; EVENT_WORDS];
    read_into(modern, out, &mut e);
}

// Writes the event that the line says into a buffer of the length that it says, and reads it back.
pub(crate) fn back_line(line: &[u8]) {
    let e = event_of_line(line);
    let mut out = buffer();
    let n = size(line, 7, &out);
    back(number(line, 1), &e, &mut out[..n]);
}
