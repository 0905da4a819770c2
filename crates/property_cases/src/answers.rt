// Arrays written and read, and what that answers.
ghost use Rattle.std.specs.Prelude.{◌≡◌, length};

use crate::print::{print_also, print_bytes, print_status, print_text};
use case_io::{STDOUT_FILENO, bytes, field, number, part, size};
use property_numbers::{read_properties, write_properties};
use table::WORDS;

// The size of each buffer.
const BUFFER: usize = 4096;

// What stands in a buffer, a length or a count before a call.
const BEFORE: u8 = 238;

fn buffer() -> [u8; BUFFER]
    ensures { 4096 ≡ length result }
{
    [BEFORE; BUFFER]
}

fn print_lengths(l: &[u32; 4]) {
    for n in l {
        print_also(u64::from(*n));
    }
}

fn print_arrays(names: &[u8], indexes: &[u8], domains: &[u8], types: &[u8]) {
    io::write_all(STDOUT_FILENO, b"\n  names");
    print_text(names);
    io::write_all(STDOUT_FILENO, b"\n  indexes");
    print_bytes(indexes);
    io::write_all(STDOUT_FILENO, b"\n  domains");
    print_bytes(domains);
    io::write_all(STDOUT_FILENO, b"\n  types");
    print_text(types);
}

// Writes into these buffers.
fn write_into(
    t: &[u32; WORDS],
    partition: u32,
    names: &mut [u8],
    indexes: &mut [u8],
    domains: &mut [u8],
    types: &mut [u8],
) {
    let mut l = [u32::from(BEFORE); 4];
    let s = write_properties(t, partition, names, indexes, domains, types, &mut l);
    print_status(s);
    print_lengths(&l);
    print_arrays(names, indexes, domains, types);
}

// Writes into buffers of the four lengths that the line says.
pub(crate) fn write_line(t: &[u32; WORDS], line: &[u8]) {
    let mut names = buffer();
    let mut indexes = buffer();
    let mut domains = buffer();
    let mut types = buffer();
    let n = size(line, 2, &names);
    let i = size(line, 3, &indexes);
    let d = size(line, 4, &domains);
    let y = size(line, 5, &types);
    write_into(
        t,
        number(line, 1),
        &mut names[..n],
        &mut indexes[..i],
        &mut domains[..d],
        &mut types[..y],
    );
}

// Reads four arrays into this buffer.
fn read_into(names: &[u8], indexes: &[u8], domains: &[u8], types: &[u8], out: &mut [u8]) {
    let mut written = usize::from(BEFORE);
    let s = read_properties(names, indexes, domains, types, out, &mut written);
    print_status(s);
    print_also(written as u64);
    print_bytes(out);
}

// Reads the four arrays that the line says into a buffer of the room that it says.
pub(crate) fn read_line(line: &[u8]) {
    let mut names = buffer();
    let mut indexes = buffer();
    let mut domains = buffer();
    let mut types = buffer();
    let mut out = buffer();
    let room = size(line, 1, &out);
    let n = bytes(field(line, 2), &mut names);
    let i = bytes(field(line, 3), &mut indexes);
    let d = bytes(field(line, 4), &mut domains);
    let y = bytes(field(line, 5), &mut types);
    read_into(
        &names[..n],
        &indexes[..i],
        &domains[..d],
        &types[..y],
        &mut out[..room],
    );
}

fn first(b: &[u8], n: u32) -> &[u8] {
    part(b, 0, n as usize)
}

// Writes into whole buffers, and reads back what was written.
pub(crate) fn trip_line(t: &[u32; WORDS], line: &[u8]) {
    let mut names = buffer();
    let mut indexes = buffer();
    let mut domains = buffer();
    let mut types = buffer();
    let mut out = buffer();
    let room = size(line, 2, &out);
    let mut l = [u32::from(BEFORE); 4];
    let s = write_properties(
        t,
        number(line, 1),
        &mut names,
        &mut indexes,
        &mut domains,
        &mut types,
        &mut l,
    );
    print_status(s);
    io::write_all(STDOUT_FILENO, b" ");
    read_into(
        first(&names, l[0]),
        first(&indexes, l[1]),
        first(&domains, l[2]),
        first(&types, l[3]),
        &mut out[..room],
    );
}
