// Calls made, and what they answer written.
ghost use Rattle.std.specs.Prelude.{◌≡◌, ◌<◌, get_or, set};
ghost use Rattle.table.specs.Layout.{word_count};

use crate::print::{print_also, print_reply, print_status, print_text};
use crate::script::Numbers;
use buffer::put_word;
use case_io::STDOUT_FILENO;
use fault_numbers::configure_connector_at;
use partition_numbers::set_indicator;
use ports::{CONNECTOR_WORDS, connector_at};
use table::WORDS;

fn add_resource(t: &mut [u32; WORDS], kind: u32) {
    let mut number = 0;
    let s = platform_numbers::add_resource(t, kind, &mut number);
    print_status(s);
    print_also(number);
}

// The state of the connector in a row, and its walk.
fn look(t: &[u32; WORDS], row: u32) {
    let mut c = [0u32; CONNECTOR_WORDS];
    let s = connector_at(t, row, &mut c);
    print_status(s);
    for x in [c[4], c[6], c[7], c[8]] {
        print_also(x);
    }
}

// A word of the table gets another number; the answer is what stood there.
fn overwrite(t: &mut [u32; WORDS], i: usize, x: u32) -> u32
    requires { i < word_count }
    ensures { (t.new ≡ set t.old i x) × (result ≡ get_or t.old i 0) }
{
    std::mem::replace(&mut t[i], x)
}

// A word of the table overwritten, where it has so many, and what stood there.
fn overwritten(t: &mut [u32; WORDS], at: u32, x: u32) {
    let i = at as usize;
    if i < WORDS {
        io::print_decimal(STDOUT_FILENO, u64::from(overwrite(t, i, x)));
    }
}

// A call that has one answer.
pub(crate) fn answer(t: &mut [u32; WORDS], op: u8, n: Numbers) {
    print_text(b" ");
    match op {
        b'c' => print_status(platform_numbers::add_connector(t, n.a, n.b, n.c, n.d)),
        b'r' => add_resource(t, n.a),
        b'p' => print_status(platform_numbers::place(t, n.a, n.b)),
        b'i' => print_status(set_indicator(t, n.a, n.b, n.c, n.d)),
        b'o' => overwritten(t, n.a, n.b),
        _ => look(t, n.a),
    }
}

// Calls of a walk over one work area: the numbers are the partition, the index and how many calls.
fn walk_over(t: &mut [u32; WORDS], n: Numbers, area: &mut [u8], structure: &[u8], strings: &[u8]) {
    put_word(area, 0, n.b);
    for _ in 0..n.c {
        let mut fault: u32 = 0xFFFF_FFFF;
        let s = configure_connector_at(t, n.a, area, structure, strings, &mut fault);
        print_reply(s, fault, area);
    }
}

// So many calls of a walk with a zeroed page.
pub(crate) fn walk_page(t: &mut [u32; WORDS], n: Numbers, structure: &[u8], strings: &[u8]) {
    walk_over(t, n, &mut [0; 4096], structure, strings);
}

// So many calls of a walk with two zeroed pages.
pub(crate) fn walk_pages(t: &mut [u32; WORDS], n: Numbers, structure: &[u8], strings: &[u8]) {
    walk_over(t, n, &mut [0; 8192], structure, strings);
}
