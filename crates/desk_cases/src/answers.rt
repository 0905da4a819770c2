// Calls made, and what they answer written.
use crate::script::ScriptLine;
use buffer::put_word;
use case_io::STDOUT_FILENO;
use connector::orders::status_number as order_number;
use kinds::{Index, Resource};
use ports::CONNECTOR_WORDS;
use table::WORDS;

fn print_status(x: i32) {
    io::write_all(STDOUT_FILENO, itoa::Buffer::new().format(x).as_bytes());
}

// A further number of an answer.
fn print_also(x: u32) {
    io::write_all(STDOUT_FILENO, b" ");
    io::print_decimal(STDOUT_FILENO, u64::from(x));
}

fn add_resource(t: &mut [u32; WORDS], kind: u32) {
    match adding::add_resource(t, kind) {
        Ok(r) => {
            print_status(0);
            print_also(r.0);
        }
        Err(refusal) => {
            print_status(i32::from(refusal));
            print_also(0);
        }
    }
}

fn ask_pool(t: &[u32; WORDS], kind: u32) {
    io::print_decimal(STDOUT_FILENO, u64::from(pool::free_count(t, kind)));
    let r = pool::free_lowest(t, kind);
    print_also(r.0);
}

fn get_sensor(t: &[u32; WORDS], p: u32, token: u32, k: Index) {
    match partition::get_sensor(t, p, token, k) {
        Ok(value) => {
            print_status(0);
            print_also(value);
        }
        Err(refusal) => {
            print_status(i32::from(refusal));
            print_also(0);
        }
    }
}

// A connector's words.
fn print_words(c: &[u32; CONNECTOR_WORDS]) {
    for word in c {
        print_also(*word);
    }
}

// The connector of a row, where there is one.
fn show_row(t: &[u32; WORDS], row: u32) {
    let mut c = [0u32; CONNECTOR_WORDS];
    let s = ports::connector_at(t, row, &mut c);
    print_status(s);
    if 0 <= s {
        print_words(&c);
    }
}

// The platform's calls.
pub(crate) fn platform_call(t: &mut [u32; WORDS], l: ScriptLine) {
    match l.op {
        b'c' => {
            let s = adding::add_connector(t, l.a, Index(l.b), l.c, Index(l.d));
            print_status(call_status::status_number(s));
        }
        b'r' => add_resource(t, l.a),
        b'p' => {
            let s = platform::place(t, Resource(l.a), Index(l.b));
            print_status(call_status::status_number(s));
        }
        b't' => {
            let s = platform::retract(t, Index(l.a));
            print_status(call_status::status_number(s));
        }
        b'b' => {
            let s = want_back::want_back(t, Index(l.a));
            print_status(call_status::status_number(s));
        }
        b'g' => show_row(t, l.a),
        _ => ask_pool(t, l.a),
    }
}

// One call of a walk: the work area is zeroed, with the index in word 0.
fn walk_over(
    t: &mut [u32; WORDS],
    l: ScriptLine,
    area: &mut [u8],
    structure: &[u8],
    strings: &[u8],
) {
    put_word(area, 0, l.b);
    put_word(area, 4, l.d);
    let s = partition_walk::configure_connector(t, l.a, area, structure, strings);
    print_status(step_status::status_number(s));
}

// The partition's calls.
pub(crate) fn partition_call(
    t: &mut [u32; WORDS],
    l: ScriptLine,
    structure: &[u8],
    strings: &[u8],
) {
    match l.op {
        b'i' => {
            let s = partition::set_indicator(t, l.a, l.b, Index(l.c), l.d);
            print_status(order_number(s));
        }
        b's' => get_sensor(t, l.a, l.b, Index(l.c)),
        _ => match l.c {
            4096 => walk_over(t, l, &mut [0; 4096], structure, strings),
            8192 => walk_over(t, l, &mut [0; 8192], structure, strings),
            _ => walk_over(t, l, &mut [0; 4100], structure, strings),
        },
    }
}
