// Trees built from a script, in blocks that are zero before.
use crate::names::{Name, even, lettered, spelled};
use crate::script::{List, add, character, name_number, read_list, read_number};
use buffer::{copy_bytes, put_word};

// The used lengths of the structure and the strings block, and the place in the script.
#[derive(Clone, Copy, PartialEq, Eq)]
pub struct State {
    pub at: usize,
    pub used: usize,
    pub next: usize,
}

fn padded(n: usize) -> usize {
    (n % 100000 + 3) / 4 * 4
}

fn small(n: usize) -> u32 {
    (n % 100000) as u32
}

// A token at `at`; the answer is the place past it.
fn token(s: &mut [u8], at: usize, x: u32) -> usize {
    put_word(s, at, x);
    add(at, 4)
}

// A begin-node token.
fn begin(s: &mut [u8], at: usize, name: Name) -> usize {
    let from = token(s, at, 1);
    copy_bytes(s, from, &name.bytes, 0, name.len);
    add(from, padded(add(name.len, 1)))
}

// A property token up to its value.
fn property(s: &mut [u8], at: usize, len: usize, name: usize) -> usize {
    let a = token(s, at, 3);
    let b = token(s, a, small(len));
    token(s, b, small(name))
}

// A name and its NUL at the end of the strings block; the answer is how much of it is used then.
fn put_name(strings: &mut [u8], used: usize, name: Name) -> usize {
    copy_bytes(strings, used, &name.bytes, 0, name.len);
    add(used, add(name.len, 1))
}

// A property whose name goes to the end of the strings block, its value the first `len` bytes of the name.
fn own_property(s: &mut [u8], strings: &mut [u8], x: State, name: Name, len: usize) -> State {
    let value = property(s, x.at, len, x.used);
    copy_bytes(s, value, &name.bytes, 0, len);
    State {
        at: add(value, padded(len)),
        used: put_name(strings, x.used, name),
        next: name.next,
    }
}

fn mark_last(s: &mut [u8], at: usize) {
    if 0 < at {
        copy_bytes(s, at - 1, b"\x01", 0, 1);
    }
}

// `(` begins a node, `)` ends it, `.` is the end, `-` a no-op, `?` an unknown token; `~` makes the last byte of the
// structure block 1.
fn node_step(s: &mut [u8], t: &[u8], op: u8, x: State) -> State {
    match op {
        b'(' => {
            let name = spelled(t, x.next);
            State {
                at: begin(s, x.at, name),
                next: name.next,
                ..x
            }
        }
        b')' => State {
            at: token(s, x.at, 2),
            ..x
        },
        b'.' => State {
            at: token(s, x.at, 9),
            ..x
        },
        b'-' => State {
            at: token(s, x.at, 4),
            ..x
        },
        b'?' => State {
            at: token(s, x.at, 5),
            ..x
        },
        _ => {
            mark_last(s, x.at);
            x
        }
    }
}

// `=` is a property with no value and `+` one whose value is its name, `@` one whose name stands there already; `"` is a
// name in the strings block.
fn property_step(s: &mut [u8], strings: &mut [u8], t: &[u8], op: u8, x: State) -> State {
    match op {
        b'=' => own_property(s, strings, x, spelled(t, x.next), 0),
        b'+' => {
            let name = spelled(t, x.next);
            own_property(s, strings, x, name, name.len)
        }
        b'@' => {
            let n = read_number(t, x.next);
            State {
                at: property(s, x.at, 0, n.value),
                next: n.next,
                ..x
            }
        }
        _ => {
            let name = spelled(t, x.next);
            State {
                used: put_name(strings, x.used, name),
                next: name.next,
                ..x
            }
        }
    }
}

// Properties with names of three letters, each with its own place in the strings block.
fn lettered_list(s: &mut [u8], strings: &mut [u8], x: State, l: List) -> State {
    let mut at = x.at;
    let mut used = x.used;
    for q in 0..l.count {
        at = property(s, at, 0, used);
        let k = name_number(l, q);
        used = put_name(strings, used, lettered(k, l.before, l.after));
    }
    State {
        at,
        used,
        next: l.next,
    }
}

// So many runs of 31 bytes in the strings block: of the byte 1, of the byte 2 and so on.
fn runs(strings: &mut [u8], used: usize, count: usize) -> usize {
    let mut end = used;
    for k in 0..count {
        end = put_name(strings, end, even((k % 255 + 1) as u8));
    }
    end
}

// Properties whose names are the ends of the runs from the start of the strings block on.
fn run_list(s: &mut [u8], at: usize, l: List) -> usize {
    let mut end = at;
    for q in 0..l.count {
        let k = name_number(l, q) % 100000;
        end = property(s, end, 0, k / 31 * 32 + k % 31);
    }
    end
}

// Nodes with names of three letters, and nothing in them.
fn node_list(s: &mut [u8], at: usize, l: List) -> usize {
    let mut end = at;
    for q in 0..l.count {
        let k = name_number(l, q);
        end = begin(s, end, lettered(k, l.before, l.after));
        end = token(s, end, 2);
    }
    end
}

// `n` and `p` are lists of properties, `c` one of nodes; `f` puts runs into the strings block.
fn list_step(s: &mut [u8], strings: &mut [u8], t: &[u8], op: u8, x: State) -> State {
    let l = read_list(t, x.next);
    let next = l.next;
    match op {
        b'n' => lettered_list(s, strings, x, l),
        b'p' => State {
            at: run_list(s, x.at, l),
            next,
            ..x
        },
        b'f' => State {
            used: runs(strings, x.used, l.count),
            next,
            ..x
        },
        _ => State {
            at: node_list(s, x.at, l),
            next,
            ..x
        },
    }
}

fn step(s: &mut [u8], strings: &mut [u8], t: &[u8], x: State) -> State {
    let op = character(t, x.next);
    let y = State {
        next: add(x.next, 1),
        ..x
    };
    match op {
        b'(' | b')' | b'.' | b'-' | b'?' | b'~' => node_step(s, t, op, y),
        b'=' | b'+' | b'@' | b'"' => property_step(s, strings, t, op, y),
        _ => list_step(s, strings, t, op, y),
    }
}

// The blocks that the script describes.
pub(crate) fn build(s: &mut [u8], strings: &mut [u8], t: &[u8]) -> State {
    let mut x = State {
        at: 0,
        used: 0,
        next: 0,
    };
    for _ in 0..t.len() {
        if t.len() <= x.next {
            return x;
        }
        x = step(s, strings, t, x);
    }
    x
}
