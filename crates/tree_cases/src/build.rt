// Trees built from a script, a letter for each token.
ghost use Rattle.std.specs.Prelude.{◌≤◌};

use buffer::{copy_bytes, put_word};

// The used lengths of the structure and the strings block, and the place in the script.
#[derive(Clone, Copy, PartialEq, Eq)]
pub struct State {
    pub at: usize,
    pub used: usize,
    pub next: usize,
}

// More than any block here has.
const LIMIT: usize = 1000000;

// The sum, 0 where it is larger than any block here.
fn add(a: usize, b: usize) -> usize {
    if a < LIMIT && b < LIMIT { a + b } else { 0 }
}

fn padded(n: usize) -> usize {
    if n < LIMIT { (n + 3) / 4 * 4 } else { 0 }
}

// So many bytes `x` from `at` on, as far as there is room.
fn fill(b: &mut [u8], at: usize, n: usize, x: u8) {
    for y in b.iter_mut().skip(at).take(n) {
        *y = x;
    }
}

fn byte(t: &[u8], i: usize) -> u8 {
    t.get(i).copied().unwrap_or(0)
}

fn digit(t: &[u8], i: usize) -> usize
    ensures { result ≤ 9 }
{
    match byte(t, i) {
        d @ b'0'..=b'9' => usize::from(d - b'0'),
        _ => 0,
    }
}

fn two(t: &[u8], i: usize) -> usize
    ensures { result ≤ 99 }
{
    digit(t, i) * 10 + digit(t, add(i, 1))
}

fn four(t: &[u8], i: usize) -> usize
    ensures { result ≤ 9999 }
{
    two(t, i) * 100 + two(t, add(i, 2))
}

fn token(s: &mut [u8], at: usize, x: u32) -> usize {
    put_word(s, at, x);
    add(at, 4)
}

// A begin-node token with a name of `n` bytes.
fn begin(s: &mut [u8], at: usize, n: usize, x: u8) -> usize {
    let name = token(s, at, 1);
    let size = padded(add(n, 1));
    fill(s, name, size, 0);
    fill(s, name, n, x);
    add(name, size)
}

// A property token with a value of `n` bytes, its stated length and the offset of its name.
fn property(s: &mut [u8], at: usize, n: usize, x: u8, stated: u32, name: u32) -> usize {
    let a = token(s, at, 3);
    let b = token(s, a, stated);
    let value = token(s, b, name);
    let size = padded(n);
    fill(s, value, size, 0);
    fill(s, value, n, x);
    add(value, size)
}

fn small(n: usize) -> u32 {
    if n < LIMIT { n as u32 } else { 0 }
}

// `(c` a node named c, `[nn` a node with a name of nn bytes, `)` its end, `.` the end, `-` a no-op, `?` an unknown token.
fn node_step(s: &mut [u8], t: &[u8], op: u8, x: State) -> State {
    match op {
        b'(' => State {
            at: begin(s, x.at, 1, byte(t, x.next)),
            next: add(x.next, 1),
            ..x
        },
        b'[' => State {
            at: begin(s, x.at, two(t, x.next), b'n'),
            next: add(x.next, 2),
            ..x
        },
        b')' => State {
            at: token(s, x.at, 2),
            ..x
        },
        b'.' => State {
            at: token(s, x.at, 9),
            ..x
        },
        b'-' => State {
            at: token(s, x.at, 4),
            ..x
        },
        _ => State {
            at: token(s, x.at, 5),
            ..x
        },
    }
}

// `=c` a property reg with the value c, `rnnnn` one with a value of nnnn bytes, `nnn` one with no value and a name of nn
// bytes, `o` one whose name's offset and `l` one whose value's length is FFFFFFFF.
fn property_step(s: &mut [u8], strings: &mut [u8], t: &[u8], op: u8, x: State) -> State {
    match op {
        b'=' => State {
            at: property(s, x.at, 1, byte(t, x.next), 1, 0),
            next: add(x.next, 1),
            ..x
        },
        b'r' => {
            let n = four(t, x.next);
            State {
                at: property(s, x.at, n, 171, small(n), 0),
                next: add(x.next, 4),
                ..x
            }
        }
        b'n' => {
            let n = two(t, x.next);
            let end = add(x.used, n);
            fill(strings, x.used, n, b'p');
            fill(strings, end, 1, 0);
            State {
                at: property(s, x.at, 0, 0, 0, small(x.used)),
                used: add(end, 1),
                next: add(x.next, 2),
            }
        }
        b'o' => State {
            at: property(s, x.at, 0, 0, 0, 4294967295),
            ..x
        },
        _ => State {
            at: property(s, x.at, 0, 0, 4294967295, 0),
            ..x
        },
    }
}

// `~` makes the last byte of the structure block 1, `<` drops it, `znnnn` adds nnnn bytes to the strings block, `!` drops
// the last byte of the strings block.
fn byte_step(s: &mut [u8], strings: &mut [u8], t: &[u8], op: u8, x: State) -> State {
    match op {
        b'~' => {
            fill(s, x.at.saturating_sub(1), 1, 1);
            x
        }
        b'<' => State {
            at: x.at.saturating_sub(1),
            ..x
        },
        b'z' => {
            let n = four(t, x.next);
            fill(strings, x.used, n, b'z');
            State {
                used: add(x.used, n),
                next: add(x.next, 4),
                ..x
            }
        }
        b'!' => State {
            used: x.used.saturating_sub(1),
            ..x
        },
        _ => x,
    }
}

fn step(s: &mut [u8], strings: &mut [u8], t: &[u8], x: State) -> State {
    let op = byte(t, x.next);
    let y = State {
        next: add(x.next, 1),
        ..x
    };
    match op {
        b'(' | b'[' | b')' | b'.' | b'-' | b'?' => node_step(s, t, op, y),
        b'=' | b'r' | b'n' | b'o' | b'l' => property_step(s, strings, t, op, y),
        _ => byte_step(s, strings, t, op, y),
    }
}

// The blocks that the script from `from` to `end` describes: a strings block that starts with `reg`.
pub(crate) fn build(s: &mut [u8], strings: &mut [u8], t: &[u8], from: usize, end: usize) -> State {
    copy_bytes(strings, 0, b"reg\0", 0, 4);
    let mut x = State {
        at: 0,
        used: 4,
        next: from,
    };
    for _ in from..end {
        if end <= x.next {
            return x;
        }
        x = step(s, strings, t, x);
    }
    x
}
