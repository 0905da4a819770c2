// A script's lines: a letter, then bytes of two digits each with spaces between them, up to a `;`.
ghost use Rattle.std.specs.Prelude.{◌≡◌, ◌+◌, ◌*◌};
ghost use Rattle.sent_cases.specs.Script.{number_at, part_of, put_byte, put_run, put_text, reading};

use case_io::digit;
use words::word_at;

// The `n` bytes from `at` on, none where there are fewer.
pub(crate) fn part(s: &[u8], at: usize, n: usize) -> &[u8]
    ensures { result.now ≡ part_of s.now at n }
{
    if s.len() < at {
        return &[];
    }
    if s.len() - at < n {
        return &[];
    }
    &s[at..at + n]
}

// A byte more at `at`, where there is room; the answer is the place past it.
fn put_byte(out: &mut [u8], at: usize, x: u8) -> usize
    ensures { reading out.new result ≡ put_byte x (reading out.old at) }
{
    if out.len() <= at {
        return at;
    }
    out[at] = x;
    at + 1
}

// So many bytes more, as far as there is room; the answer is the place past them.
pub(crate) fn put_run(out: &mut [u8], from: usize, n: u32, x: u8) -> usize
    ensures { reading out.new result ≡ put_run n x (reading out.old from) }
{
    let mut at = from;
    for _ in 0..n {
        if out.len() <= at {
            return at;
        }
        at = put_byte(out, at, x);
    }
    at
}

// The bytes of a text into `out` from `from` on, as far as there is room; the answer is the place past them.
pub(crate) fn put_text(text: &[u8], out: &mut [u8], from: usize) -> usize
    ensures { reading out.new result ≡ put_text text.now (reading out.old from) }
{
    let mut at = from;
    let mut left = text;
    while let [high, low, rest @ ..] = left {
        if *high == b' ' {
            left = &left[1..];
        } else {
            at = put_byte(out, at, digit(*high) * 16 + digit(*low));
            left = rest;
        }
    }
    at
}

// The numbers of a call.
#[derive(Clone, Copy, PartialEq, Eq)]
pub struct Numbers {
    pub a: u32,
    pub b: u32,
    pub c: u32,
    pub d: u32,
}

// The numbers that a text spells, 0 those that are left out.
pub(crate) fn read_numbers(text: &[u8]) -> Numbers
    ensures { (result.a ≡ number_at text.now 0) × (result.b ≡ number_at text.now 4) × (result.c ≡ number_at text.now 8) × (result.d ≡ number_at text.now 12) }
{
    let mut b = [0u8; 16];
    put_text(text, &mut b, 0);
    Numbers {
        a: word_at(&b, 0),
        b: word_at(&b, 4),
        c: word_at(&b, 8),
        d: word_at(&b, 12),
    }
}
