// Reading a device tree's structure and strings blocks, token by token.
#![tactic(auto)]

ghost use Rattle.std.specs.Prelude.{◌≡◌, ℕ, ◌+◌, ◌-◌, ◌<◌, ◌≤◌, ◌^◌, [], ◌∷◌, length, leb, ltb};
ghost use Rattle.words.specs.Pick.{every};
ghost use Rattle.words.specs.Bytes.{word_at, name_length};
ghost use Rattle.devtree.specs.Tokens.{up4, skipped, begin_named, begin_at, property_of, property_at, past, fault_at, token_at};

use words::{name_length, room, word_at};

// A token of the structure block. `at` is the offset of the token itself and `next` that past it and its padding.
#[derive(Clone, Copy, PartialEq, Eq)]
pub enum Token {
    // A node's name stands at `name_at` in the structure block.
    Begin {
        at: usize,
        name_at: usize,
        name_len: usize,
        next: usize,
    },
    // A property's name stands at `name_at` in the strings block, its value at `value_at` in the structure block.
    Property {
        at: usize,
        name_at: usize,
        name_len: usize,
        value_at: usize,
        value_len: usize,
        next: usize,
    },
    EndNode {
        at: usize,
        next: usize,
    },
    End {
        at: usize,
        next: usize,
    },
    // No token of the form: unknown, cut short by the end, or with a name or a value outside its limits.
    Fault {
        at: usize,
    },
}

// A fault at this offset.
#[derive(Clone, Copy, PartialEq, Eq)]
pub struct Broken {
    pub at: usize,
}

// The offset of the first word from `at` on that is no no-op.
pub fn skip(s: &[u8], at: usize) -> usize
    ensures { result ≡ skipped s.now at }
{
    let mut p = at;
    while word_at(s, p) == 4 {
        p += 4;
    }
    p
}

// `n` rounded up to a multiple of four. LLVM 14 makes two instructions of this, and six of `next_multiple_of(4)`; each token of a walk needs it.
fn up4(n: usize) -> usize
    requires { n + 3 < 2 ^ 64 }
    ensures { result ≡ up4 n }
{
    (n + 3) / 4 * 4
}

// Whether a name of `n` bytes may be a node's, and lies with its NUL and padding in `left` bytes.
pub fn begin_fits(n: usize, left: usize) -> bool
    ensures { result ≡ every (leb 1 n ∷ leb n 47 ∷ leb (up4 (n + 1)) left ∷ []) }
{
    1 <= n && n <= 47 && up4(n + 1) <= left
}

// The offset past the begin-node token at `at`, whose name has `n` bytes; none where it is not as it must be.
pub fn past_begin(s: &[u8], at: usize, n: usize) -> Option<usize>
    ensures { result ≡ past (begin_named at n (length s.now - (at + 4))) }
{
    if begin_fits(n, room(s, at).saturating_sub(4)) {
        Some(at + 4 + up4(n + 1))
    } else {
        None
    }
}

fn begin_at(s: &[u8], at: usize) -> Token
    requires { at + 4 ≤ length s.now }
    ensures { result ≡ begin_at s.now at }
{
    let n = name_length(s, at + 4, 48);
    match past_begin(s, at, n) {
        Some(next) => Token::Begin {
            at,
            name_at: at + 4,
            name_len: n,
            next,
        },
        None => Token::Fault { at },
    }
}

// Whether a name of `n` bytes, after which the strings block has `tail` bytes, may be a property's, and a value of `len`
// bytes its value, which lies with its padding in `left` bytes.
pub fn property_fits(n: usize, tail: usize, len: usize, left: usize) -> bool
    ensures { result ≡ every (leb 1 n ∷ leb n 31 ∷ ltb n tail ∷ leb len (8192 - 20 - (n + 1)) ∷ leb (up4 len) left ∷ []) }
{
    1 <= n && n <= 31 && n < tail && len <= 8192 - 20 - (n + 1) && up4(len) <= left
}

// The offset past the property token at `at`, whose name stands at `name` and has `n` bytes; none where it is not as it must be.
pub fn past_property(s: &[u8], strings: &[u8], at: usize, name: usize, n: usize) -> Option<usize>
    ensures { result ≡ past (property_of s.now strings.now at name n) }
{
    let rest = room(s, at);
    if rest < 12 {
        return None;
    }
    let len = word_at(s, at + 4) as usize;
    if property_fits(n, room(strings, name), len, rest - 12) {
        Some(at + 12 + up4(len))
    } else {
        None
    }
}

fn property_at(s: &[u8], strings: &[u8], at: usize) -> Token
    requires { at + 4 ≤ length s.now }
    ensures { result ≡ property_at s.now strings.now at }
{
    let name = word_at(s, at + 8) as usize;
    let n = name_length(strings, name, 32);
    match past_property(s, strings, at, name, n) {
        Some(next) => Token::Property {
            at,
            name_at: name,
            name_len: n,
            value_at: at + 12,
            value_len: word_at(s, at + 4) as usize,
            next,
        },
        None => Token::Fault { at },
    }
}

// A fault at `at`, or at the block's end where `at` is past it.
fn fault_at(s: &[u8], at: usize) -> Token
    ensures { result ≡ fault_at s.now at }
{
    Token::Fault {
        at: at.min(s.len()),
    }
}

// The next token from `at` on, after any no-ops.
pub fn read_token(s: &[u8], strings: &[u8], at: usize) -> Token
    ensures { result ≡ token_at s.now strings.now at }
{
    let p = skip(s, at);
    match word_at(s, p) {
        1 => begin_at(s, p),
        2 => Token::EndNode { at: p, next: p + 4 },
        3 => property_at(s, strings, p),
        9 => Token::End { at: p, next: p + 4 },
        _ => fault_at(s, p),
    }
}
