// Two tokens of two trees, side by side: whether they say the same.
#![tactic(auto)]

ghost use Rattle.std.specs.Prelude.{◌≡◌, ◌+◌, ◌≤◌, length};
ghost use Rattle.token_pairs.specs.Pairs.{open_pair, equal_pair, close_pair, pair_at, NodeIn, PropertyIn};

use devtree::{Token, read_token};

// A place in each of the two structure blocks.
#[derive(Clone, Copy, PartialEq, Eq)]
pub struct Places {
    pub a: usize,
    pub b: usize,
}

// Two tokens side by side: those that say the same, with the places past them.
#[derive(Clone, Copy, PartialEq, Eq)]
pub enum Pair {
    Open(Places),
    Equal(Places),
    Close(Places),
    Unlike,
}

// A begin-node token of `a`, its name at `at`, beside the token `y` of `b`.
fn open_pair(a: &[u8], at: usize, n: usize, next: usize, b: &[u8], y: Token) -> Pair
    requires { (at + n ≤ length a.now) × NodeIn b.now y }
    ensures { result ≡ open_pair a.now at n next b.now y }
{
    let Token::Begin {
        name_at,
        name_len,
        next: past,
        ..
    } = y
    else {
        return Pair::Unlike;
    };
    if a[at..at + n] == b[name_at..name_at + name_len] {
        Pair::Open(Places { a: next, b: past })
    } else {
        Pair::Unlike
    }
}

// A property token of `a`, its name at `at` in the strings block and its value at `value` in the structure block, beside the token `y` of `b`.
fn equal_pair(
    a: &[u8],
    astrings: &[u8],
    at: usize,
    n: usize,
    value: usize,
    len: usize,
    next: usize,
    b: &[u8],
    bstrings: &[u8],
    y: Token,
) -> Pair
    requires { (at + n ≤ length astrings.now) × (value + len ≤ length a.now) × PropertyIn b.now bstrings.now y }
    ensures { result ≡ equal_pair a.now astrings.now at n value len next b.now bstrings.now y }
{
    let Token::Property {
        name_at,
        name_len,
        value_at,
        value_len,
        next: past,
        ..
    } = y
    else {
        return Pair::Unlike;
    };
    if astrings[at..at + n] == bstrings[name_at..name_at + name_len]
        && a[value..value + len] == b[value_at..value_at + value_len]
    {
        Pair::Equal(Places { a: next, b: past })
    } else {
        Pair::Unlike
    }
}

// An end-node token beside the token `y`.
fn close_pair(next: usize, y: Token) -> Pair
    ensures { result ≡ close_pair next y }
{
    match y {
        Token::EndNode { next: past, .. } => Pair::Close(Places { a: next, b: past }),
        _ => Pair::Unlike,
    }
}

// The next tokens from the places `p` on.
pub fn pair_at(a: &[u8], astrings: &[u8], b: &[u8], bstrings: &[u8], p: Places) -> Pair
    ensures { result ≡ pair_at a.now astrings.now b.now bstrings.now p }
{
    let y = read_token(b, bstrings, p.b);
    match read_token(a, astrings, p.a) {
        Token::Begin {
            name_at,
            name_len,
            next,
            ..
        } => open_pair(a, name_at, name_len, next, b, y),
        Token::Property {
            name_at: n,
            name_len,
            value_at: v,
            value_len,
            next,
            ..
        } => { equal_pair(a, astrings, n, name_len, v, value_len, next, b, bstrings, y) }
        Token::EndNode { next, .. } => close_pair(next, y),
        _ => Pair::Unlike,
    }
}
