// The check of a device tree: node and child list are each checked by way of the other.
#![tactic(auto)]

ghost use Rattle.std.specs.Prelude.{◌≡◌, true, false, [], ◌+◌, ◌-◌, ◌*◌, ◌<◌, ◌≤◌, length, get_or, set, leb};
ghost use Rattle.words.specs.Pick.{pick};
ghost use Rattle.words.specs.Bytes.{word_at, name_length, zero_at};
ghost use Rattle.devtree.specs.Tokens.{begin_at, property_at, past, tokens};
ghost use Rattle.devtree.specs.Names.{distinct};
ghost use Rattle.devtree.specs.Check.{last_token, passes};
ghost use Rattle.name_order.specs.Order.{listed, HasName, AllNamed, found_in};
ghost use Rattle.treecheck.specs.Scan.{strict, strict_at, Forward, sized};
ghost use Rattle.treecheck.specs.Lists.{Shown, Raised, Listing, Kept, Added, Scannable, PropsFrom, node_from, children_from, resumed, Closed};

use devtree::{Token, past_begin, past_property, read_token, skip};
use name_marks::name_mark;
use name_order::{all_differ, is_among};
use words::{low_zero, name_length, word_at, zero_at};

// How many marks there are for the names that were met.
const MARKS: usize = 2048;

// How many names of a list are compared one with another at most; a longer list is sorted.
const FEW: usize = 64;

// The next token from `at` on, a fault where its padding is not zero.
fn strict_token(s: &[u8], strings: &[u8], at: usize) -> Token
    ensures { result ≡ strict_at s.now strings.now at }
{
    let t = read_token(s, strings, at);
    match t {
        Token::Begin {
            at,
            name_at,
            name_len,
            next,
        } => {
            let end = name_at + name_len;
            if zero_at(s, end, next - end) {
                t
            } else {
                Token::Fault { at }
            }
        }
        Token::Property {
            at,
            value_at,
            value_len,
            next,
            ..
        } => {
            let end = value_at + value_len;
            if zero_at(s, end, next - end) {
                t
            } else {
                Token::Fault { at }
            }
        }
        _ => t,
    }
}

// Whether the `n` bytes before `end` are zero.
fn zero_before(s: &[u8], end: usize, n: usize) -> bool
    requires { (n ≤ 4) × (4 + n ≤ end) × (end ≤ length s.now) }
    ensures { result ≡ zero_at n s.now (end - n) }
{
    low_zero(word_at(s, end - 4), n)
}

// The offset past the begin-node token at `at`, whose name has `n` bytes; none where it or its padding is not as it must be.
fn strict_begin(s: &[u8], at: usize, n: usize) -> Option<usize>
    requires { (at + 4 ≤ length s.now) × (n ≡ name_length 48 s.now (at + 4)) }
    ensures { result ≡ past (strict s.now (begin_at s.now at)) }
{
    let next = past_begin(s, at, n)?;
    zero_before(s, next, next - (at + 4 + n)).then_some(next)
}

// The offset past the property token at `at`, whose name stands at `name` and has `n` bytes; none where it or its padding is not as it must be.
fn strict_property(s: &[u8], strings: &[u8], at: usize, name: usize, n: usize) -> Option<usize>
    requires { (name ≡ word_at s.now (at + 8)) × (n ≡ name_length 32 strings.now name) }
    ensures { result ≡ past (strict s.now (property_at s.now strings.now at)) }
{
    let next = past_property(s, strings, at, name, n)?;
    let len = word_at(s, at + 4) as usize;
    zero_before(s, next, next - (at + 12 + len)).then_some(next)
}

// Sets the mark `m` to `from`; whether it was as high before.
fn raise(marks: &mut [u16], m: usize, from: usize) -> bool
    requires { (m < length marks.old) × (from < 65536) }
    ensures { (result ≡ leb from (get_or marks.old m 0)) × (marks.new ≡ set marks.old m from) }
{
    let old = usize::from(marks[m]);
    marks[m] = from as u16;
    from <= old
}

// Sets both marks of a name; whether it may have been met since `from`.
fn meet(marks: &mut [u16], m: usize, from: usize) -> bool
    requires { (m < 4194304) × (from < 65536) × (2048 ≤ length marks.old) }
    ensures { (result ≡ false → Shown marks.old from m → ⊥) × Shown marks.new from m × Raised from marks.old marks.new }
{
    let first = raise(marks, m % MARKS, from);
    let second = raise(marks, m / MARKS, from);
    first && second
}

// Whether the name at `x` is one of a list that is not long. A list goes by its array and two places, as `name_order` takes it.
fn search_few(block: &[u8], names: &[u16], base: usize, top: usize, x: usize) -> bool
    requires { base ≤ top }
    ensures { result ≡ pick (leb 64 (top - base)) false (found_in block.now names.now base top x) }
{
    top - base < FEW && is_among(block, names, base, top, x)
}

// Adds the name of `n` bytes at `x` to a list; whether it is a twin of one of the list. In a long list twins are not looked for.
fn add_name(
    block: &[u8],
    names: &mut [u16],
    marks: &mut [u16],
    base: usize,
    top: usize,
    from: usize,
    x: usize,
    n: usize,
) -> bool
    requires { (base ≤ top) × (top < length names.old) × (2048 ≤ length marks.old) × (from < 65536) × (x < 65536) × HasName block.now x × (n ≡ name_length 48 block.now x) × Listing block.now names.old marks.old base top from }
    ensures { Added block.now names.old names.new marks.new base top from x result × Kept top from names.old names.new marks.old marks.new }
{
    names[top] = x as u16;
    meet(marks, name_mark(block, x, n), from) && search_few(block, names, base, top, x)
}

// Whether the names of a whole list differ.
fn differ(block: &[u8], names: &[u16], base: usize, top: usize) -> bool
    requires { (base ≤ top) × (top ≤ length names.now) × AllNamed block.now names.now base top × (top - base ≤ 64 → distinct (listed block.now names.now base (top - base)) ≡ true) }
    ensures { result ≡ distinct (listed block.now names.now base (top - base)) }
{
    top - base <= FEW || all_differ(block, names, base, top)
}

// The place past the properties from `at` on; none where one is not as it must be or has a twin.
fn properties(
    s: &[u8],
    strings: &[u8],
    at: usize,
    names: &mut [u16],
    marks: &mut [u16],
    base: usize,
) -> Option<usize>
    requires { Scannable s.now strings.now names.old marks.old at base }
    ensures { PropsFrom s.now strings.now at result × Kept base at names.old names.new marks.old marks.new }
{
    let mut p = at;
    let mut top = base;
    loop {
        let q = skip(s, p);
        if word_at(s, q) != 3 {
            return differ(strings, names, base, top).then_some(p);
        }
        let name = word_at(s, q + 8) as usize;
        let n = name_length(strings, name, 32);
        let next = strict_property(s, strings, q, name, n)?;
        if add_name(strings, names, marks, base, top, at, name, n) {
            return None;
        }
        top += 1;
        p = next;
    }
}

// The place past the rest of a node from past its begin-node token on; none where it is not as it must be. `left` levels may be nested in it.
#[cycle(children_node)]
fn node(
    s: &[u8],
    strings: &[u8],
    at: usize,
    left: usize,
    names: &mut [u16],
    marks: &mut [u16],
    base: usize,
) -> Option<usize>
    requires { (left ≤ 7) × Scannable s.now strings.now names.old marks.old at base }
    ensures at_value { node_from s.now strings.now left at ≡ resumed s.now strings.now left result }
    ensures forward { Forward s.now at result × Closed s.now strings.now at result × Kept base at names.old names.new marks.old marks.new }
{
    let p = properties(s, strings, at, names, marks, base)?;
    children(s, strings, p, left, names, marks, base)
}

// The place past the children of a node, and its end-node token.
#[cycle(children_node)]
fn children(
    s: &[u8],
    strings: &[u8],
    at: usize,
    left: usize,
    names: &mut [u16],
    marks: &mut [u16],
    base: usize,
) -> Option<usize>
    requires { (left ≤ 7) × Scannable s.now strings.now names.old marks.old at base }
    ensures at_value { children_from s.now strings.now left [] at ≡ resumed s.now strings.now left result }
    ensures forward { Forward s.now at result × Closed s.now strings.now at result × Kept base at names.old names.new marks.old marks.new }
{
    let mut p = at;
    let mut top = base;
    loop {
        let q = skip(s, p);
        let kind = word_at(s, q);
        if kind == 2 {
            return differ(s, names, base, top).then_some(q + 4);
        }
        if kind != 1 || left == 0 {
            return None;
        }
        let n = name_length(s, q + 4, 48);
        let next = strict_begin(s, q, n)?;
        if add_name(s, names, marks, base, top, at, q + 4, n) {
            return None;
        }
        top += 1;
        p = node(s, strings, next, left - 1, names, marks, top)?;
    }
}

// Whether only the end token follows, as the last four bytes.
fn finish(s: &[u8], strings: &[u8], at: usize) -> bool
    ensures { result ≡ last_token s.now (tokens s.now strings.now at) }
{
    match read_token(s, strings, at) {
        Token::End { next, .. } => next == s.len(),
        _ => false,
    }
}

// Whether the root, from past its begin-node token on, and what follows it are as they must be. Names are noted in `names`.
fn root_in(s: &[u8], strings: &[u8], at: usize, names: &mut [u16]) -> bool
    requires { (length s.now ≤ 32768) × (length strings.now ≤ 4096) × (at ≤ length s.now) × (length s.now ≤ 8 * length names.old) }
    ensures { result ≡ node_from s.now strings.now 7 at }
{
    let mut marks = [0; MARKS];
    match node(s, strings, at, 7, names, &mut marks, 0) {
        Some(past) => finish(s, strings, past),
        None => false,
    }
}

// The same of blocks that have lengths that a tree may have.
fn root(s: &[u8], strings: &[u8], at: usize) -> bool
    requires { (length s.now ≤ 32768) × (length strings.now ≤ 4096) × (at ≤ length s.now) }
    ensures { result ≡ node_from s.now strings.now 7 at }
{
    if s.len() <= 1024 {
        return root_in(s, strings, at, &mut [0; 128]);
    }
    root_in(s, strings, at, &mut [0; 4096])
}

// Whether the blocks have lengths that a tree may have.
fn sizes(s: &[u8], strings: &[u8]) -> bool
    ensures { result ≡ sized s.now strings.now }
{
    s.len() <= 32768 && s.len() % 4 == 0 && strings.len() <= 4096
}

// 1 where the two blocks hold a tree that may be lent, else 0.
#[unsafe(no_mangle)]
pub extern "C" fn check_tree(structure: &[u8], strings: &[u8]) -> u32
    ensures { result ≡ pick (passes structure.now strings.now) 1 0 }
{
    if !sizes(structure, strings) {
        return 0;
    }
    match strict_token(structure, strings, 0) {
        Token::Begin { next, .. } => u32::from(root(structure, strings, next)),
        _ => 0,
    }
}
