// The order of names in a block, and whether the names of a list differ.
#![tactic(auto)]

ghost use Rattle.std.specs.Prelude.{◌≡◌, ◌+◌, ◌-◌, ◌<◌, ◌≤◌, length, get_or};
ghost use Rattle.devtree.specs.Names.{same_name, among, distinct};
ghost use Rattle.name_order.specs.Order.{name_at, listed, HasName, AllNamed, has_name, all_named, is_list, found_in, distinct_in, Copied, name_order};
ghost use Rattle.name_order.specs.Shuffled.{exchanged, Shuffled};

use words::{name_length, room};

// How many names are sorted at most: as many as a structure block of 32,768 bytes has room for, at eight bytes or more each.
const NAMES: usize = 4096;

// 0 where the names at `x` and `y` are the same, 1 where that at `x` comes first, else 2. It asks that the names stand there:
// a comparison of any two offsets, as a closure for an iterator or a sort needs it, was 1.3 to 1.8 times slower.
fn order(block: &[u8], x: usize, y: usize) -> u32
    requires { HasName block.now x × HasName block.now y }
    ensures { result ≡ name_order (name_at block.now x) (name_at block.now y) }
{
    let mut i = 0;
    loop {
        let a = block[x + i];
        let b = block[y + i];
        if a != b {
            return if a < b { 1 } else { 2 };
        }
        if a == 0 {
            return 0;
        }
        i += 1;
    }
}

// Whether the names at `x` and `y` are the same.
fn same(block: &[u8], x: usize, y: usize) -> bool
    requires { HasName block.now x × HasName block.now y }
    ensures { result ≡ same_name (name_at block.now x) (name_at block.now y) }
{
    if x == y {
        return true;
    }
    order(block, x, y) == 0
}

fn wide(x: u16) -> usize
    ensures { result ≡ x }
{
    x as usize
}

// The offset that element `i` of a list holds.
fn place(names: &[u16], i: usize) -> usize
    requires { i < length names.now }
    ensures { result ≡ get_or names.now i 0 }
{
    wide(names[i])
}

// Whether the name at `x` is one of the names of a list.
fn is_in(block: &[u8], names: &[u16], base: usize, top: usize, x: usize) -> bool
    requires { (base ≤ top) × (top ≤ length names.now) × AllNamed block.now names.now base top × HasName block.now x }
    ensures { result ≡ among (name_at block.now x) (listed block.now names.now base (top - base)) }
{
    let mut i = base;
    while i < top {
        if same(block, x, place(names, i)) {
            return true;
        }
        i += 1;
    }
    false
}

// Whether the names of the list differ, each compared with each.
fn pairs_differ(block: &[u8], names: &[u16], base: usize, top: usize) -> bool
    requires { (base ≤ top) × (top ≤ length names.now) × AllNamed block.now names.now base top }
    ensures { result ≡ distinct (listed block.now names.now base (top - base)) }
{
    let mut i = base;
    while i < top {
        if is_in(block, names, i + 1, top, place(names, i)) {
            return false;
        }
        i += 1;
    }
    true
}

// The order of the names that two elements of a list stand for.
fn order_at(block: &[u8], names: &[u16], i: usize, j: usize) -> u32
    requires { (i < length names.now) × (j < length names.now) × HasName block.now (get_or names.now i 0) × HasName block.now (get_or names.now j 0) }
    ensures { result ≡ name_order (name_at block.now (get_or names.now i 0)) (name_at block.now (get_or names.now j 0)) }
{
    order(block, place(names, i), place(names, j))
}

// Whether the names of the first `n` elements differ: in one pass where each name comes before the next.
fn neighbours_differ(block: &[u8], names: &[u16], n: usize) -> bool
    requires { (n ≤ length names.now) × AllNamed block.now names.now 0 n }
    ensures { result ≡ distinct (listed block.now names.now 0 n) }
{
    let mut i = 1;
    while i < n {
        let o = order_at(block, names, i - 1, i);
        if o == 0 {
            return false;
        }
        if o != 1 {
            return pairs_differ(block, names, 0, n);
        }
        i += 1;
    }
    true
}

fn exchange(names: &mut [u16], i: usize, j: usize)
    requires { (i < length names.old) × (j < length names.old) }
    ensures { names.new ≡ exchanged names.old i j }
{
    let first = names[i];
    names[i] = names[j];
    names[j] = first;
}

// Of the two children `child` and `child + 1` in a heap of the first `n` elements, the one whose name comes later.
fn later_child(block: &[u8], names: &[u16], child: usize, n: usize) -> usize
    requires { (child < n) × (n ≤ length names.now) × AllNamed block.now names.now 0 n }
    ensures { (child ≤ result) × (result < n) }
{
    if child + 1 < n {
        if order_at(block, names, child, child + 1) == 1 {
            return child + 1;
        }
    }
    child
}

// Exchanges element `start` of a heap with the later child, down to a leaf. The leaf is the answer.
fn sink(block: &[u8], names: &mut [u16], start: usize, n: usize) -> usize
    requires { (start < n) × (n ≤ length names.old) × AllNamed block.now names.old 0 n }
    ensures { (result < n) × Shuffled n names.old names.new }
{
    let mut at = start;
    while 2 * at + 1 < n {
        let child = later_child(block, names, 2 * at + 1, n);
        exchange(names, at, child);
        at = child;
    }
    at
}

// Exchanges element `leaf` of a heap with the parents that come before it, up to `start`.
fn rise(block: &[u8], names: &mut [u16], start: usize, leaf: usize)
    requires { (leaf < length names.old) × AllNamed block.now names.old 0 (leaf + 1) }
    ensures { Shuffled (leaf + 1) names.old names.new }
{
    let mut at = leaf;
    while start < at {
        let parent = (at - 1) / 2;
        if order_at(block, names, parent, at) != 1 {
            return;
        }
        exchange(names, parent, at);
        at = parent;
    }
}

// Makes a heap of element `start` and those below it, which are heaps.
fn sift(block: &[u8], names: &mut [u16], start: usize, n: usize)
    requires { (start < n) × (n ≤ length names.old) × AllNamed block.now names.old 0 n }
    ensures { Shuffled n names.old names.new }
{
    let leaf = sink(block, names, start, n);
    rise(block, names, start, leaf);
}

// Makes a heap of the first `n` elements.
fn build(block: &[u8], names: &mut [u16], n: usize)
    requires { (n ≤ length names.old) × AllNamed block.now names.old 0 n }
    ensures { Shuffled n names.old names.new }
{
    let mut h = n / 2;
    while 0 < h {
        h -= 1;
        sift(block, names, h, n);
    }
}

// Sorts the first `n` elements by their names, a heap sort. The proof says only that elements were exchanged. The library's
// sort was two to three times slower on names with long beginnings in common.
fn sort(block: &[u8], names: &mut [u16], n: usize)
    requires { (n ≤ length names.old) × AllNamed block.now names.old 0 n }
    ensures { Shuffled n names.old names.new }
{
    build(block, names, n);
    let mut left = n;
    while 1 < left {
        left -= 1;
        exchange(names, 0, left);
        sift(block, names, 0, left);
    }
}

// Whether the names of the first `n` elements differ. They are sorted for it.
fn sorted_differ(block: &[u8], names: &mut [u16], n: usize) -> bool
    requires { (n ≤ length names.old) × AllNamed block.now names.old 0 n }
    ensures { result ≡ distinct (listed block.now names.old 0 n) }
{
    sort(block, names, n);
    neighbours_differ(block, names, n)
}

// Copies the `n` elements of a list from `base` on to the front of another.
fn copy_front(copy: &mut [u16], names: &[u16], base: usize, n: usize)
    requires { (n ≤ length copy.old) × (base + n ≤ length names.now) }
    ensures { Copied base n names.now copy.new }
{
    let mut k = 0;
    while k < n {
        copy[k] = names[base + k];
        k += 1;
    }
}

// Whether a name of at most 47 bytes stands at `x` with its NUL.
fn has_name(block: &[u8], x: usize) -> bool
    ensures { result ≡ has_name block.now x }
{
    let n = name_length(block, x, 48);
    if 47 < n {
        return false;
    }
    n < room(block, x)
}

// Whether such names stand at the offsets of a list.
fn all_named(block: &[u8], names: &[u16], base: usize, top: usize) -> bool
    requires { (base ≤ top) × (top ≤ length names.now) }
    ensures { result ≡ all_named block.now names.now base (top - base) }
{
    let mut i = base;
    while i < top {
        if !has_name(block, place(names, i)) {
            return false;
        }
        i += 1;
    }
    true
}

// Whether a list of names stands from `base` to `top`.
fn is_list(block: &[u8], names: &[u16], base: usize, top: usize) -> bool
    ensures { result ≡ is_list block.now names.now base top }
{
    if top < base {
        return false;
    }
    if names.len() < top {
        return false;
    }
    all_named(block, names, base, top)
}

// Whether there is such a list, and the name at `x`, which stands there, is one of it.
pub fn is_among(block: &[u8], names: &[u16], base: usize, top: usize, x: usize) -> bool
    ensures { result ≡ found_in block.now names.now base top x }
{
    if !is_list(block, names, base, top) {
        return false;
    }
    if !has_name(block, x) {
        return false;
    }
    is_in(block, names, base, top, x)
}

// Whether there is such a list, and its names differ. A copy is sorted for it; where there is no room for one, each name is
// compared with each.
pub fn all_differ(block: &[u8], names: &[u16], base: usize, top: usize) -> bool
    ensures { result ≡ distinct_in block.now names.now base top }
{
    if !is_list(block, names, base, top) {
        return false;
    }
    let n = top - base;
    if NAMES < n {
        return pairs_differ(block, names, base, top);
    }
    let mut copy: [u16; NAMES] = [0; NAMES];
    copy_front(&mut copy, names, base, n);
    sorted_differ(block, &mut copy, n)
}
