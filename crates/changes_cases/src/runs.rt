// Entries of one, two or three words, each run whose words go up by the same from entry to entry written as its first
// entry, what each word goes up by, and how many entries there are.
ghost use Rattle.std.specs.Prelude.{◌≡◌, ◌*◌, ◌<◌, ◌≤◌, length};

use crate::print::{print_decimal, print_entry, print_text};

// How much word `i` is above that of the entry before.
fn step(w: &[u32], i: usize, size: usize) -> u32
    requires { (size ≤ i) × (i < length w.now) }
{
    w[i].wrapping_sub(w[i - size])
}

// Whether word `i` is in one run with those before it.
fn in_run(w: &[u32], i: usize, size: usize) -> bool
    requires { (i < length w.now) × (size ≤ 3) }
{
    i < 2 * size || step(w, i, size) == step(w, i - size, size)
}

// How many words the first run has, which may end within an entry.
fn run_length(w: &[u32], size: usize) -> usize
    requires { (0 < length w.now) × (size ≤ 3) }
    ensures { (0 < result) × (result ≤ length w.now) }
{
    for i in 1..w.len() {
        if !in_run(w, i, size) {
            return i;
        }
    }
    w.len()
}

// How much each word of the second entry is above that of the first; 0 past its last.
fn steps(w: &[u32], size: usize) -> [u32; 3]
    requires { (2 * size ≤ length w.now) × (size ≤ 3) }
    ensures { 3 ≡ length result }
{
    std::array::from_fn(|k| if k < size { step(w, size + k, size) } else { 0 })
}

// The run of `n` entries.
fn print_run(w: &[u32], size: usize, n: usize)
    requires { (2 * size ≤ length w.now) × (size ≤ 3) }
{
    print_entry(&w[..size]);
    print_text(b"+");
    print_entry(&steps(w, size)[..size]);
    print_text(b"*");
    print_decimal(n);
}

// How many of `n` words are in whole entries.
fn in_whole(n: usize, size: usize) -> usize
    requires { (0 < size) × (size ≤ n) }
    ensures { (0 < result) × (result ≤ n) }
{
    n - n % size
}

// The first run where it has three entries or more, else the first entry; the answer is what follows.
fn print_next(w: &[u32], size: usize) -> &[u32]
    requires { (0 < length w.now) × (0 < size) × (size ≤ 3) }
    ensures { length result.now < length w.now }
{
    let n = run_length(w, size);
    if n < 3 * size {
        let (entry, rest) = w.split_at(n.min(size));
        print_entry(entry);
        return rest;
    }
    print_run(w, size, n / size);
    &w[in_whole(n, size)..]
}

// All entries, each run after a space.
pub(crate) fn print_runs(w: &[u32], size: usize)
    requires { (0 < size) × (size ≤ 3) }
{
    let mut left = w;
    // a turn goes on by a whole run, so no `for` counts it
    while !left.is_empty() {
        print_text(b" ");
        left = print_next(left, size);
    }
}
