// The mark of a name: a number by its bytes.
#![tactic(auto)]

ghost use Rattle.std.specs.Prelude.{◌≡◌, ◌-◌, ◌<◌, ◌≤◌, length};
ghost use Rattle.name_marks.specs.Marks.{spread_of, eights, long_mark, short_mark, name_mark};

use words::{eight_at, room};

// A number below 4,194,304 by two numbers.
fn spread(low: u64, high: u64) -> usize
    requires { (low < 4294967296) × (high < 4294967296) }
    ensures { (result ≡ spread_of low high) × (result < 4194304) }
{
    ((low * 668265263 + high * 374761393) / 2097152 % 4194304) as usize
}

// Three times eight bytes of a name with its NUL, as one number.
fn three_eights(name: &[u8]) -> u64
    requires { (8 ≤ length name.now) × (length name.now ≤ 48) }
    ensures { (result ≡ eights name.now 0 (length name.now - 1)) × (result < 16140901064495857664) }
{
    let last = name.len() - 8;
    eight_at(name, 0) / 2 + eight_at(name, last) / 4 + eight_at(name, last / 2) / 8
}

fn long_mark(name: &[u8]) -> usize
    requires { (8 ≤ length name.now) × (length name.now ≤ 48) }
    ensures { (result ≡ long_mark name.now 0 (length name.now - 1)) × (result < 4194304) }
{
    let t = three_eights(name);
    spread(t % 4294967296, t / 4294967296 + (name.len() - 1) as u64)
}

fn short_mark(name: &[u8]) -> usize
    requires { (2 ≤ length name.now) × (length name.now ≤ 48) }
    ensures { (result ≡ short_mark name.now 0 (length name.now - 1)) × (result < 4194304) }
{
    let n = name.len() - 1;
    let ends = u64::from(name[0]) + 256 * u64::from(name[n - 1]);
    spread(ends, u64::from(name[n / 2]) + 256 * n as u64)
}

// The mark of the name of `n` bytes at `x`; 0 where its NUL is not in the block, it is longer than 47 bytes, or it has none.
pub fn name_mark(block: &[u8], x: usize, n: usize) -> usize
    ensures { (result ≡ name_mark block.now x n) × (result < 4194304) }
{
    if room(block, x) <= n || 47 < n {
        return 0;
    }
    let name = &block[x..=x + n];
    match n {
        0 => 0,
        1..=6 => short_mark(name),
        _ => long_mark(name),
    }
}
