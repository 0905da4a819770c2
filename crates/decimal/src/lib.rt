// A number in decimal: how long it is, and its digits written into a buffer.
#![tactic(auto)]

ghost use Rattle.std.specs.Prelude.{◌≡◌, ◌≤◌, length};
ghost use Rattle.buffer.specs.Put.{put};
ghost use Rattle.decimal.specs.Decimal.{digits};

use words::room;

// How many digits a number has.
pub fn digit_count(n: u32) -> usize
    ensures { (result ≡ length (digits n)) × (result ≤ 10) }
{
    n.checked_ilog10().unwrap_or(0) as usize + 1
}

// The digits from the last to the first.
fn write_digits(dst: &mut [u8], n: u32)
    requires { length dst.old ≡ length (digits n) }
    ensures { dst.new ≡ digits n }
{
    let mut left = n;
    for k in (0..dst.len()).rev() {
        dst[k] = b'0' + (left % 10) as u8;
        left /= 10;
    }
}

// The digits of `n` at `at`; the answer is how many they are.
pub fn put_digits(dst: &mut [u8], at: usize, n: u32) -> usize
    ensures { (dst.new ≡ put dst.old at (digits n)) × (result ≡ length (digits n)) × (result ≤ 10) }
{
    let count = digit_count(n);
    if count <= room(dst, at) {
        write_digits(&mut dst[at..at + count], n);
    }
    count
}
