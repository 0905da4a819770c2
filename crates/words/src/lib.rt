// Leaves: words, names and runs of zeros in a block of bytes.
#![tactic(auto)]

ghost use Rattle.std.specs.Prelude.{◌≡◌, ◌+◌, ◌-◌, ◌*◌, ◌/◌, ◌%◌, ◌^◌, ◌<◌, ◌≤◌, length, ◌==◌, MatchOption};
ghost use Rattle.std.specs.Int.Count.{count_trailing_zeros};
ghost use Rattle.words.specs.Bytes.{part, word_at, eight_at, name_length, zero_at};

// Eight bytes of 1.
const ONES: u64 = 0x0101_0101_0101_0101;

// The top bits of eight bytes.
const TOPS: u64 = 0x8080_8080_8080_8080;

// How many bytes stand from `at` on, 0 past the end.
pub fn room(s: &[u8], at: usize) -> usize
    ensures { result ≡ length s.now - at }
{
    s.len().saturating_sub(at)
}

// The `N` bytes from `at` on, where the block has as many there.
fn bytes_at<const N: usize>(s: &[u8], at: usize) -> Option<&[u8; N]>
    requires { 0 < N }
    ensures { MatchOption result (length s.now < at + N) (λ b. (at + N ≤ length s.now) × (b.now ≡ part s.now at N)) }
{
    // by the bytes that are left: a loop over a block works out `s.len() - N` once
    if s.len() < N || s.len() - N < at {
        return None;
    }
    s[at..at + N].as_array()
}

// The big-endian word at `at`; 0 where the block has no four bytes there.
pub fn word_at(s: &[u8], at: usize) -> u32
    ensures { result ≡ word_at s.now at }
{
    match bytes_at(s, at) {
        Some(bytes) => u32::from_be_bytes(*bytes),
        None => 0,
    }
}

// The number of the eight bytes from `at` on, the first lowest; 0 where the block has no eight bytes there.
pub fn eight_at(s: &[u8], at: usize) -> u64
    ensures { result ≡ eight_at s.now at }
{
    match bytes_at(s, at) {
        Some(bytes) => u64::from_le_bytes(*bytes),
        None => 0,
    }
}

// A number that is 0 where none of eight bytes is NUL; else as many bytes stand below its lowest set bit as before the
// first NUL. With 1 taken from each byte, a top bit that was not set before shows a zero byte, or one above a zero byte
// that borrowed from it.
fn nuls(bytes: &[u8; 8]) -> u64
    ensures { count_trailing_zeros 64 result / 8 ≡ name_length 8 bytes.now 0 }
{
    let x = u64::from_le_bytes(*bytes);
    x.wrapping_sub(ONES) & !x & TOPS
}

// The bytes from `at` on, at most `limit`.
pub fn window(s: &[u8], at: usize, limit: usize) -> &[u8]
    ensures { result.now ≡ part s.now at limit }
{
    match s.get(at..) {
        Some(rest) => &rest[..limit.min(rest.len())],
        None => &[],
    }
}

// How many bytes stand before the first NUL from `at` on, at most `limit`; the end of the block counts as a NUL.
pub fn name_length(s: &[u8], at: usize, limit: usize) -> usize
    ensures { (result ≡ name_length limit s.now at) × (result ≤ limit) }
{
    let name = window(s, at, limit);
    let (eights, rest) = name.as_chunks();
    for (i, eight) in eights.iter().enumerate() {
        let m = nuls(eight);
        if m != 0 {
            return 8 * i + (m.trailing_zeros() / 8) as usize;
        }
    }
    8 * eights.len() + rest.iter().position(|b| *b == 0).unwrap_or(rest.len())
}

// As `zero_at`, byte by byte: runs of more than four bytes, from one of the first four on, or past the end; and what the
// faster test is measured against.
pub fn plain_zero(s: &[u8], at: usize, n: usize) -> bool
    ensures { result ≡ zero_at n s.now at }
{
    window(s, at, n).iter().all(|b| *b == 0)
}

// Whether the `n` lowest bytes of a word are zero.
pub fn low_zero(word: u32, n: usize) -> bool
    ensures { result ≡ (word % 2 ^ (8 * n) == 0) }
{
    if 4 <= n {
        return word == 0;
    }
    word % (1 << (8 * n as u32)) == 0
}

// Whether the `n` bytes from `at` on are zero; those past the end count as zero.
pub fn zero_at(s: &[u8], at: usize, n: usize) -> bool
    ensures { result ≡ zero_at n s.now at }
{
    // the run ends a word of the block, past the first four bytes
    if n <= 4 && 4 <= at {
        if let Some(bytes) = bytes_at(s, at - 4 + n) {
            return low_zero(u32::from_be_bytes(*bytes), n);
        }
    }
    plain_zero(s, at, n)
}
