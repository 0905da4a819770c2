// What the programs that run cases share: the descriptors of standard input and output, where a byte first stands, a part of a
// slice, and what the fields of a script's line spell.
#![tactic(auto)]

ghost use Rattle.std.specs.Prelude.{◌≡◌, ℕ, ◌<◌, ◌≤◌, ◌≢◌, [], length, slice_index, slice_range};

mod script;

pub use script::{bytes, digit, field, long_number, number, size};

pub const STDIN_FILENO: i32 = 0;

pub const STDOUT_FILENO: i32 = 1;

// The place of the first `x` from `from` on, `end` where there is none before it.
pub fn find(t: &[u8], from: usize, end: usize, x: u8) -> usize
    ensures nowhere { end ≤ from → result ≡ end }
    ensures within { from ≤ end → (from ≤ result) × (result ≤ end) }
    ensures before { (k : ℕ) → from ≤ k → k < result → k < length t.now → slice_index t.now k ≢ x }
    ensures found { result < end → (result < length t.now) × (slice_index t.now result ≡ x) }
{
    for i in from..end {
        if i < t.len() && t[i] == x {
            return i;
        }
    }
    end
}

// The items from `a` to `b`, none where they do not stand there.
pub fn part<T>(s: &[T], a: usize, b: usize) -> &[T]
    ensures there { a ≤ b → b ≤ length s.now → result.now ≡ slice_range s.now a b }
    ensures turned { b < a → result.now ≡ [] }
    ensures past { length s.now < b → result.now ≡ [] }
{
    s.get(a..b).unwrap_or(&[])
}
