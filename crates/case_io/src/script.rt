// A script's lines: fields with a space between them, the first a letter.
ghost use Rattle.std.specs.Prelude.{◌≡◌, ℕ, ◌+◌, ◌*◌, ◌/◌, ◌^◌, ◌<◌, ◌≤◌, min, length, slice_index, drop};
ghost use Rattle.case_io.specs.Script.{byte_at, digit_of, digits_of, field_of, number_of};

// Field `k`, the letter being field 0; empty where there is none.
pub fn field(line: &[u8], k: usize) -> &[u8]
    ensures { result.now ≡ field_of k line.now }
{
    line.split(|b| *b == b' ').nth(k).unwrap_or(&[])
}

// The value of a digit, 0 where the byte is none.
#[tactic(auto, unfolding(crate::specs::Script::digit_of))]
pub fn digit(b: u8) -> u8
    ensures value { result ≡ digit_of b }
    ensures bound { result ≤ 15 }
{
    match b {
        b'0'..=b'9' => b - b'0',
        b'a'..=b'f' => b - b'a' + 10,
        _ => 0,
    }
}

// The number that the digits spell, with all above `kept` let go before each digit.
fn digits(f: &[u8], base: u64, kept: u64) -> u64
    requires base { base ≤ 16 }
    requires some { 0 < kept }
    requires room { kept ≤ 2 ^ 60 }
    ensures value { result ≡ digits_of kept base f.now }
    ensures bound { result < 16 * kept }
{
    let mut value = 0;
    for b in f {
        value = value % kept * base + u64::from(digit(*b));
    }
    value
}

// The number that a field spells, in the base sixteen after an `x`; 0 where it is empty.
#[tactic(auto, unfolding(crate::specs::Script::number_of))]
fn spelled(f: &[u8], kept: u64) -> u64
    requires some { 0 < kept }
    requires room { kept ≤ 2 ^ 60 }
    ensures value { result ≡ number_of kept f.now }
    ensures bound { result < 16 * kept }
{
    match f.split_first() {
        Some((b'x', hex)) => digits(hex, 16, kept),
        _ => digits(f, 10, kept),
    }
}

// The number in field `k`, of 32 bits.
pub fn number(line: &[u8], k: usize) -> u32
    ensures { result ≡ number_of (2 ^ 28) (field_of k line.now) }
{
    spelled(field(line, k), 1 << 28) as u32
}

// The number in field `k`, of 64 bits.
pub fn long_number(line: &[u8], k: usize) -> u64
    ensures { result ≡ number_of (2 ^ 60) (field_of k line.now) }
{
    spelled(field(line, k), 1 << 60)
}

// The number in field `k`, at most how many bytes `b` has.
pub fn size(line: &[u8], k: usize, b: &[u8]) -> usize
    ensures { result ≡ min (number_of (2 ^ 28) (field_of k line.now)) (length b.now) }
{
    (number(line, k) as usize).min(b.len())
}

// The bytes that a text spells with two digits each, into `out`, as far as it has room; the answer is how many.
pub fn bytes(text: &[u8], out: &mut [u8]) -> usize
    ensures count { result ≡ min (length text.now / 2) (length out.old) }
    ensures written { (i : ℕ) → i < result → slice_index out.new i ≡ byte_at text.now i }
    ensures rest { drop result out.new ≡ drop result out.old }
{
    let n = (text.len() / 2).min(out.len());
    for i in 0..n {
        out[i] = digit(text[2 * i]) * 16 + digit(text[2 * i + 1]);
    }
    n
}
