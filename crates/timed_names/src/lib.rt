// For the benchmarks alone: the leaves that find a NUL and look at padding, and the plain loops that they are measured against.
#![tactic(auto)]

ghost use Rattle.std.specs.Prelude.{◌≡◌, ◌≤◌};
ghost use Rattle.words.specs.Bytes.{name_length, zero_at};

// As `words::name_length`, byte by byte. The loop counts by hand since it is the yardstick of docs/BENCHMARKS.md, the search of before.
fn plain_length(s: &[u8], at: usize, limit: usize) -> usize
    ensures { (result ≡ name_length limit s.now at) × (result ≤ limit) }
{
    let mut i = at;
    let mut left = limit;
    while 0 < left {
        if s.len() <= i {
            return i - at;
        }
        if s[i] == 0 {
            return i - at;
        }
        i += 1;
        left -= 1;
    }
    i - at
}

// As `words::zero_at`, byte by byte. The loop counts by hand since it is the yardstick of docs/BENCHMARKS.md, the test of padding of before.
fn plain_zero(s: &[u8], at: usize, n: usize) -> bool
    ensures { result ≡ zero_at n s.now at }
{
    let mut i = at;
    let mut left = n;
    while 0 < left {
        if s.len() <= i {
            return true;
        }
        if s[i] != 0 {
            return false;
        }
        i += 1;
        left -= 1;
    }
    true
}

#[unsafe(no_mangle)]
pub extern "C" fn timed_name_length(s: &[u8], at: usize, limit: usize) -> usize
    ensures { (result ≡ name_length limit s.now at) × (result ≤ limit) }
{
    words::name_length(s, at, limit)
}

#[unsafe(no_mangle)]
pub extern "C" fn timed_plain_length(s: &[u8], at: usize, limit: usize) -> usize
    ensures { (result ≡ name_length limit s.now at) × (result ≤ limit) }
{
    plain_length(s, at, limit)
}

#[unsafe(no_mangle)]
pub extern "C" fn timed_zero_at(s: &[u8], at: usize, n: usize) -> bool
    ensures { result ≡ zero_at n s.now at }
{
    words::zero_at(s, at, n)
}

#[unsafe(no_mangle)]
pub extern "C" fn timed_plain_zero(s: &[u8], at: usize, n: usize) -> bool
    ensures { result ≡ zero_at n s.now at }
{
    plain_zero(s, at, n)
}
