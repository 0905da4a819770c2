// The functions of timed_names for C, with the same contracts.
#![tactic(auto)]

ghost use Rattle.std.specs.Prelude.{◌≡◌, ◌≤◌};
ghost use Rattle.words.specs.Bytes.{name_length, zero_at};

#[unsafe(no_mangle)]
pub extern "C" fn timed_name_length(s: &[u8], at: usize, limit: usize) -> usize
    ensures { (result ≡ name_length limit s.now at) × (result ≤ limit) }
{
    timed_names::timed_name_length(s, at, limit)
}

#[unsafe(no_mangle)]
pub extern "C" fn timed_plain_length(s: &[u8], at: usize, limit: usize) -> usize
    ensures { (result ≡ name_length limit s.now at) × (result ≤ limit) }
{
    timed_names::timed_plain_length(s, at, limit)
}

#[unsafe(no_mangle)]
pub extern "C" fn timed_zero_at(s: &[u8], at: usize, n: usize) -> bool
    ensures { result ≡ zero_at n s.now at }
{
    timed_names::timed_zero_at(s, at, n)
}

#[unsafe(no_mangle)]
pub extern "C" fn timed_plain_zero(s: &[u8], at: usize, n: usize) -> bool
    ensures { result ≡ zero_at n s.now at }
{
    timed_names::timed_plain_zero(s, at, n)
}
