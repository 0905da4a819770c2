// Bytes and words written into a buffer: all of them where there is room, else none.
#![tactic(auto)]

ghost use Rattle.std.specs.Prelude.{◌≡◌};
ghost use Rattle.words.specs.Bytes.{part};
ghost use Rattle.buffer.specs.Put.{bytes32, put};

use words::{room, window};

fn put_bytes(dst: &mut [u8], at: usize, bytes: &[u8])
    ensures { dst.new ≡ put dst.old at bytes.now }
{
    if bytes.len() <= room(dst, at) {
        // `copy_from_slice` would need `memmove`, which include/fustorbel.h does not ask of the caller
        for (i, byte) in bytes.iter().enumerate() {
            dst[at + i] = *byte;
        }
    }
}

// The `n` bytes of `src` from `from` on, or as many as there are, at `at`.
pub fn copy_bytes(dst: &mut [u8], at: usize, src: &[u8], from: usize, n: usize)
    ensures { dst.new ≡ put dst.old at (part src.now from n) }
{
    put_bytes(dst, at, window(src, from, n));
}

// The big-endian word `x` at `at`.
pub fn put_word(dst: &mut [u8], at: usize, x: u32)
    ensures { dst.new ≡ put dst.old at (bytes32 x) }
{
    put_bytes(dst, at, &x.to_be_bytes());
}
