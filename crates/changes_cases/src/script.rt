// What the lines of this script say beside plain numbers.
use case_io::number;

// How many times a line says to do a thing: the number in field `k`, once where there is none.
pub(crate) fn times(line: &[u8], k: usize) -> u32 {
    number(line, k).max(1)
}

// The low byte of the number in field `k`.
pub(crate) fn low_byte(line: &[u8], k: usize) -> u8 {
    (number(line, k) % 256) as u8
}
