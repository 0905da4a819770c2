// A script's lines: a letter, and up to four numbers after it, each with a space before it.
ghost use Rattle.std.specs.Prelude.{IfSome, ◌≤◌};

#[derive(Clone, Copy, PartialEq, Eq)]
pub struct ScriptLine {
    pub op: u8,
    pub a: u32,
    pub b: u32,
    pub c: u32,
    pub d: u32,
}

// Letters are capitals here.
fn digit(b: u8) -> Option<u32>
    ensures { IfSome result (λ d. d ≤ 15) }
{
    match b {
        b'0'..=b'9' => Some(u32::from(b - b'0')),
        b'A'..=b'F' => Some(u32::from(b - b'A' + 10)),
        _ => None,
    }
}

// The number of the low 32 bits that the first digits spell, and what follows them.
fn digits(t: &[u8], base: u32) -> (u32, &[u8])
    requires { base ≤ 16 }
{
    let mut value = 0;
    for (i, b) in t.iter().enumerate() {
        let Some(d) = digit(*b) else {
            return (value, &t[i..]);
        };
        value = value % 268435456 * base + d;
    }
    (value, &[])
}

// The number after a space, hexadecimal after an `x`, and what follows it; 0 where there is none.
fn number(t: &[u8]) -> (u32, &[u8]) {
    match t {
        [b' ', b'x', hex @ ..] => digits(hex, 16),
        [b' ', decimal @ ..] => digits(decimal, 10),
        _ => (0, t),
    }
}

// The line that stands in `t`.
pub(crate) fn read_line(t: &[u8]) -> ScriptLine {
    let (op, rest) = match t {
        [op, rest @ ..] => (*op, rest),
        [] => (0, t),
    };
    let (a, rest) = number(rest);
    let (b, rest) = number(rest);
    let (c, rest) = number(rest);
    let (d, _) = number(rest);
    ScriptLine { op, a, b, c, d }
}
