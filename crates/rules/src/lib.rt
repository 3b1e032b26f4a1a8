// Rules: the words that the board's rules are written with: bits of a byte, checks in order, the lesser of two
// numbers, a part of a run of bytes.
#![tactic(auto)]

ghost use Rattle.std.specs.Prelude.{◌≡◌, List, ◌+◌, ◌*◌, ◌-◌, ◌<◌, ◌≤◌, min, get_or, take, drop};
ghost use Rattle.rules.specs.Bits.{bit as Bits·bit, flag as Bits·flag};

// Whether bit k of a byte is one.
pub fn bit(byte: u8, k: u8) -> bool
    requires { k < 8 }
    ensures { result ≡ Bits·bit k byte }
{
    (byte >> k) % 2 == 1
}

// A yes or no as a number.
pub fn flag(set: bool) -> u8
    ensures { result ≡ Bits·flag set }
{
    if set {
        return 1;
    }
    0
}

// The lesser of two numbers.
pub fn lesser(a: usize, b: usize) -> usize
    ensures { result ≡ min a b }
{
    if a <= b {
        return a;
    }
    b
}

// Two bytes as one number, high byte first.
pub fn pair(high: u8, low: u8) -> u16
    ensures { result ≡ 256 * high + low }
{
    256 * (high as u16) + (low as u16)
}

// The byte at a place, and zero past the end.
pub fn byte(bytes: &[u8], at: usize) -> u8
    ensures { result ≡ get_or bytes.now at 0 }
{
    if at < bytes.len() {
        return bytes[at];
    }
    0
}

// The bytes from one place up to another, as far as there are any.
pub fn part(bytes: &[u8], from: usize, to: usize) -> &[u8]
    requires { from ≤ to }
    ensures { result.now ≡ take (to - from) (drop from bytes.now) }
{
    if bytes.len() <= from {
        return &bytes[..0];
    }
    if bytes.len() <= to {
        return &bytes[from..];
    }
    &bytes[from..to]
}
