// Output: how the board's programs show a text that a drive or a person gave, and what of a line goes out in one write.
#![tactic(auto)]

ghost use Rattle.std.specs.Prelude.{◌≡◌, ◌<◌, false, Some};
ghost use Rattle.std.specs.List.{flat_map};
ghost use Rattle.std.specs.Fmt.{digit_glyph};
ghost use Rattle.output.specs.Shown.{printable, shown, two_digits};

use arrayvec::ArrayString;
use std::fmt;
use std::fmt::{Display, Write as _};

// The hexadecimal digit of a number.
pub fn digit(number: u8) -> u8
    requires { number < 16 }
    ensures { result ≡ digit_glyph false number }
{
    if number < 10 {
        return 48 + number;
    }
    87 + number
}

// A byte in two hexadecimal digits.
pub fn digits(byte: u8) -> [u8; 2]
    ensures { result ≡ two_digits byte }
{
    [digit(byte / 16), digit(byte % 16)]
}

// Whether a byte is shown as it is: from the space to the tilde.
fn printable(byte: u8) -> bool
    ensures { result ≡ printable byte }
{
    (0x20..=0x7E).contains(&byte)
}

// A byte of a text, as it is shown.
#[derive(Clone, Copy)]
pub struct Shown(pub u8);

impl Shown {
    // The text that is shown for it. Making it cannot fail, as writing it can.
    #[tactic(auto, unfolding(crate::specs::Shown::shown))]
    pub fn text(self) -> ArrayString<4>
        ensures { result.bytes ≡ shown self.0 }
    {
        let byte = self.0;
        let mut text = ArrayString::new();
        if byte == b'\\' {
            text.push_str("\\\\");
            return text;
        }
        if printable(byte) {
            text.push(char::from(byte));
            return text;
        }
        text.push_str("\\x");
        text.push(char::from(digit(byte / 16)));
        text.push(char::from(digit(byte % 16)));
        text
    }
}

// Writes that text, in one piece.
impl fmt::Display for Shown {
    ghost output = { λ s. Some (shown s.0) };

    fn fmt<W: fmt::Write>(&self, f: &mut fmt::Formatter<W>) -> fmt::Result {
        write!(f, "{}", self.text())
    }
}

// A text, each byte as it is shown: what a drive calls itself gives no commands to a terminal.
#[derive(Clone, Copy)]
pub struct Text<'a>(pub &'a [u8]);

impl fmt::Display for Text<'_> {
    ghost output = { λ t. Some (flat_map shown t.0.now) };

    fn fmt<W: fmt::Write>(&self, f: &mut fmt::Formatter<W>) -> fmt::Result {
        for byte in self.0 {
            write!(f, "{}", Shown(*byte))?;
        }
        Ok(())
    }
}

// What goes out in one write, though it is put together of more, as a number and the zeros before it are. Up to 64 bytes are gathered; more
// than that goes out as it is put together.
#[derive(Drop)]
pub struct Piece<T>(pub T);

impl<T: Display> Display for Piece<T> {
    ghost output = { λ piece. T.output piece.0 };

    fn fmt<W: fmt::Write>(&self, f: &mut fmt::Formatter<W>) -> fmt::Result {
        let mut text = ArrayString::<64>::new();
        match write!(text, "{}", self.0) {
            Ok(()) => write!(f, "{text}"),
            Err(_) => write!(f, "{}", self.0),
        }
    }
}
