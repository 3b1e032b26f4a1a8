// Order shown: what the program `build` prints for a line: the command that makes the order, or its refusal. The rules stand in
// specs/Shown.
#![tactic(auto)]

ghost use Rattle.std.specs.Prelude.{◌≡◌, ◌+◌, ◌≤◌, [], ◌∷◌, ◌++◌, length, Some, take, codes};
ghost use Rattle.std.specs.List.{list_all};
ghost use Rattle.std.specs.Fmt.{decimal};
ghost use Rattle.std.specs.Str.{IsAscii};
ghost use Rattle.arrayvec.specs.ArrayString.{array_string_len};
ghost use Rattle.order_words.specs.Words.{is_space};
ghost use Rattle.order_shown.specs.Shown.{shown_byte, shown_bytes, shown_built, passed_over as Shown·passed_over, answer_to};
ghost use Rattle.order_lines.specs.Line.{seen};

use arrayvec::ArrayString;
use builder::Built;
use order_lines::Wrong;
use order_words::words;
use std::fmt;

// A byte's two digits, and what stands behind them.
fn shown_byte(byte: u8, behind: u8) -> [u8; 3]
    ensures { result ≡ shown_byte byte ++ behind ∷ [] }
{
    [output::digit(byte / 16), output::digit(byte % 16), behind]
}

// Puts three bytes of ASCII behind a line.
fn put(line: &mut ArrayString<48>, bytes: [u8; 3])
    requires ascii { IsAscii bytes }
    requires room { array_string_len line.old + 3 ≤ 48 }
    ensures { line.new.bytes ≡ line.old.bytes ++ bytes }
{
    line.push(char::from(bytes[0]));
    line.push(char::from(bytes[1]));
    line.push(char::from(bytes[2]));
}

// The line of a command: its bytes, with a space behind each but the last.
fn command(bytes: &[u8]) -> ArrayString<48>
    requires { length bytes.now ≤ 16 }
    ensures { result.bytes ≡ shown_bytes bytes.now ++ 0x0A ∷ [] }
{
    let mut line = ArrayString::new();
    let Some((last, front)) = bytes.split_last() else {
        line.push('\n');
        return line;
    };
    for byte in front {
        put(&mut line, shown_byte(*byte, b' '));
    }
    put(&mut line, shown_byte(*last, b'\n'));
    line
}

// Puts a number behind a line, in decimal digits.
fn put_number(line: &mut ArrayString<48>, number: u8)
    requires { array_string_len line.old + length (decimal number) ≤ 48 }
    ensures { line.new.bytes ≡ line.old.bytes ++ decimal number }
{
    if number < 10 {
        line.push(char::from(output::digit(number)));
        return;
    }
    put_number(line, number / 10);
    line.push(char::from(output::digit(number % 10)));
}

// The line of a refusal: its number.
fn refusal(number: u8) -> ArrayString<48>
    ensures { result.bytes ≡ codes "refused " ++ decimal number ++ 0x0A ∷ [] }
{
    let mut line = ArrayString::new();
    line.push_str("refused ");
    put_number(&mut line, number);
    line.push('\n');
    line
}

// The bytes of a command that are to be sent.
fn sent(built: &Built) -> &[u8]
    ensures value { result.now ≡ take built.now.size built.now.command }
    ensures fits { length result.now ≤ 16 }
{
    rules::part(&built.command, 0, usize::from(built.size))
}

// What is printed of an order, a line: the command that is built for it, or its refusal. `Built` is C's: its number is 0 for a command.
#[derive(Clone, Copy)]
pub struct Answer(pub Built);

impl Answer {
    // The line that is printed. Making it cannot fail, as writing it can.
    #[tactic(auto, unfolding(crate::specs::Shown::shown_built))]
    pub fn line(&self) -> ArrayString<48>
        ensures { result.bytes ≡ shown_built self.now.0 }
    {
        let number = self.0.number;
        if number != 0 {
            return refusal(number);
        }
        command(sent(&self.0))
    }
}

// Writes that line, in one piece.
impl fmt::Display for Answer {
    ghost output = { λ answer. Some (shown_built answer.0) };

    fn fmt<W: fmt::Write>(&self, f: &mut fmt::Formatter<W>) -> fmt::Result {
        write!(f, "{}", self.line())
    }
}

// Whether a line has no word.
fn wordless(line: &[u8]) -> bool
    ensures { result ≡ list_all is_space line.now }
{
    line.iter().all(words::is_space)
}

// Whether nothing is said of a line: it has no word, or # for its first byte.
fn passed_over(line: &[u8]) -> bool
    ensures { result ≡ Shown·passed_over line.now }
{
    rules::byte(line, 0) == b'#' || wordless(line)
}

// What comes of a line.
#[tactic(auto, unfolding(crate::specs::Shown::answer_for))]
pub fn answer_to(line: &[u8]) -> Result<Option<Answer>, Wrong<'_>>
    ensures { seen result ≡ answer_to line.now }
{
    let line = order_lines::without_return(line);
    if passed_over(line) {
        return Ok(None);
    }
    let order = order_lines::order_named(line)?;
    Ok(Some(Answer(builder::build(order))))
}
