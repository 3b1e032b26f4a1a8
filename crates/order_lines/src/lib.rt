// Order lines: the order that a line of text names, as words `field=value`. The rules stand in specs/Line.
#![tactic(auto)]

ghost use Rattle.std.specs.Prelude.{◌≡◌, ◌<◌, ◌%◌, ◌++◌, ◌∷◌, [], Some, IfOk};
ghost use Rattle.order_lines.specs.Line.{limit as Line·limit, value_of, equals_in, word_of, with_word, read_line, seen, without_return, value as Line·value, order_of, order_named, said, complaint};

use order_words::{number, words};
use output::{Piece, Text};
use passthrough_order::Order;
use std::fmt;

// The fields of an order, as C calls them.
const FIELDS: [&[u8]; 15] = [
    b"length",
    b"auxiliary",
    b"features",
    b"count",
    b"lba_low",
    b"lba_mid",
    b"lba_high",
    b"quiet_seconds",
    b"sectors_per_block",
    b"device",
    b"command",
    b"protocol",
    b"ck_cond",
    b"extend",
    b"direction",
];

const DIRECTION: usize = 14;

// The names of the directions 0, 1 and 2.
const DIRECTIONS: [&[u8]; 3] = [b"none", b"from", b"to"];

// The value of each field that a line gives.
pub type Values = [Option<u32>; 15];

// What can be wrong with a word.
#[derive(Clone, Copy, Debug, PartialEq, Eq)]
pub enum Fault {
    NoEquals,
    NoField,
    NoNumber,
    TooLarge,
    Twice,
}

impl fmt::Display for Fault {
    ghost output = { λ fault. Some (said fault) };

    fn fmt<W: fmt::Write>(&self, f: &mut fmt::Formatter<W>) -> fmt::Result {
        match self {
            Fault::NoEquals => write!(f, "has no ="),
            Fault::NoField => write!(f, "names no field of an order"),
            Fault::NoNumber => write!(f, "has no number"),
            Fault::TooLarge => write!(f, "has a number too large for its field"),
            Fault::Twice => write!(f, "gives its field a second time"),
        }
    }
}

// A line's first wrong word, and the place in the line where it starts.
#[derive(Clone, Copy)]
pub struct Wrong<'a> {
    pub start: usize,
    pub word: &'a [u8],
    pub fault: Fault,
}

impl fmt::Display for Wrong<'_> {
    ghost output = { λ wrong. Some (complaint wrong.word.now wrong.fault) };

    fn fmt<W: fmt::Write>(&self, f: &mut fmt::Formatter<W>) -> fmt::Result {
        let word = Text(self.word);
        let fault = self.fault;
        write!(f, "{word} {fault}")
    }
}

// The line that tells of a wrong word. What is wrong with it and the line's end are one write.
#[derive(Clone, Copy)]
pub struct Complaint<'a>(pub Wrong<'a>);

impl fmt::Display for Complaint<'_> {
    ghost output = { λ line. Some (complaint line.0.word.now line.0.fault ++ 0x0A ∷ []) };

    fn fmt<W: fmt::Write>(&self, f: &mut fmt::Formatter<W>) -> fmt::Result {
        let word = Text(self.0.word);
        let fault = self.0.fault;
        write!(f, "{word}{}", Piece(format_args!(" {fault}\n")))
    }
}

// What a word says by itself: a value for a field.
#[derive(Clone, Copy)]
struct Word {
    field: usize,
    value: u32,
}

// The first number that is too large for a field. Three ranges of places say it; a table of a field and its size would be no plainer.
fn limit(field: usize) -> u64
    ensures { result ≡ Line·limit field }
{
    match field {
        0..=1 => 0x1_0000_0000,
        2..=8 => 0x1_0000,
        _ => 0x100,
    }
}

// The number that a field's value is.
#[tactic(auto, unfolding(crate::specs::Line::value_of))]
fn value_of(field: usize, value: &[u8]) -> Option<u64>
    ensures { result ≡ value_of field value.now }
{
    match words::place_of_bytes(value, &DIRECTIONS) {
        Some(direction) if field == DIRECTION => Some(direction as u64),
        _ => number::number_of(value),
    }
}

// The place of the first = of a word.
fn equals_in(word: &[u8]) -> Option<usize>
    ensures { result ≡ equals_in word.now }
{
    word.iter().position(|byte| *byte == b'=')
}

// What a word says.
#[tactic(auto, unfolding(crate::specs::Line::word_of))]
fn word_of(word: &[u8]) -> Result<Word, Fault>
    ensures says { result ≡ word_of word.now }
    ensures field { IfOk result (λ said. said.field < 15) }
{
    let size = equals_in(word).ok_or(Fault::NoEquals)?;
    let field = words::place_of_bytes(&word[..size], &FIELDS).ok_or(Fault::NoField)?;
    let value = value_of(field, &word[size + 1..]).ok_or(Fault::NoNumber)?;
    if limit(field) <= value {
        return Err(Fault::TooLarge);
    }
    Ok(Word {
        field,
        value: value as u32,
    })
}

// The values with what a word more says.
#[tactic(auto, unfolding(crate::specs::Line::with_word))]
fn with_word(values: Values, word: &[u8]) -> Result<Values, Fault>
    ensures { result ≡ with_word values word.now }
{
    let said = word_of(word)?;
    let field = said.field;
    if values[field].is_some() {
        return Err(Fault::Twice);
    }
    let mut values = values;
    values[field] = Some(said.value);
    Ok(values)
}

// What the words of a line come to. They are those of its parts that are not empty.
pub fn read_line(line: &[u8]) -> Result<Values, Wrong<'_>>
    ensures { seen result ≡ read_line line.now }
{
    let mut values = [None; 15];
    let mut start = 0;
    for part in line.split(words::is_space) {
        if !part.is_empty() {
            match with_word(values, part) {
                Ok(more) => values = more,
                Err(fault) => {
                    return Err(Wrong {
                        start,
                        word: part,
                        fault,
                    });
                }
            }
        }
        start += part.len() + 1;
    }
    Ok(values)
}

// The line without a carriage return at its end.
#[tactic(auto, unfolding(crate::specs::Line::without_return))]
pub fn without_return(line: &[u8]) -> &[u8]
    ensures { result.now ≡ without_return line.now }
{
    line.strip_suffix(b"\r").unwrap_or(line)
}

// The value of a field; 0 where it is not given.
fn value(values: &Values, field: usize) -> u32
    requires { field < 15 }
    ensures { result ≡ Line·value values.now field }
{
    values[field].unwrap_or(0)
}

// The value of a field of 16 bits. It is a remainder, since the type of the values does not say that `read_line` takes no greater one.
fn short(values: &Values, field: usize) -> u16
    requires { field < 15 }
    ensures { result ≡ Line·value values.now field % 0x10000 }
{
    (value(values, field) % 0x1_0000) as u16
}

// The value of a field of 8 bits, by a remainder for the same reason.
fn byte(values: &Values, field: usize) -> u8
    requires { field < 15 }
    ensures { result ≡ Line·value values.now field % 0x100 }
{
    (value(values, field) % 0x100) as u8
}

// The order of the values.
pub fn order_of(values: &Values) -> Order
    ensures { result ≡ order_of values.now }
{
    Order {
        length: value(values, 0),
        auxiliary: value(values, 1),
        features: short(values, 2),
        count: short(values, 3),
        lba_low: short(values, 4),
        lba_mid: short(values, 5),
        lba_high: short(values, 6),
        quiet_seconds: short(values, 7),
        sectors_per_block: short(values, 8),
        device: byte(values, 9),
        command: byte(values, 10),
        protocol: byte(values, 11),
        ck_cond: byte(values, 12),
        extend: byte(values, 13),
        direction: byte(values, 14),
    }
}

// The order that a line names, or its first wrong word.
pub fn order_named(line: &[u8]) -> Result<Order, Wrong<'_>>
    ensures { seen result ≡ order_named line.now }
{
    let values = read_line(line)?;
    Ok(order_of(&values))
}
