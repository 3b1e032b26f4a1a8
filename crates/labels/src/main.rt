// Labels: for each IDENTIFY block of 512 bytes that it is given a line with its place, its model, serial number and firmware as the
// board shows texts, its world wide name, and its drive's row in the roll, which is the row that `rollcall` prints. Of a damaged block,
// which is not used, it says so; the roll is then that of the others.
#![tactic(auto)]

ghost use Rattle.std.specs.Prelude.{◌≡◌, ◌≤◌, length, EachIndex, slice_index_or, None, Some};
ghost use Rattle.std.specs.List.{flat_map};
ghost use Rattle.labels.specs.Label.{shown_field, is_used as Label·is_used, used, rows_given, row_beside};

use input::{Failure, Program, Run, Stream, System};
use output::{Piece, Shown};
use std::io::Write;
use std::{fmt, io};

struct Labels;

impl Program for Labels {
    const NAME: &'static str = "labels";

    const HELP: &'static str = "\
        Prints for each block its place from 0, its model, serial number and firmware, its world wide name, and its drive's\n\
        row; of a damaged block, that it is damaged. A byte of a text that is not printable is shown as \\x and two\n\
        hexadecimal digits, a backslash as two.\n\
        Input: up to 64 IDENTIFY blocks of 512 bytes each.";

    const EXAMPLE: &'static str = "data/identify/*.bin";

    type Wrong = &'static str;

    // The buffer has one byte more than 64 blocks, so that more are complained of and not cut.
    fn print<S: System, W: Write>(
        &self,
        input: &mut Stream<'_, S>,
        out: &mut W,
    ) -> Result<(), Failure<&'static str>> {
        let mut buffer = [0u8; 64 * 512 + 1];
        let blocks = input.pieces(
            &mut buffer,
            "more than 64 blocks",
            "the input is no whole number of blocks of 512 bytes",
        )?;
        Ok(print_labels(blocks, out)?)
    }
}

// A space, and a text of a drive in brackets, turned and spaced, each byte as it is shown: what a drive calls itself gives no commands to a
// terminal.
#[derive(Clone, Copy)]
struct Field<'a>(&'a [u8]);

impl fmt::Display for Field<'_> {
    ghost output = { λ field. Some (shown_field field.0.now) };

    fn fmt<W: fmt::Write>(&self, f: &mut fmt::Formatter<W>) -> fmt::Result {
        let text = self.0;
        write!(f, " [")?;
        // Each byte is read at its place, turned: a chain over the bytes as they stand would not give them so.
        for i in 0..text.len() {
            write!(f, "{}", Shown(texts::turned_at(text, i, true)))?;
        }
        write!(f, "]")
    }
}

// The world wide name, words 108 to 111, where there is one.
fn print_name(block: &[u8; 512], out: &mut impl Write) -> io::Result<()> {
    if !identify::carries_name(block) {
        return write!(out, " no name");
    }
    write!(out, " name ")?;
    for w in 108..=111 {
        let word = identify::word(block, w);
        write!(out, "{}", Piece(format_args!("{word:04x}")))?;
    }
    Ok(())
}

fn print_label(i: usize, block: &[u8; 512], row: u16, out: &mut impl Write) -> io::Result<()> {
    let model = Field(identify::model(block));
    let serial = Field(identify::serial(block));
    let firmware = Field(identify::firmware(block));
    write!(out, "{i}{model}{serial}{firmware}")?;
    print_name(block, out)?;
    writeln!(out, " drive {row}")
}

// Whether a block is used, so that it takes a row.
fn is_used(block: &[u8; 512]) -> bool
    ensures { result ≡ Label·is_used block.now }
{
    !checksum::damaged(block)
}

// Puts the blocks that are used one behind the other, and gives their bytes.
fn gather<'a>(blocks: &[[u8; 512]], room: &'a mut [[u8; 512]; 64]) -> &'a [u8]
    requires { length blocks.now ≤ 64 }
    ensures { result.now ≡ flat_map (λ block. block) (used blocks.now) }
{
    let mut count = 0;
    for block in blocks {
        if is_used(block) {
            room[count] = *block;
            count += 1;
        }
    }
    room[..count].as_flattened()
}

// Puts the rows that were given beside the blocks: a block that is used takes the next of them, a damaged one takes none.
fn beside(blocks: &[[u8; 512]], given: &[u16; 64]) -> [Option<u16>; 64]
    requires { length blocks.now ≤ 64 }
    ensures { EachIndex blocks.now (λ i. slice_index_or result i None ≡ row_beside given.now blocks.now i) }
{
    let mut rows = [None; 64];
    let mut next = 0;
    for (i, block) in blocks.iter().enumerate() {
        if is_used(block) {
            rows[i] = Some(given[next]);
            next += 1;
        }
    }
    rows
}

// The row of each block that is used, in the roll of these alone.
fn rows_of(blocks: &[[u8; 512]]) -> [Option<u16>; 64]
    requires { length blocks.now ≤ 64 }
    ensures { EachIndex blocks.now (λ i. slice_index_or result i None ≡ row_beside (rows_given blocks.now) blocks.now i) }
{
    let mut room = [[0u8; 512]; 64];
    let mut given = [0u16; 64];
    roll::roll(gather(blocks, &mut room), &mut given);
    beside(blocks, &given)
}

// A line for each block. One that has no row is damaged.
fn print_labels(blocks: &[[u8; 512]], out: &mut impl Write) -> io::Result<()>
    requires { length blocks.now ≤ 64 }
{
    for (i, (block, row)) in blocks.iter().zip(rows_of(blocks)).enumerate() {
        match row {
            Some(row) => print_label(i, block, row, out)?,
            None => writeln!(out, "{i} damaged")?,
        }
    }
    Ok(())
}

fn main(rt: HostRuntime) {
    Labels.run(&rt);
}
