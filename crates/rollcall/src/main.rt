// Rollcall: prints the roll of the IDENTIFY blocks of 512 bytes that it is given. The first line says how many blocks and how
// many drives there are; then comes a line for each block with its place from 0, its row, and what tells its drive: `wwn`
// where the block carries a world wide name, `text` where model and serial number do. Input that is no roll is `refused 1`, and a roll
// with a damaged block `refused 18`.
#![tactic(auto)]

use input::{Failure, Program, Run, Stream, System};
use std::io;
use std::io::Write;

struct Rollcall;

impl Program for Rollcall {
    const NAME: &'static str = "rollcall";

    const HELP: &'static str = "\
        Prints the roll: how many blocks and drives there are; then for each block its place from 0, its drive's row, and\n\
        what tells the drive, wwn or text. Input that is no roll is: refused 1; with a damaged block: refused 18\n\
        Input: up to 64 IDENTIFY blocks of 512 bytes each.";

    const EXAMPLE: &'static str = "data/identify/*.bin";

    type Wrong = &'static str;

    // The buffer has one byte more than a roll may have, so that longer input is refused and not cut.
    fn print<S: System, W: Write>(
        &self,
        input: &mut Stream<'_, S>,
        out: &mut W,
    ) -> Result<(), Failure<&'static str>> {
        let mut buffer = [0u8; 64 * 512 + 1];
        let blocks = input.whole(&mut buffer)?;
        Ok(print_roll(blocks, out)?)
    }
}

fn print_roll(bytes: &[u8], out: &mut impl Write) -> io::Result<()> {
    let mut rows = [0u16; 64];
    let counted = roll::roll(bytes, &mut rows);
    // What the entry gives is C's: the number of its refusal, or 0.
    if counted.number != 0 {
        return writeln!(out, "refused {}", counted.number);
    }
    writeln!(out, "blocks {} drives {}", counted.blocks, counted.drives)?;
    let (blocks, _) = bytes.as_chunks::<512>();
    for (i, (block, row)) in blocks.iter().zip(rows).enumerate() {
        // What tells the drive, up to the line's end, is one write.
        let told_by = if identify::carries_name(block) {
            " wwn\n"
        } else {
            " text\n"
        };
        write!(out, "{i} {row}{told_by}")?;
    }
    Ok(())
}

fn main(rt: HostRuntime) {
    Rollcall.run(&rt);
}
