// Bridgecheck: says what the board makes of a capture of another maker's bridge. One line: `accepted` where each field is what the board
// would have written; `differs 83 at 20` with the tag of the first field that is not, and the place in it where it begins to differ;
// `refused 21 at 7` with the place where the layout is broken; `refused 22` of a packet drive, `refused 18` of a damaged block.
#![tactic(auto)]

use input::{Failure, Program, Run, Stream, System};
use std::io;
use std::io::Write;

struct Bridgecheck;

impl Program for Bridgecheck {
    const NAME: &'static str = "bridgecheck";

    const HELP: &'static str = "\
        Says whether another maker's bridge shows a drive as the board would: accepted; or the first field at fault, by its\n\
        tag, and its first differing byte, as in: differs 83 at 20. A capture whose layout is broken, by the place, is:\n\
        refused 21 at 7; of a packet drive: refused 22; of a damaged block: refused 18\n\
        Input: one capture, fields of a tag, two length bytes, high first, and the bytes: 01 is standard data, 00, 80, 83 and\n\
        89 are the pages, in rising order, the last with the drive's IDENTIFY block.";

    const EXAMPLE: &'static str = "crates/bridgecheck/stdin";

    type Wrong = &'static str;

    // Four fields of 65,535 bytes and page 89h, each behind a tag and a length, are 262,727 bytes, the most that a layout can hold. The
    // buffer has one more: a longer capture breaks within it, at the same place as the whole.
    fn print<S: System, W: Write>(
        &self,
        input: &mut Stream<'_, S>,
        out: &mut W,
    ) -> Result<(), Failure<&'static str>> {
        let mut buffer = [0u8; 262_728];
        let capture = input.whole(&mut buffer)?;
        Ok(print_checked(capture, out)?)
    }
}

// Of the refusals a broken layout alone has a place.
fn print_checked(capture: &[u8], out: &mut impl Write) -> io::Result<()> {
    let checked = checker::check(capture);
    let place = checked.place;
    // What the entry gives is C's: the number of its refusal, or 0.
    if checked.number == 21 {
        return writeln!(out, "refused {} at {place}", checked.number);
    }
    if checked.number != 0 {
        return writeln!(out, "refused {}", checked.number);
    }
    if checked.accepted == 0 {
        write!(out, "differs ")?;
        out.write_all(&output::digits(checked.tag))?;
        return writeln!(out, " at {place}");
    }
    writeln!(out, "accepted")
}

fn main(rt: HostRuntime) {
    Bridgecheck.run(&rt);
}
