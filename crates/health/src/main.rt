// Health: the health logger. For each register image of 11 bytes that it is given, which is what a drive left after SMART
// RETURN STATUS, it sends that command through the board, reads the sense data that come back, and prints a line with the
// drive's place and what it said. How a drive is asked, and what each answer stands for, is in health_asked.
#![tactic(auto)]

use health_asked::Said;
use input::{Failure, Program, Run, Stream, System};
use passthrough::Pending;
use std::io;
use std::io::Write;

struct Health;

impl Program for Health {
    const NAME: &'static str = "health";

    const HELP: &'static str = "\
        Prints for each drive its place from 0 and what it said to SMART RETURN STATUS: healthy, failing, unknown, error and\n\
        its error register, or refused and the board's number.\n\
        Input: up to 4096 register images of 11 bytes each: error; count, LBA low, mid and high, high byte first; device; status.";

    const EXAMPLE: &'static str = "crates/health/stdin";

    type Wrong = &'static str;

    // The buffer has one byte more than 4096 images, so that more are complained of and not cut.
    fn print<S: System, W: Write>(
        &self,
        input: &mut Stream<'_, S>,
        out: &mut W,
    ) -> Result<(), Failure<&'static str>> {
        let mut buffer = [0u8; 4096 * 11 + 1];
        let images = input.pieces(
            &mut buffer,
            "more than 4096 drives",
            "the input is no whole number of register images of 11 bytes",
        )?;
        Ok(print_drives(images, out)?)
    }
}

// Asks each drive in turn, with one record for them all.
fn print_drives(images: &[[u8; 11]], out: &mut impl Write) -> io::Result<()> {
    let mut pending = Pending::empty();
    for (i, image) in images.iter().enumerate() {
        let asked = health_asked::ask(pending, image);
        pending = asked.next;
        print_drive(i, asked.said, out)?;
    }
    Ok(())
}

fn print_drive(i: usize, said: Said, out: &mut impl Write) -> io::Result<()> {
    match said {
        Said::Healthy => writeln!(out, "{i} healthy"),
        Said::Failing => writeln!(out, "{i} failing"),
        Said::Unknown => writeln!(out, "{i} unknown"),
        Said::Error(error) => {
            write!(out, "{i} error ")?;
            out.write_all(&output::digits(error))?;
            writeln!(out)
        }
        Said::Refused(number) => writeln!(out, "{i} refused {number}"),
    }
}

fn main(rt: HostRuntime) {
    Health.run(&rt);
}
