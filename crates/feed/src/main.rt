// Feed: an IDENTIFY block off the wire. The input is runs, each of two length bytes, high byte first, and that many bytes. They
// go into an intake one after another; then come three lines: in which run the intake was complete and after how many bytes of it,
// how many bytes it used in all, and the name that the block's page 83h tells, or that the block is damaged.
#![tactic(auto)]

ghost use Rattle.std.specs.Prelude.{◌+◌, ◌≤◌, length, IfSome};

use input::{Complaints, Failure, Program, Run, Stream, System};
use intake::Intake;
use output::{Piece, Text};
use std::io::Write;
use std::{fmt, io};

struct Feed;

impl Program for Feed {
    const NAME: &'static str = "feed";

    const HELP: &'static str = "\
        Takes runs of an IDENTIFY block off the wire, and prints in which run the block was complete and after how many\n\
        bytes of it, how many bytes were used in all, and the name that the block's page 83h tells, or: damaged block. A byte of\n\
        a text that is not printable is shown as \\x and two hexadecimal digits, a backslash as two.\n\
        Input: runs, in all up to 65536 bytes: each has two length bytes, high byte first, and that many bytes.";

    const EXAMPLE: &'static str = "crates/feed/stdin";

    type Wrong = Wrong;

    // The buffer has one byte more than may come, so that more is complained of and not cut.
    fn print<S: System, W: Write>(
        &self,
        input: &mut Stream<'_, S>,
        out: &mut W,
    ) -> Result<(), Failure<Wrong>> {
        let mut buffer = [0u8; 65_537];
        let runs = input.whole(&mut buffer)?;
        if runs.len() > 65_536 {
            return Err(Failure::Wrong(Wrong::TooLong));
        }
        let mut store = [0u8; 512];
        match take_runs(runs, &mut store) {
            Ok(fed) => Ok(print_fed(fed, &store, out)?),
            Err(wrong) => Err(Failure::Wrong(wrong)),
        }
    }

    // The name is one write with the words behind it, up to a number.
    fn complain(wrong: Wrong, err: &mut Complaints) -> io::Result<()> {
        match wrong {
            Wrong::TooLong => writeln!(err, "feed: {wrong}"),
            Wrong::InsideRun(run) => {
                writeln!(err, "{}{run}", Piece(format_args!("feed: {INSIDE_RUN}")))
            }
        }
    }
}

const INSIDE_RUN: &'static str = "the input ends inside run ";

// What is wrong with input that is no such runs.
#[derive(Clone, Copy)]
enum Wrong {
    TooLong,
    // the input ends inside the run of this number, from 1 on
    InsideRun(usize),
}

impl fmt::Display for Wrong {
    fn fmt<W: fmt::Write>(&self, f: &mut fmt::Formatter<W>) -> fmt::Result {
        match self {
            Wrong::TooLong => write!(f, "more than 65536 bytes"),
            Wrong::InsideRun(run) => write!(f, "{INSIDE_RUN}{run}"),
        }
    }
}

// Where an intake was first complete: the run's number from 1 on, and how many of its bytes were used.
#[derive(Clone, Copy)]
struct Point {
    run: usize,
    byte: u16,
}

// What the runs came to.
#[derive(Clone, Copy)]
struct Fed {
    intake: Intake,
    complete: Option<Point>,
}

// The bytes of the first run, and what stands behind it.
fn first_run(runs: &[u8]) -> Option<(&[u8], &[u8])>
    ensures { IfSome result (λ run. length run.1.now + 2 ≤ length runs.now) }
{
    let (size, rest) = runs.split_first_chunk::<2>()?;
    rest.split_at_checked(usize::from(u16::from_be_bytes(*size)))
}

// Takes all runs, up to one that is not whole, each once. How long one is stands in it: so it is a `while` over what is left.
fn take_runs(runs: &[u8], store: &mut [u8; 512]) -> Result<Fed, Wrong> {
    let mut fed = Fed {
        intake: intake::empty(),
        complete: None,
    };
    let mut rest = runs;
    let mut run = 0;
    while !rest.is_empty() {
        run += 1;
        let Some((bytes, behind)) = first_run(rest) else {
            return Err(Wrong::InsideRun(run));
        };
        let took = intake::take(fed.intake, store, bytes);
        fed.intake = took.next;
        if fed.complete.is_none() && took.complete == 1 {
            let byte = took.used;
            fed.complete = Some(Point { run, byte });
        }
        rest = behind;
    }
    Ok(fed)
}

fn print_fed(fed: Fed, store: &[u8; 512], out: &mut impl Write) -> io::Result<()> {
    let intake = fed.intake;
    match fed.complete {
        Some(Point { run, byte }) => {
            writeln!(out, "complete in run {run} after {byte} bytes of it")?;
        }
        None => writeln!(out, "not complete")?,
    }
    writeln!(out, "used {}", intake.have)?;
    if intake::wrong(intake, store.len()) {
        return writeln!(out, "refused 1");
    }
    print_block(intake::block(intake.have, store), out)
}

// The name that a block's page 83h tells.
fn print_block(block: &[u8], out: &mut impl Write) -> io::Result<()> {
    let mut page = [0u8; 76];
    let written = page83::write(block, port::no_ports(), b"", &mut page);
    // What the entry gives is C's: the number of its refusal, or 0.
    if written.number == 18 {
        return writeln!(out, "damaged block");
    }
    if written.number != 0 {
        return writeln!(out, "no block");
    }
    print_page(&page, written.count, out)
}

// The name that a page 83h of so many bytes tells: the world wide name has 16, the texts have more.
fn print_page(page: &[u8; 76], count: usize, out: &mut impl Write) -> io::Result<()> {
    if count != 16 {
        return writeln!(
            out,
            "text [{}] [{}]",
            Text(&page[16..56]),
            Text(&page[56..76])
        );
    }
    write!(out, "name ")?;
    let (words, _) = page[8..16].as_chunks::<2>();
    for word in words {
        let word = u16::from_be_bytes(*word);
        write!(out, "{}", Piece(format_args!("{word:04x}")))?;
    }
    writeln!(out)
}

fn main(rt: HostRuntime) {
    Feed.run(&rt);
}
