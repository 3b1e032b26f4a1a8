// Census: counts the IDENTIFY blocks of 512 bytes that it is given, as many as 65,535, by name form, highest Ultra DMA mode and highest
// major version. The input goes through an intake, part by part as reads bring it. Damaged blocks are left out and counted apart. More
// blocks than a census takes are `refused 17`, a last block that is not whole is `refused 1`; then nothing else is printed.
#![tactic(auto)]

ghost use Rattle.std.specs.Prelude.{◌≡◌, ◌≤◌, ◌<◌, length, IfOk};
ghost use Rattle.intake.specs.Intake.{empty};
ghost use Rattle.census.specs.Counted.{behind};

use input::{Failure, Program, Run, Stream, System, Unread};
use intake::Intake;
use std::io;
use std::io::Write;

struct Census;

impl Program for Census {
    const NAME: &'static str = "census";

    const HELP: &'static str = "\
        Prints how many IDENTIFY blocks there are and how many more are damaged, which are left out; then how many of the\n\
        blocks carry a world wide name and how many do not, and how many there are of each highest Ultra DMA mode and of each\n\
        highest major version. More than 65535 blocks are: refused 17. A last block that is not whole is: refused 1\n\
        Input: IDENTIFY blocks of 512 bytes, one behind the other.";

    const EXAMPLE: &'static str = "crates/census/stdin";

    type Wrong = &'static str;

    fn print<S: System, W: Write>(
        &self,
        input: &mut Stream<'_, S>,
        out: &mut W,
    ) -> Result<(), Failure<&'static str>> {
        match count(input)? {
            Ok(counted) => Ok(print_counted(&counted, out)?),
            Err(number) => Ok(writeln!(out, "refused {number}")?),
        }
    }
}

// What the input came to so far: the census, the intake of the block that is on its way, and how many blocks were damaged.
#[derive(Clone, Copy)]
struct Counted {
    census: tally::Census,
    intake: Intake,
    damaged: u64,
    ghost lacks: { intake.have < 512 },
}

impl Counted {
    // Nothing is counted yet.
    fn nothing() -> Counted
        ensures { result.intake ≡ empty }
    {
        Counted {
            census: tally::empty(),
            intake: intake::empty(),
            damaged: 0,
        }
    }

    // Counts a whole block, or gives the number of the refusal, which is C's. One that is damaged is left out. The intake is then empty.
    fn feed(&mut self, block: &[u8; 512]) -> Result<(), u8>
        ensures { self.new.intake ≡ empty }
    {
        self.intake = intake::empty();
        let fed = tally::feed(self.census, block);
        self.census = fed.next;
        if fed.number == 18 {
            self.damaged = self.damaged.saturating_add(1);
            return Ok(());
        }
        if fed.number != 0 {
            return Err(fed.number);
        }
        Ok(())
    }

    // Takes of a run what the intake lacks, and counts the block where that makes it complete. Gives what is left of the run.
    fn step<'a>(&mut self, store: &mut [u8; 512], run: &'a [u8]) -> Result<&'a [u8], u8>
        requires { 0 < length run.now }
        ensures rest { IfOk result (λ rest. length rest.now < length run.now) }
        ensures intake { self.new.intake ≡ behind self.old.intake store.old run.now }
    {
        let took = intake::take(self.intake, store, run);
        if took.complete == 1 {
            self.feed(store)?;
        } else {
            self.intake = took.next;
        }
        Ok(&run[usize::from(took.used)..])
    }

    // Takes a part of the input, up to a refusal. How many bytes a step takes is known only behind it: so it is a `while` over the rest.
    fn take(&mut self, store: &mut [u8; 512], part: &[u8]) -> Result<(), u8> {
        let mut rest = part;
        while !rest.is_empty() {
            rest = self.step(store, rest)?;
        }
        Ok(())
    }
}

// Counts all of the input, up to a refusal. An intake that has some bytes at the end has a part of a last block.
fn count<S: System>(input: &mut Stream<'_, S>) -> Result<Result<Counted, u8>, Unread> {
    let mut buffer = [0u8; 65_536];
    let mut store = [0u8; 512];
    let mut counted = Counted::nothing();
    for _ in 0..u64::MAX {
        let n = input.read(&mut buffer)?;
        if n == 0 {
            break;
        }
        if let Err(number) = counted.take(&mut store, &buffer[..n]) {
            return Ok(Err(number));
        }
    }
    if counted.intake.have != 0 {
        return Ok(Err(1));
    }
    Ok(Ok(counted))
}

// The line of what is counted.
fn print_count(what: &str, count: u64, out: &mut impl Write) -> io::Result<()> {
    writeln!(out, "{what} {count}")
}

// The lines of a grouping: its classes are numbers from `first` on, and none is behind them.
fn print_classes(
    grouping: &str,
    first: usize,
    counts: &[u16],
    out: &mut impl Write,
) -> io::Result<()>
    requires { first ≤ 1 }
{
    let Some((none, classes)) = counts.split_last() else {
        return Ok(());
    };
    for (i, count) in classes.iter().enumerate() {
        writeln!(out, "{grouping} {} {count}", first + i)?;
    }
    write!(out, "{grouping}")?;
    print_count(" none", u64::from(*none), out)
}

fn print_counted(counted: &Counted, out: &mut impl Write) -> io::Result<()> {
    let census = counted.census;
    print_count("blocks", u64::from(census.blocks), out)?;
    print_count("damaged", counted.damaged, out)?;
    print_count("wwn", u64::from(census.named), out)?;
    print_count("text", u64::from(census.unnamed), out)?;
    print_classes("udma", 0, &census.udma, out)?;
    print_classes("version", 1, &census.version, out)
}

fn main(rt: HostRuntime) {
    Census.run(&rt);
}
