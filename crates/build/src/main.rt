// Build: the host tool. Each line of the input names an order, as words `field=value`; for each it prints the bytes of the command that
// makes the order, as `sg_raw` takes them, or `refused 23` where none does. A line that is no order is told on standard error, with its
// number. What a line comes to is proved in `order_shown`; reading the lines, and writing what they come to, no contract can say.
#![tactic(auto)]

ghost use Rattle.std.specs.Prelude.{◌≡◌, true};
ghost use Rattle.std.specs.Option.{option_map};
ghost use Rattle.build.specs.Begun.{begun, with_more};

use arrayvec::ArrayVec;
use input::{Complaints, Failure, Program, Run, Stream, System, Unwritten};
use order_lines::Complaint;
use std::fmt::Display;
use std::io::{Stderr, Write};

// The program, which tells of wrong lines on standard error while it goes on.
#[derive(Drop)]
struct Build {
    complaints: Stderr,
}

impl Program for Build {
    const NAME: &'static str = "build";

    const HELP: &'static str = "\
        Prints for each order the bytes of the command that makes it, as sg_raw takes them, or: refused 23\n\
        Input: orders, one a line of up to 4096 bytes, as words field=value with spaces between. Fields, 0 if left out:\n\
        length auxiliary features count lba_low lba_mid lba_high quiet_seconds sectors_per_block device command\n\
        protocol ck_cond extend direction. A value is decimal, or hexadecimal behind 0x; a direction also none, from or to.\n\
        Empty lines, and lines that start with #, are passed over. A line that is no order is told on standard error.";

    const EXAMPLE: &'static str = "crates/build/stdin";

    type Wrong = &'static str;

    // Where a read fails, the line that was on its way is left out: a part of one may be another order. A loop has to end, and nothing says
    // that the input does: so the turns are counted, to a number that no input uses up.
    fn print<S: System, W: Write>(
        &self,
        input: &mut Stream<'_, S>,
        out: &mut W,
    ) -> Result<(), Failure<&'static str>> {
        let mut buffer = [0u8; 65_536];
        let mut line = Line::first();
        for _ in 0..u64::MAX {
            let n = input.read(&mut buffer)?;
            if n == 0 {
                break;
            }
            self.take_part(&mut line, &buffer[..n], out)?;
        }
        if line.is_empty() {
            return Ok(());
        }
        Ok(self.end_line(&mut line, b"", out)?)
    }
}

impl Build {
    // Takes a part of the input, line by line.
    fn take_part(
        &self,
        line: &mut Line,
        part: &[u8],
        out: &mut impl Write,
    ) -> Result<(), Unwritten> {
        for piece in part.split_inclusive(|byte| *byte == b'\n') {
            match piece.strip_suffix(b"\n") {
                Some(end) => self.end_line(line, end, out)?,
                None => line.add(piece),
            }
        }
        Ok(())
    }

    // Says what a line comes to that ends with these bytes, and begins the next, in which no byte of it is left.
    fn end_line(&self, line: &mut Line, end: &[u8], out: &mut impl Write) -> Result<(), Unwritten>
        ensures { begun line.new }
    {
        let number = line.number;
        let said = match line.whole(end) {
            Some(bytes) => self.say(number, bytes, out),
            None => {
                self.complain(number, "more than 4096 bytes\n");
                Ok(())
            }
        };
        line.next();
        said
    }

    // Says what the bytes of a line come to. An answer is one write.
    fn say(&self, number: u64, bytes: &[u8], out: &mut impl Write) -> Result<(), Unwritten> {
        match order_shown::answer_to(bytes) {
            Ok(Some(answer)) => Ok(write!(out, "{answer}")?),
            Ok(None) => Ok(()),
            Err(wrong) => {
                self.complain(number, Complaint(wrong));
                Ok(())
            }
        }
    }

    // Tells of a line on standard error: what is said ends it.
    fn complain(&self, number: u64, what: impl Display + Drop) {
        let mut err = Complaints::from(self.complaints);
        let _ = write!(err, "build: line {number}: {what}");
    }
}

// The line that is on its way: its number, and its bytes so far; none where they are more than a line has, of which none is looked at.
#[derive(Drop)]
struct Line {
    number: u64,
    bytes: Option<ArrayVec<u8, 4096>>,
}

impl Line {
    fn first() -> Line
        ensures { begun result }
    {
        Line {
            number: 1,
            bytes: Some(ArrayVec::new()),
        }
    }

    // Whether there is no byte of it.
    fn is_empty(&self) -> bool
        ensures { result ≡ true → begun self.now }
    {
        match &self.bytes {
            Some(bytes) => bytes.is_empty(),
            None => false,
        }
    }

    // Adds bytes to it.
    fn add(&mut self, more: &[u8])
        ensures { option_map (λ bytes. bytes.items) self.new.bytes ≡ with_more self.old.bytes more.now }
    {
        let fits = match &mut self.bytes {
            Some(bytes) => bytes.try_extend_from_slice(more).is_ok(),
            None => false,
        };
        if !fits {
            self.bytes = None;
        }
    }

    // Its bytes, of which these are the last; none where a line has not so many. A line that lies within one part is not copied.
    fn whole<'a>(&'a mut self, end: &'a [u8]) -> Option<&'a [u8]>
        ensures { option_map (λ bytes. bytes.now) result ≡ with_more self.old.bytes end.now }
    {
        if self.is_empty() && end.len() <= 4096 {
            return Some(end);
        }
        self.add(end);
        match &self.bytes {
            Some(bytes) => Some(bytes.as_slice()),
            None => None,
        }
    }

    // Begins the next one. No input has so many lines that their number comes round.
    fn next(&mut self)
        ensures { begun self.new }
    {
        self.number = self.number.wrapping_add(1);
        match &mut self.bytes {
            Some(bytes) => bytes.clear(),
            None => self.bytes = Some(ArrayVec::new()),
        }
    }
}

fn main(rt: HostRuntime) {
    let complaints = rt.stderr();
    let build = Build { complaints };
    build.run(&rt);
}
