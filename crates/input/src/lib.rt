// Input: what the words behind a program's name ask for, and the frame that all programs share: help, version, complaints, and the input
// that a program prints from, which is in `stream`. What one word asks for is in `program_words`.
#![tactic(auto)]

mod buffered;
pub mod failure;
pub mod stream;

use arrayvec::ArrayString;
use buffered::Buffered;
pub use failure::{Failure, Unread, Unwritten};
use output::Piece;
use program_words::Wanted;
use std::env::FillError;
use std::fmt::{Display, Write as _};
use std::fs::File;
use std::io;
use std::io::{Error, Input, Print, Stderr, Write};
use std::rt::{Env, Files};
pub use stream::Stream;

const VERSION: &'static str = "5.0.0";

// What the usage says of the words behind a program's name.
const WORDS: &'static str = " [FILE ..] | --help | --version\n";

// What each help says of where the input comes from.
const WHERE: &'static str = "\
    It is the files, one behind the other, or standard input where no file is named.";

// What a program is given by the system: its words, files by their names, standard input, and what it prints and complains on.
pub trait System: Env + Files<File = File> + Input + Print {
    // Standard error, for bytes that need not be text: a file may have any name.
    fn complaints(&self) -> Stderr;
}

impl System for HostRuntime {
    fn complaints(&self) -> Stderr {
        self.stderr()
    }
}

// A program: its name, what its help says of it and of its input, the words of its example, and what it prints of its input.
pub trait Program {
    const NAME: &'static str;

    const HELP: &'static str;

    const EXAMPLE: &'static str;

    // What is wrong with input that the program does not take. One that takes every input makes none.
    type Wrong: Display + Drop;

    // Prints what its input comes to.
    fn print<S: System, W: Write>(
        &self,
        input: &mut Stream<'_, S>,
        out: &mut W,
    ) -> Result<(), Failure<Self::Wrong>>;

    // Says what is wrong with its input.
    fn complain(wrong: Self::Wrong, err: &mut Complaints) -> io::Result<()> {
        say(Self::NAME, wrong, err)
    }
}

// What every program does.
pub trait Run {
    // Does what the words ask of the program, or complains.
    fn run(&self, rt: &impl System);
}

impl<P: Program> Run for P {
    fn run(&self, rt: &impl System) {
        if let Err(failure) = follow(rt, self) {
            let _ = complain::<P>(rt, failure);
        }
    }
}

// Prints what the words ask for.
fn follow<P: Program>(rt: &impl System, program: &P) -> Result<(), Failure<P::Wrong>> {
    let mut out = io::writer(rt);
    match wanted(rt)? {
        Wanted::Read => {
            let mut input = Stream::try_from(rt)?;
            program.print(&mut input, &mut out)
        }
        Wanted::Help => Ok(print_help::<P>(&mut out)?),
        Wanted::Version => Ok(print_version::<P>(&mut out)?),
    }
}

// What the words ask for: the first that names no file decides.
fn wanted<C>(rt: &impl System) -> Result<Wanted, Failure<C>> {
    let mut word = [0u8; 4096];
    for i in 1..usize::MAX {
        let n = match rt.arg(i, &mut word) {
            Ok(n) => n,
            Err(FillError::TooLong) => return Err(Failure::LongWord(i)),
            Err(FillError::NotPresent) => break,
        };
        match program_words::word_wants(&word[..n]) {
            Some(Wanted::Read) => {}
            Some(wanted) => return Ok(wanted),
            None => return Err(Failure::NoOption(i)),
        }
    }
    Ok(Wanted::Read)
}

fn print_version<P: Program>(out: &mut impl Write) -> io::Result<()> {
    let name = P::NAME;
    Buffered::new(out).write_at_once(format_args!("{name} (piongseut) {VERSION}\n"))
}

fn print_help<P: Program>(out: &mut impl Write) -> io::Result<()> {
    let (name, help, example) = (P::NAME, P::HELP, P::EXAMPLE);
    Buffered::new(out).write_at_once(format_args!(
        "usage: {name}{WORDS}{help}\n{WHERE}\nExample: ./run {name} {example}\n"
    ))
}

// Standard error, for a complaint. A piece that cannot be said there is passed over, and the next is tried: there is nobody to tell.
#[derive(Drop)]
pub struct Complaints {
    to: Stderr,
}

impl From<Stderr> for Complaints {
    fn from(to: Stderr) -> Complaints {
        Complaints { to }
    }
}

impl Write for Complaints {
    fn write(&mut self, bytes: &[u8]) -> io::Result<usize> {
        let _ = self.to.write_all(bytes);
        Ok(bytes.len())
    }

    fn flush(&mut self) -> io::Result<()> {
        Ok(())
    }
}

// Says something behind a program's name, which is one write with the colon behind it.
fn say(name: &str, what: impl Display + Drop, err: &mut Complaints) -> io::Result<()> {
    writeln!(err, "{}{what}", Piece(format_args!("{name}: ")))
}

// Says on standard error what went wrong.
fn complain<P: Program>(rt: &impl System, failure: Failure<P::Wrong>) -> io::Result<()> {
    let mut err = Complaints::from(rt.complaints());
    let name = P::NAME;
    match failure {
        Failure::LongWord(i) => {
            write!(err, "{name}: ")?;
            writeln!(err, "more than 4096 bytes in word {i}")
        }
        Failure::NoOption(i) => {
            write!(err, "{name}: ")?;
            write_word(rt, i, &mut err)?;
            write!(err, " is no option\nusage: {name}{WORDS}")
        }
        Failure::Unread(Unread::Standard) => {
            write!(err, "{name}: ")?;
            writeln!(err, "standard input could not be read")
        }
        Failure::Unread(Unread::File { word, error }) => {
            write!(err, "{name}: ")?;
            write_word(rt, word, &mut err)?;
            write!(err, ": ")?;
            write_reason(error, &mut err)
        }
        Failure::Wrong(wrong) => P::complain(wrong, &mut err),
        Failure::Unwritten => say(name, "standard output could not be written", &mut err),
    }
}

// A word as it stands, whatever its bytes are.
fn write_word(rt: &impl System, i: usize, err: &mut Complaints) -> io::Result<()> {
    let mut word = [0u8; 4096];
    match rt.arg(i, &mut word) {
        Ok(n) => err.write_all(&word[..n]),
        Err(_) => Ok(()),
    }
}

// The system's words for an error, without its number, which stands behind them.
fn write_reason(error: Error, err: &mut Complaints) -> io::Result<()> {
    let mut text = ArrayString::<512>::new();
    let _ = write!(text, "{error}");
    let text = text.as_str();
    match text.split_once(" (os error ") {
        Some((reason, _)) => writeln!(err, "{reason}"),
        None => writeln!(err, "{text}"),
    }
}
