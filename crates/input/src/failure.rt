// Failure: why a program does not print what it was asked for. How it says so is in the crate's root.
use std::io::Error;

// Why input could not be read: standard input, or the file that a word names.
#[derive(Clone, Copy)]
pub enum Unread {
    Standard,
    File { word: usize, error: Error },
}

// Why a program does not print what it was asked for.
#[derive(Clone, Copy)]
pub enum Failure<C> {
    // a word that is longer than any name of a file
    LongWord(usize),
    // a word that looks like an option and is none
    NoOption(usize),
    Unread(Unread),
    // what the program finds wrong with its input
    Wrong(C),
    // standard output could not be written
    Unwritten,
}

// That standard output could not be written, and no more. An error of the system is large: who prints much hands this on.
#[derive(Clone, Copy)]
pub struct Unwritten;

impl From<Error> for Unwritten {
    fn from(_error: Error) -> Unwritten {
        Unwritten
    }
}

impl<C> From<Unwritten> for Failure<C> {
    ghost use Rattle.input.specs.declared.failure.Failure.TheVariants.{Unwritten as unwritten};
    ghost use Rattle.std.specs.Prelude.{◌≡◌};

    ghost from_gives = { λ _ failure. failure ≡ unwritten };

    fn from(_unwritten: Unwritten) -> Failure<C> {
        Failure::Unwritten
    }
}

impl<C> From<Unread> for Failure<C> {
    ghost use Rattle.input.specs.declared.failure.Failure.TheVariants.{Unread as unread};
    ghost use Rattle.std.specs.Prelude.{◌≡◌};

    ghost from_gives = { λ cause failure. failure ≡ unread cause };

    fn from(unread: Unread) -> Failure<C> {
        Failure::Unread(unread)
    }
}

// An error of the system that a program passes up is one of its standard output: those of reading are `Unread`.
impl<C> From<Error> for Failure<C> {
    ghost use Rattle.input.specs.declared.failure.Failure.TheVariants.{Unwritten};
    ghost use Rattle.std.specs.Prelude.{◌≡◌};

    ghost from_gives = { λ _ failure. failure ≡ Unwritten };

    fn from(_error: Error) -> Failure<C> {
        Failure::Unwritten
    }
}
