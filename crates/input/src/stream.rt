// Stream: the bytes that a program is given: those of the files that its words name, one file behind the other, or of standard input
// where there is no word. Some of them at a time is `read`, for input of any size; all at once is `whole`.
ghost use Rattle.std.specs.Prelude.{◌≡◌, ◌≢◌, ◌<◌, ◌≤◌, ◌+◌, ◌-◌, ◌^◌, ◌*◌, true, length, take, IfOk};
ghost use Rattle.input.specs.Stream.{words_left};

use crate::System;
use crate::failure::{Failure, Unread};
use std::env::FillError;
use std::fs::File;
use std::io;
use std::io::{Error, ErrorKind, Read};

// What is read: standard input, the file that a word names, or nothing, where no file is open.
#[derive(Drop)]
enum Source<R> {
    Standard(R),
    File { word: usize, file: File },
    Ended,
}

// The input, as far as it is read: what is open, and the system that has the words behind it.
#[derive(Drop)]
pub struct Stream<'a, S: System> {
    rt: &'a S,
    source: Source<S::Reader>,
}

// Whether there is a word i, of whatever size.
fn has_word(rt: &impl System, i: usize) -> bool {
    !matches!(rt.arg(i, &mut []), Err(FillError::NotPresent))
}

// Opens the file of a name. The system's names are text.
fn open_path(rt: &impl System, path: &[u8]) -> io::Result<File> {
    match str::from_utf8(path) {
        Ok(name) => File::open(rt, name),
        Err(_) => Err(Error::new(ErrorKind::InvalidFilename, "the name is not UTF-8")),
    }
}

// Opens the file that a word names. A word that is not there names no file.
fn open_word<S: System>(rt: &S, word: usize) -> Result<Source<S::Reader>, Unread>
    ensures { IfOk result (λ source. words_left source ≡ 2 ^ 64 - word) }
{
    let mut path = [0u8; 4096];
    let n = rt.arg(word, &mut path).unwrap_or(0);
    match open_path(rt, &path[..n]) {
        Ok(file) => Ok(Source::File { word, file }),
        Err(error) => Err(Unread::File { word, error }),
    }
}

// Opens the first file, or standard input.
impl<'a, S: System> TryFrom<&'a S> for Stream<'a, S> {
    type Error = Unread;

    fn try_from(rt: &'a S) -> Result<Stream<'a, S>, Unread> {
        let source = if has_word(rt, 1) {
            open_word(rt, 1)?
        } else {
            Source::Standard(rt.reader())
        };
        Ok(Stream { rt, source })
    }
}

impl<'a, S: System> Stream<'a, S> {
    // Reads once from what is open. Where nothing is, nothing comes.
    fn read_once(&mut self, buffer: &mut [u8]) -> Result<usize, Unread>
        ensures counts { IfOk result (λ n. n ≤ length buffer.new) }
        ensures stays { words_left self.new.source ≡ words_left self.old.source }
    {
        match &mut self.source {
            Source::Standard(reader) => reader.read(buffer).map_err(|_| Unread::Standard),
            Source::File { word, file } => match file.read(buffer) {
                Ok(n) => Ok(n),
                Err(error) => Err(Unread::File { word: *word, error }),
            },
            Source::Ended => Ok(0),
        }
    }

    // Closes the file that is open, and then opens the one behind it, if there is one: two are never open at once, and none is behind the
    // last.
    fn go_on(&mut self) -> Result<bool, Unread>
        ensures next { IfOk result (λ more. more ≡ true → words_left self.new.source + 1 ≡ words_left self.old.source) }
        ensures closed { result ≢ Ok true → words_left self.new.source ≡ 0 }
    {
        let Source::File { word, .. } = self.source else {
            return Ok(false);
        };
        self.source = Source::Ended;
        let Some(next) = word.checked_add(1) else {
            return Ok(false);
        };
        if !has_word(self.rt, next) {
            return Ok(false);
        }
        self.source = open_word(self.rt, next)?;
        Ok(true)
    }

    // Reads some bytes into the front of a buffer, and gives how many: none at the end of the input. An empty buffer takes none, but each
    // file is opened and read, so that one that cannot be is told. How many files there are no count says before: so it is a `loop`, in
    // which fewer words are left at each turn.
    pub fn read(&mut self, buffer: &mut [u8]) -> Result<usize, Unread>
        ensures { IfOk result (λ n. n ≤ length buffer.new) }
    {
        loop {
            let n = self.read_once(buffer)?;
            if n > 0 || !self.go_on()? {
                return Ok(n);
            }
        }
    }

    // Reads what is open to its end, behind the bytes that are there, or until the buffer is full. It is read once even into a full buffer,
    // which takes nothing: a file that cannot be read is told there too.
    fn read_to_end(&mut self, buffer: &mut [u8], start: usize) -> Result<usize, Unread>
        requires { start ≤ length buffer.old }
        ensures counts { IfOk result (λ n. (start ≤ n) × (n ≤ length buffer.new)) }
        ensures keeps { take start buffer.new ≡ take start buffer.old }
        ensures size { length buffer.new ≡ length buffer.old }
        ensures stays { words_left self.new.source ≡ words_left self.old.source }
    {
        let mut done = start;
        loop {
            let more = self.read_once(&mut buffer[done..])?;
            if more == 0 {
                return Ok(done);
            }
            done += more;
        }
    }

    // Fills a buffer, as far as the input goes, from one file after the other.
    fn fill(&mut self, buffer: &mut [u8]) -> Result<usize, Unread>
        ensures { IfOk result (λ n. n ≤ length buffer.new) }
    {
        let mut filled = 0;
        loop {
            filled = self.read_to_end(buffer, filled)?;
            if !self.go_on()? {
                return Ok(filled);
            }
        }
    }

    // All bytes of the input, as far as a buffer takes them. Lend one byte more than may come: a full buffer then says that more came.
    pub fn whole<'b>(&mut self, buffer: &'b mut [u8]) -> Result<&'b [u8], Unread>
        ensures { IfOk result (λ bytes. length bytes.now ≤ length buffer.old) }
    {
        let n = self.fill(buffer)?;
        Ok(&buffer[..n])
    }

    // The pieces of SIZE bytes that the input is. The buffer has one byte more than the most that there may be; the words say what is
    // wrong with more, and with input that is no whole number of pieces.
    pub fn pieces<'b, const SIZE: usize>(
        &mut self,
        buffer: &'b mut [u8],
        too_many: &'static str,
        not_whole: &'static str,
    ) -> Result<&'b [[u8; SIZE]], Failure<&'static str>>
        requires { 0 < SIZE }
        ensures { IfOk result (λ pieces. SIZE * length pieces.now < length buffer.old) }
    {
        let room = buffer.len();
        let bytes = self.whole(buffer)?;
        if bytes.len() == room {
            return Err(Failure::Wrong(too_many));
        }
        let (pieces, rest) = bytes.as_chunks();
        if !rest.is_empty() {
            return Err(Failure::Wrong(not_whole));
        }
        Ok(pieces)
    }
}
