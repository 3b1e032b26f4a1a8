// Buffered: a writer in front of another. It gathers what it is given, and hands it on where it is full and where it is flushed: a help, put
// together of pieces, goes out in one write. Its room lies in the value itself, so that it takes no memory from a heap.
ghost use Rattle.std.specs.Prelude.{◌≡◌, ◌+◌, ◌<◌, ◌≤◌, [], ◌++◌, length, IfOk, IfSome, OnOk};
ghost use Rattle.std.specs.Io.{WritesAtMost};
ghost use Rattle.std.specs.Io.KnownBytes.{Keeps, Appends, WriteAppends};
ghost use Rattle.arrayvec.specs.ArrayVec.{array_vec_len};

use arrayvec::ArrayVec;
use std::fmt::Display;
use std::io;
use std::io::{Error, ErrorKind, Write};

// What is gathered, and how much of it the writer behind has taken: some, and not all, only behind a write that failed.
#[derive(Drop)]
pub(crate) struct Buffered<W> {
    to: W,
    bytes: ArrayVec<u8, 4096>,
    handed: usize,
    ghost within: { handed ≤ array_vec_len bytes },
}

// Writes once, and again where a signal breaks a write off. A loop has to end: so the tries are counted, to a number that none uses up.
fn write_once<W: Write>(to: &mut W, bytes: &[u8]) -> io::Result<usize>
    ensures bound { WritesAtMost result bytes.now }
    ensures bytes { WriteAppends (W.contents to.old) (W.contents to.new) result bytes.now }
{
    for _ in 0..u64::MAX {
        match to.write(bytes) {
            Ok(n) => return Ok(n),
            Err(error) => {
                if error.kind() != ErrorKind::Interrupted {
                    return Err(error);
                }
            }
        }
    }
    Err(Error::new(ErrorKind::TimedOut, "too many tries"))
}

// Adds bytes that fit.
fn add(gathered: &mut ArrayVec<u8, 4096>, bytes: &[u8])
    requires { array_vec_len gathered.old + length bytes.now ≤ 4096 }
    ensures { gathered.new.items ≡ gathered.old.items ++ bytes.now }
{
    let Ok(()) = gathered.try_extend_from_slice(bytes) else {
        unreachable!()
    };
}

impl<W: Write> Buffered<W> {
    ghost use Rattle.input.specs.Buffered.{waiting, buffered_contents};

    // Nothing waits yet.
    pub(crate) fn new(to: W) -> Buffered<W>
        ensures contents { Keeps (W.contents to) (buffered_contents W.contents result) }
        ensures empty { waiting result ≡ [] }
    {
        Buffered {
            to,
            bytes: ArrayVec::new(),
            handed: 0,
        }
    }

    // Hands on all that waits. What a write that fails has not taken waits on.
    fn hand_on(&mut self) -> io::Result<()>
        ensures empty { OnOk result (self.new.bytes.items ≡ []) }
        ensures bytes { Keeps (buffered_contents W.contents self.old) (buffered_contents W.contents self.new) }
    {
        while self.handed < self.bytes.len() {
            let n = write_once(&mut self.to, &self.bytes.as_slice()[self.handed..])?;
            if n == 0 {
                return Err(Error::new(ErrorKind::WriteZero, "nothing was written"));
            }
            self.handed += n;
        }
        self.handed = 0;
        self.bytes.clear();
        Ok(())
    }

    // Takes bytes in as many parts as it needs.
    #[cold]
    #[inline(never)]
    fn write_in_parts(&mut self, bytes: &[u8]) -> io::Result<()>
        ensures { OnOk result (Appends (buffered_contents W.contents self.old) (buffered_contents W.contents self.new) bytes.now) }
    {
        let mut done = 0;
        while done < bytes.len() {
            done += self.write(&bytes[done..])?;
        }
        Ok(())
    }
}

impl<W: Write> Buffered<W> {
    ghost use Rattle.input.specs.Buffered.{waiting, buffered_contents};

    // Gathers a text, and hands it on in one write, whatever it is put together of.
    pub(crate) fn write_at_once<D: Display + Drop>(&mut self, text: D) -> io::Result<()>
        ensures bytes { OnOk result (IfSome (D.output text) (Appends (buffered_contents W.contents self.old) (buffered_contents W.contents self.new))) }
        ensures empty { OnOk result (waiting self.new ≡ []) }
    {
        write!(self, "{text}")?;
        self.flush()
    }
}

impl<W: Write> Write for Buffered<W> {
    ghost use Rattle.input.specs.Buffered.{waiting, buffered_contents};

    ghost contents = { buffered_contents W.contents };

    fn write(&mut self, bytes: &[u8]) -> io::Result<usize>
        ensures bound { WritesAtMost result bytes.now }
        ensures bytes { WriteAppends (buffered_contents W.contents self.old) (buffered_contents W.contents self.new) result bytes.now }
        ensures some { IfOk result (λ n. 0 < length bytes.now → 0 < n) }
    {
        if self.bytes.is_full() {
            self.hand_on()?;
        }
        let n = bytes.len().min(self.bytes.remaining_capacity());
        add(&mut self.bytes, &bytes[..n]);
        Ok(n)
    }

    fn flush(&mut self) -> io::Result<()>
        ensures bytes { Keeps (buffered_contents W.contents self.old) (buffered_contents W.contents self.new) }
        ensures empty { OnOk result (waiting self.new ≡ []) }
    {
        self.hand_on()?;
        self.to.flush()
    }

    // A piece that fits, as nearly all do, is gathered at once.
    fn write_all(&mut self, bytes: &[u8]) -> io::Result<()> {
        match self.bytes.try_extend_from_slice(bytes) {
            Ok(()) => Ok(()),
            Err(_) => self.write_in_parts(bytes),
        }
    }
}
