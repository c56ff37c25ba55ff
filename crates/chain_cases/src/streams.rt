// Readers and writers that fail after a given number of bytes.
ghost use Rattle.std.specs.Prelude.{◌≤◌, IfOk};

use cases::Trouble;
use std::io::{self, BufRead, Error, ErrorKind, Read, Write};

/// The point at which a stream fails, and the cause.
#[derive(Clone, Copy, Debug)]
pub struct Failing {
    /// The number of bytes that still pass before the failure.
    pub behind: usize,
    /// The cause of the failure. An interruption happens once. Other failures are permanent.
    pub cause: ErrorKind,
}

impl Failing {
    /// Creates a failure after `behind` bytes, with the cause `broken`, `interrupted` or `memory`.
    ///
    /// # Errors
    ///
    /// - `Trouble::NoCall` if the word is no cause.
    pub fn by(word: &str, behind: usize) -> Result<Failing, Trouble> {
        let cause = match word {
            "broken" => ErrorKind::BrokenPipe,
            "interrupted" => ErrorKind::Interrupted,
            "memory" => ErrorKind::OutOfMemory,
            _ => return Err(Trouble::NoCall),
        };
        Ok(Failing { behind, cause })
    }

    // Returns how many of `count` bytes pass before the failure. At the failure itself it returns the cause.
    fn room(&mut self, count: usize) -> io::Result<usize>
        ensures { IfOk result (λ n. n ≤ count) }
    {
        if self.behind > 0 || count == 0 {
            return Ok(count.min(self.behind));
        }
        if self.cause == ErrorKind::Interrupted {
            self.behind = usize::MAX;
        }
        Err(Error::from(self.cause))
    }

    // Records that `count` bytes have passed.
    fn passed(&mut self, count: usize) {
        self.behind = self.behind.saturating_sub(count);
    }
}

/// A reader of a script that fails.
#[derive(Drop)]
pub struct FailingReader<'a> {
    /// The bytes that aren't read yet.
    pub script: &'a [u8],
    /// The failure.
    pub failing: Failing,
}

impl<'a> Read for FailingReader<'a> {
    fn read(&mut self, buf: &mut [u8]) -> io::Result<usize> {
        let count = self.failing.room(self.script.len().min(buf.len()))?;
        buf[..count].copy_from_slice(&self.script[..count]);
        self.consume(count);
        Ok(count)
    }
}

impl<'a> BufRead for FailingReader<'a> {
    fn fill_buf(&mut self) -> io::Result<&[u8]> {
        let count = self.failing.room(self.script.len())?;
        Ok(&self.script[..count])
    }

    fn consume(&mut self, amount: usize) {
        let count = amount.min(self.script.len());
        self.failing.passed(count);
        self.script = &self.script[count..];
    }
}

/// A writer into memory that fails.
#[derive(Drop)]
pub struct FailingWriter {
    /// The bytes that were written.
    pub text: Vec<u8>,
    /// The failure.
    pub failing: Failing,
}

impl Write for FailingWriter {
    fn write(&mut self, buf: &[u8]) -> io::Result<usize> {
        let count = self.failing.room(buf.len())?;
        self.text.extend_from_slice(&buf[..count])?;
        self.failing.passed(count);
        Ok(count)
    }

    fn flush(&mut self) -> io::Result<()> {
        Ok(())
    }
}
