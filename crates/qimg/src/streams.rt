// The streams of a script. The sender of its lines may wait for their answers, so all answers are written before more input is read.

use std::cell::RefCell;
use std::io::{self, Read, Write};

/// A writer for the answers. Its buffer is also flushed by the reader of the script.
#[derive(Drop)]
pub struct Answers<'a, W: Write> {
    pub buffer: &'a RefCell<W>,
}

impl<'a, W: Write> Write for Answers<'a, W> {
    fn write(&mut self, bytes: &[u8]) -> io::Result<usize> {
        let mut buffer = self.buffer.try_borrow_mut()?;
        buffer.write(bytes)
    }

    fn flush(&mut self) -> io::Result<()> {
        let mut buffer = self.buffer.try_borrow_mut()?;
        buffer.flush()
    }
}

/// A reader for a script. Before it reads more, it writes all answers in the buffer.
#[derive(Drop)]
pub struct Script<'a, R: Read + Drop, W: Write> {
    pub input: R,
    pub answers: Answers<'a, W>,
}

impl<'a, R: Read + Drop, W: Write> Read for Script<'a, R, W> {
    fn read(&mut self, buf: &mut [u8]) -> io::Result<usize> {
        self.answers.flush()?;
        self.input.read(buf)
    }
}
