// Disks whose files keep logs of their requests. Each call is made on one disk for each alignment. The logs give the crash images: the
// bytes of a file after a crash between two requests.
ghost use Rattle.std.specs.Prelude.{⊤};

use crate::files::{Logged, NamedFiles, NamedStorages};
use crate::opened::Opened;
use crate::stops::{Looked, stops};
use cases::{Alignments, Trouble, joined, number, size};
use imago_access::{FormatDriverInstance, ImplicitOpenGate};
use imago_storage::Fault;
use std::alloc::Global;

/// The files of a case, which are opened as storages that keep logs.
#[derive(Drop)]
struct LoggedFiles<'f, 'a> {
    alloc: Global,
    files: &'f mut NamedFiles<'a>,
    alignments: Alignments,
}

impl<'f, 'a> NamedStorages<Logged<'a>> for LoggedFiles<'f, 'a> {
    fn open_storage(&mut self, name: &str) -> Result<Logged<'a>, Trouble> {
        self.files.open_logged(self.alloc, name, self.alignments)
    }
}

// An image may open each file of its case.
impl<'f, 'a> ImplicitOpenGate<Logged<'a>> for LoggedFiles<'f, 'a> {
    ghost answers = { λ gate name answer now. ⊤ };

    fn open_storage(&mut self, alloc: Global, name: &str) -> Result<Logged<'a>, Fault> {
        match self.files.open_logged(alloc, name, self.alignments) {
            Ok(storage) => Ok(storage),
            Err(Trouble::NoCall) => Err(Fault::MissingData),
            Err(Trouble::Refused(fault)) => Err(fault),
        }
    }
}

// A disk over files of one alignment, and the number of its top file's requests that `stops` skips.
struct Kept<'a> {
    /// The alignment in bytes, or 0 if this disk isn't used.
    alignment: usize,
    opened: Opened<Logged<'a>>,
    forgotten: usize,
}

/// Up to four disks with different alignments, which get the same calls.
pub struct Logs<'a> {
    first: Kept<'a>,
    second: Kept<'a>,
    third: Kept<'a>,
    fourth: Kept<'a>,
}

// The answer of the first disk, followed by each answer that differs from that of the previous disk.
#[derive(Drop)]
struct Answers {
    text: String,
    last: String,
}

impl Answers {
    fn new(alloc: Global) -> Self {
        Answers {
            text: String::new(alloc),
            last: String::new(alloc),
        }
    }

    // Appends the answer of the disk with this alignment, unless the previous disk gave the same answer.
    fn add(&mut self, alloc: Global, alignment: usize, answer: String) -> Result<(), Trouble> {
        if answer.as_str() == self.last.as_str() {
            return Ok(());
        }
        if !self.text.is_empty() {
            let place = format!(in alloc; "and at {alignment}")?;
            joined(&mut self.text, place.as_str())?;
        }
        joined(&mut self.text, answer.as_str())?;
        self.last = answer;
        Ok(())
    }
}

impl<'a> Kept<'a> {
    fn new(alignment: usize) -> Self {
        Kept {
            alignment,
            opened: Opened::new(),
            forgotten: 0,
        }
    }

    fn close(self) {
        let Kept {
            alignment: _alignment,
            opened,
            forgotten: _forgotten,
        } = self;
        opened.close();
    }

    // Makes `stops` skip the requests that the top file has logged up to now.
    fn forget(&mut self) {
        if let Some(disk) = self.opened.disk() {
            self.forgotten = disk.inner().image_file().requests().len();
        }
    }

    // Reports the crash images after the forgotten requests.
    fn stops(
        &self,
        alloc: Global,
        looked: Looked,
        layers: &[&str],
        files: &NamedFiles<'_>,
    ) -> Result<String, Trouble> {
        let Some(disk) = self.opened.disk() else {
            return Err(Trouble::NoCall);
        };
        let requests = disk.inner().image_file().requests();
        stops(alloc, requests, self.forgotten, looked, layers, files)
    }

    // Opens the disk, or makes a call of it. A disk that is opened has a new log, so no request is forgotten then.
    fn called(
        &mut self,
        alloc: Global,
        words: &[&str],
        files: &mut NamedFiles<'a>,
    ) -> Result<String, Trouble> {
        let n = self.alignment;
        let Some(alignments) = Alignments::new(n, n, n, n) else {
            return Err(Trouble::NoCall);
        };
        if matches!(words, ["layer" | "chain" | "close", ..]) {
            self.forgotten = 0;
        }
        let mut files = LoggedFiles {
            alloc,
            files,
            alignments,
        };
        self.opened.answer(alloc, words, &mut files)
    }

    fn answer(
        &mut self,
        alloc: Global,
        words: &[&str],
        files: &mut NamedFiles<'a>,
    ) -> Result<String, Trouble> {
        let call = match words {
            ["if_open", rest @ ..] if self.opened.disk().is_some() => rest,
            _ => words,
        };
        match call {
            [word, offset, n, layers @ ..] if matches!(*word, "stops" | "states") => {
                let looked = Looked {
                    offset: number(offset)?,
                    length: number(n)?,
                    is_counted: *word == "stops",
                };
                self.stops(alloc, looked, layers, files)
            }
            _ => self.called(alloc, words, files),
        }
    }

    // Makes a call of the disk, if it is used, and appends its answer to the others.
    fn ask(
        &mut self,
        alloc: Global,
        words: &[&str],
        files: &mut NamedFiles<'a>,
        answers: &mut Answers,
    ) -> Result<(), Trouble> {
        if self.alignment == 0 {
            return Ok(());
        }
        let answer = told(alloc, self.answer(alloc, words, files))?;
        answers.add(alloc, self.alignment, answer)
    }
}

// Returns the answer of a call as text. A fault other than `Fault::Memory` is text, too.
fn told(alloc: Global, answer: Result<String, Trouble>) -> Result<String, Trouble> {
    match answer {
        Err(Trouble::Refused(Fault::Memory)) => Err(Trouble::Refused(Fault::Memory)),
        Err(Trouble::Refused(fault)) => Ok(fault.to_string(alloc)?),
        answer => answer,
    }
}

impl<'a> Logs<'a> {
    // Creates a value for these alignments, without disks.
    fn of(first: usize, second: usize, third: usize, fourth: usize) -> Self {
        Logs {
            first: Kept::new(first),
            second: Kept::new(second),
            third: Kept::new(third),
            fourth: Kept::new(fourth),
        }
    }

    /// Creates a value without disks, for up to three alignments in bytes, or for 1, 8, 512 and 4096 if `words` is empty.
    ///
    /// # Errors
    ///
    /// - `Trouble::NoCall` if a word isn't a number, or the list has more than three.
    pub fn new(words: &[&str]) -> Result<Self, Trouble> {
        match words {
            [] => Ok(Logs::of(1, 8, 512, 4096)),
            [a] => Ok(Logs::of(size(a)?, 0, 0, 0)),
            [a, b] => Ok(Logs::of(size(a)?, size(b)?, 0, 0)),
            [a, b, c] => Ok(Logs::of(size(a)?, size(b)?, size(c)?, 0)),
            _ => Err(Trouble::NoCall),
        }
    }

    /// Drops all disks.
    pub fn close(self) {
        let Logs {
            first,
            second,
            third,
            fourth,
        } = self;
        first.close();
        second.close();
        third.close();
        fourth.close();
    }

    /// Makes `stops` skip the requests that the top files have logged up to now.
    pub fn forget(&mut self) {
        self.first.forget();
        self.second.forget();
        self.third.forget();
        self.fourth.forget();
    }

    /// Opens or closes each disk, or makes a call of each disk.
    ///
    /// Returns the answer of the first disk. Each answer that differs from that of the previous disk follows, after its alignment.
    ///
    /// # Errors
    ///
    /// - `Trouble::NoCall` if the words aren't a call, or the call needs a disk, a mapping or a file that doesn't exist.
    /// - `Trouble::Refused` if memory runs out.
    pub fn answer(
        &mut self,
        alloc: Global,
        words: &[&str],
        files: &mut NamedFiles<'a>,
    ) -> Result<String, Trouble> {
        let mut answers = Answers::new(alloc);
        self.first.ask(alloc, words, files, &mut answers)?;
        self.second.ask(alloc, words, files, &mut answers)?;
        self.third.ask(alloc, words, files, &mut answers)?;
        self.fourth.ask(alloc, words, files, &mut answers)?;
        let Answers { text, .. } = answers;
        Ok(text)
    }
}
