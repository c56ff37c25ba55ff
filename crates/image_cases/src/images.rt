// The values of a case (one test of a script). Each call is passed to the module that makes it.
use crate::kept::{Image, Noted, Setting};
use cases::{Layer, Notes, Trouble};
use imago_storage::{Fault, MemStorage};
use std::alloc::Global;
use std::cell::Cell;

/// The default settings of storages.
const USUAL: Setting = Setting {
    alignment: 1,
    fuse: 0,
    is_fixed: false,
};

/// A file, or the storage that was made of it last.
#[derive(Drop)]
/// The cells of the records of storages.
pub struct Images<'a> {
    /// The settings of the next storage.
    pub noted: Noted<'a>,
    /// The file, if no storage was made of it.
    pub setting: Setting,
    /// The storage that was made of the file last.
    pub file: Option<MemStorage>,
    pub kept: Option<Image<'a>>,
}

impl<'a> Images<'a> {
    /// Creates the values of a case, without a file. The storages record their requests in `notes`, and the number of their calls in
    /// `calls`.
    pub fn new(notes: &'a Cell<Notes>, calls: &'a Cell<u64>) -> Self {
        Images {
            noted: Noted { notes, calls },
            setting: USUAL,
            file: None,
            kept: None,
        }
    }

    /// Takes the file out of the case. Without a file, an empty one is made.
    ///
    /// # Errors
    ///
    /// - `Trouble::Refused` if memory runs out.
    pub fn take_file(&mut self, alloc: Global) -> Result<MemStorage, Trouble> {
        if let Some(mut kept) = self.kept.take() {
            return Ok(MemStorage::from_bytes(kept.bytes()?)?);
        }
        match self.file.take() {
            Some(file) => Ok(file),
            None => Ok(MemStorage::new(alloc)),
        }
    }

    /// Makes a storage of the file.
    ///
    /// # Errors
    ///
    /// - `Trouble::NoCall` if the settings don't fit: see `Kept::new`.
    /// - `Trouble::Refused` if memory runs out.
    pub fn lend(&mut self, alloc: Global) -> Result<Image<'a>, Trouble> {
        let bytes = self.take_file(alloc)?.into_bytes()?;
        Image::new(alloc, bytes, self.setting, self.noted)
    }
}

impl<'a> Layer for Images<'a> {
    fn begin(&mut self) {
        self.setting = USUAL;
        self.file = None;
        self.kept = None;
    }

    fn answer(&mut self, alloc: Global, words: &[&str]) -> Result<String, Trouble> {
        let Some((name, behind)) = words.split_first() else {
            return Err(Trouble::NoCall);
        };
        match *name {
            "header"
            | "small"
            | "field"
            | "word"
            | "row"
            | "put"
            | "count"
            | "cut"
            | "align"
            | "fuse"
            | "fixed" => self.change(alloc, name, behind),
            "check" | "plain" | "bytes" | "length" | "changes" | "change" | "calls" | "finding" =>
                self.look(alloc, name, behind),
            "worked" => self.work(alloc),
            _ => Err(Trouble::NoCall),
        }
    }
}

/// Returns the answer of a call that failed. A limit is printed with its number.
///
/// # Errors
///
/// - `Trouble::Refused` with the fault, if the fault isn't a limit. The fault is the answer of the call then.
/// - `Trouble::Refused` if memory runs out.
pub fn refused(alloc: Global, fault: Fault) -> Result<String, Trouble> {
    match fault {
        Fault::Limit(passed) => Ok(format!(in alloc; "{fault} limit {passed}")?),
        _ => Err(Trouble::Refused(fault)),
    }
}
