// The files of a case, which images open by name. Each opening makes a new storage over a copy of the file's bytes.
ghost use Rattle.std.specs.Prelude.{⊤};

use cases::{Alignments, Notes, Shaped, Trouble, number, size};
use imago_access::ImplicitOpenGate;
use imago_storage::{
    Fault, FuseStorage, LogStorage, MemStorage, PreallocateMode, Storage, StorageExt,
};
use std::alloc::Global;
use std::cell::Cell;

/// The storage over an opened file.
pub type Base<'a> = FuseStorage<Shaped<'a>>;

/// A `Base` that keeps a log of its changes.
pub type Logged<'a> = LogStorage<Base<'a>>;

/// The properties of each storage that is made over a file.
#[derive(Clone, Copy)]
pub struct Making {
    pub alignments: Alignments,
    /// The number of the call that fails, from 1 on, or 0 if none fails.
    pub fuse: u64,
}

// A file.
#[derive(Drop)]
struct NamedFile {
    name: String,
    bytes: MemStorage,
    making: Making,
}

/// The files of a case.
#[derive(Drop)]
pub struct NamedFiles<'a> {
    files: Vec<NamedFile>,
    notes: &'a Cell<Notes>,
}

impl<'a> NamedFiles<'a> {
    /// Creates an empty list of files. The storages over them add their calls to `notes`.
    pub fn new(alloc: Global, notes: &'a Cell<Notes>) -> Self {
        NamedFiles {
            files: Vec::new(alloc),
            notes,
        }
    }

    /// Drops all files.
    pub fn clear(&mut self) {
        self.files.clear();
    }

    // Returns the file with this name, if any.
    fn find(&mut self, name: &str) -> Option<&mut NamedFile> {
        self.files
            .iter_mut()
            .find(|file| file.name.as_str() == name)
    }

    /// Returns the bytes of a file.
    ///
    /// # Errors
    ///
    /// - `Trouble::NoCall` if the case has no such file.
    pub fn view(&self, name: &str) -> Result<&[u8], Trouble> {
        match self.files.iter().find(|file| file.name.as_str() == name) {
            Some(file) => Ok(file.bytes.as_bytes()),
            None => Err(Trouble::NoCall),
        }
    }

    // Returns the file with this name, or `Trouble::NoCall`.
    fn named(&mut self, name: &str) -> Result<&mut NamedFile, Trouble> {
        match self.find(name) {
            Some(file) => Ok(file),
            None => Err(Trouble::NoCall),
        }
    }

    /// Adds a file with these bytes.
    ///
    /// # Errors
    ///
    /// - `Trouble::NoCall` if the case already has a file with this name.
    /// - `Trouble::Refused` if memory runs out, or no storage can be made of the bytes.
    pub fn add(
        &mut self,
        alloc: Global,
        name: &str,
        making: Making,
        bytes: Vec<u8>,
    ) -> Result<(), Trouble> {
        if self.find(name).is_some() {
            return Err(Trouble::NoCall);
        }
        let file = NamedFile {
            name: name.to_string(alloc)?,
            bytes: MemStorage::from_bytes(bytes)?,
            making,
        };
        Ok(self.files.push(file)?)
    }

    /// Writes bytes to a file, at this offset in bytes. Storages that were opened before don't change.
    ///
    /// # Errors
    ///
    /// - `Trouble::NoCall` if the case has no such file.
    /// - `Trouble::Refused` if the call on the file's storage fails.
    pub fn put(
        &mut self,
        alloc: Global,
        name: &str,
        offset: u64,
        bytes: &[u8],
    ) -> Result<(), Trouble> {
        Ok(self.named(name)?.bytes.write(alloc, bytes, offset)?)
    }

    /// Appends bytes to a file.
    ///
    /// # Errors
    ///
    /// The errors of `put`.
    pub fn append(&mut self, alloc: Global, name: &str, bytes: &[u8]) -> Result<(), Trouble> {
        let file = self.named(name)?;
        let end = file.bytes.size();
        Ok(file.bytes.write(alloc, bytes, end)?)
    }

    /// Sets the length of a file, in bytes.
    ///
    /// # Errors
    ///
    /// The errors of `put`.
    pub fn cut(&mut self, name: &str, length: u64) -> Result<(), Trouble> {
        let file = self.named(name)?;
        Ok(file.bytes.resize(length, PreallocateMode::None)?)
    }

    /// Opens a storage over the first `length` bytes of a file, or over the whole file if it is shorter.
    ///
    /// # Errors
    ///
    /// - `Trouble::NoCall` if the case has no such file.
    /// - `Trouble::Refused` if memory runs out, or the storage can't be made.
    pub fn open_prefix(&mut self, name: &str, length: usize) -> Result<Base<'a>, Trouble> {
        let notes = self.notes;
        let file = self.named(name)?;
        let making = file.making;
        let mut bytes = file.bytes.bytes()?;
        bytes.truncate(length);
        let shaped = Shaped::new(bytes, making.alignments, true, true, notes)?;
        Ok(FuseStorage::new(shaped, making.fuse))
    }

    /// Opens a storage over a file.
    ///
    /// # Errors
    ///
    /// The errors of `open_prefix`.
    pub fn open(&mut self, name: &str) -> Result<Base<'a>, Trouble> {
        self.open_prefix(name, usize::MAX)
    }

    /// Opens a storage over a file, with the file's alignments and a log.
    ///
    /// # Errors
    ///
    /// The errors of `open_prefix`.
    pub fn open_logged_alone(&mut self, alloc: Global, name: &str) -> Result<Logged<'a>, Trouble> {
        let alignments = self.named(name)?.making.alignments;
        self.open_logged(alloc, name, alignments)
    }

    /// Replaces the bytes of a file. Storages that were opened before don't change.
    ///
    /// # Errors
    ///
    /// - `Trouble::NoCall` if the case has no such file.
    pub fn replace(&mut self, name: &str, bytes: MemStorage) -> Result<(), Trouble> {
        self.named(name)?.bytes = bytes;
        Ok(())
    }

    /// Opens a storage over a file, with these alignments and a log.
    ///
    /// The log reads the file when it is created. This call isn't noted, and it doesn't count for the fuse.
    ///
    /// # Errors
    ///
    /// The errors of `open_prefix`.
    pub fn open_logged(
        &mut self,
        alloc: Global,
        name: &str,
        alignments: Alignments,
    ) -> Result<Logged<'a>, Trouble> {
        let notes = self.notes;
        let noted = notes.get();
        let file = self.named(name)?;
        let fuse = match file.making.fuse {
            0 => 0,
            n => n.saturating_add(1),
        };
        let shaped = Shaped::new(file.bytes.bytes()?, alignments, true, true, notes)?;
        let logged = LogStorage::new(alloc, FuseStorage::new(shaped, fuse))?;
        notes.set(noted);
        Ok(logged)
    }
}

/// Files that are opened by name. Each opening makes a new storage.
pub trait NamedStorages<S> {
    /// Opens a storage over the file with this name.
    ///
    /// # Errors
    ///
    /// - `Trouble::NoCall` if the case has no such file.
    /// - `Trouble::Refused` if memory runs out, or the storage can't be made.
    fn open_storage(&mut self, name: &str) -> Result<S, Trouble>;
}

impl<'a> NamedStorages<Base<'a>> for NamedFiles<'a> {
    fn open_storage(&mut self, name: &str) -> Result<Base<'a>, Trouble> {
        self.open(name)
    }
}

// Copies in memory, with alignment 1 and without a fuse.
impl<'a> NamedStorages<MemStorage> for NamedFiles<'a> {
    fn open_storage(&mut self, name: &str) -> Result<MemStorage, Trouble> {
        let bytes = self.named(name)?.bytes.bytes()?;
        Ok(MemStorage::from_bytes(bytes)?)
    }
}

// An image may open each file of its case.
impl<'a> ImplicitOpenGate<Base<'a>> for NamedFiles<'a> {
    ghost answers = { λ gate name answer now. ⊤ };

    fn open_storage(&mut self, _alloc: Global, name: &str) -> Result<Base<'a>, Fault> {
        match self.open(name) {
            Ok(storage) => Ok(storage),
            Err(Trouble::NoCall) => Err(Fault::MissingData),
            Err(Trouble::Refused(fault)) => Err(fault),
        }
    }
}

/// Parses `[fuse N] [align N]`, which come before a file's bytes. The default is no fuse, and alignment 1.
///
/// # Errors
///
/// - `Trouble::NoCall` if an `N` isn't a number, or the alignment isn't a power of two of at most 2^20.
pub fn making_of<'x, 'y>(words: &'y [&'x str]) -> Result<(Making, &'y [&'x str]), Trouble> {
    let (fuse, rest) = match words {
        ["fuse", n, rest @ ..] => (number(n)?, rest),
        _ => (0, words),
    };
    let (n, rest) = match rest {
        ["align", n, rest @ ..] => (size(n)?, rest),
        _ => (1, rest),
    };
    let alignments = Alignments::new(n, n, n, n).ok_or(Trouble::NoCall)?;
    Ok((Making { alignments, fuse }, rest))
}
