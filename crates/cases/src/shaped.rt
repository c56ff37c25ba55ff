// A storage in memory with any four alignments, with or without support for zeroes and discards. It notes the calls that it gets, so that a
// script can require them.
ghost use Rattle.std.specs.Prelude.{◌≡◌, IsTrue};
ghost use Rattle.imago_storage.specs.State.{IsAlignment};
ghost use Rattle.imago_storage.specs.MemStorage.{mem_shape, mem_state};

use crate::layer::Trouble;
use crate::texts::joined;
use crate::words::{bytes, mode_word, size};
use imago_storage::{Fault, MemStorage, PreallocateMode, Storage};
use std::alloc::{AllocError, Global};
use std::cell::Cell;
use std::fmt;

/// The greatest number of calls that `Notes` keeps.
const MOST_NOTES: usize = 32;

/// A call that a storage got. Offsets, lengths and sizes are in bytes.
#[derive(Clone, Copy)]
pub enum Asked {
    Nothing,
    Read(u64, u64),
    Write(u64, u64),
    Zeroes(u64, u64),
    AllocatedZeroes(u64, u64),
    Discard(u64, u64),
    Resize(u64, PreallocateMode),
    Flush,
    Sync,
    InvalidateCache,
    Resolve,
}

impl fmt::Display for Asked {
    fn fmt<W: fmt::Write>(&self, f: &mut fmt::Formatter<W>) -> fmt::Result {
        match self {
            Asked::Nothing => write!(f, "nothing"),
            Asked::Read(offset, length) => write!(f, "read {offset} {length}"),
            Asked::Write(offset, length) => write!(f, "write {offset} {length}"),
            Asked::Zeroes(offset, length) => write!(f, "zeroes {offset} {length}"),
            Asked::AllocatedZeroes(offset, length) => write!(f, "allocated {offset} {length}"),
            Asked::Discard(offset, length) => write!(f, "discard {offset} {length}"),
            Asked::Resize(size, PreallocateMode::None) => write!(f, "resize {size}"),
            Asked::Resize(size, mode) => {
                let mode = mode_word(*mode);
                write!(f, "resize {size} {mode}")
            }
            Asked::Flush => write!(f, "flush"),
            Asked::Sync => write!(f, "sync"),
            Asked::InvalidateCache => write!(f, "invalidate"),
            Asked::Resolve => write!(f, "resolve"),
        }
    }
}

/// The first calls since the notes were last cleared, and the number of all calls since then.
#[derive(Clone, Copy)]
pub struct Notes {
    calls: [Asked; MOST_NOTES],
    count: usize,
}

impl Notes {
    /// Returns notes without a call.
    pub fn none() -> Self {
        Notes {
            calls: [Asked::Nothing; MOST_NOTES],
            count: 0,
        }
    }

    fn add(&mut self, asked: Asked) {
        let count = self.count;
        if let Some(place) = self.calls.get_mut(count) {
            *place = asked;
        }
        self.count = count.saturating_add(1);
    }
}

/// The four alignments of a storage, in bytes.
#[derive(Clone, Copy)]
pub struct Alignments {
    mem: usize,
    req: usize,
    zero: usize,
    discard: usize,
    ghost mem_is: { IsAlignment mem },
    ghost req_is: { IsAlignment req },
    ghost zero_is: { IsAlignment zero },
    ghost discard_is: { IsAlignment discard },
}

/// Returns true if `n` is a power of two of at most 2^20.
pub fn is_alignment(n: usize) -> bool
    ensures { IsTrue result → IsAlignment n }
{
    n > 0 && n <= 1_048_576 && 1_048_576 % n == 0
}

impl Alignments {
    /// Returns these alignments, in bytes, or `None` if `is_alignment` is false for one of them.
    pub fn new(mem: usize, req: usize, zero: usize, discard: usize) -> Option<Self> {
        if is_alignment(mem) && is_alignment(req) && is_alignment(zero) && is_alignment(discard) {
            Some(Alignments {
                mem,
                req,
                zero,
                discard,
            })
        } else {
            None
        }
    }
}

/// A storage in memory that has the given alignments and notes each call.
#[derive(Drop)]
pub struct Shaped<'a> {
    inner: MemStorage,
    alignments: Alignments,
    has_zeroes: bool,
    has_discards: bool,
    resolves: bool,
    notes: &'a Cell<Notes>,
    ghost shape: { (mem_state inner).shape ≡ mem_shape 1 },
}

impl<'a> Shaped<'a> {
    /// Creates a storage with these bytes. Without `has_zeroes` or `has_discards` these calls fail with `Fault::Unsupported`.
    pub fn new(
        bytes: Vec<u8>,
        alignments: Alignments,
        has_zeroes: bool,
        has_discards: bool,
        notes: &'a Cell<Notes>,
    ) -> Result<Self, Fault> {
        Ok(Shaped {
            inner: MemStorage::from_bytes(bytes)?,
            alignments,
            has_zeroes,
            has_discards,
            resolves: false,
            notes,
        })
    }

    /// Makes the storage resolve each relative path, to one that begins with `below/`. Otherwise that fails with `Fault::Unsupported`.
    pub fn resolving(mut self) -> Self {
        self.resolves = true;
        self
    }

    /// Creates a storage from words.
    ///
    /// The first four are the alignments of memory, requests, zeroes and discards, in bytes. The fifth is `z` if the storage supports
    /// zeroes, `d` for discards, `zd` for both, and `-` for neither. The others are its bytes, as in `bytes`.
    ///
    /// # Errors
    ///
    /// - [`Trouble::NoCall`] if the words don't have this form.
    /// - [`Trouble::Refused`] if memory runs out.
    pub fn of_words(
        alloc: Global,
        words: &[&str],
        notes: &'a Cell<Notes>,
    ) -> Result<Self, Trouble> {
        let [mem, req, zero, discard, has, rest @ ..] = words else {
            return Err(Trouble::NoCall);
        };
        let given = Alignments::new(size(mem)?, size(req)?, size(zero)?, size(discard)?);
        let Some(alignments) = given else {
            return Err(Trouble::NoCall);
        };
        let (has_zeroes, has_discards) = match *has {
            "z" => (true, false),
            "d" => (false, true),
            "zd" => (true, true),
            "-" => (false, false),
            _ => return Err(Trouble::NoCall),
        };
        Ok(Shaped::new(
            bytes(alloc, rest)?,
            alignments,
            has_zeroes,
            has_discards,
            notes,
        )?)
    }

    fn note(&self, asked: Asked) {
        let mut notes = self.notes.get();
        notes.add(asked);
        self.notes.set(notes);
    }
}

impl<'a> Storage for Shaped<'a> {
    ghost state = { λ s. record (mem_state s.inner) { shape = record (mem_state s.inner).shape { mem_align = s.alignments.mem; req_align = s.alignments.req; zero_align = s.alignments.zero; discard_align = s.alignments.discard } } };

    ghost aligned = { λ s. record { memory = s.alignments.mem_is; requests = s.alignments.req_is; zeroes = s.alignments.zero_is; discards = s.alignments.discard_is } };

    fn mem_align(&self) -> usize {
        self.alignments.mem
    }

    fn req_align(&self) -> usize {
        self.alignments.req
    }

    fn zero_align(&self) -> usize {
        self.alignments.zero
    }

    fn discard_align(&self) -> usize {
        self.alignments.discard
    }

    fn size(&self) -> u64 {
        self.inner.size()
    }

    fn get_filename(&self) -> Option<&str> {
        self.inner.get_filename()
    }

    fn resolve_relative_path(&self, alloc: Global, name: &str) -> Result<String, Fault> {
        self.note(Asked::Resolve);
        if !self.resolves {
            return Err(Fault::Unsupported);
        }
        Ok(format!(in alloc; "below/{name}")?)
    }

    fn pure_read(&mut self, buf: &mut [u8], offset: u64) -> Result<(), Fault> {
        self.note(Asked::Read(offset, buf.len() as u64));
        self.inner.pure_read(buf, offset)
    }

    fn pure_write(&mut self, data: &[u8], offset: u64) -> Result<(), Fault> {
        self.note(Asked::Write(offset, data.len() as u64));
        self.inner.pure_write(data, offset)
    }

    fn pure_write_zeroes(&mut self, offset: u64, length: u64) -> Result<(), Fault> {
        self.note(Asked::Zeroes(offset, length));
        if !self.has_zeroes {
            return Err(Fault::Unsupported);
        }
        self.inner.pure_write_zeroes(offset, length)
    }

    fn pure_write_allocated_zeroes(&mut self, offset: u64, length: u64) -> Result<(), Fault> {
        self.note(Asked::AllocatedZeroes(offset, length));
        if !self.has_zeroes {
            return Err(Fault::Unsupported);
        }
        self.inner.pure_write_allocated_zeroes(offset, length)
    }

    fn pure_discard(&mut self, offset: u64, length: u64) -> Result<(), Fault> {
        self.note(Asked::Discard(offset, length));
        if !self.has_discards {
            return Err(Fault::Unsupported);
        }
        self.inner.pure_discard(offset, length)
    }

    fn resize(&mut self, size: u64, mode: PreallocateMode) -> Result<(), Fault> {
        self.note(Asked::Resize(size, mode));
        self.inner.resize(size, mode)
    }

    fn flush(&mut self) -> Result<(), Fault> {
        self.note(Asked::Flush);
        self.inner.flush()
    }

    fn sync(&mut self) -> Result<(), Fault> {
        self.note(Asked::Sync);
        self.inner.sync()
    }

    fn invalidate_cache(&mut self) -> Result<(), Fault> {
        self.note(Asked::InvalidateCache);
        self.inner.invalidate_cache()
    }
}

/// Returns the noted calls as text, separated by blanks and each with `;` at its end, and clears the notes.
///
/// At most 32 calls are listed. `more;` stands for the others. Without a call the text is `nothing`.
///
/// # Errors
///
/// - `AllocError` if memory runs out. The notes are cleared in this case, too.
pub fn told(alloc: Global, notes: &Cell<Notes>) -> Result<String, AllocError> {
    let found = notes.replace(Notes::none());
    let mut text = String::new(alloc);
    for asked in found.calls.iter().take(found.count) {
        let call = format!(in alloc; "{asked};")?;
        joined(&mut text, call.as_str())?;
    }
    if found.count > MOST_NOTES {
        joined(&mut text, "more;")?;
    }
    if found.count == 0 {
        joined(&mut text, "nothing")?;
    }
    Ok(text)
}
