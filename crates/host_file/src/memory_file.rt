// `MemoryFile`: a file in memory, for tests.
ghost use Rattle.std.specs.Prelude.{◌≡◌, ℕ, ◌<◌, slice_index, IfOk, IsTrue};

use crate::HostFile;
use crate::edits::{copy_out, is_within, resize, splice, splice_zeroes};
use crate::record::Record;
use std::alloc::{AllocError, Global};
use std::io;

/// A file that keeps its bytes in memory, for tests.
///
/// It answers truthfully. A call fails only if memory runs out, if a read ends past the end of the file, or if `fail_call` said so.
#[derive(Drop)]
pub struct MemoryFile {
    bytes: Vec<u8>,
    // The number of calls up to the one that fails, or 0 if none fails.
    calls_left: u64,
    // The bytes before each change, as writes. Only clauses read them.
    calls: Record,
    ghost are_bytes: { (k : ℕ) → slice_index bytes.items k < 256 },
}

#[tactic(auto, unfolding(crate::specs::MemoryFile::memory_state))]
impl MemoryFile {
    ghost use Rattle.host_file.specs.OsFile.{IsFresh};
    ghost use Rattle.host_file.specs.MemoryFile.{memory_state};

    /// Creates a file with these bytes.
    ///
    /// # Errors
    ///
    /// `AllocError` if memory runs out.
    pub fn new(alloc: Global, bytes: &[u8]) -> Result<MemoryFile, AllocError>
        ensures { IfOk result (λ file. IsFresh bytes.now (memory_state file)) }
    {
        Ok(MemoryFile {
            bytes: bytes.to_vec(alloc)?,
            calls_left: 0,
            calls: Record::new(),
        })
    }

    /// Returns the bytes.
    pub fn bytes(&self) -> &[u8]
        ensures held { result.now ≡ (memory_state self.now).held }
        ensures truthful { IsTrue (memory_state self.now).truthful }
    {
        self.bytes.as_slice()
    }

    /// Lets the `n`th call from now on fail, counted from 1, like a call on a broken or full disk. If `n` is 0, no call fails.
    ///
    /// Each call of a method of `HostFile` is counted. After the call that failed, no call fails.
    pub fn fail_call(&mut self, n: u64)
        ensures { memory_state self.new ≡ memory_state self.old }
    {
        self.calls_left = n;
    }

    // Counts a call, and returns true if it is the one that fails.
    fn fails_this_call(&mut self) -> bool
        ensures bytes { self.new.bytes ≡ self.old.bytes }
        ensures calls { self.new.calls ≡ self.old.calls }
    {
        let fails = self.calls_left == 1;
        self.calls_left = self.calls_left.saturating_sub(1);
        fails
    }
}

#[tactic(auto, unfolding(crate::specs::MemoryFile::memory_state))]
impl HostFile for MemoryFile {
    ghost use Rattle.host_file.specs.MemoryFile.{memory_state, memory_are_bytes};

    ghost state = { memory_state };

    ghost are_bytes = { memory_are_bytes };

    fn size(&mut self) -> io::Result<u64> {
        if self.fails_this_call() {
            return Err(broken());
        }
        Ok(self.bytes.len() as u64)
    }

    fn read_at(&mut self, offset: u64, buf: &mut [u8]) -> io::Result<()> {
        if self.fails_this_call() {
            return Err(broken());
        }
        if !is_within(&self.bytes, offset as usize, buf.len()) {
            return Err(io::ErrorKind::UnexpectedEof.into());
        }
        copy_out(&self.bytes, offset as usize, buf);
        Ok(())
    }

    fn write_at(&mut self, offset: u64, data: &[u8]) -> io::Result<()> {
        if self.fails_this_call() {
            return Err(full());
        }
        let end = (offset as usize).checked_add(data.len()).ok_or(AllocError)?;
        self.bytes.reserve(end.saturating_sub(self.bytes.len()))?;
        self.calls.written(0, &self.bytes);
        splice(&mut self.bytes, offset as usize, data);
        Ok(())
    }

    fn zero_at(&mut self, offset: u64, length: u64) -> io::Result<()> {
        if self.fails_this_call() {
            return Err(full());
        }
        let end = (offset + length) as usize;
        self.bytes.reserve(end.saturating_sub(self.bytes.len()))?;
        self.calls.written(0, &self.bytes);
        splice_zeroes(&mut self.bytes, offset as usize, length as usize);
        Ok(())
    }

    fn set_len(&mut self, size: u64) -> io::Result<()> {
        if self.fails_this_call() {
            return Err(full());
        }
        let size = size as usize;
        self.bytes.reserve(size.saturating_sub(self.bytes.len()))?;
        self.calls.written(0, &self.bytes);
        resize(&mut self.bytes, size);
        Ok(())
    }

    fn sync(&mut self) -> io::Result<()> {
        if self.fails_this_call() {
            return Err(broken());
        }
        Ok(())
    }
}

// The error of a disk that is broken.
fn broken() -> io::Error {
    io::ErrorKind::Other.into()
}

// The error of a disk that is full.
fn full() -> io::Error {
    io::ErrorKind::StorageFull.into()
}
