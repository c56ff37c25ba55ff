// The storage of a script's images, with a log of its changes and a count of its calls.
ghost use Rattle.imago_storage.specs.Log.{log_state, log_aligned};

use cases::{Alignments, Notes, Shaped, Trouble};
use imago_storage::{
    Fault, FuseStorage, LogStorage, PreallocateMode, Request, Storage, larger_alignment,
};
use std::alloc::Global;
use std::cell::Cell;

/// The settings of storages.
#[derive(Clone, Copy)]
pub struct Setting {
    /// The four alignments, in bytes.
    pub alignment: usize,
    /// The number of the call that fails, from 1 on. With 0, no call fails.
    pub fuse: u64,
    /// True if the length can't be set.
    pub is_fixed: bool,
}

/// The cells in which storages record their requests and the number of their calls. Calls that fail are counted, too.
#[derive(Clone, Copy)]
pub struct Noted<'a> {
    /// The requests.
    pub notes: &'a Cell<Notes>,
    /// The number of calls.
    pub calls: &'a Cell<u64>,
}

/// A storage with a log. It counts its calls except `invalidate_cache`, and may refuse resizes.
#[derive(Drop)]
pub struct Kept<'a, S> {
    below: LogStorage<S>,
    calls: &'a Cell<u64>,
    is_fixed: bool,
}

/// A storage in memory with one call that may fail.
pub type Image<'a> = Kept<'a, FuseStorage<Shaped<'a>>>;

impl<'a> Kept<'a, FuseStorage<Shaped<'a>>> {
    /// Creates a storage of these bytes. Recording starts after this call.
    ///
    /// # Errors
    ///
    /// - `Trouble::NoCall` if the alignment isn't valid, or if a fuse is set and the length of `bytes` isn't a multiple of the alignment.
    /// - `Trouble::Refused` if memory runs out.
    pub fn new(
        alloc: Global,
        bytes: Vec<u8>,
        setting: Setting,
        noted: Noted<'a>,
    ) -> Result<Self, Trouble> {
        // A new log first reads all bytes, unless the storage is empty. The fuse counts this read.
        let copied = u64::from(!bytes.is_empty());
        let length = bytes.len();
        let n = setting.alignment;
        let alignments = Alignments::new(n, n, n, n).ok_or(Trouble::NoCall)?;
        let shaped = Shaped::new(bytes, alignments, true, true, noted.notes)?;
        let unit = larger_alignment(shaped.req_align(), shaped.mem_align());
        if setting.fuse > 0 && (unit == 0 || length % unit != 0) {
            return Err(Trouble::NoCall);
        }
        let nth = match setting.fuse {
            0 => 0,
            n => n.saturating_add(copied),
        };
        let below = LogStorage::new(alloc, FuseStorage::new(shaped, nth))?;
        noted.calls.set(0);
        Ok(Kept {
            below,
            calls: noted.calls,
            is_fixed: setting.is_fixed,
        })
    }
}

impl<'a, S: Storage> Kept<'a, S> {
    /// Returns the changes up to now, the oldest first.
    pub fn requests(&self) -> &[Request] {
        self.below.requests()
    }

    /// Returns the bytes of the storage.
    ///
    /// # Errors
    ///
    /// - `Fault::Memory` if memory runs out.
    pub fn bytes(&mut self) -> Result<Vec<u8>, Fault> {
        let last = self.below.requests().len();
        self.below.stop_at(last)
    }

    // Counts a call.
    fn note(&self) {
        self.calls.set(self.calls.get().saturating_add(1));
    }
}

impl<'a, S: Storage> Storage for Kept<'a, S> {
    ghost state = { λ kept. log_state S.state kept.below };

    ghost aligned = { λ kept. log_aligned S.state S.aligned kept.below };

    fn mem_align(&self) -> usize {
        self.below.mem_align()
    }

    fn req_align(&self) -> usize {
        self.below.req_align()
    }

    fn zero_align(&self) -> usize {
        self.below.zero_align()
    }

    fn discard_align(&self) -> usize {
        self.below.discard_align()
    }

    fn size(&self) -> u64 {
        self.below.size()
    }

    fn get_filename(&self) -> Option<&str> {
        self.below.get_filename()
    }

    fn pure_read(&mut self, buf: &mut [u8], offset: u64) -> Result<(), Fault> {
        self.note();
        self.below.pure_read(buf, offset)
    }

    fn pure_write(&mut self, data: &[u8], offset: u64) -> Result<(), Fault> {
        self.note();
        self.below.pure_write(data, offset)
    }

    fn pure_write_zeroes(&mut self, offset: u64, length: u64) -> Result<(), Fault> {
        self.note();
        self.below.pure_write_zeroes(offset, length)
    }

    fn pure_write_allocated_zeroes(&mut self, offset: u64, length: u64) -> Result<(), Fault> {
        self.note();
        self.below.pure_write_allocated_zeroes(offset, length)
    }

    fn pure_discard(&mut self, offset: u64, length: u64) -> Result<(), Fault> {
        self.note();
        self.below.pure_discard(offset, length)
    }

    fn resize(&mut self, size: u64, mode: PreallocateMode) -> Result<(), Fault> {
        self.note();
        if self.is_fixed {
            return Err(Fault::Unsupported);
        }
        self.below.resize(size, mode)
    }

    fn flush(&mut self) -> Result<(), Fault> {
        self.note();
        self.below.flush()
    }

    fn sync(&mut self) -> Result<(), Fault> {
        self.note();
        self.below.sync()
    }

    fn invalidate_cache(&mut self) -> Result<(), Fault> {
        self.below.invalidate_cache()
    }
}
