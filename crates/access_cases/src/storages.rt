// The storages of raw images: a `cases::Shaped`, wrapped so that it may refuse resizes, and wrapped in a fuse, which makes one call fail.
use cases::{Notes, Shaped, Trouble, number};
use imago_storage::{Fault, FuseStorage, PreallocateMode, Storage};
use std::alloc::Global;
use std::cell::Cell;

/// The mode of the last resize, since it was last printed.
pub type Mode = Option<PreallocateMode>;

/// A storage that records the mode of its last resize, and may refuse every resize.
#[derive(Drop)]
pub struct Resizing<'a, S> {
    inner: S,
    is_fixed: bool,
    mode: &'a Cell<Mode>,
}

impl<'a, S: Storage> Storage for Resizing<'a, S> {
    ghost state = { λ r. S.state r.inner };

    ghost aligned = { λ r. S.aligned r.inner };

    fn mem_align(&self) -> usize {
        self.inner.mem_align()
    }

    fn req_align(&self) -> usize {
        self.inner.req_align()
    }

    fn zero_align(&self) -> usize {
        self.inner.zero_align()
    }

    fn discard_align(&self) -> usize {
        self.inner.discard_align()
    }

    fn size(&self) -> u64 {
        self.inner.size()
    }

    fn get_filename(&self) -> Option<&str> {
        self.inner.get_filename()
    }

    fn pure_read(&mut self, buf: &mut [u8], offset: u64) -> Result<(), Fault> {
        self.inner.pure_read(buf, offset)
    }

    fn pure_write(&mut self, data: &[u8], offset: u64) -> Result<(), Fault> {
        self.inner.pure_write(data, offset)
    }

    fn pure_write_zeroes(&mut self, offset: u64, length: u64) -> Result<(), Fault> {
        self.inner.pure_write_zeroes(offset, length)
    }

    fn pure_write_allocated_zeroes(&mut self, offset: u64, length: u64) -> Result<(), Fault> {
        self.inner.pure_write_allocated_zeroes(offset, length)
    }

    fn pure_discard(&mut self, offset: u64, length: u64) -> Result<(), Fault> {
        self.inner.pure_discard(offset, length)
    }

    fn resize(&mut self, size: u64, mode: PreallocateMode) -> Result<(), Fault> {
        self.mode.set(Some(mode));
        if self.is_fixed {
            return Err(Fault::Unsupported);
        }
        self.inner.resize(size, mode)
    }

    fn flush(&mut self) -> Result<(), Fault> {
        self.inner.flush()
    }

    fn sync(&mut self) -> Result<(), Fault> {
        self.inner.sync()
    }

    fn invalidate_cache(&mut self) -> Result<(), Fault> {
        self.inner.invalidate_cache()
    }
}

/// The storage of each raw image.
pub type Base<'a> = FuseStorage<Resizing<'a, Shaped<'a>>>;

/// The records that the storages of a script keep.
#[derive(Clone, Copy)]
pub struct Notebook<'a> {
    /// The requests of the storages.
    pub asked: &'a Cell<Notes>,
    /// The mode of the last resize.
    pub mode: &'a Cell<Mode>,
}

// Builds a storage from its words and wraps it in a fuse.
fn fused<'a>(
    alloc: Global,
    n: u64,
    is_fixed: bool,
    words: &[&str],
    notes: Notebook<'a>,
) -> Result<Base<'a>, Trouble> {
    let resizing = Resizing {
        inner: Shaped::of_words(alloc, words, notes.asked)?,
        is_fixed,
        mode: notes.mode,
    };
    Ok(FuseStorage::new(resizing, n))
}

/// Builds the storage that `words` describe.
///
/// `fixed` makes a storage that refuses resizes. `fuse N` makes one whose Nth call fails. Then follow the alignments, what the storage
/// supports, and its bytes.
pub fn storage_of<'a>(
    alloc: Global,
    words: &[&str],
    notes: Notebook<'a>,
) -> Result<Base<'a>, Trouble> {
    match words {
        ["fixed", rest @ ..] => fused(alloc, 0, true, rest, notes),
        ["fuse", n, rest @ ..] => fused(alloc, number(n)?, false, rest, notes),
        _ => fused(alloc, 0, false, words, notes),
    }
}
