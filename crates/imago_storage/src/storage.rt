// The `Storage` trait: a growable array of bytes that is read and written by aligned requests. Every other crate reaches files through it.
// Implement it to add a backend; `null.rt` is the shortest example.
ghost use Rattle.std.specs.Prelude.{◌≡◌, ◌≢◌, ℕ, ◌+◌, ◌%◌, ◌<◌, ◌^◌, List, length, slice_index, replicate, max, OnOk, IfErr, IsErrOf, EachIndex};
ghost use Rattle.std.specs.Option.{option_map, option_copied};
ghost use Rattle.imago_storage.specs.State.{StorageState, IsAlignment, IsAligned, IsUnitRange, unit_of};
ghost use Rattle.imago_storage.specs.Calls.{CountsFaults, DiscardRefused, Discarded, UnchangedButFaults, CountsNotFallen, NotResolved, NotWritten, Reads, RequestsOne, ResizeRefused, Resized, Written, ZeroingRefused};

use crate::Fault;
use std::alloc::Global;

/// The preallocation mode of `Storage::resize`. New bytes read as 0 in each mode.
#[derive(Clone, Copy, Debug, PartialEq, Eq)]
pub enum PreallocateMode {
    /// Sets the length, and allocates nothing.
    None,
    /// Makes sure that the new bytes read as 0. It zeroes them if the storage doesn't guarantee that by itself.
    Zero,
    /// Allocates space for the new bytes, and writes none of them.
    Allocate,
    /// Writes zeroes over the new bytes.
    WriteData,
}

/// A growable array of bytes: a file, memory, or a wrapper around another storage.
///
/// Offsets, lengths and alignments are in bytes. The unit of requests is the larger of `req_align` and `mem_align`. The calls that start
/// with `pure_` only take ranges of whole units whose end fits `u64`. `StorageExt` has calls for any range.
///
/// A call that returns `Fault::Storage` has counted a fault of the storage. A call that returns `Fault::Memory` has not.
/// `Fault::Unsupported` changes nothing. Reads take `&mut self` too, because they may count a fault.
///
/// Contracts describe a storage by a `StorageState`: its bytes, its fixed properties, and its counts of faults and of refused changes
/// (writes, discards and resizes that failed with `Fault::Memory` or `Fault::Storage`). If the storage exposes its crash images, the state
/// also has the file that a crash leaves now, and those from before each request.
///
/// This crate implements the trait for `MemStorage`, `MemoryView`, `Null`, `FuseStorage` and `LogStorage`.
pub trait Storage: Drop {
    /// The state that contracts describe the storage by.
    ghost state: { Self → StorageState };

    /// Returns the required alignment of buffers, a power of two of at most 2^20.
    fn mem_align(&self) -> usize
        ensures value { result ≡ (state self.now).shape.mem_align }
        ensures alignment { IsAlignment result };

    /// Returns the required alignment of offsets and lengths, a power of two of at most 2^20.
    fn req_align(&self) -> usize
        ensures value { result ≡ (state self.now).shape.req_align }
        ensures alignment { IsAlignment result };

    /// Returns the required alignment of ranges to zero, a power of two of at most 2^20.
    fn zero_align(&self) -> usize
        ensures value { result ≡ (state self.now).shape.zero_align }
        ensures alignment { IsAlignment result };

    /// Returns the required alignment of ranges to discard, a power of two of at most 2^20.
    fn discard_align(&self) -> usize
        ensures value { result ≡ (state self.now).shape.discard_align }
        ensures alignment { IsAlignment result };

    /// Returns the length in bytes.
    fn size(&self) -> u64
        ensures value { result ≡ length (state self.now).bytes }
        ensures bytes { EachIndex (state self.now).bytes (λ k. slice_index (state self.now).bytes k < 256) };

    /// Returns the name of the file, or `None` if the storage has no name.
    fn get_filename(&self) -> Option<&str>
        ensures { option_copied result ≡ (state self.now).shape.filename };

    /// Resolves a file name. A relative name is resolved against the directory of the storage's own file.
    ///
    /// # Errors
    ///
    /// - `Fault::Unsupported` if the storage has no directory. The default implementation always returns this.
    /// - `Fault::Memory` if memory runs out.
    fn resolve_relative_path(&self, _alloc: Global, _name: &str) -> Result<String, Fault>
        ensures { IfErr result NotResolved }
    {
        Err(Fault::Unsupported)
    }

    /// Fills the buffer with the bytes from `offset` on. Bytes past the end read as 0.
    ///
    /// # Errors
    ///
    /// - `Fault::Memory`, `Fault::Storage`.
    ///
    /// # On error
    ///
    /// The storage is unchanged except for its fault count. The contents of the buffer are unspecified.
    fn pure_read(&mut self, buf: &mut [u8], offset: u64) -> Result<(), Fault>
        requires { IsUnitRange (unit_of (state self.old).shape) offset (length buf.old) }
        ensures read { OnOk result (Reads (state self.old).bytes offset buf.new) }
        ensures unchanged_but_faults { UnchangedButFaults (state self.old) (state self.new) }
        ensures faults { CountsFaults (state self.old).faults (state self.new).faults result }
        ensures counts_not_fallen { CountsNotFallen (state self.old) (state self.new) };

    /// Writes `data` at `offset`. If the range ends past the old end, the length becomes the range's end, and a gap before the range is 0.
    ///
    /// # Errors
    ///
    /// - `Fault::Memory`, `Fault::Storage`. Both count as refused changes.
    ///
    /// # On error
    ///
    /// Each byte of the range is old or new, and no byte outside the range changes.
    fn pure_write(&mut self, data: &[u8], offset: u64) -> Result<(), Fault>
        requires { IsUnitRange (unit_of (state self.old).shape) offset (length «data».now) }
        ensures ok { OnOk result (Written (state self.old) (state self.new) offset «data».now) }
        ensures err { IfErr result (NotWritten (state self.old) (state self.new) offset «data».now) }
        ensures shape { (state self.new).shape ≡ (state self.old).shape }
        ensures counts_not_fallen { CountsNotFallen (state self.old) (state self.new) }
        ensures single_request { RequestsOne (state self.old) (state self.new) result };

    /// Writes zeroes over the range. The storage may deallocate the range. If the range ends past the old end, the length becomes the
    /// range's end.
    ///
    /// # Preconditions
    ///
    /// Offset and length are multiples of `zero_align`, too.
    ///
    /// # Errors
    ///
    /// - `Fault::Unsupported`. Nothing changes.
    /// - `Fault::Memory`, `Fault::Storage`. Both count as refused changes. Each byte of the range is then old or 0.
    fn pure_write_zeroes(&mut self, offset: u64, length: u64) -> Result<(), Fault>
        requires whole { IsUnitRange (unit_of (state self.old).shape) offset length }
        requires zeroes { IsUnitRange (state self.old).shape.zero_align offset length }
        ensures ok { OnOk result (Written (state self.old) (state self.new) offset (replicate length 0)) }
        ensures err { IfErr result (ZeroingRefused (state self.old) (state self.new) offset length) }
        ensures shape { (state self.new).shape ≡ (state self.old).shape }
        ensures counts_not_fallen { CountsNotFallen (state self.old) (state self.new) }
        ensures single_request { RequestsOne (state self.old) (state self.new) result };

    /// Writes zeroes over the range, and keeps the range allocated. If the range ends past the old end, the length becomes the range's end.
    ///
    /// # Preconditions
    ///
    /// Offset and length are multiples of `zero_align`, too.
    ///
    /// # Errors
    ///
    /// - `Fault::Unsupported`. Nothing changes.
    /// - `Fault::Memory`, `Fault::Storage`. Both count as refused changes. Each byte of the range is then old or 0.
    fn pure_write_allocated_zeroes(&mut self, offset: u64, length: u64) -> Result<(), Fault>
        requires whole { IsUnitRange (unit_of (state self.old).shape) offset length }
        requires zeroes { IsUnitRange (state self.old).shape.zero_align offset length }
        ensures ok { OnOk result (Written (state self.old) (state self.new) offset (replicate length 0)) }
        ensures err { IfErr result (ZeroingRefused (state self.old) (state self.new) offset length) }
        ensures shape { (state self.new).shape ≡ (state self.old).shape }
        ensures counts_not_fallen { CountsNotFallen (state self.old) (state self.new) }
        ensures single_request { RequestsOne (state self.old) (state self.new) result };

    /// Discards the range: its bytes are unspecified afterwards. The length doesn't change.
    ///
    /// # Preconditions
    ///
    /// Offset and length are multiples of `discard_align`, too.
    ///
    /// # Errors
    ///
    /// - `Fault::Unsupported`. Nothing changes.
    /// - `Fault::Memory`, `Fault::Storage`. Both count as refused changes.
    ///
    /// # On error
    ///
    /// After `Fault::Memory` or `Fault::Storage`, the bytes of the range are unspecified, and no byte outside the range changes.
    fn pure_discard(&mut self, offset: u64, length: u64) -> Result<(), Fault>
        requires whole { IsUnitRange (unit_of (state self.old).shape) offset length }
        requires discards { IsUnitRange (state self.old).shape.discard_align offset length }
        ensures ok { OnOk result (Discarded (state self.old) (state self.new) offset length) }
        ensures err { IfErr result (DiscardRefused (state self.old) (state self.new) offset length) }
        ensures shape { (state self.new).shape ≡ (state self.old).shape }
        ensures counts_not_fallen { CountsNotFallen (state self.old) (state self.new) }
        ensures single_request { RequestsOne (state self.old) (state self.new) result };

    /// Sets the length to `size` bytes. Bytes below both lengths stay, and new bytes are 0.
    ///
    /// # Errors
    ///
    /// - `Fault::Unsupported`, also if the storage doesn't have the mode.
    /// - `Fault::Memory`, `Fault::Storage`. Both count as refused changes.
    ///
    /// # On error
    ///
    /// No byte changes.
    fn resize(&mut self, size: u64, mode: PreallocateMode) -> Result<(), Fault>
        ensures ok { OnOk result (Resized (state self.old) (state self.new) size) }
        ensures err { IfErr result (ResizeRefused (state self.old) (state self.new)) }
        ensures shape { (state self.new).shape ≡ (state self.old).shape }
        ensures counts_not_fallen { CountsNotFallen (state self.old) (state self.new) }
        ensures single_request { RequestsOne (state self.old) (state self.new) result };

    /// Passes on data that the process has buffered, for example to the host's page cache. The data then survives the end of the process.
    ///
    /// # Errors
    ///
    /// - `Fault::Memory`, `Fault::Storage`.
    ///
    /// No byte changes, whether the call succeeds or fails.
    fn flush(&mut self) -> Result<(), Fault>
        ensures unchanged_but_faults { UnchangedButFaults (state self.old) (state self.new) }
        ensures faults { CountsFaults (state self.old).faults (state self.new).faults result }
        ensures counts_not_fallen { CountsNotFallen (state self.old) (state self.new) };

    /// Makes all written data durable: it survives a crash of the machine.
    ///
    /// # Errors
    ///
    /// - `Fault::Memory`, `Fault::Storage`.
    ///
    /// No byte changes, whether the call succeeds or fails.
    fn sync(&mut self) -> Result<(), Fault>
        ensures unchanged_but_faults { UnchangedButFaults (state self.old) (state self.new) }
        ensures faults { CountsFaults (state self.old).faults (state self.new).faults result }
        ensures counts_not_fallen { CountsNotFallen (state self.old) (state self.new) };

    /// Drops cached data, so that later reads see what others wrote to the file.
    ///
    /// # Errors
    ///
    /// - `Fault::Memory`, `Fault::Storage`.
    ///
    /// No byte changes, whether the call succeeds or fails.
    fn invalidate_cache(&mut self) -> Result<(), Fault>
        ensures unchanged_but_faults { UnchangedButFaults (state self.old) (state self.new) }
        ensures faults { CountsFaults (state self.old).faults (state self.new).faults result }
        ensures counts_not_fallen { CountsNotFallen (state self.old) (state self.new) };

    /// All alignments are powers of two of at most 2^20.
    ghost aligned: { (s : Self) → IsAligned (state s).shape };
}
