// `MemStorage`: a storage that keeps its bytes in a vector in memory.
ghost use Rattle.std.specs.Prelude.{◌≡◌, [], length, replicate, IsOk, OnOk, IfOk, IfErr, IsOkUnless};
ghost use Rattle.imago_storage.specs.State.{IsAlignment, IsUnitRange, unit_of};
ghost use Rattle.imago_storage.specs.Calls.{CountsFaults, DiscardRefused, Discarded, UnchangedButFaults, CountsNotFallen, NotWritten, Reads, RequestsOne, ResizeRefused, Resized, Written, ZeroingRefused};

use crate::edits::{clear, copy_out, splice, splice_zeroes};
use crate::{Fault, PreallocateMode, Storage};
use std::alloc::Global;

/// A storage that keeps its bytes in memory.
///
/// A request only fails with `Fault::Memory`, if a change needs more memory than there is. Each byte of the change's range is then old or
/// new. No fault is counted, so no call returns `Fault::Storage`. A discard sets the bytes of its range to 0. The storage has no file name,
/// so `resolve_relative_path` returns `Fault::Unsupported`.
#[derive(Drop)]
pub struct MemStorage {
    bytes: Vec<u8>,
    align: usize,
    refusals: u64,
    ghost aligned: { IsAlignment align },
}

#[tactic(auto, unfolding(crate::specs::MemStorage::mem_state))]
impl MemStorage {
    ghost use Rattle.imago_storage.specs.MemStorage.{memory, mem_shape, mem_state};

    /// Creates an empty storage with alignment 1. It allocates no memory.
    pub fn new(alloc: Global) -> Self
        ensures { mem_state result ≡ memory [] 1 0 }
    {
        MemStorage {
            bytes: Vec::new(alloc),
            align: 1,
            refusals: 0,
        }
    }

    /// Creates a storage with these bytes and alignment 1.
    ///
    /// # Errors
    ///
    /// - `Fault::Memory`. The bytes are dropped.
    pub fn from_bytes(bytes: Vec<u8>) -> Result<Self, Fault>
        ensures ok { IfOk result (λ m. mem_state m ≡ memory bytes.items 1 0) }
        ensures err { IsOkUnless result Fault.Memory }
    {
        let mut storage = MemStorage::new(*bytes.allocator());
        storage.bytes = bytes;
        Ok(storage)
    }

    /// Returns the storage with all four alignments (of buffers, requests, zeroing and discards) set to `align` bytes.
    ///
    /// # Preconditions
    ///
    /// `align` is a power of two, and at most 2^20.
    pub fn with_align(self, align: usize) -> Self
        requires { IsAlignment align }
        ensures { mem_state result ≡ record (mem_state self) { shape = mem_shape align } }
    {
        let MemStorage {
            bytes,
            align: _,
            refusals,
        } = self;
        MemStorage {
            bytes,
            align,
            refusals,
        }
    }

    /// Returns a copy of the bytes.
    ///
    /// # Errors
    ///
    /// - `Fault::Memory` if memory runs out.
    pub fn bytes(&self) -> Result<Vec<u8>, Fault>
        ensures ok { IfOk result (λ copy. copy.items ≡ (mem_state self.now).bytes) }
        ensures err { IsOkUnless result Fault.Memory }
        // The storage never fails. So no call's error clause allows `Fault::Storage`.
        ensures faults { (mem_state self.now).faults ≡ 0 }
    {
        let mut copy = Vec::new(*self.bytes.allocator());
        copy.extend_from_slice(&self.bytes)?;
        Ok(copy)
    }

    /// Borrows the current bytes.
    pub fn as_bytes(&self) -> &[u8]
        ensures { result.now ≡ (mem_state self.now).bytes }
    {
        self.bytes.as_slice()
    }

    /// Consumes the storage and returns its bytes.
    ///
    /// # Errors
    ///
    /// - `Fault::Memory`. The bytes are dropped.
    pub fn into_bytes(self) -> Result<Vec<u8>, Fault>
        ensures ok { IfOk result (λ bytes. bytes.items ≡ (mem_state self).bytes) }
        ensures err { IsOkUnless result Fault.Memory }
    {
        let MemStorage { bytes, .. } = self;
        Ok(bytes)
    }
}

#[tactic(auto, unfolding(crate::specs::MemStorage::mem_state))]
impl Storage for MemStorage {
    ghost use Rattle.imago_storage.specs.MemStorage.{mem_state, mem_aligned, Zeroed};

    ghost state = { mem_state };

    ghost aligned = { mem_aligned };

    fn mem_align(&self) -> usize {
        self.align
    }

    fn req_align(&self) -> usize {
        self.align
    }

    fn zero_align(&self) -> usize {
        self.align
    }

    fn discard_align(&self) -> usize {
        self.align
    }

    fn size(&self) -> u64 {
        let bytes: &[u8] = &self.bytes;
        bytes.len() as u64
    }

    fn get_filename(&self) -> Option<&str> {
        None
    }

    fn pure_read(&mut self, buf: &mut [u8], offset: u64) -> Result<(), Fault>
        requires { IsUnitRange (unit_of (mem_state self.old).shape) offset (length buf.old) }
        ensures read { OnOk result (Reads (mem_state self.old).bytes offset buf.new) }
        ensures unchanged_but_faults { UnchangedButFaults (mem_state self.old) (mem_state self.new) }
        ensures faults { CountsFaults (mem_state self.old).faults (mem_state self.new).faults result }
        ensures counts_not_fallen { CountsNotFallen (mem_state self.old) (mem_state self.new) }
        ensures always { IsOk result }
    {
        copy_out(&self.bytes, offset as usize, buf);
        Ok(())
    }

    fn pure_write(&mut self, data: &[u8], offset: u64) -> Result<(), Fault>
        requires { IsUnitRange (unit_of (mem_state self.old).shape) offset (length «data».now) }
        ensures ok { OnOk result (Written (mem_state self.old) (mem_state self.new) offset «data».now) }
        ensures err { IfErr result (NotWritten (mem_state self.old) (mem_state self.new) offset «data».now) }
        ensures shape { (mem_state self.new).shape ≡ (mem_state self.old).shape }
        ensures counts_not_fallen { CountsNotFallen (mem_state self.old) (mem_state self.new) }
        ensures single_request { RequestsOne (mem_state self.old) (mem_state self.new) result }
        ensures memory { IsOkUnless result Fault.Memory }
    {
        match splice(&mut self.bytes, offset as usize, data) {
            Ok(()) => Ok(()),
            Err(_) => {
                self.refusals = self.refusals.saturating_add(1);
                Err(Fault::Memory)
            }
        }
    }

    fn pure_write_zeroes(&mut self, offset: u64, length: u64) -> Result<(), Fault>
        requires whole { IsUnitRange (unit_of (mem_state self.old).shape) offset length }
        requires zeroes { IsUnitRange (mem_state self.old).shape.zero_align offset length }
        ensures ok { OnOk result (Written (mem_state self.old) (mem_state self.new) offset (replicate length 0)) }
        ensures err { IfErr result (ZeroingRefused (mem_state self.old) (mem_state self.new) offset length) }
        ensures shape { (mem_state self.new).shape ≡ (mem_state self.old).shape }
        ensures counts_not_fallen { CountsNotFallen (mem_state self.old) (mem_state self.new) }
        ensures single_request { RequestsOne (mem_state self.old) (mem_state self.new) result }
        ensures memory { IsOkUnless result Fault.Memory }
    {
        match splice_zeroes(&mut self.bytes, offset as usize, length as usize) {
            Ok(()) => Ok(()),
            Err(_) => {
                self.refusals = self.refusals.saturating_add(1);
                Err(Fault::Memory)
            }
        }
    }

    fn pure_write_allocated_zeroes(&mut self, offset: u64, length: u64) -> Result<(), Fault>
        requires whole { IsUnitRange (unit_of (mem_state self.old).shape) offset length }
        requires zeroes { IsUnitRange (mem_state self.old).shape.zero_align offset length }
        ensures ok { OnOk result (Written (mem_state self.old) (mem_state self.new) offset (replicate length 0)) }
        ensures err { IfErr result (ZeroingRefused (mem_state self.old) (mem_state self.new) offset length) }
        ensures shape { (mem_state self.new).shape ≡ (mem_state self.old).shape }
        ensures counts_not_fallen { CountsNotFallen (mem_state self.old) (mem_state self.new) }
        ensures single_request { RequestsOne (mem_state self.old) (mem_state self.new) result }
        ensures memory { IsOkUnless result Fault.Memory }
    {
        self.pure_write_zeroes(offset, length)
    }

    fn pure_discard(&mut self, offset: u64, length: u64) -> Result<(), Fault>
        requires whole { IsUnitRange (unit_of (mem_state self.old).shape) offset length }
        requires discards { IsUnitRange (mem_state self.old).shape.discard_align offset length }
        ensures ok { OnOk result (Discarded (mem_state self.old) (mem_state self.new) offset length) }
        ensures err { IfErr result (DiscardRefused (mem_state self.old) (mem_state self.new) offset length) }
        ensures shape { (mem_state self.new).shape ≡ (mem_state self.old).shape }
        ensures counts_not_fallen { CountsNotFallen (mem_state self.old) (mem_state self.new) }
        ensures single_request { RequestsOne (mem_state self.old) (mem_state self.new) result }
        ensures zeroes { OnOk result (Zeroed (mem_state self.new).bytes offset length) }
        ensures always { IsOk result }
    {
        clear(&mut self.bytes, offset as usize, length as usize);
        Ok(())
    }

    fn resize(&mut self, size: u64, _mode: PreallocateMode) -> Result<(), Fault>
        ensures ok { OnOk result (Resized (mem_state self.old) (mem_state self.new) size) }
        ensures err { IfErr result (ResizeRefused (mem_state self.old) (mem_state self.new)) }
        ensures shape { (mem_state self.new).shape ≡ (mem_state self.old).shape }
        ensures counts_not_fallen { CountsNotFallen (mem_state self.old) (mem_state self.new) }
        ensures single_request { RequestsOne (mem_state self.old) (mem_state self.new) result }
        ensures memory { IsOkUnless result Fault.Memory }
    {
        match self.bytes.resize(size as usize, 0) {
            Ok(()) => Ok(()),
            Err(_) => {
                self.refusals = self.refusals.saturating_add(1);
                Err(Fault::Memory)
            }
        }
    }

    fn flush(&mut self) -> Result<(), Fault>
        ensures unchanged_but_faults { UnchangedButFaults (mem_state self.old) (mem_state self.new) }
        ensures faults { CountsFaults (mem_state self.old).faults (mem_state self.new).faults result }
        ensures counts_not_fallen { CountsNotFallen (mem_state self.old) (mem_state self.new) }
        ensures always { IsOk result }
    {
        Ok(())
    }

    fn sync(&mut self) -> Result<(), Fault>
        ensures unchanged_but_faults { UnchangedButFaults (mem_state self.old) (mem_state self.new) }
        ensures faults { CountsFaults (mem_state self.old).faults (mem_state self.new).faults result }
        ensures counts_not_fallen { CountsNotFallen (mem_state self.old) (mem_state self.new) }
        ensures always { IsOk result }
    {
        Ok(())
    }

    fn invalidate_cache(&mut self) -> Result<(), Fault>
        ensures unchanged_but_faults { UnchangedButFaults (mem_state self.old) (mem_state self.new) }
        ensures faults { CountsFaults (mem_state self.old).faults (mem_state self.new).faults result }
        ensures counts_not_fallen { CountsNotFallen (mem_state self.old) (mem_state self.new) }
        ensures always { IsOk result }
    {
        Ok(())
    }
}
