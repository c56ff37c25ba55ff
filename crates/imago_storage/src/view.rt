// `MemoryView`: a read-only storage over borrowed bytes.
ghost use Rattle.std.specs.Prelude.{◌≡◌, length, replicate, IsOk, OnOk, IfErr, IsErrOf};
ghost use Rattle.imago_storage.specs.State.{IsUnitRange, unit_of};
ghost use Rattle.imago_storage.specs.Calls.{CountsFaults, DiscardRefused, Discarded, UnchangedButFaults, CountsNotFallen, NotWritten, Reads, RequestsOne, ResizeRefused, Resized, Written, ZeroingRefused};

use crate::edits::{byte_count, copy_out};
use crate::{Fault, PreallocateMode, Storage};

/// Borrowed bytes as a read-only storage. All its alignments are 1.
///
/// A read never fails, and copies only the bytes that it returns. A write fails with `Fault::Memory`. Zeroing, discarding and resizing fail
/// with `Fault::Unsupported`. No call changes the bytes.
#[derive(Drop)]
pub struct MemoryView<'a> {
    bytes: &'a [u8],
    refusals: u64,
}

#[tactic(auto, unfolding(crate::specs::View::view_state))]
impl<'a> MemoryView<'a> {
    ghost use Rattle.imago_storage.specs.MemStorage.{memory};
    ghost use Rattle.imago_storage.specs.View.{view_state};

    /// Creates a storage over `bytes`.
    pub fn new(bytes: &'a [u8]) -> Self
        ensures { view_state result ≡ memory «bytes».now 1 0 }
    {
        MemoryView { bytes, refusals: 0 }
    }
}

#[tactic(auto, unfolding(crate::specs::View::view_state))]
impl Storage for MemoryView<'_> {
    ghost use Rattle.imago_storage.specs.View.{view_state, view_aligned};

    ghost state = { view_state };

    ghost aligned = { view_aligned };

    fn mem_align(&self) -> usize {
        1
    }

    fn req_align(&self) -> usize {
        1
    }

    fn zero_align(&self) -> usize {
        1
    }

    fn discard_align(&self) -> usize {
        1
    }

    fn size(&self) -> u64 {
        byte_count(self.bytes)
    }

    fn get_filename(&self) -> Option<&str> {
        None
    }

    fn pure_read(&mut self, buf: &mut [u8], offset: u64) -> Result<(), Fault>
        requires { IsUnitRange (unit_of (view_state self.old).shape) offset (length buf.old) }
        ensures read { OnOk result (Reads (view_state self.old).bytes offset buf.new) }
        ensures unchanged_but_faults { UnchangedButFaults (view_state self.old) (view_state self.new) }
        ensures faults { CountsFaults (view_state self.old).faults (view_state self.new).faults result }
        ensures counts_not_fallen { CountsNotFallen (view_state self.old) (view_state self.new) }
        ensures always { IsOk result }
    {
        copy_out(self.bytes, offset as usize, buf);
        Ok(())
    }

    fn pure_write(&mut self, data: &[u8], offset: u64) -> Result<(), Fault>
        requires { IsUnitRange (unit_of (view_state self.old).shape) offset (length «data».now) }
        ensures ok { OnOk result (Written (view_state self.old) (view_state self.new) offset «data».now) }
        ensures err { IfErr result (NotWritten (view_state self.old) (view_state self.new) offset «data».now) }
        ensures shape { (view_state self.new).shape ≡ (view_state self.old).shape }
        ensures counts_not_fallen { CountsNotFallen (view_state self.old) (view_state self.new) }
        ensures single_request { RequestsOne (view_state self.old) (view_state self.new) result }
        ensures never { IsErrOf result Fault.Memory }
        ensures bytes { (view_state self.new).bytes ≡ (view_state self.old).bytes }
    {
        self.refusals = self.refusals.saturating_add(1);
        Err(Fault::Memory)
    }

    fn pure_write_zeroes(&mut self, offset: u64, length: u64) -> Result<(), Fault>
        requires whole { IsUnitRange (unit_of (view_state self.old).shape) offset length }
        requires zeroes { IsUnitRange (view_state self.old).shape.zero_align offset length }
        ensures ok { OnOk result (Written (view_state self.old) (view_state self.new) offset (replicate length 0)) }
        ensures err { IfErr result (ZeroingRefused (view_state self.old) (view_state self.new) offset length) }
        ensures shape { (view_state self.new).shape ≡ (view_state self.old).shape }
        ensures counts_not_fallen { CountsNotFallen (view_state self.old) (view_state self.new) }
        ensures single_request { RequestsOne (view_state self.old) (view_state self.new) result }
        ensures never { IsErrOf result Fault.Unsupported }
    {
        Err(Fault::Unsupported)
    }

    fn pure_write_allocated_zeroes(&mut self, offset: u64, length: u64) -> Result<(), Fault>
        requires whole { IsUnitRange (unit_of (view_state self.old).shape) offset length }
        requires zeroes { IsUnitRange (view_state self.old).shape.zero_align offset length }
        ensures ok { OnOk result (Written (view_state self.old) (view_state self.new) offset (replicate length 0)) }
        ensures err { IfErr result (ZeroingRefused (view_state self.old) (view_state self.new) offset length) }
        ensures shape { (view_state self.new).shape ≡ (view_state self.old).shape }
        ensures counts_not_fallen { CountsNotFallen (view_state self.old) (view_state self.new) }
        ensures single_request { RequestsOne (view_state self.old) (view_state self.new) result }
        ensures never { IsErrOf result Fault.Unsupported }
    {
        Err(Fault::Unsupported)
    }

    fn pure_discard(&mut self, offset: u64, length: u64) -> Result<(), Fault>
        requires whole { IsUnitRange (unit_of (view_state self.old).shape) offset length }
        requires discards { IsUnitRange (view_state self.old).shape.discard_align offset length }
        ensures ok { OnOk result (Discarded (view_state self.old) (view_state self.new) offset length) }
        ensures err { IfErr result (DiscardRefused (view_state self.old) (view_state self.new) offset length) }
        ensures shape { (view_state self.new).shape ≡ (view_state self.old).shape }
        ensures counts_not_fallen { CountsNotFallen (view_state self.old) (view_state self.new) }
        ensures single_request { RequestsOne (view_state self.old) (view_state self.new) result }
        ensures never { IsErrOf result Fault.Unsupported }
    {
        Err(Fault::Unsupported)
    }

    fn resize(&mut self, size: u64, _mode: PreallocateMode) -> Result<(), Fault>
        ensures ok { OnOk result (Resized (view_state self.old) (view_state self.new) size) }
        ensures err { IfErr result (ResizeRefused (view_state self.old) (view_state self.new)) }
        ensures shape { (view_state self.new).shape ≡ (view_state self.old).shape }
        ensures counts_not_fallen { CountsNotFallen (view_state self.old) (view_state self.new) }
        ensures single_request { RequestsOne (view_state self.old) (view_state self.new) result }
        ensures never { IsErrOf result Fault.Unsupported }
    {
        Err(Fault::Unsupported)
    }

    fn flush(&mut self) -> Result<(), Fault>
        ensures unchanged_but_faults { UnchangedButFaults (view_state self.old) (view_state self.new) }
        ensures faults { CountsFaults (view_state self.old).faults (view_state self.new).faults result }
        ensures counts_not_fallen { CountsNotFallen (view_state self.old) (view_state self.new) }
        ensures always { IsOk result }
    {
        Ok(())
    }

    fn sync(&mut self) -> Result<(), Fault>
        ensures unchanged_but_faults { UnchangedButFaults (view_state self.old) (view_state self.new) }
        ensures faults { CountsFaults (view_state self.old).faults (view_state self.new).faults result }
        ensures counts_not_fallen { CountsNotFallen (view_state self.old) (view_state self.new) }
        ensures always { IsOk result }
    {
        Ok(())
    }

    fn invalidate_cache(&mut self) -> Result<(), Fault>
        ensures unchanged_but_faults { UnchangedButFaults (view_state self.old) (view_state self.new) }
        ensures faults { CountsFaults (view_state self.old).faults (view_state self.new).faults result }
        ensures counts_not_fallen { CountsNotFallen (view_state self.old) (view_state self.new) }
        ensures always { IsOk result }
    {
        Ok(())
    }
}
