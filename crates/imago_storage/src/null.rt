// `Null`: a storage that has a length and keeps no data.
ghost use Rattle.std.specs.Prelude.{◌≡◌, length, replicate, IsOk, OnOk, IfErr};
ghost use Rattle.imago_storage.specs.State.{IsUnitRange, unit_of};
ghost use Rattle.imago_storage.specs.Calls.{CountsFaults, DiscardRefused, Discarded, UnchangedButFaults, CountsNotFallen, NotWritten, Reads, RequestsOne, ResizeRefused, Resized, Written, ZeroingRefused};

use crate::{Fault, PreallocateMode, Storage};

/// A storage that has a length and no data: it reads as zeroes and drops what is written.
///
/// Writing and zeroing may extend the length, and never lower it. No request fails. All alignments are 1. The storage has no name, so
/// `resolve_relative_path` returns `Fault::Unsupported`.
#[derive(Drop)]
pub struct Null {
    size: u64,
}

#[tactic(auto, unfolding(crate::specs::Null::null_state))]
impl Null {
    ghost use Rattle.imago_storage.specs.Null.{zeroes, null_state};

    /// Creates a storage of `size` bytes.
    pub fn new(size: u64) -> Self
        ensures { null_state result ≡ zeroes size }
    {
        Null { size }
    }
}

#[tactic(auto, using(crate::proofs::Zeroes::zero_at, crate::proofs::Zeroes::length_of_zeroes), unfolding(crate::specs::Null::null_state))]
impl Storage for Null {
    ghost use Rattle.imago_storage.specs.Null.{null_state, null_aligned};

    ghost state = { null_state };

    ghost aligned = { null_aligned };

    fn mem_align(&self) -> usize {
        1
    }

    fn req_align(&self) -> usize {
        1
    }

    fn zero_align(&self) -> usize {
        1
    }

    fn discard_align(&self) -> usize {
        1
    }

    fn size(&self) -> u64 {
        self.size
    }

    fn get_filename(&self) -> Option<&str> {
        None
    }

    fn pure_read(&mut self, buf: &mut [u8], offset: u64) -> Result<(), Fault>
        requires { IsUnitRange (unit_of (null_state self.old).shape) offset (length buf.old) }
        ensures read { OnOk result (Reads (null_state self.old).bytes offset buf.new) }
        ensures unchanged_but_faults { UnchangedButFaults (null_state self.old) (null_state self.new) }
        ensures faults { CountsFaults (null_state self.old).faults (null_state self.new).faults result }
        ensures counts_not_fallen { CountsNotFallen (null_state self.old) (null_state self.new) }
        ensures always { IsOk result }
        ensures zeroes { buf.new ≡ replicate (length buf.old) 0 }
    {
        buf.fill(0);
        Ok(())
    }

    fn pure_write(&mut self, data: &[u8], offset: u64) -> Result<(), Fault>
        requires { IsUnitRange (unit_of (null_state self.old).shape) offset (length «data».now) }
        ensures ok { OnOk result (Written (null_state self.old) (null_state self.new) offset «data».now) }
        ensures err { IfErr result (NotWritten (null_state self.old) (null_state self.new) offset «data».now) }
        ensures shape { (null_state self.new).shape ≡ (null_state self.old).shape }
        ensures counts_not_fallen { CountsNotFallen (null_state self.old) (null_state self.new) }
        ensures single_request { RequestsOne (null_state self.old) (null_state self.new) result }
        ensures always { IsOk result }
    {
        self.size = self.size.max(offset + data.len() as u64);
        Ok(())
    }

    fn pure_write_zeroes(&mut self, offset: u64, length: u64) -> Result<(), Fault>
        requires whole { IsUnitRange (unit_of (null_state self.old).shape) offset length }
        requires zeroes { IsUnitRange (null_state self.old).shape.zero_align offset length }
        ensures ok { OnOk result (Written (null_state self.old) (null_state self.new) offset (replicate length 0)) }
        ensures err { IfErr result (ZeroingRefused (null_state self.old) (null_state self.new) offset length) }
        ensures shape { (null_state self.new).shape ≡ (null_state self.old).shape }
        ensures counts_not_fallen { CountsNotFallen (null_state self.old) (null_state self.new) }
        ensures single_request { RequestsOne (null_state self.old) (null_state self.new) result }
        ensures always { IsOk result }
    {
        self.size = self.size.max(offset + length);
        Ok(())
    }

    fn pure_write_allocated_zeroes(&mut self, offset: u64, length: u64) -> Result<(), Fault>
        requires whole { IsUnitRange (unit_of (null_state self.old).shape) offset length }
        requires zeroes { IsUnitRange (null_state self.old).shape.zero_align offset length }
        ensures ok { OnOk result (Written (null_state self.old) (null_state self.new) offset (replicate length 0)) }
        ensures err { IfErr result (ZeroingRefused (null_state self.old) (null_state self.new) offset length) }
        ensures shape { (null_state self.new).shape ≡ (null_state self.old).shape }
        ensures counts_not_fallen { CountsNotFallen (null_state self.old) (null_state self.new) }
        ensures single_request { RequestsOne (null_state self.old) (null_state self.new) result }
        ensures always { IsOk result }
    {
        self.size = self.size.max(offset + length);
        Ok(())
    }

    fn pure_discard(&mut self, offset: u64, length: u64) -> Result<(), Fault>
        requires whole { IsUnitRange (unit_of (null_state self.old).shape) offset length }
        requires discards { IsUnitRange (null_state self.old).shape.discard_align offset length }
        ensures ok { OnOk result (Discarded (null_state self.old) (null_state self.new) offset length) }
        ensures err { IfErr result (DiscardRefused (null_state self.old) (null_state self.new) offset length) }
        ensures shape { (null_state self.new).shape ≡ (null_state self.old).shape }
        ensures counts_not_fallen { CountsNotFallen (null_state self.old) (null_state self.new) }
        ensures single_request { RequestsOne (null_state self.old) (null_state self.new) result }
        ensures always { IsOk result }
    {
        Ok(())
    }

    fn resize(&mut self, size: u64, _mode: PreallocateMode) -> Result<(), Fault>
        ensures ok { OnOk result (Resized (null_state self.old) (null_state self.new) size) }
        ensures err { IfErr result (ResizeRefused (null_state self.old) (null_state self.new)) }
        ensures shape { (null_state self.new).shape ≡ (null_state self.old).shape }
        ensures counts_not_fallen { CountsNotFallen (null_state self.old) (null_state self.new) }
        ensures single_request { RequestsOne (null_state self.old) (null_state self.new) result }
        ensures always { IsOk result }
    {
        self.size = size;
        Ok(())
    }

    fn flush(&mut self) -> Result<(), Fault>
        ensures unchanged_but_faults { UnchangedButFaults (null_state self.old) (null_state self.new) }
        ensures faults { CountsFaults (null_state self.old).faults (null_state self.new).faults result }
        ensures counts_not_fallen { CountsNotFallen (null_state self.old) (null_state self.new) }
        ensures always { IsOk result }
    {
        Ok(())
    }

    fn sync(&mut self) -> Result<(), Fault>
        ensures unchanged_but_faults { UnchangedButFaults (null_state self.old) (null_state self.new) }
        ensures faults { CountsFaults (null_state self.old).faults (null_state self.new).faults result }
        ensures counts_not_fallen { CountsNotFallen (null_state self.old) (null_state self.new) }
        ensures always { IsOk result }
    {
        Ok(())
    }

    fn invalidate_cache(&mut self) -> Result<(), Fault>
        ensures unchanged_but_faults { UnchangedButFaults (null_state self.old) (null_state self.new) }
        ensures faults { CountsFaults (null_state self.old).faults (null_state self.new).faults result }
        ensures counts_not_fallen { CountsNotFallen (null_state self.old) (null_state self.new) }
        ensures always { IsOk result }
    {
        Ok(())
    }
}
