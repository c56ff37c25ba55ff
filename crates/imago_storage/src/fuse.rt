// A wrapper that fails one request of a storage, for tests of error handling. Definitions: specs/Fuse.antt.
ghost use Rattle.std.specs.Prelude.{◌≡◌, ◌≢◌, ◌+◌, ◌^◌, ◌-◌, min, length, replicate, OnOk, IfErr, MatchBool};
ghost use Rattle.imago_storage.specs.State.{HasRisen, IsUnitRange, unit_of};
ghost use Rattle.imago_storage.specs.Calls.{CountsFaults, DiscardRefused, Discarded, UnchangedButFaults, CountsNotFallen, NotWritten, Reads, RequestsOne, ResizeRefused, Resized, Written, ZeroingRefused};

use crate::{Fault, PreallocateMode, StopStorage, Storage};
use std::alloc::Global;

/// A storage that passes calls to another storage, except one call that fails. It lets tests look at the state after an error.
///
/// The `pure_` calls, `resize`, `flush` and `sync` are counted, whether they succeed or fail. `invalidate_cache` isn't. The call with the
/// number that was given to `new` returns `Fault::Storage`, and isn't passed on. This happens once.
#[derive(Drop)]
pub struct FuseStorage<S> {
    inner: S,
    n: u64,
    count: u64,
    faults: u64,
    refusals: u64,
}

#[tactic(auto, unfolding(crate::specs::Fuse::fuse_state, crate::specs::Fuse::fuse_count, crate::specs::Fuse::fuse_call, crate::specs::Fuse::fuse_faults, crate::specs::Fuse::fuse_refusals, crate::specs::Fuse::fuse_inner))]
impl<S: Storage> FuseStorage<S> {
    ghost use Rattle.imago_storage.specs.Fuse.{fuse_state, fuse_count, fuse_call, fuse_inner};

    /// Creates a storage over `inner` whose `n`th counted call fails, counted from 1. If `n` is 0, no call fails.
    pub fn new(inner: S, n: u64) -> Self
        ensures state { fuse_state S.state result ≡ S.state inner }
        ensures inner { fuse_inner result ≡ inner }
        ensures count { fuse_count result ≡ 0 }
        ensures call { fuse_call result ≡ n }
    {
        FuseStorage {
            inner,
            n,
            count: 0,
            faults: 0,
            refusals: 0,
        }
    }

    /// Returns the number of counted calls. It stops at the greatest `u64`.
    pub fn count(&self) -> u64
        ensures { result ≡ fuse_count self.now }
    {
        self.count
    }

    // Counts a call, and returns true if it is the one that fails.
    fn fails_this_call(&mut self) -> bool
        ensures inner { self.new.inner ≡ self.old.inner }
        ensures call { self.new.n ≡ self.old.n }
        ensures count { self.new.count ≡ min (self.old.count + 1) (2 ^ 64 - 1) }
        ensures nth { MatchBool result (self.old.count + 1 ≡ self.old.n) (self.old.count + 1 ≢ self.old.n) }
        ensures refusals { self.new.refusals ≡ self.old.refusals }
        ensures faults { MatchBool result (HasRisen self.old.faults self.new.faults) (self.new.faults ≡ self.old.faults) }
    {
        let fails_this_call = self.count < self.n && self.count == self.n - 1;
        self.count = self.count.saturating_add(1);
        if fails_this_call {
            self.faults = self.faults.saturating_add(1);
        }
        fails_this_call
    }

    // Counts a call that changes the storage, and returns true if this call must fail. It then also counts a refused change.
    fn refuses(&mut self) -> bool
        ensures inner { self.new.inner ≡ self.old.inner }
        ensures call { self.new.n ≡ self.old.n }
        ensures count { self.new.count ≡ min (self.old.count + 1) (2 ^ 64 - 1) }
        ensures nth { MatchBool result (self.old.count + 1 ≡ self.old.n) (self.old.count + 1 ≢ self.old.n) }
        ensures refusals { MatchBool result (HasRisen self.old.refusals self.new.refusals) (self.new.refusals ≡ self.old.refusals) }
        ensures faults { MatchBool result (HasRisen self.old.faults self.new.faults) (self.new.faults ≡ self.old.faults) }
    {
        let fails_this_call = self.fails_this_call();
        if fails_this_call {
            self.refusals = self.refusals.saturating_add(1);
        }
        fails_this_call
    }
}

#[tactic(auto, unfolding(crate::specs::Fuse::fuse_state, crate::specs::Fuse::fuse_count, crate::specs::Fuse::fuse_call, crate::specs::Fuse::fuse_faults, crate::specs::Fuse::fuse_refusals, crate::specs::Fuse::fuse_inner))]
impl<S: Storage> Storage for FuseStorage<S> {
    ghost use Rattle.imago_storage.specs.Fuse.{fuse_state, fuse_aligned, Counted, Uncounted};

    ghost state = { fuse_state S.state };

    ghost aligned = { fuse_aligned S.state S.aligned };

    fn mem_align(&self) -> usize {
        self.inner.mem_align()
    }

    fn req_align(&self) -> usize {
        self.inner.req_align()
    }

    fn zero_align(&self) -> usize {
        self.inner.zero_align()
    }

    fn discard_align(&self) -> usize {
        self.inner.discard_align()
    }

    fn size(&self) -> u64 {
        self.inner.size()
    }

    fn get_filename(&self) -> Option<&str> {
        self.inner.get_filename()
    }

    fn resolve_relative_path(&self, alloc: Global, name: &str) -> Result<String, Fault> {
        self.inner.resolve_relative_path(alloc, name)
    }

    fn pure_read(&mut self, buf: &mut [u8], offset: u64) -> Result<(), Fault>
        requires { IsUnitRange (unit_of (fuse_state S.state self.old).shape) offset (length buf.old) }
        ensures read { OnOk result (Reads (fuse_state S.state self.old).bytes offset buf.new) }
        ensures unchanged_but_faults { UnchangedButFaults (fuse_state S.state self.old) (fuse_state S.state self.new) }
        ensures faults { CountsFaults (fuse_state S.state self.old).faults (fuse_state S.state self.new).faults result }
        ensures counts_not_fallen { CountsNotFallen (fuse_state S.state self.old) (fuse_state S.state self.new) }
        ensures counted { Counted self.old self.new result }
    {
        if self.fails_this_call() {
            return Err(Fault::Storage);
        }
        self.inner.pure_read(buf, offset)
    }

    fn pure_write(&mut self, data: &[u8], offset: u64) -> Result<(), Fault>
        requires { IsUnitRange (unit_of (fuse_state S.state self.old).shape) offset (length «data».now) }
        ensures ok { OnOk result (Written (fuse_state S.state self.old) (fuse_state S.state self.new) offset «data».now) }
        ensures err { IfErr result (NotWritten (fuse_state S.state self.old) (fuse_state S.state self.new) offset «data».now) }
        ensures shape { (fuse_state S.state self.new).shape ≡ (fuse_state S.state self.old).shape }
        ensures counts_not_fallen { CountsNotFallen (fuse_state S.state self.old) (fuse_state S.state self.new) }
        ensures single_request { RequestsOne (fuse_state S.state self.old) (fuse_state S.state self.new) result }
        ensures counted { Counted self.old self.new result }
    {
        if self.refuses() {
            return Err(Fault::Storage);
        }
        self.inner.pure_write(data, offset)
    }

    fn pure_write_zeroes(&mut self, offset: u64, length: u64) -> Result<(), Fault>
        requires whole { IsUnitRange (unit_of (fuse_state S.state self.old).shape) offset length }
        requires zeroes { IsUnitRange (fuse_state S.state self.old).shape.zero_align offset length }
        ensures ok { OnOk result (Written (fuse_state S.state self.old) (fuse_state S.state self.new) offset (replicate length 0)) }
        ensures err { IfErr result (ZeroingRefused (fuse_state S.state self.old) (fuse_state S.state self.new) offset length) }
        ensures shape { (fuse_state S.state self.new).shape ≡ (fuse_state S.state self.old).shape }
        ensures counts_not_fallen { CountsNotFallen (fuse_state S.state self.old) (fuse_state S.state self.new) }
        ensures single_request { RequestsOne (fuse_state S.state self.old) (fuse_state S.state self.new) result }
        ensures counted { Counted self.old self.new result }
    {
        if self.refuses() {
            return Err(Fault::Storage);
        }
        self.inner.pure_write_zeroes(offset, length)
    }

    fn pure_write_allocated_zeroes(&mut self, offset: u64, length: u64) -> Result<(), Fault>
        requires whole { IsUnitRange (unit_of (fuse_state S.state self.old).shape) offset length }
        requires zeroes { IsUnitRange (fuse_state S.state self.old).shape.zero_align offset length }
        ensures ok { OnOk result (Written (fuse_state S.state self.old) (fuse_state S.state self.new) offset (replicate length 0)) }
        ensures err { IfErr result (ZeroingRefused (fuse_state S.state self.old) (fuse_state S.state self.new) offset length) }
        ensures shape { (fuse_state S.state self.new).shape ≡ (fuse_state S.state self.old).shape }
        ensures counts_not_fallen { CountsNotFallen (fuse_state S.state self.old) (fuse_state S.state self.new) }
        ensures single_request { RequestsOne (fuse_state S.state self.old) (fuse_state S.state self.new) result }
        ensures counted { Counted self.old self.new result }
    {
        if self.refuses() {
            return Err(Fault::Storage);
        }
        self.inner.pure_write_allocated_zeroes(offset, length)
    }

    fn pure_discard(&mut self, offset: u64, length: u64) -> Result<(), Fault>
        requires whole { IsUnitRange (unit_of (fuse_state S.state self.old).shape) offset length }
        requires discards { IsUnitRange (fuse_state S.state self.old).shape.discard_align offset length }
        ensures ok { OnOk result (Discarded (fuse_state S.state self.old) (fuse_state S.state self.new) offset length) }
        ensures err { IfErr result (DiscardRefused (fuse_state S.state self.old) (fuse_state S.state self.new) offset length) }
        ensures shape { (fuse_state S.state self.new).shape ≡ (fuse_state S.state self.old).shape }
        ensures counts_not_fallen { CountsNotFallen (fuse_state S.state self.old) (fuse_state S.state self.new) }
        ensures single_request { RequestsOne (fuse_state S.state self.old) (fuse_state S.state self.new) result }
        ensures counted { Counted self.old self.new result }
    {
        if self.refuses() {
            return Err(Fault::Storage);
        }
        self.inner.pure_discard(offset, length)
    }

    fn resize(&mut self, size: u64, mode: PreallocateMode) -> Result<(), Fault>
        ensures ok { OnOk result (Resized (fuse_state S.state self.old) (fuse_state S.state self.new) size) }
        ensures err { IfErr result (ResizeRefused (fuse_state S.state self.old) (fuse_state S.state self.new)) }
        ensures shape { (fuse_state S.state self.new).shape ≡ (fuse_state S.state self.old).shape }
        ensures counts_not_fallen { CountsNotFallen (fuse_state S.state self.old) (fuse_state S.state self.new) }
        ensures single_request { RequestsOne (fuse_state S.state self.old) (fuse_state S.state self.new) result }
        ensures counted { Counted self.old self.new result }
    {
        if self.refuses() {
            return Err(Fault::Storage);
        }
        self.inner.resize(size, mode)
    }

    fn flush(&mut self) -> Result<(), Fault>
        ensures unchanged_but_faults { UnchangedButFaults (fuse_state S.state self.old) (fuse_state S.state self.new) }
        ensures faults { CountsFaults (fuse_state S.state self.old).faults (fuse_state S.state self.new).faults result }
        ensures counts_not_fallen { CountsNotFallen (fuse_state S.state self.old) (fuse_state S.state self.new) }
        ensures counted { Counted self.old self.new result }
    {
        if self.fails_this_call() {
            return Err(Fault::Storage);
        }
        self.inner.flush()
    }

    fn sync(&mut self) -> Result<(), Fault>
        ensures unchanged_but_faults { UnchangedButFaults (fuse_state S.state self.old) (fuse_state S.state self.new) }
        ensures faults { CountsFaults (fuse_state S.state self.old).faults (fuse_state S.state self.new).faults result }
        ensures counts_not_fallen { CountsNotFallen (fuse_state S.state self.old) (fuse_state S.state self.new) }
        ensures counted { Counted self.old self.new result }
    {
        if self.fails_this_call() {
            return Err(Fault::Storage);
        }
        self.inner.sync()
    }

    fn invalidate_cache(&mut self) -> Result<(), Fault>
        ensures unchanged_but_faults { UnchangedButFaults (fuse_state S.state self.old) (fuse_state S.state self.new) }
        ensures faults { CountsFaults (fuse_state S.state self.old).faults (fuse_state S.state self.new).faults result }
        ensures counts_not_fallen { CountsNotFallen (fuse_state S.state self.old) (fuse_state S.state self.new) }
        ensures uncounted { Uncounted self.old self.new }
    {
        self.inner.invalidate_cache()
    }
}

#[tactic(auto, unfolding(crate::specs::Fuse::fuse_state, crate::specs::Fuse::fuse_inner))]
impl<S: StopStorage> StopStorage for FuseStorage<S> {
    ghost use Rattle.imago_storage.specs.Fuse.{fuse_tells};

    ghost tells = { λ s. fuse_tells S.state S.tells s };

    fn mark(&self) -> usize {
        self.inner.mark()
    }
}
