// A wrapper that logs the changes of a storage, so that a test can rebuild the file after a crash between any two requests. Definitions:
// specs/Log.antt.
ghost use Rattle.std.specs.Prelude.{◌≡◌, ◌≤◌, ◌-◌, ◌∷◌, ◌++◌, [], List, length, take, replicate, true, OnOk, IfOk, IfErr, IsErrOf, IsOkUnless, IsTrue};
ghost use Rattle.imago_storage.specs.State.{CrashImageIsBytes, IsUnitRange, HasRisen, unit_of};
ghost use Rattle.imago_storage.specs.Calls.{CountsFaults, UnchangedButFaults, CountsNotFallen, NotWritten, Reads, RequestsOne, ResizeRefused, Resized, Written, ZeroingRefused};
ghost use Rattle.imago_storage.specs.Log.{apply, IsStop, NotLogged, replay, ShowsBytes};

use crate::edits::{splice, splice_zeroes};
use crate::{Fault, PreallocateMode, Storage, StorageExt};
use std::alloc::Global;

/// A change that was requested of a storage. Offsets, lengths and sizes are in bytes.
#[derive(Debug, Drop)]
pub enum Request {
    /// The bytes were written from `offset` on.
    Write { offset: u64, bytes: Vec<u8> },
    /// Zeroes were written over the range.
    Zeroes { offset: u64, length: u64 },
    /// The length was set.
    Resize { size: u64 },
}

/// A storage that passes calls to another storage, and logs the changes. It lets tests look at crash images: the file after a crash between
/// two requests.
///
/// Memory for the log entry is allocated before a change is passed on. If memory runs out, the call returns `Fault::Memory` and passes
/// nothing on. A change that the inner storage refuses isn't logged. A discard fails with `Fault::Unsupported`, because the bytes after a
/// discard are unspecified.
#[derive(Drop)]
pub struct LogStorage<S> {
    inner: S,
    alloc: Global,
    base: Vec<u8>,
    requests: Vec<Request>,
    refusals: u64,
}

impl<S: Storage> LogStorage<S> {
    ghost use Rattle.imago_storage.specs.declared.log.Request.{Request};
    ghost use Rattle.imago_storage.specs.Log.{log_requests, log_state};

    /// Returns the requests that succeeded, the oldest first.
    #[tactic(auto, using(crate::proofs::Marks::length_of_past), unfolding(crate::specs::Log::log_requests, crate::specs::Log::log_state))]
    pub fn requests(&self) -> &[Request]
        ensures requests { result.now ≡ log_requests self.now }
        ensures mark { length result.now ≡ length (log_state S.state self.now).past_crash_images }
    {
        self.requests.as_slice()
    }

    /// Returns the inner storage in its current state.
    #[tactic(auto, unfolding(crate::specs::Log::log_state))]
    pub fn into_inner(self) -> S
        ensures shape { (log_state S.state self).shape ≡ record (S.state result).shape { tells = true } }
        ensures bytes { (S.state result).bytes ≡ (log_state S.state self).bytes }
        ensures faults { (S.state result).faults ≡ (log_state S.state self).faults }
    {
        let LogStorage { inner, .. } = self;
        inner
    }

    // Appends a request to the log.
    fn keep(&mut self, request: Request) -> Result<(), Fault>
        ensures inner { self.new.inner ≡ self.old.inner }
        ensures base { self.new.base ≡ self.old.base }
        ensures ok { OnOk result (self.new.requests.items ≡ self.old.requests.items ++ request ∷ []) }
        ensures ok_refusals { OnOk result (self.new.refusals ≡ self.old.refusals) }
        ensures err { IfErr result (λ e. e ≡ Fault.Memory) }
        ensures err_requests { IfErr result (λ e. self.new.requests.items ≡ self.old.requests.items) }
        ensures err_refusals { IfErr result (λ e. HasRisen self.old.refusals self.new.refusals) }
    {
        match self.requests.push(request) {
            Ok(()) => Ok(()),
            Err(_) => {
                self.refusals = self.refusals.saturating_add(1);
                Err(Fault::Memory)
            }
        }
    }

    // Copies the bytes of a write.
    fn copy_of(&mut self, bytes: &[u8]) -> Result<Vec<u8>, Fault>
        ensures inner { self.new.inner ≡ self.old.inner }
        ensures base { self.new.base ≡ self.old.base }
        ensures requests { self.new.requests ≡ self.old.requests }
        ensures ok { IfOk result (λ copy. copy.items ≡ bytes.now) }
        ensures ok_refusals { OnOk result (self.new.refusals ≡ self.old.refusals) }
        ensures err { IfErr result (λ e. e ≡ Fault.Memory) }
        ensures err_refusals { IfErr result (λ e. HasRisen self.old.refusals self.new.refusals) }
    {
        match bytes.to_vec(self.alloc) {
            Ok(copy) => Ok(copy),
            Err(_) => {
                self.refusals = self.refusals.saturating_add(1);
                Err(Fault::Memory)
            }
        }
    }

    // Removes the last request.
    fn forget(&mut self)
        ensures inner { self.new.inner ≡ self.old.inner }
        ensures base { self.new.base ≡ self.old.base }
        ensures refusals { self.new.refusals ≡ self.old.refusals }
        ensures requests { (rs : List Request) (r : Request) → self.old.requests.items ≡ rs ++ r ∷ [] → self.new.requests.items ≡ rs }
    {
        let _ = self.requests.pop();
    }
}

impl<S: Storage> LogStorage<S> {
    ghost use Rattle.imago_storage.specs.Log.{log_state, log_base, log_requests, telling, replay};

    /// Creates a log over a storage, and copies the storage's bytes. The log has no requests yet.
    ///
    /// # Errors
    ///
    /// - `Fault::Memory` if memory for the copy runs out.
    /// - `Fault::Storage` if the storage failed.
    ///
    /// # On error
    ///
    /// The storage is dropped.
    #[tactic(auto, unfolding(crate::specs::Log::log_state, crate::specs::Log::log_base, crate::specs::Log::log_requests))]
    pub fn new(alloc: Global, inner: S) -> Result<Self, Fault>
        ensures state { IfOk result (λ log. log_state S.state log ≡ telling (S.state inner)) }
        ensures base { IfOk result (λ log. log_base log ≡ (S.state inner).bytes) }
        ensures empty { IfOk result (λ log. log_requests log ≡ []) }
        ensures err { IfErr result NotLogged }
    {
        let mut inner = inner;
        let base = copy_of_bytes(&mut inner, alloc)?;
        Ok(LogStorage {
            inner,
            alloc,
            base,
            requests: Vec::new(alloc),
            refusals: 0,
        })
    }

    /// Returns the crash image after the first `k` requests: these requests, applied to the bytes at the time of `new`.
    ///
    /// # Preconditions
    ///
    /// The log has at least `k` requests.
    ///
    /// # Errors
    ///
    /// - `Fault::Memory` if memory runs out. The log doesn't change.
    #[tactic(auto, unfolding(crate::specs::Log::log_state, crate::specs::Log::log_base, crate::specs::Log::log_requests))]
    pub fn stop_at(&mut self, k: usize) -> Result<Vec<u8>, Fault>
        requires { k ≤ length (log_requests self.old) }
        ensures ok { IfOk result (λ file. file.items ≡ replay (log_base self.old) (take k (log_requests self.old))) }
        ensures first { k ≡ 0 → IfOk result (λ file. file.items ≡ log_base self.old) }
        ensures last { k ≡ length (log_requests self.old) → IfOk result (λ file. file.items ≡ (log_state S.state self.old).crash_image) }
        // While no change was refused, the last crash image equals the bytes.
        ensures now { k ≡ length (log_requests self.old) → IfOk result (λ file. ShowsBytes (log_state S.state self.old) file.items) }
        // The file is the crash image that the log's state has for the moment after `k` requests.
        ensures told { IfOk result (λ file. IsStop (log_state S.state self.old) (length (log_requests self.old) - k) file.items) }
        ensures err { IsOkUnless result Fault.Memory }
        ensures same { self.new ≡ self.old }
    {
        let mut file = self.base.to_vec(self.alloc)?;
        apply_all(&mut file, &self.requests[..k])?;
        Ok(file)
    }
}

// Copies all bytes of a storage.
#[tactic(auto, using(crate::proofs::Composing::kept_same))]
fn copy_of_bytes<S: Storage>(storage: &mut S, alloc: Global) -> Result<Vec<u8>, Fault>
    ensures ok { IfOk result (λ copy. copy.items ≡ (S.state storage.old).bytes) }
    ensures same { OnOk result (S.state storage.new ≡ S.state storage.old) }
    ensures err { IfErr result NotLogged }
{
    let mut copy = vec![in alloc; 0u8; storage.size() as usize]?;
    match storage.read(alloc, &mut copy, 0) {
        Ok(()) => Ok(copy),
        Err(Fault::Storage) => Err(Fault::Storage),
        // The range fits a buffer in memory, so it can't overflow. Memory ran out.
        Err(_) => Err(Fault::Memory),
    }
}

// Applies a request to a file.
fn apply_request(file: &mut Vec<u8>, request: &Request) -> Result<(), Fault>
    ensures ok { OnOk result (file.new.items ≡ apply request.now file.old.items) }
    ensures err { IfErr result (λ e. e ≡ Fault.Memory) }
{
    match request {
        Request::Write { offset, bytes } => splice(file, *offset as usize, bytes)?,
        Request::Zeroes { offset, length } => {
            splice_zeroes(file, *offset as usize, *length as usize)?
        }
        Request::Resize { size } => file.resize(*size as usize, 0)?,
    }
    Ok(())
}

/// A storage that exposes its crash images: the file that a crash after each request leaves.
pub trait StopStorage: Storage {
    /// Returns the number of requests that have changed the storage. Pass it to `LogStorage::stop_at` for the crash image of this moment.
    fn mark(&self) -> usize
        ensures { result ≡ length (Self.state self.now).past_crash_images };

    ghost tells: { (s : Self) → IsTrue (Self.state s).shape.tells };
}

#[tactic(auto, using(crate::proofs::Marks::length_of_past), unfolding(crate::specs::Log::log_state))]
impl<S: Storage> StopStorage for LogStorage<S> {
    ghost use Rattle.imago_storage.specs.Log.{log_tells};

    ghost tells = { λ s. log_tells S.state s };

    fn mark(&self) -> usize {
        self.requests.len()
    }
}

#[tactic(auto, unfolding(crate::specs::Log::log_state, crate::specs::Log::log_base, crate::specs::Log::log_requests, crate::specs::Log::log_inner))]
impl<S: Storage> Storage for LogStorage<S> {
    ghost use Rattle.imago_storage.specs.declared.log.Request.{Request};
    ghost use Rattle.imago_storage.specs.declared.log.Request.TheVariants.{Zeroes, Resize};
    ghost use Rattle.imago_storage.specs.Log.{log_state, log_aligned, IsWrite, Noted, SameLog};

    ghost state = { log_state S.state };

    ghost aligned = { log_aligned S.state S.aligned };

    fn mem_align(&self) -> usize {
        self.inner.mem_align()
    }

    fn req_align(&self) -> usize {
        self.inner.req_align()
    }

    fn zero_align(&self) -> usize {
        self.inner.zero_align()
    }

    fn discard_align(&self) -> usize {
        self.inner.discard_align()
    }

    fn size(&self) -> u64 {
        self.inner.size()
    }

    fn get_filename(&self) -> Option<&str> {
        self.inner.get_filename()
    }

    fn resolve_relative_path(&self, alloc: Global, name: &str) -> Result<String, Fault> {
        self.inner.resolve_relative_path(alloc, name)
    }

    fn pure_read(&mut self, buf: &mut [u8], offset: u64) -> Result<(), Fault>
        requires { IsUnitRange (unit_of (log_state S.state self.old).shape) offset (length buf.old) }
        ensures read { OnOk result (Reads (log_state S.state self.old).bytes offset buf.new) }
        ensures unchanged_but_faults { UnchangedButFaults (log_state S.state self.old) (log_state S.state self.new) }
        ensures faults { CountsFaults (log_state S.state self.old).faults (log_state S.state self.new).faults result }
        ensures counts_not_fallen { CountsNotFallen (log_state S.state self.old) (log_state S.state self.new) }
        ensures log { SameLog self.old self.new }
    {
        self.inner.pure_read(buf, offset)
    }

    fn pure_write(&mut self, data: &[u8], offset: u64) -> Result<(), Fault>
        requires { IsUnitRange (unit_of (log_state S.state self.old).shape) offset (length «data».now) }
        ensures ok { OnOk result (Written (log_state S.state self.old) (log_state S.state self.new) offset «data».now) }
        ensures err { IfErr result (NotWritten (log_state S.state self.old) (log_state S.state self.new) offset «data».now) }
        ensures shape { (log_state S.state self.new).shape ≡ (log_state S.state self.old).shape }
        ensures counts_not_fallen { CountsNotFallen (log_state S.state self.old) (log_state S.state self.new) }
        ensures single_request { RequestsOne (log_state S.state self.old) (log_state S.state self.new) result }
        ensures noted { Noted S.state (IsWrite offset «data».now) self.old self.new result }
    {
        let bytes = self.copy_of(data)?;
        self.keep(Request::Write { offset, bytes })?;
        match self.inner.pure_write(data, offset) {
            Ok(()) => Ok(()),
            Err(e) => {
                self.forget();
                Err(e)
            }
        }
    }

    fn pure_write_zeroes(&mut self, offset: u64, length: u64) -> Result<(), Fault>
        requires whole { IsUnitRange (unit_of (log_state S.state self.old).shape) offset length }
        requires zeroes { IsUnitRange (log_state S.state self.old).shape.zero_align offset length }
        ensures ok { OnOk result (Written (log_state S.state self.old) (log_state S.state self.new) offset (replicate length 0)) }
        ensures err { IfErr result (ZeroingRefused (log_state S.state self.old) (log_state S.state self.new) offset length) }
        ensures shape { (log_state S.state self.new).shape ≡ (log_state S.state self.old).shape }
        ensures counts_not_fallen { CountsNotFallen (log_state S.state self.old) (log_state S.state self.new) }
        ensures single_request { RequestsOne (log_state S.state self.old) (log_state S.state self.new) result }
        ensures noted { Noted S.state (λ request. request ≡ Zeroes offset length) self.old self.new result }
    {
        self.keep(Request::Zeroes { offset, length })?;
        match self.inner.pure_write_zeroes(offset, length) {
            Ok(()) => Ok(()),
            Err(e) => {
                self.forget();
                Err(e)
            }
        }
    }

    fn pure_write_allocated_zeroes(&mut self, offset: u64, length: u64) -> Result<(), Fault>
        requires whole { IsUnitRange (unit_of (log_state S.state self.old).shape) offset length }
        requires zeroes { IsUnitRange (log_state S.state self.old).shape.zero_align offset length }
        ensures ok { OnOk result (Written (log_state S.state self.old) (log_state S.state self.new) offset (replicate length 0)) }
        ensures err { IfErr result (ZeroingRefused (log_state S.state self.old) (log_state S.state self.new) offset length) }
        ensures shape { (log_state S.state self.new).shape ≡ (log_state S.state self.old).shape }
        ensures counts_not_fallen { CountsNotFallen (log_state S.state self.old) (log_state S.state self.new) }
        ensures single_request { RequestsOne (log_state S.state self.old) (log_state S.state self.new) result }
        ensures noted { Noted S.state (λ request. request ≡ Zeroes offset length) self.old self.new result }
    {
        self.keep(Request::Zeroes { offset, length })?;
        match self.inner.pure_write_allocated_zeroes(offset, length) {
            Ok(()) => Ok(()),
            Err(e) => {
                self.forget();
                Err(e)
            }
        }
    }

    fn pure_discard(&mut self, offset: u64, length: u64) -> Result<(), Fault>
        requires whole { IsUnitRange (unit_of (log_state S.state self.old).shape) offset length }
        requires discards { IsUnitRange (log_state S.state self.old).shape.discard_align offset length }
        ensures unsupported { IsErrOf result Fault.Unsupported }
        ensures same { self.new ≡ self.old }
    {
        Err(Fault::Unsupported)
    }

    fn resize(&mut self, size: u64, mode: PreallocateMode) -> Result<(), Fault>
        ensures ok { OnOk result (Resized (log_state S.state self.old) (log_state S.state self.new) size) }
        ensures err { IfErr result (ResizeRefused (log_state S.state self.old) (log_state S.state self.new)) }
        ensures shape { (log_state S.state self.new).shape ≡ (log_state S.state self.old).shape }
        ensures counts_not_fallen { CountsNotFallen (log_state S.state self.old) (log_state S.state self.new) }
        ensures single_request { RequestsOne (log_state S.state self.old) (log_state S.state self.new) result }
        ensures noted { Noted S.state (λ request. request ≡ Resize size) self.old self.new result }
    {
        self.keep(Request::Resize { size })?;
        match self.inner.resize(size, mode) {
            Ok(()) => Ok(()),
            Err(e) => {
                self.forget();
                Err(e)
            }
        }
    }

    fn flush(&mut self) -> Result<(), Fault>
        ensures unchanged_but_faults { UnchangedButFaults (log_state S.state self.old) (log_state S.state self.new) }
        ensures faults { CountsFaults (log_state S.state self.old).faults (log_state S.state self.new).faults result }
        ensures counts_not_fallen { CountsNotFallen (log_state S.state self.old) (log_state S.state self.new) }
        ensures log { SameLog self.old self.new }
    {
        self.inner.flush()
    }

    fn sync(&mut self) -> Result<(), Fault>
        ensures unchanged_but_faults { UnchangedButFaults (log_state S.state self.old) (log_state S.state self.new) }
        ensures faults { CountsFaults (log_state S.state self.old).faults (log_state S.state self.new).faults result }
        ensures counts_not_fallen { CountsNotFallen (log_state S.state self.old) (log_state S.state self.new) }
        ensures log { SameLog self.old self.new }
    {
        self.inner.sync()
    }

    fn invalidate_cache(&mut self) -> Result<(), Fault>
        ensures unchanged_but_faults { UnchangedButFaults (log_state S.state self.old) (log_state S.state self.new) }
        ensures faults { CountsFaults (log_state S.state self.old).faults (log_state S.state self.new).faults result }
        ensures counts_not_fallen { CountsNotFallen (log_state S.state self.old) (log_state S.state self.new) }
        ensures log { SameLog self.old self.new }
    {
        self.inner.invalidate_cache()
    }
}

// Applies requests to a file, the oldest first.
fn apply_all(file: &mut Vec<u8>, requests: &[Request]) -> Result<(), Fault>
    ensures ok { OnOk result (file.new.items ≡ replay file.old.items requests.now) }
    ensures err { IfErr result (λ e. e ≡ Fault.Memory) }
{
    for request in requests {
        apply_request(file, request)?;
    }
    Ok(())
}
