// A storage over a file of the host, with pages in memory.
ghost use Rattle.std.specs.Prelude.{◌≡◌, ◌++◌, ◌∷◌, [], length, IfErr, OnOk};
ghost use Rattle.imago_storage.specs.Log.{replay};
ghost use Rattle.imago_storage.specs.State.{HasRisen};
ghost use Rattle.imago_storage.specs.declared.log.Request.{Request};
ghost use Rattle.paged_storage.specs.PagedFiles.{file_shown};
ghost use Rattle.paged_storage.specs.Pages.{AreBytes};

use crate::misses::{Miss, Misses};
use crate::paged_file::PagedFile;
use crate::pieces::{byte_count, replay_part};
use host_file::HostFile;
use imago_storage::{Fault, PreallocateMode, Request, Storage};
use std::alloc::Global;

/// A storage over a file of the host, with pages in memory. It exposes its crash images, and all its alignments are 1.
///
/// A read of a page that isn't in memory fails with `Fault::Storage`, and is noted. What is written is kept as requests: no call changes the
/// file. A discard fails with `Fault::Unsupported`.
#[derive(Drop)]
pub struct PagedStorage<'a, H: HostFile> {
    base: &'a PagedFile<H>,
    misses: &'a Misses,
    file: usize,
    alloc: Global,
    requests: Vec<Request>,
    size: u64,
    faults: u64,
    refusals: u64,
    ghost sized: { size ≡ length (replay (file_shown H.HostFile base.now) requests.items) },
    ghost bytes: { AreBytes (replay (file_shown H.HostFile base.now) requests.items) },
}

#[tactic(auto, unfolding(crate::specs::PagedStorage::paged_state))]
impl<'a, H: HostFile> PagedStorage<'a, H> {
    ghost use Rattle.paged_storage.specs.PagedStorage.{paged_state, requested};

    /// Creates a storage over a file. `misses` gets the missing pages, with `file` as the number of the file.
    pub fn new(alloc: Global, base: &'a PagedFile<H>, misses: &'a Misses, file: usize) -> Self
        ensures { paged_state H.HostFile result ≡ requested (file_shown H.HostFile base.now) [] 0 0 }
    {
        PagedStorage {
            base,
            misses,
            file,
            alloc,
            requests: Vec::new(alloc),
            size: base.size(),
            faults: 0,
            refusals: 0,
        }
    }

    /// Returns the requests that changed the storage, the oldest first.
    pub fn into_requests(self) -> Vec<Request>
        ensures { paged_state H.HostFile self.entry
            ≡ requested (file_shown H.HostFile self.entry.base.now) result.items self.entry.faults self.entry.refusals }
    {
        let PagedStorage { requests, .. } = self;
        requests
    }

    // Counts a refused change.
    fn refuse(&mut self) -> Fault
        ensures fault { result ≡ Fault.Memory }
        ensures base { self.new.base ≡ self.old.base }
        ensures requests { self.new.requests ≡ self.old.requests }
        ensures size { self.new.size ≡ self.old.size }
        ensures faults { self.new.faults ≡ self.old.faults }
        ensures refusals { HasRisen self.old.refusals self.new.refusals }
    {
        self.refusals = self.refusals.saturating_add(1);
        Fault::Memory
    }

    // Appends a request, after which the file has this size.
    fn keep(&mut self, request: Request, size: u64) -> Result<(), Fault>
        requires size { size ≡ length (replay (file_shown H.HostFile self.old.base.now) (self.old.requests.items ++ request ∷ [])) }
        requires bytes { AreBytes (replay (file_shown H.HostFile self.old.base.now) (self.old.requests.items ++ request ∷ [])) }
        ensures ok { OnOk result (self.new.requests.items ≡ self.old.requests.items ++ request ∷ []) }
        ensures ok_refusals { OnOk result (self.new.refusals ≡ self.old.refusals) }
        ensures err { IfErr result (λ e. e ≡ Fault.Memory) }
        ensures err_requests { IfErr result (λ e. self.new.requests.items ≡ self.old.requests.items) }
        ensures err_refusals { IfErr result (λ e. HasRisen self.old.refusals self.new.refusals) }
        ensures base { self.new.base ≡ self.old.base }
        ensures faults { self.new.faults ≡ self.old.faults }
    {
        match self.requests.push(request) {
            Ok(()) => {
                self.size = size;
                Ok(())
            }
            Err(_) => Err(self.refuse()),
        }
    }
}

#[tactic(auto, unfolding(crate::specs::PagedStorage::paged_state))]
impl<H: HostFile> Storage for PagedStorage<'_, H> {
    ghost use Rattle.paged_storage.specs.PagedStorage.{paged_state, paged_aligned};

    ghost state = { paged_state H.HostFile };

    ghost aligned = { paged_aligned H.HostFile };

    fn mem_align(&self) -> usize {
        1
    }

    fn req_align(&self) -> usize {
        1
    }

    fn zero_align(&self) -> usize {
        1
    }

    fn discard_align(&self) -> usize {
        1
    }

    fn size(&self) -> u64 {
        self.size
    }

    fn get_filename(&self) -> Option<&str> {
        None
    }

    fn pure_read(&mut self, buf: &mut [u8], offset: u64) -> Result<(), Fault> {
        match self.base.read(buf, offset) {
            Ok(()) => {
                replay_part(&self.requests, buf, offset);
                Ok(())
            }
            Err(page) => {
                let file = self.file;
                let fault = self.misses.note(Miss { file, page });
                if let Fault::Storage = fault {
                    self.faults = self.faults.saturating_add(1);
                }
                Err(fault)
            }
        }
    }

    fn pure_write(&mut self, data: &[u8], offset: u64) -> Result<(), Fault> {
        let size = self.size.max(offset + byte_count(data));
        match data.to_vec(self.alloc) {
            Ok(bytes) => self.keep(Request::Write { offset, bytes }, size),
            Err(_) => Err(self.refuse()),
        }
    }

    fn pure_write_zeroes(&mut self, offset: u64, length: u64) -> Result<(), Fault> {
        let size = self.size.max(offset + length);
        self.keep(Request::Zeroes { offset, length }, size)
    }

    fn pure_write_allocated_zeroes(&mut self, offset: u64, length: u64) -> Result<(), Fault> {
        let size = self.size.max(offset + length);
        self.keep(Request::Zeroes { offset, length }, size)
    }

    fn pure_discard(&mut self, _offset: u64, _length: u64) -> Result<(), Fault> {
        Err(Fault::Unsupported)
    }

    fn resize(&mut self, size: u64, mode: PreallocateMode) -> Result<(), Fault> {
        match mode {
            PreallocateMode::None | PreallocateMode::Zero => {
                self.keep(Request::Resize { size }, size)
            }
            PreallocateMode::Allocate | PreallocateMode::WriteData => Err(Fault::Unsupported),
        }
    }

    fn flush(&mut self) -> Result<(), Fault> {
        Ok(())
    }

    fn sync(&mut self) -> Result<(), Fault> {
        Ok(())
    }

    fn invalidate_cache(&mut self) -> Result<(), Fault> {
        Ok(())
    }
}
