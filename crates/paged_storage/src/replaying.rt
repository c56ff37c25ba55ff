// Requests that are handed to a file of the host.
ghost use Rattle.std.specs.Prelude.{◌≡◌, ℕ, ◌+◌, List, [], length, max, replicate, IfOk, OnOk, OnErr, IsTrue};
ghost use Rattle.imago_storage.specs.Log.{apply, replay, splice};
ghost use Rattle.host_file.specs.FileState.{IsChangedTo};
ghost use Rattle.paged_storage.specs.Pages.{AreOf, AreWhole};
ghost use Rattle.paged_storage.specs.PagedFiles.{file_shown, host_state};
ghost use Rattle.paged_storage.specs.Replaying.{IsReplayed, StoppedIn};

use crate::paged_file::{PAGE, PagedFile};
use crate::pieces::{byte_count, replay_part};
use host_file::HostFile;
use imago_storage::Request;
use lru::LruCache;
use std::alloc::Global;
use std::{io, mem};

// Writes to a file of this size, and returns the new size.
fn put_bytes<H: HostFile>(file: &mut H, size: u64, offset: u64, bytes: &[u8]) -> io::Result<u64>
    requires { IsTrue (H.HostFile.state file.old).truthful → size ≡ length (H.HostFile.state file.old).held }
    ensures ok { IfOk result (λ n. IsTrue (H.HostFile.state file.new).truthful
        → IsChangedTo (splice (H.HostFile.state file.old).held offset bytes.now) (H.HostFile.state file.old) (H.HostFile.state file.new)
        × (n ≡ max size (offset + length bytes.now))) }
    ensures truthful { (H.HostFile.state file.new).truthful ≡ (H.HostFile.state file.old).truthful }
    ensures err { OnErr result (H.HostFile.state file.new ≡ H.HostFile.state file.old) }
{
    let Some(end) = offset.checked_add(bytes.len() as u64) else {
        return Err(io::ErrorKind::InvalidInput.into());
    };
    if bytes.is_empty() {
        file.set_len(size.max(end))?;
    } else {
        file.write_at(offset, bytes)?;
    }
    Ok(size.max(end))
}

// Writes zeroes to a file of this size, and returns the new size.
fn put_zeroes<H: HostFile>(file: &mut H, size: u64, offset: u64, count: u64) -> io::Result<u64>
    requires { IsTrue (H.HostFile.state file.old).truthful → size ≡ length (H.HostFile.state file.old).held }
    ensures ok { IfOk result (λ n. IsTrue (H.HostFile.state file.new).truthful
        → IsChangedTo (splice (H.HostFile.state file.old).held offset (replicate count 0)) (H.HostFile.state file.old)
        (H.HostFile.state file.new)
        × (n ≡ max size (offset + count))) }
    ensures truthful { (H.HostFile.state file.new).truthful ≡ (H.HostFile.state file.old).truthful }
    ensures err { OnErr result (H.HostFile.state file.new ≡ H.HostFile.state file.old) }
{
    let Some(end) = offset.checked_add(count) else {
        return Err(io::ErrorKind::InvalidInput.into());
    };
    if count == 0 {
        file.set_len(size.max(end))?;
    } else {
        file.zero_at(offset, count)?;
    }
    Ok(size.max(end))
}

// Makes a request to a file of this size, and returns the new size.
fn put<H: HostFile>(file: &mut H, size: u64, request: &Request) -> io::Result<u64>
    requires { IsTrue (H.HostFile.state file.old).truthful → size ≡ length (H.HostFile.state file.old).held }
    ensures ok { IfOk result (λ n. IsTrue (H.HostFile.state file.new).truthful
        → IsChangedTo (apply request.now (H.HostFile.state file.old).held) (H.HostFile.state file.old) (H.HostFile.state file.new)
        × (n ≡ length (H.HostFile.state file.new).held)) }
    ensures truthful { (H.HostFile.state file.new).truthful ≡ (H.HostFile.state file.old).truthful }
    ensures err { OnErr result (H.HostFile.state file.new ≡ H.HostFile.state file.old) }
{
    match request {
        Request::Write { offset, bytes } => put_bytes(file, size, *offset, bytes),
        Request::Zeroes { offset, length } => put_zeroes(file, size, *offset, *length),
        Request::Resize { size } => {
            file.set_len(*size)?;
            Ok(*size)
        }
    }
}

// Applies requests to pages in memory, and moves them to `kept`. If memory runs out, the rest is dropped.
fn renew(pages: LruCache<u64, Vec<u8>>, requests: &[Request], kept: &mut LruCache<u64, Vec<u8>>)
    requires whole { AreWhole pages.entries }
    requires empty { kept.old.entries ≡ [] }
    ensures whole { AreWhole kept.new.entries }
    ensures held { (held : List ℕ) → AreOf held pages.entries → AreOf (replay held requests.now) kept.new.entries }
{
    let mut pages = pages;
    for _ in 0..pages.len() {
        let Some((number, page)) = pages.pop_lru() else {
            return;
        };
        if number >= u64::MAX / PAGE {
            return;
        }
        let mut page = page;
        replay_part(requests, &mut page, number * PAGE);
        let _known = byte_count(&page);
        if kept.put(number, page).is_err() {
            return;
        }
    }
}

impl<H: HostFile> PagedFile<H> {
    // Makes the requests, in order.
    fn put_all(&mut self, requests: &[Request]) -> io::Result<()>
        requires { self.old.pages.entries ≡ [] }
        ensures pages { self.new.pages.entries ≡ [] }
        ensures ok { OnOk result (IsTrue (host_state H.HostFile self.new).truthful
            → IsReplayed requests.now (host_state H.HostFile self.old) (host_state H.HostFile self.new)) }
        ensures err { OnErr result (IsTrue (host_state H.HostFile self.new).truthful
            → StoppedIn requests.now (host_state H.HostFile self.old) (host_state H.HostFile self.new)) }
        ensures truthful { (host_state H.HostFile self.new).truthful ≡ (host_state H.HostFile self.old).truthful }
    {
        for request in requests {
            self.size = put(&mut self.file, self.size, request)?;
        }
        Ok(())
    }

    /// Hands requests to the file, in order. The pages in memory follow.
    ///
    /// # Errors
    ///
    /// The error of the host, or that memory ran out.
    ///
    /// # On error
    ///
    /// The first requests were made, and the others weren't. The pages may have been dropped from memory.
    pub fn replay(&mut self, alloc: Global, requests: &[Request]) -> io::Result<()>
        ensures ok { OnOk result (IsTrue (host_state H.HostFile self.new).truthful
            → IsReplayed requests.now (host_state H.HostFile self.old) (host_state H.HostFile self.new)) }
        ensures err { OnErr result (IsTrue (host_state H.HostFile self.new).truthful
            → StoppedIn requests.now (host_state H.HostFile self.old) (host_state H.HostFile self.new)) }
        ensures shown { IsTrue (host_state H.HostFile self.new).truthful
            → file_shown H.HostFile self.new ≡ (host_state H.HostFile self.new).held }
        ensures truthful { (host_state H.HostFile self.new).truthful ≡ (host_state H.HostFile self.old).truthful }
    {
        let pages = mem::replace(&mut self.pages, LruCache::unbounded(alloc)?);
        self.put_all(requests)?;
        renew(pages, requests, &mut self.pages);
        Ok(())
    }

    /// Makes all that was handed to the file durable: it survives a crash of the machine.
    ///
    /// # Errors
    ///
    /// The error of the host. Some of the bytes may then be lost, and a later `sync` may not report it.
    pub fn sync(&mut self) -> io::Result<()>
        ensures host { host_state H.HostFile self.new ≡ host_state H.HostFile self.old }
        ensures same { file_shown H.HostFile self.new ≡ file_shown H.HostFile self.old }
    {
        self.file.sync()
    }
}
