// A file of the host, with pages in memory.
ghost use Rattle.std.specs.Prelude.{◌≡◌, ℕ, ◌+◌, ◌-◌, ◌*◌, ◌<◌, ◌≤◌, ◌^◌, List, length, slice_index, IfOk, OnOk, OnErr, IsTrue, IfSome, Contains, Vec};
ghost use Rattle.std.specs.Global.{Global as Alloc};
ghost use Rattle.imago_storage.specs.Calls.{Reads};
ghost use Rattle.host_file.specs.FileState.{IsOnlyRead};
ghost use Rattle.paged_storage.specs.Pages.{AreOf, AreWhole, IsAgreed, IsOf, IsWhole};

use crate::pieces::{byte_count, overlay, zero_in};
use host_file::HostFile;
use lru::LruCache;
use std::alloc::{AllocError, Global};
use std::io;
use std::num::NonZeroUsize;

/// The number of bytes in a page.
pub const PAGE: u64 = 65536;

/// A file of the host, with some of its pages in memory. The pages are numbered from 0.
#[derive(Drop)]
pub struct PagedFile<H: HostFile> {
    pub(crate) file: H,
    pub(crate) size: u64,
    pub(crate) pages: LruCache<u64, Vec<u8>>,
    ghost whole: { AreWhole pages.entries },
    ghost agrees: { IsTrue (H.HostFile.state file).truthful → IsAgreed size pages.entries (H.HostFile.state file).held },
}

// Extends a page to its full length with zeroes.
fn pad(page: &mut Vec<u8>) -> Result<(), AllocError>
    requires { length page.old.items ≤ 65536 }
    ensures same { OnOk result ((k : ℕ) → slice_index page.new.items k ≡ slice_index page.old.items k) }
    ensures len { OnOk result (length page.new.items ≡ 65536) }
{
    page.resize(PAGE as usize, 0)?;
    Ok(())
}

// Drops the pages that were put in first, until at most `most` are left.
fn shrink(pages: &mut LruCache<u64, Vec<u8>>, most: NonZeroUsize)
    ensures { (n : ℕ) (page : Vec ℕ Alloc) → Contains pages.new.entries (n, page) → Contains pages.old.entries (n, page) }
{
    pages.resize(most);
}

// Puts a page among others.
pub(crate) fn admit(
    pages: &mut LruCache<u64, Vec<u8>>,
    number: u64,
    page: Vec<u8>,
) -> Result<(), AllocError>
    requires whole { AreWhole pages.old.entries }
    requires page { IsWhole page }
    ensures whole { AreWhole pages.new.entries }
    ensures held { (held : List ℕ) → AreOf held pages.old.entries → IsOf held number page → AreOf held pages.new.entries }
{
    match pages.put(number, page) {
        Ok(_) => Ok(()),
        Err(_) => Err(AllocError),
    }
}

// Reads a range of a file.
fn read_range<H: HostFile>(alloc: Global, file: &mut H, at: u64, n: usize) -> io::Result<Vec<u8>>
    ensures len { IfOk result (λ bytes. length bytes.items ≡ n) }
    ensures read { IfOk result (λ bytes. IsTrue (H.HostFile.state file.new).truthful
        → Reads (H.HostFile.state file.old).held at bytes.items) }
    ensures only_read { IsOnlyRead (H.HostFile.state file.old) (H.HostFile.state file.new) }
{
    let mut bytes = vec![in alloc; 0u8; n]?;
    file.read_at(at, &mut bytes)?;
    Ok(bytes)
}

// Reads a page of a file of this size. Returns `None` if the page is past the end.
fn read_page<H: HostFile>(
    alloc: Global,
    file: &mut H,
    size: u64,
    number: u64,
) -> io::Result<Option<Vec<u8>>>
    requires { IsTrue (H.HostFile.state file.old).truthful → size ≡ length (H.HostFile.state file.old).held }
    ensures whole { IfOk result (λ read. IfSome read (λ page. IsWhole page)) }
    ensures read { IfOk result (λ read. IfSome read (λ page. IsTrue (H.HostFile.state file.new).truthful
        → IsOf (H.HostFile.state file.old).held number page)) }
    ensures only_read { IsOnlyRead (H.HostFile.state file.old) (H.HostFile.state file.new) }
{
    if number > u64::MAX / PAGE || number * PAGE >= size {
        return Ok(None);
    }
    let at = number * PAGE;
    let there = PAGE.min(size - at) as usize;
    let mut page = read_range(alloc, file, at, there)?;
    pad(&mut page)?;
    let _known = byte_count(&page);
    Ok(Some(page))
}

#[tactic(auto, unfolding(crate::specs::Pages::shown))]
impl<H: HostFile> PagedFile<H> {
    ghost use Rattle.paged_storage.specs.PagedFiles.{file_shown, host_state};

    /// Takes a file of the host. No page is in memory yet.
    ///
    /// # Errors
    ///
    /// The error of the host, or that memory ran out.
    pub fn new(alloc: Global, file: H) -> io::Result<Self>
        ensures shown { IfOk result (λ f. IsTrue (host_state H.HostFile f).truthful
            → file_shown H.HostFile f ≡ (H.HostFile.state file).held) }
        ensures only_read { IfOk result (λ f. IsOnlyRead (H.HostFile.state file) (host_state H.HostFile f)) }
    {
        let mut file = file;
        let pages = LruCache::unbounded(alloc)?;
        let size = file.size()?;
        Ok(PagedFile { file, size, pages })
    }

    /// Returns the size of the file in bytes.
    pub fn size(&self) -> u64
        ensures { result ≡ self.now.size }
    {
        self.size
    }

    /// Returns the number of pages in memory.
    pub fn page_count(&self) -> usize {
        self.pages.len()
    }

    /// Reads a page from the file, if it isn't in memory. A page past the end is left out.
    ///
    /// # Errors
    ///
    /// The error of the host, or that memory ran out. The page isn't in memory then.
    pub fn fetch(&mut self, alloc: Global, number: u64) -> io::Result<()>
        // While the file answers truthfully, a storage over it shows the same bytes.
        ensures same { IsTrue (host_state H.HostFile self.new).truthful → file_shown H.HostFile self.new ≡ file_shown H.HostFile self.old }
        ensures size { self.new.size ≡ self.old.size }
        ensures only_read { IsOnlyRead (host_state H.HostFile self.old) (host_state H.HostFile self.new) }
    {
        if self.pages.contains(&number) {
            return Ok(());
        }
        let Some(page) = read_page(alloc, &mut self.file, self.size, number)? else {
            return Ok(());
        };
        admit(&mut self.pages, number, page)?;
        Ok(())
    }

    /// Drops the pages that were read first, until at most `most` are in memory.
    pub fn trim(&mut self, most: NonZeroUsize)
        ensures same { IsTrue (host_state H.HostFile self.new).truthful → file_shown H.HostFile self.new ≡ file_shown H.HostFile self.old }
        ensures size { self.new.size ≡ self.old.size }
        ensures host { host_state H.HostFile self.new ≡ host_state H.HostFile self.old }
    {
        shrink(&mut self.pages, most);
        shrink(&mut self.pages, NonZeroUsize::MAX);
    }

    // Fills the buffer with bytes of the file, by the pages in memory. Fails with the number of a page that isn't in memory.
    fn read_there(&self, buf: &mut [u8], offset: u64) -> Result<(), u64>
        requires some { 0 < length buf.old }
        requires there { offset + length buf.old ≤ self.now.size }
        ensures { OnOk result (Reads (file_shown H.HostFile self.now) offset buf.new) }
    {
        let last = (offset + buf.len() as u64 - 1) / PAGE;
        for number in offset / PAGE..last + 1 {
            let Some(page) = self.pages.peek(&number) else {
                return Err(number);
            };
            overlay_page(buf, offset, page, number);
        }
        Ok(())
    }

    // Fills the buffer with the bytes from `offset` on, by the pages in memory. Bytes past the end read as 0. Fails with the number of a page
    // that isn't in memory.
    pub(crate) fn read(&self, buf: &mut [u8], offset: u64) -> Result<(), u64>
        requires { offset + length buf.old < 2 ^ 64 }
        ensures { OnOk result (Reads (file_shown H.HostFile self.now) offset buf.new) }
    {
        let end = (offset + buf.len() as u64).min(self.size);
        let there = end.saturating_sub(offset) as usize;
        zero_in(buf, there, buf.len() - there);
        if there == 0 {
            return Ok(());
        }
        self.read_there(&mut buf[..there], offset)?;
        Ok(())
    }
}

// Copies the part of a page that is in the range of the buffer.
fn overlay_page(buf: &mut [u8], offset: u64, page: &[u8], number: u64)
    requires buffer { offset + length buf.old < 2 ^ 64 }
    requires page { number * 65536 < offset + length buf.old }
    requires whole { length page.now ≡ 65536 }
    ensures inside { (k : ℕ) → k < length buf.old → number * 65536 ≤ offset + k → offset + k < number * 65536 + 65536
        → slice_index buf.new k ≡ slice_index page.now (offset + k - number * 65536) }
    ensures before { (k : ℕ) → offset + k < number * 65536 → slice_index buf.new k ≡ slice_index buf.old k }
{
    let at = number * PAGE;
    let there = (u64::MAX - at).min(PAGE) as usize;
    overlay(buf, offset, &page[..there], at);
}
