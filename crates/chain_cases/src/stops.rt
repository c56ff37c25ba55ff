// Crash images of the top layer's file: its bytes after a crash between two requests. The file's requests are replayed one by one, and the
// checker and a plain read (of the files, opened as a new chain) look at each state.
use crate::files::{NamedFiles, NamedStorages};
use crate::openings::layers_of;
use access_calls::buffer;
use cases::{Trouble, joined, runs};
use imago_storage::{Fault, MemStorage, MemoryView, PreallocateMode, Request, Storage, StorageExt};
use qimg_chain::chain::plain_read;
use qimg_core::check::{CheckFault, check};
use std::alloc::Global;

/// The range to read in each crash image, and whether to report counts.
#[derive(Clone, Copy)]
pub struct Looked {
    /// The guest offset of the range that is read, in bytes.
    pub offset: u64,
    /// The length of the range, in bytes.
    pub length: u64,
    /// Set if the numbers of leaked clusters and of crash images are reported.
    pub is_counted: bool,
}

// A list of texts, in which consecutive equal texts are written once, after their number if `is_counted` is set.
#[derive(Drop)]
struct Row {
    is_counted: bool,
    text: String,
    last: String,
    count: u64,
}

impl Row {
    fn new(alloc: Global, is_counted: bool) -> Self {
        Row {
            is_counted,
            text: String::new(alloc),
            last: String::new(alloc),
            count: 0,
        }
    }

    // Writes the last text.
    fn tell(&mut self, alloc: Global) -> Result<(), Trouble> {
        if self.count == 0 {
            return Ok(());
        }
        if !self.text.is_empty() {
            joined(&mut self.text, "/")?;
        }
        if self.is_counted {
            let count = format!(in alloc; "{}:", self.count)?;
            joined(&mut self.text, count.as_str())?;
        }
        Ok(joined(&mut self.text, self.last.as_str())?)
    }

    // Adds a text at the end.
    fn add(&mut self, alloc: Global, one: String) -> Result<(), Trouble> {
        if one.as_str() != self.last.as_str() {
            self.tell(alloc)?;
            self.last = one;
            self.count = 0;
        }
        self.count = self.count.saturating_add(1);
        Ok(())
    }
}

// Checks a qcow2 image. Returns the number of leaked clusters, or an empty text if it isn't reported, or the checker's finding.
fn judged(alloc: Global, file: &MemStorage, is_counted: bool) -> Result<String, Trouble> {
    let mut image = MemoryView::new(file.as_bytes());
    match check(alloc, &mut image) {
        Ok(leaks) if is_counted => Ok(leaks.len().to_string(alloc)?),
        Ok(_) => Ok(String::new(alloc)),
        Err(CheckFault::Memory) => Err(Trouble::Refused(Fault::Memory)),
        Err(finding) => Ok(finding.to_string(alloc)?),
    }
}

// The files of a case, viewed without a copy. The bytes in `top` replace the first file that is opened.
#[derive(Drop)]
struct Views<'x, 'a> {
    top: Option<&'x [u8]>,
    files: &'x NamedFiles<'a>,
}

impl<'x, 'a> NamedStorages<MemoryView<'x>> for Views<'x, 'a> {
    fn open_storage(&mut self, name: &str) -> Result<MemoryView<'x>, Trouble> {
        match self.top.take() {
            Some(bytes) => Ok(MemoryView::new(bytes)),
            None => Ok(MemoryView::new(self.files.view(name)?)),
        }
    }
}

// Returns the bytes of a range of the chain, with `file` as the file of its top layer, or the fault of the read.
fn shown(
    alloc: Global,
    file: &MemStorage,
    looked: Looked,
    layers: &[&str],
    files: &NamedFiles<'_>,
) -> Result<String, Trouble> {
    let top = Some(file.as_bytes());
    let chain = layers_of(alloc, layers, &mut Views { top, files })?;
    let mut buf = buffer(alloc, looked.length)?;
    match plain_read(alloc, chain, looked.offset, &mut buf) {
        Ok(()) => Ok(runs(alloc, &buf)?),
        Err(Fault::Memory) => Err(Trouble::Refused(Fault::Memory)),
        Err(fault) => Ok(fault.to_string(alloc)?),
    }
}

// Replays a request on a file.
fn apply(alloc: Global, file: &mut MemStorage, request: &Request) -> Result<(), Fault> {
    match request {
        Request::Write { offset, bytes } => file.write(alloc, bytes, *offset),
        Request::Zeroes { offset, length } => file.write_allocated_zeroes(alloc, *offset, *length),
        Request::Resize { size } => file.resize(*size, PreallocateMode::None),
    }
}

// Returns a copy of the first layer's file.
fn first_file(
    alloc: Global,
    layers: &[&str],
    files: &NamedFiles<'_>,
) -> Result<MemStorage, Trouble> {
    match layers {
        [_, name, ..] => Ok(MemStorage::from_bytes(files.view(name)?.to_vec(alloc)?)?),
        _ => Err(Trouble::NoCall),
    }
}

/// Returns a copy of a file after all these requests.
///
/// # Errors
///
/// - `Trouble::NoCall` if the case has no such file.
/// - `Trouble::Refused` if memory runs out.
pub fn replayed(
    alloc: Global,
    requests: &[Request],
    name: &str,
    files: &NamedFiles<'_>,
) -> Result<MemStorage, Trouble> {
    let mut file = MemStorage::from_bytes(files.view(name)?.to_vec(alloc)?)?;
    for request in requests {
        apply(alloc, &mut file, request)?;
    }
    Ok(file)
}

/// Reports each crash image (the bytes after a crash between two requests) of the first layer's file, from the one after `forgotten`
/// requests to the one after all requests.
///
/// A report has the number of leaked clusters or the checker's finding, and the bytes of the range as the files say. Consecutive equal
/// reports are written once, after their number. Apart from the requests, the files have the bytes that the case gave them.
///
/// # Errors
///
/// - `Trouble::NoCall` if the words aren't layers, the case has no such file, or the range is longer than 16 MiB.
/// - `Trouble::Refused` if memory runs out, or a request can't be replayed.
pub fn stops(
    alloc: Global,
    requests: &[Request],
    forgotten: usize,
    looked: Looked,
    layers: &[&str],
    files: &NamedFiles<'_>,
) -> Result<String, Trouble> {
    let mut file = first_file(alloc, layers, files)?;
    let mut row = Row::new(alloc, looked.is_counted);
    for k in 0..=requests.len() {
        if k >= forgotten {
            let mut one = judged(alloc, &file, looked.is_counted)?;
            let bytes = shown(alloc, &file, looked, layers, files)?;
            joined(&mut one, bytes.as_str())?;
            row.add(alloc, one)?;
        }
        if let Some(request) = requests.get(k) {
            apply(alloc, &mut file, request)?;
        }
    }
    row.tell(alloc)?;
    let Row { text, .. } = row;
    Ok(text)
}
