// Calls that print the file, the guest's bytes, or the requests of the storage.
use crate::findings;
use crate::images::{Images, refused};
use crate::kept::Image;
use cases::{Trouble, number, runs, size};
use imago_access::Format;
use imago_storage::{Request, Storage, StorageExt};
use qimg_core::check::check;
use qimg_core::plain::{ChainFile, plain_read};
use std::alloc::{AllocError, Global};

/// The content of a buffer before it is read into.
const BLANK: u8 = 7;

// Returns the text of a change of a storage, such as `write OFFSET LENGTH`.
fn change_told(alloc: Global, request: &Request) -> Result<String, AllocError> {
    match request {
        Request::Write { offset, bytes } => {
            let length = bytes.len();
            format!(in alloc; "write {offset} {length}")
        }
        Request::Zeroes { offset, length } => format!(in alloc; "zeroes {offset} {length}"),
        Request::Resize { size } => format!(in alloc; "resize {size}"),
    }
}

// Returns the text of the change with this number, from 1 on.
fn nth_change(alloc: Global, requests: &[Request], nth: usize) -> Result<String, Trouble> {
    let index = nth.checked_sub(1).ok_or(Trouble::NoCall)?;
    let request = requests.get(index).ok_or(Trouble::NoCall)?;
    Ok(change_told(alloc, request)?)
}

// Parses the format of a file of a chain.
fn format_of(word: &str) -> Result<Format, Trouble> {
    match word {
        "qcow2" => Ok(Format::Qcow2),
        "raw" => Ok(Format::Raw),
        "vmdk" => Ok(Format::Vmdk),
        _ => Err(Trouble::NoCall),
    }
}

impl<'a> Images<'a> {
    // Returns `length` bytes of the file from `offset` on. Bytes past its end are 0.
    fn bytes_of_file(
        &mut self,
        alloc: Global,
        offset: u64,
        length: usize,
    ) -> Result<String, Trouble> {
        let mut file = self.take_file(alloc)?;
        let mut buf = vec![in alloc; BLANK; length]?;
        file.read(alloc, &mut buf, offset)?;
        self.file = Some(file);
        Ok(runs(alloc, &buf)?)
    }

    // Makes a plain read of a chain of files with these formats. Each file has the bytes of the case's file.
    fn plain_bytes(
        &mut self,
        alloc: Global,
        formats: &[&str],
        (offset, length): (u64, usize),
    ) -> Result<String, Trouble> {
        let file = self.take_file(alloc)?;
        let mut files = Vec::new(alloc);
        for word in formats.iter() {
            let format = format_of(word)?;
            let image = Image::new(alloc, file.bytes()?, self.setting, self.noted)?;
            let extras = Vec::new(alloc);
            files.push(ChainFile {
                format,
                image,
                extras,
            })?;
        }
        self.file = Some(file);
        let mut buf = vec![in alloc; BLANK; length]?;
        match plain_read(alloc, files.as_mut_slice(), offset, &mut buf) {
            Ok(()) => Ok(runs(alloc, &buf)?),
            Err(fault) => refused(alloc, fault),
        }
    }

    // Returns the checker's answer.
    fn checked(&mut self, alloc: Global) -> Result<String, Trouble> {
        let mut kept = self.lend(alloc)?;
        let answer = check(alloc, &mut kept);
        self.kept = Some(kept);
        findings::told(alloc, answer)
    }

    // Returns the recorded changes of the storage that was made last.
    fn kept_told(&self, alloc: Global, name: &str, words: &[&str]) -> Result<String, Trouble> {
        let Some(kept) = &self.kept else {
            return Err(Trouble::NoCall);
        };
        match (name, words) {
            ("changes", []) => Ok(kept.requests().len().to_string(alloc)?),
            ("change", [nth]) => nth_change(alloc, kept.requests(), size(nth)?),
            _ => Err(Trouble::NoCall),
        }
    }

    /// Prints something about the file. The file doesn't change.
    ///
    /// - `check`: the checker's answer
    /// - `plain OFFSET LENGTH [FORMAT ..]`: bytes by a plain read, of one qcow2 file or of a chain of files with these formats; `none` is
    ///   a chain without files
    /// - `bytes OFFSET LENGTH`: bytes of the file
    /// - `length`: the file's length
    /// - `changes`: the number of changes of the storage that was made last
    /// - `change N`: the Nth change of the storage that was made last, from 1 on
    /// - `calls`: the number of calls of the storage that was made last
    /// - `finding NAME`: the text of a resource error of the checker
    ///
    /// # Errors
    ///
    /// - `Trouble::NoCall` if the call is none of these.
    /// - `Trouble::Refused` if the checker or the read fails with a fault, or memory runs out.
    pub fn look(&mut self, alloc: Global, name: &str, words: &[&str]) -> Result<String, Trouble> {
        match (name, words) {
            ("check", []) => self.checked(alloc),
            ("plain", [offset, length]) => {
                self.plain_bytes(alloc, &["qcow2"], (number(offset)?, size(length)?))
            }
            ("plain", [offset, length, "none"]) => {
                self.plain_bytes(alloc, &[], (number(offset)?, size(length)?))
            }
            ("plain", [offset, length, formats @ ..]) => {
                self.plain_bytes(alloc, formats, (number(offset)?, size(length)?))
            }
            ("bytes", [offset, length]) => {
                self.bytes_of_file(alloc, number(offset)?, size(length)?)
            }
            ("length", []) => {
                let file = self.take_file(alloc)?;
                let length = file.size();
                self.file = Some(file);
                Ok(length.to_string(alloc)?)
            }
            ("calls", []) => Ok(self.noted.calls.get().to_string(alloc)?),
            ("finding", [name]) => findings::text_of(alloc, name),
            _ => self.kept_told(alloc, name, words),
        }
    }
}
