// Opens images whose file is truncated to its first bytes. Each length of a range must give one answer.
use crate::files::{Base, NamedFiles};
use crate::images::{open_qcow2, open_vmdk};
use access_calls::read;
use cases::{Trouble, number};
use imago_access::{FormatAccess, FormatDriverInstance};
use imago_storage::Fault;
use qimg_chain::chain::ImageDriver;
use std::alloc::Global;

/// The part of an opened image to read: its size, or the bytes of a range.
#[derive(Clone, Copy)]
pub struct Looked {
    /// The offset and length of the range in bytes, or `None` for the size.
    range: Option<(u64, u64)>,
}

impl Looked {
    /// Parses `[OFFSET N]`.
    ///
    /// # Errors
    ///
    /// - `Trouble::NoCall` if the words don't have this form.
    pub fn new(words: &[&str]) -> Result<Self, Trouble> {
        match words {
            [] => Ok(Looked { range: None }),
            [offset, n] => Ok(Looked {
                range: Some((number(offset)?, number(n)?)),
            }),
            _ => Err(Trouble::NoCall),
        }
    }
}

// Opens a storage as an image of a format.
fn open_as<'a>(
    alloc: Global,
    storage: Base<'a>,
    files: &mut NamedFiles<'a>,
    format: &str,
) -> Result<ImageDriver<Base<'a>>, Trouble> {
    match format {
        "qcow2" => Ok(ImageDriver::Qcow2(open_qcow2(alloc, storage, files, &[])?)),
        "vmdk" => Ok(ImageDriver::Vmdk(open_vmdk(alloc, storage, files, &[])?)),
        _ => Err(Trouble::NoCall),
    }
}

// Returns the size of an image's disk, or the bytes of the range.
fn shown<D: FormatDriverInstance + Drop>(
    alloc: Global,
    driver: D,
    looked: Looked,
) -> Result<String, Trouble> {
    match looked.range {
        None => Ok(driver.size().to_string(alloc)?),
        Some((offset, n)) => read(alloc, &mut FormatAccess::new(driver), offset, n),
    }
}

// Opens the first `length` bytes of a file as an image, and reads what `looked` says.
fn prefix<'a>(
    alloc: Global,
    files: &mut NamedFiles<'a>,
    (format, name): (&str, &str),
    length: usize,
    looked: Looked,
) -> Result<String, Trouble> {
    let storage = files.open_prefix(name, length)?;
    shown(alloc, open_as(alloc, storage, files, format)?, looked)
}

// Like `prefix`, but a fault other than `Fault::Memory` is returned as text.
fn told<'a>(
    alloc: Global,
    files: &mut NamedFiles<'a>,
    file: (&str, &str),
    length: usize,
    looked: Looked,
) -> Result<String, Trouble> {
    match prefix(alloc, files, file, length, looked) {
        Err(Trouble::Refused(Fault::Memory)) => Err(Trouble::Refused(Fault::Memory)),
        Err(Trouble::Refused(fault)) => Ok(fault.to_string(alloc)?),
        answer => answer,
    }
}

/// Opens the first bytes of a file as an image, for each length from `first` to `last`.
///
/// Returns the answer of the first length. If another length has another answer, the first such length and its answer follow.
///
/// # Errors
///
/// - `Trouble::NoCall` if the case has no such file, the format isn't supported, or the range is longer than 16 MiB.
/// - `Trouble::Refused` if memory runs out.
pub fn prefixes<'a>(
    alloc: Global,
    files: &mut NamedFiles<'a>,
    file: (&str, &str),
    (first, last): (usize, usize),
    looked: Looked,
) -> Result<String, Trouble> {
    let all = told(alloc, files, file, first, looked)?;
    for length in first..=last {
        let one = told(alloc, files, file, length, looked)?;
        if one.as_str() != all.as_str() {
            return Ok(format!(in alloc; "{all} and at {length} {one}")?);
        }
    }
    Ok(all)
}
