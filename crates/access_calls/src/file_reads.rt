// Reads the files of a disk's layers. Dirty data in memory isn't in them.
use crate::calls::buffer;
use cases::{Trouble, number, runs, size};
use imago_access::{FormatAccess, FormatDriverInstance, ReadFiles};
use std::alloc::Global;

/// Returns the length of a file in bytes, or 0 if no file has these numbers. The top is layer 0, and its image file is file 0.
///
/// # Errors
///
/// - [`Trouble::Refused`] if memory runs out.
pub fn file_size<D: FormatDriverInstance>(
    alloc: Global,
    disk: &FormatAccess<D>,
    layer: usize,
    file: usize,
) -> Result<String, Trouble> {
    Ok(disk.file_size(layer, file).to_string(alloc)?)
}

fn read_file<D: ReadFiles>(
    alloc: Global,
    disk: &mut FormatAccess<D>,
    layer: usize,
    file: usize,
    offset: u64,
    n: u64,
) -> Result<String, Trouble> {
    let mut buf = buffer(alloc, n)?;
    disk.read_file(alloc, layer, file, offset, &mut buf)?;
    Ok(runs(alloc, &buf)?)
}

/// Reads bytes of a file: `LAYER FILE OFFSET N`, with the numbers of the layer and of the file.
///
/// # Errors
///
/// - [`Trouble::NoCall`] if the words don't have this form, or the range is longer than 16 MiB.
/// - [`Trouble::Refused`] if the call fails.
pub fn read_by<D: ReadFiles>(
    alloc: Global,
    disk: &mut FormatAccess<D>,
    words: &[&str],
) -> Result<String, Trouble> {
    let [layer, file, offset, n] = words else {
        return Err(Trouble::NoCall);
    };
    let (layer, file) = (size(layer)?, size(file)?);
    let (offset, n) = (number(offset)?, number(n)?);
    read_file(alloc, disk, layer, file, offset, n)
}
