// Copies of a disk's files by `snapshot`, and of the disk itself by `flatten`.
use access_calls::{buffer, flatten, read};
use cases::{Trouble, joined, number, runs, size};
use imago_access::{Format, FormatAccess, FormatDriverInstance, ReadFiles};
use imago_formats::Raw;
use imago_storage::MemStorage;
use qimg_chain::chain::{NamesFiles, snapshot};
use qimg_core::plain::ChainFile;
use std::alloc::Global;

/// Returns the word of a format.
pub fn word_of(format: Format) -> &'static str {
    match format {
        Format::Raw => "raw",
        Format::Qcow2 => "qcow2",
        Format::Vmdk => "vmdk",
    }
}

// Appends the length of a file, in bytes.
fn tell_length(alloc: Global, text: &mut String, file: &MemStorage) -> Result<(), Trouble> {
    let length = file.as_bytes().len().to_string(alloc)?;
    Ok(joined(text, length.as_str())?)
}

// Appends a layer: its format, the length of its image file, and the names and lengths of its extra files.
fn tell_layer(
    alloc: Global,
    text: &mut String,
    layer: &ChainFile<MemStorage>,
) -> Result<(), Trouble> {
    joined(text, word_of(layer.format))?;
    tell_length(alloc, text, &layer.image)?;
    for (name, file) in &layer.extras {
        joined(text, name.as_str())?;
        tell_length(alloc, text, file)?;
    }
    Ok(joined(text, "/")?)
}

// Returns a file of a layer. The image file has the number 0, and the extra files follow.
fn file_of(layer: &ChainFile<MemStorage>, file: usize) -> Result<&MemStorage, Trouble> {
    if file == 0 {
        return Ok(&layer.image);
    }
    match layer.extras.get(file - 1) {
        Some((_, extra)) => Ok(extra),
        None => Err(Trouble::NoCall),
    }
}

// Returns the bytes of a range of a file, or `Trouble::NoCall` if the range isn't inside the file.
fn range_of(alloc: Global, file: &MemStorage, offset: u64, n: u64) -> Result<String, Trouble> {
    let bytes = file.as_bytes();
    let end = offset.saturating_add(n);
    if end > bytes.len() as u64 {
        return Err(Trouble::NoCall);
    }
    Ok(runs(alloc, &bytes[offset as usize..end as usize])?)
}

/// Copies the files of a disk. Returns the lengths of all copies, or with `LAYER FILE OFFSET N` the bytes of a range of one copy.
///
/// # Errors
///
/// - `Trouble::NoCall` if the words don't have this form, or no copy has this range.
/// - `Trouble::Refused` if the copying fails.
pub fn copied<D: NamesFiles + ReadFiles>(
    alloc: Global,
    disk: &mut FormatAccess<D>,
    words: &[&str],
) -> Result<String, Trouble> {
    let layers = snapshot(alloc, disk)?;
    match words {
        [] => {
            let mut text = String::new(alloc);
            for layer in &layers {
                tell_layer(alloc, &mut text, layer)?;
            }
            Ok(text)
        }
        [layer, file, offset, n] => match layers.get(size(layer)?) {
            Some(layer) => range_of(
                alloc,
                file_of(layer, size(file)?)?,
                number(offset)?,
                number(n)?,
            ),
            None => Err(Trouble::NoCall),
        },
        _ => Err(Trouble::NoCall),
    }
}

// Returns a raw disk in memory of `n` bytes, all nonzero.
fn raw_disk(alloc: Global, n: u64) -> Result<FormatAccess<Raw<MemStorage>>, Trouble> {
    let file = MemStorage::from_bytes(buffer(alloc, n)?)?;
    Ok(FormatAccess::new(Raw::open_image(file, true)))
}

/// Copies a disk into a new raw disk in memory. With `SIZE` it returns all bytes of the copy, and with `SIZE OFFSET N` a range.
///
/// # Errors
///
/// - `Trouble::NoCall` if the words don't have this form, or `SIZE` or `N` is more than 16 MiB.
/// - `Trouble::Refused` if the copying or the read fails.
pub fn flattened<D: FormatDriverInstance>(
    alloc: Global,
    disk: &mut FormatAccess<D>,
    words: &[&str],
) -> Result<String, Trouble> {
    let (size, offset, n) = match words {
        [size] => (number(size)?, 0, number(size)?),
        [size, offset, n] => (number(size)?, number(offset)?, number(n)?),
        _ => return Err(Trouble::NoCall),
    };
    let mut target = raw_disk(alloc, size)?;
    flatten(alloc, disk, &mut target)?;
    read(alloc, &mut target, offset, n)
}
