// Calls of image builders. Also commits and cancels of mappings without state (with nothing to commit) by raw and VMDK drivers. No open
// disk of the case is used.
use crate::copies::word_of;
use crate::files::NamedStorages;
use crate::images::{access_of, opened};
use access_calls::{cancel, commit, prepared};
use cases::{Trouble, joined, number, ok, size};
use imago_access::{
    FormatAccess, FormatDriverBuilder, FormatDriverInstance, ImplicitOpenGate, PreparedDataMapping,
};
use imago_formats::{NoState, Raw, RawOpenBuilder, Vmdk, VmdkOpenBuilder};
use imago_storage::{Fault, Storage, StorageOpenOptions};
use qcow2_image::Qcow2OpenBuilder;
use std::alloc::Global;

// Parses `[options FILE]`, and gives the builder storage options with this file name.
fn told<S: Storage, B: FormatDriverBuilder<S> + Drop>(
    alloc: Global,
    builder: B,
    words: &[&str],
) -> Result<B, Trouble> {
    match words {
        [] => Ok(builder),
        ["options", file] => {
            let options = StorageOpenOptions::new().filename(file.to_string(alloc)?);
            Ok(builder.storage_open_options(options))
        }
        _ => Err(Trouble::NoCall),
    }
}

// Describes a builder: its format, how its image is opened, and the file name in its options, or `without` if it has no options.
fn said<S: Storage, B: FormatDriverBuilder<S>>(
    alloc: Global,
    builder: &B,
) -> Result<String, Trouble> {
    let format = word_of(B::FORMAT);
    let access = if builder.get_writable() {
        "writing"
    } else {
        "reading"
    };
    let name = match builder.get_storage_open_options() {
        None => "without",
        Some(options) => options.get_filename().unwrap_or("unnamed"),
    };
    Ok(format!(in alloc; "{format} {access} {name}")?)
}

// Configures a builder, opens its image, and returns the builder's description and the size of the disk in bytes.
fn built<S, B, F>(alloc: Global, image: S, files: &mut F, words: &[&str]) -> Result<String, Trouble>
where
    S: Storage,
    B: FormatDriverBuilder<S> + Drop,
    B::Format: Drop,
    F: ImplicitOpenGate<S>,
{
    let (is_writing, rest) = access_of(words);
    let mut builder = B::new(image);
    if is_writing {
        builder = builder.write(true);
    }
    let builder = told(alloc, builder, rest)?;
    let mut text = said(alloc, &builder)?;
    let driver = builder.open(alloc, files)?;
    let size = driver.size().to_string(alloc)?;
    joined(&mut text, size.as_str())?;
    Ok(text)
}

/// Opens a file of the case with the builder of a format: `FORMAT NAME [writing] [options FILE]`.
///
/// Returns the builder's format, access and options, and the size of the disk in bytes.
///
/// # Errors
///
/// - `Trouble::NoCall` if the words don't have this form, or the case has no such file.
/// - `Trouble::Refused` if the opening fails.
pub fn by_builder<S: Storage + Drop, F: NamedStorages<S> + ImplicitOpenGate<S>>(
    alloc: Global,
    files: &mut F,
    words: &[&str],
) -> Result<String, Trouble> {
    let [format, file @ ..] = words else {
        return Err(Trouble::NoCall);
    };
    let (image, rest) = opened(files, file)?;
    match *format {
        "raw" => built::<S, RawOpenBuilder<S>, F>(alloc, image, files, rest),
        "qcow2" => built::<S, Qcow2OpenBuilder<S>, F>(alloc, image, files, rest),
        "vmdk" => built::<S, VmdkOpenBuilder<S>, F>(alloc, image, files, rest),
        _ => Err(Trouble::NoCall),
    }
}

// Returns the text of a fault and of the mapping that the call returned with it.
fn refused(
    alloc: Global,
    fault: Fault,
    back: PreparedDataMapping<NoState>,
) -> Result<String, Trouble> {
    let mapping = prepared(alloc, &back);
    let _none = back.into_state();
    let mapping = mapping?;
    Ok(format!(in alloc; "{fault} back {mapping}")?)
}

// Commits a mapping. If the call returns the mapping, its text follows the fault.
fn committed<D: FormatDriverInstance<State = NoState>>(
    alloc: Global,
    disk: &mut FormatAccess<D>,
    mapping: PreparedDataMapping<NoState>,
) -> Result<String, Trouble> {
    match commit(alloc, disk, mapping) {
        Ok(()) => Ok(ok(alloc)?),
        Err((fault, None)) => Err(Trouble::Refused(fault)),
        Err((fault, Some(back))) => refused(alloc, fault, back),
    }
}

// Cancels a mapping. If the call fails, the text of the mapping follows the fault.
fn cancelled<D: FormatDriverInstance<State = NoState>>(
    alloc: Global,
    disk: &mut FormatAccess<D>,
    mapping: PreparedDataMapping<NoState>,
) -> Result<String, Trouble> {
    match cancel(disk, mapping) {
        Ok(()) => Ok(ok(alloc)?),
        Err((fault, back)) => refused(alloc, fault, back),
    }
}

// Commits or cancels a mapping without state on a disk of one layer.
fn spent<D: FormatDriverInstance<State = NoState> + Drop>(
    alloc: Global,
    driver: D,
    words: [&str; 4],
) -> Result<String, Trouble> {
    let [word, storage, offset, n] = words;
    let (storage, offset, n) = (size(storage)?, number(offset)?, number(n)?);
    let mut disk = FormatAccess::new(driver);
    match word {
        "commit" => {
            let mapping = PreparedDataMapping::existing(storage, offset, n);
            committed(alloc, &mut disk, mapping)
        }
        "cancel" => {
            let mapping = PreparedDataMapping::existing(storage, offset, n);
            cancelled(alloc, &mut disk, mapping)
        }
        _ => Err(Trouble::NoCall),
    }
}

/// Commits or cancels a mapping without state (with nothing to commit) on a raw or VMDK image: `FORMAT NAME commit | cancel STORAGE OFFSET
/// N`.
///
/// The image is a file of the case, and the driver is that of its format. The extents of a VMDK descriptor aren't opened.
///
/// # Errors
///
/// - `Trouble::NoCall` if the words don't have this form, or the case has no such file.
/// - `Trouble::Refused` if the opening fails, a commit fails without returning the mapping, or memory runs out.
pub fn spend<S: Storage + Drop, F: NamedStorages<S>>(
    alloc: Global,
    files: &mut F,
    words: &[&str],
) -> Result<String, Trouble> {
    let [format, name, word, storage, offset, n] = words else {
        return Err(Trouble::NoCall);
    };
    let call = [*word, *storage, *offset, *n];
    let image = files.open_storage(name)?;
    match *format {
        "raw" => spent(alloc, Raw::open_image(image, true), call),
        "vmdk" => spent(alloc, Vmdk::open_image(alloc, image)?, call),
        _ => Err(Trouble::NoCall),
    }
}
