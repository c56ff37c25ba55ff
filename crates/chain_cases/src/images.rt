// Opens files of the case as images of one format, with the access, backing and cache sizes that the script gives.
use crate::files::{NamedFiles, NamedStorages};
use cases::{Trouble, size};
use imago_access::{FormatDriverBuilder, ImplicitOpenGate};
use imago_formats::{Raw, Vmdk};
use imago_storage::Storage;
use qcow2_image::{Qcow2, Qcow2OpenBuilder};
use std::alloc::Global;

/// The value of the first words of a list, and the words after them.
pub type Split<'x, 'y, T> = (T, &'y [&'x str]);

/// Parses `[writing]`. Returns true if the first word is `writing`, and the words after it.
pub fn access_of<'x, 'y>(words: &'y [&'x str]) -> Split<'x, 'y, bool> {
    match words {
        ["writing", rest @ ..] => (true, rest),
        _ => (false, words),
    }
}

// Parses `[writing]`, with nothing after it.
fn access_alone(words: &[&str]) -> Result<bool, Trouble> {
    let (is_writing, rest) = access_of(words);
    if !rest.is_empty() {
        return Err(Trouble::NoCall);
    }
    Ok(is_writing)
}

// Parses `[backed | alone]`: whether unallocated bytes are read from layers below (the backing chain), or `None` by default.
fn backing_of<'x, 'y>(words: &'y [&'x str]) -> Split<'x, 'y, Option<bool>> {
    match words {
        ["backed", rest @ ..] => (Some(true), rest),
        ["alone", rest @ ..] => (Some(false), rest),
        _ => (None, words),
    }
}

// Parses `[caches L R]`, and gives the builder caches of `L` L2 tables and `R` refcount blocks.
fn cached<S: Storage>(
    builder: Qcow2OpenBuilder<S>,
    words: &[&str],
) -> Result<Qcow2OpenBuilder<S>, Trouble> {
    match words {
        [] => Ok(builder),
        ["caches", tables, blocks] => Ok(builder.cache_entries(size(tables)?, size(blocks)?)?),
        _ => Err(Trouble::NoCall),
    }
}

/// Opens a storage as a qcow2 image: `[writing] [backed | alone] [caches L R]`.
///
/// # Errors
///
/// - `Trouble::NoCall` if the words don't have this form.
/// - `Trouble::Refused` if the opening fails.
pub fn open_qcow2<S: Storage + Drop, F: ImplicitOpenGate<S>>(
    alloc: Global,
    storage: S,
    files: &mut F,
    words: &[&str],
) -> Result<Qcow2<S>, Trouble> {
    let (is_writing, rest) = access_of(words);
    let (backing, rest) = backing_of(rest);
    let builder = cached(Qcow2::builder(storage).write(is_writing), rest)?;
    let builder = match backing {
        Some(backing) => builder.backing(backing),
        None => builder,
    };
    Ok(builder.open(alloc, files)?)
}

// Opens a storage as a qcow2 image without a builder: `[writing]`.
fn open_plain<S: Storage + Drop>(
    alloc: Global,
    storage: S,
    words: &[&str],
) -> Result<Qcow2<S>, Trouble> {
    Ok(Qcow2::open_image(alloc, storage, access_alone(words)?)?)
}

/// Opens a storage as a VMDK descriptor, with its extents, which are files of the case: `[writing]`.
///
/// # Errors
///
/// The errors of `open_qcow2`.
pub fn open_vmdk<S: Storage + Drop, F: ImplicitOpenGate<S>>(
    alloc: Global,
    storage: S,
    files: &mut F,
    words: &[&str],
) -> Result<Vmdk<S>, Trouble> {
    let is_writing = access_alone(words)?;
    Ok(Vmdk::builder(storage).write(is_writing).open(alloc, files)?)
}

/// Opens the file whose name is the first word. Returns its storage and the words after the name.
///
/// # Errors
///
/// - `Trouble::NoCall` if `words` is empty, or the case has no such file.
/// - `Trouble::Refused` if memory runs out, or the storage can't be made.
pub fn opened<'x, 'y, S, F: NamedStorages<S>>(
    files: &mut F,
    words: &'y [&'x str],
) -> Result<Split<'x, 'y, S>, Trouble> {
    match words {
        [name, rest @ ..] => Ok((files.open_storage(name)?, rest)),
        _ => Err(Trouble::NoCall),
    }
}

/// Opens a file of the case as a raw image: `NAME [writing]`.
///
/// # Errors
///
/// The errors of `opened`, and `Trouble::NoCall` if the words don't have this form.
pub fn raw<S: Storage + Drop, F: NamedStorages<S>>(
    files: &mut F,
    words: &[&str],
) -> Result<Raw<S>, Trouble> {
    let (storage, rest) = opened(files, words)?;
    Ok(Raw::open_image(storage, access_alone(rest)?))
}

/// Opens a file of the case as a qcow2 image: `NAME`, and then the arguments of `open_qcow2`, or `plain [writing]` without a builder.
///
/// # Errors
///
/// The errors of `opened` and `open_qcow2`.
pub fn qcow2<S: Storage + Drop, F: NamedStorages<S> + ImplicitOpenGate<S>>(
    alloc: Global,
    files: &mut F,
    words: &[&str],
) -> Result<Qcow2<S>, Trouble> {
    let (storage, rest) = opened(files, words)?;
    match rest {
        ["plain", rest @ ..] => open_plain(alloc, storage, rest),
        _ => open_qcow2(alloc, storage, files, rest),
    }
}

/// Opens a file of the case as a VMDK descriptor: `NAME`, and then the arguments of `open_vmdk`, or `plain` to open no extents.
///
/// # Errors
///
/// The errors of `opened` and `open_vmdk`.
pub fn vmdk<S: Storage + Drop, F: NamedStorages<S> + ImplicitOpenGate<S>>(
    alloc: Global,
    files: &mut F,
    words: &[&str],
) -> Result<Vmdk<S>, Trouble> {
    let (storage, rest) = opened(files, words)?;
    match rest {
        ["plain"] => Ok(Vmdk::open_image(alloc, storage)?),
        _ => open_vmdk(alloc, storage, files, rest),
    }
}

/// Answers whether a file of the case begins like an image of the format.
///
/// # Errors
///
/// - `Trouble::NoCall` if the format isn't `qcow2` or `vmdk`, or the case has no such file.
/// - `Trouble::Refused` if the call fails.
pub fn probe<'a>(
    alloc: Global,
    files: &mut NamedFiles<'a>,
    format: &str,
    name: &str,
) -> Result<String, Trouble> {
    let mut storage = files.open(name)?;
    let begins = match format {
        "qcow2" => Qcow2::probe(alloc, &mut storage)?,
        "vmdk" => Vmdk::probe(alloc, &mut storage)?,
        _ => return Err(Trouble::NoCall),
    };
    Ok(begins.to_string(alloc)?)
}
