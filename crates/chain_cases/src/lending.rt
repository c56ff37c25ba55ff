// Calls on the files that the driver of the top layer (the top image) returns by reference or by value.
use access_calls::{buffer, top};
use cases::{Trouble, bytes, number, ok, runs, size};
use imago_access::{FormatAccess, FormatDriverInstance};
use imago_storage::{Storage, StorageExt};
use qimg_chain::chain::ImageDriver;
use std::alloc::Global;

fn image<S: Storage>(driver: &ImageDriver<S>) -> &S {
    match driver {
        ImageDriver::Raw(raw) => raw.image(),
        ImageDriver::Vmdk(vmdk) => vmdk.image(),
        ImageDriver::Qcow2(qcow2) => qcow2.image(),
    }
}

fn image_mut<S: Storage>(driver: &mut ImageDriver<S>) -> &mut S {
    match driver {
        ImageDriver::Raw(raw) => raw.image_mut(),
        ImageDriver::Vmdk(vmdk) => vmdk.image_mut(),
        ImageDriver::Qcow2(qcow2) => qcow2.image_mut(),
    }
}

// Returns the file of an open extent, or `Trouble::NoCall` if the image has no open extent with this index.
fn extra_mut<S: Storage>(driver: &mut ImageDriver<S>, index: usize) -> Result<&mut S, Trouble> {
    match driver {
        ImageDriver::Vmdk(vmdk) if index < vmdk.extras() => Ok(vmdk.extra_mut(index)),
        _ => Err(Trouble::NoCall),
    }
}

// Takes the image file out of the top layer's driver. Fails with `Trouble::NoCall` if a mapping is prepared.
fn into_image<S: Storage + Drop>(disk: FormatAccess<ImageDriver<S>>) -> Result<S, Trouble> {
    if disk.inner().prepared() {
        return Err(Trouble::NoCall);
    }
    Ok(disk.into_driver().into_image())
}

fn range_of<S: Storage>(
    alloc: Global,
    file: &mut S,
    offset: u64,
    n: u64,
) -> Result<String, Trouble> {
    let mut buf = buffer(alloc, n)?;
    file.read(alloc, &mut buf, offset)?;
    Ok(runs(alloc, &buf)?)
}

fn written<S: Storage>(
    alloc: Global,
    file: &mut S,
    offset: u64,
    words: &[&str],
) -> Result<String, Trouble> {
    let given = bytes(alloc, words)?;
    file.write(alloc, &given, offset)?;
    Ok(ok(alloc)?)
}

// Returns the name of an extra file, in quotes. A raw or qcow2 image has no extra files, and gives an empty name for each index.
fn extra_name<S: Storage>(
    alloc: Global,
    driver: &ImageDriver<S>,
    index: usize,
) -> Result<String, Trouble> {
    let name = match driver {
        ImageDriver::Raw(raw) => raw.extra_name(index),
        ImageDriver::Vmdk(vmdk) if index < vmdk.extras() => vmdk.extra_name(index),
        ImageDriver::Vmdk(_) => return Err(Trouble::NoCall),
        ImageDriver::Qcow2(qcow2) => qcow2.extra_name(index),
    };
    Ok(format!(in alloc; "\"{name}\"")?)
}

/// Drops a disk except for the image file of its top layer, and reads bytes of this file.
///
/// # Errors
///
/// - `Trouble::NoCall` if a mapping is prepared, or the range is longer than 16 MiB.
/// - `Trouble::Refused` if the read fails.
pub fn given_back<S: Storage + Drop>(
    alloc: Global,
    disk: FormatAccess<ImageDriver<S>>,
    offset: u64,
    n: u64,
) -> Result<String, Trouble> {
    let mut file = into_image(disk)?;
    range_of(alloc, &mut file, offset, n)
}

/// Reads or writes a file that the top layer's driver returns by reference.
///
/// - `image`: the length of the image file, in bytes.
/// - `image OFFSET N`, `write_image OFFSET BYTES`: a read or a write of the image file.
/// - `extra INDEX OFFSET N`, `write_extra INDEX OFFSET BYTES`: a read or a write of an extent's file.
/// - `extra_name INDEX`: the name of an extra file.
///
/// # Errors
///
/// - `Trouble::NoCall` if the words aren't such a call, the image has no such file, or a range to read is longer than 16 MiB.
/// - `Trouble::NoCall` if a mapping is prepared, except for `image` without a range and `extra_name`.
/// - `Trouble::Refused` if the call fails.
pub fn lent<S: Storage>(
    alloc: Global,
    disk: &mut FormatAccess<ImageDriver<S>>,
    words: &[&str],
) -> Result<String, Trouble> {
    match words {
        ["image"] => Ok(image(disk.inner()).size().to_string(alloc)?),
        ["image", offset, n] => {
            range_of(alloc, image_mut(top(disk)?), number(offset)?, number(n)?)
        }
        ["write_image", offset, given @ ..] => {
            written(alloc, image_mut(top(disk)?), number(offset)?, given)
        }
        ["extra", index, offset, n] => {
            let file = extra_mut(top(disk)?, size(index)?)?;
            range_of(alloc, file, number(offset)?, number(n)?)
        }
        ["write_extra", index, offset, given @ ..] => {
            let file = extra_mut(top(disk)?, size(index)?)?;
            written(alloc, file, number(offset)?, given)
        }
        ["extra_name", index] => extra_name(alloc, disk.inner(), size(index)?),
        _ => Err(Trouble::NoCall),
    }
}
