// Calls that only a qcow2 image has, on the top layer.
use access_calls::{done, top};
use cases::{Trouble, joined};
use imago_access::{FormatAccess, FormatDriverInstance};
use imago_storage::Storage;
use qcow2_image::Qcow2;
use qimg_chain::chain::ImageDriver;
use std::alloc::Global;

// Returns the top image, or `Trouble::NoCall` if it isn't qcow2.
fn image_of<S: Storage>(disk: &FormatAccess<ImageDriver<S>>) -> Result<&Qcow2<S>, Trouble> {
    match disk.inner() {
        ImageDriver::Qcow2(image) => Ok(image),
        ImageDriver::Raw(_) | ImageDriver::Vmdk(_) => Err(Trouble::NoCall),
    }
}

// Appends a name in quotes, or `none`.
fn tell_name(alloc: Global, text: &mut String, name: Option<&str>) -> Result<(), Trouble> {
    let Some(name) = name else {
        return Ok(joined(text, "none")?);
    };
    let quoted = format!(in alloc; "\"{name}\"")?;
    Ok(joined(text, quoted.as_str())?)
}

// Returns whether the image has an external data file, and the names in its header: the data file, the backing file and its format.
fn names<S: Storage>(alloc: Global, image: &Qcow2<S>) -> Result<String, Trouble> {
    let mut text = image.requires_external_data_file().to_string(alloc)?;
    tell_name(alloc, &mut text, image.implicit_external_data_file())?;
    tell_name(alloc, &mut text, image.implicit_backing_file())?;
    tell_name(alloc, &mut text, image.implicit_backing_format())?;
    Ok(text)
}

// Sets whether unallocated bytes are read from layers below. Fails with `Trouble::NoCall` if a mapping is prepared.
fn set_backing<S: Storage>(
    disk: &mut FormatAccess<ImageDriver<S>>,
    backing: bool,
) -> Result<(), Trouble> {
    match top(disk)? {
        ImageDriver::Qcow2(image) if !image.prepared() => {
            image.set_backing(backing);
            Ok(())
        }
        _ => Err(Trouble::NoCall),
    }
}

/// Makes a call of a qcow2 image on top: `names`, `failed`, `backing`, `set_backing true | false`, or `debug`, its `Debug` text.
///
/// # Errors
///
/// - `Trouble::NoCall` if the words aren't such a call, the top image isn't qcow2, or `set_backing` is called while a mapping is prepared.
/// - `Trouble::Refused` if memory runs out.
pub fn said<S: Storage>(
    alloc: Global,
    disk: &mut FormatAccess<ImageDriver<S>>,
    words: &[&str],
) -> Result<String, Trouble> {
    match words {
        ["names"] => names(alloc, image_of(disk)?),
        ["failed"] => Ok(image_of(disk)?.failed().to_string(alloc)?),
        ["backing"] => Ok(image_of(disk)?.backing().to_string(alloc)?),
        ["set_backing", "true"] => done(alloc, set_backing(disk, true)),
        ["set_backing", "false"] => done(alloc, set_backing(disk, false)),
        ["debug"] => {
            let image = image_of(disk)?;
            Ok(format!(in alloc; "{image:?}")?)
        }
        _ => Err(Trouble::NoCall),
    }
}
