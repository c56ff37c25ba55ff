// Builds a disk layer by layer (image by image, the lowest first), and makes calls that need its drivers.
use crate::files::NamedStorages;
use crate::images::{qcow2, raw, vmdk};
use access_calls::{stacked, top};
use cases::{Trouble, joined};
use imago_access::{FormatAccess, FormatDriverInstance, ImplicitOpenGate};
use imago_storage::{FuseStorage, Storage};
use qimg_chain::chain::ImageDriver;
use std::alloc::Global;

/// Opens a file of the case as an image: a format, and the words of `images::raw`, `images::qcow2` or `images::vmdk`.
pub fn image_of<S: Storage + Drop, F: NamedStorages<S> + ImplicitOpenGate<S>>(
    alloc: Global,
    words: &[&str],
    files: &mut F,
) -> Result<ImageDriver<S>, Trouble> {
    match words {
        ["raw", rest @ ..] => Ok(ImageDriver::Raw(raw(files, rest)?)),
        ["qcow2", rest @ ..] => Ok(ImageDriver::Qcow2(qcow2(alloc, files, rest)?)),
        ["vmdk", rest @ ..] => Ok(ImageDriver::Vmdk(vmdk(alloc, files, rest)?)),
        _ => Err(Trouble::NoCall),
    }
}

// Puts an image on top of a disk. Fails with `Trouble::NoCall` if the image reads nothing from a layer below.
fn over<S: Storage + Drop>(
    alloc: Global,
    driver: ImageDriver<S>,
    below: FormatAccess<ImageDriver<S>>,
) -> Result<FormatAccess<ImageDriver<S>>, Trouble> {
    if !driver.shows_below() {
        return Err(Trouble::NoCall);
    }
    stacked(alloc, driver, below)
}

/// Puts an image on top of a disk. Without a disk it becomes the lowest layer.
pub fn add<S: Storage + Drop>(
    alloc: Global,
    driver: ImageDriver<S>,
    below: Option<FormatAccess<ImageDriver<S>>>,
) -> Result<FormatAccess<ImageDriver<S>>, Trouble> {
    match below {
        None => Ok(FormatAccess::new(driver)),
        Some(below) => over(alloc, driver, below),
    }
}

/// Opens the extents of a VMDK descriptor on top, except those that are already open.
///
/// # Errors
///
/// - `Trouble::NoCall` if the top isn't a descriptor, or a mapping is prepared.
/// - `Trouble::Refused` if the call fails.
pub fn open_extents<S: Storage, F: ImplicitOpenGate<S>>(
    alloc: Global,
    disk: &mut FormatAccess<ImageDriver<S>>,
    files: &mut F,
) -> Result<(), Trouble> {
    match top(disk)? {
        ImageDriver::Vmdk(vmdk) => Ok(vmdk.open_implicit_dependencies_gated(alloc, files)?),
        ImageDriver::Raw(_) | ImageDriver::Qcow2(_) => Err(Trouble::NoCall),
    }
}

/// The greatest number of layers that an answer lists.
const MOST_LAYERS: u8 = 16;

/// Returns how many calls the image file of each layer got, the top first. After the 16th count `more` ends the answer.
pub fn counts<S: Storage>(
    alloc: Global,
    disk: &FormatAccess<ImageDriver<FuseStorage<S>>>,
) -> Result<String, Trouble> {
    let mut text = String::new(alloc);
    let mut layer = Some(disk);
    for _ in 0..MOST_LAYERS {
        let Some(one) = layer else {
            return Ok(text);
        };
        let count = one.inner().image_file().count().to_string(alloc)?;
        joined(&mut text, count.as_str())?;
        layer = one.below();
    }
    joined(&mut text, "more")?;
    Ok(text)
}
