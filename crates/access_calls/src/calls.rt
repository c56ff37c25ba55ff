// The calls that scripts make on a disk. Each call is in a function of its own, because its proof needs the whole contract of the driver.
// If a call requires that no mapping is prepared, its function checks this first.
ghost use Rattle.std.specs.Prelude.{◌≡◌, IsTrue};
ghost use Rattle.imago_access.specs.Layer.{IsFree, unmapped};
ghost use Rattle.imago_access.specs.Chain.{Each};
ghost use Rattle.imago_access.specs.Committing.{OfNext};
ghost use Rattle.imago_access.specs.Layers.{chain};

use crate::texts::{deep, shallow};
use cases::{Trouble, joined, leaks, ok, runs};
use imago_access::{FormatAccess, FormatDriverInstance, PreallocateMode, PreparedDataMapping};
use imago_storage::Fault;
use qimg_calls::{Answer, Call, RepairsLeaks};
use std::alloc::Global;

/// The greatest number of bytes that one call of a script can read: 16 MiB.
pub const MOST: u64 = 16_777_216;

/// Returns a buffer of `n` bytes for a read. Each byte is 7, so that a byte that the read doesn't set shows in the answer.
///
/// # Errors
///
/// - [`Trouble::NoCall`] if `n` is more than 16 MiB.
/// - [`Trouble::Refused`] if memory runs out.
pub fn buffer(alloc: Global, n: u64) -> Result<Vec<u8>, Trouble> {
    if n > MOST {
        return Err(Trouble::NoCall);
    }
    Ok(vec![in alloc; 7u8; n as usize]?)
}

/// Returns true if no mapping is prepared in the top image. A prepared mapping is a run that is written before it is committed.
pub fn is_free<D: FormatDriverInstance>(access: &FormatAccess<D>) -> bool
    ensures { IsTrue result → IsFree (D.layer access.now.0) }
{
    !access.inner().prepared()
}

/// A change of a range that doesn't need bytes to write.
#[derive(Clone, Copy)]
pub enum Change {
    Zeroes,
    ToZero,
    ToAny,
    ToBacking,
}

/// Changes a range of the disk.
///
/// # Errors
///
/// - [`Trouble::NoCall`] if a mapping is prepared.
/// - [`Trouble::Refused`] if the call fails.
pub fn change_range<D: FormatDriverInstance>(
    alloc: Global,
    access: &mut FormatAccess<D>,
    change: Change,
    offset: u64,
    n: u64,
) -> Result<(), Trouble> {
    if !is_free(access) {
        return Err(Trouble::NoCall);
    }
    match change {
        Change::Zeroes => Ok(access.write_zeroes(alloc, offset, n)?),
        Change::ToZero => Ok(access.discard_to_zero(alloc, offset, n)?),
        Change::ToAny => Ok(access.discard_to_any(alloc, offset, n)?),
        Change::ToBacking => Ok(access.discard_to_backing(alloc, offset, n)?),
    }
}

/// Reads a range of the disk.
///
/// # Errors
///
/// - [`Trouble::NoCall`] if the range is longer than 16 MiB.
/// - [`Trouble::Refused`] if the call fails.
pub fn read<D: FormatDriverInstance>(
    alloc: Global,
    access: &mut FormatAccess<D>,
    offset: u64,
    n: u64,
) -> Result<String, Trouble> {
    let mut buf = buffer(alloc, n)?;
    access.read(alloc, &mut buf, offset)?;
    Ok(runs(alloc, &buf)?)
}

/// Writes bytes to the disk. The errors are those of [`change_range`].
pub fn write<D: FormatDriverInstance>(
    alloc: Global,
    access: &mut FormatAccess<D>,
    bytes: &[u8],
    offset: u64,
) -> Result<(), Trouble> {
    if !is_free(access) {
        return Err(Trouble::NoCall);
    }
    Ok(access.write(alloc, bytes, offset)?)
}

/// Writes bytes to a mapped run, at this offset of the disk and this offset of the storage.
pub fn write_mapped<D: FormatDriverInstance>(
    alloc: Global,
    access: &mut FormatAccess<D>,
    guest: u64,
    place: u64,
    bytes: &[u8],
) -> Result<(), Trouble> {
    Ok(access.write_mapped(alloc, guest, place, bytes)?)
}

/// Looks up the mapping of a range through the chain (the image and its backing files).
pub fn map<D: FormatDriverInstance>(
    alloc: Global,
    access: &mut FormatAccess<D>,
    offset: u64,
    n: u64,
) -> Result<String, Trouble> {
    let (mapping, length) = access.get_mapping(alloc, offset, n)?;
    Ok(deep(alloc, mapping, length)?)
}

/// Looks up the mapping of a range in the top layer only.
pub fn map_shallow<D: FormatDriverInstance>(
    alloc: Global,
    access: &mut FormatAccess<D>,
    offset: u64,
    n: u64,
) -> Result<String, Trouble> {
    let (mapping, length) = access.get_shallow_mapping(alloc, offset, n)?;
    Ok(shallow(alloc, mapping, length)?)
}

/// Maps a run of the disk so that it can be written directly in its storage. The errors are those of [`change_range`].
pub fn ensure<D: FormatDriverInstance>(
    alloc: Global,
    access: &mut FormatAccess<D>,
    offset: u64,
    n: u64,
    overwrite: bool,
) -> Result<String, Trouble> {
    if !is_free(access) {
        return Err(Trouble::NoCall);
    }
    let (mapping, length) = access.ensure_data_mapping(alloc, offset, n, overwrite)?;
    Ok(deep(alloc, mapping, length)?)
}

/// Prepares a run of the top image for writing. What is written becomes part of the disk at a commit.
///
/// # Errors
///
/// - [`Trouble::NoCall`] if a mapping is prepared.
/// - [`Trouble::Refused`] if the call fails.
pub fn prepare<D: FormatDriverInstance>(
    alloc: Global,
    access: &mut FormatAccess<D>,
    offset: u64,
    n: u64,
    overwrite: bool,
) -> Result<PreparedDataMapping<D::State>, Trouble> {
    if !is_free(access) {
        return Err(Trouble::NoCall);
    }
    match access.prepare_data_mapping(alloc, offset, n, overwrite) {
        Ok(mapping) => Ok(mapping),
        Err(fault) => Err(Trouble::Refused(fault)),
    }
}

/// Commits a prepared mapping to the top layer.
///
/// # Errors
///
/// The fault of the call, and the mapping if the call returns it.
pub fn commit<D: FormatDriverInstance>(
    alloc: Global,
    access: &mut FormatAccess<D>,
    mapping: PreparedDataMapping<D::State>,
) -> Result<(), (Fault, Option<PreparedDataMapping<D::State>>)> {
    access.commit_data_mapping(alloc, mapping)
}

/// Cancels a prepared mapping of the top layer.
///
/// # Errors
///
/// The fault of the call, and the mapping.
pub fn cancel<D: FormatDriverInstance>(
    access: &mut FormatAccess<D>,
    mapping: PreparedDataMapping<D::State>,
) -> Result<(), (Fault, PreparedDataMapping<D::State>)> {
    access.cancel(mapping)
}

/// Grows the disk to `size` bytes. The errors are those of [`change_range`].
pub fn grow<D: FormatDriverInstance>(
    alloc: Global,
    access: &mut FormatAccess<D>,
    size: u64,
    mode: PreallocateMode,
) -> Result<(), Trouble> {
    if !is_free(access) {
        return Err(Trouble::NoCall);
    }
    Ok(access.resize_grow(alloc, size, mode)?)
}

/// Shrinks the disk to `size` bytes. The errors are those of [`change_range`].
pub fn shrink<D: FormatDriverInstance>(
    alloc: Global,
    access: &mut FormatAccess<D>,
    size: u64,
) -> Result<(), Trouble> {
    if !is_free(access) {
        return Err(Trouble::NoCall);
    }
    Ok(access.resize_shrink(alloc, size)?)
}

/// Grows or shrinks the disk to `size` bytes. The errors are those of [`change_range`].
pub fn resize<D: FormatDriverInstance>(
    alloc: Global,
    access: &mut FormatAccess<D>,
    size: u64,
    mode: PreallocateMode,
) -> Result<(), Trouble> {
    if !is_free(access) {
        return Err(Trouble::NoCall);
    }
    Ok(access.resize(alloc, size, mode)?)
}

/// Flushes the disk.
pub fn flush<D: FormatDriverInstance>(
    alloc: Global,
    access: &mut FormatAccess<D>,
) -> Result<(), Trouble> {
    Ok(access.flush(alloc)?)
}

/// Makes what was written to the files of the top layer durable.
pub fn sync<D: FormatDriverInstance>(access: &mut FormatAccess<D>) -> Result<(), Trouble> {
    Ok(access.sync()?)
}

// Returns true if no mapping is prepared in any layer.
fn is_all_free<D: FormatDriverInstance>(access: &FormatAccess<D>) -> bool
    ensures { IsTrue result → Each (λ d. IsFree (D.layer d)) (chain access.now) }
{
    match access.below() {
        None => is_free(access),
        Some(below) => is_free(access) && is_all_free(below),
    }
}

// Returns true if no mapping is prepared in the layer below the top. Without such a layer the result is true.
fn is_next_free<D: FormatDriverInstance>(access: &FormatAccess<D>) -> bool
    ensures { IsTrue result → OfNext (λ n. IsFree (D.layer n.0)) access.now.1 }
{
    match access.below() {
        None => true,
        Some(below) => is_free(below),
    }
}

/// Commits the data of the top image to the layer below it, and empties the top image.
///
/// # Errors
///
/// - [`Trouble::NoCall`] if a mapping is prepared in one of the two.
/// - [`Trouble::Refused`] if the call fails.
pub fn commit_down<D: FormatDriverInstance>(
    alloc: Global,
    access: &mut FormatAccess<D>,
) -> Result<(), Trouble> {
    if !is_free(access) || !is_next_free(access) {
        return Err(Trouble::NoCall);
    }
    Ok(access.commit_down(alloc)?)
}

/// Drops what the images of the chain keep in memory, and reloads what they need.
///
/// # Errors
///
/// - [`Trouble::NoCall`] if a mapping is prepared in any layer.
/// - [`Trouble::Refused`] if the call fails.
pub fn invalidate<D: FormatDriverInstance>(
    alloc: Global,
    access: &mut FormatAccess<D>,
) -> Result<(), Trouble> {
    if !is_all_free(access) {
        return Err(Trouble::NoCall);
    }
    Ok(access.invalidate_cache(alloc)?)
}

/// Returns the greatest request alignment and the greatest memory alignment of the chain, in bytes.
pub fn aligns<D: FormatDriverInstance>(
    alloc: Global,
    access: &FormatAccess<D>,
) -> Result<String, Trouble> {
    let (requests, memory) = (access.req_align(), access.mem_align());
    Ok(format!(in alloc; "{requests} {memory}")?)
}
/// Returns the sizes of the layers, the top first, in bytes. After the 16th size `more` ends the answer.

pub fn sizes<D: FormatDriverInstance>(
    alloc: Global,
    access: &FormatAccess<D>,
) -> Result<String, Trouble> {
    let mut text = String::new(alloc);
    let mut layer = Some(access);
    for _ in 0..MOST_LAYERS {
        let Some(one) = layer else {
            return Ok(text);
        };
        let size = one.size().to_string(alloc)?;
        joined(&mut text, size.as_str())?;
        layer = one.below();
    }
    joined(&mut text, "more")?;
    Ok(text)
}

// Appends `ok` to a text if a layer can be used, and otherwise the fault of its calls.
fn push_ready<D: FormatDriverInstance>(
    alloc: Global,
    driver: &D,
    text: &mut String,
) -> Result<(), Trouble> {
    match driver.ready() {
        Ok(()) => Ok(joined(text, "ok")?),
        Err(fault) => {
            let refused = fault.to_string(alloc)?;
            Ok(joined(text, refused.as_str())?)
        }
    }
}
/// Returns for each layer, the top first, `ok` if it can be used, and otherwise the fault of its calls. After the 16th layer `more` ends
/// the answer.

pub fn ready<D: FormatDriverInstance>(
    alloc: Global,
    access: &FormatAccess<D>,
) -> Result<String, Trouble> {
    let mut text = String::new(alloc);
    let mut layer = Some(access);
    for _ in 0..MOST_LAYERS {
        let Some(one) = layer else {
            return Ok(text);
        };
        push_ready(alloc, one.inner(), &mut text)?;
        layer = one.below();
    }
    joined(&mut text, "more")?;
    Ok(text)
}

/// Copies a disk into another.
///
/// # Errors
///
/// - [`Trouble::NoCall`] if a mapping is prepared in the target.
/// - [`Trouble::Refused`] if the call fails.
pub fn flatten<S: FormatDriverInstance, T: FormatDriverInstance>(
    alloc: Global,
    source: &mut FormatAccess<S>,
    target: &mut FormatAccess<T>,
) -> Result<(), Trouble> {
    if !is_free(target) {
        return Err(Trouble::NoCall);
    }
    Ok(qimg_calls::flatten(alloc, source, target)?)
}

/// Repairs the leaks of the top image (refcounts that exceed the references), and returns them.
///
/// # Errors
///
/// - [`Trouble::NoCall`] if a mapping is prepared.
/// - [`Trouble::Refused`] if the call fails.
pub fn repair<D: RepairsLeaks>(
    alloc: Global,
    access: &mut FormatAccess<D>,
) -> Result<String, Trouble> {
    if !is_free(access) {
        return Err(Trouble::NoCall);
    }
    let found = qimg_calls::repair_leaks(alloc, access)?;
    Ok(leaks(alloc, &found)?)
}

/// Makes calls one after another, and returns an answer for each.
///
/// # Errors
///
/// - [`Trouble::NoCall`] if a mapping is prepared.
/// - [`Trouble::Refused`] if memory for the answers runs out.
pub fn drive_all<D: RepairsLeaks>(
    alloc: Global,
    access: &mut FormatAccess<D>,
    calls: &[Call],
) -> Result<Vec<Answer>, Trouble> {
    if !is_free(access) {
        return Err(Trouble::NoCall);
    }
    Ok(qimg_calls::drive(alloc, access, calls)?)
}

/// The greatest number of layers that an answer lists.
const MOST_LAYERS: u8 = 16;

/// Returns `ok`, the answer of a call that succeeds without a value.
///
/// # Errors
///
/// - The error of the call, if it failed.
/// - [`Trouble::Refused`] if memory runs out.
pub fn done(alloc: Global, answer: Result<(), Trouble>) -> Result<String, Trouble> {
    answer?;
    Ok(ok(alloc)?)
}

/// Returns the driver of the top layer by mutable reference.
///
/// # Errors
///
/// - [`Trouble::NoCall`] if a mapping is prepared.
pub fn top<D: FormatDriverInstance>(disk: &mut FormatAccess<D>) -> Result<&mut D, Trouble> {
    if !is_free(disk) {
        return Err(Trouble::NoCall);
    }
    Ok(disk.inner_mut())
}

/// Adds an image on top of a disk. The disk becomes the backing file of the image.
///
/// # Preconditions
///
/// The driver's image reads unallocated bytes from the image below.
///
/// # Errors
///
/// - [`Trouble::Refused`] if memory runs out. The driver and the disk are dropped.
pub fn stacked<D: FormatDriverInstance + Drop>(
    alloc: Global,
    driver: D,
    below: FormatAccess<D>,
) -> Result<FormatAccess<D>, Trouble>
    requires { (D.layer driver).fixed.blank ≡ unmapped }
{
    match FormatAccess::with_below(alloc, driver, below) {
        Ok(disk) => Ok(disk),
        Err((fault, _back)) => Err(Trouble::Refused(fault)),
    }
}
