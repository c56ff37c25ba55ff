// Opens image files as a chain (an image and its backing chain).
ghost use Rattle.std.specs.Prelude.{◌≡◌, ◌≢◌, ◌⊎◌, ◌<◌, ◌∷◌, length, map, reverse, IfOk, IfErr, IsErrOf};
ghost use Rattle.imago_storage.specs.State.{CrashImageIsBytes};
ghost use Rattle.imago_access.specs.Building.{IsOpened};
ghost use Rattle.imago_access.specs.Chain.{Each};
ghost use Rattle.imago_access.specs.Committing.{IsCommittable};
ghost use Rattle.imago_access.specs.Layer.{IsFree};
ghost use Rattle.imago_access.specs.Layers.{chain};
ghost use Rattle.imago_access.specs.Running.{chain_disk};
ghost use Rattle.imago_access.specs.declared.format.Format.TheVariants as format;
ghost use Rattle.qimg_calls.specs.Held.{IsReady};
ghost use Rattle.qimg_calls.specs.Runs.{HoldsSince};
ghost use Rattle.qimg_calls.specs.Since.{flushed};
ghost use Rattle.qimg_chain.specs.Chains.{AreInPlace, AreLayers, IsFit, OfSecond, OfTop, for_commit, mode, number_for};
ghost use Rattle.qimg_chain.specs.FileMeanings.{FindsByNames, IsDiskOf, ShowsFile, extra_bytes, file_bytes, files_bytes};
ghost use Rattle.qimg_chain.specs.FileLayers.{IsLayer, IsLayerAs, WhyNotAs, WhyNotLayer, shows_below};
ghost use Rattle.qimg_chain.specs.Refusals.{FirstCause, FirstCommitCause, FormChain, FormCommitChain, HadResourceError, WhyNotCommitLayers, WhyNotLayers};

use crate::chain::extras::Extras;
use crate::chain::image_driver::ImageDriver;
use crate::chain::naming::NamesFiles;
use imago_access::{
    DriverModel, Format, FormatAccess, FormatDriverBuilder, FormatDriverInstance, ImplicitOpenGate,
};
use imago_formats::{Raw, Vmdk};
use imago_storage::{Fault, Storage};
use qcow2_image::Qcow2;
use qimg_core::plain::ChainFile;
use std::alloc::Global;

// The largest number of layers in a chain.
const MOST_LAYERS: usize = 64;

/// Opens image files as a chain (an image and its backing chain), the top first.
///
/// Only the top can be opened for writing. It also gets the number, if it is a qcow2 image. Chains that are open at the same time need
/// different numbers: a prepared mapping (a run that is written and not yet committed) identifies its image by the number.
///
/// A file that a VMDK image refers to is taken from the image's `extras`: the first file with that name that isn't taken yet. The name and
/// the format of a backing file in an image's header aren't compared with the file below.
///
/// Nothing is written. The new chain is ready for the calls of `qimg_calls::drive`, if the top is consistent and its storages keep what is
/// written. A raw or VMDK image is always consistent; a qcow2 image is if `qimg_core::check` accepts it.
///
/// # Errors
///
/// The call fails with the first of these. The errors of a file come before those of the file below it.
///
/// - `Fault::MissingBelow` if `files` is empty.
/// - `Fault::Limit` if `files` has more than 64 files.
/// - The error of the builder of the file's format.
/// - `Fault::MissingData` if a further file isn't supplied.
/// - `Fault::MissingBelow` for the last file, if it has a backing file.
/// - `Fault::ExtraLayer` for another file, if it has no backing file.
///
/// After the first two checks, `Fault::Memory` can occur at any point. `Fault::Storage` can occur if the storages can fail.
///
/// # On error
///
/// The files are dropped.
///
/// # Crash safety
///
/// If a crash right after opening would leave the current bytes of the top file, `qimg_calls::drive` can start with the disk of these files
/// as the last flushed one.
pub fn open_chain<S: Storage>(
    alloc: Global,
    files: Vec<ChainFile<S>>,
    writable: bool,
    number: u64,
) -> Result<FormatAccess<ImageDriver<S>>, Fault>
    ensures layers { IfOk result (λ c. AreLayers ⟦<ImageDriver<S> as DriverModel>⟧ S.state (mode writable number) files.items (chain c)) }
    ensures places { let d = ⟦<ImageDriver<S> as DriverModel>⟧ in IfOk result (λ c. AreInPlace (map d.layer (chain c))) }
    ensures means { let d = ⟦<ImageDriver<S> as DriverModel>⟧ in
        IfOk result (λ c. IsDiskOf (chain_disk d.layer c) (files_bytes S.state files.items)) }
    // For each layer, its file means the same disk with the further files found by the layer's names.
    ensures named { let d = ⟦<ImageDriver<S> as DriverModel>⟧ in
        IfOk result (λ c. Each (FindsByNames d ⟦<ImageDriver<S> as NamesFiles>⟧.names) (chain c)) }
    // No mapping is prepared in the top, and the layers below have no dirty data.
    ensures free { let d = ⟦<ImageDriver<S> as DriverModel>⟧ in IfOk result (λ c. IsFree (d.layer c.0)) }
    ensures has_no_dirty_data { let d = ⟦<ImageDriver<S> as DriverModel>⟧ in IfOk result (λ c. Each d.has_no_dirty_data c.1) }
    // The preconditions of calls: the top is consistent and its storages keep what is written, or a crash leaves its bytes.
    ensures ready { IfOk result (λ c. OfTop (IsFit S.state) files.items → IsReady ⟦<ImageDriver<S> as DriverModel>⟧ c) }
    ensures stands { let d = ⟦<ImageDriver<S> as DriverModel>⟧ in
        IfOk result (λ c. OfTop (λ file. CrashImageIsBytes (S.state file.image)) files.items → HoldsSince d (flushed (chain_disk d.layer c)) c) }
    // The call fails exactly with the first cause, or with a resource error. Files that form a chain have no cause.
    ensures formed { IfOk result (λ _. FormChain S.state writable files.items) }
    ensures err { IfErr result (λ e. HadResourceError S.state e ⊎ FirstCause S.state writable files.items e) }
    ensures none { length files.items ≡ 0 → IsErrOf result Fault.MissingBelow }
    ensures many { 64 < length files.items → IsErrOf result (Fault.Limit (length files.items)) }
{
    if files.len() > MOST_LAYERS {
        return Err(Fault::Limit(files.len() as u64));
    }
    // The file that is opened next is the last one.
    let mut files = files;
    files.reverse();
    match files.pop() {
        Some(top) => open_over(alloc, top, &mut files, writable, number),
        None => Err(Fault::MissingBelow),
    }
}

/// Opens image files as a chain (an image and its backing chain) for commits to the layer below the top, the top first.
///
/// Like `open_chain`, but the second file is opened for writing, too. The first two images need different numbers.
///
/// Nothing is written. The new chain is ready for the calls of `qimg_calls::drive`, `Call::CommitDown` among them, if the first two files are
/// consistent and their storages keep what is written.
///
/// # Errors
///
/// The call fails with the first of these.
///
/// - `Fault::BadArgument` if the numbers are equal.
/// - `Fault::MissingBelow` for fewer than two files.
/// - `Fault::Unsupported` if the second file is a VMDK image.
/// - The errors of `open_chain`, where the second file is opened for writing.
///
/// # On error
///
/// The files are dropped.
///
/// # Crash safety
///
/// As for `open_chain`.
pub fn open_for_commit<S: Storage>(
    alloc: Global,
    files: Vec<ChainFile<S>>,
    number: u64,
    below_number: u64,
) -> Result<FormatAccess<ImageDriver<S>>, Fault>
    ensures layers { let d = ⟦<ImageDriver<S> as DriverModel>⟧ in
        IfOk result (λ c. AreLayers d S.state (for_commit number below_number) files.items (chain c)) }
    ensures places { let d = ⟦<ImageDriver<S> as DriverModel>⟧ in IfOk result (λ c. AreInPlace (map d.layer (chain c))) }
    ensures means { let d = ⟦<ImageDriver<S> as DriverModel>⟧ in
        IfOk result (λ c. IsDiskOf (chain_disk d.layer c) (files_bytes S.state files.items)) }
    // For each layer, its file means the same disk with the further files found by the layer's names.
    ensures named { let d = ⟦<ImageDriver<S> as DriverModel>⟧ in
        IfOk result (λ c. Each (FindsByNames d ⟦<ImageDriver<S> as NamesFiles>⟧.names) (chain c)) }
    // No mapping is prepared in the top, and the layers below have no dirty data.
    ensures free { let d = ⟦<ImageDriver<S> as DriverModel>⟧ in IfOk result (λ c. IsFree (d.layer c.0)) }
    ensures has_no_dirty_data { let d = ⟦<ImageDriver<S> as DriverModel>⟧ in IfOk result (λ c. Each d.has_no_dirty_data c.1) }
    // The preconditions of calls, commits to the layer below among them.
    ensures ready { IfOk result (λ c. OfTop (IsFit S.state) files.items → IsReady ⟦<ImageDriver<S> as DriverModel>⟧ c) }
    ensures committable { IfOk result (λ c. OfTop (IsFit S.state) files.items → OfSecond (IsFit S.state) files.items
        → IsCommittable ⟦<ImageDriver<S> as DriverModel>⟧ c) }
    ensures stands { let d = ⟦<ImageDriver<S> as DriverModel>⟧ in
        IfOk result (λ c. OfTop (λ file. CrashImageIsBytes (S.state file.image)) files.items → HoldsSince d (flushed (chain_disk d.layer c)) c) }
    // The call fails exactly with the first cause, or with a resource error. Files that form a chain have no cause.
    ensures formed { IfOk result (λ _. FormCommitChain S.state files.items) }
    ensures distinct { IfOk result (λ _. number ≢ below_number) }
    ensures err { IfErr result (λ e. HadResourceError S.state e ⊎ FirstCommitCause S.state number below_number files.items e) }
{
    if number == below_number {
        return Err(Fault::BadArgument);
    }
    if files.len() < 2 {
        return Err(Fault::MissingBelow);
    }
    if let Format::Vmdk = files[1].format {
        return Err(Fault::Unsupported);
    }
    if files.len() > MOST_LAYERS {
        return Err(Fault::Limit(files.len() as u64));
    }
    let mut files = files;
    files.reverse();
    let Some(top) = files.pop() else {
        return Err(Fault::MissingBelow);
    };
    let Some(next) = files.pop() else {
        return Err(Fault::MissingBelow);
    };
    open_over_next(alloc, top, next, &mut files, number, below_number)
}

// Opens two files for writing, the first over the second, and the second over the files in `below`.
fn open_over_next<S: Storage>(
    alloc: Global,
    top: ChainFile<S>,
    next: ChainFile<S>,
    below: &mut Vec<ChainFile<S>>,
    number: u64,
    below_number: u64,
) -> Result<FormatAccess<ImageDriver<S>>, Fault>
    ensures layers { let d = ⟦<ImageDriver<S> as DriverModel>⟧ in
        IfOk result (λ c. AreLayers d S.state (for_commit number below_number) (top ∷ (next ∷ reverse below.old.items)) (chain c)) }
    ensures places { let d = ⟦<ImageDriver<S> as DriverModel>⟧ in IfOk result (λ c. AreInPlace (map d.layer (chain c))) }
    ensures means { let d = ⟦<ImageDriver<S> as DriverModel>⟧ in
        IfOk result (λ c. IsDiskOf (chain_disk d.layer c) (files_bytes S.state (top ∷ (next ∷ reverse below.old.items)))) }
    ensures named { let d = ⟦<ImageDriver<S> as DriverModel>⟧ in
        IfOk result (λ c. Each (FindsByNames d ⟦<ImageDriver<S> as NamesFiles>⟧.names) (chain c)) }
    ensures err { IfErr result (λ e. HadResourceError S.state e
        ⊎ WhyNotCommitLayers S.state (top ∷ (next ∷ reverse below.old.items)) e) }
{
    let driver = open_layer(alloc, top, true, number)?;
    if !driver.shows_below() {
        return Err(Fault::ExtraLayer);
    }
    let rest = open_over(alloc, next, below, true, below_number)?;
    match FormatAccess::with_below(alloc, driver, rest) {
        Ok(access) => Ok(access),
        Err((fault, _)) => Err(fault),
    }
}

// Opens a file over the files in `below`. The last of those is directly below it.
fn open_over<S: Storage>(
    alloc: Global,
    top: ChainFile<S>,
    below: &mut Vec<ChainFile<S>>,
    writable: bool,
    number: u64,
) -> Result<FormatAccess<ImageDriver<S>>, Fault>
    ensures layers { let d = ⟦<ImageDriver<S> as DriverModel>⟧ in
        IfOk result (λ c. AreLayers d S.state (mode writable number) (top ∷ reverse below.old.items) (chain c)) }
    ensures places { let d = ⟦<ImageDriver<S> as DriverModel>⟧ in IfOk result (λ c. AreInPlace (map d.layer (chain c))) }
    ensures means { let d = ⟦<ImageDriver<S> as DriverModel>⟧ in
        IfOk result (λ c. IsDiskOf (chain_disk d.layer c) (files_bytes S.state (top ∷ reverse below.old.items))) }
    ensures named { let d = ⟦<ImageDriver<S> as DriverModel>⟧ in
        IfOk result (λ c. Each (FindsByNames d ⟦<ImageDriver<S> as NamesFiles>⟧.names) (chain c)) }
    ensures err { IfErr result (λ e. HadResourceError S.state e ⊎ WhyNotLayers S.state writable (top ∷ reverse below.old.items) e) }
{
    let driver = open_layer(alloc, top, writable, number)?;
    let next = match below.pop() {
        Some(next) => next,
        None => {
            if driver.shows_below() {
                return Err(Fault::MissingBelow);
            }
            return Ok(FormatAccess::new(driver));
        }
    };
    if !driver.shows_below() {
        return Err(Fault::ExtraLayer);
    }
    let rest = open_over(alloc, next, below, false, 0)?;
    match FormatAccess::with_below(alloc, driver, rest) {
        Ok(access) => Ok(access),
        Err((fault, _)) => Err(fault),
    }
}

// Opens a file as a layer.
fn open_layer<S: Storage>(
    alloc: Global,
    file: ChainFile<S>,
    writable: bool,
    number: u64,
) -> Result<ImageDriver<S>, Fault>
    ensures opened { let d = ⟦<ImageDriver<S> as DriverModel>⟧ in
        IfOk result (IsOpened d file.format writable (number_for file.format number) (S.state file.image)) }
    ensures layer { let d = ⟦<ImageDriver<S> as DriverModel>⟧ in
        IfOk result (λ l. IsLayer S.state writable file (shows_below (d.layer l)) (d.extras l)) }
    ensures means { let d = ⟦<ImageDriver<S> as DriverModel>⟧ in IfOk result (λ l. ShowsFile (d.layer l) (file_bytes S.state file)) }
    ensures named { IfOk result (FindsByNames ⟦<ImageDriver<S> as DriverModel>⟧ ⟦<ImageDriver<S> as NamesFiles>⟧.names) }
    ensures err { IfErr result (λ e. HadResourceError S.state e ⊎ WhyNotLayer S.state writable file e) }
{
    let ChainFile {
        format,
        image,
        extras,
    } = file;
    let mut extras = Extras { files: extras };
    match format {
        Format::Raw => open_raw(alloc, image, &mut extras, writable),
        Format::Vmdk => open_vmdk(alloc, image, &mut extras, writable),
        Format::Qcow2 => open_qcow2(alloc, image, &mut extras, writable, number),
    }
}

// Opens a raw image. This never fails.
fn open_raw<S: Storage>(
    alloc: Global,
    image: S,
    extras: &mut Extras<S>,
    writable: bool,
) -> Result<ImageDriver<S>, Fault>
    ensures opened { IfOk result (IsOpened ⟦<ImageDriver<S> as DriverModel>⟧ format.Raw writable 0 (S.state image)) }
    ensures layer { let d = ⟦<ImageDriver<S> as DriverModel>⟧ in let handed = extras.old.files.items in
        IfOk result (λ l. IsLayerAs S.state format.Raw writable (S.state image) handed (shows_below (d.layer l)) (d.extras l)) }
    ensures means { let d = ⟦<ImageDriver<S> as DriverModel>⟧ in IfOk result (λ l. ShowsFile (d.layer l)
        (record { format = format.Raw; bytes = (S.state image).bytes; extras = map (extra_bytes S.state) extras.old.files.items })) }
    ensures named { IfOk result (FindsByNames ⟦<ImageDriver<S> as DriverModel>⟧ ⟦<ImageDriver<S> as NamesFiles>⟧.names) }
    ensures err { IfErr result (λ _. ⊥) }
{
    let builder = Raw::builder(image).write(writable);
    let raw = open_by(alloc, builder, extras)?;
    Ok(ImageDriver::Raw(raw))
}

// Opens a VMDK image, with the files that it refers to.
fn open_vmdk<S: Storage>(
    alloc: Global,
    image: S,
    extras: &mut Extras<S>,
    writable: bool,
) -> Result<ImageDriver<S>, Fault>
    ensures opened { IfOk result (IsOpened ⟦<ImageDriver<S> as DriverModel>⟧ format.Vmdk writable 0 (S.state image)) }
    ensures layer { let d = ⟦<ImageDriver<S> as DriverModel>⟧ in let handed = extras.old.files.items in
        IfOk result (λ l. IsLayerAs S.state format.Vmdk writable (S.state image) handed (shows_below (d.layer l)) (d.extras l)) }
    ensures means { let d = ⟦<ImageDriver<S> as DriverModel>⟧ in IfOk result (λ l. ShowsFile (d.layer l)
        (record { format = format.Vmdk; bytes = (S.state image).bytes; extras = map (extra_bytes S.state) extras.old.files.items })) }
    ensures named { IfOk result (FindsByNames ⟦<ImageDriver<S> as DriverModel>⟧ ⟦<ImageDriver<S> as NamesFiles>⟧.names) }
    ensures err { IfErr result (λ e. HadResourceError S.state e ⊎ WhyNotAs S.state format.Vmdk writable (S.state image) extras.old.files.items e) }
{
    let builder = Vmdk::builder(image).write(writable);
    let vmdk = builder.open(alloc, extras)?;
    Ok(ImageDriver::Vmdk(vmdk))
}

// Opens a qcow2 image. If it has a backing file, it needs a layer below.
fn open_qcow2<S: Storage>(
    alloc: Global,
    image: S,
    extras: &mut Extras<S>,
    writable: bool,
    number: u64,
) -> Result<ImageDriver<S>, Fault>
    ensures opened { IfOk result (IsOpened ⟦<ImageDriver<S> as DriverModel>⟧ format.Qcow2 writable number (S.state image)) }
    ensures layer { let d = ⟦<ImageDriver<S> as DriverModel>⟧ in let handed = extras.old.files.items in
        IfOk result (λ l. IsLayerAs S.state format.Qcow2 writable (S.state image) handed (shows_below (d.layer l)) (d.extras l)) }
    ensures means { let d = ⟦<ImageDriver<S> as DriverModel>⟧ in IfOk result (λ l. ShowsFile (d.layer l)
        (record { format = format.Qcow2; bytes = (S.state image).bytes; extras = map (extra_bytes S.state) extras.old.files.items })) }
    ensures named { IfOk result (FindsByNames ⟦<ImageDriver<S> as DriverModel>⟧ ⟦<ImageDriver<S> as NamesFiles>⟧.names) }
    ensures err { IfErr result (λ e. HadResourceError S.state e ⊎ WhyNotAs S.state format.Qcow2 writable (S.state image) extras.old.files.items e) }
{
    let builder = Qcow2::builder(image).number(number).write(writable);
    let qcow2 = open_by(alloc, builder, extras)?;
    Ok(ImageDriver::Qcow2(qcow2))
}

// Opens the image of a builder.
fn open_by<S: Storage, B: FormatDriverBuilder<S>, G: ImplicitOpenGate<S>>(
    alloc: Global,
    builder: B,
    gate: &mut G,
) -> Result<B::Format, Fault>
    ensures ok { IfOk result (B.opens builder) }
    ensures opened { let before = S.state (B.image_of builder) in
        IfOk result (IsOpened B.Format.DriverModel B.FORMAT (B.writable_of builder) (B.number_of builder) before) }
    ensures err { IfErr result (B.refuses builder) }
{
    builder.open(alloc, gate)
}
