// `flatten`: copies the disk of one chain into another, like `qemu-img convert -n`. Definitions: specs/Flattening.antt.
ghost use Rattle.std.specs.Prelude.{◌≡◌, ◌≢◌, ◌≤◌, ◌+◌, length, OnOk, IfErr, IsErrOf};
ghost use Rattle.imago_storage.specs.declared.fault.Fault.TheVariants.{BadArgument};
ghost use Rattle.imago_access.specs.Layer.{IsFree, KeepsLayerState};
ghost use Rattle.imago_access.specs.Layers.{chain};
ghost use Rattle.imago_access.specs.ChainCalls.{TakesNear};
ghost use Rattle.imago_access.specs.Files.{Pairs, HadNoResourceError};
ghost use Rattle.imago_access.specs.Going.{LookupCall};
ghost use Rattle.imago_access.specs.Running.{ChainRangeChange};
ghost use Rattle.qimg_calls.specs.Flattening.{Copies, CopiesDisk, CopyFails, CopyRefused, GivesRead, IsSoundPair, MayCopy, PieceRefused, PieceCrashImages, HoldsAfter};

use imago_access::{FormatAccess, FormatDriverInstance};
use imago_storage::Fault;
use std::alloc::Global;

// The most bytes that are copied by one read and write.
const PIECE: u64 = 65_536;

// Copies a range inside the source's disk that is as long as the buffer.
fn copy_piece<S: FormatDriverInstance, T: FormatDriverInstance>(
    alloc: Global,
    source: &mut FormatAccess<S>,
    target: &mut FormatAccess<T>,
    buf: &mut [u8],
    offset: u64,
) -> Result<(), Fault>
    requires free { IsFree (T.layer target.old.0) }
    requires inside { offset + length buf.old ≤ (S.layer source.old.0).size }
    ensures copies { Copies S.DriverModel T.DriverModel offset (length buf.old) result (source.old, target.old) (source.new, target.new) }
    ensures usable { OnOk result (MayCopy S.DriverModel T.DriverModel (length buf.old) (source.old, target.old)) }
    ensures cause { PieceRefused S.DriverModel T.DriverModel offset (length buf.old) result (source.old, target.old) (source.new, target.new) }
    ensures part { PieceCrashImages S.DriverModel T.DriverModel offset (length buf.old) result (source.old, target.old) target.new }
{
    source.read(alloc, buf, offset)?;
    target.write(alloc, buf, offset)
}

// Copies the whole disk of the source to the target of the same size, piece by piece. There is at least one piece, so an unusable chain is
// an error for an empty disk too.
fn copy_all<S: FormatDriverInstance, T: FormatDriverInstance>(
    alloc: Global,
    source: &mut FormatAccess<S>,
    target: &mut FormatAccess<T>,
    buf: &mut [u8],
) -> Result<(), Fault>
    requires free { IsFree (T.layer target.old.0) }
    requires same { (T.layer target.old.0).size ≡ (S.layer source.old.0).size }
    requires room { length buf.old ≡ 65536 }
    ensures copies { Copies S.DriverModel T.DriverModel 0 (S.layer source.old.0).size result (source.old, target.old) (source.new, target.new) }
    ensures usable { OnOk result (MayCopy S.DriverModel T.DriverModel (S.layer source.old.0).size (source.old, target.old)) }
    ensures cause { CopyRefused S.DriverModel T.DriverModel result (source.old, target.old) (source.new, target.new) }
{
    let size = source.size();
    let mut done = 0;
    loop {
        let n = PIECE.min(size - done);
        copy_piece(alloc, source, target, &mut buf[..n as usize], done)?;
        done += n;
        if done == size {
            return Ok(());
        }
    }
}

/// Copies the disk of one chain (an image and its backing files) into another of the same size, in pieces of 65,536 bytes.
///
/// After success, each offset of the source's disk has a byte, and the target reads as that byte. The source is only read: its disk doesn't
/// change. If an image of the source, or one below the target's top, has no dirty data, its files don't change. Zeroes are written like
/// other bytes, so a target with holes becomes full. The target isn't flushed.
///
/// After a copy that ended without `Fault::Memory` and `Fault::Storage`, more calls may be made on the target. For their crash images the
/// copy counts as a write of the source's bytes.
///
/// # Preconditions
///
/// No mapping is prepared in the target.
///
/// # Errors
///
/// - `Fault::BadArgument` if and only if the sizes differ. Nothing changes.
/// - `Fault::Memory` if memory for a piece runs out.
///
/// The read of a piece from the source, and its write to the target, can fail with:
///
/// - `Fault::Failed` or `Fault::MissingData` if a layer is unusable.
/// - `Fault::Barred` or `Fault::DamagedTable` if an offset of the source has no byte.
/// - `Fault::RangeOverflow` if the end of the piece, rounded up to a chain's alignment, doesn't fit `u64`.
/// - `Fault::ReadOnly` if the target is read-only.
/// - An error of the target's driver.
/// - `Fault::Memory`, `Fault::Storage`.
///
/// # On error
///
/// The pieces before the one that failed are copied. If the fault is neither `Fault::Memory` nor `Fault::Storage`, the source's disk is
/// unchanged. Each byte of the target is then old or the source's, and no byte after the failed piece has changed.
///
/// # Crash safety
///
/// In every case, each crash image of the target's top (its file after a crash between two requests) is consistent. At each offset the
/// crash image reads as the file or the disk did before, or as the source's byte.
pub fn flatten<S: FormatDriverInstance, T: FormatDriverInstance>(
    alloc: Global,
    source: &mut FormatAccess<S>,
    target: &mut FormatAccess<T>,
) -> Result<(), Fault>
    requires free { IsFree (T.layer target.old.0) }
    ensures copied { IsSoundPair S.DriverModel T.DriverModel (source.old, target.old)
        → OnOk result (CopiesDisk S.DriverModel T.DriverModel (source.old, target.old) target.new) }
    ensures range_change { ChainRangeChange T.DriverModel (HadNoResourceError result) (GivesRead S.DriverModel source.old) target.old target.new }
    ensures source { Pairs (LookupCall S.DriverModel (HadNoResourceError result)) (chain source.old) (chain source.new) }
    ensures keeps_layer_state { KeepsLayerState (T.layer target.old.0) (T.layer target.new.0) }
    ensures room { TakesNear T.DriverModel 0 (S.layer source.old.0).size result target.old target.new }
    ensures unequal { (T.layer target.old.0).size ≢ (S.layer source.old.0).size
        → IsErrOf result BadArgument × (source.new ≡ source.old) × (target.new ≡ target.old) }
    ensures usable { OnOk result (MayCopy S.DriverModel T.DriverModel (S.layer source.old.0).size (source.old, target.old)) }
    ensures failed { (T.layer target.old.0).size ≡ (S.layer source.old.0).size
        → IfErr result (CopyFails S.DriverModel T.DriverModel (source.old, target.old) (source.new, target.new)) }
    ensures cause { (T.layer target.old.0).size ≡ (S.layer source.old.0).size
        → CopyRefused S.DriverModel T.DriverModel result (source.old, target.old) (source.new, target.new) }
    ensures since { (T.layer target.old.0).size ≡ (S.layer source.old.0).size
        → HoldsAfter S.DriverModel T.DriverModel result (source.old, target.old) target.new }
{
    if target.size() != source.size() {
        return Err(Fault::BadArgument);
    }
    match vec![in alloc; 0u8; PIECE as usize] {
        Ok(mut buf) => copy_all(alloc, source, target, &mut buf),
        Err(_) => Err(Fault::Memory),
    }
}
