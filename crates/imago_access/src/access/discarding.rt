// Discards of a range, to any bytes or to the layers below (the backing chain). Parts of the range that the driver can't deallocate stay
// unchanged. Definitions: specs/RangeCalls.antt and specs/RunCalls.antt.
ghost use Rattle.std.specs.Prelude.{ℕ, ◌≡◌, ◌↔◌, ◌<◌, ◌+◌, ◌^◌, IsTrue, length, map, IsOk, IfOk, IfErr, IsErrOf, Some};
ghost use Rattle.imago_storage.specs.Steps.{discard_to_any, discard_to_backing, IsIn};
ghost use Rattle.imago_access.specs.RangeCalls.{discard_by};
ghost use Rattle.imago_access.specs.Layer.{IsFree, KeepsLayerState};
ghost use Rattle.imago_access.specs.Room.{GivesUp};
ghost use Rattle.imago_access.specs.Files.{HadNoResourceError, IsDeclined};
ghost use Rattle.imago_access.specs.PartCalls.{IsPart, PartRefused};
ghost use Rattle.imago_access.specs.Going.{MutatingCall};
ghost use Rattle.imago_access.specs.Refusals.{unusable_fault};
ghost use Rattle.imago_access.specs.Stops.{GivesAny, GivesBelow};
ghost use Rattle.imago_access.specs.Running.{IsIntactChain, ChainRangeChange};
ghost use Rattle.imago_access.specs.ChainCalls.{chain_refusal, EndsAtOnce, CallRefused, GivesUnitsUp, IsCarriedOut, IsDoneInPart};
ghost use Rattle.imago_access.specs.Failing.{Fails};
ghost use Rattle.imago_access.specs.RunCalls.{DiscardCrashImages, DiscardsAlone, GivesUnitsUpAlone, RangeRefused, ReachesUnits, StaysBegun, DriverMarksFailed};

use crate::access::FormatAccess;
use crate::drivers::FormatDriverInstance;
use imago_storage::Fault;
use std::alloc::Global;

// The bytes that a discarded range may read as.
#[derive(Clone, Copy, Debug, Drop, PartialEq, Eq)]
pub(crate) enum Discarding {
    // Any byte.
    ToAny,
    // The old byte, or the byte of the layer below.
    ToBacking,
}

// Returns true if a driver has declined a call because its format or its storage doesn't support it.
pub(crate) fn is_declined(fault: Fault) -> bool
    ensures { IsTrue result ↔ IsDeclined fault }
{
    matches!(fault, Fault::Unsupported | Fault::VersionLimit)
}

// Discards a part of a range. Returns where the part starts, and how many bytes it has.
fn discard_part<D: FormatDriverInstance>(
    alloc: Global,
    driver: &mut D,
    discarding: Discarding,
    offset: u64,
    length: u64,
) -> Result<(u64, u64), Fault>
    requires free { IsFree (D.layer driver.old) }
    ensures part { IfOk result (IsPart offset length) }
    ensures values { DiscardsAlone D.DriverModel discarding offset length result driver.old driver.new }
    ensures keeps_layer_state { KeepsLayerState (D.layer driver.old) (D.layer driver.new) }
    ensures mutating_call { MutatingCall D.DriverModel (HadNoResourceError result) (HadNoResourceError result) driver.old driver.new }
    ensures stays_begun { StaysBegun (discard_by discarding) D.DriverModel offset length (HadNoResourceError result) driver.old driver.new }
    ensures crash_images { DiscardCrashImages D.DriverModel discarding offset length driver.old driver.new }
    ensures room { D.well_formed driver.old → HadNoResourceError result → GivesUp D.DriverModel offset length driver.old driver.new }
    ensures given { D.well_formed driver.old → IfOk result (λ r. (p : ℕ) → IsIn r.0 r.1 p → D.unallocated driver.new p) }
    ensures reach { D.well_formed driver.old → IfOk result (ReachesUnits (D.layer driver.old) offset length) }
    ensures refused { PartRefused (discard_by discarding) D.DriverModel offset length result driver.old driver.new }
{
    match discarding {
        Discarding::ToAny => driver.discard_to_any(alloc, offset, length),
        Discarding::ToBacking => driver.discard_to_backing(alloc, offset, length),
    }
}

// Discards each part of a range that the driver can deallocate.
pub(crate) fn discard_all<D: FormatDriverInstance>(
    alloc: Global,
    driver: &mut D,
    discarding: Discarding,
    offset: u64,
    n: u64,
) -> Result<(), Fault>
    requires free { IsFree (D.layer driver.old) }
    requires fits { offset + n < 2 ^ 64 }
    ensures idle { n ≡ 0 → IsOk result }
    ensures untouched { n ≡ 0 → driver.new ≡ driver.old }
    ensures values { DiscardsAlone D.DriverModel discarding offset n result driver.old driver.new }
    ensures keeps_layer_state { KeepsLayerState (D.layer driver.old) (D.layer driver.new) }
    ensures mutating_call { MutatingCall D.DriverModel (HadNoResourceError result) (HadNoResourceError result) driver.old driver.new }
    ensures crash_images { DiscardCrashImages D.DriverModel discarding offset n driver.old driver.new }
    ensures room { D.well_formed driver.old → HadNoResourceError result → GivesUp D.DriverModel offset n driver.old driver.new }
    ensures gives_up { GivesUnitsUpAlone D.DriverModel discarding offset n result driver.old driver.new }
    ensures failed { IfErr result (Fails D.DriverModel driver.old driver.new) }
    ensures marks_failed { IfErr result (DriverMarksFailed D.DriverModel driver.old driver.new) }
    ensures cause { RangeRefused (discard_by discarding) D.DriverModel offset n result driver.old driver.new }
{
    let end = offset + n;
    let mut at = offset;
    while at < end {
        match discard_part(alloc, driver, discarding, at, end - at) {
            Ok((start, given_up)) if given_up > 0 || start > at => at = start + given_up,
            Ok(_) => return Ok(()),
            Err(fault) if is_declined(fault) => return Ok(()),
            Err(fault) => return Err(fault),
        }
    }
    Ok(())
}

impl<D: FormatDriverInstance> FormatAccess<D> {
    /// Discards a range: each of its bytes stays unchanged, or may become any byte.
    ///
    /// Each unit (a cluster in qcow2) that is completely in the range is deallocated, unless the driver declines that as unsupported. Other
    /// parts may stay.
    ///
    /// # Preconditions
    ///
    /// No mapping is prepared: each one from `prepare_data_mapping` was committed or cancelled.
    ///
    /// # Errors
    ///
    /// - `Fault::Failed`, `Fault::MissingData` if the top image can't be used.
    /// - `Fault::ReadOnly` if the top image wasn't opened for writing.
    /// - `Fault::RangeOverflow` if the end of the range, rounded up to the chain's alignment, doesn't fit `u64`.
    /// - `Fault::PastEnd` if the range ends past the end of the disk.
    /// - An error of the driver's own (`DriverModel::own_cause`).
    /// - `Fault::Memory`, `Fault::Storage`.
    ///
    /// # On error
    ///
    /// After an error other than `Fault::Memory` and `Fault::Storage`, each byte of the range is unchanged or has become any byte. Bytes
    /// outside the range are unchanged. After `Fault::Storage` a qcow2 image has failed. After `Fault::Memory` it has failed, or is still
    /// well-formed (consistent and usable).
    ///
    /// # Crash safety
    ///
    /// Each crash image (the image file after a crash during the call) is consistent. Each byte reads as it did in the file or on the disk
    /// before the call. A byte of the range may also read as any byte.
    pub fn discard_to_any(&mut self, alloc: Global, offset: u64, length: u64) -> Result<(), Fault>
        requires free { IsFree (D.layer self.old.0) }

        // The effect.
        ensures ok { IsCarriedOut D.DriverModel (discard_to_any offset length) result self.old self.new }
        ensures err { IsDoneInPart D.DriverModel (discard_to_any offset length) result self.old self.new }
        ensures room { IsIntactChain D.DriverModel self.old → HadNoResourceError result → GivesUp D.DriverModel offset length self.old.0 self.new.0 }
        ensures gives_up { GivesUnitsUp D.DriverModel (discard_to_any offset length) result self.old self.new }

        // Early outcomes.
        ensures early_outcome { (f : Fault) → chain_refusal D.DriverModel self.old offset length ≡ Some f → IsErrOf result f }
        ensures idle { length ≡ 0 → unusable_fault (D.layer self.old.0) ≡ None → IsOk result }
        ensures untouched { EndsAtOnce D.DriverModel self.old offset length → self.new ≡ self.old }

        // Preserved state, and crash images.
        ensures keeps_layer_state { KeepsLayerState (D.layer self.old.0) (D.layer self.new.0) }
        ensures range_change { ChainRangeChange D.DriverModel (HadNoResourceError result) (GivesAny offset length) self.old self.new }
        ensures below { self.new.1 ≡ self.old.1 }

        // Errors, and the failed state after them.
        ensures failed { IfErr result (Fails D.DriverModel self.old.0 self.new.0) }
        ensures marks_failed { IfErr result (DriverMarksFailed D.DriverModel self.old.0 self.new.0) }
        ensures cause { CallRefused D.DriverModel (discard_to_any offset length) result self.old self.new }
    {
        self.check_change(offset, length)?;
        discard_all(alloc, &mut self.driver, Discarding::ToAny, offset, length)
    }

    /// Discards a range to the layer below (the backing file): each of its bytes stays unchanged, or becomes the byte of the layer below.
    ///
    /// Each unit (a cluster in qcow2) that is completely in the range is deallocated, unless the driver declines that as unsupported. Other
    /// parts may stay.
    ///
    /// # Preconditions
    ///
    /// No mapping is prepared: each one from `prepare_data_mapping` was committed or cancelled.
    ///
    /// # Errors
    ///
    /// The errors of `discard_to_any`.
    ///
    /// # On error
    ///
    /// After an error other than `Fault::Memory` and `Fault::Storage`, each byte of the range is unchanged or is the byte of the layer
    /// below. The rest is as after an error of `discard_to_any`.
    ///
    /// # Crash safety
    ///
    /// Each crash image (the image file after a crash during the call) is consistent. Each byte reads as it did in the file or on the disk
    /// before the call. A byte of the range may also read as in the layer below.
    pub fn discard_to_backing(
        &mut self,
        alloc: Global,
        offset: u64,
        length: u64,
    ) -> Result<(), Fault>
        requires free { IsFree (D.layer self.old.0) }

        // The effect.
        ensures ok { IsCarriedOut D.DriverModel (discard_to_backing offset length) result self.old self.new }
        ensures err { IsDoneInPart D.DriverModel (discard_to_backing offset length) result self.old self.new }
        ensures room { IsIntactChain D.DriverModel self.old → HadNoResourceError result → GivesUp D.DriverModel offset length self.old.0 self.new.0 }
        ensures gives_up { GivesUnitsUp D.DriverModel (discard_to_backing offset length) result self.old self.new }

        // Early outcomes.
        ensures early_outcome { (f : Fault) → chain_refusal D.DriverModel self.old offset length ≡ Some f → IsErrOf result f }
        ensures idle { length ≡ 0 → unusable_fault (D.layer self.old.0) ≡ None → IsOk result }
        ensures untouched { EndsAtOnce D.DriverModel self.old offset length → self.new ≡ self.old }

        // Preserved state, and crash images.
        ensures keeps_layer_state { KeepsLayerState (D.layer self.old.0) (D.layer self.new.0) }
        ensures range_change { ChainRangeChange D.DriverModel (HadNoResourceError result) (GivesBelow (map D.layer self.old.1) offset length) self.old self.new }
        ensures below { self.new.1 ≡ self.old.1 }

        // Errors, and the failed state after them.
        ensures failed { IfErr result (Fails D.DriverModel self.old.0 self.new.0) }
        ensures marks_failed { IfErr result (DriverMarksFailed D.DriverModel self.old.0 self.new.0) }
        ensures cause { CallRefused D.DriverModel (discard_to_backing offset length) result self.old self.new }
    {
        self.check_change(offset, length)?;
        discard_all(
            alloc,
            &mut self.driver,
            Discarding::ToBacking,
            offset,
            length,
        )
    }
}
