// Zeroing of a range: by the driver if it can (in qcow2, by zero clusters), and otherwise by writing zeroes. Definitions:
// specs/RangeCalls.antt and specs/RunCalls.antt.
ghost use Rattle.std.specs.Prelude.{⊤, ◌≡◌, ◌<◌, ◌≤◌, ◌+◌, ◌^◌, ◌∷◌, List, length, IsOk, IfOk, IfErr, OnOk, IsErrOf, Some, replicate};
ghost use Rattle.imago_storage.specs.Steps.{Call, write_zeroes, discard_to_zero};
ghost use Rattle.imago_access.specs.Layer.{Layer, IsFree, KeepsLayerState};
ghost use Rattle.imago_access.specs.Room.{Takes};
ghost use Rattle.imago_access.specs.Files.{HadNoResourceError};
ghost use Rattle.imago_access.specs.PartCalls.{IsFor, IsPart, PartRefused};
ghost use Rattle.imago_access.specs.Going.{MutatingCall, MarksFailed};
ghost use Rattle.imago_access.specs.Changes.{Rewrites, PartRewrites, ToZero, Wrote};
ghost use Rattle.imago_access.specs.Parts.{IsPartOf};
ghost use Rattle.imago_access.specs.Refusals.{unusable_fault};
ghost use Rattle.imago_access.specs.Stops.{KeepsCrashImages, GivesBytes, GivesZero};
ghost use Rattle.imago_access.specs.RangeCalls.{zero_by};
ghost use Rattle.imago_access.specs.Running.{IsIntact, ChainRangeChange, below_ghosts};
ghost use Rattle.imago_access.specs.ChainCalls.{ChainFails, chain_refusal, EndsAtOnce, UnlessResourceError, CallRefused, GivesUnitsUp, GivesUpNear, IsCarriedOut, IsDoneInPart, TakesNear, ZeroesUnits};
ghost use Rattle.imago_access.specs.Failing.{Fails};
ghost use Rattle.imago_access.specs.RunCalls.{AreZeroTo, CutsNoUnit, DoesWork, EndsCutNone, IsLeftIn, LeavesUnits, LeavesUnitsBehind, LeavesUnitsTo, MappedRefused, DriverRangeChangeAnywhere, RangeRefused, ReachesUnits, RunIsUncut, ShowsZeroRun, ShowsZeroTo, ShowsZeroes, StaysBegun, WorkRefused, ZeroesAlone, ZeroingLeaves, writing_zeroes, zeroing_by, DriverMarksFailed, MarksTopFailed};

use crate::access::FormatAccess;
use crate::access::discarding::is_declined;
use crate::access::mappings::{abandon, commit_or_abandon};
use crate::below::ReadBelow;
use crate::drivers::FormatDriverInstance;
use imago_storage::Fault;
use std::alloc::Global;

// The greatest number of zeroes in one write, in bytes.
const PIECE: u64 = 65_536;

// The zeroes to write if a driver can't zero. They are static, so that a change needs no memory for them.
static ZEROES: [u8; PIECE as usize] = [0; PIECE as usize];

// The use of the space that is allocated for a zeroed range.
#[derive(Clone, Copy, Debug, Drop, PartialEq, Eq)]
enum Zeroing {
    // The space is kept.
    Keep,
    // The space is deallocated.
    GiveUp,
}

// Zeroes the part of a range that the driver zeroes by itself. Returns where the part starts, and how many bytes it has.
fn zero_part<D: FormatDriverInstance>(
    alloc: Global,
    driver: &mut D,
    zeroing: Zeroing,
    offset: u64,
    length: u64,
) -> Result<(u64, u64), Fault>
    requires free { IsFree (D.layer driver.old) }
    ensures part { IfOk result (IsPart offset length) }
    ensures ok { D.well_formed driver.old → IfOk result (λ r. Rewrites ToZero (D.layer driver.old) (D.layer driver.new) r.0 r.1) }
    ensures err { D.well_formed driver.old → UnlessResourceError result (PartRewrites ToZero (D.layer driver.old) (D.layer driver.new) offset length) }
    ensures keeps_layer_state { KeepsLayerState (D.layer driver.old) (D.layer driver.new) }
    ensures room { ZeroingLeaves D.DriverModel zeroing offset length result driver.old driver.new }
    ensures given { D.well_formed driver.old → IfOk result (IsLeftIn D.DriverModel zeroing driver.new) }
    ensures reach { D.well_formed driver.old → IfOk result (ReachesUnits (D.layer driver.old) offset length) }
    ensures mutating_call { MutatingCall D.DriverModel (HadNoResourceError result) (HadNoResourceError result) driver.old driver.new }
    ensures stays_begun { StaysBegun (zero_by zeroing) D.DriverModel offset length (HadNoResourceError result) driver.old driver.new }
    ensures crash_images { D.well_formed driver.old → (below : List Layer) → KeepsCrashImages D.DriverModel below (GivesZero offset length) driver.old driver.new }
    ensures refused { PartRefused (zero_by zeroing) D.DriverModel offset length result driver.old driver.new }
{
    match zeroing {
        Zeroing::Keep => driver.ensure_zero_mapping(alloc, offset, length),
        Zeroing::GiveUp => driver.discard_to_zero(alloc, offset, length),
    }
}

// Returns `length` zeroes.
fn zero_bytes(length: u64) -> &'static [u8]
    requires { length ≤ 65536 }
    ensures { result.now ≡ replicate length 0 }
{
    &ZEROES[..length as usize]
}

// Writes zeroes to a mapped range, in pieces that end at multiples of `PIECE` in the storage.
fn write_mapped_zeroes<D: FormatDriverInstance>(
    alloc: Global,
    driver: &mut D,
    guest: u64,
    place: u64,
    n: u64,
) -> Result<(), Fault>
    requires fits { guest + n < 2 ^ 64 }
    requires place_fits { place + n < 2 ^ 64 }
    ensures ok { D.well_formed driver.old → OnOk result (Wrote (D.layer driver.old) (D.layer driver.new) guest (replicate n 0)) }
    ensures keeps_layer_state { KeepsLayerState (D.layer driver.old) (D.layer driver.new) }
    ensures room { D.well_formed driver.old → HadNoResourceError result → Takes D.DriverModel (λ _. ⊤) driver.old driver.new }
    ensures range_change { DriverRangeChangeAnywhere D.DriverModel (HadNoResourceError result) (GivesBytes guest (replicate n 0)) driver.old driver.new }
    ensures stays_begun { (d : D) (call : Call) → D.began d call driver.old → OnOk result (D.began d call driver.new) }
    ensures failed { IfErr result (Fails D.DriverModel driver.old driver.new) }
    ensures marks_failed { IfErr result (DriverMarksFailed D.DriverModel driver.old driver.new) }
    ensures cause { MappedRefused D.DriverModel guest place n result driver.old driver.new }
{
    let mut done = 0;
    while done < n {
        let at = place + done;
        let count = (PIECE - at % PIECE).min(n - done);
        driver.write_mapped(alloc, guest + done, at, zero_bytes(count))?;
        done += count;
    }
    Ok(())
}

// Writes zeroes to the first run of a range inside the disk. Returns the length of the run, in bytes. The run is mapped as a whole, so that
// nothing is copied to it.
fn write_zero_run<D: FormatDriverInstance, B: ReadBelow>(
    alloc: Global,
    driver: &mut D,
    below: &mut B,
    offset: u64,
    n: u64,
) -> Result<u64, Fault>
    requires free { IsFree (D.layer driver.old) }
    requires nonempty { 0 < n }
    requires fits { offset + n < 2 ^ 64 }
    ensures run { IfOk result (λ count. (0 < count) × (count ≤ n)) }
    ensures uncut { RunIsUncut D.DriverModel B.LayersBelowModel offset n result (driver.old, below.old) }
    ensures shown { ShowsZeroRun D.DriverModel B.LayersBelowModel offset result (driver.old, below.old) (driver.new, below.new) }
    ensures free { IsFree (D.layer driver.new) }
    ensures does { DoesWork D.DriverModel B.LayersBelowModel (writing_zeroes offset n) result (driver.old, below.old) (driver.new, below.new) }
    ensures refused { WorkRefused D.DriverModel B.LayersBelowModel (writing_zeroes offset n) result (driver.old, below.old) (driver.new, below.new) }
{
    let mapping = driver.prepare_data_mapping(alloc, below, offset, n, true)?;
    let count = mapping.length();
    match write_mapped_zeroes(alloc, driver, offset, mapping.offset(), count) {
        Ok(()) => {
            commit_or_abandon(driver, alloc, mapping)?;
            Ok(count)
        }
        Err(fault) => {
            abandon(driver, mapping);
            Err(fault)
        }
    }
}

// Writes zeroes to a range inside the disk, run by run.
fn write_zero_bytes<D: FormatDriverInstance, B: ReadBelow>(
    alloc: Global,
    driver: &mut D,
    below: &mut B,
    offset: u64,
    n: u64,
) -> Result<(), Fault>
    requires free { IsFree (D.layer driver.old) }
    requires fits { offset + n < 2 ^ 64 }
    requires inside { offset + n ≤ (D.layer driver.old).size }
    ensures shown { ShowsZeroes D.DriverModel B.LayersBelowModel offset n result (driver.old, below.old) (driver.new, below.new) }
    ensures free { IsFree (D.layer driver.new) }
    ensures does { DoesWork D.DriverModel B.LayersBelowModel (writing_zeroes offset n) result (driver.old, below.old) (driver.new, below.new) }
    ensures refused { WorkRefused D.DriverModel B.LayersBelowModel (writing_zeroes offset n) result (driver.old, below.old) (driver.new, below.new) }
{
    let mut done = 0;
    while done < n {
        done += write_zero_run(alloc, driver, below, offset + done, n - done)?;
    }
    Ok(())
}

// Lets the driver zero a part of a range that isn't empty. Returns where the part starts and ends. If the driver declines, both are the end
// of the range. If it zeroes nothing, both are the start of its empty part, but at most the end of the range. If that part starts at
// `offset`, both are the end of the range.
fn zero_by_driver<D: FormatDriverInstance>(
    alloc: Global,
    driver: &mut D,
    zeroing: Zeroing,
    offset: u64,
    n: u64,
) -> Result<(u64, u64), Fault>
    requires free { IsFree (D.layer driver.old) }
    requires nonempty { 0 < n }
    requires fits { offset + n < 2 ^ 64 }
    ensures part { IfOk result (λ r. (offset ≤ r.0) × (r.0 ≤ r.1) × (offset < r.1) × (r.1 ≤ offset + n)) }
    ensures uncut { D.well_formed driver.old → IfOk result (EndsCutNone (D.layer driver.old) offset n) }
    ensures zeroed { D.well_formed driver.old → (below : List Layer) → IfOk result (λ r. AreZeroTo (D.layer driver.new ∷ below) r.0 r.1) }
    ensures values { ZeroesAlone D.DriverModel offset n result driver.old driver.new }
    ensures keeps_layer_state { KeepsLayerState (D.layer driver.old) (D.layer driver.new) }
    ensures room { ZeroingLeaves D.DriverModel zeroing offset n result driver.old driver.new }
    ensures given { LeavesUnitsBehind D.DriverModel zeroing offset n result driver.old driver.new }
    ensures mutating_call { MutatingCall D.DriverModel (HadNoResourceError result) (HadNoResourceError result) driver.old driver.new }
    ensures stays_begun { (d : D) (call : Call) → D.began d call driver.old → IsPartOf call offset n → IsFor (zero_by zeroing) call
        → OnOk result (D.began d call driver.new) }
    ensures crash_images { D.well_formed driver.old → (below : List Layer) → KeepsCrashImages D.DriverModel below (GivesZero offset n) driver.old driver.new }
    ensures failed { IfErr result (Fails D.DriverModel driver.old driver.new) }
    ensures marks_failed { IfErr result (MarksFailed D.DriverModel driver.old driver.new) }
    ensures cause { RangeRefused (zero_by zeroing) D.DriverModel offset n result driver.old driver.new }
{
    let end = offset + n;
    match zero_part(alloc, driver, zeroing, offset, n) {
        Ok((start, zeroed)) if zeroed > 0 => Ok((start, start + zeroed)),
        Ok((start, _)) if start > offset => Ok((start.min(end), start.min(end))),
        Ok(_) => Ok((end, end)),
        Err(fault) if is_declined(fault) => Ok((end, end)),
        Err(fault) => Err(fault),
    }
}

// Zeroes the first part of a range that isn't empty and is inside the disk. Returns where the part ends. Bytes before the driver's own part
// are written as zeroes.
fn zero_run<D: FormatDriverInstance, B: ReadBelow>(
    alloc: Global,
    driver: &mut D,
    below: &mut B,
    zeroing: Zeroing,
    offset: u64,
    n: u64,
) -> Result<u64, Fault>
    requires free { IsFree (D.layer driver.old) }
    requires nonempty { 0 < n }
    requires fits { offset + n < 2 ^ 64 }
    requires inside { offset + n ≤ (D.layer driver.old).size }
    ensures run { IfOk result (λ end. (offset < end) × (end ≤ offset + n)) }
    ensures uncut { IsIntact D.DriverModel B.LayersBelowModel driver.old below.old → IfOk result (CutsNoUnit (D.layer driver.old) offset n) }
    ensures shown { ShowsZeroTo D.DriverModel B.LayersBelowModel offset result (driver.old, below.old) (driver.new, below.new) }
    ensures free { IsFree (D.layer driver.new) }
    ensures given { LeavesUnitsTo D.DriverModel B.LayersBelowModel zeroing offset n result (driver.old, below.old) (driver.new, below.new) }
    ensures does { DoesWork D.DriverModel B.LayersBelowModel (zeroing_by zeroing offset n) result (driver.old, below.old) (driver.new, below.new) }
    ensures refused { WorkRefused D.DriverModel B.LayersBelowModel (zeroing_by zeroing offset n) result (driver.old, below.old) (driver.new, below.new) }
{
    let (start, end) = zero_by_driver(alloc, driver, zeroing, offset, n)?;
    write_zero_bytes(alloc, driver, below, offset, start - offset)?;
    Ok(end)
}

// Zeroes the whole of a range that is inside the disk, or is empty.
fn zero_all<D: FormatDriverInstance, B: ReadBelow>(
    alloc: Global,
    driver: &mut D,
    below: &mut B,
    zeroing: Zeroing,
    offset: u64,
    n: u64,
) -> Result<(), Fault>
    requires free { IsFree (D.layer driver.old) }
    requires fits { offset + n < 2 ^ 64 }
    requires inside { 0 < n → offset + n ≤ (D.layer driver.old).size }
    ensures idle { n ≡ 0 → IsOk result }
    ensures untouched { n ≡ 0 → (driver.new ≡ driver.old) × (below.new ≡ below.old) }
    ensures shown { ShowsZeroes D.DriverModel B.LayersBelowModel offset n result (driver.old, below.old) (driver.new, below.new) }
    ensures free { IsFree (D.layer driver.new) }
    ensures leaves { LeavesUnits D.DriverModel B.LayersBelowModel zeroing offset n result (driver.old, below.old) (driver.new, below.new) }
    ensures does { DoesWork D.DriverModel B.LayersBelowModel (zeroing_by zeroing offset n) result (driver.old, below.old) (driver.new, below.new) }
    ensures refused { WorkRefused D.DriverModel B.LayersBelowModel (zeroing_by zeroing offset n) result (driver.old, below.old) (driver.new, below.new) }
{
    let end = offset + n;
    let mut at = offset;
    while at < end {
        at = zero_run(alloc, driver, below, zeroing, at, end - at)?;
    }
    Ok(())
}

impl<D: FormatDriverInstance> FormatAccess<D> {
    /// Makes a range read as 0, and keeps what is allocated for it.
    ///
    /// Each unit (a cluster in qcow2) that is completely in the range is zeroed by the format itself, unless the driver declines that as
    /// unsupported. Zeroes are written to the rest. The chain allocates no memory for the call; only the driver may.
    ///
    /// # Preconditions
    ///
    /// No mapping is prepared: each one from `prepare_data_mapping` was committed or cancelled.
    ///
    /// # Errors
    ///
    /// - `Fault::Failed`, `Fault::MissingData` if a layer can't be used.
    /// - `Fault::ReadOnly` if the top image wasn't opened for writing.
    /// - `Fault::RangeOverflow` if the end of the range, rounded up to the chain's alignment, doesn't fit `u64`.
    /// - `Fault::PastEnd` if the range ends past the end of the disk.
    /// - An error of the driver's own (`DriverModel::own_cause`).
    /// - `Fault::Memory`, `Fault::Storage`.
    ///
    /// # On error
    ///
    /// After an error other than `Fault::Memory` and `Fault::Storage`, each byte of the range is unchanged or 0. Bytes outside the range
    /// are unchanged. After `Fault::Memory` or `Fault::Storage` a qcow2 image has failed, or is still well-formed (consistent and usable).
    /// If a storage of the image itself failed, the image has failed.
    ///
    /// # Crash safety
    ///
    /// Each crash image (the image file after a crash during the call) is consistent. Each byte reads as it did in the file or on the disk
    /// before the call. A byte of the range may also read as 0.
    pub fn write_zeroes(&mut self, alloc: Global, offset: u64, length: u64) -> Result<(), Fault>
        requires free { IsFree (D.layer self.old.0) }

        // The effect.
        ensures ok { IsCarriedOut D.DriverModel (write_zeroes offset length) result self.old self.new }
        ensures err { IsDoneInPart D.DriverModel (write_zeroes offset length) result self.old self.new }
        ensures room { TakesNear D.DriverModel offset length result self.old self.new }
        ensures zeroed { ZeroesUnits D.DriverModel (write_zeroes offset length) result self.old self.new }

        // Early outcomes.
        ensures early_outcome { (f : Fault) → chain_refusal D.DriverModel self.old offset length ≡ Some f → IsErrOf result f }
        ensures idle { length ≡ 0 → unusable_fault (D.layer self.old.0) ≡ None → IsOk result }
        ensures untouched { EndsAtOnce D.DriverModel self.old offset length → self.new ≡ self.old }

        // Preserved state, and crash images.
        ensures keeps_layer_state { KeepsLayerState (D.layer self.old.0) (D.layer self.new.0) }
        ensures range_change { ChainRangeChange D.DriverModel (HadNoResourceError result) (GivesZero offset length) self.old self.new }

        // Errors, and the failed state after them.
        ensures failed { IfErr result (ChainFails D.DriverModel self.old self.new) }
        ensures marks_failed { IfErr result (MarksTopFailed D.DriverModel (below_ghosts D.DriverModel) self.old self.new) }
        ensures cause { CallRefused D.DriverModel (write_zeroes offset length) result self.old self.new }
    {
        self.check_change(offset, length)?;
        zero_all(
            alloc,
            &mut self.driver,
            &mut self.below,
            Zeroing::Keep,
            offset,
            length,
        )
    }

    /// Makes a range read as 0. Each unit (a cluster in qcow2) that is completely in the range is deallocated, unless the driver declines
    /// that as unsupported.
    ///
    /// The chain allocates no memory for the call; only the driver may.
    ///
    /// # Preconditions
    ///
    /// No mapping is prepared: each one from `prepare_data_mapping` was committed or cancelled.
    ///
    /// # Errors
    ///
    /// The errors of `write_zeroes`. For the state on error and crash safety see `write_zeroes` too.
    pub fn discard_to_zero(&mut self, alloc: Global, offset: u64, length: u64) -> Result<(), Fault>
        requires free { IsFree (D.layer self.old.0) }

        // The effect.
        ensures ok { IsCarriedOut D.DriverModel (discard_to_zero offset length) result self.old self.new }
        ensures err { IsDoneInPart D.DriverModel (discard_to_zero offset length) result self.old self.new }
        ensures room { GivesUpNear D.DriverModel offset length result self.old self.new }
        ensures gives_up { GivesUnitsUp D.DriverModel (discard_to_zero offset length) result self.old self.new }

        // Early outcomes.
        ensures early_outcome { (f : Fault) → chain_refusal D.DriverModel self.old offset length ≡ Some f → IsErrOf result f }
        ensures idle { length ≡ 0 → unusable_fault (D.layer self.old.0) ≡ None → IsOk result }
        ensures untouched { EndsAtOnce D.DriverModel self.old offset length → self.new ≡ self.old }

        // Preserved state, and crash images.
        ensures keeps_layer_state { KeepsLayerState (D.layer self.old.0) (D.layer self.new.0) }
        ensures range_change { ChainRangeChange D.DriverModel (HadNoResourceError result) (GivesZero offset length) self.old self.new }

        // Errors, and the failed state after them.
        ensures failed { IfErr result (ChainFails D.DriverModel self.old self.new) }
        ensures marks_failed { IfErr result (MarksTopFailed D.DriverModel (below_ghosts D.DriverModel) self.old self.new) }
        ensures cause { CallRefused D.DriverModel (discard_to_zero offset length) result self.old self.new }
    {
        self.check_change(offset, length)?;
        zero_all(
            alloc,
            &mut self.driver,
            &mut self.below,
            Zeroing::GiveUp,
            offset,
            length,
        )
    }
}
