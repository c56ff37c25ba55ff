// Writes of a range, run by run. Each run is prepared (allocated if needed), written, and committed as part of the disk (`write_run`).
// Definitions: specs/RunCalls.antt and specs/Running.antt.
ghost use Rattle.std.specs.Prelude.{◌≡◌, ◌<◌, ◌≤◌, ◌+◌, List, length, IsOk, IfOk, IfErr, OnOk, IsErrOf, Some, None};
ghost use Rattle.imago_storage.specs.State.{StorageState};
ghost use Rattle.imago_storage.specs.Steps.{write};
ghost use Rattle.imago_access.specs.Layer.{IsFree, KeepsLayerState};
ghost use Rattle.imago_access.specs.Files.{HadNoResourceError, IsNotResourceError, ImageCause};
ghost use Rattle.imago_access.specs.Refusals.{unusable_fault};
ghost use Rattle.imago_access.specs.Stops.{GivesBytes};
ghost use Rattle.imago_access.specs.Running.{ChainRangeChange, below_ghosts};
ghost use Rattle.imago_access.specs.ChainCalls.{ChainFails, chain_refusal, EndsAtOnce, CallRefused, IsCarriedOut, IsDoneInPart, TakesNear};
ghost use Rattle.imago_access.specs.RunCalls.{DoesWork, RunIsUncut, ShowsAll, ShowsRun, WorkRefused, writing, MarksTopFailed};

use crate::access::FormatAccess;
use crate::access::mappings::{abandon, commit_or_abandon};
use crate::below::ReadBelow;
use crate::drivers::FormatDriverInstance;
use crate::ranges::check_range;
use imago_storage::Fault;
use std::alloc::Global;

// Writes the first run of a range inside the disk. Returns the length of the run, in bytes.
pub(crate) fn write_run<D: FormatDriverInstance, B: ReadBelow>(
    alloc: Global,
    driver: &mut D,
    below: &mut B,
    bytes: &[u8],
    offset: u64,
) -> Result<usize, Fault>
    requires free { IsFree (D.layer driver.old) }
    requires nonempty { 0 < length bytes.now }
    ensures run { IfOk result (λ n. (0 < n) × (n ≤ length bytes.now)) }
    ensures uncut { RunIsUncut D.DriverModel B.LayersBelowModel offset (length bytes.now) result (driver.old, below.old) }
    ensures shown { ShowsRun D.DriverModel B.LayersBelowModel offset bytes.now result (driver.old, below.old) (driver.new, below.new) }
    ensures free { IsFree (D.layer driver.new) }
    ensures does { DoesWork D.DriverModel B.LayersBelowModel (writing offset bytes.now) result (driver.old, below.old) (driver.new, below.new) }
    ensures refused { WorkRefused D.DriverModel B.LayersBelowModel (writing offset bytes.now) result (driver.old, below.old) (driver.new, below.new) }
{
    let mapping = driver.prepare_data_mapping(alloc, below, offset, bytes.len() as u64, true)?;
    let n = mapping.length() as usize;
    match driver.write_mapped(alloc, offset, mapping.offset(), &bytes[..n]) {
        Ok(()) => {
            commit_or_abandon(driver, alloc, mapping)?;
            Ok(n)
        }
        Err(fault) => {
            abandon(driver, mapping);
            Err(fault)
        }
    }
}

// Writes the whole of a range inside the disk, run by run.
pub(crate) fn write_all<D: FormatDriverInstance, B: ReadBelow>(
    alloc: Global,
    driver: &mut D,
    below: &mut B,
    bytes: &[u8],
    offset: u64,
) -> Result<(), Fault>
    requires free { IsFree (D.layer driver.old) }
    requires inside { 0 < length bytes.now → offset + length bytes.now ≤ (D.layer driver.old).size }
    ensures shown { ShowsAll D.DriverModel B.LayersBelowModel offset bytes.now result (driver.old, below.old) (driver.new, below.new) }
    ensures idle { length bytes.now ≡ 0 → IsOk result }
    ensures untouched { length bytes.now ≡ 0 → (driver.new ≡ driver.old) × (below.new ≡ below.old) }
    ensures free { IsFree (D.layer driver.new) }
    ensures does { DoesWork D.DriverModel B.LayersBelowModel (writing offset bytes.now) result (driver.old, below.old) (driver.new, below.new) }
    ensures refused { WorkRefused D.DriverModel B.LayersBelowModel (writing offset bytes.now) result (driver.old, below.old) (driver.new, below.new) }
{
    // The range ends inside the disk, and the disk's size fits 64 bits.
    let _size = driver.size();
    let mut done = 0;
    while done < bytes.len() {
        done += write_run(alloc, driver, below, &bytes[done..], offset + done as u64)?;
    }
    Ok(())
}

impl<D: FormatDriverInstance> FormatAccess<D> {
    // Checks whether a range may be changed, before anything is done. An empty range fails only if the image can't be used.
    pub(crate) fn check_change(&self, offset: u64, length: u64) -> Result<(), Fault>
        ensures ok { OnOk result (chain_refusal D.DriverModel self.now offset length ≡ None) }
        ensures err { IfErr result (λ e. chain_refusal D.DriverModel self.now offset length ≡ Some e) }
        ensures not_resource_error { IfErr result IsNotResourceError }
        ensures failed { (olds news : List StorageState) → IfErr result (ImageCause olds news) }
    {
        self.driver.ready()?;
        let (writable, size) = (self.driver.writable(), self.driver.size());
        check_range(writable, self.unit(), size, offset, length)
    }

    /// Writes the bytes at an offset.
    ///
    /// # Preconditions
    ///
    /// No mapping is prepared: each one from `prepare_data_mapping` was committed or cancelled.
    ///
    /// # Errors
    ///
    /// - `Fault::Failed`, `Fault::MissingData` if a layer can't be used.
    /// - `Fault::ReadOnly` if the top image wasn't opened for writing.
    /// - `Fault::RangeOverflow` if the end of the range, rounded up to the chain's alignment, doesn't fit `u64`.
    /// - `Fault::PastEnd` if the range ends past the end of the disk.
    /// - An error of the driver's own (`DriverModel::own_cause`).
    /// - `Fault::Memory`, `Fault::Storage`.
    ///
    /// # On error
    ///
    /// After an error other than `Fault::Memory` and `Fault::Storage`, each byte of the range is unchanged or new. Bytes outside the range
    /// are unchanged. After `Fault::Memory` or `Fault::Storage` a qcow2 image has failed, or is still well-formed (consistent and usable).
    /// If a storage of the image itself failed, the image has failed.
    ///
    /// # Crash safety
    ///
    /// Each crash image (the image file after a crash during the call) is consistent. Each byte reads as it did in the file or on the disk
    /// before the call. A byte of the range may also read as written.
    pub fn write(&mut self, alloc: Global, bytes: &[u8], offset: u64) -> Result<(), Fault>
        requires free { IsFree (D.layer self.old.0) }

        // The effect.
        ensures ok { IsCarriedOut D.DriverModel (write offset bytes.now) result self.old self.new }
        ensures err { IsDoneInPart D.DriverModel (write offset bytes.now) result self.old self.new }
        ensures room { TakesNear D.DriverModel offset (length bytes.now) result self.old self.new }

        // Early outcomes.
        ensures early_outcome { (f : Fault) → chain_refusal D.DriverModel self.old offset (length bytes.now) ≡ Some f → IsErrOf result f }
        ensures idle { length bytes.now ≡ 0 → unusable_fault (D.layer self.old.0) ≡ None → IsOk result }
        ensures untouched { EndsAtOnce D.DriverModel self.old offset (length bytes.now) → self.new ≡ self.old }

        // Preserved state, and crash images.
        ensures keeps_layer_state { KeepsLayerState (D.layer self.old.0) (D.layer self.new.0) }
        ensures range_change { ChainRangeChange D.DriverModel (HadNoResourceError result) (GivesBytes offset bytes.now) self.old self.new }

        // Errors, and the failed state after them.
        ensures failed { IfErr result (ChainFails D.DriverModel self.old self.new) }
        ensures marks_failed { IfErr result (MarksTopFailed D.DriverModel (below_ghosts D.DriverModel) self.old self.new) }
        ensures cause { CallRefused D.DriverModel (write offset bytes.now) result self.old self.new }
    {
        self.check_change(offset, bytes.len() as u64)?;
        write_all(alloc, &mut self.driver, &mut self.below, bytes, offset)
    }
}
