// Calls on prepared mappings: a run of guest bytes is prepared (allocated), written, and then committed as part of the disk, or cancelled.
// Definitions: specs/PreparingCalls.antt and specs/Spending.antt.
ghost use Rattle.std.specs.Prelude.{⊤, ◌≡◌, ◌<◌, ◌+◌, ◌^◌, length, IsOk, IfOk, IfErr, OnOk, IsErr, IsErrOf, IsSome, Some, None};
ghost use Rattle.imago_storage.specs.Steps.{Call, prepare, write_mapped};
ghost use Rattle.imago_storage.specs.declared.fault.Fault.{Fault};
ghost use Rattle.imago_access.specs.Layer.{loose, IsFree, KeepsLayerState};
ghost use Rattle.imago_access.specs.Room.{Takes};
ghost use Rattle.imago_access.specs.Files.{HadNoResourceError};
ghost use Rattle.imago_access.specs.Mappings.{IsMappedRun};
ghost use Rattle.imago_access.specs.Spending.{IsMine, IsForeignTo};
ghost use Rattle.imago_access.specs.Refusals.{unusable_fault};
ghost use Rattle.imago_access.specs.Stops.{GivesNone, GivesBytes};
ghost use Rattle.imago_access.specs.Running.{IsIntactChain, ChainRangeChange};
ghost use Rattle.imago_access.specs.ChainCalls.{ChainStays, ChainFails, chain_refusal, AllUnchanged, CanWriteRun, ChainCancels, ChainCommitRefused, ChainCommits, ChainMappedCause, ChainPrepares, CommitCrashImages, EndsAtOnce, UnlessResourceError, IsMappedFor, KeepsWritableLocations, StaysIntact, WhereMine, CallRefused, IsCarriedOut};
ghost use Rattle.imago_access.specs.Failing.{Fails};
ghost use Rattle.imago_access.specs.RunCalls.{GivesMappingUp, SettlesMapping, SettlingRefused, WriteBackCrashImages, DriverMarksFailed};
ghost use Rattle.imago_access.specs.PreparingCalls.{Cancels, CommitRefused, Commits, nowhere};
ghost use Rattle.imago_access.specs.Changes.{asking};
ghost use Rattle.imago_access.specs.Going.{IsUnchanged, MarksFailed, MarksFailedOver, KeepsExcessRefcounts, MutatingCall};

use crate::access::FormatAccess;
use crate::drivers::FormatDriverInstance;
use crate::mapping::PreparedDataMapping;
use imago_storage::Fault;
use std::alloc::Global;

// Cancels a mapping of this image.
pub(crate) fn abandon<D: FormatDriverInstance>(
    driver: &mut D,
    mapping: PreparedDataMapping<D::State>,
)
    requires { IsMine D.DriverModel mapping.state (D.layer driver.old) }
    ensures ok { GivesMappingUp D.DriverModel mapping.state driver.old driver.new }
    ensures well_formed { D.well_formed driver.old → D.well_formed driver.new }
    ensures failed { (D.layer driver.new).failed ≡ (D.layer driver.old).failed }
    ensures room { D.well_formed driver.old → Takes D.DriverModel (λ _. ⊤) driver.old driver.new }
    ensures stable { D.stable driver.old → D.stable driver.new }
    ensures excess_refcount { D.well_formed driver.old → KeepsExcessRefcounts D.DriverModel driver.old driver.new }
    ensures stays_begun { (d : D) (call : Call) → D.began d call driver.old → D.began d call driver.new }
    ensures none { (D.image driver.new ≡ D.image driver.old) × (D.extras driver.new ≡ D.extras driver.old) }
    ensures unchanged { mapping.state ≡ None → IsUnchanged D.DriverModel driver.old driver.new }
{
    match driver.cancel_data_mapping(mapping) {
        Ok(()) => (),
        Err((_, _)) => unreachable!(),
    }
}

// Commits a mapping of this image, and cancels it if the commit returns it.
pub(crate) fn commit_or_abandon<D: FormatDriverInstance>(
    driver: &mut D,
    alloc: Global,
    mapping: PreparedDataMapping<D::State>,
) -> Result<(), Fault>
    requires { IsMine D.DriverModel mapping.state (D.layer driver.old) }
    ensures ok { OnOk result (SettlesMapping D.DriverModel mapping.state driver.old driver.new) }
    ensures err { D.well_formed driver.old → UnlessResourceError result (GivesMappingUp D.DriverModel mapping.state driver.old driver.new) }
    ensures free { (mapping.state ≡ None → IsFree (D.layer driver.old)) → IsFree (D.layer driver.new) }
    ensures idle { mapping.state ≡ None → unusable_fault (D.layer driver.old) ≡ None → IsOk result }
    ensures unchanged { mapping.state ≡ None → IsUnchanged D.DriverModel driver.old driver.new }
    ensures size { (D.layer driver.new).size ≡ (D.layer driver.old).size }
    ensures room { D.well_formed driver.old → HadNoResourceError result → Takes D.DriverModel (λ p. (D.layer driver.old).held p ≡ loose) driver.old driver.new }
    ensures mutating_call { MutatingCall D.DriverModel (HadNoResourceError result) (HadNoResourceError result) driver.old driver.new }
    ensures stays_begun { (d : D) (call : Call) → D.began d call driver.old → OnOk result (D.began d call driver.new) }
    ensures crash_images { WriteBackCrashImages D.DriverModel driver.old driver.new }
    ensures failed { IfErr result (Fails D.DriverModel driver.old driver.new) }
    ensures marks_failed { IfErr result (DriverMarksFailed D.DriverModel driver.old driver.new) }
    ensures cause { SettlingRefused D.DriverModel result driver.old driver.new }
{
    match driver.commit_data_mapping(alloc, mapping) {
        Ok(()) => Ok(()),
        Err((fault, None)) => Err(fault),
        Err((fault, Some(given_back))) => {
            abandon(driver, given_back);
            Err(fault)
        }
    }
}

impl<D: FormatDriverInstance> FormatAccess<D> {
    /// Prepares a run of at least 1 and at most `length` bytes at `offset` for writing.
    ///
    /// Data written to the run becomes part of the disk when the mapping is committed. With `overwrite`, the caller promises to write the
    /// whole run before the commit, and its current bytes aren't copied.
    ///
    /// A mapping without state is already part of the disk, and has nothing to commit. For an empty range the result is an empty mapping
    /// without state, at the start of storage 0.
    ///
    /// # Preconditions
    ///
    /// No mapping is prepared: each one from `prepare_data_mapping` was committed or cancelled.
    ///
    /// # Errors
    ///
    /// - `Fault::Failed`, `Fault::MissingData` if a layer can't be used.
    /// - `Fault::ReadOnly` if the top image wasn't opened for writing.
    /// - `Fault::RangeOverflow` if the end of the range, rounded up to the chain's alignment, doesn't fit `u64`.
    /// - `Fault::PastEnd` if the range ends past the end of the disk.
    /// - An error of the driver's own (`DriverModel::own_cause`).
    /// - `Fault::Memory`, `Fault::Storage`.
    ///
    /// # On error
    ///
    /// No mapping is prepared. After an error other than `Fault::Memory` and `Fault::Storage` the disk is unchanged. After `Fault::Memory`
    /// or `Fault::Storage` a qcow2 image has failed, or nothing in it has changed except for the storages' counts of faults. If a storage
    /// of the image itself failed, the image has failed.
    ///
    /// # Crash safety
    ///
    /// Each crash image (the image file after a crash during the call) is consistent. Each byte reads as it did in the file or on the disk
    /// before the call.
    pub fn prepare_data_mapping(
        &mut self,
        alloc: Global,
        offset: u64,
        length: u64,
        overwrite: bool,
    ) -> Result<PreparedDataMapping<D::State>, Fault>
        requires free { IsFree (D.layer self.old.0) }

        // The effect.
        ensures ok { IsIntactChain D.DriverModel self.old → IfOk result (ChainPrepares D.DriverModel (asking offset length overwrite) self.old self.new) }
        ensures writable_location { IsIntactChain D.DriverModel self.old → IfOk result (CanWriteRun (D.layer self.new.0) offset) }
        ensures run { IfOk result (λ m. IsMappedRun (D.layer self.old.0) offset length m.length × (m.offset + m.length < 2 ^ 64)) }
        ensures mine { IfOk result (λ m. IsMine D.DriverModel m.state (D.layer self.new.0)) }
        ensures stateless { IfOk result (λ m. m.state ≡ None → IsFree (D.layer self.new.0)) }
        ensures err { IsIntactChain D.DriverModel self.old → UnlessResourceError result (ChainStays D.DriverModel self.old self.new) }

        // Early outcomes.
        ensures empty { length ≡ 0 → IfOk result (λ m. (m ≡ nowhere) × (D.layer self.new.0 ≡ D.layer self.old.0)) }
        ensures untouched { IsSome (chain_refusal D.DriverModel self.old offset length) → self.new ≡ self.old }
        ensures early_outcome { (f : Fault) → chain_refusal D.DriverModel self.old offset length ≡ Some f → IsErrOf result f }
        ensures idle { length ≡ 0 → unusable_fault (D.layer self.old.0) ≡ None → IsOk result }
        ensures unchanged { EndsAtOnce D.DriverModel self.old offset length → AllUnchanged D.DriverModel self.old self.new }

        // Preserved state, and crash images.
        ensures free { IsErr result → IsFree (D.layer self.new.0) }
        ensures range_change { ChainRangeChange D.DriverModel (HadNoResourceError result) GivesNone self.old self.new }

        // Errors, and the failed state after them.
        ensures failed { IfErr result (ChainFails D.DriverModel self.old self.new) }
        ensures marks_failed { IfErr result (MarksFailedOver D.DriverModel self.old.0 self.new.0) }
        ensures cause { CallRefused D.DriverModel (prepare offset length overwrite) result self.old self.new }
    {
        self.check_change(offset, length)?;
        self.driver
            .prepare_data_mapping(alloc, &mut self.below, offset, length, overwrite)
    }

    /// Commits a prepared mapping: what was written to it becomes part of the disk.
    ///
    /// A byte of the mapping that wasn't written is unchanged, but may become any byte if the mapping was prepared with `overwrite`. A
    /// mapping without state (with nothing to commit) allocates no memory.
    ///
    /// # Errors
    ///
    /// The mapping is returned, and nothing changes:
    ///
    /// - `Fault::Failed`, `Fault::MissingData` if the top image can't be used.
    /// - `Fault::ReadOnly` if the mapping has state and the image wasn't opened for writing.
    /// - `Fault::Foreign` if the mapping has state and was prepared by an image with another number.
    ///
    /// The mapping is consumed, and the image has failed:
    ///
    /// - `Fault::DamagedTable`, `Fault::Counter`, `Fault::Memory`, `Fault::Storage`.
    ///
    /// # Crash safety
    ///
    /// Each crash image (the image file after a crash during the call) is consistent. Each byte reads as it did in the file or on the disk
    /// before the call, or as the byte written to the mapping. A byte that was promised with `overwrite` and not written may read as any
    /// byte.
    pub fn commit_data_mapping(
        &mut self,
        alloc: Global,
        mapping: PreparedDataMapping<D::State>,
    ) -> Result<(), (Fault, Option<PreparedDataMapping<D::State>>)>
        // The effect.
        ensures ok { WhereMine D.DriverModel mapping.state self.old (OnOk result (ChainCommits D.DriverModel mapping.state self.old self.new)) }
        ensures own { IsForeignTo D.tag mapping.state (D.layer self.old.0) → IsErr result }
        ensures writable_location { WhereMine D.DriverModel mapping.state self.old (OnOk result (KeepsWritableLocations (D.layer self.old.0) (D.layer self.new.0))) }
        ensures stateless { mapping.state ≡ None → OnOk result (D.layer self.new.0 ≡ D.layer self.old.0) }
        ensures commits { Commits D.DriverModel mapping.state result self.old.0 self.new.0 }

        // Preserved state, and crash images.
        ensures free { IsMine D.DriverModel mapping.state (D.layer self.old.0) → IsSome mapping.state → OnOk result (IsFree (D.layer self.new.0)) }
        ensures intact { IsMine D.DriverModel mapping.state (D.layer self.old.0) → OnOk result (StaysIntact D.DriverModel self.old self.new) }
        ensures crash_images { WhereMine D.DriverModel mapping.state self.old (CommitCrashImages D.DriverModel self.old self.new) }
        ensures below { self.new.1 ≡ self.old.1 }

        // Errors, and the failed state after them.
        ensures refused { CommitRefused D.DriverModel mapping result self.old.0 self.new.0 }
        ensures cause { ChainCommitRefused D.DriverModel mapping.state result self.old self.new }
    {
        self.driver.commit_data_mapping(alloc, mapping)
    }

    /// Cancels a prepared mapping (a run that is written and not yet committed). The disk is unchanged, and what was written to the mapping
    /// is discarded.
    ///
    /// It makes no request and allocates no memory, and it works even if the image has failed. Cancelling a mapping without state (with
    /// nothing to commit) changes nothing.
    ///
    /// # Errors
    ///
    /// - `Fault::Foreign` if the mapping was prepared by an image with another number. The mapping is returned, and nothing changes.
    pub fn cancel(
        &mut self,
        mapping: PreparedDataMapping<D::State>,
    ) -> Result<(), (Fault, PreparedDataMapping<D::State>)>
        // The effect.
        ensures ok { IsMine D.DriverModel mapping.state (D.layer self.old.0) → OnOk result (ChainCancels D.DriverModel mapping.state self.old self.new) }
        ensures own { IsForeignTo D.tag mapping.state (D.layer self.old.0) → IsErr result }
        ensures cancels { Cancels D.DriverModel mapping result self.old.0 self.new.0 }
        ensures stateless { mapping.state ≡ None → D.layer self.new.0 ≡ D.layer self.old.0 }

        // Preserved state, and crash images.
        ensures free { IsMine D.DriverModel mapping.state (D.layer self.old.0) → IsSome mapping.state → IsFree (D.layer self.new.0) }
        ensures intact { IsMine D.DriverModel mapping.state (D.layer self.old.0) → StaysIntact D.DriverModel self.old self.new }
        ensures below { self.new.1 ≡ self.old.1 }
    {
        self.driver.cancel_data_mapping(mapping)
    }

    /// Writes bytes in place to the guest range at `guest`, which is stored in one of the image's files from offset `place` on.
    ///
    /// The range is mapped by the image, or by the prepared mapping (a run that is written and not yet committed). Bytes that are written
    /// to the prepared mapping become part of the disk when it is committed.
    ///
    /// # Errors
    ///
    /// - `Fault::Failed`, `Fault::MissingData` if the top image can't be used.
    /// - `Fault::ReadOnly` if the top image wasn't opened for writing.
    /// - `Fault::RangeOverflow` if the end of the range, rounded up to the chain's alignment, doesn't fit `u64`.
    /// - `Fault::PastEnd` if the range ends past the end of the disk.
    /// - `Fault::Outdated` if the range isn't mapped there.
    /// - `Fault::Memory`, `Fault::Storage`.
    ///
    /// # On error
    ///
    /// After an error other than `Fault::Memory` and `Fault::Storage` the disk is unchanged. After `Fault::Storage` a qcow2 image has
    /// failed. After `Fault::Memory` it has failed, or nothing has changed except for the storages' counts of faults.
    ///
    /// # Crash safety
    ///
    /// Each crash image (the image file after a crash during the call) is consistent. Each byte reads as it did in the file or on the disk
    /// before the call, or as written.
    pub fn write_mapped(
        &mut self,
        alloc: Global,
        guest: u64,
        place: u64,
        bytes: &[u8],
    ) -> Result<(), Fault>
        // The effect.
        ensures ok { IsCarriedOut D.DriverModel (write_mapped guest bytes.now) result self.old self.new }
        ensures mapped { D.coherent self.old.0 → OnOk result (IsMappedFor (D.layer self.old.0) guest place (length bytes.now)) }
        ensures writable_location { IsIntactChain D.DriverModel self.old → OnOk result ((D.layer self.new.0).writable_location ≡ (D.layer self.old.0).writable_location) }
        ensures err { IsIntactChain D.DriverModel self.old → UnlessResourceError result (D.layer self.new.0 ≡ D.layer self.old.0) }

        // Early outcomes.
        ensures early_outcome { (f : Fault) → chain_refusal D.DriverModel self.old guest (length bytes.now) ≡ Some f → IsErrOf result f }
        ensures idle { length bytes.now ≡ 0 → unusable_fault (D.layer self.old.0) ≡ None → IsOk result }
        ensures unchanged { EndsAtOnce D.DriverModel self.old guest (length bytes.now) → IsUnchanged D.DriverModel self.old.0 self.new.0 }
        ensures untouched { IsSome (chain_refusal D.DriverModel self.old guest (length bytes.now)) → self.new ≡ self.old }
        ensures empty { length bytes.now ≡ 0 → D.layer self.new.0 ≡ D.layer self.old.0 }

        // Preserved state, and crash images.
        ensures keeps_layer_state { KeepsLayerState (D.layer self.old.0) (D.layer self.new.0) }
        ensures range_change { ChainRangeChange D.DriverModel (HadNoResourceError result) (GivesBytes guest bytes.now) self.old self.new }
        ensures below { self.new.1 ≡ self.old.1 }

        // Errors, and the failed state after them.
        ensures failed { IfErr result (Fails D.DriverModel self.old.0 self.new.0) }
        ensures marks_failed { IfErr result (MarksFailed D.DriverModel self.old.0 self.new.0) }
        ensures cause { IsIntactChain D.DriverModel self.old → IfErr result (ChainMappedCause D.DriverModel guest place bytes.now self.old self.new) }
    {
        self.check_change(guest, bytes.len() as u64)?;
        self.driver.write_mapped(alloc, guest, place, bytes)
    }
}
