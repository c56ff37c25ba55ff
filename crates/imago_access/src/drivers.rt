// The trait `FormatDriverInstance`: what a format's driver must do for the chain of images that uses it. To add a format, implement it.
// Definitions: specs/PreparingCalls.antt, specs/PartCalls.antt and specs/ResizeCalls.antt.
ghost use Rattle.std.specs.Prelude.{false, ◌≡◌, ◌<◌, ◌≤◌, ◌+◌, ◌^◌, ◌⊎◌, ℕ, Some, None, List, MatchOption, is_some, IsSome, IsTrue, IsOk, IfOk, IfErr, OnOk, IsErr, IsErrOf, length};
ghost use Rattle.imago_storage.specs.State.{IsAlignment};
ghost use Rattle.imago_storage.specs.Steps.{Call};
ghost use Rattle.imago_storage.specs.Disk.{byte};
ghost use Rattle.imago_access.specs.Layer.{Layer, IsOneAt, own, unmapped, loose, IsFree, KeepsLayerState};
ghost use Rattle.imago_access.specs.Chain.{at};
ghost use Rattle.imago_access.specs.Room.{AllocationOfPlace};
ghost use Rattle.imago_access.specs.Files.{AreRead, OverflowsIn, Pairs, UnchangedButMoreFaults, IsStorageAt, HadNoResourceError, IsStale, files};
ghost use Rattle.imago_access.specs.PartCalls.{IsPart, DoesPart, PartRefused, ensures_zero, discards_to_zero, discards_to_any, discards_to_backing};
ghost use Rattle.imago_access.specs.Going.{EarlyOutcome, RangeEarlyOutcome, KeepsWhatIsFlushed, IsMarkedFailed, IsUnchanged, MarksFailed, LookupCall, LookupCallBelow, MutatingCall, ReloadingCall};
ghost use Rattle.imago_access.specs.Mappings.{IsRun, IsOneOf, IsMappedRun, LooksIn, ReportsAllocationIn, ReportsExplicitZero};
ghost use Rattle.imago_access.specs.Refusals.{unusable_fault, own_refusal, IsOfStorages};
ghost use Rattle.imago_access.specs.Changes.{asking};
ghost use Rattle.imago_access.specs.Stops.{IsWritten, IsCounted, IsCovered, KeepsCrashImages, MakesNone, GivesNone};
ghost use Rattle.imago_storage.specs.declared.fault.Fault.{Fault};
ghost use Rattle.imago_storage.specs.declared.fault.Fault.TheVariants.{Barred};
ghost use Rattle.imago_access.specs.Failing.{Fails, RefusesLookup, RefusesRead, RefusesFlush, RefusesReload};
ghost use Rattle.imago_access.specs.PreparingCalls.{IsHeldBy, Prepares, Commits, CommitRefused, Cancels, WritesMapped, WritingRefused, nowhere};
ghost use Rattle.imago_access.specs.ResizeCalls.{Resizes, Grows, GrowthRefused, IsUngrown, Shrinks, ShrinkRefused};
ghost use Rattle.imago_access.specs.declared.format.Format.TheVariants.{Qcow2};
ghost use Rattle.imago_access.specs.Spending.{CommitCheck};

use crate::below::ReadBelow;
use crate::driver_model::DriverModel;
use crate::format::{Format, PreallocateMode};
use crate::mapping::{PreparedDataMapping, ShallowMapping};
use imago_storage::{Fault, Storage};
use std::alloc::Global;

/// A driver of a format over an open image: one layer of a chain (an image over its backing files).
///
/// Offsets and lengths are in bytes. Contracts see a driver as a `Layer`, and its storages as states: its image file and the other files.
/// The driver defines further facts for itself, such as `coherent` and `well_formed`: see `DriverModel`.
///
/// # Errors
///
/// Each call except the getters and `cancel_data_mapping` first checks whether the image can be used:
///
/// - `Fault::Failed` after an earlier failure.
/// - `Fault::MissingData` if a file that is needed wasn't handed in.
///
/// If the image can be used and the range is empty, the call succeeds, except for `read_special`, which always fails. If the image can't be
/// used or the range is empty, nothing changes. The other errors that a call lists, and the state after them, are those of a well-formed
/// driver (the image is consistent, and its invariant holds).
///
/// # On error
///
/// Some formats mark failures, as qcow2 does. Such an image has failed after `Fault::Storage` of one of its own storages. After
/// `Fault::Storage` of a storage of the layers below, or after `Fault::Memory`, it has failed, or nothing in it has changed except for the
/// storages' counts of faults.
///
/// # Crash safety
///
/// Statements on crash images (the image file after a crash between two requests) hold for a well-formed driver. Its image file must report
/// its crash images, keep what is written, and refuse no change during the call.
///
/// `imago_formats::Raw`, `imago_formats::Vmdk`, `qcow2_image::Qcow2` and `qimg_chain::chain::ImageDriver` implement the trait.
pub trait FormatDriverInstance: DriverModel {
    /// The type of its files.
    type Storage: Storage;

    /// Returns the image file.
    fn image_file(&self) -> &Self::Storage
        ensures { Self.Storage.state result.now ≡ Self.image self.now };

    /// Returns one of the other files. The file with this index has the number `index + 1` in lookups.
    fn extra_file(&self, index: usize) -> Option<&Self::Storage>
        ensures { MatchOption result
            (length (Self.extras self.now) ≤ index)
            (λ s. IsStorageAt (Self.extras self.now) index (Self.Storage.state s.now)) };

    /// Returns the format.
    fn format(&self) -> Format
        ensures { result ≡ (Self.layer self.now).fixed.format };

    /// Returns the size of the disk, in bytes.
    fn size(&self) -> u64
        ensures { result ≡ (Self.layer self.now).size };

    /// Returns true if the image was opened for writing.
    fn writable(&self) -> bool
        ensures { result ≡ (Self.layer self.now).fixed.writable };

    /// Returns the alignment of the ranges that the driver can zero without writing zeroes, in bytes, if it can.
    fn zero_granularity(&self) -> Option<u64>
        ensures { result ≡ (Self.layer self.now).fixed.granularity };

    /// Returns the greatest request alignment of its storages, in bytes: a power of two of at most 2^20.
    fn req_align(&self) -> usize
        ensures value { result ≡ (Self.layer self.now).fixed.req_align }
        ensures alignment { IsAlignment result };

    /// Returns the greatest memory alignment of its storages, in bytes: a power of two of at most 2^20.
    fn mem_align(&self) -> usize
        ensures value { result ≡ (Self.layer self.now).fixed.mem_align }
        ensures alignment { IsAlignment result };

    /// Checks whether the image can be used.
    ///
    /// # Errors
    ///
    /// - `Fault::Failed` after an earlier failure.
    /// - `Fault::MissingData` if a file that is needed wasn't handed in, and the image hasn't failed.
    fn ready(&self) -> Result<(), Fault>
        ensures ok { OnOk result (unusable_fault (Self.layer self.now) ≡ None) }
        ensures err { IfErr result (λ e. unusable_fault (Self.layer self.now) ≡ Some e) };

    /// Returns true if a mapping with something to commit is prepared, and neither committed nor cancelled.
    fn prepared(&self) -> bool
        ensures { result ≡ is_some (Self.layer self.now).unspent };

    /// Returns true if the image has failed, so that it must be opened again.
    fn failed(&self) -> bool
        ensures { result ≡ (Self.layer self.now).failed };

    /// Sets the image to failed, if its format marks failures. It must be opened again then. A caller does this after an error in a file of
    /// the image that the driver can't know of. No request is made.
    fn mark_failed(&mut self)
        ensures { IsMarkedFailed Self.DriverModel self.old self.new };

    /// Looks up a run of at most `max_length` bytes at `offset`. Returns where the run is stored, and its length in bytes.
    ///
    /// At or past the end of the disk the result is `Eof`, of length 0. Otherwise the run has at least one byte, unless `max_length` is 0.
    /// The result is an explicit zero exactly if the layer itself maps the bytes as 0. A storage number in the result is one of the
    /// driver's.
    ///
    /// # Errors
    ///
    /// - `Fault::DamagedTable` if the image's tables have no valid entry for a byte of the range.
    /// - `Fault::Memory`, `Fault::Storage`.
    fn get_mapping(
        &mut self,
        alloc: Global,
        offset: u64,
        max_length: u64,
    ) -> Result<(ShallowMapping, u64), Fault>
        // The result.
        ensures run { IfOk result (λ r. IsRun (Self.layer self.old) offset max_length r.0 r.1) }
        ensures looks { Self.coherent self.old → IfOk result (LooksIn Self.DriverModel offset max_length self.old self.new) }
        ensures room { Self.coherent self.old → IfOk result (ReportsAllocationIn Self.DriverModel offset self.old) }
        ensures explicit_zero { Self.coherent self.old → IfOk result (ReportsExplicitZero (Self.explicit_zero self.old) offset) }
        ensures storage_exists { IfOk result (λ r. IsOneOf (length (files Self.DriverModel self.old)) r.0) }

        // Early outcomes, and preserved state.
        ensures early_outcome { EarlyOutcome Self.DriverModel (unusable_fault (Self.layer self.old)) (max_length ≡ 0) result self.old self.new }
        ensures lookup_call { LookupCall Self.DriverModel (HadNoResourceError result) self.old self.new }
        ensures stays_begun { OnOk result ((d : Self) (call : Call) → Self.began d call self.old → Self.began d call self.new) }

        // Errors, and the failed state after them.
        ensures failed { IfErr result (Fails Self.DriverModel self.old self.new) }
        ensures marks_failed { IfErr result (MarksFailed Self.DriverModel self.old self.new) }
        ensures cause { Self.coherent self.old → IfErr result (RefusesLookup Self.DriverModel offset max_length self.old self.new) };

    /// Fills the buffer with the bytes of a storage from offset `place` on, as a lookup returned them. Past the end of the storage, and for
    /// a number without a storage, the bytes are 0.
    ///
    /// # Errors
    ///
    /// - `Fault::RangeOverflow` if the range isn't empty and its padded end doesn't fit `u64`.
    /// - `Fault::Memory`, `Fault::Storage`.
    ///
    /// # On error
    ///
    /// The contents of the buffer are unspecified.
    fn read_mapped(
        &mut self,
        alloc: Global,
        storage: usize,
        place: u64,
        buf: &mut [u8],
    ) -> Result<(), Fault>
        // The result.
        ensures bytes { OnOk result (AreRead (files Self.DriverModel self.old) storage place (length buf.old) buf.new) }

        // Early outcomes, and preserved state.
        ensures early_outcome { EarlyOutcome Self.DriverModel (unusable_fault (Self.layer self.old)) (length buf.old ≡ 0) result self.old self.new }
        ensures lookup_call { LookupCall Self.DriverModel (HadNoResourceError result) self.old self.new }
        ensures stays_begun { OnOk result ((d : Self) (call : Call) → Self.began d call self.old → Self.began d call self.new) }
        ensures none { MakesNone (Self.image self.old) (Self.image self.new) }

        // Errors, and the failed state after them.
        ensures overflow { unusable_fault (Self.layer self.old) ≡ None → OverflowsIn (files Self.DriverModel self.old) storage place (length buf.old)
            → IsErrOf result Fault.RangeOverflow }
        ensures marks_failed { IfErr result (MarksFailed Self.DriverModel self.old self.new) }
        ensures cause { IfErr result (RefusesRead Self.DriverModel place (length buf.old) self.old self.new) };

    /// Reads bytes that aren't stored as they are, such as compressed ones. It always fails: with `Fault::Barred`, if the image can be
    /// used. Neither the image nor the buffer changes.
    fn read_special(&mut self, buf: &mut [u8], offset: u64) -> Result<(), Fault>
        // Errors.
        ensures refused { IsErr result }
        ensures err { IfErr result (λ e. (unusable_fault (Self.layer self.old) ≡ Some e) ⊎ (e ≡ Barred)) }
        ensures unusable { (f : Fault) → unusable_fault (Self.layer self.old) ≡ Some f → IsErrOf result f }

        // Preserved state.
        ensures unchanged { IsUnchanged Self.DriverModel self.old self.new }
        ensures buffer { buf.new ≡ buf.old };

    /// Prepares a run of at least 1 and at most `length` bytes at `offset` for writing.
    ///
    /// The current data of the run is copied to its new location first (copy on write). Writes to that location become part of the disk
    /// when the mapping is committed. With `overwrite`, the caller promises to write the whole run before the commit, and nothing is
    /// copied.
    ///
    /// The run doesn't end inside a unit (a cluster in qcow2) that the range covers completely. The mapping only takes up units that the
    /// range touches. For an empty range the result is an empty mapping without state (with nothing to commit), at the start of storage 0.
    ///
    /// # Preconditions
    ///
    /// No mapping is prepared: each one from `prepare_data_mapping` was committed or cancelled.
    ///
    /// # Errors
    ///
    /// - `Fault::ReadOnly`, `Fault::RangeOverflow`, `Fault::PastEnd`, as in `check_range`.
    /// - An error of the driver's own (`DriverModel::own_cause`).
    /// - `Fault::Memory`, `Fault::Storage`.
    ///
    /// # On error
    ///
    /// No mapping is prepared. After an error other than `Fault::Memory` and `Fault::Storage` the disk's data is unchanged.
    ///
    /// # Crash safety
    ///
    /// Each crash image (the image file after a crash during the call) is consistent. Each byte reads as it did in the file or on the disk
    /// before the call.
    fn prepare_data_mapping<B: ReadBelow>(
        &mut self,
        alloc: Global,
        below: &mut B,
        offset: u64,
        length: u64,
        overwrite: bool,
    ) -> Result<PreparedDataMapping<Self::State>, Fault>
        requires free { IsFree (Self.layer self.old) }

        // The result.
        ensures run { IfOk result (λ m. IsMappedRun (Self.layer self.old) offset length m.length × (m.offset + m.length < 2 ^ 64)) }
        ensures mine { IfOk result (λ m. IsHeldBy Self.DriverModel m.state (Self.layer self.new)) }
        ensures empty { length ≡ 0 → IfOk result (λ m. (m ≡ nowhere) × (Self.layer self.new ≡ Self.layer self.old)) }
        ensures size { (Self.layer self.new).size ≡ (Self.layer self.old).size }
        ensures free { IsErr result → IsFree (Self.layer self.new) }

        // The effect.
        ensures does { Prepares Self.DriverModel B.LayersBelowModel (asking offset length overwrite) result (self.old, below.old) (self.new, below.new) }
        ensures below { LookupCallBelow B.LayersBelowModel (HadNoResourceError result) below.old below.new }

        // Early outcomes.
        ensures early_outcome { RangeEarlyOutcome Self.DriverModel offset length result self.old self.new }
        ensures unread { (length ≡ 0) ⊎ IsSome (own_refusal (Self.layer self.old) offset length) → below.new ≡ below.old };

    /// Commits a prepared mapping: what was written to it becomes part of the disk. For a mapping without state (with nothing to commit)
    /// the call succeeds and needs no memory.
    ///
    /// # Errors
    ///
    /// The mapping is returned, and nothing changes:
    ///
    /// - `Fault::Failed`, `Fault::MissingData` if the image can't be used.
    /// - `Fault::ReadOnly` if the mapping has state and the image wasn't opened for writing.
    /// - `Fault::Foreign` if the mapping has state and was prepared by an image with another number.
    ///
    /// The mapping is consumed, and the image has failed:
    ///
    /// - `Fault::DamagedTable`, `Fault::Counter`, `Fault::Memory`, `Fault::Storage`.
    ///
    /// # Crash safety
    ///
    /// Each crash image (the image file after a crash during the call) is consistent. Each byte reads as it did in the file or on the disk
    /// before the call, or as the commit makes it.
    fn commit_data_mapping(
        &mut self,
        alloc: Global,
        mapping: PreparedDataMapping<Self::State>,
    ) -> Result<(), (Fault, Option<PreparedDataMapping<Self::State>>)>
        ensures commits { Commits Self.DriverModel mapping.state result self.old self.new }
        ensures refused { CommitRefused Self.DriverModel mapping result self.old self.new };

    /// Cancels a prepared mapping (a run that is written and not yet committed). The disk is unchanged, and what was written to the mapping
    /// is discarded.
    ///
    /// It makes no request and needs no memory, and it works even if the image has failed. Cancelling a mapping without state (with nothing
    /// to commit) changes nothing.
    ///
    /// # Errors
    ///
    /// - `Fault::Foreign` if the mapping was prepared by an image with another number. The mapping is returned, and nothing changes.
    fn cancel_data_mapping(
        &mut self,
        mapping: PreparedDataMapping<Self::State>,
    ) -> Result<(), (Fault, PreparedDataMapping<Self::State>)>
        ensures cancels { Cancels Self.DriverModel mapping result self.old self.new };

    /// Writes bytes in place to the guest range at `guest`, which is stored in one of the image's files from offset `place` on.
    ///
    /// The range is mapped by the image, or by the prepared mapping (a run that is written and not yet committed). Bytes that are written
    /// to the prepared mapping become part of the disk when it is committed.
    ///
    /// # Errors
    ///
    /// - `Fault::ReadOnly`, `Fault::RangeOverflow`, `Fault::PastEnd`, as in `check_range`.
    /// - `Fault::Outdated` if the range isn't mapped there.
    /// - `Fault::DamagedTable` only if the image isn't consistent.
    /// - `Fault::Memory`, `Fault::Storage`.
    ///
    /// # On error
    ///
    /// After an error other than `Fault::Memory` and `Fault::Storage` the layer is unchanged.
    ///
    /// # Crash safety
    ///
    /// Each crash image (the image file after a crash during the call) is consistent. Each byte reads as it did in the file or on the disk
    /// before the call, or as written.
    fn write_mapped(
        &mut self,
        alloc: Global,
        guest: u64,
        place: u64,
        bytes: &[u8],
    ) -> Result<(), Fault>
        // The effect.
        ensures writes { WritesMapped Self.DriverModel guest place bytes.now result self.old self.new }

        // Early outcomes, and errors.
        ensures early_outcome { RangeEarlyOutcome Self.DriverModel guest (length bytes.now) result self.old self.new }
        ensures refused { WritingRefused Self.DriverModel guest place (length bytes.now) result self.old self.new };

    /// Makes a part of the range read as 0, and keeps what is allocated for it: whole units (clusters in qcow2) from the first one on, not
    /// always all of them.
    ///
    /// Returns where the part starts, and its length in bytes. The part starts at or before the first unit that is completely in the range,
    /// and it ends inside no such unit. It isn't empty if the range has such a unit. The rest of the range is unchanged.
    ///
    /// # Preconditions
    ///
    /// No mapping is prepared: each one from `prepare_data_mapping` was committed or cancelled.
    ///
    /// # Errors
    ///
    /// - `Fault::ReadOnly`, `Fault::RangeOverflow`, `Fault::PastEnd`, as in `check_range`.
    /// - `Fault::VersionLimit` if the format can't do it, or another error of the driver's own (`DriverModel::own_cause`), such as
    ///   `Fault::Unsupported`.
    /// - `Fault::Memory`, `Fault::Storage`.
    ///
    /// # On error
    ///
    /// After an error other than `Fault::Memory` and `Fault::Storage`, no storage has failed, and each byte of the range is unchanged or 0.
    /// Bytes outside the range are unchanged.
    ///
    /// # Crash safety
    ///
    /// Each crash image (the image file after a crash during the call) is consistent. Each byte reads as it did in the file or on the disk
    /// before the call. A byte of the range may also read as 0.
    fn ensure_zero_mapping(
        &mut self,
        alloc: Global,
        offset: u64,
        length: u64,
    ) -> Result<(u64, u64), Fault>
        requires free { IsFree (Self.layer self.old) }

        // The effect.
        ensures part { IfOk result (IsPart offset length) }
        ensures does { DoesPart ensures_zero Self.DriverModel offset length result self.old self.new }

        // Early outcomes, and errors.
        ensures early_outcome { RangeEarlyOutcome Self.DriverModel offset length result self.old self.new }
        ensures refused { PartRefused ensures_zero Self.DriverModel offset length result self.old self.new };

    /// Deallocates a part of the range, so that it reads as 0: whole units (clusters in qcow2) from the first one on, not always all of
    /// them.
    ///
    /// Returns where the part starts, and its length in bytes. The part starts at or before the first unit that is completely in the range,
    /// and it ends inside no such unit. It isn't empty if the range has such a unit. The rest of the range is unchanged.
    ///
    /// # Preconditions
    ///
    /// No mapping is prepared: each one from `prepare_data_mapping` was committed or cancelled.
    ///
    /// # Errors
    ///
    /// - `Fault::ReadOnly`, `Fault::RangeOverflow`, `Fault::PastEnd`, as in `check_range`.
    /// - `Fault::VersionLimit` if the format can't do it, or another error of the driver's own (`DriverModel::own_cause`), such as
    ///   `Fault::Unsupported`.
    /// - `Fault::Memory`, `Fault::Storage`.
    ///
    /// # On error
    ///
    /// After an error other than `Fault::Memory` and `Fault::Storage`, no storage has failed, and each byte of the range is unchanged or 0.
    /// Bytes outside the range are unchanged.
    ///
    /// # Crash safety
    ///
    /// Each crash image (the image file after a crash during the call) is consistent. Each byte reads as it did in the file or on the disk
    /// before the call. A byte of the range may also read as 0.
    fn discard_to_zero(
        &mut self,
        alloc: Global,
        offset: u64,
        length: u64,
    ) -> Result<(u64, u64), Fault>
        requires free { IsFree (Self.layer self.old) }

        // The effect.
        ensures part { IfOk result (IsPart offset length) }
        ensures does { DoesPart discards_to_zero Self.DriverModel offset length result self.old self.new }

        // Early outcomes, and errors.
        ensures early_outcome { RangeEarlyOutcome Self.DriverModel offset length result self.old self.new }
        ensures refused { PartRefused discards_to_zero Self.DriverModel offset length result self.old self.new };

    /// Deallocates a part of the range: whole units (clusters in qcow2) from the first one on, not always all of them. Their bytes may
    /// become any bytes.
    ///
    /// Returns where the part starts, and its length in bytes. The part starts at or before the first unit that is completely in the range,
    /// and it ends inside no such unit. It isn't empty if the range has such a unit. The rest of the range is unchanged.
    ///
    /// # Preconditions
    ///
    /// No mapping is prepared: each one from `prepare_data_mapping` was committed or cancelled.
    ///
    /// # Errors
    ///
    /// - `Fault::ReadOnly`, `Fault::RangeOverflow`, `Fault::PastEnd`, as in `check_range`.
    /// - `Fault::VersionLimit` if the format can't do it, or another error of the driver's own (`DriverModel::own_cause`), such as
    ///   `Fault::Unsupported`.
    /// - `Fault::Memory`, `Fault::Storage`.
    ///
    /// # On error
    ///
    /// After an error other than `Fault::Memory` and `Fault::Storage`, no storage has failed, and each byte of the range is unchanged or
    /// has become any byte. Bytes outside the range are unchanged.
    ///
    /// # Crash safety
    ///
    /// Each crash image (the image file after a crash during the call) is consistent. Each byte reads as it did in the file or on the disk
    /// before the call. A byte of the range may also read as any byte.
    fn discard_to_any(
        &mut self,
        alloc: Global,
        offset: u64,
        length: u64,
    ) -> Result<(u64, u64), Fault>
        requires free { IsFree (Self.layer self.old) }

        // The effect.
        ensures part { IfOk result (IsPart offset length) }
        ensures does { DoesPart discards_to_any Self.DriverModel offset length result self.old self.new }

        // Early outcomes, and errors.
        ensures early_outcome { RangeEarlyOutcome Self.DriverModel offset length result self.old self.new }
        ensures refused { PartRefused discards_to_any Self.DriverModel offset length result self.old self.new };

    /// Deallocates a part of the range, so that it reads as in the layer below (the backing file): whole units (clusters in qcow2) from the
    /// first one on, not always all of them.
    ///
    /// Returns where the part starts, and its length in bytes. The part starts at or before the first unit that is completely in the range,
    /// and it ends inside no such unit. It isn't empty if the range has such a unit. The rest of the range is unchanged.
    ///
    /// # Preconditions
    ///
    /// No mapping is prepared: each one from `prepare_data_mapping` was committed or cancelled.
    ///
    /// # Errors
    ///
    /// - `Fault::ReadOnly`, `Fault::RangeOverflow`, `Fault::PastEnd`, as in `check_range`.
    /// - An error of the driver's own (`DriverModel::own_cause`), such as `Fault::Unsupported`.
    /// - `Fault::Memory`, `Fault::Storage`.
    ///
    /// # On error
    ///
    /// After an error other than `Fault::Memory` and `Fault::Storage`, no storage has failed, and each byte of the range is unchanged or is
    /// deallocated. Bytes outside the range are unchanged.
    ///
    /// # Crash safety
    ///
    /// Each crash image (the image file after a crash during the call) is consistent. Each byte reads as it did in the file or on the disk
    /// before the call. A byte of the range may also read as in the layer below.
    fn discard_to_backing(
        &mut self,
        alloc: Global,
        offset: u64,
        length: u64,
    ) -> Result<(u64, u64), Fault>
        requires free { IsFree (Self.layer self.old) }

        // The effect.
        ensures part { IfOk result (IsPart offset length) }
        ensures does { DoesPart discards_to_backing Self.DriverModel offset length result self.old self.new }

        // Early outcomes, and errors.
        ensures early_outcome { RangeEarlyOutcome Self.DriverModel offset length result self.old self.new }
        ensures refused { PartRefused discards_to_backing Self.DriverModel offset length result self.old self.new };

    /// Writes all dirty data to its files, and flushes the files.
    ///
    /// If no mapping is prepared, the image file by itself then says what each byte of the image is. The excess refcount of each cluster
    /// (refcount minus references) is then what leaks in the file.
    ///
    /// # Errors
    ///
    /// - `Fault::Memory`, `Fault::Storage`.
    ///
    /// # Crash safety
    ///
    /// Each crash image (the image file after a crash during the call) is consistent. Each byte reads as it did in the file or on the disk
    /// before the call.
    fn flush(&mut self, alloc: Global) -> Result<(), Fault>
        // The effect.
        ensures coherent { Self.coherent self.old → OnOk result ((Self.layer self.new ≡ Self.layer self.old) × Self.coherent self.new) }
        ensures has_no_dirty_data { OnOk result (Self.has_no_dirty_data self.new) }
        ensures written { Self.well_formed self.old → IsFree (Self.layer self.old) → OnOk result (IsWritten Self.DriverModel self.new) }
        ensures counted { Self.well_formed self.old → IsFree (Self.layer self.old) → OnOk result (IsCounted Self.DriverModel self.new) }
        ensures crash_images { Self.well_formed self.old → (below : List Layer) → KeepsCrashImages Self.DriverModel below GivesNone self.old self.new }

        // Early outcomes, and preserved state.
        ensures early_outcome { EarlyOutcome Self.DriverModel (unusable_fault (Self.layer self.old)) ⊥ result self.old self.new }
        ensures keeps_layer_state { KeepsLayerState (Self.layer self.old) (Self.layer self.new) }
        ensures mutating_call { MutatingCall Self.DriverModel (HadNoResourceError result) (HadNoResourceError result) self.old self.new }

        // Errors, and the failed state after them.
        ensures failed { IfErr result (Fails Self.DriverModel self.old self.new) }
        ensures marks_failed { IfErr result (MarksFailed Self.DriverModel self.old self.new) }
        ensures cause { Self.well_formed self.old → IfErr result (RefusesFlush Self.DriverModel self.old self.new) };

    /// Syncs the image's files: what was written to them is durable.
    ///
    /// # Errors
    ///
    /// - `Fault::Memory`, `Fault::Storage`.
    fn sync(&mut self) -> Result<(), Fault>
        // The effect.
        ensures same { OnOk result (Self.layer self.new ≡ Self.layer self.old) }
        ensures unchanged_but_faults { Pairs UnchangedButMoreFaults (files Self.DriverModel self.old) (files Self.DriverModel self.new) }
        ensures coherent { Self.coherent self.old → Self.coherent self.new }
        ensures has_no_dirty_data { Self.has_no_dirty_data self.old → Self.has_no_dirty_data self.new }

        // Early outcomes, and preserved state.
        ensures early_outcome { EarlyOutcome Self.DriverModel (unusable_fault (Self.layer self.old)) ⊥ result self.old self.new }
        ensures keeps_layer_state { KeepsLayerState (Self.layer self.old) (Self.layer self.new) }
        ensures mutating_call { MutatingCall Self.DriverModel (HadNoResourceError result) (HadNoResourceError result) self.old self.new }

        // Errors, and the failed state after them.
        ensures marks_failed { IfErr result (MarksFailed Self.DriverModel self.old self.new) }
        ensures cause { IfErr result (RefusesFlush Self.DriverModel self.old self.new) };

    /// Drops what is in memory, dirty or not, and reloads what the driver needs from its files.
    ///
    /// If it succeeds, the disk is unchanged and lookups still agree with the files. This requires that lookups agreed with the files
    /// before, that no data is dirty, as after a flush, and that the storages keep what is written.
    ///
    /// # Preconditions
    ///
    /// No mapping is prepared: each one from `prepare_data_mapping` was committed or cancelled.
    ///
    /// # Errors
    ///
    /// - `Fault::DamagedHeader`, `Fault::DamagedTable`, `Fault::Unsupported`, `Fault::Limit`, `Fault::CacheFull`. The image has failed.
    /// - `Fault::Memory`, `Fault::Storage`.
    fn invalidate_cache(&mut self, alloc: Global) -> Result<(), Fault>
        requires free { IsFree (Self.layer self.old) }

        // The effect.
        ensures same { KeepsWhatIsFlushed Self.DriverModel result self.old self.new }
        ensures unchanged_but_faults { Pairs UnchangedButMoreFaults (files Self.DriverModel self.old) (files Self.DriverModel self.new) }
        ensures has_no_dirty_data { OnOk result (Self.has_no_dirty_data self.new) }
        ensures free { IsFree (Self.layer self.new) }

        // Early outcomes, and preserved state.
        ensures early_outcome { EarlyOutcome Self.DriverModel (unusable_fault (Self.layer self.old)) ⊥ result self.old self.new }
        ensures mutating_call { ReloadingCall Self.DriverModel (IsOk result) (IsOk result) self.old self.new }

        // Errors, and the failed state after them.
        ensures failed { IfErr result (λ e. IsStale e → IsTrue (Self.layer self.new).failed) }
        ensures marks_failed { IfErr result (MarksFailed Self.DriverModel self.old self.new) }
        ensures cause { IfErr result (RefusesReload Self.DriverModel self.old self.new) };

    /// Makes the disk longer. If `size`, in bytes, isn't above the current size, nothing changes.
    ///
    /// # Preconditions
    ///
    /// No mapping is prepared: each one from `prepare_data_mapping` was committed or cancelled.
    ///
    /// # Errors
    ///
    /// - `Fault::ReadOnly` if the image wasn't opened for writing.
    /// - `Fault::Unsupported` if the image can't have this mode, or another error of the driver's own (`DriverModel::growth_cause`).
    /// - `Fault::Memory`, `Fault::Storage`.
    ///
    /// # On error
    ///
    /// After an error other than `Fault::Memory` and `Fault::Storage` the disk is unchanged.
    ///
    /// # Crash safety
    ///
    /// Each crash image (the image file after a crash during the call) is consistent, and its disk is at least as long as before. If the
    /// file states the disk's size, that is at most the new size. Each byte of the old disk reads as it did in the file or on the disk
    /// before the call.
    fn resize_grow<B: ReadBelow>(
        &mut self,
        alloc: Global,
        below: &mut B,
        size: u64,
        mode: PreallocateMode,
    ) -> Result<(), Fault>
        requires free { IsFree (Self.layer self.old) }

        // The effect.
        ensures resizes { Resizes Self.DriverModel size (Self.layer self.old).size result self.old self.new }
        ensures grows { Grows Self.DriverModel B.LayersBelowModel size mode result (self.old, below.old) (self.new, below.new) }

        // The effect on the layers below.
        ensures unread { IsUngrown (Self.layer self.old) size → below.new ≡ below.old }
        ensures below { LookupCallBelow B.LayersBelowModel (HadNoResourceError result) below.old below.new }

        // Errors.
        ensures refused { GrowthRefused Self.DriverModel B.LayersBelowModel size mode result (self.old, below.old) (self.new, below.new) };

    /// Makes the disk shorter. If `size`, in bytes, isn't below the current size, nothing changes.
    ///
    /// # Preconditions
    ///
    /// No mapping is prepared: each one from `prepare_data_mapping` was committed or cancelled.
    ///
    /// # Errors
    ///
    /// - `Fault::ReadOnly` if the image wasn't opened for writing.
    /// - An error of the driver's own (`DriverModel::own_cause`).
    /// - `Fault::Memory`, `Fault::Storage`.
    ///
    /// # On error
    ///
    /// After an error other than `Fault::Memory` and `Fault::Storage` the disk is unchanged.
    ///
    /// # Crash safety
    ///
    /// Each crash image (the image file after a crash during the call) is consistent, and its disk has at least the new size. If the file
    /// states the disk's size, that is at most the old size. Each byte reads as it did in the file or on the disk before the call. A byte
    /// past the new size may also read as the byte of the layers below.
    fn resize_shrink(&mut self, alloc: Global, size: u64) -> Result<(), Fault>
        requires free { IsFree (Self.layer self.old) }

        // The effect.
        ensures resizes { Resizes Self.DriverModel (Self.layer self.old).size size result self.old self.new }
        ensures shrinks { Shrinks Self.DriverModel size result self.old self.new }

        // Errors.
        ensures refused { ShrinkRefused Self.DriverModel size result self.old self.new };

    /// A well-formed driver is coherent (its metadata in memory agrees with the files).
    ghost well_formed_is_coherent: { (d : Self) → Self.well_formed d → Self.coherent d };

    /// A well-formed driver has not failed.
    ghost well_formed_is_usable: { (d : Self) → Self.well_formed d → (Self.layer d).failed ≡ false };

    /// The storages of a well-formed driver keep what is written.
    ghost well_formed_keeps_writes: { (d : Self) → Self.well_formed d → IsTrue (Self.layer d).fixed.keeps };

    /// The file of a well-formed driver is consistent, and not shorter than the disk.
    ghost well_formed_is_sound: { (d : Self) → Self.well_formed d → IsCovered (Self.layer d) Self.sound (Self.image d).bytes };

    /// No two guest bytes are written in place at the same offset of a storage.
    ghost one_writable_location: { (d : Self) (p q : ℕ) (at : ℕ × ℕ) → Self.well_formed d → IsOneAt (Self.layer d) at p q };

    /// A byte that the layer leaves to the layers below (the backing chain) reads through to them, or is 0.
    ghost blanks: { (d : Self) → ((Self.layer d).fixed.blank ≡ unmapped) ⊎ ((Self.layer d).fixed.blank ≡ own (byte 0)) };

    /// Its alignments are powers of two.
    ghost aligned: { (d : Self) → IsAlignment (Self.layer d).fixed.req_align × IsAlignment (Self.layer d).fixed.mem_align };

    /// Its storages determine its alignments and whether it keeps what is written. What it can zero by itself depends on its format and its
    /// image file.
    ghost of_storages: { (d : Self) → IsOfStorages (Self.layer d) (Self.image d) (Self.extras d) };

    /// A qcow2 image marks failures.
    ghost marked: { (d : Self) → (Self.layer d).fixed.format ≡ Qcow2 → IsTrue (Self.layer d).fixed.marks_failed };

    /// A qcow2 image reports the allocation of each byte.
    ghost reports_allocations: { (d : Self) → (Self.layer d).fixed.format ≡ Qcow2 → IsTrue (Self.layer d).fixed.reports_allocation };

    /// The unit of allocation has at least one byte.
    ghost units: { (d : Self) → 0 < (Self.layer d).fixed.unit };

    /// A call has begun even if nothing of it is carried out yet.
    ghost begins: { (d : Self) (call : Call) → Self.began d call d };

    /// If no mapping is prepared, no byte is held (part of a prepared mapping).
    ghost free_loose: { (d : Self) → IsFree (Self.layer d) → (p : ℕ) → (Self.layer d).held p ≡ loose };

    /// A byte that has an allocation isn't unallocated.
    ghost bare: { (d : Self) (p : ℕ) → Self.unallocated d p → Self.has_allocation d p → ⊥ };

    /// The allocation of a byte fits its writable location, if no mapping is prepared and the format reports allocations. An unallocated or
    /// zeroed byte can't be written in place. A byte that can be written in place has an allocation.
    ghost rooms: { (d : Self) (p : ℕ) → IsFree (Self.layer d) → IsTrue (Self.layer d).fixed.reports_allocation → AllocationOfPlace Self.DriverModel d p };
}

/// Checks whether a mapping with state (with something to commit) may be committed.
///
/// A driver's `commit_data_mapping` makes these checks in this order. `ready` is the result of the driver's `ready`, `number` is the number
/// of the driver's image, and `prepared_by` is the number of the image that prepared the mapping.
///
/// # Errors
///
/// - The error of `ready`, if it is one.
/// - `Fault::ReadOnly` if the image wasn't opened for writing.
/// - `Fault::Foreign` if the two numbers differ.
pub fn check_commit(
    ready: Result<(), Fault>,
    writable: bool,
    number: u64,
    prepared_by: u64,
) -> Result<(), Fault>
    ensures ok { OnOk result (IsOk ready × IsTrue writable × (prepared_by ≡ number)) }
    ensures err { IfErr result (CommitCheck ready writable number prepared_by) }
{
    ready?;
    if !writable {
        return Err(Fault::ReadOnly);
    }
    if prepared_by != number {
        return Err(Fault::Foreign);
    }
    Ok(())
}
