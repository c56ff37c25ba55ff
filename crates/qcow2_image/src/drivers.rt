// The calls of the driver interface (`FormatDriverInstance`) for a qcow2 image, with their contracts.
ghost use Rattle.std.proofs.Common.{inr};
ghost use Rattle.std.specs.Prelude.{◌≡◌, ◌<◌, ◌+◌, ◌-◌, ◌/◌, ◌%◌, ◌^◌, min, ◌⊎◌, ⊤, None, Some, List, false, refl, length, IsTrue, IsErr, IsErrOf, IsOk, IsSome, OnOk, IfOk, IfErr};
ghost use Rattle.std.proofs.lemmas.Nat.{pow_pos};
ghost use Rattle.imago_storage.specs.Calls.{OldOrNewBytes};
ghost use Rattle.imago_storage.specs.declared.fault.Fault.TheVariants.{Limit};
ghost use Rattle.imago_access.specs.Changes.{asking};
ghost use Rattle.imago_access.specs.Failing.{Fails, RefusesFlush, RefusesLookup, RefusesRead, RefusesReload};
ghost use Rattle.imago_access.specs.Files.{AreRead, UnchangedButMoreFaults, IsNotResourceError, IsStale, OverflowsIn, Pairs, HadNoResourceError, files};
ghost use Rattle.imago_access.specs.Going.{EarlyOutcome, IsUnchanged, KeepsWhatIsFlushed, LookupCall, LookupCallBelow, MarksFailed, RangeEarlyOutcome, MutatingCall, ReloadingCall};
ghost use Rattle.imago_access.specs.Layer.{IsFree, KeepsLayerState, Layer};
ghost use Rattle.imago_access.specs.Mappings.{IsMappedRun, IsOneOf, IsRun, LooksIn, ReportsAllocationIn, ReportsExplicitZero};
ghost use Rattle.imago_access.specs.PartCalls.{DoesPart, IsPart, PartRefused, discards_to_any, discards_to_backing, discards_to_zero, ensures_zero};
ghost use Rattle.imago_access.specs.PreparingCalls.{Cancels, Commits, CommitRefused, IsHeldBy, Prepares, WritesMapped, WritingRefused, nowhere};
ghost use Rattle.imago_access.specs.Refusals.{unusable_fault, own_refusal};
ghost use Rattle.imago_access.specs.ResizeCalls.{GrowthRefused, Grows, IsUngrown, Resizes, ShrinkRefused, Shrinks};
ghost use Rattle.imago_access.specs.Stops.{GivesNone, IsCounted, IsWritten, KeepsCrashImages, MakesNone};
ghost use Rattle.qcow2_types.specs.Bytes.{bytes_of};
ghost use Rattle.qcow2_types.specs.Header.{cluster_size};
ghost use Rattle.qcow2_alloc.specs.Going.{IsNoShorter};
ghost use Rattle.qcow2_image.specs.Allocating.{waits_in};
ghost use Rattle.qcow2_image.specs.Growing.{IsUnsupported};
ghost use Rattle.qcow2_image.specs.ImageLayer.{blanks};
ghost use Rattle.qcow2_image.specs.Leaking.{KeepsLeaks};
ghost use Rattle.qcow2_image.specs.Looking.{IsWholeRunIn, answer_at};
ghost use Rattle.qcow2_image.specs.HeldHomes.{free_loose, one_writable_location, reports_allocations};
ghost use Rattle.qcow2_image.specs.Unspent.{holding_in};
ghost use Rattle.qcow2_image.specs.Writing.{OutOfMemoryLeavesUntouched, begun_itself};
ghost use Rattle.qcow2_image.specs.Preparing.{IsPartOfRun, LacksPlace, ReachesHeld};
ghost use Rattle.qcow2_image.specs.Rooms.{IsUntouched, not_both, covered, of_storages, was_well_formed};
ghost use Rattle.qcow2_image.specs.Steps.{Reloads, failed_on_reload, failed_after, failed_by};

use crate::preallocating::new_clusters;
use crate::qcow2::{PreparedMappingState, Qcow2};
use crate::reloading::reload;
use imago_access::{
    DriverModel, Format, FormatDriverInstance, PreallocateMode, PreparedDataMapping, ReadBelow,
    ShallowMapping,
};
use imago_storage::{Fault, Storage, StorageExt};
use qcow2_clusters::Clearing;
use std::alloc::Global;

impl<S: Storage> FormatDriverInstance for Qcow2<S> {
    type Storage = S;

    ghost well_formed_is_coherent = { λ d well_formed. record { seen = well_formed.seen; sure = inr (was_well_formed S.Storage.own d well_formed) } };

    ghost well_formed_is_usable = { λ d well_formed. well_formed.runs };

    ghost well_formed_keeps_writes = { λ d well_formed. well_formed.keeps };

    ghost well_formed_is_sound = { λ d well_formed. covered S.Storage.own d well_formed };

    ghost one_writable_location = { λ d p q at well_formed. one_writable_location S.Storage.own d well_formed p q at };

    ghost blanks = { λ d. blanks d.mode.backing };

    ghost aligned = { λ d. let shape = S.aligned d.tables.file.image in (shape.requests, shape.memory) };

    ghost of_storages = { λ d. of_storages S.Storage.own d };

    ghost marked = { λ d is. refl };

    ghost reports_allocations = { λ d is. refl };

    ghost units = { λ d. pow_pos d.tables.file.header.fields.cluster_bits };

    ghost begins = { λ d call. begun_itself S.Storage.own d call };

    ghost free_loose = { λ d free p. let held = holding_in S.Storage.own d.unspent in
        free_loose d.tables.file.header.fields (bytes_of (S.Storage.own.state d.tables.file.image).bytes) held p free };

    ghost bare = { λ d p free has. not_both _ _ p free has };

    ghost rooms = { λ d p free states. let room = reports_allocations S.Storage.own d free p in record { without_writable_location = room.0; housed = room.1 } };

    fn image_file(&self) -> &S {
        &self.tables.file.image
    }

    fn extra_file(&self, _index: usize) -> Option<&S> {
        None
    }

    fn format(&self) -> Format {
        Format::Qcow2
    }

    fn size(&self) -> u64 {
        self.tables.file.header.size()
    }

    fn writable(&self) -> bool {
        self.mode.writable
    }

    fn zero_granularity(&self) -> Option<u64> {
        if self.tables.file.header.version() > 2 {
            Some(self.tables.file.header.cluster_size() as u64)
        } else {
            None
        }
    }

    fn req_align(&self) -> usize {
        self.tables.file.image.req_align()
    }

    fn mem_align(&self) -> usize {
        self.tables.file.image.mem_align()
    }

    fn ready(&self) -> Result<(), Fault> {
        if self.failed {
            return Err(Fault::Failed);
        }
        Ok(())
    }

    fn prepared(&self) -> bool {
        self.unspent.is_some()
    }

    fn failed(&self) -> bool {
        self.failed
    }

    fn mark_failed(&mut self) {
        self.failed = true;
    }

    fn get_mapping(
        &mut self,
        _alloc: Global,
        offset: u64,
        max_length: u64,
    ) -> Result<(ShallowMapping, u64), Fault>
        ensures run { let d = ⟦<Qcow2<S> as DriverModel>⟧ in IfOk result (λ r. IsRun (d.layer self.old) offset max_length r.0 r.1) }
        ensures looks { let d = ⟦<Qcow2<S> as DriverModel>⟧ in d.coherent self.old → IfOk result (LooksIn d offset max_length self.old self.new) }
        ensures room { let d = ⟦<Qcow2<S> as DriverModel>⟧ in d.coherent self.old → IfOk result (ReportsAllocationIn d offset self.old) }
        ensures explicit_zero { let d = ⟦<Qcow2<S> as DriverModel>⟧ in d.coherent self.old → IfOk result (ReportsExplicitZero (d.explicit_zero self.old) offset) }
        ensures storage_exists { let d = ⟦<Qcow2<S> as DriverModel>⟧ in IfOk result (λ r. IsOneOf (length (files d self.old)) r.0) }
        ensures early_outcome { let d = ⟦<Qcow2<S> as DriverModel>⟧ in EarlyOutcome d (unusable_fault (d.layer self.old)) (max_length ≡ 0) result self.old self.new }
        ensures lookup_call { LookupCall ⟦<Qcow2<S> as DriverModel>⟧ (HadNoResourceError result) self.old self.new }
        ensures stays_begun { let d = ⟦<Qcow2<S> as DriverModel>⟧ in
            OnOk result ((e : _) (call : _) → d.began e call self.old → d.began e call self.new) }
        ensures failed { IfErr result (Fails ⟦<Qcow2<S> as DriverModel>⟧ self.old self.new) }
        ensures marks_failed { IfErr result (MarksFailed ⟦<Qcow2<S> as DriverModel>⟧ self.old self.new) }
        ensures cause { let d = ⟦<Qcow2<S> as DriverModel>⟧ in
            d.coherent self.old → IfErr result (RefusesLookup d offset max_length self.old self.new) }
        // Only a storage fault sets the image to failed.
        ensures marked { self.new.failed ≡ failed_after failed_by result self.old.failed }
        // The file is unchanged, except for fault counts.
        ensures reads { let d = ⟦<Qcow2<S> as DriverModel>⟧ in Pairs UnchangedButMoreFaults (files d self.old) (files d self.new) }
        // It returns the L2 entry of the guest cluster, and the longest run of consecutive mappings in one L2 table.
        ensures entry { let t = self.old.tables in 0 < max_length → offset < t.file.header.fields.size
            → ⟦<Qcow2<S> as DriverModel>⟧.coherent self.old → IfOk result (λ r. r.0 ≡ answer_at S.Storage t self.old.mode offset) }
        ensures whole { let t = self.old.tables in
            ⟦<Qcow2<S> as DriverModel>⟧.coherent self.old → IfOk result (λ r. IsWholeRunIn S.Storage t offset max_length r.1) }
        // The call leaks nothing.
        ensures leaks { KeepsLeaks S.Storage self.old self.new }
    {
        if self.failed {
            return Err(Fault::Failed);
        }
        let size = self.tables.file.header.size();
        if offset >= size {
            return Ok((ShallowMapping::Eof, 0));
        }
        if max_length == 0 {
            return Ok((ShallowMapping::Zero { explicit: true }, 0));
        }
        self.run_from(offset, max_length)
    }

    fn read_mapped(
        &mut self,
        alloc: Global,
        storage: usize,
        place: u64,
        buf: &mut [u8],
    ) -> Result<(), Fault>
        ensures bytes { OnOk result (AreRead (files ⟦<Qcow2<S> as DriverModel>⟧ self.old) storage place (length buf.old) buf.new) }
        ensures early_outcome { let d = ⟦<Qcow2<S> as DriverModel>⟧ in EarlyOutcome d (unusable_fault (d.layer self.old))
            (length buf.old ≡ 0) result self.old self.new }
        ensures lookup_call { LookupCall ⟦<Qcow2<S> as DriverModel>⟧ (HadNoResourceError result) self.old self.new }
        ensures stays_begun { let d = ⟦<Qcow2<S> as DriverModel>⟧ in
            OnOk result ((e : _) (call : _) → d.began e call self.old → d.began e call self.new) }
        ensures none { let d = ⟦<Qcow2<S> as DriverModel>⟧ in MakesNone (d.image self.old) (d.image self.new) }
        ensures overflow { let d = ⟦<Qcow2<S> as DriverModel>⟧ in unusable_fault (d.layer self.old) ≡ None
            → OverflowsIn (files d self.old) storage place (length buf.old) → IsErrOf result Fault.RangeOverflow }
        ensures marks_failed { IfErr result (MarksFailed ⟦<Qcow2<S> as DriverModel>⟧ self.old self.new) }
        ensures cause { IfErr result (RefusesRead ⟦<Qcow2<S> as DriverModel>⟧ place (length buf.old) self.old self.new) }
        // The call leaks nothing.
        ensures leaks { KeepsLeaks S.Storage self.old self.new }
        // The file gets no shorter.
        ensures no_shorter { IsNoShorter (S.state self.old.tables.file.image) (S.state self.new.tables.file.image) }
        // Only a storage fault sets the image to failed.
        ensures marked { self.new.failed ≡ failed_after failed_by result self.old.failed }
    {
        if self.failed {
            return Err(Fault::Failed);
        }
        if storage != 0 {
            buf.fill(0);
            return Ok(());
        }
        if buf.is_empty() {
            return Ok(());
        }
        let answer = self.tables.file.image.read(alloc, buf, place);
        self.mark_fault(answer)
    }

    fn read_special(&mut self, _buf: &mut [u8], _offset: u64) -> Result<(), Fault>
        ensures refused { IsErr result }
        ensures err { IfErr result (λ e. (unusable_fault (⟦<Qcow2<S> as DriverModel>⟧.layer self.old) ≡ Some e) ⊎ (e ≡ Fault.Barred)) }
        ensures unusable { (f : _) → unusable_fault (⟦<Qcow2<S> as DriverModel>⟧.layer self.old) ≡ Some f → IsErrOf result f }
        ensures unchanged { IsUnchanged ⟦<Qcow2<S> as DriverModel>⟧ self.old self.new }
        ensures buffer { _buf.new ≡ _buf.old }
        // The call is declined, and changes nothing.
        ensures same { self.new ≡ self.old }
    {
        if self.failed {
            return Err(Fault::Failed);
        }
        Err(Fault::Barred)
    }

    fn prepare_data_mapping<B: ReadBelow>(
        &mut self,
        alloc: Global,
        below: &mut B,
        offset: u64,
        length: u64,
        overwrite: bool,
    ) -> Result<PreparedDataMapping<PreparedMappingState>, Fault>
        requires free { IsFree (⟦<Qcow2<S> as DriverModel>⟧.layer self.old) }
        ensures run { let d = ⟦<Qcow2<S> as DriverModel>⟧ in
            IfOk result (λ m. IsMappedRun (d.layer self.old) offset length m.length × (m.offset + m.length < 2 ^ 64)) }
        ensures mine { let d = ⟦<Qcow2<S> as DriverModel>⟧ in IfOk result (λ m. IsHeldBy d m.state (d.layer self.new)) }
        ensures empty { let d = ⟦<Qcow2<S> as DriverModel>⟧ in
            length ≡ 0 → IfOk result (λ m. (m ≡ nowhere) × (d.layer self.new ≡ d.layer self.old)) }
        ensures size { let d = ⟦<Qcow2<S> as DriverModel>⟧ in (d.layer self.new).size ≡ (d.layer self.old).size }
        ensures free { IsErr result → IsFree (⟦<Qcow2<S> as DriverModel>⟧.layer self.new) }
        // A crash while a well-formed image is prepared leaves a consistent file, whose disk reads as before.
        ensures does { let d = ⟦<Qcow2<S> as DriverModel>⟧ in
            Prepares d B.LayersBelowModel (asking offset length overwrite) result (self.old, below.old) (self.new, below.new) }
        ensures below { LookupCallBelow B.LayersBelowModel (HadNoResourceError result) below.old below.new }
        ensures early_outcome { RangeEarlyOutcome ⟦<Qcow2<S> as DriverModel>⟧ offset length result self.old self.new }
        ensures unread { let d = ⟦<Qcow2<S> as DriverModel>⟧ in
            (length ≡ 0) ⊎ IsSome (own_refusal (d.layer self.old) offset length) → below.new ≡ below.old }
        // It returns the whole run that can be written in place, or prepares the first guest clusters. Those after the first are
        // overwritten completely.
        ensures whole { let t = self.old.tables in ⟦<Qcow2<S> as DriverModel>⟧.coherent self.old
            → IfOk result (λ m. 0 < length → m.state ≡ None → IsWholeRunIn S.Storage t offset length m.length) }
        ensures part { let asked = asking offset length overwrite in
            IfOk result (λ m. IsSome m.state → IsPartOfRun S.Storage asked m.length self.old) }
        // The file then reaches at least the end of the host clusters of the mapping.
        ensures reaches { IfOk result (λ m. IsSome m.state → ReachesHeld S.Storage self.new) }
        // It fails with `Fault::Limit` only if the first byte can't be written in place.
        ensures limit { let d = ⟦<Qcow2<S> as DriverModel>⟧ in
            d.coherent self.old → IfErr result (λ e. (n : _) → e ≡ Limit n → (d.layer self.old).writable_location offset ≡ None) }
        // With `Fault::Limit`, the L1 table would have more than 2^22 entries, or no free run of a quarter of the space was left. The
        // clusters were for an L1 entry, an L2 table of the guest cluster's own, or a host cluster. The number of the limit belongs to that
        // cause.
        ensures full { let t = self.old.tables in
            ⟦<Qcow2<S> as DriverModel>⟧.well_formed self.old → B.LayersBelowModel.coherent_below below.old → IfErr result (λ e. (n : _) → e ≡ Limit n
            → LacksPlace S.Storage (offset / cluster_size t.file.header.fields) t self.new.tables n) }
        // The call leaks nothing: a cluster that it allocates is pending (not yet linked) afterwards.
        ensures leaks { ⟦<Qcow2<S> as DriverModel>⟧.well_formed self.old → HadNoResourceError result → KeepsLeaks S.Storage self.old self.new }
    {
        if self.failed {
            return Err(Fault::Failed);
        }
        if length == 0 {
            return Ok(PreparedDataMapping::existing(0, 0, 0));
        }
        self.check_change(offset, length)?;
        match self.writable_run(offset, length)? {
            Some((place, count)) => Ok(PreparedDataMapping::existing(0, place, count)),
            None => self.prepare_fresh(alloc, below, offset, length, overwrite),
        }
    }

    fn commit_data_mapping(
        &mut self,
        _alloc: Global,
        mapping: PreparedDataMapping<PreparedMappingState>,
    ) -> Result<(), (Fault, Option<PreparedDataMapping<PreparedMappingState>>)>
        // After success in a well-formed image each byte of the run reads as the written byte, or as before. The rest of the disk reads as
        // before. A byte that was announced to be overwritten, and wasn't, may read as any byte. A crash leaves a consistent file, in which
        // each byte reads as before or as after the commit.
        ensures commits { Commits ⟦<Qcow2<S> as DriverModel>⟧ mapping.state result self.old self.new }
        ensures refused { CommitRefused ⟦<Qcow2<S> as DriverModel>⟧ mapping result self.old self.new }
        // The call leaks nothing: the clusters that it links are no longer pending, and the clusters that were linked before are.
        ensures leaks { ⟦<Qcow2<S> as DriverModel>⟧.well_formed self.old → IfErr result (λ e. IsNotResourceError e.0) → KeepsLeaks S.Storage self.old self.new }
        // The file gets no shorter, so no entry references bytes past its end.
        ensures no_shorter { IsNoShorter (S.state self.old.tables.file.image) (S.state self.new.tables.file.image) }
    {
        let storage = mapping.storage();
        let offset = mapping.offset();
        let length = mapping.length();
        match mapping.into_state() {
            None => {
                if self.failed {
                    let mapping = PreparedDataMapping::existing(storage, offset, length);
                    return Err((Fault::Failed, Some(mapping)));
                }
                Ok(())
            }
            Some(state) => {
                match self.check_state(&state) {
                    Ok(()) => self.commit_unspent(state),
                    Err(fault) => {
                        let mapping = PreparedDataMapping::to_commit(
                            storage, offset, length, state,
                        );
                        Err((fault, Some(mapping)))
                    }
                }
            }
        }
    }

    fn cancel_data_mapping(
        &mut self,
        mapping: PreparedDataMapping<PreparedMappingState>,
    ) -> Result<(), (Fault, PreparedDataMapping<PreparedMappingState>)>
        ensures cancels { Cancels ⟦<Qcow2<S> as DriverModel>⟧ mapping result self.old self.new }
        // The call leaks nothing: an allocated cluster is on the free list afterwards.
        ensures leaks { ⟦<Qcow2<S> as DriverModel>⟧.well_formed self.old → KeepsLeaks S.Storage self.old self.new }
    {
        let storage = mapping.storage();
        let offset = mapping.offset();
        let length = mapping.length();
        match mapping.into_state() {
            None => Ok(()),
            Some(state) => {
                if state.number != self.number {
                    let mapping = PreparedDataMapping::to_commit(storage, offset, length, state);
                    return Err((Fault::Foreign, mapping));
                }
                self.cancel_unspent(state);
                Ok(())
            }
        }
    }

    fn write_mapped(
        &mut self,
        alloc: Global,
        guest: u64,
        place: u64,
        bytes: &[u8],
    ) -> Result<(), Fault>
        // After a write in place in a well-formed image the disk has these bytes. The image stays well-formed, so its file is consistent. A
        // write to the prepared run changes no byte of the disk before the commit. A crash leaves a consistent file in which each byte is
        // old or written.
        ensures writes { WritesMapped ⟦<Qcow2<S> as DriverModel>⟧ guest place bytes.now result self.old self.new }
        ensures early_outcome { RangeEarlyOutcome ⟦<Qcow2<S> as DriverModel>⟧ guest (length bytes.now) result self.old self.new }
        ensures refused { WritingRefused ⟦<Qcow2<S> as DriverModel>⟧ guest place (length bytes.now) result self.old self.new }
        // If memory runs out, the image stays usable, unless the storage refused a change.
        ensures untouched_unless_begun { IfErr result (OutOfMemoryLeavesUntouched S.Storage self.old self.new) }
        // Only these bytes of the file may change: each is new or old.
        ensures file { let s = S.state self.old.tables.file.image in
            IsTrue s.shape.keeps → OldOrNewBytes s.bytes place bytes.now (S.state self.new.tables.file.image).bytes }
        // The call leaks nothing: no refcount, reference or pending cluster changes.
        ensures leaks { ⟦<Qcow2<S> as DriverModel>⟧.well_formed self.old → HadNoResourceError result → KeepsLeaks S.Storage self.old self.new }
        // The file gets no shorter.
        ensures no_shorter { IsNoShorter (S.state self.old.tables.file.image) (S.state self.new.tables.file.image) }
    {
        if self.failed {
            return Err(Fault::Failed);
        }
        let length = bytes.len() as u64;
        if length == 0 {
            return Ok(());
        }
        self.check_change(guest, length)?;
        if !self.is_mapped_at(guest, place, length)? {
            return Err(Fault::Outdated);
        }
        self.write_at(alloc, place, bytes)?;
        self.note(guest, length);
        Ok(())
    }

    fn ensure_zero_mapping(
        &mut self,
        alloc: Global,
        offset: u64,
        length: u64,
    ) -> Result<(u64, u64), Fault>
        requires free { IsFree (⟦<Qcow2<S> as DriverModel>⟧.layer self.old) }
        ensures part { IfOk result (IsPart offset length) }
        ensures does { DoesPart ensures_zero ⟦<Qcow2<S> as DriverModel>⟧ offset length result self.old self.new }
        ensures early_outcome { RangeEarlyOutcome ⟦<Qcow2<S> as DriverModel>⟧ offset length result self.old self.new }
        ensures refused { PartRefused ensures_zero ⟦<Qcow2<S> as DriverModel>⟧ offset length result self.old self.new }
    {
        self.clear(alloc, offset, length, Clearing::Keep)
    }

    fn discard_to_zero(
        &mut self,
        alloc: Global,
        offset: u64,
        length: u64,
    ) -> Result<(u64, u64), Fault>
        requires free { IsFree (⟦<Qcow2<S> as DriverModel>⟧.layer self.old) }
        ensures part { IfOk result (IsPart offset length) }
        ensures does { DoesPart discards_to_zero ⟦<Qcow2<S> as DriverModel>⟧ offset length result self.old self.new }
        ensures early_outcome { RangeEarlyOutcome ⟦<Qcow2<S> as DriverModel>⟧ offset length result self.old self.new }
        ensures refused { PartRefused discards_to_zero ⟦<Qcow2<S> as DriverModel>⟧ offset length result self.old self.new }
    {
        self.clear(alloc, offset, length, Clearing::GiveUp)
    }

    fn discard_to_any(
        &mut self,
        alloc: Global,
        offset: u64,
        length: u64,
    ) -> Result<(u64, u64), Fault>
        requires free { IsFree (⟦<Qcow2<S> as DriverModel>⟧.layer self.old) }
        ensures part { IfOk result (IsPart offset length) }
        ensures does { DoesPart discards_to_any ⟦<Qcow2<S> as DriverModel>⟧ offset length result self.old self.new }
        ensures early_outcome { RangeEarlyOutcome ⟦<Qcow2<S> as DriverModel>⟧ offset length result self.old self.new }
        ensures refused { PartRefused discards_to_any ⟦<Qcow2<S> as DriverModel>⟧ offset length result self.old self.new }
    {
        self.clear(alloc, offset, length, Clearing::GiveUp)
    }

    fn discard_to_backing(
        &mut self,
        alloc: Global,
        offset: u64,
        length: u64,
    ) -> Result<(u64, u64), Fault>
        requires free { IsFree (⟦<Qcow2<S> as DriverModel>⟧.layer self.old) }
        ensures part { IfOk result (IsPart offset length) }
        ensures does { DoesPart discards_to_backing ⟦<Qcow2<S> as DriverModel>⟧ offset length result self.old self.new }
        ensures early_outcome { RangeEarlyOutcome ⟦<Qcow2<S> as DriverModel>⟧ offset length result self.old self.new }
        ensures refused { PartRefused discards_to_backing ⟦<Qcow2<S> as DriverModel>⟧ offset length result self.old self.new }
    {
        self.clear(alloc, offset, length, Clearing::Unmap)
    }

    fn flush(&mut self, _alloc: Global) -> Result<(), Fault>
        // After success the disk reads as before.
        ensures coherent { let d = ⟦<Qcow2<S> as DriverModel>⟧ in
            d.coherent self.old → OnOk result ((d.layer self.new ≡ d.layer self.old) × d.coherent self.new) }
        ensures has_no_dirty_data { OnOk result (⟦<Qcow2<S> as DriverModel>⟧.has_no_dirty_data self.new) }
        ensures written { let d = ⟦<Qcow2<S> as DriverModel>⟧ in d.well_formed self.old → IsFree (d.layer self.old) → OnOk result (IsWritten d self.new) }
        ensures counted { let d = ⟦<Qcow2<S> as DriverModel>⟧ in d.well_formed self.old → IsFree (d.layer self.old) → OnOk result (IsCounted d self.new) }
        // A crash during the flush of a well-formed image leaves a consistent file, also if the free list isn't empty.
        ensures crash_images { let d = ⟦<Qcow2<S> as DriverModel>⟧ in
            d.well_formed self.old → (below : List Layer) → KeepsCrashImages d below GivesNone self.old self.new }
        ensures early_outcome { let d = ⟦<Qcow2<S> as DriverModel>⟧ in EarlyOutcome d (unusable_fault (d.layer self.old)) ⊥ result self.old self.new }
        ensures keeps_layer_state { let d = ⟦<Qcow2<S> as DriverModel>⟧ in KeepsLayerState (d.layer self.old) (d.layer self.new) }
        ensures mutating_call { MutatingCall ⟦<Qcow2<S> as DriverModel>⟧ (HadNoResourceError result) (HadNoResourceError result) self.old self.new }
        ensures failed { IfErr result (Fails ⟦<Qcow2<S> as DriverModel>⟧ self.old self.new) }
        ensures marks_failed { IfErr result (MarksFailed ⟦<Qcow2<S> as DriverModel>⟧ self.old self.new) }
        ensures cause { let d = ⟦<Qcow2<S> as DriverModel>⟧ in d.well_formed self.old → IfErr result (RefusesFlush d self.old self.new) }
        // If the free list is empty and no mapping is prepared, only a storage fault sets the image to failed.
        ensures marked { IsUntouched S.Storage self.old → self.new.failed ≡ failed_after failed_by result self.old.failed }
        // After success the free list is empty.
        ensures freed { OnOk result (waits_in self.new.tables.space ≡ false) }
        // The call leaks nothing: clusters that were on the free list are freed.
        ensures leaks { ⟦<Qcow2<S> as DriverModel>⟧.well_formed self.old → HadNoResourceError result → KeepsLeaks S.Storage self.old self.new }
        // The file gets no shorter.
        ensures no_shorter { IsNoShorter (S.state self.old.tables.file.image) (S.state self.new.tables.file.image) }
    {
        if self.failed {
            return Err(Fault::Failed);
        }
        if self.has_pending_frees() {
            return self.flush_freed();
        }
        let answer = self.tables.file.image.flush();
        self.mark_fault(answer)
    }

    fn sync(&mut self) -> Result<(), Fault>
        ensures same { let d = ⟦<Qcow2<S> as DriverModel>⟧ in OnOk result (d.layer self.new ≡ d.layer self.old) }
        ensures unchanged_but_faults { let d = ⟦<Qcow2<S> as DriverModel>⟧ in Pairs UnchangedButMoreFaults (files d self.old) (files d self.new) }
        ensures coherent { ⟦<Qcow2<S> as DriverModel>⟧.coherent self.old → ⟦<Qcow2<S> as DriverModel>⟧.coherent self.new }
        ensures has_no_dirty_data { ⟦<Qcow2<S> as DriverModel>⟧.has_no_dirty_data self.old → ⟦<Qcow2<S> as DriverModel>⟧.has_no_dirty_data self.new }
        ensures early_outcome { let d = ⟦<Qcow2<S> as DriverModel>⟧ in EarlyOutcome d (unusable_fault (d.layer self.old)) ⊥ result self.old self.new }
        ensures keeps_layer_state { let d = ⟦<Qcow2<S> as DriverModel>⟧ in KeepsLayerState (d.layer self.old) (d.layer self.new) }
        ensures mutating_call { MutatingCall ⟦<Qcow2<S> as DriverModel>⟧ (HadNoResourceError result) (HadNoResourceError result) self.old self.new }
        ensures marks_failed { IfErr result (MarksFailed ⟦<Qcow2<S> as DriverModel>⟧ self.old self.new) }
        ensures cause { IfErr result (RefusesFlush ⟦<Qcow2<S> as DriverModel>⟧ self.old self.new) }
        // The call leaks nothing.
        ensures leaks { KeepsLeaks S.Storage self.old self.new }
        // Only a storage fault sets the image to failed.
        ensures marked { self.new.failed ≡ failed_after failed_by result self.old.failed }
    {
        if self.failed {
            return Err(Fault::Failed);
        }
        let answer = self.tables.file.image.sync();
        self.mark_fault(answer)
    }

    fn invalidate_cache(&mut self, alloc: Global) -> Result<(), Fault>
        requires free { IsFree (⟦<Qcow2<S> as DriverModel>⟧.layer self.old) }
        ensures same { KeepsWhatIsFlushed ⟦<Qcow2<S> as DriverModel>⟧ result self.old self.new }
        ensures unchanged_but_faults { let d = ⟦<Qcow2<S> as DriverModel>⟧ in Pairs UnchangedButMoreFaults (files d self.old) (files d self.new) }
        ensures has_no_dirty_data { OnOk result (⟦<Qcow2<S> as DriverModel>⟧.has_no_dirty_data self.new) }
        ensures free { IsFree (⟦<Qcow2<S> as DriverModel>⟧.layer self.new) }
        ensures early_outcome { let d = ⟦<Qcow2<S> as DriverModel>⟧ in EarlyOutcome d (unusable_fault (d.layer self.old)) ⊥ result self.old self.new }
        ensures mutating_call { ReloadingCall ⟦<Qcow2<S> as DriverModel>⟧ (IsOk result) (IsOk result) self.old self.new }
        ensures failed { IfErr result (λ e. IsStale e → IsTrue (⟦<Qcow2<S> as DriverModel>⟧.layer self.new).failed) }
        ensures marks_failed { IfErr result (MarksFailed ⟦<Qcow2<S> as DriverModel>⟧ self.old self.new) }
        ensures cause { IfErr result (RefusesReload ⟦<Qcow2<S> as DriverModel>⟧ self.old self.new) }
        // Any error but `Fault::Memory` sets the image to failed.
        ensures marked { self.new.failed ≡ failed_after failed_on_reload result self.old.failed }
        // After success the tables in memory are those of the file, and nothing else is cached. On error they are unchanged.
        ensures reloads { self.old.failed ≡ false → Reloads S.Storage self.old.mode.writable self.old.tables result self.new.tables }
    {
        if self.failed {
            return Err(Fault::Failed);
        }
        let answer = reload(&mut self.tables, alloc, self.mode.writable);
        self.mark_reload_fault(answer)
    }

    fn resize_grow<B: ReadBelow>(
        &mut self,
        alloc: Global,
        below: &mut B,
        size: u64,
        mode: PreallocateMode,
    ) -> Result<(), Fault>
        requires free { IsFree (⟦<Qcow2<S> as DriverModel>⟧.layer self.old) }
        ensures resizes { let d = ⟦<Qcow2<S> as DriverModel>⟧ in Resizes d size (d.layer self.old).size result self.old self.new }
        ensures grows { Grows ⟦<Qcow2<S> as DriverModel>⟧ B.LayersBelowModel size mode result (self.old, below.old) (self.new, below.new) }
        ensures unread { IsUngrown (⟦<Qcow2<S> as DriverModel>⟧.layer self.old) size → below.new ≡ below.old }
        ensures below { LookupCallBelow B.LayersBelowModel (HadNoResourceError result) below.old below.new }
        // `Fault::Unsupported` means that the mode allocates clusters, and the image has layers below. `Fault::VersionLimit` means that the
        // image has version 2, which has no zero clusters. `Fault::Limit` is for a size above 2^63 - 1, or if the L1 table, an L2 table or a
        // cluster can't be allocated. `Fault::Barred` and `Fault::DamagedTable` mean that the bytes before the old end are needed and can't
        // be read. After these the disk reads as before.
        ensures refused { GrowthRefused ⟦<Qcow2<S> as DriverModel>⟧ B.LayersBelowModel size mode result (self.old, below.old) (self.new, below.new) }
        // `Fault::Unsupported` and `Fault::VersionLimit` come before anything is done.
        ensures early { ⟦<Qcow2<S> as DriverModel>⟧.well_formed self.old → B.LayersBelowModel.coherent_below below.old
            → IfErr result (λ e. IsUnsupported e → (self.new ≡ self.old) × (below.new ≡ below.old)) }
    {
        if self.failed {
            return Err(Fault::Failed);
        }
        if size <= self.tables.file.header.size() {
            return Ok(());
        }
        self.check_growth(size, mode)?;
        match new_clusters(mode) {
            None => self.grow(alloc, size),
            Some(how) => self.grow_over(alloc, below, size, how),
        }
    }

    fn resize_shrink(&mut self, alloc: Global, size: u64) -> Result<(), Fault>
        requires free { IsFree (⟦<Qcow2<S> as DriverModel>⟧.layer self.old) }
        ensures resizes { let d = ⟦<Qcow2<S> as DriverModel>⟧ in Resizes d (d.layer self.old).size size result self.old self.new }
        ensures shrinks { Shrinks ⟦<Qcow2<S> as DriverModel>⟧ size result self.old self.new }
        // `Fault::Limit` means that an L2 table of a guest cluster past the new size is shared, and can't be copied. After it the disk reads
        // as before.
        ensures refused { ShrinkRefused ⟦<Qcow2<S> as DriverModel>⟧ size result self.old self.new }
    {
        if self.failed {
            return Err(Fault::Failed);
        }
        if size >= self.tables.file.header.size() {
            return Ok(());
        }
        if !self.mode.writable {
            return Err(Fault::ReadOnly);
        }
        self.shrink(alloc, size)
    }
}
