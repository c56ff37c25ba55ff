// Writes to the image file where the bytes of the disk are: in clusters with the COPIED flag, or in the run of the prepared mapping.
ghost use Rattle.std.specs.Prelude.{◌≡◌, ◌<◌, ◌≤◌, ◌+◌, ◌^◌, ◌↔◌, false, Some, None, length, IsTrue, IsFalse, IfOk, IfErr, IfSome};
ghost use Rattle.imago_access.specs.Failing.{Fails, RefusesLookup};
ghost use Rattle.imago_access.specs.Mappings.{IsMappedRun};
ghost use Rattle.imago_access.specs.Parts.{IsMappedAt};
ghost use Rattle.imago_access.specs.Layer.{IsFree};
ghost use Rattle.qcow2_alloc.specs.Causes.{HasCause};
ghost use Rattle.qcow2_image.specs.Holding.{HoldsRun, Notes};
ghost use Rattle.qcow2_image.specs.Looking.{IsWholeRunIn, writable_place_of};
ghost use Rattle.qcow2_image.specs.Rooms.{IsCoherent};
ghost use Rattle.qcow2_image.specs.Unspent.{holding_in};
ghost use Rattle.qcow2_image.specs.Steps.{KeepsImage};
ghost use Rattle.qcow2_image.specs.Writing.{IsWritableAt, WritesAt, telling_causes};
ghost use Rattle.qcow2_image.specs.Seen.{IsCacheCoherent};

use crate::qcow2::Qcow2;
use imago_access::{DriverModel, ShallowMapping};
use imago_storage::{Fault, Storage, StorageExt, WriteFault};
use std::alloc::Global;

// Returns the offset in the image file where a run can be written, if it can.
fn writable_place(mapping: ShallowMapping) -> Option<u64>
    ensures { result ≡ writable_place_of mapping }
{
    match mapping {
        ShallowMapping::Raw {
            offset,
            writable: true,
            ..
        } => Some(offset),
        _ => None,
    }
}

impl<S: Storage> Qcow2<S> {
    // Returns the offset in the image file where the run at `offset` can be written, if it can, and the run's length in bytes.
    pub(crate) fn writable_run(
        &mut self,
        offset: u64,
        length: u64,
    ) -> Result<Option<(u64, u64)>, Fault>
        requires inside { offset + length ≤ self.old.tables.file.header.fields.size }
        requires nonempty { 0 < length }
        requires runs { self.old.failed ≡ false }
        ensures run { let d = ⟦<Qcow2<S> as DriverModel>⟧ in
            IfOk result (λ o. IfSome o (λ r. IsMappedRun (d.layer self.old) offset length r.1)) }
        ensures end_bounded { IfOk result (λ o. IfSome o (λ r. r.0 + r.1 ≤ 2 ^ 60)) }
        ensures writable_location { let d = ⟦<Qcow2<S> as DriverModel>⟧ in
            IsCacheCoherent S.Storage self.old.tables → IfOk result (λ o. IfSome o (λ r. IsWritableAt (d.layer self.old) offset r.0 r.1)) }
        ensures none { let d = ⟦<Qcow2<S> as DriverModel>⟧ in
            IsCacheCoherent S.Storage self.old.tables → IfOk result (λ o. o ≡ None → (d.layer self.old).writable_location offset ≡ None) }
        ensures whole { let t = self.old.tables in IsFree (⟦<Qcow2<S> as DriverModel>⟧.layer self.old) →
            IsCacheCoherent S.Storage self.old.tables → IfOk result (λ o. IfSome o (λ r. IsWholeRunIn S.Storage t offset length r.1)) }
        ensures keeps { KeepsImage S.Storage self.old result self.new }
        ensures failed { IfErr result (Fails ⟦<Qcow2<S> as DriverModel>⟧ self.old self.new) }
        ensures cause { let d = ⟦<Qcow2<S> as DriverModel>⟧ in
            IsCacheCoherent S.Storage self.old.tables → IfErr result (RefusesLookup d offset length self.old self.new) }
    {
        let (mapping, count) = self.run_from(offset, length)?;
        match writable_place(mapping) {
            Some(place) => Ok(Some((place, count))),
            None => Ok(self.held_run(offset, count)),
        }
    }

    // Returns the image file's offset of a byte of the prepared run, and the length of the run from there, at most `most` bytes.
    fn held_run(&self, offset: u64, most: u64) -> Option<(u64, u64)>
        ensures run { HoldsRun (holding_in S.Storage self.now.unspent) offset most result }
        ensures end_bounded { IfSome result (λ r. r.0 + r.1 ≤ 2 ^ 60) }
    {
        match &self.unspent {
            Some(unspent) => unspent.run_from(offset, most),
            None => None,
        }
    }

    // Returns true if the whole range is in the prepared run, and is in the image file from `place` on.
    fn holds_at(&self, guest: u64, place: u64, length: u64) -> bool
        ensures held { IsTrue result ↔ HoldsRun (holding_in S.Storage self.now.unspent) guest length (Some (place, length)) }
        ensures end_bounded { IsTrue result → place + length ≤ 2 ^ 60 }
    {
        match self.held_run(guest, length) {
            Some((at, count)) => at == place && count == length,
            None => false,
        }
    }

    // Returns true if the whole range is mapped to the image file from `place` on, and can be written there. No L2 entry makes the bytes of
    // the prepared run writable, so a range inside that run needs no lookup.
    pub(crate) fn is_mapped_at(
        &mut self,
        guest: u64,
        place: u64,
        length: u64,
    ) -> Result<bool, Fault>
        requires inside { guest + length ≤ self.old.tables.file.header.fields.size }
        requires fits { guest + length < 2 ^ 64 }
        requires runs { self.old.failed ≡ false }
        ensures yes { let d = ⟦<Qcow2<S> as DriverModel>⟧ in
            IsCoherent S.Storage self.old → IfOk result (λ is. IsTrue is → IsWritableAt (d.layer self.old) guest place length) }
        ensures no { let d = ⟦<Qcow2<S> as DriverModel>⟧ in
            IsCacheCoherent S.Storage self.old.tables → IfOk result (λ is. IsFalse is → IsMappedAt (d.layer self.old) guest place length → ⊥) }
        ensures end_bounded { IfOk result (λ is. IsTrue is → 0 < length → place + length ≤ 2 ^ 60) }
        ensures keeps { KeepsImage S.Storage self.old result self.new }
        ensures failed { IfErr result (Fails ⟦<Qcow2<S> as DriverModel>⟧ self.old self.new) }
        ensures cause { IsCacheCoherent S.Storage self.old.tables → IfErr result (HasCause (telling_causes S.Storage self.old self.new)) }
    {
        if self.holds_at(guest, place, length) {
            return Ok(true);
        }
        let mut done = 0;
        while done < length {
            match self.writable_run(guest + done, length - done)? {
                Some((at, count)) => {
                    if at != place + done {
                        return Ok(false);
                    }
                    done += count;
                }
                None => return Ok(false),
            }
        }
        Ok(true)
    }

    // Writes bytes to the image file at `place`. If the write fails before any change, only a storage fault sets the image to failed. If
    // the storage refused a change, the image always fails, as a part may have been written.
    pub(crate) fn write_at(&mut self, alloc: Global, place: u64, bytes: &[u8]) -> Result<(), Fault>
        requires end_bounded { place + length bytes.now ≤ 2 ^ 60 }
        requires runs { self.old.failed ≡ false }
        ensures { WritesAt S.Storage place bytes.now self.old result self.new }
    {
        match self.tables.file.image.try_write(alloc, bytes, place) {
            Ok(()) => Ok(()),
            Err(WriteFault::Before(fault)) => {
                self.mark(fault);
                Err(fault)
            }
            Err(WriteFault::Within(fault)) => {
                self.failed = true;
                Err(fault)
            }
        }
    }

    // Notes in the prepared mapping, if any, that a range of the image file was written.
    pub(crate) fn note(&mut self, at: u64, length: u64)
        ensures notes { Notes at length (holding_in S.Storage self.old.unspent) (holding_in S.Storage self.new.unspent) }
        ensures others { self.new ≡ record self.old { unspent = self.new.unspent } }
    {
        match &mut self.unspent {
            Some(unspent) => unspent.written.note(at, length),
            None => {}
        }
    }
}
