// The errors of calls that change an image and fail before anything is done.
ghost use Rattle.std.specs.Prelude.{◌≡◌, ◌<◌, ◌≤◌, ◌+◌, ◌-◌, ◌^◌, false, Some, None, List, IsTrue, IfErr, OnOk};
ghost use Rattle.imago_storage.specs.State.{StorageState};
ghost use Rattle.imago_access.specs.Files.{ImageCause};
ghost use Rattle.imago_access.specs.Refusals.{own_refusal};
ghost use Rattle.imago_access.specs.Spending.{commit_refusal, GivenBack};
ghost use Rattle.imago_access.specs.declared.format.PreallocateMode.{PreallocateMode};
ghost use Rattle.qcow2_image.specs.Growing.{RefusesGrowth};

use crate::qcow2::{PreparedMappingState, Qcow2};
use imago_access::{DriverModel, FormatDriverInstance, PreallocateMode, check_commit, check_range};
use imago_storage::{Fault, Storage, larger_alignment};

impl<S: Storage> Qcow2<S> {
    // Checks a change of a range that isn't empty. The error is `Fault::Failed`, or that of `check_range`.
    pub(crate) fn check_change(&self, offset: u64, length: u64) -> Result<(), Fault>
        requires { 0 < length }
        ensures ok { let d = ⟦<Qcow2<S> as DriverModel>⟧ in OnOk result (own_refusal (d.layer self.now) offset length ≡ None) }
        ensures writable { OnOk result (IsTrue self.now.mode.writable) }
        ensures inside { OnOk result (offset + length ≤ self.now.tables.file.header.fields.size) }
        ensures fits { OnOk result (offset + length < 2 ^ 64) }
        ensures runs { OnOk result (self.now.failed ≡ false) }
        ensures err { let d = ⟦<Qcow2<S> as DriverModel>⟧ in IfErr result (λ e. own_refusal (d.layer self.now) offset length ≡ Some e) }
    {
        if self.failed {
            return Err(Fault::Failed);
        }
        let image = &self.tables.file.image;
        let unit = larger_alignment(image.req_align(), image.mem_align());
        let size = self.tables.file.header.size();
        check_range(self.mode.writable, unit as u64, size, offset, length)
    }

    // Checks a commit of a mapping with this state: `Fault::Failed`, `Fault::ReadOnly` or `Fault::Foreign`, in this order. If it fails, the
    // mapping is given back to the caller.
    pub(crate) fn check_state(&self, state: &PreparedMappingState) -> Result<(), Fault>
        ensures ok { let d = ⟦<Qcow2<S> as DriverModel>⟧ in OnOk result (commit_refusal d (Some state.now) (d.layer self.now) ≡ None) }
        ensures own { OnOk result (state.now.number ≡ self.now.number) }
        ensures early_outcome { let d = ⟦<Qcow2<S> as DriverModel>⟧ in
            IfErr result (λ e. commit_refusal d (Some state.now) (d.layer self.now) ≡ Some e) }
        ensures back { let d = ⟦<Qcow2<S> as DriverModel>⟧ in IfErr result (GivenBack d.tag (Some state.now) (d.layer self.now)) }
        ensures failed { (olds news : List StorageState) → IfErr result (ImageCause olds news) }
    {
        check_commit(self.ready(), self.mode.writable, self.number, state.number)
    }

    // Checks a growth to this size, if the size is above that of the disk. The error is `Fault::ReadOnly` for a read-only image,
    // `Fault::Unsupported` for a mode that allocates clusters in an image with layers below, `Fault::VersionLimit` for zero clusters in an
    // image of version 2, or `Fault::Limit` for a size above 2^63 - 1.
    pub(crate) fn check_growth(&self, size: u64, mode: PreallocateMode) -> Result<(), Fault>
        ensures ok { OnOk result (IsTrue self.now.mode.writable × (size ≤ 2 ^ 63 - 1)) }
        ensures possible { OnOk result (mode ≡ PreallocateMode.Zero → self.now.tables.file.header.fields.version ≡ 3) }
        ensures err { IfErr result (RefusesGrowth S.Storage self.now size mode) }
    {
        if !self.mode.writable {
            return Err(Fault::ReadOnly);
        }
        match mode {
            PreallocateMode::None => {}
            PreallocateMode::Zero => {
                if self.tables.file.header.version() != 3 {
                    return Err(Fault::VersionLimit);
                }
            }
            PreallocateMode::FormatAllocate
            | PreallocateMode::FullAllocate
            | PreallocateMode::WriteData => {
                if self.mode.backing {
                    return Err(Fault::Unsupported);
                }
            }
        }
        if size > (1 << 63) - 1 {
            return Err(Fault::Limit(size));
        }
        Ok(())
    }
}
