// Changes of the size of a disk. Definitions: specs/ResizeCalls.antt.
ghost use Rattle.std.specs.Prelude.{◌≡◌, ◌⊎◌, ◌≢◌, ◌<◌, ◌≤◌, IfErr, OnOk};
ghost use Rattle.imago_storage.specs.Steps.{grow, shrink};
ghost use Rattle.imago_access.specs.Layer.{IsFree};
ghost use Rattle.imago_access.specs.Chain.{Each};
ghost use Rattle.imago_access.specs.Files.{HadNoResourceError};
ghost use Rattle.imago_access.specs.Going.{EarlyOutcome, MutatingCall, LookupCallBelow, MarksFailed, MarksFailedOver};
ghost use Rattle.imago_access.specs.Refusals.{unusable_fault, IsUnusable};
ghost use Rattle.imago_access.specs.Resizes.{fill_of};
ghost use Rattle.imago_access.specs.Running.{IsIntactChain, below_ghosts};
ghost use Rattle.imago_access.specs.ChainCalls.{ChainStays, ChainFails, ChainGrowthRefused, ChainResizes, ChainShrinkRefused, GrowthCrashImages, UnlessResourceError, NeedsWritable, ShrinkCrashImages, StaysIntact, IsCarriedOut};
ghost use Rattle.imago_access.specs.Failing.{Fails};
ghost use Rattle.imago_access.specs.ResizeCalls.{IsUngrown, Resizes};

use crate::access::FormatAccess;
use crate::drivers::FormatDriverInstance;
use crate::format::PreallocateMode;
use imago_storage::Fault;
use std::alloc::Global;

impl<D: FormatDriverInstance> FormatAccess<D> {
    /// Makes the disk longer. If `size`, in bytes, isn't above the current size, nothing changes.
    ///
    /// # Preconditions
    ///
    /// No mapping is prepared: each one from `prepare_data_mapping` was committed or cancelled.
    ///
    /// # Errors
    ///
    /// - `Fault::Failed`, `Fault::MissingData` if a layer can't be used.
    /// - `Fault::ReadOnly` if the top image wasn't opened for writing.
    /// - `Fault::Unsupported` if the image can't have this mode.
    /// - An error of the driver's own (`DriverModel::growth_cause`).
    /// - `Fault::Memory`, `Fault::Storage`.
    ///
    /// # On error
    ///
    /// After an error other than `Fault::Memory` and `Fault::Storage` the disk is unchanged.
    ///
    /// # Crash safety
    ///
    /// Each crash image (the image file after a crash during the call) is consistent, and its disk is at least as long as before. If the
    /// file states the disk's size, that is at most the new size. Each byte of the old disk reads as it did in the file or on the disk
    /// before the call.
    pub fn resize_grow(
        &mut self,
        alloc: Global,
        size: u64,
        mode: PreallocateMode,
    ) -> Result<(), Fault>
        requires free { IsFree (D.layer self.old.0) }

        // The effect.
        ensures ok { IsCarriedOut D.DriverModel (grow size (fill_of mode)) result self.old self.new }
        ensures err { IsIntactChain D.DriverModel self.old → UnlessResourceError result (ChainStays D.DriverModel self.old self.new) }
        ensures resizes { Resizes D.DriverModel size (D.layer self.old.0).size result self.old.0 self.new.0 }
        ensures unread { IsUngrown (D.layer self.old.0) size → self.new.1 ≡ self.old.1 }

        // Preserved state, and crash images.
        ensures free { IsFree (D.layer self.new.0) }
        ensures mutating_call { MutatingCall D.DriverModel (HadNoResourceError result) (HadNoResourceError result × Each D.coherent self.old.1) self.old.0 self.new.0 }
        ensures below { LookupCallBelow (below_ghosts D.DriverModel) (HadNoResourceError result) self.old.1 self.new.1 }
        ensures intact { HadNoResourceError result → StaysIntact D.DriverModel self.old self.new }
        ensures crash_images { IsIntactChain D.DriverModel self.old → GrowthCrashImages D.DriverModel size self.old self.new }

        // Errors, and the failed state after them.
        ensures failed { IfErr result (ChainFails D.DriverModel self.old self.new) }
        ensures marks_failed { IfErr result (MarksFailedOver D.DriverModel self.old.0 self.new.0) }
        ensures cause { ChainGrowthRefused D.DriverModel size mode result self.old self.new }
    {
        self.driver.resize_grow(alloc, &mut self.below, size, mode)
    }

    /// Makes the disk shorter. If `size`, in bytes, isn't below the current size, nothing changes.
    ///
    /// # Preconditions
    ///
    /// No mapping is prepared: each one from `prepare_data_mapping` was committed or cancelled.
    ///
    /// # Errors
    ///
    /// - `Fault::Failed`, `Fault::MissingData` if the top image can't be used.
    /// - `Fault::ReadOnly` if the top image wasn't opened for writing.
    /// - An error of the driver's own (`DriverModel::own_cause`).
    /// - `Fault::Memory`, `Fault::Storage`.
    ///
    /// # On error
    ///
    /// After an error other than `Fault::Memory` and `Fault::Storage` the disk is unchanged.
    ///
    /// # Crash safety
    ///
    /// Each crash image (the image file after a crash during the call) is consistent, and its disk has at least the new size. If the file
    /// states the disk's size, that is at most the old size. Each byte reads as it did in the file or on the disk before the call. A byte
    /// past the new size may also read as the byte of the layers below (the backing chain).
    pub fn resize_shrink(&mut self, alloc: Global, size: u64) -> Result<(), Fault>
        requires free { IsFree (D.layer self.old.0) }

        // The effect.
        ensures ok { IsCarriedOut D.DriverModel (shrink size) result self.old self.new }
        ensures err { IsIntactChain D.DriverModel self.old → UnlessResourceError result (ChainStays D.DriverModel self.old self.new) }
        ensures resizes { Resizes D.DriverModel (D.layer self.old.0).size size result self.old.0 self.new.0 }

        // Preserved state, and crash images.
        ensures free { IsFree (D.layer self.new.0) }
        ensures mutating_call { MutatingCall D.DriverModel (HadNoResourceError result) (HadNoResourceError result) self.old.0 self.new.0 }
        ensures below { self.new.1 ≡ self.old.1 }
        ensures intact { HadNoResourceError result → StaysIntact D.DriverModel self.old self.new }
        ensures crash_images { IsIntactChain D.DriverModel self.old → ShrinkCrashImages D.DriverModel size self.old self.new }

        // Errors, and the failed state after them.
        ensures failed { IfErr result (Fails D.DriverModel self.old.0 self.new.0) }
        ensures marks_failed { IfErr result (MarksFailed D.DriverModel self.old.0 self.new.0) }
        ensures cause { ChainShrinkRefused D.DriverModel size result self.old self.new }
    {
        self.driver.resize_shrink(alloc, size)
    }

    /// Sets the size of the disk, in bytes. If `size` is the current size, nothing changes.
    ///
    /// # Preconditions
    ///
    /// No mapping is prepared: each one from `prepare_data_mapping` was committed or cancelled.
    ///
    /// # Errors
    ///
    /// The errors of `resize_shrink` if `size` is below the current size, and those of `resize_grow` otherwise. For the state on error and
    /// crash safety see `resize_shrink` and `resize_grow` too.
    pub fn resize(&mut self, alloc: Global, size: u64, mode: PreallocateMode) -> Result<(), Fault>
        requires free { IsFree (D.layer self.old.0) }

        // The effect.
        ensures ok { IsIntactChain D.DriverModel self.old → OnOk result (ChainResizes D.DriverModel size mode self.old self.new) }
        ensures err { IsIntactChain D.DriverModel self.old → UnlessResourceError result (ChainStays D.DriverModel self.old self.new) }
        ensures unread { (size ≡ (D.layer self.old.0).size) ⊎ IsUnusable (D.layer self.old.0) → self.new.1 ≡ self.old.1 }
        ensures longer { IsIntactChain D.DriverModel self.old → (D.layer self.old.0).size ≤ size → GrowthCrashImages D.DriverModel size self.old self.new }
        ensures shorter { IsIntactChain D.DriverModel self.old → size < (D.layer self.old.0).size → ShrinkCrashImages D.DriverModel size self.old self.new }

        // Early outcomes.
        ensures early_outcome { EarlyOutcome D.DriverModel (unusable_fault (D.layer self.old.0)) (size ≡ (D.layer self.old.0).size) result self.old.0 self.new.0 }
        ensures read_only { NeedsWritable D.DriverModel (size ≢ (D.layer self.old.0).size) result self.old self.new }

        // Preserved state, and crash images.
        ensures free { IsFree (D.layer self.new.0) }
        ensures mutating_call { MutatingCall D.DriverModel (HadNoResourceError result) (HadNoResourceError result × Each D.coherent self.old.1) self.old.0 self.new.0 }
        ensures below { LookupCallBelow (below_ghosts D.DriverModel) (HadNoResourceError result) self.old.1 self.new.1 }
        ensures intact { HadNoResourceError result → StaysIntact D.DriverModel self.old self.new }

        // Errors, and the failed state after them.
        ensures failed { IfErr result (ChainFails D.DriverModel self.old self.new) }
        ensures marks_failed { IfErr result (MarksFailedOver D.DriverModel self.old.0 self.new.0) }
        ensures growth { (D.layer self.old.0).size ≤ size → ChainGrowthRefused D.DriverModel size mode result self.old self.new }
        ensures shrinking { size < (D.layer self.old.0).size → ChainShrinkRefused D.DriverModel size result self.old self.new }
    {
        if size < self.size() {
            self.resize_shrink(alloc, size)
        } else {
            self.resize_grow(alloc, size, mode)
        }
    }
}
