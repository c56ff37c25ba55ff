// `ensure_data_mapping`: allocates a run and makes it part of the disk in one call, so that it can be written in place.
ghost use Rattle.std.specs.Prelude.{◌≡◌, IsOk, IfOk, IfErr, IsErrOf, IsSome, Some, None, true};
ghost use Rattle.imago_storage.specs.Steps.{ensure};
ghost use Rattle.imago_access.specs.Layer.{IsFree, KeepsLayerState};
ghost use Rattle.imago_access.specs.Files.{HadNoResourceError};
ghost use Rattle.imago_access.specs.Mappings.{IsWritableRun, IsMappedRun, IsTopRun};
ghost use Rattle.imago_access.specs.Refusals.{unusable_fault};
ghost use Rattle.imago_access.specs.declared.mapping.Mapping.TheVariants as deep;
ghost use Rattle.imago_access.specs.Stops.{GivesAnnounced};
ghost use Rattle.imago_access.specs.Running.{IsIntactChain, ChainRangeChange, below_ghosts};
ghost use Rattle.imago_access.specs.ChainCalls.{ChainStays, ChainFails, chain_refusal, AllUnchanged, ChainEnsures, EndsAtOnce, UnlessResourceError, CallRefused};
ghost use Rattle.imago_access.specs.Changes.{asking};
ghost use Rattle.imago_access.specs.RunCalls.{MarksTopFailed};

use crate::access::FormatAccess;
use crate::access::mappings::commit_or_abandon;
use crate::drivers::FormatDriverInstance;
use crate::mapping::Mapping;
use imago_storage::Fault;
use std::alloc::Global;

impl<D: FormatDriverInstance> FormatAccess<D> {
    /// Maps a run of at least 1 and at most `length` bytes at `offset` as part of the disk, for writing in place.
    ///
    /// Returns where the run is stored, and its length in bytes. For an empty range the result is an empty run at the start of storage 0.
    /// The bytes of the run are unchanged; with `overwrite` they may become any bytes.
    ///
    /// # Preconditions
    ///
    /// No mapping is prepared: each one from `prepare_data_mapping` was committed or cancelled.
    ///
    /// # Errors
    ///
    /// The errors of `prepare_data_mapping`.
    ///
    /// # On error
    ///
    /// After an error other than `Fault::Memory` and `Fault::Storage` the disk is unchanged.
    ///
    /// # Crash safety
    ///
    /// Each crash image (the image file after a crash during the call) is consistent. Each byte reads as it did in the file or on the disk
    /// before the call. With `overwrite` a byte of the range may also read as any byte.
    pub fn ensure_data_mapping(
        &mut self,
        alloc: Global,
        offset: u64,
        length: u64,
        overwrite: bool,
    ) -> Result<(Mapping, u64), Fault>
        requires free { IsFree (D.layer self.old.0) }

        // The effect.
        ensures ok { IsIntactChain D.DriverModel self.old → IfOk result (ChainEnsures D.DriverModel (asking offset length overwrite) self.old self.new) }
        ensures writable_location { IsIntactChain D.DriverModel self.old → IfOk result (λ r. IsWritableRun (D.layer self.new.0) offset r.0 r.1) }
        ensures run { IfOk result (λ r. IsMappedRun (D.layer self.old.0) offset length r.1) }
        ensures raw { IfOk result (λ r. IsTopRun r.0 r.1) }
        ensures err { IsIntactChain D.DriverModel self.old → UnlessResourceError result (ChainStays D.DriverModel self.old self.new) }

        // Early outcomes.
        ensures empty { length ≡ 0 → IfOk result (λ r. (r ≡ (deep.Raw 0 0 0 true, 0)) × (D.layer self.new.0 ≡ D.layer self.old.0)) }
        ensures untouched { IsSome (chain_refusal D.DriverModel self.old offset length) → self.new ≡ self.old }
        ensures early_outcome { (f : Fault) → chain_refusal D.DriverModel self.old offset length ≡ Some f → IsErrOf result f }
        ensures idle { length ≡ 0 → unusable_fault (D.layer self.old.0) ≡ None → IsOk result }
        ensures unchanged { EndsAtOnce D.DriverModel self.old offset length → AllUnchanged D.DriverModel self.old self.new }

        // Preserved state, and crash images.
        ensures keeps_layer_state { KeepsLayerState (D.layer self.old.0) (D.layer self.new.0) }
        ensures range_change { ChainRangeChange D.DriverModel (HadNoResourceError result) (GivesAnnounced overwrite offset length) self.old self.new }

        // Errors, and the failed state after them.
        ensures failed { IfErr result (ChainFails D.DriverModel self.old self.new) }
        ensures marks_failed { IfErr result (MarksTopFailed D.DriverModel (below_ghosts D.DriverModel) self.old self.new) }
        ensures cause { CallRefused D.DriverModel (ensure offset length overwrite) result self.old self.new }
    {
        self.check_change(offset, length)?;
        let prepared = self
            .driver
            .prepare_data_mapping(alloc, &mut self.below, offset, length, overwrite)?;
        let mapping = Mapping::Raw {
            depth: 0,
            storage: prepared.storage(),
            offset: prepared.offset(),
            writable: true,
        };
        let length = prepared.length();
        commit_or_abandon(&mut self.driver, alloc, prepared)?;
        Ok((mapping, length))
    }
}
