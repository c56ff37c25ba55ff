// Calls that write back or reload what is in memory: `flush`, `sync`, and `invalidate_cache`.
ghost use Rattle.std.specs.Prelude.{◌≡◌, ◌∷◌, IsOk, IfErr, OnOk, IsErrOf, Some};
ghost use Rattle.imago_storage.specs.Steps.{flush, sync, done};
ghost use Rattle.imago_storage.specs.declared.fault.Fault.{Fault};
ghost use Rattle.imago_access.specs.Layer.{IsFree, KeepsLayerState};
ghost use Rattle.imago_access.specs.Chain.{Each};
ghost use Rattle.imago_access.specs.Layers.{chain, layers};
ghost use Rattle.imago_access.specs.Files.{Pairs, UnchangedButMoreFaults, files_of, files};
ghost use Rattle.imago_access.specs.Going.{IsUnchanged, ReloadingCall, MarksFailed, MarksSomeFailed};
ghost use Rattle.imago_access.specs.Refusals.{unusable_fault, IsUnusable};
ghost use Rattle.imago_access.specs.Stops.{IsCounted, IsWritten, GivesNone};
ghost use Rattle.imago_access.specs.Running.{IsIntactChain, ChainRangeChange};
ghost use Rattle.imago_access.specs.ChainCalls.{ChainSteps, AllUnchanged, IsCarriedOut};
ghost use Rattle.imago_access.specs.Failing.{Fails, RefusesFlush};
ghost use Rattle.imago_access.specs.ChainLooks.{KeepsLayers, KeepsSight, EndsReloads, RefusesReloads};

use crate::access::FormatAccess;
use crate::drivers::FormatDriverInstance;
use imago_storage::Fault;
use std::alloc::Global;

impl<D: FormatDriverInstance> FormatAccess<D> {
    /// Writes all dirty data to the files of the top layer, and flushes the files. The layers below (the backing chain) aren't changed.
    ///
    /// If no mapping is prepared, the image file by itself then says what each byte of the image is. The excess refcount of each cluster
    /// (refcount minus references) is then what leaks in the file.
    ///
    /// # Errors
    ///
    /// - `Fault::Failed`, `Fault::MissingData` if the top image can't be used.
    /// - `Fault::Memory`, `Fault::Storage`.
    ///
    /// # Crash safety
    ///
    /// Each crash image (the image file after a crash during the call) is consistent. Each byte reads as it did in the file or on the disk
    /// before the call.
    pub fn flush(&mut self, alloc: Global) -> Result<(), Fault>
        // The effect.
        ensures ok { IsCarriedOut D.DriverModel flush result self.old self.new }
        ensures written { IsIntactChain D.DriverModel self.old → IsFree (D.layer self.old.0) → OnOk result (IsWritten D.DriverModel self.new.0) }
        ensures counted { IsIntactChain D.DriverModel self.old → IsFree (D.layer self.old.0) → OnOk result (IsCounted D.DriverModel self.new.0) }

        // Early outcomes.
        ensures unusable { (f : Fault) → unusable_fault (D.layer self.old.0) ≡ Some f → IsErrOf result f }
        ensures unchanged { IsUnusable (D.layer self.old.0) → IsUnchanged D.DriverModel self.old.0 self.new.0 }

        // Preserved state, and crash images.
        ensures same { IsIntactChain D.DriverModel self.old → OnOk result (D.layer self.new.0 ≡ D.layer self.old.0) }
        ensures coherent { D.coherent self.old.0 → OnOk result ((D.layer self.new.0 ≡ D.layer self.old.0) × D.coherent self.new.0) }
        ensures has_no_dirty_data { OnOk result (D.has_no_dirty_data self.new.0) }
        ensures keeps_layer_state { KeepsLayerState (D.layer self.old.0) (D.layer self.new.0) }
        ensures range_change { ChainRangeChange D.DriverModel (IsOk result) GivesNone self.old self.new }
        ensures below { self.new.1 ≡ self.old.1 }

        // Errors, and the failed state after them.
        ensures failed { IfErr result (Fails D.DriverModel self.old.0 self.new.0) }
        ensures marks_failed { IfErr result (MarksFailed D.DriverModel self.old.0 self.new.0) }
        ensures cause { D.well_formed self.old.0 → IfErr result (RefusesFlush D.DriverModel self.old.0 self.new.0) }
    {
        self.driver.flush(alloc)
    }

    /// Syncs the files of the top layer: what was written to them is durable. If lookups in the top layer agreed with the files before,
    /// they still do, even if the call fails.
    ///
    /// # Errors
    ///
    /// - `Fault::Failed`, `Fault::MissingData` if the top image can't be used.
    /// - `Fault::Memory`, `Fault::Storage`.
    pub fn sync(&mut self) -> Result<(), Fault>
        // The effect.
        ensures ok { OnOk result (ChainSteps D.DriverModel sync done self.old self.new) }

        // Early outcomes.
        ensures unusable { (f : Fault) → unusable_fault (D.layer self.old.0) ≡ Some f → IsErrOf result f }
        ensures unchanged { IsUnusable (D.layer self.old.0) → IsUnchanged D.DriverModel self.old.0 self.new.0 }

        // Preserved state, and crash images.
        ensures same { OnOk result (D.layer self.new.0 ≡ D.layer self.old.0) }
        ensures unchanged_but_faults { Pairs UnchangedButMoreFaults (files D.DriverModel self.old.0) (files D.DriverModel self.new.0) }
        ensures coherent { D.coherent self.old.0 → D.coherent self.new.0 }
        ensures has_no_dirty_data { D.has_no_dirty_data self.old.0 → D.has_no_dirty_data self.new.0 }
        ensures keeps_layer_state { KeepsLayerState (D.layer self.old.0) (D.layer self.new.0) }
        ensures range_change { ChainRangeChange D.DriverModel (IsOk result) GivesNone self.old self.new }
        ensures below { self.new.1 ≡ self.old.1 }

        // Errors, and the failed state after them.
        ensures marks_failed { IfErr result (MarksFailed D.DriverModel self.old.0 self.new.0) }
        ensures cause { IfErr result (RefusesFlush D.DriverModel self.old.0 self.new.0) }
    {
        self.driver.sync()
    }

    /// Drops what the layers (the image and its backing files) have in memory, dirty or not, and reloads what they need from their files,
    /// from the top layer downward.
    ///
    /// If it succeeds, no byte of the disk changes and lookups still agree with the files. This requires that lookups agreed with the files
    /// before, that no layer has dirty data, as after a flush, and that all storages keep what is written.
    ///
    /// # Preconditions
    ///
    /// No mapping is prepared in any layer: each one was committed or cancelled.
    ///
    /// # Errors
    ///
    /// - `Fault::Failed`, `Fault::MissingData` if a layer can't be used.
    /// - `Fault::DamagedHeader`, `Fault::DamagedTable`, `Fault::Unsupported`, `Fault::Limit`, `Fault::CacheFull` if a layer's files can't
    ///   be reloaded. That layer could be used before, and has failed.
    /// - `Fault::Memory`, `Fault::Storage`. After `Fault::Storage` the layer where it occurred has failed, if it is a qcow2 image.
    ///
    /// # On error
    ///
    /// The layers above the one that failed have no dirty data any more. The layers below the one that failed are unchanged.
    #[cycle(invalidate)]
    pub fn invalidate_cache(&mut self, alloc: Global) -> Result<(), Fault>
        requires free { Each (λ d. IsFree (D.layer d)) (chain self.old) }

        // Early outcomes.
        ensures unusable { (f : Fault) → unusable_fault (D.layer self.old.0) ≡ Some f → IsErrOf result f }
        ensures unchanged { IsUnusable (D.layer self.old.0) → AllUnchanged D.DriverModel self.old self.new }

        // Preserved state, and crash images.
        ensures same { KeepsLayers D.DriverModel result (chain self.old) (chain self.new) }
        ensures coherent { KeepsSight D.DriverModel result (chain self.old) (chain self.new) }
        ensures unchanged_but_faults { Pairs UnchangedButMoreFaults (files_of D.DriverModel (chain self.old)) (files_of D.DriverModel (chain self.new)) }
        ensures has_no_dirty_data { OnOk result (Each D.has_no_dirty_data (chain self.new)) }
        ensures mutating_call { Pairs (ReloadingCall D.DriverModel (IsOk result) (IsOk result)) (chain self.old) (chain self.new) }
        ensures free { Each (λ d. IsFree (D.layer d)) (chain self.new) }

        // Errors, and the failed state after them.
        ensures downward { IfErr result (EndsReloads D.DriverModel (chain self.old) (chain self.new)) }
        ensures marks_failed { IfErr result (MarksSomeFailed D.DriverModel (chain self.old) (chain self.new)) }
        ensures cause { IfErr result (RefusesReloads D.DriverModel (chain self.old) (chain self.new)) }
    {
        Self::invalidate_part(alloc, &mut self.driver, &mut self.below)
    }

    // Reloads a layer and the layers below it, like `invalidate_cache`.
    #[cycle(invalidate)]
    fn invalidate_part(
        alloc: Global,
        driver: &mut D,
        below: &mut Option<Box<FormatAccess<D>>>,
    ) -> Result<(), Fault>
        requires free { Each (λ d. IsFree (D.layer d)) (driver.old ∷ layers below.old) }
        ensures same { KeepsLayers D.DriverModel result (driver.old ∷ layers below.old) (driver.new ∷ layers below.new) }
        ensures coherent { KeepsSight D.DriverModel result (driver.old ∷ layers below.old) (driver.new ∷ layers below.new) }
        ensures unchanged_but_faults { Pairs UnchangedButMoreFaults (files_of D.DriverModel (driver.old ∷ layers below.old)) (files_of D.DriverModel (driver.new ∷ layers below.new)) }
        ensures has_no_dirty_data { OnOk result (Each D.has_no_dirty_data (driver.new ∷ layers below.new)) }
        ensures unusable { (f : Fault) → unusable_fault (D.layer driver.old) ≡ Some f → IsErrOf result f }
        ensures unchanged { IsUnusable (D.layer driver.old)
            → AllUnchanged D.DriverModel (driver.old, layers below.old) (driver.new, layers below.new) }
        ensures mutating_call { Pairs (ReloadingCall D.DriverModel (IsOk result) (IsOk result)) (driver.old ∷ layers below.old) (driver.new ∷ layers below.new) }
        ensures free { Each (λ d. IsFree (D.layer d)) (driver.new ∷ layers below.new) }
        ensures downward { IfErr result (EndsReloads D.DriverModel (driver.old ∷ layers below.old) (driver.new ∷ layers below.new)) }
        ensures marks_failed { IfErr result (MarksSomeFailed D.DriverModel (driver.old ∷ layers below.old) (driver.new ∷ layers below.new)) }
        ensures cause { IfErr result (RefusesReloads D.DriverModel (driver.old ∷ layers below.old) (driver.new ∷ layers below.new)) }
    {
        driver.invalidate_cache(alloc)?;
        Self::invalidate_layers_below(alloc, below)
    }

    // Reloads the layers below, if the chain has any.
    #[cycle(invalidate)]
    fn invalidate_layers_below(
        alloc: Global,
        below: &mut Option<Box<FormatAccess<D>>>,
    ) -> Result<(), Fault>
        requires free { Each (λ d. IsFree (D.layer d)) (layers below.old) }
        ensures same { KeepsLayers D.DriverModel result (layers below.old) (layers below.new) }
        ensures coherent { KeepsSight D.DriverModel result (layers below.old) (layers below.new) }
        ensures unchanged_but_faults { Pairs UnchangedButMoreFaults (files_of D.DriverModel (layers below.old)) (files_of D.DriverModel (layers below.new)) }
        ensures has_no_dirty_data { OnOk result (Each D.has_no_dirty_data (layers below.new)) }
        ensures mutating_call { Pairs (ReloadingCall D.DriverModel (IsOk result) (IsOk result)) (layers below.old) (layers below.new) }
        ensures free { Each (λ d. IsFree (D.layer d)) (layers below.new) }
        ensures downward { IfErr result (EndsReloads D.DriverModel (layers below.old) (layers below.new)) }
        ensures marks_failed { IfErr result (MarksSomeFailed D.DriverModel (layers below.old) (layers below.new)) }
        ensures cause { IfErr result (RefusesReloads D.DriverModel (layers below.old) (layers below.new)) }
    {
        match below {
            Some(layer) => layer.invalidate_cache(alloc),
            None => Ok(()),
        }
    }
}
