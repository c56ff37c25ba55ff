// Lookups: where the bytes of a run are stored, in the top layer or through all layers (an image and its backing files). Definitions:
// specs/Mappings.antt.
ghost use Rattle.std.specs.Prelude.{◌≡◌, ◌∷◌, length, IsOk, IfOk, IfErr, IsErrOf, Some, None};
ghost use Rattle.imago_storage.specs.declared.fault.Fault.{Fault};
ghost use Rattle.imago_access.specs.Layers.{chain, layers};
ghost use Rattle.imago_access.specs.Files.{Pairs, HadNoResourceError, ImageCause, files, files_of};
ghost use Rattle.imago_access.specs.Going.{IsUnchanged, LookupCall, MarksFailed, MarksSomeFailed};
ghost use Rattle.imago_access.specs.Mappings.{IsRun, IsDeepRun, IsOneOf, IsRunBelow, DeepReportsWritable, DeepReportsExplicitZero, LooksIn, ReportsAllocationIn, ReportsExplicitZero};
ghost use Rattle.imago_access.specs.Refusals.{unusable_fault};
ghost use Rattle.imago_access.specs.ChainCalls.{ChainFails};
ghost use Rattle.imago_access.specs.Failing.{Fails, RefusesLookup};
ghost use Rattle.imago_access.specs.ChainLooks.{ChainFinds, LookRefused, NamesLayer, NamesStorage, NamesTruly, NamesWritable, NeedsNoLook, TopFinds, UnchangedIfIdle, WhereAllSee};

use crate::access::FormatAccess;
use crate::drivers::FormatDriverInstance;
use crate::mapping::{Mapping, ShallowMapping};
use imago_storage::Fault;
use std::alloc::Global;

impl<D: FormatDriverInstance> FormatAccess<D> {
    /// Looks up a run of at most `max_length` bytes at `offset` in the top layer only (the image without its backing files). Returns where
    /// the run is stored, and its length in bytes.
    ///
    /// At or past the end of the disk the result is `Eof`, of length 0. Otherwise the run has at least one byte, unless `max_length` is 0.
    ///
    /// # Errors
    ///
    /// - `Fault::Failed`, `Fault::MissingData` if the top image can't be used.
    /// - `Fault::DamagedTable` if the layer's tables have no valid entry for a byte of the range.
    /// - `Fault::Memory`, `Fault::Storage`.
    ///
    /// # On error
    ///
    /// After `Fault::Storage` a qcow2 image has failed. After `Fault::Memory` it has failed, or nothing has changed except for the
    /// storages' counts of faults.
    pub fn get_shallow_mapping(
        &mut self,
        alloc: Global,
        offset: u64,
        max_length: u64,
    ) -> Result<(ShallowMapping, u64), Fault>
        // The result.
        ensures ok { D.coherent self.old.0 → IfOk result (TopFinds D.DriverModel offset max_length self.old self.new) }
        ensures run { IfOk result (λ r. IsRun (D.layer self.old.0) offset max_length r.0 r.1) }
        ensures looks { D.coherent self.old.0 → IfOk result (LooksIn D.DriverModel offset max_length self.old.0 self.new.0) }
        ensures room { D.coherent self.old.0 → IfOk result (ReportsAllocationIn D.DriverModel offset self.old.0) }
        ensures explicit_zero { D.coherent self.old.0 → IfOk result (ReportsExplicitZero (D.explicit_zero self.old.0) offset) }
        ensures storage_exists { IfOk result (λ r. IsOneOf (length (files D.DriverModel self.old.0)) r.0) }

        // Early outcomes.
        ensures idle { max_length ≡ 0 → unusable_fault (D.layer self.old.0) ≡ None → IsOk result }
        ensures unusable { (f : Fault) → unusable_fault (D.layer self.old.0) ≡ Some f → IsErrOf result f }
        ensures unchanged { NeedsNoLook (D.layer self.old.0) max_length → IsUnchanged D.DriverModel self.old.0 self.new.0 }

        // Preserved state.
        ensures lookup_call { Pairs (LookupCall D.DriverModel (HadNoResourceError result)) (chain self.old) (chain self.new) }
        ensures below { self.new.1 ≡ self.old.1 }

        // Errors, and the failed state after them.
        ensures failed { IfErr result (Fails D.DriverModel self.old.0 self.new.0) }
        ensures marks_failed { IfErr result (MarksFailed D.DriverModel self.old.0 self.new.0) }
        ensures cause { D.coherent self.old.0 → IfErr result (RefusesLookup D.DriverModel offset max_length self.old.0 self.new.0) }
    {
        self.driver.get_mapping(alloc, offset, max_length)
    }

    /// Looks up a run of at most `max_length` bytes at `offset` through all layers (the image and its backing files). Returns where the run
    /// is stored, and its length in bytes.
    ///
    /// At or past the end of the disk the result is `Eof`, of length 0. Otherwise the run has at least one byte, unless `max_length` is 0.
    /// Past the end of a lower layer the disk is 0.
    ///
    /// The result is writable only if each layer down to the one that stores the run allows writing in place. It is always writable if
    /// those layers allow it and no mapping is prepared in the layer that stores the run.
    ///
    /// A zero is explicit exactly if the top layer itself maps the bytes as 0. If the top layer reads through to a layer below, each zero
    /// of its own is explicit.
    ///
    /// The depth in the result is one of the chain's. The storage number is one of the layer at that depth.
    ///
    /// # Errors
    ///
    /// - `Fault::Failed`, `Fault::MissingData` if a layer that is looked up can't be used.
    /// - `Fault::DamagedTable` if a layer's tables have no valid entry for a byte of the range.
    /// - `Fault::Memory`, `Fault::Storage`.
    ///
    /// # On error
    ///
    /// After `Fault::Storage` the layer that uses the failing storage has failed, if it is a qcow2 image.
    #[cycle(map)]
    pub fn get_mapping(
        &mut self,
        alloc: Global,
        offset: u64,
        max_length: u64,
    ) -> Result<(Mapping, u64), Fault>
        // The result.
        ensures ok { WhereAllSee D.DriverModel (chain self.old) (IfOk result (ChainFinds D.DriverModel offset max_length self.old self.new)) }
        ensures run { IfOk result (λ r. IsDeepRun (D.layer self.old.0).size offset max_length r.0 r.1) }
        ensures names { NamesTruly D.DriverModel offset result (chain self.old) (chain self.new) }
        ensures deep { NamesLayer result (chain self.old) }
        ensures storage_exists { NamesStorage D.DriverModel result (chain self.old) }
        ensures writable_location { D.coherent self.old.0 → IfOk result (λ r. DeepReportsWritable (D.layer self.old.0) offset max_length r.0) }
        ensures writable { NamesWritable D.DriverModel offset max_length result (chain self.old) }
        ensures explicit_zero { D.coherent self.old.0 → IfOk result (DeepReportsExplicitZero (D.explicit_zero self.old.0) offset) }

        // Early outcomes.
        ensures idle { max_length ≡ 0 → unusable_fault (D.layer self.old.0) ≡ None → IsOk result }
        ensures unusable { (f : Fault) → unusable_fault (D.layer self.old.0) ≡ Some f → IsErrOf result f }
        ensures unchanged { UnchangedIfIdle D.DriverModel max_length self.old self.new }

        // Preserved state.
        ensures lookup_call { Pairs (LookupCall D.DriverModel (HadNoResourceError result)) (chain self.old) (chain self.new) }

        // Errors, and the failed state after them.
        ensures failed { IfErr result (ChainFails D.DriverModel self.old self.new) }
        ensures marks_failed { IfErr result (MarksSomeFailed D.DriverModel (chain self.old) (chain self.new)) }
        ensures cause { LookRefused D.DriverModel offset max_length result (chain self.old) (chain self.new) }
    {
        Self::map_part(alloc, &mut self.driver, &mut self.below, offset, max_length)
    }

    // Looks up a run in a layer and the layers below it.
    #[cycle(map)]
    fn map_part(
        alloc: Global,
        driver: &mut D,
        below: &mut Option<Box<FormatAccess<D>>>,
        offset: u64,
        max_length: u64,
    ) -> Result<(Mapping, u64), Fault>
        ensures run { IfOk result (λ r. IsDeepRun (D.layer driver.old).size offset max_length r.0 r.1) }
        ensures names { NamesTruly D.DriverModel offset result (driver.old ∷ layers below.old) (driver.new ∷ layers below.new) }
        ensures deep { NamesLayer result (driver.old ∷ layers below.old) }
        ensures storage_exists { NamesStorage D.DriverModel result (driver.old ∷ layers below.old) }
        ensures writable_location { D.coherent driver.old → IfOk result (λ r. DeepReportsWritable (D.layer driver.old) offset max_length r.0) }
        ensures writable { NamesWritable D.DriverModel offset max_length result (driver.old ∷ layers below.old) }
        ensures explicit_zero { D.coherent driver.old → IfOk result (DeepReportsExplicitZero (D.explicit_zero driver.old) offset) }
        ensures idle { max_length ≡ 0 → unusable_fault (D.layer driver.old) ≡ None → IsOk result }
        ensures unusable { (f : Fault) → unusable_fault (D.layer driver.old) ≡ Some f → IsErrOf result f }
        ensures unchanged { UnchangedIfIdle D.DriverModel max_length (driver.old, layers below.old) (driver.new, layers below.new) }
        ensures lookup_call { Pairs (LookupCall D.DriverModel (HadNoResourceError result)) (driver.old ∷ layers below.old) (driver.new ∷ layers below.new) }
        ensures failed { IfErr result (ChainFails D.DriverModel (driver.old, layers below.old) (driver.new, layers below.new)) }
        ensures marks_failed { IfErr result (MarksSomeFailed D.DriverModel (driver.old ∷ layers below.old) (driver.new ∷ layers below.new)) }
        ensures cause { LookRefused D.DriverModel offset max_length result (driver.old ∷ layers below.old) (driver.new ∷ layers below.new) }
    {
        let (mapping, length) = driver.get_mapping(alloc, offset, max_length)?;
        match mapping {
            ShallowMapping::Raw {
                storage,
                offset: place,
                writable,
            } => {
                let mapping = Mapping::Raw {
                    depth: 0,
                    storage,
                    offset: place,
                    writable,
                };
                Ok((mapping, length))
            }
            ShallowMapping::Indirect { writable, .. } => {
                if length == 0 {
                    return Ok((Mapping::Zero { explicit: false }, 0));
                }
                let (mapping, length) = Self::map_below(alloc, below, offset, length)?;
                Ok((mapping.lowered(writable), length))
            }
            ShallowMapping::Zero { explicit } => Ok((Mapping::Zero { explicit }, length)),
            ShallowMapping::Eof => Ok((Mapping::Eof, length)),
            ShallowMapping::Special { offset: place } => {
                let mapping = Mapping::Special {
                    depth: 0,
                    offset: place,
                };
                Ok((mapping, length))
            }
        }
    }

    // Looks up a run in the layers below, which read as 0 past their end.
    #[cycle(map)]
    fn map_below(
        alloc: Global,
        below: &mut Option<Box<FormatAccess<D>>>,
        offset: u64,
        max_length: u64,
    ) -> Result<(Mapping, u64), Fault>
        ensures run { IfOk result (λ r. IsRunBelow max_length r.0 r.1) }
        ensures names { NamesTruly D.DriverModel offset result (layers below.old) (layers below.new) }
        ensures deep { NamesLayer result (layers below.old) }
        ensures storage_exists { NamesStorage D.DriverModel result (layers below.old) }
        ensures writable { NamesWritable D.DriverModel offset max_length result (layers below.old) }
        ensures lookup_call { Pairs (LookupCall D.DriverModel (HadNoResourceError result)) (layers below.old) (layers below.new) }
        ensures failed { IfErr result (ImageCause (files_of D.DriverModel (layers below.old)) (files_of D.DriverModel (layers below.new))) }
        ensures marks_failed { IfErr result (MarksSomeFailed D.DriverModel (layers below.old) (layers below.new)) }
        ensures cause { LookRefused D.DriverModel offset max_length result (layers below.old) (layers below.new) }
    {
        match below {
            None => Ok((Mapping::Zero { explicit: false }, max_length)),
            Some(layer) => {
                let (mapping, length) = layer.get_mapping(alloc, offset, max_length)?;
                if mapping.is_eof() {
                    Ok((Mapping::Zero { explicit: false }, max_length))
                } else {
                    Ok((mapping, length))
                }
            }
        }
    }
}
