// Reads of the disk, from the top layer downward. A byte that a layer has no data for comes from the layer below it (its backing file).
ghost use Rattle.std.specs.Prelude.{◌≡◌, ◌∷◌, ◌<◌, ◌≤◌, drop, length, map, IsOk, IfOk, IfErr, OnOk, IsErrOf, Some, None};
ghost use Rattle.imago_storage.specs.Disk.{Shows};
ghost use Rattle.imago_storage.specs.Through.{Overflows};
ghost use Rattle.imago_storage.specs.declared.fault.Fault.{Fault};
ghost use Rattle.imago_access.specs.Chain.{at, Each, OfFirst, unit_of_chain};
ghost use Rattle.imago_access.specs.Layers.{chain, layers};
ghost use Rattle.imago_access.specs.Files.{Pairs, HadNoResourceError, ImageCause, files_of};
ghost use Rattle.imago_access.specs.Going.{LookupCall, MarksSomeFailed};
ghost use Rattle.imago_access.specs.Refusals.{unusable_fault};
ghost use Rattle.imago_access.specs.ChainCalls.{ChainFails, chain_look_refusal, LookEndsAtOnce};
ghost use Rattle.imago_access.specs.ChainLooks.{ChainReads, ReadRefused, ReadsRun};

use crate::access::FormatAccess;
use crate::below::ReadBelow;
use crate::driver_model::LayersBelowModel;
use crate::drivers::FormatDriverInstance;
use crate::mapping::{Mapping, ShallowMapping};
use imago_storage::{Fault, padded_end};
use std::alloc::Global;

impl<D: FormatDriverInstance> FormatAccess<D> {
    /// Fills the buffer with the disk's bytes from `offset` on, and with zeroes past the end of the disk.
    ///
    /// Each byte is the top layer's. If a layer has nothing allocated for a byte, the byte comes from the layer below (the backing file).
    /// Past the end of a lower layer, and below the last layer, the byte is 0. An empty range succeeds if the top image can be used.
    ///
    /// # Errors
    ///
    /// - `Fault::Failed`, `Fault::MissingData` if a layer can't be used.
    /// - `Fault::RangeOverflow` if the end of the range, rounded up to the chain's alignment, doesn't fit `u64`.
    /// - `Fault::Barred`, `Fault::DamagedTable` if a byte of the range can't be read.
    /// - `Fault::Memory`, `Fault::Storage`.
    ///
    /// # On error
    ///
    /// The contents of the buffer are unspecified. After an error other than `Fault::Memory` and `Fault::Storage` the disk is unchanged.
    /// After `Fault::Storage` the layer that uses the failing storage has failed, if it is a qcow2 image.
    pub fn read(&mut self, alloc: Global, buf: &mut [u8], offset: u64) -> Result<(), Fault>
        // The result.
        ensures ok { Each D.coherent (chain self.old) → OnOk result (ChainReads D.DriverModel offset (length buf.old) buf.new self.old self.new) }

        // Early outcomes.
        ensures early_outcome { (f : Fault) → chain_look_refusal D.DriverModel self.old offset (length buf.old) ≡ Some f → IsErrOf result f }
        ensures idle { length buf.old ≡ 0 → unusable_fault (D.layer self.old.0) ≡ None → IsOk result }
        ensures untouched { LookEndsAtOnce D.DriverModel self.old offset (length buf.old) → self.new ≡ self.old }

        // Preserved state.
        ensures lookup_call { Pairs (LookupCall D.DriverModel (HadNoResourceError result)) (chain self.old) (chain self.new) }

        // Errors, and the failed state after them.
        ensures failed { IfErr result (ChainFails D.DriverModel self.old self.new) }
        ensures marks_failed { IfErr result (MarksSomeFailed D.DriverModel (chain self.old) (chain self.new)) }
        ensures cause { ReadRefused D.DriverModel offset (length buf.old) result (chain self.old) (chain self.new) }
    {
        self.driver.ready()?;
        if buf.is_empty() {
            return Ok(());
        }
        if padded_end(offset, buf.len() as u64, self.unit()).is_none() {
            return Err(Fault::RangeOverflow);
        }
        self.read_all(alloc, buf, offset)
    }

    // Reads a range whose padded end fits `u64`, run by run.
    #[cycle(read)]
    fn read_all(&mut self, alloc: Global, buf: &mut [u8], offset: u64) -> Result<(), Fault>
        requires fits { Overflows (unit_of_chain (map D.layer (chain self.old))) offset (length buf.old) → ⊥ }
        ensures shown { Each D.coherent (chain self.old) → OnOk result (Shows (at (map D.layer (chain self.old))) offset buf.new) }
        ensures lookup_call { Pairs (LookupCall D.DriverModel (HadNoResourceError result)) (chain self.old) (chain self.new) }
        ensures failed { IfErr result (ChainFails D.DriverModel self.old self.new) }
        ensures marks_failed { IfErr result (MarksSomeFailed D.DriverModel (chain self.old) (chain self.new)) }
        ensures cause { ReadRefused D.DriverModel offset (length buf.old) result (chain self.old) (chain self.new) }
    {
        let mut done = 0;
        while done < buf.len() {
            let part = &mut buf[done..];
            done += self.read_run(alloc, part, offset + done as u64)?;
        }
        Ok(())
    }

    // Reads the first run of a range that isn't empty. Returns the length of the run, in bytes.
    #[cycle(read)]
    fn read_run(&mut self, alloc: Global, buf: &mut [u8], offset: u64) -> Result<usize, Fault>
        requires fits { Overflows (unit_of_chain (map D.layer (chain self.old))) offset (length buf.old) → ⊥ }
        requires nonempty { 0 < length buf.old }
        ensures run { IfOk result (λ n. (0 < n) × (n ≤ length buf.old)) }
        ensures shown { ReadsRun D.DriverModel offset result buf.new (chain self.old) }
        ensures lookup_call { Pairs (LookupCall D.DriverModel (HadNoResourceError result)) (chain self.old) (chain self.new) }
        ensures failed { IfErr result (ChainFails D.DriverModel self.old self.new) }
        ensures marks_failed { IfErr result (MarksSomeFailed D.DriverModel (chain self.old) (chain self.new)) }
        ensures cause { ReadRefused D.DriverModel offset (length buf.old) result (chain self.old) (chain self.new) }
    {
        Self::read_part(alloc, &mut self.driver, &mut self.below, buf, offset)
    }

    // Reads the first run from a layer and the layers below it, like `read_run`.
    #[cycle(read)]
    fn read_part(
        alloc: Global,
        driver: &mut D,
        below: &mut Option<Box<FormatAccess<D>>>,
        buf: &mut [u8],
        offset: u64,
    ) -> Result<usize, Fault>
        requires fits { Overflows (unit_of_chain (map D.layer (driver.old ∷ layers below.old))) offset (length buf.old) → ⊥ }
        requires nonempty { 0 < length buf.old }
        ensures run { IfOk result (λ n. (0 < n) × (n ≤ length buf.old)) }
        ensures shown { ReadsRun D.DriverModel offset result buf.new (driver.old ∷ layers below.old) }
        ensures lookup_call { Pairs (LookupCall D.DriverModel (HadNoResourceError result)) (driver.old ∷ layers below.old) (driver.new ∷ layers below.new) }
        ensures failed { IfErr result (ChainFails D.DriverModel (driver.old, layers below.old) (driver.new, layers below.new)) }
        ensures marks_failed { IfErr result (MarksSomeFailed D.DriverModel (driver.old ∷ layers below.old) (driver.new ∷ layers below.new)) }
        ensures cause { ReadRefused D.DriverModel offset (length buf.old) result (driver.old ∷ layers below.old) (driver.new ∷ layers below.new) }
    {
        let most = buf.len();
        let (mapping, length) = driver.get_mapping(alloc, offset, most as u64)?;
        let n = length as usize;
        match mapping {
            ShallowMapping::Raw {
                storage,
                offset: place,
                ..
            } => {
                driver.read_mapped(alloc, storage, place, &mut buf[..n])?;
                Ok(n)
            }
            ShallowMapping::Indirect { .. } => {
                Self::read_below(alloc, below, &mut buf[..n], offset)?;
                Ok(n)
            }
            ShallowMapping::Zero { .. } => {
                buf[..n].fill(0);
                Ok(n)
            }
            ShallowMapping::Eof => {
                buf.fill(0);
                Ok(most)
            }
            ShallowMapping::Special { .. } => Err(Fault::Barred),
        }
    }

    // Reads a range whose padded end fits `u64` from the layers below. Without any, the bytes are 0.
    #[cycle(read)]
    fn read_below(
        alloc: Global,
        below: &mut Option<Box<FormatAccess<D>>>,
        buf: &mut [u8],
        offset: u64,
    ) -> Result<(), Fault>
        requires fits { Overflows (unit_of_chain (map D.layer (layers below.old))) offset (length buf.old) → ⊥ }
        ensures shown { Each D.coherent (layers below.old) → OnOk result (Shows (at (map D.layer (layers below.old))) offset buf.new) }
        ensures lookup_call { Pairs (LookupCall D.DriverModel (HadNoResourceError result)) (layers below.old) (layers below.new) }
        ensures failed { IfErr result (ImageCause (files_of D.DriverModel (layers below.old)) (files_of D.DriverModel (layers below.new))) }
        ensures marks_failed { IfErr result (MarksSomeFailed D.DriverModel (layers below.old) (layers below.new)) }
        ensures cause { ReadRefused D.DriverModel offset (length buf.old) result (layers below.old) (layers below.new) }
    {
        match below {
            Some(layer) => layer.read_all(alloc, buf, offset),
            None => {
                buf.fill(0);
                Ok(())
            }
        }
    }
}

impl<D: FormatDriverInstance> LayersBelowModel for Option<Box<FormatAccess<D>>> {
    ghost layers_below = { λ b. map D.layer (layers b) };

    ghost files_of_layers_below = { λ b. files_of D.DriverModel (layers b) };

    ghost coherent_below = { λ b. Each D.coherent (layers b) };

    ghost well_formed_below = { λ b. OfFirst D.well_formed (layers b) };

    ghost have_no_dirty_data_below = { λ b. Each D.has_no_dirty_data (layers b) };

    ghost deeper_files = { λ b. files_of D.DriverModel (drop 1 (layers b)) };

    ghost deeper_have_no_dirty_data = { λ b. Each D.has_no_dirty_data (drop 1 (layers b)) };

    ghost stable_below = { λ b. Each D.stable (layers b) };
}

impl<D: FormatDriverInstance> ReadBelow for Option<Box<FormatAccess<D>>> {
    fn present(&self) -> bool {
        self.is_some()
    }

    fn read(&mut self, alloc: Global, buf: &mut [u8], offset: u64) -> Result<(), Fault> {
        match self {
            Some(layer) => layer.read(alloc, buf, offset),
            None => {
                buf.fill(0);
                Ok(())
            }
        }
    }
}
