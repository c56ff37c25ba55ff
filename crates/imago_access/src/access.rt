// `FormatAccess`, an image over its backing files as one flat disk: the type, its constructors and its getters. The calls are in the files
// of `access/`, one topic a file. Definitions: specs/ChainCalls.antt and specs/Running.antt.
ghost use Rattle.std.specs.Prelude.{◌≡◌, [], map, IfOk, IfErr, Some, MatchOption};
ghost use Rattle.imago_storage.specs.State.{IsAlignment};
ghost use Rattle.imago_access.specs.Layer.{unmapped, IsFree};
ghost use Rattle.imago_access.specs.Chain.{req_align_of, mem_align_of, unit_of_chain};
ghost use Rattle.imago_access.specs.Layers.{chain, layers};
ghost use Rattle.std.specs.Borrow.{Lends, sem};
ghost use Rattle.imago_access.specs.contracts.access.FormatAccess.{the_row};

use crate::drivers::FormatDriverInstance;
use imago_storage::{Fault, larger_alignment};
use std::alloc::Global;
use std::fmt::{self, Display, Formatter, Write};
use std::marker::Model;

mod committing;
mod discarding;
mod ensuring;
mod files;
mod lookups;
mod mappings;
mod reading;
mod resizing;
mod upkeep;
mod writing;
mod zeroing;

/// An open image over the layers below it (its backing chain): one flat disk.
///
/// Offsets and lengths are in bytes. Contracts see the driver of the top layer, and the drivers of the layers below, the highest first.
///
/// Errors that a call lists, and the state after an error, are those of a well-formed chain (its images are consistent and usable,
/// `IsIntactChain`). On another chain a call may fail for more reasons. Crash safety also requires an image file that reports its crash
/// images (the file after a crash between two requests), keeps what is written, and refuses no change during the call.
#[derive(Drop)]
pub struct FormatAccess<D> {
    driver: D,
    below: Option<Box<FormatAccess<D>>>,
}

impl<D> Model for FormatAccess<D> {
    ghost use Rattle.std.specs.Prelude.{List, ◌∷◌, length};
    ghost use Rattle.imago_access.specs.Layers.{layers};
    ghost use Rattle.std.proofs.Common.{arith, length-append};

    ghost Value = { D × List D };

    ghost view = { λ a. (a.driver, layers a.below) };

    ghost size = { λ v. length v.1 };

    ghost size_decreases = { λ a h. Prim.grind (arith, length-append) };
}

impl<D: FormatDriverInstance> FormatAccess<D> {
    /// Returns a disk of one image, without layers below.
    pub fn new(driver: D) -> Self
        ensures { result ≡ (driver, []) }
    {
        FormatAccess {
            driver,
            below: None,
        }
    }

    /// Puts an image on top of a chain, which becomes its backing chain.
    ///
    /// # Preconditions
    ///
    /// The driver reads through to the layer below where it has nothing allocated, as a qcow2 image with a backing file does.
    ///
    /// # Errors
    ///
    /// - `Fault::Memory`. The driver and the chain are returned with it.
    pub fn with_below(
        alloc: Global,
        driver: D,
        below: FormatAccess<D>,
    ) -> Result<Self, (Fault, Option<(D, FormatAccess<D>)>)>
        requires { (D.layer driver).fixed.blank ≡ unmapped }
        ensures ok { IfOk result (λ a. a ≡ (driver, chain below)) }
        ensures back { IfErr result (λ e. (e.0 ≡ Fault.Memory) × (e.1 ≡ Some (driver, below))) }
    {
        match Box::new(alloc, below) {
            Ok(below) => Ok(FormatAccess {
                driver,
                below: Some(below),
            }),
            Err(failed) => Err((Fault::Memory, Some((driver, failed.value)))),
        }
    }

    /// Returns the chain below the top layer, if the disk has one.
    pub fn below(&self) -> Option<&FormatAccess<D>>
        ensures { MatchOption result (self.now.1 ≡ []) (λ b. self.now.1 ≡ chain b.now) }
    {
        match &self.below {
            None => None,
            Some(below) => Some(&**below),
        }
    }

    /// Returns the driver of the top layer.
    pub fn inner(&self) -> &D
        ensures { result.now ≡ self.now.0 }
    {
        &self.driver
    }

    /// Returns the size of the disk, in bytes.
    pub fn size(&self) -> u64
        ensures { result ≡ (D.layer self.now.0).size }
    {
        self.driver.size()
    }

    /// Returns the greatest request alignment of the storages of all layers, in bytes.
    pub fn req_align(&self) -> usize
        ensures value { result ≡ req_align_of (map D.layer (chain self.now)) }
        ensures alignment { IsAlignment result }
    {
        let own = self.driver.req_align();
        match &self.below {
            None => own,
            Some(below) => larger_alignment(own, below.req_align()),
        }
    }

    /// Returns the greatest memory alignment of the storages of all layers, in bytes.
    pub fn mem_align(&self) -> usize
        ensures value { result ≡ mem_align_of (map D.layer (chain self.now)) }
        ensures alignment { IsAlignment result }
    {
        let own = self.driver.mem_align();
        match &self.below {
            None => own,
            Some(below) => larger_alignment(own, below.mem_align()),
        }
    }

    // Returns the unit of requests to all layers, in bytes: the larger of the two alignments.
    fn unit(&self) -> u64
        ensures value { result ≡ unit_of_chain (map D.layer (chain self.now)) }
        ensures alignment { IsAlignment result }
    {
        larger_alignment(self.req_align(), self.mem_align()) as u64
    }
}

impl<D: FormatDriverInstance> FormatAccess<D> {
    /// Returns the driver of the top layer for changes.
    ///
    /// # Preconditions
    ///
    /// No mapping is prepared: each one from `prepare_data_mapping` was committed or cancelled.
    pub fn inner_mut(&mut self) -> &mut D
        requires { IsFree (D.layer self.old.0) }
        ensures* lends { sem 𝓛 (Lends (the_row D.row) D.row self.entry result (λ w. (w, self.entry.now.1))) }
        ensures value { result.now ≡ self.old.0 }
    {
        &mut self.driver
    }
}

impl<D: FormatDriverInstance + Drop> FormatAccess<D> {
    /// Returns the driver of the top layer, and drops the layers below.
    ///
    /// # Preconditions
    ///
    /// No mapping is prepared: each one from `prepare_data_mapping` was committed or cancelled.
    pub fn into_driver(self) -> D
        requires { IsFree (D.layer self.0) }
        ensures { result ≡ self.0 }
    {
        let FormatAccess { driver, below } = self;
        drop(below);
        driver
    }
}

impl<D: FormatDriverInstance + Display> Display for FormatAccess<D> {
    ghost output = { λ a. D.output a.0 };

    ghost styled_output = { λ a. D.styled_output a.0 };

    fn fmt<W: Write>(&self, f: &mut Formatter<W>) -> fmt::Result {
        self.driver.fmt(f)
    }
}
