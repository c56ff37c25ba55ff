// A layer of a chain of image files: a raw, VMDK or qcow2 image.
ghost use Rattle.std.specs.Prelude.{◌≡◌, ◌↔◌, IsTrue};
ghost use Rattle.imago_access.specs.Layer.{IsFree, unmapped};
ghost use Rattle.qimg_chain.specs.ImageDrivers.{began_as};
ghost use Rattle.qimg_chain.specs.declared.chain.image_driver.ImageDriver.TheVariants as variant;

use imago_access::DriverModel;
use imago_formats::{Raw, Vmdk};
use imago_storage::Storage;
use qcow2_image::{PreparedMappingState, Qcow2};
use std::fmt::{self, Display, Formatter, Write};

/// A layer (an image) of a chain, with the driver of its format.
///
/// Only qcow2 images prepare mappings with state (runs that are written and not yet committed). If a raw or VMDK image gets such a mapping,
/// it treats itself as the image with the number 0.
#[derive(Drop)]
pub enum ImageDriver<S: Storage> {
    /// A raw image.
    Raw(Raw<S>),
    /// A VMDK image.
    Vmdk(Vmdk<S>),
    /// A qcow2 image.
    Qcow2(Qcow2<S>),
}

impl<S: Storage> ImageDriver<S> {
    /// Returns true if unallocated clusters are read from a backing file. Only a qcow2 image can have one.
    pub fn shows_below(&self) -> bool
        ensures { IsTrue result ↔ ((⟦<ImageDriver<S> as DriverModel>⟧.layer self.now).fixed.blank ≡ unmapped) }
    {
        match self {
            ImageDriver::Raw(_) | ImageDriver::Vmdk(_) => false,
            ImageDriver::Qcow2(qcow2) => qcow2.backing(),
        }
    }

    /// Returns the storage of the image. Clusters on the free list of a qcow2 image keep their refcounts, so they leak. The files of a VMDK
    /// image's extents are dropped.
    ///
    /// # Preconditions
    ///
    /// No mapping is prepared.
    pub fn into_image(self) -> S
        requires free { IsFree (⟦<ImageDriver<S> as DriverModel>⟧.layer self) }
        ensures { S.state result ≡ ⟦<ImageDriver<S> as DriverModel>⟧.image self }
    {
        match self {
            ImageDriver::Raw(raw) => raw.into_image(),
            ImageDriver::Vmdk(vmdk) => vmdk.into_image(),
            ImageDriver::Qcow2(qcow2) => qcow2.into_image(),
        }
    }
}

impl<S: Storage> Display for ImageDriver<S> {
    ghost output = { elim [
      | variant.Raw d ↦ ⟦<Raw<S> as Display>⟧.output d
      | variant.Vmdk d ↦ ⟦<Vmdk<S> as Display>⟧.output d
      | variant.Qcow2 d ↦ ⟦<Qcow2<S> as Display>⟧.output d
    ] };

    fn fmt<W: Write>(&self, f: &mut Formatter<W>) -> fmt::Result {
        match self {
            ImageDriver::Raw(raw) => raw.fmt(f),
            ImageDriver::Vmdk(vmdk) => vmdk.fmt(f),
            ImageDriver::Qcow2(qcow2) => qcow2.fmt(f),
        }
    }
}

impl<S: Storage> DriverModel for ImageDriver<S> {
    type State = PreparedMappingState;

    ghost layer = { elim [
      | variant.Raw d ↦ ⟦<Raw<S> as DriverModel>⟧.layer d
      | variant.Vmdk d ↦ ⟦<Vmdk<S> as DriverModel>⟧.layer d
      | variant.Qcow2 d ↦ ⟦<Qcow2<S> as DriverModel>⟧.layer d
    ] };

    ghost image = { elim [
      | variant.Raw d ↦ ⟦<Raw<S> as DriverModel>⟧.image d
      | variant.Vmdk d ↦ ⟦<Vmdk<S> as DriverModel>⟧.image d
      | variant.Qcow2 d ↦ ⟦<Qcow2<S> as DriverModel>⟧.image d
    ] };

    ghost extras = { elim [
      | variant.Raw d ↦ ⟦<Raw<S> as DriverModel>⟧.extras d
      | variant.Vmdk d ↦ ⟦<Vmdk<S> as DriverModel>⟧.extras d
      | variant.Qcow2 d ↦ ⟦<Qcow2<S> as DriverModel>⟧.extras d
    ] };

    ghost coherent = { elim [
      | variant.Raw d ↦ ⟦<Raw<S> as DriverModel>⟧.coherent d
      | variant.Vmdk d ↦ ⟦<Vmdk<S> as DriverModel>⟧.coherent d
      | variant.Qcow2 d ↦ ⟦<Qcow2<S> as DriverModel>⟧.coherent d
    ] };

    ghost well_formed = { elim [
      | variant.Raw d ↦ ⟦<Raw<S> as DriverModel>⟧.well_formed d
      | variant.Vmdk d ↦ ⟦<Vmdk<S> as DriverModel>⟧.well_formed d
      | variant.Qcow2 d ↦ ⟦<Qcow2<S> as DriverModel>⟧.well_formed d
    ] };

    ghost has_no_dirty_data = { elim [
      | variant.Raw d ↦ ⟦<Raw<S> as DriverModel>⟧.has_no_dirty_data d
      | variant.Vmdk d ↦ ⟦<Vmdk<S> as DriverModel>⟧.has_no_dirty_data d
      | variant.Qcow2 d ↦ ⟦<Qcow2<S> as DriverModel>⟧.has_no_dirty_data d
    ] };

    ghost stable = { elim [
      | variant.Raw d ↦ ⟦<Raw<S> as DriverModel>⟧.stable d
      | variant.Vmdk d ↦ ⟦<Vmdk<S> as DriverModel>⟧.stable d
      | variant.Qcow2 d ↦ ⟦<Qcow2<S> as DriverModel>⟧.stable d
    ] };

    ghost excess_refcount = { elim [
      | variant.Raw d ↦ ⟦<Raw<S> as DriverModel>⟧.excess_refcount d
      | variant.Vmdk d ↦ ⟦<Vmdk<S> as DriverModel>⟧.excess_refcount d
      | variant.Qcow2 d ↦ ⟦<Qcow2<S> as DriverModel>⟧.excess_refcount d
    ] };

    ghost unallocated = { elim [
      | variant.Raw d ↦ ⟦<Raw<S> as DriverModel>⟧.unallocated d
      | variant.Vmdk d ↦ ⟦<Vmdk<S> as DriverModel>⟧.unallocated d
      | variant.Qcow2 d ↦ ⟦<Qcow2<S> as DriverModel>⟧.unallocated d
    ] };

    ghost has_allocation = { elim [
      | variant.Raw d ↦ ⟦<Raw<S> as DriverModel>⟧.has_allocation d
      | variant.Vmdk d ↦ ⟦<Vmdk<S> as DriverModel>⟧.has_allocation d
      | variant.Qcow2 d ↦ ⟦<Qcow2<S> as DriverModel>⟧.has_allocation d
    ] };

    ghost zeroed = { elim [
      | variant.Raw d ↦ ⟦<Raw<S> as DriverModel>⟧.zeroed d
      | variant.Vmdk d ↦ ⟦<Vmdk<S> as DriverModel>⟧.zeroed d
      | variant.Qcow2 d ↦ ⟦<Qcow2<S> as DriverModel>⟧.zeroed d
    ] };

    ghost explicit_zero = { elim [
      | variant.Raw d ↦ ⟦<Raw<S> as DriverModel>⟧.explicit_zero d
      | variant.Vmdk d ↦ ⟦<Vmdk<S> as DriverModel>⟧.explicit_zero d
      | variant.Qcow2 d ↦ ⟦<Qcow2<S> as DriverModel>⟧.explicit_zero d
    ] };

    ghost mapping_id = { ⟦<Qcow2<S> as DriverModel>⟧.mapping_id };

    ghost tag = { ⟦<Qcow2<S> as DriverModel>⟧.tag };

    // Only the files of qcow2 images can be inconsistent. They have their own kind.
    ghost sound = { ⟦<Qcow2<S> as DriverModel>⟧.sound };

    ghost began = { began_as ⟦<Raw<S> as DriverModel>⟧.began ⟦<Vmdk<S> as DriverModel>⟧.began ⟦<Qcow2<S> as DriverModel>⟧.began };

    ghost own_cause = { elim [
      | variant.Raw d ↦ ⟦<Raw<S> as DriverModel>⟧.own_cause d
      | variant.Vmdk d ↦ ⟦<Vmdk<S> as DriverModel>⟧.own_cause d
      | variant.Qcow2 d ↦ ⟦<Qcow2<S> as DriverModel>⟧.own_cause d
    ] };

    ghost growth_cause = { elim [
      | variant.Raw d ↦ ⟦<Raw<S> as DriverModel>⟧.growth_cause d
      | variant.Vmdk d ↦ ⟦<Vmdk<S> as DriverModel>⟧.growth_cause d
      | variant.Qcow2 d ↦ ⟦<Qcow2<S> as DriverModel>⟧.growth_cause d
    ] };
}
