// Repairs the leaks of an image: the checker finds them, and the qcow2 driver lowers the refcounts.
ghost use Rattle.std.specs.Prelude.{◌≡◌, IsFalse, Some};
ghost use Rattle.imago_access.specs.Layer.{IsFree};
ghost use Rattle.qimg_calls.specs.Repairing.{RepairsLeaksOf, has_refcounts, repair_refusal};
ghost use Rattle.qimg_chain.specs.Repairing.{ListsLeaks};

use crate::chain::image_driver::ImageDriver;
use imago_access::{DriverModel, FormatDriverInstance};
use imago_storage::{Fault, Storage};
use qcow2_image::Qcow2;
use qimg_calls::RepairsLeaks;
use qimg_core::check::{CheckFault, check};
use std::alloc::Global;

/// Returns the leaks of the image file as it is now. If the storage fails, the image is set to failed.
fn leaks_of<S: Storage>(alloc: Global, image: &mut Qcow2<S>) -> Result<Vec<(u64, u64)>, Fault>
    ensures { ListsLeaks S.Storage image.old result image.new }
{
    match check(alloc, image.image_mut()) {
        Ok(leaks) => Ok(leaks),
        Err(CheckFault::Memory) => Err(Fault::Memory),
        Err(CheckFault::Storage) => {
            image.mark_failed();
            Err(Fault::Storage)
        }
        Err(_) => Err(Fault::DamagedTable),
    }
}

/// Repairs the leaks of a qcow2 image.
fn repair_qcow2<S: Storage>(alloc: Global, image: &mut Qcow2<S>) -> Result<Vec<(u64, u64)>, Fault>
    requires free { IsFree (⟦<Qcow2<S> as DriverModel>⟧.layer image.old) }
    ensures { RepairsLeaksOf ⟦<Qcow2<S> as DriverModel>⟧ image.old result image.new }
{
    image.ready()?;
    if !image.writable() {
        return Err(Fault::ReadOnly);
    }
    image.flush(alloc)?;
    let leaks = leaks_of(alloc, image)?;
    image.lower_counts(alloc, &leaks)?;
    image.flush(alloc)?;
    Ok(leaks)
}

/// Returns the fault of a repair of an image whose format has no refcounts.
fn refusal<D: FormatDriverInstance>(image: &D) -> Fault
    requires { IsFalse (has_refcounts (D.layer image.now).fixed.format) }
    ensures { repair_refusal (D.layer image.now) ≡ Some result }
{
    match image.ready() {
        Ok(()) => Fault::Unsupported,
        Err(fault) => fault,
    }
}

impl<S: Storage> RepairsLeaks for ImageDriver<S> {
    fn repair_leaks(&mut self, alloc: Global) -> Result<Vec<(u64, u64)>, Fault> {
        match self {
            ImageDriver::Raw(raw) => Err(refusal(raw)),
            ImageDriver::Vmdk(vmdk) => Err(refusal(vmdk)),
            ImageDriver::Qcow2(qcow2) => repair_qcow2(alloc, qcow2),
        }
    }
}
