// The names by which an image refers to its further files (VMDK extents).
ghost use Rattle.std.specs.Prelude.{◌≡◌, ◌<◌, ℕ, List, [], false, length, map, refl, slice_index_or};
ghost use Rattle.imago_formats.specs.DescriptorView.{kept_names};
ghost use Rattle.qcow2_types.specs.Bytes.{bytes_of};
ghost use Rattle.qcow2_types.specs.Header.{header_of};
ghost use Rattle.qimg_chain.specs.FileMeanings.{FindsByNames};
ghost use Rattle.qimg_chain.specs.FilesByName.{qcow2_through, sized, vmdk_named};
ghost use Rattle.qimg_chain.specs.declared.chain.image_driver.ImageDriver.TheVariants as variant;

use crate::chain::image_driver::ImageDriver;
use imago_access::FormatDriverInstance;
use imago_storage::Storage;

/// A driver that can return the names of its further files (VMDK extents), as its image has them. With these names the files can be found
/// when the image is opened again.
pub trait NamesFiles: FormatDriverInstance {
    /// The name of a further file, by its index.
    ghost names: { Self → ℕ → List ℕ };

    /// Returns the number of open further files.
    fn extra_count(&self) -> usize
        ensures { result ≡ length (Self.extras self.now) };

    /// Returns the name of a further file, by its index.
    fn extra_name(&self, index: usize) -> &str
        requires { index < length (Self.extras self.now) }
        ensures { result.now ≡ Self.names self.now index };

    /// For a well-formed driver, its image file means the same disk with its own further files and with those found by these names.
    ghost named: { (d : Self) → Self.well_formed d → FindsByNames Self.DriverModel names d };
}

impl<S: Storage> NamesFiles for ImageDriver<S> {
    ghost names = { elim [
      | variant.Raw d ↦ λ index. []
      | variant.Vmdk d ↦ λ index. slice_index_or (kept_names d.disk.extents.items) index []
      | variant.Qcow2 d ↦ λ index. []
    ] };

    ghost named = { elim [
      | variant.Raw d ↦ λ well_formed. record { size = refl; cell = λ p below backed. refl }
      | variant.Vmdk d ↦ λ well_formed. vmdk_named d.disk.extents.items (S.state d.image) (map S.state d.files.items) well_formed.2
      | variant.Qcow2 d ↦ λ well_formed.
          let bytes = (S.state d.tables.file.image).bytes in
          let size = sized d.mode.backing (bytes_of bytes) (header_of false (bytes_of bytes)) in
          record { size = size; cell = qcow2_through d.mode.backing bytes }
    ] };

    fn extra_count(&self) -> usize {
        match self {
            ImageDriver::Raw(raw) => raw.extras(),
            ImageDriver::Vmdk(vmdk) => vmdk.extras(),
            ImageDriver::Qcow2(qcow2) => qcow2.extras(),
        }
    }

    fn extra_name(&self, index: usize) -> &str {
        match self {
            ImageDriver::Raw(raw) => raw.extra_name(index),
            ImageDriver::Vmdk(vmdk) => vmdk.extra_name(index),
            ImageDriver::Qcow2(qcow2) => qcow2.extra_name(index),
        }
    }
}
