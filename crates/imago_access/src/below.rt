// `ReadBelow`: how a driver reads the layers below its image (the backing chain), to copy data from them. The chain implements it for its
// lower layers.
ghost use Rattle.std.specs.Prelude.{◌≡◌, ◌+◌, ◌≤◌, ◌^◌, [], ⊤, length, OnOk, IfErr, IsErrOf};
ghost use Rattle.imago_storage.specs.Disk.{Shows};
ghost use Rattle.imago_access.specs.Chain.{at, has_any};
ghost use Rattle.imago_access.specs.Files.{HadNoResourceError, ImageCause};
ghost use Rattle.imago_access.specs.Going.{LookupCallBelow};
ghost use Rattle.imago_storage.specs.declared.fault.Fault.TheVariants.{RangeOverflow};
ghost use Rattle.imago_access.specs.Failing.{RefusesReads};

use crate::driver_model::LayersBelowModel;
use imago_storage::Fault;
use std::alloc::Global;

/// The layers below an image (its backing chain), as its driver reads them. The chain passes them by reference.
///
/// Contracts see the layers, the highest first, and the states of their storages. The chain below a layer and `NoBelow` implement the
/// trait.
pub trait ReadBelow: LayersBelowModel {
    /// Returns true if the image has a layer below.
    fn present(&self) -> bool
        ensures { result ≡ has_any (Self.layers_below self.now) };

    /// Fills the buffer with the bytes of the layers from `offset` on, in bytes, and with zeroes past the end of the highest layer.
    ///
    /// # Errors
    ///
    /// The errors of `FormatAccess::read`. `Fault::RangeOverflow` never occurs for a range that ends at most 2^22 bytes past 2^63.
    ///
    /// # On error
    ///
    /// The contents of the buffer are unspecified.
    fn read(&mut self, alloc: Global, buf: &mut [u8], offset: u64) -> Result<(), Fault>
        ensures shown { OnOk result (Self.coherent_below self.old → Shows (at (Self.layers_below self.old)) offset buf.new) }
        ensures lookup_call { LookupCallBelow Self.LayersBelowModel (HadNoResourceError result) self.old self.new }
        ensures no_range_overflow { Self.coherent_below self.old → offset + length buf.old ≤ 2 ^ 63 + 2 ^ 22 → IsErrOf result RangeOverflow → ⊥ }
        ensures failed { IfErr result (ImageCause (Self.files_of_layers_below self.old) (Self.files_of_layers_below self.new)) }
        ensures cause { Self.coherent_below self.old → IfErr result (RefusesReads Self.LayersBelowModel offset (length buf.old) self.old self.new) };
}

/// No layers below an image. All bytes are 0.
#[derive(Drop)]
pub struct NoBelow;

impl LayersBelowModel for NoBelow {
    ghost layers_below = { λ _. [] };

    ghost files_of_layers_below = { λ _. [] };

    ghost coherent_below = { λ _. ⊤ };

    ghost well_formed_below = { λ _. ⊤ };

    ghost have_no_dirty_data_below = { λ _. ⊤ };

    ghost deeper_files = { λ _. [] };

    ghost deeper_have_no_dirty_data = { λ _. ⊤ };

    ghost stable_below = { λ _. ⊤ };
}

impl ReadBelow for NoBelow {
    fn present(&self) -> bool {
        false
    }

    fn read(&mut self, _alloc: Global, buf: &mut [u8], _offset: u64) -> Result<(), Fault> {
        buf.fill(0);
        Ok(())
    }
}
