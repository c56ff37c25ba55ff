// Repairs the leaks of a chain's top image. Definitions: specs/Repairing.antt.
ghost use Rattle.std.specs.Prelude.{◌≡◌};
ghost use Rattle.imago_access.specs.Layer.{IsFree};
ghost use Rattle.qimg_calls.specs.Repairing.{RepairsLeaksOf};

use imago_access::{FormatAccess, FormatDriverInstance};
use imago_storage::Fault;
use std::alloc::Global;

/// A driver that can repair the leaks of its image. A leak is a cluster whose refcount is greater than the number of its references; the
/// difference is its excess refcount. A format without refcounts has no leaks, and its driver refuses the call.
pub trait RepairsLeaks: FormatDriverInstance {
    /// Repairs all leaks: flushes the image, lowers each refcount by its excess, and flushes again. Returns the leaks that were repaired,
    /// by rising cluster, each with its excess refcount. See the qcow2 format's section "Host cluster management".
    ///
    /// The disk stays the same.
    ///
    /// # Preconditions
    ///
    /// No mapping is prepared.
    ///
    /// # Errors
    ///
    /// - `Fault::Failed` or `Fault::MissingData` if the image can't be used; then `Fault::Unsupported` if its format has no refcounts; then
    ///   `Fault::ReadOnly`. Nothing is done then.
    /// - `Fault::Memory`, `Fault::Storage`.
    /// - Only if the file isn't consistent: `Fault::DamagedTable`, after the first flush. No refcount is lowered then.
    ///
    /// # On error
    ///
    /// Some refcounts may have been lowered. After `Fault::Storage` the image has failed, if its format marks failures. After
    /// `Fault::Memory` it has failed or is still well-formed.
    ///
    /// # Crash safety
    ///
    /// Each crash image is consistent. Each byte reads as it did in the file or on the disk before the call, and after the first flush as
    /// on the disk.
    fn repair_leaks(&mut self, alloc: Global) -> Result<Vec<(u64, u64)>, Fault>
        requires free { IsFree (Self.layer self.old) }
        ensures { RepairsLeaksOf Self.DriverModel self.old result self.new };
}

/// Repairs the leaks of a chain's top image, and returns them: see `RepairsLeaks::repair_leaks`. No image below is used.
pub fn repair_leaks<D: RepairsLeaks>(
    alloc: Global,
    chain: &mut FormatAccess<D>,
) -> Result<Vec<(u64, u64)>, Fault>
    requires free { IsFree (D.layer chain.old.0) }
    ensures repairs { RepairsLeaksOf D.DriverModel chain.old.0 result chain.new.0 }
    ensures below { chain.new.1 ≡ chain.old.1 }
{
    chain.inner_mut().repair_leaks(alloc)
}
