// The check of a range before a change. Definition: `range_refusal` in specs/Refusals.antt.
ghost use Rattle.std.specs.Prelude.{◌≡◌, ◌<◌, ◌≤◌, ◌+◌, ◌∷◌, List, IsTrue, IfErr, OnOk, Some, None};
ghost use Rattle.imago_storage.specs.State.{StorageState};
ghost use Rattle.imago_access.specs.Files.{IsNotResourceError, ImageCause};
ghost use Rattle.imago_access.specs.Refusals.{range_refusal};

use imago_storage::{Fault, padded_end};

/// Checks whether a range may be changed, before anything is done. `unit`, `size`, `offset` and `length` are in bytes.
///
/// An empty range always passes. The calls of `FormatDriverInstance` that change a range make these checks in this order, after `ready`.
/// The calls of `FormatAccess` make these checks too, with the unit of the whole chain.
///
/// # Preconditions
///
/// `unit` is above 0.
///
/// # Errors
///
/// - `Fault::ReadOnly` if the image wasn't opened for writing.
/// - `Fault::RangeOverflow` if the end of the range, rounded up to a multiple of `unit`, doesn't fit `u64`.
/// - `Fault::PastEnd` if the range ends past `size`.
pub fn check_range(
    writable: bool,
    unit: u64,
    size: u64,
    offset: u64,
    length: u64,
) -> Result<(), Fault>
    requires { 0 < unit }
    ensures ok { OnOk result (range_refusal writable unit size offset length ≡ None) }
    ensures err { IfErr result (λ e. range_refusal writable unit size offset length ≡ Some e) }
    ensures writing { 0 < length → OnOk result (IsTrue writable) }
    ensures inside { 0 < length → OnOk result (offset + length ≤ size) }
    ensures not_resource_error { IfErr result IsNotResourceError }
    ensures failed { (olds news : List StorageState) → IfErr result (ImageCause olds news) }
{
    if length == 0 {
        return Ok(());
    }
    if !writable {
        return Err(Fault::ReadOnly);
    }
    if padded_end(offset, length, unit).is_none() {
        return Err(Fault::RangeOverflow);
    }
    if length > size || offset > size - length {
        return Err(Fault::PastEnd);
    }
    Ok(())
}
