// Discards of any range of a storage. Only the aligned units that the range covers completely are discarded. Here a unit is the larger of
// the storage's unit of requests and `discard_align`.
ghost use Rattle.std.specs.Prelude.{◌≡◌, ℕ, ◌-◌, max, IsOk, OnOk, IfErr, IsErrOf};
ghost use Rattle.imago_storage.specs.State.{unit_of, IsAlignment};
ghost use Rattle.imago_storage.specs.Through.{Overflows, GivenUp, NotGivenUp};

use crate::ext::{larger_alignment, padded_end, unit_size, whole_part};
use crate::{Fault, Storage};

/// Discards the units that a range covers completely, in one request. If the storage doesn't support discards, nothing changes and the call
/// succeeds.
///
/// # Errors
///
/// - `Fault::RangeOverflow` exactly if the range isn't empty, and its end, rounded up to the unit of requests, doesn't fit 64 bits. Nothing
///   changes.
/// - `Fault::Memory`, `Fault::Storage`. Bytes of the covered units may be discarded, and no others.
pub fn discard_whole<S: Storage>(storage: &mut S, offset: u64, n: u64) -> Result<(), Fault>
    ensures ok { OnOk result (GivenUp (S.state storage.old) (S.state storage.new) offset n) }
    ensures err { IfErr result (NotGivenUp (S.state storage.old) (S.state storage.new) offset n) }
    ensures overflow { Overflows (unit_of (S.state storage.old).shape) offset n → IsErrOf result Fault.RangeOverflow }
    ensures empty { n ≡ 0 → IsOk result × (S.state storage.new ≡ S.state storage.old) }
    ensures unit { IsAlignment (unit_of (S.state storage.old).shape) }
{
    let unit = unit_size(storage);
    if n == 0 {
        return Ok(());
    }
    let align = larger_alignment(unit, storage.discard_align());
    if padded_end(offset, n, unit as u64).is_none() {
        return Err(Fault::RangeOverflow);
    }
    let Some((start, end)) = whole_part(offset, n, align as u64) else {
        return Ok(());
    };
    match storage.pure_discard(start, end - start) {
        Ok(()) => Ok(()),
        Err(fault) => match fault {
            Fault::Unsupported => Ok(()),
            _ => Err(fault),
        },
    }
}
