// Reads from an image file at offsets below 2^63.
ghost use Rattle.std.specs.Prelude.{◌≡◌, ◌+◌, ◌≤◌, ◌^◌, length, OnOk};
ghost use Rattle.imago_storage.specs.Calls.{CountsFaults, UnchangedButFaults, Reads};

use imago_storage::{Fault, Storage, StorageExt};
use std::alloc::Global;

/// Fills the buffer with the bytes of the file from an offset on. Bytes past the end of the file are zeroes.
pub(crate) fn read_at<S: Storage>(
    alloc: Global,
    image: &mut S,
    buf: &mut [u8],
    offset: u64,
) -> Result<(), Fault>
    requires { offset + length buf.old ≤ 2 ^ 63 }
    ensures read { OnOk result (Reads (S.state image.old).bytes offset buf.new) }
    ensures unchanged_but_faults { UnchangedButFaults (S.state image.old) (S.state image.new) }
    ensures faults { CountsFaults (S.state image.old).faults (S.state image.new).faults result }
{
    image.read(alloc, buf, offset)
}
