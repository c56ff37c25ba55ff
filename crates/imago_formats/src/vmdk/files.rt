// Reads the descriptor from a file.
ghost use Rattle.std.specs.Prelude.{◌≡◌, ◌≤◌, ◌^◌, length, IfOk, IfErr, OnOk, Ok};
ghost use Rattle.imago_storage.specs.Calls.{CountsFaults, UnchangedButFaults, Reads};
ghost use Rattle.imago_formats.specs.Descriptor.{descriptor_of, is_signed, text_of};
ghost use Rattle.imago_formats.specs.DescriptorView.{NotRead, kept_extents};

use crate::vmdk::disk::Disk;
use crate::vmdk::reading::{MOST_BYTES, is_signature, read_text, split_line};
use crate::vmdk::words::before_zero;
use imago_storage::{Fault, Storage, StorageExt};
use std::alloc::Global;

/// Reads a descriptor, and returns the disk of its extents. Nothing is written.
pub(crate) fn read_descriptor<S: Storage>(alloc: Global, image: &mut S) -> Result<Disk, Fault>
    ensures ok { IfOk result (λ d. descriptor_of (S.state image.old).bytes ≡ Ok (kept_extents d.extents.items)) }
    ensures err { IfErr result (NotRead (descriptor_of (S.state image.old).bytes) (S.state image.old) (S.state image.new)) }
    ensures faults { OnOk result ((S.state image.new).faults ≡ (S.state image.old).faults) }
    ensures unchanged_but_faults { UnchangedButFaults (S.state image.old) (S.state image.new) }
{
    // This is one byte more than the limit, to detect a descriptor that is too long.
    let count = image.size().min(MOST_BYTES as u64 + 1);
    let bytes = read_front(alloc, image, count as usize)?;
    read_text(alloc, before_zero(&bytes))
}

/// Returns true if the first line of the file is that of a descriptor. Nothing is written.
pub(crate) fn is_descriptor<S: Storage>(alloc: Global, image: &mut S) -> Result<bool, Fault>
    ensures ok { IfOk result (λ yes. yes ≡ is_signed (text_of (S.state image.old).bytes)) }
    ensures unchanged_but_faults { UnchangedButFaults (S.state image.old) (S.state image.new) }
    ensures faults { CountsFaults (S.state image.old).faults (S.state image.new).faults result }
{
    // The line has 21 bytes, and its end at most 2.
    let mut start = [0u8; 23];
    read_start(alloc, image, &mut start)?;
    let (first, _) = split_line(before_zero(&start));
    Ok(is_signature(first))
}

// Reads the first `count` bytes of a file. Bytes past its end read as 0.
fn read_front<S: Storage>(alloc: Global, image: &mut S, count: usize) -> Result<Vec<u8>, Fault>
    requires { count ≤ 2 ^ 63 }
    ensures read { IfOk result (λ bytes. Reads (S.state image.old).bytes 0 bytes.items) }
    ensures size { IfOk result (λ bytes. length bytes.items ≡ count) }
    ensures unchanged_but_faults { UnchangedButFaults (S.state image.old) (S.state image.new) }
    ensures faults { CountsFaults (S.state image.old).faults (S.state image.new).faults result }
{
    let mut bytes = vec![in alloc; 0u8; count]?;
    read_start(alloc, image, &mut bytes)?;
    Ok(bytes)
}

// Fills the buffer with the first bytes of a file. Bytes past its end read as 0.
fn read_start<S: Storage>(alloc: Global, image: &mut S, buf: &mut [u8]) -> Result<(), Fault>
    requires { length buf.old ≤ 2 ^ 63 }
    ensures read { OnOk result (Reads (S.state image.old).bytes 0 buf.new) }
    ensures unchanged_but_faults { UnchangedButFaults (S.state image.old) (S.state image.new) }
    ensures faults { CountsFaults (S.state image.old).faults (S.state image.new).faults result }
{
    image.read(alloc, buf, 0)
}
