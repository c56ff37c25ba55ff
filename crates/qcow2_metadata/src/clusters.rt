// Reads and writes of whole clusters of an image file.
ghost use Rattle.std.specs.Prelude.{◌≡◌, ℕ, ◌+◌, ◌%◌, ◌^◌, ◌<◌, ◌≤◌, length, slice_index, replicate, IfOk};
ghost use Rattle.imago_storage.specs.Calls.{CountsFaults, UnchangedButFaults, Reads};
ghost use Rattle.imago_storage.specs.Through.{AtomicWriteOutcome};
ghost use Rattle.qcow2_metadata.specs.Places.{IsPlaced, place_of};

use crate::reading::read_at;
use imago_storage::{Fault, Storage, StorageExt};
use qcow2_types::HostCluster;
use std::alloc::{AllocError, Global};

/// Returns the host offset of a cluster, in bytes. The cluster must be `Some`.
pub fn first_byte_of(cluster: Option<HostCluster>, cluster_bits: u32) -> u64
    requires bits { (9 ≤ cluster_bits) × (cluster_bits ≤ 21) }
    requires placed { IsPlaced cluster_bits cluster }
    ensures { result ≡ place_of cluster_bits cluster }
{
    match cluster {
        Some(cluster) => cluster.offset(cluster_bits).0,
        None => 0,
    }
}

/// Returns a buffer of `size` zero bytes.
pub fn zeroes(alloc: Global, size: usize) -> Result<Vec<u8>, AllocError>
    ensures { IfOk result (λ bytes. bytes.items ≡ replicate size 0) }
{
    vec![in alloc; 0u8; size]
}

/// Reads the `size` bytes at a host offset. Bytes past the end of the file are zeroes.
///
/// # Errors
///
/// - `Fault::Memory`, `Fault::Storage`. The file is unchanged.
pub fn read_cluster<S: Storage>(
    alloc: Global,
    image: &mut S,
    offset: u64,
    size: usize,
) -> Result<Vec<u8>, Fault>
    requires fits { offset + size ≤ 2 ^ 63 }
    ensures read { IfOk result (λ bytes. Reads (S.state image.old).bytes offset bytes.items) }
    ensures whole { IfOk result (λ bytes. length bytes.items ≡ size) }
    ensures unchanged_but_faults { UnchangedButFaults (S.state image.old) (S.state image.new) }
    ensures faults { CountsFaults (S.state image.old).faults (S.state image.new).faults result }
{
    let mut bytes = zeroes(alloc, size)?;
    read_at(alloc, image, &mut bytes, offset)?;
    Ok(bytes)
}

/// Writes the bytes of a cluster, in one request.
///
/// # Errors
///
/// - `Fault::Memory`, `Fault::Storage`. Each byte of the cluster is old or new.
pub fn write_cluster<S: Storage>(
    alloc: Global,
    image: &mut S,
    bytes: &[u8],
    offset: u64,
    cluster_bits: u32,
) -> Result<(), Fault>
    requires size { length bytes.now ≡ 2 ^ cluster_bits }
    requires whole { offset % 2 ^ cluster_bits ≡ 0 }
    requires fits { offset + 2 ^ cluster_bits ≤ 2 ^ 63 }
    ensures put { AtomicWriteOutcome (S.state image.old) (S.state image.new) offset bytes.now result }
    ensures fit { (k : ℕ) → slice_index bytes.now k < 256 }
{
    image.write(alloc, bytes, offset)
}
