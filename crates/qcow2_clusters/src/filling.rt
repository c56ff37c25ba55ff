// Writes the data of a guest cluster to its preallocated zero cluster. Definitions: specs/Filling.antt.
ghost use Rattle.std.specs.Prelude.{◌≡◌, OnOk, false, length};
ghost use Rattle.imago_storage.specs.Calls.{UnchangedButFaults};
ghost use Rattle.qcow2_types.specs.Header.{cluster_size};
ghost use Rattle.qcow2_metadata.specs.Places.{IsAddressable};
ghost use Rattle.qcow2_clusters.specs.Filling.{FillsFile};
ghost use Rattle.qcow2_clusters.specs.Storing.{ReachesEnd};

use crate::storing::write_cluster;
use imago_storage::{Fault, Storage};
use qcow2_alloc::ImageFile;
use qcow2_types::HostCluster;
use std::alloc::Global;

/// Writes the data of a guest cluster to its preallocated zero cluster. The guest cluster still reads as zeroes until
/// its L2 entry references the host cluster as data.
///
/// The entry has the COPIED flag. Nothing is allocated, and no table is read or written. After success the file reaches
/// at least the end of the host cluster.
///
/// # Preconditions
///
/// Nothing of the image is cached.
///
/// # Errors
///
/// - `Fault::Memory`, `Fault::Storage`. If `begun` is set, a part of the data may have been written; the guest can't see
///   it. If `begun` isn't set, nothing has changed.
pub fn fill<S: Storage>(
    alloc: Global,
    file: &mut ImageFile<S>,
    cluster: HostCluster,
    content: &[u8],
    begun: &mut bool,
) -> Result<(), Fault>
    requires reach { IsAddressable file.old.header.fields.cluster_bits cluster }
    requires whole { length content.now ≡ cluster_size file.old.header.fields }
    ensures fills { FillsFile S.state cluster content.now file.old result file.new }
    ensures reaches { OnOk result (ReachesEnd S.state cluster 1 file.old file.new) }
    ensures untouched_unless_begun { begun.new ≡ false
        → (begun.old ≡ false) × OnOk result ⊥ × UnchangedButFaults (S.state file.old.image) (S.state file.new.image) }
{
    write_cluster(alloc, file, cluster, content, begun)
}
