// The image file and its header, which callers pass to the caches and to the allocator by reference.
ghost use Rattle.std.specs.Prelude.{◌≤◌, ◌↔◌, IsTrue};
ghost use Rattle.qcow2_metadata.specs.Places.{IsAddressable};

use qcow2_metadata::Header;
use qcow2_types::{HostCluster, MAX_OFFSET};

/// The file of a qcow2 image, with its header in memory.
#[derive(Drop)]
pub struct ImageFile<S> {
    /// The storage that has the file's bytes.
    pub image: S,
    /// The header in memory.
    pub header: Header,
}

// Returns true if the cluster fits the offset field of an entry.
pub(crate) fn is_addressable(cluster: HostCluster, cluster_bits: u32) -> bool
    requires { cluster_bits ≤ 21 }
    ensures { IsTrue result ↔ IsAddressable cluster_bits cluster }
{
    cluster.0 <= MAX_OFFSET >> cluster_bits
}
