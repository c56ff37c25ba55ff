// The meaning of L2 entries, and the host clusters that they reference.
ghost use Rattle.std.specs.Prelude.{◌≡◌, ◌==◌, ℕ, Bool, Some, None, ◌+◌, ◌<◌, ◌^◌, ◌≤◌};
ghost use Rattle.qcow2_metadata.specs.MappingView.{mapping_seen, IsHostAddressable, follows};
ghost use Rattle.qcow2_metadata.specs.Allocations.{allocation_of, clusters_of_range as clusters_of_range_of, freed, replaced, unkept, kept_where, zeroed_raw_entry, IsKeptAddressable};

use crate::entries::L2Entry;
use qcow2_types::{ClusterCount, ClustersToFreeEntry, HostCluster, HostOffset};

/// The meaning of an L2 entry for its guest cluster.
#[derive(Clone, Copy, Debug, PartialEq, Eq)]
pub enum L2Mapping {
    /// The guest's bytes are in this host cluster.
    DataFile {
        host_cluster: HostCluster,
        /// The COPIED flag: the cluster's refcount is exactly 1.
        copied: bool,
    },
    /// The guest's bytes are those of the backing file, or zeroes if the image has none.
    Backing {
        /// The offset of the guest cluster's bytes in the backing file.
        backing_offset: u64,
    },
    /// The guest's bytes are zeroes.
    Zero {
        /// The preallocated host cluster, if any.
        host_cluster: Option<HostCluster>,
        /// The COPIED flag: the cluster's refcount is exactly 1.
        copied: bool,
    },
    /// The guest's bytes are compressed.
    Compressed {
        /// The host offset of the first byte of the compressed data.
        host_offset: HostOffset,
        /// The length up to the end of the last sector of 512 bytes, in bytes. The compressed data may end before.
        length: u64,
    },
}

impl L2Mapping {
    /// Returns true if the mapping continues `preceding`, which is the mapping of the guest cluster before.
    ///
    /// Both must be of one kind. A host cluster must follow the preceding one, with the same COPIED flag. An offset in the backing file
    /// must be one cluster after the preceding one. Zeroes without host clusters always continue each other. Nothing continues from the
    /// last host cluster, and compressed mappings never continue.
    pub fn is_consecutive(&self, preceding: &L2Mapping, cluster_bits: u32) -> bool
        requires { (9 ≤ cluster_bits) × (cluster_bits ≤ 21) }
        ensures { result ≡ follows cluster_bits preceding.now self.now }
    {
        match *self {
            L2Mapping::DataFile {
                host_cluster,
                copied,
            } => data_goes_on(*preceding, host_cluster, copied),
            L2Mapping::Backing { backing_offset } => {
                backing_goes_on(*preceding, backing_offset, cluster_bits)
            }
            L2Mapping::Zero {
                host_cluster,
                copied,
            } => match host_cluster {
                Some(cluster) => kept_goes_on(*preceding, cluster, copied),
                None => zero_goes_on(*preceding),
            },
            L2Mapping::Compressed { .. } => false,
        }
    }
}

// Returns true if data in this cluster continues the mapping before.
fn data_goes_on(preceding: L2Mapping, cluster: HostCluster, copied: bool) -> bool
    ensures { (bits : ℕ) → result ≡ follows bits preceding (L2Mapping.DataFile cluster copied) }
{
    match preceding {
        L2Mapping::DataFile {
            host_cluster,
            copied: mark,
        } => is_after(host_cluster.0, cluster.0, 1) && mark == copied,
        _ => false,
    }
}

// Returns true if the backing file's bytes at this offset continue the mapping before.
fn backing_goes_on(preceding: L2Mapping, place: u64, cluster_bits: u32) -> bool
    requires { cluster_bits ≤ 21 }
    ensures { result ≡ follows cluster_bits preceding (L2Mapping.Backing place) }
{
    match preceding {
        L2Mapping::Backing { backing_offset } => is_after(backing_offset, place, 1 << cluster_bits),
        _ => false,
    }
}

// Returns true if zeroes with this preallocated cluster continue the mapping before.
fn kept_goes_on(preceding: L2Mapping, cluster: HostCluster, copied: bool) -> bool
    ensures { (bits : ℕ) → result ≡ follows bits preceding (L2Mapping.Zero (Some cluster) copied) }
{
    match preceding {
        L2Mapping::Zero {
            host_cluster,
            copied: mark,
        } => match host_cluster {
            Some(before) => is_after(before.0, cluster.0, 1) && mark == copied,
            None => false,
        },
        _ => false,
    }
}

// Returns true if zeroes without a cluster continue the mapping before. Without a cluster the COPIED flags don't matter.
fn zero_goes_on(preceding: L2Mapping) -> bool
    ensures { (bits : ℕ) (copied : Bool) → result ≡ follows bits preceding (L2Mapping.Zero None copied) }
{
    match preceding {
        L2Mapping::Zero { host_cluster, .. } => host_cluster.is_none(),
        _ => false,
    }
}

// Returns true if `number` is `before + step`.
fn is_after(before: u64, number: u64, step: u64) -> bool
    ensures { result ≡ (number == before + step) }
{
    number >= step && number - step == before
}

/// Returns the first host cluster that a mapping references, and the number of clusters, if any.
pub fn allocation(mapping: L2Mapping, cluster_bits: u32) -> Option<(HostCluster, ClusterCount)>
    requires bits { (9 ≤ cluster_bits) × (cluster_bits ≤ 21) }
    requires named { IsHostAddressable cluster_bits mapping }
    ensures { result ≡ allocation_of cluster_bits (mapping_seen mapping) }
{
    match mapping {
        L2Mapping::DataFile { host_cluster, .. } => Some((host_cluster, ClusterCount(1))),
        L2Mapping::Zero { host_cluster, .. } => match host_cluster {
            Some(cluster) => Some((cluster, ClusterCount(1))),
            None => None,
        },
        L2Mapping::Compressed {
            host_offset,
            length,
        } => Some(clusters_of_range(host_offset, length, cluster_bits)),
        L2Mapping::Backing { .. } => None,
    }
}

// Returns the first cluster that holds bytes of a range, and the number of clusters.
fn clusters_of_range(
    offset: HostOffset,
    length: u64,
    cluster_bits: u32,
) -> (HostCluster, ClusterCount)
    requires bits { (9 ≤ cluster_bits) × (cluster_bits ≤ 21) }
    requires nonempty { 0 < length }
    requires end_bounded { offset + length < 2 ^ 57 }
    ensures { result ≡ clusters_of_range_of cluster_bits offset length }
{
    let first = offset.cluster(cluster_bits);
    let last = (offset + (length - 1)).cluster(cluster_bits);
    (first, ClusterCount(last.0 - first.0 + 1))
}

/// Returns the clusters of an allocation, if any, as an entry of the free list (the list of clusters to free).
pub fn to_free(allocation: Option<(HostCluster, ClusterCount)>) -> Option<ClustersToFreeEntry>
    ensures { result ≡ freed allocation }
{
    match allocation {
        Some((first, count)) => Some(ClustersToFreeEntry::data(first, count)),
        None => None,
    }
}

/// Returns the clusters of an allocation as an entry of the free list. The result is `None` if they are exactly the given cluster, or
/// without an allocation.
pub fn to_free_unless(
    allocation: Option<(HostCluster, ClusterCount)>,
    cluster: HostCluster,
) -> Option<ClustersToFreeEntry>
    ensures { result ≡ freed (replaced cluster allocation) }
{
    match allocation {
        Some((first, count)) => {
            if first.0 == cluster.0 && count.0 == 1 {
                None
            } else {
                Some(ClustersToFreeEntry::data(first, count))
            }
        }
        None => None,
    }
}

/// Returns the clusters of an allocation as an entry of the free list. The result is `None` if they are kept, or without an allocation.
pub fn to_free_unless_kept(
    allocation: Option<(HostCluster, ClusterCount)>,
    is_kept: bool,
) -> Option<ClustersToFreeEntry>
    ensures { result ≡ freed (unkept is_kept allocation) }
{
    match allocation {
        Some((first, count)) => {
            if is_kept {
                None
            } else {
                Some(ClustersToFreeEntry::data(first, count))
            }
        }
        None => None,
    }
}

/// Returns the host cluster that a guest cluster keeps when it is zeroed, with its COPIED flag. The result is `None`
/// unless `keep` is set.
pub fn kept_cluster(
    mapping: L2Mapping,
    keep: bool,
    cluster_bits: u32,
) -> Option<(HostCluster, bool)>
    requires { IsHostAddressable cluster_bits mapping }
    ensures kept_host { result ≡ kept_where keep (mapping_seen mapping) }
    ensures reach { IsKeptAddressable cluster_bits result }
{
    let _ = cluster_bits;
    if !keep {
        return None;
    }
    match mapping {
        L2Mapping::DataFile {
            host_cluster,
            copied,
        } => Some((host_cluster, copied)),
        L2Mapping::Zero {
            host_cluster,
            copied,
        } => match host_cluster {
            Some(cluster) => Some((cluster, copied)),
            None => None,
        },
        L2Mapping::Backing { .. } | L2Mapping::Compressed { .. } => None,
    }
}

/// Returns the entry of a zeroed guest cluster that keeps the given cluster, if any.
pub fn zero_entry(kept: Option<(HostCluster, bool)>, cluster_bits: u32) -> L2Entry
    requires bits { (9 ≤ cluster_bits) × (cluster_bits ≤ 21) }
    requires reach { IsKeptAddressable cluster_bits kept }
    ensures { result ≡ zeroed_raw_entry cluster_bits kept }
{
    match kept {
        Some((cluster, copied)) => L2Entry::zero_at(cluster.offset(cluster_bits), copied),
        None => L2Entry::zero(),
    }
}
