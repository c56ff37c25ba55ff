// Clusters that a caller must take care of: newly allocated ones that nothing references yet, and ones to free. The compiler rejects code
// that drops these values, so that no cluster leaks by accident.

ghost use Rattle.std.specs.Prelude.{◌≡◌, true, false};
ghost use Rattle.qcow2_types.specs.Pending.{FreeEntry};

use crate::count::ClusterCount;
use crate::host::HostCluster;
use std::marker::Model;

/// Consecutive host clusters to free: nothing references them any more, but their refcount is still above 0. In contracts the value is a
/// `FreeEntry`.
///
/// The value can't be dropped, because its clusters would leak. `into_parts` consumes it.
#[derive(Debug)]
pub struct ClustersToFreeEntry {
    first_cluster: HostCluster,
    count: ClusterCount,
    is_metadata: bool,
}

impl Model for ClustersToFreeEntry {
    ghost Value = { FreeEntry };

    ghost view = { λ e. record { first = e.first_cluster; count = e.count; metadata = e.is_metadata } };
}

impl ClustersToFreeEntry {
    /// Creates an entry of `count` clusters of guest data, starting at `first_cluster`.
    pub fn data(first_cluster: HostCluster, count: ClusterCount) -> ClustersToFreeEntry
        ensures { result ≡ record { first = first_cluster; count = count; metadata = false } }
    {
        ClustersToFreeEntry {
            first_cluster,
            count,
            is_metadata: false,
        }
    }

    /// Creates an entry of `count` clusters of metadata, such as tables and refcount blocks, starting at `first_cluster`.
    pub fn metadata(first_cluster: HostCluster, count: ClusterCount) -> ClustersToFreeEntry
        ensures { result ≡ record { first = first_cluster; count = count; metadata = true } }
    {
        ClustersToFreeEntry {
            first_cluster,
            count,
            is_metadata: true,
        }
    }

    /// Returns the first of the clusters.
    pub fn first_cluster(&self) -> HostCluster
        ensures { result ≡ self.now.first }
    {
        self.first_cluster
    }

    /// Returns the number of clusters.
    pub fn count(&self) -> ClusterCount
        ensures { result ≡ self.now.count }
    {
        self.count
    }

    /// Returns true if the clusters held metadata.
    pub fn is_metadata(&self) -> bool
        ensures { result ≡ self.now.metadata }
    {
        self.is_metadata
    }

    /// Consumes the entry. Returns the first cluster, the number of clusters, and true if they held metadata.
    ///
    /// The caller must lower the refcounts of the clusters, or the clusters leak.
    pub fn into_parts(self) -> (HostCluster, ClusterCount, bool)
        ensures { result ≡ (self.first, self.count, self.metadata) }
    {
        let ClustersToFreeEntry {
            first_cluster,
            count,
            is_metadata,
        } = self;
        (first_cluster, count, is_metadata)
    }
}

/// Newly allocated host clusters: their refcount is above 0, but nothing references them yet. In contracts the value is a `FreeEntry`: the
/// clusters that must be freed if nothing ever references them.
///
/// The value can't be dropped. Once a table references the clusters, consume it with `make_persistent`. Use `into_entry` if no table will
/// reference them, or to keep the clusters as plain data until one does.
#[derive(Debug)]
pub struct PendingClusters {
    entry: ClustersToFreeEntry,
}

impl Model for PendingClusters {
    ghost Value = { FreeEntry };

    ghost view = { λ p. p.entry };
}

impl PendingClusters {
    /// Creates pending clusters (allocated, and not yet referenced): the clusters of `entry`.
    pub fn new(entry: ClustersToFreeEntry) -> PendingClusters
        ensures { result ≡ entry }
    {
        PendingClusters { entry }
    }

    /// Returns the first of the clusters.
    pub fn cluster(&self) -> HostCluster
        ensures { result ≡ self.now.first }
    {
        self.entry.first_cluster()
    }

    /// Consumes the value. Call it when a table references the clusters.
    pub fn make_persistent(self) {
        let PendingClusters { entry } = self;
        let _parts = entry.into_parts();
    }

    /// Consumes the value and returns its entry. The caller must free the clusters, or keep track of them itself.
    pub fn into_entry(self) -> ClustersToFreeEntry
        ensures { result ≡ self }
    {
        let PendingClusters { entry } = self;
        entry
    }
}
