//! Allocates runs of clusters and single clusters: their refcounts become 1, and they are returned as pending (not yet referenced).
ghost use Rattle.std.specs.Prelude.{◌≡◌, ◌<◌, ◌+◌, ◌^◌, ◌≢◌, ◌==◌, ◌≤◌, ◌/◌, List, IfOk, OnErr, OnOk, slice_index, true};
ghost use Rattle.qcow2_alloc.specs.Allocators.{first_free_of, table_of};
ghost use Rattle.qcow2_alloc.specs.ReadyingRuns.{Allocates, LeavesUntouched, first_free_after};
ghost use Rattle.qcow2_alloc.specs.State.{image_state, allocator_state, seen, with_first_free};
ghost use Rattle.qcow2_types.specs.Counts.{counters_of_block};
ghost use Rattle.qcow2_types.specs.Pending.{FreeEntry};
ghost use Rattle.qcow2_types.specs.Words.{block_offset};
ghost use Rattle.qcow2_metadata.specs.Places.{IsAddressable};
ghost use Rattle.qcow2_alloc.specs.HandingOut.{AllocatesClusters, AllocatesClusterAt, IsBarred, first_free_past};
ghost use Rattle.qcow2_alloc.specs.HandingOutOne.{AllocatesAt, CountsOne, ReadiesCounter, ReadiesRawEntry, tells_limit};

use crate::allocation::Allocator;
use crate::cache::MetadataCaches;
use crate::clusters_to_free::ClustersToFreeList;
use crate::file::{ImageFile, is_addressable};
use imago_storage::{Fault, Storage};
use qcow2_metadata::Table;
use qcow2_types::{ClusterCount, ClustersToFreeEntry, HostCluster, PendingClusters};

// Says whether the refcount table has an entry for a cluster, or also references its block.
#[derive(Clone, Copy)]
enum Readiness {
    // The cluster has it.
    Ready,
    // The refcount table can't grow that far.
    NoPlace,
}

impl Allocator {
    // Allocates the first run of `count` free clusters from the first-free hint on. If `count` is 0, the run starts at the hint.
    //
    // The caller has reserved the slot for their entry. Until `begun` is set, the call only searches.
    pub(super) fn allocate<S: Storage>(
        &mut self,
        file: &mut ImageFile<S>,
        caches: &mut MetadataCaches<S>,
        list: &mut ClustersToFreeList,
        count: ClusterCount,
        metadata: bool,
        begun: &mut bool,
    ) -> Result<PendingClusters, Fault>
        ensures begins { 0 < count → OnOk result (begun.new ≡ true) }
        ensures untouched_unless_begun { LeavesUntouched S.state begun.old begun.new self.old (seen self.old caches.old file.old list.old) self.new
            (seen self.new caches.new file.new list.new) }
        ensures allocates { Allocates S.state count metadata (allocator_state self.old caches.old file.old list.old) result
            (allocator_state self.new caches.new file.new list.new) }
        ensures held { list.new.held ≡ list.old.held }
    {
        if count == ClusterCount(0) {
            return Ok(pending_run(self.first_free_cluster, count, metadata));
        }
        let first = self.ready_run(file, caches, list, count.0, begun)?;
        // If this fails, the clusters whose refcounts were already set leak.
        self.count_run(file, caches, first, count.0)?;
        self.first_free_cluster = next_first_free(self.first_free_cluster, first, count);
        Ok(pending_run(first, count, metadata))
    }

    // Frees the clusters on the list, makes L2 tables depend on blocks, and allocates. The caller has reserved the slot for the new entry.
    pub(super) fn free_and_allocate<S: Storage>(
        &mut self,
        file: &mut ImageFile<S>,
        caches: &mut MetadataCaches<S>,
        list: &mut ClustersToFreeList,
        count: ClusterCount,
        metadata: bool,
        begun: &mut bool,
    ) -> Result<PendingClusters, Fault>
        ensures begins { 0 < count → OnOk result (begun.new ≡ true) }
        ensures untouched_unless_begun { LeavesUntouched S.state begun.old begun.new self.old (seen self.old caches.old file.old list.old) self.new
            (seen self.new caches.new file.new list.new) }
        ensures allocates { AllocatesClusters S.state count metadata (allocator_state self.old caches.old file.old list.old) result
            (allocator_state self.new caches.new file.new list.new) }
        ensures held { list.new.held ≡ list.old.held }
    {
        if !list.is_empty() {
            *begun = true;
        }
        self.process_clusters_to_free(file, caches, list)?;
        caches.l2_depends_on_rb(file)?;
        self.allocate(file, caches, list, count, metadata, begun)
    }

    // Makes L2 tables depend on blocks, and allocates a cluster if it is free. The caller has reserved the slot for its entry.
    pub(super) fn announce_and_allocate_at<S: Storage>(
        &mut self,
        file: &mut ImageFile<S>,
        caches: &mut MetadataCaches<S>,
        list: &mut ClustersToFreeList,
        cluster: HostCluster,
    ) -> Result<Option<PendingClusters>, Fault>
        ensures allocates { AllocatesClusterAt S.state cluster (allocator_state self.old caches.old file.old list.old) result
            (allocator_state self.new caches.new file.new list.new) }
        ensures held { list.new.held ≡ list.old.held }
    {
        caches.l2_depends_on_rb(file)?;
        self.allocate_at(file, caches, list, cluster)
    }

    // Allocates a cluster if it is free. L2 tables depend on blocks already.
    fn allocate_at<S: Storage>(
        &mut self,
        file: &mut ImageFile<S>,
        caches: &mut MetadataCaches<S>,
        list: &mut ClustersToFreeList,
        cluster: HostCluster,
    ) -> Result<Option<PendingClusters>, Fault>
        ensures allocates { AllocatesAt S.state (λ m. IsBarred m (first_free_of self.old) cluster) cluster
            (allocator_state self.old caches.old file.old list.old) result (allocator_state self.new caches.new file.new list.new) }
        ensures held { list.new.held ≡ list.old.held }
    {
        if !is_addressable(cluster, file.header.cluster_bits()) {
            return Ok(None);
        }
        match self.ensure_counter(file, caches, list, cluster)? {
            Readiness::Ready => self.allocate_one(file, caches, cluster),
            Readiness::NoPlace => Ok(None),
        }
    }

    // Grows the refcount table until it has an entry for a cluster. The result is `NoPlace` if the table can't grow that far.
    fn ensure_entry<S: Storage>(
        &mut self,
        file: &mut ImageFile<S>,
        caches: &mut MetadataCaches<S>,
        list: &mut ClustersToFreeList,
        cluster: HostCluster,
    ) -> Result<Readiness, Fault>
        ensures readies { ReadiesRawEntry S.state cluster (allocator_state self.old caches.old file.old list.old) result
            (allocator_state self.new caches.new file.new list.new) }
        ensures held { list.new.held ≡ list.old.held }
    {
        let index = cluster.rt_index(file.header.rb_bits());
        if index < self.reftable.entries() {
            return Ok(Readiness::Ready);
        }
        match self.grow_table(file, caches, list, index) {
            Ok(()) => Ok(Readiness::Ready),
            Err(fault) => {
                if is_limit(fault) {
                    Ok(Readiness::NoPlace)
                } else {
                    Err(fault)
                }
            }
        }
    }

    // Makes sure that a block has the refcount of an addressable cluster. The result is `NoPlace` if the refcount table can't grow that
    // far.
    fn ensure_counter<S: Storage>(
        &mut self,
        file: &mut ImageFile<S>,
        caches: &mut MetadataCaches<S>,
        list: &mut ClustersToFreeList,
        cluster: HostCluster,
    ) -> Result<Readiness, Fault>
        requires reach { IsAddressable file.old.header.fields.cluster_bits cluster }
        ensures readies { ReadiesCounter S.state cluster (allocator_state self.old caches.old file.old list.old) result
            (allocator_state self.new caches.new file.new list.new) }
        ensures held { list.new.held ≡ list.old.held }
    {
        if let Readiness::NoPlace = self.ensure_entry(file, caches, list, cluster)? {
            return Ok(Readiness::NoPlace);
        }
        let index = cluster.rt_index(file.header.rb_bits());
        let _provision = self.ensure_blocks(file, caches, index, index + 1)?;
        Ok(Readiness::Ready)
    }

    // Allocates a cluster if it is free. A block has its refcount.
    fn allocate_one<S: Storage>(
        &mut self,
        file: &mut ImageFile<S>,
        caches: &mut MetadataCaches<S>,
        cluster: HostCluster,
    ) -> Result<Option<PendingClusters>, Fault>
        requires block_exists { block_offset (slice_index (table_of self.old).raw_entries (cluster / counters_of_block file.old.header.fields)) ≢ 0 }
        requires reach { IsAddressable file.old.header.fields.cluster_bits cluster }
        ensures allocates { (pending : List FreeEntry)
            → AllocatesAt S.state (λ _. ⊥) cluster (with_first_free (image_state (table_of self.old) caches.old file.old pending) (first_free_of self.old))
            result (with_first_free (image_state (table_of self.old) caches.new file.new pending) (first_free_of self.new)) }
        ensures table { table_of self.new ≡ table_of self.old }
    {
        let found = self.find_in_block(file, caches, cluster)?;
        if found != Some(cluster) {
            return Ok(None);
        }
        self.count_one(file, caches, cluster)
    }

    // Sets the refcount of a free cluster to 1. If the first-free hint is this cluster, it moves to the next one.
    fn count_one<S: Storage>(
        &mut self,
        file: &mut ImageFile<S>,
        caches: &mut MetadataCaches<S>,
        cluster: HostCluster,
    ) -> Result<Option<PendingClusters>, Fault>
        requires reach { IsAddressable file.old.header.fields.cluster_bits cluster }
        ensures counts { (pending : List FreeEntry)
            → CountsOne S.state cluster (image_state (table_of self.old) caches.old file.old pending) result
            (image_state (table_of self.old) caches.new file.new pending) }
        ensures table { table_of self.new ≡ table_of self.old }
        ensures further { IfOk result (λ found. first_free_of self.new ≡ first_free_past (first_free_of self.old) cluster found) }
        ensures stays { OnErr result (first_free_of self.new ≡ first_free_of self.old) }
    {
        if cluster == HostCluster(0) {
            return Err(Fault::DamagedTable);
        }
        self.count_cluster(file, caches, cluster)?;
        if cluster == self.first_free_cluster {
            self.first_free_cluster = HostCluster(cluster.0 + 1);
        }
        let entry = ClustersToFreeEntry::data(cluster, ClusterCount(1));
        Ok(Some(PendingClusters::new(entry)))
    }
}

// Returns a run of clusters of metadata or of guest data, for tables to reference.
fn pending_run(first: HostCluster, count: ClusterCount, metadata: bool) -> PendingClusters
    ensures { result ≡ record { first = first; count = count; metadata = metadata } }
{
    if metadata {
        PendingClusters::new(ClustersToFreeEntry::metadata(first, count))
    } else {
        PendingClusters::new(ClustersToFreeEntry::data(first, count))
    }
}

// Returns the first-free hint after the allocation of a run that was searched for from the hint on.
fn next_first_free(mark: HostCluster, first: HostCluster, count: ClusterCount) -> HostCluster
    requires fits { first + count < 2 ^ 64 }
    ensures { result ≡ first_free_after mark count first }
{
    if first == mark {
        first + count
    } else if count == ClusterCount(1) {
        // All clusters from the hint up to this one are allocated.
        HostCluster(first.0 + 1)
    } else {
        mark
    }
}

// Returns true if the fault is `Fault::Limit`.
fn is_limit(fault: Fault) -> bool
    ensures { result ≡ tells_limit fault }
{
    matches!(fault, Fault::Limit(_))
}
