//! The allocator: allocates clusters of an image file, frees the clusters on the free list, and grows the refcount table.
//!
//! The promises here are for a consistent image, in a storage that keeps what is written. An image is consistent if its file and its
//! metadata in memory are, and each refcount in memory covers the references and the entries on the free list (`IsSound`,
//! specs/GuestView.antt).
ghost use Rattle.std.specs.Prelude.{◌≡◌, ◌≤◌, ◌<◌, ◌-◌, ◌%◌, ◌^◌, ◌+◌, ℕ, true, Ok, Err, OnOk, OnErr, IfOk, IfErr, Some, None, slice_index, length, min, [], Result, MatchOption};

use crate::cache::MetadataCaches;
use crate::clusters_to_free::{ClustersToFreeList, PendingAllocation};
use crate::file::{ImageFile, is_addressable};
use imago_storage::{Fault, Storage};
use qcow2_metadata::{RefTable, Table};
use qcow2_types::{ClusterCount, ClustersToFreeEntry, HostCluster};
use std::alloc::Global;

mod counting;
mod growing;
mod handing_out;
mod lowering;
mod making_blocks;
mod moving_table;
mod readying_runs;
mod searching;

/// The allocator of an image: its refcount table in memory, and the first-free hint, where the search for free clusters starts.
#[derive(Drop)]
pub struct Allocator {
    alloc: Global,
    pub(crate) reftable: RefTable,
    pub(crate) first_free_cluster: HostCluster,
    ghost table_bounded: { length reftable.raw_entries ≤ 2 ^ 20 },
}

impl Allocator {
    ghost use Rattle.imago_storage.specs.declared.fault.Fault.{Fault};
    ghost use Rattle.qcow2_alloc.specs.Allocators.{table_of, first_free_of, referenced_block, DecrementsCluster, LoadsAllocator};
    ghost use Rattle.std.specs.List.{remove};
    ghost use Rattle.qcow2_alloc.specs.declared.cache.CacheDependency.TheVariants.{RbDependsOnL2};
    ghost use Rattle.qcow2_alloc.specs.Caches.{cached_in, order_of, HasRoomOf, cached_file};
    ghost use Rattle.qcow2_alloc.specs.Dropping.{Dropped, StaysWellFormed};
    ghost use Rattle.qcow2_alloc.specs.WellFormedness.{AreBlocksClean};
    ghost use Rattle.qcow2_alloc.specs.FreeList.{entry_at, shortened};
    ghost use Rattle.qcow2_alloc.specs.Freeing.{Frees, MayFree, data_in, IsRest, IsRestInTurn, OrdersFreeing};
    ghost use Rattle.qcow2_types.specs.Header.{has_external_data};
    ghost use Rattle.qcow2_alloc.specs.HandingOut.{AllocatesClusters, AllocatesClusterAt, GrowsReftable, held_at, held_by};
    ghost use Rattle.qcow2_alloc.specs.ReadyingRuns.{LeavesUntouched};
    ghost use Rattle.qcow2_alloc.specs.GuestView.{metadata_in};
    ghost use Rattle.qcow2_alloc.specs.State.{allocator_state, seen};

    /// Loads the refcount table of an image. The search for free clusters starts at cluster 0.
    ///
    /// # Errors
    ///
    /// - `Fault::DamagedTable` if the header's offset of the table isn't that of an addressable cluster, before anything is read; or if an
    ///   entry of the table is invalid.
    /// - `Fault::Limit` if the table has more than 2^20 entries.
    /// - `Fault::Memory`, `Fault::Storage`.
    pub fn new<S: Storage>(alloc: Global, file: &mut ImageFile<S>) -> Result<Allocator, Fault>
        ensures loads { LoadsAllocator (S.state file.old.image) file.old.header.fields result (S.state file.new.image) }
        ensures header { file.new.header ≡ file.old.header }
    {
        let bits = file.header.cluster_bits();
        let Some(cluster) = file.header.reftable_offset().checked_cluster(bits) else {
            return Err(Fault::DamagedTable);
        };
        if !is_addressable(cluster, bits) {
            return Err(Fault::DamagedTable);
        }
        let entries = file.header.reftable_entries();
        let table = RefTable::load(alloc, &mut file.image, &file.header, cluster, entries)?;
        Ok(Allocator::from_table(alloc, table, HostCluster(0)))
    }

    /// Returns an allocator over a refcount table. The search for free clusters starts at `first_free`: all clusters before it should be
    /// allocated.
    pub fn from_table(alloc: Global, table: RefTable, first_free: HostCluster) -> Allocator
        ensures table { table_of result ≡ table }
        ensures mark { first_free_of result ≡ first_free }
    {
        prove!(table.entries() <= RefTable::MAX_ENTRIES);
        Allocator {
            alloc,
            reftable: table,
            first_free_cluster: first_free,
        }
    }

    /// Returns the number of entries of the refcount table.
    pub fn reftable_entries(&self) -> usize
        ensures { result ≡ length (table_of self.now).raw_entries }
    {
        self.reftable.entries()
    }

    // Returns the cluster of the block that an entry of the refcount table references, if any.
    fn block_cluster(&self, rt_index: usize) -> Option<HostCluster>
        ensures { result ≡ referenced_block (table_of self.now) rt_index }
    {
        let bits = self.reftable.cluster_bits();
        match self.reftable.get(rt_index).refblock_offset() {
            Some(offset) => Some(offset.cluster(bits)),
            None => None,
        }
    }

    // Decrements the refcount of a cluster. The first-free hint becomes the cluster if it was greater.
    fn free_cluster<S: Storage>(
        &mut self,
        file: &mut ImageFile<S>,
        caches: &mut MetadataCaches<S>,
        cluster: HostCluster,
    ) -> Result<(), Fault>
        ensures table { table_of self.new ≡ table_of self.old }
        ensures marked { OnOk result (first_free_of self.new ≡ min (first_free_of self.old) cluster) }
        ensures stays { OnErr result (first_free_of self.new ≡ first_free_of self.old) }
        ensures lowered { DecrementsCluster S.state (table_of self.old) cluster (cached_file caches.old file.old) result
            (cached_file caches.new file.new) }
    {
        let (rt_index, rb_index) = cluster.rt_rb_indices(file.header.rb_bits());
        let Some(rb_cluster) = self.block_cluster(rt_index) else {
            return Err(Fault::DamagedTable);
        };
        counting::decrement_in(caches, file, rb_cluster, rb_index)?;
        if cluster < self.first_free_cluster {
            self.first_free_cluster = cluster;
        }
        Ok(())
    }

    // Frees the last cluster of an entry of the list, and removes it from the entry.
    fn free_last<S: Storage>(
        &mut self,
        file: &mut ImageFile<S>,
        caches: &mut MetadataCaches<S>,
        list: &mut ClustersToFreeList,
        index: usize,
    ) -> Result<(), Fault>
        requires inside { index < length list.old.entries }
        requires nonempty { 0 < (entry_at list.old.entries index).count }
        ensures frees { MayFree (order_of caches.old) (entry_at list.old.entries index)
            → Frees S.state (allocator_state self.old caches.old file.old list.old) result
            (allocator_state self.new caches.new file.new list.new) }
        ensures order { order_of caches.new ≡ order_of caches.old }
        ensures table { table_of self.new ≡ table_of self.old }
        ensures ok { OnOk result (list.new.entries ≡ shortened list.old.entries index 1) }
        ensures err { OnErr result (list.new.entries ≡ list.old.entries) }
        ensures held { list.new.held ≡ list.old.held }
    {
        let Some(last) = last_cluster(list.entry(index)) else {
            return Err(Fault::DamagedTable);
        };
        self.free_cluster(file, caches, last)?;
        list.shorten(index, ClusterCount(1));
        Ok(())
    }

    // Frees the clusters of an entry, from the last to the first, and removes the entry from the list.
    fn free_entry<S: Storage>(
        &mut self,
        file: &mut ImageFile<S>,
        caches: &mut MetadataCaches<S>,
        list: &mut ClustersToFreeList,
        index: usize,
    ) -> Result<(), Fault>
        requires inside { index < length list.old.entries }
        ensures frees { MayFree (order_of caches.old) (entry_at list.old.entries index)
            → Frees S.state (allocator_state self.old caches.old file.old list.old) result
            (allocator_state self.new caches.new file.new list.new) }
        ensures order { order_of caches.new ≡ order_of caches.old }
        ensures table { table_of self.new ≡ table_of self.old }
        ensures ok { OnOk result (list.new.entries ≡ remove list.old.entries index) }
        ensures err { OnErr result ((n : ℕ) × (n < (entry_at list.old.entries index).count)
            × (list.new.entries ≡ shortened list.old.entries index n)) }
        ensures held { list.new.held ≡ list.old.held }
    {
        let ClusterCount(count) = list.entry(index).count();
        for _ in 0..count {
            self.free_last(file, caches, list, index)?;
        }
        let _parts = list.remove(index).into_parts();
        Ok(())
    }

    // Frees the clusters of each entry of metadata.
    fn free_metadata<S: Storage>(
        &mut self,
        file: &mut ImageFile<S>,
        caches: &mut MetadataCaches<S>,
        list: &mut ClustersToFreeList,
    ) -> Result<(), Fault>
        ensures frees { Frees S.state (allocator_state self.old caches.old file.old list.old) result
            (allocator_state self.new caches.new file.new list.new) }
        ensures order { order_of caches.new ≡ order_of caches.old }
        ensures table { table_of self.new ≡ table_of self.old }
        ensures ok { OnOk result (list.new.entries ≡ data_in list.old.entries) }
        ensures left { IsRestInTurn list.old.entries list.new.entries }
        ensures idle { metadata_in list.old.entries ≡ [] → (result ≡ Ok tt) × (caches.new ≡ caches.old) × (file.new ≡ file.old)
            × (self.new ≡ self.old) }
        ensures held { list.new.held ≡ list.old.held }
    {
        while let Some(index) = list.position_of_metadata() {
            self.free_entry(file, caches, list, index)?;
        }
        Ok(())
    }

    // Frees the clusters of every entry.
    fn free_all<S: Storage>(
        &mut self,
        file: &mut ImageFile<S>,
        caches: &mut MetadataCaches<S>,
        list: &mut ClustersToFreeList,
    ) -> Result<(), Fault>
        ensures frees { order_of caches.old ≡ RbDependsOnL2
            → Frees S.state (allocator_state self.old caches.old file.old list.old) result
            (allocator_state self.new caches.new file.new list.new) }
        ensures order { order_of caches.new ≡ order_of caches.old }
        ensures table { table_of self.new ≡ table_of self.old }
        ensures ok { OnOk result (list.new.entries ≡ []) }
        ensures left { IsRest list.old.entries list.new.entries }
        ensures held { list.new.held ≡ list.old.held }
    {
        while !list.is_empty() {
            let last = list.len() - 1;
            self.free_entry(file, caches, list, last)?;
        }
        Ok(())
    }

    /// Frees the clusters on the free list: decrements their refcounts and removes the entries.
    ///
    /// Entries of metadata come first: nothing references their clusters, in the file or in memory. Then the call makes refcount blocks
    /// depend on L2 tables (tables are written first), and frees the entries of guest data. If the image has an external data file, entries
    /// of guest data are only removed: no refcount changes for them, and the write order stays. Changes of the list take no memory.
    ///
    /// # Errors
    ///
    /// - `Fault::Memory`, `Fault::Storage`.
    /// - `Fault::CacheFull` only if as many blocks are pinned (not to be evicted) as the cache can hold.
    /// - `Fault::Counter` if the refcount of a cluster is already 0, and `Fault::DamagedTable` if no block has its refcount. A consistent
    ///   image has neither.
    ///
    /// # On error
    ///
    /// Clusters that weren't freed stay on the list, even a part of an entry. A consistent image stays consistent. After `Fault::Memory` or
    /// `Fault::Storage` it does if the storage exposes its crash images and no change of the storage has failed. The file never gets
    /// shorter.
    ///
    /// # Crash safety
    ///
    /// If the storage exposes its crash images (the file after a crash between two requests) and no change of the storage has failed, each
    /// crash image of a consistent image is consistent, and the guest reads the same bytes from it.
    pub fn process_clusters_to_free<S: Storage>(
        &mut self,
        file: &mut ImageFile<S>,
        caches: &mut MetadataCaches<S>,
        list: &mut ClustersToFreeList,
    ) -> Result<(), Fault>
        ensures frees { Frees S.state (allocator_state self.old caches.old file.old list.old) result
            (allocator_state self.new caches.new file.new list.new) }
        ensures table { table_of self.new ≡ table_of self.old }
        ensures ok { OnOk result (list.new.entries ≡ []) }
        ensures left { IsRestInTurn list.old.entries list.new.entries }
        ensures external { has_external_data file.old.header.fields ≡ true → metadata_in list.old.entries ≡ [] → (result ≡ Ok tt)
            × (caches.new ≡ caches.old) × (file.new ≡ file.old) × (self.new ≡ self.old) }
        ensures order { OrdersFreeing (has_external_data file.old.header.fields) list.old.entries list.new.entries
            (order_of caches.old) result (order_of caches.new) }
        ensures held { list.new.held ≡ list.old.held }
        ensures idle { list.old.entries ≡ [] → (result ≡ Ok tt) × (caches.new ≡ caches.old) × (file.new ≡ file.old)
            × (self.new ≡ self.old) }
    {
        self.free_metadata(file, caches, list)?;
        if list.is_empty() {
            return Ok(());
        }
        if file.header.external_data_file() {
            drop_entries(list);
            return Ok(());
        }
        caches.rb_depends_on_l2(file)?;
        self.free_all(file, caches, list)
    }

    /// Allocates `count` consecutive clusters, for metadata or for guest data.
    ///
    /// It first frees the clusters on the free list (`process_clusters_to_free`). It then makes L2 tables depend on refcount blocks (blocks
    /// are written first). The first run of `count` free clusters from the first-free hint on is allocated: the refcount of each becomes 1.
    /// No table references any of them, in the file or in memory. If `count` is 0, the run is empty and starts at the hint.
    ///
    /// The caller must consume both parts of the result: the clusters, and a reserved slot (memory for their entry on the free list). Once
    /// a table references the clusters, call `make_persistent` on them and `release` on the list; or return both with `give_back`. The slot
    /// is reserved first, so running out of memory for it changes nothing.
    ///
    /// # Errors
    ///
    /// - `Fault::Limit` only if no free run from the hint on has a sixteenth of the space plus `3 * count` clusters. The space is the
    ///   number of clusters that a file can have. So no quarter of the space is free in one run from the hint on, or `count` is more than a
    ///   sixteenth of the space. The fault's number is the last cluster of the first free run, or 2^64 - 1 if that is less. The offset of
    ///   that cluster doesn't fit an entry, or the refcount table has no entry for it. If growing the table failed, the number is that of
    ///   `grow_reftable`.
    /// - `Fault::Memory`, `Fault::Storage`.
    /// - `Fault::CacheFull` only if a block is pinned (not to be evicted). If the image is consistent and its refcount table references
    ///   each pinned block, only if as many blocks are pinned as the cache can hold. Clusters may have leaked.
    /// - `Fault::Counter`, `Fault::DamagedTable` only if the image isn't consistent.
    ///
    /// # On error
    ///
    /// Nothing is allocated for the caller, and no slot stays reserved. On success and on error, blocks may have been made, and the
    /// refcount table may have grown and moved; the old table's clusters are on the free list then. After `Fault::Memory` or
    /// `Fault::Storage` the image may no longer be consistent in memory: treat it as failed.
    ///
    /// # Crash safety
    ///
    /// If the storage exposes its crash images (the file after a crash between two requests) and no change of the storage has failed, each
    /// crash image of a consistent image is consistent, and the guest reads the same bytes from it.
    pub fn allocate_clusters<S: Storage>(
        &mut self,
        file: &mut ImageFile<S>,
        caches: &mut MetadataCaches<S>,
        list: &mut ClustersToFreeList,
        count: ClusterCount,
        metadata: bool,
    ) -> Result<PendingAllocation, Fault>
        ensures allocates { AllocatesClusters S.state count metadata (allocator_state self.old caches.old file.old list.old) result
            (allocator_state self.new caches.new file.new list.new) }
        ensures held { list.new.held ≡ held_by result list.old.held }
    {
        let mut begun = false;
        self.try_allocate_clusters(file, caches, list, count, metadata, &mut begun)
    }

    /// Like `allocate_clusters`, but sets `begun` before its first change.
    ///
    /// # On error
    ///
    /// If `begun` isn't set, the allocator, the list's entries and the header are unchanged. If the caches were clean, they still are, and
    /// no byte of the file has changed.
    pub fn try_allocate_clusters<S: Storage>(
        &mut self,
        file: &mut ImageFile<S>,
        caches: &mut MetadataCaches<S>,
        list: &mut ClustersToFreeList,
        count: ClusterCount,
        metadata: bool,
        begun: &mut bool,
    ) -> Result<PendingAllocation, Fault>
        ensures allocates { AllocatesClusters S.state count metadata (allocator_state self.old caches.old file.old list.old) result
            (allocator_state self.new caches.new file.new list.new) }
        ensures begins { 0 < count → OnOk result (begun.new ≡ true) }
        ensures untouched_unless_begun { LeavesUntouched S.state begun.old begun.new self.old (seen self.old caches.old file.old list.old) self.new
            (seen self.new caches.new file.new list.new) }
        ensures held { list.new.held ≡ held_by result list.old.held }
    {
        let hold = list.reserve_slot()?;
        match self.free_and_allocate(file, caches, list, count, metadata, begun) {
            Ok(pending) => Ok(PendingAllocation { pending, hold }),
            Err(fault) => {
                list.release(hold);
                Err(fault)
            }
        }
    }

    /// Allocates one given cluster for guest data if it is free.
    ///
    /// It first makes L2 tables depend on refcount blocks (blocks are written first). It doesn't free the clusters on the free list.
    ///
    /// It returns `None` if the cluster isn't free, or if the call itself has used the cluster for a block or for the refcount table. It
    /// also returns `None` if the cluster's offset doesn't fit an entry, or if the refcount table has no entry for the cluster and can't
    /// grow that far.
    ///
    /// The caller must consume both parts of the result, the clusters and the reserved slot, as for `allocate_clusters`.
    ///
    /// # Errors
    ///
    /// - `Fault::Memory`, `Fault::Storage`.
    /// - `Fault::CacheFull` only if a block is pinned (not to be evicted). If the image is consistent and its refcount table references
    ///   each pinned block, only if as many blocks are pinned as the cache can hold. Clusters may have leaked.
    /// - `Fault::Counter`, `Fault::DamagedTable` only if the image isn't consistent.
    ///
    /// # On error
    ///
    /// Nothing is allocated for the caller, and no slot stays reserved. On success and on error, a block may have been made, and the
    /// refcount table may have grown and moved; the old table's clusters are on the free list then. After `Fault::Memory` or
    /// `Fault::Storage` the image may no longer be consistent in memory: treat it as failed.
    ///
    /// # Crash safety
    ///
    /// If the storage exposes its crash images (the file after a crash between two requests) and no change of the storage has failed, each
    /// crash image of a consistent image is consistent, and the guest reads the same bytes from it.
    pub fn allocate_cluster_at<S: Storage>(
        &mut self,
        file: &mut ImageFile<S>,
        caches: &mut MetadataCaches<S>,
        list: &mut ClustersToFreeList,
        cluster: HostCluster,
    ) -> Result<Option<PendingAllocation>, Fault>
        ensures allocates { AllocatesClusterAt S.state cluster (allocator_state self.old caches.old file.old list.old) result
            (allocator_state self.new caches.new file.new list.new) }
        ensures held { list.new.held ≡ held_at result list.old.held }
    {
        let hold = list.reserve_slot()?;
        match self.announce_and_allocate_at(file, caches, list, cluster) {
            Ok(Some(pending)) => Ok(Some(PendingAllocation { pending, hold })),
            Ok(None) => {
                list.release(hold);
                Ok(None)
            }
            Err(fault) => {
                list.release(hold);
                Err(fault)
            }
        }
    }

    /// Grows the refcount table until it has an entry at `index`, which moves the table. Its old clusters are added to the free list.
    ///
    /// The call first makes L2 tables depend on refcount blocks (blocks are written first). The new length is the least one that fills
    /// whole clusters and can count these clusters. The table goes to the first free area: a free run that is long enough for the table and
    /// for the blocks that are missing for the area. The search for the area starts at the first-free hint, or at the end of what the old
    /// table can count if that comes first. The missing blocks are written to the area's first clusters, and the table after them.
    ///
    /// Memory for the grown copy, and for the old clusters' entry on the list, is taken first. So running out of memory for these changes
    /// nothing.
    ///
    /// # Preconditions
    ///
    /// The table has no entry at `index` yet.
    ///
    /// # Errors
    ///
    /// - `Fault::Limit` if the table would have more than 2^20 entries; its number is 2^20 plus the entries of a cluster. Also if the free
    ///   area ends at a cluster whose offset doesn't fit an entry, or that the grown table can't count; its number is that cluster.
    /// - `Fault::Memory`, `Fault::Storage`.
    /// - `Fault::CacheFull` only if a block is pinned (not to be evicted). If the image is consistent and its refcount table references
    ///   each pinned block, only if as many blocks are pinned as the cache can hold. Clusters may have leaked.
    /// - `Fault::Counter`, `Fault::DamagedTable` only if the image isn't consistent.
    ///
    /// # On error
    ///
    /// The list is unchanged. The table and the header are unchanged, too, except after `Fault::Memory` or `Fault::Storage`: then the image
    /// may no longer be consistent in memory, so treat it as failed.
    ///
    /// # Crash safety
    ///
    /// If the storage exposes its crash images (the file after a crash between two requests) and no change of the storage has failed, each
    /// crash image of a consistent image is consistent, and the guest reads the same bytes from it.
    pub fn grow_reftable<S: Storage>(
        &mut self,
        file: &mut ImageFile<S>,
        caches: &mut MetadataCaches<S>,
        list: &mut ClustersToFreeList,
        index: usize,
    ) -> Result<(), Fault>
        requires past { length (table_of self.old).raw_entries ≤ index }
        ensures grows { GrowsReftable S.state index (allocator_state self.old caches.old file.old list.old) result
            (allocator_state self.new caches.new file.new list.new) }
        ensures held { list.new.held ≡ list.old.held }
    {
        let copy = self.grown_copy(&file.header, index)?;
        let hold = list.reserve_slot()?;
        match caches.l2_depends_on_rb(file) {
            Ok(()) => self.place_grown(file, caches, list, hold, copy),
            Err(fault) => {
                list.release(hold);
                Err(fault)
            }
        }
    }

    /// Drops each refcount block that isn't pinned from its cache, without writing it. Changes of dirty blocks are lost. If no block is
    /// dirty, the invariant of the caches (`WellFormed`) is kept.
    ///
    /// # Errors
    ///
    /// - `Fault::CacheFull` if a pinned block is still cached. The other blocks are dropped.
    pub fn invalidate_rb_cache<S: Storage>(
        &self,
        caches: &mut MetadataCaches<S>,
    ) -> Result<(), Fault>
        ensures dropped { Dropped (cached_in caches.old).blocks result (cached_in caches.new).blocks }
        ensures others { (caches.new.l2 ≡ caches.old.l2) × (caches.new.order ≡ caches.old.order) }
        ensures room { HasRoomOf caches.old caches.new }
        ensures well_formed { AreBlocksClean (cached_in caches.old)
            → StaysWellFormed (cached_in caches.old) (cached_in caches.new) (order_of caches.old) }
    {
        caches.invalidate_rb()
    }
}

// Returns the last cluster of an entry, or `None` if its number doesn't fit in 64 bits.
fn last_cluster(entry: &ClustersToFreeEntry) -> Option<HostCluster>
    requires { 0 < entry.now.count }
    ensures { MatchOption result (2 ^ 64 ≤ entry.now.first + (entry.now.count - 1)) (λ last.
        last ≡ entry.now.first + (entry.now.count - 1)) }
{
    let HostCluster(first) = entry.first_cluster();
    let ClusterCount(count) = entry.count();
    match first.checked_add(count - 1) {
        Some(last) => Some(HostCluster(last)),
        None => None,
    }
}

// Removes every entry of a list.
fn drop_entries(list: &mut ClustersToFreeList)
    ensures { list.new ≡ record { entries = []; held = list.old.held } }
{
    while !list.is_empty() {
        let last = list.len() - 1;
        let _parts = list.remove(last).into_parts();
    }
}
