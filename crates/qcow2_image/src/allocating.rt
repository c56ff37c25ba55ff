// Allocates clusters for guest clusters that can't be written in place. Before that the L1 table is made long enough, and the L2 table is
// made or copied, so that it isn't shared. Definitions: specs/Allocating.antt.
ghost use Rattle.std.specs.Prelude.{◌≡◌, ◌<◌, ◌+◌, ◌*◌, ◌/◌, ◌^◌, ℕ, false, None, Some, length, replicate, IfSome, IsTrue};
ghost use Rattle.qcow2_types.specs.Header.{cluster_size};
ghost use Rattle.qcow2_image.specs.Allocating.{Begins, EnsuresTable, EnsuresEntry, FillsContent, FlushesFreed, FreesPending, IsShownAddressable, LoadsSpace, PlacesContent, StoresContent, StoresMost, TellsKept, TellsShown, failed_by_resource_error, full_by, kept_by, placed_by, shown_of, waits_in};
ghost use Rattle.qcow2_image.specs.FreeSpace.{enough_for_one, enough_for_table};
ghost use Rattle.qcow2_image.specs.Growing.{StoresZeroes};
ghost use Rattle.qcow2_metadata.specs.Places.{IsAddressable};
ghost use Rattle.qcow2_types.specs.Entries.{l2_entries};
ghost use Rattle.qcow2_metadata.specs.MappingView.{IsHostAddressable, mapping_seen};
ghost use Rattle.qcow2_clusters.specs.MakingTables.{CopiesTable, MakesTable};
ghost use Rattle.qcow2_clusters.specs.Flushed.{AreEmpty, HasEntries, clusters_state};
ghost use Rattle.qcow2_clusters.specs.LeftUntouched.{LeavesTopUntouched};
ghost use Rattle.qcow2_clusters.specs.Storing.{Rests};

use crate::lookup::{l2_cluster, look_up};
use crate::qcow2::Qcow2;
use crate::reloading::drop_cached;
use imago_storage::{Fault, PreallocateMode as StorageMode, Storage};
use qcow2_alloc::{ImageFile, MetadataCaches};
use qcow2_clusters::{
    Space, Stored, copy_table, fill, free_pending_clusters, make_table, store_run, store_zeroes,
};
use qcow2_metadata::{L1Table, L2Mapping, Table};
use qcow2_types::{ClusterCount, GuestCluster, HostCluster};
use std::alloc::Global;

// The content of a guest cluster: zeroes, the layers below, the data of a cluster of the file, or bytes that can't be read.
#[derive(Clone, Copy)]
pub(crate) enum Shown {
    Zeroes,
    Below,
    Data(HostCluster),
    Barred,
}

// The location of the data of consecutive guest clusters: the first of `count` consecutive host clusters, and whether it is a preallocated
// zero cluster.
#[derive(Clone, Copy)]
pub(crate) struct Placed {
    pub(crate) host: HostCluster,
    pub(crate) count: ClusterCount,
    pub(crate) is_kept: bool,
}

// Returns true if no free run was found for what should be stored.
fn is_full(stored: &Result<HostCluster, Fault>) -> bool
    ensures { result ≡ full_by stored.now }
{
    matches!(stored, Err(Fault::Limit(_)))
}

// Returns the first of the clusters in which bytes were stored. The reserved slot stays on the free list, since a prepared mapping may be
// dropped with its image.
fn host_of(stored: Result<Stored, Fault>) -> Result<HostCluster, Fault>
    ensures { result ≡ stored }
{
    let stored = stored?;
    Ok(stored.leave_slot())
}

// Returns the result of storing in `count` newly allocated clusters.
fn as_placed(stored: Result<HostCluster, Fault>, count: ClusterCount) -> Result<Placed, Fault>
    ensures { result ≡ placed_by count stored }
{
    let host = stored?;
    Ok(Placed {
        host,
        count,
        is_kept: false,
    })
}

// Returns where a guest cluster with this mapping is read from.
fn shown_through(mapping: L2Mapping, backing: bool) -> Shown
    ensures shown { Some result ≡ shown_of backing (mapping_seen mapping) }
    ensures reach { (cluster_bits : ℕ) → IsHostAddressable cluster_bits mapping → IsShownAddressable cluster_bits result }
{
    match mapping {
        L2Mapping::Backing { .. } if backing => Shown::Below,
        L2Mapping::Backing { .. } | L2Mapping::Zero { .. } => Shown::Zeroes,
        L2Mapping::Compressed { .. } => Shown::Barred,
        L2Mapping::DataFile { host_cluster, .. } => Shown::Data(host_cluster),
    }
}

// Returns the preallocated zero cluster of a mapping, if it has one with the COPIED flag.
fn kept_through(mapping: L2Mapping) -> Option<HostCluster>
    ensures kept_host { result ≡ kept_by (mapping_seen mapping) }
    ensures reach { (cluster_bits : ℕ) → IsHostAddressable cluster_bits mapping → IfSome result (IsAddressable cluster_bits) }
{
    match mapping {
        L2Mapping::Zero {
            host_cluster,
            copied: true,
        } => host_cluster,
        _ => None,
    }
}

// Makes the L1 entry at an index reference a new L2 table: a copy of the old one, or an empty table.
fn new_table<S: Storage>(
    alloc: Global,
    file: &mut ImageFile<S>,
    caches: &mut MetadataCaches<S>,
    space: &mut Space,
    l1: &mut L1Table,
    index: usize,
    is_copy: bool,
    begun: &mut bool,
) -> Result<HostCluster, Fault>
    requires caches_empty { AreEmpty caches.old }
    requires room { HasEntries caches.old }
    requires bounds { index < length l1.old.raw_entries }
    ensures copies { IsTrue is_copy → CopiesTable S.state l1.old index (clusters_state file.old caches.old space.old) result l1.new
        (clusters_state file.new caches.new space.new) }
    ensures makes { is_copy ≡ false → MakesTable S.state l1.old index (clusters_state file.old caches.old space.old) result l1.new
        (clusters_state file.new caches.new space.new) }
    ensures rests { Rests S.state (clusters_state file.old caches.old space.old) result (clusters_state file.new caches.new space.new) }
    ensures untouched_unless_begun { LeavesTopUntouched S.state begun.old l1.old (clusters_state file.old caches.old space.old) result begun.new l1.new
        (clusters_state file.new caches.new space.new) }
{
    if is_copy {
        copy_table(alloc, file, caches, space, l1, index, begun)
    } else {
        make_table(alloc, file, caches, space, l1, index, begun)
    }
}

impl<S: Storage> Qcow2<S> {
    // Returns the result of a change, after it has set the image to failed if needed. A storage fault always does, and running out of
    // memory does if the change had begun, as a part may have been done.
    pub(crate) fn mark_change_fault<T>(
        &mut self,
        answer: Result<T, Fault>,
        begun: bool,
    ) -> Result<T, Fault>
        ensures same { result ≡ answer }
        ensures marks_failed { self.new ≡ record self.old { failed = failed_by_resource_error answer begun self.old.failed } }
    {
        match answer {
            Err(Fault::Storage) => self.failed = true,
            Err(Fault::Memory) if begun => self.failed = true,
            _ => {}
        }
        answer
    }

    // Returns where a guest cluster is read from.
    pub(crate) fn shown_at(&mut self, guest: GuestCluster) -> Result<Shown, Fault>
        requires fits { let bits = self.old.tables.file.header.fields.cluster_bits in (guest + 1) * 2 ^ bits < 2 ^ 64 + 2 ^ bits }
        requires runs { self.old.failed ≡ false }
        ensures { TellsShown S.Storage guest self.old result self.new }
    {
        prove!(self.tables.file.header.cluster_bits() >= 9);
        match look_up(&mut self.tables, guest, 1) {
            Ok((mapping, _count)) => Ok(shown_through(mapping, self.mode.backing)),
            Err(fault) => {
                self.mark(fault);
                Err(fault)
            }
        }
    }

    // Returns the preallocated zero cluster of a guest cluster, if it has one with the COPIED flag.
    pub(crate) fn kept_at(&mut self, guest: GuestCluster) -> Result<Option<HostCluster>, Fault>
        requires fits { let bits = self.old.tables.file.header.fields.cluster_bits in (guest + 1) * 2 ^ bits < 2 ^ 64 + 2 ^ bits }
        requires runs { self.old.failed ≡ false }
        ensures { TellsKept S.Storage guest self.old result self.new }
    {
        prove!(self.tables.file.header.cluster_bits() >= 9);
        match look_up(&mut self.tables, guest, 1) {
            Ok((mapping, _count)) => Ok(kept_through(mapping)),
            Err(fault) => {
                self.mark(fault);
                Err(fault)
            }
        }
    }

    // Loads the free space, if it isn't loaded yet.
    pub(crate) fn load_space(&mut self, alloc: Global) -> Result<(), Fault>
        ensures { LoadsSpace S.Storage self.old result self.new }
    {
        if self.tables.space.is_some() {
            return Ok(());
        }
        match Space::load(alloc, &mut self.tables.file) {
            Ok(space) => {
                self.tables.space = Some(space);
                Ok(())
            }
            Err(fault) => {
                self.mark(fault);
                Err(fault)
            }
        }
    }

    // Ensures that the L1 table has an entry at this index. A table that is too short is replaced by a longer one.
    fn ensure_entry(&mut self, alloc: Global, index: usize, begun: &mut bool) -> Result<(), Fault>
        requires free { self.old.unspent ≡ None }
        ensures raw_entry { EnsuresEntry S.Storage index self.old result self.new }
        ensures begins { Begins S.Storage begun.old self.old result begun.new self.new }
    {
        if index < self.tables.l1.entries() {
            return Ok(());
        }
        self.move_l1(alloc, index, begun)
    }

    // Returns the cluster of an L2 table that isn't shared, for a guest cluster that has an L1 entry. A missing table is made. A table that
    // may be shared, as its L1 entry has no COPIED flag, is replaced by a copy.
    pub(crate) fn own_table(
        &mut self,
        alloc: Global,
        guest: GuestCluster,
        begun: &mut bool,
    ) -> Result<HostCluster, Fault>
        requires free { self.old.unspent ≡ None }
        requires inside { guest / l2_entries self.old.tables.file.header.fields.cluster_bits < length self.old.tables.l1.raw_entries }
        ensures table { EnsuresTable S.Storage (enough_for_one self.old.tables) guest self.old result self.new }
        ensures begins { Begins S.Storage begun.old self.old result begun.new self.new }
    {
        let cluster_bits = self.tables.file.header.cluster_bits();
        let index = guest.l1_index(cluster_bits);
        let named = l2_cluster(&self.tables.l1, guest, cluster_bits);
        let is_copy = named.is_some();
        if let Some(table) = named {
            if self.tables.l1.get(index).is_copied() {
                return Ok(table);
            }
        }
        let Some(space) = &mut self.tables.space else {
            return Err(Fault::DamagedTable);
        };
        let _dropped = drop_cached(&mut self.tables.caches);
        let made = new_table(
            alloc,
            &mut self.tables.file,
            &mut self.tables.caches,
            space,
            &mut self.tables.l1,
            index,
            is_copy,
            begun,
        );
        self.mark_change_fault(made, *begun)
    }

    // Returns the cluster of a guest cluster's L2 table, which isn't shared afterwards. The L1 table is lengthened first if it has no entry
    // for the guest cluster.
    pub(crate) fn ensure_table(
        &mut self,
        alloc: Global,
        guest: GuestCluster,
        begun: &mut bool,
    ) -> Result<HostCluster, Fault>
        requires free { self.old.unspent ≡ None }
        ensures table { EnsuresTable S.Storage (enough_for_table self.old.tables guest) guest self.old result self.new }
        ensures begins { Begins S.Storage begun.old self.old result begun.new self.new }
    {
        let index = guest.l1_index(self.tables.file.header.cluster_bits());
        self.ensure_entry(alloc, index, begun)?;
        self.own_table(alloc, guest, begun)
    }

    // Stores the data of a guest cluster in the first of `count` consecutive clusters, which are newly allocated.
    pub(crate) fn store_content(
        &mut self,
        alloc: Global,
        content: &[u8],
        count: ClusterCount,
        begun: &mut bool,
    ) -> Result<HostCluster, Fault>
        requires whole { length content.now ≡ cluster_size self.old.tables.file.header.fields }
        requires any { 0 < count }
        requires free { self.old.unspent ≡ None }
        ensures stores { StoresContent S.Storage count content.now self.old result self.new }
        ensures begins { Begins S.Storage begun.old self.old result begun.new self.new }
    {
        let Some(space) = &mut self.tables.space else {
            return Err(Fault::DamagedTable);
        };
        let _dropped = drop_cached(&mut self.tables.caches);
        let stored = store_run(
            alloc,
            &mut self.tables.file,
            &mut self.tables.caches,
            space,
            content,
            count,
            begun,
        );
        host_of(self.mark_change_fault(stored, *begun))
    }

    // Writes the data of a guest cluster to its preallocated zero cluster.
    fn fill_content(
        &mut self,
        alloc: Global,
        host: HostCluster,
        content: &[u8],
        begun: &mut bool,
    ) -> Result<(), Fault>
        requires whole { length content.now ≡ cluster_size self.old.tables.file.header.fields }
        requires host_addressable { IsAddressable self.old.tables.file.header.fields.cluster_bits host }
        requires free { self.old.unspent ≡ None }
        ensures fills { (guest : ℕ) → FillsContent S.Storage guest host content.now self.old result self.new }
        ensures begins { Begins S.Storage begun.old self.old result begun.new self.new }
    {
        if self.tables.space.is_none() {
            return Err(Fault::DamagedTable);
        }
        let _dropped = drop_cached(&mut self.tables.caches);
        let filled = fill(alloc, &mut self.tables.file, host, content, begun);
        self.mark_change_fault(filled, *begun)
    }

    // Stores the data of a guest cluster in the first of `count` new clusters, or in a single one if no such run is free.
    fn store_most(
        &mut self,
        alloc: Global,
        content: &[u8],
        count: ClusterCount,
        begun: &mut bool,
    ) -> Result<Placed, Fault>
        requires whole { length content.now ≡ cluster_size self.old.tables.file.header.fields }
        requires any { 0 < count }
        requires free { self.old.unspent ≡ None }
        ensures stores { StoresMost S.Storage count content.now self.old result self.new }
        ensures begins { Begins S.Storage begun.old self.old result begun.new self.new }
    {
        let stored = self.store_content(alloc, content, count, begun);
        if count.0 == 1 {
            return as_placed(stored, count);
        }
        if is_full(&stored) {
            let one = self.store_content(alloc, content, ClusterCount(1), begun);
            return as_placed(one, ClusterCount(1));
        }
        as_placed(stored, count)
    }

    // Stores zeroes in `count` consecutive clusters, which are newly allocated. The storage mode says how.
    fn store_zeroes(
        &mut self,
        alloc: Global,
        count: ClusterCount,
        mode: StorageMode,
        begun: &mut bool,
    ) -> Result<HostCluster, Fault>
        requires any { 0 < count }
        requires free { self.old.unspent ≡ None }
        ensures stores { let n = count * cluster_size self.old.tables.file.header.fields in
            StoresContent S.Storage count (replicate n 0) self.old result self.new }
        ensures begins { Begins S.Storage begun.old self.old result begun.new self.new }
    {
        let Some(space) = &mut self.tables.space else {
            return Err(Fault::DamagedTable);
        };
        let _dropped = drop_cached(&mut self.tables.caches);
        let stored = store_zeroes(
            alloc,
            &mut self.tables.file,
            &mut self.tables.caches,
            space,
            count,
            mode,
            begun,
        );
        host_of(self.mark_change_fault(stored, *begun))
    }

    // Stores zeroes in `count` new clusters, or in a single one if no such run is free.
    pub(crate) fn store_most_zeroes(
        &mut self,
        alloc: Global,
        count: ClusterCount,
        mode: StorageMode,
        begun: &mut bool,
    ) -> Result<Placed, Fault>
        requires any { 0 < count }
        requires free { self.old.unspent ≡ None }
        ensures stores { StoresZeroes S.Storage count self.old result self.new }
        ensures begins { Begins S.Storage begun.old self.old result begun.new self.new }
    {
        let stored = self.store_zeroes(alloc, count, mode, begun);
        if count.0 == 1 {
            return as_placed(stored, count);
        }
        if is_full(&stored) {
            let one = self.store_zeroes(alloc, ClusterCount(1), mode, begun);
            return as_placed(one, ClusterCount(1));
        }
        as_placed(stored, count)
    }

    // Puts the data of a guest cluster in its preallocated zero cluster, if `kept` is given. Otherwise it is stored in the first of at most
    // `count` consecutive new clusters.
    pub(crate) fn place_content(
        &mut self,
        alloc: Global,
        kept: Option<HostCluster>,
        content: &[u8],
        count: ClusterCount,
        begun: &mut bool,
    ) -> Result<Placed, Fault>
        requires whole { length content.now ≡ cluster_size self.old.tables.file.header.fields }
        requires host_addressable { IfSome kept (λ host. IsAddressable self.old.tables.file.header.fields.cluster_bits host) }
        requires any { 0 < count }
        requires free { self.old.unspent ≡ None }
        ensures places { (guest : ℕ) → PlacesContent S.Storage guest kept count content.now self.old result self.new }
        ensures begins { Begins S.Storage begun.old self.old result begun.new self.new }
    {
        match kept {
            Some(host) => {
                self.fill_content(alloc, host, content, begun)?;
                Ok(Placed {
                    host,
                    count: ClusterCount(1),
                    is_kept: true,
                })
            }
            None => self.store_most(alloc, content, count, begun),
        }
    }

    // Returns true if the list of clusters to free isn't empty.
    pub(crate) fn has_pending_frees(&self) -> bool
        ensures { result ≡ waits_in self.now.tables.space }
    {
        match &self.tables.space {
            Some(space) => !space.to_free.is_empty(),
            None => false,
        }
    }

    // Frees the clusters on the free list. A resource error sets the image to failed.
    pub(crate) fn free_pending(&mut self) -> Result<(), Fault>
        ensures { FreesPending S.Storage self.old result self.new }
    {
        if !self.has_pending_frees() {
            return Ok(());
        }
        let Some(space) = &mut self.tables.space else {
            return Ok(());
        };
        let _dropped = drop_cached(&mut self.tables.caches);
        let freed = free_pending_clusters(&mut self.tables.file, &mut self.tables.caches, space);
        self.mark_change_fault(freed, true)
    }

    // Frees the clusters on the free list, and then flushes the file. A resource error sets the image to failed.
    pub(crate) fn flush_freed(&mut self) -> Result<(), Fault>
        ensures { FlushesFreed S.Storage self.old result self.new }
    {
        self.free_pending()?;
        let answer = self.tables.file.image.flush();
        self.mark_change_fault(answer, true)
    }
}
