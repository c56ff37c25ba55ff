//! Makes missing refcount blocks, and writes new blocks to clusters that nothing references yet. A new block is placed in a cluster that an
//! earlier block counts (has the refcount of), or in the first cluster that it counts itself.
ghost use Rattle.std.specs.Prelude.{IsTrue, ◌≡◌, ◌≢◌, ◌≤◌, ◌<◌, ◌*◌, ◌+◌, ◌/◌, ◌%◌, ◌^◌, ℕ, List, Some, true, OnOk, IfOk, IfErr, IsOkUnless, Err, length, replicate, slice_index, slice_set, ◌-◌};
ghost use Rattle.qcow2_metadata.specs.Blocks.{block_of};
ghost use Rattle.qcow2_metadata.specs.Places.{IsAddressable, IsPlaced, place_of};
ghost use Rattle.qcow2_metadata.specs.Tables.{IsPlacedTable, CanBeReferenced};
ghost use Rattle.qcow2_types.specs.Counts.{counters_of_block};
ghost use Rattle.qcow2_types.specs.Header.{cluster_size};
ghost use Rattle.qcow2_types.specs.Pending.{FreeEntry};
ghost use Rattle.qcow2_types.specs.Words.{block_offset};
ghost use Rattle.qcow2_alloc.specs.Allocating.{MakesBlock};
ghost use Rattle.qcow2_alloc.specs.declared.cache.CacheDependency.TheVariants.{L2DependsOnRb};
ghost use Rattle.qcow2_alloc.specs.Allocators.{metadata_of, table_of, first_free_of};
ghost use Rattle.qcow2_alloc.specs.Caches.{order_of};
ghost use Rattle.qcow2_alloc.specs.FillingBlocks.{IsBlockPlaced};
ghost use Rattle.qcow2_alloc.specs.GuestView.{IsSound};
ghost use Rattle.qcow2_alloc.specs.MakingBlocks.{CanReference, naming_causes, LinksWritten, MakesIn};
ghost use Rattle.qcow2_alloc.specs.State.{image_state};
ghost use Rattle.qcow2_alloc.specs.FreeList.{covers};
ghost use Rattle.qcow2_alloc.specs.Growing.{lacking};
ghost use Rattle.qcow2_alloc.specs.MakingRoom.{run_of};
ghost use Rattle.qcow2_alloc.specs.NewBlocks.{CountsItsOwn, WritesBlockTo, WritesLacking};
ghost use Rattle.qcow2_alloc.specs.Scanning.{next_of};
ghost use Rattle.qcow2_alloc.specs.Causes.{HasCause};

use crate::allocation::Allocator;
use crate::allocation::searching::Run;
use crate::cache::MetadataCaches;
use crate::file::{ImageFile, is_addressable};
use imago_storage::{Fault, Storage};
use qcow2_metadata::{Header, RefBlock, Table};
use qcow2_types::{ClusterCount, ClustersToFreeEntry, HostCluster, PendingClusters};
use std::alloc::Global;

impl Allocator {
    // Makes the missing block at an index of the refcount table. It takes the first free cluster from the first-free hint on that an
    // earlier block counts; otherwise the first cluster that the new block counts itself.
    //
    // The call fails with `Fault::Limit` if that cluster isn't addressable; with `Fault::Memory`; with `Fault::Storage`; with
    // `Fault::CacheFull` like the public calls; and with `Fault::Counter` and `Fault::DamagedTable`, which a consistent image rules out. If
    // the call fails without a resource error (`Fault::Memory`, `Fault::Storage`), nothing is allocated.
    pub(super) fn make_block<S: Storage>(
        &mut self,
        file: &mut ImageFile<S>,
        caches: &mut MetadataCaches<S>,
        index: usize,
    ) -> Result<(), Fault>
        requires inside { index < length (table_of self.old).raw_entries }
        requires empty { block_offset (slice_index (table_of self.old).raw_entries index) ≡ 0 }
        ensures makes { (pending : List FreeEntry)
            → MakesBlock S.state index (image_state (table_of self.old) caches.old file.old pending) result
            (image_state (table_of self.new) caches.new file.new pending) }
        ensures placed { (pending : List FreeEntry) → order_of caches.old ≡ L2DependsOnRb → IsTrue (S.state file.old.image).shape.keeps
            → IsSound (metadata_of S.state file.old caches.old (table_of self.old) pending)
            → OnOk result (IsBlockPlaced (first_free_of self.old) index (metadata_of S.state file.old caches.old (table_of self.old) pending)
            (metadata_of S.state file.new caches.new (table_of self.new) pending)) }
        ensures mark { first_free_of self.new ≡ first_free_of self.old }
    {
        match self.find_counted(file, caches, self.first_free_cluster, index)? {
            Some(place) => self.make_counted_block(file, caches, index, place),
            None => self.make_own_block(file, caches, index),
        }
    }

    // Checks that an entry of the refcount table can reference a cluster, and that the table itself can be written.
    //
    // The call fails with `Fault::Limit` if the cluster isn't addressable. It fails with `Fault::DamagedTable` if it is cluster 0, or if
    // the table has no valid offset.
    pub(super) fn check_place(&self, bits: u32, place: HostCluster) -> Result<(), Fault>
        requires { bits ≤ 21 }
        ensures ok { OnOk result (CanReference (table_of self.now) bits place × IsAddressable bits place) }
        ensures err { IfErr result (HasCause (naming_causes (table_of self.now) bits place)) }
        ensures memory { result ≡ Err Fault.Memory → ⊥ }
    {
        let Some(table) = self.reftable.get_cluster() else {
            return Err(Fault::DamagedTable);
        };
        if place == HostCluster(0)
            || self.reftable.cluster_bits() != bits
            || !is_addressable(table, bits)
        {
            return Err(Fault::DamagedTable);
        }
        if !is_addressable(place, bits) {
            return Err(Fault::Limit(place.0));
        }
        Ok(())
    }

    // Returns the first cluster that the block at an index of the refcount table counts.
    fn own_place(&self, index: usize, header: &Header) -> HostCluster
        requires { index < length (table_of self.now).raw_entries }
        ensures first { result ≡ index * counters_of_block header.now.fields }
        ensures own { result / counters_of_block header.now.fields ≡ index }
    {
        HostCluster::from_ref_indices(index, 0, header.rb_bits())
    }

    // Writes a new block to its cluster, and then the entry of the refcount table that references it. `taken` is the cluster if another
    // block counts it.
    fn write_block<S: Storage>(
        &mut self,
        file: &mut ImageFile<S>,
        index: usize,
        mut block: RefBlock,
        taken: Option<HostCluster>,
    ) -> Result<(), Fault>
        requires inside { index < length (table_of self.old).raw_entries }
        requires placed { IsPlacedTable (table_of self.old) }
        requires bits { block.cluster_bits ≡ (table_of self.old).layout.cluster_bits }
        requires can_be_referenced { CanBeReferenced (table_of self.old).layout.cluster_bits block.cluster }
        ensures names { LinksWritten (table_of self.old) index block (S.state file.old.image) result (table_of self.new)
            (S.state file.new.image) }
        ensures header { file.new.header ≡ file.old.header }
        ensures mark { first_free_of self.new ≡ first_free_of self.old }
    {
        block.write(self.alloc, &mut file.image)?;
        let pending = match taken {
            Some(cluster) => Some(pending_cluster(cluster)),
            None => None,
        };
        self.reftable.enter_refblock(index, &block, pending);
        self.reftable
            .write_entry(self.alloc, &mut file.image, index)
    }

    // Makes a block in the first cluster that it counts itself.
    fn make_own_block<S: Storage>(
        &mut self,
        file: &mut ImageFile<S>,
        caches: &mut MetadataCaches<S>,
        index: usize,
    ) -> Result<(), Fault>
        requires inside { index < length (table_of self.old).raw_entries }
        requires empty { block_offset (slice_index (table_of self.old).raw_entries index) ≡ 0 }
        ensures makes { (pending : List FreeEntry)
            → MakesBlock S.state index (image_state (table_of self.old) caches.old file.old pending) result
            (image_state (table_of self.new) caches.new file.new pending) }
        ensures at { OnOk result ((index * counters_of_block file.old.header.fields ≢ 0)
            × (block_offset (slice_index (table_of self.new).raw_entries index)
            ≡ index * counters_of_block file.old.header.fields * cluster_size file.old.header.fields)) }
        ensures mark { first_free_of self.new ≡ first_free_of self.old }
    {
        let place = self.own_place(index, &file.header);
        self.check_place(file.header.cluster_bits(), place)?;
        let block = own_block(self.alloc, &file.header, place)?;
        // A block that is cached for this cluster is stale.
        caches.rb_forget(place)?;
        self.write_block(file, index, block, None)
    }

    // Makes a block in a free cluster that another block counts. The cluster's refcount is in the file before an entry references the
    // block.
    fn make_counted_block<S: Storage>(
        &mut self,
        file: &mut ImageFile<S>,
        caches: &mut MetadataCaches<S>,
        index: usize,
        place: HostCluster,
    ) -> Result<(), Fault>
        requires inside { index < length (table_of self.old).raw_entries }
        requires empty { block_offset (slice_index (table_of self.old).raw_entries index) ≡ 0 }
        ensures makes { (pending : List FreeEntry)
            → MakesIn S.state index place (image_state (table_of self.old) caches.old file.old pending) result
            (image_state (table_of self.new) caches.new file.new pending) }
        ensures at { OnOk result ((place ≢ 0) × (block_offset (slice_index (table_of self.new).raw_entries index)
            ≡ place * cluster_size file.old.header.fields)) }
        ensures mark { first_free_of self.new ≡ first_free_of self.old }
    {
        if place.0 >= self.own_place(index, &file.header).0 {
            return Err(Fault::DamagedTable);
        }
        self.check_place(file.header.cluster_bits(), place)?;
        let block = cleared_block(self.alloc, &file.header, place)?;
        // A block that is cached for this cluster is stale.
        caches.rb_forget(place)?;
        self.count_cluster(file, caches, place)?;
        caches.flush_rb(file)?;
        self.write_block(file, index, block, Some(place))
    }

    // Writes the missing blocks of a run to its first clusters, in the order of their indices. Nothing references them yet.
    //
    // The call fails with `Fault::Memory` and `Fault::Storage`.
    pub(super) fn write_new_blocks<S: Storage>(
        &self,
        file: &mut ImageFile<S>,
        run: Run,
    ) -> Result<(), Fault>
        requires reach { IsAddressable file.old.header.fields.cluster_bits (run.first + (run.len - 1)) }
        requires room { lacking (table_of self.now) (counters_of_block file.old.header.fields) run.first run.len ≤ run.len }
        ensures writes { WritesLacking file.old.header (table_of self.now) run (S.state file.old.image) result (S.state file.new.image) }
        ensures header { file.new.header ≡ file.old.header }
    {
        let rb_bits = file.header.rb_bits();
        let HostCluster(first) = run.first();
        let HostCluster(end) = run.next();
        let mut written = 0;
        let mut index = run.first().rt_index(rb_bits);
        while HostCluster::from_ref_indices(index, 0, rb_bits).0 < end {
            if self.block_cluster(index).is_none() {
                let place = HostCluster(first + written);
                self.write_new_block(file, index, run, place)?;
                written += 1;
            }
            index += 1;
        }
        Ok(())
    }

    // Writes the new block for an index of the refcount table to a cluster of a run. It counts those clusters of the run that belong to the
    // block.
    fn write_new_block<S: Storage>(
        &self,
        file: &mut ImageFile<S>,
        index: usize,
        run: Run,
        place: HostCluster,
    ) -> Result<(), Fault>
        requires reach { IsAddressable file.old.header.fields.cluster_bits place }
        requires own { (index + 1) * counters_of_block file.old.header.fields < 2 ^ 64 }
        requires fits { next_of run < 2 ^ 64 }
        ensures writes { WritesBlockTo file.old.header index run place (S.state file.old.image) result (S.state file.new.image) }
        ensures header { file.new.header ≡ file.old.header }
    {
        let mut block = new_block(self.alloc, &file.header, index, run)?;
        block.set_cluster(place);
        block.write(self.alloc, &mut file.image)
    }
}

// Returns a block for a cluster, with all refcounts 0.
fn cleared_block(alloc: Global, header: &Header, place: HostCluster) -> Result<RefBlock, Fault>
    ensures ok { IfOk result (λ block. block ≡ block_of header.now.fields.cluster_bits header.now.fields.refcount_order
        (replicate (counters_of_block header.now.fields) 0) (Some place) true) }
    ensures err { IsOkUnless result Fault.Memory }
{
    let mut block = RefBlock::new_cleared(alloc, header)?;
    block.set_cluster(place);
    Ok(block)
}

// Returns a block for a cluster, with refcount 1 for this cluster and 0 for all others.
fn own_block(alloc: Global, header: &Header, place: HostCluster) -> Result<RefBlock, Fault>
    ensures ok { IfOk result (λ block. block ≡ block_of header.now.fields.cluster_bits header.now.fields.refcount_order
        (slice_set (replicate (counters_of_block header.now.fields) 0) (place % counters_of_block header.now.fields) 1) (Some place) true) }
    ensures err { IsOkUnless result Fault.Memory }
{
    let (_, rb_index) = place.rt_rb_indices(header.rb_bits());
    let mut block = cleared_block(alloc, header, place)?;
    match block.lock_write().increment(rb_index) {
        Ok(_) => Ok(block),
        Err(_) => unreachable!(),
    }
}

// Returns an allocated cluster as pending metadata, for an entry to reference.
fn pending_cluster(cluster: HostCluster) -> PendingClusters {
    PendingClusters::new(ClustersToFreeEntry::metadata(cluster, ClusterCount(1)))
}

// Returns a block for an index of the refcount table, without a cluster. It counts those clusters of a run that belong to the block.
fn new_block(alloc: Global, header: &Header, index: usize, run: Run) -> Result<RefBlock, Fault>
    requires own { (index + 1) * counters_of_block header.now.fields < 2 ^ 64 }
    requires fits { next_of run < 2 ^ 64 }
    ensures ok { IfOk result (λ block. CountsItsOwn header.now.fields index run block) }
    ensures err { IsOkUnless result Fault.Memory }
{
    let HostCluster(own) = HostCluster::from_ref_indices(index, 0, header.rb_bits());
    let end = own + header.rb_entries() as u64;
    let from = run.first().0.max(own).min(end);
    let to = run.next().0.max(own).min(end);
    let mut block = RefBlock::new_cleared(alloc, header)?;
    count_row(&mut block, (from - own) as usize, (to - own) as usize);
    Ok(block)
}

// Increments the refcounts from index `from` to before index `to` of a block with refcounts 0.
fn count_row(block: &mut RefBlock, from: usize, to: usize)
    requires order { from ≤ to }
    requires inside { to ≤ length block.old.counters }
    requires zeroes { (j : ℕ) → slice_index block.old.counters j ≡ 0 }
    ensures cluster_bits { block.new.cluster_bits ≡ block.old.cluster_bits }
    ensures order { block.new.order ≡ block.old.order }
    ensures long { length block.new.counters ≡ length block.old.counters }
    ensures each { (j : ℕ) → slice_index block.new.counters j ≡ covers j (run_of from (to - from)) }
{
    for index in from..to {
        match block.lock_write().increment(index) {
            Ok(_) => (),
            Err(_) => unreachable!(),
        }
    }
}
