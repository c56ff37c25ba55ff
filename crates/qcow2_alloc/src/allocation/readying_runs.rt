//! Prepares a run of free clusters for allocation: makes the missing blocks that will have its refcounts, or grows the refcount table.
ghost use Rattle.std.specs.Prelude.{true, ◌≡◌, ◌≤◌, IsTrue, List, OnOk, length, ◌≢◌, ◌<◌, ◌+◌, ◌-◌, ◌/◌, ◌^◌, ◌↔◌, IfOk, IfErr, Err};
ghost use Rattle.qcow2_types.specs.Pending.{FreeEntry};
ghost use Rattle.qcow2_alloc.specs.Allocating.{MakesBlocks};
ghost use Rattle.qcow2_alloc.specs.declared.cache.CacheDependency.TheVariants.{L2DependsOnRb};
ghost use Rattle.qcow2_alloc.specs.Allocators.{metadata_of, table_of, first_free_of};
ghost use Rattle.qcow2_alloc.specs.Caches.{order_of};
ghost use Rattle.qcow2_alloc.specs.FillingBlocks.{FillsFrom};
ghost use Rattle.qcow2_alloc.specs.GuestView.{IsSound};
ghost use Rattle.qcow2_alloc.specs.State.{image_state, allocator_state, seen};
ghost use Rattle.qcow2_types.specs.Counts.{counters_of_block};
ghost use Rattle.qcow2_metadata.specs.Places.{IsAddressable};
ghost use Rattle.qcow2_alloc.specs.ReadyingBlocks.{ReadiesBlocks, fitting_causes};
ghost use Rattle.qcow2_alloc.specs.ReadyingRuns.{ReadiesRun, LeavesUntouched};
ghost use Rattle.qcow2_alloc.specs.Causes.{HasCause};

use crate::allocation::Allocator;
use crate::cache::MetadataCaches;
use crate::clusters_to_free::ClustersToFreeList;
use crate::file::{ImageFile, is_addressable};
use imago_storage::{Fault, Storage};
use qcow2_metadata::{Header, RefTable, Table};
use qcow2_types::HostCluster;

// Says whether all blocks for some clusters were there, or blocks were made or the refcount table has grown.
#[derive(Clone, Copy, Drop)]
pub(crate) enum Provision {
    // All blocks were there.
    Complete,
    // A block was made, or the table has grown.
    Extended,
}

impl Allocator {
    // Makes the missing blocks from index `first` to before index `end`.
    pub(crate) fn ensure_blocks<S: Storage>(
        &mut self,
        file: &mut ImageFile<S>,
        caches: &mut MetadataCaches<S>,
        first: usize,
        end: usize,
    ) -> Result<Provision, Fault>
        requires order { first ≤ end }
        requires inside { end ≤ length (table_of self.old).raw_entries }
        ensures makes { (pending : List FreeEntry)
            → MakesBlocks S.state first end (image_state (table_of self.old) caches.old file.old pending) result
            (image_state (table_of self.new) caches.new file.new pending) }
        ensures fills { (pending : List FreeEntry) → order_of caches.old ≡ L2DependsOnRb → IsTrue (S.state file.old.image).shape.keeps
            → IsSound (metadata_of S.state file.old caches.old (table_of self.old) pending)
            → OnOk result (FillsFrom (first_free_of self.old) first end (metadata_of S.state file.old caches.old (table_of self.old) pending)
            (metadata_of S.state file.new caches.new (table_of self.new) pending)) }
        ensures mark { first_free_of self.new ≡ first_free_of self.old }
    {
        let mut provision = Provision::Complete;
        for index in first..end {
            if self.block_cluster(index).is_none() {
                self.make_block(file, caches, index)?;
                provision = Provision::Extended;
            }
        }
        Ok(provision)
    }

    // Finds the first run of `count` free clusters from the first-free hint on, and makes sure that each has a block.
    //
    // A block or a table that is made takes clusters itself, so the run is searched for again after that. The table grows at most once: if
    // there is enough space, the grown table has entries for the run that is found then. `Fault::Limit` has the last cluster of the run, or
    // the number of the failed growth. `begun` is set after the first search: from then on, the call may change something.
    pub(super) fn ready_run<S: Storage>(
        &mut self,
        file: &mut ImageFile<S>,
        caches: &mut MetadataCaches<S>,
        list: &mut ClustersToFreeList,
        count: u64,
        begun: &mut bool,
    ) -> Result<HostCluster, Fault>
        requires nonempty { 1 ≤ count }
        ensures begins { OnOk result (begun.new ≡ true) }
        ensures untouched_unless_begun { LeavesUntouched S.state begun.old begun.new self.old (seen self.old caches.old file.old list.old) self.new
            (seen self.new caches.new file.new list.new) }
        ensures readies { ReadiesRun S.state count (allocator_state self.old caches.old file.old list.old) result
            (allocator_state self.new caches.new file.new list.new) }
        ensures held { list.new.held ≡ list.old.held }
    {
        let entries = self.reftable.entries();
        loop {
            let first = self.find_run(file, caches, self.first_free_cluster, count)?;
            *begun = true;
            let last_index = last_index(first, count, &file.header)?;
            if self.has_grown_short_of(entries, last_index) {
                return Err(Fault::Limit(first.0.saturating_add(count - 1)));
            }
            let first_index = first.rt_index(file.header.rb_bits());
            if let Provision::Complete = self.ready_blocks(
                file,
                caches,
                list,
                first_index,
                last_index,
                count,
            )? {
                return Ok(first);
            }
        }
    }

    // Returns true if the refcount table now has more than `entries` entries, and still none at `index`.
    fn has_grown_short_of(&self, entries: usize, index: usize) -> bool
        ensures { IsTrue result ↔ ((entries < length (table_of self.now).raw_entries) × (length (table_of self.now).raw_entries ≤ index)) }
    {
        let now = self.reftable.entries();
        entries < now && now <= index
    }

    // Makes the missing blocks from index `first` to index `last`. If the refcount table has no entry at `last`, it grows instead: for a
    // run of `count` clusters, and further, as the table takes clusters itself.
    fn ready_blocks<S: Storage>(
        &mut self,
        file: &mut ImageFile<S>,
        caches: &mut MetadataCaches<S>,
        list: &mut ClustersToFreeList,
        first: usize,
        last: usize,
        count: u64,
    ) -> Result<Provision, Fault>
        requires order { first ≤ last }
        requires index_bounded { last < 2 ^ 20 }
        ensures readies { ReadiesBlocks S.state (last + (count / counters_of_block file.old.header.fields + 2)) first last
            (allocator_state self.old caches.old file.old list.old) result (allocator_state self.new caches.new file.new list.new) }
        ensures held { list.new.held ≡ list.old.held }
    {
        if last < self.reftable.entries() {
            return self.ensure_blocks(file, caches, first, last + 1);
        }
        let spare = count / file.header.rb_entries() as u64 + 2;
        self.grow_table(file, caches, list, last + spare as usize)?;
        Ok(Provision::Extended)
    }
}

// Returns the index of the block that has the refcount of a run's last cluster.
//
// The call fails with `Fault::Limit` if the last cluster isn't addressable, or if no refcount table can have an entry for it. It fails with
// `Fault::DamagedTable` if the run starts at cluster 0.
fn last_index(first: HostCluster, count: u64, header: &Header) -> Result<usize, Fault>
    requires nonempty { 1 ≤ count }
    ensures start { IfOk result (λ last. first ≢ 0) }
    ensures reach { IfOk result (λ last. IsAddressable header.now.fields.cluster_bits (first + (count - 1))) }
    ensures index { IfOk result (λ last. last ≡ (first + (count - 1)) / counters_of_block header.now.fields) }
    ensures index_bounded { IfOk result (λ last. last < 2 ^ 20) }
    ensures err { IfErr result (HasCause (fitting_causes header.now.fields count first)) }
    ensures memory { result ≡ Err Fault.Memory → ⊥ }
{
    if first == HostCluster(0) {
        return Err(Fault::DamagedTable);
    }
    let Some(last) = first.0.checked_add(count - 1) else {
        return Err(Fault::Limit(u64::MAX));
    };
    if !is_addressable(HostCluster(last), header.cluster_bits()) {
        return Err(Fault::Limit(last));
    }
    let index = HostCluster(last).rt_index(header.rb_bits());
    if index < RefTable::MAX_ENTRIES {
        Ok(index)
    } else {
        Err(Fault::Limit(last))
    }
}
