//! Grows the refcount table: makes a longer copy in memory, and searches for the first free area for the copy and the blocks that it needs.
ghost use Rattle.std.specs.Prelude.{◌≡◌, ◌≤◌, ◌<◌, ◌+◌, ◌*◌, ◌/◌, ◌^◌, IfOk, length, ℕ, ◌-◌, ◌++◌, OnOk, OnErr, IfErr, min};
ghost use Rattle.qcow2_types.specs.Counts.{counters_of_block};
ghost use Rattle.qcow2_alloc.specs.Allocators.{table_of, first_free_of};
ghost use Rattle.qcow2_alloc.specs.Caches.{cached_file};
ghost use Rattle.qcow2_alloc.specs.Growing.{lacking, needed_for, GrowsFreeArea, LooksForFreeArea};
ghost use Rattle.qcow2_alloc.specs.GrowingTables.{GrowsTable, table_run};
ghost use Rattle.qcow2_alloc.specs.MovingTables.{IsPlan, IsCopyFor, placing_causes, IsGrownFor, growing_causes, EntersFree};
ghost use Rattle.qcow2_alloc.specs.State.{allocator_state, seen};
ghost use Rattle.qcow2_alloc.specs.Causes.{HasCause};

use crate::allocation::Allocator;
use crate::allocation::searching::Run;
use crate::cache::MetadataCaches;
use crate::clusters_to_free::{ClustersToFreeList, ReservedSlot};
use crate::file::ImageFile;
use imago_storage::{Fault, Storage};
use qcow2_metadata::{Header, RefTable, Table};
use qcow2_types::{ClustersToFreeEntry, HostCluster, PendingClusters};

impl Allocator {
    // Returns the number of missing blocks of a run: blocks that would have the refcount of one of its clusters, and that the refcount
    // table doesn't reference. A block has 2^`rb_bits` refcounts.
    pub(super) fn lacking_for(&self, run: Run, rb_bits: u32) -> u64
        requires bits { rb_bits ≤ 24 }
        requires fits { run.first + run.len + 2 ^ 24 < 2 ^ 64 }
        ensures { result ≡ lacking (table_of self.now) (2 ^ rb_bits) run.first run.len }
    {
        let HostCluster(end) = run.next();
        let mut lacking = 0;
        let mut index = run.first.rt_index(rb_bits);
        while HostCluster::from_ref_indices(index, 0, rb_bits).0 < end {
            if self.block_cluster(index).is_none() {
                lacking += 1;
            }
            index += 1;
        }
        lacking
    }

    // Returns the first free area from `from` on for `clusters` clusters and the blocks that are missing for the area (`IsFirstFreeArea`).
    //
    // The search always ends.
    pub(super) fn find_free_area<S: Storage>(
        &self,
        file: &mut ImageFile<S>,
        caches: &mut MetadataCaches<S>,
        from: HostCluster,
        clusters: u64,
    ) -> Result<Run, Fault>
        requires start_in_space { from ≤ length (table_of self.now).raw_entries * counters_of_block file.old.header.fields }
        requires count_bounded { clusters ≤ 2 ^ 24 }
        ensures looks { LooksForFreeArea S.state (table_of self.now) from clusters (cached_file caches.old file.old) result
            (cached_file caches.new file.new) }
        ensures within { IfOk result (λ room. (room.first ≤ length (table_of self.now).raw_entries * counters_of_block file.old.header.fields)
            × (room.len ≤ 2 * clusters + 4)) }
        ensures enough { IfOk result (λ room. room.len
            ≡ clusters + lacking (table_of self.now) (counters_of_block file.old.header.fields) room.first room.len) }
    {
        let rb_bits = file.header.rb_bits();
        let first = self.find_run(file, caches, from, clusters)?;
        let mut room = Run {
            first,
            len: clusters,
        };
        let mut needed = clusters + self.lacking_for(room, rb_bits);
        while room.len() < needed {
            room = self.grow_free_area(file, caches, room, needed, clusters)?;
            needed = clusters + self.lacking_for(room, rb_bits);
        }
        Ok(room)
    }

    // Returns the run with the length that it needs, if all its clusters are free. Otherwise returns the first free run of `clusters`
    // clusters that starts after its first cluster.
    fn grow_free_area<S: Storage>(
        &self,
        file: &mut ImageFile<S>,
        caches: &mut MetadataCaches<S>,
        room: Run,
        needed: u64,
        clusters: u64,
    ) -> Result<Run, Fault>
        requires fits { room.first + 1 < 2 ^ 64 }
        requires needed { needed ≡ needed_for (table_of self.now) (counters_of_block file.old.header.fields) clusters room }
        ensures { GrowsFreeArea S.state (table_of self.now) clusters room (cached_file caches.old file.old) result
            (cached_file caches.new file.new) }
    {
        let start = room.first();
        let first = self.find_run(file, caches, start, needed)?;
        if first == start {
            return Ok(Run { first, len: needed });
        }
        let first = self.find_run(file, caches, HostCluster(start.0 + 1), clusters)?;
        Ok(Run {
            first,
            len: clusters,
        })
    }

    // Grows the refcount table until it has an entry at `at`.
    //
    // The call fails with `Fault::Limit` if the table can't grow that far; with `Fault::Memory`; with `Fault::Storage`; with
    // `Fault::CacheFull` like the public calls, and then clusters may leak; and with `Fault::Counter` and `Fault::DamagedTable`, which a
    // consistent image rules out.
    pub(super) fn grow_table<S: Storage>(
        &mut self,
        file: &mut ImageFile<S>,
        caches: &mut MetadataCaches<S>,
        list: &mut ClustersToFreeList,
        at: usize,
    ) -> Result<(), Fault>
        requires past { length (table_of self.old).raw_entries ≤ at }
        ensures grows { GrowsTable S.state at (allocator_state self.old caches.old file.old list.old) result
            (allocator_state self.new caches.new file.new list.new) }
        ensures held { list.new.held ≡ list.old.held }
    {
        let copy = self.grown_copy(&file.header, at)?;
        let hold = list.reserve_slot()?;
        self.place_grown(file, caches, list, hold, copy)
    }

    // Writes a grown copy of the refcount table to the first free area, and makes it the image's table. The reserved slot takes the old
    // table's clusters; on error it is released.
    pub(super) fn place_grown<S: Storage>(
        &mut self,
        file: &mut ImageFile<S>,
        caches: &mut MetadataCaches<S>,
        list: &mut ClustersToFreeList,
        hold: ReservedSlot,
        mut copy: RefTable,
    ) -> Result<(), Fault>
        requires grown { (at : ℕ) × (length (table_of self.old).raw_entries ≤ at)
            × IsGrownFor file.old.header.fields (table_of self.old) at copy }
        requires held { 0 < list.old.held }
        ensures grows { (at : ℕ) → IsGrownFor file.old.header.fields (table_of self.old) at copy
            → GrowsTable S.state at (allocator_state self.old caches.old file.old list.old) result (allocator_state self.new caches.new file.new list.new) }
        ensures held { list.new.held ≡ list.old.held - 1 }
    {
        let from = self.free_area_start(file.header.rb_bits());
        let room = match self.find_free_area(file, caches, from, copy.cluster_count().0) {
            Ok(room) => room,
            Err(fault) => {
                list.release(hold);
                return Err(fault);
            }
        };
        let taken = room;
        match self.place_copy(&mut copy, &file.header, room) {
            Ok(()) => self.enter_free_area(file, caches, list, hold, copy, taken),
            Err(fault) => {
                list.release(hold);
                Err(fault)
            }
        }
    }

    // Makes a table, which already has its cluster in a free area, the image's refcount table. The old table's clusters go to the list, in
    // the reserved slot.
    fn enter_free_area<S: Storage>(
        &mut self,
        file: &mut ImageFile<S>,
        caches: &mut MetadataCaches<S>,
        list: &mut ClustersToFreeList,
        hold: ReservedSlot,
        table: RefTable,
        room: Run,
    ) -> Result<(), Fault>
        requires plan { IsPlan file.old.header.fields (table_of self.old) room table }
        requires held { 0 < list.old.held }
        ensures fills { EntersFree S.state room table (seen self.old caches.old file.old list.old) result
            (seen self.new caches.new file.new list.new) }
        ensures waits { OnOk result (list.new.entries ≡ list.old.entries ++ table_run file.old.header.fields) }
        ensures unchanged_on_error { OnErr result (list.new.entries ≡ list.old.entries) }
        ensures held { list.new.held ≡ list.old.held - 1 }
        ensures mark { first_free_of self.new ≡ first_free_of self.old }
    {
        let clusters = file.header.reftable_clusters();
        // The refcount table of a consistent image has at least one cluster.
        if clusters.0 == 0 {
            list.release(hold);
            return Err(Fault::DamagedTable);
        }
        let offset = file.header.reftable_offset();
        let first = offset.cluster(file.header.cluster_bits());
        match self.fill_free_area(file, caches, table, room) {
            Ok(()) => {
                let old = ClustersToFreeEntry::metadata(first, clusters);
                list.give_back(hold, PendingClusters::new(old));
                Ok(())
            }
            Err(fault) => {
                list.release(hold);
                Err(fault)
            }
        }
    }

    // Returns a copy of the refcount table in memory that is long enough for an entry at `at`.
    pub(super) fn grown_copy(&self, header: &Header, at: usize) -> Result<RefTable, Fault>
        requires past { length (table_of self.now).raw_entries ≤ at }
        ensures ok { IfOk result (IsGrownFor header.now.fields (table_of self.now) at) }
        ensures err { IfErr result (HasCause (growing_causes header.now.fields (table_of self.now) at)) }
    {
        if self.reftable.cluster_bits() != header.cluster_bits() {
            return Err(Fault::DamagedTable);
        }
        self.reftable.clone_and_grow(self.alloc, header, at)
    }

    // Returns the start of the search for a free area: the first-free hint, or the end of the clusters that the table can count if that is
    // less.
    fn free_area_start(&self, rb_bits: u32) -> HostCluster
        requires { rb_bits ≤ 24 }
        ensures { result ≡ min (first_free_of self.now) (length (table_of self.now).raw_entries * 2 ^ rb_bits) }
    {
        let end = HostCluster::from_ref_indices(self.reftable.entries(), 0, rb_bits);
        HostCluster(self.first_free_cluster.0.min(end.0))
    }

    // Sets the cluster of a grown copy: after the missing blocks of the free area. Makes the copy reference these blocks.
    fn place_copy(&self, copy: &mut RefTable, header: &Header, room: Run) -> Result<(), Fault>
        requires copy { IsCopyFor header.now.fields (table_of self.now) room copy.old }
        requires fits { room.first + room.len + 2 ^ 24 < 2 ^ 64 }
        ensures ok { OnOk result (IsPlan header.now.fields (table_of self.now) room copy.new
            × (length copy.new.raw_entries ≡ length copy.old.raw_entries)) }
        ensures err { IfErr result (HasCause (placing_causes header.now.fields (table_of self.now) room copy.old)) }
    {
        let rb_bits = header.rb_bits();
        let HostCluster(first) = room.first();
        if first == 0 {
            return Err(Fault::DamagedTable);
        }
        let last = first + (room.len() - 1);
        self.check_place(header.cluster_bits(), HostCluster(last))?;
        if last >= HostCluster::from_ref_indices(copy.entries(), 0, rb_bits).0 {
            return Err(Fault::Limit(last));
        }
        copy.set_cluster(HostCluster(first + self.lacking_for(room, rb_bits)));
        self.link_new_blocks(copy, header, room)?;
        Ok(())
    }
}
