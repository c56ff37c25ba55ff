// Lengthens the L1 table: writes a longer copy to new clusters, and makes the header reference it. Definitions:
// specs/Lengthening.antt.
ghost use Rattle.std.specs.Prelude.{◌≡◌, ◌<◌, ◌++◌, ◌-◌, length};
ghost use Rattle.qcow2_types.specs.TableBytes.{AreFit, table_bytes};
ghost use Rattle.qcow2_metadata.specs.Tables.{IsPlacedTable, table_start};
ghost use Rattle.qcow2_clusters.specs.Lengthening.{LengthensL1, LinksL1, StandsIn, clusters_for, l1_run};
ghost use Rattle.qcow2_clusters.specs.Flushed.{AreEmpty, HasEntries, clusters_state};
ghost use Rattle.qcow2_clusters.specs.LeftUntouched.{LeavesUntouched, LeavesTopUntouched, LeavesUnsettledUntouched};
ghost use Rattle.qcow2_clusters.specs.Storing.{StoresRun, StoresRunUnsettled};

use crate::making_tables::place_l1;
use crate::space::Space;
use crate::storing::{Stored, write_back_stored};
use imago_storage::{Fault, Storage};
use qcow2_alloc::{ClustersToFreeList, ImageFile, MetadataCaches, PendingAllocation, ReservedSlot};
use qcow2_metadata::{L1Table, Table};
use qcow2_types::{ClustersToFreeEntry, PendingClusters};
use std::alloc::Global;

// Allocates consecutive clusters, and writes an L1 table to them.
fn allocate_and_write<S: Storage>(
    alloc: Global,
    file: &mut ImageFile<S>,
    caches: &mut MetadataCaches<S>,
    space: &mut Space,
    table: &mut L1Table,
    begun: &mut bool,
) -> Result<Stored, Fault>
    requires caches_empty { AreEmpty caches.old }
    requires room { HasEntries caches.old }
    requires bits { table.old.layout.cluster_bits ≡ file.old.header.fields.cluster_bits }
    requires nonempty { 0 < length table.old.raw_entries }
    ensures stores { StoresRunUnsettled S.state (clusters_for file.old.header.fields (length table.old.raw_entries)) (table_bytes table.old.raw_entries)
        (clusters_state file.old caches.old space.old) result (clusters_state file.new caches.new space.new) }
    ensures stands { StandsIn file.old.header.fields table.old result table.new }
    ensures fit { AreFit table.old.raw_entries }
    ensures untouched_unless_begun { LeavesUnsettledUntouched S.state begun.old (clusters_state file.old caches.old space.old) result begun.new
        (clusters_state file.new caches.new space.new) }
{
    let _words = table.entries();
    let count = table.cluster_count();
    let pending = space
        .allocator
        .try_allocate_clusters(file, caches, &mut space.to_free, count, false, begun)?;
    let PendingAllocation { pending, hold } = pending;
    let cluster = pending.cluster();
    let _parts = pending.into_entry().into_parts();
    table.set_cluster(cluster);
    match table.write(alloc, &mut file.image) {
        Ok(()) => Ok(Stored { cluster, hold }),
        Err(fault) => {
            space.to_free.release(hold);
            Err(fault)
        }
    }
}

// Stores an L1 table in newly allocated consecutive clusters. Nothing references them yet, and a slot is reserved for
// them.
fn store_l1<S: Storage>(
    alloc: Global,
    file: &mut ImageFile<S>,
    caches: &mut MetadataCaches<S>,
    space: &mut Space,
    table: &mut L1Table,
    begun: &mut bool,
) -> Result<Stored, Fault>
    requires caches_empty { AreEmpty caches.old }
    requires room { HasEntries caches.old }
    requires bits { table.old.layout.cluster_bits ≡ file.old.header.fields.cluster_bits }
    requires nonempty { 0 < length table.old.raw_entries }
    ensures stores { StoresRun S.state (clusters_for file.old.header.fields (length table.old.raw_entries)) (table_bytes table.old.raw_entries)
        (clusters_state file.old caches.old space.old) result (clusters_state file.new caches.new space.new) }
    ensures stands { StandsIn file.old.header.fields table.old result table.new }
    ensures fit { AreFit table.old.raw_entries }
    ensures untouched_unless_begun { LeavesUntouched S.state begun.old (clusters_state file.old caches.old space.old) result begun.new (clusters_state file.new caches.new space.new) }
{
    let stored = allocate_and_write(alloc, file, caches, space, table, begun);
    write_back_stored(file, caches, space, stored)
}

// Makes the header reference an L1 table, in memory and then in the file in one request. If that fails, the header in
// memory references the old table.
fn link_l1<S: Storage>(
    alloc: Global,
    file: &mut ImageFile<S>,
    table: &L1Table,
    old: &L1Table,
) -> Result<(), Fault>
    requires bits { table.now.layout.cluster_bits ≡ file.old.header.fields.cluster_bits }
    requires placed { IsPlacedTable table.now }
    requires old_bits { old.now.layout.cluster_bits ≡ file.old.header.fields.cluster_bits }
    requires old_placed { IsPlacedTable old.now }
    ensures { LinksL1 S.state table.now old.now file.old result file.new }
{
    // The contract of `size` shows that each byte of the file is below 256, so the header's fields fit.
    let _length = file.image.size();
    file.header.set_l1_table(table, None);
    match file.header.write_l1_table_pointer(alloc, &mut file.image) {
        Ok(()) => Ok(()),
        Err(fault) => {
            file.header.set_l1_table(old, None);
            Err(fault)
        }
    }
}

// Adds the clusters of an L1 table to the end of the free list, in the reserved slot. If the table has no clusters, the
// slot is released.
fn give_up_l1(to_free: &mut ClustersToFreeList, hold: ReservedSlot, l1: &L1Table)
    requires placed { IsPlacedTable l1.now }
    requires held { 0 < to_free.old.held }
    ensures { to_free.new ≡ record {
      entries = to_free.old.entries ++ l1_run l1.now.layout.cluster_bits (table_start l1.now) (length l1.now.raw_entries);
      held = to_free.old.held - 1;
    } }
{
    let count = l1.cluster_count();
    match l1.get_cluster() {
        Some(cluster) if l1.entries() > 0 => {
            let entry = ClustersToFreeEntry::metadata(cluster, count);
            to_free.give_back(hold, PendingClusters::new(entry));
        }
        _ => to_free.release(hold),
    }
}

/// Makes the header reference a longer L1 table in newly allocated clusters.
///
/// The new table has an entry at `index`. It has the entries of the old table, followed by zeroes. The clusters of the
/// old table, if any, are added to the list of clusters to free. Nothing is cached after the call. The call sets `begun`
/// before its first change.
///
/// # Preconditions
///
/// Nothing is cached.
///
/// # Errors
///
/// - `Fault::Limit(n)` if the table would have more than 2^22 entries. `n` is the number of entries.
/// - `Fault::Limit` as in `store_run`, for the number of clusters of the new table.
/// - `Fault::Memory`, `Fault::Storage`. The header in the file may reference the new table.
/// - `Fault::Counter`, `Fault::DamagedTable`. A consistent image has neither.
///
/// # On error
///
/// If `begun` isn't set, nothing has changed, except that the L1 table in memory may now have the cluster that the
/// header gives.
pub fn lengthen_l1<S: Storage>(
    alloc: Global,
    file: &mut ImageFile<S>,
    caches: &mut MetadataCaches<S>,
    space: &mut Space,
    l1: &mut L1Table,
    index: usize,
    begun: &mut bool,
) -> Result<(), Fault>
    requires caches_empty { AreEmpty caches.old }
    requires room { HasEntries caches.old }
    ensures lengthens { LengthensL1 S.state l1.old index (clusters_state file.old caches.old space.old) result l1.new
        (clusters_state file.new caches.new space.new) }
    ensures untouched_unless_begun { LeavesTopUntouched S.state begun.old l1.old (clusters_state file.old caches.old space.old) result begun.new l1.new
        (clusters_state file.new caches.new space.new) }
{
    place_l1(l1, &file.header)?;
    let mut grown = l1.clone_and_grow(alloc, index, &file.header)?;
    let stored = store_l1(alloc, file, caches, space, &mut grown, begun)?;
    let Stored {
        cluster: _cluster,
        hold,
    } = stored;
    match link_l1(alloc, file, &grown, l1) {
        Ok(()) => {
            give_up_l1(&mut space.to_free, hold, l1);
            *l1 = grown;
            Ok(())
        }
        Err(fault) => {
            space.to_free.release(hold);
            Err(fault)
        }
    }
}
