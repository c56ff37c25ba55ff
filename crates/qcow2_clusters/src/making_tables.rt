// Makes a new L2 table and makes the L1 entry reference it: an empty table, or a copy of the old one. Definitions:
// specs/MakingTables.antt.
ghost use Rattle.std.specs.Prelude.{◌≡◌, ◌<◌, IfOk, IsOkUnless, length, replicate, slice_index};
ghost use Rattle.imago_storage.specs.Calls.{CountsFaults, UnchangedButFaults, CountsNotFallen};
ghost use Rattle.qcow2_types.specs.Header.{cluster_size};
ghost use Rattle.qcow2_metadata.specs.Places.{IsAddressable};
ghost use Rattle.qcow2_metadata.specs.Tables.{CanBeReferenced, IsPlacedTable};
ghost use Rattle.qcow2_clusters.specs.Flushed.{AreEmpty, HasEntries, clusters_state};
ghost use Rattle.qcow2_clusters.specs.LeftUntouched.{LeavesTopUntouched};
ghost use Rattle.qcow2_clusters.specs.MakingTables.{CopiesTable, EntersTable, FindsTable, IsClusterOf, MakesTable, PlacesL1, PlacesTable};

use crate::space::Space;
use crate::storing::{Stored, store};
use imago_storage::{Fault, Storage, StorageExt};
use qcow2_alloc::{ImageFile, MetadataCaches};
use qcow2_metadata::{Header, L1Table, L2Table, Table};
use qcow2_types::{ClusterCount, ClustersToFreeEntry, HostCluster, MAX_OFFSET, PendingClusters};
use std::alloc::Global;

// Sets the cluster of the L1 table in memory to the one in the header, so that its entries can be written there.
//
// Fails with `Fault::DamagedTable` if the table is for another cluster size, or if the offset isn't valid. Nothing
// changes then.
pub(crate) fn place_l1(l1: &mut L1Table, header: &Header) -> Result<(), Fault>
    ensures { PlacesL1 header.now.fields l1.old result l1.new }
{
    let bits = header.cluster_bits();
    let offset = header.l1_table_offset();
    let Some(cluster) = offset.checked_cluster(bits) else {
        return Err(Fault::DamagedTable);
    };
    if offset.0 > MAX_OFFSET || l1.cluster_bits() != bits {
        return Err(Fault::DamagedTable);
    }
    l1.set_cluster(cluster);
    Ok(())
}

// Returns the bytes of a cluster of zeroes.
fn clear_content(alloc: Global, header: &Header) -> Result<Vec<u8>, Fault>
    ensures ok { IfOk result (λ bytes. bytes.items ≡ replicate (cluster_size header.now.fields) 0) }
    ensures err { IsOkUnless result Fault.Memory }
{
    let bytes = vec![in alloc; 0u8; header.cluster_size()]?;
    Ok(bytes)
}

// Makes an L1 entry reference the table, with the COPIED flag, in memory and then in the file.
fn enter_table<S: Storage>(
    alloc: Global,
    file: &mut ImageFile<S>,
    l1: &mut L1Table,
    index: usize,
    table: &L2Table,
) -> Result<(), Fault>
    requires bounds { index < length l1.old.raw_entries }
    requires bits { table.now.layout.cluster_bits ≡ l1.old.layout.cluster_bits }
    requires can_be_referenced { CanBeReferenced l1.old.layout.cluster_bits table.now.cluster }
    requires placed { IsPlacedTable l1.old }
    ensures { EntersTable S.state index table.now l1.old file.old result l1.new file.new }
{
    l1.enter_l2_table(index, table, None);
    l1.write_entry(alloc, &mut file.image, index)
}

// Stores the content of an L2 table in a newly allocated cluster, and makes the L1 entry reference it. After success a
// slot is reserved on the list of clusters to free, for the table that the entry referenced before, if any.
fn place_table<S: Storage>(
    alloc: Global,
    file: &mut ImageFile<S>,
    caches: &mut MetadataCaches<S>,
    space: &mut Space,
    l1: &mut L1Table,
    index: usize,
    content: &[u8],
    begun: &mut bool,
) -> Result<Stored, Fault>
    requires caches_empty { AreEmpty caches.old }
    requires room { HasEntries caches.old }
    requires bounds { index < length l1.old.raw_entries }
    requires whole { length content.now ≡ cluster_size file.old.header.fields }
    ensures places { PlacesTable S.state content.now l1.old index (clusters_state file.old caches.old space.old) result l1.new
        (clusters_state file.new caches.new space.new) }
    ensures untouched_unless_begun { LeavesTopUntouched S.state begun.old l1.old (clusters_state file.old caches.old space.old) result begun.new l1.new
        (clusters_state file.new caches.new space.new) }
{
    place_l1(l1, &file.header)?;
    let mut table = L2Table::new_cleared(alloc, &file.header)?;
    let Stored { cluster, hold } = store(alloc, file, caches, space, content, begun)?;
    table.set_cluster(cluster);
    match enter_table(alloc, file, l1, index, &table) {
        Ok(()) => Ok(Stored { cluster, hold }),
        Err(fault) => {
            space.to_free.release(hold);
            Err(fault)
        }
    }
}

/// Makes an L2 table in which nothing is mapped, in a newly allocated cluster, and makes the L1 entry at `index`
/// reference it.
///
/// The result is the cluster of the table. Nothing is cached after the call. The call sets `begun` before its first
/// change.
///
/// # Preconditions
///
/// Nothing is cached, and the caches have space for a table and for a block. `index` is less than the number of L1
/// entries in memory. The L1 table in memory is the file's, and its entry references no table.
///
/// # Errors
///
/// - `Fault::Limit` as in `store_run`, for one cluster.
/// - `Fault::Memory`, `Fault::Storage`. The L1 table in memory may differ from the file.
/// - `Fault::Counter`, `Fault::DamagedTable`. A consistent image has neither.
///
/// # On error
///
/// If `begun` isn't set, nothing has changed, except that the L1 table in memory may now have the cluster that the
/// header gives.
pub fn make_table<S: Storage>(
    alloc: Global,
    file: &mut ImageFile<S>,
    caches: &mut MetadataCaches<S>,
    space: &mut Space,
    l1: &mut L1Table,
    index: usize,
    begun: &mut bool,
) -> Result<HostCluster, Fault>
    requires caches_empty { AreEmpty caches.old }
    requires room { HasEntries caches.old }
    requires bounds { index < length l1.old.raw_entries }
    ensures makes { MakesTable S.state l1.old index (clusters_state file.old caches.old space.old) result l1.new
        (clusters_state file.new caches.new space.new) }
    ensures untouched_unless_begun { LeavesTopUntouched S.state begun.old l1.old (clusters_state file.old caches.old space.old) result begun.new l1.new
        (clusters_state file.new caches.new space.new) }
{
    let content = clear_content(alloc, &file.header)?;
    let Stored { cluster, hold } = place_table(
        alloc, file, caches, space, l1, index, &content, begun,
    )?;
    space.to_free.release(hold);
    Ok(cluster)
}

// Returns the cluster of the L2 table that an L1 entry references, or `None` if it references none or its offset isn't
// valid.
fn table_at(l1: &L1Table, index: usize, header: &Header) -> Option<HostCluster>
    ensures { FindsTable header.now.fields.cluster_bits (slice_index l1.now.raw_entries index) result }
{
    let Some(offset) = l1.get(index).l2_offset() else {
        return None;
    };
    if offset.0 > MAX_OFFSET {
        return None;
    }
    offset.checked_cluster(header.cluster_bits())
}

// Reads the bytes of an addressable cluster.
fn read_cluster<S: Storage>(
    alloc: Global,
    file: &mut ImageFile<S>,
    cluster: HostCluster,
) -> Result<Vec<u8>, Fault>
    requires reach { IsAddressable file.old.header.fields.cluster_bits cluster }
    ensures ok { IfOk result (λ bytes. IsClusterOf (S.state file.old.image).bytes file.old.header.fields cluster bytes.items) }
    ensures unchanged_but_faults { UnchangedButFaults (S.state file.old.image) (S.state file.new.image) }
    ensures faults { CountsFaults (S.state file.old.image).faults (S.state file.new.image).faults result }
    ensures counts_not_fallen { CountsNotFallen (S.state file.old.image) (S.state file.new.image) }
    ensures header { file.new.header ≡ file.old.header }
{
    let mut bytes = clear_content(alloc, &file.header)?;
    let place = cluster.offset(file.header.cluster_bits());
    file.image.read(alloc, &mut bytes, place.0)?;
    Ok(bytes)
}

/// Copies the L2 table that the L1 entry at `index` references to a newly allocated cluster, and makes the entry
/// reference the copy.
///
/// The copy has the same entries. The cluster of the old table is added to the list of clusters to free. The result is
/// the cluster of the copy. Nothing is cached after the call. The call sets `begun` before its first change.
///
/// # Preconditions
///
/// Nothing is cached, and the caches have space for a table and for a block. `index` is less than the number of L1
/// entries in memory. The L1 table in memory is the file's, and its entry references a table.
///
/// # Errors
///
/// - The faults of `make_table`.
///
/// # On error
///
/// If `begun` isn't set, nothing has changed, except that the L1 table in memory may now have the cluster that the
/// header gives.
pub fn copy_table<S: Storage>(
    alloc: Global,
    file: &mut ImageFile<S>,
    caches: &mut MetadataCaches<S>,
    space: &mut Space,
    l1: &mut L1Table,
    index: usize,
    begun: &mut bool,
) -> Result<HostCluster, Fault>
    requires caches_empty { AreEmpty caches.old }
    requires room { HasEntries caches.old }
    requires bounds { index < length l1.old.raw_entries }
    ensures copies { CopiesTable S.state l1.old index (clusters_state file.old caches.old space.old) result l1.new
        (clusters_state file.new caches.new space.new) }
    ensures untouched_unless_begun { LeavesTopUntouched S.state begun.old l1.old (clusters_state file.old caches.old space.old) result begun.new l1.new
        (clusters_state file.new caches.new space.new) }
{
    let Some(old) = table_at(l1, index, &file.header) else {
        return Err(Fault::DamagedTable);
    };
    let content = read_cluster(alloc, file, old)?;
    let Stored { cluster, hold } = place_table(
        alloc, file, caches, space, l1, index, &content, begun,
    )?;
    let entry = ClustersToFreeEntry::metadata(old, ClusterCount(1));
    space.to_free.give_back(hold, PendingClusters::new(entry));
    Ok(cluster)
}
