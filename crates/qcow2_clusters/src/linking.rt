// Linking: makes the L2 entries of consecutive guest clusters reference consecutive host clusters, either newly
// allocated ones or the preallocated zero clusters of the same entries. The table is written before the call returns.
// Definitions: specs/Linking.antt.
ghost use Rattle.std.specs.Prelude.{◌≡◌, ◌≤◌, ◌<◌, ◌+◌, ◌-◌, ◌%◌, ◌^◌, length, OnOk, IfErr};
ghost use Rattle.qcow2_types.specs.Entries.{l2_entries};
ghost use Rattle.qcow2_metadata.specs.Places.{IsAddressable};
ghost use Rattle.qcow2_alloc.specs.Allocators.{UsesTable};
ghost use Rattle.qcow2_alloc.specs.Caches.{cached_file};
ghost use Rattle.qcow2_clusters.specs.Flushed.{AreEmpty, HasEntries, clusters_state};
ghost use Rattle.qcow2_clusters.specs.Linking.{LeavesTable, LinksIn, LinksRun, LinksEntry, LinksEntries, DefersFree, listing};
ghost use Rattle.qcow2_clusters.specs.WritingBack.{without_tables};

use crate::space::Space;
use crate::writing_back::{write_back, write_back_keeping_tables};
use imago_storage::{Fault, Storage};
use qcow2_alloc::{ClustersToFreeList, ImageFile, MetadataCaches};
use qcow2_metadata::{L2Table, Table};
use qcow2_types::{ClusterCount, ClustersToFreeEntry, GuestCluster, HostCluster};

// Adds the clusters that an entry referenced, if any, to the list of clusters to free. Fails with `Fault::Memory`.
pub(crate) fn defer_free(
    to_free: &mut ClustersToFreeList,
    named: Option<ClustersToFreeEntry>,
) -> Result<(), Fault>
    ensures { DefersFree named to_free.old result to_free.new }
{
    let Some(entry) = named else {
        return Ok(());
    };
    match to_free.push(entry) {
        Ok(()) => Ok(()),
        Err((fault, entry)) => {
            let _parts = entry.into_parts();
            Err(fault)
        }
    }
}

// Makes the entry at an index reference a host cluster. The clusters that it referenced before are added to the list of
// clusters to free.
fn link_entry(
    table: &mut L2Table,
    to_free: &mut ClustersToFreeList,
    index: usize,
    cluster: HostCluster,
) -> Result<(), Fault>
    requires cluster_nonzero { 0 < cluster }
    requires reach { IsAddressable table.old.layout.cluster_bits cluster }
    requires inside { index < length table.old.raw_entries }
    ensures ok { OnOk result (LinksEntry index cluster (listing table.old to_free.old) (listing table.new to_free.new)) }
    ensures err { IfErr result (λ e. e ≡ Fault.Memory) }
    ensures held { to_free.new.held ≡ to_free.old.held }
{
    let mut guard = table.lock_write();
    let named = guard.map_cluster(index, cluster, None);
    defer_free(to_free, named)
}

// Links `count` entries from an index on to consecutive host clusters.
fn link_entries(
    table: &mut L2Table,
    to_free: &mut ClustersToFreeList,
    index: usize,
    cluster: HostCluster,
    count: ClusterCount,
) -> Result<(), Fault>
    requires cluster_nonzero { 0 < cluster }
    requires reach { IsAddressable table.old.layout.cluster_bits (cluster + (count - 1)) }
    requires inside { index + count ≤ length table.old.raw_entries }
    requires end_bounded { index + count < 2 ^ 32 }
    ensures ok { OnOk result (LinksEntries index cluster count (listing table.old to_free.old) (listing table.new to_free.new)) }
    ensures err { IfErr result (λ e. e ≡ Fault.Memory) }
    ensures held { to_free.new.held ≡ to_free.old.held }
{
    for next in 0..count.0 {
        let at = index + next as usize;
        link_entry(table, to_free, at, HostCluster(cluster.0 + next))?;
    }
    Ok(())
}

// Links the entries of consecutive guest clusters in a table. If the table is for another cluster size, the fault is
// `Fault::DamagedTable`.
fn link_in(
    table: &mut L2Table,
    to_free: &mut ClustersToFreeList,
    guest: GuestCluster,
    cluster: HostCluster,
    count: ClusterCount,
    cluster_bits: u32,
) -> Result<(), Fault>
    requires cluster_nonzero { 0 < cluster }
    requires reach { IsAddressable cluster_bits (cluster + (count - 1)) }
    requires row { guest % l2_entries cluster_bits + count ≤ l2_entries cluster_bits }
    ensures named { LinksIn cluster_bits (guest % l2_entries cluster_bits) cluster count (listing table.old to_free.old) result
        (listing table.new to_free.new) }
    ensures held { to_free.new.held ≡ to_free.old.held }
{
    if table.cluster_bits() != cluster_bits {
        return Err(Fault::DamagedTable);
    }
    let index = guest.l2_index(cluster_bits);
    link_entries(table, to_free, index, cluster, count)
}

// Like `link_in`, for the L2 table in a cluster.
fn link_in_table<S: Storage>(
    file: &mut ImageFile<S>,
    caches: &mut MetadataCaches<S>,
    to_free: &mut ClustersToFreeList,
    table: HostCluster,
    guest: GuestCluster,
    cluster: HostCluster,
    count: ClusterCount,
) -> Result<(), Fault>
    requires cluster_nonzero { 0 < cluster }
    requires reach { IsAddressable file.old.header.fields.cluster_bits (cluster + (count - 1)) }
    requires row { let entries = l2_entries file.old.header.fields.cluster_bits in guest % entries + count ≤ entries }
    ensures named { let bits = file.old.header.fields.cluster_bits in UsesTable S.state table
        (λ t r t'. LinksIn bits (guest % l2_entries bits) cluster count (listing t to_free.old) r (listing t' to_free.new))
        (cached_file caches.old file.old) result (cached_file caches.new file.new) }
    ensures held { to_free.new.held ≡ to_free.old.held }
{
    let cluster_bits = file.header.cluster_bits();
    let table = caches.l2_get_or_insert(file, table)?;
    link_in(table, to_free, guest, cluster, count, cluster_bits)
}

/// Makes the L2 entries of `count` consecutive guest clusters reference `count` consecutive host clusters, with the
/// COPIED flag.
///
/// All entries are in the L2 table at `table`. A cluster that an entry referenced before is added to the list of
/// clusters to free, unless it is the entry's preallocated zero cluster and is linked now. The bytes of the host
/// clusters don't change. After success only this table is cached, and it is clean.
///
/// # Preconditions
///
/// Nothing is cached, and the caches have space for a table and for a block. `count` is above 0, and all entries are in
/// one table. `cluster` is above 0, and the offset of the last host cluster fits an entry.
///
/// # Errors
///
/// - `Fault::Memory`, `Fault::Storage`.
/// - `Fault::DamagedTable` if the table has an invalid entry or its offset isn't valid. A consistent image has neither.
///
/// # On error
///
/// Nothing is cached. Each guest byte reads as before, or, in these guest clusters, as the byte of the new host
/// cluster. Reserved slots (memory for entries of the free list) stay reserved. Which entries were linked, and what is
/// on the free list, is unspecified, so the image must be opened again before another change. The file never gets
/// shorter.
///
/// # Crash safety
///
/// If the image is consistent, and its storage keeps what is written and refuses no change, each crash image (the file
/// after a crash between two requests) is consistent. Each of its guest bytes reads as before, or, in these guest
/// clusters, as the byte of the new host cluster. Each host cluster must be allocated and not yet referenced, or be its
/// guest cluster's preallocated zero cluster with the COPIED flag.
pub fn link_run<S: Storage>(
    file: &mut ImageFile<S>,
    caches: &mut MetadataCaches<S>,
    space: &mut Space,
    table: HostCluster,
    guest: GuestCluster,
    cluster: HostCluster,
    count: ClusterCount,
) -> Result<(), Fault>
    requires caches_empty { AreEmpty caches.old }
    requires room { HasEntries caches.old }
    requires cluster_nonzero { 0 < cluster }
    requires any { 0 < count }
    requires reach { IsAddressable file.old.header.fields.cluster_bits (cluster + (count - 1)) }
    requires row { let entries = l2_entries file.old.header.fields.cluster_bits in guest % entries + count ≤ entries }
    ensures names { LinksRun S.state table guest cluster count (clusters_state file.old caches.old space.old) result
        (clusters_state file.new (without_tables caches.new) space.new) }
    ensures leaves { LeavesTable S.state table guest cluster count (clusters_state file.old caches.old space.old) result
        (clusters_state file.new caches.new space.new) }
{
    let named = link_in_table(
        file,
        caches,
        &mut space.to_free,
        table,
        guest,
        cluster,
        count,
    );
    match named {
        Ok(()) => write_back_keeping_tables(file, caches),
        Err(fault) => write_back(file, caches, Err(fault)),
    }
}
