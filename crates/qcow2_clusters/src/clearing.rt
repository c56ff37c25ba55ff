// Clears guest clusters: they read as zeroes, or are unmapped. Definitions: specs/Clearing.antt.
ghost use Rattle.std.specs.Prelude.{◌≡◌, ◌≢◌, ◌+◌, ◌<◌, ◌≤◌, ◌^◌, ◌⊎◌, ◌%◌, ◌++◌, IfErr, IfOk, OnOk, length, ℕ};
ghost use Rattle.qcow2_types.specs.Header.{entries_of_cluster};
ghost use Rattle.qcow2_types.specs.Entries.{entry};
ghost use Rattle.qcow2_metadata.specs.Tables.{TableValue, table_in};
ghost use Rattle.qcow2_alloc.specs.declared.cache.CacheDependency.{CacheDependency};
ghost use Rattle.qcow2_alloc.specs.FreeList.{FreeList};
ghost use Rattle.qcow2_alloc.specs.GuestView.{GuestUnchanged, IsSound, Metadata, in_memory};
ghost use Rattle.qcow2_steps.specs.Advancing.{Advances};
ghost use Rattle.qcow2_clusters.specs.Clearing.{AreUnder, ClearsAt, ClearsIn, ClearsEntry, ClearsEntries, IsPossible, cleared, clearing_run, clearing_setting, given_up_run};
ghost use Rattle.qcow2_clusters.specs.Flushed.{AreEmpty, HasEntries, clusters_state, flushed_metadata};
ghost use Rattle.qcow2_clusters.specs.Setting.{SetsRun, StaysCached, cached_alone};
ghost use Rattle.qcow2_clusters.specs.WritingBack.{without_tables};
ghost use Rattle.qcow2_alloc.specs.Allocators.{UsesTable};
ghost use Rattle.qcow2_alloc.specs.Caches.{cached_file};
ghost use Rattle.qcow2_types.specs.Entries.{l2_entries};
ghost use Rattle.qcow2_clusters.specs.Linking.{Listed, listing};

use crate::linking::defer_free;
use crate::space::Space;
use crate::writing_back::{write_back, write_back_keeping_tables};
use imago_storage::{Fault, Storage};
use qcow2_alloc::{ClustersToFreeList, ImageFile, MetadataCaches};
use qcow2_metadata::{L2Table, Table};
use qcow2_types::{ClusterCount, ClustersToFreeEntry, GuestCluster, HostCluster};

/// The ways to clear a guest cluster.
#[derive(Clone, Copy, Debug, Drop, PartialEq, Eq)]
pub enum Clearing {
    /// The guest cluster reads as zeroes, and keeps its host cluster as a preallocated one. Compressed data is freed.
    Keep,
    /// The guest cluster reads as zeroes, and its host clusters are freed.
    GiveUp,
    /// The guest cluster is unmapped, and its host clusters are freed.
    Unmap,
}

// Clears the entry at an index, and returns the clusters that it no longer references.
fn clear_at(
    table: &mut L2Table,
    index: usize,
    clearing: Clearing,
) -> Result<Option<ClustersToFreeEntry>, Fault>
    requires inside { index < length table.old.raw_entries }
    ensures ok { IfOk result (λ given. ClearsAt clearing index table.old given table.new) }
    ensures err { IfErr result (λ e. (e ≡ Fault.VersionLimit) × (IsPossible clearing table.old.layout.version → ⊥)) }
{
    let mut guard = table.lock_write();
    match clearing {
        Clearing::Keep => guard.zero_cluster(index, true),
        Clearing::GiveUp => guard.zero_cluster(index, false),
        Clearing::Unmap => Ok(guard.discard_cluster(index)),
    }
}

// Clears the entry at an index, and adds the clusters that it no longer references to the list of clusters to free.
fn clear_entry(
    table: &mut L2Table,
    to_free: &mut ClustersToFreeList,
    index: usize,
    clearing: Clearing,
) -> Result<(), Fault>
    requires inside { index < length table.old.raw_entries }
    ensures ok { OnOk result (ClearsEntry clearing index (listing table.old to_free.old) (listing table.new to_free.new)) }
    ensures err { IfErr result (λ e. (e ≡ Fault.Memory) ⊎ ((e ≡ Fault.VersionLimit) × (IsPossible clearing table.old.layout.version → ⊥))) }
    ensures held { to_free.new.held ≡ to_free.old.held }
{
    let given = clear_at(table, index, clearing)?;
    defer_free(to_free, given)
}

// Clears `count` entries from an index on.
fn clear_entries(
    table: &mut L2Table,
    to_free: &mut ClustersToFreeList,
    index: usize,
    count: ClusterCount,
    clearing: Clearing,
) -> Result<(), Fault>
    requires inside { index + count ≤ length table.old.raw_entries }
    requires end_bounded { index + count < 2 ^ 32 }
    ensures ok { OnOk result (ClearsEntries clearing index count (listing table.old to_free.old) (listing table.new to_free.new)) }
    ensures err { IfErr result (λ e. (e ≡ Fault.Memory) ⊎ (IsPossible clearing table.old.layout.version → ⊥)) }
    ensures held { to_free.new.held ≡ to_free.old.held }
{
    for next in 0..count.0 {
        let at = index + next as usize;
        clear_entry(table, to_free, at, clearing)?;
    }
    Ok(())
}

// Clears the entries of consecutive guest clusters in a table. If the table is for another cluster size, the fault is
// `Fault::DamagedTable`.
fn clear_in(
    table: &mut L2Table,
    to_free: &mut ClustersToFreeList,
    guest: GuestCluster,
    count: ClusterCount,
    clearing: Clearing,
    cluster_bits: u32,
) -> Result<(), Fault>
    requires row { guest % l2_entries cluster_bits + count ≤ l2_entries cluster_bits }
    ensures cleared { ClearsIn clearing cluster_bits (guest % l2_entries cluster_bits) count (listing table.old to_free.old) result
        (listing table.new to_free.new) }
    ensures held { to_free.new.held ≡ to_free.old.held }
{
    if table.cluster_bits() != cluster_bits {
        return Err(Fault::DamagedTable);
    }
    let index = guest.l2_index(cluster_bits);
    clear_entries(table, to_free, index, count, clearing)
}

// Like `clear_in`, for the L2 table in a cluster.
fn clear_in_table<S: Storage>(
    file: &mut ImageFile<S>,
    caches: &mut MetadataCaches<S>,
    to_free: &mut ClustersToFreeList,
    table: HostCluster,
    guest: GuestCluster,
    count: ClusterCount,
    clearing: Clearing,
) -> Result<(), Fault>
    requires row { let entries = l2_entries file.old.header.fields.cluster_bits in guest % entries + count ≤ entries }
    ensures cleared { let bits = file.old.header.fields.cluster_bits in UsesTable S.state table
        (λ t r t'. ClearsIn clearing bits (guest % l2_entries bits) count (listing t to_free.old) r (listing t' to_free.new))
        (cached_file caches.old file.old) result (cached_file caches.new file.new) }
    ensures held { to_free.new.held ≡ to_free.old.held }
{
    let cluster_bits = file.header.cluster_bits();
    let table = caches.l2_get_or_insert(file, table)?;
    clear_in(table, to_free, guest, count, clearing, cluster_bits)
}

/// Clears `count` consecutive guest clusters.
///
/// All entries are in the L2 table at `table`. The clusters that they no longer reference are added to the list of
/// clusters to free. After success only this table is cached, and it is clean.
///
/// # Preconditions
///
/// Nothing is cached, and the caches have space for a table and for a block. `count` is above 0, and all entries are in
/// one table. `Clearing::Keep` and `Clearing::GiveUp` need an image of version 3.
///
/// # Errors
///
/// - `Fault::Memory`, `Fault::Storage`.
/// - `Fault::DamagedTable` if the table has an invalid entry or its offset isn't valid. A consistent image has neither.
///
/// # On error
///
/// Nothing is cached. Each guest byte reads as before, or, in these guest clusters, as zero or as in the backing file.
/// Reserved slots (memory for entries of the free list) stay reserved. Which entries were cleared, and what is on the
/// free list, is unspecified, so the image must be opened again before another change. The file never gets shorter.
///
/// # Crash safety
///
/// If the image is consistent, and its storage keeps what is written and refuses no change, each crash image (the file
/// after a crash between two requests) is consistent. Each of its guest bytes reads as before, or, in these guest
/// clusters, as zero or as in the backing file.
pub fn clear_run<S: Storage>(
    file: &mut ImageFile<S>,
    caches: &mut MetadataCaches<S>,
    space: &mut Space,
    table: HostCluster,
    guest: GuestCluster,
    count: ClusterCount,
    clearing: Clearing,
) -> Result<(), Fault>
    requires caches_empty { AreEmpty caches.old }
    requires room { HasEntries caches.old }
    requires any { 0 < count }
    requires possible { IsPossible clearing file.old.header.fields.version }
    requires row { let entries = l2_entries file.old.header.fields.cluster_bits in guest % entries + count ≤ entries }
    ensures clears { let c = clusters_state file.old caches.old space.old in let m = flushed_metadata S.state c in
        SetsRun S.state guest count (AreUnder count m table guest) (clearing_setting clearing m guest count) c result
        (clusters_state file.new (without_tables caches.new) space.new) }
    ensures leaves { let c = clusters_state file.old caches.old space.old in
        StaysCached S.state table (AreUnder count (flushed_metadata S.state c) table guest) c result (clusters_state file.new caches.new space.new) }
{
    let cleared = clear_in_table(
        file,
        caches,
        &mut space.to_free,
        table,
        guest,
        count,
        clearing,
    );
    match cleared {
        Ok(()) => write_back_keeping_tables(file, caches),
        Err(fault) => write_back(file, caches, Err(fault)),
    }
}

/// Law: if consecutive entries of an L2 table are cleared, and only this table is cached for a consistent image with
/// nothing dirty, the image stays consistent, and only those guest clusters change.
///
/// The clusters that the entries referenced are on the list of clusters to free. In each crash image (the file after a
/// crash between two requests) a guest byte reads as before, or, in these guest clusters, as zero or as in the backing
/// file.
pub fn clearing_entries()
    ensures cleared { (clearing : Clearing) (m : Metadata) (table guest n : ℕ) (order : CacheDependency) (t : TableValue) (list : FreeList)
        (after : Listed) → IsSound m → 0 < n → AreUnder n m table guest → IsPossible clearing m.header.fields.version
        → t ≡ table_in m.file m.header.fields table (entries_of_cluster m.header.fields)
        → guest % entries_of_cluster m.header.fields + n ≤ entries_of_cluster m.header.fields
        → let found = cached_alone m order table (listing t list) in IsSound found → GuestUnchanged (λ _. 0) (λ _. 0) m found
        → ClearsEntries clearing (guest % entries_of_cluster m.header.fields) n (listing t list) after
        → let kind = clearing_run clearing m guest n in let set = cached_alone m order table after in
        Advances kind.gives kind.written kind.set kind.excess_added kind.taken found set
        × (after.list.entries ≡ list.entries ++ given_up_run clearing m guest n)
        × ((d : ℕ) → d < n → entry (in_memory set) m.header.fields (guest + d)
        ≡ cleared clearing (entry m.file m.header.fields (guest + d))) }
{}
