// L2 tables in memory. They are changed through a guard: each change of an entry returns the clusters that the entry no longer references.
ghost use Rattle.std.specs.Prelude.{◌≡◌, ℕ, ◌+◌, ◌*◌, ◌%◌, ◌^◌, ◌<◌, ◌≤◌, ◌↔◌, ◌⊎◌, IsTrue, IsOk, OnOk, OnErr, IfOk, IsOkUnless, MatchOption, length, map, replicate, refl, Some, None, true, false};
ghost use Rattle.std.specs.Option.{is_some};
ghost use Rattle.qcow2_types.specs.Header.{layout_of, entries_of_cluster};
ghost use Rattle.qcow2_types.specs.Entries.{l2_entries};
ghost use Rattle.qcow2_types.specs.Words.{mapping_of};
ghost use Rattle.imago_storage.specs.Through.{AtomicWriteOutcome};
ghost use Rattle.qcow2_metadata.specs.Places.{IsAddressable};
ghost use Rattle.qcow2_metadata.specs.Tables.{mapping_in, with_raw_entry, shared_raw_entry};
ghost use Rattle.qcow2_types.specs.TableBytes.{table_bytes};

use crate::Header;
use crate::entries::{L2Entry, TableEntry};
use crate::entry_table::EntryTable;
use crate::layout::TableLayout;
use crate::mapping::{
    L2Mapping, allocation, kept_cluster, to_free, to_free_unless, to_free_unless_kept, zero_entry,
};
use crate::table::{Table, spend};
use crate::words::l2_mapping;
use imago_storage::{Fault, Storage};
use qcow2_types::{
    ClusterCount, ClustersToFreeEntry, GuestCluster, GuestOffset, HostCluster, HostOffset,
    PendingClusters,
};
use std::alloc::{AllocFailed, Global};

/// An L2 table, kept in memory. Each entry says where the bytes of a guest cluster are. The table fills one cluster.
pub type L2Table = EntryTable<L2Entry>;

impl L2Table {
    ghost use Rattle.qcow2_metadata.specs.MappingView.{mapping_seen, BacksAt, IsHostAddressable};
    ghost use Rattle.qcow2_metadata.specs.Allocations.{allocation_of, freed, replaced, kept_where, zeroed_raw_entry, unkept, newly, packed_part, Conserves, IsKeptAddressable};

    /// Returns a table of zero entries for an image with this header: each guest cluster is unmapped (read from the backing file). The
    /// table has no cluster in the file yet, and is dirty.
    ///
    /// # Errors
    ///
    /// - `Fault::Memory`.
    pub fn new_cleared(alloc: Global, header: &Header) -> Result<L2Table, Fault>
        ensures ok { IfOk result (λ table. table ≡ record {
          layout = layout_of header.now.fields;
          raw_entries = replicate (entries_of_cluster header.now.fields) 0;
          cluster = None;
          modified = true;
        }) }
        ensures err { IsOkUnless result Fault.Memory }
    {
        let mut content = Vec::with_capacity(alloc, header.l2_entries())?;
        for _raw_entry in 0..header.l2_entries() {
            content.push(L2Entry::empty())?;
        }
        Ok(L2Table::of_raw_entries(content, TableLayout::of_header(header)))
    }

    // Returns the meaning of the entry at an index. If the entry is unmapped, the backing file is read at `backing_offset`.
    fn mapping_at(&self, index: usize, backing_offset: u64) -> L2Mapping
        requires { index < length self.now.raw_entries }
        ensures means { mapping_seen result ≡ mapping_in self.now index }
        ensures named { IsHostAddressable self.now.layout.cluster_bits result }
        ensures backs { BacksAt backing_offset result }
    {
        match l2_mapping(self.get(index).to_plain(), self.layout(), backing_offset) {
            Ok(mapping) => mapping,
            Err(_) => unreachable!(),
        }
    }

    /// Returns where the bytes of a guest cluster are. If they are in the backing file, their offset there is that of the guest cluster.
    pub fn get_mapping(&self, lookup_cluster: GuestCluster) -> L2Mapping
        requires { lookup_cluster * 2 ^ self.now.layout.cluster_bits < 2 ^ 64 }
        ensures means { mapping_seen result ≡ mapping_in self.now (lookup_cluster % l2_entries self.now.layout.cluster_bits) }
        ensures named { IsHostAddressable self.now.layout.cluster_bits result }
        ensures backs { BacksAt (lookup_cluster * 2 ^ self.now.layout.cluster_bits) result }
    {
        let cluster_bits = self.cluster_bits();
        let GuestOffset(place) = lookup_cluster.offset(cluster_bits);
        self.mapping_at(lookup_cluster.l2_index(cluster_bits), place)
    }

    /// Returns a guard through which the entries can be changed.
    pub fn lock_write(&mut self) -> L2TableWriteGuard<'_>
        ensures same { result.table.ghost_name ≡ self.entry.ghost_name }
        ensures value { result.table.now ≡ self.old }
    {
        L2TableWriteGuard { table: self }
    }

    /// Writes the table to its cluster, which must be `cluster`, if it is dirty. Otherwise there is no I/O.
    ///
    /// # Errors
    ///
    /// - Those of `write`.
    pub fn write_if_modified<S: Storage>(
        &mut self,
        alloc: Global,
        image: &mut S,
        cluster: HostCluster,
    ) -> Result<(), Fault>
        requires placed { self.old.cluster ≡ Some cluster }
        requires reach { IsAddressable self.old.layout.cluster_bits cluster }
        ensures request { IsTrue self.old.modified → AtomicWriteOutcome (S.state image.old) (S.state image.new)
            (cluster * 2 ^ self.old.layout.cluster_bits) (table_bytes self.old.raw_entries) result }
        ensures nothing { self.old.modified ≡ false → IsOk result × (S.state image.new ≡ S.state image.old) }
        ensures ok { OnOk result (self.new ≡ record self.old { modified = false }) }
        ensures err { OnErr result (self.new ≡ record self.old { modified = true }) }
    {
        let _ = cluster;
        // This shows that the table fills its cluster.
        let _ = self.entries();
        if self.is_modified() {
            self.write(alloc, image)
        } else {
            Ok(())
        }
    }

    /// Returns a copy whose entries don't have the COPIED flag, since two tables now share their clusters.
    ///
    /// With an external data file the entries are unchanged. Its clusters have no refcounts, and the flag may be all that says that an
    /// entry references a cluster. The copy has no cluster in the file yet, and is dirty.
    ///
    /// # Errors
    ///
    /// - `Fault::Memory`.
    pub fn clone(&self, alloc: Global) -> Result<L2Table, Fault>
        ensures ok { IfOk result (λ table. table ≡ record self.now
            { raw_entries = map (shared_raw_entry self.now.layout) self.now.raw_entries; cluster = None; modified = true }) }
        ensures err { IsOkUnless result Fault.Memory }
    {
        let mut content = Vec::with_capacity(alloc, self.entries())?;
        for entry in self.content() {
            content.push(if self.layout().external_data() {
                *entry
            } else {
                entry.without_copied()
            })?;
        }
        Ok(L2Table::of_raw_entries(content, self.layout()))
    }

    /// Returns where the compressed bytes of a guest cluster are, or `None` if it isn't compressed. Nothing is decompressed.
    pub fn lock_compressed_read(
        &self,
        cluster: GuestCluster,
    ) -> Option<CompressedClusterReadGuard<'_>>
        ensures { MatchOption result (packed_part (mapping_in self.now (cluster % l2_entries self.now.layout.cluster_bits)) ≡ None)
            (λ guard. packed_part (mapping_in self.now (cluster % l2_entries self.now.layout.cluster_bits))
            ≡ Some (guard.host_offset, guard.length)) }
    {
        let index = cluster.l2_index(self.cluster_bits());
        match self.mapping_at(index, 0) {
            L2Mapping::Compressed {
                host_offset,
                length,
            } => Some(CompressedClusterReadGuard {
                _table: self,
                host_offset,
                length,
            }),
            _ => None,
        }
    }

    // Returns the host clusters that the entry at an index references.
    fn allocation_at(&self, index: usize) -> Option<(HostCluster, ClusterCount)>
        requires { index < length self.now.raw_entries }
        ensures { result ≡ allocation_of self.now.layout.cluster_bits (mapping_in self.now index) }
    {
        allocation(self.mapping_at(index, 0), self.cluster_bits())
    }

    // Returns the host cluster that the entry at an index keeps when its guest cluster is zeroed, with its COPIED flag.
    fn kept_at(&self, index: usize, keep: bool) -> Option<(HostCluster, bool)>
        requires { index < length self.now.raw_entries }
        ensures kept_host { result ≡ kept_where keep (mapping_in self.now index) }
        ensures reach { IsKeptAddressable self.now.layout.cluster_bits result }
    {
        kept_cluster(self.mapping_at(index, 0), keep, self.cluster_bits())
    }

    // Makes the entry at an index reference a host cluster, with the COPIED flag. Returns the clusters that the entry
    // referenced before, to be freed, or `None` if it referenced exactly this cluster.
    fn map_at(
        &mut self,
        index: usize,
        cluster: HostCluster,
        pending: Option<PendingClusters>,
    ) -> Option<ClustersToFreeEntry>
        requires bounds { index < length self.old.raw_entries }
        requires reach { IsAddressable self.old.layout.cluster_bits cluster }
        requires cluster_nonzero { (0 < cluster) ⊎ (self.old.layout.external_data ≡ true) }
        ensures table { self.new ≡ with_raw_entry self.old index (2 ^ 63 + cluster * 2 ^ self.old.layout.cluster_bits) }
        ensures back { result ≡ freed (replaced cluster (allocation_of self.old.layout.cluster_bits (mapping_in self.old index))) }
        ensures conserved { Conserves self.old.layout.cluster_bits (mapping_in self.old index)
            (mapping_of self.old.layout (2 ^ 63 + cluster * 2 ^ self.old.layout.cluster_bits)) result
            (newly cluster (allocation_of self.old.layout.cluster_bits (mapping_in self.old index))) }
    {
        let old = self.allocation_at(index);
        let place = cluster.offset(self.cluster_bits());
        self.set_entry(index, L2Entry::naming(place));
        spend(pending);
        to_free_unless(old, cluster)
    }

    // Sets the entry at an index to 0. Returns the clusters that the entry referenced before, to be freed.
    fn discard_at(&mut self, index: usize) -> Option<ClustersToFreeEntry>
        requires { index < length self.old.raw_entries }
        ensures table { self.new ≡ with_raw_entry self.old index 0 }
        ensures back { result ≡ freed (allocation_of self.old.layout.cluster_bits (mapping_in self.old index)) }
        ensures conserved { Conserves self.old.layout.cluster_bits (mapping_in self.old index)
            (mapping_of self.old.layout 0) result (λ c. 0) }
    {
        let old = self.allocation_at(index);
        self.set_entry(index, L2Entry::empty());
        to_free(old)
    }

    // Makes the entry at an index mean zeroes. If `keep_allocation` is set and the entry has a cluster of its own, it keeps
    // that cluster. Returns the other clusters that the entry referenced before, to be freed. Fails, with nothing changed,
    // exactly in version 2.
    fn zero_at(
        &mut self,
        index: usize,
        keep_allocation: bool,
    ) -> Result<Option<ClustersToFreeEntry>, Fault>
        requires { index < length self.old.raw_entries }
        ensures possible { IsOk result ↔ (self.old.layout.version ≡ 3) }
        ensures refused { IsOkUnless result Fault.VersionLimit }
        ensures stays { OnErr result (self.new ≡ self.old) }
        ensures table { OnOk result (self.new ≡ with_raw_entry self.old index
            (zeroed_raw_entry self.old.layout.cluster_bits (kept_where keep_allocation (mapping_in self.old index)))) }
        ensures back { IfOk result (λ entry. entry ≡ freed
            (unkept (is_some (kept_where keep_allocation (mapping_in self.old index)))
            (allocation_of self.old.layout.cluster_bits (mapping_in self.old index)))) }
        ensures conserved { IfOk result (λ entry. Conserves self.old.layout.cluster_bits (mapping_in self.old index)
            (mapping_of self.old.layout (zeroed_raw_entry self.old.layout.cluster_bits (kept_where keep_allocation (mapping_in self.old index))))
            entry (λ c. 0)) }
    {
        if self.layout().version() != 3 {
            return Err(Fault::VersionLimit);
        }
        let old = self.allocation_at(index);
        let kept = self.kept_at(index, keep_allocation);
        let is_kept = kept.is_some();
        self.set_entry(index, zero_entry(kept, self.cluster_bits()));
        Ok(to_free_unless_kept(old, is_kept))
    }
}

/// The location of a guest cluster's compressed bytes. The table can't change while the guard exists.
#[derive(Drop)]
pub struct CompressedClusterReadGuard<'a> {
    _table: &'a L2Table,
    host_offset: HostOffset,
    length: u64,
}

impl CompressedClusterReadGuard<'_> {
    /// Returns the host offset of the first byte.
    pub fn host_offset(&self) -> HostOffset
        ensures { result ≡ self.now.host_offset }
    {
        self.host_offset
    }

    /// Returns the length in bytes, up to the end of the last sector of 512 bytes. The compressed data may end before.
    pub fn length(&self) -> u64
        ensures { result ≡ self.now.length }
    {
        self.length
    }
}

/// A guard through which the entries of an L2 table can be changed.
///
/// Its calls return the clusters that an entry referenced before. With an external data file these are clusters of the external file, which
/// have no refcounts. Then the caller has nothing to free.
#[derive(Drop)]
pub struct L2TableWriteGuard<'a> {
    table: &'a mut L2Table,
}

impl L2TableWriteGuard<'_> {
    ghost use Rattle.qcow2_metadata.specs.MappingView.{mapping_seen, BacksAt, IsHostAddressable};
    ghost use Rattle.qcow2_metadata.specs.Allocations.{allocation_of, freed, replaced, kept_where, zeroed_raw_entry, unkept, newly, packed_part, Conserves, IsKeptAddressable};

    /// Returns where the bytes of a guest cluster are. If they are in the backing file, their offset there is that of the guest cluster.
    pub fn get_mapping(&self, lookup_cluster: GuestCluster) -> L2Mapping
        requires { lookup_cluster * 2 ^ self.now.table.now.layout.cluster_bits < 2 ^ 64 }
        ensures means { mapping_seen result ≡ mapping_in self.now.table.now
            (lookup_cluster % l2_entries self.now.table.now.layout.cluster_bits) }
        ensures named { IsHostAddressable self.now.table.now.layout.cluster_bits result }
        ensures backs { BacksAt (lookup_cluster * 2 ^ self.now.table.now.layout.cluster_bits) result }
    {
        self.table.get_mapping(lookup_cluster)
    }

    /// Returns where the compressed bytes of a guest cluster are, or `None` if it isn't compressed. Nothing is decompressed.
    pub fn compressed_read_guard(
        &self,
        cluster: GuestCluster,
    ) -> Option<CompressedClusterReadGuard<'_>>
        ensures { MatchOption result (packed_part (mapping_in self.now.table.now
            (cluster % l2_entries self.now.table.now.layout.cluster_bits)) ≡ None) (λ guard.
            packed_part (mapping_in self.now.table.now (cluster % l2_entries self.now.table.now.layout.cluster_bits))
            ≡ Some (guard.host_offset, guard.length)) }
    {
        self.table.lock_compressed_read(cluster)
    }

    /// Maps the guest cluster of the entry at `index` to a host cluster, with the COPIED flag. The table is now dirty. If the cluster is
    /// newly allocated, `pending` holds it, and is consumed: the entry now references it.
    ///
    /// The result is the clusters that the entry referenced before, which must be freed. It is `None` if the entry referenced none, or
    /// exactly this cluster.
    pub fn map_cluster(
        &mut self,
        index: usize,
        cluster: HostCluster,
        pending: Option<PendingClusters>,
    ) -> Option<ClustersToFreeEntry>
        requires bounds { index < length self.old.table.now.raw_entries }
        requires reach { IsAddressable self.old.table.now.layout.cluster_bits cluster }
        requires cluster_nonzero { (0 < cluster) ⊎ (self.old.table.now.layout.external_data ≡ true) }
        ensures table { self.new.table.now ≡ with_raw_entry self.old.table.now index
            (2 ^ 63 + cluster * 2 ^ self.old.table.now.layout.cluster_bits) }
        ensures back { result ≡ freed (replaced cluster
            (allocation_of self.old.table.now.layout.cluster_bits (mapping_in self.old.table.now index))) }
        // The guard is still for the same table, so that consecutive calls change one table.
        ensures same { self.new.table.ghost_name ≡ self.old.table.ghost_name }
        ensures conserved { Conserves self.old.table.now.layout.cluster_bits (mapping_in self.old.table.now index)
            (mapping_of self.old.table.now.layout (2 ^ 63 + cluster * 2 ^ self.old.table.now.layout.cluster_bits)) result
            (newly cluster (allocation_of self.old.table.now.layout.cluster_bits (mapping_in self.old.table.now index))) }
    {
        self.table.map_at(index, cluster, pending)
    }

    /// Makes the guest cluster of the entry at `index` read as zeroes. The table is now dirty.
    ///
    /// If `keep_allocation` is set, the entry keeps its host cluster as a preallocated one. A compressed cluster has none to keep. The
    /// result is the clusters that the entry referenced before, which must be freed. It is `None` if the entry referenced none, or keeps
    /// its cluster.
    ///
    /// # Errors
    ///
    /// - `Fault::VersionLimit` exactly if the version is 2. Nothing changes.
    pub fn zero_cluster(
        &mut self,
        index: usize,
        keep_allocation: bool,
    ) -> Result<Option<ClustersToFreeEntry>, Fault>
        requires { index < length self.old.table.now.raw_entries }
        ensures possible { IsOk result ↔ (self.old.table.now.layout.version ≡ 3) }
        ensures refused { IsOkUnless result Fault.VersionLimit }
        ensures stays { OnErr result (self.new.table.now ≡ self.old.table.now) }
        ensures same { self.new.table.ghost_name ≡ self.old.table.ghost_name }
        ensures table { OnOk result (self.new.table.now
            ≡ with_raw_entry self.old.table.now index (zeroed_raw_entry self.old.table.now.layout.cluster_bits
            (kept_where keep_allocation (mapping_in self.old.table.now index)))) }
        ensures back { IfOk result (λ entry. entry ≡ freed
            (unkept (is_some (kept_where keep_allocation (mapping_in self.old.table.now index)))
            (allocation_of self.old.table.now.layout.cluster_bits (mapping_in self.old.table.now index)))) }
        ensures conserved { IfOk result (λ entry. Conserves self.old.table.now.layout.cluster_bits (mapping_in self.old.table.now index)
            (mapping_of self.old.table.now.layout (zeroed_raw_entry self.old.table.now.layout.cluster_bits
            (kept_where keep_allocation (mapping_in self.old.table.now index)))) entry (λ c. 0)) }
    {
        self.table.zero_at(index, keep_allocation)
    }

    /// Unmaps the guest cluster of the entry at `index`: it now reads as the backing file, if any. The table is now dirty.
    ///
    /// The result is the clusters that the entry referenced before, if any, which must be freed.
    pub fn discard_cluster(&mut self, index: usize) -> Option<ClustersToFreeEntry>
        requires { index < length self.old.table.now.raw_entries }
        ensures table { self.new.table.now ≡ with_raw_entry self.old.table.now index 0 }
        ensures same { self.new.table.ghost_name ≡ self.old.table.ghost_name }
        ensures back { result ≡ freed (allocation_of self.old.table.now.layout.cluster_bits (mapping_in self.old.table.now index)) }
        ensures conserved { Conserves self.old.table.now.layout.cluster_bits (mapping_in self.old.table.now index)
            (mapping_of self.old.table.now.layout 0) result (λ c. 0) }
    {
        self.table.discard_at(index)
    }
}
