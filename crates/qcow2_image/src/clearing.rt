// Zeroes and discards the whole guest clusters of a range. One call clears the clusters whose entries are in one L2 table, and all these
// entries change by one request. Definitions: specs/Clearing.antt.
ghost use Rattle.std.specs.Prelude.{◌≡◌, ◌<◌, ◌≤◌, ◌+◌, ◌/◌, ◌%◌, ◌^◌, ◌↔◌, length, None, OnOk, IfErr, IsTrue};
ghost use Rattle.imago_storage.specs.declared.fault.Fault.{Fault};
ghost use Rattle.qcow2_types.specs.Entries.{l2_entries};
ghost use Rattle.qcow2_types.specs.Header.{entries_of_cluster};
ghost use Rattle.qcow2_clusters.specs.Clearing.{IsPossible};
ghost use Rattle.qcow2_image.specs.Allocating.{Begins};
ghost use Rattle.qcow2_image.specs.Clearing.{BeginsTables, ClearsClusters, ClearsPart, ClearsRange, ClearsTables, IsWholeEnd, IsWholePart};
ghost use Rattle.qcow2_image.specs.Looking.{place_of_table};

use crate::lookup::l2_cluster;
use crate::qcow2::Qcow2;
use crate::reloading::drop_cached;
use crate::tables::Tables;
use imago_storage::{Fault, Storage};
use qcow2_clusters::{Clearing, clear_run};
use qcow2_metadata::{Header, L1Table};
use qcow2_types::{ClusterCount, GuestCluster, GuestOffset, HostCluster};
use std::alloc::Global;

// The part of a range that one call clears: `count` whole guest clusters from `guest` on, whose entries are in one L2 table. Its bytes are
// the `length` bytes from `start` on. The whole guest clusters of the range, in any table, are the `rest` bytes from `start` on.
#[derive(Clone, Copy)]
pub(crate) struct Part {
    pub(crate) start: u64,
    pub(crate) guest: GuestCluster,
    pub(crate) count: ClusterCount,
    pub(crate) length: u64,
    pub(crate) rest: u64,
}

// Returns the index of the first guest cluster after the last whole one, for a range that ends at `end`. The last cluster of the disk is
// whole if the range ends with the disk.
fn whole_end(header: &Header, end: u64) -> u64
    requires inside { end ≤ header.now.fields.size }
    ensures { IsWholeEnd header.now.fields end result }
{
    let cluster_bits = header.cluster_bits();
    if end == header.size() {
        ClusterCount::from_byte_size(end, cluster_bits).0
    } else {
        GuestOffset(end).cluster(cluster_bits).0
    }
}

// Returns the part of a range that one call clears.
pub(crate) fn whole_part(header: &Header, offset: u64, length: u64) -> Part
    requires inside { offset + length ≤ header.now.fields.size }
    requires fits { offset + length < 2 ^ 64 }
    ensures { IsWholePart header.now.fields offset length result }
{
    let cluster_bits = header.cluster_bits();
    let cluster_size = header.cluster_size() as u64;
    let end = offset + length;
    let guest = GuestCluster(ClusterCount::from_byte_size(offset, cluster_bits).0);
    let row = (header.l2_entries() - guest.l2_index(cluster_bits)) as u64;
    let whole = whole_end(header, end).saturating_sub(guest.0);
    let count = whole.min(row);
    let start = guest.0.saturating_mul(cluster_size);
    let left = end.saturating_sub(start);
    let length = left.min(count * cluster_size);
    let rest = left.min(whole.saturating_mul(cluster_size));
    Part {
        start,
        guest,
        count: ClusterCount(count),
        length,
        rest,
    }
}

// Checks that an image of this version can be cleared in this way. Entries of zeroes need version 3. The error is `Fault::VersionLimit`.
fn check_version(header: &Header, clearing: Clearing) -> Result<(), Fault>
    ensures ok { OnOk result (IsPossible clearing header.now.fields.version) }
    ensures err { IfErr result (λ e. (e ≡ Fault.VersionLimit) × (IsPossible clearing header.now.fields.version → ⊥)) }
{
    match clearing {
        Clearing::Unmap => Ok(()),
        Clearing::Keep | Clearing::GiveUp => {
            if header.version() == 3 {
                Ok(())
            } else {
                Err(Fault::VersionLimit)
            }
        }
    }
}

// Returns true if the call unmaps guest clusters, and no L1 entry references their table. They are unmapped already.
fn is_unmapped(l1: &L1Table, guest: GuestCluster, cluster_bits: u32, clearing: Clearing) -> bool
    requires { (9 ≤ cluster_bits) × (cluster_bits ≤ 21) }
    ensures { IsTrue result → (clearing ≡ Clearing.Unmap) × (place_of_table l1.now.raw_entries cluster_bits guest ≡ None) }
{
    match clearing {
        Clearing::Unmap => l2_cluster(l1, guest, cluster_bits).is_none(),
        Clearing::Keep | Clearing::GiveUp => false,
    }
}

// Returns true if the call unmaps guest clusters, and the L1 table has no entry for the first one. Then it has none for a later one either.
fn is_past_l1(header: &Header, l1: &L1Table, guest: GuestCluster, clearing: Clearing) -> bool
    ensures { IsTrue result ↔ (clearing ≡ Clearing.Unmap) × (length l1.now.raw_entries ≤ guest / entries_of_cluster header.now.fields) }
{
    match clearing {
        Clearing::Unmap => !l1.in_bounds(guest.l1_index(header.cluster_bits())),
        Clearing::Keep | Clearing::GiveUp => false,
    }
}

// Clears guest clusters in their L2 table. First it reserves memory for the clusters that their entries reference. It sets `begun` once an
// entry may have changed.
fn clear_tables<S: Storage>(
    tables: &mut Tables<S>,
    table: HostCluster,
    guest: GuestCluster,
    count: ClusterCount,
    clearing: Clearing,
    begun: &mut bool,
) -> Result<(), Fault>
    requires any { 0 < count }
    requires possible { IsPossible clearing tables.old.file.header.fields.version }
    requires row { let entries = l2_entries tables.old.file.header.fields.cluster_bits in guest % entries + count ≤ entries }
    ensures clears { ClearsTables S.Storage clearing table guest count tables.old result tables.new }
    ensures begins { BeginsTables begun.old tables.old begun.new tables.new }
{
    let Some(mut space) = tables.space.take() else {
        return Err(Fault::DamagedTable);
    };
    if let Err(fault) = space.to_free.reserve(count.0 as usize) {
        tables.space = Some(space);
        return Err(fault);
    }
    *begun = true;
    let _dropped = drop_cached(&mut tables.caches);
    let cleared = clear_run(
        &mut tables.file,
        &mut tables.caches,
        &mut space,
        table,
        guest,
        count,
        clearing,
    );
    tables.space = Some(space);
    cleared
}

impl<S: Storage> Qcow2<S> {
    // Clears guest clusters in their L2 table, which isn't shared. A resource error after the change has begun sets the image to failed, as
    // a part may have been written.
    pub(crate) fn clear_clusters(
        &mut self,
        table: HostCluster,
        guest: GuestCluster,
        count: ClusterCount,
        clearing: Clearing,
        begun: &mut bool,
    ) -> Result<(), Fault>
        requires any { 0 < count }
        requires possible { IsPossible clearing self.old.tables.file.header.fields.version }
        requires row { let entries = l2_entries self.old.tables.file.header.fields.cluster_bits in guest % entries + count ≤ entries }
        ensures clears { ClearsClusters S.Storage clearing table guest count self.old result self.new }
        ensures begins { Begins S.Storage begun.old self.old result begun.new self.new }
    {
        let cleared = clear_tables(&mut self.tables, table, guest, count, clearing, begun);
        self.mark_change_fault(cleared, *begun)
    }

    // Clears consecutive guest clusters of one L2 table. The table is made if it's missing, and copied if it may be shared. If there is no
    // table and the call unmaps the clusters, nothing is done.
    fn clear_part(
        &mut self,
        alloc: Global,
        guest: GuestCluster,
        count: ClusterCount,
        clearing: Clearing,
    ) -> Result<(), Fault>
        requires any { 0 < count }
        requires possible { IsPossible clearing self.old.tables.file.header.fields.version }
        requires row { let entries = l2_entries self.old.tables.file.header.fields.cluster_bits in guest % entries + count ≤ entries }
        requires free { self.old.unspent ≡ None }
        ensures { ClearsPart S.Storage clearing guest count self.old result self.new }
    {
        let cluster_bits = self.tables.file.header.cluster_bits();
        if is_unmapped(&self.tables.l1, guest, cluster_bits, clearing) {
            return Ok(());
        }
        // Loading the free space counts as the first change.
        let mut begun = self.tables.space.is_none();
        self.load_space(alloc)?;
        let table = self.ensure_table(alloc, guest, &mut begun)?;
        self.clear_clusters(table, guest, count, clearing, &mut begun)
    }

    // Clears the whole guest clusters of a range, as far as one L2 table reaches. Returns the start and the length of the part that was
    // cleared, in bytes. Without a whole cluster the part is empty, at the first cluster boundary of the range. If the call unmaps and the
    // clusters are past the end of the L1 table, the part has all of them, as none is mapped.
    //
    // The errors are those of any change of a range, then `Fault::VersionLimit` if the image's version has no entries of zeroes.
    // `Fault::Limit` means that no L2 table can be allocated. `Fault::Memory` and `Fault::Storage` set the image to failed, unless
    // nothing has changed. A crash leaves the old entries, or all new ones.
    pub(crate) fn clear(
        &mut self,
        alloc: Global,
        offset: u64,
        length: u64,
        clearing: Clearing,
    ) -> Result<(u64, u64), Fault>
        requires free { self.old.unspent ≡ None }
        ensures { ClearsRange S.Storage clearing offset length self.old result self.new }
    {
        if self.failed {
            return Err(Fault::Failed);
        }
        if length == 0 {
            return Ok((offset, 0));
        }
        self.check_change(offset, length)?;
        check_version(&self.tables.file.header, clearing)?;
        let part = whole_part(&self.tables.file.header, offset, length);
        let count = part.count;
        if count.0 == 0 {
            return Ok((part.start, 0));
        }
        let tables = &self.tables;
        if is_past_l1(&tables.file.header, &tables.l1, part.guest, clearing) {
            return Ok((part.start, part.rest));
        }
        self.clear_part(alloc, part.guest, count, clearing)?;
        Ok((part.start, part.length))
    }
}
