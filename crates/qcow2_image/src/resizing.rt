// Makes the disk of an image longer or shorter. The size in the header changes by the last request. Definitions: specs/Resizing.antt.
ghost use Rattle.std.specs.Prelude.{◌≡◌, ◌<◌, ◌≤◌, ◌+◌, ◌-◌, ◌*◌, ◌/◌, ◌%◌, ◌^◌, None, false, IsSome, OnOk};
ghost use Rattle.imago_storage.specs.declared.fault.Fault.{Fault};
ghost use Rattle.qcow2_types.specs.Entries.{l2_entries};
ghost use Rattle.qcow2_image.specs.Allocating.{Begins};
ghost use Rattle.qcow2_image.specs.Resizing.{GrowsDisk, MovesL1, OwnsTables, ShrinksDisk, SizesImage, UnmapsTail, SharesNone, KeepsMappings};
ghost use Rattle.qcow2_image.specs.Rooms.{IsWellFormed};

use crate::lookup::l2_cluster;
use crate::qcow2::Qcow2;
use crate::reloading::drop_cached;
use crate::tables::Tables;
use imago_storage::{Fault, Storage};
use qcow2_clusters::{Clearing, lengthen_l1, set_disk_size};
use qcow2_metadata::{Header, Table};
use qcow2_types::{ClusterCount, GuestCluster, GuestOffset};
use std::alloc::Global;

// Returns the first guest cluster that doesn't start before this offset.
pub(crate) fn first_from(offset: u64, cluster_bits: u32) -> GuestCluster
    requires bits { (9 ≤ cluster_bits) × (cluster_bits ≤ 21) }
    ensures value { result ≡ (offset + (2 ^ cluster_bits - 1)) / 2 ^ cluster_bits }
    ensures fits { result * 2 ^ cluster_bits < 2 ^ 64 + 2 ^ cluster_bits }
{
    GuestCluster(ClusterCount::from_byte_size(offset, cluster_bits).0)
}

// Returns the end of the guest clusters of a disk of `size` bytes that have an L1 entry: the first one after them.
fn mapped_end<S: Storage>(tables: &Tables<S>, size: u64) -> GuestCluster
    ensures inside { let bits = tables.now.file.header.fields.cluster_bits in result ≤ (size + (2 ^ bits - 1)) / 2 ^ bits }
    ensures fits { let bits = tables.now.file.header.fields.cluster_bits in result * 2 ^ bits < 2 ^ 64 + 2 ^ bits }
{
    let end = first_from(size, tables.file.header.cluster_bits());
    let mapped = (tables.l1.entries() as u64).saturating_mul(
        tables.file.header.l2_entries() as u64,
    );
    GuestCluster(end.0.min(mapped))
}

// Returns the number of guest clusters from `guest` on, up to `last`, whose entries are in the L2 table of `guest`.
pub(crate) fn row_from(header: &Header, guest: GuestCluster, last: GuestCluster) -> ClusterCount
    requires any { guest < last }
    ensures any { 0 < result }
    ensures end { guest + result ≤ last }
    ensures row { let entries = l2_entries header.now.fields.cluster_bits in guest % entries + result ≤ entries }
{
    let row = (header.l2_entries() - guest.l2_index(header.cluster_bits())) as u64;
    ClusterCount(row.min(last.0 - guest.0))
}

impl<S: Storage> Qcow2<S> {
    // Replaces the L1 table by one in newly allocated clusters, which has an entry at this index. A longer table keeps its length.
    pub(crate) fn move_l1(
        &mut self,
        alloc: Global,
        index: usize,
        begun: &mut bool,
    ) -> Result<(), Fault>
        requires free { self.old.unspent ≡ None }
        ensures moves { MovesL1 S.Storage index self.old result self.new }
        ensures begins { Begins S.Storage begun.old self.old result begun.new self.new }
    {
        let Some(space) = &mut self.tables.space else {
            return Err(Fault::DamagedTable);
        };
        let _dropped = drop_cached(&mut self.tables.caches);
        let longer = lengthen_l1(
            alloc,
            &mut self.tables.file,
            &mut self.tables.caches,
            space,
            &mut self.tables.l1,
            index,
            begun,
        );
        self.mark_change_fault(longer, *begun)
    }

    // Sets the disk size in the header, in one request. A resource error sets the image to failed.
    pub(crate) fn resize_to(&mut self, alloc: Global, size: u64) -> Result<(), Fault>
        requires free { self.old.unspent ≡ None }
        ensures { SizesImage S.Storage size self.old result self.new }
    {
        let _dropped = drop_cached(&mut self.tables.caches);
        let sized = set_disk_size(alloc, &mut self.tables.file, size);
        self.mark_change_fault(sized, true)
    }

    // Copies the L2 table of a guest cluster if it may be shared. A missing table isn't made. The guest cluster is looked up first, so that
    // an invalid table is found.
    fn own_one(&mut self, alloc: Global, guest: GuestCluster, begun: &mut bool) -> Result<(), Fault>
        requires free { self.old.unspent ≡ None }
        requires runs { self.old.failed ≡ false }
        requires fits { let bits = self.old.tables.file.header.fields.cluster_bits in (guest + 1) * 2 ^ bits < 2 ^ 64 + 2 ^ bits }
        ensures owns { OwnsTables S.Storage guest (guest + 1) self.old result self.new }
        ensures own { IsWellFormed S.Storage self.old → IsSome self.old.tables.space
            → OnOk result (SharesNone S.Storage guest self.new.tables) }
        ensures begins { Begins S.Storage begun.old self.old result begun.new self.new }
    {
        let shown = self.shown_at(guest);
        self.mark_change_fault(shown, *begun)?;
        let cluster_bits = self.tables.file.header.cluster_bits();
        if l2_cluster(&self.tables.l1, guest, cluster_bits).is_none() {
            return Ok(());
        }
        self.own_table(alloc, guest, begun)?;
        Ok(())
    }

    // Copies the shared L2 tables of the guest clusters from `first` on, up to `last`. A missing table isn't made. Each table is looked up
    // first, so that an invalid one is found before anything is unmapped.
    fn own_tables(
        &mut self,
        alloc: Global,
        first: GuestCluster,
        last: GuestCluster,
        begun: &mut bool,
    ) -> Result<(), Fault>
        requires free { self.old.unspent ≡ None }
        requires runs { self.old.failed ≡ false }
        requires fits { let bits = self.old.tables.file.header.fields.cluster_bits in last * 2 ^ bits < 2 ^ 64 + 2 ^ bits }
        ensures owns { OwnsTables S.Storage first last self.old result self.new }
        ensures begins { Begins S.Storage begun.old self.old result begun.new self.new }
    {
        let end = last.0;
        let mut next = first.0;
        while next < end {
            let guest = GuestCluster(next);
            let count = row_from(&self.tables.file.header, guest, GuestCluster(end));
            self.own_one(alloc, guest, begun)?;
            next += count.0;
        }
        Ok(())
    }

    // Unmaps consecutive guest clusters of one L2 table. Without a table nothing is done.
    fn unmap_part(
        &mut self,
        guest: GuestCluster,
        count: ClusterCount,
        begun: &mut bool,
    ) -> Result<(), Fault>
        requires any { 0 < count }
        requires row { let entries = l2_entries self.old.tables.file.header.fields.cluster_bits in guest % entries + count ≤ entries }
        requires free { self.old.unspent ≡ None }
        ensures unmaps { UnmapsTail S.Storage guest (guest + count) self.old result self.new }
        ensures begins { Begins S.Storage begun.old self.old result begun.new self.new }
    {
        let cluster_bits = self.tables.file.header.cluster_bits();
        match l2_cluster(&self.tables.l1, guest, cluster_bits) {
            Some(table) => self.clear_clusters(table, guest, count, Clearing::Unmap, begun),
            None => Ok(()),
        }
    }

    // Unmaps the guest clusters from `first` on, up to `last`, those of one L2 table by one request.
    fn unmap_tail(
        &mut self,
        first: GuestCluster,
        last: GuestCluster,
        begun: &mut bool,
    ) -> Result<(), Fault>
        requires free { self.old.unspent ≡ None }
        ensures unmaps { UnmapsTail S.Storage first last self.old result self.new }
        ensures begins { Begins S.Storage begun.old self.old result begun.new self.new }
    {
        let end = last.0;
        let mut next = first.0;
        while next < end {
            let guest = GuestCluster(next);
            let count = row_from(&self.tables.file.header, guest, GuestCluster(end));
            self.unmap_part(guest, count, begun)?;
            next += count.0;
        }
        Ok(())
    }

    // Makes the disk longer, and prepares nothing of the new bytes. The L1 table moves to new clusters, so that it is long enough. Until the
    // size changes, the guest reads the same bytes as before.
    //
    // `Fault::Limit` means that the L1 table can't be allocated. `Fault::Memory` and `Fault::Storage` set the image to failed, unless nothing
    // has changed.
    pub(crate) fn grow(&mut self, alloc: Global, size: u64) -> Result<(), Fault>
        requires free { self.old.unspent ≡ None }
        requires longer { self.old.tables.file.header.fields.size < size }
        requires fits { size ≤ 2 ^ 63 - 1 }
        ensures grows { GrowsDisk S.Storage size self.old result self.new }
        ensures keeps { OnOk result (KeepsMappings S.Storage self.old self.new) }
    {
        let cluster_bits = self.tables.file.header.cluster_bits();
        let index = GuestOffset(size - 1).l1_index(cluster_bits);
        // Loading the free space counts as the first change.
        let mut begun = self.tables.space.is_none();
        self.load_space(alloc)?;
        self.move_l1(alloc, index, &mut begun)?;
        self.resize_to(alloc, size)
    }

    // Makes the disk shorter. First it copies the shared L2 tables of the guest clusters past the new size. Then it unmaps these guest
    // clusters, and last the size changes.
    //
    // `Fault::Limit` means that an L2 table can't be allocated; then the guest reads the same bytes as before. `Fault::Memory` and
    // `Fault::Storage` set the image to failed, unless nothing has changed.
    pub(crate) fn shrink(&mut self, alloc: Global, size: u64) -> Result<(), Fault>
        requires free { self.old.unspent ≡ None }
        requires runs { self.old.failed ≡ false }
        requires shorter { size < self.old.tables.file.header.fields.size }
        ensures { ShrinksDisk S.Storage size self.old result self.new }
    {
        let cluster_bits = self.tables.file.header.cluster_bits();
        let old_size = self.tables.file.header.size();
        let first = first_from(size, cluster_bits);
        let last = mapped_end(&self.tables, old_size);
        // Loading the free space counts as the first change.
        let mut begun = self.tables.space.is_none();
        self.load_space(alloc)?;
        self.own_tables(alloc, first, last, &mut begun)?;
        self.unmap_tail(first, last, &mut begun)?;
        self.resize_to(alloc, size)
    }
}
