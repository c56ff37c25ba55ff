// Prepares the new guest clusters of a longer disk, so that they read as zeroes. This is done before the size in the header changes, so the
// guest sees nothing of it until then. Definitions: specs/Growing.antt.
ghost use Rattle.std.specs.Prelude.{◌≡◌, ◌<◌, ◌≤◌, ◌+◌, ◌-◌, ◌*◌, ◌%◌, ◌^◌, ⊤, ℕ, None, false, length, not, is_some, IsSome, MatchOption, OnOk};
ghost use Rattle.imago_access.specs.declared.format.PreallocateMode.TheVariants as ways;
ghost use Rattle.qcow2_types.specs.Entries.{l2_entries};
ghost use Rattle.qcow2_types.specs.Header.{cluster_size};
ghost use Rattle.qcow2_image.specs.Allocating.{Begins};
ghost use Rattle.qcow2_image.specs.FreeSpace.{LacksFreeRun, enough_for_run};
ghost use Rattle.qcow2_image.specs.Growing.{GrowsOver, GrowsZeroed, HasTableReady, IsPossibleFor, PreparesGrowth, ReadsTail, ReplacesCluster, StoresTail, TellsZero, ZeroesPart, ZeroesRange, new_way, reads_zeroes};
ghost use Rattle.qcow2_image.specs.Preparing.{LacksPlaceBeside};
ghost use Rattle.qcow2_image.specs.Rooms.{IsWellFormed};

use crate::allocating::Shown;
use crate::committing::link_host;
use crate::mappings::Reserved;
use crate::qcow2::Qcow2;
use crate::resizing::{first_from, row_from};
use imago_access::{LayersBelowModel, PreallocateMode, ReadBelow};
use imago_storage::{Fault, PreallocateMode as StorageMode, Storage};
use qcow2_clusters::Clearing;
use qcow2_types::{ClusterCount, GuestCluster, GuestOffset, HostCluster};
use std::alloc::Global;

// The way in which the new guest clusters of a longer disk are prepared: as zero clusters, or as newly allocated clusters of zeroes. In the
// second case the storage mode says how the zeroes are stored.
#[derive(Clone, Copy)]
pub(crate) enum NewClusters {
    Zero,
    Data(StorageMode),
}

// Returns how new guest clusters are prepared in this mode, or `None` if they aren't.
pub(crate) fn new_clusters(mode: PreallocateMode) -> Option<NewClusters>
    ensures way { result ≡ new_way mode }
    ensures none { MatchOption result (mode ≡ ways.None) (λ how. (mode ≡ ways.None) → ⊥) }
    ensures possible { MatchOption result ⊤ (λ how. (version : ℕ) → (mode ≡ ways.Zero → version ≡ 3) → IsPossibleFor how version) }
{
    match mode {
        PreallocateMode::None => None,
        PreallocateMode::Zero => Some(NewClusters::Zero),
        PreallocateMode::FormatAllocate => Some(NewClusters::Data(StorageMode::Zero)),
        PreallocateMode::FullAllocate => Some(NewClusters::Data(StorageMode::Allocate)),
        PreallocateMode::WriteData => Some(NewClusters::Data(StorageMode::WriteData)),
    }
}

// Returns true if a guest cluster that is read from there reads as zeroes.
fn is_zeroes(shown: Shown) -> bool
    ensures { result ≡ reads_zeroes shown }
{
    match shown {
        Shown::Zeroes => true,
        Shown::Below | Shown::Data(_) | Shown::Barred => false,
    }
}

impl<S: Storage> Qcow2<S> {
    // Makes guest clusters of one L2 table zero clusters. They are past the end of the disk, and the table isn't shared.
    fn zero_entries(
        &mut self,
        table: HostCluster,
        guest: GuestCluster,
        count: ClusterCount,
        begun: &mut bool,
    ) -> Result<ClusterCount, Fault>
        requires any { 0 < count }
        requires version { self.old.tables.file.header.fields.version ≡ 3 }
        requires row { let entries = l2_entries self.old.tables.file.header.fields.cluster_bits in guest % entries + count ≤ entries }
        requires past { let h = self.old.tables.file.header.fields in h.size ≤ guest * cluster_size h }
        requires free { self.old.unspent ≡ None }
        ensures zeroes { ZeroesPart S.Storage (HasTableReady S.Storage guest table self.old) (λ number. ⊥) guest count self.old result self.new }
        ensures begins { Begins S.Storage begun.old self.old result begun.new self.new }
    {
        self.clear_clusters(table, guest, count, Clearing::Keep, begun)?;
        Ok(count)
    }

    // Maps guest clusters of one L2 table to newly allocated clusters of zeroes: `count` of them, or only the first if no such run is free.
    // They are past the end of the disk, and the table isn't shared. Returns how many are mapped.
    fn map_zeroes(
        &mut self,
        alloc: Global,
        table: HostCluster,
        guest: GuestCluster,
        count: ClusterCount,
        mode: StorageMode,
        begun: &mut bool,
    ) -> Result<ClusterCount, Fault>
        requires any { 0 < count }
        requires row { let entries = l2_entries self.old.tables.file.header.fields.cluster_bits in guest % entries + count ≤ entries }
        requires past { let h = self.old.tables.file.header.fields in h.size ≤ guest * cluster_size h }
        requires free { self.old.unspent ≡ None }
        ensures zeroes { let full = LacksFreeRun S.Storage 1 (enough_for_run self.old.tables count) self.old.tables self.new.tables in
            ZeroesPart S.Storage (HasTableReady S.Storage guest table self.old) full guest count self.old result self.new }
        ensures begins { Begins S.Storage begun.old self.old result begun.new self.new }
    {
        let placed = self.store_most_zeroes(alloc, count, mode, begun)?;
        let clusters = Reserved {
            table,
            host: placed.host,
            count: placed.count,
            is_kept: false,
        };
        *begun = true;
        let linked = link_host(&mut self.tables, clusters, guest);
        self.mark_change_fault(linked, true)?;
        Ok(placed.count)
    }

    // Prepares guest clusters of one L2 table, past the end of the disk. Returns how many are prepared: at least the first.
    fn zero_part(
        &mut self,
        alloc: Global,
        guest: GuestCluster,
        count: ClusterCount,
        how: NewClusters,
        begun: &mut bool,
    ) -> Result<ClusterCount, Fault>
        requires any { 0 < count }
        requires possible { IsPossibleFor how self.old.tables.file.header.fields.version }
        requires row { let entries = l2_entries self.old.tables.file.header.fields.cluster_bits in guest % entries + count ≤ entries }
        requires past { let h = self.old.tables.file.header.fields in h.size ≤ guest * cluster_size h }
        requires free { self.old.unspent ≡ None }
        ensures zeroes { let full = LacksPlaceBeside S.Storage guest None self.old.tables self.new.tables in
            ZeroesPart S.Storage (IsWellFormed S.Storage self.old × IsSome self.old.tables.space) full guest count self.old result self.new }
        ensures begins { Begins S.Storage begun.old self.old result begun.new self.new }
    {
        let table = self.ensure_table(alloc, guest, begun)?;
        match how {
            NewClusters::Zero => self.zero_entries(table, guest, count, begun),
            NewClusters::Data(mode) => self.map_zeroes(alloc, table, guest, count, mode, begun),
        }
    }

    // Prepares the guest clusters from `first` on, up to `last`. All are past the end of the disk.
    fn zero_range(
        &mut self,
        alloc: Global,
        first: GuestCluster,
        last: GuestCluster,
        how: NewClusters,
        begun: &mut bool,
    ) -> Result<(), Fault>
        requires possible { IsPossibleFor how self.old.tables.file.header.fields.version }
        requires past { let h = self.old.tables.file.header.fields in h.size ≤ first * cluster_size h }
        requires free { self.old.unspent ≡ None }
        ensures zeroes { ZeroesRange S.Storage first last self.old result self.new }
        ensures begins { Begins S.Storage begun.old self.old result begun.new self.new }
    {
        let end = last.0;
        let mut next = first.0;
        while next < end {
            let guest = GuestCluster(next);
            let count = row_from(&self.tables.file.header, guest, GuestCluster(end));
            let done = self.zero_part(alloc, guest, count, how, begun)?;
            next += done.0;
        }
        Ok(())
    }

    // Makes the L1 table long enough for a disk of this size, and prepares the guest clusters that are wholly past the end of the disk.
    fn prepare_growth(
        &mut self,
        alloc: Global,
        size: u64,
        how: NewClusters,
        begun: &mut bool,
    ) -> Result<(), Fault>
        requires free { self.old.unspent ≡ None }
        requires longer { self.old.tables.file.header.fields.size < size }
        requires fits { size ≤ 2 ^ 63 - 1 }
        requires possible { IsPossibleFor how self.old.tables.file.header.fields.version }
        requires begun { is_some self.old.tables.space ≡ not begun.old }
        ensures prepares { PreparesGrowth S.Storage size self.old result self.new }
        ensures begins { OnOk result (Begins S.Storage begun.old self.old result begun.new self.new) }
    {
        let cluster_bits = self.tables.file.header.cluster_bits();
        let first = first_from(self.tables.file.header.size(), cluster_bits);
        let last = first_from(size, cluster_bits);
        let index = GuestOffset(size - 1).l1_index(cluster_bits);
        self.load_space(alloc)?;
        self.move_l1(alloc, index, begun)?;
        self.zero_range(alloc, first, last, how, begun)
    }

    // Makes the disk longer, and its new guest clusters zeroes. If the disk ends inside a cluster, the bytes past the old end of that cluster
    // have any values.
    //
    // `Fault::Limit` means that the L1 table, an L2 table or a cluster can't be allocated. Then the guest reads the same bytes as before.
    // `Fault::Memory` and `Fault::Storage` set the image to failed, unless nothing has changed.
    pub(crate) fn grow_zeroed(
        &mut self,
        alloc: Global,
        size: u64,
        how: NewClusters,
    ) -> Result<(), Fault>
        requires free { self.old.unspent ≡ None }
        requires longer { self.old.tables.file.header.fields.size < size }
        requires fits { size ≤ 2 ^ 63 - 1 }
        requires possible { IsPossibleFor how self.old.tables.file.header.fields.version }
        ensures { GrowsZeroed S.Storage size self.old result self.new }
    {
        // Loading the free space counts as the first change.
        let mut begun = self.tables.space.is_none();
        self.prepare_growth(alloc, size, how, &mut begun)?;
        self.resize_to(alloc, size)
    }

    // Stores the data of a guest cluster in a new cluster, and maps it there.
    fn replace_cluster(
        &mut self,
        alloc: Global,
        guest: GuestCluster,
        content: &[u8],
        begun: &mut bool,
    ) -> Result<(), Fault>
        requires whole { length content.now ≡ cluster_size self.old.tables.file.header.fields }
        requires free { self.old.unspent ≡ None }
        ensures replaces { ReplacesCluster S.Storage guest content.now self.old result self.new }
        ensures begins { Begins S.Storage begun.old self.old result begun.new self.new }
    {
        let table = self.ensure_table(alloc, guest, begun)?;
        let host = self.store_content(alloc, content, ClusterCount(1), begun)?;
        let clusters = Reserved {
            table,
            host,
            count: ClusterCount(1),
            is_kept: false,
        };
        *begun = true;
        let linked = link_host(&mut self.tables, clusters, guest);
        self.mark_change_fault(linked, true)
    }

    // Returns true if a guest cluster doesn't need a new host cluster to read as zeroes: it reads as zeroes, and new clusters are zero clusters.
    fn stays_zero(&mut self, guest: GuestCluster, how: NewClusters) -> Result<bool, Fault>
        requires fits { let bits = self.old.tables.file.header.fields.cluster_bits in (guest + 1) * 2 ^ bits < 2 ^ 64 + 2 ^ bits }
        requires runs { self.old.failed ≡ false }
        ensures { TellsZero S.Storage guest self.old result self.new }
    {
        match how {
            NewClusters::Zero => {
                let shown = self.shown_at(guest)?;
                Ok(is_zeroes(shown))
            }
            NewClusters::Data(_) => Ok(false),
        }
    }

    // Returns the bytes for a new host cluster of the last guest cluster of the disk: those past the end of the disk are zeroes. The result is
    // `None` if the cluster stays as it is: the disk ends where a cluster does, or the cluster reads as zeroes and needs no host cluster.
    fn read_tail<B: ReadBelow>(
        &mut self,
        alloc: Global,
        below: &mut B,
        how: NewClusters,
    ) -> Result<Option<Vec<u8>>, Fault>
        requires runs { self.old.failed ≡ false }
        ensures { ReadsTail S.Storage B.LayersBelowModel (self.old, below.old) result (self.new, below.new) }
    {
        let cluster_bits = self.tables.file.header.cluster_bits();
        let size = self.tables.file.header.size();
        if size % self.tables.file.header.cluster_size() as u64 == 0 {
            return Ok(None);
        }
        let guest = GuestOffset(size - 1).cluster(cluster_bits);
        let stays = self.stays_zero(guest, how)?;
        if stays {
            return Ok(None);
        }
        let content = self.content_for(alloc, below, size - 1, 1, false)?;
        Ok(Some(content))
    }

    // Stores these bytes of the last guest cluster of the disk in a new host cluster. Without bytes nothing is done.
    fn store_tail(
        &mut self,
        alloc: Global,
        tail: Option<Vec<u8>>,
        begun: &mut bool,
    ) -> Result<(), Fault>
        requires whole { let h = self.old.tables.file.header.fields in
            MatchOption tail ⊤ (λ content. (0 < h.size) × (length content.items ≡ cluster_size h)) }
        requires free { self.old.unspent ≡ None }
        ensures stores { StoresTail S.Storage tail self.old result self.new }
        ensures begins { Begins S.Storage begun.old self.old result begun.new self.new }
    {
        match tail {
            None => Ok(()),
            Some(content) => {
                let cluster_bits = self.tables.file.header.cluster_bits();
                let guest = GuestOffset(self.tables.file.header.size() - 1).cluster(cluster_bits);
                self.replace_cluster(alloc, guest, &content, begun)
            }
        }
    }

    // Makes the disk longer, and its new bytes zeroes.
    //
    // `Fault::Limit` means that the L1 table, an L2 table or a cluster can't be allocated. `Fault::Barred`, `Fault::DamagedTable`,
    // `Fault::Failed` and `Fault::MissingData` come if the disk ends inside a cluster that can't be read, before anything is allocated. After
    // these the guest reads the same bytes as before. `Fault::Memory` and `Fault::Storage` set the image to failed, unless nothing has changed.
    pub(crate) fn grow_over<B: ReadBelow>(
        &mut self,
        alloc: Global,
        below: &mut B,
        size: u64,
        how: NewClusters,
    ) -> Result<(), Fault>
        requires free { self.old.unspent ≡ None }
        requires runs { self.old.failed ≡ false }
        requires longer { self.old.tables.file.header.fields.size < size }
        requires fits { size ≤ 2 ^ 63 - 1 }
        requires possible { IsPossibleFor how self.old.tables.file.header.fields.version }
        ensures { GrowsOver S.Storage B.LayersBelowModel size (self.old, below.old) result (self.new, below.new) }
    {
        let tail = self.read_tail(alloc, below, how)?;
        // Loading the free space counts as the first change.
        let mut begun = self.tables.space.is_none();
        self.prepare_growth(alloc, size, how, &mut begun)?;
        self.store_tail(alloc, tail, &mut begun)?;
        self.resize_to(alloc, size)
    }
}
