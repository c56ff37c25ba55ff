// Prepares mappings for guest clusters that can't be written in place: their new host clusters, and the data of the first one. Definitions:
// specs/Preparing.antt.
ghost use Rattle.std.specs.Prelude.{◌≡◌, ◌<◌, ◌≤◌, ◌+◌, ◌-◌, ◌*◌, ◌/◌, ◌%◌, ◌^◌, false, None, length, IfSome};
ghost use Rattle.imago_access.specs.Changes.{asking};
ghost use Rattle.qcow2_types.specs.Header.{cluster_size, entries_of_cluster};
ghost use Rattle.qcow2_metadata.specs.Places.{IsAddressable};
ghost use Rattle.qcow2_image.specs.Preparing.{CoversMost, FindsRun, KeepsMapping, PreparesFresh, PreparesRun, Reserves, run_in};

use crate::lookup::look_up;
use crate::qcow2::{PreparedMappingState, Qcow2};
use crate::unspent::{Unspent, Writes};
use imago_access::{LayersBelowModel, PreparedDataMapping, ReadBelow};
use imago_storage::{Fault, Storage};
use qcow2_metadata::Header;
use qcow2_types::{ClusterCount, GuestCluster, GuestOffset, HostCluster};
use std::alloc::Global;
use std::snapshot::Snapshot;

// Consecutive host clusters for consecutive guest clusters, and the cluster of the L2 table of the guest clusters. The host clusters are
// newly allocated, or, if `is_kept` is set, a preallocated zero cluster.
#[derive(Clone, Copy)]
pub(crate) struct Reserved {
    pub(crate) table: HostCluster,
    pub(crate) host: HostCluster,
    pub(crate) count: ClusterCount,
    pub(crate) is_kept: bool,
}

// Returns how many consecutive guest clusters of a range, from its first on, are in one L2 table and, except the first, are covered
// completely. After the first, a cluster in which the disk ends isn't counted: its bytes after the end must be zeroes.
fn most_covered(header: &Header, offset: u64, length: u64) -> u64
    requires inside { offset + length ≤ header.now.fields.size }
    requires nonempty { 0 < length }
    requires fits { offset + length < 2 ^ 64 }
    ensures { CoversMost header.now.fields offset length result }
{
    let cluster_bits = header.cluster_bits();
    let guest = GuestOffset(offset).cluster(cluster_bits);
    let behind = GuestOffset(offset + length).cluster(cluster_bits);
    let row = (header.l2_entries() - guest.l2_index(cluster_bits)) as u64;
    behind.0.saturating_sub(guest.0).min(row).max(1)
}

impl<S: Storage> Qcow2<S> {
    // Returns how many bytes of a range are in the first `count` of its guest clusters.
    fn run_in(&self, count: ClusterCount, offset: u64, length: u64) -> u64
        requires within_table { count ≤ entries_of_cluster self.now.tables.file.header.fields }
        requires any { 0 < count }
        ensures { result ≡ run_in self.now.tables.file.header.fields count offset length }
    {
        let within = offset % self.tables.file.header.cluster_size() as u64;
        let all = count.0 * self.tables.file.header.cluster_size() as u64;
        length.min(all - within)
    }

    // Returns how many consecutive guest clusters get consecutive host clusters, from the one at `offset` on, which can't be written in
    // place. The clusters after the first are mapped like the first, and the range covers them completely. Without `overwrite` the answer
    // is 1.
    fn covered_run(
        &mut self,
        offset: u64,
        length: u64,
        overwrite: bool,
    ) -> Result<ClusterCount, Fault>
        requires inside { offset + length ≤ self.old.tables.file.header.fields.size }
        requires nonempty { 0 < length }
        requires runs { self.old.failed ≡ false }
        ensures { FindsRun S.Storage (asking offset length overwrite) self.old result self.new }
    {
        // Its type bounds the size.
        let _size = self.tables.file.header.size();
        let most = most_covered(&self.tables.file.header, offset, length);
        if !overwrite || most == 1 {
            return Ok(ClusterCount(1));
        }
        let guest = GuestOffset(offset).cluster(self.tables.file.header.cluster_bits());
        match look_up(&mut self.tables, guest, most) {
            Ok((_mapping, count)) => Ok(ClusterCount(count)),
            Err(fault) => {
                self.mark(fault);
                Err(fault)
            }
        }
    }

    // Provides host clusters for at most `count` consecutive guest clusters, and puts `content` in the first. If `kept` is given, it is
    // that preallocated zero cluster. Otherwise clusters are allocated. Afterwards the L2 table of the guest clusters isn't shared.
    fn reserve(
        &mut self,
        alloc: Global,
        guest: GuestCluster,
        kept: Option<HostCluster>,
        content: &[u8],
        count: ClusterCount,
    ) -> Result<Reserved, Fault>
        requires whole { length content.now ≡ cluster_size self.old.tables.file.header.fields }
        requires host_addressable { IfSome kept (λ host. IsAddressable self.old.tables.file.header.fields.cluster_bits host) }
        requires any { 0 < count }
        requires row { let entries = entries_of_cluster self.old.tables.file.header.fields in guest % entries + count ≤ entries }
        requires free { self.old.unspent ≡ None }
        ensures { Reserves S.Storage guest kept count content.now self.old result self.new }
    {
        // Loading the free space counts as the first change.
        let mut begun = self.tables.space.is_none();
        self.load_space(alloc)?;
        let table = self.ensure_table(alloc, guest, &mut begun)?;
        let placed = self.place_content(alloc, kept, content, count, &mut begun)?;
        Ok(Reserved {
            table,
            host: placed.host,
            count: placed.count,
            is_kept: placed.is_kept,
        })
    }

    // Prepares a mapping for the part of a range in its first `count` guest clusters at most, which can't be written in place. The first
    // host cluster gets the data that its guest cluster reads, except what the range overwrites.
    fn prepare_run<B: ReadBelow>(
        &mut self,
        alloc: Global,
        below: &mut B,
        offset: u64,
        length: u64,
        overwrite: bool,
        count: ClusterCount,
    ) -> Result<PreparedDataMapping<PreparedMappingState>, Fault>
        requires inside { offset + length ≤ self.old.tables.file.header.fields.size }
        requires nonempty { 0 < length }
        requires any { 0 < count }
        requires row { let h = self.old.tables.file.header.fields in
            offset / cluster_size h % entries_of_cluster h + count ≤ entries_of_cluster h }
        requires runs { self.old.failed ≡ false }
        requires free { self.old.unspent ≡ None }
        ensures { let asked = asking offset length overwrite in
            PreparesFresh S.Storage B.LayersBelowModel asked count (self.old, below.old) result (self.new, below.new) }
    {
        let cluster_bits = self.tables.file.header.cluster_bits();
        let guest = GuestOffset(offset).cluster(cluster_bits);
        let first = self.run_in(ClusterCount(1), offset, length);
        let content = self.content_for(alloc, below, offset, first, overwrite)?;
        let kept = self.kept_at(guest)?;
        let clusters = self.reserve(alloc, guest, kept, &content, count)?;
        let run = self.run_in(clusters.count, offset, length);
        Ok(self.hold(clusters, offset, run, overwrite))
    }

    // Like `prepare_run`, for as many guest clusters as `covered_run` finds.
    pub(crate) fn prepare_fresh<B: ReadBelow>(
        &mut self,
        alloc: Global,
        below: &mut B,
        offset: u64,
        length: u64,
        overwrite: bool,
    ) -> Result<PreparedDataMapping<PreparedMappingState>, Fault>
        requires inside { offset + length ≤ self.old.tables.file.header.fields.size }
        requires nonempty { 0 < length }
        requires runs { self.old.failed ≡ false }
        requires free { self.old.unspent ≡ None }
        ensures { let asked = asking offset length overwrite in
            PreparesRun S.Storage B.LayersBelowModel asked (self.old, below.old) result (self.new, below.new) }
    {
        let count = self.covered_run(offset, length, overwrite)?;
        self.prepare_run(alloc, below, offset, length, overwrite, count)
    }

    // Stores the host clusters as the prepared mapping of the image, with a new ID.
    fn hold(
        &mut self,
        clusters: Reserved,
        offset: u64,
        length: u64,
        overwrite: bool,
    ) -> PreparedDataMapping<PreparedMappingState>
        requires reach { IsAddressable self.old.tables.file.header.fields.cluster_bits (clusters.host + (clusters.count - 1)) }
        requires any { 0 < clusters.count }
        requires row { let c = cluster_size self.old.tables.file.header.fields in length ≤ clusters.count * c - offset % c }
        ensures { KeepsMapping S.Storage (asking offset length overwrite) clusters self.old result self.new }
    {
        let cluster_bits = self.tables.file.header.cluster_bits();
        let guest = GuestOffset(offset);
        let place = clusters.host.relative_offset(guest, cluster_bits).0;
        self.claims = self.claims.wrapping_add(1);
        self.unspent = Some(Unspent {
            mapping_id: self.claims,
            offset,
            length,
            place,
            guest: guest.cluster(cluster_bits),
            table: clusters.table,
            host: clusters.host,
            count: clusters.count,
            is_kept: clusters.is_kept,
            overwrite,
            copied: Snapshot::of(&self.tables.file.image),
            written: Writes::none(),
        });
        let state = PreparedMappingState {
            number: self.number,
            mapping_id: self.claims,
        };
        PreparedDataMapping::to_commit(0, place, length, state)
    }
}
