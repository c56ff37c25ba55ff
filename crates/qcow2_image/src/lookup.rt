// Finds where the bytes of guest clusters are, by the L1 table and the cached L2 tables. Definitions: specs/Looking.antt.
ghost use Rattle.std.specs.Prelude.{◌≡◌, ◌+◌, ◌*◌, ◌%◌, ◌^◌, ◌<◌, ◌≤◌};
ghost use Rattle.qcow2_types.specs.Entries.{l2_entries};
ghost use Rattle.qcow2_metadata.specs.Tables.{mapping_in};
ghost use Rattle.qcow2_metadata.specs.MappingView.{IsHostAddressable};
ghost use Rattle.qcow2_alloc.specs.Allocators.{UsesTable};
ghost use Rattle.qcow2_alloc.specs.Caches.{cached_file};
ghost use Rattle.qcow2_image.specs.Looking.{place_of_table, IsRunOf, ReadsRun, LooksAt};

use crate::tables::Tables;
use imago_storage::{Fault, Storage};
use qcow2_alloc::{ImageFile, MetadataCaches};
use qcow2_metadata::{L1Table, L2Mapping, L2Table, Table};
use qcow2_types::{GuestCluster, HostCluster};

// Returns the cluster of the L2 table of a guest cluster, if the L1 entry references one.
pub(crate) fn l2_cluster(
    l1: &L1Table,
    guest: GuestCluster,
    cluster_bits: u32,
) -> Option<HostCluster>
    requires { (9 ≤ cluster_bits) × (cluster_bits ≤ 21) }
    ensures { result ≡ place_of_table l1.now.raw_entries cluster_bits guest }
{
    match l1.get(guest.l1_index(cluster_bits)).l2_offset() {
        Some(offset) => Some(offset.cluster(cluster_bits)),
        None => None,
    }
}

// Returns the mapping of a guest cluster in a table, and the length of the run from it, at most `most` clusters. In a run the mappings are
// consecutive.
fn mapped_run(table: &L2Table, guest: GuestCluster, most: u64) -> (L2Mapping, u64)
    requires limit_nonzero { 0 < most }
    requires fits { (guest + most) * 2 ^ table.now.layout.cluster_bits < 2 ^ 64 + 2 ^ table.now.layout.cluster_bits }
    ensures run { IsRunOf guest most (λ g. mapping_in table.now (g % l2_entries table.now.layout.cluster_bits)) result }
    ensures named { IsHostAddressable table.now.layout.cluster_bits result.0 }
{
    let cluster_bits = table.cluster_bits();
    let first = table.get_mapping(guest);
    let mut last = first;
    for next in 1..most {
        let mapping = table.get_mapping(GuestCluster(guest.0 + next));
        if !mapping.is_consecutive(&last, cluster_bits) {
            return (first, next);
        }
        last = mapping;
    }
    (first, most)
}

// Like `mapped_run`, but fails with `Fault::DamagedTable` if the table is for another cluster size.
fn run_of(
    table: &mut L2Table,
    guest: GuestCluster,
    most: u64,
    cluster_bits: u32,
) -> Result<(L2Mapping, u64), Fault>
    requires limit_nonzero { 0 < most }
    requires fits { (guest + most) * 2 ^ cluster_bits < 2 ^ 64 + 2 ^ cluster_bits }
    ensures { ReadsRun cluster_bits guest most table.old result table.new }
{
    if table.cluster_bits() == cluster_bits {
        Ok(mapped_run(table, guest, most))
    } else {
        Err(Fault::DamagedTable)
    }
}

// Like `run_of`, in the L2 table in this cluster. The cache is searched once.
fn run_in_table<S: Storage>(
    file: &mut ImageFile<S>,
    caches: &mut MetadataCaches<S>,
    table: HostCluster,
    guest: GuestCluster,
    most: u64,
) -> Result<(L2Mapping, u64), Fault>
    requires limit_nonzero { 0 < most }
    requires fits { let bits = file.old.header.fields.cluster_bits in (guest + most) * 2 ^ bits < 2 ^ 64 + 2 ^ bits }
    ensures { let bits = file.old.header.fields.cluster_bits in
        UsesTable S.state table (ReadsRun bits guest most) (cached_file caches.old file.old) result (cached_file caches.new file.new) }
{
    let cluster_bits = file.header.cluster_bits();
    let table = caches.l2_get_or_insert(file, table)?;
    run_of(table, guest, most, cluster_bits)
}

// Returns the mapping of a guest cluster, and the length of the run from it, at most `most` clusters. All `most` clusters are in one L2
// table.
pub(crate) fn look_up<S: Storage>(
    tables: &mut Tables<S>,
    guest: GuestCluster,
    most: u64,
) -> Result<(L2Mapping, u64), Fault>
    requires limit_nonzero { 0 < most }
    requires fits { let bits = tables.old.file.header.fields.cluster_bits in (guest + most) * 2 ^ bits < 2 ^ 64 + 2 ^ bits }
    requires one_table { let entries = l2_entries tables.old.file.header.fields.cluster_bits in guest % entries + most ≤ entries }
    ensures { LooksAt S.Storage guest most tables.old result tables.new }
{
    let cluster_bits = tables.file.header.cluster_bits();
    match l2_cluster(&tables.l1, guest, cluster_bits) {
        Some(table) => run_in_table(&mut tables.file, &mut tables.caches, table, guest, most),
        None => {
            let backing_offset = guest.offset(cluster_bits).0;
            Ok((L2Mapping::Backing { backing_offset }, most))
        }
    }
}
