// Counts the clusters that the tables of an image reference, and those of the tables themselves.
ghost use Rattle.std.specs.Prelude.{◌≡◌, ℕ, ◌+◌, ◌*◌, ◌<◌, ◌≤◌, ◌^◌, length, slice_index, OnOk, IfOk, IfErr, IsOkUnless, IsTrue, All};
ghost use Rattle.imago_storage.specs.Calls.{UnchangedButFaults};
ghost use Rattle.qcow2_types.specs.Words.{max_offset, is_cluster_offset, data_at};
ghost use Rattle.qcow2_types.specs.Header.{Fields, cluster_size, entries_of_cluster, layout_of};
ghost use Rattle.qcow2_types.specs.Entries.{l1_table_sound, l2_table_sound};
ghost use Rattle.qcow2_types.specs.Counts.{refcount_table_sound};
ghost use Rattle.qcow2_metadata.specs.MappingView.{mapping_seen, IsHostAddressable};
ghost use Rattle.qcow2_metadata.specs.Loading.{file};
ghost use Rattle.qimg_core.specs.Entering.{AddsPlaces, AddsStart, AddsStructure, AddsMapping, AddsRawEntries, AddsTable, AddsTables};
ghost use Rattle.qimg_core.specs.CheckParts.{HasHeader, tables_of, AreTables, IsBlocks, HoldsPlaces};
ghost use Rattle.qimg_core.specs.Check.{IsUnsound, IsDamagedTable, IsOneDamaged, Found};

use super::names::{Tallies, Times, reference_cluster, reference_range};
use super::{CheckFault, blocks_end, load_fault};
use crate::file_end::entries_before;
use imago_storage::Storage;
use qcow2_metadata::{Header, L1Table, L2Mapping, RefTable, StoredL2Table, Table};
use qcow2_types::{GuestCluster, HostCluster, HostOffset};
use std::alloc::Global;

/// One reference to a cluster as a part of the structure: header, tables and refcount blocks.
const STRUCTURE: Times = Times {
    structure: 1,
    mapped: 0,
    copied: 0,
};

/// The offsets of the L2 tables, and of the refcount blocks.
#[derive(Drop)]
pub struct Places {
    pub tables: Vec<u64>,
    pub blocks: Vec<u64>,
}

/// Returns the offsets of the L2 tables, in the order of their L1 entries.
///
/// # Errors
///
/// - `CheckFault::Table` if a table has an invalid entry.
/// - `CheckFault::Memory` if memory runs out.
/// - `CheckFault::Storage` if the storage fails.
fn table_places<S: Storage>(
    alloc: Global,
    image: &mut S,
    header: &Header,
) -> Result<Vec<u64>, CheckFault>
    requires loads { HasHeader (file (S.state image.old)) header.now }
    ensures ok { IfOk result (λ places. places.items ≡ tables_of (file (S.state image.old)) header.now.fields) }
    ensures sound { OnOk result (IsTrue (l1_table_sound (file (S.state image.old)) header.now.fields)) }
    ensures err { IfErr result (Found (S.state image.old) (S.state image.new) (IsUnsound (file (S.state image.old)) header.now.fields)) }
    ensures unchanged_but_faults { UnchangedButFaults (S.state image.old) (S.state image.new) }
    ensures faults { OnOk result ((S.state image.new).faults ≡ (S.state image.old).faults) }
{
    let offset = header.l1_table_offset();
    let count = entries_before(image.size(), offset.0, header.l1_table_entries());
    let cluster = offset.cluster(header.cluster_bits());
    let table = match L1Table::load(alloc, image, header, cluster, count) {
        Ok(table) => table,
        Err(fault) => return Err(load_fault(fault, CheckFault::Table)),
    };
    let mut places = Vec::with_capacity(alloc, table.entries())?;
    for index in 0..table.entries() {
        if let Some(place) = table.get(index).l2_offset() {
            places.push(place.0)?;
        }
    }
    Ok(places)
}

/// Returns the offset of the block that each refcount table entry references, or 0 for an empty entry. Entries at the end may be missing
/// if they are 0.
///
/// # Errors
///
/// - `CheckFault::Table` if a table has an invalid entry.
/// - `CheckFault::Memory` if memory runs out.
/// - `CheckFault::Storage` if the storage fails.
fn block_places<S: Storage>(
    alloc: Global,
    image: &mut S,
    header: &Header,
) -> Result<Vec<u64>, CheckFault>
    requires loads { HasHeader (file (S.state image.old)) header.now }
    ensures ok { IfOk result (λ places. IsBlocks (file (S.state image.old)) header.now.fields places.items) }
    ensures sound { OnOk result (IsTrue (refcount_table_sound (file (S.state image.old)) header.now.fields)) }
    ensures err { IfErr result (Found (S.state image.old) (S.state image.new) (IsUnsound (file (S.state image.old)) header.now.fields)) }
    ensures unchanged_but_faults { UnchangedButFaults (S.state image.old) (S.state image.new) }
    ensures faults { OnOk result ((S.state image.new).faults ≡ (S.state image.old).faults) }
{
    let offset = header.reftable_offset();
    let count = entries_before(image.size(), offset.0, header.reftable_entries());
    let cluster = offset.cluster(header.cluster_bits());
    let table = match RefTable::load(alloc, image, header, cluster, count) {
        Ok(table) => table,
        Err(fault) => return Err(load_fault(fault, CheckFault::Table)),
    };
    let mut places = Vec::with_capacity(alloc, table.entries())?;
    for index in 0..table.entries() {
        let place = match table.get(index).refblock_offset() {
            Some(place) => place.0,
            None => 0,
        };
        places.push(place)?;
    }
    Ok(places)
}

/// Returns the offsets of the L2 tables, and of the refcount blocks up to the last one that exists.
///
/// # Errors
///
/// - `CheckFault::Table` if a table has an invalid entry.
/// - `CheckFault::Memory` if memory runs out.
/// - `CheckFault::Storage` if the storage fails.
pub fn places_of<S: Storage>(
    alloc: Global,
    image: &mut S,
    header: &Header,
) -> Result<Places, CheckFault>
    requires loads { HasHeader (file (S.state image.old)) header.now }
    ensures ok { IfOk result (λ places. HoldsPlaces (file (S.state image.old)) header.now.fields places.tables.items places.blocks.items) }
    ensures err { IfErr result (Found (S.state image.old) (S.state image.new) (IsUnsound (file (S.state image.old)) header.now.fields)) }
    ensures unchanged_but_faults { UnchangedButFaults (S.state image.old) (S.state image.new) }
    ensures faults { OnOk result ((S.state image.new).faults ≡ (S.state image.old).faults) }
{
    // Each list has the capacity for all entries of its table. It is shrunk because it is kept while the image is checked.
    let mut tables = table_places(alloc, image, header)?;
    tables.shrink_to_fit();
    let mut blocks = block_places(alloc, image, header)?;
    let end = blocks_end(&blocks);
    blocks.truncate(end);
    blocks.shrink_to_fit();
    Ok(Places { tables, blocks })
}

/// Adds 1 to the tally of the cluster at each of these offsets, as a table or a refcount block. An offset of 0 is skipped.
///
/// # Errors
///
/// - `CheckFault::Memory` if memory runs out.
pub fn reference_places(
    names: &mut Tallies,
    header: &Header,
    places: &[u64],
) -> Result<(), CheckFault>
    requires { (i : ℕ) → slice_index places.now i ≤ max_offset }
    ensures ok { OnOk result (AddsPlaces header.now.fields names.old names.new places.now) }
    ensures err { IsOkUnless result CheckFault.Memory }
{
    let size = header.cluster_size() as u64;
    for i in 0..places.len() {
        if places[i] != 0 {
            reference_range(names, header, places[i], size, STRUCTURE)?;
        }
    }
    Ok(())
}

/// Adds 1 to the tally of the first cluster, and of each cluster of the L1 table and the refcount table.
///
/// # Errors
///
/// - `CheckFault::Memory` if memory runs out.
fn reference_start(names: &mut Tallies, header: &Header) -> Result<(), CheckFault>
    requires l1 { header.now.fields.l1_offset + header.now.fields.l1_entries * 8 < 2 ^ 62 }
    requires refcounts { header.now.fields.refcount_table_offset + header.now.fields.refcount_table_clusters * cluster_size
        header.now.fields < 2 ^ 62 }
    ensures ok { OnOk result (AddsStart header.now.fields names.old names.new) }
    ensures err { IsOkUnless result CheckFault.Memory }
{
    let size = header.cluster_size() as u64;
    let HostOffset(l1_offset) = header.l1_table_offset();
    let HostOffset(reftable_offset) = header.reftable_offset();
    let l1_size = header.l1_table_entries() as u64 * 8;
    let reftable_size = header.reftable_clusters().0 * size;
    reference_range(names, header, 0, size, STRUCTURE)?;
    reference_range(names, header, l1_offset, l1_size, STRUCTURE)?;
    reference_range(names, header, reftable_offset, reftable_size, STRUCTURE)
}

/// Adds 1 to the tally of the first cluster, and of each cluster of the tables and the refcount blocks.
///
/// # Errors
///
/// - `CheckFault::Memory` if memory runs out.
pub fn reference_structure(
    names: &mut Tallies,
    header: &Header,
    places: &Places,
) -> Result<(), CheckFault>
    requires l1 { header.now.fields.l1_offset + header.now.fields.l1_entries * 8 < 2 ^ 62 }
    requires refcounts { header.now.fields.refcount_table_offset + header.now.fields.refcount_table_clusters * cluster_size
        header.now.fields < 2 ^ 62 }
    requires tables { (i : ℕ) → slice_index places.now.tables.items i ≤ max_offset }
    requires blocks { (i : ℕ) → slice_index places.now.blocks.items i ≤ max_offset }
    ensures ok { OnOk result (AddsStructure header.now.fields names.old names.new places.now.tables.items places.now.blocks.items) }
    ensures err { IsOkUnless result CheckFault.Memory }
{
    reference_start(names, header)?;
    reference_places(names, header, &places.blocks)?;
    reference_places(names, header, &places.tables)
}

/// Adds what an L2 entry references, `times` times.
///
/// # Errors
///
/// - `CheckFault::Memory` if memory runs out.
#[inline(always)]
fn reference_mapping(
    names: &mut Tallies,
    header: &Header,
    mapping: L2Mapping,
    times: u64,
) -> Result<(), CheckFault>
    requires wide { 9 ≤ header.now.fields.cluster_bits }
    requires named { IsHostAddressable header.now.fields.cluster_bits mapping }
    ensures ok { OnOk result (AddsMapping header.now.fields times names.old names.new (mapping_seen mapping)) }
    ensures err { IsOkUnless result CheckFault.Memory }
{
    match mapping {
        L2Mapping::DataFile {
            host_cluster,
            copied,
        } => reference_data(names, host_cluster, copied, times),
        L2Mapping::Zero {
            host_cluster,
            copied,
        } => match host_cluster {
            Some(cluster) => reference_data(names, cluster, copied, times),
            None => Ok(()),
        },
        L2Mapping::Compressed {
            host_offset,
            length,
        } => {
            let times = Times {
                structure: 0,
                mapped: times,
                copied: 0,
            };
            reference_range(names, header, host_offset.0, length, times)
        }
        L2Mapping::Backing { .. } => Ok(()),
    }
}

/// Adds a reference to the host cluster of an L2 entry, `times` times.
///
/// # Errors
///
/// - `CheckFault::Memory` if memory runs out.
#[inline(always)]
fn reference_data(
    names: &mut Tallies,
    cluster: HostCluster,
    copied: bool,
    times: u64,
) -> Result<(), CheckFault>
    requires { cluster < 2 ^ 53 }
    ensures ok { (h : Fields) → OnOk result (AddsMapping h times names.old names.new (data_at cluster copied)) }
    ensures err { IsOkUnless result CheckFault.Memory }
{
    let times = Times {
        structure: 0,
        mapped: times,
        copied: if copied { times } else { 0 },
    };
    reference_cluster(names, cluster.0, times)
}

/// Adds what the entries of an L2 table reference, `times` times.
///
/// # Errors
///
/// - `CheckFault::Memory` if memory runs out.
fn reference_entries(
    names: &mut Tallies,
    header: &Header,
    table: &StoredL2Table,
    times: u64,
) -> Result<(), CheckFault>
    requires layout { table.now.layout ≡ layout_of header.now.fields }
    requires whole { length table.now.raw_entries ≡ entries_of_cluster header.now.fields }
    ensures ok { OnOk result (AddsRawEntries header.now.fields times names.old names.new table.now.raw_entries) }
    ensures err { IsOkUnless result CheckFault.Memory }
{
    for index in 0..table.entries() {
        let mapping = table.get_mapping(GuestCluster(index as u64));
        reference_mapping(names, header, mapping, times)?;
    }
    Ok(())
}

/// Adds what the L2 table at offset `place` references, `times` times. A table past the end of the file references nothing.
///
/// # Errors
///
/// - `CheckFault::Table` if the table has an invalid entry.
/// - `CheckFault::Memory` if memory runs out.
/// - `CheckFault::Storage` if the storage fails.
fn reference_table<S: Storage>(
    alloc: Global,
    image: &mut S,
    header: &Header,
    place: u64,
    times: u64,
    names: &mut Tallies,
) -> Result<(), CheckFault>
    requires place { IsTrue (is_cluster_offset header.now.fields.cluster_bits place) }
    ensures ok { OnOk result (AddsTable (file (S.state image.old)) header.now.fields times names.old names.new place) }
    ensures sound { OnOk result (IsTrue (l2_table_sound (file (S.state image.old)) header.now.fields place)) }
    ensures err { IfErr result (Found (S.state image.old) (S.state image.new)
        (IsDamagedTable (file (S.state image.old)) header.now.fields place)) }
    ensures unchanged_but_faults { UnchangedButFaults (S.state image.old) (S.state image.new) }
    ensures faults { OnOk result ((S.state image.new).faults ≡ (S.state image.old).faults) }
{
    if image.size() <= place {
        return Ok(());
    }
    let cluster = HostOffset(place).cluster(header.cluster_bits());
    match StoredL2Table::load(alloc, image, header, cluster) {
        Ok(table) => reference_entries(names, header, &table, times),
        Err(fault) => Err(load_fault(fault, CheckFault::Table)),
    }
}

/// Adds what the L2 tables at these offsets reference. A table whose offset is listed more than once is loaded once.
///
/// # Errors
///
/// - `CheckFault::Table` if one of the tables has an invalid entry.
/// - `CheckFault::Memory` if memory runs out.
/// - `CheckFault::Storage` if the storage fails.
pub fn reference_contents<S: Storage>(
    alloc: Global,
    image: &mut S,
    header: &Header,
    mut places: Vec<u64>,
    names: &mut Tallies,
) -> Result<(), CheckFault>
    requires { AreTables header.now.fields.cluster_bits places.items }
    ensures ok { OnOk result (AddsTables (file (S.state image.old)) header.now.fields names.old names.new places.items) }
    ensures sound { OnOk result (All (λ place. IsTrue (l2_table_sound (file (S.state image.old)) header.now.fields place)) places.items) }
    ensures err { IfErr result (Found (S.state image.old) (S.state image.new)
        (IsOneDamaged (file (S.state image.old)) header.now.fields places.items)) }
    ensures unchanged_but_faults { UnchangedButFaults (S.state image.old) (S.state image.new) }
    ensures faults { OnOk result ((S.state image.new).faults ≡ (S.state image.old).faults) }
{
    places.sort_unstable();
    let mut times = 0;
    for i in 0..places.len() {
        times += 1;
        if i + 1 == places.len() || places[i + 1] != places[i] {
            reference_table(alloc, image, header, places[i], times, names)?;
            times = 0;
        }
    }
    Ok(())
}
