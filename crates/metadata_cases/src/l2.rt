// Runs the lines of a script that call an L2 table.
ghost use Rattle.std.specs.Prelude.{◌≡◌, OnOk};
ghost use Rattle.qcow2_metadata.specs.Tables.{with_raw_entry};

use crate::answer::{Answer, answered};
use crate::file::Image;
use crate::limits::{fits, is_addressable};
use crate::mappings::mapping_text;
use cases::{Trouble, number, size};
use qcow2_metadata::{Header, L2Mapping, L2Table, StoredL2Table, Table};
use qcow2_types::{ClusterCount, ClustersToFreeEntry, GuestCluster, HostCluster, PendingClusters};
use std::alloc::Global;

/// Creates a table in which nothing is mapped.
pub fn new_l2(alloc: Global, header: &Header) -> Result<L2Table, Trouble> {
    Ok(L2Table::new_cleared(alloc, header)?)
}

/// Loads the table in a cluster.
pub fn load_l2(
    alloc: Global,
    image: &mut Image<'_>,
    header: &Header,
    cluster: HostCluster,
) -> Result<L2Table, Trouble> {
    if !is_addressable(cluster, header.cluster_bits()) {
        return Err(Trouble::NoCall);
    }
    let entries = header.l2_entries();
    Ok(L2Table::load(alloc, image, header, cluster, entries)?)
}

/// Copies the table. The entries of the copy don't have the COPIED flag, unless the image has an external data file.
pub fn copy_of(alloc: Global, table: &L2Table) -> Result<L2Table, Trouble> {
    Ok(table.clone(alloc)?)
}

/// Writes the table to its cluster if the table is dirty.
pub fn write_if_modified(
    alloc: Global,
    table: &mut L2Table,
    image: &mut Image<'_>,
) -> Result<Answer, Trouble> {
    let Some(cluster) = table.get_cluster() else {
        return Err(Trouble::NoCall);
    };
    if !is_addressable(cluster, table.cluster_bits()) {
        return Err(Trouble::NoCall);
    }
    table.write_if_modified(alloc, image, cluster)?;
    Ok(Answer::Done)
}

// Returns the table's mapping of a guest cluster.
fn mapping(table: &L2Table, cluster: GuestCluster) -> Result<L2Mapping, Trouble> {
    if !fits(cluster.0, table.cluster_bits(), 0) {
        return Err(Trouble::NoCall);
    }
    Ok(table.get_mapping(cluster))
}

// Like `mapping`, but through the write guard.
fn guarded_mapping(table: &mut L2Table, cluster: GuestCluster) -> Result<L2Mapping, Trouble> {
    if !fits(cluster.0, table.cluster_bits(), 0) {
        return Err(Trouble::NoCall);
    }
    let guard = table.lock_write();
    Ok(guard.get_mapping(cluster))
}

// Returns the range of the compressed data of a guest cluster.
fn packed(table: &L2Table, cluster: GuestCluster) -> Answer {
    match table.lock_compressed_read(cluster) {
        Some(read) => Answer::Range(read.host_offset().0, read.length()),
        None => Answer::None,
    }
}

// Like `packed`, but through the write guard.
fn guarded_packed(table: &mut L2Table, cluster: GuestCluster) -> Answer {
    let guard = table.lock_write();
    match guard.compressed_read_guard(cluster) {
        Some(read) => Answer::Range(read.host_offset().0, read.length()),
        None => Answer::None,
    }
}

// Returns the clusters to free that a change gives back.
fn handed_back(entry: Option<ClustersToFreeEntry>) -> Answer {
    match entry {
        Some(entry) => {
            let (first, count, _) = entry.into_parts();
            Answer::Clusters(first.0, count.0)
        }
        None => Answer::None,
    }
}

// Makes a pending data cluster, which nothing references yet.
fn pending(cluster: HostCluster, is_pending: bool) -> Option<PendingClusters> {
    if !is_pending {
        return None;
    }
    let entry = ClustersToFreeEntry::data(cluster, ClusterCount(1));
    Some(PendingClusters::new(entry))
}

// Maps the guest cluster at an index.
fn map(
    table: &mut L2Table,
    index: usize,
    cluster: HostCluster,
    is_pending: bool,
) -> Result<Answer, Trouble> {
    let bits = table.cluster_bits();
    if index >= table.entries() || cluster.0 == 0 || !is_addressable(cluster, bits) {
        return Err(Trouble::NoCall);
    }
    let mut guard = table.lock_write();
    let entry = guard.map_cluster(index, cluster, pending(cluster, is_pending));
    Ok(handed_back(entry))
}

// Zeroes the guest cluster at an index.
fn zero(table: &mut L2Table, index: usize, keep: bool) -> Result<Answer, Trouble> {
    if index >= table.entries() {
        return Err(Trouble::NoCall);
    }
    let mut guard = table.lock_write();
    match guard.zero_cluster(index, keep) {
        Ok(entry) => Ok(handed_back(entry)),
        Err(fault) => Err(Trouble::Refused(fault)),
    }
}

// Discards the guest cluster at an index. The contract says what the guard's change means for the table.
fn discard(table: &mut L2Table, index: usize) -> Result<Answer, Trouble>
    ensures { OnOk result (table.new ≡ with_raw_entry table.old index 0) }
{
    if index >= table.entries() {
        return Err(Trouble::NoCall);
    }
    let mut guard = table.lock_write();
    let entry = guard.discard_cluster(index);
    Ok(handed_back(entry))
}

fn change(table: &mut L2Table, words: &[&str]) -> Result<Answer, Trouble> {
    match words {
        ["map", index, cluster] => {
            map(table, size(index)?, HostCluster(number(cluster)?), false)
        }
        ["map", index, cluster, "pending"] => {
            map(table, size(index)?, HostCluster(number(cluster)?), true)
        }
        ["zero", index, "keep"] => zero(table, size(index)?, true),
        ["zero", index, "free"] => zero(table, size(index)?, false),
        ["discard", index] => discard(table, size(index)?),
        _ => Err(Trouble::NoCall),
    }
}

/// Makes a call that only L2 tables have.
pub fn l2_call(alloc: Global, table: &mut L2Table, words: &[&str]) -> Result<String, Trouble> {
    match words {
        ["mapping", cluster] => {
            let found = mapping(table, GuestCluster(number(cluster)?))?;
            Ok(mapping_text(alloc, found)?)
        }
        ["guard", "mapping", cluster] => {
            let found = guarded_mapping(table, GuestCluster(number(cluster)?))?;
            Ok(mapping_text(alloc, found)?)
        }
        ["packed", cluster] => answered(alloc, Ok(packed(table, GuestCluster(number(cluster)?)))),
        ["guard", "packed", cluster] => {
            answered(
                alloc,
                Ok(guarded_packed(table, GuestCluster(number(cluster)?))),
            )
        }
        _ => answered(alloc, change(table, words)),
    }
}

/// Makes a call of the table in a cluster. The table is loaded for the call and only read.
pub fn stored_call(
    alloc: Global,
    image: &mut Image<'_>,
    header: &Header,
    cluster: HostCluster,
    words: &[&str],
) -> Result<String, Trouble> {
    let bits = header.cluster_bits();
    if !is_addressable(cluster, bits) {
        return Err(Trouble::NoCall);
    }
    let table = StoredL2Table::load(alloc, image, header, cluster)?;
    match words {
        ["entries"] => answered(alloc, Ok(Answer::Number(table.entries() as u64))),
        ["mapping", word] => {
            let guest = GuestCluster(number(word)?);
            if !fits(guest.0, bits, 0) {
                return Err(Trouble::NoCall);
            }
            Ok(mapping_text(alloc, table.get_mapping(guest))?)
        }
        _ => Err(Trouble::NoCall),
    }
}
