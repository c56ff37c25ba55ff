// Counts the references to each host cluster.
ghost use Rattle.std.specs.Prelude.{◌≡◌, ℕ, ◌+◌, ◌*◌, ◌<◌, ◌≤◌, ◌^◌, length, OnOk, IfOk, IsOk, IfSome, IsSome, IsOkUnless};
ghost use Rattle.qimg_core.specs.Entering.{AddsRange};
ghost use Rattle.qimg_core.specs.Names.{AddsClusters, AddsEntry, KeepsCells, IsFewSum, HasRoom, HasRoomAt, ListsOnlyOverflow, AreRising, TellsNothing, cell_at, times_at};

use super::CheckFault;
use super::entries::enter;
use qcow2_metadata::Header;
use qcow2_types::{HostCluster, HostOffset};
use std::alloc::Global;

/// A number of references to a cluster, by kind.
#[derive(Clone, Copy, Debug)]
pub struct Times {
    /// References to the cluster as a part of the structure: header, tables and refcount blocks.
    pub structure: u64,
    /// References by entries of L2 tables.
    pub mapped: u64,
    /// The part of `mapped` from L2 entries that have the COPIED flag (`QCOW_OFLAG_COPIED`).
    pub copied: u64,
}

/// The total number of references to a cluster, by kind. It can't overflow.
#[derive(Clone, Copy, Debug)]
pub struct AllTimes {
    pub structure: u128,
    pub mapped: u128,
    pub copied: u128,
}

/// Like `Times`, in four bytes.
#[derive(Clone, Copy, Debug)]
pub struct FewTimes {
    pub mapped: u16,
    pub structure: u8,
    pub copied: u8,
}

const NO_FEW_TIMES: FewTimes = FewTimes {
    mapped: 0,
    structure: 0,
    copied: 0,
};

/// The number of references to each cluster: the sum of the cluster's cell and its items in the lists.
#[derive(Drop)]
pub struct Tallies {
    /// A cell of four bytes for each cluster, from the first cluster of the file on.
    pub cells: Vec<FewTimes>,
    /// The references that the cells can't count: to clusters without a cell, and more to a cluster than its cell can hold.
    pub others: Others,
}

/// References to clusters, by kind, as lists of 8-byte items. `sort_references` sorts them. A reference by an L2 entry with the COPIED flag
/// is in both `mapped` and `copied`.
#[derive(Drop)]
pub struct Others {
    pub structure: Vec<u64>,
    pub mapped: Vec<u64>,
    pub copied: Vec<u64>,
}

/// Returns tallies with `count` cells and no references.
///
/// # Errors
///
/// - `CheckFault::Memory` if memory runs out.
pub fn no_references(alloc: Global, count: usize) -> Result<Tallies, CheckFault>
    ensures ok { IfOk result TellsNothing }
    ensures cells { IfOk result (λ names. length names.cells.items ≡ count) }
    ensures spares { IfOk result ListsOnlyOverflow }
    ensures err { IsOkUnless result CheckFault.Memory }
{
    Ok(Tallies {
        cells: vec![in alloc; NO_FEW_TIMES; count]?,
        others: Others {
            structure: Vec::new(alloc),
            mapped: Vec::new(alloc),
            copied: Vec::new(alloc),
        },
    })
}

/// Adds `more` to a cell. Returns `None` if the cell can't hold the sum.
#[inline(always)]
fn cell_with(cell: FewTimes, more: Times) -> Option<FewTimes>
    ensures sum { IfSome result (IsFewSum cell more) }
    ensures room { HasRoom cell more → IsSome result }
{
    if more.structure > (u8::MAX - cell.structure) as u64
        || more.mapped > (u16::MAX - cell.mapped) as u64
        || more.copied > (u8::MAX - cell.copied) as u64
    {
        return None;
    }
    Some(FewTimes {
        mapped: cell.mapped + more.mapped as u16,
        structure: cell.structure + more.structure as u8,
        copied: cell.copied + more.copied as u8,
    })
}

/// Returns the cell of a cluster, or zeroes if the cluster has no cell.
#[inline(always)]
pub fn cell_of(cells: &[FewTimes], cluster: u64) -> FewTimes
    ensures { result ≡ cell_at cells.now cluster }
{
    if cluster < cells.len() as u64 {
        cells[cluster as usize]
    } else {
        NO_FEW_TIMES
    }
}

/// Adds references to a cluster to the lists.
///
/// # Errors
///
/// - `CheckFault::Memory` if memory runs out.
fn enter_other(others: &mut Others, cluster: u64, times: Times) -> Result<(), CheckFault>
    requires { cluster < 2 ^ 53 }
    ensures ok { OnOk result (AddsEntry others.old others.new cluster times) }
    ensures err { IsOkUnless result CheckFault.Memory }
{
    enter(&mut others.structure, cluster, times.structure)?;
    enter(&mut others.mapped, cluster, times.mapped)?;
    enter(&mut others.copied, cluster, times.copied)
}

/// Adds references to one cluster: to its cell if the cell can hold them, and otherwise to the lists.
///
/// # Errors
///
/// - `CheckFault::Memory` if memory runs out, and the cell can't hold the references.
#[inline(always)]
pub fn reference_cluster(names: &mut Tallies, cluster: u64, times: Times) -> Result<(), CheckFault>
    requires { cluster < 2 ^ 53 }
    ensures ok { OnOk result (AddsClusters names.old names.new cluster (cluster + 1) times) }
    ensures room { HasRoomAt names.old cluster times → IsOk result × (names.new.others ≡ names.old.others) }
    ensures err { IsOkUnless result CheckFault.Memory }
{
    if cluster < names.cells.len() as u64 {
        let index = cluster as usize;
        if let Some(cell) = cell_with(names.cells[index], times) {
            names.cells[index] = cell;
            return Ok(());
        }
    }
    enter_other(&mut names.others, cluster, times)
}

/// Adds references to each cluster from `low` up to, but not including, `end`.
///
/// # Errors
///
/// - `CheckFault::Memory` if memory runs out.
fn reference_clusters(
    names: &mut Tallies,
    low: u64,
    end: u64,
    times: Times,
) -> Result<(), CheckFault>
    requires from { low ≤ end }
    requires below { end ≤ 2 ^ 53 }
    ensures ok { OnOk result (AddsClusters names.old names.new low end times) }
    ensures err { IsOkUnless result CheckFault.Memory }
{
    for cluster in low..end {
        reference_cluster(names, cluster, times)?;
    }
    Ok(())
}

/// Adds references to each cluster that meets a range of `length` bytes from offset `first` on.
///
/// # Errors
///
/// - `CheckFault::Memory` if memory runs out.
pub fn reference_range(
    names: &mut Tallies,
    header: &Header,
    first: u64,
    length: u64,
    times: Times,
) -> Result<(), CheckFault>
    requires { first + length < 2 ^ 62 }
    ensures ok { OnOk result (AddsRange header.now.fields names.old names.new first length times) }
    ensures err { IsOkUnless result CheckFault.Memory }
{
    if length == 0 {
        return Ok(());
    }
    let cluster_bits = header.cluster_bits();
    let HostCluster(low) = HostOffset(first).cluster(cluster_bits);
    let HostCluster(high) = HostOffset(first + (length - 1)).cluster(cluster_bits);
    reference_clusters(names, low, high + 1, times)
}

/// Sorts the lists by cluster.
pub fn sort_references(names: &mut Tallies)
    ensures same { (c : ℕ) → times_at names.new c ≡ times_at names.old c }
    ensures cells { KeepsCells names.old names.new }
    ensures spares { ListsOnlyOverflow names.old → ListsOnlyOverflow names.new }
    ensures rising { AreRising names.new.others }
{
    names.others.structure.sort_unstable();
    names.others.mapped.sort_unstable();
    names.others.copied.sort_unstable();
}
