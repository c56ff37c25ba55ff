// Stores data in newly allocated clusters, which no table references yet. Definitions: specs/Storing.antt.
ghost use Rattle.std.specs.Prelude.{◌≡◌, ◌≤◌, ◌<◌, ◌+◌, ◌-◌, ◌*◌, ◌^◌, ℕ, Bool, List, [], IfOk, OnOk, false, length, replicate};
ghost use Rattle.imago_storage.specs.Calls.{UnchangedButFaults};
ghost use Rattle.imago_storage.specs.Through.{WriteOutcome};
ghost use Rattle.qcow2_types.specs.Header.{cluster_size};
ghost use Rattle.qcow2_metadata.specs.Places.{IsAddressable};
ghost use Rattle.qcow2_clusters.specs.Flushed.{AreEmpty, Clusters, HasEntries, clusters_state};
ghost use Rattle.qcow2_clusters.specs.WritingBack.{AreUnpinned};
ghost use Rattle.qcow2_clusters.specs.LeftUntouched.{LeavesUntouched, LeavesUnsettledUntouched};
ghost use Rattle.qcow2_clusters.specs.Storing.{ReachesEnd, ReachesRun, Stores, StoresRun, StoresRunUnsettled, ZeroesRun};

use crate::space::Space;
use crate::writing_back::end_change;
use imago_storage::{Fault, PreallocateMode, Storage, StorageExt, WriteFault, write_full_zeroes};
use qcow2_alloc::{ImageFile, MetadataCaches, PendingAllocation, ReservedSlot};
use qcow2_types::{ClusterCount, HostCluster};
use std::alloc::Global;
use std::marker::Model;

/// The first of consecutive clusters that hold stored data, and a reserved slot on the list of clusters to free: memory
/// for their entry, in case no table ever references them. In contracts the value is the cluster.
///
/// It can't be dropped: the slot must be consumed (`give_back` or `release` of the list).
#[derive(Debug)]
pub struct Stored {
    /// The first of the clusters.
    pub cluster: HostCluster,
    /// The reserved slot.
    pub hold: ReservedSlot,
}

impl Model for Stored {
    ghost use Rattle.std.specs.Prelude.{ℕ};

    ghost Value = { ℕ };

    ghost view = { λ s. s.cluster };
}

impl Stored {
    /// Returns the first of the clusters. The slot stays reserved on the list.
    pub fn leave_slot(self) -> HostCluster
        ensures { result ≡ self }
    {
        let Stored { cluster, hold } = self;
        hold.leave();
        cluster
    }
}

// Writes the data of an addressable cluster. Sets `begun`, unless the call fails before it makes a request that changes
// anything.
pub(crate) fn write_cluster<S: Storage>(
    alloc: Global,
    file: &mut ImageFile<S>,
    cluster: HostCluster,
    content: &[u8],
    begun: &mut bool,
) -> Result<(), Fault>
    requires reach { IsAddressable file.old.header.fields.cluster_bits cluster }
    requires whole { length content.now ≡ cluster_size file.old.header.fields }
    ensures put { WriteOutcome (S.state file.old.image) (S.state file.new.image) (cluster * cluster_size file.old.header.fields) content.now result }
    ensures header { file.new.header ≡ file.old.header }
    ensures reaches { OnOk result (ReachesEnd S.state cluster 1 file.old file.new) }
    ensures untouched_unless_begun { begun.new ≡ false
        → (begun.old ≡ false) × OnOk result ⊥ × UnchangedButFaults (S.state file.old.image) (S.state file.new.image) }
{
    let place = cluster.offset(file.header.cluster_bits());
    match file.image.try_write(alloc, content, place.0) {
        Ok(()) => {
            *begun = true;
            Ok(())
        }
        Err(WriteFault::Before(fault)) => Err(fault),
        Err(WriteFault::Within(fault)) => {
            *begun = true;
            Err(fault)
        }
    }
}

// Allocates consecutive clusters, and writes the data of a guest cluster to the first.
fn allocate_and_write<S: Storage>(
    alloc: Global,
    file: &mut ImageFile<S>,
    caches: &mut MetadataCaches<S>,
    space: &mut Space,
    content: &[u8],
    count: ClusterCount,
    begun: &mut bool,
) -> Result<Stored, Fault>
    requires caches_empty { AreEmpty caches.old }
    requires room { HasEntries caches.old }
    requires whole { length content.now ≡ cluster_size file.old.header.fields }
    requires any { 0 < count }
    ensures stores { StoresRunUnsettled S.state count content.now (clusters_state file.old caches.old space.old)
        result (clusters_state file.new caches.new space.new) }
    ensures untouched_unless_begun { LeavesUnsettledUntouched S.state begun.old (clusters_state file.old caches.old space.old) result begun.new
        (clusters_state file.new caches.new space.new) }
{
    let pending = space
        .allocator
        .try_allocate_clusters(file, caches, &mut space.to_free, count, false, begun)?;
    let PendingAllocation { pending, hold } = pending;
    let cluster = pending.cluster();
    let _parts = pending.into_entry().into_parts();
    match write_cluster(alloc, file, cluster, content, begun) {
        Ok(()) => Ok(Stored { cluster, hold }),
        Err(fault) => {
            space.to_free.release(hold);
            Err(fault)
        }
    }
}

// Ends a call that stored data: writes dirty metadata and empties the caches. If that fails, the reserved slot is
// released.
pub(crate) fn write_back_stored<S: Storage>(
    file: &mut ImageFile<S>,
    caches: &mut MetadataCaches<S>,
    space: &mut Space,
    stored: Result<Stored, Fault>,
) -> Result<Stored, Fault>
    requires unpinned { AreUnpinned caches.old }
    requires held { OnOk stored (0 < space.old.to_free.held) }
    ensures stores { (n : ℕ) (content : List ℕ) (c : Clusters S) → length content ≤ n * cluster_size c.file.header.fields
        → StoresRunUnsettled S.state n content c stored (clusters_state file.old caches.old space.old)
        → StoresRun S.state n content c result (clusters_state file.new caches.new space.new) }
    ensures same { OnOk result (result ≡ stored) }
    ensures untouched_unless_begun { (was now : Bool) (c : Clusters S) → LeavesUnsettledUntouched S.state was c stored now (clusters_state file.old caches.old space.old)
        → LeavesUntouched S.state was c result now (clusters_state file.new caches.new space.new) }
{
    match end_change(file, caches, &stored) {
        Ok(()) => stored,
        Err(fault) => match stored {
            Ok(Stored { cluster: _, hold }) => {
                space.to_free.release(hold);
                Err(fault)
            }
            Err(_) => Err(fault),
        },
    }
}

// Makes the file reach the end of consecutive clusters. If the file is shorter, zeroes are written past its end, only in
// the last cluster.
fn reach_end<S: Storage>(
    alloc: Global,
    file: &mut ImageFile<S>,
    first: HostCluster,
    count: ClusterCount,
) -> Result<(), Fault>
    requires reach { IsAddressable file.old.header.fields.cluster_bits (first + (count - 1)) }
    requires end_bounded { first + count < 2 ^ 64 }
    requires any { 0 < count }
    ensures { ReachesRun S.state first count file.old result file.new }
{
    let size = file.header.cluster_size() as u64;
    let end = (first + count).offset(file.header.cluster_bits()).0;
    let long = file.image.size();
    if end <= long {
        return Ok(());
    }
    let from = long.max(end.saturating_sub(size));
    file.image.write_zeroes(alloc, from, end - from)
}

/// Allocates `count` consecutive clusters, and writes the data of a guest cluster to the first.
///
/// No table references the clusters yet. The file reaches the end of the last one, so each can be linked. The bytes of
/// the other clusters are unspecified. After success a slot (memory for an entry of the run) is reserved on the list of
/// clusters to free, as by `ClustersToFreeList::reserve_slot`. Nothing is cached after the call. The call sets `begun`
/// before its first change.
///
/// # Preconditions
///
/// Nothing is cached.
///
/// # Errors
///
/// - `Fault::Limit(n)` only if no run of free clusters was long enough when the call began. Long enough is a sixteenth
///   of the space plus `3 * count`, from the first-free hint on. The space is the number of clusters that a file can
///   have. `n` has the meaning that `Allocator::allocate_clusters` gives it.
/// - `Fault::Memory`, `Fault::Storage`.
/// - `Fault::Counter`, `Fault::DamagedTable`. A consistent image has neither.
///
/// # On error
///
/// No slot is reserved. If `begun` isn't set, nothing has changed.
pub fn store_run<S: Storage>(
    alloc: Global,
    file: &mut ImageFile<S>,
    caches: &mut MetadataCaches<S>,
    space: &mut Space,
    content: &[u8],
    count: ClusterCount,
    begun: &mut bool,
) -> Result<Stored, Fault>
    requires caches_empty { AreEmpty caches.old }
    requires room { HasEntries caches.old }
    requires whole { length content.now ≡ cluster_size file.old.header.fields }
    requires any { 0 < count }
    ensures stores { StoresRun S.state count content.now (clusters_state file.old caches.old space.old) result (clusters_state file.new caches.new space.new) }
    ensures reaches { IfOk result (λ first. ReachesEnd S.state first count file.old file.new) }
    ensures untouched_unless_begun { LeavesUntouched S.state begun.old (clusters_state file.old caches.old space.old) result begun.new (clusters_state file.new caches.new space.new) }
{
    let stored = allocate_and_write(alloc, file, caches, space, content, count, begun);
    let first = write_back_stored(file, caches, space, stored)?;
    let Stored { cluster, hold } = first;
    match reach_end(alloc, file, cluster, count) {
        Ok(()) => Ok(Stored { cluster, hold }),
        Err(fault) => {
            space.to_free.release(hold);
            Err(fault)
        }
    }
}

// Like `store_run`, for one cluster.
pub(crate) fn store<S: Storage>(
    alloc: Global,
    file: &mut ImageFile<S>,
    caches: &mut MetadataCaches<S>,
    space: &mut Space,
    content: &[u8],
    begun: &mut bool,
) -> Result<Stored, Fault>
    requires caches_empty { AreEmpty caches.old }
    requires room { HasEntries caches.old }
    requires whole { length content.now ≡ cluster_size file.old.header.fields }
    ensures stores { Stores S.state content.now (clusters_state file.old caches.old space.old) result (clusters_state file.new caches.new space.new) }
    ensures untouched_unless_begun { LeavesUntouched S.state begun.old (clusters_state file.old caches.old space.old) result begun.new (clusters_state file.new caches.new space.new) }
{
    store_run(alloc, file, caches, space, content, ClusterCount(1), begun)
}

// Writes zeroes over consecutive clusters, as the mode says. A storage that can't zero a range and keep it allocated gets the zeroes as
// data.
fn zero_run<S: Storage>(
    alloc: Global,
    file: &mut ImageFile<S>,
    first: HostCluster,
    count: ClusterCount,
    mode: PreallocateMode,
) -> Result<(), Fault>
    requires reach { IsAddressable file.old.header.fields.cluster_bits (first + (count - 1)) }
    requires end_bounded { first + count < 2 ^ 64 }
    requires any { 0 < count }
    ensures { ZeroesRun S.state first count file.old result file.new }
{
    let cluster_bits = file.header.cluster_bits();
    let start = first.offset(cluster_bits).0;
    let length = (first + count).offset(cluster_bits).0 - start;
    match mode {
        PreallocateMode::None | PreallocateMode::Zero => {
            file.image.write_zeroes(alloc, start, length)
        }
        PreallocateMode::Allocate => {
            match file.image.write_allocated_zeroes(alloc, start, length) {
                Ok(()) => Ok(()),
                Err(fault) => match fault {
                    Fault::Unsupported => {
                        write_full_zeroes(&mut file.image, alloc, start, length)
                    }
                    _ => Err(fault),
                },
            }
        }
        PreallocateMode::WriteData => write_full_zeroes(&mut file.image, alloc, start, length),
    }
}

// Allocates consecutive clusters.
fn allocate_run<S: Storage>(
    file: &mut ImageFile<S>,
    caches: &mut MetadataCaches<S>,
    space: &mut Space,
    count: ClusterCount,
    begun: &mut bool,
) -> Result<Stored, Fault>
    requires caches_empty { AreEmpty caches.old }
    requires room { HasEntries caches.old }
    requires any { 0 < count }
    ensures allocates { StoresRunUnsettled S.state count [] (clusters_state file.old caches.old space.old) result
        (clusters_state file.new caches.new space.new) }
    ensures untouched_unless_begun { LeavesUnsettledUntouched S.state begun.old (clusters_state file.old caches.old space.old) result begun.new
        (clusters_state file.new caches.new space.new) }
{
    let pending = space
        .allocator
        .try_allocate_clusters(file, caches, &mut space.to_free, count, false, begun)?;
    let PendingAllocation { pending, hold } = pending;
    let cluster = pending.cluster();
    let _parts = pending.into_entry().into_parts();
    Ok(Stored { cluster, hold })
}

/// Allocates `count` consecutive clusters, and writes zeroes over all of them.
///
/// No table references the clusters yet. `PreallocateMode::None` and `PreallocateMode::Zero` let the storage keep the zeroes unallocated.
/// `PreallocateMode::Allocate` keeps the clusters allocated in the storage; if it can't, the zeroes are written as data.
/// `PreallocateMode::WriteData` writes them as data. All else is as by `store_run`.
///
/// # Preconditions
///
/// Nothing is cached.
///
/// # Errors
///
/// The errors are those of `store_run`.
///
/// # On error
///
/// No slot is reserved. If `begun` isn't set, nothing has changed.
pub fn store_zeroes<S: Storage>(
    alloc: Global,
    file: &mut ImageFile<S>,
    caches: &mut MetadataCaches<S>,
    space: &mut Space,
    count: ClusterCount,
    mode: PreallocateMode,
    begun: &mut bool,
) -> Result<Stored, Fault>
    requires caches_empty { AreEmpty caches.old }
    requires room { HasEntries caches.old }
    requires any { 0 < count }
    ensures stores { let n = count * cluster_size file.old.header.fields in
        StoresRun S.state count (replicate n 0) (clusters_state file.old caches.old space.old) result (clusters_state file.new caches.new space.new) }
    ensures reaches { IfOk result (λ first. ReachesEnd S.state first count file.old file.new) }
    ensures untouched_unless_begun { LeavesUntouched S.state begun.old (clusters_state file.old caches.old space.old) result begun.new (clusters_state file.new caches.new space.new) }
{
    let allocated = allocate_run(file, caches, space, count, begun);
    let first = write_back_stored(file, caches, space, allocated)?;
    let Stored { cluster, hold } = first;
    match zero_run(alloc, file, cluster, count, mode) {
        Ok(()) => Ok(Stored { cluster, hold }),
        Err(fault) => {
            space.to_free.release(hold);
            Err(fault)
        }
    }
}
