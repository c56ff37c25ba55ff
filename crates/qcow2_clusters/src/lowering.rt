// Lowers refcounts that are too high. Definitions: specs/Lowering.antt.
ghost use Rattle.std.specs.Prelude.{◌≡◌, [], List};
ghost use Rattle.qcow2_alloc.specs.Allocators.{first_free_of, table_of};
ghost use Rattle.qcow2_alloc.specs.Caches.{cached_in};
ghost use Rattle.qcow2_alloc.specs.State.{image_state, with_first_free};
ghost use Rattle.qcow2_types.specs.Pending.{FreeEntry};
ghost use Rattle.qcow2_clusters.specs.Flushed.{AreEmpty, HasEntries, clusters_state};
ghost use Rattle.qcow2_clusters.specs.Lowering.{LowersEach, LowersLeaks};

use crate::space::Space;
use crate::writing_back::write_back;
use imago_storage::{Fault, Storage};
use qcow2_alloc::{Allocator, ImageFile, MetadataCaches};
use qcow2_types::HostCluster;

/// Lowers refcounts that are too high, and writes the changed metadata. Nothing is cached after the call. See the format's
/// section "Refcounts".
///
/// Each pair is a host cluster, and the number that its refcount is lowered by. The numbers for a cluster should add up to
/// its excess refcount at most: its refcount minus its references and its entries on the list of clusters to free. If a
/// refcount becomes 0, the cluster is free, and the first-free hint becomes the cluster if it was greater.
///
/// # Preconditions
///
/// Nothing is cached.
///
/// # Errors
///
/// - `Fault::Memory`, `Fault::Storage`.
/// - `Fault::Counter` if a refcount is less than its number, and `Fault::DamagedTable` if no block has it. A consistent
///   image has neither, if each number is above 0 and the excess refcounts are as above.
///
/// # On error
///
/// The refcounts of some first pairs may have been lowered. After `Fault::Memory` or `Fault::Storage` nothing more is
/// written. The file never gets shorter.
pub fn lower_leaks<S: Storage>(
    file: &mut ImageFile<S>,
    caches: &mut MetadataCaches<S>,
    space: &mut Space,
    pairs: &[(u64, u64)],
) -> Result<(), Fault>
    requires caches_empty { AreEmpty caches.old }
    requires room { HasEntries caches.old }
    ensures { LowersLeaks S.state pairs.now (clusters_state file.old caches.old space.old) result
        (clusters_state file.new caches.new space.new) }
{
    let lowered = lower_each(file, caches, &mut space.allocator, pairs);
    write_back(file, caches, lowered)
}

// Lowers the refcount of each pair's cluster, in cached blocks.
fn lower_each<S: Storage>(
    file: &mut ImageFile<S>,
    caches: &mut MetadataCaches<S>,
    allocator: &mut Allocator,
    pairs: &[(u64, u64)],
) -> Result<(), Fault>
    requires { (cached_in caches.old).tables ≡ [] }
    ensures lowers { (pending : List FreeEntry) → LowersEach S.state pairs.now
        (with_first_free (image_state (table_of allocator.old) caches.old file.old pending) (first_free_of allocator.old)) result
        (with_first_free (image_state (table_of allocator.new) caches.new file.new pending) (first_free_of allocator.new)) }
{
    for index in 0..pairs.len() {
        let (cluster, by) = pairs[index];
        let _count = allocator.lower(file, caches, HostCluster(cluster), by)?;
    }
    Ok(())
}
