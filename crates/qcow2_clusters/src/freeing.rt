// Frees the clusters on the list of clusters to free. Definitions: specs/Freeing.antt.
ghost use Rattle.qcow2_clusters.specs.Freeing.{FreesPendingClusters};
ghost use Rattle.qcow2_clusters.specs.Flushed.{AreEmpty, HasEntries, clusters_state};

use crate::space::Space;
use crate::writing_back::write_back;
use imago_storage::{Fault, Storage};
use qcow2_alloc::{ImageFile, MetadataCaches};

/// Frees the clusters on the list of clusters to free, and writes the changed metadata. Nothing is cached after the
/// call.
///
/// # Preconditions
///
/// Nothing is cached.
///
/// # Errors
///
/// - `Fault::Memory`, `Fault::Storage`.
/// - `Fault::Counter`, `Fault::DamagedTable`. A consistent image has neither. Clusters that weren't freed stay on the
///   list.
///
/// # On error
///
/// The file never gets shorter.
pub fn free_pending_clusters<S: Storage>(
    file: &mut ImageFile<S>,
    caches: &mut MetadataCaches<S>,
    space: &mut Space,
) -> Result<(), Fault>
    requires caches_empty { AreEmpty caches.old }
    requires room { HasEntries caches.old }
    ensures { FreesPendingClusters S.state (clusters_state file.old caches.old space.old) result (clusters_state file.new caches.new space.new) }
{
    let freed = space
        .allocator
        .process_clusters_to_free(file, caches, &mut space.to_free);
    write_back(file, caches, freed)
}
