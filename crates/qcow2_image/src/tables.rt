// The metadata of an open image, as one value.
ghost use Rattle.std.proofs.Props.{props};
ghost use Rattle.qcow2_alloc.specs.Caches.{cached_in};
ghost use Rattle.qcow2_image.specs.Caching.{IsClean, IsUnpinned};

use imago_storage::Storage;
use qcow2_alloc::{ImageFile, MetadataCaches};
use qcow2_clusters::Space;
use qcow2_metadata::L1Table;

/// An image file with its header, its L1 table, the caches of its L2 tables and refcount blocks, and its free space.
///
/// The free space is `None` until it is loaded. Nothing that is cached is dirty or pinned.
#[derive(Drop)]
pub struct Tables<S: Storage> {
    pub(crate) file: ImageFile<S>,
    pub(crate) l1: L1Table,
    pub(crate) caches: MetadataCaches<S>,
    pub(crate) space: Option<Space>,
    ghost clean: { IsClean (cached_in caches) } by { Prim.hlevel props },
    ghost unpinned: { IsUnpinned caches } by { Prim.hlevel props },
}
