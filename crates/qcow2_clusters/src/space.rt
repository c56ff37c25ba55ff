// The free space of an image that is open for writing.
ghost use Rattle.std.specs.Prelude.{◌≡◌, [], Ok, Err, MatchResult};
ghost use Rattle.qcow2_alloc.specs.Allocators.{LoadsAllocator};

use imago_storage::{Fault, Storage};
use qcow2_alloc::{Allocator, ClustersToFreeList, ImageFile};
use std::alloc::Global;

/// The free space of an image file: the allocator with the refcount table in memory, and the list of clusters to free.
#[derive(Drop)]
pub struct Space {
    /// The allocator, with the refcount table and the first-free hint (where the search for free clusters starts).
    pub allocator: Allocator,
    /// The clusters to free: nothing references them any more, but their refcounts are above 0.
    pub to_free: ClustersToFreeList,
}

impl Space {
    /// Loads the refcount table. The search for free clusters starts at cluster 0, and the list of clusters to free is empty.
    ///
    /// # Errors
    ///
    /// - The faults of `Allocator::new`: `Fault::DamagedTable`, `Fault::Limit`, `Fault::Memory`, `Fault::Storage`.
    pub fn load<S: Storage>(alloc: Global, file: &mut ImageFile<S>) -> Result<Space, Fault>
        ensures loads { MatchResult result
            (λ space. LoadsAllocator (S.state file.old.image) file.old.header.fields (Ok space.allocator) (S.state file.new.image))
            (λ fault. LoadsAllocator (S.state file.old.image) file.old.header.fields (Err fault) (S.state file.new.image)) }
        ensures empty { MatchResult result (λ space. space.to_free ≡ record { entries = []; held = 0 }) (λ _. Unit) }
        ensures header { file.new.header ≡ file.old.header }
    {
        let allocator = Allocator::new(alloc, file)?;
        Ok(Space {
            allocator,
            to_free: ClustersToFreeList::new(alloc),
        })
    }
}
