//! Lowers refcounts that are too high.
ghost use Rattle.std.specs.Prelude.{◌≡◌, List};
ghost use Rattle.qcow2_types.specs.Pending.{FreeEntry};
ghost use Rattle.qcow2_alloc.specs.Allocators.{table_of, first_free_of, UsesBlock};
ghost use Rattle.qcow2_alloc.specs.Caches.{cached_file};
ghost use Rattle.qcow2_alloc.specs.Lowering.{LowersCounter, LowersCluster, Lowers, first_free_below};
ghost use Rattle.qcow2_alloc.specs.State.{image_state, with_first_free};

use crate::allocation::Allocator;
use crate::cache::MetadataCaches;
use crate::file::ImageFile;
use imago_storage::{Fault, Storage};
use qcow2_metadata::RefBlock;
use qcow2_types::HostCluster;

impl Allocator {
    /// Lowers the refcount of a leaked cluster by `by`, and returns the new refcount. See the format's section "Refcounts".
    ///
    /// `by` should be at most the cluster's excess refcount: its refcount minus its references, in the file or in memory, and minus its
    /// entries on the free list. The refcount changes in memory, in the cached block. A block may be loaded for that, and another one
    /// evicted from the cache. If the refcount becomes 0, the cluster is free, and the first-free hint becomes the cluster if it was greater.
    /// If `by` is 0, no refcount changes, but the block is now dirty.
    ///
    /// # Errors
    ///
    /// - `Fault::Memory`, `Fault::Storage`.
    /// - `Fault::CacheFull` only if as many blocks are pinned (not to be evicted) as the cache can hold.
    /// - `Fault::Counter` exactly if the refcount is less than `by`.
    /// - `Fault::DamagedTable` if no block has the refcount, or if a block or table that must be loaded or written has an unaddressable
    ///   cluster. A consistent image has a block for each cluster whose refcount isn't 0.
    ///
    /// # On error
    ///
    /// No refcount changes, and the first-free hint stays. A consistent image stays consistent. After `Fault::Memory` or `Fault::Storage`
    /// it does if the storage exposes its crash images and no change of the storage has failed. The file never gets shorter.
    ///
    /// # Crash safety
    ///
    /// If the storage exposes its crash images (the file after a crash between two requests) and no change of the storage has failed, each
    /// crash image of a consistent image is consistent, and the guest reads the same bytes from it.
    pub fn lower<S: Storage>(
        &mut self,
        file: &mut ImageFile<S>,
        caches: &mut MetadataCaches<S>,
        cluster: HostCluster,
        by: u64,
    ) -> Result<u64, Fault>
        ensures lowers { (pending : List FreeEntry) → Lowers S.state cluster by
            (with_first_free (image_state (table_of self.old) caches.old file.old pending) (first_free_of self.old)) result
            (with_first_free (image_state (table_of self.new) caches.new file.new pending) (first_free_of self.new)) }
        ensures table { table_of self.new ≡ table_of self.old }
    {
        let count = self.lower_counter(file, caches, cluster, by)?;
        self.lower_hint(cluster, count);
        Ok(count)
    }

    // Lowers the refcount of a cluster by `by`, and returns the new refcount.
    fn lower_counter<S: Storage>(
        &self,
        file: &mut ImageFile<S>,
        caches: &mut MetadataCaches<S>,
        cluster: HostCluster,
        by: u64,
    ) -> Result<u64, Fault>
        ensures { LowersCluster S.state (table_of self.now) cluster by (cached_file caches.old file.old) result
            (cached_file caches.new file.new) }
    {
        let (rt_index, rb_index) = cluster.rt_rb_indices(file.header.rb_bits());
        let Some(rb_cluster) = self.block_cluster(rt_index) else {
            return Err(Fault::DamagedTable);
        };
        lower_in(caches, file, rb_cluster, rb_index, by)
    }

    // The refcount of a cluster has become `count`. If it is 0, the first-free hint becomes the cluster if it was greater.
    fn lower_hint(&mut self, cluster: HostCluster, count: u64)
        ensures table { table_of self.new ≡ table_of self.old }
        ensures hint { first_free_of self.new ≡ first_free_below count (first_free_of self.old) cluster }
    {
        if count == 0 && cluster < self.first_free_cluster {
            self.first_free_cluster = cluster;
        }
    }
}

// Lowers a refcount of a block by `by`, and returns the new refcount.
fn lower_in_block(block: &mut RefBlock, index: usize, by: u64) -> Result<u64, Fault>
    ensures { LowersCounter index by block.old result block.new }
{
    if index >= block.entries() {
        return Err(Fault::DamagedTable);
    }
    block.lock_write().lower(index, by)
}

// Lowers a refcount by `by`, in the block in a cluster, and returns the new refcount.
fn lower_in<S: Storage>(
    caches: &mut MetadataCaches<S>,
    file: &mut ImageFile<S>,
    rb_cluster: HostCluster,
    index: usize,
    by: u64,
) -> Result<u64, Fault>
    ensures { UsesBlock S.state rb_cluster (LowersCounter index by) (cached_file caches.old file.old) result
        (cached_file caches.new file.new) }
{
    let block = caches.rb_get_or_insert(file, rb_cluster)?;
    lower_in_block(block, index, by)
}
