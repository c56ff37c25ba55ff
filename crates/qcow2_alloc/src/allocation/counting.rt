//! Sets refcounts of free clusters to 1, and decrements refcounts.
ghost use Rattle.std.specs.Prelude.{◌≤◌, ◌+◌, ◌^◌, List};
ghost use Rattle.qcow2_metadata.specs.Blocks.{Block};
ghost use Rattle.qcow2_types.specs.Pending.{FreeEntry};
ghost use Rattle.qcow2_alloc.specs.Allocating.{IncrementsCounter, IncrementsCluster, CountsRun, CountsReferenced};
ghost use Rattle.qcow2_alloc.specs.Allocators.{table_of, UsesBlock, DecrementsCounter};
ghost use Rattle.qcow2_alloc.specs.Caches.{cached_file};
ghost use Rattle.qcow2_alloc.specs.State.{image_state};

use crate::allocation::Allocator;
use crate::allocation::searching::Run;
use crate::cache::MetadataCaches;
use crate::file::ImageFile;
use imago_storage::{Fault, Storage};
use qcow2_metadata::RefBlock;
use qcow2_types::HostCluster;

impl Allocator {
    // Increments the refcount of a free cluster, in the block that the refcount table references for it.
    pub(crate) fn count_cluster<S: Storage>(
        &self,
        file: &mut ImageFile<S>,
        caches: &mut MetadataCaches<S>,
        cluster: HostCluster,
    ) -> Result<(), Fault>
        ensures { IncrementsCluster S.state (table_of self.now) cluster (cached_file caches.old file.old) result
            (cached_file caches.new file.new) }
    {
        let (rt_index, rb_index) = cluster.rt_rb_indices(file.header.rb_bits());
        let Some(rb_cluster) = self.block_cluster(rt_index) else {
            return Err(Fault::DamagedTable);
        };
        increment_in(caches, file, rb_cluster, rb_index)
    }

    // Increments the refcounts of `count` consecutive free clusters, from the first to the last.
    pub(crate) fn count_run<S: Storage>(
        &self,
        file: &mut ImageFile<S>,
        caches: &mut MetadataCaches<S>,
        first: HostCluster,
        count: u64,
    ) -> Result<(), Fault>
        requires fits { first + count ≤ 2 ^ 64 }
        ensures { (pending : List FreeEntry)
            → CountsRun S.state first count (image_state (table_of self.now) caches.old file.old pending) result
            (image_state (table_of self.now) caches.new file.new pending) }
    {
        for index in 0..count {
            self.count_cluster(file, caches, HostCluster(first.0 + index))?;
        }
        Ok(())
    }

    // Increments the refcounts of those clusters of a run for which the refcount table references a block. New blocks will count the
    // others.
    pub(crate) fn count_referenced<S: Storage>(
        &self,
        file: &mut ImageFile<S>,
        caches: &mut MetadataCaches<S>,
        run: Run,
    ) -> Result<(), Fault>
        requires fits { run.first + run.len ≤ 2 ^ 64 }
        ensures { (pending : List FreeEntry)
            → CountsReferenced S.state run.first run.len (image_state (table_of self.now) caches.old file.old pending) result
            (image_state (table_of self.now) caches.new file.new pending) }
    {
        let rb_bits = file.header.rb_bits();
        for index in 0..run.len() {
            let cluster = HostCluster(run.first().0 + index);
            if self.block_cluster(cluster.rt_index(rb_bits)).is_some() {
                self.count_cluster(file, caches, cluster)?;
            }
        }
        Ok(())
    }
}

// Increments a refcount of a block from 0 to 1.
fn increment_counter(block: &mut RefBlock, index: usize) -> Result<(), Fault>
    ensures { IncrementsCounter index block.old result block.new }
{
    if index >= block.entries() {
        return Err(Fault::DamagedTable);
    }
    if !block.is_zero(index) {
        return Err(Fault::Counter);
    }
    let _value = block.lock_write().increment(index)?;
    Ok(())
}

// Increments a refcount from 0 to 1, in the block in a cluster.
fn increment_in<S: Storage>(
    caches: &mut MetadataCaches<S>,
    file: &mut ImageFile<S>,
    rb_cluster: HostCluster,
    index: usize,
) -> Result<(), Fault>
    ensures { UsesBlock S.state rb_cluster (IncrementsCounter index) (cached_file caches.old file.old) result (cached_file caches.new file.new) }
{
    let block = caches.rb_get_or_insert(file, rb_cluster)?;
    increment_counter(block, index)
}

// Decrements a refcount of a block.
fn decrement_counter(block: &mut RefBlock, index: usize) -> Result<(), Fault>
    ensures { DecrementsCounter index block.old result block.new }
{
    if index >= block.entries() {
        return Err(Fault::DamagedTable);
    }
    let _value = block.lock_write().decrement(index)?;
    Ok(())
}

// Decrements a refcount, in the block in a cluster.
pub(super) fn decrement_in<S: Storage>(
    caches: &mut MetadataCaches<S>,
    file: &mut ImageFile<S>,
    rb_cluster: HostCluster,
    index: usize,
) -> Result<(), Fault>
    ensures { UsesBlock S.state rb_cluster (DecrementsCounter index) (cached_file caches.old file.old) result (cached_file caches.new file.new) }
{
    let block = caches.rb_get_or_insert(file, rb_cluster)?;
    decrement_counter(block, index)
}
