//! Searches for free clusters, through the blocks that the refcount table references. A free cluster has refcount 0. A search starts at the
//! first-free hint or at a given cluster.
ghost use Rattle.std.specs.Prelude.{◌≡◌, ◌≤◌, ◌<◌, ◌+◌, ◌*◌, ◌/◌, ◌%◌, ◌^◌, if◌then◌else◌, length};
ghost use Rattle.qcow2_types.specs.Counts.{counters_of_block};
ghost use Rattle.qcow2_alloc.specs.Allocators.{table_of, UsesBlock};
ghost use Rattle.qcow2_alloc.specs.Caches.{cached_file};
ghost use Rattle.qcow2_alloc.specs.SearchingClusters.{LooksForRun, LooksForFree};
ghost use Rattle.qcow2_alloc.specs.Scanning.{next_of, ScansSome, FindsZero, Reads, ExtendsRun};

use crate::allocation::Allocator;
use crate::cache::MetadataCaches;
use crate::file::ImageFile;
use imago_storage::{Fault, Storage};
use qcow2_metadata::{RefBlock, Table};
use qcow2_types::HostCluster;

// A run of free clusters, as found up to this point of a search.
#[derive(Clone, Copy)]
pub(crate) struct Run {
    pub(crate) first: HostCluster,
    pub(crate) len: u64,
}

impl Run {
    // Returns the first cluster.
    pub(crate) fn first(&self) -> HostCluster
        ensures { result ≡ self.now.first }
    {
        self.first
    }

    // Returns the number of clusters.
    pub(crate) fn len(&self) -> u64
        ensures { result ≡ self.now.len }
    {
        self.len
    }

    // Returns the cluster after the run.
    pub(crate) fn next(&self) -> HostCluster
        requires { next_of self.now < 2 ^ 64 }
        ensures { result ≡ next_of self.now }
    {
        HostCluster(self.first.0 + self.len)
    }

    // Returns the run after one more cluster is known: extended by the cluster if it is free, otherwise empty and after the cluster.
    fn then(&self, is_free: bool) -> Run
        requires { next_of self.now + 1 < 2 ^ 64 }
        ensures { result ≡ (if is_free then record { first = self.now.first; len = self.now.len + 1 } else
            record { first = next_of self.now + 1; len = 0 }) }
    {
        if is_free {
            Run {
                first: self.first,
                len: self.len + 1,
            }
        } else {
            Run {
                first: HostCluster(self.next().0 + 1),
                len: 0,
            }
        }
    }
}

impl Allocator {
    // Returns the start of the first run of `count` free clusters from `from` on. A cluster without a block is free.
    pub(super) fn find_run<S: Storage>(
        &self,
        file: &mut ImageFile<S>,
        caches: &mut MetadataCaches<S>,
        from: HostCluster,
        count: u64,
    ) -> Result<HostCluster, Fault>
        ensures { LooksForRun S.state (table_of self.now) from count (cached_file caches.old file.old) result
            (cached_file caches.new file.new) }
    {
        let rb_bits = file.header.rb_bits();
        let mut run = Run {
            first: from,
            len: 0,
        };
        while run.len < count && run.next().rt_index(rb_bits) < self.reftable.entries() {
            run = self.extend_run(file, caches, run, count)?;
        }
        Ok(run.first)
    }

    // Extends a run by what the block of the next cluster says about that cluster and later ones.
    fn extend_run<S: Storage>(
        &self,
        file: &mut ImageFile<S>,
        caches: &mut MetadataCaches<S>,
        run: Run,
        count: u64,
    ) -> Result<Run, Fault>
        requires short { run.len < count }
        requires inside { next_of run / counters_of_block file.old.header.fields < length (table_of self.now).raw_entries }
        requires fits { next_of run < 2 ^ 64 }
        ensures { ExtendsRun S.state (table_of self.now) count run (cached_file caches.old file.old) result
            (cached_file caches.new file.new) }
    {
        let entries = file.header.rb_entries();
        let (rt_index, rb_index) = run.next().rt_rb_indices(file.header.rb_bits());
        match self.block_cluster(rt_index) {
            Some(rb_cluster) => scan_in(caches, file, rb_cluster, rb_index, run, count),
            None => Ok(Run {
                first: run.first,
                len: run.len + (entries - rb_index) as u64,
            }),
        }
    }

    // Returns the first free cluster from `from` on that has a block, among the blocks before index `end`.
    pub(super) fn find_counted<S: Storage>(
        &self,
        file: &mut ImageFile<S>,
        caches: &mut MetadataCaches<S>,
        from: HostCluster,
        end: usize,
    ) -> Result<Option<HostCluster>, Fault>
        requires inside { end ≤ length (table_of self.now).raw_entries }
        ensures { LooksForFree S.state (table_of self.now) from
            (end * counters_of_block file.old.header.fields) (cached_file caches.old file.old) result (cached_file caches.new file.new) }
    {
        let rb_bits = file.header.rb_bits();
        let mut next = from;
        while next.rt_index(rb_bits) < end {
            if let Some(cluster) = self.find_in_block(file, caches, next)? {
                return Ok(Some(cluster));
            }
            next = HostCluster::from_ref_indices(next.rt_index(rb_bits) + 1, 0, rb_bits);
        }
        Ok(None)
    }

    // Like `find_counted`, but only in the block of `from`.
    pub(super) fn find_in_block<S: Storage>(
        &self,
        file: &mut ImageFile<S>,
        caches: &mut MetadataCaches<S>,
        from: HostCluster,
    ) -> Result<Option<HostCluster>, Fault>
        requires { from / counters_of_block file.old.header.fields < length (table_of self.now).raw_entries }
        ensures { LooksForFree S.state (table_of self.now) from
            ((from / counters_of_block file.old.header.fields + 1) * counters_of_block file.old.header.fields)
            (cached_file caches.old file.old) result (cached_file caches.new file.new) }
    {
        let rb_bits = file.header.rb_bits();
        let (rt_index, rb_index) = from.rt_rb_indices(rb_bits);
        let Some(rb_cluster) = self.block_cluster(rt_index) else {
            return Ok(None);
        };
        match find_zero_in(caches, file, rb_cluster, rb_index)? {
            Some(index) => Ok(Some(HostCluster::from_ref_indices(rt_index, index, rb_bits))),
            None => Ok(None),
        }
    }
}

// Extends a run by the refcounts of a block from an index on, until it has `count` clusters or the block ends.
fn scan(block: &RefBlock, index: usize, run: Run, count: u64) -> Run
    requires short { run.len < count }
    requires inside { index < length block.now.counters }
    requires fits { next_of run + length block.now.counters < 2 ^ 64 }
    ensures { ScansSome block.now.counters count index run result }
{
    let mut scanned = run;
    for at in index..block.entries() {
        if scanned.len >= count {
            return scanned;
        }
        scanned = scanned.then(block.is_zero(at));
    }
    scanned
}

// Like `scan`, but fails with `Fault::DamagedTable` if the block doesn't have `entries` refcounts.
fn scan_whole(
    block: &RefBlock,
    entries: usize,
    index: usize,
    run: Run,
    count: u64,
) -> Result<Run, Fault>
    requires short { run.len < count }
    requires inside { index < entries }
    requires fits { next_of run + entries < 2 ^ 64 }
    ensures { Reads entries (λ counters now. ScansSome counters count index run now) block.now result block.now }
{
    if block.entries() == entries {
        Ok(scan(block, index, run, count))
    } else {
        Err(Fault::DamagedTable)
    }
}

// Calls `scan_whole` for the block in a cluster.
fn scan_in<S: Storage>(
    caches: &mut MetadataCaches<S>,
    file: &mut ImageFile<S>,
    rb_cluster: HostCluster,
    index: usize,
    run: Run,
    count: u64,
) -> Result<Run, Fault>
    requires short { run.len < count }
    requires inside { index < counters_of_block file.old.header.fields }
    requires fits { next_of run + counters_of_block file.old.header.fields < 2 ^ 64 }
    ensures { UsesBlock S.state rb_cluster (Reads (counters_of_block file.old.header.fields) (λ counters now.
        ScansSome counters count index run now)) (cached_file caches.old file.old) result (cached_file caches.new file.new) }
{
    let entries = file.header.rb_entries();
    let block = caches.rb_get_or_insert(file, rb_cluster)?;
    scan_whole(block, entries, index, run, count)
}

// Returns the index of the first refcount of a block that is 0, from an index on.
fn find_zero(block: &RefBlock, index: usize) -> Option<usize>
    ensures { FindsZero index block.now.counters result }
{
    (index..block.entries()).find(|at| block.is_zero(*at))
}

// Like `find_zero`, but fails with `Fault::DamagedTable` if the block doesn't have `entries` refcounts.
fn find_zero_whole(block: &RefBlock, entries: usize, index: usize) -> Result<Option<usize>, Fault>
    ensures { Reads entries (FindsZero index) block.now result block.now }
{
    if block.entries() == entries {
        Ok(find_zero(block, index))
    } else {
        Err(Fault::DamagedTable)
    }
}

// Calls `find_zero_whole` for the block in a cluster.
fn find_zero_in<S: Storage>(
    caches: &mut MetadataCaches<S>,
    file: &mut ImageFile<S>,
    rb_cluster: HostCluster,
    index: usize,
) -> Result<Option<usize>, Fault>
    ensures { UsesBlock S.state rb_cluster (Reads (counters_of_block file.old.header.fields) (FindsZero index))
        (cached_file caches.old file.old) result (cached_file caches.new file.new) }
{
    let entries = file.header.rb_entries();
    let block = caches.rb_get_or_insert(file, rb_cluster)?;
    find_zero_whole(block, entries, index)
}
