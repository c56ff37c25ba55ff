// Refcount blocks, kept in memory as the bytes of their cluster.
ghost use Rattle.std.specs.Prelude.{◌≡◌, ℕ, ◌+◌, ◌-◌, ◌*◌, ◌^◌, ◌<◌, ◌≤◌, ◌↔◌, ◌==◌, true, false, length, replicate, slice_index, slice_set, IsTrue, IsOk, OnOk, OnErr, IfOk, IfErr, IsOkUnless, Some, None};
ghost use Rattle.imago_storage.specs.Calls.{CountsFaults, UnchangedButFaults, Reads};
ghost use Rattle.imago_storage.specs.State.{IsAlignment, unit_of};
ghost use Rattle.qcow2_types.specs.Bytes.{bytes_of};
ghost use Rattle.qcow2_types.specs.Words.{max_offset};
ghost use Rattle.qcow2_types.specs.Header.{Shaped, cluster_size};
ghost use Rattle.qcow2_types.specs.Counts.{counters_of_block};
ghost use Rattle.qcow2_metadata.specs.Places.{IsAddressable, IsPlaced, place_of};

use crate::Header;
use crate::clusters::{first_byte_of, read_cluster, write_cluster, zeroes};
use crate::counter::{decrement_by, get, increment};
use imago_storage::{Fault, Storage};
use qcow2_types::{HostCluster, HostOffset};
use std::alloc::{AllocError, Global};
use std::marker::Model;

/// A refcount block: the refcounts of consecutive host clusters. It fills one cluster.
///
/// It is kept in memory. In contracts its refcounts are a list.
#[derive(Drop)]
pub struct RefBlock {
    // as in the file
    bytes: Vec<u8>,
    refcount_order: u32,
    cluster_bits: u32,
    cluster: Option<HostCluster>,
    modified: bool,
}

impl Model for RefBlock {
    ghost use Rattle.qcow2_metadata.specs.Blocks.{Block};

    ghost Value = { Block };

    ghost use Rattle.qcow2_metadata.specs.BlockView.{seen_block, IsBlock};

    ghost view = { seen_block };

    ghost invariant = { IsBlock };
}

impl RefBlock {
    ghost use Rattle.qcow2_metadata.specs.Cells.{counters_of};
    ghost use Rattle.qcow2_metadata.specs.Blocks.{block_of, with_counter, block_in, BlockPut};

    // Returns the block of these bytes.
    fn of_bytes(
        bytes: Vec<u8>,
        header: &Header,
        cluster: Option<HostCluster>,
        modified: bool,
    ) -> RefBlock
        requires { length bytes.items ≡ cluster_size header.now.fields }
        ensures value { result ≡ block_of header.now.fields.cluster_bits header.now.fields.refcount_order
            (counters_of header.now.fields.refcount_order bytes.items) cluster modified }
        ensures fit { (k : ℕ) → slice_index bytes.items k < 256 }
        ensures shaped { Shaped header.now.fields }
    {
        RefBlock {
            bytes,
            refcount_order: header.refcount_order(),
            cluster_bits: header.cluster_bits(),
            cluster,
            modified,
        }
    }

    /// Returns a block for an image with this header whose refcounts are all 0. The block has no cluster in the file yet, and is dirty.
    ///
    /// # Errors
    ///
    /// - `Fault::Memory`.
    pub fn new_cleared(alloc: Global, header: &Header) -> Result<RefBlock, Fault>
        ensures ok { IfOk result (λ block. block ≡ record {
          cluster_bits = header.now.fields.cluster_bits;
          order = header.now.fields.refcount_order;
          counters = replicate (counters_of_block header.now.fields) 0;
          cluster = None;
          modified = true;
        }) }
        ensures err { IsOkUnless result Fault.Memory }
    {
        match zeroes(alloc, header.cluster_size()) {
            Ok(bytes) => Ok(RefBlock::of_bytes(bytes, header, None, true)),
            Err(_) => Err(Fault::Memory),
        }
    }

    /// Loads the block in a cluster of an image with this header. The loaded block isn't dirty. The file is unchanged, also on error.
    ///
    /// # Preconditions
    ///
    /// The offset of the cluster fits an entry.
    ///
    /// # Errors
    ///
    /// - `Fault::Memory`, `Fault::Storage`.
    pub fn load<S: Storage>(
        alloc: Global,
        image: &mut S,
        header: &Header,
        cluster: HostCluster,
    ) -> Result<RefBlock, Fault>
        requires { IsAddressable header.now.fields.cluster_bits cluster }
        ensures ok { IfOk result (λ block. block ≡ block_in (bytes_of (S.state image.old).bytes) header.now.fields cluster) }
        ensures unchanged_but_faults { UnchangedButFaults (S.state image.old) (S.state image.new) }
        ensures faults { CountsFaults (S.state image.old).faults (S.state image.new).faults result }
    {
        let HostOffset(offset) = cluster.offset(header.cluster_bits());
        let bytes = read_cluster(alloc, image, offset, header.cluster_size())?;
        Ok(RefBlock::of_bytes(bytes, header, Some(cluster), false))
    }

    /// Writes the block to its cluster, in one request. After success the block isn't dirty.
    ///
    /// # Preconditions
    ///
    /// The block has a cluster, and the cluster's offset fits an entry.
    ///
    /// # Errors
    ///
    /// - `Fault::Memory`, `Fault::Storage`. The block is now dirty, and each byte of the cluster is old or new.
    pub fn write<S: Storage>(&mut self, alloc: Global, image: &mut S) -> Result<(), Fault>
        requires { IsPlaced self.old.cluster_bits self.old.cluster }
        ensures request { BlockPut self.old (place_of self.old.cluster_bits self.old.cluster) (S.state image.old)
            (S.state image.new) result }
        ensures ok { OnOk result (self.new ≡ record self.old { modified = false }) }
        ensures err { OnErr result (self.new ≡ record self.old { modified = true }) }
    {
        let place = first_byte_of(self.cluster, self.cluster_bits);
        let result = write_cluster(alloc, image, &self.bytes, place, self.cluster_bits);
        self.modified = result.is_err();
        result
    }

    /// Writes the block to its cluster, which must be `cluster`, if it is dirty. Otherwise there is no I/O.
    ///
    /// # Preconditions
    ///
    /// The offset of `cluster` fits an entry.
    ///
    /// # Errors
    ///
    /// - Those of `write`.
    pub fn write_if_modified<S: Storage>(
        &mut self,
        alloc: Global,
        image: &mut S,
        cluster: HostCluster,
    ) -> Result<(), Fault>
        requires placed { self.old.cluster ≡ Some cluster }
        requires reach { IsAddressable self.old.cluster_bits cluster }
        ensures request { IsTrue self.old.modified → BlockPut self.old (cluster * 2 ^ self.old.cluster_bits) (S.state image.old)
            (S.state image.new) result }
        ensures nothing { self.old.modified ≡ false → IsOk result × (S.state image.new ≡ S.state image.old) }
        ensures ok { OnOk result (self.new ≡ record self.old { modified = false }) }
        ensures err { OnErr result (self.new ≡ record self.old { modified = true }) }
    {
        let _ = cluster;
        if self.modified {
            self.write(alloc, image)
        } else {
            Ok(())
        }
    }

    /// Returns the cluster of the block, if it has one.
    pub fn get_cluster(&self) -> Option<HostCluster>
        ensures { result ≡ self.now.cluster }
    {
        self.cluster
    }

    /// Returns the host offset of the block in bytes, if it has a cluster.
    ///
    /// # Preconditions
    ///
    /// The offset fits 64 bits.
    pub fn get_offset(&self) -> Option<HostOffset>
        requires { place_of self.now.cluster_bits self.now.cluster < 2 ^ 64 }
        ensures none { self.now.cluster ≡ None → result ≡ None }
        ensures offset_of_cluster { (cluster : ℕ) → self.now.cluster ≡ Some cluster → result ≡ Some (cluster * 2 ^ self.now.cluster_bits) }
    {
        match self.cluster {
            Some(cluster) => Some(cluster.offset(self.cluster_bits)),
            None => None,
        }
    }

    /// Sets the cluster of the block. The file doesn't have the block there yet, so the block is now dirty.
    pub fn set_cluster(&mut self, cluster: HostCluster)
        ensures { self.new ≡ record self.old { cluster = Some cluster; modified = true } }
    {
        self.cluster = Some(cluster);
        self.modified = true;
    }

    /// Returns the base-2 logarithm of the cluster size in bytes: 9 to 21.
    pub fn cluster_bits(&self) -> u32
        ensures value { result ≡ self.now.cluster_bits }
        ensures bounds { (9 ≤ result) × (result ≤ 21) }
    {
        self.cluster_bits
    }

    /// Returns the number of refcounts. They fill the cluster.
    pub fn entries(&self) -> usize
        ensures value { result ≡ length self.now.counters }
        ensures whole { result * 2 ^ self.now.order ≡ 2 ^ self.now.cluster_bits * 8 }
        ensures bits { (9 ≤ self.now.cluster_bits) × (self.now.cluster_bits ≤ 21) }
        ensures order { self.now.order ≤ 6 }
        ensures fit { (i : ℕ) → slice_index self.now.counters i < 2 ^ 2 ^ self.now.order }
    {
        (self.bytes.len() * 8) >> self.refcount_order
    }

    /// Returns the refcount at an index.
    ///
    /// # Preconditions
    ///
    /// `index` is less than the number of refcounts.
    pub fn get(&self, index: usize) -> u64
        requires { index < length self.now.counters }
        ensures { result ≡ slice_index self.now.counters index }
    {
        get(&self.bytes, self.refcount_order, index)
    }

    /// Returns true if the refcount at an index is 0.
    ///
    /// # Preconditions
    ///
    /// `index` is less than the number of refcounts.
    pub fn is_zero(&self, index: usize) -> bool
        requires { index < length self.now.counters }
        ensures { result ≡ (slice_index self.now.counters index == 0) }
    {
        self.get(index) == 0
    }

    /// Returns true if the block is dirty: the file may differ from it.
    pub fn is_modified(&self) -> bool
        ensures { result ≡ self.now.modified }
    {
        self.modified
    }

    /// Sets the block to dirty: the file may differ from it.
    pub fn set_modified(&mut self)
        ensures { self.new ≡ record self.old { modified = true } }
    {
        self.modified = true;
    }

    /// Sets the block to clean: the file has it.
    pub fn clear_modified(&mut self)
        ensures { self.new ≡ record self.old { modified = false } }
    {
        self.modified = false;
    }

    /// Returns a guard through which the refcounts can be changed.
    pub fn lock_write(&mut self) -> RefBlockWriteGuard<'_>
        ensures same { result.block.ghost_name ≡ self.entry.ghost_name }
        ensures value { result.block.now ≡ self.old }
    {
        RefBlockWriteGuard { block: self }
    }

    // Increments the refcount, and returns the new one.
    fn raise(&mut self, index: usize) -> Result<u64, Fault>
        requires { index < length self.old.counters }
        ensures possible { IsOk result ↔ (slice_index self.old.counters index + 1 < 2 ^ (2 ^ self.old.order)) }
        ensures raised { IfOk result (λ count. (count ≡ slice_index self.old.counters index + 1)
            × (self.new ≡ with_counter self.old index (slice_index self.old.counters index + 1))) }
        ensures refused { IfErr result (λ fault. fault ≡ Fault.Counter) }
        ensures stays { OnErr result (self.new ≡ self.old) }
    {
        increment(&mut self.bytes, self.refcount_order, index)?;
        self.modified = true;
        Ok(self.get(index))
    }

    // Lowers the refcount by `by`, and returns the new one.
    fn lower(&mut self, index: usize, by: u64) -> Result<u64, Fault>
        requires { index < length self.old.counters }
        ensures possible { IsOk result ↔ (by ≤ slice_index self.old.counters index) }
        ensures lowered { IfOk result (λ count. (count ≡ slice_index self.old.counters index - by)
            × (self.new ≡ with_counter self.old index (slice_index self.old.counters index - by))) }
        ensures refused { IfErr result (λ fault. fault ≡ Fault.Counter) }
        ensures stays { OnErr result (self.new ≡ self.old) }
    {
        decrement_by(&mut self.bytes, self.refcount_order, index, by)?;
        self.modified = true;
        Ok(self.get(index))
    }
}

/// A guard through which the refcounts of a block can be changed.
#[derive(Drop)]
pub struct RefBlockWriteGuard<'a> {
    block: &'a mut RefBlock,
}

impl RefBlockWriteGuard<'_> {
    ghost use Rattle.qcow2_metadata.specs.Blocks.{with_counter};

    /// Increments the refcount at an index, and returns the new refcount. The block is now dirty.
    ///
    /// # Preconditions
    ///
    /// `index` is less than the number of refcounts.
    ///
    /// # Errors
    ///
    /// - `Fault::Counter` exactly if the refcount is the greatest of its width. Nothing changes.
    pub fn increment(&mut self, index: usize) -> Result<u64, Fault>
        requires { index < length self.old.block.now.counters }
        ensures possible { IsOk result ↔ (slice_index self.old.block.now.counters index + 1 < 2 ^ (2 ^ self.old.block.now.order)) }
        ensures raised { IfOk result (λ count. (count ≡ slice_index self.old.block.now.counters index + 1)
            × (self.new.block.now ≡ with_counter self.old.block.now index (slice_index self.old.block.now.counters index + 1))) }
        ensures refused { IfErr result (λ fault. fault ≡ Fault.Counter) }
        ensures stays { OnErr result (self.new.block.now ≡ self.old.block.now) }
        ensures same { self.new.block.ghost_name ≡ self.old.block.ghost_name }
    {
        self.block.raise(index)
    }

    /// Decrements the refcount at an index, and returns the new refcount. The block is now dirty.
    ///
    /// # Preconditions
    ///
    /// `index` is less than the number of refcounts.
    ///
    /// # Errors
    ///
    /// - `Fault::Counter` exactly if the refcount is 0. Nothing changes.
    pub fn decrement(&mut self, index: usize) -> Result<u64, Fault>
        requires { index < length self.old.block.now.counters }
        ensures possible { IsOk result ↔ (0 < slice_index self.old.block.now.counters index) }
        ensures lowered { IfOk result (λ count. (count ≡ slice_index self.old.block.now.counters index - 1)
            × (self.new.block.now ≡ with_counter self.old.block.now index (slice_index self.old.block.now.counters index - 1))) }
        ensures refused { IfErr result (λ fault. fault ≡ Fault.Counter) }
        ensures stays { OnErr result (self.new.block.now ≡ self.old.block.now) }
        ensures same { self.new.block.ghost_name ≡ self.old.block.ghost_name }
    {
        self.block.lower(index, 1)
    }

    /// Lowers the refcount at an index by `by`, and returns the new refcount. The block is now dirty, even if `by` is 0.
    ///
    /// # Preconditions
    ///
    /// `index` is less than the number of refcounts.
    ///
    /// # Errors
    ///
    /// - `Fault::Counter` exactly if the refcount is less than `by`. Nothing changes.
    pub fn lower(&mut self, index: usize, by: u64) -> Result<u64, Fault>
        requires { index < length self.old.block.now.counters }
        ensures possible { IsOk result ↔ (by ≤ slice_index self.old.block.now.counters index) }
        ensures lowered { IfOk result (λ count. (count ≡ slice_index self.old.block.now.counters index - by)
            × (self.new.block.now ≡ with_counter self.old.block.now index (slice_index self.old.block.now.counters index - by))) }
        ensures refused { IfErr result (λ fault. fault ≡ Fault.Counter) }
        ensures stays { OnErr result (self.new.block.now ≡ self.old.block.now) }
        ensures same { self.new.block.ghost_name ≡ self.old.block.ghost_name }
    {
        self.block.lower(index, by)
    }

    /// Returns true if the refcount at an index is 0.
    ///
    /// # Preconditions
    ///
    /// `index` is less than the number of refcounts.
    pub fn is_zero(&self, index: usize) -> bool
        requires { index < length self.now.block.now.counters }
        ensures { result ≡ (slice_index self.now.block.now.counters index == 0) }
    {
        self.block.is_zero(index)
    }
}
