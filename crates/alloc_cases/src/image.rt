// The image that a case describes, built from fields and entries at given offsets.
use cases::{Trouble, bytes, number};
use imago_storage::{MemStorage, PreallocateMode, Storage, StorageExt};
use std::alloc::Global;

/// The COPIED flag of an entry.
const COPIED: u64 = 1 << 63;

/// The maximum size of an image, in bytes.
const MOST: u64 = 67_108_864;

/// The file of an image that is being described.
#[derive(Drop)]
pub struct Draft {
    alloc: Global,
    file: MemStorage,
    /// The cluster size, in bytes.
    cluster: u64,
    /// The width of a refcount, in bits.
    width: u64,
    /// The offset of the refcount table.
    reftable: u64,
    /// The offset of the L1 table.
    l1: u64,
}

// Returns the binary logarithm of a refcount width.
fn order(width: u64) -> Result<u64, Trouble> {
    match width {
        1 => Ok(0),
        2 => Ok(1),
        4 => Ok(2),
        8 => Ok(3),
        16 => Ok(4),
        32 => Ok(5),
        64 => Ok(6),
        _ => Err(Trouble::NoCall),
    }
}

// Returns the cluster size for a number of bits.
fn cluster_size(bits: u64) -> Result<u64, Trouble> {
    match bits {
        9 => Ok(512),
        10 => Ok(1_024),
        12 => Ok(4_096),
        16 => Ok(65_536),
        _ => Err(Trouble::NoCall),
    }
}

impl Draft {
    /// Returns an empty file.
    pub fn new(alloc: Global) -> Self {
        Draft {
            alloc,
            file: MemStorage::new(alloc),
            cluster: 512,
            width: 16,
            reftable: 0,
            l1: 0,
        }
    }

    /// Returns a copy of the file's bytes.
    pub fn copy(&self) -> Result<Vec<u8>, Trouble> {
        Ok(self.file.bytes()?)
    }

    fn put(&mut self, offset: u64, bytes: &[u8]) -> Result<(), Trouble> {
        if offset > MOST {
            return Err(Trouble::NoCall);
        }
        Ok(self.file.write(self.alloc, bytes, offset)?)
    }

    fn raw_entry(&mut self, offset: u64, value: u64) -> Result<(), Trouble> {
        self.put(offset, &value.to_be_bytes())
    }

    fn word_at(&mut self, offset: u64) -> Result<u64, Trouble> {
        let mut bytes = [0u8; 8];
        self.file.read(self.alloc, &mut bytes, offset)?;
        Ok(u64::from_be_bytes(bytes))
    }

    // Returns the offset of a cluster.
    fn place(&self, cluster: u64) -> u64 {
        cluster.wrapping_mul(self.cluster)
    }

    // Starts a file of `clusters` clusters of zeros with a header of version 3, for clusters of 2^`bits` bytes and refcounts of `width`
    // bits.
    fn begin(&mut self, bits: u64, width: u64, clusters: u64) -> Result<(), Trouble> {
        let order = order(width)?;
        let cluster = cluster_size(bits)?;
        *self = Draft::new(self.alloc);
        self.cluster = cluster;
        self.width = width;
        let size = self.place(clusters);
        if size > MOST {
            return Err(Trouble::NoCall);
        }
        self.file.resize(size, PreallocateMode::None)?;
        self.raw_entry(0, 0x5146_49fb_0000_0003)?;
        self.raw_entry(16, bits)?;
        self.raw_entry(96, order << 32 | 104)
    }

    // Sets the cluster and the length, in clusters, of the refcount table.
    fn put_reftable(&mut self, cluster: u64, clusters: u64) -> Result<(), Trouble> {
        self.reftable = self.place(cluster);
        self.raw_entry(48, self.reftable)?;
        self.raw_entry(56, clusters.wrapping_mul(1 << 32))
    }

    // Sets an entry of the refcount table.
    fn put_block(&mut self, index: u64, cluster: u64) -> Result<(), Trouble> {
        let place = self.reftable.wrapping_add(index.wrapping_mul(8));
        self.raw_entry(place, self.place(cluster))
    }

    // Sets the cluster and the number of entries of the L1 table, and the disk's size in bytes.
    fn put_l1(&mut self, cluster: u64, words: u64, size: u64) -> Result<(), Trouble> {
        self.l1 = self.place(cluster);
        self.raw_entry(24, size)?;
        self.raw_entry(32, words)?;
        self.raw_entry(40, self.l1)
    }

    // Sets an L1 entry, with its COPIED flag.
    fn put_table(&mut self, index: u64, cluster: u64) -> Result<(), Trouble> {
        let place = self.l1.wrapping_add(index.wrapping_mul(8));
        self.raw_entry(place, COPIED | self.place(cluster))
    }

    // Sets an L2 entry, with its COPIED flag.
    fn put_mapping(&mut self, table: u64, index: u64, cluster: u64) -> Result<(), Trouble> {
        let place = self.place(table).wrapping_add(index.wrapping_mul(8));
        self.raw_entry(place, COPIED | self.place(cluster))
    }

    // Sets a refcount of a block. `bit` is its first bit, counted from the least significant bit of each byte.
    fn put_counter(&mut self, block: u64, bit: u64, times: u64) -> Result<(), Trouble> {
        let place = block.wrapping_add(bit / 8);
        match self.width {
            64 => self.raw_entry(place, times),
            32 => self.put(place, &((times & 0xffff_ffff) as u32).to_be_bytes()),
            16 => self.put(place, &((times & 0xffff) as u16).to_be_bytes()),
            _ => self.put_small_counter(place, bit % 8, times),
        }
    }

    // Sets a refcount that is smaller than a byte and was 0 before.
    fn put_small_counter(&mut self, place: u64, shift: u64, times: u64) -> Result<(), Trouble> {
        let [before, ..] = self.word_at(place)?.to_be_bytes();
        let counter = ((times << (shift % 8)) & 0xff) as u8;
        self.put(place, &[before | counter])
    }

    // Sets the refcounts of clusters to `times`, in the blocks that the refcount table references.
    fn count(&mut self, first: u64, clusters: u64, times: u64) -> Result<(), Trouble> {
        let counters = (self.cluster.saturating_mul(8) / self.width.max(1)).max(1);
        for step in 0..clusters {
            let cluster = first.wrapping_add(step);
            let entry = (cluster / counters).wrapping_mul(8);
            let block = self.word_at(self.reftable.wrapping_add(entry))?;
            if block == 0 {
                return Err(Trouble::NoCall);
            }
            let bit = (cluster % counters).wrapping_mul(self.width);
            self.put_counter(block, bit, times)?;
        }
        Ok(())
    }

    // Starts an image with clusters of 512 bytes. The first `counted` clusters have refcount 1. The refcount table is cluster 1, and
    // references the block in cluster 2.
    fn make(&mut self, width: u64, counted: u64) -> Result<(), Trouble> {
        self.begin(9, width, counted.max(3))?;
        self.put_reftable(1, 1)?;
        self.put_block(0, 2)?;
        self.count(0, counted, 1)
    }

    // Handles lines about L1 and L2 tables.
    fn describe_tables(&mut self, words: &[&str]) -> Result<(), Trouble> {
        match words {
            ["l1", cluster, entries, size] => {
                self.put_l1(number(cluster)?, number(entries)?, number(size)?)
            }
            ["table", index, cluster] => self.put_table(number(index)?, number(cluster)?),
            ["mapped", table, index, cluster] => {
                self.put_mapping(number(table)?, number(index)?, number(cluster)?)
            }
            _ => Err(Trouble::NoCall),
        }
    }

    // Handles lines about refcounts and the refcount table.
    fn describe_counts(&mut self, words: &[&str]) -> Result<(), Trouble> {
        match words {
            ["reftable", cluster, clusters] => {
                self.put_reftable(number(cluster)?, number(clusters)?)
            }
            ["block", index, cluster] => self.put_block(number(index)?, number(cluster)?),
            ["count", first, clusters] => self.count(number(first)?, number(clusters)?, 1),
            ["count", first, clusters, times] => {
                self.count(number(first)?, number(clusters)?, number(times)?)
            }
            _ => self.describe_tables(words),
        }
    }

    /// Handles a line of the image's description.
    pub fn describe(&mut self, words: &[&str]) -> Result<(), Trouble> {
        match words {
            ["image", bits, width, clusters] => {
                self.begin(number(bits)?, number(width)?, number(clusters)?)
            }
            ["made", width, counted] => self.make(number(width)?, number(counted)?),
            ["word", offset, value] => self.raw_entry(number(offset)?, number(value)?),
            ["put", offset, rest @ ..] => {
                let bytes = bytes(self.alloc, rest)?;
                self.put(number(offset)?, &bytes)
            }
            _ => self.describe_counts(words),
        }
    }
}
