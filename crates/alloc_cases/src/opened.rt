// An open image: its file in a `LogStorage` over a `FuseStorage`, its caches and its allocator.
ghost use Rattle.std.specs.Prelude.{◌≤◌, IsTrue};
ghost use Rattle.qcow2_metadata.specs.Places.{IsAddressable};

use crate::listing::Waiting;
use cases::{Alignments, Notes, Shaped, Trouble};
use imago_storage::{FuseStorage, LogStorage, MemStorage, Storage, StorageExt};
use qcow2_alloc::{Allocator, ImageFile, MetadataCaches};
use qcow2_metadata::{Header, RefTable, Table};
use qcow2_types::{HostCluster, MAX_OFFSET};
use std::alloc::Global;
use std::cell::Cell;

/// The storage below an image: it exposes its crash images, one request may fail, and it notes all requests.
pub type Disk<'a> = LogStorage<FuseStorage<Shaped<'a>>>;

/// An open image, and the parts that a script has already printed.
#[derive(Drop)]
pub struct Open<'a> {
    pub alloc: Global,
    pub file: ImageFile<Disk<'a>>,
    pub caches: MetadataCaches<Disk<'a>>,
    pub allocator: Allocator,
    /// The number of changes of the file that were printed.
    pub told: usize,
    /// The number of crash images that were checked.
    pub judged: usize,
}

/// The parameters for opening an image.
#[derive(Clone, Copy)]
pub struct Opening {
    /// The capacity of the cache of L2 tables.
    pub tables: usize,
    /// The capacity of the cache of refcount blocks.
    pub blocks: usize,
    /// The start of the search for free clusters, if not the default.
    pub mark: Option<u64>,
    /// The storage request that fails, counted from 1, or 0 for none.
    pub fuse: u64,
}

/// Returns true if the cluster fits the offset field of an entry.
pub fn is_addressable(cluster: HostCluster, cluster_bits: u32) -> bool
    requires { cluster_bits ≤ 21 }
    ensures { IsTrue result → IsAddressable cluster_bits cluster }
{
    match 1u64.checked_shl(cluster_bits) {
        Some(size) => match cluster.0.checked_mul(size) {
            Some(place) => place <= MAX_OFFSET,
            None => false,
        },
        None => false,
    }
}

// Loads the header at the start of a file, for writing.
fn header_of(alloc: Global, bytes: Vec<u8>) -> Result<Header, Trouble> {
    let mut image = MemStorage::from_bytes(bytes)?;
    Ok(Header::load(alloc, &mut image, true)?)
}

// Returns the storage for an image's bytes. The request of number `fuse` fails, counted from 1; 0 means none. The log's own first read
// isn't counted.
fn disk_of<'a>(
    alloc: Global,
    bytes: Vec<u8>,
    fuse: u64,
    notes: &'a Cell<Notes>,
) -> Result<Disk<'a>, Trouble> {
    let Some(alignments) = Alignments::new(1, 1, 1, 1) else {
        return Err(Trouble::NoCall);
    };
    let fuse = if fuse == 0 { 0 } else { fuse.saturating_add(1) };
    let shaped = Shaped::new(bytes, alignments, true, true, notes)?;
    Ok(LogStorage::new(alloc, FuseStorage::new(shaped, fuse))?)
}

// Loads the refcount table that a header references.
fn table_of<'a>(alloc: Global, file: &mut ImageFile<Disk<'a>>) -> Result<RefTable, Trouble> {
    let bits = file.header.cluster_bits();
    let Some(cluster) = file.header.reftable_offset().checked_cluster(bits) else {
        return Err(Trouble::NoCall);
    };
    if !is_addressable(cluster, bits) {
        return Err(Trouble::NoCall);
    }
    let entries = file.header.reftable_entries();
    Ok(RefTable::load(alloc, &mut file.image, &file.header, cluster, entries)?)
}

// Returns the allocator of an image, with the given start of its search if any.
fn allocator_of<'a>(
    alloc: Global,
    file: &mut ImageFile<Disk<'a>>,
    mark: Option<u64>,
) -> Result<Allocator, Trouble> {
    match mark {
        None => Ok(Allocator::new(alloc, file)?),
        Some(mark) => {
            let table = table_of(alloc, file)?;
            Ok(Allocator::from_table(alloc, table, HostCluster(mark)))
        }
    }
}

fn caches_of<'a>(
    alloc: Global,
    tables: usize,
    blocks: usize,
) -> Result<MetadataCaches<Disk<'a>>, Trouble> {
    if tables == 0 || blocks == 0 {
        return Err(Trouble::NoCall);
    }
    Ok(MetadataCaches::new(alloc, tables, blocks)?)
}

impl<'a> Open<'a> {
    /// Opens the image in `bytes`. `copy` is a copy of them.
    pub fn new(
        alloc: Global,
        bytes: Vec<u8>,
        copy: Vec<u8>,
        opening: Opening,
        notes: &'a Cell<Notes>,
    ) -> Result<Self, Trouble> {
        let header = header_of(alloc, copy)?;
        let image = disk_of(alloc, bytes, opening.fuse, notes)?;
        let mut file = ImageFile { image, header };
        let allocator = allocator_of(alloc, &mut file, opening.mark)?;
        let caches = caches_of(alloc, opening.tables, opening.blocks)?;
        Ok(Open {
            alloc,
            file,
            caches,
            allocator,
            told: 0,
            judged: 0,
        })
    }

    /// Sets the start of the search for free clusters, and reloads the refcount table.
    pub fn set_mark(&mut self, mark: u64) -> Result<(), Trouble> {
        self.allocator = allocator_of(self.alloc, &mut self.file, Some(mark))?;
        Ok(())
    }
}
