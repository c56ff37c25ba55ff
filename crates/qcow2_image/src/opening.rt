// Opens the metadata of an image: its header, its L1 table, and empty caches. If the image is opened for writing, its refcount table is
// loaded too. Definitions: specs/Opening.antt.
ghost use Rattle.std.specs.Prelude.{◌≡◌, ◌≢◌, true, false, None, Ok, OnOk, IfOk, IfErr, IsTrue, length};
ghost use Rattle.imago_storage.specs.Calls.{CountsFaults, UnchangedButFaults};
ghost use Rattle.imago_storage.specs.declared.fault.Fault.TheVariants.{DamagedTable};
ghost use Rattle.imago_access.specs.Building.{IsOpened};
ghost use Rattle.imago_access.specs.declared.format.Format.TheVariants as format;
ghost use Rattle.qcow2_types.specs.Bytes.{bytes_of};
ghost use Rattle.qcow2_types.specs.Counts.{refcount_table_sound};
ghost use Rattle.qcow2_types.specs.Header.{header_of, has_external_data};
ghost use Rattle.qcow2_metadata.specs.Loading.{file, NotLoaded};
ghost use Rattle.qcow2_alloc.specs.Opening.{IsL1Of};
ghost use Rattle.qcow2_image.specs.Opening.{header_for, WhyNotOpened, WhyNoSpace, IsJustOpened, IsOpenedAs, IsSpaceOpened, is_qcow2};

use crate::cache_entries::CacheEntries;
use crate::mode::OpenMode;
use crate::qcow2::Qcow2;
use crate::tables::Tables;
use imago_access::DriverModel;
use imago_storage::{Fault, Storage, StorageExt};
use qcow2_alloc::{ImageFile, MetadataCaches};
use qcow2_clusters::Space;
use qcow2_metadata::{Header, L1Table, Table};
use qcow2_types::{MAGIC, OnDiskStruct, V2Header};
use std::alloc::Global;

// Loads the header of an image that is opened read-only or for writing. An external data file is `Fault::Unsupported`.
pub(crate) fn load_header<S: Storage>(
    alloc: Global,
    image: &mut S,
    writable: bool,
) -> Result<Header, Fault>
    ensures loads { IfOk result (λ header. header_of writable (file (S.state image.old)) ≡ Ok header) }
    ensures inside { IfOk result (λ header. has_external_data header.fields ≡ false) }
    ensures err { IfErr result (NotLoaded (header_for writable (file (S.state image.old))) (S.state image.old) (S.state image.new)) }
    ensures first { IfErr result (λ fault. fault ≢ DamagedTable) }
    ensures same { OnOk result (S.state image.new ≡ S.state image.old) }
    ensures unchanged_but_faults { UnchangedButFaults (S.state image.old) (S.state image.new) }
{
    let header = Header::load(alloc, image, writable)?;
    if header.external_data_file() {
        return Err(Fault::Unsupported);
    }
    Ok(header)
}

// Loads the L1 table of an image with this header.
pub(crate) fn load_l1<S: Storage>(
    alloc: Global,
    image: &mut S,
    header: &Header,
) -> Result<L1Table, Fault>
    requires loads { header_of false (file (S.state image.old)) ≡ Ok header.now }
    requires inside { has_external_data header.now.fields ≡ false }
    ensures ok { IfOk result (IsL1Of (file (S.state image.old)) header.now.fields) }
    ensures err { (writable : _) → header_of writable (file (S.state image.old)) ≡ Ok header.now
        → IfErr result (NotLoaded (header_for writable (file (S.state image.old))) (S.state image.old) (S.state image.new)) }
    ensures same { OnOk result (S.state image.new ≡ S.state image.old) }
    ensures unchanged_but_faults { UnchangedButFaults (S.state image.old) (S.state image.new) }
{
    let cluster = header.l1_table_offset().cluster(header.cluster_bits());
    L1Table::load(alloc, image, header, cluster, header.l1_table_entries())
}

// Loads the header and the L1 table. The storage only gets reads.
fn load_metadata<S: Storage>(
    alloc: Global,
    image: &mut S,
    writable: bool,
) -> Result<(Header, L1Table), Fault>
    ensures loads { IfOk result (λ r. header_of writable (file (S.state image.old)) ≡ Ok r.0) }
    ensures inside { IfOk result (λ r. has_external_data r.0.fields ≡ false) }
    ensures l1 { IfOk result (λ r. IsL1Of (file (S.state image.old)) r.0.fields r.1) }
    ensures err { IfErr result (NotLoaded (header_for writable (file (S.state image.old))) (S.state image.old) (S.state image.new)) }
    ensures same { OnOk result (S.state image.new ≡ S.state image.old) }
    ensures unchanged_but_faults { UnchangedButFaults (S.state image.old) (S.state image.new) }
{
    let header = load_header(alloc, image, writable)?;
    let l1 = load_l1(alloc, image, &header)?;
    Ok((header, l1))
}

// Loads the free space of an image that is opened for writing, by this header. Returns `None` for a read-only image. The storage only gets
// reads.
pub(crate) fn load_free_space<S: Storage>(
    alloc: Global,
    file: &mut ImageFile<S>,
    writable: bool,
) -> Result<Option<Space>, Fault>
    requires loads { header_of false (bytes_of (S.state file.old.image).bytes) ≡ Ok file.old.header }
    ensures ok { IfOk result (IsSpaceOpened (S.state file.old.image) file.old.header.fields writable) }
    ensures sound { writable ≡ true
        → OnOk result (refcount_table_sound (bytes_of (S.state file.old.image).bytes) file.old.header.fields ≡ true) }
    ensures err { let f = bytes_of (S.state file.old.image).bytes in
        IfErr result (WhyNoSpace f file.old.header.fields writable (S.state file.old.image).faults (S.state file.new.image).faults) }
    ensures same { OnOk result (S.state file.new.image ≡ S.state file.old.image) }
    ensures unchanged_but_faults { UnchangedButFaults (S.state file.old.image) (S.state file.new.image) }
    ensures header { file.new.header ≡ file.old.header }
{
    if !writable {
        return Ok(None);
    }
    let space = Space::load(alloc, file)?;
    Ok(Some(space))
}

// Opens the metadata of an image, with caches for these numbers of entries.
fn open_tables<S: Storage>(
    alloc: Global,
    mut image: S,
    writable: bool,
    entries: CacheEntries,
) -> Result<Tables<S>, Fault>
    ensures ok { IfOk result (IsJustOpened S.Storage (S.state image) writable entries.l2_tables entries.refcount_blocks) }
    ensures err { IfErr result (WhyNotOpened S.state writable (file (S.state image))) }
{
    let (header, l1) = load_metadata(alloc, &mut image, writable)?;
    let mut file = ImageFile { image, header };
    let space = load_free_space(alloc, &mut file, writable)?;
    let caches = MetadataCaches::new(alloc, entries.l2_tables, entries.refcount_blocks)?;
    Ok(Tables {
        file,
        l1,
        caches,
        space,
    })
}

// Opens an image with this number, read-only or for writing. If `backing` is `None`, unallocated bytes are read from a backing file if the
// header has a backing file name.
pub(crate) fn open_with<S: Storage>(
    alloc: Global,
    image: S,
    writable: bool,
    backing: Option<bool>,
    number: u64,
    entries: CacheEntries,
) -> Result<Qcow2<S>, Fault>
    ensures ok { IfOk result (IsOpenedAs S.Storage (S.state image) writable backing number entries.l2_tables entries.refcount_blocks) }
    ensures seen { IfOk result (IsOpened ⟦<Qcow2<S> as DriverModel>⟧ format.Qcow2 writable number (S.state image)) }
    ensures err { IfErr result (WhyNotOpened S.state writable (file (S.state image))) }
{
    let tables = open_tables(alloc, image, writable, entries)?;
    let backing = match backing {
        Some(backing) => backing,
        None => tables.file.header.backing_filename().is_some(),
    };
    Ok(Qcow2 {
        tables,
        mode: OpenMode { writable, backing },
        number,
        failed: false,
        claims: 0,
        unspent: None,
    })
}

// Returns true if these 72 bytes start with the magic number and version 2 or 3.
fn begins_image(start: &[u8]) -> bool
    requires { length start.now ≡ 72 }
    ensures { result ≡ is_qcow2 (bytes_of start.now) }
{
    let header = V2Header::from_bytes(start);
    header.magic == MAGIC && (header.version == 2 || header.version == 3)
}

impl<S: Storage> Qcow2<S> {
    /// Opens an image, read-only or for writing.
    ///
    /// It gets the number 0, and caches for 128 L2 tables and 32 refcount blocks. If its header has a backing file name, unallocated bytes
    /// are read from the layers below (the backing chain). The call reads the header and the L1 table, and for writing also the refcount
    /// table. It makes no other request.
    ///
    /// L2 tables and refcount blocks aren't checked here. An offset below a damaged L2 table fails when it is looked up.
    ///
    /// # Errors
    ///
    /// - `Fault::DamagedHeader`, `Fault::Unsupported` or `Fault::Limit` for the first rule of `Header::load` that the header breaks. For
    ///   writing, the dirty bit, the corrupt bit and all autoclear bits must be 0. The name of the backing file must then not start in
    ///   the first 64 bytes.
    /// - `Fault::Unsupported` if the data is in an external file.
    /// - `Fault::DamagedTable` if an L1 entry isn't valid, or, for writing, a refcount table entry.
    /// - `Fault::Memory` if memory runs out.
    /// - `Fault::Storage` if the storage fails.
    ///
    /// # On error
    ///
    /// The storage is dropped.
    pub fn open_image(alloc: Global, image: S, writable: bool) -> Result<Self, Fault>
        ensures ok { IfOk result (IsOpenedAs S.Storage (S.state image) writable None 0 128 32) }
        // The opened disk reads as the file says. The image is well-formed if the file is consistent.
        ensures seen { IfOk result (IsOpened ⟦<Qcow2<S> as DriverModel>⟧ format.Qcow2 writable 0 (S.state image)) }
        // A file that opens has the magic number, and version 2 or 3.
        ensures begins { OnOk result (IsTrue (is_qcow2 (file (S.state image)))) }
        ensures err { IfErr result (WhyNotOpened S.state writable (file (S.state image))) }
    {
        open_with(alloc, image, writable, None, 0, CacheEntries::usual())
    }

    /// Returns true if a storage starts with the magic number, and version 2 or 3.
    ///
    /// # Errors
    ///
    /// - `Fault::Memory`, `Fault::Storage`.
    pub fn probe(alloc: Global, image: &mut S) -> Result<bool, Fault>
        ensures ok { IfOk result (λ is. is ≡ is_qcow2 (file (S.state image.old))) }
        ensures unchanged_but_faults { UnchangedButFaults (S.state image.old) (S.state image.new) }
        ensures faults { CountsFaults (S.state image.old).faults (S.state image.new).faults result }
    {
        let mut start = [0u8; 72];
        image.read(alloc, &mut start, 0)?;
        Ok(begins_image(&start))
    }
}
