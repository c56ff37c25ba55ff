// A builder that creates a qcow2 image. The file first gets the smallest image, with a disk of size 0. Then the image is opened for
// writing, its disk is made longer, and it is flushed. Definitions: specs/Creating.antt.
ghost use Rattle.std.specs.Prelude.{◌≡◌, ◌-◌, ◌^◌, ◌+◌, ◌<◌, ◌≤◌, None, Some, true, IfOk, IfErr, IsOk, IsOkUnless, IsTrue, MatchOption, OnOk, length, slice_index};
ghost use Rattle.imago_storage.specs.declared.fault.Fault.{Fault};
ghost use Rattle.imago_storage.specs.declared.fault.Fault.TheVariants.{BadArgument};
ghost use Rattle.imago_access.specs.Building.{NotOpened, OpensCreated};
ghost use Rattle.imago_access.specs.declared.format.Format.TheVariants as format;
ghost use Rattle.imago_access.specs.declared.format.PreallocateMode.TheVariants as mode;
ghost use Rattle.qcow2_types.specs.Header.{Shaped, layout_of};
ghost use Rattle.qcow2_metadata.specs.Blocks.{with_counter};
ghost use Rattle.qcow2_metadata.specs.HeaderView.{seen_text};
ghost use Rattle.qcow2_steps.specs.SmallestImage.{AreFirstCounters, AreFirstEntries};
ghost use Rattle.qcow2_image.specs.Creating.{AreAllowed, GrowsSmallest, HasParts, HoldsSmallest, IsFirstHeader, IsNewQcow2, IsPowerWithin, Lengthens, WhyNoDisk, WhyNotCreated, WhyNotGrown, WhyNotLengthened, WhyNotPut, format_with, named, options_of};

use crate::builder::Qcow2OpenBuilder;
use crate::cache_entries::CacheEntries;
use crate::opening::open_with;
use crate::preallocating::new_clusters;
use crate::qcow2::Qcow2;
use imago_access::{
    DriverModel, Format, FormatCreateBuilder, FormatCreateBuilderBase, FormatDriverBuilder,
    ImplicitOpenGate, MakeOpenBuilder, PreallocateMode,
};
use imago_storage::{Fault, PreallocateMode as StorageMode, Storage};
use qcow2_metadata::{Header, RefBlock, RefTable, Table};
use qcow2_types::HostCluster;
use std::alloc::Global;

/// A builder that creates a qcow2 image of version 3, in the format's sections "Header" and "Refcounts".
///
/// In the preallocation mode `None` no guest cluster is mapped, and the disk reads as its backing file, or as 0 if it has none. In the other
/// modes it reads as 0. In mode `Zero` its clusters are zero clusters. In the modes that allocate, each guest cluster has a host cluster of
/// zeroes: `FormatAllocate` lets the storage keep these unallocated, `FullAllocate` has the storage allocate them, and `WriteData` writes
/// them. An external data file isn't supported. The defaults are a disk of 0 bytes, clusters of 65,536 bytes, refcounts of 16 bits, and no
/// backing file.
///
/// The storage is truncated to 0 bytes. A refcount block is written to cluster 2, the refcount table to cluster 1, and last the header to
/// cluster 0. Then the disk gets its size: the L1 table is written to newly allocated clusters, guest clusters are prepared by the mode, and
/// the size in the header changes last.
///
/// # Errors
///
/// - `Fault::BadArgument` if the cluster size isn't a power of two from 512 to 2 MiB, or if the refcount width isn't a power of two from 1
///   to 64. There is no I/O.
/// - `Fault::Unsupported` if the preallocation mode allocates clusters and there is a backing file. There is no I/O. The error also comes if
///   the storage can't be truncated.
/// - `Fault::Limit(size)` if the size is more than 2^63 - 1 bytes. There is no I/O.
/// - `Fault::Limit(n)` if the header's `n` bytes don't fit the first cluster, or if the backing file's name has more than 1,023 bytes.
/// - `Fault::Limit` if the L1 table would have more than 2^22 entries, or if it, an L2 table or a cluster can't be allocated.
/// - `Fault::Memory`, `Fault::Storage`.
/// - `create_open` also returns the errors of the closure that makes the builder, and those of `Qcow2OpenBuilder`.
///
/// Another error comes only from a storage that doesn't keep what is written.
///
/// # On error
///
/// The storage is dropped. Its file may have been truncated, and may have a part of the new image.
#[derive(Drop)]
pub struct Qcow2CreateBuilder<S> {
    base: FormatCreateBuilderBase<S>,
    backing_name: Option<String>,
    backing_format: Option<String>,
    cluster_size: usize,
    refcount_width: usize,
}

// Returns the builder for a storage, with the defaults.
fn create_builder_for<S>(image: S) -> Qcow2CreateBuilder<S>
    ensures base { result.base ≡ record { image = image; size = 0; preallocate = mode.None } }
    ensures backing { (result.backing_name ≡ None) × (result.backing_format ≡ None) }
    ensures sizes { (result.cluster_size ≡ 65_536) × (result.refcount_width ≡ 16) }
{
    Qcow2CreateBuilder {
        base: FormatCreateBuilderBase::new(image),
        backing_name: None,
        backing_format: None,
        cluster_size: 65_536,
        refcount_width: 16,
    }
}

// Returns the base-2 logarithm of a power of two, if it is one with an exponent from `least` to `most`.
fn exponent(value: usize, least: u32, most: u32) -> Option<u32>
    requires { most < 64 }
    ensures { MatchOption result (IsPowerWithin least most value → ⊥) (λ bits. (least ≤ bits) × (bits ≤ most) × (value ≡ 2 ^ bits)) }
{
    for bits in least..most + 1 {
        if value == 1 << bits {
            return Some(bits);
        }
    }
    None
}

// Returns the base-2 logarithms of the cluster size in bytes and of the refcount width in bits.
fn exponents(cluster_size: usize, refcount_width: usize) -> Result<(u32, u32), Fault>
    ensures cluster_bits { IfOk result (λ r. (9 ≤ r.0) × (r.0 ≤ 21) × (cluster_size ≡ 2 ^ r.0)) }
    ensures refcount_order { IfOk result (λ r. (r.1 ≤ 6) × (refcount_width ≡ 2 ^ r.1)) }
    ensures err { IfErr result (λ fault. (fault ≡ BadArgument) × (AreAllowed cluster_size refcount_width → ⊥)) }
{
    let Some(cluster_bits) = exponent(cluster_size, 9, 21) else {
        return Err(Fault::BadArgument);
    };
    let Some(refcount_order) = exponent(refcount_width, 0, 6) else {
        return Err(Fault::BadArgument);
    };
    Ok((cluster_bits, refcount_order))
}

// Checks that a disk of this size, in bytes, can be created with this preallocation. A disk with a backing file gets no allocated clusters.
fn check_disk(size: u64, preallocate: PreallocateMode, has_backing: bool) -> Result<(), Fault>
    ensures ok { OnOk result (size ≤ 2 ^ 63 - 1) }
    ensures err { IfErr result (WhyNoDisk size preallocate has_backing) }
{
    match preallocate {
        PreallocateMode::None | PreallocateMode::Zero => {}
        PreallocateMode::FormatAllocate
        | PreallocateMode::FullAllocate
        | PreallocateMode::WriteData => {
            if has_backing {
                return Err(Fault::Unsupported);
            }
        }
    }
    if size > (1 << 63) - 1 {
        return Err(Fault::Limit(size));
    }
    Ok(())
}

// Returns the name and the format of the backing file. An empty name means that there is no backing file.
fn backing_file(name: Option<String>, format: Option<String>) -> (Option<String>, Option<String>)
    ensures name { seen_text result.0 ≡ named (seen_text name) }
    ensures format { seen_text result.1 ≡ format_with (seen_text name) (seen_text format) }
{
    let has_name = match &name {
        Some(name) => !name.is_empty(),
        None => false,
    };
    if has_name {
        (name, format)
    } else {
        (None, None)
    }
}

// Increments the refcount at an index, if it is 0.
fn count_first(block: &mut RefBlock, index: usize) -> Result<(), Fault>
    requires inside { index < length block.old.counters }
    requires free { slice_index block.old.counters index ≡ 0 }
    ensures ok { IsOk result }
    ensures value { block.new ≡ with_counter block.old index (slice_index block.old.counters index + 1) }
{
    block.lock_write().increment(index)?;
    Ok(())
}

// Returns the first refcount block of a new image, in cluster 2. It counts the clusters of the header, the refcount table, and itself.
fn first_block(alloc: Global, header: &Header) -> Result<RefBlock, Fault>
    requires shaped { Shaped header.now.fields }
    ensures counters { IfOk result (λ block. AreFirstCounters header.now.fields block.counters) }
    ensures order { IfOk result (λ block. block.order ≡ header.now.fields.refcount_order) }
    ensures cluster { IfOk result (λ block. (block.cluster_bits ≡ header.now.fields.cluster_bits) × (block.cluster ≡ Some 2)) }
    ensures err { IsOkUnless result Fault.Memory }
{
    let mut block = RefBlock::new_cleared(alloc, header)?;
    block.set_cluster(HostCluster(2));
    count_first(&mut block, 0)?;
    count_first(&mut block, 1)?;
    count_first(&mut block, 2)?;
    Ok(block)
}

// Returns the refcount table of a new image, in cluster 1. Its first entry references the block, which is in cluster 2.
fn first_table(alloc: Global, header: &Header, block: &RefBlock) -> Result<RefTable, Fault>
    requires shaped { Shaped header.now.fields }
    requires cluster { (block.now.cluster_bits ≡ header.now.fields.cluster_bits) × (block.now.cluster ≡ Some 2) }
    ensures raw_entries { IfOk result (λ table. AreFirstEntries header.now.fields table.raw_entries) }
    ensures cluster { IfOk result (λ table. (table.layout ≡ layout_of header.now.fields) × (table.cluster ≡ Some 1)) }
    ensures err { IsOkUnless result Fault.Memory }
{
    let empty = RefTable::from_data(Vec::new(alloc), header);
    let mut table = empty.clone_and_grow(alloc, header, 0)?;
    table.set_cluster(HostCluster(1));
    table.enter_refblock(0, block, None);
    Ok(table)
}

// Writes the parts of the smallest image: the refcount block, the refcount table, and last the header, with the table's offset.
fn write_parts<S: Storage>(alloc: Global, image: &mut S, mut header: Header) -> Result<(), Fault>
    requires { IsFirstHeader header }
    ensures ok { OnOk result (HasParts header (S.state image.old) (S.state image.new)) }
    ensures err { IfErr result (WhyNotPut header) }
    ensures shape { (S.state image.new).shape ≡ (S.state image.old).shape }
{
    let mut block = first_block(alloc, &header)?;
    let mut table = first_table(alloc, &header, &block)?;
    header.set_reftable(&table);
    block.write(alloc, image)?;
    table.write(alloc, image)?;
    header.write(alloc, image)
}

// Makes the disk of a new image as long as this size, in bytes, if it is shorter. A preallocation needs version 3.
fn lengthen<S: Storage>(
    created: &mut Qcow2<S>,
    alloc: Global,
    size: u64,
    preallocate: PreallocateMode,
) -> Result<(), Fault>
    requires free { created.old.unspent ≡ None }
    requires fits { size ≤ 2 ^ 63 - 1 }
    ensures ok { OnOk result (Lengthens S.Storage size preallocate created.old created.new) }
    ensures err { IfErr result (WhyNotLengthened S.Storage size preallocate created.old created.new) }
{
    if size <= created.tables.file.header.size() {
        return Ok(());
    }
    match new_clusters(preallocate) {
        None => created.grow(alloc, size),
        Some(how) => {
            if created.tables.file.header.version() != 3 {
                return Err(Fault::DamagedHeader);
            }
            created.grow_zeroed(alloc, size, how)
        }
    }
}

// Opens the smallest image for writing, makes its disk longer, and flushes it.
fn grow_smallest<S: Storage>(
    alloc: Global,
    image: S,
    size: u64,
    preallocate: PreallocateMode,
) -> Result<S, Fault>
    requires { size ≤ 2 ^ 63 - 1 }
    ensures ok { IfOk result (λ made. GrowsSmallest size preallocate (S.state image) (S.state made)) }
    ensures err { IfErr result (WhyNotGrown S.Storage size preallocate (HoldsSmallest (S.state image))) }
{
    let mut created = open_with(alloc, image, true, Some(false), 0, CacheEntries::usual())?;
    lengthen(&mut created, alloc, size, preallocate)?;
    created.flush_freed()?;
    Ok(created.into_image())
}

impl<S> Qcow2CreateBuilder<S> {
    /// Sets the name of the backing file, and its format, for example `qcow2` or `raw`. They are written to the header, and the file isn't
    /// opened.
    ///
    /// An empty name means that there is no backing file. A relative name is relative to the directory of the image.
    pub fn backing(mut self, name: String, format: Option<String>) -> Self
        ensures { result ≡ record self { backing_name = Some name; backing_format = format } }
    {
        self.backing_name = Some(name);
        self.backing_format = format;
        self
    }

    /// Sets the size of a cluster in bytes: a power of two from 512 to 2 MiB, 65,536 by default. `create` checks it.
    pub fn cluster_size(mut self, size: usize) -> Self
        ensures { result ≡ record self { cluster_size = size } }
    {
        self.cluster_size = size;
        self
    }

    /// Sets the width of a refcount in bits: a power of two from 1 to 64, 16 by default. `create` checks it.
    pub fn refcount_width(mut self, bits: usize) -> Self
        ensures { result ≡ record self { refcount_width = bits } }
    {
        self.refcount_width = bits;
        self
    }
}

impl<S: Storage> FormatCreateBuilder<S> for Qcow2CreateBuilder<S> {
    const FORMAT: Format = Format::Qcow2;

    ghost FORMAT = { format.Qcow2 };

    type DriverBuilder = Qcow2OpenBuilder<S>;

    ghost storage_of = { λ b. b.base.image };

    ghost size_of = { λ b. b.base.size };

    ghost preallocate_of = { λ b. b.base.preallocate };

    ghost creates = { λ b s. IsNewQcow2 (options_of b) (S.state b.base.image) (S.state s) };

    ghost hands = { λ b s. IsNewQcow2 (options_of b) (S.state b.base.image) (S.state s) };

    ghost opens_with = { λ b made opening. opening ≡ ⟦<Qcow2OpenBuilder<S> as FormatDriverBuilder<S>>⟧.with_writable made true };

    ghost refuses = { λ b fault. let keeps = IsTrue (S.state b.base.image).shape.keeps in
        WhyNotCreated S.Storage keeps (options_of b) fault };

    fn new(image: S) -> Self {
        create_builder_for(image)
    }

    fn size(mut self, size: u64) -> Self
        ensures storage { result.base.image ≡ self.base.image }
        ensures size { result.base.size ≡ size }
        ensures preallocate { result.base.preallocate ≡ self.base.preallocate }
        // The other options stay.
        ensures same { result ≡ record self { base = result.base } }
    {
        self.base.set_size(size);
        self
    }

    fn preallocate(mut self, preallocate: PreallocateMode) -> Self
        ensures storage { result.base.image ≡ self.base.image }
        ensures size { result.base.size ≡ self.base.size }
        ensures preallocate { result.base.preallocate ≡ preallocate }
        // The other options stay.
        ensures same { result ≡ record self { base = result.base } }
    {
        self.base.set_preallocate(preallocate);
        self
    }

    fn get_size(&self) -> u64 {
        self.base.get_size()
    }

    fn get_preallocate(&self) -> PreallocateMode {
        self.base.get_preallocate()
    }

    fn create(self, alloc: Global) -> Result<S, Fault> {
        let Qcow2CreateBuilder {
            base,
            backing_name,
            backing_format,
            cluster_size,
            refcount_width,
        } = self;
        let (cluster_bits, refcount_order) = exponents(cluster_size, refcount_width)?;
        let size = base.get_size();
        let preallocate = base.get_preallocate();
        let (name, format) = backing_file(backing_name, backing_format);
        check_disk(size, preallocate, name.is_some())?;
        let header = Header::new(alloc, cluster_bits, refcount_order, name, format, None)?;
        let mut image = base.get_image();
        image.resize(0, StorageMode::None)?;
        write_parts(alloc, &mut image, header)?;
        grow_smallest(alloc, image, size, preallocate)
    }

    fn create_open<G: ImplicitOpenGate<S>, F: MakeOpenBuilder<S, Qcow2OpenBuilder<S>> + Drop>(
        self,
        alloc: Global,
        gate: &mut G,
        open_builder: F,
    ) -> Result<Qcow2<S>, Fault>
        requires { let c = ⟦<Qcow2CreateBuilder<S> as FormatCreateBuilder<S>>⟧ in (s : S) → c.hands self s → F.takes open_builder s }
        ensures ok { let c = ⟦<Qcow2CreateBuilder<S> as FormatCreateBuilder<S>>⟧ in let o = ⟦<Qcow2OpenBuilder<S> as FormatDriverBuilder<S>>⟧ in
            IfOk result (λ d. OpensCreated (c.hands self) (F.makes open_builder) (c.opens_with self) (λ b. o.opens b d)) }
        ensures format { IfOk result (λ d. (⟦<Qcow2<S> as DriverModel>⟧.layer d).fixed.format ≡ format.Qcow2) }
        ensures writable { IfOk result (λ d. IsTrue (⟦<Qcow2<S> as DriverModel>⟧.layer d).fixed.writable) }
        ensures err { let c = ⟦<Qcow2CreateBuilder<S> as FormatCreateBuilder<S>>⟧ in
            let o = ⟦<Qcow2OpenBuilder<S> as FormatDriverBuilder<S>>⟧ in
            IfErr result (NotOpened (c.refuses self) (c.hands self) (F.makes open_builder) (c.opens_with self) o.refuses) }
        // The gate isn't called.
        ensures gate { gate.new ≡ gate.old }
    {
        let image = self.create(alloc)?;
        let builder = open_builder.make(image)?;
        builder.write(true).open(alloc, gate)
    }
}

impl<S: Storage> Qcow2<S> {
    /// Returns a builder that creates an image, option by option.
    pub fn create_builder(image: S) -> Qcow2CreateBuilder<S>
        ensures base { result.base ≡ record { image = image; size = 0; preallocate = mode.None } }
        ensures backing { (result.backing_name ≡ None) × (result.backing_format ≡ None) }
        ensures sizes { (result.cluster_size ≡ 65_536) × (result.refcount_width ≡ 16) }
    {
        create_builder_for(image)
    }
}
