// The caches of L2 tables and refcount blocks, and the order in which they are written. The order is a dependency between the two caches:
// dirty entries of one are written before any entry of the other. Writing makes no flush request of the storage. Definitions:
// specs/WellFormedness.antt, specs/Finding.antt.
ghost use Rattle.std.specs.Prelude.{◌≡◌, ◌≤◌, ◌<◌, IsTrue, IsOk, IfOk, OnOk, OnErr, IsOkUnless, Ok, [], ◌∷◌};
ghost use Rattle.imago_storage.specs.State.{StorageState};
ghost use Rattle.qcow2_metadata.specs.Places.{IsAddressable};
ghost use Rattle.qcow2_alloc.specs.Backends.{TableLoaded, BlockLoaded, TableFlushed, BlockFlushed};

use crate::async_lru_cache::{Admission, AsyncLruCache, AsyncLruCacheBackend};
use crate::file::{ImageFile, is_addressable};
use imago_storage::{Fault, Storage};
use qcow2_metadata::{L2Table, RefBlock, Table};
use qcow2_types::HostCluster;
use std::alloc::Global;
use std::marker::PhantomData;

/// Loads and writes the L2 tables of a cache.
#[derive(Drop)]
pub struct L2CacheBackend<S> {
    alloc: Global,
    storage: PhantomData<S>,
}

impl<S: Storage> L2CacheBackend<S> {
    /// Returns a backend that allocates memory from `alloc`.
    pub fn new(alloc: Global) -> L2CacheBackend<S> {
        L2CacheBackend {
            alloc,
            storage: PhantomData,
        }
    }
}

impl<S: Storage> AsyncLruCacheBackend for L2CacheBackend<S> {
    type Key = HostCluster;

    type Value = L2Table;

    type Device = ImageFile<S>;

    ghost loads = { λ old key result new. (new.header ≡ old.header)
        × TableLoaded old.header.fields key (S.state old.image) result (S.state new.image) };

    ghost flushes = { λ old key table result new table'. (new.header ≡ old.header)
        × TableFlushed (S.state old.image) key table result (S.state new.image) table' };

    fn load(&self, device: &mut ImageFile<S>, key: HostCluster) -> Result<L2Table, Fault> {
        if !is_addressable(key, device.header.cluster_bits()) {
            return Err(Fault::DamagedTable);
        }
        let entries = device.header.l2_entries();
        let table = L2Table::load(self.alloc, &mut device.image, &device.header, key, entries)?;
        prove!(table.cluster_bits() >= 9);
        Ok(table)
    }

    fn flush(
        &self,
        device: &mut ImageFile<S>,
        key: HostCluster,
        value: &mut L2Table,
    ) -> Result<(), Fault> {
        if !value.is_modified() {
            return Ok(());
        }
        if !is_addressable(key, value.cluster_bits()) {
            return Err(Fault::DamagedTable);
        }
        value.set_cluster(key);
        value.write_if_modified(self.alloc, &mut device.image, key)
    }
}

/// Loads and writes the refcount blocks of a cache.
#[derive(Drop)]
pub struct RefBlockCacheBackend<S> {
    alloc: Global,
    storage: PhantomData<S>,
}

impl<S: Storage> RefBlockCacheBackend<S> {
    /// Returns a backend that allocates memory from `alloc`.
    pub fn new(alloc: Global) -> RefBlockCacheBackend<S> {
        RefBlockCacheBackend {
            alloc,
            storage: PhantomData,
        }
    }
}

impl<S: Storage> AsyncLruCacheBackend for RefBlockCacheBackend<S> {
    type Key = HostCluster;

    type Value = RefBlock;

    type Device = ImageFile<S>;

    ghost loads = { λ old key result new. (new.header ≡ old.header)
        × BlockLoaded old.header.fields key (S.state old.image) result (S.state new.image) };

    ghost flushes = { λ old key block result new block'. (new.header ≡ old.header)
        × BlockFlushed (S.state old.image) key block result (S.state new.image) block' };

    fn load(&self, device: &mut ImageFile<S>, key: HostCluster) -> Result<RefBlock, Fault> {
        if !is_addressable(key, device.header.cluster_bits()) {
            return Err(Fault::DamagedTable);
        }
        let block = RefBlock::load(self.alloc, &mut device.image, &device.header, key)?;
        prove!(block.entries() > 0);
        Ok(block)
    }

    fn flush(
        &self,
        device: &mut ImageFile<S>,
        key: HostCluster,
        value: &mut RefBlock,
    ) -> Result<(), Fault> {
        if !value.is_modified() {
            return Ok(());
        }
        if !is_addressable(key, value.cluster_bits()) {
            return Err(Fault::DamagedTable);
        }
        value.set_cluster(key);
        value.write_if_modified(self.alloc, &mut device.image, key)
    }
}

/// The write order of the two caches.
#[derive(Clone, Copy, Debug, Drop, PartialEq, Eq)]
pub enum CacheDependency {
    /// No order is set.
    Unset,
    /// Dirty refcount blocks are written before any L2 table, as allocation requires.
    L2DependsOnRb,
    /// Dirty L2 tables are written before any refcount block, as freeing requires.
    RbDependsOnL2,
}

/// The caches of an image's L2 tables and refcount blocks, with their write order.
#[derive(Drop)]
pub struct MetadataCaches<S: Storage> {
    pub(crate) l2: AsyncLruCache<HostCluster, L2Table, L2CacheBackend<S>>,
    pub(crate) rb: AsyncLruCache<HostCluster, RefBlock, RefBlockCacheBackend<S>>,
    pub(crate) order: CacheDependency,
}

impl<S: Storage> MetadataCaches<S> {
    ghost use Rattle.imago_storage.specs.Calls.{IsFaultless, UnchangedButFaults};
    ghost use Rattle.qcow2_alloc.specs.Causes.{FailsFor};
    ghost use Rattle.qcow2_alloc.specs.Going.{WritesBackCached, ReadyTables, ReadyBlocks, Always, AreTablesAddressable, AreBlocksAddressable, HadNoResourceError, WritesTables, WritesBlocks, InTurn, writing_causes};
    ghost use Rattle.qcow2_alloc.specs.WellFormedness.{WellFormed, AreTablesClean, AreBlocksClean};
    ghost use Rattle.qcow2_types.specs.Bytes.{Bytes};
    ghost use Rattle.qcow2_types.specs.Header.{Header};
    ghost use Rattle.qcow2_alloc.specs.declared.cache.CacheDependency.TheVariants.{Unset, L2DependsOnRb, RbDependsOnL2};
    ghost use Rattle.qcow2_types.specs.Consistency.{IsConsistent};
    ghost use Rattle.imago_storage.specs.declared.fault.Fault.{Fault};
    ghost use Rattle.qcow2_alloc.specs.Caches.{cached_file, cached_in, order_of, HasRoomOf};
    ghost use Rattle.qcow2_alloc.specs.Memory.{written};
    ghost use Rattle.qcow2_alloc.specs.Cache.{Readied, Inserted};
    ghost use Rattle.qcow2_alloc.specs.Putting.{TableInserted, BlockInserted};
    ghost use Rattle.qcow2_alloc.specs.Dropping.{Dropped, StaysWellFormed};
    ghost use Rattle.qcow2_alloc.specs.Finding.{TableFound, BlockFound};
    ghost use Rattle.qcow2_alloc.specs.CachesLending.{with_tables, with_blocks, table_kind, block_kind, lends_table, lends_block};
    ghost use Rattle.std.specs.Borrow.{sem};
    ghost use Rattle.std.specs.Map.{lookup, remove_entry};
    ghost use Rattle.std.specs.Option.{option_map};
    ghost use Rattle.std.specs.Prelude.{nat_eq, length, None, Some, false, IsSome, IsSomeAnd, IfSome, IsErr, IfErr};

    /// Returns empty caches of at most `l2_entries` L2 tables and `rb_entries` refcount blocks. No write order is set.
    ///
    /// They have the invariant `WellFormed` for every consistent image.
    ///
    /// # Errors
    ///
    /// - `Fault::Memory` if memory ran out.
    pub fn new(alloc: Global, l2_entries: usize, rb_entries: usize) -> Result<Self, Fault>
        requires tables { 0 < l2_entries }
        requires blocks { 0 < rb_entries }
        ensures empty { IfOk result (λ caches. (cached_in caches ≡ record { tables = []; blocks = [] }) × (order_of caches ≡ Unset)) }
        ensures room { IfOk result (λ caches. (caches.l2.slots.cap ≡ l2_entries) × (caches.rb.slots.cap ≡ rb_entries)) }
        ensures well_formed { IfOk result (λ caches. (f : Bytes) (H : Header) → IsConsistent f H → WellFormed f H (cached_in caches) (order_of caches)) }
        ensures memory { IsOkUnless result Fault.Memory }
    {
        Ok(MetadataCaches {
            l2: AsyncLruCache::new(alloc, L2CacheBackend::new(alloc), l2_entries)?,
            rb: AsyncLruCache::new(alloc, RefBlockCacheBackend::new(alloc), rb_entries)?,
            order: CacheDependency::Unset,
        })
    }

    // Writes the dirty L2 tables.
    fn flush_l2(&mut self, file: &mut ImageFile<S>) -> Result<(), Fault>
        ensures writes_back_cached { WritesBackCached file.old.header (order_of self.old) (ReadyTables (order_of self.old)) (result ≡ Ok tt)
            (S.state file.old.image) (cached_in self.old) (S.state file.new.image) (cached_in self.new) }
        ensures written_value_unchanged { written (cached_in self.new) ≡ written (cached_in self.old) }
        ensures clean { OnOk result (AreTablesClean (cached_in self.new)) }
        ensures others { (self.new.rb ≡ self.old.rb) × (self.new.order ≡ self.old.order) × (file.new.header ≡ file.old.header) }
        ensures room { HasRoomOf self.old self.new }
        ensures cause { FailsFor (writing_causes (AreTablesAddressable (cached_in self.old)) (S.state file.old.image).faults
            (S.state file.new.image).faults) result }
        ensures faults { HadNoResourceError result → IsFaultless (S.state file.old.image) (S.state file.new.image) }
        ensures written { WritesTables (S.state file.old.image) (cached_in self.old) result (S.state file.new.image) (cached_in self.new) }
    {
        self.l2.flush(file)
    }

    // Writes the dirty refcount blocks.
    fn flush_blocks(&mut self, file: &mut ImageFile<S>) -> Result<(), Fault>
        ensures writes_back_cached { WritesBackCached file.old.header (order_of self.old) (ReadyBlocks (order_of self.old)) (result ≡ Ok tt)
            (S.state file.old.image) (cached_in self.old) (S.state file.new.image) (cached_in self.new) }
        ensures written_value_unchanged { written (cached_in self.new) ≡ written (cached_in self.old) }
        ensures clean { OnOk result (AreBlocksClean (cached_in self.new)) }
        ensures others { (self.new.l2 ≡ self.old.l2) × (self.new.order ≡ self.old.order) × (file.new.header ≡ file.old.header) }
        ensures room { HasRoomOf self.old self.new }
        ensures cause { FailsFor (writing_causes (AreBlocksAddressable (cached_in self.old)) (S.state file.old.image).faults
            (S.state file.new.image).faults) result }
        ensures faults { HadNoResourceError result → IsFaultless (S.state file.old.image) (S.state file.new.image) }
        ensures written { WritesBlocks (S.state file.old.image) (cached_in self.old) result (S.state file.new.image) (cached_in self.new) }
    {
        self.rb.flush(file)
    }

    // Writes the dirty blocks if L2 tables depend on blocks.
    fn before_tables(&mut self, file: &mut ImageFile<S>) -> Result<(), Fault>
        ensures writes_back_cached { WritesBackCached file.old.header (order_of self.old) Always (result ≡ Ok tt) (S.state file.old.image) (cached_in self.old)
            (S.state file.new.image) (cached_in self.new) }
        ensures written_value_unchanged { written (cached_in self.new) ≡ written (cached_in self.old) }
        ensures ready { OnOk result (ReadyTables (order_of self.new) (cached_in self.new)) }
        ensures idle { (order_of self.old ≡ L2DependsOnRb → ⊥) → (result ≡ Ok tt) × (self.new ≡ self.old) × (file.new ≡ file.old) }
        ensures others { (self.new.l2 ≡ self.old.l2) × (self.new.order ≡ self.old.order) × (file.new.header ≡ file.old.header) }
        ensures room { HasRoomOf self.old self.new }
        ensures cause { FailsFor (writing_causes (AreBlocksAddressable (cached_in self.old)) (S.state file.old.image).faults
            (S.state file.new.image).faults) result }
        ensures faults { HadNoResourceError result → IsFaultless (S.state file.old.image) (S.state file.new.image) }
        ensures written { order_of self.old ≡ L2DependsOnRb
            → WritesBlocks (S.state file.old.image) (cached_in self.old) result (S.state file.new.image) (cached_in self.new) }
    {
        if self.order == CacheDependency::L2DependsOnRb {
            return self.flush_blocks(file);
        }
        Ok(())
    }

    // Writes the dirty L2 tables if blocks depend on L2 tables.
    fn before_blocks(&mut self, file: &mut ImageFile<S>) -> Result<(), Fault>
        ensures writes_back_cached { WritesBackCached file.old.header (order_of self.old) Always (result ≡ Ok tt) (S.state file.old.image) (cached_in self.old)
            (S.state file.new.image) (cached_in self.new) }
        ensures written_value_unchanged { written (cached_in self.new) ≡ written (cached_in self.old) }
        ensures ready { OnOk result (ReadyBlocks (order_of self.new) (cached_in self.new)) }
        ensures idle { (order_of self.old ≡ RbDependsOnL2 → ⊥) → (result ≡ Ok tt) × (self.new ≡ self.old) × (file.new ≡ file.old) }
        ensures others { (self.new.rb ≡ self.old.rb) × (self.new.order ≡ self.old.order) × (file.new.header ≡ file.old.header) }
        ensures room { HasRoomOf self.old self.new }
        ensures cause { FailsFor (writing_causes (AreTablesAddressable (cached_in self.old)) (S.state file.old.image).faults
            (S.state file.new.image).faults) result }
        ensures faults { HadNoResourceError result → IsFaultless (S.state file.old.image) (S.state file.new.image) }
        ensures written { order_of self.old ≡ RbDependsOnL2
            → WritesTables (S.state file.old.image) (cached_in self.old) result (S.state file.new.image) (cached_in self.new) }
    {
        if self.order == CacheDependency::RbDependsOnL2 {
            return self.flush_l2(file);
        }
        Ok(())
    }

    /// Writes all dirty refcount blocks to the file, without a flush of the storage. If blocks depend on L2 tables, the dirty tables are
    /// written first.
    ///
    /// # Errors
    ///
    /// - `Fault::Memory`, `Fault::Storage`.
    /// - `Fault::DamagedTable` if the offset of a dirty table or block doesn't fit an entry. The invariant of the caches (`WellFormed`)
    ///   rules that out.
    ///
    /// # On error
    ///
    /// All entries stay cached. Entries that weren't written stay dirty.
    ///
    /// # Crash safety
    ///
    /// If the invariant `WellFormed` holds and no change of the storage fails, each crash image (the file after a crash between two
    /// requests) is consistent.
    pub fn flush_rb(&mut self, file: &mut ImageFile<S>) -> Result<(), Fault>
        ensures writes_back_cached { WritesBackCached file.old.header (order_of self.old) Always (result ≡ Ok tt) (S.state file.old.image) (cached_in self.old)
            (S.state file.new.image) (cached_in self.new) }
        ensures written_value_unchanged { written (cached_in self.new) ≡ written (cached_in self.old) }
        ensures clean { OnOk result (AreBlocksClean (cached_in self.new)) }
        ensures others { (self.new.order ≡ self.old.order) × (file.new.header ≡ file.old.header) }
        ensures tables { (order_of self.old ≡ RbDependsOnL2 → ⊥) → self.new.l2 ≡ self.old.l2 }
        ensures room { HasRoomOf self.old self.new }
        ensures cause { FailsFor (writing_causes (AreTablesAddressable (cached_in self.old) × AreBlocksAddressable (cached_in self.old))
            (S.state file.old.image).faults (S.state file.new.image).faults) result }
        ensures faults { HadNoResourceError result → IsFaultless (S.state file.old.image) (S.state file.new.image) }
        ensures alone { (order_of self.old ≡ RbDependsOnL2 → ⊥)
            → WritesBlocks (S.state file.old.image) (cached_in self.old) result (S.state file.new.image) (cached_in self.new) }
        ensures in_turn { order_of self.old ≡ RbDependsOnL2
            → InTurn WritesTables WritesBlocks (S.state file.old.image) (cached_in self.old) result (S.state file.new.image)
            (cached_in self.new) }
    {
        self.before_blocks(file)?;
        self.flush_blocks(file)
    }

    // Writes all dirty L2 tables. If L2 tables depend on blocks, the dirty blocks are written first.
    fn flush_tables(&mut self, file: &mut ImageFile<S>) -> Result<(), Fault>
        ensures writes_back_cached { WritesBackCached file.old.header (order_of self.old) Always (result ≡ Ok tt) (S.state file.old.image) (cached_in self.old)
            (S.state file.new.image) (cached_in self.new) }
        ensures written_value_unchanged { written (cached_in self.new) ≡ written (cached_in self.old) }
        ensures clean { OnOk result (AreTablesClean (cached_in self.new)) }
        ensures others { (self.new.order ≡ self.old.order) × (file.new.header ≡ file.old.header) }
        ensures blocks { (order_of self.old ≡ L2DependsOnRb → ⊥) → self.new.rb ≡ self.old.rb }
        ensures room { HasRoomOf self.old self.new }
        ensures cause { FailsFor (writing_causes (AreTablesAddressable (cached_in self.old) × AreBlocksAddressable (cached_in self.old))
            (S.state file.old.image).faults (S.state file.new.image).faults) result }
        ensures faults { HadNoResourceError result → IsFaultless (S.state file.old.image) (S.state file.new.image) }
        ensures alone { (order_of self.old ≡ L2DependsOnRb → ⊥)
            → WritesTables (S.state file.old.image) (cached_in self.old) result (S.state file.new.image) (cached_in self.new) }
        ensures in_turn { order_of self.old ≡ L2DependsOnRb
            → InTurn WritesBlocks WritesTables (S.state file.old.image) (cached_in self.old) result (S.state file.new.image)
            (cached_in self.new) }
    {
        self.before_tables(file)?;
        self.flush_l2(file)
    }

    /// Writes all dirty L2 tables and refcount blocks to the file in the write order, without a flush of the storage. If no order is set,
    /// the tables are written first.
    ///
    /// # Errors
    ///
    /// - `Fault::Memory`, `Fault::Storage`.
    /// - `Fault::DamagedTable` if the offset of a dirty table or block doesn't fit an entry. The invariant of the caches (`WellFormed`)
    ///   rules that out.
    ///
    /// # On error
    ///
    /// All entries stay cached. Entries that weren't written stay dirty.
    ///
    /// # Crash safety
    ///
    /// If the invariant `WellFormed` holds and no change of the storage fails, each crash image (the file after a crash between two
    /// requests) is consistent.
    pub fn flush_all(&mut self, file: &mut ImageFile<S>) -> Result<(), Fault>
        ensures writes_back_cached { WritesBackCached file.old.header (order_of self.old) Always (result ≡ Ok tt) (S.state file.old.image) (cached_in self.old)
            (S.state file.new.image) (cached_in self.new) }
        ensures written_value_unchanged { written (cached_in self.new) ≡ written (cached_in self.old) }
        ensures tables { OnOk result (AreTablesClean (cached_in self.new)) }
        ensures blocks { OnOk result (AreBlocksClean (cached_in self.new)) }
        ensures others { (self.new.order ≡ self.old.order) × (file.new.header ≡ file.old.header) }
        ensures room { HasRoomOf self.old self.new }
        ensures cause { FailsFor (writing_causes (AreTablesAddressable (cached_in self.old) × AreBlocksAddressable (cached_in self.old))
            (S.state file.old.image).faults (S.state file.new.image).faults) result }
        ensures faults { HadNoResourceError result → IsFaultless (S.state file.old.image) (S.state file.new.image) }
        ensures blocks_first { order_of self.old ≡ L2DependsOnRb
            → InTurn WritesBlocks WritesTables (S.state file.old.image) (cached_in self.old) result (S.state file.new.image)
            (cached_in self.new) }
        ensures tables_first { (order_of self.old ≡ L2DependsOnRb → ⊥)
            → InTurn WritesTables WritesBlocks (S.state file.old.image) (cached_in self.old) result (S.state file.new.image)
            (cached_in self.new) }
    {
        if self.order == CacheDependency::L2DependsOnRb {
            self.flush_rb(file)?;
            return self.flush_l2(file);
        }
        self.flush_tables(file)?;
        self.flush_blocks(file)
    }

    /// Makes L2 tables depend on refcount blocks: from now on blocks are written before tables. Allocation requires this order.
    ///
    /// If blocks depended on tables, the dirty tables are written first. Otherwise nothing is written.
    ///
    /// # Errors
    ///
    /// - `Fault::Memory`, `Fault::Storage`, `Fault::DamagedTable` if the tables can't be written, as in `flush_all`. The order is
    ///   unchanged.
    ///
    /// # Crash safety
    ///
    /// If the invariant of the caches (`WellFormed`) holds and no change of the storage fails, each crash image (the file after a crash
    /// between two requests) is consistent.
    pub fn l2_depends_on_rb(&mut self, file: &mut ImageFile<S>) -> Result<(), Fault>
        ensures writes_back_cached { WritesBackCached file.old.header (order_of self.old) Always (result ≡ Ok tt) (S.state file.old.image) (cached_in self.old)
            (S.state file.new.image) (cached_in self.new) }
        ensures written_value_unchanged { written (cached_in self.new) ≡ written (cached_in self.old) }
        ensures announced { OnOk result (order_of self.new ≡ L2DependsOnRb) }
        ensures clean { OnOk result (order_of self.old ≡ RbDependsOnL2 → AreTablesClean (cached_in self.new)) }
        ensures idle { (order_of self.old ≡ RbDependsOnL2 → ⊥) → (result ≡ Ok tt) × (cached_in self.new ≡ cached_in self.old)
            × (file.new ≡ file.old) }
        ensures blocks { self.new.rb ≡ self.old.rb }
        ensures well_formed { OnOk result ((f : Bytes) (H : Header) → WellFormed f H (cached_in self.new) (order_of self.old)
            → WellFormed f H (cached_in self.new) L2DependsOnRb) }
        ensures stays { OnErr result (order_of self.new ≡ order_of self.old) }
        ensures header { file.new.header ≡ file.old.header }
        ensures room { HasRoomOf self.old self.new }
        ensures cause { FailsFor (writing_causes (AreTablesAddressable (cached_in self.old)) (S.state file.old.image).faults
            (S.state file.new.image).faults) result }
        ensures faults { HadNoResourceError result → IsFaultless (S.state file.old.image) (S.state file.new.image) }
        ensures written { order_of self.old ≡ RbDependsOnL2
            → WritesTables (S.state file.old.image) (cached_in self.old) result (S.state file.new.image) (cached_in self.new) }
        ensures has_no_dirty_data { AreTablesClean (cached_in self.old) → AreBlocksClean (cached_in self.old) → UnchangedButFaults (S.state file.old.image)
            (S.state file.new.image) × AreTablesClean (cached_in self.new) × AreBlocksClean (cached_in self.new) }
    {
        self.before_blocks(file)?;
        self.order = CacheDependency::L2DependsOnRb;
        Ok(())
    }

    /// Makes refcount blocks depend on L2 tables: from now on tables are written before blocks. Freeing requires this order.
    ///
    /// If tables depended on blocks, the dirty blocks are written first. Otherwise nothing is written.
    ///
    /// # Errors
    ///
    /// - `Fault::Memory`, `Fault::Storage`, `Fault::DamagedTable` if the blocks can't be written, as in `flush_all`. The order is
    ///   unchanged.
    ///
    /// # Crash safety
    ///
    /// If the invariant of the caches (`WellFormed`) holds and no change of the storage fails, each crash image (the file after a crash
    /// between two requests) is consistent.
    pub fn rb_depends_on_l2(&mut self, file: &mut ImageFile<S>) -> Result<(), Fault>
        ensures writes_back_cached { WritesBackCached file.old.header (order_of self.old) Always (result ≡ Ok tt) (S.state file.old.image) (cached_in self.old)
            (S.state file.new.image) (cached_in self.new) }
        ensures written_value_unchanged { written (cached_in self.new) ≡ written (cached_in self.old) }
        ensures announced { OnOk result (order_of self.new ≡ RbDependsOnL2) }
        ensures clean { OnOk result (order_of self.old ≡ L2DependsOnRb → AreBlocksClean (cached_in self.new)) }
        ensures idle { (order_of self.old ≡ L2DependsOnRb → ⊥) → (result ≡ Ok tt) × (cached_in self.new ≡ cached_in self.old)
            × (file.new ≡ file.old) }
        ensures tables { self.new.l2 ≡ self.old.l2 }
        ensures well_formed { OnOk result ((f : Bytes) (H : Header) → WellFormed f H (cached_in self.new) (order_of self.old)
            → WellFormed f H (cached_in self.new) RbDependsOnL2) }
        ensures stays { OnErr result (order_of self.new ≡ order_of self.old) }
        ensures header { file.new.header ≡ file.old.header }
        ensures room { HasRoomOf self.old self.new }
        ensures cause { FailsFor (writing_causes (AreBlocksAddressable (cached_in self.old)) (S.state file.old.image).faults
            (S.state file.new.image).faults) result }
        ensures faults { HadNoResourceError result → IsFaultless (S.state file.old.image) (S.state file.new.image) }
        ensures written { order_of self.old ≡ L2DependsOnRb
            → WritesBlocks (S.state file.old.image) (cached_in self.old) result (S.state file.new.image) (cached_in self.new) }
    {
        self.before_tables(file)?;
        self.order = CacheDependency::RbDependsOnL2;
        Ok(())
    }

    // Finds the L2 table in a cluster, or loads it if the cache isn't full.
    fn l2_find(&mut self, file: &mut ImageFile<S>, cluster: HostCluster) -> Result<Admission, Fault>
        ensures readied { Readied (table_kind S.state self.old.l2.slots.cap) false cluster file.old self.old.l2.slots.entries
            result file.new self.new.l2.slots.entries }
        ensures others { self.new ≡ with_tables self.old self.new.l2.slots.entries }
    {
        self.l2.ready(file, cluster, false)
    }

    // Loads the L2 table in a cluster into a full cache. Before another table is evicted, the blocks that it depends on are written.
    fn l2_load(&mut self, file: &mut ImageFile<S>, cluster: HostCluster) -> Result<(), Fault>
        requires absent { lookup (nat_eq cluster) self.old.l2.slots.entries ≡ None }
        requires full { self.old.l2.slots.cap ≤ length self.old.l2.slots.entries }
        ensures { TableFound S.state cluster self.old file.old result self.new file.new }
    {
        self.before_tables(file)?;
        self.l2.ready(file, cluster, true)?;
        Ok(())
    }

    // Finds the L2 table in a cluster, or loads it.
    fn l2_ready(&mut self, file: &mut ImageFile<S>, cluster: HostCluster) -> Result<(), Fault>
        ensures { TableFound S.state cluster self.old file.old result self.new file.new }
    {
        match self.l2_find(file, cluster)? {
            Admission::Granted => Ok(()),
            Admission::Denied => self.l2_load(file, cluster),
        }
    }

    /// Returns the L2 table in a cluster, found or loaded. Its entry becomes the most recently used.
    ///
    /// Changes of the table are written to the file later, by a flush or when the table is evicted. If the cache is full, the least
    /// recently used table that isn't pinned is flushed, and its entry is removed. If L2 tables depend on blocks, the dirty blocks are
    /// written before that table.
    ///
    /// # Errors
    ///
    /// - `Fault::Memory`, `Fault::Storage`.
    /// - `Fault::CacheFull` if all tables of the full cache are pinned.
    /// - `Fault::DamagedTable` if the file has an invalid entry in the cluster, or if the cluster's offset doesn't fit an entry. Also if
    ///   the offset of a dirty table or block doesn't fit an entry, which the invariant of the caches (`WellFormed`) rules out.
    ///
    /// # On error
    ///
    /// All entries stay cached, except that a table may have been evicted for the new one.
    ///
    /// # Crash safety
    ///
    /// If the invariant `WellFormed` holds and no change of the storage fails, each crash image (the file after a crash between two
    /// requests) is consistent.
    pub fn l2_get_or_insert(
        &mut self,
        file: &mut ImageFile<S>,
        cluster: HostCluster,
    ) -> Result<&mut L2Table, Fault>
        ensures* writes_back { sem 𝓛 (lends_table S.row S.state self.entry file.old file.new cluster result) }
        ensures value { IfOk result (λ table. (mid : MetadataCaches S) × TableFound S.state cluster self.old file.old (Ok tt) mid file.new
            × (option_map (λ s. s.value) (lookup (nat_eq cluster) (cached_in mid).tables) ≡ Some table.now)) }
    {
        self.l2_ready(file, cluster)?;
        match self.l2.get_mut(cluster) {
            Some(table) => Ok(table),
            None => unreachable!(),
        }
    }

    // Finds the refcount block in a cluster, or loads it if the cache isn't full.
    fn rb_find(&mut self, file: &mut ImageFile<S>, cluster: HostCluster) -> Result<Admission, Fault>
        ensures readied { Readied (block_kind S.state self.old.rb.slots.cap) false cluster file.old self.old.rb.slots.entries
            result file.new self.new.rb.slots.entries }
        ensures others { self.new ≡ with_blocks self.old self.new.rb.slots.entries }
    {
        self.rb.ready(file, cluster, false)
    }

    // Loads the refcount block in a cluster into a full cache. Before another block is evicted, the tables that it depends on are written.
    fn rb_load(&mut self, file: &mut ImageFile<S>, cluster: HostCluster) -> Result<(), Fault>
        requires absent { lookup (nat_eq cluster) self.old.rb.slots.entries ≡ None }
        requires full { self.old.rb.slots.cap ≤ length self.old.rb.slots.entries }
        ensures { BlockFound S.state cluster self.old file.old result self.new file.new }
    {
        self.before_blocks(file)?;
        self.rb.ready(file, cluster, true)?;
        Ok(())
    }

    // Finds the refcount block in a cluster, or loads it.
    fn rb_ready(&mut self, file: &mut ImageFile<S>, cluster: HostCluster) -> Result<(), Fault>
        ensures { BlockFound S.state cluster self.old file.old result self.new file.new }
    {
        match self.rb_find(file, cluster)? {
            Admission::Granted => Ok(()),
            Admission::Denied => self.rb_load(file, cluster),
        }
    }

    /// Returns the refcount block in a cluster, found or loaded. Its entry becomes the most recently used.
    ///
    /// Changes of the block are written to the file later, by a flush or when the block is evicted. If the cache is full, the least
    /// recently used block that isn't pinned is flushed, and its entry is removed. If blocks depend on L2 tables, the dirty tables are
    /// written before that block.
    ///
    /// # Errors
    ///
    /// - `Fault::Memory`, `Fault::Storage`.
    /// - `Fault::CacheFull` if all blocks of the full cache are pinned.
    /// - `Fault::DamagedTable` if the cluster's offset doesn't fit an entry. Also if the offset of a dirty table or block doesn't fit an
    ///   entry, which the invariant of the caches (`WellFormed`) rules out.
    ///
    /// # On error
    ///
    /// All entries stay cached, except that a block may have been evicted for the new one.
    ///
    /// # Crash safety
    ///
    /// If the invariant `WellFormed` holds and no change of the storage fails, each crash image (the file after a crash between two
    /// requests) is consistent.
    pub fn rb_get_or_insert(
        &mut self,
        file: &mut ImageFile<S>,
        cluster: HostCluster,
    ) -> Result<&mut RefBlock, Fault>
        ensures* writes_back { sem 𝓛 (lends_block S.row S.state self.entry file.old file.new cluster result) }
        ensures value { IfOk result (λ block. (mid : MetadataCaches S) × BlockFound S.state cluster self.old file.old (Ok tt) mid file.new
            × (option_map (λ s. s.value) (lookup (nat_eq cluster) (cached_in mid).blocks) ≡ Some block.now)) }
    {
        self.rb_ready(file, cluster)?;
        match self.rb.get_mut(cluster) {
            Some(block) => Ok(block),
            None => unreachable!(),
        }
    }

    // Puts an L2 table into the cache if nothing must be written for that. Otherwise returns the table.
    fn l2_put(
        &mut self,
        file: &mut ImageFile<S>,
        cluster: HostCluster,
        table: L2Table,
    ) -> Result<Option<L2Table>, (Fault, L2Table)>
        ensures inserted { Inserted (table_kind S.state self.old.l2.slots.cap) false (cluster, table) file.old
            self.old.l2.slots.entries result file.new self.new.l2.slots.entries }
        ensures others { self.new ≡ with_tables self.old self.new.l2.slots.entries }
    {
        self.l2.insert(file, cluster, table, false)
    }

    // Puts an L2 table into a full cache or over another table. Before the other table goes, the blocks that it depends on are written.
    fn l2_put_over(
        &mut self,
        file: &mut ImageFile<S>,
        cluster: HostCluster,
        table: L2Table,
    ) -> Result<(), (Fault, L2Table)>
        requires { lookup (nat_eq cluster) self.old.l2.slots.entries ≡ None → self.old.l2.slots.cap ≤ length self.old.l2.slots.entries }
        ensures { TableInserted S.state cluster table (cached_file self.old file.old) result (cached_file self.new file.new) }
    {
        let flushed = self.before_tables(file);
        match flushed {
            Ok(()) => {
                self.l2.insert(file, cluster, table, true)?;
                Ok(())
            }
            Err(fault) => Err((fault, table)),
        }
    }

    // Puts an L2 table into the cache, at a cluster.
    fn l2_insert_at(
        &mut self,
        file: &mut ImageFile<S>,
        cluster: HostCluster,
        table: L2Table,
    ) -> Result<(), (Fault, L2Table)>
        ensures { TableInserted S.state cluster table (cached_file self.old file.old) result (cached_file self.new file.new) }
    {
        match self.l2_put(file, cluster, table)? {
            None => Ok(()),
            Some(table) => self.l2_put_over(file, cluster, table),
        }
    }

    /// Puts an L2 table into the cache, at its cluster. Its entry becomes the most recently used.
    ///
    /// If a table is cached at the cluster and dirty, it is flushed first, and its pins stay. If the cache is full, the least recently used
    /// table that isn't pinned is flushed, and its entry is removed. If L2 tables depend on blocks, the dirty blocks are written before a
    /// table is flushed.
    ///
    /// The invariant of the caches (`WellFormed`) is kept if the new table is clean, the file has it in the cluster, and no table cached
    /// there is dirty.
    ///
    /// # Preconditions
    ///
    /// The cluster of the table is set.
    ///
    /// # Errors
    ///
    /// The table is returned with the fault.
    ///
    /// - `Fault::Memory`, `Fault::Storage`.
    /// - `Fault::CacheFull` if all tables of the full cache are pinned.
    /// - `Fault::DamagedTable` if the offset of a dirty table or block doesn't fit an entry. The invariant `WellFormed` rules that out.
    ///
    /// # On error
    ///
    /// All entries stay cached, except that a table may have been evicted for the new one.
    pub fn l2_insert(
        &mut self,
        file: &mut ImageFile<S>,
        table: L2Table,
    ) -> Result<(), (Fault, L2Table)>
        requires placed { IsSome table.cluster }
        ensures { IfSome table.cluster (λ cluster. TableInserted S.state cluster table (cached_file self.old file.old) result
            (cached_file self.new file.new)) }
    {
        match table.get_cluster() {
            Some(cluster) => self.l2_insert_at(file, cluster, table),
            None => unreachable!(),
        }
    }

    /// Drops each L2 table that isn't pinned, without writing it. Changes of dirty tables are lost. If no table is dirty, the invariant of
    /// the caches (`WellFormed`) is kept.
    ///
    /// # Errors
    ///
    /// - `Fault::CacheFull` if a pinned table is still cached. The other tables are dropped.
    pub fn invalidate_l2(&mut self) -> Result<(), Fault>
        ensures dropped { Dropped (cached_in self.old).tables result (cached_in self.new).tables }
        ensures others { (self.new.rb ≡ self.old.rb) × (self.new.order ≡ self.old.order) }
        ensures room { HasRoomOf self.old self.new }
        ensures well_formed { AreTablesClean (cached_in self.old) → StaysWellFormed (cached_in self.old) (cached_in self.new) (order_of self.old) }
    {
        self.l2.invalidate()
    }

    // Puts a refcount block into the cache if nothing must be written for that. Otherwise returns the block.
    fn rb_put(
        &mut self,
        file: &mut ImageFile<S>,
        cluster: HostCluster,
        block: RefBlock,
    ) -> Result<Option<RefBlock>, (Fault, RefBlock)>
        ensures inserted { Inserted (block_kind S.state self.old.rb.slots.cap) false (cluster, block) file.old
            self.old.rb.slots.entries result file.new self.new.rb.slots.entries }
        ensures others { self.new ≡ with_blocks self.old self.new.rb.slots.entries }
    {
        self.rb.insert(file, cluster, block, false)
    }

    // Puts a refcount block into a full cache or over another block. Before the other block goes, the tables that it depends on are
    // written.
    fn rb_put_over(
        &mut self,
        file: &mut ImageFile<S>,
        cluster: HostCluster,
        block: RefBlock,
    ) -> Result<(), (Fault, RefBlock)>
        requires { lookup (nat_eq cluster) self.old.rb.slots.entries ≡ None → self.old.rb.slots.cap ≤ length self.old.rb.slots.entries }
        ensures { BlockInserted S.state cluster block (cached_file self.old file.old) result (cached_file self.new file.new) }
    {
        let flushed = self.before_blocks(file);
        match flushed {
            Ok(()) => {
                self.rb.insert(file, cluster, block, true)?;
                Ok(())
            }
            Err(fault) => Err((fault, block)),
        }
    }

    // Puts a refcount block into the cache, at a cluster.
    fn rb_insert_at(
        &mut self,
        file: &mut ImageFile<S>,
        cluster: HostCluster,
        block: RefBlock,
    ) -> Result<(), (Fault, RefBlock)>
        ensures { BlockInserted S.state cluster block (cached_file self.old file.old) result (cached_file self.new file.new) }
    {
        match self.rb_put(file, cluster, block)? {
            None => Ok(()),
            Some(block) => self.rb_put_over(file, cluster, block),
        }
    }

    /// Puts a refcount block into the cache, at its cluster. Its entry becomes the most recently used.
    ///
    /// If a block is cached at the cluster and dirty, it is flushed first, and its pins stay. If the cache is full, the least recently used
    /// block that isn't pinned is flushed, and its entry is removed. If blocks depend on L2 tables, the dirty tables are written before a
    /// block is flushed.
    ///
    /// The invariant of the caches (`WellFormed`) is kept if the new block is clean, the file has it in the cluster, and no block cached
    /// there is dirty.
    ///
    /// # Preconditions
    ///
    /// The cluster of the block is set.
    ///
    /// # Errors
    ///
    /// The block is returned with the fault.
    ///
    /// - `Fault::Memory`, `Fault::Storage`.
    /// - `Fault::CacheFull` if all blocks of the full cache are pinned.
    /// - `Fault::DamagedTable` if the offset of a dirty table or block doesn't fit an entry. The invariant `WellFormed` rules that out.
    ///
    /// # On error
    ///
    /// All entries stay cached, except that a block may have been evicted for the new one.
    pub fn rb_insert(
        &mut self,
        file: &mut ImageFile<S>,
        block: RefBlock,
    ) -> Result<(), (Fault, RefBlock)>
        requires placed { IsSome block.cluster }
        ensures { IfSome block.cluster (λ cluster. BlockInserted S.state cluster block (cached_file self.old file.old) result
            (cached_file self.new file.new)) }
    {
        match block.get_cluster() {
            Some(cluster) => self.rb_insert_at(file, cluster, block),
            None => unreachable!(),
        }
    }

    // Drops the refcount block in a cluster, if it is cached, without writing it. Its changes are lost.
    //
    // If the block is pinned, the call fails with `Fault::CacheFull` and changes nothing.
    pub(crate) fn rb_forget(&mut self, cluster: HostCluster) -> Result<(), Fault>
        ensures pinned { IsSomeAnd (lookup (nat_eq cluster) (cached_in self.old).blocks) (λ s. 0 < s.pins) → IsErr result }
        ensures ok { OnOk result (self.new ≡ with_blocks self.old (remove_entry (nat_eq cluster) (cached_in self.old).blocks)) }
        ensures err { IfErr result (λ fault. (fault ≡ Fault.CacheFull)
            × IsSomeAnd (lookup (nat_eq cluster) (cached_in self.old).blocks) (λ s. 0 < s.pins) × (self.new ≡ self.old)) }
    {
        self.rb.forget(cluster)
    }

    /// Drops each refcount block that isn't pinned, without writing it. Changes of dirty blocks are lost. If no block is dirty, the
    /// invariant of the caches (`WellFormed`) is kept.
    ///
    /// # Errors
    ///
    /// - `Fault::CacheFull` if a pinned block is still cached. The other blocks are dropped.
    pub fn invalidate_rb(&mut self) -> Result<(), Fault>
        ensures dropped { Dropped (cached_in self.old).blocks result (cached_in self.new).blocks }
        ensures others { (self.new.l2 ≡ self.old.l2) × (self.new.order ≡ self.old.order) }
        ensures room { HasRoomOf self.old self.new }
        ensures well_formed { AreBlocksClean (cached_in self.old) → StaysWellFormed (cached_in self.old) (cached_in self.new) (order_of self.old) }
    {
        self.rb.invalidate()
    }
}
