// The `Table` trait: what L1, L2 and refcount tables have in common, with loading and writing.
//
// From the sections "Host cluster management" and "Cluster mapping" of the format: the entries of a table are big-endian
// and consecutive, from the table's offset on.
ghost use Rattle.std.specs.Prelude.{◌≡◌, ℕ, ◌+◌, ◌-◌, ◌*◌, ◌/◌, ◌%◌, ◌^◌, ◌<◌, ◌≤◌, ◌↔◌, List, length, map, replicate, slice_index, OnOk, OnErr, IfOk, IfErr, IsErrOf, IsOkUnless, IsTrue, MatchOption, Some, None, true, false};
ghost use Rattle.imago_storage.specs.Calls.{CountsFaults, UnchangedButFaults, Reads};
ghost use Rattle.imago_storage.specs.State.{unit_of};
ghost use Rattle.imago_storage.specs.Through.{FitsOneRequest, WriteOutcome, AtomicWriteOutcome};
ghost use Rattle.qcow2_types.specs.Bytes.{bytes_of};
ghost use Rattle.qcow2_types.specs.Header.{Shaped, cluster_size, layout_of};
ghost use Rattle.std.specs.Int.{to_be_bytes, w64};
ghost use Rattle.qcow2_metadata.specs.Places.{IsAddressable, IsPlaced, place_of};
ghost use Rattle.qcow2_metadata.specs.Tables.{TableValue, IsTable, IsLength, IsAsked, AreSound, HasUnsound, WhyNotLoaded, WhyNotDecoded, IsPlacedTable, table_start, max_entries, raw_entries_in, table_in, padded};
ghost use Rattle.qcow2_types.specs.TableBytes.{AreFit, table_bytes};

use crate::Header;
use crate::clusters::{first_byte_of, read_cluster, zeroes};
use crate::entries::TableEntry;
use crate::words::raw_entry_at;
use imago_storage::{Fault, Storage, StorageExt};
use qcow2_types::{ClusterCount, HostCluster, HostOffset, PendingClusters};
use std::alloc::{AllocError, Global};

/// A table of 64-bit entries, kept in memory. In contracts it is a `TableValue`.
pub trait Table: Sized {
    /// An entry as the table keeps it.
    type InternalEntry: TableEntry;

    /// An entry as `get` returns it.
    type Entry: TableEntry;

    /// The table as contracts see it.
    ghost value: { Self → TableValue };

    ghost MAX_ENTRIES: { ℕ };

    /// The name of the table.
    const NAME: &'static str;

    /// The maximum number of entries.
    const MAX_ENTRIES: usize;

    /// Returns the table of these entries, for an image with this header. The table has no cluster in the file yet, and is dirty.
    ///
    /// Each entry must have 64 bits and be valid in the image. The entries of an L2 table must fill one cluster. Other tables have at most
    /// `MAX_ENTRIES` entries.
    fn from_data(content: Vec<Self::InternalEntry>, header: &Header) -> Self
        requires long { IsLength Self.InternalEntry.kind (layout_of header.now.fields) (length (Self.InternalEntry.raw_entries content.items)) }
        requires sound { AreSound Self.InternalEntry.kind (layout_of header.now.fields) (Self.InternalEntry.raw_entries content.items) }
        requires fit { AreFit (Self.InternalEntry.raw_entries content.items) }
        ensures { value result ≡ record {
          layout = layout_of header.now.fields;
          raw_entries = Self.InternalEntry.raw_entries content.items;
          cluster = None;
          modified = true;
        } };

    /// Returns the number of entries.
    fn entries(&self) -> usize
        ensures value { result ≡ length (value self.now).raw_entries }
        ensures table { IsTable Self.InternalEntry.kind (value self.now) };

    /// Returns the entry at an index, or `None` past the end.
    fn get_ref(&self, index: usize) -> Option<&Self::InternalEntry>
        ensures { MatchOption result (length (value self.now).raw_entries ≤ index) (λ entry.
            (index < length (value self.now).raw_entries) × (Self.InternalEntry.raw_entry entry.now ≡ slice_index (value self.now).raw_entries index)) };

    /// Returns the entry at an index, or the empty entry past the end.
    fn get(&self, index: usize) -> Self::Entry
        ensures { Self.Entry.raw_entry result ≡ slice_index (value self.now).raw_entries index };

    /// Returns the cluster where the table starts, if it has one.
    fn get_cluster(&self) -> Option<HostCluster>
        ensures { result ≡ (value self.now).cluster };

    /// Sets the cluster where the table starts. The file doesn't have the table there yet, so the table is now dirty.
    fn set_cluster(&mut self, cluster: HostCluster)
        ensures { value self.new ≡ record (value self.old) { cluster = Some cluster; modified = true } };

    /// Sets the table to have no cluster. The file is unchanged.
    fn unset_cluster(&mut self)
        ensures { value self.new ≡ record (value self.old) { cluster = None } };

    /// Returns the base-2 logarithm of the cluster size in bytes: 9 to 21.
    fn cluster_bits(&self) -> u32
        ensures value { result ≡ (value self.now).layout.cluster_bits }
        ensures bounds { (9 ≤ result) × (result ≤ 21) }
        ensures table { IsTable Self.InternalEntry.kind (value self.now) };

    /// Returns true if the table is dirty: the file may differ from it.
    fn is_modified(&self) -> bool
        ensures { result ≡ (value self.now).modified };

    /// Sets the table to dirty: the file may differ from it.
    fn set_modified(&mut self)
        ensures { value self.new ≡ record (value self.old) { modified = true } };

    /// Sets the table to clean: the file has it.
    fn clear_modified(&mut self)
        ensures { value self.new ≡ record (value self.old) { modified = false } };

    /// Returns the host offset of the table in bytes, if it has a cluster.
    final fn get_offset(&self) -> Option<HostOffset>
        requires { table_start (value self.now) < 2 ^ 64 }
        ensures none { (value self.now).cluster ≡ None → result ≡ None }
        ensures offset_of_cluster { (cluster : ℕ) → (value self.now).cluster ≡ Some cluster
            → result ≡ Some (cluster * 2 ^ (value self.now).layout.cluster_bits) }
    {
        match self.get_cluster() {
            Some(cluster) => Some(cluster.offset(self.cluster_bits())),
            None => None,
        }
    }

    /// Returns the length of the entries in bytes, 8 for each entry.
    final fn byte_size(&self) -> usize
        ensures { result ≡ 8 * length (value self.now).raw_entries }
    {
        8 * self.entries()
    }

    /// Returns the number of clusters of the table. The last one may be filled in part.
    final fn cluster_count(&self) -> ClusterCount
        ensures { result ≡ (8 * length (value self.now).raw_entries + (2 ^ (value self.now).layout.cluster_bits - 1)) / 2 ^ (value
            self.now).layout.cluster_bits }
    {
        ClusterCount::from_byte_size(self.byte_size() as u64, self.cluster_bits())
    }

    /// Loads the table of `entries` entries that starts at a cluster of an image with this header.
    ///
    /// The loaded table isn't dirty. If `entries` is 0, the loaded table has no cluster (`get_cluster` returns `None`). The file is
    /// unchanged, also on error.
    ///
    /// # Errors
    ///
    /// - `Fault::Limit(entries)` exactly if `entries` is more than `MAX_ENTRIES`. There is no I/O.
    /// - `Fault::DamagedTable` if an entry is invalid.
    /// - `Fault::Memory`, `Fault::Storage`.
    final fn load<S: Storage>(
        alloc: Global,
        image: &mut S,
        header: &Header,
        cluster: HostCluster,
        entries: usize,
    ) -> Result<Self, Fault>
        requires reach { IsAddressable header.now.fields.cluster_bits cluster }
        requires asked { IsAsked Self.InternalEntry.kind header.now.fields entries }
        ensures ok { IfOk result (λ table. value table ≡ table_in (bytes_of (S.state image.old).bytes) header.now.fields cluster entries) }
        ensures sound { OnOk result (AreSound Self.InternalEntry.kind (layout_of header.now.fields)
            (raw_entries_in (bytes_of (S.state image.old).bytes) (cluster * cluster_size header.now.fields) entries)) }
        ensures err { IfErr result (WhyNotLoaded Self.InternalEntry.kind (layout_of header.now.fields)
            (raw_entries_in (bytes_of (S.state image.old).bytes) (cluster * cluster_size header.now.fields) entries) (S.state image.old).faults
            (S.state image.new).faults) }
        ensures limit { MAX_ENTRIES < entries → IsErrOf result (Fault.Limit entries) × (S.state image.new ≡ S.state image.old) }
        ensures unchanged_but_faults { UnchangedButFaults (S.state image.old) (S.state image.new) }
        ensures faults { OnOk result ((S.state image.new).faults ≡ (S.state image.old).faults) }
    {
        if entries > Self::MAX_ENTRIES {
            return Err(Fault::Limit(entries as u64));
        }
        let content = load_entries(alloc, image, header, cluster, entries)?;
        let mut table = Self::from_data(content, header);
        if entries > 0 {
            table.set_cluster(cluster);
        }
        table.clear_modified();
        Ok(table)
    }

    /// Writes the table at its offset, by one call of `StorageExt::write` with exactly its bytes. After success the table isn't dirty.
    ///
    /// # Errors
    ///
    /// - `Fault::Memory`, `Fault::Storage`. The table is now dirty, and each of its bytes in the file is old or new.
    final fn write<S: Storage>(&mut self, alloc: Global, image: &mut S) -> Result<(), Fault>
        requires { IsPlacedTable (value self.old) }
        ensures request { WriteOutcome (S.state image.old) (S.state image.new) (table_start (value self.old))
            (table_bytes (value self.old).raw_entries) result }
        // If the storage's unit allows it, the write is one request. A table that fills one cluster is one request for every alignment of
        // the storage.
        ensures in_one_request { FitsOneRequest (unit_of (S.state image.old).shape) (table_start (value self.old)) (8 * length (value self.old).raw_entries)
            → AtomicWriteOutcome (S.state image.old) (S.state image.new) (table_start (value self.old)) (table_bytes (value self.old).raw_entries) result }
        ensures single_request { 8 * length (value self.old).raw_entries ≡ 2 ^ (value self.old).layout.cluster_bits
            → AtomicWriteOutcome (S.state image.old) (S.state image.new) (table_start (value self.old)) (table_bytes (value self.old).raw_entries) result }
        ensures ok { OnOk result (value self.new ≡ record (value self.old) { modified = false }) }
        ensures err { OnErr result (value self.new ≡ record (value self.old) { modified = true }) }
    {
        let result = put_table(alloc, self, image);
        if result.is_ok() {
            self.clear_modified();
        } else {
            self.set_modified();
        }
        result
    }

    /// Writes the entry at `index` at its offset, in one request of 8 bytes.
    ///
    /// # Errors
    ///
    /// - `Fault::Memory`, `Fault::Storage`. The table is now dirty, and each of the 8 bytes in the file is old or new.
    final fn write_entry<S: Storage>(
        &mut self,
        alloc: Global,
        image: &mut S,
        index: usize,
    ) -> Result<(), Fault>
        requires bounds { index < length (value self.old).raw_entries }
        requires placed { IsPlacedTable (value self.old) }
        ensures request { AtomicWriteOutcome (S.state image.old) (S.state image.new) (table_start (value self.old) + 8 * index)
            (to_be_bytes w64 (slice_index (value self.old).raw_entries index)) result }
        ensures ok { OnOk result (value self.new ≡ value self.old) }
        ensures err { OnErr result (value self.new ≡ record (value self.old) { modified = true }) }
    {
        let result = put_raw_entry(alloc, self, image, index);
        if result.is_err() {
            self.set_modified();
        }
        result
    }

    ghost few: { MAX_ENTRIES ≡ max_entries Self.InternalEntry.kind };
}

/// The number of entries that are checked for zeroes in one step.
const CHUNK_WORDS: usize = 64;

/// Returns true if all bytes are 0.
fn is_clear(bytes: &[u8]) -> bool
    ensures { IsTrue result ↔ ((k : ℕ) → slice_index bytes.now k ≡ 0) }
{
    // The loop has no early exit, so that the compiler can process many bytes in one step.
    let mut bits = 0;
    for byte in bytes {
        bits |= *byte;
    }
    bits == 0
}

/// Decodes the entries in the bytes, for an image with this header, into as many empty entries.
fn decode<E: TableEntry>(bytes: &[u8], header: &Header, entries: &mut [E]) -> Result<(), Fault>
    requires { E.raw_entries entries.old ≡ replicate (length bytes.now / 8) 0 }
    ensures raw_entries { OnOk result (E.raw_entries entries.new ≡ raw_entries_in (bytes_of bytes.now) 0 (length bytes.now / 8)) }
    ensures sound { OnOk result (AreSound E.kind (layout_of header.now.fields) (raw_entries_in (bytes_of bytes.now) 0 (length bytes.now / 8))) }
    ensures fit { OnOk result (AreFit (raw_entries_in (bytes_of bytes.now) 0 (length bytes.now / 8))) }
    ensures damaged { OnErr result (HasUnsound E.kind (layout_of header.now.fields)
        (raw_entries_in (bytes_of bytes.now) 0 (length bytes.now / 8))) }
    ensures refused { IsOkUnless result Fault.DamagedTable }
{
    // Most entries of most tables are 0, which `entries` has already.
    if is_clear(bytes) {
        return Ok(());
    }
    for index in 0..entries.len() {
        let raw_entry = raw_entry_at(bytes, 8 * index);
        if raw_entry != 0 {
            entries[index] = E::try_from_plain(raw_entry, header)?;
        }
    }
    Ok(())
}

/// Returns the entries in the bytes, for an image with this header.
fn entries_in<E: TableEntry>(alloc: Global, bytes: &[u8], header: &Header) -> Result<Vec<E>, Fault>
    ensures raw_entries { IfOk result (λ entries. E.raw_entries entries.items ≡ raw_entries_in (bytes_of bytes.now) 0 (length bytes.now / 8)) }
    ensures sound { OnOk result (AreSound E.kind (layout_of header.now.fields) (raw_entries_in (bytes_of bytes.now) 0 (length bytes.now / 8))) }
    ensures fit { OnOk result (AreFit (raw_entries_in (bytes_of bytes.now) 0 (length bytes.now / 8))) }
    ensures refused { IfErr result (WhyNotDecoded E.kind (layout_of header.now.fields)
        (raw_entries_in (bytes_of bytes.now) 0 (length bytes.now / 8))) }
{
    let count = bytes.len() / 8;
    let mut entries = vec![in alloc; E::empty(); count]?;
    for chunk in 0..count.div_ceil(CHUNK_WORDS) {
        let first = chunk * CHUNK_WORDS;
        let end = count.min(first + CHUNK_WORDS);
        decode(&bytes[8 * first..8 * end], header, &mut entries[first..end])?;
    }
    Ok(entries)
}

/// Reads the bytes of the `entries` entries that start at a cluster of an image with this header.
///
/// # Errors
///
/// - `Fault::Memory`, `Fault::Storage`. The file is unchanged.
pub fn load_bytes<S: Storage>(
    alloc: Global,
    image: &mut S,
    header: &Header,
    cluster: HostCluster,
    entries: usize,
) -> Result<Vec<u8>, Fault>
    requires reach { IsAddressable header.now.fields.cluster_bits cluster }
    requires entries_bounded { entries ≤ 2 ^ 22 }
    ensures raw_entries { IfOk result (λ bytes. raw_entries_in (bytes_of bytes.items) 0 (length bytes.items / 8)
        ≡ raw_entries_in (bytes_of (S.state image.old).bytes) (cluster * cluster_size header.now.fields) entries) }
    ensures whole { IfOk result (λ bytes. length bytes.items ≡ entries * 8) }
    ensures unchanged_but_faults { UnchangedButFaults (S.state image.old) (S.state image.new) }
    ensures faults { CountsFaults (S.state image.old).faults (S.state image.new).faults result }
    ensures shaped { Shaped header.now.fields }
{
    let HostOffset(place) = cluster.offset(header.cluster_bits());
    read_cluster(alloc, image, place, entries * 8)
}

/// Loads the `entries` entries that start at a cluster of an image with this header.
fn load_entries<E: TableEntry, S: Storage>(
    alloc: Global,
    image: &mut S,
    header: &Header,
    cluster: HostCluster,
    entries: usize,
) -> Result<Vec<E>, Fault>
    requires reach { IsAddressable header.now.fields.cluster_bits cluster }
    requires entries_bounded { entries ≤ max_entries E.kind }
    ensures raw_entries { IfOk result (λ content. E.raw_entries content.items
        ≡ raw_entries_in (bytes_of (S.state image.old).bytes) (cluster * cluster_size header.now.fields) entries) }
    ensures sound { OnOk result (AreSound E.kind (layout_of header.now.fields)
        (raw_entries_in (bytes_of (S.state image.old).bytes) (cluster * cluster_size header.now.fields) entries)) }
    ensures fit { OnOk result (AreFit (raw_entries_in (bytes_of (S.state image.old).bytes) (cluster * cluster_size header.now.fields) entries)) }
    ensures refused { IfErr result (WhyNotLoaded E.kind (layout_of header.now.fields)
        (raw_entries_in (bytes_of (S.state image.old).bytes) (cluster * cluster_size header.now.fields) entries) (S.state image.old).faults
        (S.state image.new).faults) }
    ensures unchanged_but_faults { UnchangedButFaults (S.state image.old) (S.state image.new) }
    ensures faults { OnOk result ((S.state image.new).faults ≡ (S.state image.old).faults) }
    ensures shaped { Shaped header.now.fields }
{
    let bytes = load_bytes(alloc, image, header, cluster, entries)?;
    entries_in(alloc, &bytes, header)
}

/// Returns the entry at an index, or the empty entry past the end.
fn entry_or_empty<T: Table>(table: &T, index: usize) -> T::InternalEntry
    ensures { T.InternalEntry.raw_entry result ≡ slice_index (T.value table.now).raw_entries index }
{
    match table.get_ref(index) {
        Some(entry) => *entry,
        None => <T::InternalEntry as TableEntry>::empty(),
    }
}

/// Returns the entries of a table, followed by empty ones, `count` in all.
///
/// # Errors
///
/// - `Fault::Memory` if memory runs out.
pub fn longer_content<T: Table>(
    alloc: Global,
    table: &T,
    count: usize,
) -> Result<Vec<T::InternalEntry>, Fault>
    requires { length (T.value table.now).raw_entries ≤ count }
    ensures raw_entries { IfOk result (λ content. T.InternalEntry.raw_entries content.items ≡ padded (T.value table.now).raw_entries count) }
    ensures refused { IsOkUnless result Fault.Memory }
{
    let mut content = Vec::with_capacity(alloc, count)?;
    for index in 0..count {
        content.push(entry_or_empty(table, index))?;
    }
    Ok(content)
}

/// Returns the host offset of a table that has a cluster.
pub fn first_byte<T: Table>(table: &T) -> u64
    requires { IsPlacedTable (T.value table.now) }
    ensures place { result ≡ table_start (T.value table.now) }
    ensures table { IsTable T.InternalEntry.kind (T.value table.now) }
{
    first_byte_of(table.get_cluster(), table.cluster_bits())
}

/// Makes the pending clusters persistent: a table or the header now references them.
pub fn spend(pending: Option<PendingClusters>) {
    if let Some(pending) = pending {
        pending.make_persistent();
    }
}

/// Writes the bytes of a table's entries over as many zeroes.
fn put_raw_entries<T: Table>(table: &T, bytes: &mut [u8])
    requires { bytes.old ≡ replicate (8 * length (T.value table.now).raw_entries) 0 }
    ensures { bytes.new ≡ table_bytes (T.value table.now).raw_entries }
{
    for index in 0..table.entries() {
        let raw_entry = table.get(index).to_plain();
        // The bytes of an entry 0 are there already.
        if raw_entry != 0 {
            bytes[8 * index..8 * index + 8].copy_from_slice(&raw_entry.to_be_bytes());
        }
    }
}

/// Returns the bytes of a table's entries.
fn bytes_in<T: Table>(alloc: Global, table: &T) -> Result<Vec<u8>, Fault>
    ensures bytes { IfOk result (λ bytes. bytes.items ≡ table_bytes (T.value table.now).raw_entries) }
    ensures refused { IsOkUnless result Fault.Memory }
{
    let mut bytes = zeroes(alloc, table.byte_size())?;
    put_raw_entries(table, &mut bytes);
    Ok(bytes)
}

/// Writes a table's bytes at its offset.
fn put_table<T: Table, S: Storage>(alloc: Global, table: &T, image: &mut S) -> Result<(), Fault>
    requires { IsPlacedTable (T.value table.now) }
    ensures request { WriteOutcome (S.state image.old) (S.state image.new) (table_start (T.value table.now))
        (table_bytes (T.value table.now).raw_entries) result }
    ensures in_one_request { FitsOneRequest (unit_of (S.state image.old).shape) (table_start (T.value table.now)) (8 * length (T.value table.now).raw_entries)
        → AtomicWriteOutcome (S.state image.old) (S.state image.new) (table_start (T.value table.now))
        (table_bytes (T.value table.now).raw_entries) result }
    ensures single_request { 8 * length (T.value table.now).raw_entries ≡ 2 ^ (T.value table.now).layout.cluster_bits
        → AtomicWriteOutcome (S.state image.old) (S.state image.new) (table_start (T.value table.now))
        (table_bytes (T.value table.now).raw_entries) result }
{
    let bytes = bytes_in(alloc, table)?;
    let place = first_byte(table);
    image.write(alloc, &bytes, place)
}

/// Writes the bytes of one entry of a table at its offset.
fn put_raw_entry<T: Table, S: Storage>(
    alloc: Global,
    table: &T,
    image: &mut S,
    index: usize,
) -> Result<(), Fault>
    requires bounds { index < length (T.value table.now).raw_entries }
    requires placed { IsPlacedTable (T.value table.now) }
    ensures { AtomicWriteOutcome (S.state image.old) (S.state image.new) (table_start (T.value table.now) + 8 * index)
        (to_be_bytes w64 (slice_index (T.value table.now).raw_entries index)) result }
{
    let raw_entry = table.get(index).to_plain();
    let place = first_byte(table) + 8 * index as u64;
    image.write(alloc, &raw_entry.to_be_bytes(), place)
}
