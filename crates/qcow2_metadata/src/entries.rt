// The entries of L1, L2 and refcount tables, one type for each. An entry keeps its 64-bit value and decodes parts of it.
//
// From the sections "Host cluster management" and "Cluster mapping" of the format.
ghost use Rattle.std.specs.Prelude.{◌≡◌, refl, ℕ, ◌+◌, ◌-◌, ◌<◌, List, map, ◌*◌, ◌%◌, ◌^◌, ◌≤◌, ◌↔◌, IsTrue, IsOk, IfOk, IsOkUnless};
ghost use Rattle.qcow2_types.specs.Header.{layout_of};
ghost use Rattle.qcow2_types.specs.Words.{bits_at, has_bit as has_bit_of, is_copied as is_copied_of, table_offset, block_offset};
ghost use Rattle.qcow2_metadata.specs.Tables.{Kind, l1_table_kind, l2_table_kind, refcount_table_kind, max_entries, raw_entry_valid, l1_reserved, l2_reserved, block_reserved, offset_or_none, data_offset, compressed_byte_range as packed_range_of, zero_raw_entry};
ghost use Rattle.std.proofs.Common.{sym};
ghost use Rattle.std.proofs.lemmas.List.{map-id};

use crate::Header;
use crate::layout::TableLayout;
use crate::words::{
    bits, block_offset_in, compressed_byte_range, has_bit, is_l1_entry, is_reftable_entry,
    l2_mapping, offset_in,
};
use imago_storage::Fault;
use qcow2_types::HostOffset;
use std::marker::Model;

/// An entry of a table. In contracts the entry is its raw value (64 bits).
pub trait TableEntry: Copy {
    /// The raw value.
    ghost raw_entry: { Self → ℕ };

    /// The raw values of a list of entries.
    ghost raw_entries: { List Self → List ℕ };

    /// The kind of the entry's table: L1 table, L2 table or refcount table.
    ghost kind: { Kind };

    ghost MAX_ENTRIES: { ℕ };

    /// The name of the table.
    const TABLE_NAME: &'static str;

    /// The maximum number of entries of the table.
    const MAX_ENTRIES: usize;

    /// Returns the entry of this raw value, for an image with this header.
    ///
    /// # Errors
    ///
    /// - `Fault::DamagedTable` exactly if the value isn't a valid entry.
    fn try_from_plain(value: u64, header: &Header) -> Result<Self, Fault>
        ensures possible { IsOk result ↔ IsTrue (raw_entry_valid kind (layout_of header.now.fields) value) }
        ensures value { IfOk result (λ entry. raw_entry entry ≡ value) }
        ensures refused { IsOkUnless result Fault.DamagedTable };

    /// Returns the raw value of the entry.
    fn to_plain(&self) -> u64
        ensures { result ≡ raw_entry self.now };

    /// Returns the entry 0, which references nothing.
    fn empty() -> Self
        ensures { raw_entry result ≡ 0 };

    ghost each: { (entries : List Self) → raw_entries entries ≡ map raw_entry entries };

    ghost few: { MAX_ENTRIES ≡ max_entries kind };

    ghost copies: { (entry copy : Self) → Self.is_clone entry copy → copy ≡ entry };
}

/// An entry of the L1 table: the host offset of an L2 table.
#[derive(Clone, Copy, PartialEq, Eq, Debug)]
pub struct L1Entry(u64);

/// An entry of an L2 table: where the bytes of a guest cluster are.
#[derive(Clone, Copy, PartialEq, Eq, Debug)]
pub struct L2Entry(u64);

/// An entry of the refcount table: the host offset of a refcount block.
#[derive(Clone, Copy, PartialEq, Eq, Debug)]
pub struct RefTableEntry(u64);

impl Model for L1Entry {
    ghost Value = { ℕ };

    ghost view = { λ e. e.0 };

    ghost inverse = { λ n. record { 0 = n } };
}

impl Model for L2Entry {
    ghost Value = { ℕ };

    ghost view = { λ e. e.0 };

    ghost inverse = { λ n. record { 0 = n } };
}

impl Model for RefTableEntry {
    ghost Value = { ℕ };

    ghost view = { λ e. e.0 };

    ghost inverse = { λ n. record { 0 = n } };
}

impl TableEntry for L1Entry {
    ghost raw_entry = { λ e. e };

    ghost raw_entries = { λ es. es };

    ghost kind = { l1_table_kind };

    ghost MAX_ENTRIES = { 4194304 };

    const TABLE_NAME: &'static str = "L1 table";

    const MAX_ENTRIES: usize = 4_194_304;

    fn try_from_plain(value: u64, header: &Header) -> Result<L1Entry, Fault> {
        if is_l1_entry(value, header.cluster_bits()) {
            Ok(L1Entry(value))
        } else {
            Err(Fault::DamagedTable)
        }
    }

    fn to_plain(&self) -> u64 {
        self.0
    }

    fn empty() -> L1Entry {
        L1Entry(0)
    }

    ghost each = { λ es. sym (map-id es) };

    ghost few = { refl };

    ghost copies = { λ entry copy is. is };
}

impl TableEntry for L2Entry {
    ghost raw_entry = { λ e. e };

    ghost raw_entries = { λ es. es };

    ghost kind = { l2_table_kind };

    ghost MAX_ENTRIES = { 262144 };

    const TABLE_NAME: &'static str = "L2 table";

    const MAX_ENTRIES: usize = 262_144;

    fn try_from_plain(value: u64, header: &Header) -> Result<L2Entry, Fault> {
        // Most entries of most tables are 0.
        if value == 0 {
            return Ok(L2Entry::empty());
        }
        match l2_mapping(value, TableLayout::of_header(header), 0) {
            Ok(_) => Ok(L2Entry(value)),
            Err(fault) => Err(fault),
        }
    }

    fn to_plain(&self) -> u64 {
        self.0
    }

    fn empty() -> L2Entry {
        L2Entry(0)
    }

    ghost each = { λ es. sym (map-id es) };

    ghost few = { refl };

    ghost copies = { λ entry copy is. is };
}

impl TableEntry for RefTableEntry {
    ghost raw_entry = { λ e. e };

    ghost raw_entries = { λ es. es };

    ghost kind = { refcount_table_kind };

    ghost MAX_ENTRIES = { 1048576 };

    const TABLE_NAME: &'static str = "refcount table";

    const MAX_ENTRIES: usize = 1_048_576;

    fn try_from_plain(value: u64, header: &Header) -> Result<RefTableEntry, Fault> {
        if is_reftable_entry(value, header.cluster_bits()) {
            Ok(RefTableEntry(value))
        } else {
            Err(Fault::DamagedTable)
        }
    }

    fn to_plain(&self) -> u64 {
        self.0
    }

    fn empty() -> RefTableEntry {
        RefTableEntry(0)
    }

    ghost each = { λ es. sym (map-id es) };

    ghost few = { refl };

    ghost copies = { λ entry copy is. is };
}

// Returns an offset, or `None` if it is 0.
fn place_if_some(offset: u64) -> Option<HostOffset>
    ensures { result ≡ offset_or_none offset }
{
    if offset == 0 {
        None
    } else {
        Some(HostOffset(offset))
    }
}

impl L1Entry {
    /// Returns the entry that references the L2 table at this offset, with the COPIED flag.
    pub fn naming(offset: HostOffset) -> L1Entry
        requires { offset < 2 ^ 63 }
        ensures { result ≡ 2 ^ 63 + offset }
    {
        L1Entry((1 << 63) + offset.0)
    }

    /// Returns the offset of the L2 table (bits 9 to 55), or `None` if the entry references no table.
    pub fn l2_offset(&self) -> Option<HostOffset>
        ensures { result ≡ offset_or_none (table_offset self.now) }
    {
        place_if_some(offset_in(self.0))
    }

    /// Returns true if the COPIED flag (bit 63) is set: the table's refcount is exactly 1.
    pub fn is_copied(&self) -> bool
        ensures { result ≡ is_copied_of self.now }
    {
        has_bit(self.0, 63)
    }

    /// Returns the reserved bits 0 to 8 and 56 to 62, unshifted.
    pub fn reserved_bits(&self) -> u64
        ensures { result ≡ l1_reserved self.now }
    {
        bits(self.0, 0, 9) + bits(self.0, 56, 7) * (1 << 56)
    }
}

impl L2Entry {
    /// Returns the entry that references the host cluster at this offset as data, with the COPIED flag.
    pub fn naming(offset: HostOffset) -> L2Entry
        requires { offset < 2 ^ 63 }
        ensures { result ≡ 2 ^ 63 + offset }
    {
        L2Entry((1 << 63) + offset.0)
    }

    /// Returns the entry of a guest cluster that reads as zeroes, without a preallocated cluster.
    pub fn zero() -> L2Entry
        ensures { result ≡ 1 }
    {
        L2Entry(1)
    }

    /// Returns the entry of a guest cluster that reads as zeroes, with the preallocated cluster at this offset.
    pub fn zero_at(offset: HostOffset, copied: bool) -> L2Entry
        requires { offset < 2 ^ 63 - 1 }
        ensures { result ≡ zero_raw_entry offset copied }
    {
        if copied {
            L2Entry((1 << 63) + offset.0 + 1)
        } else {
            L2Entry(offset.0 + 1)
        }
    }

    /// Returns the host offset of a standard entry (bits 9 to 55), or `None` if the entry references no cluster.
    ///
    /// In an external data file, an entry with the COPIED flag also references the cluster at offset 0.
    pub fn cluster_offset(&self, external_data_file: bool) -> Option<HostOffset>
        ensures { result ≡ data_offset external_data_file self.now }
    {
        let offset = offset_in(self.0);
        if offset != 0 || external_data_file && self.is_copied() {
            Some(HostOffset(offset))
        } else {
            None
        }
    }

    /// Returns true if the entry is compressed (bit 62).
    pub fn is_compressed(&self) -> bool
        ensures { result ≡ has_bit_of self.now 62 }
    {
        has_bit(self.0, 62)
    }

    /// Returns true if the COPIED flag (bit 63) is set: the cluster's refcount is exactly 1.
    pub fn is_copied(&self) -> bool
        ensures { result ≡ is_copied_of self.now }
    {
        has_bit(self.0, 63)
    }

    /// Returns the entry without the COPIED flag.
    pub fn without_copied(self) -> L2Entry
        ensures { result ≡ self % 2 ^ 63 }
    {
        L2Entry(bits(self.0, 0, 63))
    }

    /// Returns true if a standard entry says that the guest cluster reads as zeroes (bit 0).
    pub fn is_zero(&self) -> bool
        ensures { result ≡ has_bit_of self.now 0 }
    {
        has_bit(self.0, 0)
    }

    /// Returns the reserved bits, unshifted: 1 to 8 and 56 to 61 of a standard entry, and 63 of a compressed entry.
    pub fn reserved_bits(&self) -> u64
        ensures { result ≡ l2_reserved self.now }
    {
        if self.is_compressed() {
            bits(self.0, 63, 1) * (1 << 63)
        } else {
            bits(self.0, 1, 8) * 2 + bits(self.0, 56, 6) * (1 << 56)
        }
    }

    /// Returns bits 0 to 61. In a compressed entry they are the offset and the number of sectors.
    pub fn compressed_descriptor(&self) -> u64
        ensures { result ≡ bits_at self.now 0 62 }
    {
        bits(self.0, 0, 62)
    }

    /// Returns the host offset and the length in bytes of a compressed entry's data, or `None` for a standard entry.
    ///
    /// The range ends with the last sector of 512 bytes. A cluster has 2^`cluster_bits` bytes.
    pub fn compressed_range(&self, cluster_bits: u32) -> Option<(HostOffset, u64)>
        requires { (9 ≤ cluster_bits) × (cluster_bits ≤ 21) }
        ensures { result ≡ packed_range_of cluster_bits self.now }
    {
        if self.is_compressed() {
            let (place, length) = compressed_byte_range(self.0, cluster_bits);
            Some((HostOffset(place), length))
        } else {
            None
        }
    }
}

impl RefTableEntry {
    /// Returns the entry that references the refcount block at this offset.
    pub fn naming(offset: HostOffset) -> RefTableEntry
        ensures { result ≡ offset }
    {
        RefTableEntry(offset.0)
    }

    /// Returns the offset of the refcount block (bits 9 to 63), or `None` if the entry references no block.
    pub fn refblock_offset(&self) -> Option<HostOffset>
        ensures { result ≡ offset_or_none (block_offset self.now) }
    {
        place_if_some(block_offset_in(self.0))
    }

    /// Returns the reserved bits: 0 to 8.
    pub fn reserved_bits(&self) -> u64
        ensures { result ≡ block_reserved self.now }
    {
        bits(self.0, 0, 9)
    }
}
