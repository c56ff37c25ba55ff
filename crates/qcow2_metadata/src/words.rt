//! Decodes the raw entries of tables. An L2 entry is a standard or a compressed one.
//!
//! From the sections "Host cluster management" and "Cluster mapping" of the format.

ghost use Rattle.std.specs.Prelude.{◌≡◌, ℕ, ◌+◌, ◌-◌, ◌*◌, ◌/◌, ◌%◌, ◌^◌, ◌<◌, ◌≤◌, IfOk, IsOkUnless};
ghost use Rattle.qcow2_types.specs.Bytes.{be, bytes_of};
ghost use Rattle.qcow2_types.specs.Words.{bits_at, has_bit as has_bit_of, table_offset, block_offset, is_cluster_offset as is_place_of, compressed_offset, compressed_end, compressed_mapping, standard_mapping, mapping_of, l1_entry_valid, reftable_entry_valid};
ghost use Rattle.qcow2_metadata.specs.MappingView.{seen, BacksAt, IsHostAddressable};

use crate::layout::TableLayout;
use crate::mapping::L2Mapping;
use crate::numbers::byte_at;
use imago_storage::Fault;
use qcow2_types::{HostCluster, HostOffset, MAX_OFFSET};

/// Returns the big-endian number in the 8 bytes from an index on. Bytes past the end are 0.
pub fn raw_entry_at(bytes: &[u8], at: usize) -> u64
    requires { at + 8 < 2 ^ 64 }
    ensures { result ≡ be (bytes_of bytes.now) at 8 }
{
    if at + 8 <= bytes.len() {
        u64::from_be_bytes([
            bytes[at],
            bytes[at + 1],
            bytes[at + 2],
            bytes[at + 3],
            bytes[at + 4],
            bytes[at + 5],
            bytes[at + 6],
            bytes[at + 7],
        ])
    } else {
        raw_entry_at_end(bytes, at)
    }
}

/// Like `raw_entry_at`, but byte by byte, for an entry that may pass the end.
fn raw_entry_at_end(bytes: &[u8], at: usize) -> u64
    requires { at + 8 < 2 ^ 64 }
    ensures { result ≡ be (bytes_of bytes.now) at 8 }
{
    let mut number = 0u64;
    for i in 0..8usize {
        number = number << 8 | u64::from(byte_at(bytes, at + i));
    }
    number
}

/// Returns true if a bit is set.
pub(crate) fn has_bit(raw_entry: u64, bit: u32) -> bool
    requires { bit < 64 }
    ensures { result ≡ has_bit_of raw_entry bit }
{
    raw_entry >> bit & 1 == 1
}

/// Returns the number in `count` bits from `first` on.
pub(crate) fn bits(raw_entry: u64, first: u32, count: u32) -> u64
    requires first { first < 64 }
    requires count { count < 64 }
    ensures { result ≡ bits_at raw_entry first count }
{
    raw_entry >> first & ((1 << count) - 1)
}

/// Returns the offset in an L1 entry or a standard L2 entry. An offset of 0 means none.
pub fn offset_in(raw_entry: u64) -> u64
    ensures { result ≡ table_offset raw_entry }
{
    raw_entry & MAX_OFFSET
}

/// Returns the offset in a refcount table entry. An offset of 0 means none.
pub fn block_offset_in(raw_entry: u64) -> u64
    ensures { result ≡ block_offset raw_entry }
{
    raw_entry >> 9 << 9
}

/// Returns true if the offset is a valid offset of a cluster.
pub(crate) fn is_cluster_offset(offset: u64, cluster_bits: u32) -> bool
    requires { cluster_bits ≤ 21 }
    ensures { result ≡ is_place_of cluster_bits offset }
{
    bits(offset, 0, cluster_bits) == 0 && offset <= MAX_OFFSET
}

/// Returns true if the raw entry is valid in an L1 table.
pub(crate) fn is_l1_entry(raw_entry: u64, cluster_bits: u32) -> bool
    requires { cluster_bits ≤ 21 }
    ensures { result ≡ l1_entry_valid cluster_bits raw_entry }
{
    bits(raw_entry, 0, 9) == 0
        && bits(raw_entry, 56, 7) == 0
        && is_cluster_offset(offset_in(raw_entry), cluster_bits)
}

/// Returns true if the raw entry is valid in a refcount table.
pub(crate) fn is_reftable_entry(raw_entry: u64, cluster_bits: u32) -> bool
    requires { cluster_bits ≤ 21 }
    ensures { result ≡ reftable_entry_valid cluster_bits raw_entry }
{
    bits(raw_entry, 0, 9) == 0 && is_cluster_offset(block_offset_in(raw_entry), cluster_bits)
}

/// Returns the host offset of a compressed entry's data, and its length in bytes up to the end of the last sector.
#[tactic(auto, using(qcow2_types::proofs::Numbers::Reach::sectors_fit, crate::proofs::WordFacts::packed_fits))]
pub(crate) fn compressed_byte_range(raw_entry: u64, cluster_bits: u32) -> (u64, u64)
    requires { (9 ≤ cluster_bits) × (cluster_bits ≤ 21) }
    ensures place { result.0 ≡ compressed_offset cluster_bits raw_entry }
    ensures length { result.1 ≡ compressed_end cluster_bits raw_entry - compressed_offset cluster_bits raw_entry }
    ensures nonempty { 0 < result.1 }
    ensures length_bounded { result.1 < 2 ^ 23 }
{
    let split = 70 - cluster_bits;
    let place = bits(raw_entry, 0, split);
    let sectors = bits(raw_entry, split, cluster_bits - 8);
    let end = (place / 512 + sectors + 1) * 512;
    (place, end - place)
}

/// Returns the meaning of a compressed entry, or `Fault::DamagedTable` if it is invalid.
pub(crate) fn compressed(raw_entry: u64, cluster_bits: u32) -> Result<L2Mapping, Fault>
    requires { (9 ≤ cluster_bits) × (cluster_bits ≤ 21) }
    ensures means { seen result ≡ compressed_mapping cluster_bits raw_entry }
    ensures named { IfOk result (IsHostAddressable cluster_bits) }
    ensures backs { (place : ℕ) → IfOk result (BacksAt place) }
    ensures refused { IsOkUnless result Fault.DamagedTable }
{
    let (place, length) = compressed_byte_range(raw_entry, cluster_bits);
    if has_bit(raw_entry, 63) || place >= 1 << 56 {
        return Err(Fault::DamagedTable);
    }
    Ok(L2Mapping::Compressed {
        host_offset: HostOffset(place),
        length,
    })
}

/// Returns the meaning of a standard entry, or `Fault::DamagedTable` if it is invalid. If the entry is unmapped, the backing file is read
/// at `backing_offset`.
#[tactic(auto, using(qcow2_types::proofs::Numbers::Reach::cluster_begin))]
pub(crate) fn standard(
    raw_entry: u64,
    layout: TableLayout,
    backing_offset: u64,
) -> Result<L2Mapping, Fault>
    ensures means { seen result ≡ standard_mapping layout raw_entry }
    ensures named { IfOk result (IsHostAddressable layout.cluster_bits) }
    ensures backs { IfOk result (BacksAt backing_offset) }
    ensures refused { IsOkUnless result Fault.DamagedTable }
{
    let offset = offset_in(raw_entry);
    let copied = has_bit(raw_entry, 63);
    let zero = has_bit(raw_entry, 0);
    let reserved = bits(raw_entry, 1, 8) != 0
        || bits(raw_entry, 56, 6) != 0
        || zero && layout.version() != 3;
    let cluster_bits = layout.cluster_bits();
    if reserved || !is_cluster_offset(offset, cluster_bits) {
        return Err(Fault::DamagedTable);
    }
    let named = offset != 0 || layout.external_data() && copied;
    let cluster = HostCluster(offset >> cluster_bits);
    if zero {
        Ok(L2Mapping::Zero {
            host_cluster: if named { Some(cluster) } else { None },
            copied,
        })
    } else if named {
        Ok(L2Mapping::DataFile {
            host_cluster: cluster,
            copied,
        })
    } else {
        Ok(L2Mapping::Backing { backing_offset })
    }
}

/// Returns the meaning of an L2 entry, or `Fault::DamagedTable` if it is invalid. If the entry is unmapped, the backing file is read at
/// `backing_offset`.
#[tactic(auto, unfolding(qcow2_types::specs::Words::mapping_of))]
pub(crate) fn l2_mapping(
    raw_entry: u64,
    layout: TableLayout,
    backing_offset: u64,
) -> Result<L2Mapping, Fault>
    ensures means { seen result ≡ mapping_of layout raw_entry }
    ensures named { IfOk result (IsHostAddressable layout.cluster_bits) }
    ensures backs { IfOk result (BacksAt backing_offset) }
    ensures refused { IsOkUnless result Fault.DamagedTable }
{
    if has_bit(raw_entry, 62) {
        compressed(raw_entry, layout.cluster_bits())
    } else {
        standard(raw_entry, layout, backing_offset)
    }
}
