// Reads of ranges of an image: inside one guest cluster, inside the area of one L2 table, and of any range.
ghost use Rattle.std.specs.Prelude.{◌≡◌, ℕ, ◌+◌, ◌*◌, ◌/◌, ◌%◌, ◌<◌, ◌≤◌, ◌^◌, length, slice_index, Ok, false, IsTrue, IsFalse, OnOk, IfErr};
ghost use Rattle.imago_storage.specs.Calls.{CountsFaults, UnchangedButFaults, Reads};
ghost use Rattle.imago_storage.specs.Disk.{Shows};
ghost use Rattle.qcow2_types.specs.Header.{header_of, has_external_data};
ghost use Rattle.qcow2_types.specs.Entries.{l1_table_sound, l2_entries};
ghost use Rattle.qcow2_metadata.specs.MappingView.{mapping_seen, IsHostAddressable};
ghost use Rattle.qcow2_metadata.specs.Loading.{file};
ghost use Rattle.qimg_core.specs.Plain.{NamesTables, NotShown, mapped_value, table_value, image_value};

use crate::buffers::blank;
use imago_storage::{Fault, Storage, StorageExt};
use qcow2_metadata::{Header, L1Table, L2Mapping, L2Table, Table};
use qcow2_types::{GuestOffset, HostOffset};
use std::alloc::Global;

/// Fills the buffer from offset `at` of the file.
///
/// # Errors
///
/// - `Fault::Memory` if memory runs out.
/// - `Fault::Storage` if the storage fails.
fn read_at<S: Storage>(image: &mut S, alloc: Global, buf: &mut [u8], at: u64) -> Result<(), Fault>
    requires { at + length buf.old ≤ 2 ^ 63 }
    ensures read { OnOk result (Reads (S.state image.old).bytes at buf.new) }
    ensures unchanged_but_faults { UnchangedButFaults (S.state image.old) (S.state image.new) }
    ensures faults { CountsFaults (S.state image.old).faults (S.state image.new).faults result }
{
    image.read(alloc, buf, at)
}

/// Reads a range inside one guest cluster, which has this mapping.
///
/// # Errors
///
/// - `Fault::Barred` if the cluster is compressed.
/// - `Fault::Memory` if memory runs out.
/// - `Fault::Storage` if the storage fails.
fn read_mapping<S: Storage>(
    image: &mut S,
    alloc: Global,
    mapping: L2Mapping,
    cluster_bits: u32,
    buf: &mut [u8],
    at: u64,
) -> Result<(), Fault>
    requires bits { (9 ≤ cluster_bits) × (cluster_bits ≤ 21) }
    requires named { IsHostAddressable cluster_bits mapping }
    requires nonempty { 0 < length buf.old }
    requires one_cluster { at % 2 ^ cluster_bits + length buf.old ≤ 2 ^ cluster_bits }
    ensures ok { OnOk result (Shows (mapped_value (file (S.state image.old)) cluster_bits (mapping_seen mapping)) at buf.new) }
    ensures err { IfErr result (NotShown (mapped_value (file (S.state image.old)) cluster_bits (mapping_seen mapping)) (S.state image.old)
        (S.state image.new) at (length buf.old)) }
    ensures unchanged_but_faults { UnchangedButFaults (S.state image.old) (S.state image.new) }
    ensures faults { OnOk result ((S.state image.new).faults ≡ (S.state image.old).faults) }
{
    match mapping {
        L2Mapping::DataFile { host_cluster, .. } => {
            let HostOffset(place) = host_cluster.relative_offset(GuestOffset(at), cluster_bits);
            read_at(image, alloc, buf, place)
        }
        L2Mapping::Backing { .. } | L2Mapping::Zero { .. } => {
            blank(buf);
            Ok(())
        }
        L2Mapping::Compressed { .. } => Err(Fault::Barred),
    }
}

/// Returns how many of the `left` bytes from guest offset `at` on are in the same guest cluster.
fn in_cluster(at: u64, left: usize, cluster_bits: u32) -> usize
    requires bits { (9 ≤ cluster_bits) × (cluster_bits ≤ 21) }
    requires nonempty { 0 < left }
    ensures one_cluster { at % 2 ^ cluster_bits + result ≤ 2 ^ cluster_bits }
    ensures nonempty { 0 < result }
    ensures most { result ≤ left }
    ensures whole { result < left → at % 2 ^ cluster_bits + result ≡ 2 ^ cluster_bits }
{
    (GuestOffset(at).remaining_in_cluster(cluster_bits) as usize).min(left)
}

/// Returns how many of the `left` bytes from guest offset `at` on are mapped by the same L2 table.
fn in_table(at: u64, left: usize, cluster_bits: u32) -> usize
    requires bits { (9 ≤ cluster_bits) × (cluster_bits ≤ 21) }
    requires nonempty { 0 < left }
    ensures one_table { let mapped = l2_entries cluster_bits * 2 ^ cluster_bits in at % mapped + result ≤ mapped }
    ensures nonempty { 0 < result }
    ensures most { result ≤ left }
    ensures whole { let mapped = l2_entries cluster_bits * 2 ^ cluster_bits in result < left → at % mapped + result ≡ mapped }
{
    GuestOffset(at)
        .remaining_in_l2_table(cluster_bits)
        .min(left as u64) as usize
}

/// Reads a range that one L2 table maps, one guest cluster after another.
///
/// # Errors
///
/// - `Fault::Barred` if the first byte that can't be read is compressed.
/// - `Fault::Memory` if memory runs out.
/// - `Fault::Storage` if the storage fails.
fn read_clusters<S: Storage>(
    image: &mut S,
    alloc: Global,
    table: &L2Table,
    buf: &mut [u8],
    at: u64,
) -> Result<(), Fault>
    requires fits { at + length buf.old < 2 ^ 64 }
    ensures ok { OnOk result (Shows (table_value (file (S.state image.old)) table.now) at buf.new) }
    ensures err { IfErr result (NotShown (table_value (file (S.state image.old)) table.now) (S.state image.old) (S.state image.new) at
        (length buf.old)) }
    ensures unchanged_but_faults { UnchangedButFaults (S.state image.old) (S.state image.new) }
    ensures faults { OnOk result ((S.state image.new).faults ≡ (S.state image.old).faults) }
{
    let bits = table.cluster_bits();
    let mut done = 0usize;
    while done < buf.len() {
        let place = at + done as u64;
        let mapping = table.get_mapping(GuestOffset(place).cluster(bits));
        let n = in_cluster(place, buf.len() - done, bits);
        let piece = &mut buf[done..done + n];
        read_mapping(image, alloc, mapping, bits, piece, place)?;
        done += n;
    }
    Ok(())
}

/// Reads a range that one L2 table maps. If that table doesn't exist, the range reads as zeroes.
///
/// # Errors
///
/// - `Fault::DamagedTable` if the first byte that can't be read has a damaged L2 table.
/// - `Fault::Barred` if the first byte that can't be read is compressed.
/// - `Fault::Memory` if memory runs out.
/// - `Fault::Storage` if the storage fails.
fn read_table<S: Storage>(
    image: &mut S,
    alloc: Global,
    header: &Header,
    l1: &L1Table,
    buf: &mut [u8],
    at: u64,
) -> Result<(), Fault>
    requires loads { header_of false (file (S.state image.old)) ≡ Ok header.now }
    requires raw_entries { NamesTables (file (S.state image.old)) header.now.fields l1.now.raw_entries }
    requires sound { IsTrue (l1_table_sound (file (S.state image.old)) header.now.fields) }
    requires data_inside { IsFalse (has_external_data header.now.fields) }
    requires nonempty { 0 < length buf.old }
    requires fits { at + length buf.old < 2 ^ 64 }
    requires one_table { let mapped = l2_entries header.now.fields.cluster_bits * 2 ^ header.now.fields.cluster_bits in at % mapped + length
        buf.old ≤ mapped }
    ensures ok { OnOk result (Shows (image_value (file (S.state image.old)) header.now.fields) at buf.new) }
    ensures err { IfErr result (NotShown (image_value (file (S.state image.old)) header.now.fields) (S.state image.old)
        (S.state image.new) at (length buf.old)) }
    ensures unchanged_but_faults { UnchangedButFaults (S.state image.old) (S.state image.new) }
    ensures faults { OnOk result ((S.state image.new).faults ≡ (S.state image.old).faults) }
{
    let bits = header.cluster_bits();
    let Some(place) = l1.get(GuestOffset(at).l1_index(bits)).l2_offset() else {
        blank(buf);
        return Ok(());
    };
    let cluster = place.cluster(bits);
    let table = L2Table::load(alloc, image, header, cluster, header.l2_entries())?;
    read_clusters(image, alloc, &table, buf, at)
}

/// Reads any range of an image, one L2 table after another.
///
/// # Errors
///
/// - `Fault::DamagedTable` if the first byte that can't be read has a damaged L2 table.
/// - `Fault::Barred` if the first byte that can't be read is compressed.
/// - `Fault::Memory` if memory runs out.
/// - `Fault::Storage` if the storage fails.
pub fn read_tables<S: Storage>(
    image: &mut S,
    alloc: Global,
    header: &Header,
    l1: &L1Table,
    buf: &mut [u8],
    at: u64,
) -> Result<(), Fault>
    requires loads { header_of false (file (S.state image.old)) ≡ Ok header.now }
    requires raw_entries { NamesTables (file (S.state image.old)) header.now.fields l1.now.raw_entries }
    requires sound { IsTrue (l1_table_sound (file (S.state image.old)) header.now.fields) }
    requires data_inside { IsFalse (has_external_data header.now.fields) }
    requires fits { at + length buf.old < 2 ^ 64 }
    ensures ok { OnOk result (Shows (image_value (file (S.state image.old)) header.now.fields) at buf.new) }
    ensures err { IfErr result (NotShown (image_value (file (S.state image.old)) header.now.fields) (S.state image.old)
        (S.state image.new) at (length buf.old)) }
    ensures unchanged_but_faults { UnchangedButFaults (S.state image.old) (S.state image.new) }
    ensures faults { OnOk result ((S.state image.new).faults ≡ (S.state image.old).faults) }
{
    let bits = header.cluster_bits();
    let mut done = 0usize;
    while done < buf.len() {
        let place = at + done as u64;
        let n = in_table(place, buf.len() - done, bits);
        let piece = &mut buf[done..done + n];
        read_table(image, alloc, header, l1, piece, place)?;
        done += n;
    }
    Ok(())
}
