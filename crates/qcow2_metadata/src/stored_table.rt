// L2 tables that are only read. They keep the bytes of their cluster, and decode an entry when it is looked up.
ghost use Rattle.std.specs.Prelude.{◌≡◌, ℕ, ◌+◌, ◌*◌, ◌/◌, ◌%◌, ◌^◌, ◌<◌, ◌≤◌, length, slice_index, OnOk, IfOk, IfErr};
ghost use Rattle.imago_storage.specs.Calls.{UnchangedButFaults};
ghost use Rattle.qcow2_types.specs.Bytes.{bytes_of};
ghost use Rattle.qcow2_types.specs.Header.{cluster_size, layout_of, entries_of_cluster};
ghost use Rattle.qcow2_types.specs.Entries.{l2_entries};
ghost use Rattle.qcow2_types.specs.Words.{mapping_of};
ghost use Rattle.qcow2_metadata.specs.MappingView.{mapping_seen, BacksAt, IsHostAddressable};
ghost use Rattle.qcow2_metadata.specs.Places.{IsAddressable};
ghost use Rattle.qcow2_metadata.specs.Tables.{l2_table_kind, AreSound, WhyNotDecoded, WhyNotLoaded, raw_entries_in};

use crate::Header;
use crate::entries::{L2Entry, TableEntry};
use crate::layout::TableLayout;
use crate::mapping::L2Mapping;
use crate::table::load_bytes;
use crate::words::{l2_mapping, raw_entry_at};
use imago_storage::{Fault, Storage};
use qcow2_types::{GuestCluster, GuestOffset, HostCluster};
use std::alloc::Global;
use std::marker::Model;

/// A read-only L2 table that keeps the bytes of the file.
///
/// It takes the memory of one cluster, and each lookup decodes its entry.
#[derive(Drop)]
pub struct StoredL2Table {
    bytes: Vec<u8>,
    layout: TableLayout,
}

impl Model for StoredL2Table {
    ghost use Rattle.qcow2_metadata.specs.TableView.{StoredValue, seen_stored, IsStored};

    ghost Value = { StoredValue };

    ghost view = { seen_stored };

    ghost invariant = { IsStored };
}

/// Checks that each entry in the bytes is valid in an image with this header.
fn check_raw_entries(bytes: &[u8], header: &Header) -> Result<(), Fault>
    ensures sound { OnOk result (AreSound l2_table_kind (layout_of header.now.fields) (raw_entries_in (bytes_of bytes.now) 0 (length bytes.now / 8))) }
    ensures refused { IfErr result (WhyNotDecoded l2_table_kind (layout_of header.now.fields)
        (raw_entries_in (bytes_of bytes.now) 0 (length bytes.now / 8))) }
{
    for index in 0..bytes.len() / 8 {
        L2Entry::try_from_plain(raw_entry_at(bytes, 8 * index), header)?;
    }
    Ok(())
}

impl StoredL2Table {
    /// Loads the table in a cluster of an image with this header, like `L2Table::load`. The call reads one cluster.
    ///
    /// The rules are in the format's section "Cluster mapping". The file is unchanged, also on error.
    ///
    /// # Errors
    ///
    /// - `Fault::DamagedTable` if an entry is invalid.
    /// - `Fault::Memory`, `Fault::Storage`.
    pub fn load<S: Storage>(
        alloc: Global,
        image: &mut S,
        header: &Header,
        cluster: HostCluster,
    ) -> Result<StoredL2Table, Fault>
        requires { IsAddressable header.now.fields.cluster_bits cluster }
        ensures layout { IfOk result (λ table. table.layout ≡ layout_of header.now.fields) }
        ensures raw_entries { IfOk result (λ table. table.raw_entries ≡ raw_entries_in (bytes_of (S.state image.old).bytes)
            (cluster * cluster_size header.now.fields) (entries_of_cluster header.now.fields)) }
        ensures sound { OnOk result (AreSound l2_table_kind (layout_of header.now.fields) (raw_entries_in (bytes_of (S.state image.old).bytes)
            (cluster * cluster_size header.now.fields) (entries_of_cluster header.now.fields))) }
        ensures err { IfErr result (WhyNotLoaded l2_table_kind (layout_of header.now.fields) (raw_entries_in (bytes_of (S.state image.old).bytes)
            (cluster * cluster_size header.now.fields) (entries_of_cluster header.now.fields)) (S.state image.old).faults
            (S.state image.new).faults) }
        ensures unchanged_but_faults { UnchangedButFaults (S.state image.old) (S.state image.new) }
        ensures faults { OnOk result ((S.state image.new).faults ≡ (S.state image.old).faults) }
    {
        let layout = TableLayout::of_header(header);
        let bytes = load_bytes(alloc, image, header, cluster, header.l2_entries())?;
        check_raw_entries(&bytes, header)?;
        Ok(StoredL2Table { bytes, layout })
    }

    /// Returns the number of entries. They fill one cluster of 2^9 to 2^21 bytes.
    #[tactic(auto, using(crate::proofs::TableFacts::words_long))]
    pub fn entries(&self) -> usize
        ensures value { result ≡ length self.now.raw_entries }
        ensures whole { length self.now.raw_entries * 8 ≡ 2 ^ self.now.layout.cluster_bits }
        ensures bounds { (9 ≤ self.now.layout.cluster_bits) × (self.now.layout.cluster_bits ≤ 21) }
    {
        self.bytes.len() / 8
    }

    // Returns the raw entry at an index.
    #[tactic(auto, using(crate::proofs::TableFacts::words_long, crate::proofs::TableFacts::word_in_bytes))]
    fn raw_entry(&self, index: usize) -> u64
        requires { index < length self.now.raw_entries }
        ensures { result ≡ slice_index self.now.raw_entries index }
    {
        raw_entry_at(&self.bytes, 8 * index)
    }

    /// Returns where the bytes of a guest cluster are. If they are in the backing file, their offset there is that of the guest cluster.
    pub fn get_mapping(&self, lookup_cluster: GuestCluster) -> L2Mapping
        requires { lookup_cluster * 2 ^ self.now.layout.cluster_bits < 2 ^ 64 }
        ensures means { mapping_seen result
            ≡ mapping_of self.now.layout (slice_index self.now.raw_entries (lookup_cluster % l2_entries self.now.layout.cluster_bits)) }
        ensures named { IsHostAddressable self.now.layout.cluster_bits result }
        ensures backs { BacksAt (lookup_cluster * 2 ^ self.now.layout.cluster_bits) result }
    {
        let cluster_bits = self.layout.cluster_bits();
        let GuestOffset(place) = lookup_cluster.offset(cluster_bits);
        let raw_entry = self.raw_entry(lookup_cluster.l2_index(cluster_bits));
        match l2_mapping(raw_entry, self.layout, place) {
            Ok(mapping) => mapping,
            Err(_) => unreachable!(),
        }
    }
}
