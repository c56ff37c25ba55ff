//! Laws (functions without code whose contracts are theorems) on the bytes and the meaning of headers, tables and refcount blocks. Callers
//! can use them in addition to the contracts of the calls.

ghost use Rattle.std.specs.Prelude.{◌≡◌, ◌≢◌, ◌⊎◌, ◌≤◌, ◌+◌, ◌*◌, ◌^◌, ◌<◌, ◌-◌, ℕ, Bool, true, false, IsTrue, Option, None, Some, Ok, List, [], length, slice_index, slice_set};
ghost use Rattle.qcow2_types.specs.TableBytes.{Packs, AreFit, table_bytes};
ghost use Rattle.qcow2_types.specs.Bytes.{Bytes, run, splice};
ghost use Rattle.qcow2_types.specs.Header.{Header as HeaderRecord, header_of, first_fault, layout_of, rules_of_size};
ghost use Rattle.qcow2_types.specs.HeaderBytes.{first_bytes, fits_first_cluster, header_bytes, written, new_header};
ghost use Rattle.qcow2_types.specs.HeaderSwitch.{OnlyPlaces, IsNameAfterFields};
ghost use Rattle.qcow2_types.specs.Words.{mapping_without_copied, Layout, block_offset, data_at, is_damaged, mapping_of, table_offset, unmapped, zeroes};
ghost use Rattle.qcow2_metadata.specs.Allocations.{kept_for_zero, zeroed_raw_entry};
ghost use Rattle.qcow2_metadata.specs.Places.{IsAddressable};
ghost use Rattle.qcow2_metadata.specs.Reloading.{is_text, IsReloadable};
ghost use Rattle.qcow2_metadata.specs.Tables.{shared_raw_entry, raw_entries_in};

use crate::Header;
use crate::layout::TableLayout;
use qcow2_types::HostCluster;

/// Law: if two blocks have equal refcounts, their bytes are equal. So if a refcount is incremented and then decremented, the block has its
/// old bytes again.
pub fn counters_have_one_form()
    ensures one { (order : ℕ) (counters xs ys : List ℕ) → Packs order counters xs → Packs order counters ys → xs ≡ ys }
    ensures undone { (counters : List ℕ) (i : ℕ) → i < length counters
        → slice_set (slice_set counters i (slice_index counters i + 1)) i (slice_index counters i + 1 - 1) ≡ counters }
{}

/// Law: if a table is loaded, not changed and written, the written bytes are those that were read. Bytes past the end of the file are
/// written as 0.
pub fn loaded_table_is_written_back()
    ensures { (f : Bytes) (place n : ℕ) → ((p : ℕ) → f p < 256) → table_bytes (raw_entries_in f place n) ≡ run f place (8 * n) }
{}

/// Law: if a table is written and then loaded, it has the entries that were written, since each entry has 64 bits.
pub fn written_table_is_read_back()
    ensures { (f : Bytes) (place : ℕ) (raw_entries : List ℕ) → AreFit raw_entries
        → raw_entries_in (splice f place (table_bytes raw_entries)) place (length raw_entries) ≡ raw_entries }
{}

/// Law: if `L2TableWriteGuard::map_cluster` sets an entry, the entry means data in the given cluster, with the COPIED flag. The cluster
/// isn't 0, or is one of an external data file.
pub fn mapped_cluster_is_decoded(header: &Header, cluster: HostCluster)
    requires reach { IsAddressable header.now.fields.cluster_bits cluster }
    requires cluster_nonzero { (0 < cluster) ⊎ ((layout_of header.now.fields).external_data ≡ true) }
    ensures { mapping_of (layout_of header.now.fields) (2 ^ 63 + cluster * 2 ^ header.now.fields.cluster_bits) ≡ data_at cluster true }
{
    let _ = cluster;
    let _layout = TableLayout::of_header(header);
}

/// Law: if `L2TableWriteGuard::zero_cluster` sets an entry, the entry means zeroes, with the preallocated cluster, if any, and its COPIED
/// flag. If `discard_cluster` sets an entry, the entry means that nothing is mapped.
pub fn zeroed_and_discarded_clusters_are_decoded()
    ensures zeroed { (layout : Layout) → layout.version ≡ 3 → mapping_of layout (zeroed_raw_entry layout.cluster_bits None) ≡ zeroes None false }
    ensures kept_host { (layout : Layout) (w : ℕ) (kept : ℕ × Bool) → 9 ≤ layout.cluster_bits → layout.version ≡ 3
        → IsAddressable layout.cluster_bits kept.0
        → kept_for_zero (mapping_of layout w) ≡ Some kept
        → mapping_of layout (zeroed_raw_entry layout.cluster_bits (Some kept)) ≡ zeroes (Some kept.0) kept.1 }
    ensures discarded { (layout : Layout) → mapping_of layout 0 ≡ unmapped }
{}

/// Law: if `L2Table::clone` copies an entry, the copy has the meaning of the original, without the COPIED flag. With an external data file,
/// the copy is equal to the original.
pub fn copied_entries_are_decoded()
    ensures inside { (layout : Layout) (w : ℕ) → 9 ≤ layout.cluster_bits → layout.cluster_bits ≤ 21 → layout.external_data ≡ false
        → is_damaged (mapping_of layout w) ≡ false
        → mapping_of layout (shared_raw_entry layout w) ≡ mapping_without_copied (mapping_of layout w) }
    ensures external { (layout : Layout) (w : ℕ) → layout.external_data ≡ true → shared_raw_entry layout w ≡ w }
{}

/// Law: if `L1Table::enter_l2_table` or `RefTable::enter_refblock` sets an entry, the entry references the given table or block.
pub fn entered_places_are_named()
    ensures table { (bits cluster : ℕ) → 9 ≤ bits → IsAddressable bits cluster
        → table_offset (2 ^ 63 + cluster * 2 ^ bits) ≡ cluster * 2 ^ bits }
    ensures block { (bits cluster : ℕ) → 9 ≤ bits → IsAddressable bits cluster → block_offset (cluster * 2 ^ bits) ≡ cluster * 2 ^ bits }
{}

/// Law: if bytes 0 to 63 of a file are replaced with those of a new header, the file loads as the new header.
///
/// The new header differs from the old one only in the disk size and in the offsets and lengths of the tables, and obeys the rules on them.
/// The old header loads for writing. If the old header loads only for reading, the new one loads for reading if the backing file's name, if
/// any, starts after byte 63.
pub fn pointer_write_switches_the_header()
    ensures writing { (f : Bytes) (old new : HeaderRecord) → ((p : ℕ) → f p < 256) → header_of true f ≡ Ok old → OnlyPlaces old new
        → first_fault (rules_of_size new.fields) ≡ None → header_of true (splice f 0 (first_bytes new.fields)) ≡ Ok new }
    ensures any { (writing : Bool) (f : Bytes) (old new : HeaderRecord) → ((p : ℕ) → f p < 256) → header_of writing f ≡ Ok old
        → OnlyPlaces old new
        → first_fault (rules_of_size new.fields) ≡ None → IsNameAfterFields old.fields
        → header_of writing (splice f 0 (first_bytes new.fields)) ≡ Ok new }
{}

/// Law: if a header is written twice, both writes write the same bytes.
pub fn writing_twice_writes_the_same()
    ensures bytes { (h : HeaderRecord) → header_bytes (written h) ≡ header_bytes h }
    ensures header { (h : HeaderRecord) → written (written h) ≡ written h }
{}

/// Law: if `Header::write` has written a header at byte 0 of a file, the file loads as this header.
///
/// A new header that fits its first cluster loads, both for reading and for writing. Its texts must be UTF-8, and the
/// backing file's name must not be empty.
pub fn written_header_loads_again()
    ensures new { (bits order : ℕ) (name format data_file : Option (List ℕ)) → 9 ≤ bits → bits ≤ 21 → order ≤ 6
        → IsTrue (fits_first_cluster (new_header bits order name format data_file)) → name ≢ Some [] → IsTrue (is_text name)
        → IsTrue (is_text format) → IsTrue (is_text data_file)
        → (writing : Bool) → IsReloadable writing (new_header bits order name format data_file) }
    ensures loads { (writing : Bool) (f : Bytes) (h : HeaderRecord) → IsReloadable writing h
        → header_of writing (splice f 0 (header_bytes h)) ≡ Ok (written h) }
{}
