// The refcount table, and how it grows.
ghost use Rattle.std.specs.Prelude.{◌≡◌, ℕ, ◌+◌, ◌-◌, ◌*◌, ◌^◌, ◌<◌, ◌≤◌, ◌↔◌, IsTrue, MatchOption, IsOk, IfOk, IsErrOf, IsOkUnless, length, refl, Some, None, true, false};
ghost use Rattle.qcow2_types.specs.Header.{Shaped, layout_of, entries_of_cluster};
ghost use Rattle.qcow2_types.specs.Counts.{counters_of_block};
ghost use Rattle.qcow2_metadata.specs.Tables.{IsEnough, IsGrownLength, CanBeReferenced, padded, with_raw_entry};
ghost use Rattle.qcow2_metadata.specs.Places.{place_of};

use crate::Header;
use crate::clusters::first_byte_of;
use crate::entries::RefTableEntry;
use crate::entry_table::EntryTable;
use crate::layout::TableLayout;
use crate::refblock::RefBlock;
use crate::table::{Table, longer_content, spend};
use imago_storage::Fault;
use qcow2_types::{HostOffset, PendingClusters};
use std::alloc::Global;

/// The refcount table, kept in memory. Each entry has the host offset of a refcount block.
pub type RefTable = EntryTable<RefTableEntry>;

/// Returns the length that a refcount table must grow to, in entries, or `None` if that is more than
/// `RefTable::MAX_ENTRIES`.
///
/// It is the least length above `at` that fills its clusters, of `cluster_words` entries each, and for which the new blocks have enough
/// refcounts. The refcounts must cover the clusters of the table and those of the new blocks. A block has `counters` refcounts.
fn grown_length(cluster_words: usize, counters: usize, at: usize) -> Option<usize>
    requires raw_entries { (64 ≤ cluster_words) × (cluster_words ≤ 2 ^ 18) }
    requires counters { (64 ≤ counters) × (counters ≤ 2 ^ 24) }
    ensures { MatchOption result ((n : ℕ) → IsEnough cluster_words counters at n → 2 ^ 20 < n) (λ length.
        IsGrownLength cluster_words counters at length × (length ≤ 2 ^ 20)) }
{
    for clusters in at / cluster_words + 1..RefTable::MAX_ENTRIES / cluster_words + 1 {
        let length = clusters * cluster_words;
        if clusters <= (length - at) * (counters - 1) {
            return Some(length);
        }
    }
    None
}

/// Returns the number of entries in a cluster, and the number of refcounts in a refcount block.
fn sizes(header: &Header) -> (usize, usize)
    ensures raw_entries { result.0 ≡ entries_of_cluster header.now.fields }
    ensures counters { result.1 ≡ counters_of_block header.now.fields }
    ensures word_bounds { (64 ≤ result.0) × (result.0 ≤ 2 ^ 18) }
    ensures counter_bounds { (64 ≤ result.1) × (result.1 ≤ 2 ^ 24) }
    ensures shaped { Shaped header.now.fields }
{
    let _layout = TableLayout::of_header(header);
    (header.l2_entries(), header.rb_entries())
}

impl RefTable {
    /// Returns true if the table has an entry at this index.
    pub fn in_bounds(&self, index: usize) -> bool
        ensures { IsTrue result ↔ (index < length self.now.raw_entries) }
    {
        index < self.entries()
    }

    /// Returns a longer copy that has an entry at the index `at`, for the image with this header.
    ///
    /// The copy has enough free entries for the refcount blocks of its own clusters. It has the least length that is enough and fills whole
    /// clusters. The new entries are 0. The copy has no cluster in the file yet, and is dirty.
    ///
    /// # Errors
    ///
    /// - `Fault::Limit(n)` exactly if the length is more than `MAX_ENTRIES`. `n` is the first greater length that fills its
    ///   clusters.
    /// - `Fault::Memory`.
    pub fn clone_and_grow(
        &self,
        alloc: Global,
        header: &Header,
        at: usize,
    ) -> Result<RefTable, Fault>
        requires bits { self.now.layout.cluster_bits ≡ header.now.fields.cluster_bits }
        requires past { length self.now.raw_entries ≤ at }
        ensures ok { IfOk result (λ table. table ≡ record {
          layout = layout_of header.now.fields;
          raw_entries = padded self.now.raw_entries (length table.raw_entries);
          cluster = None;
          modified = true;
        }) }
        ensures length { IfOk result (λ table. IsGrownLength (entries_of_cluster header.now.fields) (counters_of_block header.now.fields) at
            (length table.raw_entries)) }
        ensures limit { ((n : ℕ) → IsEnough (entries_of_cluster header.now.fields) (counters_of_block header.now.fields) at n → 2 ^ 20 < n)
            → IsErrOf result (Fault.Limit (2 ^ 20 + entries_of_cluster header.now.fields)) }
        ensures ok_if_small { (n : ℕ) → IsEnough (entries_of_cluster header.now.fields) (counters_of_block header.now.fields) at n → n ≤ 2 ^ 20
            → IsOkUnless result Fault.Memory }
    {
        let (cluster_words, counters) = sizes(header);
        let Some(count) = grown_length(cluster_words, counters, at) else {
            return Err(Fault::Limit((RefTable::MAX_ENTRIES + cluster_words) as u64));
        };
        // This shows that each entry of the table is valid.
        let _ = self.layout();
        let content = longer_content(alloc, self, count)?;
        Ok(RefTable::from_data(content, header))
    }

    /// Makes an entry reference a refcount block. The table is now dirty. If the block's cluster is newly allocated, `pending` holds it,
    /// and is consumed: the entry now references it.
    pub fn enter_refblock(
        &mut self,
        index: usize,
        block: &RefBlock,
        pending: Option<PendingClusters>,
    )
        requires bounds { index < length self.old.raw_entries }
        requires bits { block.now.cluster_bits ≡ self.old.layout.cluster_bits }
        requires can_be_referenced { CanBeReferenced self.old.layout.cluster_bits block.now.cluster }
        ensures { self.new ≡ with_raw_entry self.old index (place_of block.now.cluster_bits block.now.cluster) }
    {
        let place = first_byte_of(block.get_cluster(), self.cluster_bits());
        self.set_entry(index, RefTableEntry::naming(HostOffset(place)));
        spend(pending);
    }
}
