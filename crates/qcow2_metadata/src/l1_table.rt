// The L1 table, and how it grows.
ghost use Rattle.std.specs.Prelude.{◌≡◌, ℕ, ◌+◌, ◌*◌, ◌^◌, ◌<◌, ◌≤◌, ◌-◌, ◌↔◌, IsTrue, IsOk, IfOk, IsErrOf, IsOkUnless, length, min, refl, Some, None, true, false};
ghost use Rattle.qcow2_types.specs.Header.{layout_of};
ghost use Rattle.qcow2_metadata.specs.Tables.{CanBeReferenced, grown_l1, with_raw_entry, table_start};

use crate::Header;
use crate::entries::L1Entry;
use crate::entry_table::EntryTable;
use crate::l2_table::L2Table;
use crate::table::{Table, first_byte, longer_content, spend};
use imago_storage::Fault;
use qcow2_types::{HostOffset, PendingClusters};
use std::alloc::Global;

/// The L1 table, kept in memory. Each entry has the host offset of an L2 table.
pub type L1Table = EntryTable<L1Entry>;

impl L1Table {
    /// Returns true if the table has an entry at this index.
    pub fn in_bounds(&self, index: usize) -> bool
        ensures { IsTrue result ↔ (index < length self.now.raw_entries) }
    {
        index < self.entries()
    }

    /// Returns a copy that has an entry at the index `at`, for the image with this header. New entries are 0. The copy has no cluster in
    /// the file yet, and is dirty.
    ///
    /// # Errors
    ///
    /// - `Fault::Limit(at + 1)` exactly if `at + 1` is more than `MAX_ENTRIES`. The number is 2^64 - 1 if `at + 1` doesn't fit `u64`.
    /// - `Fault::Memory`.
    pub fn clone_and_grow(
        &self,
        alloc: Global,
        at: usize,
        header: &Header,
    ) -> Result<L1Table, Fault>
        requires bits { self.now.layout.cluster_bits ≡ header.now.fields.cluster_bits }
        ensures ok { IfOk result (λ table. table ≡ grown_l1 (layout_of header.now.fields) self.now at) }
        ensures limit { 2 ^ 22 < at + 1 → IsErrOf result (Fault.Limit (min (at + 1) (2 ^ 64 - 1))) }
        ensures ok_if_small { at + 1 ≤ 2 ^ 22 → IsOkUnless result Fault.Memory }
    {
        if at >= L1Table::MAX_ENTRIES {
            return Err(Fault::Limit((at as u64).saturating_add(1)));
        }
        let count = self.entries().max(at + 1);
        let content = longer_content(alloc, self, count)?;
        Ok(L1Table::from_data(content, header))
    }

    /// Makes an entry reference an L2 table, with the COPIED flag. This table is now dirty. If the L2 table's cluster is newly allocated,
    /// `pending` holds it, and is consumed: the entry now references it.
    pub fn enter_l2_table(
        &mut self,
        index: usize,
        table: &L2Table,
        pending: Option<PendingClusters>,
    )
        requires bounds { index < length self.old.raw_entries }
        requires bits { table.now.layout.cluster_bits ≡ self.old.layout.cluster_bits }
        requires can_be_referenced { CanBeReferenced self.old.layout.cluster_bits table.now.cluster }
        ensures { self.new ≡ with_raw_entry self.old index (2 ^ 63 + table_start table.now) }
    {
        let place = first_byte(table);
        self.set_entry(index, L1Entry::naming(HostOffset(place)));
        spend(pending);
    }
}
