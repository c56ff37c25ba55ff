// Sets the offsets and lengths of an image's tables in its header.
ghost use Rattle.std.specs.Prelude.{◌≡◌, ◌+◌, ◌-◌, ◌*◌, ◌/◌, ◌%◌, ◌^◌, length, None};
ghost use Rattle.qcow2_types.specs.Header.{first_fault, refcount_table_entries, rules_of_size};
ghost use Rattle.qcow2_types.specs.HeaderSwitch.{FirstFieldsFit};
ghost use Rattle.qcow2_metadata.specs.Tables.{IsPlacedTable, IsTable, refcount_table_kind, table_start};

use super::Header;
use crate::l1_table::L1Table;
use crate::ref_table::RefTable;
use crate::table::{Table, first_byte, spend};
use qcow2_types::PendingClusters;

// Returns the number of clusters of a refcount table. It fits 32 bits, since the table has at most 2^20 entries.
fn clusters_taken(reftable: &RefTable) -> u32
    ensures value { result ≡ (8 * length reftable.now.raw_entries + (2 ^ reftable.now.layout.cluster_bits - 1)) / 2
        ^ reftable.now.layout.cluster_bits }
    ensures table { IsTable refcount_table_kind reftable.now }
{
    let _words = reftable.entries();
    reftable.cluster_count().0 as u32
}

impl Header {
    /// Sets the offset and the number of entries of the L1 table. If the table's clusters are newly allocated, `pending` holds them, and is
    /// consumed: the header now references them.
    ///
    /// The file is not written: `write_l1_table_pointer` does that. If the header obeys the format's rules on sizes and offsets, it still
    /// does after the call.
    pub fn set_l1_table(&mut self, l1_table: &L1Table, pending: Option<PendingClusters>)
        requires bits { l1_table.now.layout.cluster_bits ≡ self.old.fields.cluster_bits }
        requires placed { IsPlacedTable l1_table.now }
        ensures fields { self.new ≡ record self.old {
          fields = record self.old.fields
              { l1_entries = length l1_table.now.raw_entries; l1_offset = table_start l1_table.now };
        } }
        ensures sizes { first_fault (rules_of_size self.old.fields) ≡ None → first_fault (rules_of_size self.new.fields) ≡ None }
    {
        self.v2.l1_table_offset = first_byte(l1_table);
        self.v2.l1_size = l1_table.entries() as u32;
        spend(pending);
    }

    /// Sets the offset and the number of clusters of the refcount table.
    ///
    /// The table may end inside its last cluster. Then the entries from the end of the table to the end of the cluster are those in the
    /// file. If the table fills its clusters, the header's table has as many entries as the given one.
    ///
    /// The file is not written: `write_reftable_pointer` does that. If the header obeys the format's rules on sizes and offsets, it still
    /// does after the call.
    pub fn set_reftable(&mut self, reftable: &RefTable)
        requires bits { reftable.now.layout.cluster_bits ≡ self.old.fields.cluster_bits }
        requires placed { IsPlacedTable reftable.now }
        ensures fields { self.new ≡ record self.old {
          fields = record self.old.fields {
            refcount_table_offset = table_start reftable.now;
            refcount_table_clusters = (8 * length reftable.now.raw_entries + (2 ^ self.old.fields.cluster_bits - 1)) / 2
                ^ self.old.fields.cluster_bits;
          };
        } }
        ensures whole { 8 * length reftable.now.raw_entries % 2 ^ self.old.fields.cluster_bits ≡ 0
            → refcount_table_entries self.new.fields ≡ length reftable.now.raw_entries }
        ensures sizes { first_fault (rules_of_size self.old.fields) ≡ None → first_fault (rules_of_size self.new.fields) ≡ None }
        // So the fields can be written.
        ensures fit { FirstFieldsFit self.new.fields }
    {
        self.v2.refcount_table_offset = first_byte(reftable);
        self.v2.refcount_table_clusters = clusters_taken(reftable);
    }
}
