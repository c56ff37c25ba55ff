//! Laws (functions without code whose contracts are theorems) on one write to a consistent image. In a consistent image, refcounts cover
//! the references, and clusters of the metadata and COPIED clusters are referenced once. The file before the write is f. The image stays
//! consistent. Only the laws that switch the header change its fields. Definitions: specs/Steps.antt and specs/Switched.antt.

ghost use Rattle.std.specs.Prelude.{◌≡◌, ◌≢◌, ◌≤◌, ◌<◌, ◌+◌, ◌*◌, ◌/◌, ◌%◌, ◌^◌, ℕ, List, [], ◌∷◌, length, true, map, IsTrue, IsFalse, Some, Ok};
ghost use Rattle.std.specs.Int.{w64, to_be_bytes};
ghost use Rattle.qcow2_types.specs.Bytes.{Bytes, be, bytes_of, raw_entry, splice};
ghost use Rattle.qcow2_types.specs.Words.{data_at, zeroes, unmapped, is_damaged, mapping_of, l1_entry_valid, table_offset, reftable_entry_valid, block_offset};
ghost use Rattle.qcow2_types.specs.Header.{Fields, Header, header_of, cluster_size, entries_of_cluster, refcount_table_entries, layout_of};
ghost use Rattle.qcow2_types.specs.Entries.{l2_table, l2_mapping};
ghost use Rattle.qcow2_types.specs.Counts.{block_at, count, counter, counter_of, counter_bits, counters_of_block};
ghost use Rattle.qcow2_types.specs.References.{structure, contents, of_mapping, of_copied, meets, refs};
ghost use Rattle.qcow2_types.specs.Switched.{with_l1_table, with_reftable, with_refcount_table, with_size, newly_referenced, L1Switched, RefcountTableSwitched, SizeSwitched};
ghost use Rattle.qcow2_types.specs.Consistency.{IsConsistent};
ghost use Rattle.qcow2_types.specs.Slots.{slot, Live};
ghost use Rattle.qcow2_types.specs.Frames.{Outside};
ghost use Rattle.qcow2_types.specs.Steps.{DataWritten, FreeWritten, RunWritten, BlockWritten, BlockEntered, CounterWritten, ClusterMapped, SlotWritten, TableEntered, TableReplaced, TableRewritten, TableSwapped, TableWritten};
ghost use Rattle.imago_storage.specs.Disk.{byte};
ghost use Rattle.qcow2_types.specs.Disk.{at, qcow2};
ghost use Rattle.qcow2_types.specs.WorkedImage.{of_pieces, image, image_fields, image_header, table_written, grown};

/// Law: if bytes are written to a data cluster that an L2 entry references with the COPIED flag, only the guest cluster of this entry
/// changes.
pub fn data_write_stays_in_its_cluster()
    ensures { (f : Bytes) (h : Header) → IsConsistent f h → (c i j : ℕ) → Live (l2_table f h.fields) h.fields i j
        → slot f h.fields i j ≡ data_at c true
        → (g : Bytes) (at n : ℕ) → Outside f g at n → c * cluster_size h.fields ≤ at → at + n ≤ (c + 1) * cluster_size h.fields
        → DataWritten f g h i j }
{}

/// Law: if bytes are written to a preallocated zero cluster that an L2 entry references with the COPIED flag, no guest data changes.
pub fn kept_cluster_write_shows_nowhere()
    ensures { (f : Bytes) (h : Header) → IsConsistent f h → (c i j : ℕ) → Live (l2_table f h.fields) h.fields i j
        → slot f h.fields i j ≡ zeroes (Some c) true
        → (g : Bytes) (at n : ℕ) → Outside f g at n → c * cluster_size h.fields ≤ at → at + n ≤ (c + 1) * cluster_size h.fields
        → FreeWritten f g h }
{}

/// Law: if bytes are written to clusters c to c + k, and nothing references these clusters, no guest data changes.
pub fn free_write_shows_nowhere()
    ensures { (f : Bytes) (h : Header) → IsConsistent f h → (c k : ℕ) → ((d : ℕ) → c ≤ d → d ≤ c + k → refs f h.fields d ≡ 0)
        → (g : Bytes) (at n : ℕ) → Outside f g at n → c * cluster_size h.fields ≤ at → at + n ≤ (c + k + 1) * cluster_size h.fields
        → FreeWritten f g h }
{}

/// Law: if clusters c to c + k contain no header, table or refcount block, a write to them only changes guest clusters whose data is in one
/// of them.
pub fn run_write_stays_in_its_clusters()
    ensures { (f : Bytes) (h : Header) → IsConsistent f h → (c k : ℕ)
        → ((d : ℕ) → c ≤ d → d ≤ c + k → structure f h.fields (meets h.fields d) ≡ 0)
        → (g : Bytes) (at n : ℕ) → Outside f g at n → c * cluster_size h.fields ≤ at → at + n ≤ (c + k + 1) * cluster_size h.fields
        → RunWritten f g h c k }
{}

/// Law: if a refcount block is written, no refcount outside the block changes. The refcounts in the block must still cover the references.
/// A refcount of 8 bits or more can be set to any number that is at least the cluster's references.
pub fn counter_write_keeps_other_counts()
    ensures block { (f : Bytes) (h : Header) → IsConsistent f h → (b : ℕ) → block_at f h.fields b ≢ 0
        → (g : Bytes) (at n : ℕ) → Outside f g at n → block_at f h.fields b ≤ at → at + n ≤ block_at f h.fields b + cluster_size h.fields
        → ((c : ℕ) → c / counters_of_block h.fields ≡ b → refs f h.fields c ≤ count g h.fields c) → BlockWritten f g h b }
    ensures counter { (f : Bytes) (h : Header) → IsConsistent f h → (c : ℕ) → block_at f h.fields (c / counters_of_block h.fields) ≢ 0
        → (bytes : List ℕ) → 8 ≤ counter_bits h.fields → length bytes ≡ counter_bits h.fields / 8
        → refs f h.fields c ≤ be (bytes_of bytes) 0 (length bytes)
        → CounterWritten f (splice f (block_at f h.fields
        (c / counters_of_block h.fields) + c % counters_of_block h.fields * (counter_bits h.fields / 8)) bytes) h c
        (be (bytes_of bytes) 0 (length bytes)) }
{}

/// Law: if an L2 entry is unmapped, it can be set to data in an allocated cluster that nothing references, with the COPIED flag.
pub fn mapping_a_free_cluster()
    ensures { (f : Bytes) (h : Header) → IsConsistent f h → (i j : ℕ) → Live (l2_table f h.fields) h.fields i j
        → (w : ℕ) → w < 2 ^ 64 → (c : ℕ) → mapping_of (layout_of h.fields) w ≡ data_at c true
        → slot f h.fields i j ≡ unmapped → refs f h.fields c ≡ 0 → 1 ≤ count f h.fields c
        → ClusterMapped f (splice f (l2_table f h.fields i + 8 * j) (to_be_bytes w64 w)) h i j c }
{}

/// Law: if an L2 entry is set to another valid entry, the references of each cluster change only by the old entry and the new entry.
///
/// The image stays consistent if, after the write:
/// - each refcount covers the references;
/// - each cluster of the header, tables and refcount blocks, and each cluster with the COPIED flag, is referenced once.
pub fn rewriting_an_entry()
    ensures written { (f : Bytes) (h : Header) → IsConsistent f h → (i j : ℕ) → Live (l2_table f h.fields) h.fields i j
        → (w : ℕ) → w < 2 ^ 64 → IsFalse (is_damaged (mapping_of (layout_of h.fields) w))
        → ((c : ℕ) → refs f h.fields c + of_mapping h.fields (meets h.fields c) (mapping_of (layout_of h.fields) w)
        ≤ count f h.fields c + of_mapping h.fields (meets h.fields c) (slot f h.fields i j))
        → ((c : ℕ) → 0 < structure f h.fields (meets h.fields c) + contents f h.fields
        (of_copied h.fields (meets h.fields c)) + of_copied h.fields (meets h.fields c) (mapping_of (layout_of h.fields) w)
        → refs f h.fields c + of_mapping h.fields (meets h.fields c) (mapping_of (layout_of h.fields) w)
        ≤ 1 + of_mapping h.fields (meets h.fields c) (slot f h.fields i j))
        → SlotWritten f (splice f (l2_table f h.fields i + 8 * j) (to_be_bytes w64 w)) h i j (mapping_of (layout_of h.fields) w) }
    ensures references { (f : Bytes) (h : Header) → IsConsistent f h → (i j : ℕ) → Live (l2_table f h.fields) h.fields i j → (w : ℕ)
        → w < 2 ^ 64 → (c : ℕ)
        → refs (splice f (l2_table f h.fields i + 8 * j) (to_be_bytes w64 w)) h.fields c + of_mapping h.fields (meets h.fields c)
        (slot f h.fields i j)
        ≡ refs f h.fields c + of_mapping h.fields (meets h.fields c) (mapping_of (layout_of h.fields) w) }
{}

/// Law: if an L2 table is written, as a whole or in part, no refcount and no entry of another table changes. References change only by the
/// entries of the written table.
///
/// The image stays consistent if, after the write:
/// - the entries of the table are valid;
/// - each refcount covers the references;
/// - each cluster of the header, tables and refcount blocks, and each cluster with the COPIED flag, is referenced once.
///
/// If the image stays consistent, guest clusters of other tables read as before. Guest clusters whose entry means the same as before, apart
/// from the COPIED flag, read as before, too.
pub fn writing_into_a_table()
    ensures written { (f : Bytes) (h : Header) → IsConsistent f h → (i : ℕ) → l2_table f h.fields i ≢ 0
        → (g : Bytes) (at n : ℕ) → Outside f g at n → l2_table f h.fields i ≤ at → at + n ≤ l2_table f h.fields i + cluster_size h.fields
        → TableWritten f g h i }
    ensures rewritten { (f : Bytes) (h : Header) → IsConsistent f h → (i : ℕ) → l2_table f h.fields i ≢ 0
        → (g : Bytes) (at n : ℕ) → Outside f g at n → l2_table f h.fields i ≤ at → at + n ≤ l2_table f h.fields i + cluster_size h.fields
        → ((j : ℕ) → j < entries_of_cluster h.fields → IsFalse
        (is_damaged (mapping_of (layout_of h.fields) (raw_entry g (l2_table f h.fields i) j))))
        → ((c : ℕ) → refs g h.fields c ≤ count f h.fields c)
        → ((c : ℕ) → 0 < structure f h.fields (meets h.fields c) + contents g h.fields (of_copied h.fields (meets h.fields c))
        → refs g h.fields c ≤ 1)
        → TableRewritten f g h i }
{}

/// Law: if an L1 entry references no table, it can be set to reference an allocated cluster of zeroes that nothing references.
pub fn entering_a_table_of_zeroes()
    ensures { (f : Bytes) (h : Header) → IsConsistent f h → (i : ℕ) → i < h.fields.l1_entries → l2_table f h.fields i ≡ 0
        → (w : ℕ) → w < 2 ^ 64 → IsTrue (l1_entry_valid h.fields.cluster_bits w)
        → (c t : ℕ) → table_offset w ≡ t → t ≢ 0 → t ≡ c * cluster_size h.fields → refs f h.fields c ≡ 0 → 1 ≤ count f h.fields c
        → ((j : ℕ) → j < entries_of_cluster h.fields → raw_entry f t j ≡ 0)
        → TableEntered f (splice f (h.fields.l1_offset + 8 * i) (to_be_bytes w64 w)) h i c t }
{}

/// Law: if an L1 entry is set to reference another L2 table, in a cluster that nothing references, no refcount and no entry of another
/// table changes. References change only by the old and the new table and by their entries.
///
/// The image stays consistent if, after the write:
/// - the entries of the new table are valid;
/// - each refcount covers the references;
/// - each cluster of the header, tables and refcount blocks, and each cluster with the COPIED flag, is referenced once.
///
/// If the image stays consistent, guest clusters of other tables read as before. Guest clusters that the new table maps as before, apart
/// from the COPIED flag, read as before, too.
pub fn linking_another_table()
    ensures replaced { (f : Bytes) (h : Header) → IsConsistent f h → (i : ℕ) → i < h.fields.l1_entries
        → (w : ℕ) → w < 2 ^ 64 → IsTrue (l1_entry_valid h.fields.cluster_bits w)
        → (c t : ℕ) → table_offset w ≡ t → t ≢ 0 → t ≡ c * cluster_size h.fields → refs f h.fields c ≡ 0
        → TableReplaced f (splice f (h.fields.l1_offset + 8 * i) (to_be_bytes w64 w)) h i t }
    ensures swapped { (f : Bytes) (h : Header) → IsConsistent f h → (i : ℕ) → i < h.fields.l1_entries
        → (w : ℕ) → w < 2 ^ 64 → IsTrue (l1_entry_valid h.fields.cluster_bits w)
        → (c t : ℕ) → table_offset w ≡ t → t ≢ 0 → t ≡ c * cluster_size h.fields → refs f h.fields c ≡ 0
        → ((j : ℕ) → j < entries_of_cluster h.fields → IsFalse (is_damaged (l2_mapping f h.fields t j)))
        → ((d : ℕ) → refs (splice f (h.fields.l1_offset + 8 * i) (to_be_bytes w64 w)) h.fields d ≤ count f h.fields d)
        → ((d : ℕ) → 0 < structure (splice f (h.fields.l1_offset + 8 * i) (to_be_bytes w64 w)) h.fields (meets h.fields d) + contents
        (splice f (h.fields.l1_offset + 8 * i) (to_be_bytes w64 w)) h.fields (of_copied h.fields (meets h.fields d))
        → refs (splice f (h.fields.l1_offset + 8 * i) (to_be_bytes w64 w)) h.fields d ≤ 1)
        → TableSwapped f (splice f (h.fields.l1_offset + 8 * i) (to_be_bytes w64 w)) h i t }
{}

/// Law: if a whole refcount block is written, the refcounts of its clusters are those in the written bytes. The block may be one that no
/// refcount table entry references yet.
pub fn block_write_sets_its_counts()
    ensures counts { (f : Bytes) (h : Header) → IsConsistent f h → (b : ℕ) → block_at f h.fields b ≢ 0
        → (bytes : List ℕ) → length bytes ≡ cluster_size h.fields → (c : ℕ) → c / counters_of_block h.fields ≡ b
        → count (splice f (block_at f h.fields b) bytes) h.fields c
        ≡ counter_of (bytes_of bytes) (counter_bits h.fields) 0 (c % counters_of_block h.fields) }
    ensures counters { (f : Bytes) (h : Fields) (place : ℕ) (bytes : List ℕ) → length bytes ≡ cluster_size h → (i : ℕ)
        → i < counters_of_block h
        → counter (splice f place bytes) h place i ≡ counter_of (bytes_of bytes) (counter_bits h) 0 i }
{}

/// Law: if a refcount table entry references no block, it can be set to reference one, in a cluster that nothing references. The refcount
/// of the new block's cluster must be above 0, in an old block or in the new block.
pub fn entering_a_block()
    ensures { (f : Bytes) (h : Header) → IsConsistent f h → (i : ℕ) → i < refcount_table_entries h.fields → block_at f h.fields i ≡ 0
        → (w : ℕ) → w < 2 ^ 64 → IsTrue (reftable_entry_valid h.fields.cluster_bits w)
        → (c t : ℕ) → block_offset w ≡ t → t ≢ 0 → t ≡ c * cluster_size h.fields → refs f h.fields c ≡ 0
        → (c / counters_of_block h.fields ≢ i → 1 ≤ count f h.fields c)
        → (c / counters_of_block h.fields ≡ i → 1 ≤ counter f h.fields t (c % counters_of_block h.fields))
        → BlockEntered f (splice f (h.fields.refcount_table_offset + 8 * i) (to_be_bytes w64 w)) h i c t }
{}

/// Law: if another L1 table has the entries of the old table, followed by entries of 0, the header can be switched to it. The clusters of
/// the new table are allocated, and nothing references them. The rest of the image doesn't change. Nothing references the old table any
/// more.
pub fn switching_the_l1_table()
    ensures { (f g : Bytes) (h : Header) → IsConsistent f h → (offset more : ℕ)
        → header_of true g ≡ Ok (with_l1_table h offset (h.fields.l1_entries + more)) → Outside f g 0 64
        → ((i : ℕ) → i < h.fields.l1_entries → raw_entry f offset i ≡ raw_entry f h.fields.l1_offset i)
        → ((i : ℕ) → h.fields.l1_entries ≤ i → i < h.fields.l1_entries + more → raw_entry f offset i ≡ 0)
        → ((d : ℕ) → 0 < meets h.fields d offset ((h.fields.l1_entries + more) * 8) → (refs f h.fields d ≡ 0) × (1 ≤ count f h.fields d))
        → L1Switched f g h offset more }
{}

/// Law: if another refcount table references the blocks of the old table, the header can be switched to it. The new table may also
/// reference new blocks where the old table had none. The new table and the new blocks don't overlap. Nothing referenced their clusters,
/// and their refcounts in the new table are above 0. The rest of the image doesn't change. Nothing references the old table any more.
pub fn switching_the_refcount_table()
    ensures { (f g : Bytes) (h : Header) → IsConsistent f h → (offset clusters : ℕ)
        → header_of true g ≡ Ok (with_refcount_table h offset clusters) → Outside f g 0 64
        → ((i : ℕ) → i < clusters * entries_of_cluster h.fields → IsTrue (reftable_entry_valid h.fields.cluster_bits (raw_entry f offset i)))
        → ((i : ℕ) → block_at f h.fields i ≢ 0 → block_at f (with_reftable h.fields offset clusters) i ≡ block_at f h.fields i)
        → ((d : ℕ) → newly_referenced f h.fields offset clusters (meets h.fields d) ≤ 1)
        → ((d : ℕ) → 0 < newly_referenced f h.fields offset clusters (meets h.fields d) → (refs f h.fields d ≡ 0)
        × (1 ≤ count f (with_reftable h.fields offset clusters) d))
        → RefcountTableSwitched f g h offset clusters }
{}

/// Law: if the disk size in the header is changed, the refcounts, the references, the leaks and the value of each guest byte are unchanged.
pub fn switching_the_size()
    ensures { (f g : Bytes) (h : Header) → IsConsistent f h → (n : ℕ) → header_of true g ≡ Ok (with_size h n) → Outside f g 0 64
        → SizeSwitched f g h n }
{}

/// Law: an example in which the refcount table of the worked image (the one of `worked_image`) grows. First a block is written to cluster
/// 256, which the old table can refcount but has no block for. Then a table that references the block is written to clusters 257 and 258,
/// and then the header. The clauses list the refcounts and the references of clusters 0, 1, and 255 to 259.
pub fn growing_the_refcount_table_of_the_worked_image()
    ensures switched { RefcountTableSwitched table_written grown image_header 131584 2 }
    ensures counts { map (count grown (with_reftable image_fields 131584 2)) (0 ∷ 1 ∷ 255 ∷ 256 ∷ 257 ∷ 258 ∷ 259 ∷ [])
        ≡ 1 ∷ 1 ∷ 0 ∷ 1 ∷ 1 ∷ 1 ∷ 0 ∷ [] }
    ensures references { map (refs grown (with_reftable image_fields 131584 2)) (0 ∷ 1 ∷ 255 ∷ 256 ∷ 257 ∷ 258 ∷ 259 ∷ [])
        ≡ 1 ∷ 0 ∷ 0 ∷ 1 ∷ 1 ∷ 1 ∷ 0 ∷ [] }
{}

/// Law: an example in which cluster 7 of the worked image (the one of `worked_image`) is allocated. Then 09 is written to cluster 7, and
/// the entry of guest cluster 2 is set to reference cluster 7.
pub fn allocating_in_the_worked_image()
    ensures counted { CounterWritten (of_pieces image) (splice (of_pieces image) 1038 (0 ∷ 1 ∷ [])) image_header 7 1 }
    ensures mapped { IsConsistent (splice (splice (splice (of_pieces image) 1038 (0 ∷ 1 ∷ [])) 3600 (9 ∷ [])) 2064
        (to_be_bytes w64 0x8000_0000_0000_0e00)) image_header }
    ensures shown { at (qcow2 (splice (splice (splice (of_pieces image) 1038 (0 ∷ 1 ∷ [])) 3600 (9 ∷ [])) 2064
        (to_be_bytes w64 0x8000_0000_0000_0e00)) (λ _. 0) ∷ []) 1040 ≡ byte 9 }
{}
