//! Law on setting an L1 entry to a new L2 table, which is empty or a copy of the old one. Definitions: specs/NewTables.antt.

ghost use Rattle.std.specs.Prelude.{◌≡◌, ◌≢◌, ◌*◌, ◌/◌, Bool, ℕ};
ghost use Rattle.qcow2_types.specs.Entries.{entry, l2_table};
ghost use Rattle.qcow2_types.specs.Header.{cluster_size, entries_of_cluster};
ghost use Rattle.qcow2_alloc.specs.GuestView.{Metadata, IsSound, in_memory, referenced_at_all, one_at};
ghost use Rattle.qcow2_steps.specs.Advancing.{Advances};
ghost use Rattle.qcow2_steps.specs.NewTables.{IsOfTable, IsReadyL2Table, LosesCopied, NamesTable, copied_as, old_table, with_l1_entry};
ghost use Rattle.qcow2_steps.specs.Values.{file_value, memory_value};

/// Law: if a new L2 table is ready (written, in a reserved cluster), an L1 entry can be set to reference it, in one request.
///
/// The image stays consistent (`IsSound`), and each guest byte reads as before, in the file and in memory. Each entry of the table has the
/// mapping of the old table, with the COPIED flag or without it (`copied_as`). The mappings of other tables are unchanged. The new table's
/// cluster is now referenced, so its excess refcount shrinks. Nothing references the old table, if any, any more, and its excess refcount
/// grows.
pub fn linking_a_new_table()
    ensures sound { (m : Metadata) (marks : Bool) (i c w : ℕ) → IsSound m → IsReadyL2Table m marks i c → NamesTable m.header.fields c w
        → IsSound (with_l1_entry m i w) }
    ensures advances { (m : Metadata) (marks : Bool) (i c w : ℕ) → IsSound m → IsReadyL2Table m marks i c → NamesTable m.header.fields c w
        → Advances (λ p v. ⊥) (λ q. ⊥) (LosesCopied marks m.header.fields i) (old_table m i) (one_at c) m (with_l1_entry m i w) }
    ensures file { (m : Metadata) (marks : Bool) (i c w : ℕ) → IsSound m → IsReadyL2Table m marks i c → NamesTable m.header.fields c w
        → (p : ℕ) → file_value (with_l1_entry m i w) p ≡ file_value m p }
    ensures memory { (m : Metadata) (marks : Bool) (i c w : ℕ) → IsSound m → IsReadyL2Table m marks i c → NamesTable m.header.fields c w
        → (p : ℕ) → memory_value (with_l1_entry m i w) p ≡ memory_value m p }
    ensures raw_entries { (m : Metadata) (marks : Bool) (i c w guest : ℕ) → IsSound m → IsReadyL2Table m marks i c
        → NamesTable m.header.fields c w → IsOfTable m.header.fields i guest
        → entry (in_memory (with_l1_entry m i w)) m.header.fields guest ≡ copied_as marks (entry (in_memory m) m.header.fields guest) }
    ensures file_words { (m : Metadata) (marks : Bool) (i c w guest : ℕ) → IsSound m → IsReadyL2Table m marks i c
        → NamesTable m.header.fields c w → IsOfTable m.header.fields i guest
        → entry (with_l1_entry m i w).file m.header.fields guest ≡ copied_as marks (entry m.file m.header.fields guest) }
    ensures other_words { (m : Metadata) (marks : Bool) (i c w guest : ℕ) → IsSound m → IsReadyL2Table m marks i c
        → NamesTable m.header.fields c w → guest / entries_of_cluster m.header.fields ≢ i
        → (entry (in_memory (with_l1_entry m i w)) m.header.fields guest ≡ entry (in_memory m) m.header.fields guest)
        × (entry (with_l1_entry m i w).file m.header.fields guest ≡ entry m.file m.header.fields guest) }
    ensures old { (m : Metadata) (marks : Bool) (i c w d : ℕ) → IsSound m → IsReadyL2Table m marks i c → NamesTable m.header.fields c w
        → d ≢ 0 → l2_table m.file m.header.fields i ≡ d * cluster_size m.header.fields → referenced_at_all (with_l1_entry m i w) d ≡ 0 }
{}
