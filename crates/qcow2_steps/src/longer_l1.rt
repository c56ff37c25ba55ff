//! Law on switching the header to a longer L1 table, the last step of growing the L1 table. Definitions: specs/LongerL1.antt.

ghost use Rattle.std.specs.Prelude.{◌≡◌, ℕ};
ghost use Rattle.qcow2_types.specs.Bytes.{Bytes};
ghost use Rattle.qcow2_types.specs.Entries.{entry};
ghost use Rattle.qcow2_alloc.specs.GuestView.{Metadata, IsSound, in_memory, referenced_at_all};
ghost use Rattle.qcow2_steps.specs.Advancing.{Advances};
ghost use Rattle.qcow2_steps.specs.LongerL1.{IsReadyL1Table, NamesL1Table, new_l1, old_l1, with_longer_l1};
ghost use Rattle.qcow2_steps.specs.Values.{file_value, memory_value};

/// Law: if a longer L1 table is ready (written, in reserved clusters), the header can be switched to it, in one request.
///
/// The image stays consistent (`IsSound`). Each mapping is unchanged, and each guest byte reads as before, in the file and in memory. The
/// new table's clusters are now referenced, so their excess refcount shrinks. Nothing references the clusters of the old table any more,
/// and their excess refcount grows.
pub fn switching_to_a_longer_l1_table()
    ensures sound { (m : Metadata) (offset more : ℕ) (x : Bytes) → IsSound m → IsReadyL1Table m offset more → NamesL1Table m offset more x
        → IsSound (with_longer_l1 m offset more x) }
    ensures advances { (m : Metadata) (offset more : ℕ) (x : Bytes) → IsSound m → IsReadyL1Table m offset more
        → NamesL1Table m offset more x
        → Advances (λ p v. ⊥) (λ q. ⊥) (λ guest. ⊥) (old_l1 m) (new_l1 m offset more) m (with_longer_l1 m offset more x) }
    ensures file { (m : Metadata) (offset more : ℕ) (x : Bytes) → IsSound m → IsReadyL1Table m offset more → NamesL1Table m offset more x
        → (p : ℕ) → file_value (with_longer_l1 m offset more x) p ≡ file_value m p }
    ensures memory { (m : Metadata) (offset more : ℕ) (x : Bytes) → IsSound m → IsReadyL1Table m offset more → NamesL1Table m offset more x
        → (p : ℕ) → memory_value (with_longer_l1 m offset more x) p ≡ memory_value m p }
    ensures raw_entries { (m : Metadata) (offset more guest : ℕ) (x : Bytes) → IsSound m → IsReadyL1Table m offset more
        → NamesL1Table m offset more x
        → (entry (in_memory (with_longer_l1 m offset more x)) (with_longer_l1 m offset more x).header.fields guest
        ≡ entry (in_memory m) m.header.fields guest)
        × (entry x (with_longer_l1 m offset more x).header.fields guest ≡ entry m.file m.header.fields guest) }
    ensures old { (m : Metadata) (offset more d : ℕ) (x : Bytes) → IsSound m → IsReadyL1Table m offset more → NamesL1Table m offset more x
        → old_l1 m d ≡ 1 → referenced_at_all (with_longer_l1 m offset more x) d ≡ 0 }
{}
