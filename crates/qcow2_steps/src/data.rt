//! Laws on bytes that are written to consecutive clusters without a header, table or refcount block. These are data clusters, preallocated
//! zero clusters and newly allocated clusters. "In memory" means with the cached tables and refcount blocks instead of the file's.
//! Definitions: specs/Data.antt.

ghost use Rattle.std.specs.Prelude.{◌≡◌, ◌⊎◌, ◌+◌, ◌*◌, ◌/◌, ◌%◌, ◌<◌, ℕ, Bool, Some};
ghost use Rattle.imago_storage.specs.Disk.{byte};
ghost use Rattle.qcow2_types.specs.Bytes.{Bytes};
ghost use Rattle.qcow2_types.specs.Entries.{entry, l2_table};
ghost use Rattle.qcow2_types.specs.Header.{cluster_size, entries_of_cluster};
ghost use Rattle.qcow2_types.specs.References.{meets, structure};
ghost use Rattle.qcow2_types.specs.Slots.{Live, slot};
ghost use Rattle.qcow2_types.specs.Words.{data_at};
ghost use Rattle.qcow2_alloc.specs.GuestView.{Metadata, IsSound, IsUsed, in_memory, referenced_at_all};
ghost use Rattle.qcow2_steps.specs.Advancing.{MayBeCrashImage};
ghost use Rattle.qcow2_steps.specs.Data.{AreReferencedFor, GivesData, IsHiddenIn, IsKeptFor, IsReferencedFor, KeepsEntries, WritesBeside, copies_at};
ghost use Rattle.qcow2_steps.specs.Values.{memory_value};
ghost use Rattle.qcow2_steps.specs.Words.{IsReserved};

/// Law: if bytes are written outside the header, tables and refcount blocks, the image stays consistent (`IsSound`).
///
/// Every entry, refcount and reference is unchanged, in the file and in memory. Reserved clusters (allocated, and not yet referenced) stay
/// reserved.
///
/// # Crash safety
///
/// A crash image (the file after a crash during the write) has some of the written bytes, and is itself the result of such a write.
pub fn writing_beside_the_structure()
    ensures sound { (m : Metadata) (c k at n : ℕ) (x : Bytes) → IsSound m → WritesBeside m c k at n x → IsSound (record m { file = x }) }
    ensures raw_entries { (m : Metadata) (c k at n : ℕ) (x : Bytes) → IsSound m → WritesBeside m c k at n x → KeepsEntries m x }
    ensures reserved { (m : Metadata) (c k at n : ℕ) (x : Bytes) → IsSound m → WritesBeside m c k at n x
        → (d : ℕ) → IsReserved m d → IsReserved (record m { file = x }) d }
    ensures crash_images { (m : Metadata) (c k at n : ℕ) (x y : Bytes) → WritesBeside m c k at n x
        → ((q : ℕ) → (y q ≡ m.file q) ⊎ (y q ≡ x q)) → WritesBeside m c k at n y }
{}

/// Law: if an L2 entry references a cluster with the COPIED flag, no other entry references the cluster, neither in the file nor in memory.
///
/// The cluster contains no header, table or refcount block. So it can't be a preallocated zero cluster of one guest cluster in memory
/// while the file has data of another guest cluster there. A cluster without references may belong to any guest cluster.
pub fn what_is_copied_is_one_guest_clusters()
    ensures alone { (m : Metadata) (i j c : ℕ) → IsSound m → Live (l2_table m.file m.header.fields) m.header.fields i j
        → 0 < copies_at m (slot m.file m.header.fields i j) c + copies_at m (slot (in_memory m) m.header.fields i j) c
        → IsReferencedFor m (i * entries_of_cluster m.header.fields + j) c × (structure m.file m.header.fields (meets m.header.fields c) ≡ 0) }
    ensures not_referenced { (m : Metadata) (guest c : ℕ) → referenced_at_all m c ≡ 0
        → IsReferencedFor m guest c × (structure m.file m.header.fields (meets m.header.fields c) ≡ 0) }
{}

/// Law: if data is written for some guest bytes, only these guest bytes read differently.
///
/// The written clusters must be consecutive and belong to consecutive guest clusters: no other guest cluster references them. Each guest
/// byte reads as before, or as the byte that was written for it. A byte of a data cluster reads as the file's new byte.
///
/// # Crash safety
///
/// A crash image (the file after a crash during the write) has some of the written bytes. Each guest byte reads as before, or as the byte
/// that was written for it.
pub fn what_is_written_shows_at_its_places()
    ensures memory { (m : Metadata) (first c k at n : ℕ) (x : Bytes) → IsSound m → WritesBeside m c k at n x → AreReferencedFor m first c k
        → (p : ℕ) → (memory_value (record m { file = x }) p ≡ memory_value m p)
        ⊎ GivesData m.header.fields first c at n x p (memory_value (record m { file = x }) p) }
    ensures crash_images { (m : Metadata) (first c k at n : ℕ) (x y : Bytes) → IsSound m → WritesBeside m c k at n x → AreReferencedFor m first c k
        → ((q : ℕ) → (y q ≡ m.file q) ⊎ (y q ≡ x q)) → MayBeCrashImage (GivesData m.header.fields first c at n x) m y m.header }
    ensures written_bytes_read { (m : Metadata) (c k at n p d : ℕ) (copied : Bool) (x : Bytes) → IsSound m → WritesBeside m c k at n x
        → entry (in_memory m) m.header.fields (p / cluster_size m.header.fields) ≡ data_at d copied
        → memory_value (record m { file = x }) p ≡ Some (byte (x (d * cluster_size m.header.fields + p % cluster_size m.header.fields))) }
{}

/// Law: if a cluster is reserved, or is a preallocated zero cluster with the COPIED flag, no guest byte is read from it.
///
/// A preallocated zero cluster is in use: its refcount is greater than its entries on the free list (`IsUsed`). It stays preallocated if
/// bytes are written outside the header, tables and refcount blocks.
pub fn what_no_place_shows()
    ensures kept_is_hidden { (m : Metadata) (guest c : ℕ) → IsSound m → IsKeptFor m guest c → IsHiddenIn m c × IsUsed m c }
    ensures reserved { (m : Metadata) (c : ℕ) → IsSound m → IsReserved m c → IsHiddenIn m c }
    ensures stays { (m : Metadata) (c k at n guest d : ℕ) (x : Bytes) → IsSound m → WritesBeside m c k at n x → IsKeptFor m guest d
        → IsKeptFor (record m { file = x }) guest d }
{}
