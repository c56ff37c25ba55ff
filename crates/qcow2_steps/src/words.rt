//! Laws on setting an entry of a cached L2 table. The file doesn't change. A reserved cluster is allocated, and not yet referenced. "In
//! memory" means with the cached tables and refcount blocks instead of the file's. Definitions: specs/Words.antt.

ghost use Rattle.std.specs.Prelude.{◌≡◌, ◌≢◌, ◌+◌, ◌/◌, ◌≤◌, ◌++◌, ◌∷◌, [], ℕ, false};
ghost use Rattle.qcow2_types.specs.Entries.{entry};
ghost use Rattle.qcow2_types.specs.Header.{cluster_size};
ghost use Rattle.qcow2_types.specs.Pending.{FreeEntry};
ghost use Rattle.qcow2_types.specs.Words.{Mapping};
ghost use Rattle.qcow2_alloc.specs.FreeList.{covers};
ghost use Rattle.qcow2_alloc.specs.Memory.{Cached};
ghost use Rattle.qcow2_alloc.specs.GuestView.{Metadata, IsSound, counted, in_memory, referenced, waiting};
ghost use Rattle.qcow2_steps.specs.Values.{memory_value, own_value_by};
ghost use Rattle.qcow2_steps.specs.Words.{ChangesEntry, DropsNames, IsOfOther, IsOfEntry, IsReserved, LinksCluster, names_at};

/// Law: if a cluster is reserved, a cached L2 entry can be set to reference it.
///
/// The image stays consistent (`IsSound`), and other reserved clusters stay reserved. The refcounts still include the references of the
/// old entry, so the clusters that it referenced can be added to the free list.
pub fn linking_a_reserved_cluster()
    ensures sound { (m : Metadata) (i j x : ℕ) (old : Mapping) (cached' : Cached) → IsSound m → LinksCluster m i j old x cached'
        → IsReserved m x → IsSound (record m { cached = cached' }) }
    ensures owed { (m : Metadata) (i j x : ℕ) (old : Mapping) (cached' : Cached) → IsSound m → LinksCluster m i j old x cached'
        → IsReserved m x → (c : ℕ) → referenced (record m { cached = cached' }) c + waiting m c + names_at m old c ≤ counted m c }
    ensures reserved { (m : Metadata) (i j x : ℕ) (old : Mapping) (cached' : Cached) → LinksCluster m i j old x cached'
        → (c : ℕ) → c ≢ x → IsReserved m c → IsReserved (record m { cached = cached' }) c }
{}

/// Law: if a new mapping references no cluster that the old one didn't, a cached L2 entry can be set to it.
///
/// The image stays consistent (`IsSound`), and all reserved clusters stay reserved. Clusters that the entry no longer references can be
/// added to the free list, as data.
pub fn dropping_a_reference()
    ensures sound { (m : Metadata) (i j : ℕ) (old new : Mapping) (cached' : Cached) → IsSound m → DropsNames m i j old new cached'
        → IsSound (record m { cached = cached' }) }
    ensures reserved { (m : Metadata) (i j : ℕ) (old new : Mapping) (cached' : Cached) → DropsNames m i j old new cached'
        → (c : ℕ) → IsReserved m c → IsReserved (record m { cached = cached' }) c }
    ensures owed { (m : Metadata) (i j : ℕ) (old new : Mapping) (cached' : Cached) → IsSound m → DropsNames m i j old new cached'
        → (c : ℕ) → referenced (record m { cached = cached' }) c + waiting m c + names_at m old c ≤ counted m c + names_at m new c }
    ensures waits { (m : Metadata) (i j : ℕ) (old new : Mapping) (cached' : Cached) (e : FreeEntry) → IsSound m
        → DropsNames m i j old new cached' → e.metadata ≡ false → ((c : ℕ) → names_at m new c + covers c e ≤ names_at m old c)
        → IsSound (record m { cached = cached'; pending = m.pending ++ e ∷ [] }) }
{}

/// Law: if a cached L2 entry is set, its guest cluster reads in memory as the new mapping says, with the bytes of the file.
///
/// All other guest clusters keep their mapping, and read as before.
pub fn what_a_set_entry_shows()
    ensures here { (m : Metadata) (i j p : ℕ) (old new : Mapping) (cached' : Cached) → ChangesEntry m i j old new cached'
        → IsOfEntry m.header.fields i j (p / cluster_size m.header.fields)
        → memory_value (record m { cached = cached' }) p ≡ own_value_by m.file m.header.fields p new }
    ensures elsewhere { (m : Metadata) (i j p : ℕ) (old new : Mapping) (cached' : Cached) → ChangesEntry m i j old new cached'
        → IsOfOther m.header.fields i j (p / cluster_size m.header.fields)
        → memory_value (record m { cached = cached' }) p ≡ memory_value m p }
    ensures raw_entries { (m : Metadata) (i j guest : ℕ) (old new : Mapping) (cached' : Cached) → ChangesEntry m i j old new cached'
        → IsOfOther m.header.fields i j guest
        → entry (in_memory (record m { cached = cached' })) m.header.fields guest ≡ entry (in_memory m) m.header.fields guest }
{}
