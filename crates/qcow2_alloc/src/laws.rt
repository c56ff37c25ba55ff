//! Laws: theorems that callers can use in addition to the contract of each call. The functions do nothing: their contracts are the
//! theorems.
//!
//! The image in memory is the file with all dirty cached tables and blocks written over it. In these laws `counted` is the refcount in
//! memory, and `waiting` the number of free list entries that have a cluster. `referenced` are the references in memory, and
//! `referenced_at_all` those in the file or in memory. The excess refcount of a cluster is its refcount minus its references and list
//! entries. `handed` and `taken` say how it changes: see `GuestUnchanged` (specs/GuestView.antt).

ghost use Rattle.std.specs.Prelude.{◌≡◌, ◌⊎◌, ◌==◌, if◌then◌else◌, ◌≢◌, ℕ, ◌+◌, ◌*◌, ◌/◌, ◌%◌, ◌^◌, ◌<◌, ◌≤◌, Bool, true, false, Some, ⊤, IsTrue, Result, Ok, Err, OnOk, List, [], ◌∷◌, ◌++◌, length, nat_eq, slice_index, slice_set, replicate, None, IsFalse};
ghost use Rattle.std.specs.Int.{w64, to_be_bytes};
ghost use Rattle.std.specs.List.{remove, AllByRecursion, IsDistinct};
ghost use Rattle.std.specs.Option.{option_map};
ghost use Rattle.std.specs.Map.{lookup, keys_of};
ghost use Rattle.imago_storage.specs.State.{StorageState};
ghost use Rattle.imago_storage.specs.Calls.{CountsNotFallen, Cause};
ghost use Rattle.imago_storage.specs.Through.{WriteOutcome, AtomicWriteOutcome};
ghost use Rattle.imago_storage.specs.declared.fault.Fault.{Fault};
ghost use Rattle.qcow2_types.specs.Bytes.{Bytes, bytes_of, splice};
ghost use Rattle.qcow2_types.specs.HeaderBytes.{first_bytes};
ghost use Rattle.qcow2_types.specs.Switched.{with_reftable, with_refcount_table};
ghost use Rattle.qcow2_types.specs.Words.{data_at, zeroes, unmapped, mapping_of, is_damaged, block_offset};
ghost use Rattle.qcow2_types.specs.Header.{Fields, Header, first_fault, rules_of_size, header_of, cluster_size, entries_of_cluster, refcount_table_entries, layout_of};
ghost use Rattle.qcow2_types.specs.Counts.{count, counter, counters_of_block};
ghost use Rattle.qcow2_types.specs.Pending.{FreeEntry};
ghost use Rattle.qcow2_types.specs.References.{meets};
ghost use Rattle.qcow2_types.specs.Slots.{slot};
ghost use Rattle.qcow2_types.specs.Consistency.{IsConsistent, IsVerdict};
ghost use Rattle.qcow2_types.specs.Versions.{references_in_either};
ghost use Rattle.qcow2_metadata.specs.Places.{IsAddressable};
ghost use Rattle.qcow2_metadata.specs.Tables.{TableValue, WhyNotLoaded, l1_table_kind, mapping_in, table_in, table_start, with_raw_entry, raw_entries_in};
ghost use Rattle.qcow2_metadata.specs.Blocks.{Block, BlockPut, counters_in};
ghost use Rattle.qcow2_metadata.specs.Allocations.{kept_where, zeroed_raw_entry};
ghost use Rattle.qcow2_alloc.specs.declared.async_lru_cache.Slot.{Slot};
ghost use Rattle.qcow2_alloc.specs.declared.cache.CacheDependency.{CacheDependency};
ghost use Rattle.qcow2_alloc.specs.declared.cache.CacheDependency.TheVariants.{L2DependsOnRb, RbDependsOnL2};
ghost use Rattle.qcow2_alloc.specs.declared.allocation.Allocator.{Allocator};
ghost use Rattle.qcow2_alloc.specs.Allocators.{LoadsAllocator, table_of};
ghost use Rattle.qcow2_alloc.specs.Cache.{hit};
ghost use Rattle.qcow2_alloc.specs.Causes.{FailsFor};
ghost use Rattle.qcow2_alloc.specs.Crowding.{space, IsRoomy};
ghost use Rattle.qcow2_alloc.specs.HandingOut.{IsFreed};
ghost use Rattle.qcow2_alloc.specs.State.{MetadataWithFirstFree};
ghost use Rattle.qcow2_alloc.specs.Changes.{StaysAsItIs, CachesBlock, SetsCounter, CounterChanged, IsStillCovered, CachesTable, SetsEntry, ReferencesNoMore, ReferencesDropped, ClusterLinked, zeroed, file_with};
ghost use Rattle.qcow2_alloc.specs.Memory.{Cached, memory};
ghost use Rattle.qcow2_alloc.specs.WellFormedness.{WellFormed, IsCrashImage, NoChangeRefused, AreTablesClean, AreBlocksClean, IsSettled};
ghost use Rattle.qcow2_alloc.specs.Going.{WritesBackCached, Always, HadNoResourceError, AreTablesAddressable, AreBlocksAddressable, writing_causes};
ghost use Rattle.qcow2_alloc.specs.Opening.{IsL1Of, opened};
ghost use Rattle.qcow2_alloc.specs.GuestView.{IsTableOf, Metadata, metadata_in, covers_metadata, in_memory, counted, referenced, referenced_at_all, waiting, waiting_metadata, one_at, IsUsed, IsSound, ShowsEither, GuestUnchanged, IsIn, PreservesGuest, many_at};
ghost use Rattle.qcow2_alloc.specs.MakingRoom.{CountsTheSame, IsReadyBlock, BlockLinked, with_block, formerly, newly_counted, IsReadyTable, TableSwitched, with_table, newly, run_of, rank, IsGrownTable};
ghost use Rattle.qcow2_alloc.specs.FreeList.{entry_at, tail_of, shortened, covers, listed};

/// Law: if the cache invariant (`WellFormed`) holds, the offset of each dirty table and block fits an entry. So no flush fails with
/// `Fault::DamagedTable`.
pub fn what_is_well_formed_is_addressable()
    ensures { (f : Bytes) (H : Header) (cached : Cached) (order : CacheDependency) → WellFormed f H cached order → AreTablesAddressable cached
        × AreBlocksAddressable cached }
{}

/// Law: if no cached table or block is dirty, the image in memory and the file are equal.
pub fn what_is_clean_is_in_the_file()
    ensures { (f : Bytes) (h : Fields) (cached : Cached) → AreTablesClean cached → AreBlocksClean cached → memory f h cached ≡ f }
{}

/// Law: if the cache invariant (`WellFormed`) holds, the image in memory (the file with all dirty tables and blocks written) is consistent.
pub fn what_is_in_memory_is_consistent()
    ensures { (f : Bytes) (H : Header) (cached : Cached) (order : CacheDependency) → WellFormed f H cached order
        → IsConsistent (memory f H.fields cached) H }
{}

/// Law: if the cache invariant (`WellFormed`) holds, the refcount of a cluster in memory is the one in the cached block that has it.
pub fn what_a_cached_block_counts()
    ensures { (f : Bytes) (H : Header) (cached : Cached) (order : CacheDependency) (key c : ℕ) (block : Block) → WellFormed f H cached order
        → CachesBlock f H.fields cached key c block
        → count (memory f H.fields cached) H.fields c ≡ slice_index block.counters (c % counters_of_block H.fields) }
{}

/// Law: if the cache invariant (`WellFormed`) holds, each L2 entry means in memory what it means in the cached L2 table.
pub fn what_a_cached_table_means()
    ensures { (f : Bytes) (H : Header) (cached : Cached) (order : CacheDependency) (key i : ℕ) (table : TableValue) → WellFormed f H cached order
        → CachesTable f H.fields cached key i table
        → (j : ℕ) → j < entries_of_cluster H.fields → slot (memory f H.fields cached) H.fields i j ≡ mapping_in table j }
{}

/// Law: if the caches are flushed, no cluster has more references in the file or in memory than before.
pub fn what_is_written_back_references_no_more()
    ensures { (H : Header) (order : CacheDependency) (old new : List ℕ) (cached cached' : Cached) → IsSettled H order old cached new cached'
        → (c : ℕ) → references_in_either (bytes_of new) (memory (bytes_of new) H.fields cached') H.fields c
        ≤ references_in_either (bytes_of old) (memory (bytes_of old) H.fields cached) H.fields c }
{}

/// Law: if a cached table or block is looked up and not changed, the image in memory stays the same, and the cache invariant is kept.
pub fn what_is_used_stays_well_formed()
    ensures tables { (f : Bytes) (H : Header) (cached : Cached) (order : CacheDependency) (key : ℕ) → WellFormed f H cached order
        → (table : TableValue) → option_map (λ s. s.value) (lookup (nat_eq key) cached.tables) ≡ Some table
        → StaysAsItIs f H cached order (record cached { tables = hit (nat_eq key) cached.tables table }) }
    ensures blocks { (f : Bytes) (H : Header) (cached : Cached) (order : CacheDependency) (key : ℕ) → WellFormed f H cached order
        → (block : Block) → option_map (λ s. s.value) (lookup (nat_eq key) cached.blocks) ≡ Some block
        → StaysAsItIs f H cached order (record cached { blocks = hit (nat_eq key) cached.blocks block }) }
{}

/// Law: if blocks are written before tables, incrementing a refcount from 0 in a cached block keeps the cache invariant. The cluster has no
/// references, in the file or in memory, before and after. Nothing else changes in memory.
pub fn raising_a_counter()
    ensures { (f : Bytes) (H : Header) (cached cached' : Cached) (key c : ℕ) → WellFormed f H cached L2DependsOnRb
        → SetsCounter f H.fields cached key c 1 cached' → count (memory f H.fields cached) H.fields c ≡ 0
        → CounterChanged f H L2DependsOnRb cached c 1 cached' × (references_in_either f (memory f H.fields cached) H.fields c ≡ 0) }
{}

/// Law: if a refcount in a cached block still covers the cluster's references after a decrement, the decrement keeps the cache invariant.
/// Nothing else changes in memory.
pub fn decrementing_a_counter()
    ensures { (f : Bytes) (H : Header) (cached cached' : Cached) (order : CacheDependency) (key c n : ℕ) → WellFormed f H cached order
        → SetsCounter f H.fields cached key c n cached' → count (memory f H.fields cached) H.fields c ≡ n + 1
        → IsStillCovered order f (memory f H.fields cached) H.fields c n → CounterChanged f H order cached c n cached' }
{}

/// Law: if an entry of a cached L2 table is set to one that references no other cluster and sets no COPIED flag that wasn't set, the cache
/// invariant is kept. Nothing else changes in memory. Examples are discarding a cluster, zeroing it, and mapping a preallocated zero
/// cluster.
pub fn referencing_less()
    ensures { (f : Bytes) (H : Header) (cached cached' : Cached) (order : CacheDependency) (key i j w : ℕ) → WellFormed f H cached order
        → (sets : SetsEntry f H.fields cached key i j w cached') → w < 2 ^ 64
        → IsFalse (is_damaged (mapping_of (layout_of H.fields) w))
        → ReferencesNoMore H.fields (mapping_in sets.table j) (mapping_of (layout_of H.fields) w)
        → ReferencesDropped (file_with f H order cached) i j (mapping_in sets.table j) (mapping_of (layout_of H.fields) w) cached' }
{}

/// Law: if the entry of a guest cluster is set to 0 in a cached L2 table (discard), no cluster gets more references, and the cache
/// invariant is kept.
pub fn discarding_a_cluster()
    ensures { (f : Bytes) (H : Header) (cached cached' : Cached) (order : CacheDependency) (key i j : ℕ) → WellFormed f H cached order
        → (sets : SetsEntry f H.fields cached key i j 0 cached')
        → ReferencesDropped (file_with f H order cached) i j (mapping_in sets.table j) unmapped cached' }
{}

/// Law: if a guest cluster is zeroed in a cached L2 table (version 3), with or without its host cluster kept as preallocated, no cluster
/// gets more references, and the cache invariant is kept.
pub fn zeroing_a_cluster()
    ensures { (f : Bytes) (H : Header) (cached cached' : Cached) (order : CacheDependency) (key i j : ℕ) → WellFormed f H cached order
        → (w : ℕ) (sets : SetsEntry f H.fields cached key i j w cached') (keep : Bool) → H.fields.version ≡ 3
        → w ≡ zeroed_raw_entry H.fields.cluster_bits (kept_where keep (mapping_in sets.table j))
        → ReferencesDropped (file_with f H order cached) i j (mapping_in sets.table j)
        (zeroed (kept_where keep (mapping_in sets.table j))) cached' }
{}

/// Law: if a guest cluster is mapped to its preallocated zero cluster in a cached L2 table, no cluster gets more references, and the cache
/// invariant is kept.
pub fn mapping_a_kept_cluster()
    ensures { (f : Bytes) (H : Header) (cached cached' : Cached) (order : CacheDependency) (key i j : ℕ) → WellFormed f H cached order
        → (x : ℕ) (sets : SetsEntry f H.fields cached key i j (2 ^ 63 + x * cluster_size H.fields) cached')
        → x ≢ 0 → IsAddressable H.fields.cluster_bits x → mapping_in sets.table j ≡ zeroes (Some x) true
        → ReferencesDropped (file_with f H order cached) i j (zeroes (Some x) true) (data_at x true) cached' }
{}

/// Law: if a data cluster has no references, in the file or in memory, and a refcount above 0 in memory, an entry of a cached L2 table may
/// be set to reference it, as `L2TableWriteGuard::map_cluster` does. The cache invariant is kept, and nothing else changes in memory.
pub fn linking_a_cluster()
    ensures { (f : Bytes) (H : Header) (cached cached' : Cached) (order : CacheDependency) (key i j x : ℕ) → WellFormed f H cached order
        → (sets : SetsEntry f H.fields cached key i j (2 ^ 63 + x * cluster_size H.fields) cached')
        → x ≢ 0 → IsAddressable H.fields.cluster_bits x → references_in_either f (memory f H.fields cached) H.fields x ≡ 0
        → 1 ≤ count (memory f H.fields cached) H.fields x
        → ClusterLinked (file_with f H order cached) i j (mapping_in sets.table j) x cached' }
{}

/// Law: if an entry is added to the free list, removed or shortened, the number of list entries that have a cluster changes by that entry's
/// clusters. An entry has the clusters that its bytes touch.
pub fn entries_count_one_by_one()
    ensures empty { (c : ℕ) → listed [] c ≡ 0 }
    ensures pushed { (entries : List FreeEntry) (e : FreeEntry) (c : ℕ) → listed (entries ++ e ∷ []) c ≡ listed entries c + covers c e }
    ensures removed { (entries : List FreeEntry) (index c : ℕ) → index < length entries
        → listed (remove entries index) c + covers c (entry_at entries index) ≡ listed entries c }
    ensures shortened { (entries : List FreeEntry) (index n c : ℕ) → index < length entries → n ≤ (entry_at entries index).count
        → listed (shortened entries index n) c + covers c (tail_of (entry_at entries index) n) ≡ listed entries c }
    ensures none { (c : ℕ) (e : FreeEntry) → e.count ≡ 0 → covers c e ≡ 0 }
    ensures one { (c : ℕ) (e : FreeEntry) → e.count ≡ 1 → covers c e ≡ (if c == e.first then 1 else 0) }
    ensures met { (h : Fields) (c : ℕ) (e : FreeEntry) → covers c e ≡ meets h c (e.first * cluster_size h) (e.count * cluster_size h) }
{}

/// Law: if the cache invariant (`WellFormed`) holds, the refcount table in memory is the file's and the free list is empty, the image is
/// consistent (`IsSound`).
pub fn what_is_well_formed_is_sound()
    ensures { (f : Bytes) (H : Header) (cached : Cached) (order : CacheDependency) (table : TableValue) → WellFormed f H cached order
        → IsTableOf f H.fields table
        → IsSound (record { file = f; header = H; cached = cached; order = order; table = table; pending = [] }) }
{}

/// Law: if `check` accepts an image, it is consistent right after it is opened: with the header that loads from it, for reading or for
/// writing, new caches and a new allocator. The allocator and the L1 table fail to load only with `Fault::Memory` or `Fault::Storage`. The
/// L1 table has the entries of the file.
pub fn what_a_checker_accepts_opens_sound()
    ensures consistent { (f : Bytes) (found : List (ℕ × ℕ)) (writing : Bool) (H : Header) → IsVerdict f (Ok found)
        → header_of writing f ≡ Ok H → IsConsistent f H }
    ensures sound { (s s' : StorageState) (found : List (ℕ × ℕ)) (writing : Bool) (H : Header) (allocator : Allocator)
        → IsVerdict (bytes_of s.bytes) (Ok found) → header_of writing (bytes_of s.bytes) ≡ Ok H
        → LoadsAllocator s H.fields (Ok allocator) s' → IsSound (opened (bytes_of s'.bytes) H (table_of allocator)) }
    ensures allocator { (s s' : StorageState) (H : Header) (fault : Fault) → IsConsistent (bytes_of s.bytes) H
        → LoadsAllocator s H.fields (Err fault) s' → Cause s.faults s'.faults fault }
    ensures l1 { (f : Bytes) (H : Header) → IsConsistent f H
        → IsL1Of f H.fields (table_in f H.fields (H.fields.l1_offset / cluster_size H.fields) H.fields.l1_entries) }
    ensures l1_refused { (f : Bytes) (H : Header) (before after : ℕ) (fault : Fault) → IsConsistent f H
        → WhyNotLoaded l1_table_kind (layout_of H.fields) (raw_entries_in f
        (H.fields.l1_offset / cluster_size H.fields * cluster_size H.fields) H.fields.l1_entries) before after fault
        → Cause before after fault }
{}

/// Law: if an image is consistent, its file, and each crash image that a flush can leave, reads the same as the image.
pub fn what_is_left_shows_the_same()
    ensures left { (m : Metadata) (x : Bytes) → IsSound m → IsCrashImage m.file (in_memory m) m.header x → ShowsEither m x m.header }
    ensures file { (m : Metadata) → IsSound m → ShowsEither m m.file m.header }
{}

/// Law: if nothing happens, if cached entries are used and not changed, or if the caches are flushed, the image stays consistent and the
/// guest reads the same bytes. It also does if the write order changes and the cache invariant holds for the new order. No excess refcount
/// changes.
pub fn what_stays_leaves_the_guest_unchanged()
    ensures none { (m : Metadata) → IsSound m → GuestUnchanged (λ _. 0) (λ _. 0) m m }
    ensures used { (m : Metadata) (cached' : Cached) → IsSound m → StaysAsItIs m.file m.header m.cached m.order cached'
        → IsSound (record m { cached = cached' }) × GuestUnchanged (λ _. 0) (λ _. 0) m (record m { cached = cached' }) }
    ensures order { (m : Metadata) (order' : CacheDependency) → IsSound m → WellFormed m.file m.header m.cached order'
        → IsSound (record m { order = order' }) × GuestUnchanged (λ _. 0) (λ _. 0) m (record m { order = order' }) }
    ensures settled { (m : Metadata) (old new : List ℕ) (cached' : Cached) → m.file ≡ bytes_of old → IsSound m
        → IsSettled m.header m.order old m.cached new cached'
        → IsSound (record m { file = bytes_of new; cached = cached' })
        × GuestUnchanged (λ _. 0) (λ _. 0) m (record m { file = bytes_of new; cached = cached' }) }
{}

/// Law: if the caches are flushed, the guest reads the same bytes, also from each crash image. After an error it does if the storage
/// exposes its crash images and no change of the storage has failed.
///
/// Lookups in the caches that end without a resource error (`Fault::Memory`, `Fault::Storage`), changes of the write order, and changes of
/// memory only leave guest data unchanged, too. A write that ends without a resource error has succeeded, as the offset of each cluster of
/// a consistent image fits an entry.
pub fn what_preserves_the_guest()
    ensures flushes { (m : Metadata) (result : Result Unit Fault) (old new : StorageState) (cached' : Cached) → IsIn old m
        → WritesBackCached m.header m.order Always (result ≡ Ok tt) old m.cached new cached'
        → PreservesGuest ((result ≡ Ok tt) ⊎ NoChangeRefused old new) (λ _. 0) (λ _. 0) old m new
        (record m { file = bytes_of new.bytes; cached = cached' }) }
    ensures found { (m : Metadata) (result : Result Unit Fault) (old new : StorageState) (cached' : Cached) → IsIn old m
        → WritesBackCached m.header m.order Always (HadNoResourceError result) old m.cached new cached'
        → PreservesGuest (HadNoResourceError result) (λ _. 0) (λ _. 0) old m new (record m { file = bytes_of new.bytes; cached = cached' }) }
    ensures announced { (m : Metadata) (order' : CacheDependency) (result : Result Unit Fault) (old new : StorageState) (cached' : Cached)
        → IsIn old m → WritesBackCached m.header m.order Always (result ≡ Ok tt) old m.cached new cached'
        → OnOk result ((f : Bytes) (H : Header) → WellFormed f H cached' m.order → WellFormed f H cached' order')
        → PreservesGuest (result ≡ Ok tt) (λ _. 0) (λ _. 0) old m new (record m { file = bytes_of new.bytes; cached = cached'; order = order' }) }
    ensures whole { (m : Metadata) (before after : ℕ) (result : Result Unit Fault) (handed taken : ℕ → ℕ) (old new : StorageState)
        (m' : Metadata) → FailsFor (writing_causes (AreTablesAddressable m.cached × AreBlocksAddressable m.cached) before after) result
        → PreservesGuest (result ≡ Ok tt) handed taken old m new m' → PreservesGuest (HadNoResourceError result) handed taken old m new m' }
    ensures memory { (handed taken : ℕ → ℕ) (s : StorageState) (m m' : Metadata) → (IsSound m → IsSound m' × GuestUnchanged handed taken m m')
        → PreservesGuest ⊤ handed taken s m s m' }
{}

/// Law: if guest data is unchanged from one image to another, a file that reads like the second reads like the first. No referenced cluster
/// may be among the taken ones (`GuestUnchanged`).
pub fn unchanged_guest_reads_the_same()
    ensures { (m m' : Metadata) (handed taken : ℕ → ℕ) → GuestUnchanged handed taken m m' → IsSound m
        → ((c : ℕ) → 0 < referenced m c → taken c ≡ 0) → (x : Bytes) (H : Header) → ShowsEither m' x H → ShowsEither m x H }
{}

/// Law: if each of two consecutive changes leaves guest data unchanged, the pair leaves it unchanged too, and their changes of the excess
/// refcounts (refcount minus references and list entries) add up. These may be stated differently if the difference is equal and no used
/// cluster (`IsUsed`) is affected. An example is a cluster that was allocated and then taken.
pub fn unchanged_guest_adds_up()
    ensures then { (m m' m'' : Metadata) (h t h' t' : ℕ → ℕ) → IsSound m → IsSound m' → ((c : ℕ) → 0 < referenced m c → t c ≡ 0)
        → GuestUnchanged h t m m' → GuestUnchanged h' t' m' m'' → GuestUnchanged (λ c. h c + h' c) (λ c. t c + t' c) m m'' }
    ensures used { (m m' : Metadata) (handed taken : ℕ → ℕ) → GuestUnchanged handed taken m m' → IsSound m → IsSound m' → (c : ℕ) → IsUsed m c
        → taken c ≡ 0 → IsUsed m' c }
    ensures otherwise { (m m' : Metadata) (handed taken h t : ℕ → ℕ) → ((c : ℕ) → handed c + t c ≡ h c + taken c)
        → ((c : ℕ) → IsUsed m c → t c ≡ 0 → taken c ≡ 0) → GuestUnchanged handed taken m m' → GuestUnchanged h t m m' }
    ensures cancelled { (m m' : Metadata) (h t both : ℕ → ℕ) → ((c : ℕ) → IsUsed m c → both c ≡ 0)
        → GuestUnchanged (λ c. h c + both c) (λ c. t c + both c) m m' → GuestUnchanged h t m m' }
{}

/// Law: if guest data is unchanged, a cluster that is used and not taken gets no new references. So an allocated cluster stays unreferenced
/// until its owner links it: it is used, as its refcount is greater than the number of its list entries.
pub fn what_is_used_is_not_newly_referenced()
    ensures names { (m m' : Metadata) (handed taken : ℕ → ℕ) → GuestUnchanged handed taken m m' → (c : ℕ) → IsUsed m c → taken c ≡ 0
        → referenced_at_all m' c ≤ referenced_at_all m c }
    ensures not_referenced { (m : Metadata) (c : ℕ) → waiting m c < counted m c → referenced_at_all m c ≡ 0 → IsUsed m c }
{}

/// Law: if each of two successive calls leaves guest data unchanged, and the first ends without a resource error (`Fault::Memory`,
/// `Fault::Storage`), the pair leaves it unchanged too, and their changes of the excess refcounts (refcount minus references and list
/// entries) add up. If the second call ends with a resource error, the storage must expose its crash images, and no change of it may have
/// failed.
pub fn what_preserves_the_guest_adds_up()
    ensures then { (first second : Result Unit Fault) (h t h' t' : ℕ → ℕ) (s : StorageState) (m : Metadata) (s' : StorageState)
        (m' : Metadata) (s'' : StorageState) (m'' : Metadata) → HadNoResourceError first → (IsSound m → (c : ℕ) → 0 < referenced m c → t c ≡ 0)
        → PreservesGuest (HadNoResourceError first) h t s m s' m' → PreservesGuest (HadNoResourceError second) h' t' s' m' s'' m''
        → PreservesGuest (HadNoResourceError second) (λ c. h c + h' c) (λ c. t c + t' c) s m s'' m'' }
    ensures no_change_refused { (first second : Result Unit Fault) (h t h' t' : ℕ → ℕ) (s : StorageState) (m : Metadata) (s' : StorageState)
        (m' : Metadata) (s'' : StorageState) (m'' : Metadata) → HadNoResourceError first → (IsSound m → (c : ℕ) → 0 < referenced m c → t c ≡ 0)
        → PreservesGuest (HadNoResourceError first ⊎ NoChangeRefused s s') h t s m s' m' → PreservesGuest (HadNoResourceError second ⊎ NoChangeRefused s' s'') h' t' s' m' s'' m''
        → PreservesGuest (HadNoResourceError second ⊎ NoChangeRefused s s'') (λ c. h c + h' c) (λ c. t c + t' c) s m s'' m'' }
    ensures otherwise { (result : Result Unit Fault) (handed taken h t : ℕ → ℕ) (s : StorageState) (m : Metadata) (s' : StorageState)
        (m' : Metadata) → (IsSound m → (c : ℕ) → handed c + t c ≡ h c + taken c)
        → (IsSound m → (c : ℕ) → IsUsed m c → t c ≡ 0 → taken c ≡ 0) → PreservesGuest (HadNoResourceError result) handed taken s m s' m'
        → PreservesGuest (HadNoResourceError result) h t s m s' m' }
{}

/// Law: if a cluster is on the free list, and its entry is metadata or tables are written before blocks, its refcount may be decremented in
/// a cached block. The cluster leaves the list, the image stays consistent, and the guest reads the same bytes.
pub fn freeing_a_cluster()
    ensures { (m : Metadata) (key c n : ℕ) (cached' : Cached) (pending' : List FreeEntry) → IsSound m → (m.order ≡ RbDependsOnL2)
        ⊎ (0 < waiting_metadata m c) → SetsCounter m.file m.header.fields m.cached key c n cached' → counted m c ≡ n + 1
        → ((d : ℕ) → listed pending' d + one_at c d ≡ waiting m d) → ((d : ℕ) → listed (metadata_in pending') d ≤ waiting_metadata m d)
        → IsSound (record m { cached = cached'; pending = pending' })
        × GuestUnchanged (λ _. 0) (λ _. 0) m (record m { cached = cached'; pending = pending' }) }
{}

/// Law: if blocks are written before tables, a refcount of a cached block may be incremented from 0, which allocates the cluster. The image
/// stays consistent, the guest reads the same bytes, and nothing references the cluster.
pub fn allocating_a_cluster()
    ensures { (m : Metadata) (key c : ℕ) (cached' : Cached) → IsSound m → m.order ≡ L2DependsOnRb
        → SetsCounter m.file m.header.fields m.cached key c 1 cached' → counted m c ≡ 0
        → IsSound (record m { cached = cached' }) × GuestUnchanged (one_at c) (λ _. 0) m (record m { cached = cached' }) × (referenced_at_all m c ≡ 0) }
{}

/// Law: if the refcount of an allocated cluster still covers its references and its list entries after a decrement, the cluster may be
/// taken back by that decrement. The image stays consistent, and the guest reads the same bytes.
pub fn taking_back_a_cluster()
    ensures { (m : Metadata) (key c n : ℕ) (cached' : Cached) → IsSound m → SetsCounter m.file m.header.fields m.cached key c n cached'
        → counted m c ≡ n + 1 → referenced_at_all m c + waiting m c ≤ n
        → IsSound (record m { cached = cached' }) × GuestUnchanged (λ _. 0) (one_at c) m (record m { cached = cached' }) }
{}

/// Law: if a leaked cluster's refcount is lowered by its excess, or by a part of it, the image stays consistent, and the guest reads the
/// same bytes. The lower refcount still covers the cluster's references and its list entries.
pub fn decrementing_what_leaks()
    ensures { (m : Metadata) (key c n by : ℕ) (cached' : Cached) → IsSound m → SetsCounter m.file m.header.fields m.cached key c n cached'
        → counted m c ≡ n + by → referenced_at_all m c + waiting m c ≤ n
        → IsSound (record m { cached = cached' }) × GuestUnchanged (λ _. 0) (many_at c by) m (record m { cached = cached' }) }
{}

/// Law: if an entry is added to the free list, removed or shortened, the number of metadata entries that have a cluster changes by that
/// entry's clusters. If a run gets one more cluster, that cluster has one more entry.
pub fn entries_of_metadata_count_one_by_one()
    ensures pushed { (entries : List FreeEntry) (e : FreeEntry) (c : ℕ)
        → listed (metadata_in (entries ++ e ∷ [])) c ≡ listed (metadata_in entries) c + covers_metadata c e }
    ensures removed { (entries : List FreeEntry) (index c : ℕ) → index < length entries
        → listed (metadata_in (remove entries index)) c + covers_metadata c (entry_at entries index) ≡ listed (metadata_in entries) c }
    ensures shortened { (entries : List FreeEntry) (index n c : ℕ) → index < length entries → n ≤ (entry_at entries index).count
        → listed (metadata_in (shortened entries index n)) c + covers_metadata c (tail_of (entry_at entries index) n)
        ≡ listed (metadata_in entries) c }
    ensures more { (c first count : ℕ) (metadata : Bool)
        → covers c (record { first = first; count = count + 1; metadata = metadata })
        ≡ covers c (record { first = first; count = count; metadata = metadata }) + one_at (first + count) c }
{}

/// Law: if refcounts cover a new entry of the free list, in addition to the references and the other entries, it may be added. Clusters of
/// metadata must have no references. The image stays consistent, and the entry's clusters are taken: their excess refcount falls.
pub fn deferring_a_free()
    ensures { (m : Metadata) (e : FreeEntry) → IsSound m → ((c : ℕ) → referenced m c + waiting m c + covers c e ≤ counted m c)
        → ((c : ℕ) → 0 < covers_metadata c e → referenced_at_all m c ≡ 0)
        → IsSound (record m { pending = m.pending ++ e ∷ [] })
        × GuestUnchanged (λ _. 0) (λ c. covers c e) m (record m { pending = m.pending ++ e ∷ [] }) }
{}

/// Law: if blocks are written before tables, a cluster with refcount 0 in memory has no references, is on no list entry, and isn't used.
///
/// Flushes change no refcount in memory, and add no references. If no block is dirty, the refcounts in the file are those in memory.
pub fn what_is_uncounted_is_free()
    ensures free { (m : Metadata) → IsSound m → m.order ≡ L2DependsOnRb → (c : ℕ) → counted m c ≡ 0 → (referenced_at_all m c ≡ 0)
        × (waiting m c ≡ 0) × (IsUsed m c → ⊥) }
    ensures flushed { (m : Metadata) (old new : List ℕ) (cached' : Cached) → m.file ≡ bytes_of old
        → IsSettled m.header m.order old m.cached new cached' → (c : ℕ)
        → (counted (record m { file = bytes_of new; cached = cached' }) c ≡ counted m c)
        × (referenced_at_all (record m { file = bytes_of new; cached = cached' }) c ≤ referenced_at_all m c) }
    ensures clean { (m : Metadata) → IsSound m → AreBlocksClean m.cached → (c : ℕ) → counted m c ≡ count m.file m.header.fields c }
{}

/// Law: if a write leaves guest data unchanged on success, it does so whenever it ends without a resource error (`Fault::Memory`,
/// `Fault::Storage`).
pub fn what_is_written_preserves_the_guest()
    ensures { (m m' : Metadata) (handed taken : ℕ → ℕ) (old new : StorageState) (at : ℕ) (bytes : List ℕ) (result : Result Unit Fault)
        → WriteOutcome old new at bytes result
        → PreservesGuest (result ≡ Ok tt) handed taken old m new m' → PreservesGuest (HadNoResourceError result) handed taken old m new m' }
{}

/// Law: if nothing references clusters `c` to `c + k`, in the file or in memory, they may be written by any number of requests. Guest data,
/// refcounts and references are unchanged. `taken` must include those of the clusters that are used (`IsUsed`).
pub fn writing_free_clusters()
    ensures preserves_guest { (m : Metadata) (c k at : ℕ) (bytes : List ℕ) (taken : ℕ → ℕ) (old new : StorageState) → IsIn old m
        → c * cluster_size m.header.fields ≤ at → at + length bytes ≤ (c + k + 1) * cluster_size m.header.fields
        → (IsSound m → (d : ℕ) → c ≤ d → d ≤ c + k → (referenced_at_all m d ≡ 0) × (IsUsed m d → 0 < taken d))
        → (result : Result Unit Fault) → WriteOutcome old new at bytes result
        → PreservesGuest (result ≡ Ok tt) taken taken old m new (record m { file = bytes_of new.bytes }) }
    ensures counts { (m : Metadata) (c k at : ℕ) (bytes : List ℕ) (taken : ℕ → ℕ) (old new : StorageState) → IsIn old m
        → c * cluster_size m.header.fields ≤ at → at + length bytes ≤ (c + k + 1) * cluster_size m.header.fields
        → (IsSound m → (d : ℕ) → c ≤ d → d ≤ c + k → (referenced_at_all m d ≡ 0) × (IsUsed m d → 0 < taken d))
        → (result : Result Unit Fault) → WriteOutcome old new at bytes result → IsTrue old.shape.keeps → IsSound m → result ≡ Ok tt
        → CountsTheSame m (record m { file = bytes_of new.bytes }) }
{}

/// Law: if nothing references a cluster, in the file or in memory, a block may be written to it, to be linked later. The file then has the
/// block's refcounts there. `taken` must include the cluster if it is used (`IsUsed`).
pub fn writing_a_new_block()
    ensures preserves_guest { (m : Metadata) (d : ℕ) (block : Block) (old new : StorageState) → IsIn old m
        → block.order ≡ m.header.fields.refcount_order → length block.counters ≡ counters_of_block m.header.fields
        → (taken : ℕ → ℕ) → (IsSound m → (referenced_at_all m d ≡ 0) × (IsUsed m d → 0 < taken d))
        → (result : Result Unit Fault) → BlockPut block (d * cluster_size m.header.fields) old new result
        → PreservesGuest (result ≡ Ok tt) taken taken old m new (record m { file = bytes_of new.bytes }) }
    ensures counts { (m : Metadata) (d : ℕ) (block : Block) (old new : StorageState) → IsIn old m
        → block.order ≡ m.header.fields.refcount_order → length block.counters ≡ counters_of_block m.header.fields
        → (taken : ℕ → ℕ) → (IsSound m → (referenced_at_all m d ≡ 0) × (IsUsed m d → 0 < taken d))
        → (result : Result Unit Fault) → BlockPut block (d * cluster_size m.header.fields) old new result → IsTrue old.shape.keeps
        → IsSound m → result ≡ Ok tt
        → CountsTheSame m (record m { file = bytes_of new.bytes })
        × (counters_in (bytes_of new.bytes) m.header.fields (d * cluster_size m.header.fields) ≡ block.counters) }
{}

/// Law: if the refcounts of a new block are all 0, or only that of its own cluster is 1, they are those that `IsReadyBlock` requires. A
/// block that is cached for the cluster has these refcounts.
pub fn what_a_new_block_counts()
    ensures each { (f : Bytes) (h : Fields) (place : ℕ) (counters : List ℕ) → counters_in f h place ≡ counters → (j : ℕ)
        → j < counters_of_block h → counter f h place j ≡ slice_index counters j }
    ensures zeroes { (m : Metadata) → IsSound m → (i d : ℕ) → d / counters_of_block m.header.fields ≢ i
        → counters_in m.file m.header.fields (d * cluster_size m.header.fields) ≡ replicate (counters_of_block m.header.fields) 0
        → (c : ℕ) → c / counters_of_block m.header.fields ≡ i
        → counter m.file m.header.fields (d * cluster_size m.header.fields) (c % counters_of_block m.header.fields) ≡ one_at d c }
    ensures itself { (m : Metadata) → IsSound m → (i d : ℕ) → d / counters_of_block m.header.fields ≡ i
        → counters_in m.file m.header.fields (d * cluster_size m.header.fields)
        ≡ slice_set (replicate (counters_of_block m.header.fields) 0) (d % counters_of_block m.header.fields) 1
        → (c : ℕ) → c / counters_of_block m.header.fields ≡ i
        → counter m.file m.header.fields (d * cluster_size m.header.fields) (c % counters_of_block m.header.fields) ≡ one_at d c }
    ensures uncached { (key : ℕ) (blocks : List (ℕ × Slot Block)) (counters : List ℕ) → lookup (nat_eq key) blocks ≡ None
        → AllByRecursion (λ e. e.0 ≡ key → e.1.value.counters ≡ counters) blocks }
    ensures cached { (key : ℕ) (blocks : List (ℕ × Slot Block)) (block : Block) → IsDistinct nat_eq (keys_of blocks)
        → option_map (λ s. s.value) (lookup (nat_eq key) blocks) ≡ Some block
        → AllByRecursion (λ e. e.0 ≡ key → e.1.value.counters ≡ block.counters) blocks }
{}

/// Law: if a cluster is prepared as a block (`IsReadyBlock`), an empty entry of the refcount table may be set to reference it, by one
/// request. If another block counts the cluster, the cluster was allocated before and is taken. If the block counts itself, linking it
/// makes its refcount 1. No other refcount or reference changes.
pub fn linking_a_block()
    ensures counted { (m : Metadata) (i d : ℕ) (modified : Bool) (old new : StorageState) → IsIn old m → (IsSound m → IsReadyBlock m i d)
        → d / counters_of_block m.header.fields ≢ i
        → (result : Result Unit Fault) → AtomicWriteOutcome old new (table_start (with_raw_entry m.table i (d * cluster_size m.header.fields)) + 8 * i)
        (to_be_bytes w64 (slice_index (with_raw_entry m.table i (d * cluster_size m.header.fields)).raw_entries i)) result
        → PreservesGuest (result ≡ Ok tt) (λ _. 0) (one_at d) old m new (with_block m i d modified (bytes_of new.bytes)) }
    ensures own { (m : Metadata) (i d : ℕ) (modified : Bool) (old new : StorageState) → IsIn old m → (IsSound m → IsReadyBlock m i d)
        → d / counters_of_block m.header.fields ≡ i
        → (result : Result Unit Fault) → AtomicWriteOutcome old new (table_start (with_raw_entry m.table i (d * cluster_size m.header.fields)) + 8 * i)
        (to_be_bytes w64 (slice_index (with_raw_entry m.table i (d * cluster_size m.header.fields)).raw_entries i)) result
        → PreservesGuest (result ≡ Ok tt) (λ _. 0) (λ _. 0) old m new (with_block m i d modified (bytes_of new.bytes)) }
    ensures names { (m : Metadata) (i d : ℕ) (modified : Bool) (old new : StorageState) → IsIn old m → (IsSound m → IsReadyBlock m i d)
        → IsTrue old.shape.keeps → IsSound m
        → (result : Result Unit Fault) → AtomicWriteOutcome old new (table_start (with_raw_entry m.table i (d * cluster_size m.header.fields)) + 8 * i)
        (to_be_bytes w64 (slice_index (with_raw_entry m.table i (d * cluster_size m.header.fields)).raw_entries i)) result
        → result ≡ Ok tt → BlockLinked m (with_block m i d modified (bytes_of new.bytes)) i d }
{}

/// Law: if a new refcount table is prepared (`IsReadyTable`) and the header that references it loads, the header may be set to that, by one
/// request of its first bytes.
///
/// Nothing references the old table's clusters then, and their refcounts stay the same, which is their excess. Clusters of the new table
/// and the new blocks that an old block counts were allocated before, and are taken. The new header loads if it keeps the size limits, as
/// the old one does.
pub fn switching_the_table()
    ensures preserves_guest { (m : Metadata) (table : TableValue) (t n : ℕ) (old new : StorageState) → IsIn old m
        → (IsSound m → IsReadyTable m table t n)
        → (IsSound m → header_of true (splice m.file 0 (first_bytes (with_reftable m.header.fields (t * cluster_size m.header.fields) n)))
        ≡ Ok (with_refcount_table m.header (t * cluster_size m.header.fields) n))
        → (result : Result Unit Fault) → AtomicWriteOutcome old new 0
        (first_bytes (with_reftable m.header.fields (t * cluster_size m.header.fields) n)) result
        → PreservesGuest (result ≡ Ok tt) (formerly m) (newly_counted m t n) old m new (with_table m table t n (bytes_of new.bytes)) }
    ensures names { (m : Metadata) (table : TableValue) (t n : ℕ) (old new : StorageState) → IsIn old m
        → (IsSound m → IsReadyTable m table t n)
        → (IsSound m → header_of true (splice m.file 0 (first_bytes (with_reftable m.header.fields (t * cluster_size m.header.fields) n)))
        ≡ Ok (with_refcount_table m.header (t * cluster_size m.header.fields) n))
        → IsTrue old.shape.keeps → IsSound m → (result : Result Unit Fault)
        → AtomicWriteOutcome old new 0 (first_bytes (with_reftable m.header.fields (t * cluster_size m.header.fields) n)) result
        → result ≡ Ok tt → TableSwitched m (with_table m table t n (bytes_of new.bytes)) t n }
    ensures loads { (m : Metadata) (t n : ℕ) → IsSound m → ((p : ℕ) → m.file p < 256)
        → first_fault (rules_of_size (with_reftable m.header.fields (t * cluster_size m.header.fields) n)) ≡ None
        → header_of true (splice m.file 0 (first_bytes (with_reftable m.header.fields (t * cluster_size m.header.fields) n)))
        ≡ Ok (with_refcount_table m.header (t * cluster_size m.header.fields) n) }
    ensures limits { (m : Metadata) → IsSound m → first_fault (rules_of_size m.header.fields) ≡ None }
{}

/// Law: if a refcount table has grown, with new blocks before it (`IsGrownTable`), it is prepared to replace the old one. That adds a
/// reference to each cluster of the new blocks and the table. An old block counts each of these clusters, except those that the new blocks
/// count.
pub fn what_has_grown_is_ready()
    ensures ready { (m : Metadata) (table : TableValue) (s n : ℕ) (new : ℕ → Bool) → IsSound m → IsGrownTable m table s new n
        → IsReadyTable m table (s + rank new (length table.raw_entries)) n }
    ensures run { (m : Metadata) (table : TableValue) (s n : ℕ) (new : ℕ → Bool) → IsSound m → IsGrownTable m table s new n → (c : ℕ)
        → newly m (s + rank new (length table.raw_entries)) n c ≡ covers c (run_of s (rank new (length table.raw_entries) + n)) }
    ensures old { (m : Metadata) (table : TableValue) (s n : ℕ) (new : ℕ → Bool) → IsSound m → IsGrownTable m table s new n → (c : ℕ)
        → new (c / counters_of_block m.header.fields) ≡ false
        → newly_counted m (s + rank new (length table.raw_entries)) n c ≡ covers c (run_of s (rank new (length table.raw_entries) + n)) }
    ensures new { (m : Metadata) (table : TableValue) (s n : ℕ) (new : ℕ → Bool) → IsSound m → IsGrownTable m table s new n → (c : ℕ)
        → new (c / counters_of_block m.header.fields) ≡ true → newly_counted m (s + rank new (length table.raw_entries)) n c ≡ 0 }
{}

/// Law: if the refcount table was replaced, the clusters of the old one may be added to the free list. The image stays consistent, and the
/// guest reads the same bytes.
pub fn the_old_table_waits_to_be_freed()
    ensures { (m : Metadata) (table : TableValue) (t n : ℕ) (x : Bytes) → IsSound m → IsReadyTable m table t n
        → TableSwitched m (with_table m table t n x) t n → IsSound (with_table m table t n x)
        → IsSound (record (with_table m table t n x) {
          pending = m.pending
              ++ run_of (m.header.fields.refcount_table_offset / cluster_size m.header.fields) m.header.fields.refcount_table_clusters ∷ [];
        })
        × GuestUnchanged (λ _. 0) (λ c. covers c (run_of (m.header.fields.refcount_table_offset / cluster_size m.header.fields)
        m.header.fields.refcount_table_clusters)) (with_table m table t n x)
        (record (with_table m table t n x) {
          pending = m.pending
              ++ run_of (m.header.fields.refcount_table_offset / cluster_size m.header.fields) m.header.fields.refcount_table_clusters ∷ [];
        }) }
{}

/// Law: if a storage keeps what is written and the image was consistent, a proof that the second of two calls leaves guest data unchanged
/// may use the outcome of the first.
pub fn what_preserves_the_guest_may_use_what_was_done()
    ensures given { (result : Result Unit Fault) (handed taken : ℕ → ℕ) (s : StorageState) (m : Metadata) (s' : StorageState)
        (m' : Metadata) → s'.shape ≡ s.shape → CountsNotFallen s s'
        → (IsTrue s.shape.keeps → IsSound m → PreservesGuest (result ≡ Ok tt) handed taken s m s' m')
        → PreservesGuest (result ≡ Ok tt) handed taken s m s' m' }
    ensures then { (first second : Result Unit Fault) (h t h' t' : ℕ → ℕ) (s : StorageState) (m : Metadata) (s' : StorageState)
        (m' : Metadata) (s'' : StorageState) (m'' : Metadata) → first ≡ Ok tt → (IsSound m → (c : ℕ) → 0 < referenced m c → t c ≡ 0)
        → PreservesGuest (first ≡ Ok tt) h t s m s' m' → s''.shape ≡ s'.shape → CountsNotFallen s' s''
        → (IsTrue s.shape.keeps → IsSound m → IsSound m' → GuestUnchanged h t m m' → PreservesGuest (second ≡ Ok tt) h' t' s' m' s'' m'')
        → PreservesGuest (second ≡ Ok tt) (λ c. h c + h' c) (λ c. t c + t' c) s m s'' m'' }
{}

/// Law: if blocks are written before tables, and no block is cached for a cluster, a block that counts its own cluster may be written there
/// and then linked. No other block may count the cluster. No excess refcount changes.
pub fn making_a_block_that_counts_itself()
    ensures { (m : Metadata) (d : ℕ) (block : Block) (modified : Bool) (old mid new : StorageState) → IsIn old m
        → block.order ≡ m.header.fields.refcount_order
        → block.counters ≡ slice_set (replicate (counters_of_block m.header.fields) 0) (d % counters_of_block m.header.fields) 1
        → m.order ≡ L2DependsOnRb
        → d / counters_of_block m.header.fields < refcount_table_entries m.header.fields
        → block_offset (slice_index m.table.raw_entries (d / counters_of_block m.header.fields)) ≡ 0
        → d ≢ 0 → IsAddressable m.header.fields.cluster_bits d → lookup (nat_eq d) m.cached.blocks ≡ None
        → (done : Result Unit Fault) → done ≡ Ok tt → BlockPut block (d * cluster_size m.header.fields) old mid done
        → (result : Result Unit Fault) → AtomicWriteOutcome mid new
        (table_start (with_raw_entry m.table (d / counters_of_block m.header.fields)
        (d * cluster_size m.header.fields)) + 8 * (d / counters_of_block m.header.fields))
        (to_be_bytes w64 (slice_index (with_raw_entry m.table (d / counters_of_block m.header.fields) (d * cluster_size m.header.fields)).raw_entries
        (d / counters_of_block m.header.fields))) result
        → PreservesGuest (result ≡ Ok tt) (λ _. 0) (λ _. 0) old m new
        (with_block m (d / counters_of_block m.header.fields) d modified (bytes_of new.bytes)) }
{}

/// Law: if no block is dirty, a block with refcounts 0 may be made in an allocated cluster that another block counts. The cluster is taken:
/// its excess refcount falls by 1.
pub fn making_a_block_that_another_counts()
    ensures { (m : Metadata) (i d : ℕ) (block : Block) (modified : Bool) (old mid new : StorageState) → IsIn old m
        → block.order ≡ m.header.fields.refcount_order
        → block.counters ≡ replicate (counters_of_block m.header.fields) 0 → AreBlocksClean m.cached
        → i < refcount_table_entries m.header.fields → block_offset (slice_index m.table.raw_entries i) ≡ 0
        → d / counters_of_block m.header.fields ≢ i → d ≢ 0 → IsAddressable m.header.fields.cluster_bits d
        → lookup (nat_eq d) m.cached.blocks ≡ None
        → (IsSound m → (referenced_at_all m d ≡ 0) × (waiting m d ≡ 0) × (1 ≤ counted m d))
        → (done : Result Unit Fault) → done ≡ Ok tt → BlockPut block (d * cluster_size m.header.fields) old mid done
        → (result : Result Unit Fault) → AtomicWriteOutcome mid new (table_start (with_raw_entry m.table i (d * cluster_size m.header.fields)) + 8 * i)
        (to_be_bytes w64 (slice_index (with_raw_entry m.table i (d * cluster_size m.header.fields)).raw_entries i)) result
        → PreservesGuest (result ≡ Ok tt) (λ _. 0) (one_at d) old m new (with_block m i d modified (bytes_of new.bytes)) }
{}

/// Law: if a quarter of the space is free, in one run from the first-free hint on, an allocation of a sixteenth of the space or less has
/// enough. So after `Fault::Limit` there was no such quarter, or more than a sixteenth was requested.
pub fn a_quarter_is_room()
    ensures { (m : Metadata) (mark n first : ℕ) → mark ≤ first → first + space m.header.fields / 4 ≤ space m.header.fields
        → ((c : ℕ) → first ≤ c → c < first + space m.header.fields / 4 → counted m c ≡ 0) → n ≤ space m.header.fields / 16
        → IsRoomy m mark n }
{}

/// Law: freeing the clusters on the free list never makes an allocation impossible. An allocation frees them first. So if it then fails
/// with `Fault::Limit` (no free run of clusters is long enough), no run was long enough before they were freed, either.
pub fn what_is_freed_leaves_room()
    ensures { (m m' : MetadataWithFirstFree) (n : ℕ) → IsFreed m m' → IsRoomy m.image m.mark n → IsRoomy m'.image m'.mark n }
{}
