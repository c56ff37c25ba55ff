//! Laws that describe each step (a change of an image's file or cached metadata) by one relation, `Advances`. It says which values the step
//! gives to guest bytes, and how refcounts and references change. The excess refcount of a cluster is its refcount, minus its references
//! and its entries on the free list. A step takes a cluster if it lowers the excess refcount. Definitions: specs/Advancing.antt.

ghost use Rattle.std.specs.Prelude.{◌≡◌, ◌⊎◌, ◌+◌, ◌<◌, ◌≤◌, ◌++◌, ◌∷◌, [], ℕ, Option, false, true};
ghost use Rattle.imago_storage.specs.Disk.{Value};
ghost use Rattle.imago_storage.specs.Steps.{IsIn};
ghost use Rattle.qcow2_types.specs.Bytes.{Bytes};
ghost use Rattle.qcow2_types.specs.Entries.{entry};
ghost use Rattle.qcow2_types.specs.Header.{Header};
ghost use Rattle.qcow2_types.specs.Pending.{FreeEntry};
ghost use Rattle.qcow2_types.specs.Words.{Mapping, data_at};
ghost use Rattle.qcow2_alloc.specs.FreeList.{covers};
ghost use Rattle.qcow2_alloc.specs.Memory.{Cached};
ghost use Rattle.qcow2_alloc.specs.GuestView.{Metadata, GuestUnchanged, IsSound, ShowsEither, counted, covers_metadata, in_memory, referenced_at_all, one_at, referenced, waiting};
ghost use Rattle.qcow2_steps.specs.Advancing.{Advances, MayBeCrashImage};
ghost use Rattle.qcow2_steps.specs.Data.{AreReferencedFor, GivesData, IsHiddenIn, WritesBeside};
ghost use Rattle.qcow2_steps.specs.Words.{DropsNames, GivesEntry, IsOfEntry, IsReserved, LinksCluster, names_at};

use std::marker::Brand;

/// A step: the values that the step may give to guest bytes, the file offsets that it writes, and the guest clusters whose L2 entries it
/// sets.
pub trait Step {
    ghost gives: { ℕ → Option Value → Type 0 };

    ghost written: { ℕ → Type 0 };

    ghost set: { ℕ → Type 0 };
}

// Represents any step: the proof of a call chooses what the step gives, writes and sets.
impl Step for Brand {
    ghost gives = { λ p v. ⊥ };

    ghost written = { λ q. ⊥ };

    ghost set = { λ guest. ⊥ };
}

/// Law: if one step follows another, both together are one step, their sum.
///
/// The sum gives, writes and sets what either step does. Its counts `handed` and `taken`, by which excess refcounts grow and shrink, are
/// the sums of the steps' counts. A crash image of the second step is a crash image of the sum. If a cluster is reserved (allocated, and
/// not yet referenced) before a step that doesn't take it, it is reserved after the step.
pub fn steps_add_up<First: Step, Second: Step>()
    ensures both { (handed taken handed' taken' : ℕ → ℕ) (m m1 m2 : Metadata)
        → Advances First.gives First.written First.set handed taken m m1
        → Advances Second.gives Second.written Second.set handed' taken' m1 m2
        → Advances (λ p v. First.gives p v ⊎ Second.gives p v) (λ q. First.written q ⊎ Second.written q)
        (λ guest. First.set guest ⊎ Second.set guest) (λ c. handed c + handed' c) (λ c. taken c + taken' c) m m2 }
    ensures crash_images { (handed taken : ℕ → ℕ) (m m1 : Metadata) (x : Bytes) (H : Header)
        → Advances First.gives First.written First.set handed taken m m1 → MayBeCrashImage Second.gives m1 x H
        → MayBeCrashImage (λ p v. First.gives p v ⊎ Second.gives p v) m x H }
    ensures reserved { (handed taken : ℕ → ℕ) (m m1 : Metadata) → Advances First.gives First.written First.set handed taken m m1
        → (c : ℕ) → IsReserved m c → taken c ≡ 0 → IsReserved m1 c }
{}

/// Law: if a step doesn't change guest data, it gives no values to guest bytes. In memory each guest byte reads as before. In the file, and
/// in a crash image, each reads as in the file or in memory before.
///
/// One of these must be true:
/// - the step takes no cluster that is referenced in memory;
/// - after the step no entry is dirty: each guest cluster has the same mapping in the file and in memory.
///
/// # Crash safety
///
/// If each guest byte of a consistent file reads as in the image file or as with the cached metadata (`ShowsEither`), the file may be a
/// crash image of such a step.
pub fn unchanged_guest_advances()
    ensures preserves_guest { (m m' : Metadata) (handed taken : ℕ → ℕ) → IsSound m → IsSound m' → GuestUnchanged handed taken m m'
        → ((c : ℕ) → 0 < referenced m c → taken c ≡ 0) → Advances (λ p v. ⊥) (λ q. ⊥) (λ guest. ⊥) handed taken m m' }
    ensures clean { (m m' : Metadata) (handed taken : ℕ → ℕ) → IsSound m → IsSound m' → GuestUnchanged handed taken m m'
        → ((guest : ℕ) → entry m'.file m'.header.fields guest ≡ entry (in_memory m') m'.header.fields guest)
        → Advances (λ p v. ⊥) (λ q. ⊥) (λ guest. ⊥) handed taken m m' }
    ensures crash_images { (m : Metadata) (x : Bytes) (H : Header) → IsSound m → ShowsEither m x H → MayBeCrashImage (λ p v. ⊥) m x H }
{}

/// Law: if bytes are written to the clusters of consecutive guest clusters, the step gives the written bytes to these guest clusters.
pub fn what_is_written_advances()
    ensures { (m : Metadata) (first c k at n : ℕ) (x : Bytes) → IsSound m → WritesBeside m c k at n x → AreReferencedFor m first c k
        → Advances (GivesData m.header.fields first c at n x) (IsIn at n) (λ guest. ⊥) (λ _. 0) (λ _. 0) m (record m { file = x }) }
{}

/// Law: if bytes are written to a cluster that no guest byte is read from, the step gives no values to guest bytes.
pub fn what_is_hidden_advances()
    ensures hidden { (m : Metadata) (c at n : ℕ) (x : Bytes) → IsSound m → WritesBeside m c 0 at n x → IsHiddenIn m c
        → Advances (λ p v. ⊥) (IsIn at n) (λ guest. ⊥) (λ _. 0) (λ _. 0) m (record m { file = x }) }
    ensures crash_images { (m : Metadata) (c at n : ℕ) (x y : Bytes) → IsSound m → WritesBeside m c 0 at n x → IsHiddenIn m c
        → ((q : ℕ) → (y q ≡ m.file q) ⊎ (y q ≡ x q)) → MayBeCrashImage (λ p v. ⊥) m y m.header }
{}

/// Law: if a step adds clusters to the free list, it takes the clusters, even if other entries still reference them.
///
/// If an L2 entry no longer references some clusters, their excess refcount grows. It shrinks again when the clusters are added to the free
/// list.
pub fn deferred_frees_advance()
    ensures pushed { (m : Metadata) (e : FreeEntry) → IsSound m → ((c : ℕ) → referenced m c + waiting m c + covers c e ≤ counted m c)
        → ((c : ℕ) → 0 < covers_metadata c e → referenced_at_all m c ≡ 0)
        → Advances (λ p v. ⊥) (λ q. ⊥) (λ guest. ⊥) (λ _. 0) (λ c. covers c e) m (record m { pending = m.pending ++ e ∷ [] }) }
    ensures dropped { (m : Metadata) (i j : ℕ) (old new : Mapping) (e : FreeEntry) (cached' : Cached) → IsSound m
        → DropsNames m i j old new cached' → e.metadata ≡ false → ((c : ℕ) → names_at m new c + covers c e ≡ names_at m old c)
        → Advances (GivesEntry m i j new) (λ q. ⊥) (IsOfEntry m.header.fields i j) (λ c. covers c e) (λ c. covers c e)
        m (record m { cached = cached'; pending = m.pending ++ e ∷ [] }) }
{}

/// Law: if a step sets an L2 entry, it gives the entry's guest cluster the values that the new entry means.
///
/// The step takes the newly referenced cluster. The excess refcount grows by the clusters that only the old entry referenced.
pub fn what_is_set_advances()
    ensures named { (m : Metadata) (i j x : ℕ) (old : Mapping) (cached' : Cached) → IsSound m → LinksCluster m i j old x cached'
        → IsReserved m x
        → Advances (GivesEntry m i j (data_at x true)) (λ q. ⊥) (IsOfEntry m.header.fields i j)
        (names_at m old) (one_at x) m (record m { cached = cached' }) }
    ensures dropped { (m : Metadata) (i j : ℕ) (old new : Mapping) (handed : ℕ → ℕ) (cached' : Cached) → IsSound m
        → DropsNames m i j old new cached' → ((c : ℕ) → names_at m new c + handed c ≡ names_at m old c)
        → Advances (GivesEntry m i j new) (λ q. ⊥) (IsOfEntry m.header.fields i j) handed (λ _. 0) m (record m { cached = cached' }) }
{}
