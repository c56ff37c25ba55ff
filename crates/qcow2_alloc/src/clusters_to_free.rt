//! The list of clusters to free: no table references them any more, but their refcount is still above 0. They are freed later, by one call,
//! so that a cluster isn't reused before the file has stopped referencing it.
ghost use Rattle.std.specs.Prelude.{◌≡◌, ◌==◌, ◌+◌, ◌-◌, ◌<◌, ◌≤◌, [], ◌∷◌, ◌++◌, length, OnOk, IfOk, IfErr, MatchOption};
ghost use Rattle.std.specs.List.{position, remove};
ghost use Rattle.imago_storage.specs.declared.fault.Fault.TheVariants.{Memory};
ghost use Rattle.qcow2_alloc.specs.FreeList.{entry_at, shortened};

use imago_storage::Fault;
use qcow2_types::{ClusterCount, ClustersToFreeEntry, PendingClusters};
use std::alloc::Global;
use std::marker::Model;
use std::mem;

/// A reserved slot on a free list: memory for one entry, in case allocated clusters are given back before any table references them.
///
/// A slot can't be dropped. The list's `give_back` fills it, and the list's `release` ends the reservation. The value doesn't know its
/// list: both calls require that the list has a reserved slot. To keep only plain data of the clusters, call `leave`; later, the list's
/// `reserved_slot` returns the slot again.
#[derive(Debug)]
pub struct ReservedSlot(());

impl ReservedSlot {
    /// Leaves the slot to its list, where it stays reserved.
    pub fn leave(self) {
        let ReservedSlot(_held) = self;
    }
}

/// Allocated clusters that no table references yet, and a reserved slot on the free list: memory for their entry, in case no table ever
/// will.
///
/// In contracts the value is its clusters, like `PendingClusters`. It can't be dropped: the caller must consume both parts.
#[derive(Debug)]
pub struct PendingAllocation {
    /// The clusters.
    pub pending: PendingClusters,
    /// The reserved slot for their entry on the free list.
    pub hold: ReservedSlot,
}

impl Model for PendingAllocation {
    ghost use Rattle.qcow2_types.specs.Pending.{FreeEntry};

    ghost Value = { FreeEntry };

    ghost view = { λ a. a.pending };
}

/// A list of clusters to free, with reserved slots: memory for further entries.
///
/// In contracts the list is its entries, the newest last, and the number of reserved slots: one for each `ReservedSlot` that neither
/// `give_back` nor `release` has consumed, including those that were left to the list.
///
/// Dropping the list discards its entries. The refcounts of their clusters stay above 0, so the clusters leak.
#[derive(Debug)]
pub struct ClustersToFreeList {
    entries: Vec<ClustersToFreeEntry>,
    held: usize,
}

impl Model for ClustersToFreeList {
    ghost use Rattle.std.specs.Prelude.{◌+◌, ◌≤◌, vec_len, vec_capacity};
    ghost use Rattle.qcow2_alloc.specs.FreeList.{FreeList};

    ghost Value = { FreeList };

    ghost view = { λ l. record { entries = l.entries.items; held = l.held } };

    ghost invariant = { λ l. vec_len l.entries + l.held ≤ vec_capacity l.entries };
}

impl ClustersToFreeList {
    /// Returns an empty list without reserved slots. It takes no memory yet.
    pub fn new(alloc: Global) -> ClustersToFreeList
        ensures { result ≡ record { entries = []; held = 0 } }
    {
        ClustersToFreeList {
            entries: Vec::new(alloc),
            held: 0,
        }
    }

    /// Returns true if the list has no entries.
    pub fn is_empty(&self) -> bool
        ensures { result ≡ (length self.now.entries == 0) }
    {
        self.entries.is_empty()
    }

    /// Returns the number of entries.
    pub fn len(&self) -> usize
        ensures { result ≡ length self.now.entries }
    {
        self.entries.len()
    }

    /// Returns the number of reserved slots.
    pub fn held(&self) -> usize
        ensures { result ≡ self.now.held }
    {
        self.held
    }

    /// Returns the entry at `index`, which must be less than the number of entries.
    pub fn entry(&self, index: usize) -> &ClustersToFreeEntry
        requires { index < length self.now.entries }
        ensures { result.now ≡ entry_at self.now.entries index }
    {
        &self.entries[index]
    }

    /// Returns the index of the first entry of metadata, if any.
    pub fn position_of_metadata(&self) -> Option<usize>
        ensures { result ≡ position (λ e. e.metadata) self.now.entries }
    {
        self.entries.iter().position(|entry| entry.is_metadata())
    }

    /// Adds an entry at the end. It uses none of the reserved slots.
    ///
    /// # Errors
    ///
    /// - `Fault::Memory` if memory ran out. The entry is returned with the fault, and the list is unchanged.
    pub fn push(&mut self, entry: ClustersToFreeEntry) -> Result<(), (Fault, ClustersToFreeEntry)>
        ensures ok { OnOk result (self.new ≡ record { entries = self.old.entries ++ entry ∷ []; held = self.old.held }) }
        ensures err { IfErr result (λ e. (e ≡ (Memory, entry)) × (self.new ≡ self.old)) }
    {
        match self.entries.reserve(self.held + 1) {
            Ok(()) => {
                self.entries.push_reserved(entry);
                Ok(())
            }
            Err(_) => Err((Fault::Memory, entry)),
        }
    }

    /// Reserves memory for `count` entries that are added later, in addition to the reserved slots.
    ///
    /// It reserves no slot. Call it before a change that adds several entries, so that memory runs out before the change and not during it.
    /// The contract of `push` still allows `Fault::Memory`.
    ///
    /// # Errors
    ///
    /// - `Fault::Memory` if memory ran out.
    ///
    /// # On error
    ///
    /// The list is unchanged, as it is after success.
    pub fn reserve(&mut self, count: usize) -> Result<(), Fault>
        ensures unchanged { self.new ≡ self.old }
        ensures err { IfErr result (λ fault. fault ≡ Memory) }
    {
        let additional = self.held.saturating_add(count);
        match self.entries.reserve(additional) {
            Ok(()) => Ok(()),
            Err(_) => Err(Fault::Memory),
        }
    }

    /// Reserves a slot: memory for one entry. With it, clusters that are allocated later can be given back without memory.
    ///
    /// # Errors
    ///
    /// - `Fault::Memory` if memory ran out. The list is unchanged.
    pub fn reserve_slot(&mut self) -> Result<ReservedSlot, Fault>
        ensures ok { OnOk result (self.new ≡ record { entries = self.old.entries; held = self.old.held + 1 }) }
        ensures err { IfErr result (λ fault. (fault ≡ Memory) × (self.new ≡ self.old)) }
    {
        let held = self.held + 1;
        match self.entries.reserve(held) {
            Ok(()) => {
                self.held = held;
                Ok(ReservedSlot(()))
            }
            Err(_) => Err(Fault::Memory),
        }
    }

    /// Returns a reserved slot that was left to the list (`ReservedSlot::leave`), or `None` if the list has no reserved slot.
    ///
    /// Call it once for each slot that was left: the number of reserved slots doesn't change.
    pub fn reserved_slot(&self) -> Option<ReservedSlot>
        ensures { MatchOption result (self.now.held ≡ 0) (λ _. 0 < self.now.held) }
    {
        if self.held > 0 {
            Some(ReservedSlot(()))
        } else {
            None
        }
    }

    /// Makes the clusters of `entry` pending (no table references them yet), with a reserved slot (memory for their entry on the list).
    ///
    /// The caller must consume both parts. To free the clusters after all, use `give_back`. Once a table references them, call
    /// `make_persistent` on the clusters and `release` on the slot.
    ///
    /// # Errors
    ///
    /// - `Fault::Memory` if memory ran out. The entry is returned with the fault, and the list is unchanged.
    pub fn pending_guard(
        &mut self,
        entry: ClustersToFreeEntry,
    ) -> Result<PendingAllocation, (Fault, ClustersToFreeEntry)>
        ensures ok { IfOk result (λ pending. (pending ≡ entry)
            × (self.new ≡ record { entries = self.old.entries; held = self.old.held + 1 })) }
        ensures err { IfErr result (λ e. (e ≡ (Memory, entry)) × (self.new ≡ self.old)) }
    {
        match self.reserve_slot() {
            Ok(hold) => {
                let pending = PendingClusters::new(entry);
                Ok(PendingAllocation { pending, hold })
            }
            Err(fault) => Err((fault, entry)),
        }
    }

    /// Adds allocated clusters that no table will reference to the end of the list, in the reserved slot. The call takes no memory.
    ///
    /// # Preconditions
    ///
    /// A slot is reserved on the list.
    pub fn give_back(&mut self, hold: ReservedSlot, pending: PendingClusters)
        requires { 0 < self.old.held }
        ensures { self.new ≡ record { entries = self.old.entries ++ pending ∷ []; held = self.old.held - 1 } }
    {
        hold.leave();
        self.held -= 1;
        self.entries.push_reserved(pending.into_entry());
    }

    /// Ends the reservation of a slot: a table references the clusters now, and `make_persistent` has consumed them. The call takes no
    /// memory.
    ///
    /// # Preconditions
    ///
    /// A slot is reserved on the list.
    pub fn release(&mut self, hold: ReservedSlot)
        requires { 0 < self.old.held }
        ensures { self.new ≡ record { entries = self.old.entries; held = self.old.held - 1 } }
    {
        hold.leave();
        self.held -= 1;
    }

    /// Moves all entries to a new list, and leaves this list empty. It takes no memory.
    ///
    /// # Preconditions
    ///
    /// No slot is reserved. Reserved slots are in the memory that moves with the entries, so giving clusters back would need memory.
    pub fn take(&mut self) -> ClustersToFreeList
        requires { self.old.held ≡ 0 }
        ensures taken { result ≡ self.old }
        ensures left { self.new ≡ record { entries = []; held = 0 } }
    {
        let empty = ClustersToFreeList::new(*self.entries.allocator());
        mem::replace(self, empty)
    }

    /// Removes the last `count` clusters, which have been freed, from the entry at `index`. It takes no memory.
    ///
    /// The entry stays on the list even if it has no clusters left.
    ///
    /// # Preconditions
    ///
    /// The entry has at least `count` clusters.
    pub fn shorten(&mut self, index: usize, count: ClusterCount)
        requires inside { index < length self.old.entries }
        requires enough { count ≤ (entry_at self.old.entries index).count }
        ensures { self.new ≡ record { entries = shortened self.old.entries index count; held = self.old.held } }
    {
        let entry = &mut self.entries[index];
        let first_cluster = entry.first_cluster();
        let left = entry.count() - count;
        let shorter = if entry.is_metadata() {
            ClustersToFreeEntry::metadata(first_cluster, left)
        } else {
            ClustersToFreeEntry::data(first_cluster, left)
        };
        let _parts = mem::replace(entry, shorter).into_parts();
    }

    /// Removes the entry at `index`, which must be less than the number of entries. Later entries move up. It takes no memory.
    pub fn remove(&mut self, index: usize) -> ClustersToFreeEntry
        requires { index < length self.old.entries }
        ensures removed { result ≡ entry_at self.old.entries index }
        ensures left { self.new ≡ record { entries = remove self.old.entries index; held = self.old.held } }
    {
        self.entries.remove(index)
    }
}

impl Drop for ClustersToFreeList {
    fn drop(self) {
        let ClustersToFreeList {
            mut entries,
            held: _,
        } = self;
        while let Some(entry) = entries.pop() {
            let _parts = entry.into_parts();
        }
        entries.destroy_empty();
    }
}
