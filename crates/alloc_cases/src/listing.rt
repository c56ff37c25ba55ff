// The free list, and the pending clusters: those that are allocated and not referenced yet.
use crate::texts::{Parts, parts_text};
use cases::{Trouble, joined, number, ok, size};
use imago_storage::Fault;
use qcow2_alloc::{ClustersToFreeList, PendingAllocation};
use qcow2_types::{ClusterCount, ClustersToFreeEntry, HostCluster, PendingClusters};
use std::alloc::{AllocError, Global};

/// The free list, the pending clusters, the newest last, and the entries that were taken out of the list.
#[derive(Drop)]
pub struct Waiting {
    alloc: Global,
    pub list: ClustersToFreeList,
    pending: Vec<Parts>,
    taken: ClustersToFreeList,
    /// The number of pending clusters that a line said are referenced.
    kept: u64,
}

/// Returns true for `metadata`, and false for `data`.
pub fn is_metadata(word: &str) -> Result<bool, Trouble> {
    match word {
        "data" => Ok(false),
        "metadata" => Ok(true),
        _ => Err(Trouble::NoCall),
    }
}

fn entry(parts: Parts) -> ClustersToFreeEntry {
    let (first, count, is_metadata) = parts;
    let first = HostCluster(first);
    let count = ClusterCount(count);
    if is_metadata {
        ClustersToFreeEntry::metadata(first, count)
    } else {
        ClustersToFreeEntry::data(first, count)
    }
}

fn parts_of(entry: &ClustersToFreeEntry) -> Parts {
    (
        entry.first_cluster().0,
        entry.count().0,
        entry.is_metadata(),
    )
}

fn into_parts(entry: ClustersToFreeEntry) -> Parts {
    let (first, count, is_metadata) = entry.into_parts();
    (first.0, count.0, is_metadata)
}

// Parses clusters of a script: kind, first and count.
fn parts(kind: &str, first: &str, count: &str) -> Result<Parts, Trouble> {
    Ok((number(first)?, number(count)?, is_metadata(kind)?))
}

// Returns the text of a list's entries, in their order.
fn list_text(alloc: Global, list: &ClustersToFreeList) -> Result<String, AllocError> {
    let mut text = String::new(alloc);
    for index in 0..list.len() {
        let entry = parts_text(alloc, parts_of(list.entry(index)))?;
        joined(&mut text, entry.as_str())?;
    }
    if list.is_empty() {
        joined(&mut text, "nothing")?;
    }
    Ok(text)
}

impl Waiting {
    pub fn new(alloc: Global) -> Self {
        Waiting {
            alloc,
            list: ClustersToFreeList::new(alloc),
            pending: Vec::new(alloc),
            taken: ClustersToFreeList::new(alloc),
            kept: 0,
        }
    }

    /// Returns the text of the list's entries, in their order.
    pub fn text(&self) -> Result<String, AllocError> {
        list_text(self.alloc, &self.list)
    }

    /// Reserves memory for one more note.
    pub fn prepare(&mut self) -> Result<(), Trouble> {
        Ok(self.pending.reserve(1)?)
    }

    /// Notes allocated clusters as pending. The slot for their entry is left to the list.
    pub fn note(&mut self, pending: PendingAllocation) -> Result<Parts, Trouble> {
        let PendingAllocation { pending, hold } = pending;
        hold.leave();
        let parts = into_parts(pending.into_entry());
        self.pending.push(parts)?;
        Ok(parts)
    }

    /// Returns the number of pending runs of clusters.
    pub fn pending(&self) -> usize {
        self.pending.len()
    }

    /// Returns the last pending clusters, for an entry to reference.
    pub fn last(&mut self) -> Option<PendingClusters> {
        match self.pending.pop() {
            Some(parts) => Some(PendingClusters::new(entry(parts))),
            None => None,
        }
    }

    /// Releases a reserved slot, if any.
    pub fn release(&mut self) {
        if let Some(hold) = self.list.reserved_slot() {
            self.list.release(hold);
        }
    }

    // Returns the trouble for an entry that couldn't be added. The entry must have been returned unchanged.
    fn refused(&self, refusal: Fault, back: ClustersToFreeEntry, parts: Parts) -> Trouble {
        if into_parts(back) == parts {
            Trouble::Refused(refusal)
        } else {
            Trouble::NoCall
        }
    }

    fn push_parts(&mut self, parts: Parts) -> Result<(), Trouble> {
        match self.list.push(entry(parts)) {
            Ok(()) => Ok(()),
            Err((fault, back)) => Err(self.refused(fault, back, parts)),
        }
    }

    /// Adds clusters that nothing references any more to the list.
    pub fn push(&mut self, freed: Option<ClustersToFreeEntry>) -> Result<String, Trouble> {
        let Some(freed) = freed else {
            return Ok("nothing".to_string(self.alloc)?);
        };
        let parts = into_parts(freed);
        self.push_parts(parts)?;
        Ok(parts_text(self.alloc, parts)?)
    }

    fn guard(&mut self, parts: Parts) -> Result<(), Trouble> {
        match self.list.pending_guard(entry(parts)) {
            Ok(pending) => {
                self.note(pending)?;
                Ok(())
            }
            Err((fault, back)) => Err(self.refused(fault, back, parts)),
        }
    }

    // Marks the last pending clusters as referenced, or gives them back.
    fn settle(&mut self, is_named: bool) -> Result<String, Trouble> {
        let Some(parts) = self.pending.pop() else {
            return Ok("none".to_string(self.alloc)?);
        };
        let Some(hold) = self.list.reserved_slot() else {
            return Ok("none".to_string(self.alloc)?);
        };
        if is_named {
            self.kept = self.kept.saturating_add(parts.1);
            self.list.release(hold);
        } else {
            let clusters = PendingClusters::new(entry(parts));
            self.list.give_back(hold, clusters);
        }
        Ok(ok(self.alloc)?)
    }

    /// Returns the number of pending clusters that a line said are referenced. No table references them.
    pub fn kept(&self) -> u64 {
        self.kept
    }

    // Reserves a slot, which is left to the list.
    fn hold(&mut self) -> Result<(), Trouble> {
        let hold = self.list.reserve_slot()?;
        hold.leave();
        Ok(())
    }

    // Reserves memory for `count` entries.
    fn reserve(&mut self, count: usize) -> Result<(), Trouble> {
        Ok(self.list.reserve(count)?)
    }

    // Gives clusters back, in a reserved slot.
    fn give_back(&mut self, parts: Parts) -> Result<(), Trouble> {
        let Some(hold) = self.list.reserved_slot() else {
            return Err(Trouble::NoCall);
        };
        let clusters = PendingClusters::new(entry(parts));
        self.list.give_back(hold, clusters);
        Ok(())
    }

    fn shorten(&mut self, index: usize, count: u64) -> Result<(), Trouble> {
        if index >= self.list.len() || count > self.list.entry(index).count().0 {
            return Err(Trouble::NoCall);
        }
        self.list.shorten(index, ClusterCount(count));
        Ok(())
    }

    fn remove(&mut self, index: usize) -> Result<String, Trouble> {
        if index >= self.list.len() {
            return Err(Trouble::NoCall);
        }
        let parts = into_parts(self.list.remove(index));
        Ok(parts_text(self.alloc, parts)?)
    }

    fn take(&mut self) -> Result<(), Trouble> {
        if self.list.held() > 0 {
            return Err(Trouble::NoCall);
        }
        let taken = self.list.take();
        self.taken = taken;
        Ok(())
    }

    // Answers a line that reads the list.
    fn tell(&self, words: &[&str]) -> Result<String, Trouble> {
        match words {
            ["list"] => Ok(self.text()?),
            ["taken"] => Ok(list_text(self.alloc, &self.taken)?),
            ["held"] => Ok(self.list.held().to_string(self.alloc)?),
            ["length"] => Ok(self.list.len().to_string(self.alloc)?),
            ["first_metadata"] => match self.list.position_of_metadata() {
                Some(index) => Ok(index.to_string(self.alloc)?),
                None => Ok("none".to_string(self.alloc)?),
            },
            _ => Err(Trouble::NoCall),
        }
    }

    // Makes a change of the list that has no result.
    fn change(&mut self, words: &[&str]) -> Result<(), Trouble> {
        match words {
            ["wait", kind, first, count] => self.push_parts(parts(kind, first, count)?),
            ["guard", kind, first, count] => self.guard(parts(kind, first, count)?),
            ["give_back", kind, first, count] => self.give_back(parts(kind, first, count)?),
            ["hold"] => self.hold(),
            ["reserve", count] => self.reserve(size(count)?),
            ["shorten", index, count] => self.shorten(size(index)?, number(count)?),
            ["take_list"] => self.take(),
            _ => Err(Trouble::NoCall),
        }
    }

    /// Answers a line about the list.
    pub fn answer(&mut self, words: &[&str]) -> Result<String, Trouble> {
        match words {
            ["keep"] => self.settle(true),
            ["return"] => self.settle(false),
            ["remove", index] => self.remove(size(index)?),
            ["list" | "taken" | "held" | "length" | "first_metadata"] => self.tell(words),
            _ => {
                self.change(words)?;
                Ok(ok(self.alloc)?)
            }
        }
    }
}
