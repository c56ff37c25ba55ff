// Answers lines of a script that call the caches, or show what is in them.
use crate::listing::Waiting;
use crate::opened::Open;
use crate::texts::numbers_text;
use cases::{Trouble, joined, number, ok, size};
use qcow2_metadata::{L2Table, RefBlock, Table, TableEntry};
use qcow2_types::{ClustersToFreeEntry, HostCluster, PendingClusters};
use std::alloc::Global;

/// In a script, the offsets of clusters from this number on don't fit an entry.
const FAR: u64 = 6_000_000;

// Returns consecutive refcounts of a block.
fn counters_of(
    alloc: Global,
    block: &RefBlock,
    first: usize,
    count: usize,
) -> Result<Vec<u64>, Trouble> {
    let end = first.saturating_add(count);
    if end > block.entries() {
        return Err(Trouble::NoCall);
    }
    let mut counters = Vec::new(alloc);
    for index in first..end {
        counters.push(block.get(index))?;
    }
    Ok(counters)
}

/// Returns the text of consecutive refcounts of a block.
pub fn counters_text(
    alloc: Global,
    block: &RefBlock,
    first: usize,
    count: usize,
) -> Result<String, Trouble> {
    let counters = counters_of(alloc, block, first, count)?;
    Ok(numbers_text(alloc, &counters)?)
}

/// Returns the text of consecutive raw entries of a table, in hexadecimal.
pub fn words_text(
    alloc: Global,
    table: &L2Table,
    first: usize,
    count: usize,
) -> Result<String, Trouble> {
    let mut text = String::new(alloc);
    for index in first..first.saturating_add(count) {
        let value = table.get(index).to_plain();
        let word = format!(in alloc; "{value:x}")?;
        joined(&mut text, word.as_str())?;
    }
    Ok(text)
}

// Returns the host cluster of the entry at an index of a table.
fn mapping_text(alloc: Global, table: &L2Table, index: usize) -> Result<String, Trouble> {
    let _bits = table.cluster_bits();
    match table.get(index).cluster_offset(false) {
        Some(offset) => Ok((offset.0 / 512).to_string(alloc)?),
        None => Ok("none".to_string(alloc)?),
    }
}

// Links pending clusters in a table, and returns the clusters that the entry referenced before. If they can't be linked, returns `None`.
#[tactic(auto, using(qcow2_metadata::proofs::PlaceLemmas::near_reach))]
fn name(
    table: &mut L2Table,
    index: usize,
    pending: PendingClusters,
) -> Option<ClustersToFreeEntry> {
    let _bits = table.cluster_bits();
    let cluster = pending.cluster();
    if index >= table.entries() || cluster.0 == 0 || cluster.0 > FAR {
        pending.make_persistent();
        return None;
    }
    let mut guard = table.lock_write();
    guard.map_cluster(index, cluster, Some(pending))
}

fn unname(table: &mut L2Table, index: usize) -> Option<ClustersToFreeEntry> {
    if index >= table.entries() {
        return None;
    }
    let mut guard = table.lock_write();
    guard.discard_cluster(index)
}

impl<'a> Open<'a> {
    // Returns the table in a cluster, found or loaded.
    fn table(&mut self, cluster: u64) -> Result<&mut L2Table, Trouble> {
        Ok(
            self.caches
                .l2_get_or_insert(&mut self.file, HostCluster(cluster))?,
        )
    }

    // Returns the block in a cluster, found or loaded.
    fn block(&mut self, cluster: u64) -> Result<&mut RefBlock, Trouble> {
        Ok(
            self.caches
                .rb_get_or_insert(&mut self.file, HostCluster(cluster))?,
        )
    }

    // Links the last pending clusters in a table. The clusters that the entry referenced before are added to the list and printed.
    fn name(
        &mut self,
        waiting: &mut Waiting,
        cluster: u64,
        index: usize,
    ) -> Result<String, Trouble> {
        let table = self.table(cluster)?;
        let Some(pending) = waiting.last() else {
            return Ok("none".to_string(self.alloc)?);
        };
        let replaced = name(table, index, pending);
        waiting.release();
        waiting.push(replaced)
    }

    // Clears an entry of a table. The clusters that it referenced are added to the list and printed.
    fn unname(
        &mut self,
        waiting: &mut Waiting,
        cluster: u64,
        index: usize,
    ) -> Result<String, Trouble> {
        let table = self.table(cluster)?;
        let named = unname(table, index);
        waiting.push(named)
    }

    // Answers a line about the contents of a table or a block.
    fn look(&mut self, words: &[&str]) -> Result<String, Trouble> {
        let alloc = self.alloc;
        match words {
            ["counts", cluster, first, count] => {
                let (first, count) = (size(first)?, size(count)?);
                counters_text(alloc, self.block(number(cluster)?)?, first, count)
            }
            ["words", cluster, first, count] => {
                let (first, count) = (size(first)?, size(count)?);
                words_text(alloc, self.table(number(cluster)?)?, first, count)
            }
            ["entries", cluster] => {
                Ok(self.block(number(cluster)?)?.entries().to_string(alloc)?)
            }
            ["mapping", cluster, index] => {
                let index = size(index)?;
                mapping_text(alloc, self.table(number(cluster)?)?, index)
            }
            _ => Err(Trouble::NoCall),
        }
    }

    // Finds a table or a block, and makes it dirty if it is touched.
    fn find(&mut self, words: &[&str]) -> Result<(), Trouble> {
        match words {
            ["find_table", cluster] => {
                self.table(number(cluster)?)?;
            }
            ["find_block", cluster] => {
                self.block(number(cluster)?)?;
            }
            ["touch_table", cluster] => self.table(number(cluster)?)?.set_modified(),
            ["touch_block", cluster] => self.block(number(cluster)?)?.set_modified(),
            _ => return Err(Trouble::NoCall),
        }
        Ok(())
    }

    // Sets the write order, flushes, or drops.
    fn order(&mut self, words: &[&str]) -> Result<(), Trouble> {
        match words {
            ["blocks_first"] => self.caches.l2_depends_on_rb(&mut self.file)?,
            ["tables_first"] => self.caches.rb_depends_on_l2(&mut self.file)?,
            ["flush"] => self.caches.flush_all(&mut self.file)?,
            ["flush_blocks"] => self.caches.flush_rb(&mut self.file)?,
            ["drop_tables"] => self.caches.invalidate_l2()?,
            ["drop_blocks"] => self.caches.invalidate_rb()?,
            _ => return Err(Trouble::NoCall),
        }
        Ok(())
    }

    /// Answers a line about the caches.
    pub fn cache(&mut self, waiting: &mut Waiting, words: &[&str]) -> Result<String, Trouble> {
        match words {
            ["name", cluster, index] => self.name(waiting, number(cluster)?, size(index)?),
            ["unname", cluster, index] => self.unname(waiting, number(cluster)?, size(index)?),
            ["counts" | "words" | "mapping" | "entries", ..] => self.look(words),
            [
                "find_table" | "find_block" | "touch_table" | "touch_block",
                ..
            ] => {
                self.find(words)?;
                Ok(ok(self.alloc)?)
            }
            _ => {
                self.order(words)?;
                Ok(ok(self.alloc)?)
            }
        }
    }
}
