// Tables and blocks that are put into the caches, and those that a failed put returns.
use crate::caching::{counters_text, words_text};
use crate::opened::{Disk, Open};
use cases::{Trouble, number, ok, size};
use imago_storage::Fault;
use qcow2_alloc::{
    AsyncLruCacheBackend, ImageFile, L2CacheBackend, MetadataCaches, RefBlockCacheBackend,
};
use qcow2_metadata::{L2Table, RefBlock, Table};
use qcow2_types::HostCluster;
use std::alloc::Global;

/// The table and the block that failed puts returned.
#[derive(Drop)]
pub struct Returned {
    table: Option<L2Table>,
    block: Option<RefBlock>,
}

// Puts a table into the cache. On error the table is returned.
fn put_table<'a>(
    caches: &mut MetadataCaches<Disk<'a>>,
    file: &mut ImageFile<Disk<'a>>,
    table: L2Table,
) -> Result<(), (Fault, L2Table)> {
    match table.get_cluster() {
        Some(_) => caches.l2_insert(file, table),
        None => Err((Fault::BadArgument, table)),
    }
}

// Puts a block into the cache. On error the block is returned.
fn put_block<'a>(
    caches: &mut MetadataCaches<Disk<'a>>,
    file: &mut ImageFile<Disk<'a>>,
    block: RefBlock,
) -> Result<(), (Fault, RefBlock)> {
    match block.get_cluster() {
        Some(_) => caches.rb_insert(file, block),
        None => Err((Fault::BadArgument, block)),
    }
}

// Returns the text of a value's cluster, and of its state: modified or clean.
fn state_text(
    alloc: Global,
    cluster: Option<HostCluster>,
    is_modified: bool,
) -> Result<String, Trouble> {
    let state = if is_modified { "modified" } else { "clean" };
    match cluster {
        Some(HostCluster(cluster)) => Ok(format!(in alloc; "{cluster} {state}")?),
        None => Ok(format!(in alloc; "nowhere {state}")?),
    }
}

impl Returned {
    pub fn nothing() -> Self {
        Returned {
            table: None,
            block: None,
        }
    }

    fn put_table<'a>(&mut self, open: &mut Open<'a>, table: L2Table) -> Result<(), Trouble> {
        match put_table(&mut open.caches, &mut open.file, table) {
            Ok(()) => Ok(()),
            Err((fault, table)) => {
                self.table = Some(table);
                Err(Trouble::Refused(fault))
            }
        }
    }

    fn put_block<'a>(&mut self, open: &mut Open<'a>, block: RefBlock) -> Result<(), Trouble> {
        match put_block(&mut open.caches, &mut open.file, block) {
            Ok(()) => Ok(()),
            Err((fault, block)) => {
                self.block = Some(block);
                Err(Trouble::Refused(fault))
            }
        }
    }

    // Puts the table that the file has in cluster `from` into the cache at cluster `to`. It is dirty if the clusters differ.
    fn put_table_of<'a>(&mut self, open: &mut Open<'a>, from: u64, to: u64) -> Result<(), Trouble> {
        let backend = L2CacheBackend::new(open.alloc);
        let mut table = backend.load(&mut open.file, HostCluster(from))?;
        if from != to {
            table.set_cluster(HostCluster(to));
        }
        self.put_table(open, table)
    }

    // Puts the block that the file has in cluster `from` into the cache at cluster `to`. It is dirty if the clusters differ.
    fn put_block_of<'a>(&mut self, open: &mut Open<'a>, from: u64, to: u64) -> Result<(), Trouble> {
        let backend = RefBlockCacheBackend::new(open.alloc);
        let mut block = backend.load(&mut open.file, HostCluster(from))?;
        if from != to {
            block.set_cluster(HostCluster(to));
        }
        self.put_block(open, block)
    }

    // Puts the returned value again.
    fn put_again<'a>(&mut self, open: &mut Open<'a>, kind: &str) -> Result<(), Trouble> {
        match kind {
            "table" => match self.table.take() {
                Some(table) => self.put_table(open, table),
                None => Err(Trouble::NoCall),
            },
            "block" => match self.block.take() {
                Some(block) => self.put_block(open, block),
                None => Err(Trouble::NoCall),
            },
            _ => Err(Trouble::NoCall),
        }
    }

    // Returns the text of the returned table: its cluster, its state and some entries.
    fn table_text(&self, alloc: Global, first: usize, count: usize) -> Result<String, Trouble> {
        match &self.table {
            Some(table) => {
                let state = state_text(alloc, table.get_cluster(), table.is_modified())?;
                let words = words_text(alloc, table, first, count)?;
                Ok(format!(in alloc; "{state} {words}")?)
            }
            None => Ok("none".to_string(alloc)?),
        }
    }

    // Returns the text of the returned block: its cluster, its state and some refcounts.
    fn block_text(&self, alloc: Global, first: usize, count: usize) -> Result<String, Trouble> {
        match &self.block {
            Some(block) => {
                let state = state_text(alloc, block.get_cluster(), block.is_modified())?;
                let counters = counters_text(alloc, block, first, count)?;
                Ok(format!(in alloc; "{state} {counters}")?)
            }
            None => Ok("none".to_string(alloc)?),
        }
    }

    fn put<'a>(&mut self, open: &mut Open<'a>, words: &[&str]) -> Result<(), Trouble> {
        match words {
            ["put_table", from, to] => self.put_table_of(open, number(from)?, number(to)?),
            ["put_block", from, to] => self.put_block_of(open, number(from)?, number(to)?),
            ["put_again", kind] => self.put_again(open, kind),
            _ => Err(Trouble::NoCall),
        }
    }

    /// Answers a line about values that are put into the caches.
    pub fn answer<'a>(&mut self, open: &mut Open<'a>, words: &[&str]) -> Result<String, Trouble> {
        let alloc = open.alloc;
        match words {
            ["back_table", first, count] => self.table_text(alloc, size(first)?, size(count)?),
            ["back_block", first, count] => self.block_text(alloc, size(first)?, size(count)?),
            _ => {
                self.put(open, words)?;
                Ok(ok(alloc)?)
            }
        }
    }
}
