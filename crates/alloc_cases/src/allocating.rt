// Answers lines of a script that call the allocator.
use crate::listing::{Waiting, is_metadata};
use crate::opened::Open;
use crate::texts::parts_text;
use cases::{Trouble, number, ok, size};
use qcow2_types::{ClusterCount, HostCluster};

impl<'a> Open<'a> {
    // Allocates consecutive clusters, which are pending then (not yet referenced).
    fn take(
        &mut self,
        waiting: &mut Waiting,
        count: u64,
        metadata: bool,
    ) -> Result<String, Trouble> {
        waiting.prepare()?;
        let pending = self.allocator.allocate_clusters(
            &mut self.file,
            &mut self.caches,
            &mut waiting.list,
            ClusterCount(count),
            metadata,
        )?;
        let parts = waiting.note(pending)?;
        Ok(parts_text(self.alloc, parts)?)
    }

    // Allocates one given cluster if it is free. It is pending then.
    fn take_at(&mut self, waiting: &mut Waiting, cluster: u64) -> Result<String, Trouble> {
        waiting.prepare()?;
        let found = self.allocator.allocate_cluster_at(
            &mut self.file,
            &mut self.caches,
            &mut waiting.list,
            HostCluster(cluster),
        )?;
        match found {
            Some(pending) => {
                let parts = waiting.note(pending)?;
                Ok(parts_text(self.alloc, parts)?)
            }
            None => Ok("none".to_string(self.alloc)?),
        }
    }

    fn grow(&mut self, waiting: &mut Waiting, index: usize) -> Result<(), Trouble> {
        if index < self.allocator.reftable_entries() {
            return Err(Trouble::NoCall);
        }
        Ok(
            self.allocator
                .grow_reftable(&mut self.file, &mut self.caches, &mut waiting.list, index)?,
        )
    }

    // Grows the refcount table by at least `more + 1` entries.
    fn grow_by(&mut self, waiting: &mut Waiting, more: usize) -> Result<(), Trouble> {
        let index = self.allocator.reftable_entries().saturating_add(more);
        self.grow(waiting, index)
    }

    fn free(&mut self, waiting: &mut Waiting) -> Result<(), Trouble> {
        Ok(
            self.allocator
                .process_clusters_to_free(&mut self.file, &mut self.caches, &mut waiting.list)?,
        )
    }

    /// Returns the refcount table's offset and clusters in the header, and its number of entries in memory.
    pub fn reftable_text(&self) -> Result<String, Trouble> {
        let offset = self.file.header.reftable_offset().0;
        let clusters = self.file.header.reftable_clusters().0;
        let entries = self.allocator.reftable_entries();
        Ok(format!(in self.alloc; "{offset} {clusters} {entries}")?)
    }

    // Makes a call without a result.
    fn change(&mut self, waiting: &mut Waiting, words: &[&str]) -> Result<(), Trouble> {
        match words {
            ["free"] => self.free(waiting),
            ["grow", index] => self.grow(waiting, size(index)?),
            ["grow_by", more] => self.grow_by(waiting, size(more)?),
            ["mark", cluster] => self.set_mark(number(cluster)?),
            ["drop_counts"] => Ok(self.allocator.invalidate_rb_cache(&mut self.caches)?),
            _ => Err(Trouble::NoCall),
        }
    }

    /// Answers a line about the allocator.
    pub fn allocate(&mut self, waiting: &mut Waiting, words: &[&str]) -> Result<String, Trouble> {
        match words {
            ["take", count, kind] => self.take(waiting, number(count)?, is_metadata(kind)?),
            ["take_at", cluster] => self.take_at(waiting, number(cluster)?),
            ["reftable_in_memory"] => self.reftable_text(),
            _ => {
                self.change(waiting, words)?;
                Ok(ok(self.alloc)?)
            }
        }
    }
}
