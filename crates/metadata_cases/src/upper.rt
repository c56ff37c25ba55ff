// Runs the lines of a script that call the L1 table or the refcount table. Their entries reference other metadata.
ghost use Rattle.std.specs.Prelude.{◌≤◌, IsTrue, Some};
ghost use Rattle.qcow2_metadata.specs.Tables.{CanBeReferenced};

use crate::answer::Answer;
use crate::file::Image;
use crate::limits::is_addressable;
use crate::tables::table_words;
use cases::{Trouble, number, size};
use qcow2_metadata::{Header, L1Table, L2Table, RefBlock, RefTable, Table};
use qcow2_types::{ClusterCount, ClustersToFreeEntry, HostCluster, PendingClusters};
use std::alloc::Global;

/// The L1 table or the refcount table. The trait has the calls in which they differ.
pub trait Upper: Table + Drop {
    /// The metadata that its entries reference.
    type Named;

    /// Loads the table of `entries` entries that begins with a cluster.
    fn loaded(
        alloc: Global,
        image: &mut Image<'_>,
        header: &Header,
        cluster: HostCluster,
        entries: usize,
    ) -> Result<Self, Trouble>;

    /// Creates a table without entries.
    fn without_words(alloc: Global, header: &Header) -> Self;

    /// Copies the table to one that has an entry at index `at`.
    fn grown(&self, alloc: Global, header: &Header, at: usize) -> Result<Self, Trouble>;

    /// Makes the entry at an index reference `named`.
    fn enter(&mut self, named: &Self::Named, index: usize) -> Result<Answer, Trouble>;

    /// Returns true if the table has an entry at an index.
    fn has(&self, index: usize) -> bool;
}

// Makes a pending metadata cluster, which nothing references yet.
fn pending(cluster: HostCluster) -> Option<PendingClusters> {
    let entry = ClustersToFreeEntry::metadata(cluster, ClusterCount(1));
    Some(PendingClusters::new(entry))
}

// Returns true if an entry can reference metadata in this cluster.
fn is_namable(cluster: HostCluster, bits: u32) -> bool
    requires { bits ≤ 21 }
    ensures { IsTrue result → CanBeReferenced bits (Some cluster) }
{
    is_addressable(cluster, bits) && cluster.0 > 0
}

impl Upper for L1Table {
    type Named = L2Table;

    fn loaded(
        alloc: Global,
        image: &mut Image<'_>,
        header: &Header,
        cluster: HostCluster,
        entries: usize,
    ) -> Result<Self, Trouble> {
        if !is_addressable(cluster, header.cluster_bits()) {
            return Err(Trouble::NoCall);
        }
        Ok(L1Table::load(alloc, image, header, cluster, entries)?)
    }

    fn without_words(alloc: Global, header: &Header) -> Self {
        L1Table::from_data(Vec::new(alloc), header)
    }

    fn grown(&self, alloc: Global, header: &Header, at: usize) -> Result<Self, Trouble> {
        if self.cluster_bits() != header.cluster_bits() {
            return Err(Trouble::NoCall);
        }
        Ok(self.clone_and_grow(alloc, at, header)?)
    }

    fn enter(&mut self, named: &L2Table, index: usize) -> Result<Answer, Trouble> {
        let Some(cluster) = named.get_cluster() else {
            return Err(Trouble::NoCall);
        };
        let bits = self.cluster_bits();
        if named.cluster_bits() != bits || !is_namable(cluster, bits) || !self.in_bounds(index) {
            return Err(Trouble::NoCall);
        }
        self.enter_l2_table(index, named, pending(cluster));
        Ok(Answer::Done)
    }

    fn has(&self, index: usize) -> bool {
        self.in_bounds(index)
    }
}

impl Upper for RefTable {
    type Named = RefBlock;

    fn loaded(
        alloc: Global,
        image: &mut Image<'_>,
        header: &Header,
        cluster: HostCluster,
        entries: usize,
    ) -> Result<Self, Trouble> {
        if !is_addressable(cluster, header.cluster_bits()) {
            return Err(Trouble::NoCall);
        }
        Ok(RefTable::load(alloc, image, header, cluster, entries)?)
    }

    fn without_words(alloc: Global, header: &Header) -> Self {
        RefTable::from_data(Vec::new(alloc), header)
    }

    // The index must be past the end of the table.
    fn grown(&self, alloc: Global, header: &Header, at: usize) -> Result<Self, Trouble> {
        if self.cluster_bits() != header.cluster_bits() || self.entries() > at {
            return Err(Trouble::NoCall);
        }
        Ok(self.clone_and_grow(alloc, header, at)?)
    }

    fn enter(&mut self, named: &RefBlock, index: usize) -> Result<Answer, Trouble> {
        let Some(cluster) = named.get_cluster() else {
            return Err(Trouble::NoCall);
        };
        let bits = self.cluster_bits();
        if named.cluster_bits() != bits || !is_namable(cluster, bits) || !self.in_bounds(index) {
            return Err(Trouble::NoCall);
        }
        self.enter_refblock(index, named, pending(cluster));
        Ok(Answer::Done)
    }

    fn has(&self, index: usize) -> bool {
        self.in_bounds(index)
    }
}

// Replaces the table of a case with one that is loaded, empty or grown.
fn make<T: Upper>(
    alloc: Global,
    table: &mut Option<T>,
    header: &Header,
    image: &mut Option<Image<'_>>,
    words: &[&str],
) -> Result<Answer, Trouble> {
    let made = match (words, &*table, image) {
        (["load", word, entries], _, Some(image)) => {
            T::loaded(
                alloc,
                image,
                header,
                HostCluster(number(word)?),
                size(entries)?,
            )?
        }
        (["make"], _, _) => T::without_words(alloc, header),
        (["grow", at], Some(table), _) => table.grown(alloc, header, size(at)?)?,
        _ => return Err(Trouble::NoCall),
    };
    *table = Some(made);
    Ok(Answer::Done)
}

/// Makes a call of the L1 table or the refcount table.
pub fn upper_words<T: Upper>(
    alloc: Global,
    (table, named): (&mut Option<T>, &Option<T::Named>),
    header: &Option<Header>,
    image: &mut Option<Image<'_>>,
    words: &[&str],
) -> Result<Answer, Trouble> {
    match (words, &mut *table, named, header) {
        (["load" | "make" | "grow", ..], _, _, Some(header)) => make(
            alloc, table, header, image, words,
        ),
        (["enter", index], Some(table), Some(named), _) => table.enter(named, size(index)?),
        (["in_bounds", index], Some(table), _, _) => Ok(Answer::Flag(table.has(size(index)?))),
        _ => table_words(alloc, table, image, words),
    }
}
