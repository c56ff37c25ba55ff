// Runs the lines of a script that call an L1, an L2 or a refcount table: the calls that all three have.
ghost use Rattle.std.specs.Prelude.{◌≡◌, ◌<◌, ◌≤◌, IsTrue, length};
ghost use Rattle.qcow2_types.specs.Header.{Shaped};
ghost use Rattle.qcow2_metadata.specs.Tables.{IsPlacedTable};

use crate::answer::Answer;
use crate::file::Image;
use crate::limits::is_addressable;
use cases::{Trouble, number, size};
use qcow2_metadata::{Table, TableEntry};
use qcow2_types::HostCluster;
use std::alloc::Global;

/// A call of any table.
#[derive(Clone, Copy)]
pub enum TableCall {
    Name,
    MaxEntries,
    Entries,
    /// The entry at an index. Past the end, it is the empty entry.
    Word(usize),
    /// The entry at an index. Past the end, it is `None`.
    Kept(usize),
    Cluster,
    Offset,
    ByteSize,
    ClusterCount,
    ClusterBits,
    IsModified,
    SetCluster(HostCluster),
    UnsetCluster,
    SetModified,
    ClearModified,
    Write,
    WriteWord(usize),
}

impl TableCall {
    /// Returns true if the call needs the storage.
    pub fn is_write(&self) -> bool {
        matches!(self, TableCall::Write | TableCall::WriteWord(_))
    }
}

// Parses a call without a number.
fn short_call(word: &str) -> Result<TableCall, Trouble> {
    match word {
        "name" => Ok(TableCall::Name),
        "most" => Ok(TableCall::MaxEntries),
        "entries" => Ok(TableCall::Entries),
        "cluster" => Ok(TableCall::Cluster),
        "offset" => Ok(TableCall::Offset),
        "bytes" => Ok(TableCall::ByteSize),
        "clusters" => Ok(TableCall::ClusterCount),
        "cluster_bits" => Ok(TableCall::ClusterBits),
        "modified" => Ok(TableCall::IsModified),
        "unset_cluster" => Ok(TableCall::UnsetCluster),
        "set_modified" => Ok(TableCall::SetModified),
        "clear_modified" => Ok(TableCall::ClearModified),
        "write" => Ok(TableCall::Write),
        _ => Err(Trouble::NoCall),
    }
}

// Parses a call.
fn table_call(words: &[&str]) -> Result<TableCall, Trouble> {
    match words {
        [word] => short_call(word),
        ["word", index] => Ok(TableCall::Word(size(index)?)),
        ["kept", index] => Ok(TableCall::Kept(size(index)?)),
        ["set_cluster", cluster] => Ok(TableCall::SetCluster(HostCluster(number(cluster)?))),
        ["write", index] => Ok(TableCall::WriteWord(size(index)?)),
        _ => Err(Trouble::NoCall),
    }
}

/// Returns true if a table has a cluster, and the cluster's offset fits an entry.
pub fn is_placed<T: Table>(table: &T) -> bool
    ensures { IsTrue result → IsPlacedTable (T.value table.now) }
{
    match table.get_cluster() {
        Some(cluster) => is_addressable(cluster, table.cluster_bits()),
        None => false,
    }
}

// Returns the entry at an index, if any.
fn kept<T: Table>(table: &T, index: usize) -> Answer {
    match table.get_ref(index) {
        Some(entry) => Answer::Word(entry.to_plain()),
        None => Answer::None,
    }
}

// Returns the offset of the table.
fn offset<T: Table>(table: &T) -> Result<Answer, Trouble> {
    if table.get_cluster().is_some() && !is_placed(table) {
        return Err(Trouble::NoCall);
    }
    match table.get_offset() {
        Some(offset) => Ok(Answer::Number(offset.0)),
        None => Ok(Answer::None),
    }
}

// Returns the table's first cluster.
fn cluster<T: Table>(table: &T) -> Answer {
    match table.get_cluster() {
        Some(cluster) => Answer::Number(cluster.0),
        None => Answer::None,
    }
}

// Returns a property of the table.
fn ask<T: Table>(table: &T, call: TableCall) -> Result<Answer, Trouble> {
    match call {
        TableCall::Entries => Ok(Answer::Number(table.entries() as u64)),
        TableCall::Word(index) => Ok(Answer::Word(table.get(index).to_plain())),
        TableCall::Kept(index) => Ok(kept(table, index)),
        TableCall::Cluster => Ok(cluster(table)),
        TableCall::Offset => offset(table),
        TableCall::ByteSize => Ok(Answer::Number(table.byte_size() as u64)),
        TableCall::ClusterCount => Ok(Answer::Number(table.cluster_count().0)),
        TableCall::ClusterBits => Ok(Answer::Number(u64::from(table.cluster_bits()))),
        TableCall::IsModified => Ok(Answer::Flag(table.is_modified())),
        TableCall::Name => Ok(Answer::Text(T::NAME)),
        TableCall::MaxEntries => Ok(Answer::Number(T::MAX_ENTRIES as u64)),
        _ => Err(Trouble::NoCall),
    }
}

// Makes a call of the table that needs no storage.
fn table_alone<T: Table>(table: &mut T, call: TableCall) -> Result<Answer, Trouble> {
    match call {
        TableCall::SetCluster(cluster) => table.set_cluster(cluster),
        TableCall::UnsetCluster => table.unset_cluster(),
        TableCall::SetModified => table.set_modified(),
        TableCall::ClearModified => table.clear_modified(),
        _ => return ask(table, call),
    }
    Ok(Answer::Done)
}

fn write<T: Table>(alloc: Global, table: &mut T, image: &mut Image<'_>) -> Result<Answer, Trouble> {
    if !is_placed(table) {
        return Err(Trouble::NoCall);
    }
    table.write(alloc, image)?;
    Ok(Answer::Done)
}

fn write_word<T: Table>(
    alloc: Global,
    table: &mut T,
    image: &mut Image<'_>,
    index: usize,
) -> Result<Answer, Trouble> {
    if !is_placed(table) || index >= table.entries() {
        return Err(Trouble::NoCall);
    }
    table.write_entry(alloc, image, index)?;
    Ok(Answer::Done)
}

// Makes a call of the table that needs the storage.
fn table_in_file<T: Table>(
    alloc: Global,
    table: &mut T,
    image: &mut Image<'_>,
    call: TableCall,
) -> Result<Answer, Trouble> {
    match call {
        TableCall::Write => write(alloc, table, image),
        TableCall::WriteWord(index) => write_word(alloc, table, image, index),
        _ => Err(Trouble::NoCall),
    }
}

/// Makes a call of the table of a case, if the case has one.
pub fn table_words<T: Table>(
    alloc: Global,
    table: &mut Option<T>,
    image: &mut Option<Image<'_>>,
    words: &[&str],
) -> Result<Answer, Trouble> {
    let call = table_call(words)?;
    match (table, image) {
        (Some(table), Some(image)) if call.is_write() => table_in_file(alloc, table, image, call),
        (Some(table), _) => table_alone(table, call),
        _ => Err(Trouble::NoCall),
    }
}
