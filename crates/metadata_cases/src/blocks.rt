// Runs the lines of a script that call a refcount block.
ghost use Rattle.std.specs.Prelude.{◌≡◌, ◌+◌, IsTrue, OnErr, OnOk, slice_index};
ghost use Rattle.qcow2_metadata.specs.Blocks.{with_counter};
ghost use Rattle.qcow2_metadata.specs.Places.{IsPlaced};

use crate::answer::Answer;
use crate::file::Image;
use crate::limits::is_addressable;
use cases::{Trouble, number, size};
use qcow2_metadata::{Header, RefBlock};
use qcow2_types::HostCluster;
use std::alloc::Global;

/// Creates a block with all refcounts 0.
pub fn new_block(alloc: Global, header: &Header) -> Result<RefBlock, Trouble> {
    Ok(RefBlock::new_cleared(alloc, header)?)
}

/// Loads the block in a cluster.
pub fn load_block(
    alloc: Global,
    image: &mut Image<'_>,
    header: &Header,
    cluster: HostCluster,
) -> Result<RefBlock, Trouble> {
    if !is_addressable(cluster, header.cluster_bits()) {
        return Err(Trouble::NoCall);
    }
    Ok(RefBlock::load(alloc, image, header, cluster)?)
}

// Returns true if the block has a cluster, and the cluster's offset fits an entry.
fn is_placed(block: &RefBlock) -> bool
    ensures { IsTrue result → IsPlaced block.now.cluster_bits block.now.cluster }
{
    match block.get_cluster() {
        Some(cluster) => is_addressable(cluster, block.cluster_bits()),
        None => false,
    }
}

fn cluster(block: &RefBlock) -> Answer {
    match block.get_cluster() {
        Some(cluster) => Answer::Number(cluster.0),
        None => Answer::None,
    }
}

// Returns the offset of the block.
fn offset(block: &RefBlock) -> Result<Answer, Trouble> {
    if block.get_cluster().is_some() && !is_placed(block) {
        return Err(Trouble::NoCall);
    }
    match block.get_offset() {
        Some(offset) => Ok(Answer::Number(offset.0)),
        None => Ok(Answer::None),
    }
}

// Returns the refcount at an index.
fn count(block: &RefBlock, index: usize) -> Result<Answer, Trouble> {
    if index >= block.entries() {
        return Err(Trouble::NoCall);
    }
    Ok(Answer::Number(block.get(index)))
}

// Returns whether the refcount at an index is 0.
fn is_zero(block: &RefBlock, index: usize) -> Result<Answer, Trouble> {
    if index >= block.entries() {
        return Err(Trouble::NoCall);
    }
    Ok(Answer::Flag(block.is_zero(index)))
}

// Like `is_zero`, but through the write guard.
fn guarded_is_zero(block: &mut RefBlock, index: usize) -> Result<Answer, Trouble> {
    if index >= block.entries() {
        return Err(Trouble::NoCall);
    }
    let guard = block.lock_write();
    Ok(Answer::Flag(guard.is_zero(index)))
}

// Increments the refcount at an index. The contract says what the guard's change means for the block.
fn increment(block: &mut RefBlock, index: usize) -> Result<Answer, Trouble>
    ensures raised { OnOk result (block.new ≡ with_counter block.old index (slice_index block.old.counters index + 1)) }
    ensures stays { OnErr result (block.new ≡ block.old) }
{
    if index >= block.entries() {
        return Err(Trouble::NoCall);
    }
    let mut guard = block.lock_write();
    match guard.increment(index) {
        Ok(count) => Ok(Answer::Number(count)),
        Err(fault) => Err(Trouble::Refused(fault)),
    }
}

fn decrement(block: &mut RefBlock, index: usize) -> Result<Answer, Trouble> {
    if index >= block.entries() {
        return Err(Trouble::NoCall);
    }
    let mut guard = block.lock_write();
    match guard.decrement(index) {
        Ok(count) => Ok(Answer::Number(count)),
        Err(fault) => Err(Trouble::Refused(fault)),
    }
}

fn lower(block: &mut RefBlock, index: usize, by: u64) -> Result<Answer, Trouble> {
    if index >= block.entries() {
        return Err(Trouble::NoCall);
    }
    let mut guard = block.lock_write();
    match guard.lower(index, by) {
        Ok(count) => Ok(Answer::Number(count)),
        Err(fault) => Err(Trouble::Refused(fault)),
    }
}

// Returns a property of the block.
fn ask(block: &RefBlock, word: &str) -> Result<Answer, Trouble> {
    match word {
        "entries" => Ok(Answer::Number(block.entries() as u64)),
        "cluster_bits" => Ok(Answer::Number(u64::from(block.cluster_bits()))),
        "cluster" => Ok(cluster(block)),
        "offset" => offset(block),
        "modified" => Ok(Answer::Flag(block.is_modified())),
        _ => Err(Trouble::NoCall),
    }
}

fn mark(block: &mut RefBlock, word: &str) -> Result<Answer, Trouble> {
    match word {
        "set_modified" => block.set_modified(),
        "clear_modified" => block.clear_modified(),
        _ => return ask(block, word),
    }
    Ok(Answer::Done)
}

fn place(block: &mut RefBlock, cluster: u64) -> Answer {
    block.set_cluster(HostCluster(cluster));
    Answer::Done
}

/// Makes a call of a block that needs no storage.
pub fn block_call(block: &mut RefBlock, words: &[&str]) -> Result<Answer, Trouble> {
    match words {
        [word] => mark(block, word),
        ["set_cluster", cluster] => Ok(place(block, number(cluster)?)),
        ["get", index] => count(block, size(index)?),
        ["is_zero", index] => is_zero(block, size(index)?),
        ["guard", "is_zero", index] => guarded_is_zero(block, size(index)?),
        ["increment", index] => increment(block, size(index)?),
        ["decrement", index] => decrement(block, size(index)?),
        ["lower", index, by] => lower(block, size(index)?, number(by)?),
        _ => Err(Trouble::NoCall),
    }
}

fn write(alloc: Global, block: &mut RefBlock, image: &mut Image<'_>) -> Result<Answer, Trouble> {
    if !is_placed(block) {
        return Err(Trouble::NoCall);
    }
    block.write(alloc, image)?;
    Ok(Answer::Done)
}

fn write_if_modified(
    alloc: Global,
    block: &mut RefBlock,
    image: &mut Image<'_>,
) -> Result<Answer, Trouble> {
    let Some(cluster) = block.get_cluster() else {
        return Err(Trouble::NoCall);
    };
    if !is_addressable(cluster, block.cluster_bits()) {
        return Err(Trouble::NoCall);
    }
    block.write_if_modified(alloc, image, cluster)?;
    Ok(Answer::Done)
}

/// Makes a call of a block that needs the storage.
pub fn block_in_file(
    alloc: Global,
    block: &mut RefBlock,
    image: &mut Image<'_>,
    words: &[&str],
) -> Result<Answer, Trouble> {
    match words {
        ["write"] => write(alloc, block, image),
        ["write_if_modified"] => write_if_modified(alloc, block, image),
        _ => Err(Trouble::NoCall),
    }
}
