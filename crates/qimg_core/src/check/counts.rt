// Compares the refcounts of an image with the number of references to each cluster.
ghost use Rattle.std.specs.Prelude.{◌≡◌, ℕ, ◌+◌, ◌*◌, ◌<◌, ◌≤◌, ◌^◌, OnOk, IfOk, IfErr};
ghost use Rattle.imago_storage.specs.Calls.{UnchangedButFaults};
ghost use Rattle.qcow2_types.specs.Header.{Limited, Shaped};
ghost use Rattle.qcow2_types.specs.Counts.{counters_of_block};
ghost use Rattle.qcow2_types.specs.Consistency.{Nowhere, is_under_counted, leaks};
ghost use Rattle.qcow2_metadata.specs.Loading.{file};
ghost use Rattle.qimg_core.specs.Names.{AreRising};
ghost use Rattle.qimg_core.specs.Searches.{is_such, NoneWithin};
ghost use Rattle.qimg_core.specs.CheckParts.{Tells, IsBlocks, HoldsCounters, AreCompared};
ghost use Rattle.qimg_core.specs.Check.{IsUnder, NamesFirst, NoFinding, Found};
ghost use Rattle.qimg_core.specs.declared.check.search.Question.TheVariants as question;

use super::names::Tallies;
use super::search::{Question, first_such, references_along, way_from};
use super::{CheckFault, load_fault};
use imago_storage::Storage;
use qcow2_metadata::{Header, RefBlock};
use qcow2_types::{HostCluster, HostOffset};
use std::alloc::Global;

/// Loads the refcount block at `index` of the refcount table. Returns `None` if the block doesn't exist, or is past the end of the file.
/// All its refcounts are 0 then.
///
/// # Errors
///
/// - `CheckFault::Memory` if memory runs out.
/// - `CheckFault::Storage` if the storage fails.
fn block_of<S: Storage>(
    alloc: Global,
    image: &mut S,
    header: &Header,
    blocks: &[u64],
    index: usize,
) -> Result<Option<RefBlock>, CheckFault>
    requires blocks { IsBlocks (file (S.state image.old)) header.now.fields blocks.now }
    ensures ok { IfOk result (HoldsCounters (file (S.state image.old)) header.now.fields index) }
    ensures err { IfErr result (Found (S.state image.old) (S.state image.new) NoFinding) }
    ensures unchanged_but_faults { UnchangedButFaults (S.state image.old) (S.state image.new) }
    ensures faults { OnOk result ((S.state image.new).faults ≡ (S.state image.old).faults) }
{
    if index >= blocks.len() || blocks[index] == 0 || image.size() <= blocks[index] {
        return Ok(None);
    }
    let cluster = HostOffset(blocks[index]).cluster(header.cluster_bits());
    match RefBlock::load(alloc, image, header, cluster) {
        Ok(block) => Ok(Some(block)),
        Err(fault) => Err(load_fault(fault, CheckFault::Memory)),
    }
}

/// Returns the first cluster that the refcount block at `index` covers.
fn first_counted(header: &Header, index: usize) -> u64
    requires { index < 2 ^ 21 }
    ensures { result ≡ index * counters_of_block header.now.fields }
{
    let HostCluster(cluster) = HostCluster::from_ref_indices(index, 0, header.rb_bits());
    cluster
}

/// Checks that no cluster from `low` up to, but not including, `high` is referenced. Without `high` there is no upper bound.
///
/// # Errors
///
/// - `CheckFault::UnderCounted` with the lowest referenced cluster.
fn check_unreferenced(names: &Tallies, low: u64, high: Option<u64>) -> Result<(), CheckFault>
    requires { AreRising names.now.others }
    ensures ok { OnOk result (NoneWithin (is_such question.AtAll names.now) low high) }
    ensures err { IfErr result (NamesFirst names.now low high) }
{
    match first_such(names, Question::AtAll, low, high) {
        Some(cluster) => Err(CheckFault::UnderCounted(cluster)),
        None => Ok(()),
    }
}

/// Compares the refcounts of one block with the references to its clusters, and appends the leaks among them to `leaks`.
///
/// # Errors
///
/// - `CheckFault::UnderCounted` with the lowest cluster whose refcount is less than the number of its references.
/// - `CheckFault::Memory` if memory runs out.
/// - `CheckFault::Storage` if the storage fails.
fn compare_block<S: Storage>(
    alloc: Global,
    image: &mut S,
    header: &Header,
    blocks: &[u64],
    index: usize,
    names: &Tallies,
    leaks: &mut Vec<(u64, u64)>,
) -> Result<(), CheckFault>
    requires blocks { IsBlocks (file (S.state image.old)) header.now.fields blocks.now }
    requires told { Tells (file (S.state image.old)) header.now.fields names.now }
    requires rising { AreRising names.now.others }
    requires index { index < 2 ^ 20 }
    requires before { AreCompared (file (S.state image.old)) header.now.fields leaks.old.items
        (index * counters_of_block header.now.fields) }
    ensures ok { OnOk result (AreCompared (file (S.state image.old)) header.now.fields leaks.new.items
        ((index + 1) * counters_of_block header.now.fields)) }
    ensures err { IfErr result (Found (S.state image.old) (S.state image.new) (IsUnder (file (S.state image.old)) header.now.fields)) }
    ensures unchanged_but_faults { UnchangedButFaults (S.state image.old) (S.state image.new) }
    ensures faults { OnOk result ((S.state image.new).faults ≡ (S.state image.old).faults) }
{
    let low = first_counted(header, index);
    let Some(block) = block_of(alloc, image, header, blocks, index)? else {
        return check_unreferenced(names, low, Some(first_counted(header, index + 1)));
    };
    let mut way = way_from(&names.others, low);
    for place in 0..header.rb_entries() {
        let cluster = low + place as u64;
        let count = block.get(place) as u128;
        let references = references_along(names, cluster, &mut way);
        if count < references {
            return Err(CheckFault::UnderCounted(cluster));
        }
        if references < count {
            leaks.push((cluster, (count - references) as u64))?;
        }
    }
    Ok(())
}

/// Returns the leaks, by rising cluster: the clusters whose refcount is greater than the number of their references, each with the
/// difference. Each block is read once.
///
/// # Errors
///
/// - `CheckFault::UnderCounted` with the lowest cluster whose refcount is less than the number of its references.
/// - `CheckFault::Memory` if memory runs out.
/// - `CheckFault::Storage` if the storage fails.
pub fn compare<S: Storage>(
    alloc: Global,
    image: &mut S,
    header: &Header,
    blocks: &[u64],
    names: &Tallies,
) -> Result<Vec<(u64, u64)>, CheckFault>
    requires limited { Limited header.now.fields }
    requires shaped { Shaped header.now.fields }
    requires blocks { IsBlocks (file (S.state image.old)) header.now.fields blocks.now }
    requires told { Tells (file (S.state image.old)) header.now.fields names.now }
    requires rising { AreRising names.now.others }
    ensures ok { IfOk result (λ found. found.items ≡ leaks (file (S.state image.old)) header.now.fields) }
    ensures counted { OnOk result (Nowhere (is_under_counted (file (S.state image.old)) header.now.fields)) }
    ensures err { IfErr result (Found (S.state image.old) (S.state image.new) (IsUnder (file (S.state image.old)) header.now.fields)) }
    ensures unchanged_but_faults { UnchangedButFaults (S.state image.old) (S.state image.new) }
    ensures faults { OnOk result ((S.state image.new).faults ≡ (S.state image.old).faults) }
{
    let mut leaks = Vec::new(alloc);
    for index in 0..blocks.len() {
        compare_block(alloc, image, header, blocks, index, names, &mut leaks)?;
    }
    let end = first_counted(header, blocks.len());
    check_unreferenced(names, end, None)?;
    Ok(leaks)
}
