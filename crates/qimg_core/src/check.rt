//! The checker. It reads the bytes of a qcow2 file, reports the first finding, or lists the leaked clusters of a consistent image. It uses
//! no cache and no driver.
ghost use Rattle.std.specs.Prelude.{◌≡◌, length, true, false, Ok, OnOk, IfOk, IfErr, IsTrue};
ghost use Rattle.imago_storage.specs.Calls.{UnchangedButFaults};
ghost use Rattle.qcow2_types.specs.Header.{Limited, Shaped, header_of, has_external_data};
ghost use Rattle.qcow2_types.specs.Consistency.{IsVerdict, Nowhere, tables_sound};
ghost use Rattle.qcow2_metadata.specs.Loading.{file};
ghost use Rattle.qimg_core.specs.Names.{AreRising, ListsOnlyOverflow};
ghost use Rattle.qimg_core.specs.Searches.{is_such};
ghost use Rattle.qimg_core.specs.CheckParts.{Tells, IsBlocksEnd, counted_clusters, HasCells, HoldsPlaces};
ghost use Rattle.qimg_core.specs.Check.{IsUnsound, SharesFirst, fault_of_load, Found, IsFinding};
ghost use Rattle.qimg_core.specs.declared.check.CheckFault.TheVariants.{Memory};
ghost use Rattle.qimg_core.specs.declared.check.search.Question.TheVariants as question;

use imago_storage::{Fault, Storage};
use qcow2_metadata::Header;
use std::alloc::{AllocError, AllocFailed, Global};
use thiserror::Error;

mod counts;
mod entries;
mod names;
mod search;
mod tables;

use counts::compare;
use names::{Tallies, no_references, sort_references};
use search::{Question, least_such};
use tables::{Places, places_of, reference_contents, reference_structure};

/// A finding about an image, or the reason why the image couldn't be checked. It is displayed as `error N`.
#[derive(Clone, Copy, Debug, PartialEq, Eq, Error)]
pub enum CheckFault {
    /// The header doesn't load for writing.
    #[error("error 4")]
    Header,
    /// The image has snapshots.
    #[error("error 23")]
    Snapshots,
    /// The data is in an external file.
    #[error("error 24")]
    External,
    /// A table has an invalid entry.
    #[error("error 5")]
    Table,
    /// This cluster of the header, a table or a refcount block is referenced more than once.
    #[error("error 25")]
    SharedTable(u64),
    /// This cluster has the COPIED flag in an L2 entry, and is referenced more than once.
    #[error("error 26")]
    FalseCopied(u64),
    /// The refcount of this cluster is less than the number of its references.
    #[error("error 27")]
    UnderCounted(u64),
    /// Memory ran out.
    #[error("error 20")]
    Memory,
    /// The storage failed, and has counted the fault.
    #[error("error 21")]
    Storage,
}

impl From<AllocError> for CheckFault {
    ghost from_gives = { λ _ e. e ≡ Memory };

    fn from(_: AllocError) -> Self {
        CheckFault::Memory
    }
}

impl<T: Drop> From<AllocFailed<T>> for CheckFault {
    ghost from_gives = { λ _ e. e ≡ Memory };

    fn from(_: AllocFailed<T>) -> Self {
        CheckFault::Memory
    }
}

/// Returns the fault of a failed load: `Memory` and `Storage` stay what they are, and any other fault becomes `other`.
fn load_fault(fault: Fault, other: CheckFault) -> CheckFault
    ensures { result ≡ fault_of_load other fault }
{
    match fault {
        Fault::Memory => CheckFault::Memory,
        Fault::Storage => CheckFault::Storage,
        _ => other,
    }
}

/// Loads the header and checks that the image's tables can be checked: it has no snapshots and no external data file.
fn readable_header<S: Storage>(alloc: Global, image: &mut S) -> Result<Header, CheckFault>
    ensures loads { IfOk result (λ header. header_of true (file (S.state image.old)) ≡ Ok header) }
    ensures snapshots { IfOk result (λ header. header.fields.snapshots ≡ 0) }
    ensures inside { IfOk result (λ header. has_external_data header.fields ≡ false) }
    ensures err { IfErr result (Found (S.state image.old) (S.state image.new) (IsFinding (file (S.state image.old)))) }
    ensures unchanged_but_faults { UnchangedButFaults (S.state image.old) (S.state image.new) }
    ensures faults { OnOk result ((S.state image.new).faults ≡ (S.state image.old).faults) }
{
    let header = match Header::load(alloc, image, true) {
        Ok(header) => header,
        Err(fault) => return Err(load_fault(fault, CheckFault::Header)),
    };
    if header.snapshots() != 0 {
        return Err(CheckFault::Snapshots);
    }
    if header.external_data_file() {
        return Err(CheckFault::External);
    }
    Ok(header)
}

/// Returns the number of `blocks` up to the last one that exists. An offset of 0 means that there is no block.
fn blocks_end(blocks: &[u64]) -> usize
    ensures { IsBlocksEnd blocks.now result }
{
    let mut end = blocks.len();
    while end > 0 {
        if blocks[end - 1] != 0 {
            return end;
        }
        end -= 1;
    }
    0
}

/// Returns how many cells to allocate: one for each cluster of a file of `size` bytes, but only for clusters that the first `blocks`
/// refcount blocks cover. A consistent image references few other clusters.
fn cell_count(header: &Header, size: u64, blocks: usize) -> usize
    ensures { result ≡ counted_clusters header.now.fields size blocks }
{
    let counted = (blocks as u64).saturating_mul(header.rb_entries() as u64);
    let clusters = size.div_ceil(header.cluster_size() as u64);
    clusters.min(counted) as usize
}

/// Counts the references to each cluster, and also returns the offsets of the refcount blocks.
fn names_of<S: Storage>(
    alloc: Global,
    image: &mut S,
    header: &Header,
    places: Places,
) -> Result<(Tallies, Vec<u64>), CheckFault>
    requires limited { Limited header.now.fields }
    requires shaped { Shaped header.now.fields }
    requires places { HoldsPlaces (file (S.state image.old)) header.now.fields places.tables.items places.blocks.items }
    ensures told { IfOk result (λ found. Tells (file (S.state image.old)) header.now.fields found.0) }
    ensures cells { IfOk result (λ found. HasCells (length (S.state image.old).bytes) header.now.fields places.blocks.items found.0) }
    ensures spares { IfOk result (λ found. ListsOnlyOverflow found.0) }
    ensures rising { IfOk result (λ found. AreRising found.0.others) }
    ensures blocks { IfOk result (λ found. found.1.items ≡ places.blocks.items) }
    ensures sound { OnOk result (IsTrue (tables_sound (file (S.state image.old)) header.now.fields)) }
    ensures err { IfErr result (Found (S.state image.old) (S.state image.new) (IsUnsound (file (S.state image.old)) header.now.fields)) }
    ensures unchanged_but_faults { UnchangedButFaults (S.state image.old) (S.state image.new) }
    ensures faults { OnOk result ((S.state image.new).faults ≡ (S.state image.old).faults) }
{
    let count = cell_count(header, image.size(), blocks_end(&places.blocks));
    let mut names = no_references(alloc, count)?;
    reference_structure(&mut names, header, &places)?;
    let Places { tables, blocks } = places;
    reference_contents(alloc, image, header, tables, &mut names)?;
    sort_references(&mut names);
    Ok((names, blocks))
}

/// Returns the first finding among clusters that are referenced more than once, if any.
fn check_shared(names: &Tallies) -> Result<(), CheckFault>
    requires { AreRising names.now.others }
    ensures shared { OnOk result (Nowhere (is_such question.Shared names.now)) }
    ensures copied { OnOk result (Nowhere (is_such question.FalselyCopied names.now)) }
    ensures err { IfErr result (SharesFirst names.now) }
{
    // If nothing is wrong, one pass over the clusters is enough.
    if least_such(names, Question::Either).is_none() {
        return Ok(());
    }
    if let Some(cluster) = least_such(names, Question::Shared) {
        return Err(CheckFault::SharedTable(cluster));
    }
    if let Some(cluster) = least_such(names, Question::FalselyCopied) {
        return Err(CheckFault::FalseCopied(cluster));
    }
    Ok(())
}

/// Checks the qcow2 image in `image`, and returns its leaks.
///
/// The image is consistent if all of these hold:
///
/// - The header loads for writing. The image has no snapshots and no external data file.
/// - Each entry of the L1 table, the L2 tables and the refcount table is valid.
/// - Each cluster of the header, a table or a refcount block is referenced once.
/// - Each cluster to which an L2 entry with the COPIED flag points is referenced once.
/// - The refcount of each cluster is at least the number of its references.
///
/// A leak is a cluster whose refcount is greater than the number of its references. The result lists the leaks by rising cluster number,
/// each with its excess refcount. A cluster number is the offset in the file divided by the cluster size.
///
/// Bytes past the end of the file count as 0, and aren't read. The file isn't changed. The rules are those of the format's sections
/// "Header", "Host cluster management" and "Cluster mapping".
///
/// # Errors
///
/// - The first finding, in the order of `CheckFault`, with the lowest such cluster.
/// - `CheckFault::Memory` if memory runs out.
/// - `CheckFault::Storage` if the storage fails.
pub fn check<S: Storage>(alloc: Global, image: &mut S) -> Result<Vec<(u64, u64)>, CheckFault>
    ensures ok { IfOk result (λ found. IsVerdict (file (S.state image.old)) (Ok found.items)) }
    ensures err { IfErr result (Found (S.state image.old) (S.state image.new) (IsFinding (file (S.state image.old)))) }
    ensures unchanged_but_faults { UnchangedButFaults (S.state image.old) (S.state image.new) }
    ensures faults { OnOk result ((S.state image.new).faults ≡ (S.state image.old).faults) }
{
    let mut header = readable_header(alloc, image)?;
    // The lists below are in memory at the same time as the header, so the feature names are dropped first.
    header.forget_feature_names();
    let places = places_of(alloc, image, &header)?;
    let (names, blocks) = names_of(alloc, image, &header, places)?;
    check_shared(&names)?;
    compare(alloc, image, &header, &blocks, &names)
}
