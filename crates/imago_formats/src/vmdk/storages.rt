// Calls over all storages of an image: the descriptor's file, and the files of its extents.
ghost use Rattle.std.specs.Prelude.{IsErrOf, ◌≡◌, ◌<◌, ◌∷◌, map, length, OnOk, IfErr, IsOk};
ghost use Rattle.imago_storage.specs.Calls.{Cause, IsFaultless};
ghost use Rattle.imago_formats.specs.VmdkFiles.{IsStopped, states};
ghost use Rattle.imago_storage.specs.State.{IsAlignment};
ghost use Rattle.imago_access.specs.FileReads.{FileReadCause};
ghost use Rattle.imago_access.specs.Files.{AreRead, UnchangedButMoreFaults, OverflowsIn, Pairs, HadNoResourceError, greatest};

use imago_storage::{Fault, Storage, StorageExt, larger_alignment};
use std::alloc::Global;

/// Returns the greatest request alignment, in bytes.
pub(crate) fn greatest_req_align<S: Storage>(image: &S, files: &[S]) -> usize
    ensures value { result ≡ greatest (λ s. s.shape.req_align) (S.state image.now) (map S.state files.now) }
    ensures alignment { IsAlignment result }
{
    let mut most = image.req_align();
    for file in files {
        most = larger_alignment(most, file.req_align());
    }
    most
}

/// Returns the greatest memory alignment, in bytes.
pub(crate) fn greatest_mem_align<S: Storage>(image: &S, files: &[S]) -> usize
    ensures value { result ≡ greatest (λ s. s.shape.mem_align) (S.state image.now) (map S.state files.now) }
    ensures alignment { IsAlignment result }
{
    let mut most = image.mem_align();
    for file in files {
        most = larger_alignment(most, file.mem_align());
    }
    most
}

/// A maintenance call of a storage.
#[derive(Clone, Copy)]
pub(crate) enum Upkeep {
    /// Flushes the storage.
    Flush,
    /// Makes the storage's data durable.
    Sync,
    /// Drops cached data.
    Invalidate,
}

/// Makes the call on the image file and then on the other files, in order, up to the first error.
pub(crate) fn keep_up<S: Storage>(
    image: &mut S,
    files: &mut [S],
    upkeep: Upkeep,
) -> Result<(), Fault>
    ensures unchanged_but_faults { Pairs UnchangedButMoreFaults (states S.state image.old files.old) (states S.state image.new files.new) }
    ensures ok { OnOk result (Pairs IsFaultless (states S.state image.old files.old) (states S.state image.new files.new)) }
    ensures err { IfErr result (IsStopped (states S.state image.old files.old) (states S.state image.new files.new)) }
{
    keep_one(image, upkeep)?;
    keep_files(files, upkeep)
}

// Makes the call on each of the files, in order, up to the first error.
fn keep_files<S: Storage>(files: &mut [S], upkeep: Upkeep) -> Result<(), Fault>
    ensures unchanged_but_faults { Pairs UnchangedButMoreFaults (map S.state files.old) (map S.state files.new) }
    ensures ok { OnOk result (Pairs IsFaultless (map S.state files.old) (map S.state files.new)) }
    ensures err { IfErr result (IsStopped (map S.state files.old) (map S.state files.new)) }
{
    for i in 0..files.len() {
        keep_one(&mut files[i], upkeep)?;
    }
    Ok(())
}

// Makes the call on one storage.
fn keep_one<S: Storage>(storage: &mut S, upkeep: Upkeep) -> Result<(), Fault>
    ensures unchanged_but_faults { UnchangedButMoreFaults (S.state storage.old) (S.state storage.new) }
    ensures ok { OnOk result (IsFaultless (S.state storage.old) (S.state storage.new)) }
    ensures err { IfErr result (Cause (S.state storage.old).faults (S.state storage.new).faults) }
{
    match upkeep {
        Upkeep::Flush => storage.flush(),
        Upkeep::Sync => storage.sync(),
        Upkeep::Invalidate => storage.invalidate_cache(),
    }
}

/// Fills the buffer with the bytes of a storage from `place` on. Number 0 is the image file, and the other files follow. If the storage
/// doesn't exist, the bytes are 0.
pub(crate) fn read_storage<S: Storage>(
    alloc: Global,
    image: &mut S,
    files: &mut [S],
    storage: usize,
    place: u64,
    buf: &mut [u8],
) -> Result<(), Fault>
    ensures bytes { OnOk result (AreRead (states S.state image.old files.old) storage place (length buf.old) buf.new) }
    ensures unchanged_but_faults { Pairs UnchangedButMoreFaults (states S.state image.old files.old) (states S.state image.new files.new) }
    ensures whole { HadNoResourceError result → Pairs IsFaultless (states S.state image.old files.old) (states S.state image.new files.new) }
    ensures overflow { OverflowsIn (states S.state image.old files.old) storage place (length buf.old)
        → IsErrOf result Fault.RangeOverflow }
    ensures beyond { length files.old < storage → IsOk result }
    ensures cause { let olds = states S.state image.old files.old in
        IfErr result (FileReadCause (OverflowsIn olds storage place (length buf.old)) olds (states S.state image.new files.new)) }
    ensures empty { length buf.old ≡ 0
        → IsOk result × (S.state image.new ≡ S.state image.old) × (map S.state files.new ≡ map S.state files.old) }
{
    if storage == 0 {
        return image.read(alloc, buf, place);
    }
    if storage > files.len() {
        buf.fill(0);
        return Ok(());
    }
    files[storage - 1].read(alloc, buf, place)
}
