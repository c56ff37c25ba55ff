// Calls that change the disk while no mapping is kept.
ghost use Rattle.std.specs.Prelude.{◌≡◌, IsTrue, map};
ghost use Rattle.imago_access.specs.Layer.{IsFree};
ghost use Rattle.qimg_calls.specs.Calls.{is_lone_change};
ghost use Rattle.qimg_calls.specs.CommittingDown.{next_is_prepared};
ghost use Rattle.qimg_calls.specs.declared.call.Call.TheVariants as calls;
ghost use Rattle.qimg_calls.specs.Making.{MakesAlone};

use super::looking::told;
use crate::call::{Answer, Call};
use crate::repairing::{self, RepairsLeaks};
use imago_access::{FormatAccess, FormatDriverInstance, PreallocateMode};
use imago_storage::Fault;
use std::alloc::Global;

/// Writes bytes from an offset on.
///
/// # Preconditions
///
/// No mapping is prepared in the top image.
pub fn write<D: FormatDriverInstance>(
    alloc: Global,
    chain: &mut FormatAccess<D>,
    offset: u64,
    bytes: &Vec<u8>,
) -> Answer
    requires free { IsFree (D.layer chain.old.0) }
    ensures { MakesAlone D.DriverModel (calls.Write offset bytes.now) result chain.old chain.new }
{
    told(chain.write(alloc, bytes, offset))
}

/// Makes a range read as 0.
///
/// # Preconditions
///
/// No mapping is prepared in the top image.
pub fn write_zeroes<D: FormatDriverInstance>(
    alloc: Global,
    chain: &mut FormatAccess<D>,
    offset: u64,
    length: u64,
) -> Answer
    requires free { IsFree (D.layer chain.old.0) }
    ensures { MakesAlone D.DriverModel (calls.WriteZeroes offset length) result chain.old chain.new }
{
    told(chain.write_zeroes(alloc, offset, length))
}

/// Makes a range read as 0, and deallocates the units (clusters of qcow2) that it covers completely.
///
/// # Preconditions
///
/// No mapping is prepared in the top image.
pub fn discard_to_zero<D: FormatDriverInstance>(
    alloc: Global,
    chain: &mut FormatAccess<D>,
    offset: u64,
    length: u64,
) -> Answer
    requires free { IsFree (D.layer chain.old.0) }
    ensures { MakesAlone D.DriverModel (calls.DiscardToZero offset length) result chain.old chain.new }
{
    told(chain.discard_to_zero(alloc, offset, length))
}

/// Discards a range. Each of its bytes may then have any value.
///
/// # Preconditions
///
/// No mapping is prepared in the top image.
pub fn discard_to_any<D: FormatDriverInstance>(
    alloc: Global,
    chain: &mut FormatAccess<D>,
    offset: u64,
    length: u64,
) -> Answer
    requires free { IsFree (D.layer chain.old.0) }
    ensures { MakesAlone D.DriverModel (calls.DiscardToAny offset length) result chain.old chain.new }
{
    told(chain.discard_to_any(alloc, offset, length))
}

/// Discards a range. Each of its bytes then reads as before, or as in the backing file.
///
/// # Preconditions
///
/// No mapping is prepared in the top image.
pub fn discard_to_backing<D: FormatDriverInstance>(
    alloc: Global,
    chain: &mut FormatAccess<D>,
    offset: u64,
    length: u64,
) -> Answer
    requires free { IsFree (D.layer chain.old.0) }
    ensures { MakesAlone D.DriverModel (calls.DiscardToBacking offset length) result chain.old chain.new }
{
    told(chain.discard_to_backing(alloc, offset, length))
}

/// Maps a run of a range so that it can be written directly in its storage.
///
/// # Preconditions
///
/// No mapping is prepared in the top image.
pub fn ensure_data_mapping<D: FormatDriverInstance>(
    alloc: Global,
    chain: &mut FormatAccess<D>,
    offset: u64,
    length: u64,
    overwrite: bool,
) -> Answer
    requires free { IsFree (D.layer chain.old.0) }
    ensures { MakesAlone D.DriverModel (calls.EnsureDataMapping offset length overwrite) result chain.old chain.new }
{
    match chain.ensure_data_mapping(alloc, offset, length, overwrite) {
        Ok((mapping, count)) => Answer::Mapped(mapping, count),
        Err(fault) => Answer::Refused(fault),
    }
}

/// Makes the disk longer.
///
/// # Preconditions
///
/// No mapping is prepared in the top image.
pub fn resize_grow<D: FormatDriverInstance>(
    alloc: Global,
    chain: &mut FormatAccess<D>,
    size: u64,
    mode: PreallocateMode,
) -> Answer
    requires free { IsFree (D.layer chain.old.0) }
    ensures { MakesAlone D.DriverModel (calls.ResizeGrow size mode) result chain.old chain.new }
{
    told(chain.resize_grow(alloc, size, mode))
}

/// Makes the disk shorter.
///
/// # Preconditions
///
/// No mapping is prepared in the top image.
pub fn resize_shrink<D: FormatDriverInstance>(
    alloc: Global,
    chain: &mut FormatAccess<D>,
    size: u64,
) -> Answer
    requires free { IsFree (D.layer chain.old.0) }
    ensures { MakesAlone D.DriverModel (calls.ResizeShrink size) result chain.old chain.new }
{
    told(chain.resize_shrink(alloc, size))
}

/// Repairs the leaks of the top image.
///
/// # Preconditions
///
/// No mapping is prepared in the top image.
pub fn repair_leaks<D: RepairsLeaks>(alloc: Global, chain: &mut FormatAccess<D>) -> Answer
    requires free { IsFree (D.layer chain.old.0) }
    ensures { MakesAlone D.DriverModel calls.RepairLeaks result chain.old chain.new }
{
    match repairing::repair_leaks(alloc, chain) {
        Ok(leaks) => Answer::Leaks(leaks),
        Err(fault) => Answer::Refused(fault),
    }
}

/// Commits the data of the top image to the layer below it. If a mapping is prepared in that layer, the answer is `Fault::BadArgument`.
///
/// # Preconditions
///
/// No mapping is prepared in the top image.
pub fn commit_down<D: FormatDriverInstance>(alloc: Global, chain: &mut FormatAccess<D>) -> Answer
    requires free { IsFree (D.layer chain.old.0) }
    ensures { MakesAlone D.DriverModel calls.CommitDown result chain.old chain.new }
{
    if chain.inner().failed() {
        return Answer::Refused(Fault::Failed);
    }
    if next_is_prepared(chain) {
        return Answer::Refused(Fault::BadArgument);
    }
    told(chain.commit_down(alloc))
}

/// Returns true if a mapping with something to commit is prepared in the layer below the top.
fn next_is_prepared<D: FormatDriverInstance>(chain: &FormatAccess<D>) -> bool
    ensures { result ≡ next_is_prepared (map D.layer chain.now.1) }
{
    match chain.below() {
        None => false,
        Some(next) => next.inner().prepared(),
    }
}

/// Makes a call that changes the disk, repairs leaks or commits to the layer below, and keeps no mapping.
///
/// # Preconditions
///
/// No mapping is prepared in the top image. The call is none for a mapping, and does more than look.
pub fn change<D: RepairsLeaks>(alloc: Global, chain: &mut FormatAccess<D>, call: &Call) -> Answer
    requires free { IsFree (D.layer chain.old.0) }
    requires changes { IsTrue (is_lone_change call.now) }
    ensures { MakesAlone D.DriverModel call.now result chain.old chain.new }
{
    match call {
        Call::Write { offset, bytes } => write(alloc, chain, *offset, bytes),
        Call::WriteZeroes { offset, length } => write_zeroes(alloc, chain, *offset, *length),
        Call::DiscardToZero { offset, length } => discard_to_zero(alloc, chain, *offset, *length),
        Call::DiscardToAny { offset, length } => discard_to_any(alloc, chain, *offset, *length),
        Call::DiscardToBacking { offset, length } => {
            discard_to_backing(alloc, chain, *offset, *length)
        }
        Call::EnsureDataMapping {
            offset,
            length,
            overwrite,
        } => ensure_data_mapping(alloc, chain, *offset, *length, *overwrite),
        Call::ResizeGrow { size, mode } => resize_grow(alloc, chain, *size, *mode),
        Call::ResizeShrink { size } => resize_shrink(alloc, chain, *size),
        Call::RepairLeaks => repair_leaks(alloc, chain),
        Call::CommitDown => commit_down(alloc, chain),
        _ => unreachable!(),
    }
}
