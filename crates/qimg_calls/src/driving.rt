// `drive`: makes a list of calls on a chain, one after another. Definitions: specs/Runs.antt and specs/Since.antt.
ghost use Rattle.std.specs.Prelude.{◌≡◌, ◌≤◌, ◌<◌, [], None, length, map, IsTrue, IsFalse, IfOk, IfErr, OnOk, OnErr, IsOkUnless, drop, take, vec_capacity};
ghost use Rattle.imago_access.specs.Layer.{IsFree};
ghost use Rattle.qimg_calls.specs.Calls.{any_commit_down};
ghost use Rattle.qimg_calls.specs.CommittingDown.{StayClean};
ghost use Rattle.qimg_calls.specs.Since.{Since};
ghost use Rattle.qimg_calls.specs.Held.{chain_with_mapping, MappingIsPrepared, IsReady};
ghost use Rattle.qimg_calls.specs.Marking.{StaysFailed, answer_of_failed};
ghost use Rattle.qimg_calls.specs.Making.{Answers, AnswersAll, CancelsKept, MadeAll};
ghost use Rattle.qimg_calls.specs.Runs.{CutShort, Driven, HoldsSince, MayCommit};

use crate::call::{Answer, Call};
use crate::making::{Kept, cancel, make};
use crate::repairing::RepairsLeaks;
use imago_access::{FormatAccess, FormatDriverInstance};
use imago_storage::Fault;
use std::alloc::{AllocError, Global};

/// Makes each call of a list on a chain (an image and its backing files), and returns the answer to each.
///
/// A prepared mapping (a run that is written before it is committed) is kept until a later call commits or cancels it. A mapping that is
/// left at the end is cancelled. If a call isn't allowed, it isn't made, and its answer is `Fault::BadArgument`. A commit, a cancel and a
/// `WriteMapped` need a kept mapping. While a mapping is kept, no other call that changes the disk is allowed, even if the mapping has
/// nothing to commit.
///
/// A chain is ready (`IsReady`) if the driver's invariant holds for the top image, the images below have in memory what their files say, no
/// image has failed, and nothing is dirty below the top. On a ready chain the calls read and change the guest disk:
///
/// - Each call has its specified effect on the disk (`Step`), or fails for a specified cause. If a cause is known before anything is done,
///   the first such cause is the answer. A call that has nothing to do succeeds.
/// - A discard deallocates each unit (cluster of qcow2) that its range covers completely and that the format can deallocate. A zeroing
///   zeroes each unit that its range covers completely.
/// - A repair of leaks changes no byte of the disk. After it no cluster of the top's file leaks. Other calls keep what leaks.
/// - A commit to the layer below changes no byte of the disk. After it that layer reads as the disk, below the disk's size.
/// - No other call changes a file below the top, and a commit changes only that of the layer below the top.
///
/// On any chain, ready or not, each answer fits its call, and is one that the call can have, given what lookups report of the disk. A call
/// that fails before anything is done, or has nothing to do, makes no request and changes nothing. An image that has failed stays failed. If
/// the top had failed before the list, each call fails.
///
/// # Preconditions
///
/// No mapping is prepared in the chain.
///
/// For a list with a commit to the layer below, that layer must be read-only, or well-formed with a file that says what its disk is
/// (`MayCommit`). Otherwise nothing is known of the disk and of crash images.
///
/// # Errors
///
/// - `Fault::Memory` if memory for an answer runs out. That call and all later ones aren't made.
///
/// # On error
///
/// After the first answer `Fault::Memory` or `Fault::Storage` on a ready chain, only this holds: no file below the top changes but by a
/// commit, and a qcow2 top has failed if its own storage has.
///
/// # Crash safety
///
/// On a ready chain each crash image (the top's file after a crash between two requests) is consistent. At each offset below the size of the
/// disk at the last flush, it reads as at that flush, or as a call that has begun since then writes it. Right after a flush the file reads as
/// the disk. A flush counts if no mapping with something to commit was prepared, and so does a repair of leaks. So does a commit to the
/// layer below, also if it fails after its first flush, with another fault than `Memory` and `Storage`. After that flush each pair of crash
/// images of the top's file and of the file below it reads as the disk. A raw file doesn't store the size of its disk, so after a crash its
/// disk has the size of the file, and only bytes below the smallest size since the flush are specified.
pub fn drive<D: RepairsLeaks>(
    alloc: Global,
    chain: &mut FormatAccess<D>,
    calls: &[Call],
) -> Result<Vec<Answer>, Fault>
    requires free { IsFree (D.layer chain.old.0) }
    ensures headline { (since : Since) → IsReady D.DriverModel chain.old → MayCommit D.DriverModel calls.now chain.old
        → HoldsSince D.DriverModel since chain.old
        → IfOk result (λ answers. Driven D.DriverModel since calls.now answers.items chain.old chain.new) }
    ensures made { IfOk result (λ answers. MadeAll D.DriverModel calls.now answers.items chain.old chain.new) }
    ensures cut_short { IfErr result (λ _. CutShort D.DriverModel calls.now chain.old chain.new) }
    ensures each { IfOk result (λ answers. length answers.items ≡ length calls.now) }
    ensures refused { IsOkUnless result Fault.Memory }
    ensures free { IsFree (D.layer chain.new.0) }
    ensures stays_failed { StaysFailed D.DriverModel chain.old chain.new }
    ensures all_fail { IsTrue (D.layer chain.old.0).failed → IfOk result (λ answers. answers.items ≡ map answer_of_failed calls.now) }
    ensures fixed { (D.layer chain.new.0).fixed ≡ (D.layer chain.old.0).fixed }
    ensures below { IsFalse (any_commit_down calls.now) → StayClean D.DriverModel chain.old.1 chain.new.1 }
    ensures deeper { StayClean D.DriverModel (drop 1 chain.old.1) (drop 1 chain.new.1) }
{
    let mut answers = match Vec::with_capacity(alloc, calls.len()) {
        Ok(answers) => answers,
        Err(_) => return Err(Fault::Memory),
    };
    let (outcome, kept) = make_all(alloc, chain, calls, &mut answers);
    give_up(chain, kept);
    outcome?;
    Ok(answers)
}

/// Cancels the mapping that the list has prepared and neither committed nor cancelled, if any. No request is made, and guest data doesn't
/// change. In a qcow2 image the clusters that were allocated for the mapping go to the free list.
fn give_up<D: FormatDriverInstance>(chain: &mut FormatAccess<D>, kept: Kept<D::State>)
    requires mapping_prepared { MappingIsPrepared D.DriverModel (chain_with_mapping chain.old kept) }
    ensures { CancelsKept D.DriverModel (chain_with_mapping chain.old kept) chain.new }
{
    if let Some(mapping) = kept {
        cancel(chain, mapping);
    }
}

/// Makes one call, or answers `Fault::BadArgument` if the call isn't allowed with, or without, a kept mapping.
fn answer<D: RepairsLeaks>(
    alloc: Global,
    chain: &mut FormatAccess<D>,
    kept: Kept<D::State>,
    call: &Call,
) -> (Result<Answer, AllocError>, Kept<D::State>)
    requires mapping_prepared { MappingIsPrepared D.DriverModel (chain_with_mapping chain.old kept) }
    ensures answered { IfOk result.0 (λ answer. Answers D.DriverModel call.now answer (chain_with_mapping chain.old kept) (chain_with_mapping chain.new result.1)) }
    ensures none { IfErr result.0 (λ _. chain_with_mapping chain.new result.1 ≡ chain_with_mapping chain.old kept) }
{
    if call.is_out_of_place(kept.is_some()) {
        return (Ok(Answer::Refused(Fault::BadArgument)), kept);
    }
    make(alloc, chain, kept, call)
}

/// Makes calls and appends the answer to each, until memory for an answer runs out. `answers` has the capacity for all of them.
fn make_all<D: RepairsLeaks>(
    alloc: Global,
    chain: &mut FormatAccess<D>,
    calls: &[Call],
    answers: &mut Vec<Answer>,
) -> (Result<(), Fault>, Kept<D::State>)
    requires free { IsFree (D.layer chain.old.0) }
    requires empty { answers.old.items ≡ [] }
    requires room { length calls.now ≤ vec_capacity answers.old }
    ensures mapping_prepared { MappingIsPrepared D.DriverModel (chain_with_mapping chain.new result.1) }
    ensures ok { OnOk result.0 (AnswersAll D.DriverModel calls.now answers.new.items (chain_with_mapping chain.old None) (chain_with_mapping chain.new result.1)) }
    ensures fewer { IfErr result.0 (λ _. length answers.new.items < length calls.now) }
    ensures memory { IsOkUnless result.0 Fault.Memory }
    ensures err { OnErr result.0 (AnswersAll D.DriverModel (take (length answers.new.items) calls.now) answers.new.items
        (chain_with_mapping chain.old None) (chain_with_mapping chain.new result.1)) }
{
    let mut kept = None;
    for call in calls {
        let (outcome, now) = answer(alloc, chain, kept, call);
        kept = now;
        match outcome {
            Ok(told) => match answers.push(told) {
                Ok(()) => (),
                Err(_) => unreachable!(),
            },
            Err(_) => return (Err(Fault::Memory), kept),
        }
    }
    (Ok(()), kept)
}
