// Makes the call of a chain for a line of a script, and returns the answer.
ghost use Rattle.std.specs.Prelude.{◌≡◌, IsFalse, IsSome, MatchOption, Some};
ghost use Rattle.imago_access.specs.Layer.{IsFree};
ghost use Rattle.qimg_calls.specs.Calls.{is_of_mapping};
ghost use Rattle.qimg_chain.specs.RunCalls.{IsCallOf, IsNoCall, MadeOne, told_of};

use crate::script::{Answer, Bytes, Line};
use imago_access::FormatAccess;
use imago_storage::Fault;
use qimg_calls::{Answer as CallAnswer, Call, RepairsLeaks, drive};
use std::alloc::Global;

/// The largest number of bytes that a line reads.
pub const MOST_READ: u64 = 32_768;

/// Returns the call of a line, or `None` if the line makes no call.
pub fn call_of(line: Line) -> Option<Call>
    ensures { MatchOption result (IsNoCall line) (IsCallOf line) }
{
    let call = match line {
        Line::Read { offset, length } => Call::Read {
            offset,
            length: length as usize,
        },
        Line::Write { offset, bytes } => Call::Write {
            offset,
            bytes: bytes.into_vec(),
        },
        Line::Zero { offset, length } => Call::WriteZeroes { offset, length },
        Line::Discard { offset, length } => Call::DiscardToZero { offset, length },
        Line::DiscardAny { offset, length } => Call::DiscardToAny { offset, length },
        Line::DiscardBacking { offset, length } => Call::DiscardToBacking { offset, length },
        Line::Grow { size, mode } => Call::ResizeGrow { size, mode },
        Line::Shrink { size } => Call::ResizeShrink { size },
        Line::Flush => Call::Flush,
        Line::Save => Call::Flush,
        Line::Repair => Call::RepairLeaks,
        Line::Commit => Call::CommitDown,
        Line::Size | Line::Check | Line::Plain { .. } => return None,
    };
    Some(call)
}

/// Makes one call of a chain, other than a call for a mapping.
///
/// # Errors
///
/// - `Fault::Memory` if memory runs out for the answer. The call isn't made then.
pub fn make<D: RepairsLeaks>(
    alloc: Global,
    chain: &mut FormatAccess<D>,
    call: Call,
) -> Result<CallAnswer, Fault>
    requires free { IsFree (D.layer chain.old.0) }
    requires other { IsFalse (is_of_mapping call) }
    ensures free { IsFree (D.layer chain.new.0) }
    ensures made { MadeOne D.DriverModel call result chain.old chain.new }
{
    let calls = [call];
    let mut answers = drive(alloc, chain, &calls)?;
    match answers.pop() {
        Some(answer) => Ok(answer),
        None => unreachable!(),
    }
}

/// Returns the answer to a line, from the answer to its call.
pub fn told(answer: CallAnswer) -> Answer
    requires known { IsSome (told_of answer) }
    ensures { told_of answer ≡ Some result }
{
    match answer {
        CallAnswer::Done => Answer::Done,
        CallAnswer::Bytes(bytes) => Answer::Bytes(Bytes::from(bytes)),
        CallAnswer::Leaks(leaks) => Answer::Number(leaks.len() as u64),
        CallAnswer::Refused(fault) => Answer::Refused(fault),
        CallAnswer::Mapped(..) | CallAnswer::Shallow(..) | CallAnswer::Prepared { .. } =>
            unreachable!(),
    }
}
