// Calls that only read, and calls that write dirty data. They are allowed whether or not a mapping is kept.
ghost use Rattle.std.specs.Prelude.{◌≡◌, IfOk, IfErr};
ghost use Rattle.qimg_calls.specs.declared.call.Call.TheVariants as calls;
ghost use Rattle.qimg_calls.specs.declared.call.Answer.TheVariants as told;
ghost use Rattle.qimg_calls.specs.Making.{MakesBeside, done_or_refused};

use crate::call::Answer;
use imago_access::{FormatAccess, FormatDriverInstance};
use imago_storage::Fault;
use std::alloc::{AllocError, Global};

/// Returns the answer to a call that only succeeds or fails.
pub fn told(outcome: Result<(), Fault>) -> Answer
    ensures { result ≡ done_or_refused outcome }
{
    match outcome {
        Ok(()) => Answer::Done,
        Err(fault) => Answer::Refused(fault),
    }
}

/// Reads a range of the disk. If memory for the bytes runs out, the call fails before it is made.
pub fn read<D: FormatDriverInstance>(
    alloc: Global,
    chain: &mut FormatAccess<D>,
    offset: u64,
    length: usize,
) -> Result<Answer, AllocError>
    ensures made { IfOk result (λ answer. MakesBeside D.DriverModel (calls.Read offset length) answer chain.old chain.new) }
    ensures none { IfErr result (λ _. chain.new ≡ chain.old) }
{
    let mut buf = vec![in alloc; 0u8; length]?;
    match chain.read(alloc, &mut buf, offset) {
        Ok(()) => Ok(Answer::Bytes(buf)),
        Err(fault) => Ok(Answer::Refused(fault)),
    }
}

/// Looks up the mapping of a range through the chain.
pub fn get_mapping<D: FormatDriverInstance>(
    alloc: Global,
    chain: &mut FormatAccess<D>,
    offset: u64,
    length: u64,
) -> Answer
    ensures { MakesBeside D.DriverModel (calls.GetMapping offset length) result chain.old chain.new }
{
    match chain.get_mapping(alloc, offset, length) {
        Ok((mapping, count)) => Answer::Mapped(mapping, count),
        Err(fault) => Answer::Refused(fault),
    }
}

/// Looks up the mapping of a range in the top layer only.
pub fn get_shallow_mapping<D: FormatDriverInstance>(
    alloc: Global,
    chain: &mut FormatAccess<D>,
    offset: u64,
    length: u64,
) -> Answer
    ensures { MakesBeside D.DriverModel (calls.GetShallowMapping offset length) result chain.old chain.new }
{
    match chain.get_shallow_mapping(alloc, offset, length) {
        Ok((mapping, count)) => Answer::Shallow(mapping, count),
        Err(fault) => Answer::Refused(fault),
    }
}

/// Writes dirty data to the storages.
pub fn flush<D: FormatDriverInstance>(alloc: Global, chain: &mut FormatAccess<D>) -> Answer
    ensures { MakesBeside D.DriverModel calls.Flush result chain.old chain.new }
{
    told(chain.flush(alloc))
}

/// Makes the written data durable.
pub fn sync<D: FormatDriverInstance>(chain: &mut FormatAccess<D>) -> Answer
    ensures { MakesBeside D.DriverModel calls.Sync result chain.old chain.new }
{
    told(chain.sync())
}
