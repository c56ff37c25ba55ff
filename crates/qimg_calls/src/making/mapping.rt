// Calls that prepare a mapping and keep it for later calls, calls on the kept mapping, and the dispatch of a call by whether a mapping is
// kept.
ghost use Rattle.std.specs.Prelude.{◌≡◌, None, Some, IfOk, IfErr, IsFalse, IsTrue, false, true, is_some};
ghost use Rattle.imago_access.specs.Layer.{IsFree};
ghost use Rattle.imago_access.specs.Spending.{IsMine};
ghost use Rattle.qimg_calls.specs.Calls.{is_out_of_place, is_look};
ghost use Rattle.qimg_calls.specs.Held.{chain_with_mapping, MappingIsPrepared};
ghost use Rattle.qimg_calls.specs.Making.{CallOutcome, MakesAlone, MakesBeside};
ghost use Rattle.qimg_calls.specs.declared.call.Call.TheVariants as calls;

use super::changing;
use super::looking::{self, told};
use crate::call::{Answer, Call};
use crate::repairing::RepairsLeaks;
use imago_access::{FormatAccess, FormatDriverInstance, PreparedDataMapping};
use imago_storage::Fault;
use std::alloc::{AllocError, Global};

/// The mapping that is prepared and not yet committed or cancelled, if any.
pub(crate) type Kept<S> = Option<PreparedDataMapping<S>>;

/// Prepares a run of a range, and keeps the mapping.
fn prepare<D: FormatDriverInstance>(
    alloc: Global,
    chain: &mut FormatAccess<D>,
    offset: u64,
    length: u64,
    overwrite: bool,
) -> (Answer, Kept<D::State>)
    requires free { IsFree (D.layer chain.old.0) }
    ensures { CallOutcome D.DriverModel (calls.PrepareDataMapping offset length overwrite) result.0
        (chain_with_mapping chain.old None) (chain_with_mapping chain.new result.1) }
{
    match chain.prepare_data_mapping(alloc, offset, length, overwrite) {
        Ok(mapping) => {
            let answer = Answer::Prepared {
                storage: mapping.storage(),
                offset: mapping.offset(),
                length: mapping.length(),
                state: !mapping.is_nonblocking(),
            };
            (answer, Some(mapping))
        }
        Err(fault) => (Answer::Refused(fault), None),
    }
}

/// Commits the kept mapping. If the commit fails and returns the mapping, the mapping stays kept.
fn commit<D: FormatDriverInstance>(
    alloc: Global,
    chain: &mut FormatAccess<D>,
    mapping: PreparedDataMapping<D::State>,
) -> (Answer, Kept<D::State>)
    requires mapping_prepared { MappingIsPrepared D.DriverModel (chain_with_mapping chain.old (Some mapping)) }
    ensures { CallOutcome D.DriverModel calls.CommitDataMapping result.0 (chain_with_mapping chain.old (Some mapping)) (chain_with_mapping chain.new result.1) }
{
    match chain.commit_data_mapping(alloc, mapping) {
        Ok(()) => (Answer::Done, None),
        Err((fault, back)) => (Answer::Refused(fault), back),
    }
}

/// Cancels the kept mapping. This never fails, because the mapping was prepared in this chain.
pub(crate) fn cancel<D: FormatDriverInstance>(
    chain: &mut FormatAccess<D>,
    mapping: PreparedDataMapping<D::State>,
)
    requires mapping_prepared { MappingIsPrepared D.DriverModel (chain_with_mapping chain.old (Some mapping)) }
    ensures made { CallOutcome D.DriverModel calls.Cancel Answer.Done (chain_with_mapping chain.old (Some mapping)) (chain_with_mapping chain.new None) }
    ensures unasked { D.image chain.new.0 ≡ D.image chain.old.0 }
{
    match chain.cancel(mapping) {
        Ok(()) => (),
        Err((_, _)) => unreachable!(),
    }
}

/// Writes bytes to a range that is mapped by the chain or by the kept mapping.
fn write_mapped<D: FormatDriverInstance>(
    alloc: Global,
    chain: &mut FormatAccess<D>,
    guest: u64,
    place: u64,
    bytes: &Vec<u8>,
) -> Answer
    ensures { MakesBeside D.DriverModel (calls.WriteMapped guest place bytes.now) result chain.old chain.new }
{
    told(chain.write_mapped(alloc, guest, place, bytes))
}

/// Makes a call that only reads, or writes dirty data.
fn look<D: FormatDriverInstance>(
    alloc: Global,
    chain: &mut FormatAccess<D>,
    call: &Call,
) -> Result<Answer, AllocError>
    requires looks { IsTrue (is_look call.now) }
    ensures made { IfOk result (λ answer. MakesBeside D.DriverModel call.now answer chain.old chain.new) }
    ensures none { IfErr result (λ _. chain.new ≡ chain.old) }
{
    match call {
        Call::Read { offset, length } => looking::read(alloc, chain, *offset, *length),
        Call::GetMapping { offset, length } => {
            Ok(looking::get_mapping(alloc, chain, *offset, *length))
        }
        Call::GetShallowMapping { offset, length } => {
            Ok(looking::get_shallow_mapping(alloc, chain, *offset, *length))
        }
        Call::Flush => Ok(looking::flush(alloc, chain)),
        Call::Sync => Ok(looking::sync(chain)),
        _ => unreachable!(),
    }
}

/// Makes a call on the kept mapping.
fn spend<D: FormatDriverInstance>(
    alloc: Global,
    chain: &mut FormatAccess<D>,
    mapping: PreparedDataMapping<D::State>,
    call: &Call,
) -> (Answer, Kept<D::State>)
    requires mapping_prepared { MappingIsPrepared D.DriverModel (chain_with_mapping chain.old (Some mapping)) }
    requires place { IsFalse (is_out_of_place true call.now) }
    requires changes { IsFalse (is_look call.now) }
    ensures { CallOutcome D.DriverModel call.now result.0 (chain_with_mapping chain.old (Some mapping)) (chain_with_mapping chain.new result.1) }
{
    match call {
        Call::CommitDataMapping => commit(alloc, chain, mapping),
        Call::Cancel => {
            cancel(chain, mapping);
            (Answer::Done, None)
        }
        Call::WriteMapped {
            guest,
            place,
            bytes,
        } => {
            (
                write_mapped(alloc, chain, *guest, *place, bytes),
                Some(mapping),
            )
        }
        _ => unreachable!(),
    }
}

/// Makes a call that changes the disk while no mapping is kept.
fn change<D: RepairsLeaks>(
    alloc: Global,
    chain: &mut FormatAccess<D>,
    call: &Call,
) -> (Answer, Kept<D::State>)
    requires free { IsFree (D.layer chain.old.0) }
    requires place { IsFalse (is_out_of_place false call.now) }
    requires changes { IsFalse (is_look call.now) }
    ensures { CallOutcome D.DriverModel call.now result.0 (chain_with_mapping chain.old None) (chain_with_mapping chain.new result.1) }
{
    match call {
        Call::PrepareDataMapping {
            offset,
            length,
            overwrite,
        } => prepare(alloc, chain, *offset, *length, *overwrite),
        call => (changing::change(alloc, chain, call), None),
    }
}

/// Makes a call that is allowed (not `is_out_of_place`). If memory for the bytes of a read runs out, the call fails before it is made.
pub(crate) fn make<D: RepairsLeaks>(
    alloc: Global,
    chain: &mut FormatAccess<D>,
    kept: Kept<D::State>,
    call: &Call,
) -> (Result<Answer, AllocError>, Kept<D::State>)
    requires mapping_prepared { MappingIsPrepared D.DriverModel (chain_with_mapping chain.old kept) }
    requires place { IsFalse (is_out_of_place (is_some kept) call.now) }
    ensures made { IfOk result.0 (λ answer. CallOutcome D.DriverModel call.now answer (chain_with_mapping chain.old kept) (chain_with_mapping chain.new result.1)) }
    ensures none { IfErr result.0 (λ _. chain_with_mapping chain.new result.1 ≡ chain_with_mapping chain.old kept) }
{
    if call.is_look() {
        return (look(alloc, chain, call), kept);
    }
    let (answer, kept) = match kept {
        Some(mapping) => spend(alloc, chain, mapping, call),
        None => change(alloc, chain, call),
    };
    (Ok(answer), kept)
}
