// Mappings of raw and VMDK images, as mappings of an image of any format. Raw and VMDK images never prepare a mapping with state (a run
// that is written and not yet committed).
ghost use Rattle.std.specs.Prelude.{◌≡◌, Some, None, OnOk, IfErr};
ghost use Rattle.imago_storage.specs.declared.fault.Fault.TheVariants.{Foreign};
ghost use Rattle.qimg_chain.specs.ImageDrivers.{IsSpent, IsGivenBack, IsOwn, IsOthers};

use imago_access::{PreparedDataMapping, check_commit};
use imago_formats::NoState;
use imago_storage::Fault;
use qcow2_image::PreparedMappingState;

/// Converts a mapping without state to the type for an image of any format.
pub(crate) fn stateless(
    mapping: PreparedDataMapping<NoState>,
) -> PreparedDataMapping<PreparedMappingState>
    ensures value { result ≡ record { storage = mapping.storage; offset = mapping.offset; length = mapping.length; state = None } }
    ensures none { mapping.state ≡ None }
{
    let (storage, place, length) = (mapping.storage(), mapping.offset(), mapping.length());
    match mapping.into_state() {
        None => PreparedDataMapping::existing(storage, place, length),
        Some(state) => match state {},
    }
}

/// Consumes a mapping at a commit, without any change to the image. `ready` is the state of the image, and `writable` is true if it was
/// opened for writing. On error the mapping is returned. The fault is that of `ready`, or, for a mapping with state, that of
/// `check_commit`.
pub(crate) fn commit_stateless(
    mapping: PreparedDataMapping<PreparedMappingState>,
    ready: Result<(), Fault>,
    writable: bool,
) -> Result<(), (Fault, Option<PreparedDataMapping<PreparedMappingState>>)>
    ensures ok { OnOk result (IsSpent ready writable mapping.state) }
    ensures back { IfErr result (λ e. e.1 ≡ Some mapping) }
    ensures cause { IfErr result (λ e. IsGivenBack ready writable mapping.state e.0) }
{
    let (storage, place, length) = (mapping.storage(), mapping.offset(), mapping.length());
    match mapping.into_state() {
        None => match ready {
            Ok(()) => Ok(()),
            Err(fault) => {
                let back = PreparedDataMapping::existing(storage, place, length);
                Err((fault, Some(back)))
            }
        },
        Some(state) => match check_commit(ready, writable, 0, state.number()) {
            Ok(()) => {
                state.give_up();
                Ok(())
            }
            Err(fault) => {
                let back = PreparedDataMapping::to_commit(storage, place, length, state);
                Err((fault, Some(back)))
            }
        },
    }
}

/// Abandons a mapping. A mapping with state is returned with `Fault::Foreign` if an image with a number other than 0 has prepared it.
pub(crate) fn cancel_stateless(
    mapping: PreparedDataMapping<PreparedMappingState>,
) -> Result<(), (Fault, PreparedDataMapping<PreparedMappingState>)>
    ensures ok { OnOk result (IsOwn mapping.state) }
    ensures back { IfErr result (λ e. (e.1 ≡ mapping) × (e.0 ≡ Foreign) × IsOthers mapping.state) }
{
    let (storage, place, length) = (mapping.storage(), mapping.offset(), mapping.length());
    match mapping.into_state() {
        None => Ok(()),
        Some(state) => {
            if state.number() != 0 {
                let back = PreparedDataMapping::to_commit(storage, place, length, state);
                return Err((Fault::Foreign, back));
            }
            state.give_up();
            Ok(())
        }
    }
}
