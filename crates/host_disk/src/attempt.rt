// A list of calls over storages that have pages in memory.
ghost use Rattle.std.specs.Prelude.{◌≡◌, ◌≢◌, map, IfOk, IfErr, IfNone, OnOk};
ghost use Rattle.imago_access.specs.Layer.{IsFree};
ghost use Rattle.qimg_calls.specs.Calls.{any_commit_down};
ghost use Rattle.qimg_calls.specs.Runs.{AllGoOn};
ghost use Rattle.qimg_chain.specs.Chains.{OfTop, mode};
ghost use Rattle.qimg_chain.specs.Refusals.{FormChain};
ghost use Rattle.qimg_chain.specs.Sessions.{Session, opening};
ghost use Rattle.qimg_chain.specs.TopChecks.{IsAccepted};
ghost use Rattle.host_disk.specs.Layers.{shown_by};
ghost use Rattle.host_disk.specs.Lists.{OnFiles};

use crate::host_fault::HostFault;
use crate::layer::{HostLayer, storages};
use host_file::HostFile;
use imago_access::{DriverModel, FormatAccess};
use imago_storage::{Fault, FaultKind, Request, Storage};
use paged_storage::Misses;
use qimg_calls::{Answer, Call, drive};
use qimg_chain::chain::{ImageDriver, NamesFiles, open_chain};
use qimg_core::plain::ChainFile;
use std::alloc::Global;

// Opens files as a chain, and makes a list of calls on it.
//
// Like `qimg_chain::session::drive_files`, without the check of the top file.
fn drive_unchecked<S: Storage>(
    alloc: Global,
    files: Vec<ChainFile<S>>,
    writable: bool,
    number: u64,
    calls: &[Call],
) -> Result<(FormatAccess<ImageDriver<S>>, Result<Vec<Answer>, Fault>), Fault>
    ensures free { let d = ⟦<ImageDriver<S> as DriverModel>⟧ in IfOk result (λ r. IsFree (d.layer r.0.0)) }
    ensures formed { IfOk result (λ _. FormChain S.state writable files.items) }
    ensures headline { let d = ⟦<ImageDriver<S> as DriverModel>⟧ in let names = ⟦<ImageDriver<S> as NamesFiles>⟧.names in
        OfTop (IsAccepted S.state) files.items
        → IfOk result (λ r. Session d names S.state (opening files.items (mode writable number)) calls.now r.1 r.0) }
{
    let mut chain = open_chain(alloc, files, writable, number)?;
    let answers = drive(alloc, &mut chain, calls);
    Ok((chain, answers))
}

// Returns the first resource error (`Fault::Memory` or `Fault::Storage`) among the answers.
fn resource_error(answers: &[Answer]) -> Option<Fault>
    ensures { IfNone result (AllGoOn answers.now) }
{
    for answer in answers {
        if let Answer::Refused(fault) = answer {
            if matches!(fault, Fault::Memory | Fault::Storage) {
                return Some(*fault);
            }
        }
    }
    None
}

// Returns true if a call of the list commits to the layer below.
fn commits_down(calls: &[Call]) -> bool
    ensures { result ≡ any_commit_down calls.now }
{
    for call in calls {
        if matches!(call, Call::CommitDown) {
            return true;
        }
    }
    false
}

/// Makes a list of calls over storages on the files of the layers, the top first. Returns the answers, and the requests for the top's file.
///
/// # Errors
///
/// - `HostFault::Opening` if the files don't open as a chain.
/// - `HostFault::Calls` if a call failed with `Fault::Memory` or `Fault::Storage`, or with `Fault::Unsupported` if the list has
///   `Call::CommitDown`.
///
/// A read of a page that isn't in memory fails with `Fault::Storage`, and is noted in `misses`.
pub(crate) fn attempt<H: HostFile>(
    alloc: Global,
    layers: &[HostLayer<H>],
    misses: &Misses,
    writable: bool,
    number: u64,
    calls: &[Call],
) -> Result<(Vec<Answer>, Vec<Request>), HostFault>
    ensures { IfOk result (λ r. OnFiles (map (shown_by H.HostFile) layers.now) calls.now r.0.items r.1.items) }
{
    if commits_down(calls) {
        return Err(HostFault::Calls(Fault::Unsupported));
    }
    let files = match storages(alloc, layers, misses) {
        Ok(files) => files,
        Err(fault) => return Err(HostFault::Calls(fault)),
    };
    let (chain, answers) = match drive_unchecked(alloc, files, writable, number, calls) {
        Ok(driven) => driven,
        Err(fault) => return Err(HostFault::Opening(fault)),
    };
    let answers = match answers {
        Ok(answers) => answers,
        Err(fault) => return Err(HostFault::Calls(fault)),
    };
    if let Some(fault) = resource_error(&answers) {
        return Err(HostFault::Calls(fault));
    }
    let image = chain.into_driver().into_image();
    Ok((answers, image.into_requests()))
}
