//! A list of calls on files: the top file is checked, the files are opened as a chain, and the calls are made.
ghost use Rattle.std.specs.Prelude.{◌≡◌, ◌≢◌, ◌≤◌, length, IfOk, IfErr, OnOk};
ghost use Rattle.qimg_chain.specs.Chains.{AllOfTop, OfSecond, OfTop, for_commit, mode};
ghost use Rattle.qimg_chain.specs.Refusals.{FormChain, FormCommitChain};
ghost use Rattle.qimg_chain.specs.Sessions.{Session, opening};
ghost use Rattle.qimg_chain.specs.TopChecks.{AreChecked, AreCheckedBelow, IsAccepted, IsChecked, IsRejected, WhyNotDriven};
ghost use Rattle.qimg_chain.specs.declared.session.NotDriven.TheVariants.{Finding, Opening};

use crate::chain::{ImageDriver, NamesFiles, open_chain, open_for_commit};
use imago_access::{DriverModel, Format, FormatAccess};
use imago_storage::{Fault, Storage};
use qimg_calls::{Answer, Call, drive};
use qimg_core::check::{CheckFault, check};
use qimg_core::plain::ChainFile;
use std::alloc::Global;

/// A reason why no call of a list was made.
#[derive(Clone, Copy, Debug, Drop)]
pub enum NotDriven {
    /// The checker doesn't accept the top file, with this finding, or it couldn't check the file.
    Finding(CheckFault),
    /// The same for the file of the next layer (the layer below the top), which is only checked if it is opened for writing.
    FindingBelow(CheckFault),
    /// The files don't open as a chain, with this fault of `open_chain`.
    Opening(Fault),
}

impl From<CheckFault> for NotDriven {
    ghost from_gives = { λ fault e. e ≡ Finding fault };

    fn from(fault: CheckFault) -> Self {
        NotDriven::Finding(fault)
    }
}

impl From<Fault> for NotDriven {
    ghost from_gives = { λ fault e. e ≡ Opening fault };

    fn from(fault: Fault) -> Self {
        NotDriven::Opening(fault)
    }
}

/// Checks a file, if it is a qcow2 file. A file of another format is always accepted.
fn check_file<S: Storage>(alloc: Global, file: &mut ChainFile<S>) -> Result<(), CheckFault>
    ensures accepted { OnOk result (IsAccepted S.state file.old) }
    ensures checked { OnOk result (IsChecked S.state file.old file.new) }
    ensures err { IfErr result (λ fault. IsRejected S.state fault file.old) }
{
    if let Format::Qcow2 = file.format {
        check(alloc, &mut file.image)?;
    }
    Ok(())
}

/// Checks the first file, if any.
fn check_top<S: Storage>(alloc: Global, files: &mut Vec<ChainFile<S>>) -> Result<(), CheckFault>
    ensures accepted { OnOk result (AllOfTop (IsAccepted S.state) files.old.items) }
    ensures checked { OnOk result (AreChecked S.state files.old.items files.new.items) }
    ensures err { IfErr result (λ fault. OfTop (IsRejected S.state fault) files.old.items) }
{
    if files.is_empty() {
        return Ok(());
    }
    check_file(alloc, &mut files[0])
}

/// Checks the second file (that of the next layer), if any.
fn check_next<S: Storage>(alloc: Global, files: &mut Vec<ChainFile<S>>) -> Result<(), CheckFault>
    ensures accepted { OnOk result (2 ≤ length files.old.items → OfSecond (IsAccepted S.state) files.old.items) }
    ensures checked { OnOk result (AreCheckedBelow S.state files.old.items files.new.items) }
    ensures err { IfErr result (λ fault. OfSecond (IsRejected S.state fault) files.old.items) }
{
    if files.len() < 2 {
        return Ok(());
    }
    check_file(alloc, &mut files[1])
}

/// Checks the top file, opens the files as a chain (an image and its backing files), the top first, and makes a list of calls on it.
///
/// This is what the whole library promises, in one contract (`headline`). No file below the top changes; `files_below` says so of a list
/// without `Call::CommitDown`, which fails here. The rest holds if the top is a raw
/// file, or a qcow2 file that `qimg_core::check` accepts, and its storage keeps what is written (`one_disk`):
///
/// - The calls read and change one flat disk. At opening it is the disk that the bytes of the files mean. Each successful call does to it
///   what the call says, and nothing else. A write, zeroing or discard that fails leaves each byte of its range old or as the call gives
///   it; any other call that fails changes nothing.
/// - If the machine stops between two requests, also right after a flush, the top file is again one that the checker accepts. Each guest
///   byte below the size at the last flush (of a raw file: below the smallest size since) reads as at that flush, or as a call gives it that
///   has begun since. A flush counts if no mapping with something to commit was prepared.
///
/// This holds up to the first `Fault::Memory` or `Fault::Storage`. The clause about stops needs a storage that exposes them, as
/// `LogStorage` does. It supposes that requests reach the disk whole and in order. An empty list only checks and opens.
///
/// The result is the chain, and the answers to the calls as `qimg_calls::drive` returns them. Further lists can be made on the chain.
///
/// `number` is a number for the chain, as in `open_chain`. Sizes and offsets of calls are in bytes.
///
/// # Errors
///
/// - `NotDriven::Finding` with the finding of `qimg_core::check` about a qcow2 top, or `CheckFault::Memory` or `CheckFault::Storage` if it
///   couldn't be checked.
/// - `NotDriven::Opening` with the error of `open_chain`.
///
/// If memory for an answer runs out, the answers are `Fault::Memory`, and the calls before that one were made.
///
/// # On error
///
/// No call is made, no file is changed, and the files are dropped.
pub fn drive_files<S: Storage>(
    alloc: Global,
    files: Vec<ChainFile<S>>,
    writable: bool,
    number: u64,
    calls: &[Call],
) -> Result<(FormatAccess<ImageDriver<S>>, Result<Vec<Answer>, Fault>), NotDriven>
    ensures accepted { IfOk result (λ _. OfTop (IsAccepted S.state) files.items) }
    ensures formed { IfOk result (λ _. FormChain S.state writable files.items) }
    ensures headline { let d = ⟦<ImageDriver<S> as DriverModel>⟧ in let names = ⟦<ImageDriver<S> as NamesFiles>⟧.names in
        IfOk result (λ r. Session d names S.state (opening files.items (mode writable number)) calls.now r.1 r.0) }
    ensures err { IfErr result (WhyNotDriven S.state (mode writable number) files.items) }
{
    let mut files = files;
    check_top(alloc, &mut files)?;
    let mut chain = open_chain(alloc, files, writable, number)?;
    let answers = drive(alloc, &mut chain, calls);
    Ok((chain, answers))
}

/// Checks the first two files, opens the files as a chain for commits to the layer below, and makes a list of calls on it.
///
/// Like `drive_files`, over `chain::open_for_commit`: the list may have `Call::CommitDown`, which writes the data of the top to the layer
/// below it and empties the top. What `drive_files` promises holds here, too, if both files are raw or accepted by the checker, and their
/// storages keep what is written (`one_disk`):
///
/// - Only a commit changes a file below the top, and only that of the next layer. It changes no byte of the disk. After it the layers below
///   read as the disk.
/// - A commit counts as a flush, unless it fails early or with `Fault::Memory` or `Fault::Storage`. If the machine stops in it after its
///   first flush, both files are accepted by the checker, and the top over the next layer reads as the disk.
///
/// # Errors
///
/// - `NotDriven::Finding`, `NotDriven::FindingBelow` with the finding of `qimg_core::check` about the first or the second file, or
///   `CheckFault::Memory` or `CheckFault::Storage` if it couldn't be checked.
/// - `NotDriven::Opening` with the error of `open_for_commit`.
///
/// If memory for an answer runs out, the answers are `Fault::Memory`, and the calls before that one were made.
///
/// # On error
///
/// No call is made, no file is changed, and the files are dropped.
pub fn drive_for_commit<S: Storage>(
    alloc: Global,
    files: Vec<ChainFile<S>>,
    number: u64,
    below_number: u64,
    calls: &[Call],
) -> Result<(FormatAccess<ImageDriver<S>>, Result<Vec<Answer>, Fault>), NotDriven>
    ensures accepted { IfOk result (λ _. OfTop (IsAccepted S.state) files.items × OfSecond (IsAccepted S.state) files.items) }
    ensures formed { IfOk result (λ _. FormCommitChain S.state files.items) }
    ensures distinct { IfOk result (λ _. number ≢ below_number) }
    ensures headline { let d = ⟦<ImageDriver<S> as DriverModel>⟧ in let names = ⟦<ImageDriver<S> as NamesFiles>⟧.names in
        IfOk result (λ r. Session d names S.state (opening files.items (for_commit number below_number)) calls.now r.1 r.0) }
    ensures err { IfErr result (WhyNotDriven S.state (for_commit number below_number) files.items) }
{
    let mut files = files;
    check_top(alloc, &mut files)?;
    match check_next(alloc, &mut files) {
        Ok(()) => {}
        Err(fault) => return Err(NotDriven::FindingBelow(fault)),
    }
    let mut chain = open_for_commit(alloc, files, number, below_number)?;
    let answers = drive(alloc, &mut chain, calls);
    Ok((chain, answers))
}
