// Lists of calls on files of the host.
ghost use Rattle.std.specs.Prelude.{map, IfOk, IfErr, OnErr, OnOk};
ghost use Rattle.host_disk.specs.Layers.{AreOnlyRead, AreTruthful, held_by};
ghost use Rattle.host_disk.specs.Lists.{DrivenOn, OnFiles, PutInPart, PutOn, StoppedOn, SurelyDrivenOn};

use crate::attempt::attempt;
use crate::checking::check;
use crate::fetching::fetch_all;
use crate::host_fault::HostFault;
use crate::layer::HostLayer;
use host_file::HostFile;
use imago_storage::{Fault, Request};
use paged_storage::Misses;
use qimg_calls::{Answer, Call};
use std::alloc::Global;
use std::io;

// Makes a list of calls over storages, and reads the missing pages, until no page is missing.
fn settle<H: HostFile>(
    alloc: Global,
    layers: &mut Vec<HostLayer<H>>,
    writable: bool,
    number: u64,
    calls: &[Call],
) -> Result<(Vec<Answer>, Vec<Request>), HostFault>
    ensures only_read { AreOnlyRead H.HostFile layers.old.items layers.new.items }
    ensures ok { IfOk result (λ r. AreTruthful H.HostFile layers.new.items
        → OnFiles (map (held_by H.HostFile) layers.old.items) calls.now r.0.items r.1.items) }
{
    for _ in 0..u64::MAX {
        let misses = Misses::new(alloc);
        let outcome = attempt(alloc, layers, &misses, writable, number, calls);
        let pages = misses.into_pages();
        if pages.is_empty() {
            return outcome;
        }
        fetch_all(alloc, layers, &pages)?;
    }
    Err(HostFault::Calls(Fault::Storage))
}

// Hands requests to the file of the first layer.
fn put<H: HostFile>(
    alloc: Global,
    layers: &mut Vec<HostLayer<H>>,
    requests: &[Request],
) -> io::Result<()>
    ensures ok { OnOk result (AreTruthful H.HostFile layers.new.items → PutOn H.HostFile requests.now layers.old.items layers.new.items) }
    ensures err { OnErr result (AreTruthful H.HostFile layers.new.items
        → PutInPart H.HostFile requests.now layers.old.items layers.new.items) }
    ensures truthful { AreTruthful H.HostFile layers.new.items → AreTruthful H.HostFile layers.old.items }
{
    if layers.is_empty() {
        return Ok(());
    }
    layers[0].file.replay(alloc, requests)?;
    Ok(())
}

/// Opens the files as a chain, the top first, makes a list of calls on it, and hands the changes to the top's file, in order.
///
/// The top's file must be raw, or a qcow2 file that `check` accepts. After each list it is again. If every answer of the files was true, the
/// calls read and change one flat disk, which is at first what the files mean. The top's file gets the requests of the list, in order, and no
/// others. Each file that they make of it in between is one that a crash may leave: it is consistent, and each guest byte reads as at the
/// last flush of the list, or as the file held it at first, or as a call gives it that has begun since. The other files are only read.
///
/// `number` is a number for the chain, as in `qimg_chain::chain::open_chain`. Sizes and offsets of calls are in bytes. What the list changes
/// is only in the file if it was flushed: let the list end with `Call::Flush`. It survives a crash of the machine after `save`.
///
/// # Errors
///
/// - `HostFault::Opening` if the files don't open as a chain.
/// - `HostFault::Calls` if memory ran out, or with `Fault::Unsupported` if the list has `Call::CommitDown`.
/// - `HostFault::Host` if a file couldn't be read or written.
///
/// # On error
///
/// The files are unchanged. If the top's file couldn't be written, it got the first requests of the list: that is a crash image, too.
pub fn drive<H: HostFile>(
    alloc: Global,
    layers: &mut Vec<HostLayer<H>>,
    writable: bool,
    number: u64,
    calls: &[Call],
) -> Result<Vec<Answer>, HostFault>
    ensures ok { IfOk result (λ answers. AreTruthful H.HostFile layers.new.items
        → DrivenOn H.HostFile calls.now answers.items layers.old.items layers.new.items) }
    ensures err { IfErr result (λ _. AreTruthful H.HostFile layers.new.items
        → StoppedOn H.HostFile calls.now layers.old.items layers.new.items) }
    ensures truthful { AreTruthful H.HostFile layers.new.items → AreTruthful H.HostFile layers.old.items }
{
    let (answers, requests) = settle(alloc, layers, writable, number, calls)?;
    put(alloc, layers, &requests)?;
    Ok(answers)
}

/// Checks the top's file, opens the files as a chain, the top first, makes a list of calls on it, and hands the changes to the top's file.
///
/// This is what the whole library promises of files of the host. If every answer of the files was true to the end, all that `drive` says
/// holds, since the top's file was found to be raw or consistent.
///
/// # Errors
///
/// - `HostFault::Finding` with the first finding about the top's file, or if the check ran out of memory.
/// - The errors of `drive`.
///
/// # On error
///
/// As for `drive`.
pub fn check_and_drive<H: HostFile>(
    alloc: Global,
    layers: &mut Vec<HostLayer<H>>,
    writable: bool,
    number: u64,
    calls: &[Call],
) -> Result<Vec<Answer>, HostFault>
    ensures ok { IfOk result (λ answers. AreTruthful H.HostFile layers.new.items
        → SurelyDrivenOn H.HostFile calls.now answers.items layers.old.items layers.new.items) }
{
    check(alloc, layers)?;
    drive(alloc, layers, writable, number, calls)
}

/// Makes all that lists have written durable: it survives a crash of the machine.
///
/// # Errors
///
/// The error of the host. Some of the bytes may then be lost, and a later call may not report it.
pub fn save<H: HostFile>(layers: &mut Vec<HostLayer<H>>) -> io::Result<()>
    ensures { AreOnlyRead H.HostFile layers.old.items layers.new.items }
{
    if layers.is_empty() {
        return Ok(());
    }
    layers[0].file.sync()
}
