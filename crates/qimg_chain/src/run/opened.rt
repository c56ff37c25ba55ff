// Runs a script over files: opens them as a chain, runs the script, and drops the chain.
ghost use Rattle.std.specs.Prelude.{◌≡◌, IfOk, IfErr, IsOkUnless, Ok};
ghost use Rattle.imago_access.specs.Layer.{IsFree};
ghost use Rattle.qimg_chain.specs.Chains.{for_commit, mode};
ghost use Rattle.qimg_chain.specs.Headline.{NotRun, RunFrom, to_open};
ghost use Rattle.qimg_chain.specs.Saving.{files_to_save};
ghost use Rattle.qimg_chain.specs.ScriptRuns.{ending, items_of, kept_of, saved_of, ScriptedFrom};

use super::saved::{Kept, Saved, copy_next};
use super::{RunFault, run_lines};
use crate::chain::{ImageDriver, NamesFiles, open_chain, open_for_commit};
use imago_access::{DriverModel, FormatAccess};
use imago_storage::{Fault, MemStorage};
use qimg_core::plain::ChainFile;
use std::alloc::Global;
use std::io::{BufRead, Write};

/// A reason why a script over files doesn't run to its end.
#[derive(Clone, Copy, Debug, Drop)]
pub enum ScriptFault {
    /// The files don't open as a chain, with this fault of `open_chain`.
    Opening(Fault),
    /// The script ended early, with this fault of `run`.
    Running(RunFault),
}

/// Moves the bytes of the top file out of a chain, and copies those of the second file, if that layer is writable. The chain is dropped.
/// The only error is `Fault::Memory`.
///
/// # Preconditions
///
/// No mapping is prepared in the chain.
fn take_files(chain: FormatAccess<ImageDriver<MemStorage>>) -> Result<Saved, Fault>
    requires free { IsFree (⟦<ImageDriver<MemStorage> as DriverModel>⟧.layer chain.0) }
    ensures ok { let d = ⟦<ImageDriver<MemStorage> as DriverModel>⟧ in IfOk result (λ s. saved_of s ≡ files_to_save d chain) }
    ensures err { IsOkUnless result Fault.Memory }
{
    let below = copy_next(&chain)?;
    let top = chain.into_driver().into_image().into_bytes()?;
    Ok(Saved { top, below })
}

/// Returns the kept bytes, and drops the chain. Bytes that are still in the top file are moved out of it. The only error is
/// `RunFault::Memory`.
///
/// # Preconditions
///
/// No mapping is prepared in the chain.
fn take_kept(
    kept: Kept,
    chain: FormatAccess<ImageDriver<MemStorage>>,
) -> Result<Option<Saved>, RunFault>
    requires free { IsFree (⟦<ImageDriver<MemStorage> as DriverModel>⟧.layer chain.0) }
    ensures ok { let d = ⟦<ImageDriver<MemStorage> as DriverModel>⟧ in IfOk result (λ bytes. items_of bytes ≡ kept_of (files_to_save d chain) kept) }
    ensures err { IsOkUnless result RunFault.Memory }
{
    match kept {
        Kept::Nothing => Ok(None),
        Kept::Apart(saved) => Ok(Some(saved)),
        Kept::InFiles => match take_files(chain) {
            Ok(saved) => Ok(Some(saved)),
            Err(_) => Err(RunFault::Memory),
        },
    }
}

/// Runs a script over a chain, and drops the chain. Returns what the last successful `save` kept. It fails like `run`, but copies no bytes of
/// the top file.
///
/// # Preconditions
///
/// No mapping is prepared in the chain.
fn run_over<R: BufRead + Drop, W: Write>(
    alloc: Global,
    chain: FormatAccess<ImageDriver<MemStorage>>,
    reader: R,
    writer: &mut W,
) -> Result<Option<Saved>, RunFault>
    requires free { IsFree (⟦<ImageDriver<MemStorage> as DriverModel>⟧.layer chain.0) }
    ensures scripted { let d = ⟦<ImageDriver<MemStorage> as DriverModel>⟧ in let names = ⟦<ImageDriver<MemStorage> as NamesFiles>⟧.names in
        ScriptedFrom d names (R.remaining reader) (W.contents writer.old) (W.contents writer.new) (ending items_of result) chain }
{
    let mut chain = chain;
    let kept = run_lines(alloc, reader, writer, &mut chain)?;
    take_kept(kept, chain)
}

/// Opens files as a chain (an image and its backing chain), the top first, and runs a script over it.
///
/// The result is the bytes that the last successful `save` kept of the top file, if any. The chain is dropped at the end.
///
/// The calls of all lines read and change one flat disk, and no file below the top changes. At opening it is the disk that the files' bytes
/// mean. The top file must be consistent for this, and its storages must keep what is written. A qcow2 image is consistent if
/// `qimg_core::check` accepts it; a file of another format always is.
///
/// # Errors
///
/// - `ScriptFault::Opening` with the fault of `open_chain`. Nothing is written then.
/// - `ScriptFault::Running` with the fault of `run`. No copy of the top file's kept bytes is made: they are moved out of the chain's storage.
///
/// # Crash safety
///
/// Nothing is said about crashes during a call that changes a file: storages in memory don't expose crash images.
pub fn run_files<R: BufRead + Drop, W: Write>(
    alloc: Global,
    files: Vec<ChainFile<MemStorage>>,
    writable: bool,
    number: u64,
    reader: R,
    writer: &mut W,
) -> Result<Option<Saved>, ScriptFault>
    ensures headline { let what = to_open files.items (mode writable number) in let names = ⟦<ImageDriver<MemStorage> as NamesFiles>⟧.names in
        IfOk result (λ saved. RunFrom ⟦<ImageDriver<MemStorage> as DriverModel>⟧ names what
        (R.remaining reader) (W.contents writer.old) (W.contents writer.new) (Ok (items_of saved))) }
    ensures err { let what = to_open files.items (mode writable number) in let names = ⟦<ImageDriver<MemStorage> as NamesFiles>⟧.names in
        IfErr result (NotRun ⟦<ImageDriver<MemStorage> as DriverModel>⟧ names what
        (R.remaining reader) (W.contents writer.old) (W.contents writer.new)) }
{
    let chain = match open_chain(alloc, files, writable, number) {
        Ok(chain) => chain,
        Err(fault) => return Err(ScriptFault::Opening(fault)),
    };
    match run_over(alloc, chain, reader, writer) {
        Ok(saved) => Ok(saved),
        Err(fault) => Err(ScriptFault::Running(fault)),
    }
}

/// Opens files as a chain for commits to the layer below the top, and runs a script over it.
///
/// Like `run_files`, over `chain::open_for_commit`: a line `commit` writes the data of the top to the layer below it. The result has the
/// bytes of the second file, too. The second file must be consistent, too, and its storages must keep what is written.
///
/// # Errors
///
/// - `ScriptFault::Opening` with the fault of `open_for_commit`. Nothing is written then.
/// - `ScriptFault::Running` with the fault of `run`. No copy of the top file's kept bytes is made.
///
/// # Crash safety
///
/// As for `run_files`.
pub fn run_for_commit<R: BufRead + Drop, W: Write>(
    alloc: Global,
    files: Vec<ChainFile<MemStorage>>,
    number: u64,
    below_number: u64,
    reader: R,
    writer: &mut W,
) -> Result<Option<Saved>, ScriptFault>
    ensures headline { let what = to_open files.items (for_commit number below_number) in
        let names = ⟦<ImageDriver<MemStorage> as NamesFiles>⟧.names in
        IfOk result (λ saved. RunFrom ⟦<ImageDriver<MemStorage> as DriverModel>⟧ names what
        (R.remaining reader) (W.contents writer.old) (W.contents writer.new) (Ok (items_of saved))) }
    ensures err { let what = to_open files.items (for_commit number below_number) in
        let names = ⟦<ImageDriver<MemStorage> as NamesFiles>⟧.names in
        IfErr result (NotRun ⟦<ImageDriver<MemStorage> as DriverModel>⟧ names what
        (R.remaining reader) (W.contents writer.old) (W.contents writer.new)) }
{
    let chain = match open_for_commit(alloc, files, number, below_number) {
        Ok(chain) => chain,
        Err(fault) => return Err(ScriptFault::Opening(fault)),
    };
    match run_over(alloc, chain, reader, writer) {
        Ok(saved) => Ok(saved),
        Err(fault) => Err(ScriptFault::Running(fault)),
    }
}
