// The command `commit`: commits the data of a qcow2 file to its backing file, and empties the qcow2 file.
ghost use Rattle.imago_access.specs.Layer.{IsFree};

use crate::backing::{Committable, files_for_commit};
use crate::failure::{Failure, Uncommitted};
use imago_access::{DriverModel, FormatAccess, FormatDriverInstance};
use imago_storage::{Fault, MemStorage};
use qimg_calls::{Answer, Call};
use qimg_chain::chain::ImageDriver;
use qimg_chain::session::{NotDriven, drive_for_commit};
use std::alloc::Global;
use std::fs::Files;
use std::println;

/// The numbers of the top image and of the one below it, by which a prepared mapping identifies its image.
const TOP: u64 = 1;

const BELOW: u64 = 2;

/// Parses the arguments that follow `commit`: the path of the file.
///
/// # Errors
///
/// - `Uncommitted::Usage` if they aren't one path.
pub fn parse<'a>(words: &[&'a str]) -> Result<&'a str, Uncommitted> {
    match words {
        [path] if !path.starts_with('-') => Ok(path),
        _ => Err(Uncommitted::Usage),
    }
}

/// Returns an error unless the commit succeeded.
fn check_answers(answers: Result<Vec<Answer>, Fault>) -> Result<(), Uncommitted> {
    match answers?.pop() {
        Some(Answer::Done) => Ok(()),
        Some(Answer::Refused(fault)) => Err(Uncommitted::Refused(fault)),
        _ => Err(Uncommitted::Refused(Fault::Memory)),
    }
}

/// Returns the bytes of the top file, and those of the one below it.
fn bytes_of(disk: FormatAccess<ImageDriver<MemStorage>>) -> Result<(Vec<u8>, Vec<u8>), Fault>
    requires free { IsFree (⟦<ImageDriver<MemStorage> as DriverModel>⟧.layer disk.0) }
{
    let below = match disk.below() {
        Some(next) => next.inner().image_file().bytes()?,
        None => return Err(Fault::MissingBelow),
    };
    let top = disk.into_driver().into_image().into_bytes()?;
    Ok((top, below))
}

/// Commits the data of the file at `path` to its backing file, and empties the file.
///
/// The backing files are those that the headers name: see `files_for_commit`. Both files are checked first, as `qimg check` does. The commit
/// is made in memory. Then both files are replaced: see `TopFile::replace_with_below`. If the program is stopped between the two renamings,
/// both files together still have the same data.
///
/// # Errors
///
/// - The errors of `files_for_commit`.
/// - `Uncommitted::Unaccepted`, `Uncommitted::UnacceptedBelow` if the checker doesn't accept the file, or its backing file.
/// - `Uncommitted::Refused` with the fault of an opening or of the commit.
/// - `Uncommitted::Failed` if a file can't be read or replaced.
pub fn commit<R: Files + Print + AllocGlobal>(rt: &R, path: &str) -> Result<(), Uncommitted> {
    let alloc = rt.alloc();
    let Committable { files, top, below } = files_for_commit(rt, path)?;
    let list = [Call::CommitDown];
    let (disk, answers) = match drive_for_commit(alloc, files, TOP, BELOW, &list) {
        Ok(driven) => driven,
        Err(NotDriven::Finding(fault)) => return Err(Uncommitted::Unaccepted(fault)),
        Err(NotDriven::FindingBelow(fault)) => return Err(Uncommitted::UnacceptedBelow(fault)),
        Err(NotDriven::Opening(fault)) => return Err(Uncommitted::Refused(fault)),
    };
    check_answers(answers)?;
    let (top_bytes, below_bytes) = bytes_of(disk)?;
    top.replace_with_below(rt, &top_bytes, &below, &below_bytes)?;
    println!(rt; "Image committed.")?;
    Ok(())
}
