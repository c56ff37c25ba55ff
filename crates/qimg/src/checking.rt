// The command `check`: checks a qcow2 file, and repairs its leaks if asked to.

use crate::failure::{Failure, Finding};
use crate::files::read_storage;
use crate::top_file::TopFile;
use imago_access::FormatAccess;
use imago_storage::{Fault, MemStorage};
use qcow2_image::Qcow2;
use qimg_calls::repair_leaks;
use qimg_chain::chain::ImageDriver;
use qimg_core::check::{CheckFault, check};
use std::alloc::Global;
use std::fs::Files;
use std::println;

/// The arguments of `check`.
#[derive(Clone, Copy, Drop)]
pub struct Checking<'a> {
    /// The path of the file.
    path: &'a str,
    /// True if leaks are repaired.
    repairs: bool,
}

/// Parses the arguments that follow `check`.
///
/// # Errors
///
/// - `Finding::Usage` if they aren't `[--repair leaks] FILE`, where `-r` stands for `--repair`.
pub fn parse<'a>(words: &[&'a str]) -> Result<Checking<'a>, Finding> {
    match words {
        ["--repair" | "-r"] => Err(Finding::Usage),
        [path] => Ok(Checking {
            path,
            repairs: false,
        }),
        ["--repair" | "-r", "leaks", path] => Ok(Checking {
            path,
            repairs: true,
        }),
        _ => Err(Finding::Usage),
    }
}

/// Returns the number of leaked clusters of an image.
///
/// # Errors
///
/// - `Finding::Damaged` with the finding of the checker.
/// - `Finding::Unchecked` if the file isn't a qcow2 image that can be checked, or memory runs out.
fn leaks_of(alloc: Global, image: &mut MemStorage) -> Result<usize, Finding> {
    match check(alloc, image) {
        Ok(leaks) => Ok(leaks.len()),
        Err(fault) => match fault {
            CheckFault::Header
            | CheckFault::Snapshots
            | CheckFault::External
            | CheckFault::Memory
            | CheckFault::Storage => Err(Finding::Unchecked(fault)),
            CheckFault::Table
            | CheckFault::SharedTable(_)
            | CheckFault::FalseCopied(_)
            | CheckFault::UnderCounted(_) => Err(Finding::Damaged(fault)),
        },
    }
}

/// Repairs the leaks of an image, and returns its new bytes.
fn repaired(alloc: Global, image: MemStorage) -> Result<Vec<u8>, Fault> {
    let image = Qcow2::open_image(alloc, image, true)?;
    let mut disk = FormatAccess::new(ImageDriver::Qcow2(image));
    let _leaks = repair_leaks(alloc, &mut disk)?;
    disk.into_driver().into_image().into_bytes()
}

/// Checks a file, and repairs its leaks if asked to. The result is printed.
///
/// A repair needs no backing file. It makes the new image in memory, and replaces the file as a save does: see `TopFile::replace`. If no
/// cluster leaks, the file isn't replaced.
///
/// # Errors
///
/// - `Finding::Leaks` if clusters leak and aren't repaired.
/// - `Finding::Damaged`, `Finding::Unchecked` as the checker says.
/// - `Finding::Failed` if a file can't be read or replaced.
pub fn check_file<R: Files + Print + AllocGlobal>(
    rt: &R,
    checking: Checking<'_>,
) -> Result<(), Finding> {
    let alloc = rt.alloc();
    let top = if checking.repairs {
        Some(TopFile::at(rt, checking.path)?)
    } else {
        None
    };
    let mut image = read_storage(rt, checking.path)?;
    let leaks = leaks_of(alloc, &mut image)?;
    if leaks == 0 {
        println!(rt; "no errors")?;
        return Ok(());
    }
    let Some(top) = top else {
        return Err(Finding::Leaks(leaks));
    };
    match repaired(alloc, image) {
        Ok(bytes) => top.replace(rt, &bytes)?,
        Err(fault) => return Err(Finding::Unrepaired(fault)),
    }
    println!(rt; "repaired leaked clusters: {leaks}")?;
    Ok(())
}
