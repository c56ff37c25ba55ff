// The reasons why the program fails, and its exit statuses.
ghost use Rattle.std.specs.Prelude.{◌≡◌, ⊤, ℕ, Result, Ok, Err, String};
ghost use Rattle.std.specs.declared.alloc.Global.{Global};
ghost use Rattle.imago_storage.specs.declared.fault.Fault.{Fault};
ghost use Rattle.qimg_core.specs.declared.check.CheckFault.{CheckFault};
ghost use Rattle.qimg.specs.declared.failure.Failure.TheVariants as failures;
ghost use Rattle.qimg.specs.declared.failure.Finding.TheVariants as findings;
ghost use Rattle.qimg.specs.declared.failure.Uncommitted.{Uncommitted};
ghost use Rattle.qimg.specs.declared.failure.Uncommitted.TheVariants as uncommitted;
ghost use Rattle.qimg_chain.specs.declared.run.opened.ScriptFault.TheVariants as script_faults;

use imago_storage::Fault;
use qimg_chain::run::ScriptFault;
use qimg_core::check::CheckFault;
use std::alloc::{AllocError, AllocFailed};
use std::{fmt, io};

/// A reason why the program fails.
#[derive(Debug, Drop)]
pub enum Failure {
    /// The chain doesn't open.
    Opening(Fault),
    /// The arguments aren't valid.
    Arguments,
    /// The arguments of `create` aren't valid.
    Usage,
    /// An image with these properties can't be created.
    Creating(Fault),
    /// The path of a new image is taken. Holds that path.
    Taken(String),
    /// A file or a stream failed, memory ran out, or the script is too long.
    InputOutput,
    /// The path of the new file of a save is taken, for example because an earlier run was stopped. Holds that path.
    LeftOver(String),
    /// The command `check` didn't end with an image without errors.
    Check(Finding),
    /// The command `commit` failed.
    Commit(Uncommitted),
}

/// A reason why the command `commit` fails.
#[derive(Debug, Drop)]
pub enum Uncommitted {
    /// The arguments of `commit` aren't valid.
    Usage,
    /// The file at this path has no backing file.
    NoBackingFile(String),
    /// The header of the file at this path doesn't state the format of its backing file.
    NoFormat(String),
    /// A header states this format of the backing file, which is neither `raw` nor `qcow2`.
    UnknownFormat(String),
    /// The backing files form a loop. Holds the path of a file that occurs twice.
    Loop(String),
    /// The checker doesn't accept the file.
    Unaccepted(CheckFault),
    /// The checker doesn't accept the backing file.
    UnacceptedBelow(CheckFault),
    /// The chain doesn't open, or the commit fails.
    Refused(Fault),
    /// A file can't be read or replaced, memory ran out, or the output can't be written.
    Failed,
    /// The path of the new file of a save is taken. Holds that path.
    LeftOver(String),
}

impl fmt::Display for Uncommitted {
    fn fmt<W: fmt::Write>(&self, f: &mut fmt::Formatter<W>) -> fmt::Result {
        match self {
            Uncommitted::Usage => write!(f, "bad arguments"),
            Uncommitted::NoBackingFile(path) => write!(f, "{path} has no backing file"),
            Uncommitted::NoFormat(path) => {
                write!(
                    f,
                    "the header of {path} states no format of the backing file"
                )
            }
            Uncommitted::UnknownFormat(format) => {
                write!(f, "a backing file of format {format} isn't supported")
            }
            Uncommitted::Loop(path) => write!(f, "{path} is its own backing file, or below it"),
            Uncommitted::Unaccepted(fault) => write_fault(f, fault),
            Uncommitted::UnacceptedBelow(fault) => {
                write!(f, "the backing file: ")?;
                write_fault(f, fault)
            }
            Uncommitted::Refused(fault) => write!(f, "{fault}"),
            Uncommitted::Failed | Uncommitted::LeftOver(_) => write!(f, "input or output failed"),
        }
    }
}

impl From<Failure> for Uncommitted {
    ghost from_gives = { λ _ _. ⊤ };

    fn from(failure: Failure) -> Self {
        match failure {
            Failure::LeftOver(path) => Uncommitted::LeftOver(path),
            _ => Uncommitted::Failed,
        }
    }
}

impl From<Fault> for Uncommitted {
    ghost from_gives = { λ fault failure. failure ≡ uncommitted.Refused fault };

    fn from(fault: Fault) -> Self {
        Uncommitted::Refused(fault)
    }
}

impl From<io::Error> for Uncommitted {
    ghost from_gives = { λ _ failure. failure ≡ uncommitted.Failed };

    fn from(_: io::Error) -> Self {
        Uncommitted::Failed
    }
}

impl From<AllocError> for Uncommitted {
    ghost from_gives = { λ _ failure. failure ≡ uncommitted.Failed };

    fn from(_: AllocError) -> Self {
        Uncommitted::Failed
    }
}

impl<T: Drop> From<AllocFailed<T>> for Uncommitted {
    ghost from_gives = { λ _ failure. failure ≡ uncommitted.Failed };

    fn from(_: AllocFailed<T>) -> Self {
        Uncommitted::Failed
    }
}

impl From<Uncommitted> for Failure {
    ghost from_gives = { λ why failure. failure ≡ failures.Commit why };

    fn from(why: Uncommitted) -> Self {
        Failure::Commit(why)
    }
}

/// The result of the command `check`, unless the image has no errors.
#[derive(Debug, Drop)]
pub enum Finding {
    /// This many clusters leak.
    Leaks(usize),
    /// The image is damaged.
    Damaged(CheckFault),
    /// The file isn't a qcow2 image that can be checked, or memory ran out.
    Unchecked(CheckFault),
    /// The leaks aren't repaired.
    Unrepaired(Fault),
    /// The arguments of `check` aren't valid.
    Usage,
    /// A file can't be read or replaced, or the output can't be written.
    Failed,
    /// The path of the new file of a save is taken. Holds that path.
    LeftOver(String),
}

impl fmt::Display for Finding {
    fn fmt<W: fmt::Write>(&self, f: &mut fmt::Formatter<W>) -> fmt::Result {
        match self {
            Finding::Leaks(count) => write!(f, "leaked clusters: {count}"),
            Finding::Damaged(fault) | Finding::Unchecked(fault) => write_fault(f, fault),
            Finding::Unrepaired(fault) => write!(f, "{fault}"),
            Finding::Usage => write!(f, "bad arguments"),
            Finding::Failed | Finding::LeftOver(_) => write!(f, "input or output failed"),
        }
    }
}

/// Writes what the checker says of an image.
fn write_fault<W: fmt::Write>(f: &mut fmt::Formatter<W>, fault: &CheckFault) -> fmt::Result {
    match fault {
        CheckFault::Header => write!(
            f,
            "not a qcow2 image that can be written, or its header is damaged"
        ),
        CheckFault::Snapshots => write!(f, "images with internal snapshots can't be checked"),
        CheckFault::External => write!(f, "images with an external data file can't be checked"),
        CheckFault::Table => write!(f, "an entry of an L1, L2 or refcount table is damaged"),
        CheckFault::SharedTable(cluster) => {
            write!(
                f,
                "cluster {cluster} of the header, a table or a refcount block is used twice"
            )
        }
        CheckFault::FalseCopied(cluster) => {
            write!(
                f,
                "cluster {cluster} is used twice, and an L2 entry says it isn't"
            )
        }
        CheckFault::UnderCounted(cluster) => {
            write!(f, "the refcount of cluster {cluster} is too low")
        }
        CheckFault::Memory => write!(f, "out of memory"),
        CheckFault::Storage => write!(f, "input or output failed"),
    }
}

impl From<Failure> for Finding {
    ghost from_gives = { λ _ _. ⊤ };

    fn from(failure: Failure) -> Self {
        match failure {
            Failure::LeftOver(path) => Finding::LeftOver(path),
            _ => Finding::Failed,
        }
    }
}

impl From<io::Error> for Finding {
    ghost from_gives = { λ _ finding. finding ≡ findings.Failed };

    fn from(_: io::Error) -> Self {
        Finding::Failed
    }
}

impl From<Finding> for Failure {
    ghost from_gives = { λ finding failure. failure ≡ failures.Check finding };

    fn from(finding: Finding) -> Self {
        Failure::Check(finding)
    }
}

impl fmt::Display for Failure {
    fn fmt<W: fmt::Write>(&self, f: &mut fmt::Formatter<W>) -> fmt::Result {
        match self {
            Failure::Opening(fault) | Failure::Creating(fault) => write!(f, "{fault}"),
            Failure::Arguments | Failure::Usage => write!(f, "bad arguments"),
            Failure::Taken(path) => write!(f, "{path} exists"),
            Failure::InputOutput | Failure::LeftOver(_) => write!(f, "input or output failed"),
            Failure::Check(finding) => write!(f, "{finding}"),
            Failure::Commit(why) => write!(f, "{why}"),
        }
    }
}

impl From<io::Error> for Failure {
    ghost from_gives = { λ _ failure. failure ≡ failures.InputOutput };

    fn from(_: io::Error) -> Self {
        Failure::InputOutput
    }
}

impl From<AllocError> for Failure {
    ghost from_gives = { λ _ failure. failure ≡ failures.InputOutput };

    fn from(_: AllocError) -> Self {
        Failure::InputOutput
    }
}

impl<T: Drop> From<AllocFailed<T>> for Failure {
    ghost from_gives = { λ _ failure. failure ≡ failures.InputOutput };

    fn from(_: AllocFailed<T>) -> Self {
        Failure::InputOutput
    }
}

impl From<ScriptFault> for Failure {
    ghost from_gives = { elim [
      | script_faults.Opening fault ↦ λ failure. failure ≡ failures.Opening fault
      | script_faults.Running fault ↦ λ failure. failure ≡ failures.InputOutput
    ] };

    fn from(fault: ScriptFault) -> Self {
        match fault {
            ScriptFault::Opening(fault) => Failure::Opening(fault),
            ScriptFault::Running(_) => Failure::InputOutput,
        }
    }
}

/// Returns the exit status of the program for an outcome.
pub fn status(outcome: &Result<(), Failure>) -> u8
    ensures done { outcome.now ≡ Ok tt → result ≡ 0 }
    ensures opening { (fault : Fault) → outcome.now ≡ Err (Failure.Opening fault) → result ≡ 1 }
    ensures arguments { outcome.now ≡ Err Failure.Arguments → result ≡ 2 }
    ensures usage { outcome.now ≡ Err Failure.Usage → result ≡ 2 }
    ensures creating { (fault : Fault) → outcome.now ≡ Err (Failure.Creating fault) → result ≡ 1 }
    ensures taken { (path : String Global) → outcome.now ≡ Err (Failure.Taken path) → result ≡ 1 }
    ensures io { outcome.now ≡ Err Failure.InputOutput → result ≡ 3 }
    ensures left_over { (path : String Global) → outcome.now ≡ Err (Failure.LeftOver path) → result ≡ 3 }
    ensures leaks { (count : ℕ) → outcome.now ≡ Err (Failure.Check (findings.Leaks count)) → result ≡ 3 }
    ensures damaged { (fault : CheckFault) → outcome.now ≡ Err (Failure.Check (findings.Damaged fault)) → result ≡ 2 }
    ensures unchecked { (fault : CheckFault) → outcome.now ≡ Err (Failure.Check (findings.Unchecked fault)) → result ≡ 1 }
    ensures unrepaired { (fault : Fault) → outcome.now ≡ Err (Failure.Check (findings.Unrepaired fault)) → result ≡ 1 }
    ensures check_usage { outcome.now ≡ Err (Failure.Check findings.Usage) → result ≡ 1 }
    ensures check_failed { outcome.now ≡ Err (Failure.Check findings.Failed) → result ≡ 1 }
    ensures check_left_over { (path : String Global) → outcome.now ≡ Err (Failure.Check (findings.LeftOver path)) → result ≡ 1 }
    ensures commit { (why : Uncommitted) → outcome.now ≡ Err (Failure.Commit why) → result ≡ 1 }
{
    match outcome {
        Ok(()) => 0,
        Err(Failure::Opening(_) | Failure::Creating(_) | Failure::Taken(_)) => 1,
        Err(Failure::Commit(_)) => 1,
        Err(Failure::Arguments | Failure::Usage) => 2,
        Err(Failure::InputOutput) => 3,
        Err(Failure::LeftOver(_)) => 3,
        Err(Failure::Check(finding)) => match finding {
            Finding::Leaks(_) => 3,
            Finding::Damaged(_) => 2,
            Finding::Unchecked(_)
            | Finding::Unrepaired(_)
            | Finding::Usage
            | Finding::Failed
            | Finding::LeftOver(_) => 1,
        },
    }
}

/// Returns what the user can do about a failure of `create`, `check` or `commit`, if that isn't in its first line.
pub fn advice(failure: &Failure) -> Option<&'static str> {
    match failure {
        Failure::Usage => Some(
            "usage: qimg create [-s CLUSTER_SIZE] [-w REFCOUNT_BITS] [-b BACKING_FILE -F raw|qcow2|vmdk] \
            [-p none|zero|format|full|data] FILE SIZE",
        ),
        Failure::Check(Finding::Usage) => Some("usage: qimg check [--repair leaks] FILE"),
        Failure::Commit(Uncommitted::Usage) => Some("usage: qimg commit FILE"),
        Failure::Commit(Uncommitted::NoFormat(_)) => Some(
            "`qemu-img rebase -u -F FORMAT -b BACKING_FILE FILE` writes it to the header; a guessed format may be wrong",
        ),
        Failure::Commit(Uncommitted::Refused(Fault::BadArgument)) => {
            Some("the backing file is smaller than the disk; it must be grown first")
        }
        Failure::Check(Finding::Leaks(_)) => {
            Some("they waste space and harm no data; `qimg check --repair leaks FILE` frees them")
        }
        Failure::Creating(Fault::BadArgument) => Some(
            "a cluster size is a power of two from 512 to 2M, and a refcount width one from 1 to 64",
        ),
        Failure::Creating(Fault::Unsupported) => {
            Some("an image with a backing file can't allocate the clusters of its disk")
        }
        Failure::Creating(Fault::Limit(_)) => Some(
            "the disk is too large for this cluster size, or the name of the backing file is too long",
        ),
        _ => None,
    }
}
