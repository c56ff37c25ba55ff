// The texts of the checker's answers.
use cases::{Trouble, leaks};
use imago_storage::Fault;
use qimg_core::check::CheckFault;
use std::alloc::{AllocError, Global};

// Returns the text of a finding: its text as an error, its name, and its cluster, if it has one.
fn finding(alloc: Global, fault: CheckFault) -> Result<String, AllocError> {
    let (name, cluster) = match fault {
        CheckFault::Header => ("header", None),
        CheckFault::Snapshots => ("snapshots", None),
        CheckFault::External => ("external data", None),
        CheckFault::Table => ("table", None),
        CheckFault::SharedTable(cluster) => ("shared table", Some(cluster)),
        CheckFault::FalseCopied(cluster) => ("false copied", Some(cluster)),
        CheckFault::UnderCounted(cluster) => ("under-counted", Some(cluster)),
        CheckFault::Memory => ("memory", None),
        CheckFault::Storage => ("storage", None),
    };
    match cluster {
        Some(cluster) => format!(in alloc; "{fault} {name} {cluster}"),
        None => format!(in alloc; "{fault} {name}"),
    }
}

/// Returns the text of the checker's answer: `no leaks`, `leaks` with each leak as `CLUSTER:EXCESS`, or a finding, such as
/// `error 25 shared table 3`.
///
/// # Errors
///
/// - `Trouble::Refused` if memory runs out, or if the storage failed.
pub fn told(alloc: Global, answer: Result<Vec<(u64, u64)>, CheckFault>) -> Result<String, Trouble> {
    match answer {
        Ok(found) => Ok(leaks(alloc, &found)?),
        Err(CheckFault::Memory) => Err(Trouble::Refused(Fault::Memory)),
        Err(CheckFault::Storage) => Err(Trouble::Refused(Fault::Storage)),
        Err(fault) => Ok(finding(alloc, fault)?),
    }
}

/// Returns the text that the checker displays for a resource error.
///
/// # Errors
///
/// - `Trouble::NoCall` if the name is neither `memory` nor `storage`. The answers of `check` show the other texts.
/// - `Trouble::Refused` if memory runs out.
pub fn text_of(alloc: Global, name: &str) -> Result<String, Trouble> {
    let fault = match name {
        "memory" => CheckFault::Memory,
        "storage" => CheckFault::Storage,
        _ => return Err(Trouble::NoCall),
    };
    let text = finding(alloc, fault)?;
    Ok(text)
}
