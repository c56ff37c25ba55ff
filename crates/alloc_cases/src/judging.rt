// Runs the checker on a file.
use cases::Trouble;
use imago_storage::{Fault, MemStorage};
use qimg_core::check::{CheckFault, check};
use std::alloc::Global;

/// The leaked clusters with their excess refcounts, or the checker's fault.
pub type Verdict = Result<Vec<(u64, u64)>, CheckFault>;

/// Returns the checker's verdict on a file.
pub fn judge(alloc: Global, bytes: Vec<u8>) -> Result<Verdict, Trouble> {
    let mut image = MemStorage::from_bytes(bytes)?;
    match check(alloc, &mut image) {
        Err(CheckFault::Memory) => Err(Trouble::Refused(Fault::Memory)),
        verdict => Ok(verdict),
    }
}
