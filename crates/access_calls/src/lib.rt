//! The calls on a disk (an image and its backing files), written as words of a script. Programs that run test cases share them, although
//! their disks have different drivers.
//!
//! Each call is a function that is generic over the driver, so it is proved once for all drivers. Terms are explained in docs/GLOSSARY.md.
#![tactic(auto)]

mod calls;
mod driving;
mod file_reads;
mod lists;
mod texts;
mod words;

pub use calls::{buffer, cancel, commit, done, flatten, prepare, read, stacked, top};
pub use driving::nothing_below;
pub use lists::{calls_of, told_all};
pub use texts::prepared;
pub use words::{called, mode_of, run_of};
