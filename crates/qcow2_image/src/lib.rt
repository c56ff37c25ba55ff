//! The qcow2 driver: an image file with its cached metadata, as a layer of a chain (an image and its backing chain). It reads images of
//! version 2 and 3, and writes them with copy on write. Terms are explained in docs/GLOSSARY.md.
#![tactic(auto)]

mod allocating;
mod builder;
mod cache_entries;
mod clearing;
mod committing;
mod creating;
mod drivers;
mod file_reads;
mod filling;
pub mod laws;
mod lookup;
mod mappings;
mod mode;
mod noting;
mod opening;
mod preallocating;
mod qcow2;
mod reading;
mod refusing;
mod reloading;
mod repairing;
mod resizing;
mod tables;
mod unspent;
mod writing;

pub use builder::Qcow2OpenBuilder;
pub use creating::Qcow2CreateBuilder;
pub use qcow2::{PreparedMappingState, Qcow2};
