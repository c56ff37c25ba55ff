//! Storages: growable arrays of bytes that are read and written by requests of whole, aligned units. The unit is the larger of `req_align`
//! and `mem_align`.
//!
//! `Storage` is the trait of a backend, and `StorageExt` adds calls for any range. `MemStorage` holds its bytes in memory, `MemoryView`
//! borrows bytes that are only read, and `Null` drops what is written. `FuseStorage` and `LogStorage` are wrappers for tests: the first
//! fails one request, the second returns crash images (the file after a crash between two requests). `Fault` is the error of every call of
//! this crate and of the crates above it. Terms are explained in docs/GLOSSARY.md.
#![tactic(auto)]

mod discarding;
mod edits;
mod ext;
mod fault;
mod fuse;
mod log;
mod memory;
mod null;
mod options;
mod padding;
mod storage;
mod view;
mod zeroing;

pub use ext::{StorageExt, larger_alignment, padded_end};
pub use fault::{Fault, FaultKind};
pub use fuse::FuseStorage;
pub use log::{LogStorage, Request, StopStorage};
pub use memory::MemStorage;
pub use null::Null;
pub use options::{StorageCreateOptions, StorageOpenOptions};
pub use padding::WriteFault;
pub use storage::{PreallocateMode, Storage};
pub use view::MemoryView;
pub use zeroing::write_full_zeroes;
