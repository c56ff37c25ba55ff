//! Files of the host as storages, with pages in memory.
//!
//! A storage never asks the host. A `PagedStorage` reads the pages of a `PagedFile` that are in memory, and keeps what is written as a list
//! of requests. A read of another page fails with `Fault::Storage` and is noted in `Misses`: the caller fetches that page
//! (`PagedFile::fetch`) and makes the call again over a new storage. `PagedFile::replay` hands the requests to the file, in order.
//!
//! So a storage keeps its contract, also if an answer is untrue. While the file answers truthfully, a fetch changes no byte of the storage.
#![tactic(auto)]

mod misses;
mod paged_file;
mod paged_storage;
mod pieces;
mod replaying;

pub use misses::{Miss, Misses};
pub use paged_file::{PAGE, PagedFile};
pub use paged_storage::PagedStorage;
