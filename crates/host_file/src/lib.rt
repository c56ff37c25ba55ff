//! Files of the host. `HostFile` is the trait, `OsFile` a file of the operating system, and `MemoryFile` a file in memory, for tests.
#![tactic(auto)]

mod edits;
mod file;
mod first_bytes;
mod memory_file;
mod os_file;
mod record;

pub use file::HostFile;
pub use first_bytes::{FirstBytes, Unknown};
pub use memory_file::MemoryFile;
pub use os_file::OsFile;
