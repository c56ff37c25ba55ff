//! The metadata of a qcow2 image: its header, its tables and its refcount blocks.
//!
//! Each is a value in memory that is loaded from the file, changed, and written back. The laws in [`laws`] add to the contracts. Terms are
//! explained in docs/GLOSSARY.md.
#![tactic(auto)]

mod clusters;
mod counter;
mod endian;
mod entries;
mod entry_table;
mod extension_bytes;
mod extensions;
mod features;
mod header;
mod l1_table;
mod l2_table;
pub mod laws;
mod layout;
mod mapping;
mod numbers;
mod reading;
mod ref_table;
mod refblock;
mod rules;
mod stored_table;
mod table;
pub mod words;

pub use entries::{L1Entry, L2Entry, RefTableEntry, TableEntry};
pub use entry_table::EntryTable;
pub use header::Header;
pub use l1_table::L1Table;
pub use l2_table::{CompressedClusterReadGuard, L2Table, L2TableWriteGuard};
pub use mapping::L2Mapping;
pub use ref_table::RefTable;
pub use refblock::{RefBlock, RefBlockWriteGuard};
pub use stored_table::StoredL2Table;
pub use table::Table;
