//! Disks in files of the host, in place: a chain (an image and its backing files) is opened over files, and lists of calls are made on it.
//!
//! A list is made over storages that have pages of the files in memory (`paged_storage`). If a page is missing, it is read from its file, and
//! the list is made again. When all calls are answered, the top's file gets the requests that changed it, in order. No other file is
//! changed.
#![tactic(auto)]

mod attempt;
mod checking;
mod driving;
mod fetching;
mod host_fault;
mod layer;
mod reading;
mod sizing;
mod warming;

pub use checking::check;
pub use driving::{check_and_drive, drive, save};
pub use host_fault::HostFault;
pub use layer::HostLayer;
pub use reading::read;
pub use sizing::size;
pub use warming::{trim, warm};
