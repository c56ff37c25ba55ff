//! Chains of image files (an image and its backing chain), each file with its own format.
mod drivers;
mod extras;
mod file_reads;
mod image_driver;
mod lending;
mod naming;
mod opening;
mod plain_reads;
mod repairing;
mod snapshots;
mod stateless;

pub use image_driver::ImageDriver;
pub(crate) use lending::lend;
pub use naming::NamesFiles;
pub use opening::{open_chain, open_for_commit};
pub use plain_reads::plain_read;
pub use snapshots::snapshot;
