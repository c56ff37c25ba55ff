//! Single changes of a qcow2 image's clusters: store data, link or clear L2 entries, and make or replace tables. Terms
//! are explained in docs/GLOSSARY.md.
//!
//! Each call starts with empty caches and ends with empty caches, except that `link_run` and `clear_run` leave their L2
//! table cached and clean. So no data is dirty between calls.
//!
//! # Crash safety
//!
//! If the image is consistent and its storage keeps what is written, each crash image of a call (the file after a crash
//! between two requests) is consistent, and leaks clusters at worst. The guest reads each byte as before. In `link_run`
//! and `clear_run`, bytes of their guest clusters may have the new values instead. After `set_disk_size` the disk has the
//! old or the new size.
#![tactic(auto)]

mod clearing;
mod filling;
mod freeing;
mod lengthening;
mod linking;
mod lowering;
mod making_tables;
mod sizing;
mod space;
mod storing;
mod writing_back;

pub use clearing::{Clearing, clear_run, clearing_entries};
pub use filling::fill;
pub use freeing::free_pending_clusters;
pub use lengthening::lengthen_l1;
pub use linking::link_run;
pub use lowering::lower_leaks;
pub use making_tables::{copy_table, make_table};
pub use sizing::set_disk_size;
pub use space::Space;
pub use storing::{Stored, store_run, store_zeroes};
