//! Drivers of the simple formats. A driver maps the guest offsets of an image to offsets in its files. `Raw` reads and writes a raw image.
//! `Vmdk` reads a VMDK image: a text descriptor and flat extents. Terms are explained in docs/GLOSSARY.md.
#![tactic(auto)]

mod builders;
pub mod descriptor_rules;
mod raw;
mod vmdk;

pub use builders::{RawCreateBuilder, RawOpenBuilder, VmdkOpenBuilder};
pub use raw::{NoState, Raw};
pub use vmdk::Vmdk;
