//! Laws (functions without code whose contracts are theorems) on the single steps of writing a qcow2 image. A step is a change of the file
//! or of the cached metadata as a mathematical value, without I/O. The crates that write images prove their calls with these laws. An image
//! is consistent (`IsSound`) if each crash image is consistent, and the refcounts also cover the clusters to free. Terms are explained in
//! docs/GLOSSARY.md.
#![tactic(auto)]

pub mod advancing;
pub mod data;
pub mod longer_l1;
pub mod new_tables;
pub mod sizes;
pub mod smallest_image;
pub mod words;
