//! Tools for disk images: a checker for qcow2 images, and a reader without driver and cache (the plain reader). Terms are explained in
//! docs/GLOSSARY.md.
#![tactic(auto)]

mod buffers;
pub mod check;
mod file_end;
pub mod plain;
