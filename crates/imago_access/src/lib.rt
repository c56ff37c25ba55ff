//! The interface of a format driver, and a chain of layers (an image over its backing files) that is read and written as one flat disk.
//!
//! `FormatDriverInstance` is what a driver of a format promises. `FormatAccess` is a disk over one driver and the layers below it.
//! Contracts see each layer as a `Layer`, and its storages as states of `imago_storage`. Terms are explained in docs/GLOSSARY.md.
#![tactic(auto)]

mod access;
mod below;
mod builders;
mod driver_model;
mod drivers;
mod file_reads;
mod format;
mod gate;
mod mapping;
mod ranges;

pub use access::FormatAccess;
pub use below::{NoBelow, ReadBelow};
pub use builders::{
    FormatCreateBuilder, FormatCreateBuilderBase, FormatDriverBuilder, FormatDriverBuilderBase,
    MakeOpenBuilder,
};
pub use driver_model::{DriverModel, LayersBelowModel};
pub use drivers::{FormatDriverInstance, check_commit};
pub use file_reads::ReadFiles;
pub use format::{Format, PreallocateMode};
pub use gate::{DenyImplicitOpenGate, ImplicitOpenGate};
pub use mapping::{Mapping, PreparedDataMapping, ShallowMapping};
pub use ranges::check_range;
