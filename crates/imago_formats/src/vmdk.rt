// The VMDK driver: read-only images that consist of a text descriptor and flat extents.
mod descriptor;
mod disk;
mod driver;
mod files;
mod lines;
mod looking;
mod opening;
mod reading;
mod storages;
mod words;

pub use driver::Vmdk;
