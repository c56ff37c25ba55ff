// The mode in which an image was opened.

/// The mode in which an image was opened: read-only or also for writing, and with or without a backing file to read unallocated bytes from.
#[derive(Clone, Copy, Drop)]
pub struct OpenMode {
    pub(crate) writable: bool,
    pub(crate) backing: bool,
}
