// The contents of a parsed descriptor.

/// The access mode of an extent.
#[derive(Clone, Copy)]
pub(crate) enum Access {
    /// The extent can be read and written.
    ReadWrite,
    /// The extent can be read.
    ReadOnly,
    /// The extent can't be read.
    NoAccess,
}

/// The source of an extent's bytes. `N` is the type of a file name.
#[derive(Drop)]
pub(crate) enum Source<N> {
    /// A file, from a sector on.
    Flat {
        /// The name of the file.
        name: N,
        /// The sector with the first byte of the extent.
        sector: u64,
    },
    /// All bytes are 0.
    Zero,
}

/// An extent: a consecutive part of the disk.
#[derive(Drop)]
pub(crate) struct Extent<N> {
    /// The access mode.
    pub(crate) access: Access,
    /// The size in sectors of 512 bytes.
    pub(crate) sectors: u64,
    /// The source of the bytes.
    pub(crate) source: Source<N>,
}
