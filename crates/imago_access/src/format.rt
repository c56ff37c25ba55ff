// The image formats, and the ways to preallocate the new bytes of a growing disk.

/// An image format.
#[derive(Clone, Copy, Debug, Drop, PartialEq, Eq)]
pub enum Format {
    /// The bytes of a file, one for one.
    Raw,
    /// qcow2, versions 2 and 3.
    Qcow2,
    /// A VMDK text descriptor and its extents.
    Vmdk,
}

/// The way in which a growth prepares the new bytes of a disk.
#[derive(Clone, Copy, Debug, Drop, PartialEq, Eq)]
pub enum PreallocateMode {
    /// Nothing is prepared: the new bytes may be any bytes.
    None,
    /// The new bytes read as 0, as cheaply as the format allows.
    Zero,
    /// The new bytes are mapped by the format and read as 0. Not for a disk with a layer below (a backing file).
    FormatAllocate,
    /// The new bytes are mapped, allocated in the storage, and read as 0. Not for a disk with a layer below (a backing file).
    FullAllocate,
    /// The new bytes are mapped, and zeroes are written to them. Not for a disk with a layer below (a backing file).
    WriteData,
}
