// The error type of every call of the library, with its numbers and kinds.
ghost use Rattle.std.specs.Prelude.{◌≡◌};
ghost use Rattle.imago_storage.specs.Fault.{number_of, kind_of};
ghost use Rattle.imago_storage.specs.declared.fault.Fault.TheVariants.{Memory};

use std::alloc::{AllocError, AllocFailed};
use std::error::Error;
use std::fmt;

/// The reason why a call failed. It is displayed as `error N`, where N is its number.
#[derive(Clone, Copy, Debug, PartialEq, Eq)]
pub enum Fault {
    /// A changing call on an image that was opened read-only.
    ReadOnly,
    /// The range of a changing call ends past the disk's size.
    PastEnd,
    /// The end of a range doesn't fit `u64`, before or after it is rounded up to the alignment.
    RangeOverflow,
    /// The header violates the format.
    DamagedHeader,
    /// A table violates the format, or a cluster to free has no refcount block.
    DamagedTable,
    /// The descriptor violates the format.
    DamagedDescriptor,
    /// A feature, format or preallocation mode that isn't supported.
    Unsupported,
    /// A read touches a compressed or inaccessible range.
    Barred,
    /// A write to a storage location where the guest range isn't mapped for writing, or isn't any longer.
    Outdated,
    /// A prepared mapping (a run that is written before it is committed) of another image.
    Foreign,
    /// A version 2 image, where the call needs version 3.
    VersionLimit,
    /// A documented limit was exceeded. The value is the size, offset, index or count that exceeds it.
    Limit(u64),
    /// The chain (an image and its backing files) is empty, or a backing file that an image names wasn't supplied.
    MissingBelow,
    /// A file was supplied below an image that has no backing file.
    ExtraLayer,
    /// An extent or data file that the image needs wasn't supplied.
    MissingData,
    /// Every entry of a cache is pinned.
    CacheFull,
    /// A refcount would exceed its width or fall below 0.
    Counter,
    /// An invalid builder option, unequal sizes, or a read that is too long.
    BadArgument,
    /// An earlier call failed: the image must be opened again.
    Failed,
    /// Memory ran out.
    Memory,
    /// A request failed in a storage, which has counted a fault.
    Storage,
    /// A script line that isn't a command.
    BadCommand,
}

/// The kinds of faults. Their names are those of I/O error kinds.
#[derive(Clone, Copy, Debug, PartialEq, Eq)]
pub enum FaultKind {
    /// A range ends past the end.
    UnexpectedEof,
    /// An argument isn't valid.
    InvalidInput,
    /// A file or table violates its format.
    InvalidData,
    /// The request isn't supported.
    Unsupported,
    /// Memory ran out.
    OutOfMemory,
    /// Any other cause.
    Other,
}

impl Fault {
    /// Returns the fault's number, from 1 to 22.
    pub fn number(&self) -> u8
        ensures { result ≡ number_of self.now }
    {
        match self {
            Fault::ReadOnly => 1,
            Fault::PastEnd => 2,
            Fault::RangeOverflow => 3,
            Fault::DamagedHeader => 4,
            Fault::DamagedTable => 5,
            Fault::DamagedDescriptor => 6,
            Fault::Unsupported => 7,
            Fault::Barred => 8,
            Fault::Outdated => 9,
            Fault::Foreign => 10,
            Fault::VersionLimit => 11,
            Fault::Limit(_) => 12,
            Fault::MissingBelow => 13,
            Fault::ExtraLayer => 14,
            Fault::MissingData => 15,
            Fault::CacheFull => 16,
            Fault::Counter => 17,
            Fault::BadArgument => 18,
            Fault::Failed => 19,
            Fault::Memory => 20,
            Fault::Storage => 21,
            Fault::BadCommand => 22,
        }
    }

    /// Returns the fault's kind.
    pub fn kind(&self) -> FaultKind
        ensures { result ≡ kind_of self.now }
    {
        match self {
            Fault::ReadOnly => FaultKind::Other,
            Fault::PastEnd => FaultKind::UnexpectedEof,
            Fault::RangeOverflow => FaultKind::InvalidInput,
            Fault::DamagedHeader => FaultKind::InvalidData,
            Fault::DamagedTable => FaultKind::InvalidData,
            Fault::DamagedDescriptor => FaultKind::InvalidData,
            Fault::Unsupported => FaultKind::Unsupported,
            Fault::Barred => FaultKind::Unsupported,
            Fault::Outdated => FaultKind::Other,
            Fault::Foreign => FaultKind::InvalidInput,
            Fault::VersionLimit => FaultKind::Unsupported,
            Fault::Limit(_) => FaultKind::Other,
            Fault::MissingBelow => FaultKind::Other,
            Fault::ExtraLayer => FaultKind::InvalidInput,
            Fault::MissingData => FaultKind::Other,
            Fault::CacheFull => FaultKind::Other,
            Fault::Counter => FaultKind::InvalidData,
            Fault::BadArgument => FaultKind::InvalidInput,
            Fault::Failed => FaultKind::Other,
            Fault::Memory => FaultKind::OutOfMemory,
            Fault::Storage => FaultKind::Other,
            Fault::BadCommand => FaultKind::InvalidInput,
        }
    }
}

impl fmt::Display for Fault {
    fn fmt<W: fmt::Write>(&self, f: &mut fmt::Formatter<W>) -> fmt::Result {
        let number = self.number();
        write!(f, "error {number}")
    }
}

impl Error for Fault {}

impl From<AllocError> for Fault {
    ghost from_gives = { λ _ e. e ≡ Memory };

    fn from(_: AllocError) -> Self {
        Fault::Memory
    }
}

impl<T: Drop> From<AllocFailed<T>> for Fault {
    ghost from_gives = { λ _ e. e ≡ Memory };

    fn from(_: AllocFailed<T>) -> Self {
        Fault::Memory
    }
}
