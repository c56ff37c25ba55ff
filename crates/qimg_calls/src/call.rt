// The calls that a list for `drive` can make on a disk, and their answers. Definitions: specs/Calls.antt.
ghost use Rattle.std.specs.Prelude.{◌≡◌};
ghost use Rattle.qimg_calls.specs.Calls.{is_look, is_out_of_place};

use imago_access::{Mapping, PreallocateMode, ShallowMapping};
use imago_storage::Fault;

/// A call on a chain (an image and its backing files). Offsets, lengths and sizes are in bytes.
///
/// A prepared mapping (a run that is written before it is committed) is kept for later calls of the list until it is committed or
/// cancelled. `CommitDataMapping`, `Cancel` and `WriteMapped` work on the kept mapping. While a mapping is kept, no other call that changes
/// the disk is allowed.
#[derive(Debug, Drop)]
pub enum Call {
    /// Reads a range of the disk.
    Read {
        offset: u64,
        length: usize,
    },
    /// Writes bytes from `offset` on.
    Write {
        offset: u64,
        bytes: Vec<u8>,
    },
    /// Makes a range read as 0.
    WriteZeroes {
        offset: u64,
        length: u64,
    },
    /// Makes a range read as 0, and deallocates the units (clusters of qcow2) that it covers completely.
    DiscardToZero {
        offset: u64,
        length: u64,
    },
    /// Discards a range. Each of its bytes may then have any value.
    DiscardToAny {
        offset: u64,
        length: u64,
    },
    /// Discards a range. Each of its bytes then reads as before, or as in the backing file.
    DiscardToBacking {
        offset: u64,
        length: u64,
    },
    /// Prepares a run of a range for writing. With `overwrite` the whole run will be written before the commit.
    PrepareDataMapping {
        offset: u64,
        length: u64,
        overwrite: bool,
    },
    /// Commits the kept mapping: its data becomes part of the disk.
    CommitDataMapping,
    /// Cancels the kept mapping: what was written to it doesn't become part of the disk.
    Cancel,
    /// Maps a run of a range so that it can be written directly in its storage.
    EnsureDataMapping {
        offset: u64,
        length: u64,
        overwrite: bool,
    },
    /// Writes bytes at `place` of a storage, to which the range of the disk from `guest` on is mapped.
    WriteMapped {
        guest: u64,
        place: u64,
        bytes: Vec<u8>,
    },
    /// Looks up the mapping of a range through the chain.
    GetMapping {
        offset: u64,
        length: u64,
    },
    /// Looks up the mapping of a range in the top layer only.
    GetShallowMapping {
        offset: u64,
        length: u64,
    },
    /// Writes dirty data to the storages.
    Flush,
    /// Makes the written data durable.
    Sync,
    /// Makes the disk longer.
    ResizeGrow {
        size: u64,
        mode: PreallocateMode,
    },
    /// Makes the disk shorter.
    ResizeShrink {
        size: u64,
    },
    /// Repairs the leaks of the top image: lowers each refcount by its excess over the references.
    RepairLeaks,
    /// Commits the data of the top image to the layer below it (its backing file), and empties the top image.
    CommitDown,
}

impl Call {
    // Returns true if the call is for a mapping and none is kept, or if it changes the disk while one is kept.
    pub(crate) fn is_out_of_place(&self, kept: bool) -> bool
        ensures { result ≡ is_out_of_place kept self.now }
    {
        match self {
            Call::CommitDataMapping | Call::Cancel | Call::WriteMapped { .. } => !kept,
            _ => kept && !self.is_look(),
        }
    }

    // Returns true if the call only reads, or only writes dirty data. Such a call is always allowed.
    pub(crate) fn is_look(&self) -> bool
        ensures { result ≡ is_look self.now }
    {
        matches!(
            self,
            Call::Read { .. }
                | Call::GetMapping { .. }
                | Call::GetShallowMapping { .. }
                | Call::Flush
                | Call::Sync
        )
    }
}

/// The answer to a call.
#[derive(Debug, Drop)]
pub enum Answer {
    /// The call succeeded.
    Done,
    /// The bytes of a range.
    Bytes(Vec<u8>),
    /// The mapping of a run through the chain, and the length of the run in bytes.
    Mapped(Mapping, u64),
    /// The mapping of a run in the top layer, and the length of the run in bytes.
    Shallow(ShallowMapping, u64),
    /// A run is prepared.
    Prepared {
        /// The number of the storage that contains the run, as the top driver counts its storages.
        storage: usize,
        /// The offset of the run in the storage, in bytes.
        offset: u64,
        /// The length of the run in bytes.
        length: u64,
        /// True if the mapping has something to commit.
        state: bool,
    },
    /// The leaks that were repaired, by rising cluster, each with its excess refcount.
    Leaks(Vec<(u64, u64)>),
    /// The call failed.
    Refused(Fault),
}
