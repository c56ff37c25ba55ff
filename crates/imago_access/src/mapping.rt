// The results of lookups: where a run of bytes is stored, in one image or in a chain of images. The type of prepared mappings (runs that
// are written before they are committed) is here too.
ghost use Rattle.std.specs.Prelude.{false, ◌≡◌, ◌-◌, ◌^◌, Some, None, is_none};
ghost use Rattle.imago_access.specs.Mappings.{is_deep_end, is_deep_explicit, lower, IsDeepBelow};

/// A lookup's result for a run of bytes in one layer (an image without its backing files).
#[derive(Clone, Copy, Debug, Drop, PartialEq, Eq)]
pub enum ShallowMapping {
    /// The run is stored in a storage of the layer.
    Raw {
        /// The storage's number in the driver.
        storage: usize,
        /// The offset of the run in the storage, in bytes.
        offset: u64,
        /// The run can be written in place.
        writable: bool,
    },
    /// The run reads as in the layer below (the backing file).
    Indirect {
        /// The offset of the run in the layer below, in bytes.
        offset: u64,
        /// This layer allows writing the run in place in the layer below. A layer gives one answer for all runs of the layer below.
        writable: bool,
    },
    /// The run is 0.
    Zero {
        /// The layer itself maps the run as 0, rather than having nothing allocated for it.
        explicit: bool,
    },
    /// The run is past the end of the disk.
    Eof,
    /// The run can't be read as bytes of a storage, as a compressed cluster can't.
    Special {
        /// The offset of the run in the disk, in bytes.
        offset: u64,
    },
}

/// A lookup's result for a run of bytes in a chain of layers (an image over its backing files).
#[derive(Clone, Copy, Debug, Drop, PartialEq, Eq)]
pub enum Mapping {
    /// The run is stored in a storage of a layer.
    Raw {
        /// The number of layers above the one that has the storage.
        depth: usize,
        /// The storage's number in the driver of that layer.
        storage: usize,
        /// The offset of the run in the storage, in bytes.
        offset: u64,
        /// The run can be written in place: each layer down to this one allows it.
        writable: bool,
    },
    /// The run is 0.
    Zero {
        /// The top layer itself maps the run as 0.
        explicit: bool,
    },
    /// The run is past the end of the disk.
    Eof,
    /// The run can't be read as bytes of a storage, as a compressed cluster can't.
    Special {
        /// The number of layers above the one where the run can't be read.
        depth: usize,
        /// The offset of the run in that layer, in bytes.
        offset: u64,
    },
}

impl Mapping {
    /// Returns true if the run is past the end of the disk.
    pub fn is_eof(&self) -> bool
        ensures { result ≡ is_deep_end self.now }
    {
        matches!(self, Mapping::Eof)
    }

    // Returns the mapping as the layer above sees it.
    pub(crate) fn lowered(self, writable_above: bool) -> Mapping
        ensures value { IsDeepBelow (2 ^ 64 - 1) self → result ≡ lower writable_above self }
        ensures end { is_deep_end result ≡ is_deep_end self }
        ensures explicit { is_deep_explicit result ≡ false }
    {
        match self {
            Mapping::Raw {
                depth,
                storage,
                offset,
                writable,
            } => Mapping::Raw {
                depth: depth.saturating_add(1),
                storage,
                offset,
                writable: writable && writable_above,
            },
            Mapping::Special { depth, offset } => Mapping::Special {
                depth: depth.saturating_add(1),
                offset,
            },
            Mapping::Zero { .. } => Mapping::Zero { explicit: false },
            Mapping::Eof => Mapping::Eof,
        }
    }
}

/// A run that a driver has prepared for writing. What is written to it becomes part of the disk when it is committed.
///
/// It can't be dropped: it must be committed or cancelled.
pub struct PreparedDataMapping<State> {
    storage: usize,
    offset: u64,
    length: u64,
    state: Option<State>,
}

impl<State> PreparedDataMapping<State> {
    /// Makes a mapping of a run that is already part of the disk. The storage is given by number, the offset and length in bytes.
    pub fn existing(storage: usize, offset: u64, length: u64) -> Self
        ensures { result ≡ record { storage = storage; offset = offset; length = length; state = None } }
    {
        PreparedDataMapping {
            storage,
            offset,
            length,
            state: None,
        }
    }

    /// Makes a mapping of a run that becomes part of the disk when it is committed. `state` is what the driver needs to commit it.
    pub fn to_commit(storage: usize, offset: u64, length: u64, state: State) -> Self
        ensures { result ≡ record { storage = storage; offset = offset; length = length; state = Some state } }
    {
        PreparedDataMapping {
            storage,
            offset,
            length,
            state: Some(state),
        }
    }

    /// Returns the storage's number in the driver.
    pub fn storage(&self) -> usize
        ensures { result ≡ self.now.storage }
    {
        self.storage
    }

    /// Returns the offset of the run in the storage, in bytes.
    pub fn offset(&self) -> u64
        ensures { result ≡ self.now.offset }
    {
        self.offset
    }

    /// Returns the length of the run, in bytes.
    pub fn length(&self) -> u64
        ensures { result ≡ self.now.length }
    {
        self.length
    }

    /// Returns true if the mapping has nothing to commit.
    pub fn is_nonblocking(&self) -> bool
        ensures { result ≡ is_none self.now.state }
    {
        self.state.is_none()
    }

    /// Returns what the driver needs to commit the mapping, if anything.
    pub fn into_state(self) -> Option<State>
        ensures { result ≡ self.state }
    {
        let PreparedDataMapping {
            storage: _storage,
            offset: _offset,
            length: _length,
            state,
        } = self;
        state
    }
}
