// The texts of answers: mappings, prepared mappings and formats.
use imago_access::{Format, Mapping, PreparedDataMapping, ShallowMapping};
use std::alloc::{AllocError, Global};

fn access(writable: bool) -> &'static str {
    if writable { "writable" } else { "read_only" }
}

fn zero(explicit: bool) -> &'static str {
    if explicit { "explicit zero" } else { "zero" }
}

/// Returns the text of a mapping in a chain. A run with bytes in a storage has its depth in the chain, storage and offset. The length is in
/// bytes.
pub fn deep(alloc: Global, mapping: Mapping, length: u64) -> Result<String, AllocError> {
    match mapping {
        Mapping::Raw {
            depth,
            storage,
            offset,
            writable,
        } => {
            let access = access(writable);
            format!(in alloc; "raw {depth} {storage} {offset} {access} for {length}")
        }
        Mapping::Zero { explicit } => {
            let zero = zero(explicit);
            format!(in alloc; "{zero} for {length}")
        }
        Mapping::Eof => format!(in alloc; "end for {length}"),
        Mapping::Special { depth, offset } => {
            format!(in alloc; "barred {depth} {offset} for {length}")
        }
    }
}

/// Returns the text of a mapping in one image of a chain.
pub fn shallow(alloc: Global, mapping: ShallowMapping, length: u64) -> Result<String, AllocError> {
    match mapping {
        ShallowMapping::Raw {
            storage,
            offset,
            writable,
        } => {
            let access = access(writable);
            format!(in alloc; "raw {storage} {offset} {access} for {length}")
        }
        ShallowMapping::Indirect { offset, writable } => {
            let access = access(writable);
            format!(in alloc; "below {offset} {access} for {length}")
        }
        ShallowMapping::Zero { explicit } => {
            let zero = zero(explicit);
            format!(in alloc; "{zero} for {length}")
        }
        ShallowMapping::Eof => format!(in alloc; "end for {length}"),
        ShallowMapping::Special { offset } => format!(in alloc; "barred {offset} for {length}"),
    }
}

/// Returns the text of a prepared mapping's storage, offset and length, and of whether it needs a commit.
pub fn prepared_at(
    alloc: Global,
    (storage, offset, length): (usize, u64, u64),
    is_to_commit: bool,
) -> Result<String, AllocError> {
    let state = if is_to_commit { "to commit" } else { "done" };
    format!(in alloc; "{storage} {offset} {length} {state}")
}

/// Returns the text of a prepared mapping (a run that is written before it is committed): its storage, its offset and length in bytes, and
/// whether it needs a commit.
///
/// # Errors
///
/// - `AllocError` if memory runs out.
pub fn prepared<T>(alloc: Global, mapping: &PreparedDataMapping<T>) -> Result<String, AllocError> {
    let place = (mapping.storage(), mapping.offset(), mapping.length());
    prepared_at(alloc, place, !mapping.is_nonblocking())
}

/// Returns the word of a format.
pub fn format(format: Format) -> &'static str {
    match format {
        Format::Raw => "raw",
        Format::Qcow2 => "qcow2",
        Format::Vmdk => "vmdk",
    }
}
