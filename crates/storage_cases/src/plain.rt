// Calls that need no storage.
use crate::options::{create, create_open, open};
use cases::{Trouble, is_alignment, number, size};
use imago_storage::{Fault, larger_alignment, padded_end};
use std::alloc::{AllocError, Global};

static FAULTS: [Fault; 22] = [
    Fault::ReadOnly,
    Fault::PastEnd,
    Fault::RangeOverflow,
    Fault::DamagedHeader,
    Fault::DamagedTable,
    Fault::DamagedDescriptor,
    Fault::Unsupported,
    Fault::Barred,
    Fault::Outdated,
    Fault::Foreign,
    Fault::VersionLimit,
    Fault::Limit(65_537),
    Fault::MissingBelow,
    Fault::ExtraLayer,
    Fault::MissingData,
    Fault::CacheFull,
    Fault::Counter,
    Fault::BadArgument,
    Fault::Failed,
    Fault::Memory,
    Fault::Storage,
    Fault::BadCommand,
];

// Returns the padded end of a range, or `none`.
fn padded(alloc: Global, offset: &str, n: &str, unit: &str) -> Result<String, Trouble> {
    let (offset, n, unit) = (number(offset)?, number(n)?, number(unit)?);
    if unit == 0 {
        return Err(Trouble::NoCall);
    }
    match padded_end(offset, n, unit) {
        Some(end) => Ok(end.to_string(alloc)?),
        None => Ok("none".to_string(alloc)?),
    }
}

// Returns the larger of two alignments.
fn larger(alloc: Global, a: &str, b: &str) -> Result<String, Trouble> {
    let (a, b) = (size(a)?, size(b)?);
    if !is_alignment(a) || !is_alignment(b) {
        return Err(Trouble::NoCall);
    }
    Ok(larger_alignment(a, b).to_string(alloc)?)
}

// Returns true if a fault's Rust name is `name`.
fn is_named(alloc: Global, fault: Fault, name: &str) -> Result<bool, AllocError> {
    let written = format!(in alloc; "{fault:?}")?;
    Ok(written.as_str() == name)
}

// Returns a fault's number, kind and text, by its Rust name.
fn fault(alloc: Global, name: &str) -> Result<String, Trouble> {
    for fault in FAULTS.iter() {
        if is_named(alloc, *fault, name)? {
            let (number, kind) = (fault.number(), fault.kind());
            return Ok(format!(in alloc; "{number} {kind:?} {fault}")?);
        }
    }
    Err(Trouble::NoCall)
}

/// Makes a call that needs no storage.
pub fn answer(alloc: Global, words: &[&str]) -> Result<String, Trouble> {
    match words {
        ["open_options", rest @ ..] => open(alloc, rest),
        ["create_options", rest @ ..] => create(alloc, rest),
        ["create_open", rest @ ..] => create_open(alloc, rest),
        ["padded_end", offset, n, unit] => padded(alloc, offset, n, unit),
        ["larger_alignment", a, b] => larger(alloc, a, b),
        ["fault", name] => fault(alloc, name),
        _ => Err(Trouble::NoCall),
    }
}
