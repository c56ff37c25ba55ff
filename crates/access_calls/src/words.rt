// Parses the calls that a script makes on a disk, and makes them. `called` lists the calls.
use crate::calls::{
    Change, aligns, change_range, commit_down, done, ensure, flush, grow, invalidate, is_free, map,
    map_shallow, read, ready, repair, resize, shrink, sizes, sync, top, write, write_mapped,
};
use crate::driving::drive;
use crate::file_reads::{file_size, read_by};
use crate::lists::list;
use cases::{Trouble, bytes, number, size};
use imago_access::{FormatAccess, FormatDriverInstance, PreallocateMode, ReadFiles};
use qimg_calls::RepairsLeaks;
use std::alloc::Global;
use std::fmt::Display;

/// Parses the preallocation mode of a disk: `none`, `zero`, `format`, `full` or `data`.
///
/// # Errors
///
/// - [`Trouble::NoCall`] if the word is anything else.
pub fn mode_of(word: &str) -> Result<PreallocateMode, Trouble> {
    match word {
        "none" => Ok(PreallocateMode::None),
        "zero" => Ok(PreallocateMode::Zero),
        "format" => Ok(PreallocateMode::FormatAllocate),
        "full" => Ok(PreallocateMode::FullAllocate),
        "data" => Ok(PreallocateMode::WriteData),
        _ => Err(Trouble::NoCall),
    }
}

fn change_of(word: &str) -> Result<Change, Trouble> {
    match word {
        "zeroes" => Ok(Change::Zeroes),
        "to_zero" => Ok(Change::ToZero),
        "to_any" => Ok(Change::ToAny),
        "to_backing" => Ok(Change::ToBacking),
        _ => Err(Trouble::NoCall),
    }
}

fn written<D: FormatDriverInstance>(
    alloc: Global,
    disk: &mut FormatAccess<D>,
    offset: u64,
    words: &[&str],
) -> Result<(), Trouble> {
    let given = bytes(alloc, words)?;
    write(alloc, disk, &given, offset)
}

fn written_mapped<D: FormatDriverInstance>(
    alloc: Global,
    disk: &mut FormatAccess<D>,
    guest: u64,
    words: &[&str],
) -> Result<(), Trouble> {
    let [place, rest @ ..] = words else {
        return Err(Trouble::NoCall);
    };
    let place = number(place)?;
    let given = bytes(alloc, rest)?;
    write_mapped(alloc, disk, guest, place, &given)
}

// Makes a `flush`, `sync`, `invalidate` or `commit_down`.
fn kept<D: FormatDriverInstance>(
    alloc: Global,
    disk: &mut FormatAccess<D>,
    word: &str,
) -> Result<(), Trouble> {
    match word {
        "flush" => flush(alloc, disk),
        "sync" => sync(disk),
        "invalidate" => invalidate(alloc, disk),
        "commit_down" => commit_down(alloc, disk),
        _ => Err(Trouble::NoCall),
    }
}

/// Returns the only word of a list, or `Trouble::NoCall` if the list has another length.
pub fn only<'x>(words: &[&'x str]) -> Result<&'x str, Trouble> {
    match words {
        [word] => Ok(*word),
        _ => Err(Trouble::NoCall),
    }
}

/// Parses `N [overwrite]`. Returns the length in bytes, and true if the caller promises to write the whole run.
///
/// # Errors
///
/// - [`Trouble::NoCall`] if the words don't have this form.
pub fn run_of(words: &[&str]) -> Result<(u64, bool), Trouble> {
    match words {
        [n] => Ok((number(n)?, false)),
        [n, "overwrite"] => Ok((number(n)?, true)),
        _ => Err(Trouble::NoCall),
    }
}

// Makes a `grow` or `resize`, or a change of a range.
fn changed<D: FormatDriverInstance>(
    alloc: Global,
    disk: &mut FormatAccess<D>,
    word: &str,
    first: u64,
    last: &str,
) -> Result<(), Trouble> {
    match word {
        "grow" => grow(alloc, disk, first, mode_of(last)?),
        "resize" => resize(alloc, disk, first, mode_of(last)?),
        _ => change_range(alloc, disk, change_of(word)?, first, number(last)?),
    }
}

// Makes a call whose first argument is a number, and which has no answer but `ok`.
fn done_at<D: FormatDriverInstance>(
    alloc: Global,
    disk: &mut FormatAccess<D>,
    word: &str,
    first: u64,
    words: &[&str],
) -> Result<(), Trouble> {
    match word {
        "write" => written(alloc, disk, first, words),
        "write_mapped" => written_mapped(alloc, disk, first, words),
        "shrink" if words.is_empty() => shrink(alloc, disk, first),
        _ => changed(alloc, disk, word, first, only(words)?),
    }
}

// Makes a call without arguments.
fn said<D: RepairsLeaks>(
    alloc: Global,
    disk: &mut FormatAccess<D>,
    word: &str,
) -> Result<String, Trouble> {
    match word {
        "sizes" => sizes(alloc, disk),
        "aligns" => aligns(alloc, disk),
        "ready" => ready(alloc, disk),
        "repair" => repair(alloc, disk),
        "prepared" => Ok((!is_free(disk)).to_string(alloc)?),
        _ => done(alloc, kept(alloc, disk, word)),
    }
}

// Makes a `read`, `map` or `shallow`.
fn looked<D: FormatDriverInstance>(
    alloc: Global,
    disk: &mut FormatAccess<D>,
    word: &str,
    offset: u64,
    n: u64,
) -> Result<String, Trouble> {
    match word {
        "read" => read(alloc, disk, offset, n),
        "map" => map(alloc, disk, offset, n),
        _ => map_shallow(alloc, disk, offset, n),
    }
}

// Makes a call whose first argument is a number.
fn called_at<D: FormatDriverInstance>(
    alloc: Global,
    disk: &mut FormatAccess<D>,
    word: &str,
    first: u64,
    words: &[&str],
) -> Result<String, Trouble> {
    match word {
        "read" | "map" | "shallow" => looked(alloc, disk, word, first, number(only(words)?)?),
        "ensure" => {
            let (n, overwrite) = run_of(words)?;
            ensure(alloc, disk, first, n, overwrite)
        }
        _ => done(alloc, done_at(alloc, disk, word, first, words)),
    }
}

// Returns the `Display` text of a disk.
fn named<D: FormatDriverInstance + Display>(
    alloc: Global,
    disk: &FormatAccess<D>,
) -> Result<String, Trouble> {
    Ok(format!(in alloc; "{disk}")?)
}

/// Makes the call that `words` describe on a disk.
///
/// # Calls
///
/// - `read`, `map`, `shallow`, `zeroes`, `to_zero`, `to_any`, `to_backing OFFSET N`; `write OFFSET BYTES`; `ensure OFFSET N [overwrite]`;
///   `write_mapped GUEST PLACE BYTES`.
/// - `grow` and `resize SIZE MODE`, `shrink SIZE`, with `none`, `zero`, `format`, `full` or `data` as a mode; `flush`, `sync`,
///   `invalidate`, `commit_down`; `repair`, which answers the leaks that it repaired as `leaks CLUSTER:EXCESS ..`, or `no leaks`.
/// - `list CALL ; CALL ; ..`: several calls by one call of `drive`, which keeps a prepared mapping between them. A list can have the calls
///   of the two items above except `resize` and `invalidate`, and also `prepare OFFSET N [overwrite]`, `commit` and
///   `cancel`. The answers have `/` between them. An empty list answers `none`.
/// - `sizes`: the sizes of the layers, the top first; `ready`: whether each layer can be used; `aligns`: the alignments of requests and of
///   memory; `named`: the disk's `Display` text; `prepared`: whether a mapping is prepared in the top layer.
/// - `file_size LAYER FILE` and `read_file LAYER FILE OFFSET N`: the current length and bytes of a layer's file. The top is layer 0, and
///   the image file is file 0.
/// - `driver CALL`: a call of the top image's driver. `is` describes it. `granularity` and `ready` have no arguments, either. `failed`
///   answers whether the image has failed, and `mark_failed` sets it to failed. `file` and `extra INDEX` answer the lengths of its files.
///   `map` and `read_special OFFSET N` look at a range. `zero`, `to_zero`, `to_any` and `to_backing OFFSET N` answer the part that was
///   changed. `read STORAGE PLACE N` and `write GUEST PLACE BYTES` use a mapped run.
///
/// `PLACE` is an offset in a storage, and `GUEST` an offset of the disk.
///
/// # Errors
///
/// - [`Trouble::NoCall`] if the words aren't a call, or the call isn't allowed while a mapping is prepared.
/// - [`Trouble::Refused`] if the call fails.
pub fn called<D: ReadFiles + RepairsLeaks + Display>(
    alloc: Global,
    disk: &mut FormatAccess<D>,
    words: &[&str],
) -> Result<String, Trouble> {
    match words {
        ["named"] => named(alloc, disk),
        ["list", rest @ ..] => list(alloc, disk, rest),
        [word] => said(alloc, disk, word),
        ["file_size", layer, file] => file_size(alloc, disk, size(layer)?, size(file)?),
        ["read_file", rest @ ..] => read_by(alloc, disk, rest),
        ["driver", rest @ ..] => drive(alloc, top(disk)?, rest),
        [word, first, rest @ ..] => called_at(alloc, disk, word, number(first)?, rest),
        _ => Err(Trouble::NoCall),
    }
}
