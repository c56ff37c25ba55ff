// The calls that a script makes directly on the driver of the top layer, below `FormatAccess`.
ghost use Rattle.std.specs.Prelude.{◌≡◌, IsTrue};
ghost use Rattle.imago_access.specs.Layer.{IsFree};

use crate::calls::buffer;
use crate::texts::{format as format_word, shallow};
use cases::{Trouble, bytes, number, ok, runs, size};
use imago_access::{FormatDriverInstance, NoBelow, ReadBelow};
use imago_storage::Storage;
use std::alloc::Global;

/// A change of a range by the driver, which returns the part that it changed.
#[derive(Clone, Copy)]
enum Part {
    Zero,
    ToZero,
    ToAny,
    ToBacking,
}

fn is_free<D: FormatDriverInstance>(driver: &D) -> bool
    ensures { IsTrue result → IsFree (D.layer driver.now) }
{
    !driver.prepared()
}

fn change_part<D: FormatDriverInstance>(
    alloc: Global,
    driver: &mut D,
    part: Part,
    offset: u64,
    n: u64,
) -> Result<String, Trouble> {
    if !is_free(driver) {
        return Err(Trouble::NoCall);
    }
    let (start, length) = match part {
        Part::Zero => driver.ensure_zero_mapping(alloc, offset, n)?,
        Part::ToZero => driver.discard_to_zero(alloc, offset, n)?,
        Part::ToAny => driver.discard_to_any(alloc, offset, n)?,
        Part::ToBacking => driver.discard_to_backing(alloc, offset, n)?,
    };
    Ok(format!(in alloc; "{start} {length}")?)
}

fn read_mapped<D: FormatDriverInstance>(
    alloc: Global,
    driver: &mut D,
    storage: usize,
    place: u64,
    n: u64,
) -> Result<String, Trouble> {
    let mut buf = buffer(alloc, n)?;
    driver.read_mapped(alloc, storage, place, &mut buf)?;
    Ok(runs(alloc, &buf)?)
}

fn read_special<D: FormatDriverInstance>(
    alloc: Global,
    driver: &mut D,
    offset: u64,
    n: u64,
) -> Result<String, Trouble> {
    let mut buf = buffer(alloc, n)?;
    driver.read_special(&mut buf, offset)?;
    Ok(runs(alloc, &buf)?)
}

fn write_mapped<D: FormatDriverInstance>(
    alloc: Global,
    driver: &mut D,
    guest: u64,
    place: u64,
    words: &[&str],
) -> Result<String, Trouble> {
    let written = bytes(alloc, words)?;
    driver.write_mapped(alloc, guest, place, &written)?;
    Ok("ok".to_string(alloc)?)
}

fn map<D: FormatDriverInstance>(
    alloc: Global,
    driver: &mut D,
    offset: u64,
    n: u64,
) -> Result<String, Trouble> {
    let (mapping, length) = driver.get_mapping(alloc, offset, n)?;
    Ok(shallow(alloc, mapping, length)?)
}

// Describes a driver: its format, its size and alignments in bytes, whether it is writable, and `prepared` if a mapping is prepared.
fn described<D: FormatDriverInstance>(alloc: Global, driver: &D) -> Result<String, Trouble> {
    let format = format_word(driver.format());
    let (size, requests, memory) = (driver.size(), driver.req_align(), driver.mem_align());
    let access = if driver.writable() {
        "writable"
    } else {
        "read_only"
    };
    let prepared = if driver.prepared() { " prepared" } else { "" };
    Ok(format!(in alloc; "{format} {size} {requests} {memory} {access}{prepared}")?)
}

fn granularity<D: FormatDriverInstance>(alloc: Global, driver: &D) -> Result<String, Trouble> {
    match driver.zero_granularity() {
        None => Ok("none".to_string(alloc)?),
        Some(bytes) => Ok(bytes.to_string(alloc)?),
    }
}

fn ready<D: FormatDriverInstance>(alloc: Global, driver: &D) -> Result<String, Trouble> {
    driver.ready()?;
    Ok("ok".to_string(alloc)?)
}

// Sets the image to failed, if its format marks failures.
fn mark_failed<D: FormatDriverInstance>(alloc: Global, driver: &mut D) -> Result<String, Trouble> {
    driver.mark_failed();
    Ok(ok(alloc)?)
}

// Returns the length of the driver's image file, in bytes.
fn file<D: FormatDriverInstance>(alloc: Global, driver: &D) -> Result<String, Trouble> {
    Ok(driver.image_file().size().to_string(alloc)?)
}

// Returns the length of an extra file, in bytes, or `none` if the driver has no extra file with this index.
fn extra<D: FormatDriverInstance>(
    alloc: Global,
    driver: &D,
    index: usize,
) -> Result<String, Trouble> {
    match driver.extra_file(index) {
        None => Ok("none".to_string(alloc)?),
        Some(file) => Ok(file.size().to_string(alloc)?),
    }
}

/// Describes `NoBelow`, the missing layer below the lowest layer: whether it is present, and the bytes of this range.
///
/// # Errors
///
/// - [`Trouble::NoCall`] if the range is longer than 16 MiB.
/// - [`Trouble::Refused`] if memory runs out.
pub fn nothing_below(alloc: Global, offset: u64, n: u64) -> Result<String, Trouble> {
    let mut below = NoBelow;
    let mut buf = buffer(alloc, n)?;
    below.read(alloc, &mut buf, offset)?;
    let (present, shown) = (below.present(), runs(alloc, &buf)?);
    Ok(format!(in alloc; "{present} {shown}")?)
}

fn part_of(word: &str) -> Result<Part, Trouble> {
    match word {
        "zero" => Ok(Part::Zero),
        "to_zero" => Ok(Part::ToZero),
        "to_any" => Ok(Part::ToAny),
        "to_backing" => Ok(Part::ToBacking),
        _ => Err(Trouble::NoCall),
    }
}

// Makes a call without arguments that describes the driver.
fn told<D: FormatDriverInstance>(alloc: Global, driver: &D, word: &str) -> Result<String, Trouble> {
    match word {
        "is" => described(alloc, driver),
        "granularity" => granularity(alloc, driver),
        "ready" => ready(alloc, driver),
        "file" => file(alloc, driver),
        "failed" => Ok(driver.failed().to_string(alloc)?),
        _ => Err(Trouble::NoCall),
    }
}

// Makes a call of a range: `CALL OFFSET N`.
fn ranged<D: FormatDriverInstance>(
    alloc: Global,
    driver: &mut D,
    word: &str,
    offset: u64,
    n: u64,
) -> Result<String, Trouble> {
    match word {
        "map" => map(alloc, driver, offset, n),
        "read_special" => read_special(alloc, driver, offset, n),
        _ => change_part(alloc, driver, part_of(word)?, offset, n),
    }
}

// Reads from a storage of the driver: `STORAGE PLACE N`, where `PLACE` is the offset in the storage.
fn read_by<D: FormatDriverInstance>(
    alloc: Global,
    driver: &mut D,
    words: &[&str],
) -> Result<String, Trouble> {
    let [storage, place, n] = words else {
        return Err(Trouble::NoCall);
    };
    let (storage, place, n) = (size(storage)?, number(place)?, number(n)?);
    read_mapped(alloc, driver, storage, place, n)
}

// Writes to a mapped run: `GUEST PLACE BYTES`, with the guest offset and the offset in the storage.
fn write_by<D: FormatDriverInstance>(
    alloc: Global,
    driver: &mut D,
    words: &[&str],
) -> Result<String, Trouble> {
    let [guest, place, rest @ ..] = words else {
        return Err(Trouble::NoCall);
    };
    let (guest, place) = (number(guest)?, number(place)?);
    write_mapped(alloc, driver, guest, place, rest)
}

/// Makes the call that `words` describe on the driver. `called` lists the calls.
pub fn drive<D: FormatDriverInstance>(
    alloc: Global,
    driver: &mut D,
    words: &[&str],
) -> Result<String, Trouble> {
    match words {
        ["mark_failed"] => mark_failed(alloc, driver),
        [word] => told(alloc, driver, word),
        ["extra", index] => extra(alloc, driver, size(index)?),
        ["read", rest @ ..] => read_by(alloc, driver, rest),
        ["write", rest @ ..] => write_by(alloc, driver, rest),
        [word, offset, n] => ranged(alloc, driver, word, number(offset)?, number(n)?),
        _ => Err(Trouble::NoCall),
    }
}
