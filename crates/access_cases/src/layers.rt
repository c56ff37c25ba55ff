// Builds the layers of a disk (an image and its backing files) from the words of a script's line.
use crate::clusters::{Content, OneCluster};
use crate::drivers::Driver;
use crate::storages::{Base, Notebook, storage_of};
use access_calls::{buffer, stacked};
use cases::{Trouble, joined, number, runs};
use imago_access::FormatAccess;
use imago_formats::Raw;
use imago_storage::{FuseStorage, Storage, StorageExt};
use std::alloc::{AllocError, Global};

/// A disk of a script.
pub type Disk<'a> = FormatAccess<Driver<Base<'a>>>;

// Applies one mark to an image: `read_only`, `backed`, `failed` and so on.
fn mark<S>(words: &mut OneCluster<S>, word: &str) -> Result<(), Trouble> {
    match word {
        "read_only" => words.writable = false,
        "backed" => words.backed = true,
        "through" => words.through = true,
        "failed" => words.failed = true,
        "missing" => words.missing = true,
        "zeroed" => words.content = Content::Zeroed,
        "barred" => words.content = Content::Barred,
        _ => return Err(Trouble::NoCall),
    }
    Ok(())
}

// Splits off leading words `fuse N`. Returns N, or 0 without them, and the words after them.
fn fuse_of<'x, 'y>(words: &'y [&'x str]) -> (&'x str, &'y [&'x str]) {
    match words {
        ["fuse", n, rest @ ..] => (*n, rest),
        _ => ("0", words),
    }
}

// Builds the file of a one-cluster image. The file holds the bytes `held`. Its call number `n` fails; with 0, none does.
fn file_of<'a, 'x>(
    alloc: Global,
    n: &'x str,
    held: &[&'x str],
    notes: Notebook<'a>,
) -> Result<Base<'a>, Trouble> {
    let mut words = vec![in alloc; "fuse", n, "1", "1", "1", "1", "zd"]?;
    words.extend_from_slice(held)?;
    storage_of(alloc, &words, notes)
}

// Builds an image with nothing mapped, and applies its marks.
fn marked<'a>(
    alloc: Global,
    size: u64,
    number: u64,
    said: &[&str],
    notes: Notebook<'a>,
) -> Result<OneCluster<Base<'a>>, Trouble> {
    let (n, marks) = fuse_of(said);
    let mut words = OneCluster::new(file_of(alloc, n, &[], notes)?, size, number);
    for word in marks.iter() {
        mark(&mut words, word)?;
    }
    Ok(words)
}

// Builds a mapped image that holds the bytes of the last words.
fn holding<'a>(
    alloc: Global,
    number: u64,
    said: &[&str],
    notes: Notebook<'a>,
) -> Result<OneCluster<Base<'a>>, Trouble> {
    let (n, rest) = fuse_of(said);
    let (backed, held) = match rest {
        ["backed", held @ ..] => (true, held),
        _ => (false, rest),
    };
    let file = file_of(alloc, n, held, notes)?;
    let size = file.size();
    let mut words = OneCluster::new(file, size, number);
    words.backed = backed;
    words.content = Content::Mapped;
    Ok(words)
}

fn raw<'a>(
    alloc: Global,
    writable: bool,
    words: &[&str],
    notes: Notebook<'a>,
) -> Result<Driver<Base<'a>>, Trouble> {
    let storage = storage_of(alloc, words, notes)?;
    Ok(Driver::Raw(Raw::open_image(storage, writable)))
}

/// Builds the driver of one layer that `words` describe.
pub fn driver_of<'a>(
    alloc: Global,
    words: &[&str],
    notes: Notebook<'a>,
) -> Result<Driver<Base<'a>>, Trouble> {
    match words {
        ["raw", "read_only", rest @ ..] => raw(alloc, false, rest, notes),
        ["raw", rest @ ..] => raw(alloc, true, rest, notes),
        ["words", size, image, marks @ ..] => {
            let (size, image) = (number(size)?, number(image)?);
            Ok(Driver::Words(marked(alloc, size, image, marks, notes)?))
        }
        ["holding", image, rest @ ..] => {
            Ok(Driver::Words(holding(alloc, number(image)?, rest, notes)?))
        }
        _ => Err(Trouble::NoCall),
    }
}

// Stacks a layer on a disk.
fn over<S: Storage + Drop>(
    alloc: Global,
    driver: Driver<S>,
    below: FormatAccess<Driver<S>>,
) -> Result<FormatAccess<Driver<S>>, Trouble> {
    if !driver.shows_below() {
        return Err(Trouble::NoCall);
    }
    stacked(alloc, driver, below)
}

/// Stacks a layer on a disk. Without a disk, the layer is the lowest.
pub fn add<'a>(
    alloc: Global,
    driver: Driver<Base<'a>>,
    below: Option<Disk<'a>>,
) -> Result<Disk<'a>, Trouble> {
    match below {
        None => Ok(FormatAccess::new(driver)),
        Some(below) => over(alloc, driver, below),
    }
}

// Appends the number of lookups of a layer. Raw images don't count them.
fn push_lookups<S>(alloc: Global, driver: &Driver<S>, text: &mut String) -> Result<(), AllocError> {
    match driver {
        Driver::Raw(_) => Ok(()),
        Driver::Words(words) => {
            let lookups = words.lookups.to_string(alloc)?;
            joined(text, lookups.as_str())
        }
    }
}

/// The most layers whose lookups are printed.
const MOST_LAYERS: u8 = 16;

/// Returns how many lookups each layer has answered, the top layer first.
pub fn lookups<S: Storage>(
    alloc: Global,
    disk: &FormatAccess<Driver<S>>,
) -> Result<String, Trouble> {
    let mut text = String::new(alloc);
    let mut layer = Some(disk);
    for _ in 0..MOST_LAYERS {
        let Some(one) = layer else {
            return Ok(text);
        };
        push_lookups(alloc, one.inner(), &mut text)?;
        layer = one.below();
    }
    joined(&mut text, "more")?;
    Ok(text)
}

/// Returns what the top layer's driver reports of its storage or its file.
pub fn kept_by<S: Storage>(
    alloc: Global,
    driver: &mut Driver<FuseStorage<S>>,
    word: &str,
) -> Result<String, Trouble> {
    match (driver, word) {
        (Driver::Raw(raw), "count") => Ok(raw.image().count().to_string(alloc)?),
        (Driver::Raw(raw), "storage") => storage(alloc, raw.image_mut()),
        (Driver::Words(words), "count") => Ok(words.file.count().to_string(alloc)?),
        (Driver::Words(words), "faults") => Ok(words.faults.to_string(alloc)?),
        _ => Err(Trouble::NoCall),
    }
}

// Reads all bytes of a storage, in one read.
fn storage<S: Storage>(alloc: Global, storage: &mut S) -> Result<String, Trouble> {
    let mut buf = buffer(alloc, storage.size())?;
    storage.read(alloc, &mut buf, 0)?;
    Ok(runs(alloc, &buf)?)
}

/// Writes directly to the storage of the top layer.
pub fn write_storage<S: Storage>(
    alloc: Global,
    driver: &mut Driver<S>,
    bytes: &[u8],
    offset: u64,
) -> Result<(), Trouble> {
    match driver {
        Driver::Raw(raw) => Ok(raw.image_mut().write(alloc, bytes, offset)?),
        Driver::Words(_) => Err(Trouble::NoCall),
    }
}

/// Returns whether a storage can be opened as a raw image.
pub fn probe<S>(alloc: Global, storage: &mut S) -> Result<String, Trouble> {
    Ok(Raw::probe(storage)?.to_string(alloc)?)
}
