// The command `create`: makes an image file. Its arguments are parsed, the image is made in memory, and then it is written to a new file.

use crate::failure::Failure;
use imago_access::{FormatCreateBuilder, PreallocateMode};
use imago_storage::{Fault, MemStorage};
use qcow2_image::Qcow2;
use std::alloc::Global;
use std::fs::{self, File, Files, OpenFile, OpenOptions};
use std::io::{ErrorKind, Write};

/// The arguments of `create`.
#[derive(Drop)]
pub struct Creation {
    /// The path of the new file.
    path: String,
    /// The size of the disk, in bytes.
    size: u64,
    /// The size of a cluster, in bytes.
    cluster_size: usize,
    /// The width of a refcount, in bits.
    refcount_width: usize,
    /// The name of the backing file, and its format.
    backing: Option<(String, String)>,
    preallocate: PreallocateMode,
}

/// Returns the number of bytes that one unit of this suffix stands for.
fn unit_of(suffix: u8) -> Option<u64> {
    match suffix {
        b'k' | b'K' => Some(1 << 10),
        b'm' | b'M' => Some(1 << 20),
        b'g' | b'G' => Some(1 << 30),
        b't' | b'T' => Some(1 << 40),
        _ => None,
    }
}

/// Parses a size in bytes: decimal digits, and then nothing or `k`, `M`, `G` or `T`. A size that doesn't fit is none.
fn size_in(word: &str) -> Option<u64> {
    let bytes = word.as_bytes();
    let last = *bytes.last()?;
    let (digits, unit) = match unit_of(last) {
        Some(unit) => (&bytes[..bytes.len() - 1], unit),
        None => (bytes, 1),
    };
    if digits.is_empty() {
        return None;
    }
    let mut size: u64 = 0;
    for digit in digits {
        if !digit.is_ascii_digit() {
            return None;
        }
        size = size.checked_mul(10)?.checked_add((digit - b'0') as u64)?;
    }
    size.checked_mul(unit)
}

/// Parses a size that fits `usize`.
fn small_size_in(word: &str) -> Option<usize> {
    usize::try_from(size_in(word)?).ok()
}

/// Parses a mode of preallocation.
fn mode_in(word: &str) -> Option<PreallocateMode> {
    match word {
        "none" => Some(PreallocateMode::None),
        "zero" => Some(PreallocateMode::Zero),
        "format" => Some(PreallocateMode::FormatAllocate),
        "full" => Some(PreallocateMode::FullAllocate),
        "data" => Some(PreallocateMode::WriteData),
        _ => None,
    }
}

/// The options of `create` before they are judged.
#[derive(Drop)]
struct Options<'a> {
    cluster_size: usize,
    refcount_width: usize,
    backing_file: Option<&'a str>,
    backing_format: Option<&'a str>,
    preallocate: PreallocateMode,
}

impl<'a> Options<'a> {
    fn new() -> Self {
        Options {
            cluster_size: 65_536,
            refcount_width: 16,
            backing_file: None,
            backing_format: None,
            preallocate: PreallocateMode::None,
        }
    }

    /// Takes an option and its value. Returns `None` if it isn't an option, or its value can't be parsed.
    fn take(&mut self, option: &str, value: &'a str) -> Option<()> {
        match option {
            "-s" => self.cluster_size = small_size_in(value)?,
            "-w" => self.refcount_width = small_size_in(value)?,
            "-b" => self.backing_file = Some(value),
            "-F" => self.backing_format = Some(value),
            "-p" => self.preallocate = mode_in(value)?,
            _ => return None,
        }
        Some(())
    }

    /// Returns the backing file and its format. One of them without the other fails with `Failure::Usage`, as do an empty name and a format
    /// that can't be opened.
    fn backing(&self, alloc: Global) -> Result<Option<(String, String)>, Failure> {
        match (self.backing_file, self.backing_format) {
            (None, None) => Ok(None),
            (Some(file), Some(format))
                if !file.is_empty() && matches!(format, "raw" | "qcow2" | "vmdk") => {
                let file = String::from_str(alloc, file)?;
                Ok(Some((file, String::from_str(alloc, format)?)))
            }
            _ => Err(Failure::Usage),
        }
    }
}

/// Parses the arguments that follow `create`.
///
/// # Errors
///
/// - `Failure::Usage` if they aren't `[-s CLUSTER_SIZE] [-w REFCOUNT_BITS] [-b BACKING_FILE -F BACKING_FORMAT] [-p MODE] FILE SIZE`.
/// - `Failure::InputOutput` if memory runs out.
pub fn parse(alloc: Global, words: &[&str]) -> Result<Creation, Failure> {
    let [given @ .., path, size] = words else {
        return Err(Failure::Usage);
    };
    if path.is_empty() {
        return Err(Failure::Usage);
    }
    let mut options = Options::new();
    for pair in given.chunks(2) {
        let [option, value] = pair else {
            return Err(Failure::Usage);
        };
        if options.take(option, value).is_none() {
            return Err(Failure::Usage);
        }
    }
    let Some(size) = size_in(size) else {
        return Err(Failure::Usage);
    };
    Ok(Creation {
        path: String::from_str(alloc, path)?,
        size,
        cluster_size: options.cluster_size,
        refcount_width: options.refcount_width,
        backing: options.backing(alloc)?,
        preallocate: options.preallocate,
    })
}

/// Makes the image in memory, and returns its bytes.
fn image_of(alloc: Global, creation: Creation) -> Result<Vec<u8>, Fault> {
    let Creation {
        path: _path,
        size,
        cluster_size,
        refcount_width,
        backing,
        preallocate,
    } = creation;
    let builder = Qcow2::create_builder(MemStorage::new(alloc))
        .cluster_size(cluster_size)
        .refcount_width(refcount_width)
        .size(size)
        .preallocate(preallocate);
    let builder = match backing {
        Some((name, format)) => builder.backing(name, Some(format)),
        None => builder,
    };
    builder.create(alloc)?.into_bytes()
}

/// Returns the path of the folder of a file.
fn folder_of(path: &str) -> &str {
    match path.rfind('/') {
        None => ".",
        Some(0) => "/",
        Some(end) => &path[..end],
    }
}

/// Writes the bytes to a new file at the path `beside`, and gives it the name `path`. If `path` exists, nothing is renamed.
fn place<R: Files + AllocGlobal>(
    rt: &R,
    mut file: R::File,
    beside: &str,
    path: &str,
    bytes: &[u8],
) -> Result<(), Failure> {
    file.write_all(bytes)?;
    file.sync_all()?;
    // A link never replaces a file.
    match fs::hard_link(rt, beside, path) {
        Ok(()) => Ok(()),
        Err(error) if error.kind() == ErrorKind::AlreadyExists => taken(rt, path),
        // Some file systems have no links.
        Err(_) => {
            if fs::exists(rt, path)? {
                return taken(rt, path);
            }
            Ok(fs::rename(rt, beside, path)?)
        }
    }
}

/// Fails with `Failure::Taken` for this path.
fn taken<R: AllocGlobal>(rt: &R, path: &str) -> Result<(), Failure> {
    Err(Failure::Taken(String::from_str(rt.alloc(), path)?))
}

/// Writes bytes to a new file. They are written to `PATH.qimg-new`, which is synced and then linked or renamed to `PATH`. Then the folder is
/// synced.
fn write_new<R: Files + AllocGlobal>(rt: &R, path: &str, bytes: &[u8]) -> Result<(), Failure> {
    let folder = File::open(rt, folder_of(path))?;
    let beside = format!(in rt.alloc(); "{path}.qimg-new")?;
    let mut how = OpenOptions::new();
    how.write(true).create_new(true);
    let file = match how.open(rt, beside.as_str()) {
        Ok(file) => file,
        Err(error) if error.kind() == ErrorKind::AlreadyExists => {
            return Err(Failure::LeftOver(beside));
        }
        Err(error) => return Err(Failure::from(error)),
    };
    let placed = place(rt, file, beside.as_str(), path, bytes);
    let _ = fs::remove_file(rt, beside.as_str());
    placed?;
    Ok(folder.sync_all()?)
}

/// Makes the image file.
///
/// # Errors
///
/// - `Failure::Taken` if the path has a file already. The file doesn't change.
/// - `Failure::Creating` if the image can't have these properties.
/// - `Failure::LeftOver` if the path of the new file is taken.
/// - `Failure::InputOutput` if a call of the system failed, or memory ran out.
///
/// After an error there is no new file, unless only the sync of the folder failed.
pub fn create<R: Files + AllocGlobal>(rt: &R, creation: Creation) -> Result<(), Failure> {
    let path = creation.path.clone()?;
    if fs::exists(rt, path.as_str())? {
        return taken(rt, path.as_str());
    }
    match image_of(rt.alloc(), creation) {
        Ok(bytes) => write_new(rt, path.as_str(), &bytes),
        Err(Fault::Memory) => Err(Failure::InputOutput),
        Err(fault) => Err(Failure::Creating(fault)),
    }
}
