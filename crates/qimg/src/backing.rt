// Opens the files of a chain: each backing file that a header names.

use crate::failure::{Failure, Uncommitted};
use crate::files::read_storage;
use crate::top_file::TopFile;
use imago_access::Format;
use imago_storage::{Fault, MemStorage};
use qcow2_image::Qcow2;
use qimg_core::plain::ChainFile;
use std::alloc::Global;
use std::fs::{self, Files};
use std::os::unix::fs::MetadataExt;
use std::path::{Path, PathBuf};

/// The largest number of files in a chain.
const MOST_FILES: usize = 64;

/// The backing file that a header names.
#[derive(Drop)]
struct Backing {
    name: String,
    format: Option<String>,
}

/// The files of a chain for a commit, and the first two of them, which the commit replaces.
#[derive(Drop)]
pub struct Committable {
    /// The files, the top first.
    pub files: Vec<ChainFile<MemStorage>>,
    /// The first file.
    pub top: TopFile,
    /// The second file.
    pub below: TopFile,
}

/// Returns the backing file that the header of a qcow2 image names, if any, and the image.
fn backing_of(alloc: Global, image: MemStorage) -> Result<(MemStorage, Option<Backing>), Fault> {
    let image = Qcow2::open_image(alloc, image, false)?;
    let backing = match image.implicit_backing_file() {
        None => None,
        Some(name) => Some(Backing {
            name: String::from_str(alloc, name)?,
            format: match image.implicit_backing_format() {
                None => None,
                Some(format) => Some(String::from_str(alloc, format)?),
            },
        }),
    };
    Ok((image.into_image(), backing))
}

/// Returns the format of a backing file, which the header of the file at `path` states.
fn format_of(alloc: Global, path: &str, backing: &Backing) -> Result<Format, Uncommitted> {
    let Some(format) = &backing.format else {
        return Err(Uncommitted::NoFormat(String::from_str(alloc, path)?));
    };
    match format.as_str() {
        "raw" => Ok(Format::Raw),
        "qcow2" => Ok(Format::Qcow2),
        _ => Err(Uncommitted::UnknownFormat(format.clone()?)),
    }
}

/// Returns the path of the backing file that the header of the file at `path` names. A relative name starts at the folder of that file.
fn path_beside(alloc: Global, path: &Path<'_>, name: &str) -> Result<PathBuf, Uncommitted> {
    match path.parent() {
        Some(folder) => Ok(folder.join(alloc, name)?),
        None => Ok(PathBuf::from_str(alloc, name)?),
    }
}

/// Opens the files of a chain: the qcow2 file at `path`, the backing file that its header names, and so on.
///
/// Each header must state the format of the backing file, which is `raw` or `qcow2`. A format that is guessed from a file's bytes may be that
/// which the guest of a raw disk has written there.
///
/// # Errors
///
/// - `Uncommitted::NoBackingFile` if the first file has no backing file.
/// - `Uncommitted::NoFormat` if a header doesn't state the format of the backing file.
/// - `Uncommitted::UnknownFormat` if that format is another one.
/// - `Uncommitted::Refused` with the fault of opening a file, and `Fault::Limit` for more than 64 files.
/// - `Uncommitted::Loop` if a file is its own backing file, or below one.
/// - `Uncommitted::Failed` if a file can't be read, or one of the first two can't be replaced.
pub fn files_for_commit<R: Files + AllocGlobal>(
    rt: &R,
    path: &str,
) -> Result<Committable, Uncommitted> {
    let alloc = rt.alloc();
    let mut replaced = Vec::new(alloc);
    let mut files = Vec::new(alloc);
    let mut seen = Vec::new(alloc);
    let mut path = PathBuf::from_str(alloc, path)?;
    let mut format = Format::Qcow2;
    for number in 0..MOST_FILES {
        let metadata = fs::metadata(rt, path.as_str())?;
        let identity = (metadata.dev(), metadata.ino());
        if seen.contains(&identity) {
            return Err(Uncommitted::Loop(path.into_string()));
        }
        seen.push(identity)?;
        if number < 2 {
            replaced.push(TopFile::at(rt, path.as_str())?)?;
        }
        let image = read_storage(rt, path.as_str())?;
        let (image, backing) = match format {
            Format::Qcow2 => backing_of(alloc, image)?,
            Format::Raw | Format::Vmdk => (image, None),
        };
        files.push(ChainFile {
            format,
            image,
            extras: Vec::new(alloc),
        })?;
        let Some(backing) = backing else {
            return with_backing(files, replaced, path);
        };
        format = format_of(alloc, path.as_str(), &backing)?;
        path = path_beside(alloc, &path.as_path(), backing.name.as_str())?;
    }
    Err(Uncommitted::Refused(Fault::Limit(MOST_FILES as u64 + 1)))
}

/// Returns the files for a commit, unless there is only one, which is at `path`.
fn with_backing(
    files: Vec<ChainFile<MemStorage>>,
    replaced: Vec<TopFile>,
    path: PathBuf,
) -> Result<Committable, Uncommitted> {
    let mut replaced = replaced;
    match (replaced.pop(), replaced.pop()) {
        (Some(below), Some(top)) => Ok(Committable { files, top, below }),
        _ => Err(Uncommitted::NoBackingFile(path.into_string())),
    }
}
