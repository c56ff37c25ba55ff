// The files of a chain's top image and of the one below it, and their replacement by a save.

use crate::failure::Failure;
use std::alloc::Global;
use std::fs::{self, File, Files, Metadata, OpenFile, OpenOptions, Permissions};
use std::io::{self, ErrorKind, Write};
use std::os::unix::fs::{MetadataExt, OpenOptionsExt, PermissionsExt, lchown};
use std::path::PathBuf;

/// The identity of a file, with its size and modification time.
#[derive(Clone, Copy, PartialEq, Eq)]
struct Version {
    device: u64,
    inode: u64,
    size: u64,
    modified: (i64, i64),
}

/// Returns the version of the file with this metadata.
fn version_of(metadata: &Metadata) -> Version {
    Version {
        device: metadata.dev(),
        inode: metadata.ino(),
        size: metadata.size(),
        modified: (metadata.mtime(), metadata.mtime_nsec()),
    }
}

/// Creates a file with mode 0600, so that nobody else can open it before its permissions are set. Fails if the path is taken.
fn create_private<R: Files>(rt: &R, path: &str) -> io::Result<R::File> {
    let mut how = OpenOptions::new();
    how.write(true).create_new(true).mode(0o600);
    how.open(rt, path)
}

/// Gives the new file at `path` the owner and the group of the old one, and returns the mode that it may have.
///
/// If the system doesn't allow the owner, only the group is set. If it doesn't allow the group either, the new file's group may do no more
/// than everybody else. The set-user-ID and set-group-ID bits are only kept with the owner.
fn hand_over<R: Files>(rt: &R, path: &str, old: &Metadata) -> u32 {
    let mode = old.mode() & 0o7777;
    if lchown(rt, path, Some(old.uid()), Some(old.gid())).is_ok() {
        return mode;
    }
    if lchown(rt, path, None, Some(old.gid())).is_ok() {
        return mode & 0o1777;
    }
    mode & 0o1707 | mode & 0o070 & (mode & 0o007) << 3
}

/// A regular file that a save may replace, with its version at the start.
#[derive(Drop)]
pub struct TopFile {
    /// The path of the file, with all links resolved.
    path: PathBuf,
    version: Version,
}

impl TopFile {
    /// Returns the file at `path`.
    ///
    /// # Errors
    ///
    /// - `Failure::InputOutput` if the file isn't a regular file. Replacing a device, for example, would write nothing to it.
    /// - `Failure::InputOutput` if the file isn't writable. Without this check it could still be replaced, if its folder is writable.
    /// - `Failure::InputOutput` if a call of the system failed or memory ran out.
    pub fn at<R: Files + AllocGlobal>(rt: &R, path: &str) -> Result<TopFile, Failure> {
        let path = fs::canonicalize(rt, path)?;
        let metadata = fs::metadata(rt, path.as_str())?;
        if !metadata.is_file() {
            return Err(Failure::InputOutput);
        }
        let mut how = OpenOptions::new();
        how.write(true);
        let _writable = how.open(rt, path.as_str())?;
        Ok(TopFile {
            path,
            version: version_of(&metadata),
        })
    }

    /// Fails if the file has changed since the start, because somebody else has written to it.
    fn check_unchanged<R: Files + AllocGlobal>(&self, rt: &R) -> Result<(), Failure> {
        let metadata = fs::metadata(rt, self.path.as_str())?;
        if version_of(&metadata) != self.version {
            return Err(Failure::InputOutput);
        }
        Ok(())
    }

    /// Fills the new file at the path `beside` with bytes, and syncs it.
    ///
    /// Before any byte is written, the new file gets the owner and the group of this one, as far as the system allows. Then it gets its
    /// permissions. See `hand_over`.
    fn fill<R: Files + AllocGlobal>(
        &self,
        rt: &R,
        mut file: R::File,
        beside: &str,
        bytes: &[u8],
    ) -> Result<(), Failure> {
        let old = fs::metadata(rt, self.path.as_str())?;
        let mode = hand_over(rt, beside, &old);
        file.set_permissions(Permissions::from_mode(mode))?;
        file.write_all(bytes)?;
        file.sync_all()?;
        self.check_unchanged(rt)
    }

    /// Writes bytes to a new file next to this one, `PATH.qimg-new`, and returns its path. If that fails, the new file is removed.
    fn write_beside<R: Files + AllocGlobal>(
        &self,
        rt: &R,
        bytes: &[u8],
    ) -> Result<String, Failure> {
        let beside = format!(in rt.alloc(); "{}.qimg-new", self.path.as_str())?;
        let file = match create_private(rt, beside.as_str()) {
            Ok(file) => file,
            Err(error) if error.kind() == ErrorKind::AlreadyExists => {
                return Err(Failure::LeftOver(beside));
            }
            Err(error) => return Err(Failure::from(error)),
        };
        match self.fill(rt, file, beside.as_str(), bytes) {
            Ok(()) => Ok(beside),
            Err(failure) => {
                let _ = fs::remove_file(rt, beside.as_str());
                Err(failure)
            }
        }
    }

    /// Renames the new file at the path `beside` to the path of this file, and syncs the folder. If this file has changed, or the renaming
    /// fails, the new file is removed.
    fn rename<R: Files + AllocGlobal>(&self, rt: &R, beside: &str) -> Result<(), Failure> {
        let folder = match self.folder(rt) {
            Ok(folder) => folder,
            Err(failure) => {
                let _ = fs::remove_file(rt, beside);
                return Err(failure);
            }
        };
        let renamed = match self.check_unchanged(rt) {
            Ok(()) => Ok(fs::rename(rt, beside, self.path.as_str())?),
            Err(failure) => Err(failure),
        };
        if renamed.is_err() {
            let _ = fs::remove_file(rt, beside);
            return renamed;
        }
        Ok(folder.sync_all()?)
    }

    /// Opens the folder of the file.
    fn folder<R: Files + AllocGlobal>(&self, rt: &R) -> Result<R::File, Failure> {
        match self.path.parent() {
            Some(folder) => Ok(File::open(rt, folder)?),
            None => Err(Failure::InputOutput),
        }
    }

    /// Replaces the bytes of the file. At every moment its path leads to all of the old bytes or to all of the new ones.
    ///
    /// The bytes are written to a new file next to it, `PATH.qimg-new`. The new file is synced and renamed to `PATH`. Then the folder is
    /// synced.
    ///
    /// # Errors
    ///
    /// - `Failure::LeftOver` if the new file's path is taken. Nothing has changed.
    /// - `Failure::InputOutput` if a call of the system failed, memory ran out, or the file has changed since `TopFile::at`.
    ///
    /// # On error
    ///
    /// The file is unchanged, and a new file that this call created is removed. If only the last sync of the folder fails, the file has
    /// the new bytes.
    ///
    /// # Crash safety
    ///
    /// If the program is stopped during the call, the new file may be left. Until it gets its permissions, it has mode 0600 and no bytes.
    pub fn replace<R: Files + AllocGlobal>(&self, rt: &R, bytes: &[u8]) -> Result<(), Failure> {
        let beside = self.write_beside(rt, bytes)?;
        self.rename(rt, beside.as_str())
    }

    /// Returns true if both are the same file.
    pub fn is_same(&self, other: &TopFile) -> bool {
        self.version.device == other.version.device && self.version.inode == other.version.inode
    }

    /// Replaces the bytes of this file and of the one below it. Both new files are written first. Then the one below is renamed, and after it
    /// the new file of this one.
    ///
    /// # Errors
    ///
    /// The errors of `replace`.
    ///
    /// # On error
    ///
    /// Both files are unchanged, and new files that this call created are removed. If only the last renaming fails, or a sync of a folder,
    /// the file below has its new bytes.
    ///
    /// # Crash safety
    ///
    /// As for `replace`, of each file by itself. Between the two renamings the file below is the new one, and this one is the old one.
    pub fn replace_with_below<R: Files + AllocGlobal>(
        &self,
        rt: &R,
        bytes: &[u8],
        below: &TopFile,
        below_bytes: &[u8],
    ) -> Result<(), Failure> {
        let new_below = below.write_beside(rt, below_bytes)?;
        let new_top = match self.write_beside(rt, bytes) {
            Ok(beside) => beside,
            Err(failure) => {
                let _ = fs::remove_file(rt, new_below.as_str());
                return Err(failure);
            }
        };
        let replaced = below.rename(rt, new_below.as_str());
        if replaced.is_err() {
            let _ = fs::remove_file(rt, new_top.as_str());
            return replaced;
        }
        self.rename(rt, new_top.as_str())
    }
}
