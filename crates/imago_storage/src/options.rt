// Builders for the options that open or create a storage.
ghost use Rattle.std.specs.Prelude.{◌≡◌, false, Some, None};
ghost use Rattle.std.specs.Option.{option_copied};
ghost use Rattle.std.specs.String.{string_bytes};
ghost use Rattle.imago_storage.specs.declared.storage.PreallocateMode.TheVariants as mode;

use crate::PreallocateMode;
use std::marker::Model;

/// Options for opening a storage: its name, whether it is writable, and whether the host's page cache is bypassed.
#[derive(Drop)]
pub struct StorageOpenOptions {
    filename: Option<String>,
    writable: bool,
    direct: bool,
}

impl Model for StorageOpenOptions {
    ghost use Rattle.imago_storage.specs.Options.{OpenOptions, seen_open};

    ghost Value = { OpenOptions };

    ghost view = { seen_open };
}

impl StorageOpenOptions {
    /// Returns the default options: no name, read-only, and through the host's page cache.
    pub fn new() -> Self
        ensures { result ≡ record { filename = None; writable = false; direct = false } }
    {
        StorageOpenOptions {
            filename: None,
            writable: false,
            direct: false,
        }
    }

    /// Sets the name of the file.
    pub fn filename(mut self, filename: String) -> Self
        ensures { result ≡ record self { filename = Some (string_bytes filename) } }
    {
        self.filename = Some(filename);
        self
    }

    /// Sets whether the storage is opened for writing too.
    pub fn write(mut self, write: bool) -> Self
        ensures { result ≡ record self { writable = write } }
    {
        self.writable = write;
        self
    }

    /// Sets whether the host's page cache is bypassed.
    pub fn direct(mut self, direct: bool) -> Self
        ensures { result ≡ record self { direct = direct } }
    {
        self.direct = direct;
        self
    }

    /// Returns the name, if it is set.
    pub fn get_filename(&self) -> Option<&str>
        ensures { option_copied result ≡ self.now.filename }
    {
        self.filename.as_deref()
    }

    /// Returns true if the storage is opened for writing too.
    pub fn get_writable(&self) -> bool
        ensures { result ≡ self.now.writable }
    {
        self.writable
    }

    /// Returns true if the host's page cache is bypassed.
    pub fn get_direct(&self) -> bool
        ensures { result ≡ self.now.direct }
    {
        self.direct
    }
}

impl Default for StorageOpenOptions {
    ghost is_default = { λ o. o ≡ record { filename = None; writable = false; direct = false } };

    fn default() -> Self {
        StorageOpenOptions::new()
    }
}

/// Options for creating a storage: how it is opened afterwards, its length in bytes, its preallocation mode, and whether an existing file
/// is replaced.
#[derive(Drop)]
pub struct StorageCreateOptions {
    opening: StorageOpenOptions,
    size: u64,
    preallocate: PreallocateMode,
    overwrite: bool,
}

impl Model for StorageCreateOptions {
    ghost use Rattle.imago_storage.specs.CreateOptions.{CreateOptions, seen_create};

    ghost Value = { CreateOptions };

    ghost view = { seen_create };
}

impl StorageCreateOptions {
    /// Returns the default options: no name, a length of 0 bytes, nothing preallocated, and no file is replaced.
    pub fn new() -> Self
        ensures { result ≡ record {
          opening = record { filename = None; writable = false; direct = false };
          size = 0;
          preallocate = mode.None;
          overwrite = false;
        } }
    {
        StorageCreateOptions {
            opening: StorageOpenOptions::new(),
            size: 0,
            preallocate: PreallocateMode::None,
            overwrite: false,
        }
    }

    /// Sets the name of the file.
    pub fn filename(self, filename: String) -> Self
        ensures { result ≡ record self { opening = record self.opening { filename = Some (string_bytes filename) } } }
    {
        self.modify_open_opts(|opening| opening.filename(filename))
    }

    /// Sets the length in bytes.
    pub fn size(mut self, size: u64) -> Self
        ensures { result ≡ record self { size = size } }
    {
        self.size = size;
        self
    }

    /// Sets the preallocation mode. The bytes read as 0 in each mode.
    pub fn preallocate(mut self, preallocate: PreallocateMode) -> Self
        ensures { result ≡ record self { preallocate = preallocate } }
    {
        self.preallocate = preallocate;
        self
    }

    /// Sets whether an existing file is replaced.
    pub fn overwrite(mut self, overwrite: bool) -> Self
        ensures { result ≡ record self { overwrite = overwrite } }
    {
        self.overwrite = overwrite;
        self
    }

    /// Changes the options for opening the storage by `f`.
    pub fn modify_open_opts<F: FnOnce(StorageOpenOptions) -> StorageOpenOptions>(self, f: F) -> Self
        requires { F.pre f self.opening }
        ensures { F.post f self.opening result.opening × (result ≡ record self { opening = result.opening }) }
    {
        let StorageCreateOptions {
            opening,
            size,
            preallocate,
            overwrite,
        } = self;
        StorageCreateOptions {
            opening: f(opening),
            size,
            preallocate,
            overwrite,
        }
    }

    /// Returns the name, if it is set.
    pub fn get_filename(&self) -> Option<&str>
        ensures { option_copied result ≡ self.now.opening.filename }
    {
        self.opening.get_filename()
    }

    /// Returns the length in bytes.
    pub fn get_size(&self) -> u64
        ensures { result ≡ self.now.size }
    {
        self.size
    }

    /// Returns the preallocation mode.
    pub fn get_preallocate(&self) -> PreallocateMode
        ensures { result ≡ self.now.preallocate }
    {
        self.preallocate
    }

    /// Returns true if an existing file is replaced.
    pub fn get_overwrite(&self) -> bool
        ensures { result ≡ self.now.overwrite }
    {
        self.overwrite
    }

    /// Returns the options for opening the storage.
    pub fn get_open_options(&self) -> &StorageOpenOptions
        ensures { result.now ≡ self.now.opening }
    {
        &self.opening
    }
}

impl Default for StorageCreateOptions {
    ghost is_default = { λ o. o ≡ record { opening = record { filename = None; writable = false; direct = false }; size = 0; preallocate = mode.None; overwrite = false } };

    fn default() -> Self {
        StorageCreateOptions::new()
    }
}
