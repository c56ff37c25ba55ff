// Builders that open and create images, option by option. The `Base` types hold the options that all formats have.
ghost use Rattle.std.specs.Prelude.{◌≡◌, false, Bool, ℕ, Some, None, Ok, Option, Result, MatchOption, IsOkUnless, IfOk, IfErr, IsTrue};
ghost use Rattle.imago_storage.specs.Options.{OpenOptions};
ghost use Rattle.imago_storage.specs.declared.fault.Fault.{Fault};
ghost use Rattle.imago_access.specs.Building.{options_with, IsOpenedThen, IsUnopened, OpensOnly};
ghost use Rattle.imago_access.specs.declared.format.Format.{Format};
ghost use Rattle.imago_access.specs.declared.format.PreallocateMode.{PreallocateMode};
ghost use Rattle.imago_access.specs.declared.format.PreallocateMode.TheVariants as mode;

use crate::drivers::FormatDriverInstance;
use crate::format::{Format, PreallocateMode};
use crate::gate::ImplicitOpenGate;
use imago_storage::{Fault, Storage, StorageOpenOptions};
use std::alloc::Global;

/// The options of a builder that opens an image, in any format: the image file, whether it is opened for writing, and the options for
/// referenced files.
#[derive(Drop)]
pub struct FormatDriverBuilderBase<S> {
    image: S,
    writable: bool,
    options: Option<StorageOpenOptions>,
}

impl<S> FormatDriverBuilderBase<S> {
    /// Makes a builder for an image file, read-only and without options.
    pub fn new(image: S) -> Self
        ensures { result ≡ record { image = image; writable = false; options = None } }
    {
        FormatDriverBuilderBase {
            image,
            writable: false,
            options: None,
        }
    }

    /// Sets whether the image is also opened for writing.
    pub fn set_write(&mut self, write: bool)
        ensures { self.new ≡ record self.old { writable = write } }
    {
        self.writable = write;
    }

    /// Sets how the files that the image references are opened.
    pub fn set_storage_open_options(&mut self, options: StorageOpenOptions)
        ensures { self.new ≡ record self.old { options = Some options } }
    {
        self.options = Some(options);
    }

    /// Returns true if the image is also opened for writing.
    pub fn get_writable(&self) -> bool
        ensures { result ≡ self.now.writable }
    {
        self.writable
    }

    /// Returns how the files that the image references are opened, if that was set.
    pub fn get_storage_opts(&self) -> Option<&StorageOpenOptions>
        ensures { MatchOption result (self.now.options ≡ None) (λ o. self.now.options ≡ Some o.now) }
    {
        self.options.as_ref()
    }

    /// Returns a copy of the options for referenced files, or default options. They are for writing exactly if the image is opened for
    /// writing.
    ///
    /// # Errors
    ///
    /// - `Fault::Memory`.
    pub fn make_storage_opts(&self, alloc: Global) -> Result<StorageOpenOptions, Fault>
        ensures ok { IfOk result (λ o. o ≡ options_with self.now.options self.now.writable) }
        ensures err { IsOkUnless result Fault.Memory }
    {
        let made = StorageOpenOptions::new().write(self.writable);
        match &self.options {
            None => Ok(made),
            Some(options) => {
                let made = made.direct(options.get_direct());
                match options.get_filename() {
                    None => Ok(made),
                    Some(name) => Ok(made.filename(name.to_string(alloc)?)),
                }
            }
        }
    }

    /// Returns the image file. The gate isn't called, since the caller passed the file in.
    pub fn open_image<G: ImplicitOpenGate<S>>(self, _gate: &mut G) -> Result<S, Fault>
        ensures image { result ≡ Ok self.image }
        ensures gate { _gate.new ≡ _gate.old }
    {
        let FormatDriverBuilderBase {
            image,
            writable: _writable,
            options: _options,
        } = self;
        Ok(image)
    }
}

/// The options of a builder that creates an image, in any format: the storage of the image file, the size of the disk in bytes, and the
/// preallocation.
#[derive(Drop)]
pub struct FormatCreateBuilderBase<S> {
    image: S,
    size: u64,
    preallocate: PreallocateMode,
}

impl<S> FormatCreateBuilderBase<S> {
    /// Makes a builder for a storage, for an empty disk without preallocation.
    pub fn new(image: S) -> Self
        ensures { result ≡ record { image = image; size = 0; preallocate = mode.None } }
    {
        FormatCreateBuilderBase {
            image,
            size: 0,
            preallocate: PreallocateMode::None,
        }
    }

    /// Sets the size of the disk, in bytes.
    pub fn set_size(&mut self, size: u64)
        ensures { self.new ≡ record self.old { size = size } }
    {
        self.size = size;
    }

    /// Sets how the bytes of the disk are preallocated.
    pub fn set_preallocate(&mut self, preallocate: PreallocateMode)
        ensures { self.new ≡ record self.old { preallocate = preallocate } }
    {
        self.preallocate = preallocate;
    }

    /// Returns the size of the disk, in bytes.
    pub fn get_size(&self) -> u64
        ensures { result ≡ self.now.size }
    {
        self.size
    }

    /// Returns how the bytes of the disk are preallocated.
    pub fn get_preallocate(&self) -> PreallocateMode
        ensures { result ≡ self.now.preallocate }
    {
        self.preallocate
    }

    /// Returns the storage, and consumes the builder.
    pub fn get_image(self) -> S
        ensures { result ≡ self.image }
    {
        let FormatCreateBuilderBase {
            image,
            size: _size,
            preallocate: _preallocate,
        } = self;
        image
    }

    /// Returns the storage by reference.
    pub fn get_image_ref(&self) -> &S
        ensures { result.now ≡ self.now.image }
    {
        &self.image
    }
}

/// Opens an image of a format, option by option.
///
/// Contracts see the image file, whether it is opened for writing, the options, and which drivers the call may return.
/// `imago_formats::RawOpenBuilder`, `imago_formats::VmdkOpenBuilder` and `qcow2_image::Qcow2OpenBuilder` implement it.
pub trait FormatDriverBuilder<S: Storage> {
    /// The driver of the opened image.
    type Format: FormatDriverInstance<Storage = S>;

    /// The format.
    const FORMAT: Format;

    ghost FORMAT: { Format };

    /// The image file.
    ghost image_of: { Self → S };

    /// True if the image is also opened for writing.
    ghost writable_of: { Self → Bool };

    /// The options for opening the files that the image references, if they were set.
    ghost options_of: { Self → Option OpenOptions };

    /// The number that the opened image has.
    ghost number_of: { Self → ℕ };

    /// The same builder, with this setting for writing.
    ghost with_writable: { Self → Bool → Self };

    /// The drivers that the call may return.
    ghost opens: { Self → Self.Format → Type 0 };

    /// The errors that the call may return.
    ghost refuses: { Self → Fault → Type 0 };

    /// Makes a builder for an image file, read-only and without options.
    fn new(image: S) -> Self
        ensures image { image_of result ≡ image }
        ensures writable { writable_of result ≡ false }
        ensures options { options_of result ≡ None }
        ensures number { number_of result ≡ 0 };

    /// Sets whether the image is also opened for writing.
    fn write(self, write: bool) -> Self
        ensures made { result ≡ with_writable self write }
        ensures image { image_of result ≡ image_of self }
        ensures writable { writable_of result ≡ write }
        ensures options { options_of result ≡ options_of self }
        ensures number { number_of result ≡ number_of self };

    /// Sets how the files that the image references are opened.
    fn storage_open_options(self, options: StorageOpenOptions) -> Self
        ensures image { image_of result ≡ image_of self }
        ensures writable { writable_of result ≡ writable_of self }
        ensures options { options_of result ≡ Some options }
        ensures number { number_of result ≡ number_of self };

    /// Opens the image. The gate opens the files that the image references and that the caller didn't pass in.
    ///
    /// # Errors
    ///
    /// The errors of the format's builder. The image file is then dropped.
    fn open<G: ImplicitOpenGate<S>>(
        self,
        alloc: Global,
        gate: &mut G,
    ) -> Result<Self::Format, Fault>
        ensures ok { IfOk result (opens self) }
        ensures err { IfErr result (refuses self) };

    /// Returns true if the image is also opened for writing.
    fn get_writable(&self) -> bool
        ensures { result ≡ writable_of self.now };

    /// Returns how the files that the image references are opened, if that was set.
    fn get_storage_open_options(&self) -> Option<&StorageOpenOptions>
        ensures { MatchOption result (options_of self.now ≡ None) (λ o. options_of self.now ≡ Some o.now) };

    /// The opened image reads what its file says. No metadata is dirty, no mapping is prepared, and the image file is unchanged. If the
    /// file is consistent and its storage keeps what is written, the driver is well-formed (its invariant holds).
    ghost opened: { (b : Self) → OpensOnly Self.Format.DriverModel (opens b) FORMAT (writable_of b) (number_of b) (S.state (image_of b)) };
}

/// Makes the builder that opens an image file. Each closure that takes the file and returns a builder implements it.
pub trait MakeOpenBuilder<S, B> {
    /// The files that it may be given.
    ghost takes: { Self → S → Type 0 };

    /// The results that it may return for this file.
    ghost makes: { Self → S → Result B Fault → Type 0 };

    /// Makes the builder for this file, or returns an error of its own.
    fn make(self, image: S) -> Result<B, Fault>
        requires { takes self image }
        ensures { makes self image result };
}

impl<S, B, F: FnOnce(S) -> Result<B, Fault>> MakeOpenBuilder<S, B> for F {
    ghost takes = { λ f s. F.pre f s };

    ghost makes = { λ f s answer. F.post f s answer };

    fn make(self, image: S) -> Result<B, Fault> {
        self(image)
    }
}

/// Creates an image of a format, option by option.
///
/// Contracts see the storage of the image file, the size of the disk and its preallocation. They also see the possible states of the
/// storage after creation, and which drivers may then open it.
pub trait FormatCreateBuilder<S: Storage> {
    /// The format.
    const FORMAT: Format;

    ghost FORMAT: { Format };

    /// The builder that opens the created image.
    type DriverBuilder: FormatDriverBuilder<S>;

    /// The storage of the image file.
    ghost storage_of: { Self → S };

    /// The size of the disk, in bytes.
    ghost size_of: { Self → ℕ };

    /// The preallocation of the disk's bytes.
    ghost preallocate_of: { Self → PreallocateMode };

    /// The states of the storage after the image is created.
    ghost creates: { Self → S → Type 0 };

    /// The states of the storage when it is opened.
    ghost hands: { Self → S → Type 0 };

    /// The builder that opens the image, made from the builder of `open_builder`: for writing, and with all files that were created.
    ghost opens_with: { Self → Self.DriverBuilder → Self.DriverBuilder → Type 0 };

    /// The errors that creation may return.
    ghost refuses: { Self → Fault → Type 0 };

    /// Makes a builder for a storage, for an empty disk without preallocation.
    fn new(image: S) -> Self
        ensures storage { storage_of result ≡ image }
        ensures size { size_of result ≡ 0 }
        ensures preallocate { preallocate_of result ≡ mode.None };

    /// Sets the size of the disk, in bytes.
    fn size(self, size: u64) -> Self
        ensures storage { storage_of result ≡ storage_of self }
        ensures size { size_of result ≡ size }
        ensures preallocate { preallocate_of result ≡ preallocate_of self };

    /// Sets how the bytes of the disk are preallocated.
    fn preallocate(self, preallocate: PreallocateMode) -> Self
        ensures storage { storage_of result ≡ storage_of self }
        ensures size { size_of result ≡ size_of self }
        ensures preallocate { preallocate_of result ≡ preallocate };

    /// Returns the size of the disk, in bytes.
    fn get_size(&self) -> u64
        ensures { result ≡ size_of self.now };

    /// Returns how the bytes of the disk are preallocated.
    fn get_preallocate(&self) -> PreallocateMode
        ensures { result ≡ preallocate_of self.now };

    /// Creates the image, and returns its file.
    ///
    /// # Errors
    ///
    /// The errors of the format's builder. The storage is then dropped.
    fn create(self, alloc: Global) -> Result<S, Fault>
        ensures ok { IfOk result (creates self) }
        ensures err { IfErr result (refuses self) };

    /// Creates the image, and opens it for writing with the builder that `open_builder` makes for its file.
    ///
    /// # Errors
    ///
    /// The errors of the format's builders and of `open_builder`. The storage is then dropped.
    fn create_open<G: ImplicitOpenGate<S>, F: MakeOpenBuilder<S, Self::DriverBuilder> + Drop>(
        self,
        alloc: Global,
        gate: &mut G,
        open_builder: F,
    ) -> Result<<Self::DriverBuilder as FormatDriverBuilder<S>>::Format, Fault>
        requires { (s : S) → hands self s → F.takes open_builder s }
        ensures ok { IfOk result (IsOpenedThen (hands self) (F.makes open_builder) (opens_with self) Self.DriverBuilder.opens) }
        ensures format { IfOk result (λ d. (Self.DriverBuilder.Format.layer d).fixed.format ≡ FORMAT) }
        ensures writable { IfOk result (λ d. IsTrue (Self.DriverBuilder.Format.layer d).fixed.writable) }
        ensures err { IsUnopened result (refuses self) (hands self) (F.makes open_builder) (opens_with self) Self.DriverBuilder.refuses };
}
