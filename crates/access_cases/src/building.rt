// Opens and creates raw images with their builders, option by option, and returns what a script prints of them.
use cases::{Trouble, joined, runs};
use imago_access::{
    DenyImplicitOpenGate, FormatCreateBuilder, FormatCreateBuilderBase, FormatDriverBuilder,
    FormatDriverBuilderBase, ImplicitOpenGate, PreallocateMode,
};
use imago_formats::{Raw, RawCreateBuilder, RawOpenBuilder};
use imago_storage::{Fault, MemStorage, Storage, StorageOpenOptions};
use std::alloc::{AllocError, Global};

/// The options of an opening.
#[derive(Clone, Copy)]
pub struct Told<'a> {
    /// True if the image is opened for writing.
    pub is_writing: bool,
    /// True if the host's page cache is bypassed.
    pub is_direct: bool,
    /// The name of the file, if any.
    pub file: Option<&'a str>,
}

fn options_of(alloc: Global, told: Told<'_>) -> Result<StorageOpenOptions, AllocError> {
    let options = StorageOpenOptions::new().direct(told.is_direct);
    match told.file {
        None => Ok(options),
        Some(file) => Ok(options.filename(file.to_string(alloc)?)),
    }
}

// Returns the text of storage options.
fn text_of(alloc: Global, options: &StorageOpenOptions) -> Result<String, AllocError> {
    let writing = if options.get_writable() {
        "writing"
    } else {
        "reading"
    };
    let direct = if options.get_direct() { "direct" } else { "" };
    let file = options.get_filename().unwrap_or("");
    format!(in alloc; "{writing} {direct} {file}")
}

// Returns the text of an opening: whether it is writable, and its storage options.
fn options_text(
    alloc: Global,
    writable: bool,
    options: Option<&StorageOpenOptions>,
) -> Result<String, AllocError> {
    let mut text = writable.to_string(alloc)?;
    match options {
        None => joined(&mut text, "no options")?,
        Some(options) => joined(&mut text, text_of(alloc, options)?.as_str())?,
    }
    Ok(text)
}

// Creates a storage of three bytes.
fn three(alloc: Global) -> Result<MemStorage, Trouble> {
    Ok(MemStorage::from_bytes(vec![in alloc; 7u8; 3]?)?)
}

/// Returns what the base of an opening reports, before or after its options are set. The text has the options that it makes, and the bytes
/// of the image file that it opens.
pub fn opening(alloc: Global, told: Option<Told<'_>>) -> Result<String, Trouble> {
    let mut base = FormatDriverBuilderBase::new(three(alloc)?);
    if let Some(told) = told {
        base.set_storage_open_options(options_of(alloc, told)?);
        base.set_write(told.is_writing);
    }
    let mut text = options_text(alloc, base.get_writable(), base.get_storage_opts())?;
    joined(&mut text, "makes")?;
    let made = text_of(alloc, &base.make_storage_opts(alloc)?)?;
    joined(&mut text, made.as_str())?;
    let image = base.open_image(&mut DenyImplicitOpenGate)?;
    joined(&mut text, runs(alloc, &image.bytes()?)?.as_str())?;
    Ok(text)
}

/// Returns what the base of a creation reports before and after its size and mode are set, and the length of its storage.
pub fn creating(alloc: Global, size: u64, mode: PreallocateMode) -> Result<String, Trouble> {
    let mut base = FormatCreateBuilderBase::new(three(alloc)?);
    let (first, is_first) = (
        base.get_size(),
        base.get_preallocate() == PreallocateMode::None,
    );
    base.set_size(size);
    base.set_preallocate(mode);
    let (second, is_second) = (base.get_size(), base.get_preallocate() == mode);
    let lent = base.get_image_ref().size();
    let given = base.get_image().size();
    Ok(format!(in alloc; "{first} {is_first} {second} {is_second} {lent} {given}")?)
}

/// Opens a raw image with its builder. The builder's options are appended to `text`.
pub fn open<S: Storage + Drop>(
    alloc: Global,
    storage: S,
    told: Option<Told<'_>>,
    text: &mut String,
) -> Result<Raw<S>, Trouble> {
    let mut builder = Raw::builder(storage);
    if let Some(told) = told {
        let options = options_of(alloc, told)?;
        builder = builder.write(told.is_writing).storage_open_options(options);
    }
    let said = options_text(
        alloc,
        builder.get_writable(),
        builder.get_storage_open_options(),
    )?;
    joined(text, said.as_str())?;
    Ok(builder.open(alloc, &mut DenyImplicitOpenGate)?)
}

/// The way a raw image is created and opened.
#[derive(Clone, Copy)]
pub enum Creation {
    /// The image is created, and its storage is then opened for writing without the builder.
    Alone,
    /// The builder opens the image.
    Opened,
    /// The function that makes the opening builder returns an error.
    Unopened,
}

// Creates a raw image, and opens its storage for writing.
fn create_alone<S: Storage>(alloc: Global, builder: RawCreateBuilder<S>) -> Result<Raw<S>, Fault> {
    match builder.create(alloc) {
        Ok(storage) => Ok(Raw::open_image(storage, true)),
        Err(fault) => Err(fault),
    }
}

fn create_open<S: Storage>(alloc: Global, builder: RawCreateBuilder<S>) -> Result<Raw<S>, Fault> {
    let open = |image: S| Ok(Raw::builder(image));
    builder.create_open(alloc, &mut DenyImplicitOpenGate, open)
}

fn create_unopened<S: Storage + Drop>(
    alloc: Global,
    builder: RawCreateBuilder<S>,
) -> Result<Raw<S>, Fault> {
    let open = |_image: S| -> Result<RawOpenBuilder<S>, Fault> { Err(Fault::MissingData) };
    builder.create_open(alloc, &mut DenyImplicitOpenGate, open)
}

/// Creates a raw image.
pub fn create<S: Storage + Drop>(
    alloc: Global,
    creation: Creation,
    storage: S,
    size: u64,
    mode: PreallocateMode,
) -> Result<Raw<S>, Fault> {
    let builder = Raw::create_builder(storage).size(size).preallocate(mode);
    match creation {
        Creation::Alone => create_alone(alloc, builder),
        Creation::Opened => create_open(alloc, builder),
        Creation::Unopened => create_unopened(alloc, builder),
    }
}

/// Returns the size and mode of a new builder of raw images, before and after they are set.
pub fn create_builder(alloc: Global, size: u64, mode: PreallocateMode) -> Result<String, Trouble> {
    let builder = Raw::create_builder(MemStorage::new(alloc));
    let (first, is_first) = (
        builder.get_size(),
        builder.get_preallocate() == PreallocateMode::None,
    );
    let told = builder.size(size).preallocate(mode);
    let (second, is_second) = (told.get_size(), told.get_preallocate() == mode);
    Ok(format!(in alloc; "{first} {is_first} {second} {is_second}")?)
}

/// Returns the answer of the closed gate, which opens no referenced file, to a name.
pub fn gate(alloc: Global, name: &str) -> Result<String, Trouble> {
    let opened: Result<MemStorage, Fault> = DenyImplicitOpenGate.open_storage(alloc, name);
    opened?;
    Ok("opened".to_string(alloc)?)
}
