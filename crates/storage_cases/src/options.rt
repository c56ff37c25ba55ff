// Options for opening and creating a storage. A script sets them one by one, as `size=10`, and the answer prints all of them.
use cases::{Trouble, mode, mode_word, number};
use imago_storage::{PreallocateMode, StorageCreateOptions, StorageOpenOptions};
use std::alloc::{AllocError, Global};

// One option.
#[derive(Clone, Copy)]
enum Setting<'a> {
    Filename(&'a str),
    Write(bool),
    Direct(bool),
    Size(u64),
    Preallocate(PreallocateMode),
    Overwrite(bool),
}

fn flag(word: &str) -> Result<bool, Trouble> {
    match word {
        "true" => Ok(true),
        "false" => Ok(false),
        _ => Err(Trouble::NoCall),
    }
}

// Parses the option with a name and a value.
fn named<'a>(name: &str, value: &'a str) -> Result<Setting<'a>, Trouble> {
    match name {
        "filename" => Ok(Setting::Filename(value)),
        "write" => Ok(Setting::Write(flag(value)?)),
        "direct" => Ok(Setting::Direct(flag(value)?)),
        "size" => Ok(Setting::Size(number(value)?)),
        "preallocate" => Ok(Setting::Preallocate(mode(value)?)),
        "overwrite" => Ok(Setting::Overwrite(flag(value)?)),
        _ => Err(Trouble::NoCall),
    }
}

// Parses an option `NAME=VALUE`.
fn setting_of<'a>(word: &'a str) -> Result<Setting<'a>, Trouble> {
    let (name, value) = word.split_once("=").ok_or(Trouble::NoCall)?;
    named(name, value)
}

fn set_open(
    alloc: Global,
    options: StorageOpenOptions,
    setting: Setting<'_>,
) -> Result<StorageOpenOptions, Trouble> {
    match setting {
        Setting::Filename(name) => Ok(options.filename(name.to_string(alloc)?)),
        Setting::Write(write) => Ok(options.write(write)),
        Setting::Direct(direct) => Ok(options.direct(direct)),
        _ => Err(Trouble::NoCall),
    }
}

fn open_text(alloc: Global, options: &StorageOpenOptions) -> Result<String, AllocError> {
    let name = options.get_filename().unwrap_or("none");
    let (write, direct) = (options.get_writable(), options.get_direct());
    format!(in alloc; "filename={name} write={write} direct={direct}")
}

// Sets options for opening, and returns their text.
fn opened(alloc: Global, first: StorageOpenOptions, words: &[&str]) -> Result<String, Trouble> {
    let mut options = first;
    for word in words.iter() {
        options = set_open(alloc, options, setting_of(word)?)?;
    }
    Ok(open_text(alloc, &options)?)
}

/// Returns the options for opening: those of `new` or `default`, changed by the other options of the line.
pub fn open(alloc: Global, words: &[&str]) -> Result<String, Trouble> {
    match words {
        ["new", rest @ ..] => opened(alloc, StorageOpenOptions::new(), rest),
        ["default", rest @ ..] => opened(alloc, StorageOpenOptions::default(), rest),
        _ => Err(Trouble::NoCall),
    }
}

fn set_create(
    alloc: Global,
    options: StorageCreateOptions,
    setting: Setting<'_>,
) -> Result<StorageCreateOptions, Trouble> {
    match setting {
        Setting::Filename(name) => Ok(options.filename(name.to_string(alloc)?)),
        Setting::Write(write) => Ok(options.modify_open_opts(|opening| opening.write(write))),
        Setting::Direct(direct) => Ok(options.modify_open_opts(|opening| opening.direct(direct))),
        Setting::Size(size) => Ok(options.size(size)),
        Setting::Preallocate(mode) => Ok(options.preallocate(mode)),
        Setting::Overwrite(overwrite) => Ok(options.overwrite(overwrite)),
    }
}

fn create_text(alloc: Global, options: &StorageCreateOptions) -> Result<String, AllocError> {
    let name = options.get_filename().unwrap_or("none");
    let (size, overwrite) = (options.get_size(), options.get_overwrite());
    let mode = mode_word(options.get_preallocate());
    format!(in alloc; "filename={name} size={size} preallocate={mode} overwrite={overwrite}")
}

fn set_all(
    alloc: Global,
    first: StorageCreateOptions,
    words: &[&str],
) -> Result<StorageCreateOptions, Trouble> {
    let mut options = first;
    for word in words.iter() {
        options = set_create(alloc, options, setting_of(word)?)?;
    }
    Ok(options)
}

fn created(alloc: Global, words: &[&str]) -> Result<StorageCreateOptions, Trouble> {
    match words {
        ["new", rest @ ..] => set_all(alloc, StorageCreateOptions::new(), rest),
        ["default", rest @ ..] => set_all(alloc, StorageCreateOptions::default(), rest),
        _ => Err(Trouble::NoCall),
    }
}

/// Returns the options for creating: those of `new` or `default`, changed by the other options of the line.
pub fn create(alloc: Global, words: &[&str]) -> Result<String, Trouble> {
    let options = created(alloc, words)?;
    Ok(create_text(alloc, &options)?)
}

/// Returns the options for opening a storage that is created with these options.
pub fn create_open(alloc: Global, words: &[&str]) -> Result<String, Trouble> {
    let options = created(alloc, words)?;
    Ok(open_text(alloc, options.get_open_options())?)
}
