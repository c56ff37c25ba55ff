// Opens files of a case as a chain with one call of `open_chain` or `open_for_commit`, and parses the layers that the script gives.
use crate::files::NamedStorages;
use crate::images::{Split, access_of};
use cases::{Trouble, number};
use imago_access::{Format, FormatAccess};
use imago_storage::{Fault, Storage};
use qimg_calls::{Answer, Call};
use qimg_chain::chain::{ImageDriver, open_chain, open_for_commit};
use qimg_chain::session::{NotDriven, drive_files, drive_for_commit};
use qimg_core::check::CheckFault;
use qimg_core::plain::ChainFile;
use std::alloc::Global;

// Parses `[number N]`, the number of the top image. The default is 0.
fn number_of<'x, 'y>(words: &'y [&'x str]) -> Result<Split<'x, 'y, u64>, Trouble> {
    match words {
        ["number", n, rest @ ..] => Ok((number(n)?, rest)),
        _ => Ok((0, words)),
    }
}

// Parses `[below_number N]`, the number of the image below the top. The default is 1.
fn below_number_of<'x, 'y>(words: &'y [&'x str]) -> Result<Split<'x, 'y, u64>, Trouble> {
    match words {
        ["below_number", n, rest @ ..] => Ok((number(n)?, rest)),
        _ => Ok((1, words)),
    }
}

fn format_of(word: &str) -> Result<Format, Trouble> {
    match word {
        "raw" => Ok(Format::Raw),
        "qcow2" => Ok(Format::Qcow2),
        "vmdk" => Ok(Format::Vmdk),
        _ => Err(Trouble::NoCall),
    }
}

// Parses `[with NAME FILE] ..`, and opens these extra files of a layer.
fn further_of<'x, 'y, S: Storage, F: NamedStorages<S>>(
    alloc: Global,
    words: &'y [&'x str],
    files: &mut F,
) -> Result<Split<'x, 'y, Vec<(String, S)>>, Trouble> {
    let mut further = Vec::new(alloc);
    let mut rest = words;
    for _ in 0..words.len() {
        let ["with", name, file, behind @ ..] = rest else {
            return Ok((further, rest));
        };
        further.push((name.to_string(alloc)?, files.open_storage(file)?))?;
        rest = behind;
    }
    Ok((further, rest))
}

// Parses `FORMAT FILE [with NAME FILE] ..`, and opens the files of the layer.
fn layer_of<S: Storage, F: NamedStorages<S>>(
    alloc: Global,
    words: &[&str],
    files: &mut F,
) -> Result<ChainFile<S>, Trouble> {
    let [format, file, behind @ ..] = words else {
        return Err(Trouble::NoCall);
    };
    let format = format_of(format)?;
    let image = files.open_storage(file)?;
    let (extras, rest) = further_of(alloc, behind, files)?;
    if !rest.is_empty() {
        return Err(Trouble::NoCall);
    }
    Ok(ChainFile {
        format,
        image,
        extras,
    })
}

/// Parses `[LAYER [over LAYER] ..]`, and opens the files of all layers, the top first.
///
/// # Errors
///
/// - `Trouble::NoCall` if the words don't have this form, or the case has no such file.
/// - `Trouble::Refused` if memory runs out, or a storage can't be made.
pub fn layers_of<S: Storage, F: NamedStorages<S>>(
    alloc: Global,
    words: &[&str],
    files: &mut F,
) -> Result<Vec<ChainFile<S>>, Trouble> {
    let mut layers = Vec::new(alloc);
    if words.is_empty() {
        return Ok(layers);
    }
    for layer in words.split(|word| *word == "over") {
        layers.push(layer_of(alloc, layer, files)?)?;
    }
    Ok(layers)
}

/// Opens files of the case as a chain: `[writing] [number N] [LAYER [over LAYER] ..]`, where a layer is `FORMAT FILE [with NAME FILE] ..`. With
/// `committing [number N] [below_number N] [LAYER ..]` the two top images are opened for writing.
///
/// # Errors
///
/// - `Trouble::NoCall` if the words don't have this form, or the case has no such file.
/// - `Trouble::Refused` if the opening fails.
pub fn open<S: Storage, F: NamedStorages<S>>(
    alloc: Global,
    words: &[&str],
    files: &mut F,
) -> Result<FormatAccess<ImageDriver<S>>, Trouble> {
    if let ["committing", rest @ ..] = words {
        let (number, rest) = number_of(rest)?;
        let (below_number, rest) = below_number_of(rest)?;
        let layers = layers_of(alloc, rest, files)?;
        return Ok(open_for_commit(alloc, layers, number, below_number)?);
    }
    let (is_writing, rest) = access_of(words);
    let (number, rest) = number_of(rest)?;
    let layers = layers_of(alloc, rest, files)?;
    Ok(open_chain(alloc, layers, is_writing, number)?)
}

/// A chain that a list of calls was made on, and the answers to the calls.
pub type Driven<S> = (FormatAccess<ImageDriver<S>>, Result<Vec<Answer>, Fault>);

// Opens files as `checked_chain` says, and makes a list of calls on them.
fn drive_words<S: Storage, F: NamedStorages<S>>(
    alloc: Global,
    words: &[&str],
    calls: &[Call],
    files: &mut F,
) -> Result<Result<Driven<S>, NotDriven>, Trouble> {
    if let ["committing", rest @ ..] = words {
        let (number, rest) = number_of(rest)?;
        let (below_number, rest) = below_number_of(rest)?;
        let layers = layers_of(alloc, rest, files)?;
        return Ok(drive_for_commit(alloc, layers, number, below_number, calls));
    }
    let (is_writing, rest) = access_of(words);
    let (number, rest) = number_of(rest)?;
    let layers = layers_of(alloc, rest, files)?;
    Ok(drive_files(alloc, layers, is_writing, number, calls))
}

/// Checks the top file, opens files of the case as a chain like [`open`], and makes a list of calls on it. If the image below is opened for
/// writing, its file is checked, too. If the checker doesn't accept a file, its finding is returned.
///
/// # Errors
///
/// - `Trouble::NoCall` if the layers don't have this form, or the case has no such file.
/// - `Trouble::Refused` if the opening fails, or a file can't be checked.
pub fn open_and_drive<S: Storage, F: NamedStorages<S>>(
    alloc: Global,
    words: &[&str],
    calls: &[Call],
    files: &mut F,
) -> Result<Result<Driven<S>, CheckFault>, Trouble> {
    let finding = match drive_words(alloc, words, calls, files)? {
        Ok(driven) => return Ok(Ok(driven)),
        Err(NotDriven::Opening(fault)) => return Err(Trouble::Refused(fault)),
        Err(NotDriven::Finding(finding) | NotDriven::FindingBelow(finding)) => finding,
    };
    match finding {
        CheckFault::Memory => Err(Trouble::Refused(Fault::Memory)),
        CheckFault::Storage => Err(Trouble::Refused(Fault::Storage)),
        finding => Ok(Err(finding)),
    }
}
