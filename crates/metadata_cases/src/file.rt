// The bytes of a case's file, and the storage that holds them.
use crate::answer::{Answer, answered};
use cases::{Alignments, Notes, Shaped, Trouble, bytes, joined, number, ok, runs, size, told};
use imago_storage::{FuseStorage, Storage, StorageExt};
use std::alloc::{AllocError, Global};
use std::cell::Cell;

/// The most bytes of a file.
const MOST: usize = 16_777_216;

/// A storage that records its calls. One of its calls may fail.
pub type Image<'a> = FuseStorage<Shaped<'a>>;

/// Overwrites the file with `bytes` from offset `at` on. A shorter file is first extended with zeroes.
fn put(file: &mut Vec<u8>, at: usize, bytes: &[u8]) -> Result<(), Trouble> {
    if at > MOST || bytes.len() > MOST {
        return Err(Trouble::NoCall);
    }
    let end = at + bytes.len();
    if file.len() < end {
        file.resize(end, 0)?;
    }
    for (i, byte) in bytes.iter().enumerate() {
        if let Some(place) = file.get_mut(at.saturating_add(i)) {
            *place = *byte;
        }
    }
    Ok(())
}

// Joins the words of a text, with a blank between them.
fn sentence(alloc: Global, words: &[&str]) -> Result<String, AllocError> {
    let mut text = String::new(alloc);
    for word in words.iter() {
        joined(&mut text, word)?;
    }
    Ok(text)
}

/// Changes the bytes of the file.
///
/// The calls are `put OFFSET BYTES`, `word OFFSET NUMBER` for eight bytes in big-endian order, `text OFFSET WORDS`, and `cut LENGTH`.
pub fn edit(alloc: Global, file: &mut Vec<u8>, words: &[&str]) -> Result<String, Trouble> {
    match words {
        ["put", at, rest @ ..] => put(file, size(at)?, &bytes(alloc, rest)?)?,
        ["word", at, word] => put(file, size(at)?, &number(word)?.to_be_bytes())?,
        ["text", at, rest @ ..] => put(file, size(at)?, sentence(alloc, rest)?.as_bytes())?,
        ["cut", length] => file.truncate(size(length)?),
        _ => return Err(Trouble::NoCall),
    }
    Ok(ok(alloc)?)
}

/// Puts the file's bytes into a storage. All four alignments are `align`, and its `n`th call fails. If `n` is 0, no call fails.
pub fn image_of<'a>(
    file: &Vec<u8>,
    align: usize,
    n: u64,
    notes: &'a Cell<Notes>,
) -> Result<Image<'a>, Trouble> {
    let Some(alignments) = Alignments::new(align, align, align, align) else {
        return Err(Trouble::NoCall);
    };
    let storage = Shaped::new(file.clone()?, alignments, true, true, notes)?;
    notes.set(Notes::none());
    Ok(FuseStorage::new(storage, n))
}

fn read(alloc: Global, image: &mut Image<'_>, offset: u64, n: usize) -> Result<String, Trouble> {
    if n > MOST {
        return Err(Trouble::NoCall);
    }
    let mut buf = vec![in alloc; 7u8; n]?;
    image.read(alloc, &mut buf, offset)?;
    Ok(runs(alloc, &buf)?)
}

/// Returns what the storage holds, or which requests it got.
pub fn look(
    alloc: Global,
    image: &mut Image<'_>,
    notes: &Cell<Notes>,
    words: &[&str],
) -> Result<String, Trouble> {
    match words {
        ["read", offset, n] => read(alloc, image, number(offset)?, size(n)?),
        ["size"] => answered(alloc, Ok(Answer::Number(image.size()))),
        ["calls"] => answered(alloc, Ok(Answer::Number(image.count()))),
        ["asked"] => Ok(told(alloc, notes)?),
        _ => Err(Trouble::NoCall),
    }
}
