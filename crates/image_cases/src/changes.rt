// Calls of a script that change the file of a case (one test), or the settings of its storages.
use crate::files::{put_counter, put_fields, put_header, put_row, put_small, put_words};
use crate::images::Images;
use crate::values::value;
use cases::{Trouble, bytes, number, ok, size};
use imago_storage::{MemStorage, PreallocateMode, Storage, StorageExt};
use std::alloc::Global;

// Sets `times` consecutive refcounts.
fn put_counters(
    file: &mut MemStorage,
    alloc: Global,
    block: (u64, u64),
    index: u64,
    (count, times): (u64, u64),
) -> Result<(), Trouble> {
    for step in 0..times {
        put_counter(file, alloc, block, index.wrapping_add(step), count)?;
    }
    Ok(())
}

// Makes a change of the file that has an offset, a width or a length.
fn put_at(file: &mut MemStorage, alloc: Global, name: &str, words: &[&str]) -> Result<(), Trouble> {
    match (name, words) {
        ("word", [place, words @ ..]) => put_words(file, alloc, number(place)?, words),
        ("row", [place, count, first, step]) => {
            let numbers = (value(first)?, value(step)?);
            put_row(file, alloc, number(place)?, number(count)?, numbers)
        }
        ("put", [place, words @ ..]) => {
            let put = bytes(alloc, words)?;
            Ok(file.write(alloc, &put, number(place)?)?)
        }
        ("count", [width, block, index, count, times @ ..]) => {
            let times = match times {
                [] => 1,
                [times] => number(times)?,
                _ => return Err(Trouble::NoCall),
            };
            let block = (number(width)?, number(block)?);
            let counts = (number(count)?, times);
            put_counters(file, alloc, block, number(index)?, counts)
        }
        ("cut", [length]) => Ok(file.resize(number(length)?, PreallocateMode::None)?),
        _ => Err(Trouble::NoCall),
    }
}

// Makes a change of the file.
fn put_in(file: &mut MemStorage, alloc: Global, name: &str, words: &[&str]) -> Result<(), Trouble> {
    match name {
        "header" => put_header(file, alloc, words),
        "small" => put_small(file, alloc, words),
        "field" => put_fields(file, alloc, words),
        _ => put_at(file, alloc, name, words),
    }
}

impl<'a> Images<'a> {
    /// Changes the file, or the settings of storages.
    ///
    /// - `header NAME=VALUE ..`: a header, with these fields
    /// - `small NAME=VALUE ..`: a header, and the tables of a small image
    /// - `field NAME=VALUE ..`: fields of a header
    /// - `word PLACE VALUE ..`: raw entries of 64 bits
    /// - `row PLACE COUNT FIRST STEP`: raw entries of 64 bits, each greater by STEP than the one before
    /// - `put PLACE BYTES ..`: bytes
    /// - `count WIDTH BLOCK INDEX COUNT [TIMES]`: one refcount, or TIMES refcounts
    /// - `cut LENGTH`: the file's length
    /// - `align N`: the four alignments of storages
    /// - `fuse N`: the call of a storage that fails
    /// - `fixed`: the lengths of storages can't be set
    ///
    /// # Errors
    ///
    /// - `Trouble::NoCall` if the call is none of these.
    /// - `Trouble::Refused` if memory runs out.
    pub fn change(&mut self, alloc: Global, name: &str, words: &[&str]) -> Result<String, Trouble> {
        match (name, words) {
            ("align", [alignment]) => self.setting.alignment = size(alignment)?,
            ("fuse", [nth]) => self.setting.fuse = number(nth)?,
            ("fixed", []) => self.setting.is_fixed = true,
            _ => {
                let mut file = self.take_file(alloc)?;
                put_in(&mut file, alloc, name, words)?;
                self.file = Some(file);
            }
        }
        Ok(ok(alloc)?)
    }
}
