// Runs the lines of a script that make or decode a single entry of a table.
ghost use Rattle.std.specs.Prelude.{◌≤◌, ◌<◌, ◌^◌, ◌-◌, ◌≡◌};

use crate::answer::{Answer, answered};
use cases::{Trouble, number, size};
use qcow2_metadata::words::{block_offset_in, offset_in, raw_entry_at};
use qcow2_metadata::{Header, L1Entry, L2Entry, RefTableEntry, TableEntry};
use qcow2_types::HostOffset;
use std::alloc::Global;

fn place_or_none(place: Option<HostOffset>) -> Answer {
    match place {
        Some(place) => Answer::Number(place.0),
        None => Answer::None,
    }
}

// Builds an L1 entry: a new one, or one decoded with this header.
fn l1_entry(header: &Header, how: &str, word: &str) -> Result<L1Entry, Trouble> {
    let number = number(word)?;
    match how {
        "plain" => Ok(L1Entry::try_from_plain(number, header)?),
        "naming" if number < 1 << 63 => Ok(L1Entry::naming(HostOffset(number))),
        "empty" => Ok(L1Entry::empty()),
        _ => Err(Trouble::NoCall),
    }
}

fn reftable_entry(header: &Header, how: &str, word: &str) -> Result<RefTableEntry, Trouble> {
    let number = number(word)?;
    match how {
        "plain" => Ok(RefTableEntry::try_from_plain(number, header)?),
        "naming" => Ok(RefTableEntry::naming(HostOffset(number))),
        "empty" => Ok(RefTableEntry::empty()),
        _ => Err(Trouble::NoCall),
    }
}

// Builds an L2 entry with an offset.
fn placed_l2_entry(how: &str, place: u64) -> Result<L2Entry, Trouble> {
    if place >= (1 << 63) - 1 {
        return Err(Trouble::NoCall);
    }
    match how {
        "naming" => Ok(L2Entry::naming(HostOffset(place))),
        "zero_copied" => Ok(L2Entry::zero_at(HostOffset(place), true)),
        "zero_shared" => Ok(L2Entry::zero_at(HostOffset(place), false)),
        "unmarked" => Ok(L2Entry::naming(HostOffset(place)).without_copied()),
        _ => Err(Trouble::NoCall),
    }
}

fn l2_entry(header: &Header, how: &str, word: &str) -> Result<L2Entry, Trouble> {
    let number = number(word)?;
    match how {
        "plain" => Ok(L2Entry::try_from_plain(number, header)?),
        "plain_unmarked" => Ok(L2Entry::try_from_plain(number, header)?.without_copied()),
        "zero" => Ok(L2Entry::zero()),
        "empty" => Ok(L2Entry::empty()),
        _ => placed_l2_entry(how, number),
    }
}

fn l1_part(entry: L1Entry, word: &str) -> Result<Answer, Trouble> {
    match word {
        "word" => Ok(Answer::Word(entry.to_plain())),
        "table" => Ok(place_or_none(entry.l2_offset())),
        "copied" => Ok(Answer::Flag(entry.is_copied())),
        "reserved" => Ok(Answer::Word(entry.reserved_bits())),
        _ => Err(Trouble::NoCall),
    }
}

fn reftable_part(entry: RefTableEntry, word: &str) -> Result<Answer, Trouble> {
    match word {
        "word" => Ok(Answer::Word(entry.to_plain())),
        "block" => Ok(place_or_none(entry.refblock_offset())),
        "reserved" => Ok(Answer::Word(entry.reserved_bits())),
        _ => Err(Trouble::NoCall),
    }
}

// Returns the range of a compressed entry.
fn range(header: &Header, entry: L2Entry) -> Answer {
    match entry.compressed_range(header.cluster_bits()) {
        Some((place, length)) => Answer::Range(place.0, length),
        None => Answer::None,
    }
}

fn l2_part(header: &Header, entry: L2Entry, word: &str) -> Result<Answer, Trouble> {
    match word {
        "word" => Ok(Answer::Word(entry.to_plain())),
        "cluster" => Ok(place_or_none(entry.cluster_offset(false))),
        "external_cluster" => Ok(place_or_none(entry.cluster_offset(true))),
        "compressed" => Ok(Answer::Flag(entry.is_compressed())),
        "copied" => Ok(Answer::Flag(entry.is_copied())),
        "zero" => Ok(Answer::Flag(entry.is_zero())),
        "reserved" => Ok(Answer::Word(entry.reserved_bits())),
        "descriptor" => Ok(Answer::Word(entry.compressed_descriptor())),
        "range" => Ok(range(header, entry)),
        _ => Err(Trouble::NoCall),
    }
}

/// Returns a part of an entry: `l1 PART HOW NUMBER`, and likewise for `l2` and `reftable`.
pub fn entry(alloc: Global, header: &Header, words: &[&str]) -> Result<String, Trouble> {
    match words {
        ["l1", part, how, raw_entry] => answered(
            alloc,
            l1_part(l1_entry(header, how, raw_entry)?, part),
        ),
        ["l2", part, how, raw_entry] => {
            answered(
                alloc,
                l2_part(header, l2_entry(header, how, raw_entry)?, part),
            )
        }
        ["reftable", part, how, raw_entry] => {
            answered(
                alloc,
                reftable_part(reftable_entry(header, how, raw_entry)?, part),
            )
        }
        _ => Err(Trouble::NoCall),
    }
}

// Decodes the eight bytes at an offset.
fn number_at(bytes: &[u8], at: usize) -> Result<Answer, Trouble> {
    if at > bytes.len() {
        return Err(Trouble::NoCall);
    }
    Ok(Answer::Word(raw_entry_at(bytes, at)))
}

/// Returns a number in the bytes of the file, or the offset in a raw entry.
pub fn plain(alloc: Global, words: &[&str], file: &[u8]) -> Result<String, Trouble> {
    match words {
        ["word_at", at] => answered(alloc, number_at(file, size(at)?)),
        ["offset_in", raw_entry] => answered(
            alloc,
            Ok(Answer::Word(offset_in(number(raw_entry)?))),
        ),
        ["block_offset_in", raw_entry] => {
            answered(alloc, Ok(Answer::Word(block_offset_in(number(raw_entry)?))))
        }
        _ => Err(Trouble::NoCall),
    }
}
