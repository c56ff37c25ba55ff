// Lists of calls on a disk in a script. One call of `drive` makes the whole list. A mapping stays prepared between the calls of a list.
use crate::calls::{MOST, drive_all};
use crate::texts::{deep, prepared_at, shallow};
use crate::words::{mode_of, only, run_of};
use cases::{Trouble, bytes, joined, leaks, number, ok, runs};
use imago_access::FormatAccess;
use imago_storage::Fault;
use qimg_calls::{Answer, Call, RepairsLeaks};
use std::alloc::Global;

// Returns a read of at most `MOST` bytes.
fn read_of(offset: u64, n: u64) -> Result<Call, Trouble> {
    if n > MOST {
        return Err(Trouble::NoCall);
    }
    Ok(Call::Read {
        offset,
        length: n as usize,
    })
}

// Parses a call of a range: `CALL OFFSET N`.
fn ranged(word: &str, offset: u64, length: u64) -> Result<Call, Trouble> {
    match word {
        "read" => read_of(offset, length),
        "map" => Ok(Call::GetMapping { offset, length }),
        "shallow" => Ok(Call::GetShallowMapping { offset, length }),
        "zeroes" => Ok(Call::WriteZeroes { offset, length }),
        "to_zero" => Ok(Call::DiscardToZero { offset, length }),
        "to_any" => Ok(Call::DiscardToAny { offset, length }),
        "to_backing" => Ok(Call::DiscardToBacking { offset, length }),
        _ => Err(Trouble::NoCall),
    }
}

// Parses `prepare` or `ensure`, after the offset.
fn mapped(word: &str, offset: u64, words: &[&str]) -> Result<Call, Trouble> {
    let (length, overwrite) = run_of(words)?;
    match word {
        "prepare" => Ok(Call::PrepareDataMapping {
            offset,
            length,
            overwrite,
        }),
        _ => Ok(Call::EnsureDataMapping {
            offset,
            length,
            overwrite,
        }),
    }
}

// Parses a write to a mapped run, after the guest offset: the offset in the storage, and the bytes.
fn written_mapped(alloc: Global, guest: u64, words: &[&str]) -> Result<Call, Trouble> {
    let [place, rest @ ..] = words else {
        return Err(Trouble::NoCall);
    };
    Ok(Call::WriteMapped {
        guest,
        place: number(place)?,
        bytes: bytes(alloc, rest)?,
    })
}

// Parses a call whose first argument is a number.
fn call_at(alloc: Global, word: &str, first: u64, words: &[&str]) -> Result<Call, Trouble> {
    match word {
        "write" => Ok(Call::Write {
            offset: first,
            bytes: bytes(alloc, words)?,
        }),
        "write_mapped" => written_mapped(alloc, first, words),
        "prepare" | "ensure" => mapped(word, first, words),
        "grow" => Ok(Call::ResizeGrow {
            size: first,
            mode: mode_of(only(words)?)?,
        }),
        "shrink" if words.is_empty() => Ok(Call::ResizeShrink { size: first }),
        _ => ranged(word, first, number(only(words)?)?),
    }
}

// Parses a call.
fn call_of(alloc: Global, words: &[&str]) -> Result<Call, Trouble> {
    match words {
        ["commit"] => Ok(Call::CommitDataMapping),
        ["cancel"] => Ok(Call::Cancel),
        ["flush"] => Ok(Call::Flush),
        ["sync"] => Ok(Call::Sync),
        ["repair"] => Ok(Call::RepairLeaks),
        ["commit_down"] => Ok(Call::CommitDown),
        [word, first, rest @ ..] => call_at(alloc, word, number(first)?, rest),
        _ => Err(Trouble::NoCall),
    }
}

/// Parses calls with `;` between them.
///
/// # Errors
///
/// - [`Trouble::NoCall`] if one of them isn't a call.
/// - [`Trouble::Refused`] if memory runs out.
pub fn calls_of(alloc: Global, words: &[&str]) -> Result<Vec<Call>, Trouble> {
    let mut calls = Vec::new(alloc);
    if words.is_empty() {
        return Ok(calls);
    }
    for call in words.split(|word| *word == ";") {
        calls.push(call_of(alloc, call)?)?;
    }
    Ok(calls)
}

// Returns the text of an answer. If a call fails with `Fault::Memory`, this is the answer of the whole list.
fn told(alloc: Global, answer: &Answer) -> Result<String, Trouble> {
    match answer {
        Answer::Done => Ok(ok(alloc)?),
        Answer::Bytes(bytes) => Ok(runs(alloc, bytes)?),
        Answer::Mapped(mapping, length) => Ok(deep(alloc, *mapping, *length)?),
        Answer::Shallow(mapping, length) => Ok(shallow(alloc, *mapping, *length)?),
        Answer::Prepared {
            storage,
            offset,
            length,
            state,
        } => Ok(prepared_at(alloc, (*storage, *offset, *length), *state)?),
        Answer::Leaks(found) => Ok(leaks(alloc, found)?),
        Answer::Refused(Fault::Memory) => Err(Trouble::Refused(Fault::Memory)),
        Answer::Refused(fault) => Ok(fault.to_string(alloc)?),
    }
}

/// Returns the texts of answers, with `/` between them, or `none` if the list is empty.
///
/// # Errors
///
/// - [`Trouble::Refused`] if memory runs out, here or in a call.
pub fn told_all(alloc: Global, answers: &[Answer]) -> Result<String, Trouble> {
    if answers.is_empty() {
        return Ok("none".to_string(alloc)?);
    }
    let mut text = String::new(alloc);
    for answer in answers.iter() {
        if !text.is_empty() {
            joined(&mut text, "/")?;
        }
        let answer = told(alloc, answer)?;
        joined(&mut text, answer.as_str())?;
    }
    Ok(text)
}

/// Makes a list of calls, with the word `;` between them. Returns their answers, with `/` between them.
pub fn list<D: RepairsLeaks>(
    alloc: Global,
    disk: &mut FormatAccess<D>,
    words: &[&str],
) -> Result<String, Trouble> {
    let calls = calls_of(alloc, words)?;
    let answers = drive_all(alloc, disk, &calls)?;
    told_all(alloc, &answers)
}
