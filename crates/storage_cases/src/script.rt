// Parses the calls of a script's lines.
use crate::calls::{Call, Kind};
use cases::{Trouble, bytes, mode, number};
use std::alloc::Global;

fn kind(word: &str) -> Result<Kind, Trouble> {
    match word {
        "zeroes" => Ok(Kind::Zeroes),
        "allocated" => Ok(Kind::Allocated),
        "full" => Ok(Kind::Full),
        "discard" => Ok(Kind::Discard),
        "pure_zeroes" => Ok(Kind::PureZeroes),
        "pure_allocated" => Ok(Kind::PureAllocated),
        "pure_discard" => Ok(Kind::PureDiscard),
        _ => Err(Trouble::NoCall),
    }
}

// Parses a read, or a call that has a range and nothing else.
fn range_call(word: &str, offset: u64, n: u64) -> Result<Call, Trouble> {
    match word {
        "read" => Ok(Call::Read(offset, n)),
        "read_here" => Ok(Call::ReadHere(offset, n)),
        "pure_read" => Ok(Call::PureRead(offset, n)),
        _ => Ok(Call::Range(kind(word)?, offset, n)),
    }
}

// Parses a call without bytes.
fn short_call(words: &[&str]) -> Result<Call, Trouble> {
    match words {
        ["aligns"] => Ok(Call::Aligns),
        ["size"] => Ok(Call::Size),
        ["flush"] => Ok(Call::Flush),
        ["sync"] => Ok(Call::Sync),
        ["invalidate"] => Ok(Call::Invalidate),
        ["filename"] => Ok(Call::Filename),
        ["resize", size, word] => Ok(Call::Resize(number(size)?, mode(word)?)),
        [word, offset, n] => range_call(word, number(offset)?, number(n)?),
        _ => Err(Trouble::NoCall),
    }
}

/// Parses a call.
pub fn call(alloc: Global, words: &[&str]) -> Result<Call, Trouble> {
    match words {
        ["write", offset, rest @ ..] => Ok(Call::Write(number(offset)?, bytes(alloc, rest)?)),
        ["try_write", offset, rest @ ..] => {
            Ok(Call::TryWrite(number(offset)?, bytes(alloc, rest)?))
        }
        ["pure_write", offset, rest @ ..] => {
            Ok(Call::PureWrite(number(offset)?, bytes(alloc, rest)?))
        }
        ["resolve", name] => Ok(Call::Resolve(name.to_string(alloc)?)),
        _ => short_call(words),
    }
}
