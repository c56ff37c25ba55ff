// The answers of a script's calls, as values and as texts.
use cases::{Trouble, ok};
use std::alloc::{AllocError, Global};

/// An answer that isn't a text of its own.
#[derive(Clone, Copy)]
pub enum Answer {
    Done,
    None,
    /// A number, printed in decimal digits.
    Number(u64),
    /// A raw entry of a table, printed in hexadecimal digits.
    Word(u64),
    Flag(bool),
    /// Clusters to free: the first cluster, and the count.
    Clusters(u64, u64),
    Text(&'static str),
    /// A range of bytes: the offset, and the length.
    Range(u64, u64),
}

impl Answer {
    /// Converts a number, if any.
    pub fn number_or_none(number: Option<u64>) -> Answer {
        match number {
            Some(number) => Answer::Number(number),
            None => Answer::None,
        }
    }
}

/// Returns the text of an answer, as scripts have it.
pub fn text(alloc: Global, answer: Answer) -> Result<String, AllocError> {
    match answer {
        Answer::Done => ok(alloc),
        Answer::None => "none".to_string(alloc),
        Answer::Number(number) => number.to_string(alloc),
        Answer::Word(word) => format!(in alloc; "0x{word:x}"),
        Answer::Flag(flag) => flag.to_string(alloc),
        Answer::Clusters(first, count) => format!(in alloc; "from {first} count {count}"),
        Answer::Text(text) => text.to_string(alloc),
        Answer::Range(place, length) => format!(in alloc; "at {place} length {length}"),
    }
}

/// Returns the text of an answer. An error is passed on.
pub fn answered(alloc: Global, answer: Result<Answer, Trouble>) -> Result<String, Trouble> {
    Ok(text(alloc, answer?)?)
}
