//! Scripts of the program: their lines, and the texts that answer them.
//!
//! A line is a command and its arguments, with exactly one space between two of them. A number is decimal, has 1 to 20 digits, and is below
//! 2^64. Bytes are pairs of hexadecimal digits of either case, at least one pair. A mode is `none`, `zero`, `format`, `full` or `data`.
//!
//! | Line | Answer |
//! |---|---|
//! | `size` | a number |
//! | `read OFFSET LENGTH`, `plain OFFSET LENGTH` | bytes |
//! | `write OFFSET BYTES`, `zero OFFSET LENGTH` | `ok` |
//! | `discard OFFSET LENGTH`, `discard-any OFFSET LENGTH`, `discard-backing OFFSET LENGTH` | `ok` |
//! | `grow SIZE MODE`, `shrink SIZE` | `ok` |
//! | `flush`, `save`, `commit` | `ok` |
//! | `check`, `repair` | a number |
//!
//! If a line fails, the answer is `error N`, with the number of its fault.

mod answer;
mod bytes;
mod digits;
mod finding;
mod input;
mod line;
mod parts;
mod words;

pub use answer::Answer;
pub use bytes::Bytes;
pub use input::split_line;
pub(crate) use input::without_return;
pub use line::{LONGEST_LINE, Line, parse_line};
