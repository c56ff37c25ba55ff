//! Test cases as scripts: each line is a call and the answer that it must have.
//!
//! A program implements [`Layer`] to give its words a meaning. [`run`] reads the scripts, makes each call, and prints each wrong answer.
//! `docs/CASES.md` describes the format. Terms are explained in docs/GLOSSARY.md.
#![tactic(auto)]

mod layer;
mod running;
mod script;
mod shaped;
mod texts;
mod words;

pub use layer::{Layer, Trouble};
pub use running::run;
pub use shaped::{Alignments, Asked, Notes, Shaped, is_alignment, told};
pub use texts::{joined, leaks, ok, runs};
pub use words::{bytes, hex, mode, mode_word, number, size};
