// The answers to the lines of a script.
ghost use Rattle.std.specs.Prelude.{◌≡◌, ◌++◌, ◌∷◌, [], IfOk, string_bytes};
ghost use Rattle.hex.specs.Hex.{encode_lower};
ghost use Rattle.qimg_chain.specs.ScriptAnswers.{answer_text, error_text};

use super::bytes::Bytes;
use super::digits::encode;
use super::finding::finding_number;
use imago_storage::Fault;
use qimg_core::check::CheckFault;
use std::alloc::{AllocError, Global};

/// The answer to a line of a script.
#[derive(Debug, Drop)]
pub enum Answer {
    /// A number of bytes, or of clusters.
    Number(u64),
    /// Bytes that were read.
    Bytes(Bytes),
    /// The line succeeded.
    Done,
    /// The line failed with this fault.
    Refused(Fault),
    /// The image isn't consistent, or couldn't be checked.
    Unsound(CheckFault),
}

impl Answer {
    /// Returns the text of the answer, without a line feed.
    ///
    /// A number is in decimal, bytes are two lower-case hexadecimal digits each, and a success is `ok`. An error is `error N`, with the
    /// number of the fault. The call fails with `AllocError` if memory runs out.
    pub fn to_text(&self, alloc: Global) -> Result<String, AllocError>
        ensures { IfOk result (λ text. string_bytes text ≡ answer_text self.now) }
    {
        match self {
            Answer::Number(number) => format!(in alloc; "{number}"),
            Answer::Bytes(bytes) => hex::encode(alloc, bytes.as_slice()),
            Answer::Done => String::from_str(alloc, "ok"),
            Answer::Refused(fault) => error_text(alloc, fault.number()),
            Answer::Unsound(fault) => error_text(alloc, finding_number(fault)),
        }
    }

    /// Returns the text of the answer and a line feed, as bytes. The call fails with `AllocError` if memory runs out.
    pub fn to_line(&self, alloc: Global) -> Result<Vec<u8>, AllocError>
        ensures { IfOk result (λ line. line.items ≡ answer_text self.now ++ 10 ∷ []) }
    {
        if let Answer::Bytes(bytes) = self {
            return digits_line(alloc, bytes.as_slice());
        }
        let mut line = self.to_text(alloc)?.into_bytes();
        line.push(b'\n')?;
        Ok(line)
    }
}

/// Returns the line for bytes that were read. The digits are written directly into the line.
fn digits_line(alloc: Global, bytes: &[u8]) -> Result<Vec<u8>, AllocError>
    ensures { IfOk result (λ line. line.items ≡ encode_lower bytes.now ++ 10 ∷ []) }
{
    let count = match bytes.len().checked_mul(2) {
        Some(count) if count < usize::MAX => count,
        _ => return Err(AllocError),
    };
    let mut line = Vec::with_capacity(alloc, count + 1)?;
    line.resize(count, 0u8)?;
    encode(bytes, &mut line);
    line.push(b'\n')?;
    Ok(line)
}

/// Returns the text of an error.
fn error_text(alloc: Global, number: u8) -> Result<String, AllocError>
    ensures { IfOk result (λ text. string_bytes text ≡ error_text number) }
{
    format!(in alloc; "error {number}")
}
