// Parses the arguments of a line of a script.
ghost use Rattle.std.specs.Prelude.{◌≡◌, Some, IfOk, IfErr};
ghost use Rattle.qimg_chain.specs.ScriptWords.{NoBytes, bytes_of, mode_of, number_of};

use super::bytes::Bytes;
use super::digits::decode;
use imago_access::PreallocateMode;
use imago_storage::Fault;
use std::alloc::Global;

/// The largest number of digits in a number.
const MOST_DIGITS: usize = 20;

/// Returns the number that an argument writes in decimal, if any.
pub(super) fn number(word: &[u8]) -> Option<u64>
    ensures { result ≡ number_of word.now }
{
    if word.len() > MOST_DIGITS {
        return None;
    }
    if !word.iter().all(|b| b.is_ascii_digit()) {
        return None;
    }
    match str::from_utf8(word) {
        Ok(digits) => match digits.parse::<u64>() {
            Ok(number) => Some(number),
            Err(_) => None,
        },
        Err(_) => None,
    }
}

/// Decodes an argument of pairs of digits.
///
/// # Errors
///
/// - `Fault::BadCommand` if the argument isn't at least one pair of digits.
/// - `Fault::Memory` if memory runs out.
#[tactic(auto, unfolding(crate::specs::ScriptWords::bytes_of))]
pub(super) fn bytes(alloc: Global, word: &[u8]) -> Result<Bytes, Fault>
    ensures ok { IfOk result (λ bytes. bytes_of word.now ≡ Some bytes) }
    ensures err { IfErr result (NoBytes word.now) }
{
    if word.is_empty() || word.len() % 2 != 0 {
        return Err(Fault::BadCommand);
    }
    let mut bytes = vec![in alloc; 0u8; word.len() / 2]?;
    if !decode(word, &mut bytes) {
        return Err(Fault::BadCommand);
    }
    Ok(Bytes::from(bytes))
}

/// Returns the mode of growth that an argument stands for, if any.
#[tactic(auto, unfolding(crate::specs::ScriptWords::mode_of))]
pub(super) fn mode(word: &[u8]) -> Option<PreallocateMode>
    ensures { result ≡ mode_of word.now }
{
    if word == b"none".as_slice() {
        return Some(PreallocateMode::None);
    }
    if word == b"zero".as_slice() {
        return Some(PreallocateMode::Zero);
    }
    if word == b"format".as_slice() {
        return Some(PreallocateMode::FormatAllocate);
    }
    if word == b"full".as_slice() {
        return Some(PreallocateMode::FullAllocate);
    }
    if word == b"data".as_slice() {
        return Some(PreallocateMode::WriteData);
    }
    None
}
