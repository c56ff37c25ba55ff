// Parses the words of a script's lines: numbers, bytes and preallocation modes.
use crate::layer::Trouble;
use imago_storage::PreallocateMode;
use std::alloc::Global;

/// The greatest number of bytes that one word can stand for: 16 MiB.
const MOST: u64 = 16_777_216;

/// Parses a number in decimal digits, or in hexadecimal digits after `0x`.
///
/// # Errors
///
/// - [`Trouble::NoCall`] if the word isn't a number, or the number doesn't fit `u64`.
pub fn number(word: &str) -> Result<u64, Trouble> {
    let parsed = match word.strip_prefix("0x") {
        Some(digits) => u64::from_str_radix(digits, 16),
        None => word.parse::<u64>(),
    };
    parsed.map_err(|_| Trouble::NoCall)
}

/// Parses a number of bytes in memory, or an index.
///
/// # Errors
///
/// The errors of [`number`].
pub fn size(word: &str) -> Result<usize, Trouble> {
    Ok(number(word)? as usize)
}

/// Parses a byte, which is two hexadecimal digits.
///
/// # Errors
///
/// - [`Trouble::NoCall`] if the word is anything else.
pub fn hex(word: &str) -> Result<u8, Trouble> {
    if word.len() != 2 || word.starts_with("+") {
        return Err(Trouble::NoCall);
    }
    u8::from_str_radix(word, 16).map_err(|_| Trouble::NoCall)
}

// Appends the bytes of one word: `0a`, or `0a*3` for three bytes.
fn push_word(bytes: &mut Vec<u8>, word: &str) -> Result<(), Trouble> {
    let (value, count) = match word.split_once("*") {
        Some((value, count)) => (hex(value)?, number(count)?),
        None => (hex(word)?, 1),
    };
    if count > MOST || bytes.len() as u64 > MOST {
        return Err(Trouble::NoCall);
    }
    let end = bytes.len() as u64 + count;
    Ok(bytes.resize(end as usize, value)?)
}

/// Parses bytes: the word `0a` is one byte, and `0a*3` is three, in hexadecimal digits.
///
/// # Errors
///
/// - [`Trouble::NoCall`] if a word has another form, stands for more than 16 MiB, or follows more than 16 MiB.
/// - [`Trouble::Refused`] if memory runs out.
pub fn bytes(alloc: Global, words: &[&str]) -> Result<Vec<u8>, Trouble> {
    let mut bytes = Vec::new(alloc);
    for word in words.iter() {
        push_word(&mut bytes, word)?;
    }
    Ok(bytes)
}

/// Parses the preallocation mode of a storage: `none`, `zero`, `allocate` or `data`.
///
/// # Errors
///
/// - [`Trouble::NoCall`] if the word is anything else.
pub fn mode(word: &str) -> Result<PreallocateMode, Trouble> {
    match word {
        "none" => Ok(PreallocateMode::None),
        "zero" => Ok(PreallocateMode::Zero),
        "allocate" => Ok(PreallocateMode::Allocate),
        "data" => Ok(PreallocateMode::WriteData),
        _ => Err(Trouble::NoCall),
    }
}

/// Returns the word of a preallocation mode.
pub fn mode_word(mode: PreallocateMode) -> &'static str {
    match mode {
        PreallocateMode::None => "none",
        PreallocateMode::Zero => "zero",
        PreallocateMode::Allocate => "allocate",
        PreallocateMode::WriteData => "data",
    }
}
