// Splits a line at its blanks, and parses its numbers.
ghost use Rattle.std.specs.Str.{is_utf8};
ghost use Rattle.imago_storage.specs.declared.fault.Fault.TheVariants.{DamagedDescriptor};
ghost use Rattle.std.specs.Prelude.{IfOk, IfErr, true, false, ◌≡◌, ◌≤◌, ◌<◌, ◌==◌, length, slice_index};
ghost use Rattle.std.specs.List.{position_or_len};
ghost use Rattle.imago_formats.specs.Descriptor.{text_of};
ghost use Rattle.imago_formats.specs.DescriptorWords.{begins_with, decimal, is_blank, is_word, past_blanks, past_word, word};

use imago_storage::Fault;

/// Returns the position of the first `byte` in a text, or the text's length.
pub(crate) fn byte_at(text: &[u8], byte: u8) -> usize
    ensures value { result ≡ position_or_len (λ b. b == byte) text.now }
    ensures within { result ≤ length text.now }
{
    text.iter().position(|b| *b == byte).unwrap_or(text.len())
}

/// Returns the bytes before the first 0.
pub(crate) fn before_zero(bytes: &[u8]) -> &[u8]
    ensures { result.now ≡ text_of bytes.now }
{
    bytes.split_at(byte_at(bytes, 0)).0
}

/// Returns true if the text begins with the byte, which isn't 0.
pub(crate) fn begins_with(byte: u8, text: &[u8]) -> bool
    ensures { 0 < byte → result ≡ begins_with byte text.now }
{
    match text.first() {
        Some(first) => *first == byte,
        None => false,
    }
}

/// Returns true if the text begins with a blank.
pub(crate) fn begins_blank(text: &[u8]) -> bool
    ensures { result ≡ is_blank (slice_index text.now 0) }
{
    begins_with(b' ', text) || begins_with(b'\t', text)
}

/// Returns the text without the blanks at its start.
pub(crate) fn past_blanks(text: &[u8]) -> &[u8]
    ensures { result.now ≡ past_blanks text.now }
{
    let start = text
        .iter()
        .position(|b| !is_blank(*b))
        .unwrap_or(text.len());
    text.split_at(start).1
}

/// Splits off the text up to the first blank. Returns it, and the text after the blanks that follow.
pub(crate) fn split_word(text: &[u8]) -> (&[u8], &[u8])
    ensures first { result.0.now ≡ word text.now }
    ensures remainder { result.1.now ≡ past_word text.now }
{
    let end = text.iter().position(|b| is_blank(*b)).unwrap_or(text.len());
    let (first, rest) = text.split_at(end);
    (first, past_blanks(rest))
}

/// Returns true if the text is `one`, with nothing but blanks after it.
pub(crate) fn is_word(one: &[u8], text: &[u8]) -> bool
    ensures { result ≡ is_word one.now text.now }
{
    let (first, rest) = split_word(text);
    first == one && rest.is_empty()
}

/// Returns the bytes as text.
#[tactic(auto, using(crate::proofs::WordLemmas::not_text, crate::proofs::WordLemmas::is_text))]
pub(crate) fn text_of(bytes: &[u8]) -> Result<&str, Fault>
    ensures ok { IfOk result (λ text. (text.now ≡ bytes.now) × (is_utf8 bytes.now ≡ true)) }
    ensures err { IfErr result (λ e. (e ≡ DamagedDescriptor) × (is_utf8 bytes.now ≡ false)) }
{
    match str::from_utf8(bytes) {
        Ok(text) => Ok(text),
        Err(_) => Err(Fault::DamagedDescriptor),
    }
}

/// Parses a decimal number below 2^64.
pub(crate) fn decimal(digits: &[u8]) -> Result<u64, Fault>
    ensures { result ≡ decimal digits.now }
{
    if !digits.iter().all(|b| b.is_ascii_digit()) {
        return Err(Fault::DamagedDescriptor);
    }
    match text_of(digits)?.parse::<u64>() {
        Ok(number) => Ok(number),
        Err(_) => Err(Fault::DamagedDescriptor),
    }
}

// Returns true if the byte is a space or a tab.
fn is_blank(b: u8) -> bool
    ensures { result ≡ is_blank b }
{
    b == b' ' || b == b'\t'
}
