// Helpers for the texts of answers: words with one blank between them, and runs of equal bytes.
use std::alloc::{AllocError, Global};

/// Returns `ok`, the answer of a call that succeeds without a value.
///
/// # Errors
///
/// - `AllocError` if memory runs out.
pub fn ok(alloc: Global) -> Result<String, AllocError> {
    "ok".to_string(alloc)
}

// Appends the text of `count` equal bytes.
fn push_run(alloc: Global, text: &mut String, value: u8, count: u64) -> Result<(), AllocError> {
    if count == 0 {
        return Ok(());
    }
    let run = if count == 1 {
        format!(in alloc; "{value:02x}")?
    } else {
        format!(in alloc; "{value:02x}*{count}")?
    };
    joined(text, run.as_str())
}

/// Appends a word to a text, after a blank if the text isn't empty.
///
/// # Errors
///
/// - `AllocError` if memory runs out.
pub fn joined(text: &mut String, word: &str) -> Result<(), AllocError> {
    if !text.is_empty() {
        text.push_str(" ")?;
    }
    text.push_str(word)
}

/// Returns the text of leaks: `leaks`, and each cluster with its excess refcount, as `9:1`. Without leaks the text is `no leaks`.
///
/// # Errors
///
/// - `AllocError` if memory runs out.
pub fn leaks(alloc: Global, found: &[(u64, u64)]) -> Result<String, AllocError> {
    if found.is_empty() {
        return "no leaks".to_string(alloc);
    }
    let mut text = "leaks".to_string(alloc)?;
    for (cluster, excess_refcount) in found.iter() {
        let one = format!(in alloc; "{cluster}:{excess_refcount}")?;
        joined(&mut text, one.as_str())?;
    }
    Ok(text)
}

/// Returns bytes as text, in runs: `aa*3 00` for `aa aa aa 00`, and `-` for no bytes.
///
/// # Errors
///
/// - `AllocError` if memory runs out.
pub fn runs(alloc: Global, bytes: &[u8]) -> Result<String, AllocError> {
    if bytes.is_empty() {
        return "-".to_string(alloc);
    }
    let mut text = String::new(alloc);
    let mut value = 0u8;
    let mut count = 0u64;
    for byte in bytes.iter() {
        if count > 0 && *byte == value {
            count = count.saturating_add(1);
        } else {
            push_run(alloc, &mut text, value, count)?;
            value = *byte;
            count = 1;
        }
    }
    push_run(alloc, &mut text, value, count)?;
    Ok(text)
}
