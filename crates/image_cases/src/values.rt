// The numbers of a script: flags, offsets and sums of them.
use cases::{Trouble, number};

/// The COPIED flag of an L1 or L2 entry.
const COPIED: u64 = 1 << 63;

/// The flag of a compressed cluster in an L2 entry.
const COMPRESSED: u64 = 1 << 62;

/// The zero flag of an L2 entry.
const ZERO: u64 = 1;

/// The greatest host offset of an entry, with clusters of 512 bytes.
const GREATEST: u64 = 0x00ff_ffff_ffff_fe00;

// Parses one part of a sum.
fn part(word: &str) -> Result<u64, Trouble> {
    match word {
        "copied" => Ok(COPIED),
        "compressed" => Ok(COMPRESSED),
        "zero" => Ok(ZERO),
        "greatest" => Ok(GREATEST),
        _ => number(word),
    }
}

/// Parses a value: a number, a flag of raw entries, `A<<B` for A shifted left by B bits, or a sum of these, such as `copied+0xa00`.
///
/// # Errors
///
/// - `Trouble::NoCall` if the text isn't a value, or if the value doesn't fit in 64 bits.
pub fn value(word: &str) -> Result<u64, Trouble> {
    let mut sum = 0u64;
    for one in word.split("+") {
        let found = match one.split_once("<<") {
            Some((factor, bit)) => shifted(number(factor)?, number(bit)?)?,
            None => part(one)?,
        };
        sum = sum.checked_add(found).ok_or(Trouble::NoCall)?;
    }
    Ok(sum)
}

// Shifts a number left by `bit` bits.
fn shifted(factor: u64, bit: u64) -> Result<u64, Trouble> {
    if bit > 63 {
        return Err(Trouble::NoCall);
    }
    factor.checked_mul(1 << bit).ok_or(Trouble::NoCall)
}
