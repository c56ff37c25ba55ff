// Bytes as pairs of hexadecimal digits.
ghost use Rattle.std.specs.Prelude.{◌≡◌, ◌*◌, ◌<◌, ◌≤◌, None, Ok, length, slice_index, IsTrue, IsFalse, MatchOption};
ghost use Rattle.std.specs.Result.{result_ok};
ghost use Rattle.hex.specs.Hex.{decode_of, encode_lower, hex_digit_value, lower_digits};

/// Returns the value of a digit of either case, or at least 16 for any other byte. It has no branch, so that several digits can be read at
/// a time.
#[inline]
fn value(digit: u8) -> u8
    ensures { MatchOption (hex_digit_value digit) (16 ≤ result) (λ value. result ≡ value) }
{
    // The digits are shifted to the end of the byte range, and become 0 to 9. All other bytes become 16 or more.
    let number = digit
        .wrapping_add(255 - b'9')
        .saturating_sub(6)
        .wrapping_sub(240);
    // Bit 5 marks lower case. Without this bit the letters are one range, which is shifted so that `A` becomes 10.
    let letter = (digit - digit / 32 % 2 * 32)
        .wrapping_sub(b'A')
        .saturating_add(10);
    number.min(letter)
}

/// Decodes pairs of digits of either case into `out`. Returns true if all are digits; otherwise the contents of `out` are unspecified. No
/// digit decides how the next is read, so that several can be read at a time.
pub(super) fn decode(word: &[u8], out: &mut [u8]) -> bool
    requires { length word.now ≡ 2 * length out.old }
    ensures digits { IsTrue result → decode_of word.now ≡ Ok out.new }
    ensures other { IsFalse result → result_ok (decode_of word.now) ≡ None }
{
    let mut all = true;
    // With chunks the compiler loads many pairs at a time. With indices it would load the digits one by one.
    for (i, pair) in word.chunks_exact(2).enumerate() {
        let high = value(pair[0]);
        let low = value(pair[1]);
        all = all & (high < 16) & (low < 16);
        out[i] = high % 16 * 16 + low % 16;
    }
    all
}

/// Returns the digit for a value, in lower case.
#[inline]
fn digit(value: u8) -> u8
    requires { value < 16 }
    ensures { result ≡ slice_index lower_digits value }
{
    if value < 10 {
        b'0' + value
    } else {
        b'a' + (value - 10)
    }
}

/// Encodes bytes as digits into `out`.
pub(super) fn encode(bytes: &[u8], out: &mut [u8])
    requires { length out.old ≡ 2 * length bytes.now }
    ensures { out.new ≡ encode_lower bytes.now }
{
    for i in 0..bytes.len() {
        let byte = bytes[i];
        out[2 * i] = digit(byte / 16);
        out[2 * i + 1] = digit(byte % 16);
    }
}
