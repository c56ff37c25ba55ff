// Splits a text at a byte.
ghost use Rattle.std.specs.Prelude.{◌≡◌, ◌∷◌, [], ◌+◌, ◌<◌, length, IfSome, MatchOption};
ghost use Rattle.qimg_chain.specs.ScriptWords.{parts_at};

use memchr::memchr;

/// Returns the text before the first occurrence of a byte, and the text after it. Returns `None` if the byte doesn't occur.
pub(super) fn cut(text: &[u8], byte: u8) -> Option<(&[u8], &[u8])>
    ensures parts { MatchOption result (parts_at byte text.now ≡ text.now ∷ [])
        (λ cut. parts_at byte text.now ≡ cut.0.now ∷ parts_at byte cut.1.now) }
    ensures shorter { IfSome result (λ cut. length cut.0.now + length cut.1.now < length text.now) }
{
    match memchr(byte, text) {
        Some(end) => Some((text.split_at(end).0, text.split_at(end + 1).1)),
        None => None,
    }
}
