// Splits an input of bytes into lines.
ghost use Rattle.std.specs.Prelude.{◌≡◌, ◌∷◌, [], ◌<◌, length, IfSome, MatchOption};
ghost use Rattle.std.specs.Str.Lines.{lines, strip_carriage_return};

use super::parts::cut;

/// Returns the first line of an input, without its end, and the rest of the input. Returns `None` if the input is empty.
///
/// A line ends with a line feed. One carriage return directly before the line feed belongs to the end. The last line may end without a line
/// feed. Then it keeps a carriage return.
pub fn split_line(input: &[u8]) -> Option<(&[u8], &[u8])>
    ensures lines { MatchOption result (lines input.now ≡ []) (λ split. lines input.now ≡ split.0.now ∷ lines split.1.now) }
    ensures shorter { IfSome result (λ split. length split.1.now < length input.now) }
{
    if input.is_empty() {
        return None;
    }
    match cut(input, b'\n') {
        Some((line, rest)) => Some((without_return(line), rest)),
        None => Some(input.split_at(input.len())),
    }
}

/// Removes one carriage return from the end of a line, if it has one.
pub(crate) fn without_return(line: &[u8]) -> &[u8]
    ensures { result.now ≡ strip_carriage_return line.now }
{
    if line.is_empty() || line[line.len() - 1] != b'\r' {
        return line;
    }
    &line[..line.len() - 1]
}
