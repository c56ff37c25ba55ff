// The lines of a script, and their parser.
ghost use Rattle.std.specs.Prelude.{◌≡◌, ◌∷◌, [], Some, IfOk, IfErr};
ghost use Rattle.qimg_chain.specs.Script.{IsLine, NotLine};
ghost use Rattle.qimg_chain.specs.ScriptWords.{words_of};
ghost use Rattle.qimg_chain.specs.ScriptParts.{NotSaid, line_of, lone_line, mode_or_range_line, range_line, shrink_line};

use super::bytes::Bytes;
use super::parts::cut;
use super::words::{bytes, mode, number};
use imago_access::PreallocateMode;
use imago_storage::Fault;
use std::alloc::Global;

/// The largest number of bytes in a line, without its end.
pub const LONGEST_LINE: usize = 65_536;

/// A line of a script. Offsets, lengths and sizes are in bytes.
#[derive(Debug, Drop)]
pub enum Line {
    /// `size`: returns the size of the disk.
    Size,
    /// `read OFFSET LENGTH`: reads a range of the disk.
    Read { offset: u64, length: u64 },
    /// `write OFFSET BYTES`: writes bytes.
    Write { offset: u64, bytes: Bytes },
    /// `zero OFFSET LENGTH`: writes zeroes.
    Zero { offset: u64, length: u64 },
    /// `discard OFFSET LENGTH`: discards a range, which then reads as zeroes.
    Discard { offset: u64, length: u64 },
    /// `discard-any OFFSET LENGTH`: discards a range, which may then read as anything.
    DiscardAny { offset: u64, length: u64 },
    /// `discard-backing OFFSET LENGTH`: discards a range, which may then read as in the backing file.
    DiscardBacking { offset: u64, length: u64 },
    /// `grow SIZE MODE`: makes the disk longer.
    Grow { size: u64, mode: PreallocateMode },
    /// `shrink SIZE`: makes the disk shorter.
    Shrink { size: u64 },
    /// `flush`: writes dirty data (what is in memory and not yet in the file).
    Flush,
    /// `check`: checks the top file, and returns how many clusters it leaks.
    Check,
    /// `plain OFFSET LENGTH`: reads a range from the files themselves.
    Plain { offset: u64, length: u64 },
    /// `save`: flushes, and keeps the bytes of the top file. If the second layer is writable, it keeps those of its file, too.
    Save,
    /// `repair`: repairs the leaks of the top image, and returns how many clusters leaked.
    Repair,
    /// `commit`: commits the data of the top image to the layer below it.
    Commit,
}

/// Parses a line, without its end.
///
/// # Errors
///
/// - `Fault::BadCommand` if the text isn't a command with its arguments, or has more than `LONGEST_LINE` bytes.
/// - `Fault::Memory` only for the bytes of a `write` line that isn't too long, with a number and then pairs of characters. The memory is
///   allocated before the digits are read, so the pairs may have other characters, too.
pub fn parse_line(alloc: Global, text: &[u8]) -> Result<Line, Fault>
    ensures ok { IfOk result (λ line. IsLine text.now line) }
    ensures err { IfErr result (NotLine text.now) }
{
    if text.len() > LONGEST_LINE {
        return Err(Fault::BadCommand);
    }
    line_of(alloc, text)
}

/// Parses a line of any length.
#[tactic(auto, unfolding(crate::specs::ScriptParts::line_of))]
fn line_of(alloc: Global, text: &[u8]) -> Result<Line, Fault>
    ensures ok { IfOk result (λ line. line_of (words_of text.now) ≡ Some line) }
    ensures err { IfErr result (NotSaid (words_of text.now)) }
{
    match cut(text, b' ') {
        Some((name, arguments)) => line_with(alloc, name, arguments),
        None => match lone_line(text) {
            Some(line) => Ok(line),
            None => Err(Fault::BadCommand),
        },
    }
}

/// Parses a line from its command and the text after it. A valid second argument has no space, so the text is searched for a third argument
/// only if the second isn't valid.
#[tactic(auto, unfolding(crate::specs::ScriptParts::line_of))]
fn line_with(alloc: Global, name: &[u8], arguments: &[u8]) -> Result<Line, Fault>
    ensures ok { IfOk result (λ line. line_of (name.now ∷ words_of arguments.now) ≡ Some line) }
    ensures err { IfErr result (NotSaid (name.now ∷ words_of arguments.now)) }
{
    match cut(arguments, b' ') {
        Some((first, second)) => match line_with_two(alloc, name, first, second) {
            Ok(line) => Ok(line),
            Err(fault) => match cut(second, b' ') {
                Some(_) => Err(Fault::BadCommand),
                None => Err(fault),
            },
        },
        None => match shrink_line(name, arguments) {
            Some(line) => Ok(line),
            None => Err(Fault::BadCommand),
        },
    }
}

/// Parses a line from its command and two arguments.
#[tactic(auto, unfolding(crate::specs::ScriptParts::line_of, crate::specs::ScriptParts::numbered_line))]
fn line_with_two(alloc: Global, name: &[u8], first: &[u8], second: &[u8]) -> Result<Line, Fault>
    ensures ok { IfOk result (λ line. line_of (name.now ∷ first.now ∷ second.now ∷ []) ≡ Some line) }
    ensures err { IfErr result (NotSaid (name.now ∷ first.now ∷ second.now ∷ [])) }
{
    let Some(start) = number(first) else {
        return Err(Fault::BadCommand);
    };
    if name == b"write".as_slice() {
        let bytes = bytes(alloc, second)?;
        return Ok(Line::Write {
            offset: start,
            bytes,
        });
    }
    match mode_or_range_line(name, start, second) {
        Some(line) => Ok(line),
        None => Err(Fault::BadCommand),
    }
}

/// Returns the line of a command without arguments.
#[tactic(auto, unfolding(crate::specs::ScriptParts::lone_line))]
fn lone_line(name: &[u8]) -> Option<Line>
    ensures { result ≡ lone_line name.now }
{
    if name == b"size".as_slice() {
        return Some(Line::Size);
    }
    if name == b"flush".as_slice() {
        return Some(Line::Flush);
    }
    if name == b"check".as_slice() {
        return Some(Line::Check);
    }
    if name == b"save".as_slice() {
        return Some(Line::Save);
    }
    if name == b"repair".as_slice() {
        return Some(Line::Repair);
    }
    if name == b"commit".as_slice() {
        return Some(Line::Commit);
    }
    None
}

/// Returns the line of a command with one argument.
#[tactic(auto, unfolding(crate::specs::ScriptParts::shrink_line))]
fn shrink_line(name: &[u8], argument: &[u8]) -> Option<Line>
    ensures { result ≡ shrink_line name.now argument.now }
{
    if name != b"shrink".as_slice() {
        return None;
    }
    match number(argument) {
        Some(size) => Some(Line::Shrink { size }),
        None => None,
    }
}

/// Returns the line of a command with a number and a second argument that needs no memory.
#[tactic(auto, unfolding(crate::specs::ScriptParts::mode_or_range_line))]
fn mode_or_range_line(name: &[u8], start: u64, second: &[u8]) -> Option<Line>
    ensures { result ≡ mode_or_range_line name.now start second.now }
{
    if name == b"grow".as_slice() {
        return match mode(second) {
            Some(mode) => Some(Line::Grow { size: start, mode }),
            None => None,
        };
    }
    match number(second) {
        Some(length) => range_line(name, start, length),
        None => None,
    }
}

/// Returns the line of a command on a range.
#[tactic(auto, unfolding(crate::specs::ScriptParts::range_line))]
fn range_line(name: &[u8], offset: u64, length: u64) -> Option<Line>
    ensures { result ≡ range_line name.now offset length }
{
    if name == b"read".as_slice() {
        return Some(Line::Read { offset, length });
    }
    if name == b"zero".as_slice() {
        return Some(Line::Zero { offset, length });
    }
    if name == b"discard".as_slice() {
        return Some(Line::Discard { offset, length });
    }
    if name == b"discard-any".as_slice() {
        return Some(Line::DiscardAny { offset, length });
    }
    if name == b"discard-backing".as_slice() {
        return Some(Line::DiscardBacking { offset, length });
    }
    if name == b"plain".as_slice() {
        return Some(Line::Plain { offset, length });
    }
    None
}
