// Reads the lines of a script from its reader.
ghost use Rattle.std.specs.Prelude.{◌≡◌, ◌≢◌, ◌≤◌, [], length, take, All, IfOk, IfErr, IfSome, None, OnOk, Some, IsTrue, IsFalse};
ghost use Rattle.std.specs.Io.{IsEmptyOrEndsWith, StopsAt};
ghost use Rattle.std.specs.Io.BufRead.{take_through, DropsThrough};
ghost use Rattle.std.specs.IoError.{error_kind};
ghost use Rattle.qimg_chain.specs.ScriptReads.{IsNext, ReadsNext, ReadsPart, ReadsShown};
ghost use Rattle.qimg_chain.specs.ScriptRuns.{IsReadingFault};

use super::fault::RunFault;
use crate::script::{Line, parse_line, split_line, without_return};
use imago_storage::Fault;
use memchr::memchr;
use std::alloc::Global;
use std::io::{BufRead, Error, ErrorKind};

/// The next line of a script: the result of parsing it, or `None` at the end of the script.
type Next = Option<Result<Line, Fault>>;

/// Returns the fault with which an error ends a script, or `None` if the read was interrupted and must be repeated.
fn stop_of(error: &Error) -> Option<RunFault>
    ensures err { IfSome result IsReadingFault }
    ensures again { result ≡ None → error_kind error.now ≡ ErrorKind.Interrupted }
    ensures memory { error_kind error.now ≡ ErrorKind.OutOfMemory → result ≡ Some RunFault.Memory }
    ensures interrupted { error_kind error.now ≡ ErrorKind.Interrupted → result ≡ None }
{
    match error.kind() {
        ErrorKind::Interrupted => None,
        ErrorKind::OutOfMemory => Some(RunFault::Memory),
        _ => Some(RunFault::Read),
    }
}

/// Returns the number of bytes that belong to the first line, with its line feed. The flag is true if the line ends there, or if `bytes` is
/// empty.
fn line_part(bytes: &[u8]) -> (usize, bool)
    ensures inside { result.0 ≤ length bytes.now }
    ensures goes_on { IsFalse result.1 → All (λ b. b ≢ 10) (take result.0 bytes.now) }
    ensures crash_images { IsTrue result.1 → StopsAt (take result.0 bytes.now) 10 }
    ensures ends { IsTrue result.1 → IsEmptyOrEndsWith (take result.0 bytes.now) 10 }
    ensures none { result.0 ≡ 0 → bytes.now ≡ [] }
{
    match memchr(b'\n', bytes) {
        Some(end) => (end + 1, true),
        None => (bytes.len(), bytes.is_empty()),
    }
}

/// Appends the bytes of the line that the reader has buffered, and consumes them. Returns true if the line ends with them.
fn read_part<R: BufRead>(input: &mut R, line: &mut Vec<u8>) -> Result<bool, RunFault>
    ensures ok { IfOk result (ReadsPart (R.remaining input.old) (R.remaining input.new) line.old.items line.new.items) }
    ensures err { IfErr result IsReadingFault }
{
    let shown = match input.fill_buf() {
        Ok(shown) => shown,
        Err(error) => return match stop_of(&error) {
            Some(fault) => Err(fault),
            None => Ok(false),
        },
    };
    let (count, ended) = line_part(shown);
    line.extend_from_slice(&shown[..count])?;
    input.consume(count);
    Ok(ended)
}

/// Reads the next line with its end. Nothing is read past the last line.
fn read_line<R: BufRead>(input: &mut R, line: &mut Vec<u8>) -> Result<(), RunFault>
    ensures line { OnOk result (IfSome (R.remaining input.old) (λ bytes. line.new.items ≡ take_through 10 bytes)) }
    ensures remainder { OnOk result (DropsThrough (R.remaining input.old) (R.remaining input.new) 10) }
    ensures err { IfErr result IsReadingFault }
{
    line.clear();
    for _ in 0..u64::MAX {
        if read_part(input, line)? {
            return Ok(());
        }
    }
    Err(RunFault::Read)
}

/// Parses a line, with its end if it has one. Returns `None` if `line` is empty.
fn next_of(alloc: Global, line: &[u8]) -> Next
    ensures { IsNext line.now result }
{
    match split_line(line) {
        Some((text, _)) => Some(parse_line(alloc, text)),
        None => None,
    }
}

/// Like `next_of`, for bytes that are empty or one line with its line feed. The line feed isn't searched for again.
fn next_in(alloc: Global, line: &[u8]) -> Next
    requires crash_images { StopsAt line.now 10 }
    requires ends { IsEmptyOrEndsWith line.now 10 }
    ensures { IsNext line.now result }
{
    if line.is_empty() {
        return None;
    }
    Some(parse_line(alloc, without_return(&line[..line.len() - 1])))
}

/// Reads the next line without a copy, if the reader has buffered all of it. Otherwise nothing is consumed.
fn read_shown<R: BufRead>(
    alloc: Global,
    input: &mut R,
    room: &mut u64,
) -> Result<Option<Next>, RunFault>
    ensures ok { IfOk result (ReadsShown (R.remaining input.old) (R.remaining input.new) room.old room.new) }
    ensures err { IfErr result IsReadingFault }
{
    let shown = match input.fill_buf() {
        Ok(shown) => shown,
        Err(error) => return match stop_of(&error) {
            Some(fault) => Err(fault),
            None => Ok(None),
        },
    };
    let (count, ended) = line_part(shown);
    if !ended {
        return Ok(None);
    }
    if count as u64 > *room {
        return Err(RunFault::Read);
    }
    let next = next_in(alloc, &shown[..count]);
    input.consume(count);
    *room -= count as u64;
    Ok(Some(next))
}

/// Reads and parses the next line. Returns `None` at the end of the script. Nothing is read past the last line.
///
/// `room` is the number of bytes that the script may still have, and is reduced by the length of the line with its end. A line that isn't
/// buffered completely is collected in `line`.
///
/// # Errors
///
/// - `RunFault::Read` if the reader fails, or the line has more than `room` bytes.
/// - `RunFault::Memory` if memory runs out.
pub fn next_line<R: BufRead>(
    alloc: Global,
    input: &mut R,
    line: &mut Vec<u8>,
    room: &mut u64,
) -> Result<Next, RunFault>
    ensures ok { IfOk result (ReadsNext (R.remaining input.old) (R.remaining input.new) room.old room.new) }
    ensures err { IfErr result IsReadingFault }
{
    if let Some(next) = read_shown(alloc, input, room)? {
        return Ok(next);
    }
    read_line(input, line)?;
    if line.len() as u64 > *room {
        return Err(RunFault::Read);
    }
    *room -= line.len() as u64;
    Ok(next_of(alloc, line))
}
