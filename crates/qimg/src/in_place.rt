// The option `--in-place`: runs a script on files of the host, without a copy of them.

use crate::failure::Failure;
use host_disk::{HostFault, HostLayer, check, drive, read, save, size, trim, warm};
use host_file::{OsFile, Unknown};
use imago_access::Format;
use imago_storage::Fault;
use memchr::memchr;
use paged_storage::{PAGE, PagedFile};
use qimg_calls::{Answer as CallAnswer, Call};
use qimg_chain::arguments::{Arguments, Opening, parse as parse_chain};
use qimg_chain::script::{Answer, Bytes, LONGEST_LINE, Line, parse_line};
use std::alloc::Global;
use std::io::{self, BufWriter, Read, Write};
use std::num::NonZeroUsize;

/// The number of bytes of pages that are kept in memory, if `--cache` doesn't say another.
const CACHE: u64 = 32 << 20;

/// The largest number of calls that are made as one list.
const MOST_CALLS: usize = 256;

/// The number of bytes of calls after which a list is made.
const MOST_BYTES: usize = 8 << 20;

/// The largest number of bytes that a line reads.
const MOST_READ: u64 = 32_768;

/// The number of bytes of the script that are read in one call.
const READ_AT_ONCE: usize = 262_144;

/// The number of the chain.
const CHAIN: u64 = 1;

/// The arguments of `--in-place`.
#[derive(Drop)]
pub struct InPlace {
    /// The number of pages that are kept in memory.
    pages: NonZeroUsize,
    arguments: Arguments,
}

/// Parses the arguments that follow `--in-place`: `[--cache BYTES] [-r] FORMAT FILE ..`.
///
/// # Errors
///
/// - `Failure::Arguments` if they aren't valid, or have further files of a VMDK image, or `-c`.
/// - `Failure::InputOutput` if memory runs out.
pub fn parse(alloc: Global, words: &[&str]) -> Result<InPlace, Failure> {
    let (cache, rest) = match words {
        ["--cache", bytes, rest @ ..] => match bytes.parse::<u64>() {
            Ok(bytes) => (bytes, rest),
            Err(_) => return Err(Failure::Arguments),
        },
        rest => (CACHE, rest),
    };
    let arguments = match parse_chain(alloc, rest) {
        Ok(Some(arguments)) => arguments,
        Err(Fault::Memory) => return Err(Failure::InputOutput),
        Ok(None) | Err(_) => return Err(Failure::Arguments),
    };
    let Some(pages) = NonZeroUsize::new((cache / PAGE).max(16) as usize) else {
        return Err(Failure::Arguments);
    };
    if let Opening::ForCommit = arguments.opening {
        return Err(Failure::Arguments);
    }
    for layer in &arguments.layers {
        if !layer.extras.is_empty() {
            return Err(Failure::Arguments);
        }
    }
    Ok(InPlace { pages, arguments })
}

/// A chain of files of the host, and the calls of lines that aren't made yet.
#[derive(Drop)]
struct Disk {
    layers: Vec<HostLayer<OsFile<Unknown>>>,
    writable: bool,
    pages: NonZeroUsize,
    calls: Vec<Call>,
    bytes: usize,
    /// A sync has failed. A later one may not report it again.
    failed: bool,
}

/// Returns the fault that answers a line whose list failed.
fn fault_of(fault: &HostFault) -> Fault {
    match fault {
        HostFault::Opening(fault) | HostFault::Calls(fault) => *fault,
        HostFault::Finding(_) | HostFault::Host(_) => Fault::Storage,
    }
}

/// Returns the call of a line, or the line if it makes no call.
fn call_of(line: Line) -> Result<Call, Line> {
    let call = match line {
        Line::Read { offset, length } if length <= MOST_READ => Call::Read {
            offset,
            length: length as usize,
        },
        Line::Write { offset, bytes } => Call::Write {
            offset,
            bytes: bytes.into_vec(),
        },
        Line::Zero { offset, length } => Call::WriteZeroes { offset, length },
        Line::Discard { offset, length } => Call::DiscardToZero { offset, length },
        Line::DiscardAny { offset, length } => Call::DiscardToAny { offset, length },
        Line::DiscardBacking { offset, length } => Call::DiscardToBacking { offset, length },
        Line::Grow { size, mode } => Call::ResizeGrow { size, mode },
        Line::Shrink { size } => Call::ResizeShrink { size },
        Line::Repair => Call::RepairLeaks,
        line => return Err(line),
    };
    Ok(call)
}

/// Returns true if a list changes the disk or the file.
fn is_changing(calls: &[Call]) -> bool {
    for call in calls {
        if !matches!(call, Call::Read { .. } | Call::Flush) {
            return true;
        }
    }
    false
}

/// Returns the number of bytes that a call brings.
fn bytes_of(call: &Call) -> usize {
    match call {
        Call::Write { bytes, .. } => bytes.len(),
        _ => 0,
    }
}

/// Returns the answer to a line, from the answer to its call.
fn told(answer: CallAnswer) -> Answer {
    match answer {
        CallAnswer::Done => Answer::Done,
        CallAnswer::Bytes(bytes) => Answer::Bytes(Bytes::from(bytes)),
        CallAnswer::Leaks(leaks) => Answer::Number(leaks.len() as u64),
        CallAnswer::Refused(fault) => Answer::Refused(fault),
        CallAnswer::Mapped(..) | CallAnswer::Shallow(..) | CallAnswer::Prepared { .. } => {
            Answer::Refused(Fault::Unsupported)
        }
    }
}

/// Writes an answer as a line.
fn tell<W: Write>(alloc: Global, output: &mut W, answer: &Answer) -> io::Result<()> {
    let line = answer.to_line(alloc)?;
    output.write_all(&line)
}

impl Disk {
    /// Opens the files of the arguments.
    fn open(rt: &HostRuntime, asked: &InPlace) -> Result<Disk, Failure> {
        let alloc = rt.alloc();
        let writable = matches!(asked.arguments.opening, Opening::Writable);
        let mut layers = Vec::new(alloc);
        for layer in &asked.arguments.layers {
            let number = layers.len() as u64;
            let file = OsFile::open(rt, layer.path.as_str(), writable && number == 0, number)?;
            layers.push(HostLayer {
                format: layer.format,
                file: PagedFile::new(alloc, file)?,
            })?;
        }
        let _warmed = warm(alloc, &mut layers, asked.pages.get());
        match size(alloc, &mut layers, writable) {
            Ok(_) => {}
            Err(HostFault::Opening(fault)) => return Err(Failure::Opening(fault)),
            Err(_) => return Err(Failure::InputOutput),
        }
        Ok(Disk {
            layers,
            writable,
            pages: asked.pages,
            calls: Vec::new(alloc),
            bytes: 0,
            failed: false,
        })
    }

    /// Makes a list of calls with a flush at its end, and writes the answers. Returns the fault if the list failed as a whole.
    fn make<W: Write>(
        &mut self,
        alloc: Global,
        calls: &[Call],
        output: &mut W,
    ) -> io::Result<Option<HostFault>> {
        match drive(alloc, &mut self.layers, self.writable, CHAIN, calls) {
            Ok(answers) => {
                let wanted = answers.len().saturating_sub(1);
                for answer in answers.into_iter().take(wanted) {
                    tell(alloc, output, &told(answer))?;
                }
                Ok(None)
            }
            Err(fault) => Ok(Some(fault)),
        }
    }

    /// Makes each of these calls as a list of its own, and writes their answers.
    fn make_each<W: Write>(
        &mut self,
        alloc: Global,
        calls: Vec<Call>,
        output: &mut W,
    ) -> io::Result<()> {
        for call in calls {
            let alone = [call, Call::Flush];
            if let Some(fault) = self.make(alloc, &alone, output)? {
                tell(alloc, output, &Answer::Refused(fault_of(&fault)))?;
            }
        }
        Ok(())
    }

    /// Makes the waiting calls as one list, and writes their answers.
    ///
    /// If the list fails as a whole, each call is made by itself. But if a file failed and the list has a change, the change may be in the
    /// file in part. Then no call is made again, and all answers are that fault.
    fn settle<W: Write>(&mut self, alloc: Global, output: &mut W) -> io::Result<()> {
        if self.calls.is_empty() {
            return Ok(());
        }
        let mut calls = std::mem::replace(&mut self.calls, Vec::new(alloc));
        self.bytes = 0;
        calls.push(Call::Flush)?;
        let Some(fault) = self.make(alloc, &calls, output)? else {
            self.tidy(alloc);
            return Ok(());
        };
        if matches!(fault, HostFault::Host(_)) && is_changing(&calls) {
            for _ in 1..calls.len() {
                tell(alloc, output, &Answer::Refused(fault_of(&fault)))?;
            }
        } else {
            let _flush = calls.pop();
            self.make_each(alloc, calls, output)?;
        }
        self.tidy(alloc);
        Ok(())
    }

    /// Drops pages from memory that are too many, but keeps the tables of qcow2 files there.
    fn tidy(&mut self, alloc: Global) {
        trim(&mut self.layers, self.pages);
        // Tables that can't be read now are read when a call needs them.
        let _warmed = warm(alloc, &mut self.layers, self.pages.get());
    }

    /// Returns the answer to a line that makes no call.
    fn answer(&mut self, alloc: Global, line: Line) -> Result<Answer, HostFault> {
        let answer = match line {
            Line::Size => Answer::Number(size(alloc, &mut self.layers, self.writable)?),
            Line::Flush | Line::Save => self.save(),
            Line::Check => self.check(alloc)?,
            Line::Plain { offset, length } if length <= MOST_READ => {
                let Ok(mut bytes) = Vec::from_elem(alloc, 0u8, length as usize) else {
                    return Err(HostFault::Calls(Fault::Memory));
                };
                read(alloc, &mut self.layers, offset, &mut bytes)?;
                Answer::Bytes(Bytes::from(bytes))
            }
            Line::Plain { .. } | Line::Read { .. } => Answer::Refused(Fault::BadArgument),
            _ => Answer::Refused(Fault::Unsupported),
        };
        Ok(answer)
    }

    /// Syncs the top file. After a failed sync, no later one succeeds.
    fn save(&mut self) -> Answer {
        self.failed = self.failed || save(&mut self.layers).is_err();
        if self.failed {
            return Answer::Refused(Fault::Storage);
        }
        Answer::Done
    }

    /// Checks the top file.
    fn check(&mut self, alloc: Global) -> Result<Answer, HostFault> {
        match self.layers.first() {
            Some(top) if top.format == Format::Qcow2 => {}
            _ => return Ok(Answer::Refused(Fault::Unsupported)),
        }
        match check(alloc, &mut self.layers) {
            Ok(leaks) => Ok(Answer::Number(leaks as u64)),
            Err(HostFault::Finding(finding)) => Ok(Answer::Unsound(finding)),
            Err(fault) => Err(fault),
        }
    }

    /// Runs a line. Its answer may be written later, but before that of the next line.
    fn run<W: Write>(&mut self, alloc: Global, text: &[u8], output: &mut W) -> io::Result<()> {
        let line = match parse_line(alloc, text) {
            Ok(line) => line,
            Err(fault) => {
                self.settle(alloc, output)?;
                return tell(alloc, output, &Answer::Refused(fault));
            }
        };
        match call_of(line) {
            Ok(call) => {
                self.bytes = self.bytes.saturating_add(bytes_of(&call));
                self.calls.push(call)?;
                if self.calls.len() >= MOST_CALLS || self.bytes >= MOST_BYTES {
                    self.settle(alloc, output)?;
                }
                Ok(())
            }
            Err(line) => {
                self.settle(alloc, output)?;
                let answer = match self.answer(alloc, line) {
                    Ok(answer) => answer,
                    Err(fault) => Answer::Refused(fault_of(&fault)),
                };
                self.tidy(alloc);
                tell(alloc, output, &answer)
            }
        }
    }

    /// Runs the lines that end in a part of the script. Returns the number of bytes after them.
    fn run_lines<W: Write>(
        &mut self,
        alloc: Global,
        part: &[u8],
        output: &mut W,
    ) -> io::Result<usize> {
        let mut rest = part;
        for _ in 0..part.len() {
            let Some((text, after)) = first_line(rest) else {
                break;
            };
            self.run(alloc, text, output)?;
            rest = after;
        }
        self.settle(alloc, output)?;
        output.flush()?;
        Ok(rest.len())
    }
}

/// Returns the first line, without its end, and the bytes after it, if a line ends in these bytes.
fn first_line(bytes: &[u8]) -> Option<(&[u8], &[u8])> {
    let end = memchr(b'\n', bytes)?;
    let text = bytes.get(..end)?;
    let after = bytes.get(end.saturating_add(1)..)?;
    Some((text.strip_suffix(b"\r").unwrap_or(text), after))
}

/// Runs the script on standard input over the files, in place.
///
/// # Errors
///
/// - `Failure::Opening` if the files don't open as a chain.
/// - `Failure::InputOutput` if a file or a stream failed, or memory ran out.
pub fn serve(rt: &HostRuntime, asked: &InPlace) -> Result<(), Failure> {
    let alloc = rt.alloc();
    let mut disk = Disk::open(rt, asked)?;
    let mut output = BufWriter::new(alloc, io::writer(rt))?;
    let mut input = rt.reader();
    let mut part = Vec::new(alloc);
    let mut chunk = vec![in alloc; 0u8; READ_AT_ONCE]?;
    // The line in `part` is too long and was answered. The rest of it is skipped.
    let mut skipping = false;
    for _ in 0..u64::MAX {
        let count = input.read(&mut chunk)?;
        if count == 0 {
            if !part.is_empty() && !skipping {
                disk.run(alloc, &part, &mut output)?;
            }
            disk.settle(alloc, &mut output)?;
            output.flush()?;
            return Ok(());
        }
        let Some(bytes) = chunk.get(..count) else {
            return Err(Failure::InputOutput);
        };
        let rest = if skipping {
            match first_line(bytes) {
                Some((_, after)) => {
                    skipping = false;
                    after
                }
                None => &[],
            }
        } else {
            bytes
        };
        part.extend_from_slice(rest)?;
        let left = disk.run_lines(alloc, &part, &mut output)?;
        part = match part.get(part.len().saturating_sub(left)..) {
            Some(rest) => rest.to_vec(alloc)?,
            None => Vec::new(alloc),
        };
        if part.len() > LONGEST_LINE + 2 {
            disk.run(alloc, &part, &mut output)?;
            disk.settle(alloc, &mut output)?;
            output.flush()?;
            part = Vec::new(alloc);
            skipping = true;
        }
    }
    Err(Failure::InputOutput)
}
