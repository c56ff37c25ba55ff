// Scripts of the program `qimg` (one call a line), which are run on a chain in memory, and the answers that their lines write.
ghost use Rattle.std.specs.Prelude.{IsTrue};
ghost use Rattle.imago_access.specs.Layer.{IsFree};

use crate::files::NamedFiles;
use crate::openings::open;
use crate::streams::{Failing, FailingReader, FailingWriter};
use cases::{Trouble, bytes, joined, number, ok, runs, size};
use imago_access::{FormatAccess, FormatDriverInstance};
use imago_storage::{Fault, MemStorage};
use qimg_calls::RepairsLeaks;
use qimg_chain::chain::{ImageDriver, NamesFiles};
use qimg_chain::run::{RunFault, Saved, run};
use qimg_chain::script::{Answer, Bytes};
use std::alloc::Global;
use std::io::{BufRead, Write};

/// The capacity in bytes for what a failing writer takes.
const WRITTEN: usize = 4096;

/// A chain over copies of the case's files, and what the last script on it saved. A script that ends early doesn't change them.
#[derive(Drop)]
pub struct Scripted {
    chain: FormatAccess<ImageDriver<MemStorage>>,
    saved: Option<Saved>,
}

// Returns true if no mapping is prepared in the top layer.
fn is_free<D: FormatDriverInstance>(chain: &FormatAccess<D>) -> bool
    ensures { IsTrue result → IsFree (D.layer chain.now.0) }
{
    !chain.inner().prepared()
}

// Runs a script on a chain. Returns what the script saves, or the fault that ended it early. Fails with `Trouble::NoCall` if a
// mapping is prepared.
fn ended<R, W, D>(
    alloc: Global,
    chain: &mut FormatAccess<D>,
    reader: R,
    writer: &mut W,
) -> Result<Result<Option<Saved>, RunFault>, Trouble>
where
    R: BufRead + Drop,
    W: Write,
    D: FormatDriverInstance<Storage = MemStorage> + NamesFiles + RepairsLeaks,
{
    if !is_free(chain) {
        return Err(Trouble::NoCall);
    }
    Ok(run(alloc, reader, writer, chain))
}

// Returns a script from words, with one blank between them. The word `;` ends a line.
fn script_of(alloc: Global, words: &[&str]) -> Result<String, Trouble> {
    let mut script = String::new(alloc);
    for line in words.split(|word| *word == ";") {
        let mut text = String::new(alloc);
        for word in line.iter() {
            joined(&mut text, word)?;
        }
        text.push_str("\n")?;
        script.push_str(text.as_str())?;
    }
    Ok(script)
}

// Returns what a script writes as text. If a line is `error 20`, this is the answer of the whole script.
fn told_text(written: &[u8]) -> Result<&str, Trouble> {
    let text = str::from_utf8(written).unwrap_or("other bytes");
    for line in text.lines() {
        if line == "error 20" {
            return Err(Trouble::Refused(Fault::Memory));
        }
    }
    Ok(text)
}

// Returns the lines that a script writes, each followed by `/`.
fn told_lines(alloc: Global, written: &[u8]) -> Result<String, Trouble> {
    let mut told = String::new(alloc);
    for line in told_text(written)?.lines() {
        joined(&mut told, line)?;
        joined(&mut told, "/")?;
    }
    Ok(told)
}

// Returns the numbers of lines and of bytes that a script writes.
fn counted_lines(alloc: Global, written: &[u8]) -> Result<String, Trouble> {
    told_text(written)?;
    let lines = written.iter().filter(|byte| **byte == b'\n').count();
    let bytes = written.len();
    Ok(format!(in alloc; "{lines} lines {bytes} bytes")?)
}

// Describes why a script ended early. Its writer must be one that fails only if memory runs out.
fn early_end(fault: RunFault) -> Result<&'static str, Trouble> {
    match fault {
        RunFault::Lines => Ok("too many"),
        RunFault::Read => Ok("the reader failed"),
        RunFault::Write | RunFault::Memory => Err(Trouble::Refused(Fault::Memory)),
    }
}

/// Returns the text of a `RunFault`: `read`, `write`, `lines` or `memory`.
///
/// # Errors
///
/// - `Trouble::NoCall` if `name` is anything else.
/// - `Trouble::Refused` if memory runs out.
pub fn run_fault_told(alloc: Global, name: &str) -> Result<String, Trouble> {
    let fault = match name {
        "read" => RunFault::Read,
        "write" => RunFault::Write,
        "lines" => RunFault::Lines,
        "memory" => RunFault::Memory,
        _ => return Err(Trouble::NoCall),
    };
    Ok(fault.to_string(alloc)?)
}

/// Returns the text of an answer that consists of bytes, followed by `/`.
///
/// # Errors
///
/// - `Trouble::NoCall` if the words aren't bytes.
/// - `Trouble::Refused` if memory runs out.
pub fn answer_told(alloc: Global, words: &[&str]) -> Result<String, Trouble> {
    let answer = Answer::Bytes(Bytes::from(bytes(alloc, words)?));
    let mut told = answer.to_text(alloc)?;
    joined(&mut told, "/")?;
    Ok(told)
}

impl Scripted {
    /// Opens copies of files as a chain, with the words of `openings::open`.
    ///
    /// # Errors
    ///
    /// The errors of `openings::open`.
    pub fn open(
        alloc: Global,
        words: &[&str],
        files: &mut NamedFiles<'_>,
    ) -> Result<Self, Trouble> {
        Ok(Scripted {
            chain: open(alloc, words, files)?,
            saved: None,
        })
    }

    // Runs a script, and keeps what it saves. Returns what it writes, and the reason if it ended early.
    fn run(
        &mut self,
        alloc: Global,
        script: &[u8],
    ) -> Result<(Vec<u8>, Option<&'static str>), Trouble> {
        let mut text = Vec::new(alloc);
        match ended(alloc, &mut self.chain, script, &mut text)? {
            Ok(saved) => {
                self.saved = saved;
                Ok((text, None))
            }
            Err(fault) => Ok((text, Some(early_end(fault)?))),
        }
    }

    // Runs a script. Returns the lines that it writes, and the reason if it ended early.
    fn lines(&mut self, alloc: Global, script: &[u8]) -> Result<String, Trouble> {
        let (text, early) = self.run(alloc, script)?;
        let mut told = told_lines(alloc, &text)?;
        if let Some(early) = early {
            joined(&mut told, early)?;
        }
        Ok(told)
    }

    // Runs a script. Returns the numbers of lines and bytes that it writes, and the reason if it ended early.
    fn count(&mut self, alloc: Global, script: &[u8]) -> Result<String, Trouble> {
        let (text, early) = self.run(alloc, script)?;
        let mut told = counted_lines(alloc, &text)?;
        if let Some(early) = early {
            joined(&mut told, early)?;
        }
        Ok(told)
    }

    // Runs a script whose writer takes at most `room` bytes. Returns `ok`, or the reason if the script ended early.
    fn ended_in(&mut self, alloc: Global, room: usize, script: &[u8]) -> Result<String, Trouble> {
        let mut space = vec![in alloc; 0u8; room]?;
        let mut writer = space.as_mut_slice();
        match ended(alloc, &mut self.chain, script, &mut writer)? {
            Ok(saved) => {
                self.saved = saved;
                Ok(ok(alloc)?)
            }
            Err(RunFault::Write) => Ok("the writer failed".to_string(alloc)?),
            Err(fault) => Ok(early_end(fault)?.to_string(alloc)?),
        }
    }

    // Keeps what a script saved. Returns the lines that it wrote, and the reason if it ended early.
    fn told(
        &mut self,
        alloc: Global,
        text: &[u8],
        ended: Result<Option<Saved>, RunFault>,
    ) -> Result<String, Trouble> {
        let mut told = told_lines(alloc, text)?;
        match ended {
            Ok(saved) => self.saved = saved,
            Err(RunFault::Write) => joined(&mut told, "the writer failed")?,
            Err(fault) => joined(&mut told, early_end(fault)?)?,
        }
        Ok(told)
    }

    // Like `lines`, but the reader fails.
    fn read_failing(
        &mut self,
        alloc: Global,
        failing: Failing,
        script: &[u8],
    ) -> Result<String, Trouble> {
        let mut text = Vec::new(alloc);
        let reader = FailingReader { script, failing };
        let ended = ended(alloc, &mut self.chain, reader, &mut text)?;
        self.told(alloc, &text, ended)
    }

    // Like `lines`, but the writer fails. Its capacity is allocated first, so that memory doesn't run out during the script.
    fn write_failing(
        &mut self,
        alloc: Global,
        failing: Failing,
        script: &[u8],
    ) -> Result<String, Trouble> {
        let text = Vec::with_capacity(alloc, WRITTEN)?;
        let mut writer = FailingWriter { text, failing };
        let ended = ended(alloc, &mut self.chain, script, &mut writer)?;
        self.told(alloc, &writer.text, ended)
    }

    // Returns the bytes that the last script saved of the top file, if any, or those of the file below it.
    fn saved_bytes(&self, is_below: bool) -> Option<&Vec<u8>> {
        match &self.saved {
            None => None,
            Some(saved) if is_below => saved.below.as_ref(),
            Some(saved) => Some(&saved.top),
        }
    }

    // Returns how many bytes the last script saved of the top file or of the one below it, or `none`.
    fn saved_length(&self, alloc: Global, is_below: bool) -> Result<String, Trouble> {
        match self.saved_bytes(is_below) {
            None => Ok("none".to_string(alloc)?),
            Some(saved) => Ok(saved.len().to_string(alloc)?),
        }
    }

    // Returns a range of the bytes that the last script saved, or `Trouble::NoCall` if the range isn't inside them.
    fn saved_range(
        &self,
        alloc: Global,
        is_below: bool,
        offset: u64,
        n: u64,
    ) -> Result<String, Trouble> {
        let Some(saved) = self.saved_bytes(is_below) else {
            return Err(Trouble::NoCall);
        };
        let end = offset.saturating_add(n);
        if end > saved.len() as u64 {
            return Err(Trouble::NoCall);
        }
        Ok(runs(alloc, &saved[offset as usize..end as usize])?)
    }

    /// Runs a script, or reads what the last one saved.
    ///
    /// # Errors
    ///
    /// - `Trouble::NoCall` if the words aren't such a call, a mapping is prepared, or no saved bytes have the range.
    /// - `Trouble::Refused` if memory runs out, for a line of the script, its answer or this call.
    pub fn called(&mut self, alloc: Global, words: &[&str]) -> Result<String, Trouble> {
        match words {
            ["script", words @ ..] => {
                let script = script_of(alloc, words)?;
                self.lines(alloc, script.as_bytes())
            }
            ["script_bytes", words @ ..] => {
                let script = bytes(alloc, words)?;
                self.lines(alloc, &script)
            }
            ["script_count", words @ ..] => {
                let script = bytes(alloc, words)?;
                self.count(alloc, &script)
            }
            ["script_in", room, words @ ..] => {
                let script = script_of(alloc, words)?;
                self.ended_in(alloc, size(room)?, script.as_bytes())
            }
            ["script_read", cause, behind, words @ ..] => {
                let script = script_of(alloc, words)?;
                let failing = Failing::by(cause, size(behind)?)?;
                self.read_failing(alloc, failing, script.as_bytes())
            }
            ["script_write", cause, behind, words @ ..] => {
                let script = script_of(alloc, words)?;
                let failing = Failing::by(cause, size(behind)?)?;
                self.write_failing(alloc, failing, script.as_bytes())
            }
            ["saved"] => self.saved_length(alloc, false),
            ["saved", offset, n] => self.saved_range(alloc, false, number(offset)?, number(n)?),
            ["saved_below"] => self.saved_length(alloc, true),
            ["saved_below", offset, n] => self.saved_range(
                alloc,
                true,
                number(offset)?,
                number(n)?,
            ),
            _ => Err(Trouble::NoCall),
        }
    }
}
