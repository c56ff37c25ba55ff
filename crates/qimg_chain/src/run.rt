//! Runs a script (one call a line) over a chain, and writes an answer to each line. `crate::script` has the lines and the answers.
ghost use Rattle.std.specs.Prelude.{◌≡◌, ℕ, List, ◌∷◌, ◌++◌, [], IfErr, OnOk};
ghost use Rattle.std.specs.Io.KnownBytes.{Appends};
ghost use Rattle.imago_access.specs.Layer.{IsFree};
ghost use Rattle.qimg_chain.specs.RunCalls.{Turn};
ghost use Rattle.qimg_chain.specs.ScriptAnswers.{answer_text};
ghost use Rattle.qimg_chain.specs.Saving.{files_to_save};
ghost use Rattle.qimg_chain.specs.ScriptReads.{IsTakenAs};
ghost use Rattle.qimg_chain.specs.ScriptRuns.{ending, items_of, kept_of, reply, standing, IsTellingFault, Replies, Scripted};

mod answers;
mod calls;
mod fault;
mod files;
mod opened;
mod reading;
mod saved;

use crate::chain::NamesFiles;
use crate::script::{Answer, Line};
pub use answers::answer_line;
pub use fault::RunFault;
use imago_access::{FormatAccess, FormatDriverInstance};
use imago_storage::{Fault, MemStorage};
pub use opened::{ScriptFault, run_files, run_for_commit};
use qimg_calls::RepairsLeaks;
use reading::next_line;
use saved::Kept;
pub use saved::Saved;
use std::alloc::Global;
use std::io::{BufRead, Write};

/// The largest number of lines in a script.
const MOST_LINES: u32 = 1_048_576;

/// The largest number of bytes in a script.
const MOST_BYTES: u64 = 137_438_953_472;

/// Answers a text that was parsed as a line or rejected.
fn answer_to<D: FormatDriverInstance<Storage = MemStorage> + NamesFiles + RepairsLeaks>(
    alloc: Global,
    chain: &mut FormatAccess<D>,
    taken: Result<Line, Fault>,
    saved: &mut Kept,
) -> Answer
    requires free { IsFree (D.layer chain.old.0) }
    ensures free { IsFree (D.layer chain.new.0) }
    ensures replied { (text : List ℕ) → IsTakenAs text taken → (turn : Turn)
        × Replies D.DriverModel D.names (reply text turn result) (standing chain.old (kept_of (files_to_save D.DriverModel chain.old) saved.old))
        (standing chain.new (kept_of (files_to_save D.DriverModel chain.new) saved.new)) }
{
    match taken {
        Ok(line) => answer_line(alloc, chain, line, saved),
        Err(fault) => Answer::Refused(fault),
    }
}

/// Writes an answer as a line. If memory runs out, nothing of the line is written.
fn tell<W: Write>(alloc: Global, writer: &mut W, answer: &Answer) -> Result<(), RunFault>
    ensures ok { OnOk result (Appends (W.contents writer.old) (W.contents writer.new) (answer_text answer.now ++ 10 ∷ [])) }
    ensures err { IfErr result IsTellingFault }
    ensures guest_unchanged { IfErr result (λ fault. fault ≡ RunFault.Memory → W.contents writer.new ≡ W.contents writer.old) }
{
    let line = answer.to_line(alloc)?;
    match writer.write_all(&line) {
        Ok(()) => Ok(()),
        Err(_) => Err(RunFault::Write),
    }
}

/// Runs a script over a chain, and returns what the last `save` kept. It fails like `run`, but doesn't copy the kept bytes and so can't run
/// out of memory for that.
fn run_lines<
    R: BufRead + Drop,
    W: Write,
    D: FormatDriverInstance<Storage = MemStorage> + NamesFiles + RepairsLeaks,
>(alloc: Global, reader: R, writer: &mut W, chain: &mut FormatAccess<D>) -> Result<Kept, RunFault>
    requires free { IsFree (D.layer chain.old.0) }
    ensures free { IsFree (D.layer chain.new.0) }
    ensures scripted { let ended = ending (kept_of (files_to_save D.DriverModel chain.new)) result in
        Scripted D.DriverModel D.names (R.remaining reader) (W.contents writer.old) (W.contents writer.new) ended chain.old chain.new }
{
    let mut input = reader.take(MOST_BYTES + 1);
    let mut line = Vec::new(alloc);
    let mut room = MOST_BYTES;
    let mut saved = Kept::Nothing;
    for _ in 0..MOST_LINES {
        let Some(taken) = next_line(alloc, &mut input, &mut line, &mut room)? else {
            return Ok(saved);
        };
        let answer = answer_to(alloc, chain, taken, &mut saved);
        tell(alloc, writer, &answer)?;
    }
    match next_line(alloc, &mut input, &mut line, &mut room)? {
        Some(_) => Err(RunFault::Lines),
        None => Ok(saved),
    }
}

/// Runs a script over a chain (an image and its backing chain), and writes one line as the answer to each line of the script.
///
/// The module `script` defines the lines. The result is what the last successful `save` kept of the files, if any.
///
/// # Preconditions
///
/// No mapping is prepared in the chain (no run waits for its commit).
///
/// # Errors
///
/// - `RunFault::Read` if the reader fails, or at the line with which the script exceeds 2^37 bytes.
/// - `RunFault::Lines` at the line after the first 2^20 lines.
/// - `RunFault::Write` if the writer fails.
/// - `RunFault::Memory` if memory runs out, also for the copy of what the last `save` kept.
///
/// # On error
///
/// The lines before the error were run, and their answers were written. If memory ran out, the last answer may be missing. If the writer
/// failed, the written text is unspecified.
pub fn run<
    R: BufRead + Drop,
    W: Write,
    D: FormatDriverInstance<Storage = MemStorage> + NamesFiles + RepairsLeaks,
>(
    alloc: Global,
    reader: R,
    writer: &mut W,
    chain: &mut FormatAccess<D>,
) -> Result<Option<Saved>, RunFault>
    requires free { IsFree (D.layer chain.old.0) }
    ensures free { IsFree (D.layer chain.new.0) }
    ensures scripted { Scripted D.DriverModel D.names (R.remaining reader) (W.contents writer.old) (W.contents writer.new)
        (ending items_of result) chain.old chain.new }
{
    let saved = run_lines(alloc, reader, writer, chain)?;
    saved.into_saved(chain)
}
