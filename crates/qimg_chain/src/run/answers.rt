// The answer to each line of a script.
ghost use Rattle.std.specs.Prelude.{◌≡◌, IsTrue};
ghost use Rattle.imago_access.specs.Layer.{IsFree};
ghost use Rattle.qimg_chain.specs.RunAnswers.{bytes_told_of, Answered, IsShort, KeepsSaved};
ghost use Rattle.qimg_chain.specs.RunCalls.{asks_for_call};
ghost use Rattle.qimg_chain.specs.Saving.{files_to_save};
ghost use Rattle.qimg_chain.specs.ScriptRuns.{kept_of};

use super::calls::{MOST_READ, call_of, make, told};
use super::files::{check_top, read_plainly};
use super::saved::Kept;
use crate::chain::NamesFiles;
use crate::script::{Answer, Bytes, Line};
use imago_access::{FormatAccess, FormatDriverInstance};
use imago_storage::{Fault, MemStorage};
use qimg_calls::RepairsLeaks;
use std::alloc::Global;

/// Returns the answer to a plain read.
fn told_bytes(outcome: Result<Bytes, Fault>) -> Answer
    ensures { result ≡ bytes_told_of outcome }
{
    match outcome {
        Ok(bytes) => Answer::Bytes(bytes),
        Err(fault) => Answer::Refused(fault),
    }
}

/// Makes the call of a line, and returns its answer. A `read` line isn't longer than a line may read.
fn answer_call<D: FormatDriverInstance<Storage = MemStorage> + NamesFiles + RepairsLeaks>(
    alloc: Global,
    chain: &mut FormatAccess<D>,
    line: Line,
) -> Answer
    requires free { IsFree (D.layer chain.old.0) }
    requires asks { IsTrue (asks_for_call line) }
    requires short { IsShort line }
    ensures free { IsFree (D.layer chain.new.0) }
    ensures answered { Answered D.DriverModel D.names line result chain.old chain.new }
{
    match call_of(line) {
        Some(call) => match make(alloc, chain, call) {
            Ok(answer) => told(answer),
            Err(fault) => Answer::Refused(fault),
        },
        None => unreachable!(),
    }
}

/// Makes the call of a line, and returns its answer. Bytes that a `save` kept in the files are copied first. If the line is a `save` that
/// succeeds, the bytes of the files are kept.
fn answer_apart<D: FormatDriverInstance<Storage = MemStorage> + NamesFiles + RepairsLeaks>(
    alloc: Global,
    chain: &mut FormatAccess<D>,
    line: Line,
    saved: &mut Kept,
) -> Answer
    requires free { IsFree (D.layer chain.old.0) }
    requires asks { IsTrue (asks_for_call line) }
    requires short { IsShort line }
    ensures free { IsFree (D.layer chain.new.0) }
    ensures answered { Answered D.DriverModel D.names line result chain.old chain.new }
    ensures keeps_saved { let was = kept_of (files_to_save D.DriverModel chain.old) saved.old in
        let files = files_to_save D.DriverModel chain.new in KeepsSaved line result files was (kept_of files saved.new) }
{
    if let Err(fault) = saved.set_apart(chain) {
        return Answer::Refused(fault);
    }
    let saves = matches!(line, Line::Save);
    let answer = answer_call(alloc, chain, line);
    if saves && matches!(answer, Answer::Done) {
        *saved = Kept::InFiles;
    }
    answer
}

/// Runs a line and returns its answer.
///
/// The bytes that a `save` keeps replace what was kept before. They are copied before the next line that makes a call. If memory runs
/// out for the copy, that line is answered with `Fault::Memory`.
pub fn answer_line<D: FormatDriverInstance<Storage = MemStorage> + NamesFiles + RepairsLeaks>(
    alloc: Global,
    chain: &mut FormatAccess<D>,
    line: Line,
    saved: &mut Kept,
) -> Answer
    requires free { IsFree (D.layer chain.old.0) }
    ensures free { IsFree (D.layer chain.new.0) }
    ensures answered { Answered D.DriverModel D.names line result chain.old chain.new }
    ensures keeps_saved { let was = kept_of (files_to_save D.DriverModel chain.old) saved.old in
        let files = files_to_save D.DriverModel chain.new in KeepsSaved line result files was (kept_of files saved.new) }
{
    match line {
        Line::Size => Answer::Number(chain.size()),
        Line::Check => check_top(alloc, chain),
        Line::Plain { offset, length } => told_bytes(read_plainly(alloc, chain, offset, length)),
        Line::Read { length, .. } if length > MOST_READ => Answer::Refused(Fault::BadArgument),
        line => answer_apart(alloc, chain, line, saved),
    }
}
