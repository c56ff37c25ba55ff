// Runs the cases of scripts, and prints each wrong answer. A case is run again if memory ran out in its first run.
use crate::layer::{Layer, Trouble};
use crate::script::{Case, Each, Line, cases_of};
use std::alloc::{AllocError, AllocFailed, Global};
use std::env::Env;
use std::fs::Files;
use std::process::ExitCode;
use std::{env, fmt, fs, io};

/// The greatest number of runs of one `each` case.
const MOST_RUNS: u64 = 4096;

/// The reason why the program ended early.
#[derive(Debug, Drop)]
enum Ended {
    Memory,
    Io,
}

impl fmt::Display for Ended {
    fn fmt<W: fmt::Write>(&self, f: &mut fmt::Formatter<W>) -> fmt::Result {
        let told = match self {
            Ended::Memory => "want of memory",
            Ended::Io => "input or output failed",
        };
        write!(f, "{told}")
    }
}

impl From<AllocError> for Ended {
    fn from(_: AllocError) -> Self {
        Ended::Memory
    }
}

impl<T: Drop> From<AllocFailed<T>> for Ended {
    fn from(_: AllocFailed<T>) -> Self {
        Ended::Memory
    }
}

impl From<io::Error> for Ended {
    fn from(_: io::Error) -> Self {
        Ended::Io
    }
}

/// The counts that the last line of the output reports.
#[derive(Clone, Copy)]
struct Counts {
    cases: u64,
    answers: u64,
    wrong: u64,
}

/// The outcome of a line.
#[derive(Clone, Copy, PartialEq, Eq)]
enum Outcome {
    Right,
    /// The storage refused the call, and the script allows this answer.
    Faulted,
    /// Memory ran out in the first run, and the script doesn't allow this answer.
    Starved,
    Wrong,
}

/// The circumstances of one run of a case.
#[derive(Clone, Copy)]
struct Round<'a> {
    file: &'a str,
    /// The sentence that describes the case.
    name: &'a str,
    /// The word that this run replaces, and the number that replaces it.
    each: Option<(&'a str, &'a str)>,
    /// Set if this is the second run, after memory ran out in the first.
    is_again: bool,
}

// Splits a text into words, and replaces the word of `each` by its number.
fn words_of<'a>(
    alloc: Global,
    text: &'a str,
    each: Option<(&str, &'a str)>,
) -> Result<Vec<&'a str>, AllocError> {
    let mut words = Vec::new(alloc);
    for word in text.split_whitespace() {
        let given = match each {
            Some((name, number)) if name == word => number,
            _ => word,
        };
        words.push(given)?;
    }
    Ok(words)
}

// Returns true if an answer is one of the allowed answers, which ` | ` separates.
fn is_wanted(
    alloc: Global,
    got: &str,
    wanted: &str,
    each: Option<(&str, &str)>,
) -> Result<bool, AllocError> {
    let words = words_of(alloc, got, None)?;
    for one in wanted.split(" | ") {
        if words_of(alloc, one, each)?.as_slice() == words.as_slice() {
            return Ok(true);
        }
    }
    Ok(false)
}

// Makes a call. Returns the text of its answer, and false if the words aren't a call.
fn make<L: Layer>(
    alloc: Global,
    layer: &mut L,
    call: &str,
    each: Option<(&str, &str)>,
) -> Result<(String, bool), AllocError> {
    let words = words_of(alloc, call, each)?;
    match layer.answer(alloc, words.as_slice()) {
        Ok(text) => Ok((text, true)),
        Err(Trouble::Refused(fault)) => Ok((fault.to_string(alloc)?, true)),
        Err(Trouble::NoCall) => Ok(("no such call".to_string(alloc)?, false)),
    }
}

// Compares an answer with the allowed answers.
fn judge(
    alloc: Global,
    got: &(String, bool),
    wanted: &str,
    round: Round<'_>,
) -> Result<Outcome, AllocError> {
    let (text, is_answer) = got;
    let text = text.as_str();
    if *is_answer && is_wanted(alloc, text, wanted, round.each)? {
        return Ok(if text == "error 21" {
            Outcome::Faulted
        } else {
            Outcome::Right
        });
    }
    if text == "error 20" && !round.is_again {
        return Ok(Outcome::Starved);
    }
    Ok(Outcome::Wrong)
}

// Prints a wrong answer.
fn tell(rt: &impl Print, round: Round<'_>, line: Line<'_>, got: &str) -> Result<(), Ended> {
    let Round { file, name, .. } = round;
    let Line {
        number,
        call,
        wanted,
    } = line;
    match round.each {
        Some((word, value)) => {
            println!(rt;
                "{file}:{number}: {call} = {got}, and not {wanted}, with {word} = {value}; case {name}"
            )?
        }
        None => println!(rt; "{file}:{number}: {call} = {got}, and not {wanted}; case {name}")?,
    }
    Ok(())
}

fn run_line<L: Layer>(
    rt: &impl Print,
    alloc: Global,
    layer: &mut L,
    line: Line<'_>,
    round: Round<'_>,
) -> Result<Outcome, Ended> {
    let got = make(alloc, layer, line.call, round.each)?;
    let outcome = judge(alloc, &got, line.wanted, round)?;
    if outcome == Outcome::Wrong {
        tell(rt, round, line, got.0.as_str())?;
    }
    Ok(outcome)
}

// Runs the lines of a case from the beginning. Returns true if a storage refused a call. The run ends with `Ended::Memory` at a line that
// unexpectedly runs out of memory.
fn run_lines<L: Layer>(
    rt: &impl Print,
    alloc: Global,
    layer: &mut L,
    case: &Case<'_>,
    round: Round<'_>,
    counts: &mut Counts,
) -> Result<bool, Ended> {
    layer.begin();
    let mut is_faulted = false;
    for line in case.lines.iter() {
        let outcome = run_line(rt, alloc, layer, *line, round)?;
        match outcome {
            Outcome::Right => {}
            Outcome::Faulted => is_faulted = true,
            Outcome::Wrong => counts.wrong = counts.wrong.saturating_add(1),
            Outcome::Starved => return Err(Ended::Memory),
        }
        counts.answers = counts.answers.saturating_add(1);
    }
    Ok(is_faulted)
}

// Runs a case, and runs it again if memory ran out in the first run. The counts of the first run are then discarded.
fn run_twice<L: Layer>(
    rt: &impl Print,
    alloc: Global,
    layer: &mut L,
    case: &Case<'_>,
    round: Round<'_>,
    counts: &mut Counts,
) -> Result<bool, Ended> {
    let before = *counts;
    match run_lines(rt, alloc, layer, case, round, counts) {
        Err(Ended::Memory) => {
            *counts = before;
            let again = Round {
                is_again: true,
                ..round
            };
            run_lines(rt, alloc, layer, case, again, counts)
        }
        ended => ended,
    }
}

// Prints and counts an error of a case as a whole.
fn tell_case(
    rt: &impl Print,
    file: &str,
    case: &Case<'_>,
    wrong: &str,
    counts: &mut Counts,
) -> Result<(), Ended> {
    let Case { number, name, .. } = case;
    println!(rt; "{file}:{number}: {wrong}; case {name}")?;
    counts.wrong = counts.wrong.saturating_add(1);
    Ok(())
}

// Runs a case with the number `n`. If the script gives the number of faults, a storage must refuse a call in each run up to this number.
// In a later run no storage may refuse one. Returns true if the case continues with the next number.
fn run_number<'x, L: Layer>(
    rt: &impl Print,
    alloc: Global,
    layer: &mut L,
    case: &Case<'x>,
    (file, each, n): (&'x str, Each<'x>, u64),
    counts: &mut Counts,
) -> Result<bool, Ended> {
    let number = n.to_string(alloc)?;
    let round = Round {
        file,
        name: case.name,
        each: Some((each.word, number.as_str())),
        is_again: false,
    };
    let is_faulted = run_twice(rt, alloc, layer, case, round, counts)?;
    let Some(faults) = each.faults else {
        return Ok(is_faulted);
    };
    let word = each.word;
    if n <= faults && !is_faulted {
        let wrong = format!(in alloc; "no call is refused with {word} = {n}")?;
        tell_case(rt, file, case, wrong.as_str(), counts)?;
    } else if n > faults && is_faulted {
        let wrong = format!(in alloc; "a call is refused with {word} = {n}")?;
        tell_case(rt, file, case, wrong.as_str(), counts)?;
    }
    Ok(n <= faults)
}
// Runs a case with the numbers from 1 on. The last number is the one after `faults`. If the script doesn't give `faults`, the last number
// is the first one with which no storage refuses a call.

fn run_each<'x, L: Layer>(
    rt: &impl Print,
    alloc: Global,
    layer: &mut L,
    case: &Case<'x>,
    (file, each): (&'x str, Each<'x>),
    counts: &mut Counts,
) -> Result<(), Ended> {
    for n in 1..=MOST_RUNS {
        if !run_number(rt, alloc, layer, case, (file, each, n), counts)? {
            return Ok(());
        }
    }
    let wrong = format!(in alloc; "no end of faults up to {MOST_RUNS}")?;
    tell_case(rt, file, case, wrong.as_str(), counts)
}

fn run_case<'x, L: Layer>(
    rt: &impl Print,
    alloc: Global,
    layer: &mut L,
    case: &Case<'x>,
    file: &'x str,
    counts: &mut Counts,
) -> Result<(), Ended> {
    counts.cases = counts.cases.saturating_add(1);
    if case.lines.is_empty() {
        return tell_case(rt, file, case, "no line", counts);
    }
    if let Some(each) = case.each {
        return run_each(rt, alloc, layer, case, (file, each), counts);
    }
    let round = Round {
        file,
        name: case.name,
        each: None,
        is_again: false,
    };
    run_twice(rt, alloc, layer, case, round, counts)?;
    Ok(())
}

fn run_script<'x, L: Layer>(
    rt: &impl Print,
    alloc: Global,
    layer: &mut L,
    file: &'x str,
    script: &'x str,
    counts: &mut Counts,
) -> Result<(), Ended> {
    let cases = cases_of(alloc, script)?;
    if cases.is_empty() {
        println!(rt; "{file}: no case")?;
        counts.wrong = counts.wrong.saturating_add(1);
    }
    for case in cases.iter() {
        run_case(rt, alloc, layer, case, file, counts)?;
    }
    Ok(())
}

// Reads the text of a file. If that fails, the error is printed, too.
fn script_of<R: Files + Print + AllocGlobal>(rt: &R, file: &str) -> Result<String, Ended> {
    let script = fs::read_to_string(rt, file);
    if let Err(error) = &script {
        println!(rt; "{file}: {error}")?;
    }
    Ok(script?)
}

// Runs the scripts that are given as arguments. Without arguments it runs the script on standard input. Returns the number of scripts.
fn run_files<R: Files + Env + Input + Print + AllocGlobal, L: Layer>(
    rt: &R,
    layer: &mut L,
    counts: &mut Counts,
) -> Result<u64, Ended> {
    let mut files = 0u64;
    for file in env::args(rt)?.skip(1) {
        let script = script_of(rt, file.as_str())?;
        run_script(
            rt,
            rt.alloc(),
            layer,
            file.as_str(),
            script.as_str(),
            counts,
        )?;
        files = files.saturating_add(1);
    }
    if files == 0 {
        let script = io::read_to_string(rt.alloc(), rt.reader())?;
        run_script(rt, rt.alloc(), layer, "input", script.as_str(), counts)?;
        files = 1;
    }
    Ok(files)
}

/// Runs the scripts whose paths are the program's arguments. Without arguments it runs the script on standard input.
///
/// Each wrong answer is printed, with file, line, call, answer, required answer and case. A file without a case is wrong, and so is a case
/// without a line. The last line of the output counts scripts, cases, answers and wrong answers. If a call answers `error 20` (out of
/// memory) and that is wrong, the case is run once more.
///
/// The status is:
///
/// - 0 if no answer is wrong.
/// - 1 if an answer is wrong, or the counts can't be printed.
/// - 2 if the run ended early, because memory ran out, a script can't be read or the output failed.
pub fn run<R: Files + Env + Input + Print + AllocGlobal, L: Layer>(
    rt: &R,
    layer: &mut L,
) -> ExitCode {
    let mut counts = Counts {
        cases: 0,
        answers: 0,
        wrong: 0,
    };
    let ended = run_files(rt, layer, &mut counts);
    let Counts {
        cases,
        answers,
        wrong,
    } = counts;
    match ended {
        Ok(files) => {
            let told = println!(rt;
                "scripts: {files}, cases: {cases}, answers: {answers}, wrong: {wrong}"
            );
            ExitCode::from(u8::from(wrong > 0 || told.is_err()))
        }
        Err(ended) => {
            let _ = println!(rt; "{ended}");
            ExitCode::from(2)
        }
    }
}
