// Splits a script into its cases, and the cases into their lines. The texts borrow from the script.
use crate::words::number;
use std::alloc::{AllocError, AllocFailed, Global};

/// A line: a call and its allowed answers.
#[derive(Clone, Copy)]
pub struct Line<'a> {
    /// The number of the line in the file, from 1 on.
    pub number: u64,
    /// The words of the call.
    pub call: &'a str,
    /// The allowed answers, separated by ` | `.
    pub wanted: &'a str,
}

/// The numbers of an `each` line. The case is run once with each of them.
#[derive(Clone, Copy)]
pub struct Each<'a> {
    /// The word that a number replaces.
    pub word: &'a str,
    /// The number of runs, from 1 on, in which a storage must refuse a call. In the next run none may be refused. If the script doesn't
    /// give it, the last run is the first in which no call is refused.
    pub faults: Option<u64>,
}

/// A case: lines that are run without any value of the previous case.
#[derive(Drop)]
pub struct Case<'a> {
    /// The number of the case's first line in the file.
    pub number: u64,
    /// The sentence after `case`, or `none` for the lines before the first `case`.
    pub name: &'a str,
    /// The lines of the case, in order.
    pub lines: Vec<Line<'a>>,
    /// The last valid `each` line, if the case has one.
    pub each: Option<Each<'a>>,
}

// Parses the words after `each`: `N`, or `N to 5`.
fn each_of(words: &str) -> Option<Each<'_>> {
    let Some((word, faults)) = words.split_once(" to ") else {
        return Some(Each {
            word: words,
            faults: None,
        });
    };
    match number(faults) {
        Ok(faults) => Some(Each {
            word,
            faults: Some(faults),
        }),
        Err(_) => None,
    }
}

impl<'a> Case<'a> {
    fn new(alloc: Global, number: u64, name: &'a str) -> Self {
        Case {
            number,
            name,
            lines: Vec::new(alloc),
            each: None,
        }
    }

    // Adds a line of the script that doesn't begin a case.
    fn take(&mut self, number: u64, text: &'a str) -> Result<(), AllocFailed<Line<'a>>> {
        if let Some(each) = text.strip_prefix("each ").and_then(each_of) {
            self.each = Some(each);
            return Ok(());
        }
        let (call, wanted) = text.split_once(" = ").unwrap_or((text, "ok"));
        self.lines.push(Line {
            number,
            call,
            wanted,
        })
    }
}

/// Returns the cases of a script in their order. Lines before the first `case` are a case of their own.
///
/// # Errors
///
/// - `AllocError` if memory runs out.
pub fn cases_of<'a>(alloc: Global, script: &'a str) -> Result<Vec<Case<'a>>, AllocError> {
    let mut cases = Vec::new(alloc);
    let mut number = 0u64;
    for line in script.lines() {
        number = number.saturating_add(1);
        let text = line.trim();
        if text.is_empty() || text.starts_with("#") {
            continue;
        }
        if let Some(name) = text.strip_prefix("case ") {
            cases.push(Case::new(alloc, number, name))?;
            continue;
        }
        if cases.is_empty() {
            cases.push(Case::new(alloc, number, "none"))?;
        }
        if let Some(case) = cases.last_mut() {
            case.take(number, text)?;
        }
    }
    Ok(cases)
}
