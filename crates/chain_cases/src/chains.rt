// The values of a case (one test of a script), and its calls: `Chains` passes each line to the module that makes the call.
use crate::arguments::asked_for;
use crate::creations::{create, create_stops};
use crate::files::{Base, NamedFiles, making_of};
use crate::images::probe;
use crate::layers::counts;
use crate::logs::Logs;
use crate::opened::Opened;
use crate::prefixes::{Looked, prefixes};
use crate::scripts::{Scripted, answer_told, run_fault_told};
use access_calls::done;
use cases::{Layer, Notes, Trouble, bytes, joined, number, ok, size, told};
use std::alloc::Global;
use std::cell::Cell;
use std::mem;

/// The files of a case, the disk over them, the disks whose files keep logs, and the chain in memory that scripts are run on.
pub struct Chains<'a> {
    files: NamedFiles<'a>,
    opened: Opened<Base<'a>>,
    logs: Option<Logs<'a>>,
    scripted: Option<Scripted>,
    notes: &'a Cell<Notes>,
}

// Replaces an optional value, and drops the old one.
fn put<T: Drop>(place: &mut Option<T>, value: Option<T>) {
    *place = value;
}

// Returns a line of text from words, with one blank between them.
fn line_of(alloc: Global, words: &[&str]) -> Result<String, Trouble> {
    let mut line = String::new(alloc);
    for word in words.iter() {
        joined(&mut line, word)?;
    }
    line.push_str("\n")?;
    Ok(line)
}

// Adds a file, or changes one.
fn change_file<'a>(
    alloc: Global,
    files: &mut NamedFiles<'a>,
    word: &str,
    name: &str,
    words: &[&str],
) -> Result<(), Trouble> {
    match (word, words) {
        ("file", words) => {
            let (making, given) = making_of(words)?;
            files.add(alloc, name, making, bytes(alloc, given)?)
        }
        ("put", [offset, given @ ..]) => {
            let given = bytes(alloc, given)?;
            files.put(alloc, name, number(offset)?, &given)
        }
        ("more", given) => {
            let given = bytes(alloc, given)?;
            files.append(alloc, name, &given)
        }
        ("line", words) => {
            let line = line_of(alloc, words)?;
            files.append(alloc, name, line.as_bytes())
        }
        ("cut", [length]) => files.cut(name, number(length)?),
        _ => Err(Trouble::NoCall),
    }
}

impl<'a> Chains<'a> {
    /// Creates a value without files. Storages add their calls to `notes`.
    pub fn new(alloc: Global, notes: &'a Cell<Notes>) -> Self {
        Chains {
            files: NamedFiles::new(alloc, notes),
            opened: Opened::new(),
            logs: None,
            scripted: None,
            notes,
        }
    }

    /// Drops all files and disks.
    pub fn close(self) {
        let Chains {
            files: _files,
            opened,
            logs,
            scripted,
            notes: _notes,
        } = self;
        drop(scripted);
        opened.close();
        if let Some(logs) = logs {
            logs.close();
        }
    }

    // Opens copies of files as a chain in memory, which replaces the previous one. If the opening fails, the case has no such chain.
    fn open_in_memory(&mut self, alloc: Global, words: &[&str]) -> Result<String, Trouble> {
        put(&mut self.scripted, None);
        let scripted = Scripted::open(alloc, words, &mut self.files)?;
        put(&mut self.scripted, Some(scripted));
        Ok(ok(alloc)?)
    }

    // Makes a call of the chain in memory: runs a script, or reads what the last one saved.
    fn scripted(&mut self, alloc: Global, words: &[&str]) -> Result<String, Trouble> {
        match &mut self.scripted {
            Some(scripted) => scripted.called(alloc, words),
            None => Err(Trouble::NoCall),
        }
    }

    // Opens prefixes of a file, one for each length between the two.
    fn prefixes(
        &mut self,
        alloc: Global,
        file: (&str, &str),
        lengths: [&str; 2],
        words: &[&str],
    ) -> Result<String, Trouble> {
        let [first, last] = lengths;
        let lengths = (size(first)?, size(last)?);
        prefixes(alloc, &mut self.files, file, lengths, Looked::new(words)?)
    }

    // Replaces the disks whose files keep logs. With `None`, calls are made on the disk without logs again.
    fn log(&mut self, logs: Option<Logs<'a>>) {
        if let Some(before) = mem::replace(&mut self.logs, logs) {
            before.close();
        }
    }

    fn forget(&mut self) {
        self.notes.set(Notes::none());
        if let Some(logs) = &mut self.logs {
            logs.forget();
        }
    }

    // Answers how many calls the layers' image files got. Without an open disk, `words` are passed on as any other call.
    fn counted(&mut self, alloc: Global, words: &[&str]) -> Result<String, Trouble> {
        match self.opened.disk() {
            Some(disk) => counts(alloc, disk),
            None => self.answered(alloc, words),
        }
    }

    // Makes a call of the disks whose files keep logs, if any, and otherwise of the disk.
    fn answered(&mut self, alloc: Global, words: &[&str]) -> Result<String, Trouble> {
        match &mut self.logs {
            Some(logs) => logs.answer(alloc, words, &mut self.files),
            None => self.opened.answer(alloc, words, &mut self.files),
        }
    }

    // Makes a call of the notes or the logs, or of the disk.
    fn called(&mut self, alloc: Global, words: &[&str]) -> Result<String, Trouble> {
        match words {
            ["asked"] => Ok(told(alloc, self.notes)?),
            ["forget"] => {
                self.forget();
                Ok(ok(alloc)?)
            }
            ["keep_logs", rest @ ..] => {
                let logs = Logs::new(rest)?;
                self.log(Some(logs));
                Ok(ok(alloc)?)
            }
            ["counts"] | ["if_open", "counts"] => self.counted(alloc, words),
            _ => self.answered(alloc, words),
        }
    }
}

impl<'a> Layer for Chains<'a> {
    fn begin(&mut self) {
        self.files.clear();
        self.opened.clear();
        self.log(None);
        put(&mut self.scripted, None);
        self.notes.set(Notes::none());
    }

    fn answer(&mut self, alloc: Global, words: &[&str]) -> Result<String, Trouble> {
        match words {
            [word, name, rest @ ..] if matches!(*word, "file" | "put" | "more" | "line" | "cut") =>
                { done(alloc, change_file(alloc, &mut self.files, word, name, rest)) }
            ["create", name, rest @ ..] => create(alloc, &mut self.files, name, rest),
            ["create_stops", name, offset, n, rest @ ..] => {
                create_stops(alloc, &mut self.files, name, (*offset, *n), rest)
            }
            ["prefixes", format, name, first, last, rest @ ..] => {
                self.prefixes(alloc, (*format, *name), [*first, *last], rest)
            }
            ["probe", format, name] => probe(alloc, &mut self.files, format, name),
            ["in_memory", rest @ ..] => self.open_in_memory(alloc, rest),
            [
                "script"
                | "script_bytes"
                | "script_count"
                | "script_in"
                | "script_read"
                | "script_write"
                | "saved"
                | "saved_below",
                ..
            ] => { self.scripted(alloc, words) }
            ["run_fault", name] => run_fault_told(alloc, name),
            ["answer_text", rest @ ..] => answer_told(alloc, rest),
            ["arguments", rest @ ..] => asked_for(alloc, rest),
            _ => self.called(alloc, words),
        }
    }
}
