//! A program for disk images. It opens files as a chain (an image and its backing chain) and runs a script (one call a line) over the
//! chain. Without arguments the chain is a new image in memory. Terms are explained in docs/GLOSSARY.md.
//!
//! The arguments are `qimg [-r | -c] LAYER ..`, the top image first. A LAYER is `raw PATH`, `qcow2 PATH` or `vmdk PATH`, followed by any
//! number of `file NAME PATH`: the files that the image refers to for its data (VMDK extents). With `-r` the top is opened read-only. With
//! `-c` the image below it is opened for writing, too, so that the line `commit` can write to it. The checker doesn't look at the files.
//!
//! `qimg create [-s CLUSTER_SIZE] [-w REFCOUNT_BITS] [-b BACKING_FILE -F BACKING_FORMAT] [-p MODE] FILE SIZE` makes a qcow2 image instead. The
//! file must not exist. Sizes are in bytes, or with `k`, `M`, `G` or `T` in units of 2^10 to 2^40 bytes. The header gets the name of the
//! backing file and its format, and the backing file isn't opened. The modes of preallocation are those of the script's line `grow`.
//!
//! `qimg check [--repair leaks] FILE` checks a qcow2 file by itself. With `--repair leaks` (or `-r leaks`) it lowers the refcounts of leaked
//! clusters, and replaces the file as a save does. Its status is like that of `qemu-img check`: 0 if the image has no errors (any more), 1 if it
//! couldn't be checked or repaired, also for bad arguments, 2 if it is damaged, and 3 if clusters leak.
//!
//! `qimg commit FILE` commits the data of a qcow2 file to its backing file, and empties FILE. The backing files are those that the headers
//! name, raw or qcow2. Both files are replaced like by a save, the backing file first. The status is 0 or 1, also for bad arguments.
//!
//! `qimg --in-place [--cache BYTES] [-r] FORMAT FILE ..` runs the script on the files themselves, without a copy of them. Each change is in the
//! top's file before it is answered. See the module `in_place`.
//!
//! The script comes from standard input, and its answers go to standard output. The module `script` of `qimg_chain` lists the lines of a
//! script. Without `--in-place` the files are read completely at the start. At the end, the bytes of the last successful `save`, if any, replace the top file.
//! With `-c` the second file is replaced before it, and with `-r` no file is, as nothing has changed. Without arguments the program makes a
//! writable qcow2 image of 65,536 bytes, and writes no file.
//!
//! | Status | Standard error | When |
//! |---|---|---|
//! | 0 | | the script ended; its lines may have been answered with errors |
//! | 1 | `qimg: error N` | the chain doesn't open, or the image can't be created, with the fault of this number |
//! | 1 | `qimg: FILE exists` | the file of a new image exists |
//! | 2 | `qimg: bad arguments` | the arguments aren't valid |
//! | 3 | `qimg: input or output failed` | a file or a stream failed, memory ran out for it, or the script is too long |
//!
//! If the top is opened for writing, the status is also 3 for a top file that isn't a regular file or isn't writable. It is also 3 if the
//! top file has changed before a save replaces it.
//!
//! It is also 3 if `PATH.qimg-new` exists when the saved bytes are written, for example because an earlier run was stopped. Then a second
//! line on standard error has the path of that file and asks the user to remove it.
#![tactic(auto)]

mod backing;
mod checking;
mod committing;
mod creation;
mod failure;
mod files;
mod in_place;
mod streams;
mod top_file;

use checking::check_file;
use committing::commit;
use creation::create;
use failure::{Failure, Finding, Uncommitted, advice, status};
use files::{new_files, read_files};
use imago_storage::{Fault, MemStorage};
use qimg_chain::arguments::{Arguments, Opening, parse};
use qimg_chain::run::{Saved, run_files, run_for_commit};
use qimg_core::plain::ChainFile;
use std::cell::RefCell;
use std::env::Env;
use std::fs::Files;
use std::io::{BufReader, BufWriter, ErrorKind, Write};
use std::process::ExitCode;
use std::{env, io};
use streams::{Answers, Script};
use top_file::TopFile;

/// The number that the chain's image gets, by which a prepared mapping (a run that is not yet committed) identifies its image.
const CHAIN: u64 = 1;

/// The number of the image below it, if that is opened for writing.
const BELOW: u64 = 2;

/// The number of bytes of the script that are read in one call. It is four times the longest line, so most lines are buffered completely.
const READ_AT_ONCE: usize = 262_144;

/// Returns the program's arguments, without its name. An argument that isn't text fails with `Failure::Arguments`.
fn words<R: Env + AllocGlobal>(rt: &R) -> Result<Vec<String>, Failure> {
    match env::args(rt) {
        Ok(words) => Ok(words.skip(1).collect(rt.alloc())?),
        Err(error) if error.kind() == ErrorKind::OutOfMemory => Err(Failure::InputOutput),
        Err(_) => Err(Failure::Arguments),
    }
}

/// Parses the arguments of a script. Returns `None` without arguments.
fn arguments<R: AllocGlobal>(rt: &R, words: &[&str]) -> Result<Option<Arguments>, Failure> {
    match parse(rt.alloc(), words) {
        Ok(arguments) => Ok(arguments),
        Err(Fault::Memory) => Err(Failure::InputOutput),
        Err(_) => Err(Failure::Arguments),
    }
}

/// Opens files as a chain and runs the script on standard input over it. Returns what the last successful `save` kept, if any.
fn run_script<R: Input + Print + AllocGlobal>(
    rt: &R,
    files: Vec<ChainFile<MemStorage>>,
    opening: Opening,
) -> Result<Option<Saved>, Failure> {
    let buffer = RefCell::new(BufWriter::new(rt.alloc(), io::writer(rt))?);
    let script = Script {
        input: rt.reader(),
        answers: Answers { buffer: &buffer },
    };
    let input = BufReader::with_capacity(rt.alloc(), READ_AT_ONCE, script)?;
    let mut output = Answers { buffer: &buffer };
    let ended = match opening {
        Opening::ForCommit => run_for_commit(rt.alloc(), files, CHAIN, BELOW, input, &mut output),
        Opening::Writable => run_files(rt.alloc(), files, true, CHAIN, input, &mut output),
        Opening::ReadOnly => run_files(rt.alloc(), files, false, CHAIN, input, &mut output),
    };
    let flushed = output.flush();
    // The failure to open the chain is reported, even if the output can't be written.
    let saved = ended?;
    flushed?;
    Ok(saved)
}

/// Returns the top file if it is opened for writing, as it may be replaced, and the second file likewise. Both can't be the same file.
fn replaceable<R: Files + AllocGlobal>(
    rt: &R,
    arguments: &Arguments,
) -> Result<(Option<TopFile>, Option<TopFile>), Failure> {
    let layers = arguments.layers.as_slice();
    match (arguments.opening, layers) {
        (Opening::ForCommit, [top, below, ..]) => {
            let top = TopFile::at(rt, &top.path)?;
            let below = TopFile::at(rt, &below.path)?;
            if top.is_same(&below) {
                return Err(Failure::Arguments);
            }
            Ok((Some(top), Some(below)))
        }
        (Opening::ForCommit | Opening::Writable, [top, ..]) => {
            Ok((Some(TopFile::at(rt, &top.path)?), None))
        }
        _ => Ok((None, None)),
    }
}

/// Replaces the top file with what was saved, if it may be replaced, and likewise the second file.
fn replace<R: Files + AllocGlobal>(
    rt: &R,
    top: Option<TopFile>,
    below: Option<TopFile>,
    saved: Saved,
) -> Result<(), Failure> {
    match (top, below, saved.below) {
        (Some(top), Some(below), Some(bytes)) => {
            top.replace_with_below(rt, &saved.top, &below, &bytes)
        }
        (Some(top), _, _) => top.replace(rt, &saved.top),
        (None, _, _) => Ok(()),
    }
}

/// Runs the script over the files in the arguments, and replaces the files with the saved bytes, if any: the second file, then the top.
fn serve_files<R: Files + Input + Print + AllocGlobal>(
    rt: &R,
    arguments: &Arguments,
) -> Result<(), Failure> {
    let (top, below) = replaceable(rt, arguments)?;
    let files = read_files(rt, &arguments.layers)?;
    match run_script(rt, files, arguments.opening)? {
        None => Ok(()),
        Some(saved) => replace(rt, top, below, saved),
    }
}

/// Checks a file, as the arguments that follow `check` say.
fn check<R: Files + Print + AllocGlobal>(rt: &R, words: &[&str]) -> Result<(), Failure> {
    check_file(rt, checking::parse(words)?)?;
    Ok(())
}

/// Runs the program with its arguments.
fn serve<R: Env + Files + Input + Print + AllocGlobal>(rt: &R) -> Result<(), Failure> {
    let words = words(rt)?;
    let texts: Vec<&str> = words.iter().map(|word| word.as_str()).collect(rt.alloc())?;
    if let ["create", asked @ ..] = texts.as_slice() {
        return create(rt, creation::parse(rt.alloc(), asked)?);
    }
    if let ["check", asked @ ..] = texts.as_slice() {
        return check(rt, asked);
    }
    if let ["commit", asked @ ..] = texts.as_slice() {
        commit(rt, committing::parse(asked)?)?;
        return Ok(());
    }
    if let Some(arguments) = arguments(rt, &texts)? {
        return serve_files(rt, &arguments);
    }
    let _saved = run_script(rt, new_files(rt.alloc())?, Opening::Writable)?;
    Ok(())
}

/// Runs the program with its arguments, in place if they begin with `--in-place`.
fn serve_host(rt: &HostRuntime) -> Result<(), Failure> {
    let words = words(rt)?;
    let texts: Vec<&str> = words.iter().map(|word| word.as_str()).collect(rt.alloc())?;
    if let ["--in-place", asked @ ..] = texts.as_slice() {
        return in_place::serve(rt, &in_place::parse(rt.alloc(), asked)?);
    }
    serve(rt)
}

fn main(rt: HostRuntime) -> ExitCode {
    let outcome = serve_host(&rt);
    if let Err(failure) = &outcome {
        let _ = eprintln!(rt; "qimg: {failure}");
        if let Some(advice) = advice(failure) {
            let _ = eprintln!(rt; "qimg: {advice}");
        }
        if let Failure::LeftOver(path)
        | Failure::Check(Finding::LeftOver(path))
        | Failure::Commit(Uncommitted::LeftOver(path)) = failure
        {
            let _ = eprintln!(rt; "qimg: {path} exists; remove it if no other run is saving");
        }
    }
    ExitCode::from(status(&outcome))
}
