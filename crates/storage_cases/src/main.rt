//! Runs scripts of calls to storages and checks their answers.
//!
//! # Storages
//!
//! `on STORAGE` makes the storage of a case, and drops the one before. A STORAGE is one of these.
//!
//! - `memory ALIGN BYTES`, `empty ALIGN`: a storage in memory with four equal alignments; with bytes, or never written.
//! - `null SIZE`: a storage that holds nothing.
//! - `[resolving] MEM REQ ZERO DISCARD HAS BYTES`: a storage in memory with these four alignments, for memory, requests, zeroes and
//!   discards, and with what it supports (`z` zeroes, `d` discards, `zd`, `-`). With `resolving` it resolves names, as `below/NAME`.
//! - `fuse N ..`: the last kind, in a fuse whose Nth call fails. `log N ..`: the same fuse in a log. `fuse_log N M ..`: a fuse over a log
//!   over a fuse whose Mth call fails. If a number is 0, no call fails. A new log first reads its storage, and the fuse below counts this
//!   call.
//!
//! # Calls
//!
//! - `read OFFSET N`. `read_here OFFSET N`: at most 64 bytes, into a buffer that takes no memory; the answer is `no room` if memory runs
//!   out. `write OFFSET BYTES`. `try_write OFFSET BYTES`: if it fails, the answer says whether the write had begun: `before error N` or
//!   `within error N`.
//! - `zeroes`, `allocated`, `full`, `discard OFFSET N`: zeroes, zeroes that stay allocated, zeroes that are written, discards.
//! - `pure_read`, `pure_zeroes`, `pure_allocated`, `pure_discard OFFSET N`, `pure_write OFFSET BYTES`: the storage's own calls, unpadded.
//! - `resize SIZE none | zero | allocate | data`; `flush`, `sync`, `invalidate`.
//! - `size`; `aligns`, four numbers; `filename`; `resolve NAME`.
//! - `asked`: the requests of the lowest storage with four alignments, since they were last printed.
//! - Of a fuse: `count`, the number of its calls. Of a log: `mark`, the number of requests that it has kept (also of a fuse over a log);
//!   `requests`, these requests in order; `stop K`, the crash image after the first K requests; `in_step`, whether the crash image after
//!   all requests has the bytes of the storage; `into_inner` removes the log. `again CALL`: makes a call, and makes it once more if memory
//!   runs out and the log is in step.
//! - Of a storage in memory: `bytes`; `into_bytes`, which consumes the storage.
//!
//! # Calls that need no storage
//!
//! They are for cases that make no storage.
//!
//! - `open_options`, `create_options`, `create_open new | default NAME=VALUE ..`: sets options one after another and prints all of them.
//!   `create_open` prints the options for opening a storage that is created with these. Names: `filename`, `write`, `direct`; to create,
//!   also `size`, `preallocate`, `overwrite`.
//! - `padded_end OFFSET N UNIT`, or `none`; `larger_alignment A B`; `fault NAME`: number, kind and text of a fault by its Rust name.
#![tactic(auto)]

mod calls;
mod logs;
mod making;
mod options;
mod plain;
mod script;
mod stack;

use calls::text;
use cases::{Layer, Notes, Trouble, ok, run, told};
use imago_storage::Fault;
use making::storage_of;
use stack::Stack;
use std::alloc::Global;
use std::cell::Cell;
use std::process::ExitCode;

/// The storage of a case.
#[derive(Drop)]
struct Storages<'a> {
    stack: Option<Stack<'a>>,
    notes: &'a Cell<Notes>,
}

impl<'a> Storages<'a> {
    // Makes a storage, and drops the one before.
    fn make(&mut self, alloc: Global, words: &[&str]) -> Result<String, Trouble> {
        let stack = storage_of(alloc, words, self.notes)?;
        self.stack = Some(stack);
        self.notes.set(Notes::none());
        Ok(ok(alloc)?)
    }

    // Makes a call of the storage. If the case has no storage, makes a call that needs none.
    fn call(&mut self, alloc: Global, words: &[&str]) -> Result<String, Trouble> {
        let Some(stack) = &mut self.stack else {
            return plain::answer(alloc, words);
        };
        let answer = stack.make(alloc, words)?;
        Ok(text(alloc, &answer)?)
    }

    // Makes a call of a log. If memory runs out and the log is in step, the call is made once more.
    fn call_again(&mut self, alloc: Global, words: &[&str]) -> Result<String, Trouble> {
        match self.call(alloc, words) {
            Err(Trouble::Refused(Fault::Memory)) => {
                if self.call(alloc, &["in_step"])?.as_str() != "true" {
                    return Ok("out of step".to_string(alloc)?);
                }
                self.call(alloc, words)
            }
            answer => answer,
        }
    }

    // Removes the log from the storage that it was made over.
    fn unwrap(&mut self, alloc: Global) -> Result<String, Trouble> {
        let Some(stack) = self.stack.take() else {
            return Err(Trouble::NoCall);
        };
        self.stack = Some(stack.into_inner()?);
        Ok(ok(alloc)?)
    }

    // Takes the bytes of a storage in memory. The storage is dropped.
    fn take_bytes(&mut self, alloc: Global) -> Result<String, Trouble> {
        let Some(stack) = self.stack.take() else {
            return Err(Trouble::NoCall);
        };
        let bytes = stack.into_bytes()?;
        Ok(text(alloc, &bytes)?)
    }
}

impl<'a> Layer for Storages<'a> {
    fn begin(&mut self) {
        self.stack = None;
        self.notes.set(Notes::none());
    }

    fn answer(&mut self, alloc: Global, words: &[&str]) -> Result<String, Trouble> {
        match words {
            ["on", rest @ ..] => self.make(alloc, rest),
            ["asked"] => Ok(told(alloc, self.notes)?),
            ["again", rest @ ..] => self.call_again(alloc, rest),
            ["into_inner"] => self.unwrap(alloc),
            ["into_bytes"] => self.take_bytes(alloc),
            _ => self.call(alloc, words),
        }
    }
}

fn main(rt: HostRuntime) -> ExitCode {
    let notes = Cell::new(Notes::none());
    let mut storages = Storages {
        stack: None,
        notes: &notes,
    };
    run(&rt, &mut storages)
}
