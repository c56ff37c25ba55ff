// The storage of a case, and its calls.
use crate::calls::{Answer, Call, perform};
use crate::logs::{in_step, requests, stop};
use crate::script::call;
use cases::{Shaped, Trouble, size};
use imago_storage::{FuseStorage, LogStorage, MemStorage, Null, StopStorage};
use std::alloc::Global;

/// The storage of a case, with its fuses and logs.
#[derive(Drop)]
pub enum Stack<'a> {
    Memory(MemStorage),
    Null(Null),
    Fuse(FuseStorage<Shaped<'a>>),
    Log(LogStorage<FuseStorage<Shaped<'a>>>),
    FuseOverLog(FuseStorage<LogStorage<FuseStorage<Shaped<'a>>>>),
}

impl<'a> Stack<'a> {
    fn perform(&mut self, alloc: Global, call: &Call) -> Result<Answer, Trouble> {
        match self {
            Stack::Memory(storage) => perform(alloc, storage, call),
            Stack::Null(storage) => perform(alloc, storage, call),
            Stack::Fuse(storage) => perform(alloc, storage, call),
            Stack::Log(storage) => perform(alloc, storage, call),
            Stack::FuseOverLog(storage) => perform(alloc, storage, call),
        }
    }

    fn make_call(&mut self, alloc: Global, words: &[&str]) -> Result<Answer, Trouble> {
        let made = call(alloc, words)?;
        self.perform(alloc, &made)
    }

    fn count(&self) -> Result<Answer, Trouble> {
        match self {
            Stack::Fuse(storage) => Ok(Answer::Number(storage.count())),
            Stack::FuseOverLog(storage) => Ok(Answer::Number(storage.count())),
            _ => Err(Trouble::NoCall),
        }
    }

    fn mark(&self) -> Result<Answer, Trouble> {
        match self {
            Stack::Log(storage) => Ok(Answer::Number(storage.mark() as u64)),
            Stack::FuseOverLog(storage) => Ok(Answer::Number(storage.mark() as u64)),
            _ => Err(Trouble::NoCall),
        }
    }

    // Makes a call that only logs have.
    fn log_call(&mut self, alloc: Global, words: &[&str]) -> Result<Answer, Trouble> {
        let Stack::Log(log) = self else {
            return Err(Trouble::NoCall);
        };
        match words {
            ["stop", k] => stop(log, size(k)?),
            ["in_step"] => in_step(alloc, log),
            _ => requests(alloc, log),
        }
    }

    // Copies the bytes of a storage in memory.
    fn copy(&self) -> Result<Answer, Trouble> {
        match self {
            Stack::Memory(storage) => Ok(Answer::Bytes(storage.bytes()?)),
            _ => Err(Trouble::NoCall),
        }
    }

    /// Makes a call.
    pub fn make(&mut self, alloc: Global, words: &[&str]) -> Result<Answer, Trouble> {
        match words {
            ["count"] => self.count(),
            ["mark"] => self.mark(),
            ["bytes"] => self.copy(),
            ["stop", _] | ["in_step"] | ["requests"] => self.log_call(alloc, words),
            _ => self.make_call(alloc, words),
        }
    }

    /// Returns the storage that a log was made over.
    pub fn into_inner(self) -> Result<Self, Trouble> {
        match self {
            Stack::Log(log) => Ok(Stack::Fuse(log.into_inner())),
            _ => Err(Trouble::NoCall),
        }
    }

    /// Returns the bytes of a storage in memory.
    pub fn into_bytes(self) -> Result<Answer, Trouble> {
        match self {
            Stack::Memory(storage) => Ok(Answer::Bytes(storage.into_bytes()?)),
            _ => Err(Trouble::NoCall),
        }
    }
}
