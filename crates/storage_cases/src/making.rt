// Makes the storage that a line describes, with its fuses and logs.
use crate::stack::Stack;
use cases::{Notes, Shaped, Trouble, bytes, is_alignment, number, size};
use imago_storage::{FuseStorage, LogStorage, MemStorage, Null};
use std::alloc::Global;
use std::cell::Cell;

// Makes a storage with four alignments. It resolves names if the first word is `resolving`.
fn lowest<'a>(
    alloc: Global,
    words: &[&str],
    notes: &'a Cell<Notes>,
) -> Result<Shaped<'a>, Trouble> {
    match words {
        ["resolving", rest @ ..] => Ok(Shaped::of_words(alloc, rest, notes)?.resolving()),
        _ => Shaped::of_words(alloc, words, notes),
    }
}

// A kind of storage: the lowest storage, or what wraps it.
#[derive(Clone, Copy)]
enum Kind {
    Memory(usize),
    Empty(usize),
    Null(u64),
    Fuse(u64),
    Log(u64),
    FuseOverLog(u64, u64),
}

fn kind_of<'a, 'b>(words: &'a [&'b str]) -> Result<(Kind, &'a [&'b str]), Trouble> {
    match words {
        ["memory", align, rest @ ..] => Ok((Kind::Memory(size(align)?), rest)),
        ["empty", align] => Ok((Kind::Empty(size(align)?), &[])),
        ["null", size] => Ok((Kind::Null(number(size)?), &[])),
        ["fuse", n, rest @ ..] => Ok((Kind::Fuse(number(n)?), rest)),
        ["log", n, rest @ ..] => Ok((Kind::Log(number(n)?), rest)),
        ["fuse_log", n, m, rest @ ..] => Ok((Kind::FuseOverLog(number(n)?, number(m)?), rest)),
        _ => Ok((Kind::Fuse(0), words)),
    }
}

fn memory_of<'a>(alloc: Global, align: usize, words: &[&str]) -> Result<Stack<'a>, Trouble> {
    if !is_alignment(align) {
        return Err(Trouble::NoCall);
    }
    let memory = MemStorage::from_bytes(bytes(alloc, words)?)?;
    Ok(Stack::Memory(memory.with_align(align)))
}

fn empty_of<'a>(alloc: Global, align: usize) -> Result<Stack<'a>, Trouble> {
    if !is_alignment(align) {
        return Err(Trouble::NoCall);
    }
    Ok(Stack::Memory(MemStorage::new(alloc).with_align(align)))
}

fn fuse<'a>(lowest: Shaped<'a>, n: u64) -> Stack<'a> {
    Stack::Fuse(FuseStorage::new(lowest, n))
}

fn log<'a>(alloc: Global, lowest: Shaped<'a>, n: u64) -> Result<Stack<'a>, Trouble> {
    Ok(Stack::Log(LogStorage::new(alloc, FuseStorage::new(lowest, n))?))
}

fn fuse_over_log<'a>(
    alloc: Global,
    lowest: Shaped<'a>,
    n: u64,
    below: u64,
) -> Result<Stack<'a>, Trouble> {
    let log = LogStorage::new(alloc, FuseStorage::new(lowest, below))?;
    Ok(Stack::FuseOverLog(FuseStorage::new(log, n)))
}

/// Makes the storage that `words` describe.
///
/// - `memory ALIGN BYTES`: a storage in memory.
/// - `empty ALIGN`: a storage in memory that was never written.
/// - `null SIZE`: a storage that holds nothing.
/// - A storage with four alignments. It is always in a fuse. `fuse N` sets the fuse, `log N` puts a log over the fuse, and `fuse_log N M`
///   puts a fuse over a log over a fuse.
///
/// The Nth call of a fuse fails. If N is 0 or isn't given, no call fails.
pub fn storage_of<'a>(
    alloc: Global,
    words: &[&str],
    notes: &'a Cell<Notes>,
) -> Result<Stack<'a>, Trouble> {
    let (kind, rest) = kind_of(words)?;
    match kind {
        Kind::Memory(align) => memory_of(alloc, align, rest),
        Kind::Empty(align) => empty_of(alloc, align),
        Kind::Null(size) => Ok(Stack::Null(Null::new(size))),
        Kind::Fuse(n) => Ok(fuse(lowest(alloc, rest, notes)?, n)),
        Kind::Log(n) => log(alloc, lowest(alloc, rest, notes)?, n),
        Kind::FuseOverLog(n, m) => fuse_over_log(alloc, lowest(alloc, rest, notes)?, n, m),
    }
}
