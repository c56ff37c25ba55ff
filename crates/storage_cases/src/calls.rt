// A call of a storage, as a line of a script has it, and its answer.
ghost use Rattle.std.specs.Prelude.{◌≡◌, ◌<◌, IfOk, IsTrue, length};
ghost use Rattle.imago_storage.specs.State.{IsUnitRange, unit_of};

use cases::{Trouble, ok, runs};
use imago_storage::{
    Fault, PreallocateMode, Storage, StorageExt, WriteFault, larger_alignment, write_full_zeroes,
};
use std::alloc::{AllocError, Global};

/// The most bytes that a call reads.
const MOST: u64 = 16_777_216;

/// A call of a storage, with its arguments. Offsets and lengths are in bytes.
#[derive(Drop)]
pub enum Call {
    Aligns,
    Size,
    Read(u64, u64),
    ReadHere(u64, u64),
    PureRead(u64, u64),
    Write(u64, Vec<u8>),
    TryWrite(u64, Vec<u8>),
    PureWrite(u64, Vec<u8>),
    Range(Kind, u64, u64),
    Resize(u64, PreallocateMode),
    Flush,
    Sync,
    Invalidate,
    Filename,
    Resolve(String),
}

/// A call that has a range and nothing else.
#[derive(Clone, Copy)]
pub enum Kind {
    Zeroes,
    Allocated,
    Full,
    Discard,
    PureZeroes,
    PureAllocated,
    PureDiscard,
}

/// The answer of a call that succeeds.
#[derive(Drop)]
pub enum Answer {
    Done,
    Number(u64),
    Four([usize; 4]),
    Bytes(Vec<u8>),
    Flag(bool),
    Text(String),
    /// A write failed. The fault says whether the write had begun.
    NotWritten(WriteFault),
    /// Memory ran out in a call that should need none.
    NoRoom,
}

// Returns true if a range is whole units of an alignment, and its end fits in 64 bits.
fn is_whole(unit: usize, offset: u64, n: u64) -> bool
    requires { 0 < unit }
    ensures { IsTrue result → IsUnitRange unit offset n }
{
    offset % unit as u64 == 0 && n % unit as u64 == 0 && offset.checked_add(n).is_some()
}

// Returns the unit of requests, in bytes.
fn unit<S: Storage>(storage: &S) -> usize
    ensures unit { result ≡ unit_of (S.state storage.now).shape }
    ensures positive { 0 < result }
{
    larger_alignment(storage.req_align(), storage.mem_align())
}

/// Creates a buffer of `n` bytes.
pub fn buffer(alloc: Global, n: u64) -> Result<Vec<u8>, Trouble>
    ensures { IfOk result (λ buf. length buf.items ≡ n) }
{
    if n > MOST {
        return Err(Trouble::NoCall);
    }
    Ok(vec![in alloc; 7u8; n as usize]?)
}

fn read<S: Storage>(
    alloc: Global,
    storage: &mut S,
    offset: u64,
    n: u64,
) -> Result<Answer, Trouble> {
    let mut buf = buffer(alloc, n)?;
    storage.read(alloc, &mut buf, offset)?;
    Ok(Answer::Bytes(buf))
}

// Reads into a buffer that takes no memory. If memory runs out, the call itself needed it, and the answer is `Answer::NoRoom`.
fn read_here<S: Storage>(
    alloc: Global,
    storage: &mut S,
    offset: u64,
    n: u64,
) -> Result<Answer, Trouble> {
    let mut held = [7u8; 64];
    let Some(buf) = held.get_mut(..n as usize) else {
        return Err(Trouble::NoCall);
    };
    match storage.read(alloc, buf, offset) {
        Ok(()) => Ok(Answer::Bytes(buf.to_vec(alloc)?)),
        Err(Fault::Memory) => Ok(Answer::NoRoom),
        Err(fault) => Err(Trouble::Refused(fault)),
    }
}

fn pure_read<S: Storage>(
    alloc: Global,
    storage: &mut S,
    offset: u64,
    n: u64,
) -> Result<Answer, Trouble> {
    let mut buf = buffer(alloc, n)?;
    if !is_whole(unit(storage), offset, n) {
        return Err(Trouble::NoCall);
    }
    storage.pure_read(&mut buf, offset)?;
    Ok(Answer::Bytes(buf))
}

// Makes a write that reports whether it had begun. If memory runs out, the fault is returned like that of any other call, so that the call
// is made once more.
fn try_write<S: Storage>(
    alloc: Global,
    storage: &mut S,
    offset: u64,
    bytes: &[u8],
) -> Result<Answer, Trouble> {
    let Err(refused) = storage.try_write(alloc, bytes, offset) else {
        return Ok(Answer::Done);
    };
    match refused.fault() {
        Fault::Memory => Err(Trouble::Refused(Fault::Memory)),
        _ => Ok(Answer::NotWritten(refused)),
    }
}

fn pure_write<S: Storage>(storage: &mut S, offset: u64, bytes: &[u8]) -> Result<(), Trouble> {
    if !is_whole(unit(storage), offset, bytes.len() as u64) {
        return Err(Trouble::NoCall);
    }
    Ok(storage.pure_write(bytes, offset)?)
}

fn pure_zeroes<S: Storage>(
    storage: &mut S,
    is_allocated: bool,
    offset: u64,
    n: u64,
) -> Result<(), Trouble> {
    let align = storage.zero_align();
    if !is_whole(unit(storage), offset, n) || !is_whole(align, offset, n) {
        return Err(Trouble::NoCall);
    }
    if is_allocated {
        Ok(storage.pure_write_allocated_zeroes(offset, n)?)
    } else {
        Ok(storage.pure_write_zeroes(offset, n)?)
    }
}

fn pure_discard<S: Storage>(storage: &mut S, offset: u64, n: u64) -> Result<(), Trouble> {
    let align = storage.discard_align();
    if !is_whole(unit(storage), offset, n) || !is_whole(align, offset, n) {
        return Err(Trouble::NoCall);
    }
    Ok(storage.pure_discard(offset, n)?)
}

fn range<S: Storage>(
    alloc: Global,
    storage: &mut S,
    kind: Kind,
    offset: u64,
    n: u64,
) -> Result<(), Trouble> {
    match kind {
        Kind::Zeroes => Ok(storage.write_zeroes(alloc, offset, n)?),
        Kind::Allocated => Ok(storage.write_allocated_zeroes(alloc, offset, n)?),
        Kind::Full => Ok(write_full_zeroes(storage, alloc, offset, n)?),
        Kind::Discard => Ok(storage.discard(offset, n)?),
        Kind::PureZeroes => pure_zeroes(storage, false, offset, n),
        Kind::PureAllocated => pure_zeroes(storage, true, offset, n),
        Kind::PureDiscard => pure_discard(storage, offset, n),
    }
}

// Makes a change, or another call without an answer.
fn change<S: Storage>(alloc: Global, storage: &mut S, call: &Call) -> Result<(), Trouble> {
    match call {
        Call::Write(offset, bytes) => Ok(storage.write(alloc, bytes, *offset)?),
        Call::PureWrite(offset, bytes) => pure_write(storage, *offset, bytes),
        Call::Range(kind, offset, n) => range(alloc, storage, *kind, *offset, *n),
        Call::Resize(size, mode) => Ok(storage.resize(*size, *mode)?),
        Call::Flush => Ok(storage.flush()?),
        Call::Sync => Ok(storage.sync()?),
        Call::Invalidate => Ok(storage.invalidate_cache()?),
        _ => Err(Trouble::NoCall),
    }
}

fn filename<S: Storage>(alloc: Global, storage: &S) -> Result<Answer, Trouble> {
    let name = storage.get_filename().unwrap_or("none");
    Ok(Answer::Text(name.to_string(alloc)?))
}

/// Makes a call.
pub fn perform<S: Storage>(alloc: Global, storage: &mut S, call: &Call) -> Result<Answer, Trouble> {
    match call {
        Call::Aligns => Ok(Answer::Four([
            storage.mem_align(),
            storage.req_align(),
            storage.zero_align(),
            storage.discard_align(),
        ])),
        Call::Size => Ok(Answer::Number(storage.size())),
        Call::Filename => filename(alloc, storage),
        Call::Resolve(name) => Ok(Answer::Text(storage.resolve_relative_path(alloc, name)?)),
        Call::Read(offset, n) => read(alloc, storage, *offset, *n),
        Call::ReadHere(offset, n) => read_here(alloc, storage, *offset, *n),
        Call::PureRead(offset, n) => pure_read(alloc, storage, *offset, *n),
        Call::TryWrite(offset, bytes) => try_write(alloc, storage, *offset, bytes),
        _ => {
            change(alloc, storage, call)?;
            Ok(Answer::Done)
        }
    }
}

/// Returns the text of an answer, as scripts have it.
pub fn text(alloc: Global, answer: &Answer) -> Result<String, AllocError> {
    match answer {
        Answer::Done => ok(alloc),
        Answer::Number(number) => number.to_string(alloc),
        Answer::Four([mem, req, zero, discard]) => {
            format!(in alloc; "{mem} {req} {zero} {discard}")
        }
        Answer::Bytes(bytes) => runs(alloc, bytes),
        Answer::Flag(flag) => flag.to_string(alloc),
        Answer::Text(text) => text.as_str().to_string(alloc),
        Answer::NotWritten(WriteFault::Before(fault)) => format!(in alloc; "before {fault}"),
        Answer::NotWritten(WriteFault::Within(fault)) => format!(in alloc; "within {fault}"),
        Answer::NoRoom => "no room".to_string(alloc),
    }
}
