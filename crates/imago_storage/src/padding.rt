// Writes of any range as whole units. If the range covers only a part of its first or last unit, that unit is read before anything is
// written.
ghost use Rattle.std.specs.Prelude.{◌≡◌, ℕ, ◌+◌, ◌-◌, ◌%◌, ◌<◌, ◌≤◌, ◌^◌, ◌++◌, length, OnOk, IfOk, IfErr, IsOkUnless};
ghost use Rattle.imago_storage.specs.State.{unit_of, IsUnitRange};
ghost use Rattle.imago_storage.specs.Calls.{CountsFaults, UnchangedButFaults};
ghost use Rattle.imago_storage.specs.Fault.{cause_of};
ghost use Rattle.imago_storage.specs.Through.{round_up, FitsOneRequest, IsOnePart, Parts, OneRequest, NoRequest, RequestsOnce, PaddedWrite, PaddedWriteFailed, RefusedBeforeOrWithin};
ghost use Rattle.imago_storage.specs.Edges.{IsEdge, IsPaddedPart};
ghost use Rattle.imago_storage.specs.declared.padding.WriteFault.TheVariants.{Before};

use crate::edits::copy_in;
use crate::{Fault, Storage};
use std::alloc::Global;

/// The error of `try_write`: the fault, and whether the write had begun.
#[derive(Clone, Copy, Debug, PartialEq, Eq)]
pub enum WriteFault {
    /// The call failed before it requested a change: nothing has changed.
    Before(Fault),
    /// The storage refused a change: a part of the data may have been written.
    Within(Fault),
}

impl WriteFault {
    /// Returns the fault.
    pub fn fault(self) -> Fault
        ensures { result ≡ cause_of self }
    {
        match self {
            WriteFault::Before(fault) => fault,
            WriteFault::Within(fault) => fault,
        }
    }
}

/// Converts a fault to `WriteFault::Before`, so that `?` can return an error from before the first change.
impl From<Fault> for WriteFault {
    ghost from_gives = { λ fault e. e ≡ Before fault };

    fn from(fault: Fault) -> Self {
        WriteFault::Before(fault)
    }
}

// Splits a range into a head inside one unit, whole units, and a tail inside one unit. Returns the lengths of the head and of the whole
// units.
pub fn parts_of_range(offset: u64, n: usize, unit: usize) -> (usize, usize)
    requires { 0 < unit }
    ensures { Parts unit offset n result.0 result.1 }
{
    let within = (offset % unit as u64) as usize;
    let head = if within == 0 {
        0
    } else {
        (unit - within).min(n)
    };
    let mid = (n - head) / unit * unit;
    (head, mid)
}

// Allocates a buffer of one unit for a part of `n` bytes, or an empty buffer if `n` is 0.
fn edge_buffer(alloc: Global, unit: usize, n: usize) -> Result<Vec<u8>, Fault>
    ensures ok { IfOk result (λ buf. IsEdge unit n (length buf.items)) }
    ensures err { IsOkUnless result Fault.Memory }
{
    let len = if n == 0 { 0 } else { unit };
    Ok(vec![in alloc; 0u8; len]?)
}

// Allocates the buffers for the head and the tail of a range.
pub fn edge_buffers(
    alloc: Global,
    unit: usize,
    head: usize,
    tail: usize,
) -> Result<(Vec<u8>, Vec<u8>), Fault>
    ensures first { IfOk result (λ buffers. IsEdge unit head (length buffers.0.items)) }
    ensures last { IfOk result (λ buffers. IsEdge unit tail (length buffers.1.items)) }
    ensures err { IsOkUnless result Fault.Memory }
{
    let first = edge_buffer(alloc, unit, head)?;
    let last = edge_buffer(alloc, unit, tail)?;
    Ok((first, last))
}

// Reads the unit in which `part` begins into the buffer, and copies `part` over it. An empty part makes no request.
fn pad_edge<S: Storage>(
    storage: &mut S,
    unit: usize,
    buf: &mut [u8],
    part: &[u8],
    offset: u64,
) -> Result<(), Fault>
    requires unit { unit ≡ unit_of (S.state storage.old).shape }
    requires positive { 0 < unit }
    requires edge { IsEdge unit (length part.now) (length buf.old) }
    requires inside { offset % unit + length part.now ≤ unit }
    requires fits { round_up unit (offset + length part.now) < 2 ^ 64 }
    ensures ok { OnOk result (0 < length part.now → IsPaddedPart (S.state storage.old).bytes offset part.now (offset - offset % unit) buf.new) }
    ensures unchanged_but_faults { UnchangedButFaults (S.state storage.old) (S.state storage.new) }
    ensures faults { CountsFaults (S.state storage.old).faults (S.state storage.new).faults result }
{
    if part.is_empty() {
        return Ok(());
    }
    let within = offset % unit as u64;
    storage.pure_read(buf, offset - within)?;
    copy_in(buf, within as usize, part);
    Ok(())
}

// Calls `pad_edge` for the head and the tail of a range.
pub fn pad_edges<S: Storage>(
    storage: &mut S,
    unit: usize,
    first: &mut [u8],
    last: &mut [u8],
    head: &[u8],
    tail: &[u8],
    offset: u64,
    behind: u64,
) -> Result<(), Fault>
    requires unit { unit ≡ unit_of (S.state storage.old).shape }
    requires positive { 0 < unit }
    requires first { IsEdge unit (length head.now) (length first.old) }
    requires last { IsEdge unit (length tail.now) (length last.old) }
    requires head { offset % unit + length head.now ≤ unit }
    requires tail { behind % unit + length tail.now ≤ unit }
    requires before { offset + length head.now ≤ behind }
    requires fits { round_up unit (behind + length tail.now) < 2 ^ 64 }
    ensures first { OnOk result (0 < length head.now
        → IsPaddedPart (S.state storage.old).bytes offset head.now (offset - offset % unit) first.new) }
    ensures last { OnOk result (0 < length tail.now → IsPaddedPart (S.state storage.old).bytes behind tail.now (behind - behind % unit) last.new) }
    ensures unchanged_but_faults { UnchangedButFaults (S.state storage.old) (S.state storage.new) }
    ensures faults { CountsFaults (S.state storage.old).faults (S.state storage.new).faults result }
{
    pad_edge(storage, unit, first, head, offset)?;
    pad_edge(storage, unit, last, tail, behind)
}

// Writes whole units, in one request.
pub fn write_whole<S: Storage>(storage: &mut S, data: &[u8], offset: u64) -> Result<(), Fault>
    requires positive { 0 < unit_of (S.state storage.old).shape }
    requires whole { 0 < length «data».now → IsUnitRange (unit_of (S.state storage.old).shape) offset (length «data».now) }
    ensures ok { OnOk result (OneRequest (unit_of (S.state storage.old).shape) (S.state storage.old)
        (S.state storage.new) offset «data».now) }
    ensures err { IfErr result (NoRequest (unit_of (S.state storage.old).shape) (S.state storage.old)
        (S.state storage.new) offset «data».now) }
{
    if data.is_empty() {
        return Ok(());
    }
    storage.pure_write(data, offset)
}

// Writes three consecutive parts of whole units, each in one request, in rising order.
fn write_units<S: Storage>(
    storage: &mut S,
    unit: usize,
    first: &[u8],
    mid: &[u8],
    last: &[u8],
    start: u64,
) -> Result<(), Fault>
    requires unit { unit ≡ unit_of (S.state storage.old).shape }
    requires positive { 0 < unit }
    requires first { IsUnitRange unit start (length first.now) }
    requires mid { IsUnitRange unit (start + length first.now) (length mid.now) }
    requires last { IsUnitRange unit (start + length first.now + length mid.now) (length last.now) }
    ensures ok { OnOk result (PaddedWrite unit (S.state storage.old) (S.state storage.new) start ((first.now ++ mid.now) ++ last.now)) }
    ensures err { IfErr result (PaddedWriteFailed unit (S.state storage.old) (S.state storage.new) start ((first.now ++ mid.now) ++ last.now)) }
    ensures single_request { IsOnePart (length first.now) (length mid.now) (length last.now) →
        RequestsOnce (S.state storage.old) (S.state storage.new) (length first.now + length mid.now + length last.now) result }
{
    write_whole(storage, first, start)?;
    let middle = start + first.len() as u64;
    write_whole(storage, mid, middle)?;
    write_whole(storage, last, middle + mid.len() as u64)
}

// Writes any range in up to three requests. The buffers hold the first and the last unit if the range covers only a part of them.
fn write_in_parts<S: Storage>(
    storage: &mut S,
    unit: usize,
    first: &mut [u8],
    last: &mut [u8],
    data: &[u8],
    offset: u64,
    parts: (usize, usize),
) -> Result<(), WriteFault>
    requires unit { unit ≡ unit_of (S.state storage.old).shape }
    requires positive { 0 < unit }
    requires nonempty { 0 < length «data».now }
    requires parts { Parts unit offset (length «data».now) parts.0 parts.1 }
    requires first { IsEdge unit parts.0 (length first.old) }
    requires last { IsEdge unit (length «data».now - parts.0 - parts.1) (length last.old) }
    requires fits { round_up unit (offset + length «data».now) < 2 ^ 64 }
    ensures ok { OnOk result (PaddedWrite unit (S.state storage.old) (S.state storage.new) offset «data».now) }
    ensures err { IfErr result (RefusedBeforeOrWithin unit (S.state storage.old) (S.state storage.new) offset «data».now) }
    ensures single_request { FitsOneRequest unit offset (length «data».now)
        → RequestsOnce (S.state storage.old) (S.state storage.new) (length «data».now) result }
{
    let (head, rest) = data.split_at(parts.0);
    let (mid, tail) = rest.split_at(parts.1);
    let behind = offset + parts.0 as u64 + parts.1 as u64;
    pad_edges(storage, unit, first, last, head, tail, offset, behind)?;
    write_units(
        storage,
        unit,
        first,
        mid,
        last,
        offset - offset % unit as u64,
    )
    .map_err(WriteFault::Within)
}

// Allocates the buffers for the edges of a range, and writes the range.
pub fn write_around<S: Storage>(
    storage: &mut S,
    alloc: Global,
    unit: usize,
    data: &[u8],
    offset: u64,
) -> Result<(), WriteFault>
    requires unit { unit ≡ unit_of (S.state storage.old).shape }
    requires positive { 0 < unit }
    requires nonempty { 0 < length «data».now }
    requires fits { round_up unit (offset + length «data».now) < 2 ^ 64 }
    ensures ok { OnOk result (PaddedWrite unit (S.state storage.old) (S.state storage.new) offset «data».now) }
    ensures err { IfErr result (RefusedBeforeOrWithin unit (S.state storage.old) (S.state storage.new) offset «data».now) }
    ensures single_request { FitsOneRequest unit offset (length «data».now)
        → RequestsOnce (S.state storage.old) (S.state storage.new) (length «data».now) result }
{
    let parts = parts_of_range(offset, data.len(), unit);
    let tail = data.len() - parts.0 - parts.1;
    let (mut first, mut last) = edge_buffers(alloc, unit, parts.0, tail)?;
    write_in_parts(storage, unit, &mut first, &mut last, data, offset, parts)
}
