// Zeroing of any range, padded to whole units. If the range covers only a part of its first or last unit, that unit is read before anything
// is written.
ghost use Rattle.std.specs.Prelude.{◌≡◌, ℕ, ◌+◌, ◌-◌, ◌%◌, ◌<◌, ◌≤◌, ◌^◌, ◌++◌, max, min, length, slice_index, replicate, IsOk, OnOk, IfOk, IfErr, IsErrOf, IsOkUnless};
ghost use Rattle.imago_storage.specs.State.{unit_of, IsAlignment, IsUnitRange};
ghost use Rattle.imago_storage.specs.Calls.{CountsFaults, UnchangedButFaults, CountsNotFallen, OldOrNewBytes, RequestsOne};
ghost use Rattle.imago_storage.specs.Through.{round_up, Overflows, ZeroesInOneRequest, Parts, PaddedWrite, PaddedWriteFailed, PaddedWriteRefused, WriteSucceeded, WriteFailed, EachCrashImage, CrashImagesNoShorter};
ghost use Rattle.imago_storage.specs.Edges.{ZeroesPrepared, IsEdge, unit_start};
ghost use Rattle.imago_storage.specs.Zeroings.{UnlessLeft, NotZeroedBy};

use crate::ext::{larger_alignment, padded_end, unit_size, whole_part};
use crate::padding::{edge_buffers, pad_edges, parts_of_range, write_whole};
use crate::{Fault, Storage};
use std::alloc::Global;

/// The length of a buffer of zeroes in bytes, unless a unit is larger.
const PIECE: usize = 65_536;

/// The call that zeroes the whole units of a range.
#[derive(Clone, Copy, Debug, PartialEq, Eq)]
pub enum Zeroing {
    /// `pure_write_zeroes`, or a write if the storage doesn't support that call.
    Any,
    /// Only `pure_write_allocated_zeroes`.
    Allocated,
}

// The buffers for zeroing a range. `first` and `last` are the first and the last unit of the range, if the range covers only a part of
// them. `zeroes` is long enough for one piece, or for a shorter range. `mid` is the number of bytes between `first` and `last`.
#[derive(Drop)]
struct PreparedZeroes {
    first: Vec<u8>,
    last: Vec<u8>,
    zeroes: Vec<u8>,
    mid: u64,
}

// Writes zeroes over whole units, in pieces of rising offset. Each piece ends at a multiple of the piece's length, or with the range.
// `zeroes` is long enough for one piece or for the range.
fn write_pieces<S: Storage>(
    storage: &mut S,
    unit: usize,
    zeroes: &[u8],
    offset: u64,
    n: u64,
) -> Result<(), Fault>
    requires unit { unit ≡ unit_of (S.state storage.old).shape }
    requires alignment { IsAlignment unit }
    requires zeroes { (k : ℕ) → slice_index zeroes.now k ≡ 0 }
    requires room { min (max unit 65536) n ≤ length zeroes.now }
    requires whole { IsUnitRange unit offset n }
    ensures ok { OnOk result (PaddedWrite unit (S.state storage.old) (S.state storage.new) offset (replicate n 0)) }
    ensures err { IfErr result (PaddedWriteFailed unit (S.state storage.old) (S.state storage.new) offset (replicate n 0)) }
    ensures empty { n ≡ 0 → IsOk result × (S.state storage.new ≡ S.state storage.old) }
{
    let piece = larger_alignment(unit, PIECE) as u64;
    let mut done = 0;
    while done < n {
        let at = offset + done;
        let count = (piece - at % piece).min(n - done);
        write_whole(storage, &zeroes[..count as usize], at)?;
        done += count;
    }
    Ok(())
}

// Writes a unit, zeroes over whole units, and a unit. Each of the two units may be empty.
fn write_edged<S: Storage>(
    storage: &mut S,
    unit: usize,
    first: &[u8],
    last: &[u8],
    zeroes: &[u8],
    start: u64,
    n: u64,
) -> Result<(), Fault>
    requires unit { unit ≡ unit_of (S.state storage.old).shape }
    requires alignment { IsAlignment unit }
    requires zeroes { (k : ℕ) → slice_index zeroes.now k ≡ 0 }
    requires room { min (max unit 65536) n ≤ length zeroes.now }
    requires first { IsUnitRange unit start (length first.now) }
    requires whole { IsUnitRange unit (start + length first.now) n }
    requires last { IsUnitRange unit (start + length first.now + n) (length last.now) }
    ensures ok { OnOk result (PaddedWrite unit (S.state storage.old) (S.state storage.new) start ((first.now ++ replicate n 0) ++ last.now)) }
    ensures err { IfErr result (PaddedWriteFailed unit (S.state storage.old) (S.state storage.new) start ((first.now ++ replicate n 0) ++ last.now)) }
    ensures empty { length first.now ≡ 0 → length last.now ≡ 0 → n ≡ 0 → IsOk result × (S.state storage.new ≡ S.state storage.old) }
{
    write_whole(storage, first, start)?;
    let middle = start + first.len() as u64;
    write_pieces(storage, unit, zeroes, middle, n)?;
    write_whole(storage, last, middle + n)
}

// Zeroes whole units, in one request if the storage supports it.
fn zero_whole<S: Storage>(
    storage: &mut S,
    unit: usize,
    zeroes: &[u8],
    zeroing: Zeroing,
    offset: u64,
    n: u64,
) -> Result<(), Fault>
    requires unit { unit ≡ unit_of (S.state storage.old).shape }
    requires alignment { IsAlignment unit }
    requires zeroes { (k : ℕ) → slice_index zeroes.now k ≡ 0 }
    requires room { min (max unit 65536) n ≤ length zeroes.now }
    requires whole { IsUnitRange unit offset n }
    requires aligned { IsUnitRange (S.state storage.old).shape.zero_align offset n }
    requires nonempty { 0 < n }
    ensures ok { OnOk result (PaddedWrite unit (S.state storage.old) (S.state storage.new) offset (replicate n 0)) }
    ensures err { IfErr result (UnlessLeft zeroing (S.state storage.old) (S.state storage.new)
        (PaddedWriteFailed unit (S.state storage.old) (S.state storage.new) offset (replicate n 0))) }
    ensures single_request { zeroing ≡ Zeroing.Allocated → RequestsOne (S.state storage.old) (S.state storage.new) result }
{
    match zeroing {
        Zeroing::Allocated => storage.pure_write_allocated_zeroes(offset, n),
        Zeroing::Any => match storage.pure_write_zeroes(offset, n) {
            Ok(()) => Ok(()),
            Err(fault) => match fault {
                Fault::Unsupported => write_pieces(storage, unit, zeroes, offset, n),
                _ => Err(fault),
            },
        },
    }
}

// Zeroes the whole units from `whole.0` to `whole.1`, and then writes the rest. The rest before the whole units is `first`, and zeroes from
// `middle.0` on. The rest after the whole units is zeroes up to `middle.1`, and `last`.
fn zero_around<S: Storage>(
    storage: &mut S,
    unit: usize,
    first: &[u8],
    last: &[u8],
    zeroes: &[u8],
    zeroing: Zeroing,
    middle: (u64, u64),
    whole: (u64, u64),
) -> Result<(), Fault>
    requires unit { unit ≡ unit_of (S.state storage.old).shape }
    requires alignment { IsAlignment unit }
    requires zeroes { (k : ℕ) → slice_index zeroes.now k ≡ 0 }
    requires room { min (max unit 65536) (middle.1 - middle.0) ≤ length zeroes.now }
    requires before { middle.0 ≤ whole.0 }
    requires nonempty { whole.0 < whole.1 }
    requires ends_inside { whole.1 ≤ middle.1 }
    requires low { length first.now ≤ middle.0 }
    requires first { IsUnitRange unit (middle.0 - length first.now) (length first.now) }
    requires middle { IsUnitRange unit middle.0 (middle.1 - middle.0) }
    requires last { IsUnitRange unit middle.1 (length last.now) }
    requires whole { IsUnitRange unit whole.0 (whole.1 - whole.0) }
    requires aligned { IsUnitRange (S.state storage.old).shape.zero_align whole.0 (whole.1 - whole.0) }
    ensures ok { OnOk result (PaddedWrite unit (S.state storage.old) (S.state storage.new) (middle.0 - length first.now)
        ((first.now ++ replicate (middle.1 - middle.0) 0) ++ last.now)) }
    ensures err { IfErr result (UnlessLeft zeroing (S.state storage.old) (S.state storage.new)
        (PaddedWriteFailed unit (S.state storage.old) (S.state storage.new) (middle.0 - length first.now)
        ((first.now ++ replicate (middle.1 - middle.0) 0) ++ last.now))) }
    ensures single_request { zeroing ≡ Zeroing.Allocated → length first.now ≡ 0 → length last.now ≡ 0 → middle ≡ whole
        → RequestsOne (S.state storage.old) (S.state storage.new) result }
{
    let (start, end) = whole;
    zero_whole(storage, unit, zeroes, zeroing, start, end - start)?;
    let low = middle.0 - first.len() as u64;
    write_edged(storage, unit, first, &[], zeroes, low, start - middle.0)?;
    write_edged(storage, unit, &[], last, zeroes, end, middle.1 - end)
}

// Allocates a buffer of zeroes.
fn zero_buffer(alloc: Global, len: usize) -> Result<Vec<u8>, Fault>
    ensures zeroes { IfOk result (λ buf. (k : ℕ) → slice_index buf.items k ≡ 0) }
    ensures len { IfOk result (λ buf. length buf.items ≡ len) }
    ensures err { IsOkUnless result Fault.Memory }
{
    Ok(vec![in alloc; 0u8; len]?)
}

// Fills the buffers for a range's first and last unit: the current bytes, with zeroes over those of the range.
fn prepare_edges<S: Storage>(
    storage: &mut S,
    unit: usize,
    first: &mut [u8],
    last: &mut [u8],
    zeroes: &[u8],
    range: (u64, u64),
    parts: (usize, usize),
) -> Result<(), Fault>
    requires unit { unit ≡ unit_of (S.state storage.old).shape }
    requires positive { 0 < unit }
    requires nonempty { 0 < range.1 }
    requires fits { round_up unit (range.0 + range.1) < 2 ^ 64 }
    requires parts { Parts unit range.0 range.1 parts.0 parts.1 }
    requires first { IsEdge unit parts.0 (length first.old) }
    requires last { IsEdge unit (range.1 - parts.0 - parts.1) (length last.old) }
    requires zeroes { (k : ℕ) → slice_index zeroes.now k ≡ 0 }
    requires room { min (max unit 65536) range.1 ≤ length zeroes.now }
    ensures ok { OnOk result (ZeroesPrepared unit (S.state storage.old).bytes range.0 range.1 first.new last.new zeroes.now parts.1) }
    ensures unchanged_but_faults { UnchangedButFaults (S.state storage.old) (S.state storage.new) }
    ensures faults { CountsFaults (S.state storage.old).faults (S.state storage.new).faults result }
{
    let (offset, n) = range;
    let head = &zeroes[..parts.0];
    let tail = &zeroes[..n as usize - parts.0 - parts.1];
    let behind = offset + parts.0 as u64 + parts.1 as u64;
    pad_edges(storage, unit, first, last, head, tail, offset, behind)
}

// Allocates the buffers for zeroing a range that isn't empty, and fills those for its first and last unit.
fn prepare_zeroes<S: Storage>(
    storage: &mut S,
    alloc: Global,
    unit: usize,
    offset: u64,
    n: u64,
) -> Result<PreparedZeroes, Fault>
    requires unit { unit ≡ unit_of (S.state storage.old).shape }
    requires alignment { IsAlignment unit }
    requires nonempty { 0 < n }
    requires fits { round_up unit (offset + n) < 2 ^ 64 }
    ensures ok { IfOk result (λ prepared_zeroes. ZeroesPrepared unit
        (S.state storage.old).bytes offset n prepared_zeroes.first.items prepared_zeroes.last.items prepared_zeroes.zeroes.items prepared_zeroes.mid) }
    ensures unchanged_but_faults { UnchangedButFaults (S.state storage.old) (S.state storage.new) }
    ensures faults { CountsFaults (S.state storage.old).faults (S.state storage.new).faults result }
{
    let parts = parts_of_range(offset, n as usize, unit);
    let tail = n as usize - parts.0 - parts.1;
    let (mut first, mut last) = edge_buffers(alloc, unit, parts.0, tail)?;
    let zeroes = zero_buffer(alloc, unit.max(PIECE).min(n as usize))?;
    prepare_edges(
        storage,
        unit,
        &mut first,
        &mut last,
        &zeroes,
        (offset, n),
        parts,
    )?;
    Ok(PreparedZeroes {
        first,
        last,
        zeroes,
        mid: parts.1 as u64,
    })
}

// Writes zeroes over a range that isn't empty.
fn write_zeroed<S: Storage>(
    storage: &mut S,
    alloc: Global,
    unit: usize,
    offset: u64,
    n: u64,
) -> Result<(), Fault>
    requires unit { unit ≡ unit_of (S.state storage.old).shape }
    requires alignment { IsAlignment unit }
    requires nonempty { 0 < n }
    requires fits { round_up unit (offset + n) < 2 ^ 64 }
    ensures ok { OnOk result (PaddedWrite unit (S.state storage.old) (S.state storage.new) offset (replicate n 0)) }
    ensures err { IfErr result (PaddedWriteRefused unit (S.state storage.old) (S.state storage.new) offset (replicate n 0)) }
{
    let prepared_zeroes = prepare_zeroes(storage, alloc, unit, offset, n)?;
    let start = offset - offset % unit as u64;
    write_edged(
        storage,
        unit,
        &prepared_zeroes.first,
        &prepared_zeroes.last,
        &prepared_zeroes.zeroes,
        start,
        prepared_zeroes.mid,
    )
}

// Zeroes a range that contains the aligned units from `whole.0` to `whole.1`.
fn zero_wholes<S: Storage>(
    storage: &mut S,
    alloc: Global,
    unit: usize,
    zeroing: Zeroing,
    offset: u64,
    n: u64,
    whole: (u64, u64),
) -> Result<(), Fault>
    requires unit { unit ≡ unit_of (S.state storage.old).shape }
    requires alignment { IsAlignment unit }
    requires fits { round_up unit (offset + n) < 2 ^ 64 }
    requires before { offset ≤ whole.0 }
    requires nonempty { whole.0 < whole.1 }
    requires ends_inside { whole.1 ≤ offset + n }
    requires whole { IsUnitRange unit whole.0 (whole.1 - whole.0) }
    requires aligned { IsUnitRange (S.state storage.old).shape.zero_align whole.0 (whole.1 - whole.0) }
    ensures ok { OnOk result (PaddedWrite unit (S.state storage.old) (S.state storage.new) offset (replicate n 0)) }
    ensures err { IfErr result (UnlessLeft zeroing (S.state storage.old) (S.state storage.new)
        (PaddedWriteRefused unit (S.state storage.old) (S.state storage.new) offset (replicate n 0))) }
    ensures single_request { zeroing ≡ Zeroing.Allocated → (offset, offset + n) ≡ whole
        → RequestsOne (S.state storage.old) (S.state storage.new) result }
{
    let prepared_zeroes = prepare_zeroes(storage, alloc, unit, offset, n)?;
    let low = offset - offset % unit as u64 + prepared_zeroes.first.len() as u64;
    zero_around(
        storage,
        unit,
        &prepared_zeroes.first,
        &prepared_zeroes.last,
        &prepared_zeroes.zeroes,
        zeroing,
        (low, low + prepared_zeroes.mid),
        whole,
    )
}

/// Zeroes any range, padded to whole units. With `Zeroing::Allocated`, if the range has whole units and the storage doesn't support
/// `pure_write_allocated_zeroes`, the call fails with `Fault::Unsupported` and changes nothing.
pub fn zero_padded<S: Storage>(
    storage: &mut S,
    alloc: Global,
    zeroing: Zeroing,
    offset: u64,
    n: u64,
) -> Result<(), Fault>
    ensures ok { OnOk result (PaddedWrite (unit_of (S.state storage.old).shape) (S.state storage.old) (S.state storage.new) offset
        (replicate n 0)) }
    ensures err { IfErr result (NotZeroedBy zeroing (S.state storage.old) (S.state storage.new) offset n) }
    ensures single_request { zeroing ≡ Zeroing.Allocated → ZeroesInOneRequest (S.state storage.old) (S.state storage.new) offset n result }
    ensures overflow { Overflows (unit_of (S.state storage.old).shape) offset n → IsErrOf result Fault.RangeOverflow }
    ensures empty { n ≡ 0 → IsOk result × (S.state storage.new ≡ S.state storage.old) }
    ensures unit { IsAlignment (unit_of (S.state storage.old).shape) }
{
    let unit = unit_size(storage);
    if n == 0 {
        return Ok(());
    }
    let align = larger_alignment(unit, storage.zero_align());
    if padded_end(offset, n, unit as u64).is_none() {
        return Err(Fault::RangeOverflow);
    }
    match whole_part(offset, n, align as u64) {
        None => write_zeroed(storage, alloc, unit, offset, n),
        Some(whole) => zero_wholes(storage, alloc, unit, zeroing, offset, n, whole),
    }
}

/// Writes zeroes over the range by `pure_write` only.
///
/// The zeroes are written in pieces of at most 65,536 bytes, or of one unit if a unit is larger. No buffer is larger than one piece. The
/// buffers are allocated, and the range's first and last unit are read, before anything changes.
///
/// # Errors
///
/// The errors are those of `StorageExt::write`. On error each byte of the range is old or 0, and no byte outside the range changes.
pub fn write_full_zeroes<S: Storage>(
    storage: &mut S,
    alloc: Global,
    offset: u64,
    n: u64,
) -> Result<(), Fault>
    ensures ok { OnOk result (WriteSucceeded (S.state storage.old) (S.state storage.new) offset (replicate n 0)) }
    ensures err { IfErr result (WriteFailed (S.state storage.old) (S.state storage.new) offset (replicate n 0)) }
    ensures overflow { Overflows (unit_of (S.state storage.old).shape) offset n → IsErrOf result Fault.RangeOverflow }
    ensures shape { (S.state storage.new).shape ≡ (S.state storage.old).shape }
    ensures counts_not_fallen { CountsNotFallen (S.state storage.old) (S.state storage.new) }
    // In every case: each crash image of the call has old bytes or zeroes in the range, and old bytes outside.
    ensures crash_images { EachCrashImage (OldOrNewBytes (S.state storage.old).bytes offset (replicate n 0)) (S.state storage.old) (S.state storage.new) }
    ensures as_long { CrashImagesNoShorter (S.state storage.old) (S.state storage.new) }
    ensures empty { n ≡ 0 → IsOk result × (S.state storage.new ≡ S.state storage.old) }
    ensures unit { IsAlignment (unit_of (S.state storage.old).shape) }
{
    let unit = unit_size(storage);
    if n == 0 {
        return Ok(());
    }
    if padded_end(offset, n, unit as u64).is_none() {
        return Err(Fault::RangeOverflow);
    }
    write_zeroed(storage, alloc, unit, offset, n)
}
