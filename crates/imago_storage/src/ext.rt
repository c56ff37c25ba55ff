// The `StorageExt` trait: reads, writes, zeroing and discards of any range of a storage, aligned or not. Ranges are padded to whole units
// of requests. Definitions: specs/Through.antt.
ghost use Rattle.std.specs.Prelude.{◌≡◌, ℕ, ◌+◌, ◌-◌, ◌%◌, ◌<◌, ◌≤◌, ◌^◌, max, ◌++◌, length, slice_index, replicate, IsOk, OnOk, OnErr, IfErr, IsErrOf, IsTrue};
ghost use Rattle.std.specs.Option.{SomeIff};
ghost use Rattle.imago_storage.specs.State.{unit_of, IsAlignment, IsUnitRange};
ghost use Rattle.imago_storage.specs.Calls.{Cause, CountsFaults, UnchangedButFaults, CountsNotFallen, OldOrNewBytes, Reads};
ghost use Rattle.imago_storage.specs.Through.{round_up, round_down, HasWholeUnits, Overflows, PaddedWrite, OneRequest, NoRequest, IsOnePart, Parts, WritesInOneRequest, ZeroesInOneRequest, EachCrashImage, CrashImagesNoShorter, WriteSucceeded, WriteFailed, WriteRefused, NotZeroed, GivenUp, NotGivenUp, CrashImagesOfDiscard, NotRead};

use crate::discarding::discard_whole;
use crate::edits::take_part;
use crate::padding::{WriteFault, parts_of_range, write_around, write_whole};
use crate::zeroing::{Zeroing, zero_padded};
use crate::{Fault, Storage};
use std::alloc::Global;

/// Returns the end of a range of `n` bytes at `offset`, rounded up to a multiple of `unit` bytes. Returns `None` if the rounded end doesn't
/// fit `u64`.
///
/// A `StorageExt` call on a nonempty range fails with `Fault::RangeOverflow` exactly if the result for its storage's unit is `None`.
///
/// # Preconditions
///
/// `unit` is above 0.
#[tactic(auto, using(crate::proofs::Rounding::round_up_whole, crate::proofs::Rounding::round_up_part))]
pub fn padded_end(offset: u64, n: u64, unit: u64) -> Option<u64>
    requires { 0 < unit }
    ensures { SomeIff result (round_up unit (offset + n) < 2 ^ 64) (round_up unit (offset + n)) }
{
    let end = offset.checked_add(n)?;
    let over = end % unit;
    if over == 0 {
        Some(end)
    } else {
        end.checked_add(unit - over)
    }
}

// Returns the start and the end of the whole aligned units inside the range, if it has any.
pub fn whole_part(offset: u64, n: u64, align: u64) -> Option<(u64, u64)>
    requires positive { 0 < align }
    requires fits { offset + n < 2 ^ 64 }
    ensures { SomeIff result (HasWholeUnits align offset n) (round_up align offset, round_down align (offset + n)) }
{
    let start = padded_end(offset, 0, align)?;
    let end = (offset + n) / align * align;
    if start < end {
        Some((start, end))
    } else {
        None
    }
}

// Returns the unit of a storage's requests, in bytes.
pub fn unit_size<S: Storage>(storage: &S) -> usize
    ensures unit { result ≡ unit_of (S.state storage.now).shape }
    ensures alignment { IsAlignment result }
{
    larger_alignment(storage.req_align(), storage.mem_align())
}

// Writes any range, padded to whole units.
fn write_padded<S: Storage>(
    storage: &mut S,
    alloc: Global,
    data: &[u8],
    offset: u64,
) -> Result<(), WriteFault>
    ensures ok { OnOk result (PaddedWrite (unit_of (S.state storage.old).shape) (S.state storage.old) (S.state storage.new) offset «data».now) }
    ensures err { IfErr result (WriteRefused (S.state storage.old) (S.state storage.new) offset «data».now) }
    ensures overflow { Overflows (unit_of (S.state storage.old).shape) offset (length «data».now)
        → IsErrOf result (WriteFault.Before Fault.RangeOverflow) }
    ensures single_request { WritesInOneRequest (S.state storage.old) (S.state storage.new) offset (length «data».now) result }
    ensures empty { length «data».now ≡ 0 → IsOk result × (S.state storage.new ≡ S.state storage.old) }
    ensures unit { IsAlignment (unit_of (S.state storage.old).shape) }
{
    let unit = unit_size(storage);
    if data.is_empty() {
        return Ok(());
    }
    if padded_end(offset, data.len() as u64, unit as u64).is_none() {
        return Err(WriteFault::Before(Fault::RangeOverflow));
    }
    let (first, second) = parts_of_range(offset, data.len(), unit);
    if first == 0 && second == data.len() {
        return write_whole(storage, data, offset).map_err(WriteFault::Within);
    }
    write_around(storage, alloc, unit, data, offset)
}

// Reads whole units into `padded`, and copies the range from there to `buf`.
fn read_around<S: Storage>(
    storage: &mut S,
    padded: &mut [u8],
    buf: &mut [u8],
    offset: u64,
    within: u64,
) -> Result<(), Fault>
    requires low { within ≤ offset }
    requires whole { IsUnitRange (unit_of (S.state storage.old).shape) (offset - within) (length padded.old) }
    requires inside { within + length buf.old ≤ length padded.old }
    ensures ok { OnOk result (Reads (S.state storage.old).bytes offset buf.new) }
    ensures unchanged_but_faults { UnchangedButFaults (S.state storage.old) (S.state storage.new) }
    ensures faults { CountsFaults (S.state storage.old).faults (S.state storage.new).faults result }
{
    storage.pure_read(padded, offset - within)?;
    take_part(padded, within as usize, buf);
    Ok(())
}

// Reads any range, padded to whole units.
fn read_padded<S: Storage>(
    storage: &mut S,
    alloc: Global,
    buf: &mut [u8],
    offset: u64,
) -> Result<(), Fault>
    ensures ok { OnOk result (Reads (S.state storage.old).bytes offset buf.new) }
    ensures unchanged_but_faults { UnchangedButFaults (S.state storage.old) (S.state storage.new) }
    ensures faults { OnOk result ((S.state storage.new).faults ≡ (S.state storage.old).faults) }
    ensures err { IfErr result (NotRead (S.state storage.old) (S.state storage.new) offset (length buf.old)) }
    ensures overflow { Overflows (unit_of (S.state storage.old).shape) offset (length buf.old) → IsErrOf result Fault.RangeOverflow }
    ensures empty { length buf.old ≡ 0 → IsOk result × (S.state storage.new ≡ S.state storage.old) }
    ensures unit { IsAlignment (unit_of (S.state storage.old).shape) }
{
    let unit = unit_size(storage);
    if buf.is_empty() {
        return Ok(());
    }
    let Some(end) = padded_end(offset, buf.len() as u64, unit as u64) else {
        return Err(Fault::RangeOverflow);
    };
    let (first, second) = parts_of_range(offset, buf.len(), unit);
    if first == 0 && second == buf.len() {
        return storage.pure_read(buf, offset);
    }
    let within = offset % unit as u64;
    let start = offset - within;
    let mut padded = vec![in alloc; 0u8; (end - start) as usize]?;
    read_around(storage, &mut padded, buf, offset, within)
}

/// Returns the larger of two alignments, in bytes. It is a multiple of both.
pub fn larger_alignment(a: usize, b: usize) -> usize
    requires first { IsAlignment a }
    requires second { IsAlignment b }
    ensures value { result ≡ max a b }
    ensures first { result % a ≡ 0 }
    ensures second { result % b ≡ 0 }
    ensures alignment { IsAlignment result }
{
    if a < b { b } else { a }
}

/// Reads, writes, zeroing and discards of any range of bytes, for every storage.
///
/// A range is padded to whole units of the storage. The unit is the larger of `req_align` and `mem_align`. Each call allocates its buffers
/// before its first request, and reads the padding before it changes anything. So if a write or a zeroing fails and the storage refused no
/// change (no request to write, zero or discard failed), nothing has changed.
///
/// An empty range never fails, and makes no request.
///
/// # Crash safety
///
/// Each crash image (the file after a crash between two requests) of a write, a zeroing or a discard is at least as long as the file was.
pub trait StorageExt: Storage {
    /// Fills the buffer with the bytes from `offset` on. Bytes past the end read as 0.
    ///
    /// A range of whole units needs no extra buffer. An empty range makes no request.
    ///
    /// # Errors
    ///
    /// - `Fault::RangeOverflow` if the range's end, rounded up to the unit, doesn't fit `u64`. No request is made.
    /// - `Fault::Memory`, `Fault::Storage`.
    ///
    /// # On error
    ///
    /// The storage is unchanged except for its fault count. The contents of the buffer are unspecified.
    fn read(&mut self, alloc: Global, buf: &mut [u8], offset: u64) -> Result<(), Fault>
        ensures ok { OnOk result (Reads (Self.state self.old).bytes offset buf.new) }
        ensures unchanged_but_faults { UnchangedButFaults (Self.state self.old) (Self.state self.new) }
        ensures faults { OnOk result ((Self.state self.new).faults ≡ (Self.state self.old).faults) }
        ensures err { IfErr result (NotRead (Self.state self.old) (Self.state self.new) offset (length buf.old)) }
        ensures overflow { Overflows (unit_of (Self.state self.old).shape) offset (length buf.old) → IsErrOf result Fault.RangeOverflow }
        ensures counts_not_fallen { CountsNotFallen (Self.state self.old) (Self.state self.new) }
        // An empty range never fails, and makes no request.
        ensures empty { length buf.old ≡ 0 → IsOk result × (Self.state self.new ≡ Self.state self.old) }
        // This bounds the unit. So a range below 2^63, for example, never overflows.
        ensures unit { IsAlignment (unit_of (Self.state self.old).shape) };

    /// Writes `data` at `offset`, padded to whole units with the current bytes, and with zeroes past the old end.
    ///
    /// The length becomes at least the range's end, rounded up to the unit. An empty range changes nothing. A range of whole units is one
    /// request. A range inside a single unit is one request too, and that unit is read first. Any other range is up to three requests in
    /// rising order: its first unit, whole units, and its last unit. The first and the last unit are read first.
    ///
    /// # Errors
    ///
    /// - `Fault::RangeOverflow` if the range's end, rounded up to the unit, doesn't fit `u64`. Nothing changes.
    /// - `Fault::Memory`, `Fault::Storage`.
    ///
    /// # On error
    ///
    /// Each byte of the range is old or new, and no byte outside the range changes. If the storage refused no request for a change, nothing
    /// changes except the fault count.
    fn write(&mut self, alloc: Global, data: &[u8], offset: u64) -> Result<(), Fault>
        ensures ok { OnOk result (WriteSucceeded (Self.state self.old) (Self.state self.new) offset «data».now) }
        ensures err { IfErr result (WriteFailed (Self.state self.old) (Self.state self.new) offset «data».now) }
        ensures overflow { Overflows (unit_of (Self.state self.old).shape) offset (length «data».now) → IsErrOf result Fault.RangeOverflow }
        ensures shape { (Self.state self.new).shape ≡ (Self.state self.old).shape }
        ensures counts_not_fallen { CountsNotFallen (Self.state self.old) (Self.state self.new) }
        // In every case: each crash image of the call has old or new bytes in the range and old bytes outside. It is no shorter than the
        // file was.
        ensures crash_images { EachCrashImage (OldOrNewBytes (Self.state self.old).bytes offset «data».now) (Self.state self.old) (Self.state self.new) }
        ensures as_long { CrashImagesNoShorter (Self.state self.old) (Self.state self.new) }
        // A range of whole units, or one inside a single unit, is one request.
        ensures single_request { WritesInOneRequest (Self.state self.old) (Self.state self.new) offset (length «data».now) result }
        // An empty range never fails, and makes no request.
        ensures empty { length «data».now ≡ 0 → IsOk result × (Self.state self.new ≡ Self.state self.old) }
        // This bounds the unit. So a range of a power of two bytes, at a multiple of that power, is one request.
        ensures unit { IsAlignment (unit_of (Self.state self.old).shape) };

    /// Like `write`, but the error says whether the write had begun.
    ///
    /// # Errors
    ///
    /// - `WriteFault::Before` if no change was requested, for example because memory for a buffer ran out, or reading the padding failed.
    /// - `WriteFault::Within` if the storage refused a request for a change.
    fn try_write(&mut self, alloc: Global, data: &[u8], offset: u64) -> Result<(), WriteFault>
        ensures ok { OnOk result (WriteSucceeded (Self.state self.old) (Self.state self.new) offset «data».now) }
        // Before the write has begun, only the fault count may have risen.
        ensures err { IfErr result (WriteRefused (Self.state self.old) (Self.state self.new) offset «data».now) }
        ensures overflow { Overflows (unit_of (Self.state self.old).shape) offset (length «data».now)
            → IsErrOf result (WriteFault.Before Fault.RangeOverflow) }
        ensures shape { (Self.state self.new).shape ≡ (Self.state self.old).shape }
        ensures counts_not_fallen { CountsNotFallen (Self.state self.old) (Self.state self.new) }
        ensures crash_images { EachCrashImage (OldOrNewBytes (Self.state self.old).bytes offset «data».now) (Self.state self.old) (Self.state self.new) }
        ensures as_long { CrashImagesNoShorter (Self.state self.old) (Self.state self.new) }
        ensures single_request { WritesInOneRequest (Self.state self.old) (Self.state self.new) offset (length «data».now) result }
        ensures empty { length «data».now ≡ 0 → IsOk result × (Self.state self.new ≡ Self.state self.old) }
        ensures unit { IsAlignment (unit_of (Self.state self.old).shape) };

    /// Zeroes the range, padded to whole units with the current bytes, and with zeroes past the old end. The storage may deallocate the
    /// range.
    ///
    /// The length becomes at least the range's end, rounded up to the unit. An empty range changes nothing. Whole units of the larger of
    /// the unit and `zero_align` are zeroed by one `pure_write_zeroes`, or written if the storage doesn't support that call. The rest is
    /// written as by `write_full_zeroes`.
    ///
    /// # Errors
    ///
    /// The errors are those of `write`. On error each byte of the range is old or 0, and no byte outside the range changes.
    fn write_zeroes(&mut self, alloc: Global, offset: u64, length: u64) -> Result<(), Fault>
        ensures ok { OnOk result (WriteSucceeded (Self.state self.old) (Self.state self.new) offset (replicate length 0)) }
        ensures err { IfErr result (WriteFailed (Self.state self.old) (Self.state self.new) offset (replicate length 0)) }
        ensures overflow { Overflows (unit_of (Self.state self.old).shape) offset length → IsErrOf result Fault.RangeOverflow }
        ensures shape { (Self.state self.new).shape ≡ (Self.state self.old).shape }
        ensures counts_not_fallen { CountsNotFallen (Self.state self.old) (Self.state self.new) }
        ensures crash_images { EachCrashImage (OldOrNewBytes (Self.state self.old).bytes offset (replicate length 0)) (Self.state self.old) (Self.state self.new) }
        ensures as_long { CrashImagesNoShorter (Self.state self.old) (Self.state self.new) }
        ensures empty { length ≡ 0 → IsOk result × (Self.state self.new ≡ Self.state self.old) }
        ensures unit { IsAlignment (unit_of (Self.state self.old).shape) };

    /// Like `write_zeroes`, but the range stays allocated: its whole units are zeroed by one `pure_write_allocated_zeroes`.
    ///
    /// A range of whole units of the larger of the unit and `zero_align` is one request.
    ///
    /// # Errors
    ///
    /// - `Fault::Unsupported` if the range has whole units to zero and the storage doesn't support `pure_write_allocated_zeroes`. Nothing
    ///   changes.
    /// - The errors of `write`. Each byte of the range is then old or 0, and no byte outside the range changes.
    fn write_allocated_zeroes(
        &mut self,
        alloc: Global,
        offset: u64,
        length: u64,
    ) -> Result<(), Fault>
        ensures ok { OnOk result (WriteSucceeded (Self.state self.old) (Self.state self.new) offset (replicate length 0)) }
        ensures err { IfErr result (NotZeroed (Self.state self.old) (Self.state self.new) offset length) }
        ensures overflow { Overflows (unit_of (Self.state self.old).shape) offset length → IsErrOf result Fault.RangeOverflow }
        ensures shape { (Self.state self.new).shape ≡ (Self.state self.old).shape }
        ensures counts_not_fallen { CountsNotFallen (Self.state self.old) (Self.state self.new) }
        ensures crash_images { EachCrashImage (OldOrNewBytes (Self.state self.old).bytes offset (replicate length 0)) (Self.state self.old) (Self.state self.new) }
        ensures as_long { CrashImagesNoShorter (Self.state self.old) (Self.state self.new) }
        // A range of whole units of the larger of the unit and `zero_align` is one request.
        ensures single_request { ZeroesInOneRequest (Self.state self.old) (Self.state self.new) offset length result }
        ensures empty { length ≡ 0 → IsOk result × (Self.state self.new ≡ Self.state self.old) }
        ensures unit { IsAlignment (unit_of (Self.state self.old).shape) };

    /// Discards the whole units of the range, in one request. Their bytes are unspecified afterwards.
    ///
    /// Here a unit is the larger of the storage's unit and `discard_align`. Bytes of the range outside whole units don't change, and the
    /// length doesn't change. If the storage doesn't support discards, or the range has no whole unit, the call succeeds and changes
    /// nothing.
    ///
    /// # Errors
    ///
    /// - `Fault::RangeOverflow` if the range's end, rounded up to the unit of requests, doesn't fit `u64`. Nothing changes.
    /// - `Fault::Memory`, `Fault::Storage`. The bytes of the whole units are unspecified.
    fn discard(&mut self, offset: u64, length: u64) -> Result<(), Fault>
        ensures ok { OnOk result (GivenUp (Self.state self.old) (Self.state self.new) offset length) }
        ensures err { IfErr result (NotGivenUp (Self.state self.old) (Self.state self.new) offset length) }
        ensures overflow { Overflows (unit_of (Self.state self.old).shape) offset length → IsErrOf result Fault.RangeOverflow }
        ensures shape { (Self.state self.new).shape ≡ (Self.state self.old).shape }
        ensures counts_not_fallen { CountsNotFallen (Self.state self.old) (Self.state self.new) }
        // Each crash image of the call equals the old file outside the discarded units.
        ensures crash_images { CrashImagesOfDiscard (Self.state self.old) (Self.state self.new) offset length }
        ensures as_long { CrashImagesNoShorter (Self.state self.old) (Self.state self.new) }
        ensures empty { length ≡ 0 → IsOk result × (Self.state self.new ≡ Self.state self.old) }
        ensures unit { IsAlignment (unit_of (Self.state self.old).shape) };
}

impl<S: Storage> StorageExt for S {
    fn read(&mut self, alloc: Global, buf: &mut [u8], offset: u64) -> Result<(), Fault> {
        read_padded(self, alloc, buf, offset)
    }

    fn write(&mut self, alloc: Global, data: &[u8], offset: u64) -> Result<(), Fault> {
        self.try_write(alloc, data, offset)
            .map_err(WriteFault::fault)
    }

    fn try_write(&mut self, alloc: Global, data: &[u8], offset: u64) -> Result<(), WriteFault> {
        write_padded(self, alloc, data, offset)
    }

    fn write_zeroes(&mut self, alloc: Global, offset: u64, length: u64) -> Result<(), Fault> {
        zero_padded(self, alloc, Zeroing::Any, offset, length)
    }

    fn write_allocated_zeroes(
        &mut self,
        alloc: Global,
        offset: u64,
        length: u64,
    ) -> Result<(), Fault> {
        zero_padded(self, alloc, Zeroing::Allocated, offset, length)
    }

    fn discard(&mut self, offset: u64, length: u64) -> Result<(), Fault> {
        discard_whole(self, offset, length)
    }
}
