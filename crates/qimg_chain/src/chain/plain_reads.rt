// Plain reads: files are opened as a chain, one range is read, and the files are dropped.
ghost use Rattle.std.specs.Prelude.{◌≡◌, ◌↔◌, ◌∷◌, ◌<◌, ◌+◌, ◌^◌, ℕ, length, map, slice_index, IfErr, IsErrOf, IsTrue, OnOk};
ghost use Rattle.imago_storage.specs.Disk.{Shows};
ghost use Rattle.imago_access.specs.Chain.{at, Each};
ghost use Rattle.imago_storage.specs.declared.fault.Fault.{Fault};
ghost use Rattle.imago_access.specs.Refusals.{SomeUnusable};
ghost use Rattle.qimg_chain.specs.PlainReads.{HasFault, IsOfPlace, IsPlainlyRead, NotPlainlyRead, NotReadInOrder};

use crate::chain::opening::open_chain;
use imago_access::{FormatAccess, FormatDriverInstance};
use imago_storage::{Fault, Storage};
use qimg_core::plain::ChainFile;
use std::alloc::Global;

/// Reads `buf.len()` bytes at `offset` (in bytes) of the disk that the files mean as a chain, the top first. Bytes past the size of the
/// disk are 0.
///
/// Only the bytes of the files and their formats matter. The files are opened read-only and dropped at the end. Nothing is written.
///
/// # Errors
///
/// The call fails with the first of these that applies:
///
/// - The error of `open_chain` for reading.
/// - `Fault::RangeOverflow` if the end of the range doesn't fit `u64`.
/// - The error of the first byte of the range that can't be read: `Fault::DamagedTable` if its table is damaged, `Fault::Barred` if it is
///   compressed or in an extent without access.
///
/// Others can occur at any point:
///
/// - `Fault::RangeOverflow` if the part of the range inside the disk ends within 2^20 bytes of 2^64, and requests of whole units don't fit.
/// - `Fault::Memory`, and `Fault::Storage` if the storages can fail.
///
/// # On error
///
/// The contents of the buffer are unspecified.
pub fn plain_read<S: Storage>(
    alloc: Global,
    files: Vec<ChainFile<S>>,
    offset: u64,
    buf: &mut [u8],
) -> Result<(), Fault>
    ensures ok { OnOk result (IsPlainlyRead S.state files.items offset (length buf.old) buf.new) }
    ensures err { IfErr result (NotPlainlyRead S.state files.items offset (length buf.old)) }
    ensures none { length files.items ≡ 0 → IsErrOf result Fault.MissingBelow }
    ensures many { 64 < length files.items → IsErrOf result (Fault.Limit (length files.items)) }
{
    let mut chain = open_chain(alloc, files, false, 0)?;
    if offset.checked_add(buf.len() as u64).is_none() {
        return Err(Fault::RangeOverflow);
    }
    let inside = chain.size().saturating_sub(offset).min(buf.len() as u64) as usize;
    let (shown, rest) = buf.split_at_mut(inside);
    blank(rest);
    read_in_order(alloc, &mut chain, offset, shown)
}

// Fills the buffer with zeroes.
fn blank(buf: &mut [u8])
    ensures { (i : ℕ) → slice_index buf.new i ≡ 0 }
{
    buf.fill(0);
}

// Reads a range of a chain. If bytes of the range can't be read, it fails with the fault of the first such byte.
fn read_in_order<D: FormatDriverInstance>(
    alloc: Global,
    chain: &mut FormatAccess<D>,
    offset: u64,
    buf: &mut [u8],
) -> Result<(), Fault>
    requires fits { offset + length buf.old < 2 ^ 64 }
    requires coherent { Each D.coherent (chain.old.0 ∷ chain.old.1) }
    requires usable { (f : Fault) → SomeUnusable (map D.layer (chain.old.0 ∷ chain.old.1)) f → ⊥ }
    ensures ok { OnOk result (Shows (at (map D.layer (chain.old.0 ∷ chain.old.1))) offset buf.new) }
    ensures err { IfErr result (NotReadInOrder D.DriverModel (at (map D.layer (chain.old.0 ∷ chain.old.1))) offset (length buf.old)) }
{
    match chain.read(alloc, buf, offset) {
        Ok(()) => Ok(()),
        Err(fault) => {
            if is_of_place(fault) {
                return Err(first_place_fault(alloc, chain, offset, buf, fault));
            }
            Err(fault)
        }
    }
}

// Returns true if the fault is that of a byte that can't be read.
fn is_of_place(fault: Fault) -> bool
    ensures { IsTrue result ↔ IsOfPlace fault }
{
    matches!(fault, Fault::Barred | Fault::DamagedTable)
}

// Returns the fault of the first byte of a range that can't be read. The range has such a byte, and `fault` is the fault of one. The search
// halves the range at each step.
fn first_place_fault<D: FormatDriverInstance>(
    alloc: Global,
    chain: &mut FormatAccess<D>,
    offset: u64,
    buf: &mut [u8],
    fault: Fault,
) -> Fault
    requires fits { offset + length buf.old < 2 ^ 64 }
    requires coherent { Each D.coherent (chain.old.0 ∷ chain.old.1) }
    requires usable { (f : Fault) → SomeUnusable (map D.layer (chain.old.0 ∷ chain.old.1)) f → ⊥ }
    requires faulty { HasFault (at (map D.layer (chain.old.0 ∷ chain.old.1))) offset (length buf.old) fault }
    ensures { NotReadInOrder D.DriverModel (at (map D.layer (chain.old.0 ∷ chain.old.1))) offset (length buf.old) result }
{
    let mut fault = fault;
    let mut good = 0;
    let mut end = buf.len();
    while end - good > 1 {
        let middle = good + (end - good) / 2;
        match chain.read(alloc, &mut buf[good..middle], offset + good as u64) {
            Ok(()) => good = middle,
            Err(other) => {
                if !is_of_place(other) {
                    return other;
                }
                fault = other;
                end = middle;
            }
        }
    }
    fault
}
