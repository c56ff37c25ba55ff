// Refcounts of 1, 2, 4, 8, 16, 32 or 64 bits, packed in the bytes of a refcount block. A refcount of less than 8 bits
// shares its cell, one byte, with others. The width is 2^`order` bits. Definitions: specs/Cells.antt.
ghost use Rattle.std.specs.Prelude.{◌≡◌, ◌≢◌, ℕ, ◌+◌, ◌-◌, ◌*◌, ◌/◌, ◌%◌, ◌^◌, ◌<◌, ◌≤◌, ◌↔◌, length, IsOk, OnOk, OnErr, IfErr};
ghost use Rattle.qcow2_metadata.specs.Cells.{big_endian, bit_start, cell_bytes, cell_start, counter, HasCounter, IsRaised};

use crate::endian::{read_be, write_be};
use imago_storage::Fault;
use qcow2_types::bits::low_bits;

/// Returns the index of the first byte of the cell that holds the refcount.
fn first_byte(order: u32, index: usize) -> usize
    requires order { order ≤ 6 }
    requires fits { cell_start order index < 2 ^ 64 }
    ensures { result ≡ cell_start order index }
{
    (index >> 3u32.saturating_sub(order)) << order.saturating_sub(3)
}

/// Returns the bit of its cell at which the refcount starts.
fn first_bit(order: u32, index: usize) -> u32
    requires { order ≤ 6 }
    ensures bit { result ≡ bit_start order index }
    ensures inside { result + 2 ^ order ≤ 8 * cell_bytes order }
{
    (low_bits(index as u64, 3u32.saturating_sub(order)) as u32) << order
}

/// Returns the length of a cell, in bytes.
fn cell_len(order: u32) -> usize
    requires { order ≤ 6 }
    ensures { result ≡ cell_bytes order }
{
    1 << order.saturating_sub(3)
}

/// Returns the greatest refcount of this width.
fn max_counter(order: u32) -> u64
    requires { order ≤ 6 }
    ensures { result ≡ 2 ^ (2 ^ order) - 1 }
{
    u64::MAX >> (64 - (1u32 << order))
}

/// Returns the refcount that starts at a bit of its cell's number.
fn digit(number: u64, bit: u32, order: u32) -> u64
    requires order { order ≤ 6 }
    requires bit { bit + 2 ^ order ≤ 64 }
    ensures { result ≡ number / 2 ^ bit % 2 ^ (2 ^ order) }
{
    (number >> bit) & max_counter(order)
}

/// Returns the refcount of 16 bits at `index`, read directly from its two bytes.
fn get_16(bytes: &[u8], index: usize) -> u64
    requires { HasCounter 4 bytes.now index }
    ensures { result ≡ counter 4 bytes.now index }
{
    let high = u64::from(bytes[2 * index]);
    let low = u64::from(bytes[2 * index + 1]);
    high * 256 + low
}

/// Returns the refcount at `index`.
#[inline]
#[tactic(auto, using(crate::proofs::Widths::width_facts))]
pub fn get(bytes: &[u8], order: u32, index: usize) -> u64
    requires order { order ≤ 6 }
    requires inside { HasCounter order bytes.now index }
    ensures { result ≡ counter order bytes.now index }
{
    if order == 4 {
        // Nearly all images have this width.
        return get_16(bytes, index);
    }
    let start = first_byte(order, index);
    let end = start + cell_len(order);
    digit(read_be(&bytes[start..end]), first_bit(order, index), order)
}

/// Increments the refcount that starts at a bit of its cell, unless it is the greatest of its width.
#[tactic(auto, using(crate::proofs::Widths::width_facts))]
fn raise(cell: &mut [u8], bit: u32, order: u32) -> Result<(), Fault>
    requires order { order ≤ 6 }
    requires len { length cell.old ≡ cell_bytes order }
    requires inside { bit + 2 ^ order ≤ 8 * cell_bytes order }
    ensures possible { IsOk result ↔ (big_endian cell.old / 2 ^ bit % 2 ^ (2 ^ order) + 1 < 2 ^ (2 ^ order)) }
    ensures raised { OnOk result (big_endian cell.new ≡ big_endian cell.old + 2 ^ bit) }
    ensures refused { IfErr result (λ e. e ≡ Fault.Counter) }
    ensures same { OnErr result (cell.new ≡ cell.old) }
{
    let number = read_be(cell);
    if digit(number, bit, order) == max_counter(order) {
        return Err(Fault::Counter);
    }
    write_be(cell, number + (1 << bit));
    Ok(())
}

/// Lowers the refcount that starts at a bit of its cell by `by`, unless it is less.
#[tactic(auto, using(crate::proofs::Widths::width_facts))]
fn lower(cell: &mut [u8], bit: u32, order: u32, by: u64) -> Result<(), Fault>
    requires order { order ≤ 6 }
    requires len { length cell.old ≡ cell_bytes order }
    requires inside { bit + 2 ^ order ≤ 8 * cell_bytes order }
    ensures possible { IsOk result ↔ (by ≤ big_endian cell.old / 2 ^ bit % 2 ^ (2 ^ order)) }
    ensures lowered { OnOk result (big_endian cell.old ≡ big_endian cell.new + by * 2 ^ bit) }
    ensures refused { IfErr result (λ e. e ≡ Fault.Counter) }
    ensures same { OnErr result (cell.new ≡ cell.old) }
{
    let number = read_be(cell);
    if digit(number, bit, order) < by {
        return Err(Fault::Counter);
    }
    write_be(cell, number - (by << bit));
    Ok(())
}

/// Increments the refcount at `index`, unless it is the greatest of its width.
///
/// # Errors
///
/// - `Fault::Counter` exactly if the refcount is the greatest of its width. The bytes are unchanged.
pub fn increment(bytes: &mut [u8], order: u32, index: usize) -> Result<(), Fault>
    requires order { order ≤ 6 }
    requires inside { HasCounter order bytes.old index }
    ensures possible { IsOk result ↔ (counter order bytes.old index + 1 < 2 ^ (2 ^ order)) }
    ensures raised { OnOk result (IsRaised order 1 bytes.old index bytes.new) }
    ensures step { OnOk result (counter order bytes.new index ≡ counter order bytes.old index + 1) }
    ensures others { OnOk result ((j : ℕ) → j ≢ index → counter order bytes.new j ≡ counter order bytes.old j) }
    ensures refused { IfErr result (λ e. e ≡ Fault.Counter) }
    ensures same { OnErr result (bytes.new ≡ bytes.old) }
{
    let start = first_byte(order, index);
    let end = start + cell_len(order);
    raise(&mut bytes[start..end], first_bit(order, index), order)
}

/// Lowers the refcount at `index` by `by`, unless it is less.
///
/// # Errors
///
/// - `Fault::Counter` exactly if the refcount is less than `by`. The bytes are unchanged.
pub fn decrement_by(bytes: &mut [u8], order: u32, index: usize, by: u64) -> Result<(), Fault>
    requires order { order ≤ 6 }
    requires inside { HasCounter order bytes.old index }
    ensures possible { IsOk result ↔ (by ≤ counter order bytes.old index) }
    ensures lowered { OnOk result (IsRaised order by bytes.new index bytes.old) }
    ensures step { OnOk result (counter order bytes.new index + by ≡ counter order bytes.old index) }
    ensures others { OnOk result ((j : ℕ) → j ≢ index → counter order bytes.new j ≡ counter order bytes.old j) }
    ensures refused { IfErr result (λ e. e ≡ Fault.Counter) }
    ensures same { OnErr result (bytes.new ≡ bytes.old) }
{
    let start = first_byte(order, index);
    let end = start + cell_len(order);
    lower(&mut bytes[start..end], first_bit(order, index), order, by)
}
