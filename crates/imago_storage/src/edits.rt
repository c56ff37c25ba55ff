// Helpers of this crate that copy, zero or extend a range of bytes in memory.
ghost use Rattle.std.specs.Prelude.{◌≡◌, ℕ, ◌+◌, ◌<◌, ◌≤◌, ◌^◌, length, slice_index, replicate, max, EachIndex, OnOk, OnErr};
ghost use Rattle.imago_storage.specs.Calls.{Reads, Spliced, SameOutside};

use std::alloc::AllocError;

// Returns the number of bytes.
pub(crate) fn byte_count(bytes: &[u8]) -> u64
    ensures value { result ≡ length bytes.now }
    ensures bytes { EachIndex bytes.now (λ k. slice_index bytes.now k < 256) }
{
    bytes.len() as u64
}

// Copies `data` over the bytes from `at` on.
pub(crate) fn copy_in(bytes: &mut [u8], at: usize, data: &[u8])
    requires { at + length «data».now ≤ length bytes.old }
    ensures { Spliced bytes.old at «data».now bytes.new }
{
    bytes[at..at + data.len()].copy_from_slice(data);
}

// Writes zeroes over `n` bytes from `at` on.
pub(crate) fn zero_in(bytes: &mut [u8], at: usize, n: usize)
    requires { at + n ≤ length bytes.old }
    ensures { Spliced bytes.old at (replicate n 0) bytes.new }
{
    bytes[at..at + n].fill(0);
}

// Writes zeroes over `n` bytes of a vector, from `at` on.
fn zero_part(bytes: &mut Vec<u8>, at: usize, n: usize)
    requires { at + n ≤ length bytes.old.items }
    ensures spliced { Spliced bytes.old.items at (replicate n 0) bytes.new.items }
    ensures len { length bytes.new.items ≡ length bytes.old.items }
{
    zero_in(bytes, at, n);
}

// Extends the vector with zeroes to at least `n` bytes.
fn lengthen(bytes: &mut Vec<u8>, n: usize) -> Result<(), AllocError>
    ensures same { OnOk result ((k : ℕ) → slice_index bytes.new.items k ≡ slice_index bytes.old.items k) }
    ensures len { OnOk result (length bytes.new.items ≡ max (length bytes.old.items) n) }
    ensures err { OnErr result (bytes.new.items ≡ bytes.old.items) }
{
    if bytes.len() < n {
        bytes.resize(n, 0)?;
    }
    Ok(())
}

// Writes `data` at `at`, and extends the vector if the range ends past its end.
pub(crate) fn splice(bytes: &mut Vec<u8>, at: usize, data: &[u8]) -> Result<(), AllocError>
    ensures ok { OnOk result (Spliced bytes.old.items at «data».now bytes.new.items) }
    ensures len { OnOk result (length bytes.new.items ≡ max (length bytes.old.items) (at + length «data».now)) }
    ensures err { OnErr result (bytes.new.items ≡ bytes.old.items) }
{
    // At the end, extending with zeroes first isn't necessary.
    if at == bytes.len() {
        return bytes.extend_from_slice(data);
    }
    let end = at.checked_add(data.len()).ok_or(AllocError)?;
    lengthen(bytes, end)?;
    copy_in(bytes, at, data);
    Ok(())
}

// Writes `n` zeroes at `at`, and extends the vector if the range ends past its end.
pub(crate) fn splice_zeroes(bytes: &mut Vec<u8>, at: usize, n: usize) -> Result<(), AllocError>
    ensures ok { OnOk result (Spliced bytes.old.items at (replicate n 0) bytes.new.items) }
    ensures len { OnOk result (length bytes.new.items ≡ max (length bytes.old.items) (at + n)) }
    ensures err { OnErr result (bytes.new.items ≡ bytes.old.items) }
{
    let end = at.checked_add(n).ok_or(AllocError)?;
    lengthen(bytes, end)?;
    zero_in(bytes, at, n);
    Ok(())
}

// Zeroes the part of the range that is inside the vector.
pub(crate) fn clear(bytes: &mut Vec<u8>, at: usize, n: usize)
    requires { at + n < 2 ^ 64 }
    ensures outside { SameOutside bytes.old.items at n bytes.new.items }
    ensures inside { (k : ℕ) → at ≤ k → k < at + n → slice_index bytes.new.items k ≡ 0 }
    ensures len { length bytes.new.items ≡ length bytes.old.items }
{
    let end = (at + n).min(bytes.len());
    if at < end {
        zero_part(bytes, at, end - at);
    }
}

// Fills `buf` with the bytes from `at` on. Bytes past the end read as 0.
pub(crate) fn copy_out(bytes: &[u8], at: usize, buf: &mut [u8])
    requires { at + length buf.old < 2 ^ 64 }
    ensures { Reads bytes.now at buf.new }
{
    let start = at.min(bytes.len());
    let end = (at + buf.len()).min(bytes.len());
    let there = end - start;
    copy_in(buf, 0, &bytes[start..end]);
    zero_in(buf, there, buf.len() - there);
}

// Fills the buffer with the bytes from `at` on.
pub(crate) fn take_part(bytes: &[u8], at: usize, buf: &mut [u8])
    requires { at + length buf.old ≤ length bytes.now }
    ensures { Reads bytes.now at buf.new }
{
    buf.copy_from_slice(&bytes[at..at + buf.len()]);
}
