// Parts of a file in a buffer: a page that is copied to it, and requests that are applied to it.
ghost use Rattle.std.specs.Prelude.{◌≡◌, ℕ, ◌+◌, ◌-◌, ◌<◌, ◌≤◌, ◌^◌, List, length, replicate, slice_index, EachIndex};
ghost use Rattle.imago_storage.specs.Calls.{Reads, Spliced};
ghost use Rattle.imago_storage.specs.Log.{apply, replay, splice};
ghost use Rattle.imago_storage.specs.declared.log.Request.{Request};

use imago_storage::Request;

// Returns the number of bytes.
pub(crate) fn byte_count(bytes: &[u8]) -> u64
    ensures value { result ≡ length bytes.now }
    ensures bytes { EachIndex bytes.now (λ k. slice_index bytes.now k < 256) }
{
    bytes.len() as u64
}

// Copies `data` over the bytes from `at` on.
fn copy_in(bytes: &mut [u8], at: usize, data: &[u8])
    requires { at + length «data».now ≤ length bytes.old }
    ensures { Spliced bytes.old at «data».now bytes.new }
{
    bytes[at..at + data.len()].copy_from_slice(data);
}

// Writes zeroes over `n` bytes from `at` on.
pub(crate) fn zero_in(bytes: &mut [u8], at: usize, n: usize)
    requires { at + n ≤ length bytes.old }
    ensures { Spliced bytes.old at (replicate n 0) bytes.new }
{
    bytes[at..at + n].fill(0);
}

// Copies bytes at an offset of the file to a buffer at another offset of it.
//
// Bytes outside of the buffer are left out.
pub(crate) fn overlay(buf: &mut [u8], offset: u64, data: &[u8], at: u64)
    requires buffer { offset + length buf.old < 2 ^ 64 }
    requires bytes { at + length «data».now < 2 ^ 64 }
    ensures inside { (k : ℕ) → k < length buf.old → at ≤ offset + k → offset + k < at + length «data».now
        → slice_index buf.new k ≡ slice_index «data».now (offset + k - at) }
    ensures before { (k : ℕ) → offset + k < at → slice_index buf.new k ≡ slice_index buf.old k }
    ensures after { (k : ℕ) → at + length «data».now ≤ offset + k → slice_index buf.new k ≡ slice_index buf.old k }
{
    let from = offset.max(at);
    let to = (offset + buf.len() as u64).min(at + data.len() as u64);
    if from < to {
        let part = &data[(from - at) as usize..(to - at) as usize];
        copy_in(buf, (from - offset) as usize, part);
    }
}

// Zeroes the part of the buffer that is in a range of the file.
fn zero_over(buf: &mut [u8], offset: u64, at: u64, n: u64)
    requires { offset + length buf.old < 2 ^ 64 }
    ensures inside { (k : ℕ) → k < length buf.old → at ≤ offset + k → offset + k < at + n → slice_index buf.new k ≡ 0 }
    ensures before { (k : ℕ) → offset + k < at → slice_index buf.new k ≡ slice_index buf.old k }
    ensures after { (k : ℕ) → at + n ≤ offset + k → slice_index buf.new k ≡ slice_index buf.old k }
{
    let from = offset.max(at);
    let to = (offset + buf.len() as u64).min(at.saturating_add(n));
    if from < to {
        zero_in(buf, (from - offset) as usize, (to - from) as usize);
    }
}

// Zeroes the part of the buffer that is past a size of the file.
fn cut(buf: &mut [u8], offset: u64, size: u64)
    requires { offset + length buf.old < 2 ^ 64 }
    ensures below { (k : ℕ) → offset + k < size → slice_index buf.new k ≡ slice_index buf.old k }
    ensures past { (k : ℕ) → k < length buf.old → size ≤ offset + k → slice_index buf.new k ≡ 0 }
{
    let end = offset + buf.len() as u64;
    let from = size.max(offset);
    if from < end {
        zero_in(buf, (from - offset) as usize, (end - from) as usize);
    }
}

// Applies a request to the part of the file in the buffer.
fn apply_part(request: &Request, buf: &mut [u8], offset: u64)
    requires { offset + length buf.old < 2 ^ 64 }
    ensures { (file : List ℕ) → Reads file offset buf.old → Reads (apply request.now file) offset buf.new }
{
    match request {
        Request::Write { offset: at, bytes } => write_part(buf, offset, bytes, *at),
        Request::Zeroes { offset: at, length } => zero_over(buf, offset, *at, *length),
        Request::Resize { size } => cut(buf, offset, *size),
    }
}

// Applies a write to the part of the file in the buffer.
fn write_part(buf: &mut [u8], offset: u64, data: &[u8], at: u64)
    requires { offset + length buf.old < 2 ^ 64 }
    ensures { (file : List ℕ) → Reads file offset buf.old → Reads (splice file at «data».now) offset buf.new }
{
    // A write past the end of 64 bits can't be in the buffer.
    let there = (u64::MAX - at).min(data.len() as u64) as usize;
    overlay(buf, offset, &data[..there], at);
}

// Applies requests to the part of the file in the buffer, in order.
pub(crate) fn replay_part(requests: &[Request], buf: &mut [u8], offset: u64)
    requires { offset + length buf.old < 2 ^ 64 }
    ensures { (file : List ℕ) → Reads file offset buf.old → Reads (replay file requests.now) offset buf.new }
{
    for request in requests {
        apply_part(request, buf, offset);
    }
}
