// Helpers of `MemoryFile` that copy, zero or extend a range of bytes in memory.
ghost use Rattle.std.specs.Prelude.{◌≡◌, ℕ, ◌+◌, ◌<◌, ◌≤◌, max, length, slice_index, replicate, vec_len, vec_capacity, IsTrue};
ghost use Rattle.imago_storage.specs.Calls.{Reads, Spliced};
ghost use Rattle.imago_storage.specs.Log.{resized, splice};

// Returns true if the range is within the bytes. An empty range is.
pub(crate) fn is_within(bytes: &[u8], at: usize, n: usize) -> bool
    ensures { IsTrue result → 0 < n → at + n ≤ length bytes.now }
{
    n == 0 || (n <= bytes.len() && at <= bytes.len() - n)
}

// Fills `buf` with the bytes from `at` on.
pub(crate) fn copy_out(bytes: &[u8], at: usize, buf: &mut [u8])
    requires { 0 < length buf.old → at + length buf.old ≤ length bytes.now }
    ensures { Reads bytes.now at buf.new }
{
    if !buf.is_empty() {
        buf.copy_from_slice(&bytes[at..at + buf.len()]);
    }
}

// Copies `data` over the bytes from `at` on.
fn copy_in(bytes: &mut [u8], at: usize, data: &[u8])
    requires { at + length «data».now ≤ length bytes.old }
    ensures { Spliced bytes.old at «data».now bytes.new }
{
    bytes[at..at + data.len()].copy_from_slice(data);
}

// Writes zeroes over `n` bytes from `at` on.
fn zero_in(bytes: &mut [u8], at: usize, n: usize)
    requires { at + n ≤ length bytes.old }
    ensures { Spliced bytes.old at (replicate n 0) bytes.new }
{
    bytes[at..at + n].fill(0);
}

// Extends the vector with zeroes to at least `n` bytes.
fn lengthen(bytes: &mut Vec<u8>, n: usize)
    requires { n ≤ vec_capacity bytes.old }
    ensures same { (k : ℕ) → slice_index bytes.new.items k ≡ slice_index bytes.old.items k }
    ensures len { length bytes.new.items ≡ max (length bytes.old.items) n }
{
    if bytes.len() < n {
        bytes.resize(n, 0).unwrap();
    }
}

// Writes `data` at `at`, and extends the vector if the range ends past its end.
fn overwrite(bytes: &mut Vec<u8>, at: usize, data: &[u8])
    requires { at + length «data».now ≤ vec_capacity bytes.old }
    ensures spliced { Spliced bytes.old.items at «data».now bytes.new.items }
    ensures len { length bytes.new.items ≡ max (length bytes.old.items) (at + length «data».now) }
{
    lengthen(bytes, at + data.len());
    copy_in(bytes, at, data);
}

// Writes `n` zeroes at `at`, and extends the vector if the range ends past its end.
fn overwrite_zeroes(bytes: &mut Vec<u8>, at: usize, n: usize)
    requires { at + n ≤ vec_capacity bytes.old }
    ensures spliced { Spliced bytes.old.items at (replicate n 0) bytes.new.items }
    ensures len { length bytes.new.items ≡ max (length bytes.old.items) (at + n) }
{
    lengthen(bytes, at + n);
    zero_in(bytes, at, n);
}

// Writes `data` at `at`. A gap between the old end and the range is 0.
pub(crate) fn splice(bytes: &mut Vec<u8>, at: usize, data: &[u8])
    requires { at + length «data».now ≤ vec_capacity bytes.old }
    ensures spliced { bytes.new.items ≡ splice bytes.old.items at «data».now }
    ensures bytes { (k : ℕ) → slice_index bytes.new.items k < 256 }
{
    overwrite(bytes, at, data);
}

// Writes `n` zeroes at `at`. A gap between the old end and the range is 0.
pub(crate) fn splice_zeroes(bytes: &mut Vec<u8>, at: usize, n: usize)
    requires { at + n ≤ vec_capacity bytes.old }
    ensures spliced { bytes.new.items ≡ splice bytes.old.items at (replicate n 0) }
    ensures bytes { (k : ℕ) → slice_index bytes.new.items k < 256 }
{
    overwrite_zeroes(bytes, at, n);
}

// Truncates the vector, or extends it with zeroes.
#[tactic(auto, unfolding(imago_storage::specs::Log::resized))]
pub(crate) fn resize(bytes: &mut Vec<u8>, n: usize)
    requires { n ≤ vec_capacity bytes.old }
    ensures resized { bytes.new.items ≡ resized bytes.old.items n }
    ensures bytes { (k : ℕ) → slice_index bytes.new.items k < 256 }
{
    bytes.resize(n, 0).unwrap();
}
