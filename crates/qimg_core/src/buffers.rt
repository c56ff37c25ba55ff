//! Helpers for byte buffers.
ghost use Rattle.std.specs.Prelude.{◌≡◌, ℕ, slice_index};

/// Fills `buf` with zeroes.
pub fn blank(buf: &mut [u8])
    ensures { (i : ℕ) → slice_index buf.new i ≡ 0 }
{
    buf.fill(0);
}
