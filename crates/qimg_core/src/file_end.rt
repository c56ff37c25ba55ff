//! Helpers for tables that extend past the end of a file. All bytes past the end count as 0.
ghost use Rattle.std.specs.Prelude.{◌≡◌, ℕ, ◌+◌, ◌*◌, ◌<◌, ◌≤◌, ◌^◌};

/// Returns how many of the `count` 8-byte entries from offset `place` on begin before the file's end. All later entries are 0.
pub fn entries_before(end: u64, place: u64, count: usize) -> usize
    requires { count < 2 ^ 32 }
    ensures count_bounded { result ≤ count }
    ensures inside { (i : ℕ) → i < result → place + 8 * i < end }
    ensures later_past_end { (i : ℕ) → result ≤ i → i < count → end ≤ place + 8 * i }
{
    if end <= place {
        return 0;
    }
    let inside = (end - place).div_ceil(8);
    if inside < count as u64 {
        inside as usize
    } else {
        count
    }
}
