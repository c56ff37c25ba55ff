//! Functions that split a number at a bit, and join the two parts.

ghost use Rattle.std.specs.Prelude.{◌≡◌, ◌+◌, ◌*◌, ◌%◌, ◌^◌, ◌<◌};

/// Returns the lowest `bits` bits of a number.
pub fn low_bits(value: u64, bits: u32) -> u64
    requires { bits < 64 }
    ensures { result ≡ value % 2 ^ bits }
{
    value & ((1 << bits) - 1)
}

/// Returns the number whose lowest `bits` bits are `low`, with `high` above them.
pub fn join_bits(high: u64, low: u64, bits: u32) -> u64
    requires bits { bits < 64 }
    requires low { low < 2 ^ bits }
    requires fits { high * 2 ^ bits + low < 2 ^ 64 }
    ensures { result ≡ high * 2 ^ bits + low }
{
    (high << bits) | low
}
