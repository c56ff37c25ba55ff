// Big-endian numbers at an index of a byte slice.
ghost use Rattle.std.specs.Prelude.{◌≡◌, ◌+◌, ◌<◌, ◌^◌};
ghost use Rattle.qcow2_types.specs.Bytes.{be, bytes_of};

/// Returns the byte at an index, or 0 past the end.
pub(crate) fn byte_at(bytes: &[u8], at: usize) -> u8
    ensures { result ≡ bytes_of bytes.now at }
{
    bytes.get(at).copied().unwrap_or(0)
}

/// Returns the big-endian number in the 4 bytes from an index on. Bytes past the end are 0.
pub(crate) fn u32_at(bytes: &[u8], at: usize) -> u32
    requires { at + 4 < 2 ^ 64 }
    ensures { result ≡ be (bytes_of bytes.now) at 4 }
{
    let mut number = 0u32;
    for i in 0..4usize {
        number = number << 8 | u32::from(byte_at(bytes, at + i));
    }
    number
}
