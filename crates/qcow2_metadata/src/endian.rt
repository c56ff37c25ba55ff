// Big-endian numbers of at most eight bytes.
ghost use Rattle.std.specs.Prelude.{◌≡◌, ◌^◌, ◌<◌, ◌≤◌, length};
ghost use Rattle.qcow2_metadata.specs.Cells.{big_endian};

/// Returns the big-endian number in at most eight bytes.
pub fn read_be(bytes: &[u8]) -> u64
    requires { length bytes.now ≤ 8 }
    ensures value { result ≡ big_endian bytes.now }
    ensures below { result < 256 ^ length bytes.now }
{
    let mut value: u64 = 0;
    for byte in bytes {
        value = value * 256 + u64::from(*byte);
    }
    value
}

/// Writes a number as big-endian bytes over the whole slice of at most eight bytes.
pub fn write_be(bytes: &mut [u8], value: u64)
    requires { value < 256 ^ length bytes.old }
    ensures { big_endian bytes.new ≡ value }
{
    if !bytes.is_empty() {
        let end = bytes.len() - 1;
        write_be(&mut bytes[..end], value / 256);
        bytes[end] = (value % 256) as u8;
    }
}
