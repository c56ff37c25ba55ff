// An example of the library: writes to a raw image in memory and reads it again.
use imago_access::FormatAccess;
use imago_formats::Raw;
use imago_storage::{Fault, MemStorage};
use std::alloc::Global;
use std::process::Abort;
use std::test::Fail;

// Writes three bytes to a raw image of 4,096 zeroes, and reads eight bytes.
fn written(alloc: Global) -> Result<[u8; 8], Fault> {
    let bytes = vec![in alloc; 0u8; 4096]?;
    let image = Raw::open_image(MemStorage::from_bytes(bytes)?, true);
    let mut disk = FormatAccess::new(image);
    disk.write(alloc, &[1, 2, 3], 510)?;
    let mut buf = [0u8; 8];
    disk.read(alloc, &mut buf, 508)?;
    disk.flush(alloc)?;
    Ok(buf)
}

#[test]
fn a_raw_image_is_written_and_read(rt: HostRuntime) -> Result<(), Fail> {
    assert!(rt; written(rt.alloc()) == Ok([0, 0, 1, 2, 3, 0, 0, 0]));
    Ok(())
}
