// Sets the disk size in the header. Definitions: specs/Sizing.antt.
ghost use Rattle.qcow2_clusters.specs.Sizing.{SizesDisk};

use imago_storage::{Fault, Storage};
use qcow2_alloc::ImageFile;
use std::alloc::Global;

/// Sets the disk size in the header, in bytes: in memory, and then in the file in one request. If that fails, the header in
/// memory has the old size.
///
/// The call writes bytes 0 to 63 of the header. It changes no table.
///
/// # Errors
///
/// - `Fault::Memory`, `Fault::Storage`. The header in the file may have the new size.
///
/// # Crash safety
///
/// If the image is consistent and nothing is cached, and its storage keeps what is written and refuses no change, each crash
/// image (the file after a crash during the request) is consistent. Its disk has the old or the new size, and each guest byte
/// reads as before.
pub fn set_disk_size<S: Storage>(
    alloc: Global,
    file: &mut ImageFile<S>,
    size: u64,
) -> Result<(), Fault>
    ensures { SizesDisk S.state size file.old result file.new }
{
    // The contract of `size` shows that each byte of the file is below 256, so the header's fields fit.
    let _length = file.image.size();
    let old = file.header.size();
    file.header.set_size(size);
    match file.header.write_size(alloc, &mut file.image) {
        Ok(()) => Ok(()),
        Err(fault) => {
            file.header.set_size(old);
            Err(fault)
        }
    }
}
