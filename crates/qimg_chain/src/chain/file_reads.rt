// Reads the current bytes of the files of a layer (an image of a chain).
use crate::chain::image_driver::ImageDriver;
use imago_access::ReadFiles;
use imago_storage::{Fault, Storage};
use std::alloc::Global;

impl<S: Storage> ReadFiles for ImageDriver<S> {
    fn read_file(
        &mut self,
        alloc: Global,
        file: usize,
        offset: u64,
        buf: &mut [u8],
    ) -> Result<(), Fault> {
        match self {
            ImageDriver::Raw(raw) => raw.read_file(alloc, file, offset, buf),
            ImageDriver::Vmdk(vmdk) => vmdk.read_file(alloc, file, offset, buf),
            ImageDriver::Qcow2(qcow2) => qcow2.read_file(alloc, file, offset, buf),
        }
    }
}
