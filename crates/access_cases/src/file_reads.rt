// Reads the bytes of an image's own file, without the mapping of the disk.
use crate::clusters::OneCluster;
use crate::drivers::Driver;
use imago_access::ReadFiles;
use imago_storage::{Fault, Storage, StorageExt};
use std::alloc::Global;

impl<S: Storage> ReadFiles for OneCluster<S> {
    fn read_file(
        &mut self,
        alloc: Global,
        file: usize,
        offset: u64,
        buf: &mut [u8],
    ) -> Result<(), Fault> {
        if file == 0 {
            return self.file.read(alloc, buf, offset);
        }
        buf.fill(0);
        Ok(())
    }
}

impl<S: Storage> ReadFiles for Driver<S> {
    fn read_file(
        &mut self,
        alloc: Global,
        file: usize,
        offset: u64,
        buf: &mut [u8],
    ) -> Result<(), Fault> {
        match self {
            Driver::Raw(raw) => raw.read_file(alloc, file, offset, buf),
            Driver::Words(words) => words.read_file(alloc, file, offset, buf),
        }
    }
}
