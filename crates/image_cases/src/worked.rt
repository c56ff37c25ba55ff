// Makes a worked image: one with known bytes at known clusters.
use crate::files::put_small;
use crate::images::Images;
use cases::{Trouble, ok};
use imago_storage::{MemStorage, PreallocateMode, Storage, StorageExt};
use std::alloc::Global;

// Makes an image of 65,536 bytes with the bytes 01 02 03 at guest offset 510. The L2 table is in cluster 4, and the data in clusters 5 and 6.
fn worked(alloc: Global) -> Result<MemStorage, Trouble> {
    let mut image = MemStorage::new(alloc);
    put_small(&mut image, alloc, &[])?;
    image.write(alloc, &[1, 2, 3], 3070)?;
    image.resize(3584, PreallocateMode::None)?;
    Ok(image)
}

impl<'a> Images<'a> {
    /// Replaces the file with the worked image.
    ///
    /// # Errors
    ///
    /// - `Trouble::Refused` if memory runs out.
    pub fn work(&mut self, alloc: Global) -> Result<String, Trouble> {
        self.kept = None;
        self.file = Some(worked(alloc)?);
        Ok(ok(alloc)?)
    }
}
