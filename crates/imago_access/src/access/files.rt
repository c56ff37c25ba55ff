// Reads the bytes of the files of a chain's images, without the mapping of the disk. Definitions: specs/FileReads.antt.
ghost use Rattle.std.specs.Prelude.{◌≡◌, ◌≤◌, ◌∷◌, length, OnOk, IfErr, IsOk, IsErrOf};
ghost use Rattle.imago_access.specs.Layers.{chain, layers};
ghost use Rattle.imago_access.specs.Files.{AreRead, OverflowsIn, Pairs, HadNoResourceError, files_of};
ghost use Rattle.imago_access.specs.FileReads.{file_bytes_in, files_at, FilesRead, FileReadCause};
ghost use Rattle.imago_access.specs.Going.{LookupCall};

use crate::access::FormatAccess;
use crate::drivers::FormatDriverInstance;
use crate::file_reads::ReadFiles;
use imago_storage::{Fault, Storage};
use std::alloc::Global;

impl<D: FormatDriverInstance> FormatAccess<D> {
    /// Returns the length of a file of a layer (an image of the chain), in bytes.
    ///
    /// The top layer has the number 0. In each layer the image file has the number 0, and the other files follow. If no file has these
    /// numbers, the length is 0.
    pub fn file_size(&self, layer: usize, file: usize) -> u64
        ensures { result ≡ length (file_bytes_in (files_at D.DriverModel (chain self.now) layer) file) }
    {
        if layer > 0 {
            return match &self.below {
                None => 0,
                Some(below) => below.file_size(layer - 1, file),
            };
        }
        if file == 0 {
            return self.driver.image_file().size();
        }
        match self.driver.extra_file(file - 1) {
            None => 0,
            Some(extra) => extra.size(),
        }
    }
}

impl<D: ReadFiles> FormatAccess<D> {
    /// Fills the buffer with the bytes of a file of a layer from `offset` on, in bytes. Layers and files have the numbers of `file_size`.
    ///
    /// Past the end of the file the bytes are 0. They are also 0 if no file has these numbers. Dirty data in memory isn't part of the
    /// files.
    ///
    /// This reads no byte of the disk. It also works on an image that has failed or that has no data file, and a storage's fault doesn't
    /// mark an image failed.
    ///
    /// # Errors
    ///
    /// - `Fault::RangeOverflow` if the range isn't empty and its end, padded to the file's unit of requests, doesn't fit `u64`. The unit is
    ///   the larger of the file's two alignments, in bytes. This is checked before memory is allocated or a request is made.
    /// - `Fault::Memory` if memory ran out. No storage of the chain failed.
    /// - `Fault::Storage` if a storage of the chain failed.
    ///
    /// An empty range and numbers without a file never fail.
    ///
    /// # On error
    ///
    /// The contents of the buffer are unspecified. Nothing else changes, except for the storages' counts of faults.
    #[cycle(read_file)]
    pub fn read_file(
        &mut self,
        alloc: Global,
        layer: usize,
        file: usize,
        offset: u64,
        buf: &mut [u8],
    ) -> Result<(), Fault>
        // The result.
        ensures bytes { OnOk result (AreRead (files_at D.DriverModel (chain self.old) layer) file offset (length buf.old) buf.new) }
        ensures overflow { OverflowsIn (files_at D.DriverModel (chain self.old) layer) file offset (length buf.old)
            → IsErrOf result Fault.RangeOverflow }
        ensures empty { length buf.old ≡ 0 → IsOk result }
        ensures beyond { length (files_at D.DriverModel (chain self.old) layer) ≤ file → IsOk result }

        // Preserved state.
        ensures read { Pairs (FilesRead D.DriverModel (HadNoResourceError result)) (chain self.old) (chain self.new) }
        ensures lookup_call { Pairs (LookupCall D.DriverModel (HadNoResourceError result)) (chain self.old) (chain self.new) }

        // Errors.
        ensures cause { let overflows = OverflowsIn (files_at D.DriverModel (chain self.old) layer) file offset (length buf.old) in
            IfErr result (FileReadCause overflows (files_of D.DriverModel (chain self.old)) (files_of D.DriverModel (chain self.new))) }
    {
        Self::read_file_part(
            alloc,
            &mut self.driver,
            &mut self.below,
            layer,
            file,
            offset,
            buf,
        )
    }

    // Reads from a layer and the layers below it, like `read_file`.
    #[cycle(read_file)]
    fn read_file_part(
        alloc: Global,
        driver: &mut D,
        below: &mut Option<Box<FormatAccess<D>>>,
        layer: usize,
        file: usize,
        offset: u64,
        buf: &mut [u8],
    ) -> Result<(), Fault>
        ensures bytes { OnOk result (AreRead (files_at D.DriverModel (driver.old ∷ layers below.old) layer) file offset (length buf.old) buf.new) }
        ensures overflow { OverflowsIn (files_at D.DriverModel (driver.old ∷ layers below.old) layer) file offset (length buf.old)
            → IsErrOf result Fault.RangeOverflow }
        ensures empty { length buf.old ≡ 0 → IsOk result }
        ensures beyond { length (files_at D.DriverModel (driver.old ∷ layers below.old) layer) ≤ file → IsOk result }
        ensures read { Pairs (FilesRead D.DriverModel (HadNoResourceError result)) (driver.old ∷ layers below.old) (driver.new ∷ layers below.new) }
        ensures cause { let olds = driver.old ∷ layers below.old in let news = driver.new ∷ layers below.new in
            let overflows = OverflowsIn (files_at D.DriverModel olds layer) file offset (length buf.old) in
            IfErr result (FileReadCause overflows (files_of D.DriverModel olds) (files_of D.DriverModel news)) }
    {
        if layer == 0 {
            return driver.read_file(alloc, file, offset, buf);
        }
        Self::read_file_below(alloc, below, layer - 1, file, offset, buf)
    }

    // Reads from the layers below, like `read_file`. Without any, the bytes are 0.
    #[cycle(read_file)]
    fn read_file_below(
        alloc: Global,
        below: &mut Option<Box<FormatAccess<D>>>,
        layer: usize,
        file: usize,
        offset: u64,
        buf: &mut [u8],
    ) -> Result<(), Fault>
        ensures bytes { OnOk result (AreRead (files_at D.DriverModel (layers below.old) layer) file offset (length buf.old) buf.new) }
        ensures overflow { OverflowsIn (files_at D.DriverModel (layers below.old) layer) file offset (length buf.old)
            → IsErrOf result Fault.RangeOverflow }
        ensures empty { length buf.old ≡ 0 → IsOk result }
        ensures beyond { length (files_at D.DriverModel (layers below.old) layer) ≤ file → IsOk result }
        ensures read { Pairs (FilesRead D.DriverModel (HadNoResourceError result)) (layers below.old) (layers below.new) }
        ensures cause { let overflows = OverflowsIn (files_at D.DriverModel (layers below.old) layer) file offset (length buf.old) in
            IfErr result (FileReadCause overflows (files_of D.DriverModel (layers below.old)) (files_of D.DriverModel (layers below.new))) }
    {
        match below {
            Some(access) => access.read_file(alloc, layer, file, offset, buf),
            None => {
                buf.fill(0);
                Ok(())
            }
        }
    }
}
