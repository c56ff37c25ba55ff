// `ReadFiles`: reads the bytes of an image's own files (the image file, extents), without the mapping of the disk. Definitions:
// specs/FileReads.antt.
ghost use Rattle.std.specs.Prelude.{◌≡◌, ◌≤◌, length, OnOk, IfErr, IsOk, IsErrOf};
ghost use Rattle.imago_access.specs.Files.{AreRead, OverflowsIn, HadNoResourceError, files};
ghost use Rattle.imago_access.specs.FileReads.{FilesRead, FileReadCause};

use crate::drivers::FormatDriverInstance;
use imago_storage::Fault;
use std::alloc::Global;

/// A driver that gives access to the bytes of its files, for copies and inspection.
///
/// This reads no byte of the disk. It also works on an image that has failed or that has no data file, and a storage's fault doesn't mark
/// the image failed.
///
/// `imago_formats::Raw`, `imago_formats::Vmdk`, `qcow2_image::Qcow2` and `qimg_chain::chain::ImageDriver` implement it.
pub trait ReadFiles: FormatDriverInstance {
    /// Fills the buffer with the bytes of a file from `offset` on, in bytes. The image file has the number 0, and the other files follow.
    ///
    /// Past the end of the file the bytes are 0. They are also 0 if no file has this number. Dirty data in memory isn't part of the files.
    ///
    /// # Errors
    ///
    /// - `Fault::RangeOverflow` if the range isn't empty and its end, padded to the file's unit of requests, doesn't fit `u64`. The unit is
    ///   the larger of the file's two alignments, in bytes. This is checked before memory is allocated or a request is made.
    /// - `Fault::Memory` if memory ran out. No storage failed.
    /// - `Fault::Storage` if a storage failed.
    ///
    /// An empty range and a number without a file never fail.
    ///
    /// # On error
    ///
    /// The contents of the buffer are unspecified. Nothing else changes, except for the storages' counts of faults.
    fn read_file(
        &mut self,
        alloc: Global,
        file: usize,
        offset: u64,
        buf: &mut [u8],
    ) -> Result<(), Fault>
        // The result.
        ensures bytes { OnOk result (AreRead (files Self.DriverModel self.old) file offset (length buf.old) buf.new) }
        ensures overflow { OverflowsIn (files Self.DriverModel self.old) file offset (length buf.old) → IsErrOf result Fault.RangeOverflow }
        ensures empty { length buf.old ≡ 0 → IsOk result }
        ensures beyond { length (files Self.DriverModel self.old) ≤ file → IsOk result }

        // Preserved state.
        ensures read { FilesRead Self.DriverModel (HadNoResourceError result) self.old self.new }

        // Errors.
        ensures cause { let overflows = OverflowsIn (files Self.DriverModel self.old) file offset (length buf.old) in
            IfErr result (FileReadCause overflows (files Self.DriverModel self.old) (files Self.DriverModel self.new)) };
}
