// Reads of the bytes of the image file itself, not of the disk. A qcow2 image has one file, number 0.
ghost use Rattle.std.specs.Prelude.{◌≡◌, ◌≤◌, length, OnOk, IfErr, IsOk, IsErrOf};
ghost use Rattle.imago_access.specs.FileReads.{FilesRead, FileReadCause};
ghost use Rattle.imago_access.specs.Files.{AreRead, OverflowsIn, HadNoResourceError, files};
ghost use Rattle.qcow2_image.specs.Leaking.{KeepsLeaks};

use crate::qcow2::Qcow2;
use imago_access::{DriverModel, ReadFiles};
use imago_storage::{Fault, Storage, StorageExt};
use std::alloc::Global;

impl<S: Storage> ReadFiles for Qcow2<S> {
    fn read_file(
        &mut self,
        alloc: Global,
        file: usize,
        offset: u64,
        buf: &mut [u8],
    ) -> Result<(), Fault>
        ensures bytes { OnOk result (AreRead (files ⟦<Qcow2<S> as DriverModel>⟧ self.old) file offset (length buf.old) buf.new) }
        ensures overflow { let d = ⟦<Qcow2<S> as DriverModel>⟧ in
            OverflowsIn (files d self.old) file offset (length buf.old) → IsErrOf result Fault.RangeOverflow }
        ensures empty { length buf.old ≡ 0 → IsOk result }
        ensures beyond { let d = ⟦<Qcow2<S> as DriverModel>⟧ in length (files d self.old) ≤ file → IsOk result }
        ensures read { FilesRead ⟦<Qcow2<S> as DriverModel>⟧ (HadNoResourceError result) self.old self.new }
        ensures cause { let d = ⟦<Qcow2<S> as DriverModel>⟧ in let overflows = OverflowsIn (files d self.old) file offset (length buf.old) in
            IfErr result (FileReadCause overflows (files d self.old) (files d self.new)) }
        // The call leaks nothing.
        ensures leaks { KeepsLeaks S.Storage self.old self.new }
    {
        if file == 0 {
            return self.tables.file.image.read(alloc, buf, offset);
        }
        buf.fill(0);
        Ok(())
    }
}
