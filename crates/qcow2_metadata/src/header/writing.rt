// Writes a header, as a whole or only its first 64 bytes.
ghost use Rattle.std.specs.Prelude.{◌≡◌, ◌+◌, ◌≤◌, ◌++◌, length, drop, replicate, Some, None, OnOk, OnErr, IfOk, IfErr, IsTrue, IsFalse, if◌then◌else◌};
ghost use Rattle.std.specs.Result.{result_err};
ghost use Rattle.imago_storage.specs.State.{unit_of};
ghost use Rattle.imago_storage.specs.Through.{FitsOneRequest, WriteOutcome, AtomicWriteOutcome};
ghost use Rattle.qcow2_types.specs.HeaderBytes.{first_bytes, fields_bytes, fields_length, extensions_bytes, name_bytes, written_fields, written, header_bytes, fits_first_cluster};
ghost use Rattle.qcow2_metadata.specs.FieldsView.{seen_fields, IsHeader};
ghost use Rattle.qcow2_metadata.specs.Writing.{IsUnfit, NotAsked};

use super::{FIRST_FIELDS, Header, MAX_BACKING_NAME};
use crate::extension_bytes::{push_names, push_text};
use crate::extensions::{BACKING_FORMAT, EXTERNAL_DATA_FILE};
use imago_storage::{Fault, Storage, StorageExt};
use qcow2_types::{OnDiskStruct, V2Header, V3HeaderBase};
use std::alloc::{AllocError, Global};

/// The length of the fields in version 2, in bytes.
const OLDER_LENGTH: usize = 72;
/// The length of the fields in version 3, in bytes.
const NEWER_LENGTH: usize = 104;

/// Overwrites the start of the bytes with the fields.
fn put_fields(bytes: &mut [u8], v2: &V2Header, v3: &V3HeaderBase)
    requires magic { v2.now.magic ≡ 0x5146_49fb }
    requires room { fields_length (seen_fields v2.now v3.now) ≤ length bytes.old }
    ensures { bytes.new ≡ fields_bytes (seen_fields v2.now v3.now) ++ drop (fields_length (seen_fields v2.now v3.now)) bytes.old }
{
    v2.to_bytes(&mut bytes[..OLDER_LENGTH]);
    if v2.version == 3 {
        v3.to_bytes(&mut bytes[OLDER_LENGTH..NEWER_LENGTH]);
    }
}

impl Header {
    // Returns the length of the fields, in bytes.
    fn fields_length(&self) -> usize
        ensures { result ≡ fields_length self.now.fields }
    {
        if self.v2.version == 3 {
            NEWER_LENGTH
        } else {
            OLDER_LENGTH
        }
    }

    // Returns the bytes of the backing file's name, empty if the image has no backing file.
    fn name_bytes(&self) -> &[u8]
        ensures { result.now ≡ name_bytes self.now.backing_name }
    {
        match &self.backing_filename {
            Some(name) => name.as_bytes(),
            None => &[],
        }
    }

    // Appends the extensions.
    fn push_extensions(&self, bytes: &mut Vec<u8>, alloc: Global) -> Result<(), AllocError>
        ensures { OnOk result (bytes.new.items ≡ bytes.old.items ++ extensions_bytes self.now) }
    {
        if self.v2.version == 3 {
            push_text(bytes, BACKING_FORMAT, self.backing_format.as_deref())?;
            push_text(
                bytes,
                EXTERNAL_DATA_FILE,
                self.external_data_filename.as_deref(),
            )?;
            push_names(bytes, alloc, &self.feature_names)?;
        }
        bytes.extend_from_slice(&[0; 8])
    }

    // Returns the extensions, preceded by zeroes for the fields.
    fn after_fields(&self, alloc: Global) -> Result<Vec<u8>, AllocError>
        ensures { IfOk result (λ bytes. bytes.items ≡ replicate (fields_length self.now.fields) 0 ++ extensions_bytes self.now) }
    {
        let mut bytes = vec![in alloc; 0u8; self.fields_length()]?;
        self.push_extensions(&mut bytes, alloc)?;
        Ok(bytes)
    }

    // Checks that a header of `count` bytes fits the first cluster, and that the backing file's name isn't too long.
    fn check_length(&self, count: usize) -> Result<(), Fault>
        requires { count ≡ length (header_bytes self.now) }
        ensures { result_err result ≡ (if fits_first_cluster self.now then None else Some (Fault.Limit count)) }
    {
        if count > self.cluster_size() || self.name_bytes().len() > MAX_BACKING_NAME as usize {
            return Err(Fault::Limit(count as u64));
        }
        Ok(())
    }

    // Returns the fields as they are written. The backing file's name, if any, starts at `name_at`.
    fn placed_fields(&self, name_at: usize) -> (V2Header, V3HeaderBase)
        requires at { name_at ≡ fields_length self.now.fields + length (extensions_bytes self.now) }
        requires short { length (name_bytes self.now.backing_name) ≤ 1023 }
        ensures fields { seen_fields result.0 result.1 ≡ written_fields self.now }
        ensures is_header { IsHeader result.0 result.1 }
    {
        let place = if self.backing_filename.is_some() {
            name_at as u64
        } else {
            0
        };
        let v2 = V2Header {
            backing_filename_offset: place,
            backing_filename_size: self.name_bytes().len() as u32,
            ..self.v2
        };
        let v3 = V3HeaderBase {
            header_length: self.fields_length() as u32,
            ..self.v3
        };
        (v2, v3)
    }

    // Returns the bytes of the header, and the fields in them. Fails with `Fault::Limit` if they don't fit.
    fn prepared(&self, alloc: Global) -> Result<(Vec<u8>, V2Header, V3HeaderBase), Fault>
        ensures bytes { IfOk result (λ made. made.0.items ≡ header_bytes self.now) }
        ensures fields { IfOk result (λ made. seen_fields made.1 made.2 ≡ written_fields self.now) }
        ensures is_header { IfOk result (λ made. IsHeader made.1 made.2) }
        ensures fits { OnOk result (IsTrue (fits_first_cluster self.now)) }
        ensures err { IfErr result (IsUnfit self.now) }
    {
        let mut bytes = self.after_fields(alloc)?;
        let name_at = bytes.len();
        bytes.extend_from_slice(self.name_bytes())?;
        self.check_length(bytes.len())?;
        let (v2, v3) = self.placed_fields(name_at);
        put_fields(&mut bytes, &v2, &v3);
        Ok((bytes, v2, v3))
    }

    /// Writes the header: its fields, its extensions and the backing file's name.
    ///
    /// The header is written by one `StorageExt::write` at byte 0 (the sections "Header" and "Header extensions" of the
    /// format). Version 3 has extensions for the backing file's format, the external data file's name and the names of
    /// feature bits. They are written in this order if present, and each name is cut to 46 bytes. Version 2 has no
    /// extensions.
    ///
    /// After success the header has the same name offset, name length and header length as the file. Fields that the file had
    /// after byte 103 are dropped.
    ///
    /// # Errors
    ///
    /// - `Fault::Limit(n)` if the header's `n` bytes don't fit the first cluster, or if the backing file's name has more than 1,023 bytes.
    ///   There is no I/O.
    /// - `Fault::Memory`, `Fault::Storage`.
    ///
    /// # On error
    ///
    /// The header in memory is unchanged. After `Fault::Memory` or `Fault::Storage` each byte of the header in the file is old or new.
    pub fn write<S: Storage>(&mut self, alloc: Global, image: &mut S) -> Result<(), Fault>
        ensures put { IsTrue (fits_first_cluster self.old) → WriteOutcome (S.state image.old) (S.state image.new) 0 (header_bytes self.old) result }
        // If the storage's unit allows it, the write is one request.
        ensures in_one_request { IsTrue (fits_first_cluster self.old)
            → FitsOneRequest (unit_of (S.state image.old).shape) 0 (length (header_bytes self.old))
            → AtomicWriteOutcome (S.state image.old) (S.state image.new) 0 (header_bytes self.old) result }
        ensures limit { IsFalse (fits_first_cluster self.old) → NotAsked self.old (S.state image.old) (S.state image.new) result }
        ensures ok { OnOk result (self.new ≡ written self.old) }
        ensures err { OnErr result (self.new ≡ self.old) }
    {
        let (bytes, v2, v3) = self.prepared(alloc)?;
        image.write(alloc, &bytes, 0)?;
        self.v2 = v2;
        self.v3 = v3;
        Ok(())
    }

    // Writes the fields up to and including the number of snapshots.
    fn write_first_fields<S: Storage>(&self, alloc: Global, image: &mut S) -> Result<(), Fault>
        ensures { AtomicWriteOutcome (S.state image.old) (S.state image.new) 0 (first_bytes self.now.fields) result }
    {
        let mut bytes = [0; OLDER_LENGTH];
        self.v2.to_bytes(&mut bytes);
        image.write(alloc, &bytes[..FIRST_FIELDS], 0)
    }

    /// Writes the size of the disk. The call writes bytes 0 to 63 of the header, in one request for every alignment of the storage.
    ///
    /// # Errors
    ///
    /// - `Fault::Memory`, `Fault::Storage`. Each of bytes 0 to 63 of the file is old or new.
    pub fn write_size<S: Storage>(&self, alloc: Global, image: &mut S) -> Result<(), Fault>
        ensures { AtomicWriteOutcome (S.state image.old) (S.state image.new) 0 (first_bytes self.now.fields) result }
    {
        self.write_first_fields(alloc, image)
    }

    /// Writes the offset and the number of entries of the L1 table. The call writes bytes 0 to 63 of the header, in one request for every
    /// alignment of the storage.
    ///
    /// # Errors
    ///
    /// - `Fault::Memory`, `Fault::Storage`. Each of bytes 0 to 63 of the file is old or new.
    pub fn write_l1_table_pointer<S: Storage>(
        &self,
        alloc: Global,
        image: &mut S,
    ) -> Result<(), Fault>
        ensures { AtomicWriteOutcome (S.state image.old) (S.state image.new) 0 (first_bytes self.now.fields) result }
    {
        self.write_first_fields(alloc, image)
    }

    /// Writes the offset and the number of clusters of the refcount table. The call writes bytes 0 to 63 of the header, in one request for
    /// every alignment of the storage.
    ///
    /// # Errors
    ///
    /// - `Fault::Memory`, `Fault::Storage`. Each of bytes 0 to 63 of the file is old or new.
    pub fn write_reftable_pointer<S: Storage>(
        &self,
        alloc: Global,
        image: &mut S,
    ) -> Result<(), Fault>
        ensures { AtomicWriteOutcome (S.state image.old) (S.state image.new) 0 (first_bytes self.now.fields) result }
    {
        self.write_first_fields(alloc, image)
    }
}
