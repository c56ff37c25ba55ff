// Loads a header from a file, and checks it against the rules of the format.
ghost use Rattle.std.specs.Prelude.{◌≡◌, ◌≤◌, length, Ok, IfOk, IfErr, OnOk};
ghost use Rattle.std.specs.Result.{result_err};
ghost use Rattle.std.specs.Option.{option_copied};
ghost use Rattle.imago_storage.specs.Calls.{CountsFaults, UnchangedButFaults, Reads};
ghost use Rattle.qcow2_types.specs.Bytes.{bytes_of};
ghost use Rattle.qcow2_types.specs.Header.{fields_of, header_of, texts_of, text_read, backing_name_read, extensions_read, first_fault, rules_of_writing, cluster_size, extensions_end as end_of_extensions};
ghost use Rattle.qcow2_metadata.specs.Loading.{file, fields_fault, RefusedBy, NotLoaded};
ghost use Rattle.qcow2_metadata.specs.Extensions.{known_of, seen_known};
ghost use Rattle.qcow2_metadata.specs.HeaderView.{seen_text};

use super::{FIRST_FIELDS, Header, MAX_BACKING_NAME};
use crate::extensions::{KnownExtensions, known_extensions};
use crate::features::names_in;
use crate::reading::read_at;
use crate::rules::{check_kind, check_shape, check_sizes, fields_at_start};
use imago_storage::{Fault, Storage};
use std::alloc::Global;

/// Returns the text of the given bytes, if any. Bytes that aren't UTF-8 are `Fault::DamagedHeader`.
fn text(alloc: Global, bytes: Option<&[u8]>) -> Result<Option<String>, Fault>
    ensures ok { IfOk result (λ found. text_read (option_copied bytes.entry) ≡ Ok (seen_text found)) }
    ensures err { IfErr result (RefusedBy (text_read (option_copied bytes.entry))) }
{
    let Some(bytes) = bytes else {
        return Ok(None);
    };
    let Ok(text) = str::from_utf8(bytes) else {
        return Err(Fault::DamagedHeader);
    };
    Ok(Some(String::from_str(alloc, text)?))
}

impl Header {
    /// Loads the header of an image, for reading or, if `writable`, for writing.
    ///
    /// The call reads the first 104 bytes of the file, and then its first cluster, of at most 2 MiB. If the file has several
    /// extensions of one type, the last one is used; so is the last name of a feature bit. A header of version 2 has no
    /// extensions.
    ///
    /// # Errors
    ///
    /// The call fails for the first of these rules of the format's section "Header" that the file breaks:
    ///
    /// - `Fault::DamagedHeader` if the magic number is wrong.
    /// - `Fault::Unsupported` if the version is neither 2 nor 3.
    /// - `Fault::DamagedHeader` if the cluster bits are outside 9 to 21, the refcount order is above 6, or the header length
    ///   is below 104 or above the cluster size.
    /// - `Fault::Unsupported` if the image is encrypted, or has an incompatible feature other than the first four.
    /// - `Fault::Limit(n)` if `n` is a size above 2^63 - 1, more than 2^22 L1 entries, or more than 2^20 refcount table
    ///   entries.
    /// - `Fault::DamagedHeader` if the offset of one of these tables isn't a multiple of the cluster size, or is above
    ///   0x00ff_ffff_ffff_fe00.
    /// - `Fault::DamagedHeader` if the backing file's name has more than 1,023 bytes, ends past the first cluster, or isn't
    ///   UTF-8.
    /// - `Fault::DamagedHeader` if an extension ends past the area of the extensions, or the backing format or the external data file's
    ///   name isn't UTF-8.
    /// - `Fault::Unsupported`, only for writing, if the image is dirty or corrupt, has a set autoclear bit, or if the backing file's name
    ///   starts in bytes 0 to 63.
    ///
    /// If memory runs out or the storage fails, the call fails with:
    ///
    /// - `Fault::Memory`, `Fault::Storage`.
    ///
    /// # On error
    ///
    /// The file is unchanged.
    pub fn load<S: Storage>(alloc: Global, image: &mut S, writable: bool) -> Result<Self, Fault>
        ensures ok { IfOk result (λ header. header_of writable (file (S.state image.old)) ≡ Ok header) }
        ensures err { IfErr result (NotLoaded (header_of writable (file (S.state image.old))) (S.state image.old) (S.state image.new)) }
        ensures faults { OnOk result ((S.state image.new).faults ≡ (S.state image.old).faults) }
        ensures unchanged_but_faults { UnchangedButFaults (S.state image.old) (S.state image.new) }
    {
        let mut start = [0u8; 104];
        read_at(alloc, image, &mut start, 0)?;
        let header = Header::with_fields(alloc, &start)?;
        let cluster = header.read_first_cluster(alloc, image)?;
        let header = header.with_texts(alloc, &cluster)?;
        header.check_writing(writable)?;
        Ok(header)
    }

    // Reads the bytes of the first cluster. Fails with `Fault::Memory` and `Fault::Storage`.
    fn read_first_cluster<S: Storage>(&self, alloc: Global, image: &mut S) -> Result<Vec<u8>, Fault>
        ensures read { IfOk result (λ cluster. Reads (S.state image.old).bytes 0 cluster.items) }
        ensures size { IfOk result (λ cluster. length cluster.items ≡ cluster_size self.now.fields) }
        ensures unchanged_but_faults { UnchangedButFaults (S.state image.old) (S.state image.new) }
        ensures faults { CountsFaults (S.state image.old).faults (S.state image.new).faults result }
    {
        let mut cluster = vec![in alloc; 0u8; self.cluster_size()]?;
        read_at(alloc, image, &mut cluster, 0)?;
        Ok(cluster)
    }

    // Returns the header in the first bytes of a file, without its texts. Fails for the first rule on fields that is broken.
    fn with_fields(alloc: Global, start: &[u8]) -> Result<Self, Fault>
        requires { length start.now ≡ 104 }
        ensures fields { IfOk result (λ header. header.fields ≡ fields_of (bytes_of start.now)) }
        ensures fault { result_err result ≡ fields_fault (bytes_of start.now) }
    {
        let (v2, v3) = fields_at_start(start);
        check_kind(start, &v2)?;
        check_shape(&v2, &v3)?;
        check_sizes(&v2, &v3)?;
        Ok(Header {
            v2,
            v3,
            backing_filename: None,
            backing_format: None,
            external_data_filename: None,
            feature_names: Vec::new(alloc),
        })
    }

    // Returns the backing file's name, if any. The name must be inside the first cluster, and has at most 1,023 bytes.
    fn read_backing_filename(&self, alloc: Global, cluster: &[u8]) -> Result<Option<String>, Fault>
        requires { length cluster.now ≡ cluster_size self.now.fields }
        ensures ok { IfOk result (λ name. backing_name_read (bytes_of cluster.now) self.now.fields ≡ Ok (seen_text name)) }
        ensures err { IfErr result (RefusedBy (backing_name_read (bytes_of cluster.now) self.now.fields)) }
    {
        let offset = self.v2.backing_filename_offset;
        let size = self.v2.backing_filename_size;
        if offset == 0 || size == 0 {
            return Ok(None);
        }
        let end = offset.saturating_add(u64::from(size));
        if size > MAX_BACKING_NAME || end > cluster.len() as u64 {
            return Err(Fault::DamagedHeader);
        }
        text(alloc, Some(&cluster[offset as usize..end as usize]))
    }

    // Returns the end of the extension area: the start of the backing file's name, if that is after the header's fields, and
    // otherwise the end of the cluster.
    fn extensions_end(&self) -> u64
        ensures { result ≡ end_of_extensions self.now.fields }
    {
        let offset = self.v2.backing_filename_offset;
        let named = offset != 0 && self.v2.backing_filename_size != 0;
        if named && u64::from(self.v3.header_length) <= offset {
            offset
        } else {
            self.cluster_size() as u64
        }
    }

    // Returns the known extensions in the first cluster. Only version 3 has extensions.
    fn extensions_in<'a>(&self, cluster: &'a [u8]) -> Result<KnownExtensions<'a>, Fault>
        requires size { length cluster.now ≡ cluster_size self.now.fields }
        requires inside { end_of_extensions self.now.fields ≤ cluster_size self.now.fields }
        ensures ok { IfOk result (λ known. known_of (extensions_read (bytes_of cluster.now) self.now.fields) ≡ Ok (seen_known known)) }
        ensures err { IfErr result (λ e. extensions_read (bytes_of cluster.now) self.now.fields ≡ Err e) }
    {
        if self.v2.version != 3 {
            return Ok(KnownExtensions::none());
        }
        let start = self.v3.header_length as usize;
        known_extensions(cluster, start, self.extensions_end() as usize)
    }

    // Returns the header with the texts of its first cluster.
    fn with_texts(self, alloc: Global, cluster: &[u8]) -> Result<Self, Fault>
        requires { length cluster.now ≡ cluster_size self.fields }
        ensures ok { IfOk result (λ header. texts_of (bytes_of cluster.now) self.fields ≡ Ok header) }
        ensures err { IfErr result (RefusedBy (texts_of (bytes_of cluster.now) self.fields)) }
    {
        let backing_filename = self.read_backing_filename(alloc, cluster)?;
        let known = self.extensions_in(cluster)?;
        let backing_format = text(alloc, known.backing_format)?;
        let external_data_filename = text(alloc, known.external_data_filename)?;
        let feature_names = names_in(alloc, known.feature_names)?;
        Ok(Header {
            v2: self.v2,
            v3: self.v3,
            backing_filename,
            backing_format,
            external_data_filename,
            feature_names,
        })
    }

    // Checks the rules for writing. The image must not be dirty or corrupt, or have an autoclear bit. The backing file's
    // name must not start in the first 64 bytes, which each change of the size or of a table's offset overwrites.
    fn check_writing(&self, writable: bool) -> Result<(), Fault>
        ensures { result_err result ≡ first_fault (rules_of_writing writable self.now.fields) }
    {
        let dirty = self.v3.incompatible_features & 1 == 1;
        let corrupt = self.v3.incompatible_features >> 1 & 1 == 1;
        if writable && (dirty || corrupt || self.v3.autoclear_features != 0) {
            return Err(Fault::Unsupported);
        }
        let named = self.v2.backing_filename_offset != 0 && self.v2.backing_filename_size != 0;
        if writable && named && self.v2.backing_filename_offset < FIRST_FIELDS as u64 {
            return Err(Fault::Unsupported);
        }
        Ok(())
    }
}
