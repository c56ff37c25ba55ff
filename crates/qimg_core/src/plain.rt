//! The plain reader. It reads a range of the disk from the bytes of an image file, without a driver. It loads the tables at each call, and
//! keeps nothing in memory between calls.
ghost use Rattle.std.specs.Prelude.{◌≡◌, ◌<◌, length, Ok, false, IsTrue, IsFalse, OnOk, IfOk, IfErr, IsErrOf};
ghost use Rattle.std.specs.Result.{result_err};
ghost use Rattle.imago_storage.specs.Calls.{UnchangedButFaults};
ghost use Rattle.qcow2_types.specs.Header.{header_of, has_external_data};
ghost use Rattle.qcow2_types.specs.Entries.{l1_table_sound};
ghost use Rattle.qcow2_metadata.specs.Loading.{file};
ghost use Rattle.qimg_core.specs.Plain.{value_at, NamesTables, alone_fault, NoL1, NotShown, below_size, ShowsRange, IsImageRead, NotImageRead, IsPlainRead, NotPlainRead, Refuses, MustRefuse, FilesKept, seen_files, extras_of, faults_of};

mod pieces;

use crate::buffers::blank;
use crate::file_end::entries_before;
use imago_access::Format;
use imago_storage::{Fault, Storage};
use pieces::read_tables;
use qcow2_metadata::{Header, L1Table, Table};
use std::alloc::Global;

/// A file of a chain (an image and its backing chain).
#[derive(Drop)]
pub struct ChainFile<S> {
    /// The format of the file.
    pub format: Format,
    /// The storage of the file.
    pub image: S,
    /// The other files that have data of the image (VMDK extents), each with the name by which the image asks for it.
    pub extras: Vec<(String, S)>,
}

/// Checks that an image has neither an external data file nor a backing file.
fn check_alone(header: &Header) -> Result<(), Fault>
    ensures { alone_fault header.now ≡ result_err result }
{
    if header.external_data_file() {
        return Err(Fault::Unsupported);
    }
    if header.backing_filename().is_some() {
        return Err(Fault::MissingBelow);
    }
    Ok(())
}

/// Loads the L1 entries that begin before the end of the file. The header has been loaded.
fn load_l1<S: Storage>(image: &mut S, alloc: Global, header: &Header) -> Result<L1Table, Fault>
    requires { header_of false (file (S.state image.old)) ≡ Ok header.now }
    ensures raw_entries { IfOk result (λ table. NamesTables (file (S.state image.old)) header.now.fields table.raw_entries) }
    ensures sound { OnOk result (IsTrue (l1_table_sound (file (S.state image.old)) header.now.fields)) }
    ensures err { IfErr result (NoL1 (S.state image.old) (S.state image.new) header.now.fields) }
    ensures unchanged_but_faults { UnchangedButFaults (S.state image.old) (S.state image.new) }
    ensures faults { OnOk result ((S.state image.new).faults ≡ (S.state image.old).faults) }
{
    let offset = header.l1_table_offset();
    let count = entries_before(image.size(), offset.0, header.l1_table_entries());
    let cluster = offset.cluster(header.cluster_bits());
    L1Table::load(alloc, image, header, cluster, count)
}

/// Reads a range of an image whose header and L1 table are loaded. The end of the range fits 64 bits.
fn read_disk<S: Storage>(
    image: &mut S,
    alloc: Global,
    header: &Header,
    l1: &L1Table,
    offset: u64,
    buf: &mut [u8],
) -> Result<(), Fault>
    requires loads { header_of false (file (S.state image.old)) ≡ Ok header.now }
    requires raw_entries { NamesTables (file (S.state image.old)) header.now.fields l1.now.raw_entries }
    requires sound { IsTrue (l1_table_sound (file (S.state image.old)) header.now.fields) }
    requires inside { IsFalse (has_external_data header.now.fields) }
    ensures ok { OnOk result (ShowsRange (file (S.state image.old)) header.now.fields.size offset buf.new) }
    ensures err { IfErr result (NotShown (value_at (file (S.state image.old))) (S.state image.old) (S.state image.new) offset
        (below_size header.now.fields.size offset (length buf.old))) }
    ensures unchanged_but_faults { UnchangedButFaults (S.state image.old) (S.state image.new) }
    ensures faults { OnOk result ((S.state image.new).faults ≡ (S.state image.old).faults) }
{
    let inside = header.size().saturating_sub(offset).min(buf.len() as u64) as usize;
    blank(buf);
    if inside == 0 {
        return Ok(());
    }
    read_tables(image, alloc, header, l1, &mut buf[..inside], offset)
}

/// Reads a range of a qcow2 image without an external data file and without a backing file.
fn read_image<S: Storage>(
    image: &mut S,
    alloc: Global,
    offset: u64,
    buf: &mut [u8],
) -> Result<(), Fault>
    ensures ok { OnOk result (IsImageRead (file (S.state image.old)) offset buf.new) }
    ensures err { IfErr result (NotImageRead (S.state image.old) (S.state image.new) offset (length buf.old)) }
    ensures unchanged_but_faults { UnchangedButFaults (S.state image.old) (S.state image.new) }
    ensures faults { OnOk result ((S.state image.new).faults ≡ (S.state image.old).faults) }
{
    let header = Header::load(alloc, image, false)?;
    let l1 = load_l1(image, alloc, &header)?;
    check_alone(&header)?;
    if offset.checked_add(buf.len() as u64).is_none() {
        return Err(Fault::RangeOverflow);
    }
    read_disk(image, alloc, &header, &l1, offset, buf)
}

/// Reads `buf.len()` bytes of a chain of files at `offset` (in bytes). Bytes past the size of the disk are 0.
///
/// The top file comes first. Currently the only readable chain is one qcow2 file without an external data file and without a backing file.
/// The bytes of the file are read as they are now, by the sections "Header" and "Cluster mapping" of the format. L1 entries past the end of
/// the file are 0, and aren't read.
///
/// # Errors
///
/// The call fails with the first of these that applies:
///
/// - `Fault::MissingBelow` if `files` is empty.
/// - `Fault::Unsupported` if `files` has more than one file, or its file isn't qcow2.
/// - The error of `qcow2_metadata::Header::load` for reading.
/// - `Fault::DamagedTable` if the L1 table has an invalid entry.
/// - `Fault::Unsupported` if the image has an external data file.
/// - `Fault::MissingBelow` if the image has a backing file.
/// - `Fault::RangeOverflow` if the end of the range doesn't fit `u64`.
/// - The error of the first byte, in the range and below the size of the disk, that can't be read: `Fault::DamagedTable` if its L2 table is
///   damaged, `Fault::Barred` if it is compressed.
///
/// After the first two checks, `Fault::Memory` and `Fault::Storage` can occur at any point.
///
/// # On error
///
/// The contents of the buffer are unspecified. The files don't change.
pub fn plain_read<S: Storage>(
    alloc: Global,
    files: &mut [ChainFile<S>],
    offset: u64,
    buf: &mut [u8],
) -> Result<(), Fault>
    ensures ok { OnOk result (IsPlainRead (seen_files S.state files.old) offset buf.new) }
    ensures err { IfErr result (NotPlainRead (seen_files S.state files.old) (seen_files S.state files.new) offset (length buf.old)) }
    ensures must { (fault : Fault) → Refuses (seen_files S.state files.old) offset (length buf.old) fault → MustRefuse result fault }
    ensures none { length files.old ≡ 0 → IsErrOf result Fault.MissingBelow }
    ensures several { 1 < length files.old → IsErrOf result Fault.Unsupported }
    ensures unchanged_but_faults { FilesKept (seen_files S.state files.old) (seen_files S.state files.new) }
    ensures extras { extras_of files.new ≡ extras_of files.old }
    ensures faults { OnOk result (faults_of (seen_files S.state files.new) ≡ faults_of (seen_files S.state files.old)) }
{
    if files.is_empty() {
        return Err(Fault::MissingBelow);
    }
    if files.len() > 1 {
        return Err(Fault::Unsupported);
    }
    let top = &mut files[0];
    match top.format {
        Format::Qcow2 => read_image(&mut top.image, alloc, offset, buf),
        Format::Raw | Format::Vmdk => Err(Fault::Unsupported),
    }
}
