// Tables of a qcow2 file that are read ahead.
ghost use Rattle.std.specs.Prelude.{◌≡◌};
ghost use Rattle.host_file.specs.FileState.{IsOnlyRead};
ghost use Rattle.host_disk.specs.Layers.{AreOnlyRead, state_of};

use crate::fetching::fetch_all;
use crate::layer::HostLayer;
use host_file::HostFile;
use imago_access::Format;
use imago_storage::Storage;
use paged_storage::{Miss, Misses, PAGE, PagedStorage};
use std::alloc::Global;
use std::io;
use std::num::NonZeroUsize;

// The bits of a table entry that are the offset of a table or refcount block, in both kinds of tables.
const PLACE: u64 = 0x00ff_ffff_ffff_fe00;

// The number of bytes of a header that are looked at.
const HEADER: usize = 64;

// The offset and size of a table of a qcow2 file, in bytes. Each entry has 8 bytes.
#[derive(Clone, Copy)]
struct Table {
    offset: u64,
    size: u64,
}

// Returns the big-endian number of `n` bytes at an offset.
fn number_at(bytes: &[u8], at: usize, n: usize) -> u64 {
    let mut number: u64 = 0;
    for byte in bytes.iter().skip(at).take(n) {
        number = number.wrapping_mul(256).wrapping_add(u64::from(*byte));
    }
    number
}

// Returns the number of bytes of a cluster, the L1 table and the refcount table, as a header says.
fn tables_of(header: &[u8]) -> (u64, Table, Table) {
    let cluster = 1u64 << number_at(header, 20, 4).min(21);
    let l1 = Table {
        offset: number_at(header, 40, 8),
        size: number_at(header, 36, 4).saturating_mul(8),
    };
    let refcounts = Table {
        offset: number_at(header, 48, 8),
        size: number_at(header, 56, 4).saturating_mul(cluster),
    };
    (cluster, l1, refcounts)
}

// Fills the buffer with bytes of a layer's file, if their pages are in memory.
fn read_over<H: HostFile>(
    alloc: Global,
    layers: &[HostLayer<H>],
    misses: &Misses,
    number: usize,
    offset: u64,
    buf: &mut [u8],
) -> bool {
    if number >= layers.len() || offset > u64::MAX - buf.len() as u64 {
        return false;
    }
    let mut storage = PagedStorage::new(alloc, &layers[number].file, misses, number);
    storage.pure_read(buf, offset).is_ok()
}

// Fills the buffer with bytes of a layer's file.
fn read_range<H: HostFile>(
    alloc: Global,
    layers: &mut Vec<HostLayer<H>>,
    number: usize,
    offset: u64,
    buf: &mut [u8],
) -> io::Result<()>
    ensures { AreOnlyRead H.HostFile layers.old.items layers.new.items }
{
    for _ in 0..u64::MAX {
        let misses = Misses::new(alloc);
        if read_over(alloc, layers, &misses, number, offset, buf) {
            return Ok(());
        }
        let pages = misses.into_pages();
        if pages.is_empty() {
            return Err(io::ErrorKind::InvalidInput.into());
        }
        fetch_all(alloc, layers, &pages)?;
    }
    Err(io::ErrorKind::InvalidInput.into())
}

// Returns the pages of what the entries of a table refer to.
fn pages_of(
    alloc: Global,
    entries: &[u8],
    cluster: u64,
    file: usize,
    most: usize,
) -> io::Result<Vec<Miss>> {
    let mut pages = Vec::new(alloc);
    for entry in entries.chunks(8) {
        let place = number_at(entry, 0, 8) & PLACE;
        if place != 0 {
            for page in place / PAGE..place.saturating_add(cluster.saturating_sub(1)) / PAGE + 1 {
                if pages.len() < most {
                    pages.push(Miss { file, page })?;
                }
            }
        }
    }
    Ok(pages)
}

// Reads what a table of a layer's file refers to.
fn warm_table<H: HostFile>(
    alloc: Global,
    layers: &mut Vec<HostLayer<H>>,
    number: usize,
    table: Table,
    cluster: u64,
    most: usize,
) -> io::Result<()>
    ensures { AreOnlyRead H.HostFile layers.old.items layers.new.items }
{
    let size = table.size.min((most as u64).saturating_mul(PAGE)) as usize;
    let mut entries = vec![in alloc; 0u8; size]?;
    read_range(alloc, layers, number, table.offset, &mut entries)?;
    let pages = pages_of(alloc, &entries, cluster, number, most)?;
    fetch_all(alloc, layers, &pages)
}

/// Reads the tables and refcount blocks of each qcow2 file ahead, up to `most` pages for each of its two tables. Then calls need fewer
/// rounds.
///
/// # Errors
///
/// The error of the host, or that memory ran out. A table past 64 bits is an error of the kind `InvalidInput`.
///
/// No file is changed.
pub fn warm<H: HostFile>(
    alloc: Global,
    layers: &mut Vec<HostLayer<H>>,
    most: usize,
) -> io::Result<()>
    ensures { AreOnlyRead H.HostFile layers.old.items layers.new.items }
{
    for number in 0..layers.len() {
        warm_layer(alloc, layers, number, most)?;
    }
    Ok(())
}

// Reads the tables and refcount blocks of a layer's file, if it is a qcow2 file.
fn warm_layer<H: HostFile>(
    alloc: Global,
    layers: &mut Vec<HostLayer<H>>,
    number: usize,
    most: usize,
) -> io::Result<()>
    ensures { AreOnlyRead H.HostFile layers.old.items layers.new.items }
{
    if number >= layers.len() || layers[number].format != Format::Qcow2 {
        return Ok(());
    }
    let mut header = [0u8; HEADER];
    read_range(alloc, layers, number, 0, &mut header)?;
    let (cluster, l1, refcounts) = tables_of(&header);
    warm_table(alloc, layers, number, l1, cluster, most)?;
    warm_table(alloc, layers, number, refcounts, cluster, most)
}

/// Keeps at most `most` pages of each file in memory, those that were read last.
pub fn trim<H: HostFile>(layers: &mut Vec<HostLayer<H>>, most: NonZeroUsize)
    ensures { AreOnlyRead H.HostFile layers.old.items layers.new.items }
{
    for number in 0..layers.len() {
        trim_layer(&mut layers[number], most);
    }
}

// Keeps at most `most` pages of a layer's file in memory.
fn trim_layer<H: HostFile>(layer: &mut HostLayer<H>, most: NonZeroUsize)
    ensures format { layer.new.format ≡ layer.old.format }
    ensures only_read { IsOnlyRead (state_of H.HostFile layer.old) (state_of H.HostFile layer.new) }
{
    layer.file.trim(most);
}
