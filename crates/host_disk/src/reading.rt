// Reads of a disk in files of the host.
ghost use Rattle.std.specs.Prelude.{◌≡◌, map, OnOk};
ghost use Rattle.imago_storage.specs.Disk.{Shows};
ghost use Rattle.qimg_chain.specs.FileMeanings.{value_of};
ghost use Rattle.host_disk.specs.Layers.{AreOnlyRead, AreTruthful, held_by, shown_by};

use crate::fetching::fetch_all;
use crate::host_fault::HostFault;
use crate::layer::{HostLayer, storages};
use host_file::HostFile;
use imago_storage::Fault;
use paged_storage::Misses;
use qimg_chain::chain::plain_read;
use std::alloc::Global;

// Reads a range of the disk over storages.
fn read_over<H: HostFile>(
    alloc: Global,
    layers: &[HostLayer<H>],
    misses: &Misses,
    offset: u64,
    buf: &mut [u8],
) -> Result<(), Fault>
    ensures { OnOk result (Shows (value_of (map (shown_by H.HostFile) layers.now)) offset buf.new) }
{
    let files = storages(alloc, layers, misses)?;
    plain_read(alloc, files, offset, buf)?;
    Ok(())
}

/// Fills the buffer with the bytes from `offset` on of the disk that the files mean as a chain, the top first. Bytes past the size of the
/// disk are 0.
///
/// # Errors
///
/// - `HostFault::Opening` with the error of `qimg_chain::chain::plain_read`.
/// - `HostFault::Host` if a file couldn't be read.
///
/// No file is changed. The contents of the buffer are unspecified.
pub fn read<H: HostFile>(
    alloc: Global,
    layers: &mut Vec<HostLayer<H>>,
    offset: u64,
    buf: &mut [u8],
) -> Result<(), HostFault>
    ensures read { OnOk result (AreTruthful H.HostFile layers.new.items
        → Shows (value_of (map (held_by H.HostFile) layers.old.items)) offset buf.new) }
    ensures only_read { AreOnlyRead H.HostFile layers.old.items layers.new.items }
{
    for _ in 0..u64::MAX {
        let misses = Misses::new(alloc);
        let outcome = read_over(alloc, layers, &misses, offset, buf);
        let pages = misses.into_pages();
        if pages.is_empty() {
            match outcome {
                Ok(()) => return Ok(()),
                Err(fault) => return Err(HostFault::Opening(fault)),
            }
        }
        fetch_all(alloc, layers, &pages)?;
    }
    Err(HostFault::Opening(Fault::Storage))
}
