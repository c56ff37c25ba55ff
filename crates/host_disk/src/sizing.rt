// The size of a disk in files of the host.
ghost use Rattle.std.specs.Prelude.{◌≡◌, map, IfOk};
ghost use Rattle.qimg_chain.specs.FileMeanings.{size_of};
ghost use Rattle.host_disk.specs.Layers.{AreOnlyRead, AreTruthful, held_by, shown_by};

use crate::fetching::fetch_all;
use crate::host_fault::HostFault;
use crate::layer::{HostLayer, storages};
use host_file::HostFile;
use imago_storage::Fault;
use paged_storage::Misses;
use qimg_chain::chain::open_chain;
use std::alloc::Global;

// Opens the files as a chain over storages, and returns the size of its disk.
fn size_over<H: HostFile>(
    alloc: Global,
    layers: &[HostLayer<H>],
    misses: &Misses,
    writable: bool,
) -> Result<u64, Fault>
    ensures { IfOk result (λ size. size ≡ size_of (map (shown_by H.HostFile) layers.now)) }
{
    let files = storages(alloc, layers, misses)?;
    let chain = open_chain(alloc, files, writable, 0)?;
    Ok(chain.size())
}

/// Opens the files as a chain, the top first, and returns the size of its disk in bytes.
///
/// # Errors
///
/// - `HostFault::Opening` if the files don't open as a chain, or if memory runs out.
/// - `HostFault::Host` if a file couldn't be read.
///
/// No file is changed.
pub fn size<H: HostFile>(
    alloc: Global,
    layers: &mut Vec<HostLayer<H>>,
    writable: bool,
) -> Result<u64, HostFault>
    ensures size { IfOk result (λ size. AreTruthful H.HostFile layers.new.items
        → size ≡ size_of (map (held_by H.HostFile) layers.old.items)) }
    ensures only_read { AreOnlyRead H.HostFile layers.old.items layers.new.items }
{
    for _ in 0..u64::MAX {
        let misses = Misses::new(alloc);
        let outcome = size_over(alloc, layers, &misses, writable);
        let pages = misses.into_pages();
        if pages.is_empty() {
            match outcome {
                Ok(size) => return Ok(size),
                Err(fault) => return Err(HostFault::Opening(fault)),
            }
        }
        fetch_all(alloc, layers, &pages)?;
    }
    Err(HostFault::Opening(Fault::Storage))
}
