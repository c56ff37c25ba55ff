// The check of a top file.
ghost use Rattle.std.specs.Prelude.{◌≡◌, map, OnOk};
ghost use Rattle.host_disk.specs.Layers.{AreOnlyRead, AreTruthful, held_by, shown_by};
ghost use Rattle.host_disk.specs.Checks.{IsTopSound};

use crate::fetching::fetch_all;
use crate::host_fault::HostFault;
use crate::layer::HostLayer;
use host_file::HostFile;
use imago_access::Format;
use paged_storage::{Misses, PagedStorage};
use qimg_core::check::{self, CheckFault};
use std::alloc::Global;

// Checks the top file over a storage, if it is a qcow2 file. Returns the number of clusters that leak.
fn check_over<H: HostFile>(
    alloc: Global,
    layers: &[HostLayer<H>],
    misses: &Misses,
) -> Result<usize, CheckFault>
    ensures { OnOk result (IsTopSound (map (shown_by H.HostFile) layers.now)) }
{
    let [top, ..] = layers else { return Ok(0) };
    if let Format::Qcow2 = top.format {
        let mut storage = PagedStorage::new(alloc, &top.file, misses, 0);
        let leaks = check::check(alloc, &mut storage)?;
        return Ok(leaks.len());
    }
    Ok(0)
}

/// Checks the file of the first layer, if it is a qcow2 file: it is consistent, or the call fails with the first finding. Returns the number
/// of clusters that leak. A file of another format is always accepted.
///
/// # Errors
///
/// - `HostFault::Finding` with a finding of `qimg_core::check`, or `CheckFault::Memory` if memory runs out.
/// - `HostFault::Host` if the file couldn't be read.
///
/// No file is changed.
pub fn check<H: HostFile>(alloc: Global, layers: &mut Vec<HostLayer<H>>) -> Result<usize, HostFault>
    ensures sound { OnOk result (AreTruthful H.HostFile layers.new.items → IsTopSound (map (held_by H.HostFile) layers.old.items)) }
    ensures only_read { AreOnlyRead H.HostFile layers.old.items layers.new.items }
{
    for _ in 0..u64::MAX {
        let misses = Misses::new(alloc);
        let outcome = check_over(alloc, layers, &misses);
        let pages = misses.into_pages();
        if pages.is_empty() {
            return match outcome {
                Ok(leaks) => Ok(leaks),
                Err(fault) => Err(HostFault::Finding(fault)),
            };
        }
        fetch_all(alloc, layers, &pages)?;
    }
    Err(HostFault::Finding(CheckFault::Storage))
}
