// Pages that are read from the files of a chain.
ghost use Rattle.std.specs.Prelude.{◌≡◌, map};
ghost use Rattle.host_file.specs.FileState.{IsOnlyRead};
ghost use Rattle.host_disk.specs.Layers.{AreOnlyRead, AreTruthful, shown_by, state_of};

use crate::layer::HostLayer;
use host_file::HostFile;
use paged_storage::Miss;
use std::alloc::Global;
use std::io;

// Reads a page of the file of a layer.
fn fetch_layer<H: HostFile>(alloc: Global, layer: &mut HostLayer<H>, page: u64) -> io::Result<()>
    ensures format { layer.new.format ≡ layer.old.format }
    ensures only_read { IsOnlyRead (state_of H.HostFile layer.old) (state_of H.HostFile layer.new) }
{
    layer.file.fetch(alloc, page)?;
    Ok(())
}

// Reads a page of one of the files.
fn fetch_one<H: HostFile>(
    alloc: Global,
    layers: &mut Vec<HostLayer<H>>,
    miss: Miss,
) -> io::Result<()>
    ensures only_read { AreOnlyRead H.HostFile layers.old.items layers.new.items }
    ensures shown { AreTruthful H.HostFile layers.new.items
        → map (shown_by H.HostFile) layers.new.items ≡ map (shown_by H.HostFile) layers.old.items }
{
    if miss.file < layers.len() {
        fetch_layer(alloc, &mut layers[miss.file], miss.page)?;
    }
    Ok(())
}

/// Reads pages of the files.
///
/// # Errors
///
/// The error of the host, or that memory ran out. The pages before are then in memory.
pub(crate) fn fetch_all<H: HostFile>(
    alloc: Global,
    layers: &mut Vec<HostLayer<H>>,
    misses: &[Miss],
) -> io::Result<()>
    ensures only_read { AreOnlyRead H.HostFile layers.old.items layers.new.items }
    ensures shown { AreTruthful H.HostFile layers.new.items
        → map (shown_by H.HostFile) layers.new.items ≡ map (shown_by H.HostFile) layers.old.items }
{
    for miss in misses {
        fetch_one(alloc, layers, *miss)?;
    }
    Ok(())
}
