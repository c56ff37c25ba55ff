// The files of a chain, and storages over them.
ghost use Rattle.std.specs.Prelude.{◌≡◌, IfOk, IfErr};
ghost use Rattle.host_disk.specs.Layers.{AreStoragesOf};

use host_file::HostFile;
use imago_access::Format;
use imago_storage::Fault;
use paged_storage::{Misses, PagedFile, PagedStorage};
use qimg_core::plain::ChainFile;
use std::alloc::Global;

/// An image of a chain: a file of the host, and its format.
#[derive(Drop)]
pub struct HostLayer<H: HostFile> {
    pub format: Format,
    pub file: PagedFile<H>,
}

/// Returns a storage over the file of each layer. `misses` gets the pages that are missing, with the number of the layer, the top first.
pub(crate) fn storages<'a, H: HostFile>(
    alloc: Global,
    layers: &'a [HostLayer<H>],
    misses: &'a Misses,
) -> Result<Vec<ChainFile<PagedStorage<'a, H>>>, Fault>
    ensures ok { IfOk result (λ files. AreStoragesOf H.HostFile layers.now files.items) }
    ensures err { IfErr result (λ fault. fault ≡ Fault.Memory) }
{
    let mut files = Vec::new(alloc);
    for number in 0..layers.len() {
        let layer = &layers[number];
        files.push(ChainFile {
            format: layer.format,
            image: PagedStorage::new(alloc, &layer.file, misses, number),
            extras: Vec::new(alloc),
        })?;
    }
    Ok(files)
}
