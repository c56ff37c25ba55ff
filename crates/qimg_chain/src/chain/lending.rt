// Borrows the files of a chain in memory, without a copy of their bytes.
ghost use Rattle.std.specs.Prelude.{◌≡◌, ◌∷◌, map, IfOk, IsOkUnless};
ghost use Rattle.imago_storage.specs.MemStorage.{mem_state};
ghost use Rattle.imago_storage.specs.View.{view_state};
ghost use Rattle.qimg_chain.specs.FileMeanings.{driver_bytes, extra_bytes, file_bytes, files_bytes};

use crate::chain::naming::NamesFiles;
use imago_access::{FormatAccess, FormatDriverInstance};
use imago_storage::{Fault, MemStorage, MemoryView};
use qimg_core::plain::ChainFile;
use std::alloc::Global;

/// Borrows the current files of a chain, the top first.
///
/// Each has the format of the file, and the names and bytes of the open further files (VMDK extents). The bytes aren't copied. Dirty data
/// in memory isn't included. The only error is `Fault::Memory`.
pub(crate) fn lend<'a, D: FormatDriverInstance<Storage = MemStorage> + NamesFiles>(
    alloc: Global,
    chain: &'a FormatAccess<D>,
) -> Result<Vec<ChainFile<MemoryView<'a>>>, Fault>
    ensures ok { IfOk result (λ files. files_bytes view_state files.items ≡ map (driver_bytes D.DriverModel D.names) (chain.now.0 ∷ chain.now.1)) }
    ensures err { IsOkUnless result Fault.Memory }
{
    let mut files = Vec::new(alloc);
    let mut next = chain;
    loop {
        files.push(lend_layer(alloc, next.inner())?)?;
        match next.below() {
            Some(below) => next = below,
            None => return Ok(files),
        }
    }
}

// Borrows the files of a layer.
fn lend_layer<'a, D: FormatDriverInstance<Storage = MemStorage> + NamesFiles>(
    alloc: Global,
    driver: &'a D,
) -> Result<ChainFile<MemoryView<'a>>, Fault>
    ensures ok { IfOk result (λ file. file_bytes view_state file ≡ driver_bytes D.DriverModel D.names driver.now) }
    ensures err { IsOkUnless result Fault.Memory }
{
    let mut extras = Vec::new(alloc);
    for index in 0..driver.extra_count() {
        if let Some(file) = driver.extra_file(index) {
            extras.push(lend_named(alloc, driver.extra_name(index), file)?)?;
        }
    }
    Ok(ChainFile {
        format: driver.format(),
        image: MemoryView::new(driver.image_file().as_bytes()),
        extras,
    })
}

// Borrows a file, with its name.
fn lend_named<'a>(
    alloc: Global,
    name: &str,
    file: &'a MemStorage,
) -> Result<(String, MemoryView<'a>), Fault>
    ensures ok { IfOk result (λ extra. extra_bytes view_state extra ≡ (name.now, (mem_state file.now).bytes)) }
    ensures err { IsOkUnless result Fault.Memory }
{
    let name = name.to_string(alloc)?;
    Ok((name, MemoryView::new(file.as_bytes())))
}
