// Copies the current files of a chain (an image and its backing chain).
ghost use Rattle.std.specs.Prelude.{◌≡◌, ◌∷◌, map, OnOk, IfOk, IfErr, IsOkUnless};
ghost use Rattle.imago_access.specs.FileReads.{file_bytes_in, files_at, FilesRead};
ghost use Rattle.imago_access.specs.Files.{Pairs, HadNoResourceError, files_of};
ghost use Rattle.imago_access.specs.Going.{LookupCall};
ghost use Rattle.imago_access.specs.Layers.{chain as drivers};
ghost use Rattle.imago_storage.specs.MemStorage.{mem_state};
ghost use Rattle.qimg_chain.specs.FileMeanings.{driver_bytes, file_bytes, files_bytes};
ghost use Rattle.qimg_chain.specs.Snapshots.{filled, names_of, said_names, WhyNotCopied};

use crate::chain::naming::NamesFiles;
use imago_access::{Format, FormatAccess, ReadFiles};
use imago_storage::{Fault, MemStorage};
use qimg_core::plain::ChainFile;
use std::alloc::Global;

// The format of a layer, and the names of its further files.
#[derive(Drop)]
struct LayerNames {
    format: Format,
    names: Vec<String>,
}

/// Copies the current bytes of all files of a chain, the top file first.
///
/// Each copy has the format of the file, and the names and bytes of the open further files (VMDK extents). Dirty data in memory isn't
/// included: flush first if you need it. The chain may have failed; it reads the same as before.
///
/// # Errors
///
/// - `Fault::Memory` if memory ran out. No storage of the chain failed then.
/// - `Fault::Storage` if a storage of the chain failed.
///
/// # On error
///
/// Nothing changes, except the fault counts of the storages. No image is set to failed.
pub fn snapshot<D: NamesFiles + ReadFiles>(
    alloc: Global,
    chain: &mut FormatAccess<D>,
) -> Result<Vec<ChainFile<MemStorage>>, Fault>
    // The result.
    ensures ok { IfOk result (λ files. files_bytes mem_state files.items ≡ map (driver_bytes D.DriverModel D.names) (drivers chain.old)) }

    // The chain afterwards.
    ensures read { Pairs (FilesRead D.DriverModel (HadNoResourceError result)) (drivers chain.old) (drivers chain.new) }
    ensures lookup_call { Pairs (LookupCall D.DriverModel (HadNoResourceError result)) (drivers chain.old) (drivers chain.new) }

    // The causes of errors.
    ensures cause { IfErr result (WhyNotCopied (files_of D.DriverModel (drivers chain.old)) (files_of D.DriverModel (drivers chain.new))) }
{
    let layers = layer_names(alloc, chain)?;
    let mut files = Vec::new(alloc);
    for layer in 0..layers.len() {
        let file = copy_layer(alloc, chain, layer, &layers[layer])?;
        files.push(file)?;
    }
    Ok(files)
}

// Returns the names of the further files of each layer, the top first.
fn layer_names<D: NamesFiles>(
    alloc: Global,
    chain: &FormatAccess<D>,
) -> Result<Vec<LayerNames>, Fault>
    ensures ok { IfOk result (λ layers. map said_names layers.items ≡ map (names_of D.DriverModel D.names) (drivers chain.now)) }
    ensures err { IsOkUnless result Fault.Memory }
{
    let mut layers = Vec::new(alloc);
    let mut next = chain;
    loop {
        layers.push(names_in(alloc, next.inner())?)?;
        match next.below() {
            Some(below) => next = below,
            None => return Ok(layers),
        }
    }
}

// Returns the names of a layer's further files.
fn names_in<D: NamesFiles>(alloc: Global, driver: &D) -> Result<LayerNames, Fault>
    ensures ok { IfOk result (λ layer. said_names layer ≡ names_of D.DriverModel D.names driver.now) }
    ensures err { IsOkUnless result Fault.Memory }
{
    let mut names = Vec::new(alloc);
    for index in 0..driver.extra_count() {
        names.push(driver.extra_name(index).to_string(alloc)?)?;
    }
    Ok(LayerNames {
        format: driver.format(),
        names,
    })
}

// Copies the files of a layer, given its index from the top.
fn copy_layer<D: NamesFiles + ReadFiles>(
    alloc: Global,
    chain: &mut FormatAccess<D>,
    layer: usize,
    names: &LayerNames,
) -> Result<ChainFile<MemStorage>, Fault>
    ensures ok { IfOk result (λ file.
        file_bytes mem_state file ≡ filled (said_names names.now) (files_at D.DriverModel (drivers chain.old) layer)) }
    ensures read { Pairs (FilesRead D.DriverModel (HadNoResourceError result)) (drivers chain.old) (drivers chain.new) }
    ensures cause { IfErr result (WhyNotCopied (files_of D.DriverModel (drivers chain.old)) (files_of D.DriverModel (drivers chain.new))) }
{
    let image = copy_file(alloc, chain, layer, 0)?;
    let mut extras = Vec::new(alloc);
    for index in 0..names.names.len() {
        let file = copy_file(alloc, chain, layer, index + 1)?;
        extras.push((names.names[index].clone()?, file))?;
    }
    Ok(ChainFile {
        format: names.format,
        image,
        extras,
    })
}

// Copies a file of a layer. Both are given by index.
fn copy_file<D: ReadFiles>(
    alloc: Global,
    chain: &mut FormatAccess<D>,
    layer: usize,
    file: usize,
) -> Result<MemStorage, Fault>
    ensures ok { IfOk result (λ copy. (mem_state copy).bytes ≡ file_bytes_in (files_at D.DriverModel (drivers chain.old) layer) file) }
    ensures read { Pairs (FilesRead D.DriverModel (HadNoResourceError result)) (drivers chain.old) (drivers chain.new) }
    ensures cause { IfErr result (WhyNotCopied (files_of D.DriverModel (drivers chain.old)) (files_of D.DriverModel (drivers chain.new))) }
{
    let size = chain.file_size(layer, file);
    let mut bytes = vec![in alloc; 0u8; size as usize]?;
    chain.read_file(alloc, layer, file, 0, &mut bytes)?;
    MemStorage::from_bytes(bytes)
}
