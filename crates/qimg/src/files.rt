// Reads the files of a chain (an image and its backing chain), or makes a new image in memory.
ghost use Rattle.std.specs.Prelude.{◌≡◌, ◌∷◌, [], None, IfOk};
ghost use Rattle.imago_access.specs.declared.format.Format.TheVariants as format;
ghost use Rattle.imago_storage.specs.MemStorage.{mem_state};
ghost use Rattle.imago_storage.specs.declared.memory.MemStorage.{MemStorage};
ghost use Rattle.qcow2_types.specs.Header.{Header};
ghost use Rattle.imago_access.specs.declared.format.PreallocateMode.TheVariants as mode;
ghost use Rattle.qcow2_image.specs.Creating.{IsImageOf, Options};
ghost use Rattle.qimg_core.specs.declared.plain.ChainFile.{ChainFile};

use crate::failure::Failure;
use imago_access::{Format, FormatCreateBuilder};
use imago_storage::MemStorage;
use qcow2_image::Qcow2;
use qimg_chain::arguments::LayerArgument;
use qimg_core::plain::ChainFile;
use std::alloc::Global;
use std::fs::{self, Files};

/// Reads a file as a storage in memory.
pub fn read_storage<R: Files + AllocGlobal>(rt: &R, path: &str) -> Result<MemStorage, Failure> {
    let bytes = fs::read(rt, path)?;
    match MemStorage::from_bytes(bytes) {
        Ok(storage) => Ok(storage),
        Err(_) => Err(Failure::InputOutput),
    }
}

/// Reads the files of one image of a chain.
fn read_layer<R: Files + AllocGlobal>(
    rt: &R,
    layer: &LayerArgument,
) -> Result<ChainFile<MemStorage>, Failure> {
    let image = read_storage(rt, &layer.path)?;
    let mut extras = Vec::new(rt.alloc());
    for (name, path) in &layer.extras {
        extras.push((name.clone()?, read_storage(rt, path)?))?;
    }
    Ok(ChainFile {
        format: layer.format,
        image,
        extras,
    })
}

/// Reads the files of all images of a chain, in the order of the arguments.
pub fn read_files<R: Files + AllocGlobal>(
    rt: &R,
    layers: &[LayerArgument],
) -> Result<Vec<ChainFile<MemStorage>>, Failure> {
    let mut files = Vec::new(rt.alloc());
    for layer in layers {
        files.push(read_layer(rt, layer)?)?;
    }
    Ok(files)
}

/// The size of a new disk, in bytes.
const NEW_SIZE: u64 = 65536;

/// Returns a chain with one file: a new consistent qcow2 image in memory. Its disk has 65,536 bytes, and maps none of them.
pub fn new_files(alloc: Global) -> Result<Vec<ChainFile<MemStorage>>, Failure>
    ensures new { let asked : Options = record {
      size = 65536;
      preallocate = mode.None;
      cluster_size = 512;
      refcount_width = 16;
      backing_name = None;
      backing_format = None;
    } in
        IfOk result (λ files. (top : ChainFile MemStorage) × (files.items ≡ top ∷ []) × (top.format ≡ format.Qcow2)
        × ((H : Header) × IsImageOf asked (mem_state top.image).bytes H)) }
{
    let builder = Qcow2::create_builder(MemStorage::new(alloc))
        .cluster_size(512)
        .size(NEW_SIZE);
    // The image is in memory, so it can only fail because memory runs out.
    let Ok(image) = builder.create(alloc) else {
        return Err(Failure::InputOutput);
    };
    let mut files = Vec::new(alloc);
    files.push(ChainFile {
        format: Format::Qcow2,
        image,
        extras: Vec::new(alloc),
    })?;
    Ok(files)
}
