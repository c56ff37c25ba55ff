// The bytes that the last `save` of a script kept of the files.
ghost use Rattle.std.specs.Prelude.{◌≡◌, IfOk, IsOkUnless, OnOk, option_map};
ghost use Rattle.imago_access.specs.Layers.{chain as layers};
ghost use Rattle.qimg_chain.specs.Saving.{SavedFiles, files_to_save, next_bytes};
ghost use Rattle.qimg_chain.specs.ScriptRuns.{items_of, kept_of, saved_of};

use super::fault::RunFault;
use imago_access::{FormatAccess, FormatDriverInstance};
use imago_storage::{Fault, MemStorage};

/// The bytes of the files at a `save`.
#[derive(Debug, Drop)]
pub struct Saved {
    /// The bytes of the top file.
    pub top: Vec<u8>,
    /// The bytes of the second file, that of the layer below the top, if that layer is writable.
    pub below: Option<Vec<u8>>,
}

/// Copies the bytes of a chain's top file, if its top is writable. The only error is `Fault::Memory`.
fn copy_if_writable<D: FormatDriverInstance<Storage = MemStorage>>(
    chain: &FormatAccess<D>,
) -> Result<Option<Vec<u8>>, Fault>
    ensures ok { IfOk result (λ bytes. option_map (λ b. b.items) bytes ≡ next_bytes D.DriverModel (layers chain.now)) }
    ensures err { IsOkUnless result Fault.Memory }
{
    let driver = chain.inner();
    if !driver.writable() {
        return Ok(None);
    }
    let bytes = driver.image_file().bytes()?;
    Ok(Some(bytes))
}

/// Copies the bytes of the second file, if that layer is writable. The only error is `Fault::Memory`.
pub fn copy_next<D: FormatDriverInstance<Storage = MemStorage>>(
    chain: &FormatAccess<D>,
) -> Result<Option<Vec<u8>>, Fault>
    ensures ok { IfOk result (λ bytes. option_map (λ b. b.items) bytes ≡ next_bytes D.DriverModel chain.now.1) }
    ensures err { IsOkUnless result Fault.Memory }
{
    match chain.below() {
        Some(next) => copy_if_writable(next),
        None => Ok(None),
    }
}

/// Copies the bytes of the files. The only error is `Fault::Memory`.
fn copy_files<D: FormatDriverInstance<Storage = MemStorage>>(
    chain: &FormatAccess<D>,
) -> Result<Saved, Fault>
    ensures ok { IfOk result (λ s. saved_of s ≡ files_to_save D.DriverModel chain.now) }
    ensures err { IsOkUnless result Fault.Memory }
{
    let driver = chain.inner();
    let top = driver.image_file().bytes()?;
    let below = copy_next(chain)?;
    Ok(Saved { top, below })
}

/// The bytes that the last `save` kept of the files. They are copied only before a file may change.
#[derive(Drop)]
pub enum Kept {
    /// There was no successful `save`.
    Nothing,
    /// The files still have the bytes.
    InFiles,
    /// A copy of the bytes, as a file may have changed since.
    Apart(Saved),
}

impl Kept {
    /// Copies the bytes if they are still in the files, so that these may change.
    ///
    /// The only error is `Fault::Memory`. Then the bytes stay in the files.
    pub fn set_apart<D: FormatDriverInstance<Storage = MemStorage>>(
        &mut self,
        chain: &FormatAccess<D>,
    ) -> Result<(), Fault>
        ensures same { let files = files_to_save D.DriverModel chain.now in kept_of files self.new ≡ kept_of files self.old }
        ensures apart { OnOk result ((files : SavedFiles) → kept_of files self.new ≡ kept_of (files_to_save D.DriverModel chain.now) self.old) }
        ensures err { IsOkUnless result Fault.Memory }
    {
        if let Kept::InFiles = self {
            *self = Kept::Apart(copy_files(chain)?);
        }
        Ok(())
    }

    /// Returns the bytes. If they are still in the files, they are copied. The only error is `RunFault::Memory`.
    pub fn into_saved<D: FormatDriverInstance<Storage = MemStorage>>(
        self,
        chain: &FormatAccess<D>,
    ) -> Result<Option<Saved>, RunFault>
        ensures ok { IfOk result (λ bytes. items_of bytes ≡ kept_of (files_to_save D.DriverModel chain.now) self) }
        ensures err { IsOkUnless result RunFault.Memory }
    {
        match self {
            Kept::Nothing => Ok(None),
            Kept::Apart(saved) => Ok(Some(saved)),
            Kept::InFiles => match copy_files(chain) {
                Ok(saved) => Ok(Some(saved)),
                Err(_) => Err(RunFault::Memory),
            },
        }
    }
}
