// The further files that a caller supplies for an image (VMDK extents), by the names that the image has for them.
ghost use Rattle.qimg_chain.specs.Extras.{IsTaken};

use imago_access::ImplicitOpenGate;
use imago_storage::Fault;
use std::alloc::Global;

/// Files with their names. Each file is opened once. If several files have the same name, the first is opened first.
#[derive(Drop)]
pub(crate) struct Extras<S> {
    pub(crate) files: Vec<(String, S)>,
}

impl<S: Drop> ImplicitOpenGate<S> for Extras<S> {
    ghost answers = { λ gate name answer now. IsTaken gate.files.items name answer now.files.items };

    fn open_storage(&mut self, _alloc: Global, name: &str) -> Result<S, Fault> {
        for i in 0..self.files.len() {
            if self.files[i].0.as_str() == name {
                let (_name, file) = self.files.remove(i);
                return Ok(file);
            }
        }
        Err(Fault::MissingData)
    }
}
