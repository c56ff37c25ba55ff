// The gate that decides which of the files that an image references may be opened.
ghost use Rattle.std.specs.Prelude.{◌≡◌, ℕ, List, Result, Err};
ghost use Rattle.imago_storage.specs.declared.fault.Fault.{Fault};
ghost use Rattle.imago_storage.specs.declared.fault.Fault.TheVariants.{MissingData};

use imago_storage::Fault;
use std::alloc::Global;

/// Opens the storages that an image references by name and that the caller didn't pass in. It decides which may be opened.
///
/// Contracts see its possible answers, so they can say with which storages an image was opened.
pub trait ImplicitOpenGate<S> {
    /// The possible results for a name, and the gate after each result.
    ghost answers: { Self → List ℕ → Result S Fault → Self → Type 0 };

    /// Opens the storage with this name, as the image has it.
    ///
    /// # Errors
    ///
    /// A fault of the gate's own, such as `Fault::MissingData` for a storage that may not be opened.
    fn open_storage(&mut self, alloc: Global, name: &str) -> Result<S, Fault>
        ensures { answers self.old name.now result self.new };
}

/// A gate that opens nothing: it returns `Fault::MissingData` for every name.
#[derive(Clone, Copy, Debug, Drop, PartialEq, Eq)]
pub struct DenyImplicitOpenGate;

impl<S> ImplicitOpenGate<S> for DenyImplicitOpenGate {
    ghost answers = { λ gate name answer now. (answer ≡ Err MissingData) × (now ≡ gate) };

    fn open_storage(&mut self, _alloc: Global, _name: &str) -> Result<S, Fault> {
        Err(Fault::MissingData)
    }
}
