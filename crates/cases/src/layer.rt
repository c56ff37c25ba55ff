// The `Layer` trait, which a program of cases implements for `run`: its values, and the calls on them. `Trouble` says why a call has no
// answer of its own.
use imago_storage::Fault;
use std::alloc::{AllocError, AllocFailed, Global};

/// The values of a program of cases, and the calls that a script can make on them.
pub trait Layer {
    /// Drops all values of the previous case.
    fn begin(&mut self);

    /// Makes the call that `words` describe, and returns the text of its answer.
    ///
    /// # Errors
    ///
    /// - [`Trouble::Refused`] if the call failed. The text of the fault is then the answer, and a script can require it.
    /// - [`Trouble::NoCall`] if the words aren't a possible call. No answer in a script allows this.
    fn answer(&mut self, alloc: Global, words: &[&str]) -> Result<String, Trouble>;
}

/// The reason why a call has no answer of its own.
#[derive(Clone, Copy, Debug, PartialEq, Eq)]
pub enum Trouble {
    /// The call failed with this fault.
    Refused(Fault),
    /// The words aren't a call, or the call isn't possible in this state.
    NoCall,
}

impl From<Fault> for Trouble {
    fn from(fault: Fault) -> Self {
        Trouble::Refused(fault)
    }
}

impl From<AllocError> for Trouble {
    fn from(_: AllocError) -> Self {
        Trouble::Refused(Fault::Memory)
    }
}

impl<T: Drop> From<AllocFailed<T>> for Trouble {
    fn from(_: AllocFailed<T>) -> Self {
        Trouble::Refused(Fault::Memory)
    }
}
