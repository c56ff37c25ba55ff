// The reasons why a script ends early.
ghost use Rattle.std.specs.Prelude.{◌≡◌};
ghost use Rattle.qimg_chain.specs.declared.run.fault.RunFault.TheVariants.{Memory};

use std::alloc::AllocError;
use thiserror::Error;

/// A reason why a script ends early.
#[derive(Clone, Copy, Debug, PartialEq, Eq, Error)]
pub enum RunFault {
    /// The reader failed.
    #[error("input or output failed")]
    Read,
    /// The writer failed.
    #[error("input or output failed")]
    Write,
    /// The script has too many lines.
    #[error("input or output failed")]
    Lines,
    /// Memory ran out.
    #[error("input or output failed")]
    Memory,
}

impl From<AllocError> for RunFault {
    ghost from_gives = { λ _ e. e ≡ Memory };

    fn from(_: AllocError) -> Self {
        RunFault::Memory
    }
}
