// The reasons why a list of calls on host files isn't made or written.

use imago_storage::Fault;
use qimg_core::check::CheckFault;
use std::io;

/// A reason why a list of calls failed as a whole.
#[derive(Clone, Copy, Debug)]
pub enum HostFault {
    /// The files don't open as a chain, with this fault of `qimg_chain::chain::open_chain`. Nothing was written.
    Opening(Fault),
    /// The checker doesn't accept the top file, with this finding. Nothing was written.
    Finding(CheckFault),
    /// Memory ran out, or a call isn't possible here. Nothing was written.
    Calls(Fault),
    /// A file of the host couldn't be read or written.
    Host(io::Error),
}

impl From<io::Error> for HostFault {
    fn from(error: io::Error) -> Self {
        HostFault::Host(error)
    }
}
