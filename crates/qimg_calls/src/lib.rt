//! Lists of calls on a chain (an image and its backing files), and a copy of one chain's disk into another. Each call of a list reads or
//! changes the guest disk. Terms are explained in docs/GLOSSARY.md.
#![tactic(auto)]

mod call;
mod driving;
mod flattening;
mod making;
mod repairing;

pub use call::{Answer, Call};
pub use driving::drive;
pub use flattening::flatten;
pub use repairing::{RepairsLeaks, repair_leaks};
