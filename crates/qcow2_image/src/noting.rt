// Notes which ranges of a prepared mapping were written, and finds the bytes of its run in the image file.
ghost use Rattle.std.specs.Prelude.{◌≡◌, ◌≤◌, ◌+◌, ◌^◌, ◌||◌, ℕ, Some, IfSome, false};
ghost use Rattle.qcow2_image.specs.Holding.{HoldsRun};
ghost use Rattle.qcow2_image.specs.Unspent.{covers, here, prepared_mapping_run};

use crate::unspent::{Unspent, Writes};
use imago_storage::Storage;
use std::snapshot::Snapshot;

impl Writes {
    // Returns an empty list of ranges.
    pub(crate) fn none() -> Writes
        ensures { (p : ℕ) → covers result p ≡ false }
    {
        Writes {
            before: None,
            at: 0,
            length: 0,
        }
    }

    // Notes that a range was written.
    pub(crate) fn note(&mut self, at: u64, length: u64)
        ensures { (p : ℕ) → covers self.new p ≡ (here at length p || covers self.old p) }
    {
        let before = Snapshot::of(self);
        *self = Writes {
            before: Some(before),
            at,
            length,
        };
    }
}

impl<S: Storage> Unspent<S> {
    // Returns the offset in the image file of a byte of the prepared run, and the length of the run from there, at most `most` bytes.
    // Returns `None` if the byte isn't in the run.
    pub(crate) fn run_from(&self, offset: u64, most: u64) -> Option<(u64, u64)>
        ensures run { HoldsRun (Some (prepared_mapping_run S.Storage self.now)) offset most result }
        ensures end_bounded { IfSome result (λ r. r.0 + r.1 ≤ 2 ^ 60) }
    {
        if offset < self.offset || offset - self.offset >= self.length {
            return None;
        }
        let done = offset - self.offset;
        Some((self.place + done, most.min(self.length - done)))
    }
}
