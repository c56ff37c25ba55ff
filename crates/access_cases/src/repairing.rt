// Repairs leaks. A one-cluster image has refcounts that are always right, so it never leaks. A raw image has none.

use crate::clusters::OneCluster;
use crate::drivers::Driver;
use imago_access::FormatDriverInstance;
use imago_storage::{Fault, Storage};
use qimg_calls::RepairsLeaks;
use std::alloc::Global;

impl<S: Storage> RepairsLeaks for OneCluster<S> {
    // Nothing is ever dirty, so there is nothing to flush.
    fn repair_leaks(&mut self, alloc: Global) -> Result<Vec<(u64, u64)>, Fault> {
        self.ready()?;
        if !self.writable {
            return Err(Fault::ReadOnly);
        }
        Ok(Vec::new(alloc))
    }
}

impl<S: Storage> RepairsLeaks for Driver<S> {
    fn repair_leaks(&mut self, alloc: Global) -> Result<Vec<(u64, u64)>, Fault> {
        match self {
            Driver::Raw(raw) => {
                raw.ready()?;
                Err(Fault::Unsupported)
            }
            Driver::Words(words) => words.repair_leaks(alloc),
        }
    }
}
