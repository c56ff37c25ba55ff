// Lowers refcounts that are too high, as those of clusters that leak. Definitions: specs/Repairing.antt.
ghost use Rattle.std.specs.Prelude.{◌≡◌, None};
ghost use Rattle.imago_access.specs.Layer.{IsFree};
ghost use Rattle.qcow2_image.specs.Repairing.{LowersCounts, LowersPairs};

use crate::qcow2::Qcow2;
use crate::reloading::drop_cached;
use imago_access::DriverModel;
use imago_storage::{Fault, Storage};
use qcow2_clusters::lower_leaks;
use std::alloc::Global;

impl<S: Storage> Qcow2<S> {
    // Lowers refcounts that are too high, when the free space is loaded. A resource error sets the image to failed.
    fn lower_pairs(&mut self, leaks: &[(u64, u64)]) -> Result<(), Fault>
        requires free { self.old.unspent ≡ None }
        ensures { LowersPairs S.Storage leaks.now self.old result self.new }
    {
        let Some(space) = &mut self.tables.space else {
            return Err(Fault::DamagedTable);
        };
        let _dropped = drop_cached(&mut self.tables.caches);
        let lowered = lower_leaks(&mut self.tables.file, &mut self.tables.caches, space, leaks);
        self.mark_change_fault(lowered, true)
    }

    /// Lowers refcounts that are too high, as those of clusters that leak. The disk stays the same, also in crash images. See the format's
    /// section "Refcounts".
    ///
    /// Each pair is a host cluster, and the number that its refcount is lowered by. Pass the leaks of a file whose free list is empty, as
    /// after a flush: then no cluster leaks after the call. In general, the numbers for a cluster should add up to its excess refcount at
    /// most: its refcount minus its references and minus what is pending. A cluster whose refcount becomes 0 is free.
    ///
    /// # Preconditions
    ///
    /// No mapping is prepared.
    ///
    /// # Errors
    ///
    /// - `Fault::Failed`; then `Fault::ReadOnly` if the image is read-only.
    /// - `Fault::Memory`, `Fault::Storage`.
    /// - `Fault::Counter` if a refcount is less than its number. `Fault::DamagedTable` if no refcount block has it, or the refcount table
    ///   is damaged, and `Fault::Limit` if that is too large. A consistent image has none of these, if each number is above 0 and the
    ///   excess refcounts are as above.
    ///
    /// # On error
    ///
    /// The refcounts of some first pairs may have been lowered. `Fault::Storage` sets the image to failed, and `Fault::Memory` does unless
    /// nothing has changed.
    pub fn lower_counts(&mut self, alloc: Global, leaks: &[(u64, u64)]) -> Result<(), Fault>
        requires free { IsFree (⟦<Qcow2<S> as DriverModel>⟧.layer self.old) }
        ensures { LowersCounts S.Storage leaks.now self.old result self.new }
    {
        if self.failed {
            return Err(Fault::Failed);
        }
        if !self.mode.writable {
            return Err(Fault::ReadOnly);
        }
        self.load_space(alloc)?;
        self.lower_pairs(leaks)
    }
}
