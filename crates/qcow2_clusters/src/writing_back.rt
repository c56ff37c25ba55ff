// Ends a change: writes dirty metadata, and empties the caches, or keeps only the L2 tables. After a resource error
// (`Fault::Memory`, `Fault::Storage`) nothing is written.
ghost use Rattle.std.specs.Prelude.{MatchBool, MatchResult, Ok, Err};
ghost use Rattle.qcow2_alloc.specs.Caches.{HasRoomOf};
ghost use Rattle.qcow2_alloc.specs.Going.{HadNoResourceError};
ghost use Rattle.qcow2_clusters.specs.Flushed.{AreEmpty};
ghost use Rattle.qcow2_clusters.specs.WritingBack.{AreUnpinned, KeepsCachedTables, WritesBack, without_tables};

use imago_storage::{Fault, Storage};
use qcow2_alloc::{ImageFile, MetadataCaches};

// Empties the caches. Nothing is pinned, so nothing stays.
fn drop_cached<S: Storage>(caches: &mut MetadataCaches<S>)
    requires unpinned { AreUnpinned caches.old }
    ensures empty { AreEmpty caches.new }
    ensures room { HasRoomOf caches.old caches.new }
{
    let _tables = caches.invalidate_l2();
    let _blocks = caches.invalidate_rb();
}

// Returns true if the result isn't a resource error.
fn had_no_resource_error<T>(answer: &Result<T, Fault>) -> bool
    ensures { MatchBool result (HadNoResourceError answer.now) (HadNoResourceError answer.now → ⊥) }
{
    !matches!(answer, Err(Fault::Memory) | Err(Fault::Storage))
}

// Ends a change with the result `given`. Writes dirty metadata, unless `given` is a resource error, and empties the
// caches. Fails with the error of that write.
pub(crate) fn end_change<S: Storage, T>(
    file: &mut ImageFile<S>,
    caches: &mut MetadataCaches<S>,
    given: &Result<T, Fault>,
) -> Result<(), Fault>
    requires unpinned { AreUnpinned caches.old }
    ensures { MatchResult result (λ _. WritesBack S.state given.now file.old caches.old given.now file.new caches.new)
        (λ fault. WritesBack S.state given.now file.old caches.old (Err fault) file.new caches.new) }
{
    if !had_no_resource_error(given) {
        drop_cached(caches);
        return Ok(());
    }
    let flushed = caches.flush_all(file);
    drop_cached(caches);
    flushed
}

// Ends a change like `end_change`. Returns the error of the write, if any, and otherwise `given`.
pub(crate) fn write_back<S: Storage>(
    file: &mut ImageFile<S>,
    caches: &mut MetadataCaches<S>,
    given: Result<(), Fault>,
) -> Result<(), Fault>
    requires unpinned { AreUnpinned caches.old }
    ensures { WritesBack S.state given file.old caches.old result file.new caches.new }
{
    end_change(file, caches, &given)?;
    given
}

// Ends a successful change like `write_back`, but keeps the L2 tables cached. If the write fails, the caches are empty.
pub(crate) fn write_back_keeping_tables<S: Storage>(
    file: &mut ImageFile<S>,
    caches: &mut MetadataCaches<S>,
) -> Result<(), Fault>
    requires unpinned { AreUnpinned caches.old }
    ensures settles { WritesBack S.state (Ok tt) file.old caches.old result file.new (without_tables caches.new) }
    ensures keeps_tables { KeepsCachedTables S.state file.old caches.old result file.new caches.new }
{
    match caches.flush_all(file) {
        Ok(()) => {
            let _blocks = caches.invalidate_rb();
            Ok(())
        }
        Err(fault) => {
            drop_cached(caches);
            Err(fault)
        }
    }
}
