// Reloads the tables of an open image. The tables in memory are replaced only when nothing can fail any more.
ghost use Rattle.std.specs.Prelude.{◌≡◌, ◌≢◌, [], true, false, Ok, IsOk, OnOk, IfOk, IfErr};
ghost use Rattle.imago_storage.specs.Calls.{Cause, UnchangedButFaults, CountsNotFallen};
ghost use Rattle.imago_storage.specs.declared.fault.Fault.TheVariants.{DamagedTable};
ghost use Rattle.qcow2_types.specs.Bytes.{bytes_of};
ghost use Rattle.qcow2_types.specs.Counts.{refcount_table_sound};
ghost use Rattle.qcow2_types.specs.Header.{header_of, has_external_data};
ghost use Rattle.qcow2_metadata.specs.Loading.{file, NotLoaded};
ghost use Rattle.qcow2_alloc.specs.Caches.{cached_in, HasRoomOf};
ghost use Rattle.qcow2_alloc.specs.Opening.{IsL1Of};
ghost use Rattle.qcow2_image.specs.Caching.{IsUnpinned};
ghost use Rattle.qcow2_image.specs.Opening.{IsSpaceOpened, WhyNoSpace, header_for};
ghost use Rattle.qcow2_image.specs.Steps.{IsFirstFault, Reloads, WhyNotReloaded};

use crate::opening::{load_free_space, load_header, load_l1};
use crate::tables::Tables;
use imago_storage::{Fault, Storage};
use qcow2_alloc::{ImageFile, MetadataCaches};
use qcow2_clusters::Space;
use qcow2_metadata::{Header, L1Table};
use std::alloc::Global;
use std::mem;

// Loads the header again. The storage first drops its cached bytes, so that the header is really read again.
fn reload_header<S: Storage>(alloc: Global, image: &mut S) -> Result<Header, Fault>
    ensures loads { IfOk result (λ header. header_of false (file (S.state image.old)) ≡ Ok header) }
    ensures inside { IfOk result (λ header. has_external_data header.fields ≡ false) }
    ensures err { IfErr result (NotLoaded (header_for false (file (S.state image.old))) (S.state image.old) (S.state image.new)) }
    ensures first { IfErr result (λ fault. fault ≢ DamagedTable) }
    ensures same { OnOk result (S.state image.new ≡ S.state image.old) }
    ensures unchanged_but_faults { UnchangedButFaults (S.state image.old) (S.state image.new) }
{
    image.invalidate_cache()?;
    load_header(alloc, image, false)
}

// Returns the error of a reload that has loaded `header`, but then failed with `fault`. If that header can't replace the open one, this
// comes first. The check of `update` is symmetric.
fn first_fault(mut header: Header, opened: &Header, fault: Fault) -> Fault
    ensures { IsFirstFault header opened.now fault result }
{
    match header.update(opened) {
        Ok(()) => fault,
        Err(differs) => differs,
    }
}

// Loads the header and the L1 table again. `opened` is the header of the open image, for `first_fault`.
fn reload_tables<S: Storage>(
    alloc: Global,
    image: &mut S,
    opened: &Header,
) -> Result<(Header, L1Table), Fault>
    ensures loads { IfOk result (λ r. header_of false (file (S.state image.old)) ≡ Ok r.0) }
    ensures inside { IfOk result (λ r. has_external_data r.0.fields ≡ false) }
    ensures l1 { IfOk result (λ r. IsL1Of (file (S.state image.old)) r.0.fields r.1) }
    ensures err { let f = file (S.state image.old) in (writable : _)
        → IfErr result (WhyNotReloaded writable f opened.now (S.state image.old).faults (S.state image.new).faults) }
    ensures known { header_of false (file (S.state image.old)) ≡ Ok opened.now → header_for false (file (S.state image.old)) ≡ Ok opened.now
        → IfErr result (Cause (S.state image.old).faults (S.state image.new).faults) }
    ensures same { OnOk result (S.state image.new ≡ S.state image.old) }
    ensures unchanged_but_faults { UnchangedButFaults (S.state image.old) (S.state image.new) }
    ensures counts_not_fallen { CountsNotFallen (S.state image.old) (S.state image.new) }
{
    let header = reload_header(alloc, image)?;
    match load_l1(alloc, image, &header) {
        Ok(l1) => Ok((header, l1)),
        Err(fault) => Err(first_fault(header, opened, fault)),
    }
}

// Drops all that is cached, without writing it. Nothing of it is dirty or pinned, so nothing is lost and the caches are empty afterwards.
pub(crate) fn drop_cached<S: Storage>(caches: &mut MetadataCaches<S>) -> Result<(), Fault>
    requires unpinned { IsUnpinned caches.old }
    ensures ok { IsOk result }
    ensures empty { cached_in caches.new ≡ record { tables = []; blocks = [] } }
    ensures room { HasRoomOf caches.old caches.new }
{
    caches.invalidate_l2()?;
    caches.invalidate_rb()
}

// Loads the free space by the reloaded `header`, and returns that header again. A read-only image gets `None`.
fn reload_free_space<S: Storage>(
    alloc: Global,
    file: &mut ImageFile<S>,
    header: Header,
    writable: bool,
) -> (Header, Result<Option<Space>, Fault>)
    requires loads { header_of false (bytes_of (S.state file.old.image).bytes) ≡ Ok header }
    ensures back { result.0 ≡ header }
    ensures header { file.new.header ≡ file.old.header }
    ensures ok { IfOk result.1 (IsSpaceOpened (S.state file.old.image) header.fields writable) }
    ensures sound { writable ≡ true → OnOk result.1 (refcount_table_sound (bytes_of (S.state file.old.image).bytes) header.fields ≡ true) }
    ensures err { let f = bytes_of (S.state file.old.image).bytes in
        IfErr result.1 (WhyNoSpace f header.fields writable (S.state file.old.image).faults (S.state file.new.image).faults) }
    ensures same { OnOk result.1 (S.state file.new.image ≡ S.state file.old.image) }
    ensures unchanged_but_faults { UnchangedButFaults (S.state file.old.image) (S.state file.new.image) }
{
    let mut other = header;
    mem::swap(&mut file.header, &mut other);
    let space = load_free_space(alloc, file, writable);
    mem::swap(&mut file.header, &mut other);
    (other, space)
}

// Reloads the header and the L1 table, and for a writable image the refcount table. Drops what is cached, and the list of clusters to free.
// The errors are those of opening the image read-only, and two more. If the header differs from the open one in more than the size and the
// offsets of tables, `Fault::Unsupported` comes before the errors of tables. If the refcount table of a writable image is damaged,
// `Fault::DamagedTable` comes last. On error, what is in memory is unchanged.
pub(crate) fn reload<S: Storage>(
    tables: &mut Tables<S>,
    alloc: Global,
    writable: bool,
) -> Result<(), Fault>
    ensures { Reloads S.Storage writable tables.old result tables.new }
{
    let (header, l1) = reload_tables(alloc, &mut tables.file.image, &tables.file.header)?;
    let (header, loaded) = reload_free_space(alloc, &mut tables.file, header, writable);
    let space = match loaded {
        Ok(space) => space,
        Err(fault) => return Err(first_fault(header, &tables.file.header, fault)),
    };
    tables.file.header.update(&header)?;
    tables.l1 = l1;
    tables.space = space;
    drop_cached(&mut tables.caches)
}
