// The type of an open qcow2 image, and the model by which contracts describe it (`DriverModel`). Its calls are in `drivers.rt`, and the
// definitions in specs/ImageLayer.antt and specs/Rooms.antt.
ghost use Rattle.std.specs.Prelude.{◌≡◌, ◌==◌, ⊤, List, [], Some, None};
ghost use Rattle.std.specs.Option.{option_copied};
ghost use Rattle.imago_storage.specs.Steps.{Call};
ghost use Rattle.imago_storage.specs.declared.fault.Fault.{Fault};
ghost use Rattle.std.specs.Borrow.{Lends, sem};
ghost use Rattle.qcow2_types.specs.Header.{has_external_data};
ghost use Rattle.qcow2_image.specs.contracts.qcow2.Qcow2.{the_row};
ghost use Rattle.qcow2_image.specs.Seen.{with_image, layer_of, memory_of};
ghost use Rattle.qcow2_alloc.specs.Caches.{cached_in};
ghost use Rattle.qcow2_alloc.specs.WellFormedness.{AreTablesClean, AreBlocksClean};
ghost use Rattle.imago_access.specs.Layer.{IsFree};
ghost use Rattle.qcow2_image.specs.ImageLayer.{qcow2_text};
ghost use Rattle.qcow2_image.specs.Leaking.{excess_refcount_of};
ghost use Rattle.qcow2_image.specs.Growing.{WhyUngrown};
ghost use Rattle.qcow2_image.specs.Rooms.{IsUnallocated, HasRoom, IsZeroed, IsExplicitZero, IsWellFormed, IsCoherent, is_sound};
ghost use Rattle.qcow2_image.specs.Writing.{HasBegun, WhyUnwritten};

use crate::mode::OpenMode;
use crate::tables::Tables;
use crate::unspent::Unspent;
use imago_access::DriverModel;
use imago_storage::Storage;
use qcow2_alloc::ImageFile;
use std::fmt::{self, Debug, Display, Formatter, Write};

/// The state of a prepared mapping (a run that is written and not yet committed). It can't be dropped: commit or cancel the mapping, or
/// call `give_up`.
pub struct PreparedMappingState {
    pub(crate) number: u64,
    pub(crate) mapping_id: u64,
}

impl PreparedMappingState {
    /// Returns the number of the image that has prepared the mapping.
    pub fn number(&self) -> u64
        ensures { result ≡ self.now.number }
    {
        self.number
    }

    /// Returns true if an image with the number of `image` has prepared the mapping.
    pub fn belongs_to<S: Storage>(&self, image: &Qcow2<S>) -> bool
        ensures { result ≡ (self.now.number == image.now.number) }
    {
        self.number == image.number
    }

    /// Discards the state. Use it only if no image has the mapping prepared any more: otherwise that image can neither commit nor cancel
    /// it.
    pub fn give_up(self) {
        let PreparedMappingState {
            number: _number,
            mapping_id: _claim,
        } = self;
    }
}

/// A qcow2 image. Its disk reads as the tables of its file say.
///
/// Its only storage is the image file, with the number 0. Bytes of the disk are in this file, in the layers below (the backing chain), or
/// zeroes.
///
/// A write goes in place if the L2 entry of the guest cluster is data with the COPIED flag: no table changes. Otherwise a mapping is
/// prepared: a cluster is allocated and filled with what the guest reads (copy on write). The data comes from the layers below, or from a
/// cluster without the COPIED flag, which others may share. Then the bytes are written, and the commit of the mapping links the L2 entry to
/// the new cluster.
///
/// A preallocated zero cluster with the COPIED flag is filled and linked instead of a new cluster. It stays preallocated if the mapping is
/// cancelled. If the L1 table has no entry for the guest cluster, it is first replaced by a longer table.
///
/// A cluster that the L2 entry referenced before goes to the free list, and so does a new cluster whose mapping is cancelled. The next
/// allocation or flush frees them.
///
/// A compressed cluster is only written as a whole. A zeroing or a discard clears the L2 entries of the whole guest clusters in its range, as
/// far as one L2 table reaches. Zero entries need version 3. A discard to the backing file does all of a range past the end of the L1 table
/// by one call, as nothing is mapped there.
///
/// A growth moves the L1 table to new clusters, so that it is long enough. Preallocation isn't supported. A shrink first copies the shared L2
/// tables of the guest clusters that are wholly past the new size, and unmaps these guest clusters. In both the size changes last, so a
/// crash leaves the old or the new size.
///
/// # On error
///
/// These set the image to failed, and it must be opened again:
///
/// - a storage fault in a call of the disk; a read of the file by `read_file` isn't such a call;
/// - a commit that fails after it has taken the mapping;
/// - a reload (`invalidate_cache`) that fails for any cause but `Fault::Memory`;
/// - `Fault::Memory` once a call has begun to change the image or its file. Before that, running out of memory changes nothing.
#[derive(Drop)]
pub struct Qcow2<S: Storage> {
    pub(crate) tables: Tables<S>,
    pub(crate) mode: OpenMode,
    pub(crate) number: u64,
    pub(crate) failed: bool,
    pub(crate) claims: u64,
    pub(crate) unspent: Option<Unspent<S>>,
}

impl<S: Storage> DriverModel for Qcow2<S> {
    type State = PreparedMappingState;

    ghost layer = { λ d. layer_of S.Storage d };

    ghost image = { λ d. S.state d.tables.file.image };

    ghost extras = { λ _. [] };

    ghost coherent = { λ d. IsCoherent S.Storage d };

    ghost well_formed = { λ d. IsWellFormed S.Storage d };

    ghost has_no_dirty_data = { λ d. AreTablesClean (cached_in d.tables.caches) × AreBlocksClean (cached_in d.tables.caches) };

    ghost stable = { λ _. ⊤ };

    ghost excess_refcount = { λ d. excess_refcount_of S.Storage d };

    ghost unallocated = { λ d p. IsUnallocated (memory_of S.Storage d.tables) d.tables.file.header.fields p };

    ghost has_allocation = { λ d p. HasRoom (memory_of S.Storage d.tables) d.tables.file.header.fields p };

    ghost zeroed = { λ d p. IsZeroed (memory_of S.Storage d.tables) d.tables.file.header.fields p };

    ghost explicit_zero = { λ d p. IsExplicitZero (memory_of S.Storage d.tables) d.tables.file.header.fields p };

    ghost mapping_id = { λ s. s.mapping_id };

    ghost tag = { λ s. s.number };

    ghost sound = { λ kind f. is_sound kind f };

    ghost began = { λ d call now. HasBegun S.Storage d call now };

    ghost own_cause = { λ d below call fault. IsWellFormed S.Storage d → WhyUnwritten S.Storage d below call fault };

    ghost growth_cause = { λ d below size mode fault. WhyUngrown S.Storage d below size mode fault };
}

impl<S: Storage> Qcow2<S> {
    /// Returns true if the image has failed. It must then be opened again before it is used.
    ///
    /// The image fails in each of these cases:
    ///
    /// - A call of the disk has a storage fault.
    /// - A commit fails after it has taken its mapping.
    /// - A reload fails for any cause but `Fault::Memory`.
    /// - Memory runs out after a call has begun to change the image.
    pub fn failed(&self) -> bool
        ensures { result ≡ (⟦<Qcow2<S> as DriverModel>⟧.layer self.now).failed }
    {
        self.failed
    }

    /// Returns true if unallocated bytes are read from a backing file. Otherwise they are 0.
    pub fn backing(&self) -> bool
        ensures { result ≡ self.now.mode.backing }
    {
        self.mode.backing
    }

    /// Returns the image file.
    pub fn image(&self) -> &S
        ensures { result.now ≡ self.now.tables.file.image }
    {
        &self.tables.file.image
    }

    /// Returns the image file for changes. After a change, the tables in memory aren't reloaded.
    pub fn image_mut(&mut self) -> &mut S
        ensures* lends { sem 𝓛 (Lends (the_row S.row S.Storage) S.row self.entry result (λ w. with_image self.entry.now w)) }
        ensures value { result.now ≡ self.old.tables.file.image }
    {
        let tables = &mut self.tables;
        let file = &mut tables.file;
        &mut file.image
    }

    /// Returns the number of files besides the image file that the image has open, which is 0.
    pub fn extras(&self) -> usize
        ensures { result ≡ 0 }
    {
        0
    }

    /// Returns the name of a file besides the image file. The text is empty, as the image has none.
    pub fn extra_name(&self, _i: usize) -> &str
        ensures { result.now ≡ [] }
    {
        ""
    }

    /// Returns the image file, and drops the rest of the image.
    ///
    /// Clusters on the free list keep their refcount, so they leak. Flush first to free them.
    ///
    /// # Preconditions
    ///
    /// No mapping is prepared.
    pub fn into_image(self) -> S
        requires free { IsFree (⟦<Qcow2<S> as DriverModel>⟧.layer self) }
        ensures { result ≡ self.tables.file.image }
    {
        let Qcow2 {
            tables,
            mode: _mode,
            number: _number,
            failed: _failed,
            claims: _claims,
            unspent: _unspent,
        } = self;
        into_file(tables)
    }

    /// Returns true if the data is in an external file.
    pub fn requires_external_data_file(&self) -> bool
        ensures { result ≡ has_external_data self.now.tables.file.header.fields }
    {
        self.tables.file.header.external_data_file()
    }

    /// Returns the name of the external data file, if the header has one.
    pub fn implicit_external_data_file(&self) -> Option<&str>
        ensures { option_copied result ≡ self.now.tables.file.header.data_file_name }
    {
        self.tables.file.header.external_data_filename()
    }

    /// Returns the name of the backing file, if the header has one.
    pub fn implicit_backing_file(&self) -> Option<&str>
        ensures { option_copied result ≡ self.now.tables.file.header.backing_name }
    {
        self.tables.file.header.backing_filename()
    }

    /// Returns the format of the backing file, if the header has one.
    pub fn implicit_backing_format(&self) -> Option<&str>
        ensures { option_copied result ≡ self.now.tables.file.header.backing_format }
    {
        self.tables.file.header.backing_format()
    }

    /// Sets whether unallocated bytes are read from a backing file. If not, they are 0.
    ///
    /// # Preconditions
    ///
    /// No mapping is prepared: a prepared cluster has the bytes that the guest read before.
    pub fn set_backing(&mut self, backing: bool)
        requires free { IsFree (⟦<Qcow2<S> as DriverModel>⟧.layer self.old) }
        ensures { self.new ≡ record self.old { mode = record self.old.mode { backing = backing } } }
    {
        self.mode.backing = backing;
    }
}

// Returns the image file of these tables.
fn into_file<S: Storage>(tables: Tables<S>) -> S
    ensures { result ≡ tables.file.image }
{
    let Tables {
        file,
        l1: _l1,
        caches: _caches,
        space: _space,
    } = tables;
    let ImageFile {
        image,
        header: _header,
    } = file;
    image
}

impl<S: Storage> Display for Qcow2<S> {
    ghost output = { λ d. Some (qcow2_text (S.state d.tables.file.image).shape.filename) };

    fn fmt<W: Write>(&self, f: &mut Formatter<W>) -> fmt::Result {
        match self.tables.file.image.get_filename() {
            Some(name) => write!(f, "qcow2[{name}]"),
            None => write!(f, "qcow2[]"),
        }
    }
}

impl<S: Storage> Debug for Qcow2<S> {
    ghost debug_output = { λ d. Some (qcow2_text (S.state d.tables.file.image).shape.filename) };

    fn fmt<W: Write>(&self, f: &mut Formatter<W>) -> fmt::Result {
        match self.tables.file.image.get_filename() {
            Some(name) => write!(f, "qcow2[{name}]"),
            None => write!(f, "qcow2[]"),
        }
    }
}
