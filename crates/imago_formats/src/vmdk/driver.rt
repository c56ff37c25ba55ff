// The driver of VMDK images: maps guest offsets to the files of the extents. Definitions: specs/VmdkLayer.antt and specs/VmdkOpening.antt.
ghost use Rattle.std.specs.Prelude.{IsErrOf, slice_index_or, ◌<◌, ◌≤◌, ℕ, ◌≡◌, ◌⊎◌, ◌∷◌, ◌-◌, ◌+◌, ◌*◌, ◌<◌, [], ⊤, min, map, refl, length, OnOk, IfOk, IfErr, IsOk, IsTrue, Ok, Err, Some, None};
ghost use Rattle.std.proofs.Common.{inr};
ghost use Rattle.std.proofs.Math.Nat.{le_refl};
ghost use Rattle.imago_storage.specs.Calls.{CountsFaults, IsFaultless, UnchangedButFaults};
ghost use Rattle.imago_access.specs.Failing.{Fails, RefusesFlush, RefusesLookup};
ghost use Rattle.imago_access.specs.FileReads.{FileReadCause};
ghost use Rattle.imago_access.specs.Files.{AreRead, OverflowsIn, Pairs, HadNoResourceError, byte_in, files, keep_all};
ghost use Rattle.imago_access.specs.Mappings.{IsOneOf, IsRun, LooksIn, ReportsAllocationIn, ReportsExplicitZero};
ghost use Rattle.imago_access.specs.Going.{EarlyOutcome, IsUnchanged, LookupCall, MarksFailed, RangeEarlyOutcome};
ghost use Rattle.imago_access.specs.PartCalls.{IsPart, DoesPart, PartCall, PartRefused};
ghost use Rattle.imago_formats.specs.VmdkFiles.{Keeps, Refuses};
ghost use Rattle.imago_access.specs.PreparingCalls.{Commits, CommitRefused, Cancels};
ghost use Rattle.imago_access.specs.Refusals.{unusable_fault};
ghost use Rattle.imago_formats.specs.Descriptor.{descriptor_of, is_signed, text_of};
ghost use Rattle.imago_formats.specs.DescriptorView.{RefusesOpening, kept_extents, kept_names};
ghost use Rattle.imago_formats.specs.RawHome.{never};
ghost use Rattle.imago_formats.specs.VmdkLayer.{IsWholeRun, IsZeroByDescriptor, ReadsReach, vmdk_layer, vmdk_text};
ghost use Rattle.imago_formats.specs.VmdkOpening.{NotAllOpened, OpensNext};
ghost use Rattle.imago_formats.specs.contracts.vmdk.driver.Vmdk.{the_row};
ghost use Rattle.std.specs.Borrow.{Lends, sem};
ghost use Rattle.std.specs.Vec.{with_item};
ghost use Rattle.imago_formats.specs.VmdkLaws.{aligned_files, covered, no_home};

use crate::raw::NoState;
use crate::vmdk::disk::Disk;
use crate::vmdk::files::{is_descriptor, read_descriptor};
use crate::vmdk::looking::mapping_at;
use crate::vmdk::opening::{check_reach, name_of, open_files};
use crate::vmdk::storages::{
    Upkeep, greatest_mem_align, greatest_req_align, keep_up, read_storage,
};
use imago_access::{
    DriverModel, Format, FormatDriverInstance, ImplicitOpenGate, PreallocateMode,
    PreparedDataMapping, ReadBelow, ReadFiles, ShallowMapping,
};
use imago_storage::{Fault, Storage, larger_alignment};
use std::alloc::Global;
use std::fmt::{self, Display, Formatter, Write};

/// A VMDK image: a text descriptor with the extents of the disk, and the files of these extents.
///
/// The image is read, and never written. The descriptor's file has the number 0. The files of the extents follow, in order.
#[derive(Drop)]
pub struct Vmdk<S> {
    image: S,
    disk: Disk,
    files: Vec<S>,
}

impl<S: Storage> Vmdk<S> {
    /// Opens a descriptor, without the files of its extents.
    ///
    /// While a file is missing, each call of the driver fails with `Fault::MissingData`. Getters, a cancel, and reads of a file
    /// (`ReadFiles`) still work.
    ///
    /// # Errors
    ///
    /// - `Fault::DamagedDescriptor`, `Fault::Unsupported`, if the descriptor violates the format, or has something that isn't supported.
    /// - `Fault::Memory`, and `Fault::Storage` if the storage may fail.
    pub fn open_image(alloc: Global, image: S) -> Result<Self, Fault>
        ensures said { IfOk result (λ d. descriptor_of (S.state image).bytes ≡ Ok (kept_extents d.disk.extents.items)) }
        ensures image { IfOk result (λ d. S.state d.image ≡ S.state image) }
        ensures files { IfOk result (λ d. d.files.items ≡ []) }
        ensures err { IfErr result (RefusesOpening S.state (descriptor_of (S.state image).bytes)) }
    {
        let mut image = image;
        let disk = read_descriptor(alloc, &mut image)?;
        Ok(Vmdk {
            image,
            disk,
            files: Vec::new(alloc),
        })
    }

    /// Returns true if the first line of a storage is that of a VMDK descriptor. No byte changes.
    ///
    /// # Errors
    ///
    /// - `Fault::Memory`, `Fault::Storage`.
    pub fn probe(alloc: Global, image: &mut S) -> Result<bool, Fault>
        ensures ok { IfOk result (λ yes. yes ≡ is_signed (text_of (S.state image.old).bytes)) }
        ensures unchanged_but_faults { UnchangedButFaults (S.state image.old) (S.state image.new) }
        ensures faults { CountsFaults (S.state image.old).faults (S.state image.new).faults result }
    {
        is_descriptor(alloc, image)
    }

    /// Opens the missing files of the extents in order, each by a call of the gate (the value that opens files by name).
    ///
    /// # Errors
    ///
    /// - An error of the gate.
    /// - `Fault::Memory` if memory for a file's entry runs out. The gate isn't called for that file.
    /// - `Fault::DamagedDescriptor` if all files were opened, but a read padded to whole units can't reach the end of an extent in its
    ///   file. This happens if the extent ends close to 2^64 bytes.
    ///
    /// # On error
    ///
    /// Files that were opened remain open, and a later call continues with the next one. After `Fault::DamagedDescriptor` all files have
    /// been opened, so calls don't fail for a missing file any more. A lookup may then return a location that can't be read.
    pub fn open_implicit_dependencies_gated<G: ImplicitOpenGate<S>>(
        &mut self,
        alloc: Global,
        gate: &mut G,
    ) -> Result<(), Fault>
        ensures disk { self.new.disk ≡ self.old.disk }
        ensures image { self.new.image ≡ self.old.image }
        ensures ready { OnOk result (unusable_fault (⟦<Vmdk<S> as DriverModel>⟧.layer self.new) ≡ None) }
        ensures coherent { OnOk result (⟦<Vmdk<S> as DriverModel>⟧.coherent self.new) }
        // The new files are those that the gate opened for the next names, in order.
        ensures opens { let names = kept_names self.old.disk.extents.items in
            OnOk result (OpensNext G.answers names (self.old.files.items, gate.old) (self.new.files.items, gate.new)) }
        ensures err { let names = kept_names self.old.disk.extents.items in let Reach = ⟦<Vmdk<S> as DriverModel>⟧.coherent self.new in
            IfErr result (NotAllOpened G.answers names Reach (self.old.files.items, gate.old) (self.new.files.items, gate.new)) }
    {
        open_files(alloc, gate, self.disk.extents(), &mut self.files)?;
        let unit = larger_alignment(self.req_align(), self.mem_align());
        check_reach(self.disk.extents(), unit as u64)
    }

    // Returns the run from `offset` on: the part of the range that is inside one extent.
    fn run_from(&self, offset: u64, max_length: u64) -> (ShallowMapping, u64)
        ensures run { IsRun (⟦<Vmdk<S> as DriverModel>⟧.layer self.now) offset max_length result.0 result.1 }
        ensures looks { let d = ⟦<Vmdk<S> as DriverModel>⟧ in d.coherent self.now → LooksIn d offset max_length self.now self.now result }
        ensures storage_exists { let d = ⟦<Vmdk<S> as DriverModel>⟧ in unusable_fault (d.layer self.now) ≡ None → IsOneOf (length (files d self.now)) result.0 }
        ensures explicit_zero { ReportsExplicitZero (IsZeroByDescriptor self.now.disk.extents.items) offset result }
        ensures whole { IsWholeRun self.now.disk.extents.items offset max_length result.1 }
    {
        match self.disk.find(offset) {
            Some(found) => {
                let within = offset - found.start;
                let rest = found.extent.sectors * 512 - within;
                (
                    mapping_at(found.extent, found.number, offset, within),
                    max_length.min(rest),
                )
            }
            None => (ShallowMapping::Eof, 0),
        }
    }

    // Checks that a change of `length` bytes may begin, and returns the first early error otherwise.
    fn check_change(&self, length: u64) -> Result<(), Fault>
        ensures ok { OnOk result ((unusable_fault (⟦<Vmdk<S> as DriverModel>⟧.layer self.now) ≡ None) × (length ≡ 0)) }
        ensures err { IfErr result (Refuses (⟦<Vmdk<S> as DriverModel>⟧.layer self.now) length) }
    {
        match self.ready() {
            Ok(()) => {}
            Err(_) => return Err(Fault::MissingData),
        }
        if length != 0 {
            return Err(Fault::ReadOnly);
        }
        Ok(())
    }

    // Calls each storage in order, up to the first that fails, if no file is missing.
    fn keep(&mut self, upkeep: Upkeep) -> Result<(), Fault>
        ensures keeps { Keeps ⟦<Vmdk<S> as DriverModel>⟧ self.old self.new }
        ensures early_outcome { let d = ⟦<Vmdk<S> as DriverModel>⟧ in EarlyOutcome d (unusable_fault (d.layer self.old)) ⊥ result self.old self.new }
        ensures whole { let d = ⟦<Vmdk<S> as DriverModel>⟧ in HadNoResourceError result → Pairs IsFaultless (files d self.old) (files d self.new) }
        ensures err { IfErr result (RefusesFlush ⟦<Vmdk<S> as DriverModel>⟧ self.old self.new) }
    {
        self.ready()?;
        keep_up(&mut self.image, &mut self.files, upkeep)
    }

    // Reads a storage from `place` on.
    fn read(
        &mut self,
        alloc: Global,
        storage: usize,
        place: u64,
        buf: &mut [u8],
    ) -> Result<(), Fault>
        ensures keeps { Keeps ⟦<Vmdk<S> as DriverModel>⟧ self.old self.new }
        ensures bytes { OnOk result (AreRead (files ⟦<Vmdk<S> as DriverModel>⟧ self.old) storage place (length buf.old) buf.new) }
        ensures whole { let d = ⟦<Vmdk<S> as DriverModel>⟧ in HadNoResourceError result → Pairs IsFaultless (files d self.old) (files d self.new) }
        ensures overflow { OverflowsIn (files ⟦<Vmdk<S> as DriverModel>⟧ self.old) storage place (length buf.old)
            → IsErrOf result Fault.RangeOverflow }
        ensures beyond { length (files ⟦<Vmdk<S> as DriverModel>⟧ self.old) ≤ storage → IsOk result }
        ensures cause { let d = ⟦<Vmdk<S> as DriverModel>⟧ in let overflows = OverflowsIn (files d self.old) storage place (length buf.old) in
            IfErr result (FileReadCause overflows (files d self.old) (files d self.new)) }
        ensures empty { length buf.old ≡ 0 → IsOk result × IsUnchanged ⟦<Vmdk<S> as DriverModel>⟧ self.old self.new }
    {
        read_storage(alloc, &mut self.image, &mut self.files, storage, place, buf)
    }

    // Makes a call that would zero or discard a part of a range. Only an empty range succeeds.
    fn no_part(&mut self, offset: u64, length: u64) -> Result<(u64, u64), Fault>
        ensures part { IfOk result (IsPart offset length) }
        ensures does { (call : PartCall) → DoesPart call ⟦<Vmdk<S> as DriverModel>⟧ offset length result self.old self.new }
        ensures early_outcome { RangeEarlyOutcome ⟦<Vmdk<S> as DriverModel>⟧ offset length result self.old self.new }
        ensures refused { (call : PartCall) → PartRefused call ⟦<Vmdk<S> as DriverModel>⟧ offset length result self.old self.new }
    {
        self.check_change(length)?;
        Ok((offset, 0))
    }
}

impl<S: Storage> Vmdk<S> {
    /// Returns the descriptor's file.
    pub fn image(&self) -> &S
        ensures { result.now ≡ self.now.image }
    {
        &self.image
    }

    /// Returns the descriptor's file by mutable reference. The extents stay those that were parsed at opening.
    pub fn image_mut(&mut self) -> &mut S
        ensures* lends { sem 𝓛 (Lends (the_row S.row) S.row self.entry result (λ w. record self.entry.now { image = w })) }
        ensures value { result.now ≡ self.old.image }
    {
        &mut self.image
    }

    /// Returns the number of open extent files.
    pub fn extras(&self) -> usize
        ensures { result ≡ length self.now.files.items }
    {
        self.files.len()
    }

    /// Returns the name of the `i`th extent file, as the descriptor states it.
    pub fn extra_name(&self, i: usize) -> &str
        requires { i < length self.now.files.items }
        ensures { result.now ≡ slice_index_or (kept_names self.now.disk.extents.items) i [] }
    {
        name_of(self.disk.extents(), i)
    }

    /// Returns the `i`th extent file by mutable reference. The disk then reads as the file's new bytes.
    pub fn extra_mut(&mut self, i: usize) -> &mut S
        requires { i < length self.old.files.items }
        ensures* lends { sem 𝓛 (Lends (the_row S.row) S.row self.entry result
            (λ w. record self.entry.now { files = with_item self.entry.now.files i w })) }
        ensures value { result.now ≡ slice_index_or self.old.files.items i result.now }
    {
        &mut self.files[i]
    }

    /// Returns the descriptor's file. The files of the extents are dropped.
    pub fn into_image(self) -> S
        ensures { result ≡ self.image }
    {
        let Vmdk {
            image,
            disk: _disk,
            files: _files,
        } = self;
        image
    }
}

impl<S: Storage> Display for Vmdk<S> {
    ghost output = { λ d. Some (vmdk_text (S.state d.image).shape.filename) };

    fn fmt<W: Write>(&self, f: &mut Formatter<W>) -> fmt::Result {
        match self.image.get_filename() {
            Some(name) => write!(f, "vmdk[{name}]"),
            None => write!(f, "vmdk[]"),
        }
    }
}

impl<S: Storage> DriverModel for Vmdk<S> {
    type State = NoState;

    ghost layer = { λ d. vmdk_layer d.disk.extents.items (S.state d.image) (map S.state d.files.items) };

    ghost image = { λ d. S.state d.image };

    ghost extras = { λ d. map S.state d.files.items };

    ghost coherent = { λ d. ReadsReach d.disk.extents.items (S.state d.image) (map S.state d.files.items) };

    ghost well_formed = { λ d. IsTrue (keep_all (S.state d.image) (map S.state d.files.items))
        × ReadsReach d.disk.extents.items (S.state d.image) (map S.state d.files.items)
        × (descriptor_of (S.state d.image).bytes ≡ Ok (kept_extents d.disk.extents.items)) };

    ghost has_no_dirty_data = { λ _. ⊤ };

    ghost stable = { λ _. ⊤ };

    ghost excess_refcount = { λ _ c. 0 };

    ghost unallocated = { λ d p. ⊤ };

    ghost has_allocation = { λ d p. ⊥ };

    ghost zeroed = { λ d p. ⊤ };

    ghost explicit_zero = { λ d. IsZeroByDescriptor d.disk.extents.items };

    ghost mapping_id = { λ _. 0 };

    ghost tag = { λ _. 0 };

    ghost sound = { λ kind f. ⊤ };

    ghost began = { λ d call now. ⊤ };

    ghost own_cause = { λ d below call fault. ⊥ };

    ghost growth_cause = { λ d below size mode fault. ⊥ };
}

impl<S: Storage> FormatDriverInstance for Vmdk<S> {
    type Storage = S;

    ghost well_formed_is_coherent = { λ d well_formed. well_formed.1 };

    ghost well_formed_is_usable = { λ d well_formed. refl };

    ghost well_formed_keeps_writes = { λ d well_formed. well_formed.0 };

    ghost well_formed_is_sound = { λ d well_formed. covered d.disk.extents.items (S.state d.image) (map S.state d.files.items) well_formed.2 };

    ghost one_writable_location = { λ d p q at well_formed. no_home p q at };

    ghost blanks = { λ d. inr refl };

    ghost aligned = { λ d. aligned_files S.state S.aligned d.image d.files.items };

    ghost of_storages = { λ d. record { requests = refl; memory = refl; keeps = refl; zeroing = refl } };

    ghost marked = { λ d is. absurd (cc is) };

    ghost reports_allocations = { λ d is. absurd (cc is) };

    ghost units = { λ d. le_refl 1 };

    ghost begins = { λ d call. tt };

    ghost free_loose = { λ d free p. refl };

    ghost bare = { λ d p free has. has };

    ghost rooms = { λ d p free states. never states };

    fn image_file(&self) -> &S {
        &self.image
    }

    fn extra_file(&self, index: usize) -> Option<&S> {
        self.files.get(index)
    }

    fn format(&self) -> Format {
        Format::Vmdk
    }

    fn size(&self) -> u64 {
        self.disk.size()
    }

    fn writable(&self) -> bool {
        false
    }

    fn zero_granularity(&self) -> Option<u64> {
        None
    }

    fn req_align(&self) -> usize {
        greatest_req_align(&self.image, &self.files)
    }

    fn mem_align(&self) -> usize {
        greatest_mem_align(&self.image, &self.files)
    }

    fn ready(&self) -> Result<(), Fault> {
        if self.files.len() < self.disk.asked() {
            return Err(Fault::MissingData);
        }
        Ok(())
    }

    fn prepared(&self) -> bool {
        false
    }

    fn failed(&self) -> bool {
        false
    }

    fn mark_failed(&mut self) {}

    fn get_mapping(
        &mut self,
        _alloc: Global,
        offset: u64,
        max_length: u64,
    ) -> Result<(ShallowMapping, u64), Fault>
        ensures run { let d = ⟦<Vmdk<S> as DriverModel>⟧ in IfOk result (λ r. IsRun (d.layer self.old) offset max_length r.0 r.1) }
        ensures looks { let d = ⟦<Vmdk<S> as DriverModel>⟧ in d.coherent self.old → IfOk result (LooksIn d offset max_length self.old self.new) }
        ensures room { let d = ⟦<Vmdk<S> as DriverModel>⟧ in d.coherent self.old → IfOk result (ReportsAllocationIn d offset self.old) }
        ensures explicit_zero { let d = ⟦<Vmdk<S> as DriverModel>⟧ in d.coherent self.old → IfOk result (ReportsExplicitZero (d.explicit_zero self.old) offset) }
        ensures storage_exists { let d = ⟦<Vmdk<S> as DriverModel>⟧ in IfOk result (λ r. IsOneOf (length (files d self.old)) r.0) }
        ensures early_outcome { let d = ⟦<Vmdk<S> as DriverModel>⟧ in EarlyOutcome d (unusable_fault (d.layer self.old)) (max_length ≡ 0) result self.old self.new }
        ensures lookup_call { LookupCall ⟦<Vmdk<S> as DriverModel>⟧ (HadNoResourceError result) self.old self.new }
        ensures stays_begun { let d = ⟦<Vmdk<S> as DriverModel>⟧ in
            OnOk result ((e : _) (call : _) → d.began e call self.old → d.began e call self.new) }
        ensures failed { IfErr result (Fails ⟦<Vmdk<S> as DriverModel>⟧ self.old self.new) }
        ensures marks_failed { IfErr result (MarksFailed ⟦<Vmdk<S> as DriverModel>⟧ self.old self.new) }
        ensures cause { let d = ⟦<Vmdk<S> as DriverModel>⟧ in
            d.coherent self.old → IfErr result (RefusesLookup d offset max_length self.old self.new) }
        // A run ends with the range, the disk or its extent.
        ensures whole { IfOk result (λ r. IsWholeRun self.old.disk.extents.items offset max_length r.1) }
    {
        self.ready()?;
        Ok(self.run_from(offset, max_length))
    }

    fn read_mapped(
        &mut self,
        alloc: Global,
        storage: usize,
        place: u64,
        buf: &mut [u8],
    ) -> Result<(), Fault> {
        self.ready()?;
        self.read(alloc, storage, place, buf)
    }

    fn read_special(&mut self, _buf: &mut [u8], _offset: u64) -> Result<(), Fault> {
        self.ready()?;
        Err(Fault::Barred)
    }

    fn prepare_data_mapping<B: ReadBelow>(
        &mut self,
        _alloc: Global,
        _below: &mut B,
        _offset: u64,
        length: u64,
        _overwrite: bool,
    ) -> Result<PreparedDataMapping<NoState>, Fault> {
        self.check_change(length)?;
        Ok(PreparedDataMapping::existing(0, 0, 0))
    }

    fn commit_data_mapping(
        &mut self,
        _alloc: Global,
        mapping: PreparedDataMapping<NoState>,
    ) -> Result<(), (Fault, Option<PreparedDataMapping<NoState>>)>
        ensures commits { Commits ⟦<Vmdk<S> as DriverModel>⟧ mapping.state result self.old self.new }
        ensures refused { CommitRefused ⟦<Vmdk<S> as DriverModel>⟧ mapping result self.old self.new }
    {
        match self.ready() {
            Ok(()) => {}
            Err(fault) => return Err((fault, Some(mapping))),
        }
        match mapping.into_state() {
            None => Ok(()),
            Some(state) => match state {},
        }
    }

    fn cancel_data_mapping(
        &mut self,
        mapping: PreparedDataMapping<NoState>,
    ) -> Result<(), (Fault, PreparedDataMapping<NoState>)>
        ensures cancels { Cancels ⟦<Vmdk<S> as DriverModel>⟧ mapping result self.old self.new }
    {
        match mapping.into_state() {
            None => Ok(()),
            Some(state) => match state {},
        }
    }

    fn write_mapped(
        &mut self,
        _alloc: Global,
        _guest: u64,
        _place: u64,
        bytes: &[u8],
    ) -> Result<(), Fault> {
        self.check_change(bytes.len() as u64)
    }

    fn ensure_zero_mapping(
        &mut self,
        _alloc: Global,
        offset: u64,
        length: u64,
    ) -> Result<(u64, u64), Fault> {
        self.no_part(offset, length)
    }

    fn discard_to_zero(
        &mut self,
        _alloc: Global,
        offset: u64,
        length: u64,
    ) -> Result<(u64, u64), Fault> {
        self.no_part(offset, length)
    }

    fn discard_to_any(
        &mut self,
        _alloc: Global,
        offset: u64,
        length: u64,
    ) -> Result<(u64, u64), Fault> {
        self.no_part(offset, length)
    }

    fn discard_to_backing(
        &mut self,
        _alloc: Global,
        offset: u64,
        length: u64,
    ) -> Result<(u64, u64), Fault> {
        self.no_part(offset, length)
    }

    fn flush(&mut self, _alloc: Global) -> Result<(), Fault> {
        self.keep(Upkeep::Flush)
    }

    fn sync(&mut self) -> Result<(), Fault> {
        self.keep(Upkeep::Sync)
    }

    fn invalidate_cache(&mut self, _alloc: Global) -> Result<(), Fault> {
        self.keep(Upkeep::Invalidate)
    }

    fn resize_grow<B: ReadBelow>(
        &mut self,
        _alloc: Global,
        _below: &mut B,
        size: u64,
        _mode: PreallocateMode,
    ) -> Result<(), Fault> {
        self.check_change(size.saturating_sub(self.disk.size()))
    }

    fn resize_shrink(&mut self, _alloc: Global, size: u64) -> Result<(), Fault> {
        self.check_change(self.disk.size().saturating_sub(size))
    }
}

impl<S: Storage> ReadFiles for Vmdk<S> {
    fn read_file(
        &mut self,
        alloc: Global,
        file: usize,
        offset: u64,
        buf: &mut [u8],
    ) -> Result<(), Fault> {
        self.read(alloc, file, offset, buf)
    }
}
