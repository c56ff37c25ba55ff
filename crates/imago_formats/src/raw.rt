// The driver of raw images: the guest disk is the bytes of the storage. Definitions: specs/RawLayer.antt and specs/Growing.antt.
ghost use Rattle.std.specs.Prelude.{◌≡◌, min, ◌-◌, ◌+◌, ◌≤◌, ◌<◌, ◌^◌, [], ⊤, refl, length, replicate, ◌⊎◌, OnOk, IfOk, IfErr, IsErr, IsSome, IsTrue, None, Some, true};
ghost use Rattle.std.proofs.Common.{inr};
ghost use Rattle.std.proofs.Math.Nat.{le_refl};
ghost use Rattle.imago_storage.specs.Calls.{OldOrNewBytes, CountsNotFallen, Resized};
ghost use Rattle.imago_storage.specs.Through.{WriteSucceeded, WriteFailed, EachCrashImage, CrashImagesNoShorter};
ghost use Rattle.imago_storage.specs.declared.fault.Fault.{Fault};
ghost use Rattle.imago_storage.specs.declared.fault.Fault.TheVariants.{ReadOnly, Unsupported};
ghost use Rattle.imago_access.specs.Files.{HadNoResourceError, files};
ghost use Rattle.imago_access.specs.Going.{EarlyOutcome, RangeEarlyOutcome, LookupCall, LookupCallBelow, MarksFailed};
ghost use Rattle.imago_access.specs.PartCalls.{IsPart, DoesPart, PartCall, PartRefused, ensures_zero, discards_to_zero, discards_to_any, discards_to_backing};
ghost use Rattle.imago_access.specs.Changes.{Rewrites, ToZero, asking};
ghost use Rattle.imago_access.specs.Layer.{IsFree};
ghost use Rattle.imago_access.specs.Refusals.{own_refusal, unusable_fault};
ghost use Rattle.imago_access.specs.declared.mapping.ShallowMapping.TheVariants as shallow;
ghost use Rattle.imago_access.specs.Mappings.{IsMappedRun, IsOneOf, IsRun, LooksIn, ReportsAllocationIn, ReportsExplicitZero};
ghost use Rattle.imago_access.specs.Failing.{Fails, RefusesLookup};
ghost use Rattle.imago_access.specs.PreparingCalls.{IsHeldBy, Prepares, Commits, CommitRefused, Cancels, nowhere};
ghost use Rattle.imago_access.specs.ResizeCalls.{Resizes, Grows, GrowthRefused, IsUngrown, Shrinks, ShrinkRefused};
ghost use Rattle.imago_access.specs.Resizes as Resizes;
ghost use Rattle.imago_access.specs.Chain.{at};
ghost use Rattle.std.specs.Borrow.{Lends, sem};
ghost use Rattle.imago_formats.specs.contracts.raw.Raw.{the_row};
ghost use Rattle.imago_formats.specs.RawLayer.{raw_layer, raw_text, RawCause};
ghost use Rattle.imago_formats.specs.RawHome.{one_writable_location, never};
ghost use Rattle.imago_formats.specs.Growing.{CutTo, GrownTo, NotCut, NotLengthened};

use imago_access::{
    DriverModel, Format, FormatDriverInstance, PreallocateMode, PreparedDataMapping, ReadBelow,
    ReadFiles, ShallowMapping, check_range,
};
use imago_storage::{
    Fault, PreallocateMode as StorageMode, Storage, StorageExt, larger_alignment, write_full_zeroes,
};
use std::alloc::Global;
use std::fmt::{self, Display, Formatter, Write};

/// The state of a prepared mapping (a run that is written before it is committed). A raw image has nothing to commit, so this type has no
/// value.
#[derive(Drop)]
pub enum NoState {}

/// A raw image: each byte of the disk is the byte of the storage at the same offset.
///
/// The size of the image in bytes is that of the storage when it was opened, or that of the last resize. It never exceeds the storage's
/// length, which padding of writes may increase. The image has one storage, with the number 0. Within the disk a lookup always reports
/// bytes of the storage, never zeroes.
///
/// No error sets the driver to failed, so the image can still be used after an error. It has no other files, and reads from no backing
/// file: `discard_to_backing` zeroes. Each successful zeroing or discard covers its whole range. For the five preallocation modes in their
/// order, `resize_grow` grows the storage in the mode `None`, `Zero`, `Zero`, `Allocate` or `WriteData`. Both resizes fail with
/// `Fault::Unsupported` if the storage doesn't support them. A failed resize doesn't change the size, even after a fault of the storage.
#[derive(Drop)]
pub struct Raw<S> {
    storage: S,
    size: u64,
    writable: bool,
}

impl<S: Storage> Raw<S> {
    /// Opens a storage as a raw image, read-only or for writing.
    pub fn open_image(storage: S, writable: bool) -> Self
        ensures layer { ⟦<Raw<S> as DriverModel>⟧.layer result ≡ raw_layer (S.state storage) (length (S.state storage).bytes) writable }
        ensures well_formed { IsTrue (S.state storage).shape.keeps → ⟦<Raw<S> as DriverModel>⟧.well_formed result }
        ensures stable { ⟦<Raw<S> as DriverModel>⟧.stable result }
        ensures storage { result.storage ≡ storage }
    {
        let size = storage.size();
        Raw {
            storage,
            size,
            writable,
        }
    }
}

impl<S> Raw<S> {
    /// Returns true, because any storage can be a raw image.
    pub fn probe(_image: &mut S) -> Result<bool, Fault>
        ensures value { result ≡ Ok true }
        ensures same { _image.new ≡ _image.old }
    {
        Ok(true)
    }

    /// Returns the storage.
    pub fn image(&self) -> &S
        ensures { result.now ≡ self.now.storage }
    {
        &self.storage
    }

    /// Returns the storage by mutable reference.
    ///
    /// The image keeps its size, and its disk then reads as the storage's new bytes. The caller must leave the storage at least as long as
    /// the disk. Otherwise the driver's invariant is broken.
    pub fn image_mut(&mut self) -> &mut S
        ensures* lends { sem 𝓛 (Lends (the_row S.row) S.row self.entry result (λ w. record self.entry.now { storage = w })) }
        ensures value { result.now ≡ self.old.storage }
    {
        &mut self.storage
    }

    /// Returns the number of extra files, which is 0.
    pub fn extras(&self) -> usize
        ensures { result ≡ 0 }
    {
        0
    }

    /// Returns the name of an extra file. There is no extra file, so the name is empty.
    pub fn extra_name(&self, _i: usize) -> &str
        ensures { result.now ≡ [] }
    {
        ""
    }

    /// Consumes the image and returns the storage. A raw image has no dirty data in memory.
    pub fn into_image(self) -> S
        ensures { result ≡ self.storage }
    {
        let Raw {
            storage,
            size: _size,
            writable: _writable,
        } = self;
        storage
    }
}

impl<S: Storage> Display for Raw<S> {
    ghost output = { λ r. Some (raw_text (S.state r.storage).shape.filename) };

    fn fmt<W: Write>(&self, f: &mut Formatter<W>) -> fmt::Result {
        match self.storage.get_filename() {
            Some(name) => write!(f, "raw[{name}]"),
            None => write!(f, "raw[]"),
        }
    }
}

impl<S: Storage> Raw<S> {
    // Checks that a change of a nonempty range may begin, and returns the first early error otherwise.
    fn check_change(&self, offset: u64, length: u64) -> Result<(), Fault>
        requires { 0 < length }
        ensures ok { let d = ⟦<Raw<S> as DriverModel>⟧ in OnOk result (own_refusal (d.layer self.now) offset length ≡ None) }
        ensures inside { OnOk result (offset + length ≤ self.now.size) }
        ensures fits { OnOk result (offset + length < 2 ^ 64) }
        ensures err { let d = ⟦<Raw<S> as DriverModel>⟧ in IfErr result (λ e. own_refusal (d.layer self.now) offset length ≡ Some e) }
    {
        let unit = larger_alignment(self.storage.req_align(), self.storage.mem_align());
        check_range(self.writable, unit as u64, self.size, offset, length)
    }

    // Zeroes a range of the disk.
    fn zero(
        &mut self,
        alloc: Global,
        zeroes: Zeroes,
        offset: u64,
        length: u64,
    ) -> Result<(u64, u64), Fault>
        ensures all { IfOk result (λ r. r ≡ (offset, length)) }
        ensures does { DoesPart ensures_zero ⟦<Raw<S> as DriverModel>⟧ offset length result self.old self.new }
        ensures early_outcome { RangeEarlyOutcome ⟦<Raw<S> as DriverModel>⟧ offset length result self.old self.new }
        ensures refused { (call : PartCall) → PartRefused call ⟦<Raw<S> as DriverModel>⟧ offset length result self.old self.new }
    {
        if length == 0 {
            return Ok((offset, 0));
        }
        self.check_change(offset, length)?;
        zero_range(&mut self.storage, alloc, zeroes, offset, length)?;
        Ok((offset, length))
    }
}

impl<S: Storage> Raw<S> {
    // Returns the run from `offset` on: the part of the range that is inside the disk.
    fn run_from(&self, offset: u64, max_length: u64) -> (ShallowMapping, u64)
        ensures end { self.now.size ≤ offset → result ≡ (shallow.Eof, 0) }
        ensures run { offset < self.now.size → result ≡ (shallow.Raw 0 offset self.now.writable, min max_length (self.now.size - offset)) }
    {
        if offset >= self.size {
            return (ShallowMapping::Eof, 0);
        }
        let mapping = ShallowMapping::Raw {
            storage: 0,
            offset,
            writable: self.writable,
        };
        (mapping, max_length.min(self.size - offset))
    }

    // Makes the disk longer, and its storage as long. On error the size is unchanged, and the storage is at least as long as the disk.
    fn grow_to(&mut self, size: u64, mode: StorageMode) -> Result<(), Fault>
        requires { self.old.size ≤ size }
        ensures ok { OnOk result (GrownTo (S.state self.old.storage) (S.state self.new.storage) self.old.size size) }
        ensures size { OnOk result (self.new.size ≡ size) }
        ensures err { IfErr result (NotLengthened (S.state self.old.storage) (S.state self.new.storage) self.old.size) }
        ensures same_size_on_error { IfErr result (λ e. self.new.size ≡ self.old.size) }
        ensures shape { (S.state self.new.storage).shape ≡ (S.state self.old.storage).shape }
        ensures counts_not_fallen { CountsNotFallen (S.state self.old.storage) (S.state self.new.storage) }
        ensures writable { self.new.writable ≡ self.old.writable }
    {
        grow_storage(&mut self.storage, self.size, size, mode)?;
        self.size = size;
        Ok(())
    }

    // Makes the disk shorter, and its storage as short. On error the size and all bytes are unchanged.
    fn shrink_to(&mut self, size: u64) -> Result<(), Fault>
        ensures ok { OnOk result (Resized (S.state self.old.storage) (S.state self.new.storage) size) }
        ensures size { OnOk result (self.new.size ≡ size) }
        ensures err { IfErr result (NotCut (S.state self.old.storage) (S.state self.new.storage)) }
        ensures same_size_on_error { IfErr result (λ e. self.new.size ≡ self.old.size) }
        ensures shape { (S.state self.new.storage).shape ≡ (S.state self.old.storage).shape }
        ensures counts_not_fallen { CountsNotFallen (S.state self.old.storage) (S.state self.new.storage) }
        ensures writable { self.new.writable ≡ self.old.writable }
    {
        self.storage.resize(size, StorageMode::None)?;
        self.size = size;
        Ok(())
    }
}

// The allocation of a range after it is zeroed.
#[derive(Clone, Copy, Drop)]
enum Zeroes {
    // The storage may deallocate the range.
    GivenUp,
    // The range stays allocated.
    Allocated,
}

// Zeroes a range of a storage. If the storage doesn't support zeroing, the zeroes are written.
fn zero_range<S: Storage>(
    storage: &mut S,
    alloc: Global,
    zeroes: Zeroes,
    offset: u64,
    length: u64,
) -> Result<(), Fault>
    ensures ok { OnOk result (WriteSucceeded (S.state storage.old) (S.state storage.new) offset (replicate length 0)) }
    ensures err { IfErr result (WriteFailed (S.state storage.old) (S.state storage.new) offset (replicate length 0)) }
    ensures shape { (S.state storage.new).shape ≡ (S.state storage.old).shape }
    ensures counts_not_fallen { CountsNotFallen (S.state storage.old) (S.state storage.new) }
    ensures crash_images { EachCrashImage (OldOrNewBytes (S.state storage.old).bytes offset (replicate length 0)) (S.state storage.old) (S.state storage.new) }
    ensures as_long { CrashImagesNoShorter (S.state storage.old) (S.state storage.new) }
{
    match zeroes {
        Zeroes::GivenUp => storage.write_zeroes(alloc, offset, length),
        Zeroes::Allocated => match storage.write_allocated_zeroes(alloc, offset, length) {
            Ok(()) => Ok(()),
            Err(fault) => match fault {
                Fault::Unsupported => write_full_zeroes(storage, alloc, offset, length),
                _ => Err(fault),
            },
        },
    }
}

impl<S: Storage> DriverModel for Raw<S> {
    type State = NoState;

    ghost layer = { λ r. raw_layer (S.state r.storage) r.size r.writable };

    ghost image = { λ r. S.state r.storage };

    ghost extras = { λ _. [] };

    ghost coherent = { λ _. ⊤ };

    ghost well_formed = { λ r. IsTrue (S.state r.storage).shape.keeps × (r.size ≤ length (S.state r.storage).bytes) };

    ghost has_no_dirty_data = { λ _. ⊤ };

    ghost stable = { λ r. r.size ≤ length (S.state r.storage).bytes };

    ghost excess_refcount = { λ _ c. 0 };

    ghost unallocated = { λ d p. ⊤ };

    ghost has_allocation = { λ d p. ⊥ };

    ghost zeroed = { λ d p. ⊤ };

    ghost explicit_zero = { λ d p. ⊥ };

    ghost mapping_id = { λ _. 0 };

    ghost tag = { λ _. 0 };

    ghost sound = { λ kind f. ⊤ };

    ghost began = { λ d call now. ⊤ };

    ghost own_cause = { λ d below call fault. RawCause call fault };

    ghost growth_cause = { λ d below size mode fault. fault ≡ Unsupported };
}

impl<S: Storage> FormatDriverInstance for Raw<S> {
    type Storage = S;

    ghost well_formed_is_coherent = { λ d well_formed. tt };

    ghost well_formed_is_usable = { λ d well_formed. refl };

    ghost well_formed_keeps_writes = { λ d well_formed. well_formed.0 };

    ghost well_formed_is_sound = { λ d well_formed. record { is_sound = tt; size = well_formed.1 } };

    ghost one_writable_location = { λ d p q at well_formed. one_writable_location d.size d.writable p q at };

    ghost blanks = { λ d. inr refl };

    ghost aligned = { λ d. let shape = S.aligned d.storage in (shape.requests, shape.memory) };

    ghost of_storages = { λ d. record { requests = refl; memory = refl; keeps = refl; zeroing = refl } };

    ghost marked = { λ d is. absurd (cc is) };

    ghost reports_allocations = { λ d is. absurd (cc is) };

    ghost units = { λ d. le_refl 1 };

    ghost begins = { λ d call. tt };

    ghost free_loose = { λ d free p. refl };

    ghost bare = { λ d p free has. has };

    ghost rooms = { λ d p free states. never states };

    fn image_file(&self) -> &S {
        &self.storage
    }

    fn extra_file(&self, _index: usize) -> Option<&S> {
        None
    }

    fn format(&self) -> Format {
        Format::Raw
    }

    fn size(&self) -> u64 {
        self.size
    }

    fn writable(&self) -> bool {
        self.writable
    }

    fn zero_granularity(&self) -> Option<u64> {
        Some(
            self.storage
                .req_align()
                .max(self.storage.mem_align())
                .max(self.storage.zero_align()) as u64,
        )
    }

    fn req_align(&self) -> usize {
        self.storage.req_align()
    }

    fn mem_align(&self) -> usize {
        self.storage.mem_align()
    }

    fn ready(&self) -> Result<(), Fault> {
        Ok(())
    }

    fn prepared(&self) -> bool {
        false
    }

    fn failed(&self) -> bool {
        false
    }

    fn mark_failed(&mut self) {}

    fn get_mapping(
        &mut self,
        _alloc: Global,
        offset: u64,
        max_length: u64,
    ) -> Result<(ShallowMapping, u64), Fault>
        ensures run { let d = ⟦<Raw<S> as DriverModel>⟧ in IfOk result (λ r. IsRun (d.layer self.old) offset max_length r.0 r.1) }
        ensures looks { let d = ⟦<Raw<S> as DriverModel>⟧ in d.coherent self.old → IfOk result (LooksIn d offset max_length self.old self.new) }
        ensures room { let d = ⟦<Raw<S> as DriverModel>⟧ in d.coherent self.old → IfOk result (ReportsAllocationIn d offset self.old) }
        ensures explicit_zero { let d = ⟦<Raw<S> as DriverModel>⟧ in d.coherent self.old → IfOk result (ReportsExplicitZero (d.explicit_zero self.old) offset) }
        ensures early_outcome { let d = ⟦<Raw<S> as DriverModel>⟧ in EarlyOutcome d (unusable_fault (d.layer self.old)) (max_length ≡ 0) result self.old self.new }
        ensures lookup_call { let d = ⟦<Raw<S> as DriverModel>⟧ in LookupCall d (HadNoResourceError result) self.old self.new }
        ensures storage_exists { let d = ⟦<Raw<S> as DriverModel>⟧ in IfOk result (λ r. IsOneOf (length (files d self.old)) r.0) }
        ensures stays_begun { let d = ⟦<Raw<S> as DriverModel>⟧ in OnOk result ((e : _) (call : _) → d.began e call self.old → d.began e call self.new) }
        ensures failed { let d = ⟦<Raw<S> as DriverModel>⟧ in IfErr result (Fails d self.old self.new) }
        ensures marks_failed { let d = ⟦<Raw<S> as DriverModel>⟧ in IfErr result (MarksFailed d self.old self.new) }
        ensures cause { let d = ⟦<Raw<S> as DriverModel>⟧ in d.coherent self.old → IfErr result (RefusesLookup d offset max_length self.old self.new) }
        // The part of the range inside the disk is one run.
        ensures whole { offset < self.old.size → IfOk result (λ r. r.1 ≡ min max_length (self.old.size - offset)) }
    {
        Ok(self.run_from(offset, max_length))
    }

    fn read_mapped(
        &mut self,
        alloc: Global,
        storage: usize,
        place: u64,
        buf: &mut [u8],
    ) -> Result<(), Fault> {
        if storage != 0 {
            buf.fill(0);
            return Ok(());
        }
        self.storage.read(alloc, buf, place)
    }

    fn read_special(&mut self, _buf: &mut [u8], _offset: u64) -> Result<(), Fault> {
        Err(Fault::Barred)
    }

    fn prepare_data_mapping<B: ReadBelow>(
        &mut self,
        _alloc: Global,
        _below: &mut B,
        offset: u64,
        length: u64,
        _overwrite: bool,
    ) -> Result<PreparedDataMapping<NoState>, Fault>
        ensures run { let d = ⟦<Raw<S> as DriverModel>⟧ in
            IfOk result (λ m. IsMappedRun (d.layer self.old) offset length m.length × (m.offset + m.length < 2 ^ 64)) }
        ensures mine { let d = ⟦<Raw<S> as DriverModel>⟧ in IfOk result (λ m. IsHeldBy d m.state (d.layer self.new)) }
        ensures empty { let d = ⟦<Raw<S> as DriverModel>⟧ in
            length ≡ 0 → IfOk result (λ m. (m ≡ nowhere) × (d.layer self.new ≡ d.layer self.old)) }
        ensures size { let d = ⟦<Raw<S> as DriverModel>⟧ in (d.layer self.new).size ≡ (d.layer self.old).size }
        ensures free { IsErr result → IsFree (⟦<Raw<S> as DriverModel>⟧.layer self.new) }
        ensures does { let d = ⟦<Raw<S> as DriverModel>⟧ in
            Prepares d B.LayersBelowModel (asking offset length _overwrite) result (self.old, _below.old) (self.new, _below.new) }
        ensures below { LookupCallBelow B.LayersBelowModel (HadNoResourceError result) _below.old _below.new }
        ensures early_outcome { RangeEarlyOutcome ⟦<Raw<S> as DriverModel>⟧ offset length result self.old self.new }
        ensures unread { let d = ⟦<Raw<S> as DriverModel>⟧ in
            (length ≡ 0) ⊎ IsSome (own_refusal (d.layer self.old) offset length) → _below.new ≡ _below.old }
        // The whole range is mapped.
        ensures whole { IfOk result (λ m. m.length ≡ length) }
    {
        if length == 0 {
            return Ok(PreparedDataMapping::existing(0, 0, 0));
        }
        self.check_change(offset, length)?;
        Ok(PreparedDataMapping::existing(0, offset, length))
    }

    fn commit_data_mapping(
        &mut self,
        _alloc: Global,
        mapping: PreparedDataMapping<NoState>,
    ) -> Result<(), (Fault, Option<PreparedDataMapping<NoState>>)>
        ensures commits { Commits ⟦<Raw<S> as DriverModel>⟧ mapping.state result self.old self.new }
        ensures refused { CommitRefused ⟦<Raw<S> as DriverModel>⟧ mapping result self.old self.new }
    {
        match mapping.into_state() {
            None => Ok(()),
            Some(state) => match state {},
        }
    }

    fn cancel_data_mapping(
        &mut self,
        mapping: PreparedDataMapping<NoState>,
    ) -> Result<(), (Fault, PreparedDataMapping<NoState>)>
        ensures cancels { Cancels ⟦<Raw<S> as DriverModel>⟧ mapping result self.old self.new }
    {
        match mapping.into_state() {
            None => Ok(()),
            Some(state) => match state {},
        }
    }

    fn write_mapped(
        &mut self,
        alloc: Global,
        guest: u64,
        place: u64,
        bytes: &[u8],
    ) -> Result<(), Fault> {
        let length = bytes.len() as u64;
        if length == 0 {
            return Ok(());
        }
        self.check_change(guest, length)?;
        if guest != place {
            return Err(Fault::Outdated);
        }
        match self.storage.write(alloc, bytes, guest) {
            Ok(()) => Ok(()),
            Err(fault) => Err(fault),
        }
    }

    fn ensure_zero_mapping(
        &mut self,
        alloc: Global,
        offset: u64,
        length: u64,
    ) -> Result<(u64, u64), Fault>
        ensures part { IfOk result (IsPart offset length) }
        ensures does { DoesPart ensures_zero ⟦<Raw<S> as DriverModel>⟧ offset length result self.old self.new }
        ensures early_outcome { RangeEarlyOutcome ⟦<Raw<S> as DriverModel>⟧ offset length result self.old self.new }
        ensures refused { PartRefused ensures_zero ⟦<Raw<S> as DriverModel>⟧ offset length result self.old self.new }
        // The whole range is zeroed.
        ensures whole { IfOk result (λ r. r ≡ (offset, length)) }
    {
        self.zero(alloc, Zeroes::Allocated, offset, length)
    }

    fn discard_to_zero(
        &mut self,
        alloc: Global,
        offset: u64,
        length: u64,
    ) -> Result<(u64, u64), Fault>
        ensures part { IfOk result (IsPart offset length) }
        ensures does { DoesPart discards_to_zero ⟦<Raw<S> as DriverModel>⟧ offset length result self.old self.new }
        ensures early_outcome { RangeEarlyOutcome ⟦<Raw<S> as DriverModel>⟧ offset length result self.old self.new }
        ensures refused { PartRefused discards_to_zero ⟦<Raw<S> as DriverModel>⟧ offset length result self.old self.new }
        // The whole range is zeroed.
        ensures whole { IfOk result (λ r. r ≡ (offset, length)) }
    {
        self.zero(alloc, Zeroes::GivenUp, offset, length)
    }

    fn discard_to_any(
        &mut self,
        _alloc: Global,
        offset: u64,
        length: u64,
    ) -> Result<(u64, u64), Fault>
        ensures part { IfOk result (IsPart offset length) }
        ensures does { DoesPart discards_to_any ⟦<Raw<S> as DriverModel>⟧ offset length result self.old self.new }
        ensures early_outcome { RangeEarlyOutcome ⟦<Raw<S> as DriverModel>⟧ offset length result self.old self.new }
        ensures refused { PartRefused discards_to_any ⟦<Raw<S> as DriverModel>⟧ offset length result self.old self.new }
        // The whole range is discarded.
        ensures whole { IfOk result (λ r. r ≡ (offset, length)) }
    {
        if length == 0 {
            return Ok((offset, 0));
        }
        self.check_change(offset, length)?;
        match self.storage.discard(offset, length) {
            Ok(()) => {
                // Discarded data is still a list of bytes, by the contract of `size`.
                let _bytes = self.storage.size();
                Ok((offset, length))
            }
            Err(fault) => Err(fault),
        }
    }

    fn discard_to_backing(
        &mut self,
        alloc: Global,
        offset: u64,
        length: u64,
    ) -> Result<(u64, u64), Fault>
        ensures part { IfOk result (IsPart offset length) }
        ensures does { DoesPart discards_to_backing ⟦<Raw<S> as DriverModel>⟧ offset length result self.old self.new }
        ensures early_outcome { RangeEarlyOutcome ⟦<Raw<S> as DriverModel>⟧ offset length result self.old self.new }
        ensures refused { PartRefused discards_to_backing ⟦<Raw<S> as DriverModel>⟧ offset length result self.old self.new }
        // The whole range is discarded, and then reads as 0.
        ensures whole { IfOk result (λ r. r ≡ (offset, length)) }
        ensures zeroed { let d = ⟦<Raw<S> as DriverModel>⟧ in
            d.well_formed self.old → OnOk result (Rewrites ToZero (d.layer self.old) (d.layer self.new) offset length) }
    {
        self.zero(alloc, Zeroes::GivenUp, offset, length)
    }

    fn flush(&mut self, _alloc: Global) -> Result<(), Fault> {
        self.storage.flush()
    }

    fn sync(&mut self) -> Result<(), Fault> {
        self.storage.sync()
    }

    fn invalidate_cache(&mut self, _alloc: Global) -> Result<(), Fault> {
        self.storage.invalidate_cache()
    }

    fn resize_grow<B: ReadBelow>(
        &mut self,
        _alloc: Global,
        _below: &mut B,
        size: u64,
        mode: PreallocateMode,
    ) -> Result<(), Fault>
        ensures resizes { let d = ⟦<Raw<S> as DriverModel>⟧ in Resizes d size (d.layer self.old).size result self.old self.new }
        ensures grows { Grows ⟦<Raw<S> as DriverModel>⟧ B.LayersBelowModel size mode result (self.old, _below.old) (self.new, _below.new) }
        ensures unread { let d = ⟦<Raw<S> as DriverModel>⟧ in IsUngrown (d.layer self.old) size → _below.new ≡ _below.old }
        ensures below { LookupCallBelow B.LayersBelowModel (HadNoResourceError result) _below.old _below.new }
        ensures refused { GrowthRefused ⟦<Raw<S> as DriverModel>⟧ B.LayersBelowModel size mode result (self.old, _below.old) (self.new, _below.new) }
        // On success the storage is as long as the disk. On error the size is unchanged, and the storage is at least as long as the disk.
        ensures exact { self.old.size < size → OnOk result ((length (S.state self.new.storage).bytes ≡ size) × (self.new.size ≡ size)) }
        ensures same_size_on_error { IfErr result (λ e. self.new.size ≡ self.old.size) }
        ensures within { let d = ⟦<Raw<S> as DriverModel>⟧ in d.well_formed self.old → d.well_formed self.new }
    {
        if size <= self.size {
            return Ok(());
        }
        if !self.writable {
            return Err(Fault::ReadOnly);
        }
        self.grow_to(size, storage_mode(mode))?;
        Ok(())
    }

    fn resize_shrink(&mut self, _alloc: Global, size: u64) -> Result<(), Fault>
        ensures resizes { let d = ⟦<Raw<S> as DriverModel>⟧ in Resizes d (d.layer self.old).size size result self.old self.new }
        ensures shrinks { Shrinks ⟦<Raw<S> as DriverModel>⟧ size result self.old self.new }
        ensures refused { ShrinkRefused ⟦<Raw<S> as DriverModel>⟧ size result self.old self.new }
        // On success the storage is as long as the disk. On error the size is unchanged, and the storage is at least as long as the disk.
        ensures exact { size < self.old.size → OnOk result ((length (S.state self.new.storage).bytes ≡ size) × (self.new.size ≡ size)) }
        ensures same_size_on_error { IfErr result (λ e. self.new.size ≡ self.old.size) }
        ensures within { let d = ⟦<Raw<S> as DriverModel>⟧ in d.well_formed self.old → d.well_formed self.new }
    {
        if size >= self.size {
            return Ok(());
        }
        if !self.writable {
            return Err(Fault::ReadOnly);
        }
        self.shrink_to(size)?;
        Ok(())
    }
}

impl<S: Storage> ReadFiles for Raw<S> {
    fn read_file(
        &mut self,
        alloc: Global,
        file: usize,
        offset: u64,
        buf: &mut [u8],
    ) -> Result<(), Fault> {
        if file == 0 {
            return self.storage.read(alloc, buf, offset);
        }
        buf.fill(0);
        Ok(())
    }
}

// Truncates a storage to `from` bytes.
fn cut_storage<S: Storage>(storage: &mut S, from: u64) -> Result<(), Fault>
    ensures ok { OnOk result (CutTo (S.state storage.old) (S.state storage.new) from) }
    ensures err { IfErr result (NotLengthened (S.state storage.old) (S.state storage.new) from) }
    ensures shape { (S.state storage.new).shape ≡ (S.state storage.old).shape }
    ensures counts_not_fallen { CountsNotFallen (S.state storage.old) (S.state storage.new) }
{
    if storage.size() == from {
        return Ok(());
    }
    storage.resize(from, StorageMode::None)
}

// Makes a storage longer. The bytes after `from` were written as padding. They are truncated first, so that all new bytes are 0.
pub(crate) fn grow_storage<S: Storage>(
    storage: &mut S,
    from: u64,
    to: u64,
    mode: StorageMode,
) -> Result<(), Fault>
    requires { from ≤ to }
    ensures ok { OnOk result (GrownTo (S.state storage.old) (S.state storage.new) from to) }
    ensures err { IfErr result (NotLengthened (S.state storage.old) (S.state storage.new) from) }
    ensures shape { (S.state storage.new).shape ≡ (S.state storage.old).shape }
    ensures counts_not_fallen { CountsNotFallen (S.state storage.old) (S.state storage.new) }
{
    cut_storage(storage, from)?;
    storage.resize(to, mode)
}

// Returns the mode in which the storage grows, for a mode of the image's growth.
pub(crate) fn storage_mode(mode: PreallocateMode) -> StorageMode {
    match mode {
        PreallocateMode::None => StorageMode::None,
        PreallocateMode::Zero | PreallocateMode::FormatAllocate => StorageMode::Zero,
        PreallocateMode::FullAllocate => StorageMode::Allocate,
        PreallocateMode::WriteData => StorageMode::WriteData,
    }
}
