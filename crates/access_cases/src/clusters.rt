// A small driver for test scripts: an image with a single cluster, stored in one file. The file is empty and nothing is mapped until the
// first prepared mapping (a run that is written and not yet committed) is committed. From then on, each byte of the disk is at the same
// offset of the file. An image may instead report that all of its bytes are 0 or can't be read. Such an image can't be changed.
ghost use Rattle.std.specs.Prelude.{◌≡◌, ◌⊎◌, ◌+◌, ◌≤◌, ◌<◌, [], ⊤, refl, ℕ, List, length, slice_index, slice_index_or, map, replicate, OnOk, IfOk, IfErr, IsTrue, IsOk, None, Some, true, false, if◌then◌else◌};
ghost use Rattle.std.specs.Option.{unwrap_or};
ghost use Rattle.std.proofs.Common.{inl, inr};
ghost use Rattle.std.proofs.Math.Nat.{le_refl};
ghost use Rattle.imago_storage.specs.State.{StorageState};
ghost use Rattle.imago_storage.specs.Steps.{Call, IsOut};
ghost use Rattle.imago_storage.specs.declared.fault.Fault.{Fault};
ghost use Rattle.imago_storage.specs.declared.fault.Fault.TheVariants.{Unsupported};
ghost use Rattle.imago_storage.specs.declared.fault.Fault.TheVariants as fault;
ghost use Rattle.imago_access.specs.Layer.{Layer, IsFree, loose};
ghost use Rattle.imago_access.specs.Changes.{Committed};
ghost use Rattle.imago_access.specs.Failing.{Fails};
ghost use Rattle.imago_access.specs.Files.{IsNotResourceError, HadNoResourceError, ImageCause};
ghost use Rattle.imago_access.specs.Going.{EarlyOutcome, MutatingCall};
ghost use Rattle.imago_access.specs.PartCalls.{PartCall, DoesPart, PartRefused};
ghost use Rattle.imago_access.specs.Room.{Takes};
ghost use Rattle.imago_access.specs.PreparingCalls.{Commits, CommitRefused, Cancels, WritesMapped, WritingRefused};
ghost use Rattle.imago_access.specs.Spending.{commit_refusal, IsSpending, GivenBack};
ghost use Rattle.imago_access.specs.Stops.{KeepsCrashImages, GivesSettled};
ghost use Rattle.imago_access.specs.Refusals.{own_refusal};
ghost use Rattle.imago_access.specs.Parts.{PartCause};
ghost use Rattle.access_cases.specs.Clusters.{cluster_layer, cluster_cause, failed_by, IsBare, HasRoom, IsWellFormed};
ghost use Rattle.access_cases.specs.Homes.{one_writable_location, free_loose, blanks, not_both, bare_homeless, housed_room, some_cluster};
ghost use Rattle.access_cases.specs.declared.clusters.Content.TheVariants as content;

use imago_access::{
    DriverModel, Format, FormatDriverInstance, PreallocateMode, PreparedDataMapping, ReadBelow,
    ShallowMapping, check_commit, check_range,
};
use imago_storage::{Fault, Storage, StorageExt, larger_alignment};
use std::alloc::{AllocError, Global};

/// The state of a prepared mapping (a run that is written and not yet committed). The image uses it to recognise the mapping.
#[derive(Clone, Copy, Drop)]
pub struct PreparedCluster {
    /// The number of the image.
    pub image: u64,
    /// The number of the mapping within the image.
    pub mapping_id: u64,
}

/// A run that is prepared and not yet committed.
#[derive(Drop)]
pub struct PreparedRun {
    /// The number of the mapping.
    pub mapping_id: u64,
    /// The offsets that can be written: from `start` up to `end`, without `end`.
    pub start: u64,
    pub end: u64,
    /// True if the caller promised to write the whole run.
    pub overwrite: bool,
    /// The byte that was written at each offset of the disk, if any.
    pub written: Vec<Option<u8>>,
}

impl PreparedRun {
    // Returns true if a range of offsets can be written.
    fn takes(&self, start: u64, end: u64) -> bool
        ensures yes { IsTrue result → (self.now.start ≤ start) × (end ≤ self.now.end) × (end ≤ length self.now.written.items) }
        ensures no { result ≡ false → (start < self.now.start) ⊎ ((self.now.end < end) ⊎ (length self.now.written.items < end)) }
    {
        self.start <= start && end <= self.end && end <= self.written.len() as u64
    }
}

/// The content of an image.
#[derive(Drop)]
pub enum Content {
    Unmapped,
    // The image itself maps each byte as 0.
    Zeroed,
    // No byte can be read.
    Barred,
    Prepared(PreparedRun),
    // All bytes of the disk are those of the file.
    Mapped,
}

/// An image with a single cluster, over a file.
#[derive(Drop)]
pub struct OneCluster<S> {
    /// The file that stores the cluster.
    pub file: S,
    /// The size of the disk, in bytes.
    pub size: u64,
    /// A number that no other open image has.
    pub number: u64,
    /// True if the image was opened for writing.
    pub writable: bool,
    /// True if bytes that the image has no data for are read from the layer below (the backing file).
    pub backed: bool,
    /// True if a writable image reports that bytes of the layer below can be written in place in that layer.
    pub through: bool,
    /// True if a read, a write or the commit of a run has ended with a resource error (`Fault::Memory`, `Fault::Storage`). A case can also
    /// set it.
    pub failed: bool,
    /// True if a file that the image needs wasn't passed in.
    pub missing: bool,
    /// The number of commits that failed with a storage fault of the file.
    pub faults: u64,
    /// The number of mappings that the image has prepared.
    pub claims: u64,
    /// The number of lookups that the image has answered.
    pub lookups: u64,
    /// The content of the image.
    pub content: Content,
}

// Returns `size` offsets at which nothing was written.
fn unwritten(alloc: Global, size: u64) -> Result<Vec<Option<u8>>, AllocError>
    ensures { IfOk result (λ written. written.items ≡ replicate size None) }
{
    vec![in alloc; None; size as usize]
}

// Records that `bytes` are written from offset `at` on.
fn note(written: &mut Vec<Option<u8>>, at: usize, bytes: &[u8])
    requires { at + length bytes.now ≤ length written.old.items }
    ensures len { length written.new.items ≡ length written.old.items }
    ensures inside { (i : ℕ) → i < length bytes.now → slice_index_or written.new.items (at + i) None ≡ Some (slice_index bytes.now i) }
    ensures outside { (p : ℕ) → IsOut at (length bytes.now) p
        → slice_index_or written.new.items p None ≡ slice_index_or written.old.items p None }
{
    for (i, byte) in bytes.iter().enumerate() {
        written[at + i] = Some(*byte);
    }
}

// Returns the bytes of a disk. Bytes that weren't written are 0.
fn settled(alloc: Global, written: &[Option<u8>]) -> Result<Vec<u8>, AllocError>
    ensures { IfOk result (λ bytes. bytes.items ≡ map (λ w. unwrap_or w 0) written.now) }
{
    written.iter().map(|byte| byte.unwrap_or(0)).collect(alloc)
}

impl<S: Storage> OneCluster<S> {
    /// Creates a writable image of `size` bytes over an empty file. It reads as 0, and nothing is mapped.
    pub fn new(file: S, size: u64, number: u64) -> Self
        ensures free { IsFree (⟦<OneCluster<S> as DriverModel>⟧.layer result) }
        ensures well_formed { (S.state file).bytes ≡ [] → IsTrue (S.state file).shape.keeps → ⟦<OneCluster<S> as DriverModel>⟧.well_formed result }
        ensures coherent { ⟦<OneCluster<S> as DriverModel>⟧.coherent result }
    {
        OneCluster {
            file,
            size,
            number,
            writable: true,
            backed: false,
            through: false,
            failed: false,
            missing: false,
            faults: 0,
            claims: 0,
            lookups: 0,
            content: Content::Unmapped,
        }
    }

    // Checks that a range may be changed, before anything is done.
    fn check(&self, offset: u64, length: u64) -> Result<(), Fault>
        ensures ok { let d = ⟦<OneCluster<S> as DriverModel>⟧ in OnOk result (own_refusal (d.layer self.now) offset length ≡ None) }
        ensures writing { 0 < length → OnOk result (IsTrue self.now.writable) }
        ensures inside { 0 < length → OnOk result (offset + length ≤ self.now.size) }
        ensures runs { OnOk result (self.now.failed ≡ false) }
        ensures err { let d = ⟦<OneCluster<S> as DriverModel>⟧ in IfErr result (λ e. own_refusal (d.layer self.now) offset length ≡ Some e) }
        ensures not_resource_error { IfErr result IsNotResourceError }
        ensures failed { (olds news : List StorageState) → IfErr result (ImageCause olds news) }
        ensures cause { let d = ⟦<OneCluster<S> as DriverModel>⟧ in (below : List Layer) (olds news : List StorageState) →
            IfErr result (PartCause below (d.layer self.now) offset length cluster_cause olds news) }
    {
        self.ready()?;
        let unit = larger_alignment(self.file.req_align(), self.file.mem_align());
        check_range(self.writable, unit as u64, self.size, offset, length)
    }

    // Zeroes or discards a part of a range. The driver can't do this itself: unless the range is empty, the call fails with
    // `Fault::Unsupported` or an earlier fault.
    fn change(&self, offset: u64, length: u64) -> Result<(u64, u64), Fault>
        ensures ok { IfOk result (λ r. (r ≡ (offset, 0)) × (length ≡ 0)) }
        ensures not_resource_error { IfErr result IsNotResourceError }
        ensures does { (call : PartCall) → DoesPart call ⟦<OneCluster<S> as DriverModel>⟧ offset length result self.now self.now }
        ensures early_outcome { let d = ⟦<OneCluster<S> as DriverModel>⟧ in
            EarlyOutcome d (own_refusal (d.layer self.now) offset length) (length ≡ 0) result self.now self.now }
        ensures refused { (call : PartCall) → PartRefused call ⟦<OneCluster<S> as DriverModel>⟧ offset length result self.now self.now }
    {
        match self.check(offset, length) {
            Ok(()) => {}
            Err(fault) => return Err(fault),
        }
        if length == 0 {
            return Ok((offset, 0));
        }
        Err(Fault::Unsupported)
    }

    // Checks that a mapping may be committed.
    fn check_commit(&self, mapping: PreparedCluster) -> Result<(), Fault>
        ensures ok { let d = ⟦<OneCluster<S> as DriverModel>⟧ in OnOk result (commit_refusal d (Some mapping) (d.layer self.now) ≡ None) }
        ensures own { OnOk result (mapping.image ≡ self.now.number) }
        ensures writing { OnOk result (IsTrue self.now.writable) }
        ensures err { let d = ⟦<OneCluster<S> as DriverModel>⟧ in IfErr result (λ e. commit_refusal d (Some mapping) (d.layer self.now) ≡ Some e) }
        ensures back { let d = ⟦<OneCluster<S> as DriverModel>⟧ in IfErr result (GivenBack d.tag (Some mapping) (d.layer self.now)) }
        ensures failed { (olds news : List StorageState) → IfErr result (ImageCause olds news) }
    {
        check_commit(self.ready(), self.writable, self.number, mapping.image)
    }

    // Makes the prepared run part of the disk if `mapping` belongs to it. All other bytes become 0.
    fn settle(&mut self, alloc: Global, mapping: PreparedCluster) -> Result<(), Fault>
        requires { IsTrue self.old.writable }
        ensures ok { let d = ⟦<OneCluster<S> as DriverModel>⟧ in OnOk result ((d.layer self.old).unspent ≡ Some mapping.mapping_id
            → IsFree (d.layer self.new) × (d.well_formed self.old → Committed (d.layer self.old) (d.layer self.new))) }
        ensures room { let d = ⟦<OneCluster<S> as DriverModel>⟧ in
            OnOk result (Takes d (λ p. (d.layer self.old).held p ≡ loose) self.old self.new) }
        ensures mutating_call { let d = ⟦<OneCluster<S> as DriverModel>⟧ in
            MutatingCall d (HadNoResourceError result) (IsOk result × ((d.layer self.old).unspent ≡ Some mapping.mapping_id)) self.old self.new }
        ensures crash_images { let d = ⟦<OneCluster<S> as DriverModel>⟧ in d.well_formed self.old → (below : List Layer) →
            KeepsCrashImages d below (GivesSettled below (d.layer self.old)) self.old self.new }
        ensures failing { let d = ⟦<OneCluster<S> as DriverModel>⟧ in
            IfErr result (λ e. IsTrue self.new.failed × IsFree (d.layer self.new) × IsSpending e × (IsNotResourceError e → ⊥)) }
        ensures size { self.new.size ≡ self.old.size }
        ensures failed { let d = ⟦<OneCluster<S> as DriverModel>⟧ in IfErr result (Fails d self.old self.new) }
    {
        let bytes = match &self.content {
            Content::Prepared(run) if run.mapping_id == mapping.mapping_id => {
                settled(alloc, &run.written)
            }
            _ => return Ok(()),
        };
        let bytes = match bytes {
            Ok(bytes) => bytes,
            Err(_) => return Err(self.spend(Fault::Memory)),
        };
        match self.file.write(alloc, &bytes, 0) {
            Ok(()) => {
                self.content = Content::Mapped;
                Ok(())
            }
            Err(fault) => Err(self.spend(fault)),
        }
    }

    // Writes to the file at an offset.
    fn write_file(&mut self, alloc: Global, at: u64, bytes: &[u8]) -> Result<(), Fault>
        requires mapped { self.old.content ≡ content.Mapped }
        requires nonempty { 0 < length bytes.now }
        requires inside { at + length bytes.now ≤ self.old.size }
        requires writing { IsTrue self.old.writable }
        ensures writes { WritesMapped ⟦<OneCluster<S> as DriverModel>⟧ at at bytes.now result self.old self.new }
        ensures refused { WritingRefused ⟦<OneCluster<S> as DriverModel>⟧ at at (length bytes.now) result self.old self.new }
    {
        match self.file.write(alloc, bytes, at) {
            Ok(()) => Ok(()),
            Err(fault) => Err(self.cut_off(fault)),
        }
    }

    // Sets the image to failed if `cause` is a resource error. Returns `cause`.
    fn cut_off(&mut self, cause: Fault) -> Fault
        ensures same { result ≡ cause }
        ensures marked { self.new ≡ record self.old { failed = failed_by cause self.old.failed } }
    {
        match cause {
            Fault::Memory | Fault::Storage => self.failed = true,
            _ => {}
        }
        cause
    }

    // Abandons the prepared run and sets the image to failed. Returns the fault of the commit: `Fault::Storage` if `cause` is that, else
    // `Fault::Memory`.
    fn spend(&mut self, cause: Fault) -> Fault
        ensures spent { self.new ≡ record self.old { failed = true; faults = self.new.faults; content = content.Unmapped } }
        ensures kind { IsSpending result × (IsNotResourceError result → ⊥) }
        ensures storage { result ≡ fault.Storage → cause ≡ fault.Storage }
    {
        self.failed = true;
        self.content = Content::Unmapped;
        match cause {
            Fault::Storage => {
                self.faults = self.faults.saturating_add(1);
                Fault::Storage
            }
            _ => Fault::Memory,
        }
    }
}

impl<S: Storage> DriverModel for OneCluster<S> {
    type State = PreparedCluster;

    ghost layer = { λ d. cluster_layer (S.state d.file) d };

    ghost image = { λ d. S.state d.file };

    ghost extras = { λ _. [] };

    ghost coherent = { λ _. ⊤ };

    ghost well_formed = { λ d. IsWellFormed (S.state d.file) d };

    ghost has_no_dirty_data = { λ _. ⊤ };

    ghost stable = { λ _. ⊤ };

    ghost excess_refcount = { λ _ c. 0 };

    ghost unallocated = { λ d. IsBare d.content d.size };

    ghost has_allocation = { λ d. HasRoom d.content d.size };

    ghost zeroed = { λ d. IsBare d.content d.size };

    ghost explicit_zero = { λ d p. d.content ≡ content.Zeroed };

    ghost mapping_id = { λ s. s.mapping_id };

    ghost tag = { λ s. s.image };

    ghost sound = { λ kind f. ⊤ };

    ghost began = { λ d call now. ⊤ };

    ghost own_cause = { λ d below call. cluster_cause };

    ghost growth_cause = { λ d below size mode fault. fault ≡ Unsupported };
}

impl<S: Storage> FormatDriverInstance for OneCluster<S> {
    type Storage = S;

    ghost well_formed_is_coherent = { λ d well_formed. tt };

    ghost well_formed_is_usable = { λ d well_formed. well_formed.runs };

    ghost well_formed_keeps_writes = { λ d well_formed. well_formed.keeps };

    ghost well_formed_is_sound = { λ d well_formed. record { is_sound = tt; size = le_refl d.size } };

    ghost one_writable_location = { λ d p q at well_formed. one_writable_location d.content (if d.writable then d.size else 0) p q at };

    ghost blanks = { λ d. blanks d.backed };

    ghost aligned = { λ d. let shape = S.aligned d.file in (shape.requests, shape.memory) };

    ghost of_storages = { λ d. record { requests = refl; memory = refl; keeps = refl; zeroing = inl refl } };

    ghost marked = { λ d is. refl };

    ghost reports_allocations = { λ d is. refl };

    ghost units = { λ d. some_cluster d.size };

    ghost begins = { λ d call. tt };

    ghost free_loose = { λ d free p. free_loose d.content d.size p free };

    ghost bare = { λ d p bare room. not_both d.content d.size p bare room };

    ghost rooms = { λ d p free states. record {
      without_writable_location = elim [
        | inl bare ↦ bare_homeless d.content d.writable d.size p free bare
        | inr bare ↦ bare_homeless d.content d.writable d.size p free bare
      ];
      housed = λ some. housed_room d.content d.writable d.size p free some;
    } };

    fn image_file(&self) -> &S {
        &self.file
    }

    fn extra_file(&self, _index: usize) -> Option<&S> {
        None
    }

    fn format(&self) -> Format {
        Format::Qcow2
    }

    fn size(&self) -> u64 {
        self.size
    }

    fn writable(&self) -> bool {
        self.writable
    }

    fn zero_granularity(&self) -> Option<u64> {
        None
    }

    fn req_align(&self) -> usize {
        self.file.req_align()
    }

    fn mem_align(&self) -> usize {
        self.file.mem_align()
    }

    fn ready(&self) -> Result<(), Fault> {
        if self.failed {
            return Err(Fault::Failed);
        }
        if self.missing {
            return Err(Fault::MissingData);
        }
        Ok(())
    }

    fn prepared(&self) -> bool {
        matches!(self.content, Content::Prepared(_))
    }

    fn failed(&self) -> bool {
        self.failed
    }

    fn mark_failed(&mut self) {
        self.failed = true;
    }

    fn get_mapping(
        &mut self,
        _alloc: Global,
        offset: u64,
        max_length: u64,
    ) -> Result<(ShallowMapping, u64), Fault> {
        self.ready()?;
        self.lookups = self.lookups.saturating_add(1);
        if offset >= self.size {
            return Ok((ShallowMapping::Eof, 0));
        }
        let mapping = match &self.content {
            Content::Mapped => ShallowMapping::Raw {
                storage: 0,
                offset,
                writable: self.writable,
            },
            Content::Zeroed => ShallowMapping::Zero { explicit: true },
            Content::Barred => ShallowMapping::Special { offset },
            _ if self.backed => ShallowMapping::Indirect {
                offset,
                writable: self.writable && self.through,
            },
            _ => ShallowMapping::Zero { explicit: false },
        };
        Ok((mapping, max_length.min(self.size - offset)))
    }

    fn read_mapped(
        &mut self,
        alloc: Global,
        storage: usize,
        place: u64,
        buf: &mut [u8],
    ) -> Result<(), Fault> {
        self.ready()?;
        if storage != 0 {
            buf.fill(0);
            return Ok(());
        }
        match self.file.read(alloc, buf, place) {
            Ok(()) => Ok(()),
            Err(fault) => Err(self.cut_off(fault)),
        }
    }

    fn read_special(&mut self, _buf: &mut [u8], _offset: u64) -> Result<(), Fault> {
        self.ready()?;
        Err(Fault::Barred)
    }

    fn prepare_data_mapping<B: ReadBelow>(
        &mut self,
        alloc: Global,
        _below: &mut B,
        offset: u64,
        length: u64,
        overwrite: bool,
    ) -> Result<PreparedDataMapping<PreparedCluster>, Fault> {
        match self.check(offset, length) {
            Ok(()) => {}
            Err(fault) => return Err(fault),
        }
        if length == 0 {
            return Ok(PreparedDataMapping::existing(0, 0, 0));
        }
        match &self.content {
            Content::Mapped => return Ok(PreparedDataMapping::existing(0, offset, length)),
            Content::Prepared(_) => unreachable!(),
            Content::Zeroed => return Err(Fault::Limit(0)),
            Content::Barred => return Err(Fault::Limit(0)),
            Content::Unmapped => {}
        }
        // The data of the layer below would be copied here, and this driver doesn't copy.
        if self.backed {
            return Err(Fault::Limit(0));
        }
        let written = match unwritten(alloc, self.size) {
            Ok(written) => written,
            Err(_) => return Err(Fault::Memory),
        };
        self.claims = self.claims.wrapping_add(1);
        let mapping = PreparedCluster {
            image: self.number,
            mapping_id: self.claims,
        };
        self.content = Content::Prepared(PreparedRun {
            mapping_id: self.claims,
            start: offset,
            end: offset + length,
            overwrite,
            written,
        });
        Ok(PreparedDataMapping::to_commit(0, offset, length, mapping))
    }

    fn commit_data_mapping(
        &mut self,
        alloc: Global,
        mapping: PreparedDataMapping<PreparedCluster>,
    ) -> Result<(), (Fault, Option<PreparedDataMapping<PreparedCluster>>)>
        ensures commits { Commits ⟦<OneCluster<S> as DriverModel>⟧ mapping.state result self.old self.new }
        ensures refused { CommitRefused ⟦<OneCluster<S> as DriverModel>⟧ mapping result self.old self.new }
    {
        let (storage, place, length) = (mapping.storage(), mapping.offset(), mapping.length());
        match mapping.into_state() {
            None => match self.ready() {
                Ok(()) => Ok(()),
                Err(fault) => {
                    let back = PreparedDataMapping::existing(storage, place, length);
                    Err((fault, Some(back)))
                }
            },
            Some(state) => match self.check_commit(state) {
                Ok(()) => match self.settle(alloc, state) {
                    Ok(()) => Ok(()),
                    Err(fault) => Err((fault, None)),
                },
                Err(fault) => {
                    let back = PreparedDataMapping::to_commit(storage, place, length, state);
                    Err((fault, Some(back)))
                }
            },
        }
    }

    fn cancel_data_mapping(
        &mut self,
        mapping: PreparedDataMapping<PreparedCluster>,
    ) -> Result<(), (Fault, PreparedDataMapping<PreparedCluster>)>
        ensures cancels { Cancels ⟦<OneCluster<S> as DriverModel>⟧ mapping result self.old self.new }
    {
        let (storage, place, length) = (mapping.storage(), mapping.offset(), mapping.length());
        match mapping.into_state() {
            None => Ok(()),
            Some(state) => {
                if state.image != self.number {
                    let back = PreparedDataMapping::to_commit(storage, place, length, state);
                    return Err((Fault::Foreign, back));
                }
                if let Content::Prepared(run) = &self.content
                    && run.mapping_id == state.mapping_id
                {
                    self.content = Content::Unmapped;
                }
                Ok(())
            }
        }
    }

    fn write_mapped(
        &mut self,
        alloc: Global,
        guest: u64,
        place: u64,
        bytes: &[u8],
    ) -> Result<(), Fault> {
        let length = bytes.len() as u64;
        match self.check(guest, length) {
            Ok(()) => {}
            Err(fault) => return Err(fault),
        }
        if length == 0 {
            return Ok(());
        }
        let end = guest + length;
        if place != guest {
            return Err(Fault::Outdated);
        }
        match &mut self.content {
            Content::Prepared(run) => {
                if !run.takes(guest, end) {
                    return Err(Fault::Outdated);
                }
                note(&mut run.written, guest as usize, bytes);
                Ok(())
            }
            Content::Mapped => self.write_file(alloc, guest, bytes),
            Content::Unmapped => Err(Fault::Outdated),
            Content::Zeroed => Err(Fault::Outdated),
            Content::Barred => Err(Fault::Outdated),
        }
    }

    fn ensure_zero_mapping(
        &mut self,
        _alloc: Global,
        offset: u64,
        length: u64,
    ) -> Result<(u64, u64), Fault> {
        self.change(offset, length)
    }

    fn discard_to_zero(
        &mut self,
        _alloc: Global,
        offset: u64,
        length: u64,
    ) -> Result<(u64, u64), Fault> {
        self.change(offset, length)
    }

    fn discard_to_any(
        &mut self,
        _alloc: Global,
        offset: u64,
        length: u64,
    ) -> Result<(u64, u64), Fault> {
        self.change(offset, length)
    }

    fn discard_to_backing(
        &mut self,
        _alloc: Global,
        offset: u64,
        length: u64,
    ) -> Result<(u64, u64), Fault> {
        self.change(offset, length)
    }

    fn flush(&mut self, _alloc: Global) -> Result<(), Fault> {
        self.ready()
    }

    fn sync(&mut self) -> Result<(), Fault> {
        self.ready()
    }

    fn invalidate_cache(&mut self, _alloc: Global) -> Result<(), Fault> {
        self.ready()
    }

    fn resize_grow<B: ReadBelow>(
        &mut self,
        _alloc: Global,
        _below: &mut B,
        size: u64,
        _mode: PreallocateMode,
    ) -> Result<(), Fault> {
        self.ready()?;
        if size <= self.size {
            return Ok(());
        }
        if !self.writable {
            return Err(Fault::ReadOnly);
        }
        Err(Fault::Unsupported)
    }

    fn resize_shrink(&mut self, _alloc: Global, size: u64) -> Result<(), Fault> {
        self.ready()?;
        if size >= self.size {
            return Ok(());
        }
        if !self.writable {
            return Err(Fault::ReadOnly);
        }
        Err(Fault::Unsupported)
    }
}
