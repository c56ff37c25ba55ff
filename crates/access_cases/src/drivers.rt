// The driver of the test scripts' chains (an image over its backing files). A layer is a raw image or a one-cluster image.
ghost use Rattle.std.specs.Prelude.{◌≡◌, ◌≤◌, [], ⊤, refl, List, length, IsTrue, if◌then◌else◌};
ghost use Rattle.std.proofs.Common.{inl, inr};
ghost use Rattle.std.proofs.Math.Nat.{le_refl};
ghost use Rattle.imago_storage.specs.Steps.{Call};
ghost use Rattle.imago_storage.specs.declared.fault.Fault.{Fault};
ghost use Rattle.imago_storage.specs.declared.fault.Fault.TheVariants.{Unsupported};
ghost use Rattle.imago_access.specs.Layer.{Layer, unmapped};
ghost use Rattle.imago_access.specs.PreparingCalls.{Commits, CommitRefused, Cancels};
ghost use Rattle.imago_formats.specs.RawHome as raw_home;
ghost use Rattle.access_cases.specs.Drivers.{is_words, kind_cause};
ghost use Rattle.access_cases.specs.Homes as writable_locations;
ghost use Rattle.access_cases.specs.declared.drivers.Driver.TheVariants as driver;

use crate::clusters::{OneCluster, PreparedCluster};
use imago_access::{
    DriverModel, Format, FormatDriverInstance, PreallocateMode, PreparedDataMapping, ReadBelow,
    ShallowMapping, check_commit,
};
use imago_formats::{NoState, Raw};
use imago_storage::{Fault, Storage};
use std::alloc::Global;
use std::fmt::{self, Display, Formatter, Write};

/// A layer of a chain (an image over its backing files).
#[derive(Drop)]
pub enum Driver<S> {
    Raw(Raw<S>),
    Words(OneCluster<S>),
}

// Converts a mapping of a raw image, which has no state (nothing to commit).
fn stateless(mapping: PreparedDataMapping<NoState>) -> PreparedDataMapping<PreparedCluster>
    ensures value { result ≡ record { storage = mapping.storage; offset = mapping.offset; length = mapping.length; state = None } }
    ensures none { mapping.state ≡ None }
{
    let (storage, place, length) = (mapping.storage(), mapping.offset(), mapping.length());
    match mapping.into_state() {
        None => PreparedDataMapping::existing(storage, place, length),
        Some(state) => match state {},
    }
}

impl<S: Storage> Driver<S> {
    /// Returns true if bytes that the layer has no data for are read from the layer below (the backing file).
    pub fn shows_below(&self) -> bool
        ensures { IsTrue result → (⟦<Driver<S> as DriverModel>⟧.layer self.now).fixed.blank ≡ unmapped }
    {
        match self {
            Driver::Raw(_) => false,
            Driver::Words(words) => words.backed,
        }
    }
}

impl<S: Storage> Display for Driver<S> {
    fn fmt<W: Write>(&self, f: &mut Formatter<W>) -> fmt::Result {
        match self {
            Driver::Raw(raw) => raw.fmt(f),
            Driver::Words(_) => write!(f, "words"),
        }
    }
}

impl<S: Storage> DriverModel for Driver<S> {
    type State = PreparedCluster;

    ghost layer = { elim [ driver.Raw r ↦ ⟦<Raw<S> as DriverModel>⟧.layer r | driver.Words w ↦ ⟦<OneCluster<S> as DriverModel>⟧.layer w ] };

    ghost image = { elim [ driver.Raw r ↦ S.state r.storage | driver.Words w ↦ S.state w.file ] };

    ghost extras = { λ _. [] };

    ghost coherent = { λ _. ⊤ };

    ghost well_formed = { elim [ driver.Raw r ↦ ⟦<Raw<S> as DriverModel>⟧.well_formed r | driver.Words w ↦ ⟦<OneCluster<S> as DriverModel>⟧.well_formed w ] };

    ghost has_no_dirty_data = { λ _. ⊤ };

    ghost stable = { elim [ driver.Raw r ↦ r.size ≤ length (S.state r.storage).bytes | driver.Words w ↦ ⊤ ] };

    ghost excess_refcount = { λ _ c. 0 };

    ghost unallocated = { elim [ driver.Raw r ↦ ⟦<Raw<S> as DriverModel>⟧.unallocated r | driver.Words w ↦ ⟦<OneCluster<S> as DriverModel>⟧.unallocated w ] };

    ghost has_allocation = { elim [ driver.Raw r ↦ ⟦<Raw<S> as DriverModel>⟧.has_allocation r | driver.Words w ↦ ⟦<OneCluster<S> as DriverModel>⟧.has_allocation w ] };

    ghost zeroed = { elim [ driver.Raw r ↦ ⟦<Raw<S> as DriverModel>⟧.zeroed r | driver.Words w ↦ ⟦<OneCluster<S> as DriverModel>⟧.zeroed w ] };

    ghost explicit_zero = { elim [ driver.Raw r ↦ ⟦<Raw<S> as DriverModel>⟧.explicit_zero r | driver.Words w ↦ ⟦<OneCluster<S> as DriverModel>⟧.explicit_zero w ] };

    ghost mapping_id = { λ s. s.mapping_id };

    ghost tag = { λ s. s.image };

    ghost sound = { λ kind f. ⊤ };

    ghost began = { λ d call now. is_words now ≡ is_words d };

    ghost own_cause = { λ d below call fault. kind_cause (is_words d) call fault };

    ghost growth_cause = { λ d below size mode fault. fault ≡ Unsupported };
}

impl<S: Storage> FormatDriverInstance for Driver<S> {
    type Storage = S;

    ghost well_formed_is_coherent = { λ d well_formed. tt };

    ghost well_formed_is_usable = { elim [ driver.Raw r ↦ λ well_formed. refl | driver.Words w ↦ λ well_formed. well_formed.runs ] };

    ghost well_formed_keeps_writes = { elim [ driver.Raw r ↦ λ well_formed. well_formed.0 | driver.Words w ↦ λ well_formed. well_formed.keeps ] };

    ghost well_formed_is_sound = { elim [
      | driver.Raw r ↦ λ well_formed. record { is_sound = tt; size = well_formed.1 }
      | driver.Words w ↦ λ well_formed. record { is_sound = tt; size = le_refl w.size }
    ] };

    ghost one_writable_location = { elim [
      | driver.Raw r ↦ λ p q at well_formed. raw_home.one_writable_location r.size r.writable p q at
      | driver.Words w ↦ λ p q at well_formed. writable_locations.one_writable_location w.content (if w.writable then w.size else 0) p q at
    ] };

    ghost blanks = { elim [ driver.Raw r ↦ inr refl | driver.Words w ↦ writable_locations.blanks w.backed ] };

    ghost aligned = { elim [
      | driver.Raw r ↦ (let shape = S.aligned r.storage in (shape.requests, shape.memory))
      | driver.Words w ↦ (let shape = S.aligned w.file in (shape.requests, shape.memory))
    ] };

    ghost of_storages = { elim [
      | driver.Raw r ↦ record { requests = refl; memory = refl; keeps = refl; zeroing = refl }
      | driver.Words w ↦ record { requests = refl; memory = refl; keeps = refl; zeroing = inl refl }
    ] };

    ghost marked = { elim [ driver.Raw r ↦ λ is. absurd (Prim.cc is) | driver.Words w ↦ λ is. refl ] };

    ghost reports_allocations = { elim [ driver.Raw r ↦ λ is. absurd (Prim.cc is) | driver.Words w ↦ λ is. refl ] };

    ghost units = { elim [ driver.Raw r ↦ le_refl 1 | driver.Words w ↦ writable_locations.some_cluster w.size ] };

    ghost begins = { λ d call. refl };

    ghost free_loose = { elim [ driver.Raw r ↦ λ free p. refl | driver.Words w ↦ λ free p. writable_locations.free_loose w.content w.size p free ] };

    ghost bare = { elim [
      | driver.Raw r ↦ λ p bare room. room
      | driver.Words w ↦ λ p bare room. writable_locations.not_both w.content w.size p bare room
    ] };

    ghost rooms = { elim [
      | driver.Raw r ↦ λ p free states. raw_home.never states
      | driver.Words w ↦ λ p free states. record {
        without_writable_location = elim [
          | inl bare ↦ writable_locations.bare_homeless w.content w.writable w.size p free bare
          | inr bare ↦ writable_locations.bare_homeless w.content w.writable w.size p free bare
        ];
        housed = λ some. writable_locations.housed_room w.content w.writable w.size p free some;
      }
    ] };

    fn image_file(&self) -> &S {
        match self {
            Driver::Raw(raw) => raw.image_file(),
            Driver::Words(words) => words.image_file(),
        }
    }

    fn extra_file(&self, index: usize) -> Option<&S> {
        match self {
            Driver::Raw(raw) => raw.extra_file(index),
            Driver::Words(words) => words.extra_file(index),
        }
    }

    fn format(&self) -> Format {
        match self {
            Driver::Raw(raw) => raw.format(),
            Driver::Words(words) => words.format(),
        }
    }

    fn size(&self) -> u64 {
        match self {
            Driver::Raw(raw) => raw.size(),
            Driver::Words(words) => words.size(),
        }
    }

    fn writable(&self) -> bool {
        match self {
            Driver::Raw(raw) => raw.writable(),
            Driver::Words(words) => words.writable(),
        }
    }

    fn zero_granularity(&self) -> Option<u64> {
        match self {
            Driver::Raw(raw) => raw.zero_granularity(),
            Driver::Words(words) => words.zero_granularity(),
        }
    }

    fn req_align(&self) -> usize {
        match self {
            Driver::Raw(raw) => raw.req_align(),
            Driver::Words(words) => words.req_align(),
        }
    }

    fn mem_align(&self) -> usize {
        match self {
            Driver::Raw(raw) => raw.mem_align(),
            Driver::Words(words) => words.mem_align(),
        }
    }

    fn ready(&self) -> Result<(), Fault> {
        match self {
            Driver::Raw(raw) => raw.ready(),
            Driver::Words(words) => words.ready(),
        }
    }

    fn prepared(&self) -> bool {
        match self {
            Driver::Raw(raw) => raw.prepared(),
            Driver::Words(words) => words.prepared(),
        }
    }

    fn failed(&self) -> bool {
        match self {
            Driver::Raw(raw) => raw.failed(),
            Driver::Words(words) => words.failed(),
        }
    }

    fn mark_failed(&mut self) {
        match self {
            Driver::Raw(raw) => raw.mark_failed(),
            Driver::Words(words) => words.mark_failed(),
        }
    }

    fn get_mapping(
        &mut self,
        alloc: Global,
        offset: u64,
        max_length: u64,
    ) -> Result<(ShallowMapping, u64), Fault> {
        match self {
            Driver::Raw(raw) => raw.get_mapping(alloc, offset, max_length),
            Driver::Words(words) => words.get_mapping(alloc, offset, max_length),
        }
    }

    fn read_mapped(
        &mut self,
        alloc: Global,
        storage: usize,
        place: u64,
        buf: &mut [u8],
    ) -> Result<(), Fault> {
        match self {
            Driver::Raw(raw) => raw.read_mapped(alloc, storage, place, buf),
            Driver::Words(words) => words.read_mapped(alloc, storage, place, buf),
        }
    }

    fn read_special(&mut self, buf: &mut [u8], offset: u64) -> Result<(), Fault> {
        match self {
            Driver::Raw(raw) => raw.read_special(buf, offset),
            Driver::Words(words) => words.read_special(buf, offset),
        }
    }

    fn prepare_data_mapping<B: ReadBelow>(
        &mut self,
        alloc: Global,
        below: &mut B,
        offset: u64,
        length: u64,
        overwrite: bool,
    ) -> Result<PreparedDataMapping<PreparedCluster>, Fault> {
        match self {
            Driver::Raw(raw) => {
                match raw.prepare_data_mapping(alloc, below, offset, length, overwrite) {
                    Ok(mapping) => Ok(stateless(mapping)),
                    Err(fault) => Err(fault),
                }
            }
            Driver::Words(words) => {
                words.prepare_data_mapping(alloc, below, offset, length, overwrite)
            }
        }
    }

    fn commit_data_mapping(
        &mut self,
        alloc: Global,
        mapping: PreparedDataMapping<PreparedCluster>,
    ) -> Result<(), (Fault, Option<PreparedDataMapping<PreparedCluster>>)>
        ensures commits { Commits ⟦<Driver<S> as DriverModel>⟧ mapping.state result self.old self.new }
        ensures refused { CommitRefused ⟦<Driver<S> as DriverModel>⟧ mapping result self.old self.new }
    {
        let raw = match self {
            Driver::Words(words) => return words.commit_data_mapping(alloc, mapping),
            Driver::Raw(raw) => raw,
        };
        let (storage, place, length) = (mapping.storage(), mapping.offset(), mapping.length());
        match mapping.into_state() {
            None => Ok(()),
            Some(state) => match check_commit(Ok(()), raw.writable(), 0, state.image) {
                Ok(()) => Ok(()),
                Err(fault) => {
                    let back = PreparedDataMapping::to_commit(storage, place, length, state);
                    Err((fault, Some(back)))
                }
            },
        }
    }

    fn cancel_data_mapping(
        &mut self,
        mapping: PreparedDataMapping<PreparedCluster>,
    ) -> Result<(), (Fault, PreparedDataMapping<PreparedCluster>)>
        ensures cancels { Cancels ⟦<Driver<S> as DriverModel>⟧ mapping result self.old self.new }
    {
        if let Driver::Words(words) = self {
            return words.cancel_data_mapping(mapping);
        }
        let (storage, place, length) = (mapping.storage(), mapping.offset(), mapping.length());
        match mapping.into_state() {
            None => Ok(()),
            Some(state) => {
                if state.image != 0 {
                    let back = PreparedDataMapping::to_commit(storage, place, length, state);
                    return Err((Fault::Foreign, back));
                }
                Ok(())
            }
        }
    }

    fn write_mapped(
        &mut self,
        alloc: Global,
        guest: u64,
        place: u64,
        bytes: &[u8],
    ) -> Result<(), Fault> {
        match self {
            Driver::Raw(raw) => raw.write_mapped(alloc, guest, place, bytes),
            Driver::Words(words) => words.write_mapped(alloc, guest, place, bytes),
        }
    }

    fn ensure_zero_mapping(
        &mut self,
        alloc: Global,
        offset: u64,
        length: u64,
    ) -> Result<(u64, u64), Fault> {
        match self {
            Driver::Raw(raw) => raw.ensure_zero_mapping(alloc, offset, length),
            Driver::Words(words) => words.ensure_zero_mapping(alloc, offset, length),
        }
    }

    fn discard_to_zero(
        &mut self,
        alloc: Global,
        offset: u64,
        length: u64,
    ) -> Result<(u64, u64), Fault> {
        match self {
            Driver::Raw(raw) => raw.discard_to_zero(alloc, offset, length),
            Driver::Words(words) => words.discard_to_zero(alloc, offset, length),
        }
    }

    fn discard_to_any(
        &mut self,
        alloc: Global,
        offset: u64,
        length: u64,
    ) -> Result<(u64, u64), Fault> {
        match self {
            Driver::Raw(raw) => raw.discard_to_any(alloc, offset, length),
            Driver::Words(words) => words.discard_to_any(alloc, offset, length),
        }
    }

    fn discard_to_backing(
        &mut self,
        alloc: Global,
        offset: u64,
        length: u64,
    ) -> Result<(u64, u64), Fault> {
        match self {
            Driver::Raw(raw) => raw.discard_to_backing(alloc, offset, length),
            Driver::Words(words) => words.discard_to_backing(alloc, offset, length),
        }
    }

    fn flush(&mut self, alloc: Global) -> Result<(), Fault> {
        match self {
            Driver::Raw(raw) => raw.flush(alloc),
            Driver::Words(words) => words.flush(alloc),
        }
    }

    fn sync(&mut self) -> Result<(), Fault> {
        match self {
            Driver::Raw(raw) => raw.sync(),
            Driver::Words(words) => words.sync(),
        }
    }

    fn invalidate_cache(&mut self, alloc: Global) -> Result<(), Fault> {
        match self {
            Driver::Raw(raw) => raw.invalidate_cache(alloc),
            Driver::Words(words) => words.invalidate_cache(alloc),
        }
    }

    fn resize_grow<B: ReadBelow>(
        &mut self,
        alloc: Global,
        below: &mut B,
        size: u64,
        mode: PreallocateMode,
    ) -> Result<(), Fault> {
        match self {
            Driver::Raw(raw) => raw.resize_grow(alloc, below, size, mode),
            Driver::Words(words) => words.resize_grow(alloc, below, size, mode),
        }
    }

    fn resize_shrink(&mut self, alloc: Global, size: u64) -> Result<(), Fault> {
        match self {
            Driver::Raw(raw) => raw.resize_shrink(alloc, size),
            Driver::Words(words) => words.resize_shrink(alloc, size),
        }
    }
}
