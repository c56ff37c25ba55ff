// Implements the driver interface for an image of any format: each call is passed to the driver of the image's format.
ghost use Rattle.std.specs.Prelude.{map, refl};
ghost use Rattle.std.proofs.Common.{inr};
ghost use Rattle.std.proofs.Math.Nat.{le_refl};
ghost use Rattle.std.proofs.lemmas.Nat.{pow_pos};
ghost use Rattle.imago_access.specs.PreparingCalls.{Commits, CommitRefused, Cancels};
ghost use Rattle.imago_formats.specs.RawHome as raw_home;
ghost use Rattle.imago_formats.specs.VmdkLaws as vmdk_laws;
ghost use Rattle.qcow2_types.specs.Bytes.{bytes_of};
ghost use Rattle.qcow2_image.specs.HeldHomes as qcow2_homes;
ghost use Rattle.qcow2_image.specs.ImageLayer as qcow2_layers;
ghost use Rattle.qcow2_image.specs.Rooms as qcow2_rooms;
ghost use Rattle.qcow2_image.specs.Unspent.{holding_in};
ghost use Rattle.qcow2_image.specs.Writing.{begun_itself};
ghost use Rattle.qimg_chain.specs.declared.chain.image_driver.ImageDriver.TheVariants as variant;

use crate::chain::image_driver::ImageDriver;
use crate::chain::stateless::{cancel_stateless, commit_stateless, stateless};
use imago_access::{
    DriverModel, Format, FormatDriverInstance, PreallocateMode, PreparedDataMapping, ReadBelow,
    ShallowMapping,
};
use imago_storage::{Fault, Storage};
use qcow2_image::PreparedMappingState;
use std::alloc::Global;

impl<S: Storage> FormatDriverInstance for ImageDriver<S> {
    type Storage = S;

    ghost well_formed_is_coherent = { elim [
      | variant.Raw d ↦ λ well_formed. tt
      | variant.Vmdk d ↦ λ well_formed. well_formed.1
      | variant.Qcow2 d ↦ λ well_formed. record { seen = well_formed.seen; sure = inr (qcow2_rooms.was_well_formed S.Storage.own d well_formed) }
    ] };

    ghost well_formed_is_usable = { elim [
      | variant.Raw d ↦ λ well_formed. refl
      | variant.Vmdk d ↦ λ well_formed. refl
      | variant.Qcow2 d ↦ λ well_formed. well_formed.runs
    ] };

    ghost well_formed_keeps_writes = { elim [
      | variant.Raw d ↦ λ well_formed. well_formed.0
      | variant.Vmdk d ↦ λ well_formed. well_formed.0
      | variant.Qcow2 d ↦ λ well_formed. well_formed.keeps
    ] };

    ghost well_formed_is_sound = { elim [
      | variant.Raw d ↦ λ well_formed. record { is_sound = tt; size = well_formed.1 }
      | variant.Vmdk d ↦ λ well_formed.
          let cover = vmdk_laws.covered d.disk.extents.items (S.state d.image) (map S.state d.files.items) well_formed.2 in
          record { is_sound = tt; size = cover.size }
      | variant.Qcow2 d ↦ λ well_formed. qcow2_rooms.covered S.Storage.own d well_formed
    ] };

    ghost one_writable_location = { elim [
      | variant.Raw d ↦ λ p q at well_formed. raw_home.one_writable_location d.size d.writable p q at
      | variant.Vmdk d ↦ λ p q at well_formed. vmdk_laws.no_home p q at
      | variant.Qcow2 d ↦ λ p q at well_formed. qcow2_homes.one_writable_location S.Storage.own d well_formed p q at
    ] };

    ghost blanks = { elim [
      | variant.Raw d ↦ inr refl
      | variant.Vmdk d ↦ inr refl
      | variant.Qcow2 d ↦ qcow2_layers.blanks d.mode.backing
    ] };

    ghost aligned = { elim [
      | variant.Raw d ↦ let shape = S.aligned d.storage in (shape.requests, shape.memory)
      | variant.Vmdk d ↦ vmdk_laws.aligned_files S.state S.aligned d.image d.files.items
      | variant.Qcow2 d ↦ let shape = S.aligned d.tables.file.image in (shape.requests, shape.memory)
    ] };

    ghost of_storages = { elim [
      | variant.Raw d ↦ record { requests = refl; memory = refl; keeps = refl; zeroing = refl }
      | variant.Vmdk d ↦ record { requests = refl; memory = refl; keeps = refl; zeroing = refl }
      | variant.Qcow2 d ↦ qcow2_rooms.of_storages S.Storage.own d
    ] };

    ghost marked = { elim [
      | variant.Raw d ↦ λ is. absurd (Prim.cc is)
      | variant.Vmdk d ↦ λ is. absurd (Prim.cc is)
      | variant.Qcow2 d ↦ λ is. refl
    ] };

    ghost reports_allocations = { elim [
      | variant.Raw d ↦ λ is. absurd (Prim.cc is)
      | variant.Vmdk d ↦ λ is. absurd (Prim.cc is)
      | variant.Qcow2 d ↦ λ is. refl
    ] };

    ghost units = { elim [
      | variant.Raw d ↦ le_refl 1
      | variant.Vmdk d ↦ le_refl 1
      | variant.Qcow2 d ↦ pow_pos d.tables.file.header.fields.cluster_bits
    ] };

    ghost begins = { elim [
      | variant.Raw d ↦ λ call. tt
      | variant.Vmdk d ↦ λ call. tt
      | variant.Qcow2 d ↦ λ call. begun_itself S.Storage.own d call
    ] };

    ghost free_loose = { elim [
      | variant.Raw d ↦ λ free p. refl
      | variant.Vmdk d ↦ λ free p. refl
      | variant.Qcow2 d ↦ λ free p. let held = holding_in S.Storage.own d.unspent in
          qcow2_homes.free_loose d.tables.file.header.fields (bytes_of (S.Storage.own.state d.tables.file.image).bytes) held p free
    ] };

    ghost bare = { elim [
      | variant.Raw d ↦ λ p free has. has
      | variant.Vmdk d ↦ λ p free has. has
      | variant.Qcow2 d ↦ λ p free has. qcow2_rooms.not_both _ _ p free has
    ] };

    ghost rooms = { elim [
      | variant.Raw d ↦ λ p free states. raw_home.never states
      | variant.Vmdk d ↦ λ p free states. raw_home.never states
      | variant.Qcow2 d ↦ λ p free states.
          let room = qcow2_homes.reports_allocations S.Storage.own d free p in record { without_writable_location = room.0; housed = room.1 }
    ] };

    fn image_file(&self) -> &S {
        match self {
            ImageDriver::Raw(raw) => raw.image_file(),
            ImageDriver::Vmdk(vmdk) => vmdk.image_file(),
            ImageDriver::Qcow2(qcow2) => qcow2.image_file(),
        }
    }

    fn extra_file(&self, index: usize) -> Option<&S> {
        match self {
            ImageDriver::Raw(raw) => raw.extra_file(index),
            ImageDriver::Vmdk(vmdk) => vmdk.extra_file(index),
            ImageDriver::Qcow2(qcow2) => qcow2.extra_file(index),
        }
    }

    fn format(&self) -> Format {
        match self {
            ImageDriver::Raw(raw) => raw.format(),
            ImageDriver::Vmdk(vmdk) => vmdk.format(),
            ImageDriver::Qcow2(qcow2) => qcow2.format(),
        }
    }

    fn size(&self) -> u64 {
        match self {
            ImageDriver::Raw(raw) => raw.size(),
            ImageDriver::Vmdk(vmdk) => vmdk.size(),
            ImageDriver::Qcow2(qcow2) => qcow2.size(),
        }
    }

    fn writable(&self) -> bool {
        match self {
            ImageDriver::Raw(raw) => raw.writable(),
            ImageDriver::Vmdk(vmdk) => vmdk.writable(),
            ImageDriver::Qcow2(qcow2) => qcow2.writable(),
        }
    }

    fn zero_granularity(&self) -> Option<u64> {
        match self {
            ImageDriver::Raw(raw) => raw.zero_granularity(),
            ImageDriver::Vmdk(vmdk) => vmdk.zero_granularity(),
            ImageDriver::Qcow2(qcow2) => qcow2.zero_granularity(),
        }
    }

    fn req_align(&self) -> usize {
        match self {
            ImageDriver::Raw(raw) => raw.req_align(),
            ImageDriver::Vmdk(vmdk) => vmdk.req_align(),
            ImageDriver::Qcow2(qcow2) => qcow2.req_align(),
        }
    }

    fn mem_align(&self) -> usize {
        match self {
            ImageDriver::Raw(raw) => raw.mem_align(),
            ImageDriver::Vmdk(vmdk) => vmdk.mem_align(),
            ImageDriver::Qcow2(qcow2) => qcow2.mem_align(),
        }
    }

    fn ready(&self) -> Result<(), Fault> {
        match self {
            ImageDriver::Raw(raw) => raw.ready(),
            ImageDriver::Vmdk(vmdk) => vmdk.ready(),
            ImageDriver::Qcow2(qcow2) => qcow2.ready(),
        }
    }

    fn prepared(&self) -> bool {
        match self {
            ImageDriver::Raw(raw) => raw.prepared(),
            ImageDriver::Vmdk(vmdk) => vmdk.prepared(),
            ImageDriver::Qcow2(qcow2) => qcow2.prepared(),
        }
    }

    fn failed(&self) -> bool {
        match self {
            ImageDriver::Raw(raw) => raw.failed(),
            ImageDriver::Vmdk(vmdk) => vmdk.failed(),
            ImageDriver::Qcow2(qcow2) => qcow2.failed(),
        }
    }

    fn mark_failed(&mut self) {
        match self {
            ImageDriver::Raw(raw) => raw.mark_failed(),
            ImageDriver::Vmdk(vmdk) => vmdk.mark_failed(),
            ImageDriver::Qcow2(qcow2) => qcow2.mark_failed(),
        }
    }

    fn get_mapping(
        &mut self,
        alloc: Global,
        offset: u64,
        max_length: u64,
    ) -> Result<(ShallowMapping, u64), Fault> {
        match self {
            ImageDriver::Raw(raw) => raw.get_mapping(alloc, offset, max_length),
            ImageDriver::Vmdk(vmdk) => vmdk.get_mapping(alloc, offset, max_length),
            ImageDriver::Qcow2(qcow2) => qcow2.get_mapping(alloc, offset, max_length),
        }
    }

    fn read_mapped(
        &mut self,
        alloc: Global,
        storage: usize,
        place: u64,
        buf: &mut [u8],
    ) -> Result<(), Fault> {
        match self {
            ImageDriver::Raw(raw) => raw.read_mapped(alloc, storage, place, buf),
            ImageDriver::Vmdk(vmdk) => vmdk.read_mapped(alloc, storage, place, buf),
            ImageDriver::Qcow2(qcow2) => qcow2.read_mapped(alloc, storage, place, buf),
        }
    }

    fn read_special(&mut self, buf: &mut [u8], offset: u64) -> Result<(), Fault> {
        match self {
            ImageDriver::Raw(raw) => raw.read_special(buf, offset),
            ImageDriver::Vmdk(vmdk) => vmdk.read_special(buf, offset),
            ImageDriver::Qcow2(qcow2) => qcow2.read_special(buf, offset),
        }
    }

    fn prepare_data_mapping<B: ReadBelow>(
        &mut self,
        alloc: Global,
        below: &mut B,
        offset: u64,
        length: u64,
        overwrite: bool,
    ) -> Result<PreparedDataMapping<PreparedMappingState>, Fault> {
        match self {
            ImageDriver::Raw(raw) => {
                let mapping = raw.prepare_data_mapping(alloc, below, offset, length, overwrite)?;
                Ok(stateless(mapping))
            }
            ImageDriver::Vmdk(vmdk) => {
                let mapping = vmdk.prepare_data_mapping(alloc, below, offset, length, overwrite)?;
                Ok(stateless(mapping))
            }
            ImageDriver::Qcow2(qcow2) => {
                qcow2.prepare_data_mapping(alloc, below, offset, length, overwrite)
            }
        }
    }

    fn commit_data_mapping(
        &mut self,
        alloc: Global,
        mapping: PreparedDataMapping<PreparedMappingState>,
    ) -> Result<(), (Fault, Option<PreparedDataMapping<PreparedMappingState>>)>
        ensures commits { Commits ⟦<ImageDriver<S> as DriverModel>⟧ mapping.state result self.old self.new }
        ensures refused { CommitRefused ⟦<ImageDriver<S> as DriverModel>⟧ mapping result self.old self.new }
    {
        match self {
            ImageDriver::Raw(raw) => commit_stateless(mapping, raw.ready(), raw.writable()),
            ImageDriver::Vmdk(vmdk) => commit_stateless(mapping, vmdk.ready(), vmdk.writable()),
            ImageDriver::Qcow2(qcow2) => qcow2.commit_data_mapping(alloc, mapping),
        }
    }

    fn cancel_data_mapping(
        &mut self,
        mapping: PreparedDataMapping<PreparedMappingState>,
    ) -> Result<(), (Fault, PreparedDataMapping<PreparedMappingState>)>
        ensures cancels { Cancels ⟦<ImageDriver<S> as DriverModel>⟧ mapping result self.old self.new }
    {
        match self {
            ImageDriver::Raw(_) => cancel_stateless(mapping),
            ImageDriver::Vmdk(_) => cancel_stateless(mapping),
            ImageDriver::Qcow2(qcow2) => qcow2.cancel_data_mapping(mapping),
        }
    }

    fn write_mapped(
        &mut self,
        alloc: Global,
        guest: u64,
        place: u64,
        bytes: &[u8],
    ) -> Result<(), Fault> {
        match self {
            ImageDriver::Raw(raw) => raw.write_mapped(alloc, guest, place, bytes),
            ImageDriver::Vmdk(vmdk) => vmdk.write_mapped(alloc, guest, place, bytes),
            ImageDriver::Qcow2(qcow2) => qcow2.write_mapped(alloc, guest, place, bytes),
        }
    }

    fn ensure_zero_mapping(
        &mut self,
        alloc: Global,
        offset: u64,
        length: u64,
    ) -> Result<(u64, u64), Fault> {
        match self {
            ImageDriver::Raw(raw) => raw.ensure_zero_mapping(alloc, offset, length),
            ImageDriver::Vmdk(vmdk) => vmdk.ensure_zero_mapping(alloc, offset, length),
            ImageDriver::Qcow2(qcow2) => qcow2.ensure_zero_mapping(alloc, offset, length),
        }
    }

    fn discard_to_zero(
        &mut self,
        alloc: Global,
        offset: u64,
        length: u64,
    ) -> Result<(u64, u64), Fault> {
        match self {
            ImageDriver::Raw(raw) => raw.discard_to_zero(alloc, offset, length),
            ImageDriver::Vmdk(vmdk) => vmdk.discard_to_zero(alloc, offset, length),
            ImageDriver::Qcow2(qcow2) => qcow2.discard_to_zero(alloc, offset, length),
        }
    }

    fn discard_to_any(
        &mut self,
        alloc: Global,
        offset: u64,
        length: u64,
    ) -> Result<(u64, u64), Fault> {
        match self {
            ImageDriver::Raw(raw) => raw.discard_to_any(alloc, offset, length),
            ImageDriver::Vmdk(vmdk) => vmdk.discard_to_any(alloc, offset, length),
            ImageDriver::Qcow2(qcow2) => qcow2.discard_to_any(alloc, offset, length),
        }
    }

    fn discard_to_backing(
        &mut self,
        alloc: Global,
        offset: u64,
        length: u64,
    ) -> Result<(u64, u64), Fault> {
        match self {
            ImageDriver::Raw(raw) => raw.discard_to_backing(alloc, offset, length),
            ImageDriver::Vmdk(vmdk) => vmdk.discard_to_backing(alloc, offset, length),
            ImageDriver::Qcow2(qcow2) => qcow2.discard_to_backing(alloc, offset, length),
        }
    }

    fn flush(&mut self, alloc: Global) -> Result<(), Fault> {
        match self {
            ImageDriver::Raw(raw) => raw.flush(alloc),
            ImageDriver::Vmdk(vmdk) => vmdk.flush(alloc),
            ImageDriver::Qcow2(qcow2) => qcow2.flush(alloc),
        }
    }

    fn sync(&mut self) -> Result<(), Fault> {
        match self {
            ImageDriver::Raw(raw) => raw.sync(),
            ImageDriver::Vmdk(vmdk) => vmdk.sync(),
            ImageDriver::Qcow2(qcow2) => qcow2.sync(),
        }
    }

    fn invalidate_cache(&mut self, alloc: Global) -> Result<(), Fault> {
        match self {
            ImageDriver::Raw(raw) => raw.invalidate_cache(alloc),
            ImageDriver::Vmdk(vmdk) => vmdk.invalidate_cache(alloc),
            ImageDriver::Qcow2(qcow2) => qcow2.invalidate_cache(alloc),
        }
    }

    fn resize_grow<B: ReadBelow>(
        &mut self,
        alloc: Global,
        below: &mut B,
        size: u64,
        mode: PreallocateMode,
    ) -> Result<(), Fault> {
        match self {
            ImageDriver::Raw(raw) => raw.resize_grow(alloc, below, size, mode),
            ImageDriver::Vmdk(vmdk) => vmdk.resize_grow(alloc, below, size, mode),
            ImageDriver::Qcow2(qcow2) => qcow2.resize_grow(alloc, below, size, mode),
        }
    }

    fn resize_shrink(&mut self, alloc: Global, size: u64) -> Result<(), Fault> {
        match self {
            ImageDriver::Raw(raw) => raw.resize_shrink(alloc, size),
            ImageDriver::Vmdk(vmdk) => vmdk.resize_shrink(alloc, size),
            ImageDriver::Qcow2(qcow2) => qcow2.resize_shrink(alloc, size),
        }
    }
}
