// Looks up bytes of the disk in the tables. Also has the rules by which an error sets the image to failed.
ghost use Rattle.std.specs.Prelude.{◌≡◌, ◌<◌, ◌≤◌, ◌+◌, ◌*◌, ◌^◌, ◌/◌, ◌%◌, ◌-◌, IfOk, IfErr, min, false};
ghost use Rattle.imago_access.specs.Files.{HadNoResourceError};
ghost use Rattle.imago_access.specs.Failing.{Fails, RefusesLookup};
ghost use Rattle.imago_access.specs.Going.{LookupCall, MarksFailed};
ghost use Rattle.imago_access.specs.Mappings.{IsOneOf, IsRun, LooksIn, ReportsAllocationIn, ReportsExplicitZero};
ghost use Rattle.qcow2_metadata.specs.MappingView.{mapping_seen, IsHostAddressable};
ghost use Rattle.qcow2_image.specs.ImageLayer.{shallow_of};
ghost use Rattle.qcow2_image.specs.Looking.{EndsNear, IsWholeRunIn, answer_at};
ghost use Rattle.qcow2_image.specs.Steps.{KeepsImage, failed_by, failed_on_reload, failed_after};
ghost use Rattle.qcow2_image.specs.Seen.{IsCacheCoherent};

use crate::lookup::look_up;
use crate::mode::OpenMode;
use crate::qcow2::Qcow2;
use imago_access::{DriverModel, ShallowMapping};
use imago_storage::{Fault, Storage};
use qcow2_metadata::L2Mapping;
use qcow2_types::GuestOffset;

// Returns the answer of a lookup for a mapping, at `offset`, which is `within` bytes after the start of its cluster.
fn shallow(
    mapping: L2Mapping,
    mode: OpenMode,
    cluster_bits: u32,
    offset: u64,
    within: u64,
) -> ShallowMapping
    requires bits { (9 ≤ cluster_bits) × (cluster_bits ≤ 21) }
    requires named { IsHostAddressable cluster_bits mapping }
    requires within { within < 2 ^ cluster_bits }
    ensures { result ≡ shallow_of mode cluster_bits offset within (mapping_seen mapping) }
{
    match mapping {
        L2Mapping::DataFile {
            host_cluster,
            copied,
        } => ShallowMapping::Raw {
            storage: 0,
            offset: host_cluster.offset(cluster_bits).0 + within,
            writable: mode.writable && copied,
        },
        L2Mapping::Backing { .. } => {
            if mode.backing {
                ShallowMapping::Indirect {
                    offset,
                    writable: false,
                }
            } else {
                ShallowMapping::Zero { explicit: false }
            }
        }
        L2Mapping::Zero { .. } => ShallowMapping::Zero { explicit: true },
        L2Mapping::Compressed { .. } => ShallowMapping::Special { offset },
    }
}

// Returns the number of clusters of a range that starts `within` bytes after the start of its first cluster.
fn clusters_met(within: u64, length: u64, cluster_bits: u32) -> u64
    requires bits { (9 ≤ cluster_bits) × (cluster_bits ≤ 21) }
    requires nonempty { 0 < length }
    requires fits { within + length < 2 ^ 64 }
    ensures { result ≡ (within + length - 1) / 2 ^ cluster_bits + 1 }
{
    (within + (length - 1) >> cluster_bits) + 1
}

// Returns how many bytes of a range are in its first `count` clusters. The range starts `within` bytes after the start of its first
// cluster.
fn bytes_met(count: u64, within: u64, length: u64, cluster_bits: u32) -> u64
    requires bits { (9 ≤ cluster_bits) × (cluster_bits ≤ 21) }
    requires within { within ≤ count * 2 ^ cluster_bits }
    requires fits { count * 2 ^ cluster_bits < 2 ^ 64 }
    ensures { result ≡ min length (count * 2 ^ cluster_bits - within) }
{
    length.min((count << cluster_bits) - within)
}

impl<S: Storage> Qcow2<S> {
    // Sets the image to failed if the error is a storage fault.
    pub(crate) fn mark(&mut self, fault: Fault)
        ensures { self.new ≡ record self.old { failed = failed_by fault self.old.failed } }
    {
        if matches!(fault, Fault::Storage) {
            self.failed = true;
        }
    }

    // Returns the result of a call of a storage, after `mark` for its error.
    pub(crate) fn mark_fault(&mut self, answer: Result<(), Fault>) -> Result<(), Fault>
        ensures same { result ≡ answer }
        ensures marks_failed { self.new ≡ record self.old { failed = failed_after failed_by answer self.old.failed } }
    {
        match answer {
            Ok(()) => Ok(()),
            Err(fault) => {
                self.mark(fault);
                Err(fault)
            }
        }
    }

    // Like `mark_fault`, for a reload: any error other than `Fault::Memory` sets the image to failed.
    pub(crate) fn mark_reload_fault(&mut self, answer: Result<(), Fault>) -> Result<(), Fault>
        ensures same { result ≡ answer }
        ensures marks_failed { self.new ≡ record self.old { failed = failed_after failed_on_reload answer self.old.failed } }
    {
        match answer {
            Ok(()) => Ok(()),
            Err(fault) => {
                if !matches!(fault, Fault::Memory) {
                    self.failed = true;
                }
                Err(fault)
            }
        }
    }

    // Returns the mapping at an offset, and the length of its run in bytes, at most `max_length`. The run ends at the end of its L2 table
    // or of the disk, at the latest.
    pub(crate) fn run_from(
        &mut self,
        offset: u64,
        max_length: u64,
    ) -> Result<(ShallowMapping, u64), Fault>
        requires inside { offset < self.old.tables.file.header.fields.size }
        requires limit_nonzero { 0 < max_length }
        requires runs { self.old.failed ≡ false }
        ensures run { let d = ⟦<Qcow2<S> as DriverModel>⟧ in IfOk result (λ r. IsRun (d.layer self.old) offset max_length r.0 r.1) }
        ensures looks { let d = ⟦<Qcow2<S> as DriverModel>⟧ in
            IsCacheCoherent S.Storage self.old.tables → IfOk result (LooksIn d offset max_length self.old self.new) }
        ensures room { let d = ⟦<Qcow2<S> as DriverModel>⟧ in IsCacheCoherent S.Storage self.old.tables → IfOk result (ReportsAllocationIn d offset self.old) }
        ensures explicit_zero { let d = ⟦<Qcow2<S> as DriverModel>⟧ in
            IsCacheCoherent S.Storage self.old.tables → IfOk result (ReportsExplicitZero (d.explicit_zero self.old) offset) }
        ensures storage_exists { IfOk result (λ r. IsOneOf 1 r.0) }
        ensures end_bounded { IfOk result (λ r. EndsNear r.0 r.1) }
        ensures entry { let t = self.old.tables in
            IsCacheCoherent S.Storage self.old.tables → IfOk result (λ r. r.0 ≡ answer_at S.Storage t self.old.mode offset) }
        ensures whole { let t = self.old.tables in
            IsCacheCoherent S.Storage self.old.tables → IfOk result (λ r. IsWholeRunIn S.Storage t offset max_length r.1) }
        ensures keeps { KeepsImage S.Storage self.old result self.new }
        ensures stays_begun { let d = ⟦<Qcow2<S> as DriverModel>⟧ in
            HadNoResourceError result → (e : _) (call : _) → d.began e call self.old → d.began e call self.new }
        ensures marked { self.new.failed ≡ failed_after failed_by result self.old.failed }
        ensures lookup_call { LookupCall ⟦<Qcow2<S> as DriverModel>⟧ (HadNoResourceError result) self.old self.new }
        ensures failed { IfErr result (Fails ⟦<Qcow2<S> as DriverModel>⟧ self.old self.new) }
        ensures marks_failed { IfErr result (MarksFailed ⟦<Qcow2<S> as DriverModel>⟧ self.old self.new) }
        ensures cause { let d = ⟦<Qcow2<S> as DriverModel>⟧ in
            IsCacheCoherent S.Storage self.old.tables → IfErr result (RefusesLookup d offset max_length self.old self.new) }
    {
        let size = self.tables.file.header.size();
        let cluster_bits = self.tables.file.header.cluster_bits();
        let place = GuestOffset(offset);
        let within = place.in_cluster_offset(cluster_bits) as u64;
        let rest = place.remaining_in_l2_table(cluster_bits).min(size - offset);
        let length = max_length.min(rest);
        let most = clusters_met(within, length, cluster_bits);
        match look_up(&mut self.tables, place.cluster(cluster_bits), most) {
            Ok((mapping, count)) => {
                let length = bytes_met(count, within, length, cluster_bits);
                Ok((
                    shallow(mapping, self.mode, cluster_bits, offset, within),
                    length,
                ))
            }
            Err(fault) => {
                self.mark(fault);
                Err(fault)
            }
        }
    }
}
