// Copy on write: makes the bytes of a new host cluster from what its guest cluster reads. The bytes come from the layers below, or from a
// cluster of the file that other guest clusters may share. Definitions: specs/Filling.antt.
ghost use Rattle.std.specs.Prelude.{◌≡◌, ◌<◌, ◌≤◌, ◌+◌, ◌-◌, ◌%◌, ℕ, false, length, replicate, slice_index, IfOk, IfErr};
ghost use Rattle.imago_access.specs.Changes.{asking};
ghost use Rattle.imago_access.specs.declared.driver_model.LayersBelowModel.{Ghosts as BelowGhosts};
ghost use Rattle.qcow2_types.specs.Header.{cluster_size};
ghost use Rattle.qcow2_image.specs.Allocating.{IsShownAddressable};
ghost use Rattle.qcow2_image.specs.Filling.{CopiesPart, CopiesShown, MakesContent, first_places};

use crate::allocating::Shown;
use crate::qcow2::Qcow2;
use imago_access::{LayersBelowModel, ReadBelow};
use imago_storage::{Fault, Storage, StorageExt};
use qcow2_types::GuestOffset;
use std::alloc::Global;

// Returns `count` zeroes.
fn zeroes(alloc: Global, count: usize) -> Result<Vec<u8>, Fault>
    ensures ok { IfOk result (λ bytes. bytes.items ≡ replicate count 0) }
    ensures err { IfErr result (λ e. e ≡ Fault.Memory) }
{
    Ok(vec![in alloc; 0u8; count]?)
}

// Returns the part of the bytes from `start` to `end` that must be copied. It is all of them, except a range at the start or the end that
// will be overwritten.
fn copied_part(start: u64, end: u64, offset: u64, length: u64, overwrite: bool) -> (u64, u64)
    requires low { start ≤ offset }
    requires high { offset + length ≤ end }
    ensures { CopiesPart start end (asking offset length overwrite) result }
{
    if overwrite && offset == start {
        (offset + length, end)
    } else if overwrite && offset + length == end {
        (start, offset)
    } else {
        (start, end)
    }
}

impl<S: Storage> Qcow2<S> {
    // Returns the start and the end of the part of the disk that is in the guest cluster of an offset.
    fn first_places(&self, offset: u64) -> (u64, u64)
        requires inside { offset < self.now.tables.file.header.fields.size }
        ensures { result ≡ first_places self.now.tables.file.header.fields offset }
    {
        let cluster_bits = self.tables.file.header.cluster_bits();
        let start = GuestOffset(offset)
            .cluster(cluster_bits)
            .offset(cluster_bits)
            .0;
        let rest = self.tables.file.header.size() - start;
        let count = rest.min(self.tables.file.header.cluster_size() as u64);
        (start, start + count)
    }

    // Reads what the guest reads in a guest cluster, from the offset `first` on, into a buffer of zeroes. A storage fault, also one of the
    // layers below, sets the image to failed.
    fn read_shown<B: ReadBelow>(
        &mut self,
        alloc: Global,
        below: &mut B,
        shown: Shown,
        buf: &mut [u8],
        first: u64,
    ) -> Result<(), Fault>
        requires reach { IsShownAddressable self.old.tables.file.header.fields.cluster_bits shown }
        requires row { let c = cluster_size self.old.tables.file.header.fields in first % c + length buf.old ≤ c }
        requires nonempty { 0 < length buf.old }
        requires zero { (i : ℕ) → i < length buf.old → slice_index buf.old i ≡ 0 }
        ensures { CopiesShown S.Storage B.LayersBelowModel shown (first, first + length buf.old) (self.old, below.old) result (self.new, below.new)
            (λ p. slice_index buf.new (p - first)) }
    {
        match shown {
            Shown::Zeroes => Ok(()),
            Shown::Barred => Err(Fault::Barred),
            Shown::Below => {
                let answer = below.read(alloc, buf, first);
                self.mark_fault(answer)
            }
            Shown::Data(cluster) => {
                let cluster_bits = self.tables.file.header.cluster_bits();
                let place = cluster.relative_offset(GuestOffset(first), cluster_bits).0;
                let answer = self.tables.file.image.read(alloc, buf, place);
                self.mark_fault(answer)
            }
        }
    }

    // Copies the guest's bytes of `part` into `content`, which is the whole cluster from `start` on and was all zeroes.
    fn copy_shown<B: ReadBelow>(
        &mut self,
        alloc: Global,
        below: &mut B,
        shown: Shown,
        content: &mut [u8],
        start: u64,
        part: (u64, u64),
    ) -> Result<(), Fault>
        requires reach { IsShownAddressable self.old.tables.file.header.fields.cluster_bits shown }
        requires begins { start % cluster_size self.old.tables.file.header.fields ≡ 0 }
        requires whole { length content.old ≡ cluster_size self.old.tables.file.header.fields }
        requires low { start ≤ part.0 }
        requires order { part.0 ≤ part.1 }
        requires fits { part.1 - start ≤ length content.old }
        requires zero { content.old ≡ replicate (length content.old) 0 }
        ensures copies { CopiesShown S.Storage B.LayersBelowModel shown part (self.old, below.old) result (self.new, below.new)
            (λ p. slice_index content.new (p - start)) }
        ensures rest { (i : ℕ) → part.1 - start ≤ i → slice_index content.new i ≡ 0 }
    {
        let (first, end) = part;
        if first == end {
            return Ok(());
        }
        let from = (first - start) as usize;
        let to = (end - start) as usize;
        self.read_shown(alloc, below, shown, &mut content[from..to], first)
    }

    // Returns the bytes of a host cluster for a part of a guest cluster that can't be written in place: what the guest reads there.
    pub(crate) fn content_for<B: ReadBelow>(
        &mut self,
        alloc: Global,
        below: &mut B,
        offset: u64,
        length: u64,
        overwrite: bool,
    ) -> Result<Vec<u8>, Fault>
        requires inside { offset + length ≤ self.old.tables.file.header.fields.size }
        requires row { let c = cluster_size self.old.tables.file.header.fields in length ≤ c - offset % c }
        requires nonempty { 0 < length }
        requires runs { self.old.failed ≡ false }
        ensures { MakesContent S.Storage B.LayersBelowModel (asking offset length overwrite) (self.old, below.old) result (self.new, below.new) }
    {
        let cluster_bits = self.tables.file.header.cluster_bits();
        let guest = GuestOffset(offset).cluster(cluster_bits);
        let shown = self.shown_at(guest)?;
        let size = self.tables.file.header.cluster_size();
        let mut content = zeroes(alloc, size)?;
        let (start, end) = self.first_places(offset);
        let part = copied_part(start, end, offset, length, overwrite);
        self.copy_shown(alloc, below, shown, &mut content, start, part)?;
        Ok(content)
    }
}
