// The disk of a descriptor: its extents, one after another.
ghost use Rattle.std.specs.Prelude.{◌≡◌, ◌+◌, if◌then◌else◌, ◌<◌, ◌≤◌, ◌^◌, IfOk, IfErr, IfSome, IfNone};
ghost use Rattle.imago_storage.specs.declared.fault.Fault.TheVariants.{DamagedDescriptor};
ghost use Rattle.imago_formats.specs.Descriptor.{size_of};
ghost use Rattle.imago_formats.specs.VmdkLayer.{IsExtentAt, files_asked, has_file};

use crate::vmdk::descriptor::{Access, Extent, Source};
use imago_storage::Fault;

/// The extents of a disk with less than 2^63 bytes.
#[derive(Drop)]
pub(crate) struct Disk {
    extents: Vec<Extent<String>>,
    size: u64,
    // The number of files that the extents need. Each call of the image checks it.
    asked: usize,
    ghost exact: { size ≡ size_of extents.items },
    ghost small: { size < 2 ^ 63 },
    ghost counted: { asked ≡ files_asked extents.items },
}

/// An extent with its position on the disk.
#[derive(Drop)]
pub(crate) struct Found<'a> {
    /// The extent.
    pub(crate) extent: &'a Extent<String>,
    /// The offset on the disk at which the extent starts.
    pub(crate) start: u64,
    /// The number of the extent's file, counted from 1, if the extent has a file.
    pub(crate) number: usize,
}

impl Disk {
    /// Creates the disk of these extents. Fails with `Fault::DamagedDescriptor` if it has 2^63 bytes or more.
    pub(crate) fn new(extents: Vec<Extent<String>>) -> Result<Self, Fault>
        ensures ok { IfOk result (λ d. (d.extents ≡ extents) × (size_of extents.items < 2 ^ 63)) }
        ensures err { IfErr result (λ e. (e ≡ DamagedDescriptor) × (2 ^ 63 ≤ size_of extents.items)) }
    {
        let size = total_size(&extents)?;
        let asked = files_asked(&extents);
        Ok(Disk {
            extents,
            size,
            asked,
        })
    }

    /// Returns the size in bytes.
    pub(crate) fn size(&self) -> u64
        ensures { result ≡ size_of self.now.extents.items }
    {
        self.size
    }

    /// Returns the extents.
    pub(crate) fn extents(&self) -> &[Extent<String>]
        ensures { result.now ≡ self.now.extents.items }
    {
        &self.extents
    }

    /// Returns the number of files that the extents need.
    pub(crate) fn asked(&self) -> usize
        ensures { result ≡ files_asked self.now.extents.items }
    {
        self.asked
    }

    /// Finds the extent that contains an offset.
    pub(crate) fn find(&self, offset: u64) -> Option<Found<'_>>
        ensures found { IfSome result (λ f. IsExtentAt self.now.extents.items offset f.extent.now f.start f.number) }
        ensures none { IfNone result (size_of self.now.extents.items ≤ offset) }
    {
        let mut start: u64 = 0;
        let mut number: usize = 1;
        for extent in &self.extents {
            let size = extent.sectors * 512;
            if offset - start < size {
                return Some(Found {
                    extent,
                    start,
                    number,
                });
            }
            start += size;
            number = number_after(number, extent);
        }
        None
    }
}

/// Returns true if the extent needs a file.
pub(crate) fn has_file(extent: &Extent<String>) -> bool
    ensures { result ≡ has_file extent.now }
{
    match extent.access {
        Access::NoAccess => false,
        Access::ReadWrite | Access::ReadOnly => match extent.source {
            Source::Flat { .. } => true,
            Source::Zero => false,
        },
    }
}

// Returns the number of the next file after an extent.
fn number_after(number: usize, extent: &Extent<String>) -> usize
    requires { number < 2 ^ 63 }
    ensures { result ≡ (if has_file extent.now then number + 1 else number) }
{
    if has_file(extent) { number + 1 } else { number }
}

// Counts the files that the extents need.
fn files_asked(extents: &[Extent<String>]) -> usize
    ensures { result ≡ files_asked extents.now }
{
    let mut count = 0;
    for extent in extents {
        if has_file(extent) {
            count += 1;
        }
    }
    count
}

// Returns the size of the disk in bytes, if it is less than 2^63.
fn total_size(extents: &[Extent<String>]) -> Result<u64, Fault>
    ensures ok { IfOk result (λ n. (n ≡ size_of extents.now) × (n < 2 ^ 63)) }
    ensures err { IfErr result (λ e. (e ≡ DamagedDescriptor) × (2 ^ 63 ≤ size_of extents.now)) }
{
    let mut sectors: u64 = 0;
    for extent in extents {
        sectors = sectors.saturating_add(extent.sectors);
    }
    if sectors > i64::MAX as u64 / 512 {
        return Err(Fault::DamagedDescriptor);
    }
    Ok(sectors * 512)
}
