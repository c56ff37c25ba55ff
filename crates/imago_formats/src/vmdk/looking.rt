// Lookups of the VMDK driver: the location of a guest offset in the files.
ghost use Rattle.std.specs.Prelude.{◌≡◌};
ghost use Rattle.imago_formats.specs.VmdkLayer.{mapping_of};

use crate::vmdk::descriptor::{Access, Extent, Source};
use imago_access::ShallowMapping;

/// Returns the mapping of the disk's `offset`, which is `within` bytes after the start of its extent. `number` is the number of the
/// extent's file.
pub(crate) fn mapping_at(
    extent: &Extent<String>,
    number: usize,
    offset: u64,
    within: u64,
) -> ShallowMapping
    ensures { result ≡ mapping_of extent.now.access extent.now.source number offset within }
{
    match extent.access {
        Access::NoAccess => ShallowMapping::Special { offset },
        Access::ReadWrite | Access::ReadOnly => match extent.source {
            Source::Flat { sector, .. } => ShallowMapping::Raw {
                storage: number,
                offset: sector.saturating_mul(512).saturating_add(within),
                writable: false,
            },
            Source::Zero => ShallowMapping::Zero { explicit: true },
        },
    }
}
