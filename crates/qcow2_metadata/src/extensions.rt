// Decodes the header extensions of an image.
ghost use Rattle.std.specs.Prelude.{◌≡◌, ◌+◌, ◌/◌, ◌<◌, ◌≤◌, ◌^◌, length, Ok, Err, IfOk, IfErr, IfSome};
ghost use Rattle.std.specs.Option.{option_copied, option_map};
ghost use Rattle.qcow2_types.specs.Bytes.{bytes_of};
ghost use Rattle.qcow2_types.specs.Header.{extension_at, extensions_at};
ghost use Rattle.qcow2_metadata.specs.Extensions.{seen_extension, seen_known, known_of, newest, nothing_known};

use crate::numbers::u32_at;
use imago_storage::Fault;

/// The type of the extension that holds the backing file's format.
pub(crate) const BACKING_FORMAT: u32 = 0xe279_2aca;
/// The type of the extension that holds the external data file's name.
pub(crate) const EXTERNAL_DATA_FILE: u32 = 0x4441_5441;
/// The type of the extension that holds the names of feature bits.
pub(crate) const FEATURE_NAMES: u32 = 0x6803_f857;

/// An extension: its type and its data.
#[derive(Clone, Copy, Debug)]
pub(crate) struct Extension<'a> {
    kind: u32,
    bytes: &'a [u8],
}

/// The data of the known extensions, each the last of its type.
#[derive(Clone, Copy, Debug)]
pub(crate) struct KnownExtensions<'a> {
    pub(crate) backing_format: Option<&'a [u8]>,
    pub(crate) external_data_filename: Option<&'a [u8]>,
    pub(crate) feature_names: Option<&'a [u8]>,
}

impl KnownExtensions<'_> {
    /// Returns the value for a header without extensions.
    pub(crate) fn none() -> Self
        ensures { seen_known result ≡ nothing_known }
    {
        KnownExtensions {
            backing_format: None,
            external_data_filename: None,
            feature_names: None,
        }
    }
}

impl<'a> Extension<'a> {
    // Returns the data of the extension if it has this type, and otherwise `before`.
    fn bytes_or(self, kind: u32, before: Option<&'a [u8]>) -> Option<&'a [u8]>
        ensures { option_copied result ≡ newest kind (seen_extension self.entry) (option_copied before.entry) }
    {
        if self.kind == kind {
            Some(self.bytes)
        } else {
            before
        }
    }
}

/// Returns the extension at an index of an area that ends at `area_end`, or `None` if no more follow. Data that ends past
/// the area is `Fault::DamagedHeader`.
#[tactic(auto, using(crate::proofs::RunLemmas::run_slice), unfolding(qcow2_types::specs::Header::extension_at))]
fn extension_in(bytes: &[u8], area_end: usize, at: usize) -> Result<Option<Extension<'_>>, Fault>
    requires inside { area_end ≤ length bytes.now }
    requires offset_bounded { at < 2 ^ 40 }
    ensures ok { IfOk result (λ found. extension_at (bytes_of bytes.now) area_end at ≡ Ok (option_map seen_extension found)) }
    ensures err { IfErr result (λ e. extension_at (bytes_of bytes.now) area_end at ≡ Err e) }
    ensures within { IfOk result (λ found. IfSome found (λ x. at + 8 + length x.bytes.now ≤ area_end)) }
{
    let kind = u32_at(bytes, at);
    if area_end < at + 8 || kind == 0 {
        return Ok(None);
    }
    let size = u32_at(bytes, at + 4) as usize;
    if area_end < at + 8 + size {
        return Err(Fault::DamagedHeader);
    }
    Ok(Some(Extension {
        kind,
        bytes: &bytes[at + 8..at + 8 + size],
    }))
}

/// Returns the known extensions in the area from `start` to `area_end`. Data that ends past the area is
/// `Fault::DamagedHeader`.
pub(crate) fn known_extensions(
    bytes: &[u8],
    start: usize,
    area_end: usize,
) -> Result<KnownExtensions<'_>, Fault>
    requires inside { area_end ≤ length bytes.now }
    requires offset_bounded { start < 2 ^ 32 }
    requires small { length bytes.now < 2 ^ 32 }
    ensures ok { IfOk result (λ known. known_of (extensions_at (length bytes.now / 8) (bytes_of bytes.now) area_end start)
        ≡ Ok (seen_known known)) }
    ensures err { IfErr result (λ e. extensions_at (length bytes.now / 8) (bytes_of bytes.now) area_end start ≡ Err e) }
{
    let mut backing_format = None;
    let mut external_data_filename = None;
    let mut feature_names = None;
    let mut at = start;
    for _ in 0..bytes.len() / 8 {
        let Some(extension) = extension_in(bytes, area_end, at)? else {
            break;
        };
        backing_format = extension.bytes_or(BACKING_FORMAT, backing_format);
        external_data_filename = extension.bytes_or(EXTERNAL_DATA_FILE, external_data_filename);
        feature_names = extension.bytes_or(FEATURE_NAMES, feature_names);
        at = at + 8 + (extension.bytes.len() + 7) / 8 * 8;
    }
    Ok(KnownExtensions {
        backing_format,
        external_data_filename,
        feature_names,
    })
}
