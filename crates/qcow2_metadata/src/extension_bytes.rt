// Encodes the header extensions of an image as bytes.
ghost use Rattle.std.specs.Prelude.{◌≡◌, ◌≤◌, ◌++◌, map, replicate, flat_map, OnOk, IfOk};
ghost use Rattle.std.specs.Option.{option_copied};
ghost use Rattle.qcow2_types.specs.HeaderBytes.{extension_bytes, extension_of, feature_bytes, names_data};
ghost use Rattle.qcow2_metadata.specs.Features.{seen_name};

use crate::extensions::FEATURE_NAMES;
use crate::features::FeatureName;
use std::alloc::{AllocError, Global};

/// The length of a feature bit's name in its extension, in bytes. A longer name is cut.
const NAME_LENGTH: usize = 46;

/// Appends `count` zero bytes.
fn push_zeroes(bytes: &mut Vec<u8>, count: usize) -> Result<(), AllocError>
    requires { count ≤ NAME_LENGTH }
    ensures { OnOk result (bytes.new.items ≡ bytes.old.items ++ replicate count 0) }
{
    bytes.extend_from_slice(&[0; NAME_LENGTH][..count])
}

/// Appends an extension: its type, its length, and its data, padded with zeroes to a multiple of 8 bytes.
fn push_extension(bytes: &mut Vec<u8>, kind: u32, data: &[u8]) -> Result<(), AllocError>
    ensures { OnOk result (bytes.new.items ≡ bytes.old.items ++ extension_bytes (kind, «data».now)) }
{
    bytes.extend_from_slice(&kind.to_be_bytes())?;
    // The low 32 bits are enough: an extension with more bytes doesn't fit a cluster, and isn't written.
    let length = (data.len() as u64).to_be_bytes();
    bytes.extend_from_slice(&length[4..])?;
    bytes.extend_from_slice(data)?;
    push_zeroes(bytes, (8 - data.len() % 8) % 8)
}

/// Appends an extension that holds a text. If `text` is `None`, nothing is appended.
pub(crate) fn push_text(
    bytes: &mut Vec<u8>,
    kind: u32,
    text: Option<&str>,
) -> Result<(), AllocError>
    ensures { OnOk result (bytes.new.items ≡ bytes.old.items ++ flat_map extension_bytes (extension_of kind (option_copied text.entry))) }
{
    match text {
        Some(text) => push_extension(bytes, kind, text.as_bytes()),
        None => Ok(()),
    }
}

/// Appends the name of a feature bit: its kind, its bit, and 46 bytes of text.
fn push_name(bytes: &mut Vec<u8>, name: &FeatureName) -> Result<(), AllocError>
    ensures { OnOk result (bytes.new.items ≡ bytes.old.items ++ feature_bytes (seen_name name.now)) }
{
    bytes.push(name.kind.to_kind())?;
    bytes.push(name.bit)?;
    let text = name.name.as_bytes();
    let length = text.len().min(NAME_LENGTH);
    bytes.extend_from_slice(&text[..length])?;
    push_zeroes(bytes, NAME_LENGTH - length)
}

/// Returns the names of feature bits as bytes, 48 for each name.
fn bytes_of_names(alloc: Global, names: &[FeatureName]) -> Result<Vec<u8>, AllocError>
    ensures { IfOk result (λ bytes. bytes.items ≡ flat_map feature_bytes (map seen_name names.now)) }
{
    let mut bytes = Vec::new(alloc);
    for name in names {
        push_name(&mut bytes, name)?;
    }
    Ok(bytes)
}

/// Appends the feature name table. If there are no names, nothing is appended.
pub(crate) fn push_names(
    bytes: &mut Vec<u8>,
    alloc: Global,
    names: &[FeatureName],
) -> Result<(), AllocError>
    ensures { OnOk result (bytes.new.items ≡ bytes.old.items
        ++ flat_map extension_bytes (extension_of FEATURE_NAMES (names_data (map seen_name names.now)))) }
{
    if names.is_empty() {
        return Ok(());
    }
    push_extension(bytes, FEATURE_NAMES, &bytes_of_names(alloc, names)?)
}
