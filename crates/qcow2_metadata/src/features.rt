// The feature name table: the names that a header gives to feature bits.
ghost use Rattle.std.specs.Prelude.{◌≡◌, ◌==◌, not, map, length, IfOk, OnOk, IsTrue};
ghost use Rattle.std.specs.List.{position};
ghost use Rattle.std.specs.Option.{option_copied, option_map, option_to_list};
ghost use Rattle.qcow2_types.specs.Header.{comes_before as is_before, with_name, feature_in, features_read};
ghost use Rattle.qcow2_types.specs.Features.{kind_of};
ghost use Rattle.qcow2_metadata.specs.Features.{seen_name, name_of, in_order};

use qcow2_types::FeatureType;
use std::alloc::{AllocError, Global};

/// The name of a feature bit.
#[derive(Debug, Drop)]
pub(crate) struct FeatureName {
    pub(crate) kind: FeatureType,
    pub(crate) bit: u8,
    pub(crate) name: String,
}

/// The length of an entry of the feature name table: the kind, the bit, and the name, which ends at the first byte 0.
const ENTRY_LENGTH: usize = 48;

impl FeatureName {
    ghost use Rattle.qcow2_metadata.specs.Features.{seen_name};

    // Returns true if the name is sorted before the other: by kind, then by bit.
    fn comes_before(&self, other: &FeatureName) -> bool
        ensures { result ≡ is_before (seen_name self.now) (seen_name other.now) }
    {
        let (kind, other_kind) = (self.kind as u8, other.kind as u8);
        kind < other_kind || kind == other_kind && self.bit < other.bit
    }
}

/// Returns the index of the first name that isn't sorted before this one.
fn place_for(names: &[FeatureName], name: &FeatureName) -> Option<usize>
    ensures { result ≡ position (λ known. not (is_before (seen_name known) (seen_name name.now))) names.now }
{
    names.iter().position(|known| !known.comes_before(name))
}

/// Inserts a name into a list that is sorted by kind and bit. It replaces a name of the same kind and bit.
fn put_name(names: &mut Vec<FeatureName>, name: FeatureName) -> Result<(), AllocError>
    ensures { OnOk result (map seen_name names.new.items ≡ with_name (seen_name name) (map seen_name names.old.items)) }
{
    let at = place_for(names, &name).unwrap_or(names.len());
    if at < names.len() && !name.comes_before(&names[at]) {
        names[at] = name;
    } else {
        names.insert(at, name)?;
    }
    Ok(())
}

/// Returns the index of the first byte 0.
fn place_of_zero(text: &[u8]) -> Option<usize>
    ensures { result ≡ position (λ b. b == 0) text.now }
{
    text.iter().position(|b| *b == 0)
}

/// Returns the name in an entry of the table, or `None` if the kind is unknown or the name isn't UTF-8.
fn name_in_entry(alloc: Global, entry: &[u8]) -> Result<Option<FeatureName>, AllocError>
    requires { length entry.now ≡ ENTRY_LENGTH }
    ensures { IfOk result (λ found. feature_in entry.now ≡ option_to_list (option_map seen_name found)) }
{
    let Some(kind) = FeatureType::from_kind(entry[0]) else {
        return Ok(None);
    };
    let text = &entry[2..];
    let end = place_of_zero(text).unwrap_or(text.len());
    let Ok(name) = str::from_utf8(&text[..end]) else {
        return Ok(None);
    };
    let name = String::from_str(alloc, name)?;
    Ok(Some(FeatureName {
        kind,
        bit: entry[1],
        name,
    }))
}

/// Returns the names in the extension, if any, sorted by kind and then by bit. If a bit has two names, the last one is
/// used.
pub(crate) fn names_in(
    alloc: Global,
    extension: Option<&[u8]>,
) -> Result<Vec<FeatureName>, AllocError>
    ensures value { IfOk result (λ names. map seen_name names.items ≡ features_read (option_copied extension.entry)) }
    ensures ordered { IfOk result (λ names. IsTrue (in_order (map seen_name names.items))) }
{
    let mut names = Vec::new(alloc);
    let Some(bytes) = extension else {
        return Ok(names);
    };
    for i in 0..bytes.len() / ENTRY_LENGTH {
        let at = i * ENTRY_LENGTH;
        if let Some(name) = name_in_entry(alloc, &bytes[at..at + ENTRY_LENGTH])? {
            put_name(&mut names, name)?;
        }
    }
    Ok(names)
}

/// Returns the name of the bit of this kind, if it has one.
pub(crate) fn name_in(names: &[FeatureName], kind: FeatureType, bit: u32) -> Option<&str>
    ensures { option_copied result ≡ name_of (kind_of kind) bit (map seen_name names.now) }
{
    for known in names {
        if known.kind as u8 == kind as u8 && u32::from(known.bit) == bit {
            return Some(known.name.as_str());
        }
    }
    None
}
