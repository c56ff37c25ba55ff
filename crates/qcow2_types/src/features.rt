// The feature bits of the header, and the types of features. Their numbers are defined in specs/Features.antt.

ghost use Rattle.std.specs.Prelude.{◌≡◌, ◌<◌, ◌↔◌, IfSome, IsNone};
ghost use Rattle.qcow2_types.specs.Features.{kind_of, incompatible_bit, compatible_bit, autoclear_bit};
ghost use Rattle.qcow2_types.specs.declared.features.FeatureType.TheVariants.{Incompatible, Compatible, Autoclear};

/// The type of a feature: what a program does with an image that has a feature it doesn't know. The type also says which header field has
/// the feature's bit (the section "Header" of the format). Its number is used in the extension of feature names (the section "Feature
/// name table").
#[derive(Clone, Copy, PartialEq, Eq, PartialOrd, Ord, Debug, Hash)]
pub enum FeatureType {
    /// The program doesn't open the image.
    Incompatible = 0,
    /// The program ignores the feature.
    Compatible = 1,
    /// The program clears the bit before it writes.
    Autoclear = 2,
}

impl FeatureType {
    /// Returns the number of the type in the feature name extension: 0, 1 or 2.
    pub fn to_kind(self) -> u8
        ensures { result ≡ kind_of self }
    {
        self as u8
    }

    /// Returns the type with this number, or `None` if the number is above 2.
    pub fn from_kind(kind: u8) -> Option<FeatureType>
        ensures known { IfSome result (λ feature_type. kind_of feature_type ≡ kind) }
        ensures unknown { IsNone result ↔ (2 < kind) }
    {
        match kind {
            0 => Some(FeatureType::Incompatible),
            1 => Some(FeatureType::Compatible),
            2 => Some(FeatureType::Autoclear),
            _ => None,
        }
    }
}

/// The incompatible features, by their bits in bytes 72 to 79 of the header.
#[derive(Clone, Copy, PartialEq, Eq, PartialOrd, Ord, Debug, Hash)]
pub enum IncompatibleFeatures {
    /// Refcounts may be lower than they should be.
    Dirty = 0,
    /// Some metadata is damaged.
    Corrupt = 1,
    /// The guest's data is in an external data file.
    ExternalDataFile = 2,
    /// Clusters are compressed by another method than deflate.
    CompressionType = 3,
    /// L2 entries have 16 bytes.
    ExtendedL2Entries = 4,
}

/// The compatible features, by their bits in bytes 80 to 87 of the header.
#[derive(Clone, Copy, PartialEq, Eq, PartialOrd, Ord, Debug, Hash)]
pub enum CompatibleFeatures {
    /// Refcounts may be written late.
    LazyRefcounts = 0,
}

/// The autoclear features, by their bits in bytes 88 to 95 of the header.
#[derive(Clone, Copy, PartialEq, Eq, PartialOrd, Ord, Debug, Hash)]
pub enum AutoclearFeatures {
    /// The image has dirty bitmaps, and they are up to date.
    Bitmaps = 0,
    /// The external data file is a raw image of the disk.
    RawExternalData = 1,
}

/// Returns the feature's type and its bit.
impl From<IncompatibleFeatures> for (FeatureType, u8) {
    ghost from_gives = { λ feature r. r ≡ (Incompatible, incompatible_bit feature) };

    fn from(feature: IncompatibleFeatures) -> (FeatureType, u8) {
        (FeatureType::Incompatible, feature as u8)
    }
}

/// Returns the feature's type and its bit.
impl From<CompatibleFeatures> for (FeatureType, u8) {
    ghost from_gives = { λ feature r. r ≡ (Compatible, compatible_bit feature) };

    fn from(feature: CompatibleFeatures) -> (FeatureType, u8) {
        (FeatureType::Compatible, feature as u8)
    }
}

/// Returns the feature's type and its bit.
impl From<AutoclearFeatures> for (FeatureType, u8) {
    ghost from_gives = { λ feature r. r ≡ (Autoclear, autoclear_bit feature) };

    fn from(feature: AutoclearFeatures) -> (FeatureType, u8) {
        (FeatureType::Autoclear, feature as u8)
    }
}
