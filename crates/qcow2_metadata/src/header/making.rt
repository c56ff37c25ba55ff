// Makes the header of a new image.
ghost use Rattle.std.specs.Prelude.{◌≡◌, ◌≤◌, IfOk, IsOkUnless, map};
ghost use Rattle.qcow2_types.specs.HeaderBytes.{new_header, new_fields, first_features};
ghost use Rattle.qcow2_metadata.specs.FieldsView.{seen_fields};
ghost use Rattle.qcow2_metadata.specs.HeaderView.{seen_text};
ghost use Rattle.qcow2_metadata.specs.Features.{seen_name};
ghost use Rattle.qcow2_types.specs.Features.{incompatible_bit};

use super::Header;
use crate::features::FeatureName;
use imago_storage::Fault;
use qcow2_types::{FeatureType, IncompatibleFeatures, MAGIC, V2Header, V3HeaderBase};
use std::alloc::{AllocError, Global};

/// Returns the name of an incompatible feature bit.
fn incompatible(
    alloc: Global,
    bit: IncompatibleFeatures,
    name: &str,
) -> Result<FeatureName, AllocError>
    ensures { IfOk result (λ made. seen_name made ≡ record { kind = 0; bit = incompatible_bit bit; name = name.now }) }
{
    Ok(FeatureName {
        kind: FeatureType::Incompatible,
        bit: bit as u8,
        name: String::from_str(alloc, name)?,
    })
}

/// Returns the names of feature bits of a new header.
fn first_names(alloc: Global) -> Result<Vec<FeatureName>, AllocError>
    ensures { IfOk result (λ names. map seen_name names.items ≡ first_features) }
{
    let dirty = incompatible(alloc, IncompatibleFeatures::Dirty, "dirty bit")?;
    let corrupt = incompatible(alloc, IncompatibleFeatures::Corrupt, "corrupt bit")?;
    let external = incompatible(
        alloc,
        IncompatibleFeatures::ExternalDataFile,
        "external data file",
    )?;
    Ok(vec![in alloc; dirty, corrupt, external]?)
}

/// Returns the fields of a new header.
fn first_fields(
    cluster_bits: u32,
    refcount_order: u32,
    has_data_file: bool,
) -> (V2Header, V3HeaderBase)
    ensures fields { seen_fields result.0 result.1 ≡ new_fields cluster_bits refcount_order has_data_file }
    ensures magic { result.0.magic ≡ 0x5146_49fb }
{
    let v2 = V2Header {
        magic: MAGIC,
        version: 3,
        backing_filename_offset: 0,
        backing_filename_size: 0,
        cluster_bits,
        size: 0,
        crypt_method: 0,
        l1_size: 0,
        l1_table_offset: 0,
        refcount_table_offset: 0,
        refcount_table_clusters: 0,
        nb_snapshots: 0,
        snapshots_offset: 0,
    };
    let data_file_bit = 1 << (IncompatibleFeatures::ExternalDataFile as u8);
    let v3 = V3HeaderBase {
        incompatible_features: if has_data_file { data_file_bit } else { 0 },
        refcount_order,
        ..V3HeaderBase::default()
    };
    (v2, v3)
}

impl Header {
    /// Makes a header of version 3 for a new image.
    ///
    /// The size is 0, and the image has no tables and no snapshots. Clusters have 2^`cluster_bits` bytes and refcounts
    /// 2^`refcount_order` bits. The feature name table (the section "Feature name table" of the format) has the dirty bit,
    /// the corrupt bit and the external data file bit. Incompatible feature bit 2 is set exactly if an external data file's
    /// name is given.
    ///
    /// # Errors
    ///
    /// - `Fault::Memory`. The given texts are dropped.
    pub fn new(
        alloc: Global,
        cluster_bits: u32,
        refcount_order: u32,
        backing_filename: Option<String>,
        backing_format: Option<String>,
        external_data_file: Option<String>,
    ) -> Result<Header, Fault>
        requires low { 9 ≤ cluster_bits }
        requires high { cluster_bits ≤ 21 }
        requires order { refcount_order ≤ 6 }
        ensures ok { IfOk result (λ header. header ≡ new_header cluster_bits refcount_order (seen_text backing_filename)
            (seen_text backing_format) (seen_text external_data_file)) }
        ensures err { IsOkUnless result Fault.Memory }
    {
        let feature_names = first_names(alloc)?;
        let (v2, v3) = first_fields(cluster_bits, refcount_order, external_data_file.is_some());
        Ok(Header {
            v2,
            v3,
            backing_filename,
            backing_format,
            external_data_filename: external_data_file,
            feature_names,
        })
    }
}
