// The fields of a header, and the rules on them, in the order in which they are checked.
ghost use Rattle.std.specs.Prelude.{◌≡◌, ◌≤◌, length};
ghost use Rattle.std.specs.Result.{result_err};
ghost use Rattle.qcow2_types.specs.Bytes.{be, bytes_of};
ghost use Rattle.qcow2_types.specs.Header.{fields_of, first_fault, rules_of_kind, rules_of_shape, rules_of_size};
ghost use Rattle.qcow2_metadata.specs.FieldsView.{seen_fields, older_base};
ghost use Rattle.qcow2_metadata.specs.Parts.{IsV2At, IsV3At};

use crate::words::is_cluster_offset;
use imago_storage::Fault;
use qcow2_types::{MAGIC, OnDiskStruct, V2Header, V3HeaderBase};

/// The known incompatible feature bits, all set.
const KNOWN_FEATURES: u64 = 0xf;

/// Returns the fields in the first 72 bytes of a file.
fn v2_part(bytes: &[u8]) -> V2Header
    requires { length bytes.now ≡ 72 }
    ensures { IsV2At (bytes_of bytes.now) result }
{
    V2Header::from_bytes(bytes)
}

/// Returns the fields in bytes 72 to 103 of a file.
fn v3_part(bytes: &[u8]) -> V3HeaderBase
    requires { length bytes.now ≡ 32 }
    ensures { IsV3At (bytes_of bytes.now) result }
{
    V3HeaderBase::from_bytes(bytes)
}

/// Returns the fields in the first 104 bytes of a file. Version 2 has no field past byte 71: its refcounts have 16 bits,
/// and it has no feature bits.
pub(crate) fn fields_at_start(start: &[u8]) -> (V2Header, V3HeaderBase)
    requires { length start.now ≡ 104 }
    ensures fields { seen_fields result.0 result.1 ≡ fields_of (bytes_of start.now) }
    ensures magic { result.0.magic ≡ be (bytes_of start.now) 0 4 }
    ensures older { result.0.version ≡ 2 → result.1 ≡ older_base }
{
    let v2 = v2_part(&start[..72]);
    let v3 = if v2.version == 3 {
        v3_part(&start[72..])
    } else {
        V3HeaderBase {
            incompatible_features: 0,
            compatible_features: 0,
            autoclear_features: 0,
            refcount_order: 4,
            header_length: 72,
        }
    };
    (v2, v3)
}

/// Checks the magic number and the version.
pub(crate) fn check_kind(start: &[u8], v2: &V2Header) -> Result<(), Fault>
    requires magic { v2.now.magic ≡ be (bytes_of start.now) 0 4 }
    requires version { v2.now.version ≡ be (bytes_of start.now) 4 4 }
    ensures { result_err result ≡ first_fault (rules_of_kind (bytes_of start.now)) }
{
    if v2.magic != MAGIC {
        return Err(Fault::DamagedHeader);
    }
    if v2.version != 2 && v2.version != 3 {
        return Err(Fault::Unsupported);
    }
    Ok(())
}

/// Checks the widths, the header's length, encryption and features.
pub(crate) fn check_shape(v2: &V2Header, v3: &V3HeaderBase) -> Result<(), Fault>
    ensures { result_err result ≡ first_fault (rules_of_shape (seen_fields v2.now v3.now)) }
{
    if v2.cluster_bits < 9 || v2.cluster_bits > 21 {
        return Err(Fault::DamagedHeader);
    }
    if v3.refcount_order > 6 {
        return Err(Fault::DamagedHeader);
    }
    if v2.version == 3 && (v3.header_length < 104 || v3.header_length > 1 << v2.cluster_bits) {
        return Err(Fault::DamagedHeader);
    }
    if v2.crypt_method != 0 {
        return Err(Fault::Unsupported);
    }
    if v3.incompatible_features > KNOWN_FEATURES {
        return Err(Fault::Unsupported);
    }
    Ok(())
}

/// Checks the sizes, and the offsets of the tables.
pub(crate) fn check_sizes(v2: &V2Header, v3: &V3HeaderBase) -> Result<(), Fault>
    requires low { 9 ≤ v2.now.cluster_bits }
    requires high { v2.now.cluster_bits ≤ 21 }
    ensures { result_err result ≡ first_fault (rules_of_size (seen_fields v2.now v3.now)) }
{
    if v2.size > (1 << 63) - 1 {
        return Err(Fault::Limit(v2.size));
    }
    if v2.l1_size > 1 << 22 {
        return Err(Fault::Limit(u64::from(v2.l1_size)));
    }
    let entries = u64::from(v2.refcount_table_clusters) * ((1 << v2.cluster_bits) / 8);
    if entries > 1 << 20 {
        return Err(Fault::Limit(entries));
    }
    if !is_cluster_offset(v2.l1_table_offset, v2.cluster_bits)
        || !is_cluster_offset(v2.refcount_table_offset, v2.cluster_bits)
    {
        return Err(Fault::DamagedHeader);
    }
    Ok(())
}
