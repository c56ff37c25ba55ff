// The header of an image: its fields and the calls that return them. The submodules load, make, change and write
// headers.
ghost use Rattle.std.specs.Prelude.{◌≡◌, ◌+◌, ◌-◌, ◌^◌, ◌≤◌, ◌↔◌, ◌⊎◌, [], IsOk, IsOkUnless};
ghost use Rattle.std.specs.Option.{option_copied};
ghost use Rattle.qcow2_types.specs.Header.{Shaped, cluster_size as cluster_size_of, entries_of_cluster, refcount_table_entries, has_external_data};
ghost use Rattle.qcow2_types.specs.Counts.{counters_of_block};
ghost use Rattle.qcow2_types.specs.Features.{kind_of};
ghost use Rattle.qcow2_metadata.specs.Features.{name_of};

mod loading;
mod making;
mod placing;
mod updating;
mod writing;

use crate::features::{FeatureName, name_in};
use imago_storage::Fault;
use qcow2_types::{ClusterCount, FeatureType, HostOffset, V2Header, V3HeaderBase};
use std::marker::Model;

/// The maximum length of a backing file's name, in bytes.
const MAX_BACKING_NAME: u32 = 1023;

/// The length of a write that changes the disk size or a table's offset, in bytes: up to and including the number of snapshots. It is a
/// power of two, so the write is one request for every alignment of the storage.
const FIRST_FIELDS: usize = 64;

/// The header of a qcow2 image.
///
/// In contracts the fields have the values of the file, and the texts are bytes. The texts are the backing file's name and format, the
/// external data file's name, and the names of feature bits. A header of version 2 has no feature bits, and its refcounts have 16 bits.
#[derive(Drop)]
pub struct Header {
    v2: V2Header,
    v3: V3HeaderBase,
    backing_filename: Option<String>,
    backing_format: Option<String>,
    external_data_filename: Option<String>,
    // Sorted by kind, then by bit.
    feature_names: Vec<FeatureName>,
}

impl Model for Header {
    ghost use Rattle.qcow2_types.specs.Header.{Header as HeaderRecord};

    ghost Value = { HeaderRecord };

    ghost use Rattle.qcow2_metadata.specs.HeaderView.{seen_header, HeaderInvariant};

    ghost view = { seen_header };

    ghost invariant = { HeaderInvariant };
}

impl Header {
    /// Returns the size of the disk, in bytes.
    pub fn size(&self) -> u64
        ensures { result ≡ self.now.fields.size }
    {
        self.v2.size
    }

    /// Sets the size of the disk, in bytes. The file is not written.
    pub fn set_size(&mut self, new_size: u64)
        ensures { self.new ≡ record self.old { fields = record self.old.fields { size = new_size } } }
    {
        self.v2.size = new_size;
    }

    /// Returns the version of the format, 2 or 3.
    pub fn version(&self) -> u32
        ensures value { result ≡ self.now.fields.version }
        ensures known { (result ≡ 2) ⊎ (result ≡ 3) }
    {
        self.v2.version
    }

    /// Checks that the version is at least `minimum`.
    ///
    /// # Errors
    ///
    /// - `Fault::VersionLimit` if the version is less than `minimum`.
    pub fn require_version(&self, minimum: u32) -> Result<(), Fault>
        ensures ok { IsOk result ↔ (minimum ≤ self.now.fields.version) }
        ensures err { IsOkUnless result Fault.VersionLimit }
    {
        if self.v2.version < minimum {
            return Err(Fault::VersionLimit);
        }
        Ok(())
    }

    /// Returns the base-2 logarithm of the cluster size in bytes: 9 to 21.
    pub fn cluster_bits(&self) -> u32
        ensures value { result ≡ self.now.fields.cluster_bits }
        ensures shaped { Shaped self.now.fields }
    {
        self.v2.cluster_bits
    }

    /// Returns the size of a cluster, in bytes: 512 to 2 MiB.
    pub fn cluster_size(&self) -> usize
        ensures value { result ≡ cluster_size_of self.now.fields }
        ensures bounds { (512 ≤ result) × (result ≤ 2_097_152) }
    {
        1 << self.v2.cluster_bits
    }

    /// Returns the number of entries of an L2 table, which fills one cluster.
    pub fn l2_entries(&self) -> usize
        ensures { result ≡ entries_of_cluster self.now.fields }
    {
        self.cluster_size() / 8
    }

    /// Returns the base-2 logarithm of the refcount width in bits: 0 to 6.
    pub fn refcount_order(&self) -> u32
        ensures value { result ≡ self.now.fields.refcount_order }
        ensures shaped { Shaped self.now.fields }
    {
        self.v3.refcount_order
    }

    /// Returns the base-2 logarithm of the number of refcounts in a refcount block, which fills one cluster.
    pub fn rb_bits(&self) -> u32
        ensures value { result ≡ self.now.fields.cluster_bits + 3 - self.now.fields.refcount_order }
        ensures entries { 2 ^ result ≡ counters_of_block self.now.fields }
        ensures bounds { (6 ≤ result) × (result ≤ 24) }
    {
        self.v2.cluster_bits + 3 - self.v3.refcount_order
    }

    /// Returns the number of refcounts in a refcount block: 2^6 to 2^24.
    pub fn rb_entries(&self) -> usize
        ensures value { result ≡ counters_of_block self.now.fields }
        ensures bounds { (64 ≤ result) × (result ≤ 2 ^ 24) }
    {
        1 << self.rb_bits()
    }

    /// Returns the host offset of the L1 table.
    pub fn l1_table_offset(&self) -> HostOffset
        ensures { result ≡ self.now.fields.l1_offset }
    {
        HostOffset(self.v2.l1_table_offset)
    }

    /// Returns the number of entries of the L1 table.
    pub fn l1_table_entries(&self) -> usize
        ensures { result ≡ self.now.fields.l1_entries }
    {
        self.v2.l1_size as usize
    }

    /// Returns the host offset of the refcount table.
    pub fn reftable_offset(&self) -> HostOffset
        ensures { result ≡ self.now.fields.refcount_table_offset }
    {
        HostOffset(self.v2.refcount_table_offset)
    }

    /// Returns the number of clusters of the refcount table.
    pub fn reftable_clusters(&self) -> ClusterCount
        ensures { result ≡ self.now.fields.refcount_table_clusters }
    {
        ClusterCount(u64::from(self.v2.refcount_table_clusters))
    }

    /// Returns the number of entries of the refcount table.
    pub fn reftable_entries(&self) -> usize
        ensures { result ≡ refcount_table_entries self.now.fields }
    {
        self.v2.refcount_table_clusters as usize * self.l2_entries()
    }

    /// Returns the name of the backing file, or `None` if the image has no backing file.
    pub fn backing_filename(&self) -> Option<&str>
        ensures { option_copied result ≡ self.now.backing_name }
    {
        self.backing_filename.as_deref()
    }

    /// Returns the format of the backing file, or `None` if the header doesn't give it.
    pub fn backing_format(&self) -> Option<&str>
        ensures { option_copied result ≡ self.now.backing_format }
    {
        self.backing_format.as_deref()
    }

    /// Returns true if the guest's data is in an external data file (incompatible feature bit 2).
    pub fn external_data_file(&self) -> bool
        ensures { result ≡ has_external_data self.now.fields }
    {
        self.v3.incompatible_features >> 2 & 1 == 1
    }

    /// Returns the name of the external data file, if the header gives it. The name may be present even if the guest's data is in the image
    /// file.
    pub fn external_data_filename(&self) -> Option<&str>
        ensures { option_copied result ≡ self.now.data_file_name }
    {
        self.external_data_filename.as_deref()
    }

    /// Returns the name of a feature bit, if the image gives one.
    pub fn feature_name(&self, kind: FeatureType, bit: u32) -> Option<&str>
        ensures { option_copied result ≡ name_of (kind_of kind) bit self.now.features }
    {
        name_in(&self.feature_names, kind, bit)
    }

    /// Removes the names of feature bits, and frees their memory.
    ///
    /// The file is not written and keeps the names. A header that is written afterwards has no feature name table (the
    /// section "Feature name table"). `update` treats this header and a header with names as different.
    pub fn forget_feature_names(&mut self)
        ensures { self.new ≡ record self.old { features = [] } }
    {
        self.feature_names.clear();
        self.feature_names.shrink_to_fit();
    }

    /// Returns the number of snapshots.
    pub fn snapshots(&self) -> u32
        ensures { result ≡ self.now.fields.snapshots }
    {
        self.v2.nb_snapshots
    }
}
