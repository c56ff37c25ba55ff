//! The qcow2 format: its constants, the meaning of its metadata, and small types for offsets, clusters and header fields. The meaning is
//! given as definitions over the bytes of a file, in `specs`. The modules `laws`, `steps` and `two_versions` state theorems that follow
//! from the definitions. Terms are explained in docs/GLOSSARY.md.
#![tactic(auto)]

pub mod bits;
mod count;
mod features;
mod guest;
mod host;
pub mod laws;
mod on_disk;
mod pending;
pub mod steps;
pub mod two_versions;
pub mod worked_image;

pub use count::ClusterCount;
pub use features::{AutoclearFeatures, CompatibleFeatures, FeatureType, IncompatibleFeatures};
pub use guest::{GuestCluster, GuestOffset};
pub use host::{HostCluster, HostOffset};
pub use on_disk::{OnDiskStruct, V2Header, V3HeaderBase};
pub use pending::{ClustersToFreeEntry, PendingClusters};

/// The magic number in the first four bytes of an image: `QFI` and 0xfb.
pub const MAGIC: u32 = 0x5146_49fb;
/// The smallest cluster size, in bytes.
pub const MIN_CLUSTER_SIZE: usize = 512;
/// The largest cluster size, in bytes.
pub const MAX_CLUSTER_SIZE: usize = 2_097_152;
/// The smallest refcount width, in bits.
pub const MIN_REFCOUNT_WIDTH: usize = 1;
/// The largest refcount width, in bits.
pub const MAX_REFCOUNT_WIDTH: usize = 64;
/// The largest file offset that an L1 entry or a standard L2 entry can hold, in bytes.
pub const MAX_OFFSET: u64 = 0x00ff_ffff_ffff_fe00;
