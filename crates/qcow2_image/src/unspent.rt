// The prepared mapping of an image: a run that is written and not yet committed.
ghost use Rattle.std.specs.Prelude.{◌≤◌, ◌+◌, ◌^◌};

use imago_storage::Storage;
use qcow2_types::{ClusterCount, GuestCluster, HostCluster};
use std::snapshot::Snapshot;

/// The ranges that were written to a prepared mapping. Contracts also see the earlier ranges, in `before`.
#[derive(Drop)]
pub struct Writes {
    pub(crate) before: Option<Snapshot<Writes>>,
    pub(crate) at: u64,
    pub(crate) length: u64,
}

/// A prepared mapping: a run that is written and not yet committed.
///
/// `offset` and `length` are its run on the disk, in bytes, and `place` is the run's offset in the image file. `guest` is the first of its
/// guest clusters, and `table` the cluster of their L2 table. `host` is the first of `count` consecutive host clusters: newly allocated
/// ones, or a preallocated zero cluster if `is_kept` is set.
///
/// With `overwrite`, the caller writes the whole run before the commit. `written` has the ranges that were written. `copied` is for
/// contracts only: the image file when the data of the guest clusters had been copied.
#[derive(Drop)]
pub struct Unspent<S: Storage> {
    pub(crate) mapping_id: u64,
    pub(crate) offset: u64,
    pub(crate) length: u64,
    pub(crate) place: u64,
    pub(crate) guest: GuestCluster,
    pub(crate) table: HostCluster,
    pub(crate) host: HostCluster,
    pub(crate) count: ClusterCount,
    pub(crate) is_kept: bool,
    pub(crate) overwrite: bool,
    pub(crate) copied: Snapshot<S>,
    pub(crate) written: Writes,
    ghost end_bounded: { place + length ≤ 2 ^ 60 },
}
