// Host offsets and host clusters, and the indices of a cluster's refcount in the refcount table and in its refcount block. The refcounts
// themselves are defined in specs/Counts.antt.

ghost use Rattle.std.specs.Prelude.{◌≡◌, ℕ, ◌+◌, ◌-◌, ◌*◌, ◌/◌, ◌%◌, ◌^◌, ◌<◌, ◌≤◌, ◌++◌, codes, Some, SomeIff, false};
ghost use Rattle.std.specs.Fmt.{digits};

use crate::bits::{join_bits, low_bits};
use crate::count::ClusterCount;
use crate::guest::GuestOffset;
use std::fmt;
use std::marker::Model;
use std::ops::{Add, AddAssign, Sub, SubAssign};

/// An offset in the image file or in the external data file, in bytes. In contracts it is a number.
///
/// In calls that take `cluster_bits`, a cluster has 2^`cluster_bits` bytes.
#[derive(Clone, Copy, PartialEq, Eq, PartialOrd, Ord, Debug, Hash)]
pub struct HostOffset(pub u64);

/// A cluster of the image file or of the external data file, by its index. In contracts it is a number.
///
/// In calls that take `cluster_bits`, a cluster has 2^`cluster_bits` bytes. In calls that take `rb_bits`, a refcount block has k =
/// 2^`rb_bits` refcounts. The refcount of host cluster c is number c mod k of the block that refcount table entry c / k references. See
/// the section "Host cluster management" of the format.
#[derive(Clone, Copy, PartialEq, Eq, PartialOrd, Ord, Debug, Hash)]
pub struct HostCluster(pub u64);

impl Model for HostOffset {
    ghost Value = { ℕ };

    ghost view = { λ c. c.0 };

    ghost inverse = { λ n. record { 0 = n } };
}

impl Model for HostCluster {
    ghost Value = { ℕ };

    ghost view = { λ c. c.0 };

    ghost inverse = { λ n. record { 0 = n } };
}

impl HostOffset {
    /// Returns the offset within the cluster, in bytes.
    pub fn in_cluster_offset(self, cluster_bits: u32) -> usize
        requires bits { (9 ≤ cluster_bits) × (cluster_bits ≤ 21) }
        ensures { result ≡ self % 2 ^ cluster_bits }
    {
        low_bits(self.0, cluster_bits) as usize
    }

    /// Returns the cluster that contains this offset.
    pub fn cluster(self, cluster_bits: u32) -> HostCluster
        requires bits { (9 ≤ cluster_bits) × (cluster_bits ≤ 21) }
        ensures { result ≡ self / 2 ^ cluster_bits }
    {
        HostCluster(self.0 >> cluster_bits)
    }

    /// Returns the cluster that starts at this offset, or `None` if the offset isn't a multiple of the cluster size.
    pub fn checked_cluster(self, cluster_bits: u32) -> Option<HostCluster>
        requires bits { (9 ≤ cluster_bits) × (cluster_bits ≤ 21) }
        ensures { SomeIff result (self % 2 ^ cluster_bits ≡ 0) (self / 2 ^ cluster_bits) }
    {
        if self.in_cluster_offset(cluster_bits) == 0 {
            Some(self.cluster(cluster_bits))
        } else {
            None
        }
    }
}

impl HostCluster {
    /// Returns the offset of the cluster's first byte.
    pub fn offset(self, cluster_bits: u32) -> HostOffset
        requires bits { (9 ≤ cluster_bits) × (cluster_bits ≤ 21) }
        requires fits { self * 2 ^ cluster_bits < 2 ^ 64 }
        ensures { result ≡ self * 2 ^ cluster_bits }
    {
        HostOffset(self.0 << cluster_bits)
    }

    /// Returns the offset in this cluster that corresponds to `guest_offset` in its guest cluster.
    pub fn relative_offset(self, guest_offset: GuestOffset, cluster_bits: u32) -> HostOffset
        requires bits { (9 ≤ cluster_bits) × (cluster_bits ≤ 21) }
        requires fits { self * 2 ^ cluster_bits + guest_offset % 2 ^ cluster_bits < 2 ^ 64 }
        ensures { result ≡ self * 2 ^ cluster_bits + guest_offset % 2 ^ cluster_bits }
    {
        self.offset(cluster_bits) + guest_offset.in_cluster_offset(cluster_bits) as u64
    }

    /// Returns the index of the cluster's refcount in its refcount block.
    pub fn rb_index(self, rb_bits: u32) -> usize
        requires bits { rb_bits ≤ 24 }
        ensures { result ≡ self % 2 ^ rb_bits }
    {
        low_bits(self.0, rb_bits) as usize
    }

    /// Returns the index in the refcount table of the entry for the cluster's refcount block.
    pub fn rt_index(self, rb_bits: u32) -> usize
        requires bits { rb_bits ≤ 24 }
        ensures { result ≡ self / 2 ^ rb_bits }
    {
        (self.0 >> rb_bits) as usize
    }

    /// Returns `rt_index` and `rb_index` of the cluster: its block's index in the refcount table, and its refcount's index in the block.
    pub fn rt_rb_indices(self, rb_bits: u32) -> (usize, usize)
        requires bits { rb_bits ≤ 24 }
        ensures { result ≡ (self / 2 ^ rb_bits, self % 2 ^ rb_bits) }
    {
        (self.rt_index(rb_bits), self.rb_index(rb_bits))
    }

    /// Returns the cluster whose refcount is number `rb_index` of the refcount block that refcount table entry `rt_index` references.
    pub fn from_ref_indices(rt_index: usize, rb_index: usize, rb_bits: u32) -> HostCluster
        requires bits { rb_bits ≤ 24 }
        requires in_block { rb_index < 2 ^ rb_bits }
        requires fits { rt_index * 2 ^ rb_bits + rb_index < 2 ^ 64 }
        ensures { result ≡ rt_index * 2 ^ rb_bits + rb_index }
    {
        HostCluster(join_bits(rt_index as u64, rb_index as u64, rb_bits))
    }
}

impl Add<u64> for HostOffset {
    type Output = HostOffset;

    ghost can_add = { λ a n. a + n < 2 ^ 64 };

    ghost add_gives = { λ a n r. r ≡ a + n };

    fn add(self, rhs: u64) -> HostOffset {
        HostOffset(self.0 + rhs)
    }
}

impl Sub<u64> for HostOffset {
    type Output = HostOffset;

    ghost can_sub = { λ a n. n ≤ a };

    ghost sub_gives = { λ a n r. r ≡ a - n };

    fn sub(self, rhs: u64) -> HostOffset {
        HostOffset(self.0 - rhs)
    }
}

/// Returns the number of bytes from `rhs` to `self`.
impl Sub<HostOffset> for HostOffset {
    type Output = u64;

    ghost can_sub = { λ a b. b ≤ a };

    ghost sub_gives = { λ a b r. r ≡ a - b };

    fn sub(self, rhs: HostOffset) -> u64 {
        self.0 - rhs.0
    }
}

/// Writes `0x` and the offset in lower-case hexadecimal.
impl fmt::Display for HostOffset {
    ghost output = { λ a. Some (codes "0x" ++ digits 16 false a) };

    fn fmt<W: fmt::Write>(&self, f: &mut fmt::Formatter<W>) -> fmt::Result {
        let offset = self.0;
        write!(f, "0x{offset:x}")
    }
}

impl Add<ClusterCount> for HostCluster {
    type Output = HostCluster;

    ghost can_add = { λ a n. a + n < 2 ^ 64 };

    ghost add_gives = { λ a n r. r ≡ a + n };

    fn add(self, rhs: ClusterCount) -> HostCluster {
        HostCluster(self.0 + rhs.0)
    }
}

impl AddAssign<ClusterCount> for HostCluster {
    ghost can_add_assign = { λ a n. a + n < 2 ^ 64 };

    ghost add_assign_gives = { λ a n r. r ≡ a + n };

    fn add_assign(&mut self, rhs: ClusterCount) {
        self.0 += rhs.0;
    }
}

impl Sub<ClusterCount> for HostCluster {
    type Output = HostCluster;

    ghost can_sub = { λ a n. n ≤ a };

    ghost sub_gives = { λ a n r. r ≡ a - n };

    fn sub(self, rhs: ClusterCount) -> HostCluster {
        HostCluster(self.0 - rhs.0)
    }
}

impl SubAssign<ClusterCount> for HostCluster {
    ghost can_sub_assign = { λ a n. n ≤ a };

    ghost sub_assign_gives = { λ a n r. r ≡ a - n };

    fn sub_assign(&mut self, rhs: ClusterCount) {
        self.0 -= rhs.0;
    }
}

/// Returns the number of clusters from `rhs` to `self`.
impl Sub<HostCluster> for HostCluster {
    type Output = ClusterCount;

    ghost can_sub = { λ a b. b ≤ a };

    ghost sub_gives = { λ a b r. r ≡ a - b };

    fn sub(self, rhs: HostCluster) -> ClusterCount {
        ClusterCount(self.0 - rhs.0)
    }
}
