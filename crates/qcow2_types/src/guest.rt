// Guest offsets and guest clusters, and their indices in the L1 and L2 tables. The tables themselves are defined in specs/Entries.antt.

ghost use Rattle.std.specs.Prelude.{◌≡◌, ℕ, ◌+◌, ◌-◌, ◌*◌, ◌/◌, ◌%◌, ◌^◌, ◌<◌, ◌≤◌, ◌++◌, codes, Some, SomeIff, false};
ghost use Rattle.std.specs.Fmt.{digits};
ghost use Rattle.qcow2_types.specs.Entries.{l2_entries};

use crate::bits::{join_bits, low_bits};
use crate::count::ClusterCount;
use std::fmt;
use std::marker::Model;
use std::ops::{Add, AddAssign, Sub, SubAssign};

/// An offset in the guest's disk, in bytes. In contracts it is a number.
///
/// In calls that take `cluster_bits`, a cluster has 2^`cluster_bits` bytes.
#[derive(Clone, Copy, PartialEq, Eq, PartialOrd, Ord, Debug, Hash)]
pub struct GuestOffset(pub u64);

/// A cluster of the guest's disk, by its index. In contracts it is a number.
///
/// In calls that take `cluster_bits`, a cluster has 2^`cluster_bits` bytes. An L2 table fills one cluster and has e entries of 8 bytes.
/// Guest cluster g uses entry g / e of the L1 table, and entry g mod e of the L2 table that it references. See the section "Cluster
/// mapping" of the format.
#[derive(Clone, Copy, PartialEq, Eq, PartialOrd, Ord, Debug, Hash)]
pub struct GuestCluster(pub u64);

impl Model for GuestOffset {
    ghost Value = { ℕ };

    ghost view = { λ c. c.0 };

    ghost inverse = { λ n. record { 0 = n } };
}

impl Model for GuestCluster {
    ghost Value = { ℕ };

    ghost view = { λ c. c.0 };

    ghost inverse = { λ n. record { 0 = n } };
}

impl GuestOffset {
    /// Returns the offset within the cluster, in bytes.
    pub fn in_cluster_offset(self, cluster_bits: u32) -> usize
        requires bits { (9 ≤ cluster_bits) × (cluster_bits ≤ 21) }
        ensures { result ≡ self % 2 ^ cluster_bits }
    {
        low_bits(self.0, cluster_bits) as usize
    }

    /// Returns the cluster that contains this offset.
    pub fn cluster(self, cluster_bits: u32) -> GuestCluster
        requires bits { (9 ≤ cluster_bits) × (cluster_bits ≤ 21) }
        ensures { result ≡ self / 2 ^ cluster_bits }
    {
        GuestCluster(self.0 >> cluster_bits)
    }

    /// Returns the cluster that starts at this offset, or `None` if the offset isn't a multiple of the cluster size.
    pub fn checked_cluster(self, cluster_bits: u32) -> Option<GuestCluster>
        requires bits { (9 ≤ cluster_bits) × (cluster_bits ≤ 21) }
        ensures { SomeIff result (self % 2 ^ cluster_bits ≡ 0) (self / 2 ^ cluster_bits) }
    {
        if self.in_cluster_offset(cluster_bits) == 0 {
            Some(self.cluster(cluster_bits))
        } else {
            None
        }
    }

    /// Returns the index of the cluster's entry in its L2 table.
    pub fn l2_index(self, cluster_bits: u32) -> usize
        requires bits { (9 ≤ cluster_bits) × (cluster_bits ≤ 21) }
        ensures { result ≡ self / 2 ^ cluster_bits % l2_entries cluster_bits }
    {
        self.cluster(cluster_bits).l2_index(cluster_bits)
    }

    /// Returns the index in the L1 table of the entry for the cluster's L2 table.
    pub fn l1_index(self, cluster_bits: u32) -> usize
        requires bits { (9 ≤ cluster_bits) × (cluster_bits ≤ 21) }
        ensures { result ≡ self / 2 ^ cluster_bits / l2_entries cluster_bits }
    {
        self.cluster(cluster_bits).l1_index(cluster_bits)
    }

    /// Returns the number of bytes from this offset to the end of its cluster. The byte at this offset is included.
    pub fn remaining_in_cluster(self, cluster_bits: u32) -> u64
        requires bits { (9 ≤ cluster_bits) × (cluster_bits ≤ 21) }
        ensures { result ≡ 2 ^ cluster_bits - self % 2 ^ cluster_bits }
    {
        (1 << cluster_bits) - low_bits(self.0, cluster_bits)
    }

    /// Returns the number of bytes from this offset to the end of the range that its L2 table maps. The byte at this offset is included.
    #[tactic(auto, using(crate::proofs::Counting::TableSizes::mapped_power))]
    pub fn remaining_in_l2_table(self, cluster_bits: u32) -> u64
        requires bits { (9 ≤ cluster_bits) × (cluster_bits ≤ 21) }
        ensures { let mapped = l2_entries cluster_bits * 2 ^ cluster_bits in result ≡ mapped - self % mapped }
    {
        let mapped_bits = 2 * cluster_bits - 3;
        (1 << mapped_bits) - low_bits(self.0, mapped_bits)
    }
}

impl GuestCluster {
    /// Returns the offset of the cluster's first byte.
    pub fn offset(self, cluster_bits: u32) -> GuestOffset
        requires bits { (9 ≤ cluster_bits) × (cluster_bits ≤ 21) }
        requires fits { self * 2 ^ cluster_bits < 2 ^ 64 }
        ensures { result ≡ self * 2 ^ cluster_bits }
    {
        GuestOffset(self.0 << cluster_bits)
    }

    /// Returns the index of the cluster's entry in its L2 table.
    #[tactic(auto, using(crate::proofs::Counting::TableSizes::entries_power))]
    pub fn l2_index(self, cluster_bits: u32) -> usize
        requires bits { (9 ≤ cluster_bits) × (cluster_bits ≤ 21) }
        ensures { result ≡ self % l2_entries cluster_bits }
    {
        low_bits(self.0, cluster_bits - 3) as usize
    }

    /// Returns the index in the L1 table of the entry for the cluster's L2 table.
    #[tactic(auto, using(crate::proofs::Counting::TableSizes::entries_power))]
    pub fn l1_index(self, cluster_bits: u32) -> usize
        requires bits { (9 ≤ cluster_bits) × (cluster_bits ≤ 21) }
        ensures { result ≡ self / l2_entries cluster_bits }
    {
        (self.0 >> (cluster_bits - 3)) as usize
    }

    /// Returns the cluster that is mapped by entry `l2_index` of the L2 table that L1 entry `l1_index` references.
    #[tactic(auto, using(crate::proofs::Counting::TableSizes::entries_power))]
    pub fn from_l1_l2_indices(l1_index: usize, l2_index: usize, cluster_bits: u32) -> GuestCluster
        requires bits { (9 ≤ cluster_bits) × (cluster_bits ≤ 21) }
        requires in_table { l2_index < l2_entries cluster_bits }
        requires fits { l1_index * l2_entries cluster_bits + l2_index < 2 ^ 64 }
        ensures { result ≡ l1_index * l2_entries cluster_bits + l2_index }
    {
        GuestCluster(join_bits(l1_index as u64, l2_index as u64, cluster_bits - 3))
    }

    /// Returns the next cluster, or `None` if this cluster is the last one that its L2 table maps.
    #[tactic(auto, using(crate::proofs::Counting::TableSizes::entries_power))]
    pub fn next_in_l2(self, cluster_bits: u32) -> Option<GuestCluster>
        requires bits { (9 ≤ cluster_bits) × (cluster_bits ≤ 21) }
        ensures { SomeIff result (self % l2_entries cluster_bits + 1 < l2_entries cluster_bits) (self + 1) }
    {
        let table_entries = 1 << (cluster_bits - 3);
        if self.l2_index(cluster_bits) + 1 < table_entries {
            Some(GuestCluster(self.0 + 1))
        } else {
            None
        }
    }

    /// Returns the first cluster that the next L2 table maps.
    #[tactic(auto, using(crate::proofs::Counting::TableSizes::entries_power))]
    pub fn first_in_next_l2(self, cluster_bits: u32) -> GuestCluster
        requires bits { (9 ≤ cluster_bits) × (cluster_bits ≤ 21) }
        requires fits { (self / l2_entries cluster_bits + 1) * l2_entries cluster_bits < 2 ^ 64 }
        ensures { result ≡ (self / l2_entries cluster_bits + 1) * l2_entries cluster_bits }
    {
        let table_bits = cluster_bits - 3;
        GuestCluster(((self.0 >> table_bits) + 1) << table_bits)
    }
}

impl Add<u64> for GuestOffset {
    type Output = GuestOffset;

    ghost can_add = { λ a n. a + n < 2 ^ 64 };

    ghost add_gives = { λ a n r. r ≡ a + n };

    fn add(self, rhs: u64) -> GuestOffset {
        GuestOffset(self.0 + rhs)
    }
}

impl Sub<u64> for GuestOffset {
    type Output = GuestOffset;

    ghost can_sub = { λ a n. n ≤ a };

    ghost sub_gives = { λ a n r. r ≡ a - n };

    fn sub(self, rhs: u64) -> GuestOffset {
        GuestOffset(self.0 - rhs)
    }
}

/// Returns the number of bytes from `rhs` to `self`.
impl Sub<GuestOffset> for GuestOffset {
    type Output = u64;

    ghost can_sub = { λ a b. b ≤ a };

    ghost sub_gives = { λ a b r. r ≡ a - b };

    fn sub(self, rhs: GuestOffset) -> u64 {
        self.0 - rhs.0
    }
}

/// Writes `0x` and the offset in lower-case hexadecimal.
impl fmt::Display for GuestOffset {
    ghost output = { λ a. Some (codes "0x" ++ digits 16 false a) };

    fn fmt<W: fmt::Write>(&self, f: &mut fmt::Formatter<W>) -> fmt::Result {
        let offset = self.0;
        write!(f, "0x{offset:x}")
    }
}

impl Add<ClusterCount> for GuestCluster {
    type Output = GuestCluster;

    ghost can_add = { λ a n. a + n < 2 ^ 64 };

    ghost add_gives = { λ a n r. r ≡ a + n };

    fn add(self, rhs: ClusterCount) -> GuestCluster {
        GuestCluster(self.0 + rhs.0)
    }
}

impl AddAssign<ClusterCount> for GuestCluster {
    ghost can_add_assign = { λ a n. a + n < 2 ^ 64 };

    ghost add_assign_gives = { λ a n r. r ≡ a + n };

    fn add_assign(&mut self, rhs: ClusterCount) {
        self.0 += rhs.0;
    }
}

impl Sub<ClusterCount> for GuestCluster {
    type Output = GuestCluster;

    ghost can_sub = { λ a n. n ≤ a };

    ghost sub_gives = { λ a n r. r ≡ a - n };

    fn sub(self, rhs: ClusterCount) -> GuestCluster {
        GuestCluster(self.0 - rhs.0)
    }
}

impl SubAssign<ClusterCount> for GuestCluster {
    ghost can_sub_assign = { λ a n. n ≤ a };

    ghost sub_assign_gives = { λ a n r. r ≡ a - n };

    fn sub_assign(&mut self, rhs: ClusterCount) {
        self.0 -= rhs.0;
    }
}

/// Returns the number of clusters from `rhs` to `self`.
impl Sub<GuestCluster> for GuestCluster {
    type Output = ClusterCount;

    ghost can_sub = { λ a b. b ≤ a };

    ghost sub_gives = { λ a b r. r ≡ a - b };

    fn sub(self, rhs: GuestCluster) -> ClusterCount {
        ClusterCount(self.0 - rhs.0)
    }
}
