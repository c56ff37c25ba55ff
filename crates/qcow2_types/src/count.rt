// Numbers of clusters, and conversions between clusters and bytes.

ghost use Rattle.std.specs.Prelude.{◌≡◌, ℕ, ◌+◌, ◌-◌, ◌*◌, ◌/◌, ◌%◌, ◌^◌, ◌<◌, ◌≤◌, Some, SomeIff};
ghost use Rattle.std.specs.Fmt.{decimal};

use crate::bits::low_bits;
use std::fmt;
use std::marker::Model;
use std::ops::{Add, AddAssign, Sub, SubAssign};

/// A number of clusters, of the guest's disk or of the image file. In contracts it is a number.
///
/// In calls that take `cluster_bits`, a cluster has 2^`cluster_bits` bytes.
#[derive(Clone, Copy, PartialEq, Eq, PartialOrd, Ord, Debug, Hash)]
pub struct ClusterCount(pub u64);

impl Model for ClusterCount {
    ghost Value = { ℕ };

    ghost view = { λ c. c.0 };

    ghost inverse = { λ n. record { 0 = n } };
}

impl ClusterCount {
    /// Returns the number of clusters that hold `byte_size` bytes, rounded up to whole clusters.
    pub fn from_byte_size(byte_size: u64, cluster_bits: u32) -> ClusterCount
        requires bits { (9 ≤ cluster_bits) × (cluster_bits ≤ 21) }
        ensures { result ≡ (byte_size + (2 ^ cluster_bits - 1)) / 2 ^ cluster_bits }
    {
        let full = byte_size >> cluster_bits;
        if low_bits(byte_size, cluster_bits) == 0 {
            ClusterCount(full)
        } else {
            ClusterCount(full + 1)
        }
    }

    /// Returns the number of clusters that `byte_size` bytes fill, or `None` if they don't fill the last cluster completely.
    pub fn checked_from_byte_size(byte_size: u64, cluster_bits: u32) -> Option<ClusterCount>
        requires bits { (9 ≤ cluster_bits) × (cluster_bits ≤ 21) }
        ensures { SomeIff result (byte_size % 2 ^ cluster_bits ≡ 0) (byte_size / 2 ^ cluster_bits) }
    {
        if low_bits(byte_size, cluster_bits) == 0 {
            Some(ClusterCount(byte_size >> cluster_bits))
        } else {
            None
        }
    }

    /// Returns the size of the clusters, in bytes.
    pub fn byte_size(self, cluster_bits: u32) -> u64
        requires bits { (9 ≤ cluster_bits) × (cluster_bits ≤ 21) }
        requires fits { self * 2 ^ cluster_bits < 2 ^ 64 }
        ensures { result ≡ self * 2 ^ cluster_bits }
    {
        self.0 << cluster_bits
    }
}

impl Add<ClusterCount> for ClusterCount {
    type Output = ClusterCount;

    ghost can_add = { λ a b. a + b < 2 ^ 64 };

    ghost add_gives = { λ a b r. r ≡ a + b };

    fn add(self, rhs: ClusterCount) -> ClusterCount {
        ClusterCount(self.0 + rhs.0)
    }
}

impl AddAssign<ClusterCount> for ClusterCount {
    ghost can_add_assign = { λ a b. a + b < 2 ^ 64 };

    ghost add_assign_gives = { λ a b r. r ≡ a + b };

    fn add_assign(&mut self, rhs: ClusterCount) {
        self.0 += rhs.0;
    }
}

impl Sub<ClusterCount> for ClusterCount {
    type Output = ClusterCount;

    ghost can_sub = { λ a b. b ≤ a };

    ghost sub_gives = { λ a b r. r ≡ a - b };

    fn sub(self, rhs: ClusterCount) -> ClusterCount {
        ClusterCount(self.0 - rhs.0)
    }
}

impl SubAssign<ClusterCount> for ClusterCount {
    ghost can_sub_assign = { λ a b. b ≤ a };

    ghost sub_assign_gives = { λ a b r. r ≡ a - b };

    fn sub_assign(&mut self, rhs: ClusterCount) {
        self.0 -= rhs.0;
    }
}

/// Writes the number in decimal.
impl fmt::Display for ClusterCount {
    ghost output = { λ n. Some (decimal n) };

    fn fmt<W: fmt::Write>(&self, f: &mut fmt::Formatter<W>) -> fmt::Result {
        let count = self.0;
        write!(f, "{count}")
    }
}
