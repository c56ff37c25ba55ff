// Checks of numbers in a script, so that they meet the preconditions of calls.
ghost use Rattle.std.specs.Prelude.{◌≡◌, ◌+◌, ◌*◌, ◌^◌, ◌<◌, ◌≤◌, IfOk, IsTrue};
ghost use Rattle.qcow2_types.specs.Entries.{l2_entries};
ghost use Rattle.qcow2_metadata.specs.Places.{IsAddressable};

use cases::{Trouble, number};
use qcow2_types::{HostCluster, MAX_OFFSET};

/// Parses a number of cluster bits: from 9 to 21.
pub fn cluster_bits(word: &str) -> Result<u32, Trouble>
    ensures { IfOk result (λ bits. (9 ≤ bits) × (bits ≤ 21)) }
{
    let bits = number(word)?;
    if bits < 9 || bits > 21 {
        return Err(Trouble::NoCall);
    }
    Ok(bits as u32)
}

/// Parses a number of block bits: at most 24.
pub fn block_bits(word: &str) -> Result<u32, Trouble>
    ensures { IfOk result (λ bits. bits ≤ 24) }
{
    let bits = number(word)?;
    if bits > 24 {
        return Err(Trouble::NoCall);
    }
    Ok(bits as u32)
}

/// Returns true if `count` units of 2^`bits`, plus `rest`, fit in 64 bits.
pub fn fits(count: u64, bits: u32, rest: u64) -> bool
    requires { bits ≤ 24 }
    ensures { IsTrue result → count * 2 ^ bits + rest < 2 ^ 64 }
{
    match count.checked_mul(1 << bits) {
        Some(units) => units.checked_add(rest).is_some(),
        None => false,
    }
}

/// Returns true if a cluster is addressable: its offset fits an entry.
pub fn is_addressable(cluster: HostCluster, bits: u32) -> bool
    requires { bits ≤ 21 }
    ensures { IsTrue result → IsAddressable bits cluster }
{
    match cluster.0.checked_mul(1 << bits) {
        Some(place) => place <= MAX_OFFSET,
        None => false,
    }
}

/// Returns the number of entries of an L2 table.
pub fn table_entries(bits: u32) -> u64
    requires { (9 ≤ bits) × (bits ≤ 21) }
    ensures { result ≡ l2_entries bits }
{
    (1 << bits) / 8
}
