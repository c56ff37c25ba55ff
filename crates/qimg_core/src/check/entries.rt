// Lists that count references. An item is `cluster * 2048 + place * 256 + digit`, with `place` below 8 and `digit` below 256. It counts
// `digit * 256^place` references to the cluster.
ghost use Rattle.std.specs.Prelude.{◌≡◌, ℕ, ◌+◌, ◌*◌, ◌/◌, ◌<◌, ◌≤◌, ◌^◌, nat_lt, Some, IfSome, OnOk, IsOkUnless};
ghost use Rattle.qimg_core.specs.Names.{AddsWeight, TakesFew, IsRising, weight_of};
ghost use Rattle.qimg_core.specs.Searches.{IsListed, IsCut, IsFrom};

use super::CheckFault;

/// Adds `times` references to a cluster: one item for each digit of `times` to base 256 that isn't 0.
///
/// # Errors
///
/// - `CheckFault::Memory` if memory runs out.
pub fn enter(list: &mut Vec<u64>, cluster: u64, times: u64) -> Result<(), CheckFault>
    requires { cluster < 2 ^ 53 }
    ensures ok { OnOk result (AddsWeight list.old.items list.new.items cluster times) }
    ensures length_bounded { OnOk result (TakesFew list.old.items list.new.items times) }
    ensures err { IsOkUnless result CheckFault.Memory }
{
    for place in 0..8 {
        let rest = times >> (8 * place);
        if rest == 0 {
            return Ok(());
        }
        let digit = rest % 256;
        if digit != 0 {
            list.push(cluster * 2048 + place * 256 + digit)?;
        }
    }
    Ok(())
}

/// Returns the cut of a list at `cluster`: the number of items of lower clusters.
pub fn cut_at(list: &[u64], cluster: u64) -> usize
    requires { IsRising list.now }
    ensures { IsCut list.now cluster (Some cluster) result }
{
    list.partition_point(
        |name: &u64| -> bool
            ensures { result ≡ nat_lt (name.now / 2048) cluster }
        { *name / 2048 < cluster },
    )
}

/// Returns how many references to `cluster` the list counts, and moves `cut` from this cluster's first item past its last one.
pub fn weight_from(list: &[u64], cut: &mut usize, cluster: u64) -> u128
    requires rising { IsRising list.now }
    requires cut { IsCut list.now cluster (Some cluster) cut.old }
    ensures value { result ≡ weight_of list.now cluster }
    ensures weight_bounded { result + 2 ^ 63 ≤ 2 ^ 127 }
    ensures cut { IsCut list.now (cluster + 1) (Some (cluster + 1)) cut.new }
{
    let mut sum = 0;
    for i in *cut..list.len() {
        if list[i] / 2048 != cluster {
            *cut = i;
            return sum;
        }
        sum += ((list[i] % 256) as u128) << (8 * (list[i] / 256 % 8));
    }
    *cut = list.len();
    sum
}

/// Returns the cluster of the item at `cut`, if any.
pub fn next_in(list: &[u64], cut: usize) -> Option<u64>
    requires { IsRising list.now }
    ensures next { (c : ℕ) → IsCut list.now c (Some c) cut → IsCut list.now c result cut × IsFrom c result }
    ensures named { IfSome result (IsListed list.now) }
{
    if cut < list.len() {
        return Some(list[cut] / 2048);
    }
    None
}
