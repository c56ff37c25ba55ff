// Searches for the lowest cluster that is referenced in a given way, such as more than once.
ghost use Rattle.std.specs.Prelude.{◌≡◌, ◌⊎◌, ℕ, ◌+◌, ◌<◌, ◌≤◌, ◌^◌, length, MatchOption, IsSomeAnd, Some, IsTrue, IsFalse};
ghost use Rattle.qcow2_types.specs.Consistency.{Nowhere, IsLeast};
ghost use Rattle.qimg_core.specs.Names.{AreRising, all_times, times_at};
ghost use Rattle.qimg_core.specs.Searches.{passes as passes_of, is_such, IsBelow, NoneWithin, IsFirstWithin, AreCut, IsAlong};

use super::entries::{cut_at, next_in, weight_from};
use super::names::{AllTimes, Others, Tallies, cell_of};

/// A question about the references to a cluster.
#[derive(Clone, Copy, Debug)]
pub enum Question {
    /// Is it a part of the structure (header, tables and refcount blocks), and referenced more than once?
    Shared,
    /// Is it referenced by an L2 entry with the COPIED flag (`QCOW_OFLAG_COPIED`), and more than once?
    FalselyCopied,
    /// Is it `Shared` or `FalselyCopied`?
    Either,
    /// Is it referenced at all?
    AtAll,
}

/// Returns true if the answer to the question is yes for these numbers of references.
fn passes(question: Question, times: AllTimes) -> bool
    requires { times.structure + times.mapped < 2 ^ 128 }
    ensures { result ≡ passes_of question (all_times times) }
{
    let all = times.structure + times.mapped;
    match question {
        Question::Shared => times.structure > 0 && all != 1,
        Question::FalselyCopied => times.copied > 0 && all != 1,
        Question::Either => (times.structure > 0 || times.copied > 0) && all != 1,
        Question::AtAll => all > 0,
    }
}

/// Returns the lower of two bounds. `None` is above all clusters.
fn lesser(one: Option<u64>, other: Option<u64>) -> Option<u64>
    ensures below { (c : ℕ) → IsBelow result c → IsBelow one c × IsBelow other c }
    ensures is { (result ≡ one) ⊎ (result ≡ other) }
{
    match (one, other) {
        (Some(cluster), Some(end)) => Some(cluster.min(end)),
        (Some(cluster), None) => Some(cluster),
        (None, _) => other,
    }
}

/// A walk along the clusters, in rising order.
#[derive(Clone, Copy, Debug)]
pub struct Way {
    /// The cut of each list: the index of its first item of a cluster that isn't passed yet.
    structure: usize,
    mapped: usize,
    copied: usize,
    /// The next cluster that has an item in a list.
    next: Option<u64>,
}

/// Returns the walk that continues from the cuts of the lists.
fn way_of(others: &Others, structure: usize, mapped: usize, copied: usize) -> Way
    requires { AreRising others.now }
    ensures { (c : ℕ) → AreCut others.now c structure mapped copied → IsAlong others.now c result }
{
    let other = lesser(
        next_in(&others.mapped, mapped),
        next_in(&others.copied, copied),
    );
    Way {
        structure,
        mapped,
        copied,
        next: lesser(next_in(&others.structure, structure), other),
    }
}

/// Returns a walk that starts at the cluster `low`. It searches each list once.
pub fn way_from(others: &Others, low: u64) -> Way
    requires { AreRising others.now }
    ensures { IsAlong others.now low result }
{
    let structure = cut_at(&others.structure, low);
    let mapped = cut_at(&others.mapped, low);
    let copied = cut_at(&others.copied, low);
    way_of(others, structure, mapped, copied)
}

/// Counts the references to the next listed cluster of the walk, and moves the walk past it.
fn times_listed(names: &Tallies, cluster: u64, way: &mut Way) -> AllTimes
    requires rising { AreRising names.now.others }
    requires along { IsAlong names.now.others cluster way.old }
    requires next { way.old.next ≡ Some cluster }
    ensures value { all_times result ≡ times_at names.now cluster }
    ensures count_bounded { result.structure + result.mapped < 2 ^ 128 }
    ensures along { IsAlong names.now.others (cluster + 1) way.new }
{
    let others = &names.others;
    let cell = cell_of(&names.cells, cluster);
    let structure = weight_from(&others.structure, &mut way.structure, cluster);
    let mapped = weight_from(&others.mapped, &mut way.mapped, cluster);
    let copied = weight_from(&others.copied, &mut way.copied, cluster);
    *way = way_of(others, way.structure, way.mapped, way.copied);
    AllTimes {
        structure: cell.structure as u128 + structure,
        mapped: cell.mapped as u128 + mapped,
        copied: cell.copied as u128 + copied,
    }
}

/// Counts the references to `cluster`, which the walk has reached, and moves the walk past it.
#[inline(always)]
fn times_along(names: &Tallies, cluster: u64, way: &mut Way) -> AllTimes
    requires rising { AreRising names.now.others }
    requires along { IsAlong names.now.others cluster way.old }
    ensures value { all_times result ≡ times_at names.now cluster }
    ensures count_bounded { result.structure + result.mapped < 2 ^ 128 }
    ensures along { IsAlong names.now.others (cluster + 1) way.new }
{
    if way.next == Some(cluster) {
        return times_listed(names, cluster, way);
    }
    let cell = cell_of(&names.cells, cluster);
    AllTimes {
        structure: cell.structure as u128,
        mapped: cell.mapped as u128,
        copied: cell.copied as u128,
    }
}

/// Like `times_along`, but returns the total of the references by the structure and by L2 entries.
#[inline(always)]
pub fn references_along(names: &Tallies, cluster: u64, way: &mut Way) -> u128
    requires rising { AreRising names.now.others }
    requires along { IsAlong names.now.others cluster way.old }
    ensures value { result ≡ (times_at names.now cluster).structure + (times_at names.now cluster).mapped }
    ensures along { IsAlong names.now.others (cluster + 1) way.new }
{
    if way.next == Some(cluster) {
        let times = times_listed(names, cluster, way);
        return times.structure + times.mapped;
    }
    let cell = cell_of(&names.cells, cluster);
    cell.structure as u128 + cell.mapped as u128
}

/// Returns true if `cluster` isn't below the bound, if any.
fn is_past(high: Option<u64>, cluster: u64) -> bool
    ensures below { IsFalse result → IsBelow high cluster }
    ensures past { IsTrue result → IsSomeAnd high (λ end. end ≤ cluster) }
{
    match high {
        Some(high) => cluster >= high,
        None => false,
    }
}

/// Returns the number of cells, or the bound, if that is lower.
fn cells_end(cells: u64, high: Option<u64>) -> u64
    ensures inside { (c : ℕ) → c < cells → IsBelow high c → c < result }
    ensures below { (c : ℕ) → c < result → (c < cells) × IsBelow high c }
{
    match high {
        Some(high) => cells.min(high),
        None => cells,
    }
}

/// Returns the lowest matching cluster from `low` up to, but not including, `high`. Only clusters without a cell are searched.
fn first_entry(names: &Tallies, question: Question, low: u64, high: Option<u64>) -> Option<u64>
    requires rising { AreRising names.now.others }
    requires after_structure { length names.now.cells.items ≤ low }
    ensures { MatchOption result (NoneWithin (is_such question names.now) low high) (IsFirstWithin (is_such question names.now) low high) }
{
    let mut way = way_from(&names.others, low);
    while let Some(cluster) = way.next {
        if is_past(high, cluster) {
            return None;
        }
        if passes(question, times_along(names, cluster, &mut way)) {
            return Some(cluster);
        }
    }
    None
}

/// Returns the lowest matching cluster from `low` up to, but not including, `end`.
#[inline(always)]
fn first_cell(names: &Tallies, question: Question, low: u64, end: u64) -> Option<u64>
    requires { AreRising names.now.others }
    ensures { MatchOption result (NoneWithin (is_such question names.now) low (Some end))
        (IsFirstWithin (is_such question names.now) low (Some end)) }
{
    let mut way = way_from(&names.others, low);
    for cluster in low..end {
        if passes(question, times_along(names, cluster, &mut way)) {
            return Some(cluster);
        }
    }
    None
}

/// Returns the lowest matching cluster from `low` up to, but not including, `high`. Without `high` there is no upper bound.
#[inline(always)]
pub fn first_such(names: &Tallies, question: Question, low: u64, high: Option<u64>) -> Option<u64>
    requires { AreRising names.now.others }
    ensures { MatchOption result (NoneWithin (is_such question names.now) low high) (IsFirstWithin (is_such question names.now) low high) }
{
    let cells = names.cells.len() as u64;
    match first_cell(names, question, low, cells_end(cells, high)) {
        Some(cluster) => Some(cluster),
        None => first_entry(names, question, low.max(cells), high),
    }
}

/// Returns the lowest matching cluster.
#[inline(always)]
pub fn least_such(names: &Tallies, question: Question) -> Option<u64>
    requires { AreRising names.now.others }
    ensures { MatchOption result (Nowhere (is_such question names.now)) (IsLeast (is_such question names.now)) }
{
    first_such(names, question, 0, None)
}
