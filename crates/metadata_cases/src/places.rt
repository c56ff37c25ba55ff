// Runs the lines of a script on offsets and clusters, in the guest's disk and in the image file.
ghost use Rattle.std.specs.Prelude.{◌≡◌, ◌≤◌, ◌<◌};

use crate::answer::{Answer, answered};
use crate::limits::{block_bits, cluster_bits, fits, table_entries};
use cases::{Trouble, number};
use qcow2_types::{ClusterCount, GuestCluster, GuestOffset, HostCluster, HostOffset};
use std::alloc::Global;

fn guest_offset(word: &str, offset: GuestOffset, bits: u32) -> Result<Answer, Trouble>
    requires { (9 ≤ bits) × (bits ≤ 21) }
{
    match word {
        "in_cluster" => Ok(Answer::Number(offset.in_cluster_offset(bits) as u64)),
        "cluster" => Ok(Answer::Number(offset.cluster(bits).0)),
        "begins" => Ok(Answer::number_or_none(
            offset.checked_cluster(bits).map(|cluster| cluster.0),
        )),
        "l1_index" => Ok(Answer::Number(offset.l1_index(bits) as u64)),
        "l2_index" => Ok(Answer::Number(offset.l2_index(bits) as u64)),
        "rest_of_cluster" => Ok(Answer::Number(offset.remaining_in_cluster(bits))),
        "rest_of_table" => Ok(Answer::Number(offset.remaining_in_l2_table(bits))),
        _ => Err(Trouble::NoCall),
    }
}

fn host_offset(word: &str, offset: HostOffset, bits: u32) -> Result<Answer, Trouble>
    requires { (9 ≤ bits) × (bits ≤ 21) }
{
    match word {
        "in_cluster" => Ok(Answer::Number(offset.in_cluster_offset(bits) as u64)),
        "cluster" => Ok(Answer::Number(offset.cluster(bits).0)),
        "begins" => Ok(Answer::number_or_none(
            offset.checked_cluster(bits).map(|cluster| cluster.0),
        )),
        _ => Err(Trouble::NoCall),
    }
}

// Returns the offset of a guest cluster, or the first cluster that the next L2 table maps.
fn guest_begin(word: &str, cluster: GuestCluster, bits: u32) -> Result<Answer, Trouble>
    requires { (9 ≤ bits) × (bits ≤ 21) }
{
    if !fits(cluster.0, bits, 0) {
        return Err(Trouble::NoCall);
    }
    match word {
        "offset" => Ok(Answer::Number(cluster.offset(bits).0)),
        "next_table" => Ok(Answer::Number(cluster.first_in_next_l2(bits).0)),
        _ => Err(Trouble::NoCall),
    }
}

fn guest_cluster(word: &str, cluster: GuestCluster, bits: u32) -> Result<Answer, Trouble>
    requires { (9 ≤ bits) × (bits ≤ 21) }
{
    match word {
        "l1_index" => Ok(Answer::Number(cluster.l1_index(bits) as u64)),
        "l2_index" => Ok(Answer::Number(cluster.l2_index(bits) as u64)),
        "next" => Ok(Answer::number_or_none(cluster.next_in_l2(bits).map(|cluster| cluster.0))),
        _ => guest_begin(word, cluster, bits),
    }
}

// Returns the guest cluster with these indices in the L1 table and in its L2 table.
fn guest_of_indices(l1_index: u64, l2_index: u64, bits: u32) -> Result<Answer, Trouble>
    requires { (9 ≤ bits) × (bits ≤ 21) }
{
    let entries = table_entries(bits);
    let Some(before) = l1_index.checked_mul(entries) else {
        return Err(Trouble::NoCall);
    };
    if l2_index >= entries || before.checked_add(l2_index).is_none() {
        return Err(Trouble::NoCall);
    }
    let cluster = GuestCluster::from_l1_l2_indices(l1_index as usize, l2_index as usize, bits);
    Ok(Answer::Number(cluster.0))
}

// Returns the offset of a host cluster. With `guest`, returns the host offset at the same distance from the start of its cluster.
fn host_begin(
    cluster: HostCluster,
    guest: Option<GuestOffset>,
    bits: u32,
) -> Result<Answer, Trouble>
    requires { (9 ≤ bits) × (bits ≤ 21) }
{
    let rest = match guest {
        Some(guest) => guest.in_cluster_offset(bits) as u64,
        None => 0,
    };
    if !fits(cluster.0, bits, rest) {
        return Err(Trouble::NoCall);
    }
    match guest {
        Some(guest) => Ok(Answer::Number(cluster.relative_offset(guest, bits).0)),
        None => Ok(Answer::Number(cluster.offset(bits).0)),
    }
}

// Returns the indices of a host cluster's refcount: one index, or one of the pair.
fn host_counter(word: &str, cluster: HostCluster, bits: u32) -> Result<Answer, Trouble>
    requires { bits ≤ 24 }
{
    match word {
        "rt_index" => Ok(Answer::Number(cluster.rt_index(bits) as u64)),
        "rb_index" => Ok(Answer::Number(cluster.rb_index(bits) as u64)),
        "rt_of_both" => Ok(Answer::Number(cluster.rt_rb_indices(bits).0 as u64)),
        "rb_of_both" => Ok(Answer::Number(cluster.rt_rb_indices(bits).1 as u64)),
        _ => Err(Trouble::NoCall),
    }
}

// Returns the host cluster whose refcount has these indices in the refcount table and in its block.
fn host_of_indices(rt_index: u64, rb_index: u64, bits: u32) -> Result<Answer, Trouble>
    requires { bits ≤ 24 }
{
    if rb_index >= 1 << bits || !fits(rt_index, bits, rb_index) {
        return Err(Trouble::NoCall);
    }
    let cluster = HostCluster::from_ref_indices(rt_index as usize, rb_index as usize, bits);
    Ok(Answer::Number(cluster.0))
}

// Returns a count of clusters, or of their bytes.
fn count_of(word: &str, n: u64, bits: u32) -> Result<Answer, Trouble>
    requires { (9 ≤ bits) × (bits ≤ 21) }
{
    match word {
        "of_bytes" => Ok(Answer::Number(ClusterCount::from_byte_size(n, bits).0)),
        "of_whole" => Ok(Answer::number_or_none(ClusterCount::checked_from_byte_size(n, bits).map(
            |count| count.0,
        ))),
        "bytes" if fits(n, bits, 0) => Ok(Answer::Number(ClusterCount(n).byte_size(bits))),
        _ => Err(Trouble::NoCall),
    }
}

fn guest(words: &[&str]) -> Result<Answer, Trouble> {
    let [kind, word, n, bits] = words else {
        return Err(Trouble::NoCall);
    };
    let (n, bits) = (number(n)?, cluster_bits(bits)?);
    match *kind {
        "offset" => guest_offset(word, GuestOffset(n), bits),
        "cluster" => guest_cluster(word, GuestCluster(n), bits),
        "of" => guest_of_indices(number(word)?, n, bits),
        _ => Err(Trouble::NoCall),
    }
}

// Makes a call of host offsets.
fn host_place(kind: &str, word: &str, n: u64, bits: u32) -> Result<Answer, Trouble>
    requires { (9 ≤ bits) × (bits ≤ 21) }
{
    match kind {
        "offset" => host_offset(word, HostOffset(n), bits),
        "begin" => host_begin(HostCluster(n), None, bits),
        "beside" => host_begin(HostCluster(n), Some(GuestOffset(number(word)?)), bits),
        _ => Err(Trouble::NoCall),
    }
}

// Makes a call of the indices of refcounts.
fn host_count(kind: &str, word: &str, n: u64, bits: u32) -> Result<Answer, Trouble>
    requires { bits ≤ 24 }
{
    match kind {
        "counter" => host_counter(word, HostCluster(n), bits),
        "of" => host_of_indices(number(word)?, n, bits),
        _ => Err(Trouble::NoCall),
    }
}

fn host(words: &[&str]) -> Result<Answer, Trouble> {
    let [kind, word, n, bits] = words else {
        return Err(Trouble::NoCall);
    };
    let n = number(n)?;
    match *kind {
        "counter" | "of" => host_count(kind, word, n, block_bits(bits)?),
        _ => host_place(kind, word, n, cluster_bits(bits)?),
    }
}

fn clusters(words: &[&str]) -> Result<Answer, Trouble> {
    let [word, n, bits] = words else {
        return Err(Trouble::NoCall);
    };
    count_of(word, number(n)?, cluster_bits(bits)?)
}

/// Returns the answer about offsets, or about counts of clusters.
pub fn places(alloc: Global, words: &[&str]) -> Result<String, Trouble> {
    let [topic, rest @ ..] = words else {
        return Err(Trouble::NoCall);
    };
    match *topic {
        "guest" => answered(alloc, guest(rest)),
        "host" => answered(alloc, host(rest)),
        _ => answered(alloc, clusters(rest)),
    }
}
