// Runs the lines of a script on the operators of offsets, clusters and counts, and on their texts.
ghost use Rattle.std.specs.Prelude.{◌≤◌, ◌<◌, ◌+◌, ◌^◌};

use crate::answer::{Answer, answered};
use cases::{Trouble, number};
use qcow2_types::{ClusterCount, GuestCluster, GuestOffset, HostCluster, HostOffset};
use std::alloc::Global;

fn sum(kind: &str, a: u64, b: u64) -> Result<u64, Trouble>
    requires { a + b < 2 ^ 64 }
{
    match kind {
        "guest_offset" => Ok((GuestOffset(a) + b).0),
        "host_offset" => Ok((HostOffset(a) + b).0),
        "guest_cluster" => Ok((GuestCluster(a) + ClusterCount(b)).0),
        "host_cluster" => Ok((HostCluster(a) + ClusterCount(b)).0),
        "count" => Ok((ClusterCount(a) + ClusterCount(b)).0),
        _ => Err(Trouble::NoCall),
    }
}

fn difference(kind: &str, a: u64, b: u64) -> Result<u64, Trouble>
    requires { b ≤ a }
{
    match kind {
        "guest_offset" => Ok((GuestOffset(a) - b).0),
        "host_offset" => Ok((HostOffset(a) - b).0),
        "guest_cluster" => Ok((GuestCluster(a) - ClusterCount(b)).0),
        "host_cluster" => Ok((HostCluster(a) - ClusterCount(b)).0),
        "count" => Ok((ClusterCount(a) - ClusterCount(b)).0),
        _ => Err(Trouble::NoCall),
    }
}

// Returns the distance from `b` to `a`.
fn distance(kind: &str, a: u64, b: u64) -> Result<u64, Trouble>
    requires { b ≤ a }
{
    match kind {
        "guest_offset" => Ok(GuestOffset(a) - GuestOffset(b)),
        "host_offset" => Ok(HostOffset(a) - HostOffset(b)),
        "guest_cluster" => Ok((GuestCluster(a) - GuestCluster(b)).0),
        "host_cluster" => Ok((HostCluster(a) - HostCluster(b)).0),
        _ => Err(Trouble::NoCall),
    }
}

fn raised_guest(a: u64, b: u64) -> u64
    requires { a + b < 2 ^ 64 }
{
    let mut cluster = GuestCluster(a);
    cluster += ClusterCount(b);
    cluster.0
}

fn raised_host(a: u64, b: u64) -> u64
    requires { a + b < 2 ^ 64 }
{
    let mut cluster = HostCluster(a);
    cluster += ClusterCount(b);
    cluster.0
}

fn raised_count(a: u64, b: u64) -> u64
    requires { a + b < 2 ^ 64 }
{
    let mut count = ClusterCount(a);
    count += ClusterCount(b);
    count.0
}

fn lowered_guest(a: u64, b: u64) -> u64
    requires { b ≤ a }
{
    let mut cluster = GuestCluster(a);
    cluster -= ClusterCount(b);
    cluster.0
}

fn lowered_host(a: u64, b: u64) -> u64
    requires { b ≤ a }
{
    let mut cluster = HostCluster(a);
    cluster -= ClusterCount(b);
    cluster.0
}

fn lowered_count(a: u64, b: u64) -> u64
    requires { b ≤ a }
{
    let mut count = ClusterCount(a);
    count -= ClusterCount(b);
    count.0
}

// Adds with the assignment operator.
fn raised(kind: &str, a: u64, b: u64) -> Result<u64, Trouble>
    requires { a + b < 2 ^ 64 }
{
    match kind {
        "guest_cluster" => Ok(raised_guest(a, b)),
        "host_cluster" => Ok(raised_host(a, b)),
        "count" => Ok(raised_count(a, b)),
        _ => Err(Trouble::NoCall),
    }
}

// Subtracts with the assignment operator.
fn lowered(kind: &str, a: u64, b: u64) -> Result<u64, Trouble>
    requires { b ≤ a }
{
    match kind {
        "guest_cluster" => Ok(lowered_guest(a, b)),
        "host_cluster" => Ok(lowered_host(a, b)),
        "count" => Ok(lowered_count(a, b)),
        _ => Err(Trouble::NoCall),
    }
}

// Adds, if the sum fits in 64 bits.
fn upward(operator: &str, kind: &str, a: u64, b: u64) -> Result<u64, Trouble> {
    if a.checked_add(b).is_none() {
        return Err(Trouble::NoCall);
    }
    if operator == "+" {
        sum(kind, a, b)
    } else {
        raised(kind, a, b)
    }
}

// Subtracts, if `b` isn't greater than `a`.
fn downward(operator: &str, kind: &str, a: u64, b: u64) -> Result<u64, Trouble> {
    if a < b {
        return Err(Trouble::NoCall);
    }
    match operator {
        "-" => difference(kind, a, b),
        "-=" => lowered(kind, a, b),
        _ => distance(kind, a, b),
    }
}

// Returns true if `a` is less than `b`.
fn is_before(kind: &str, a: u64, b: u64) -> Result<bool, Trouble> {
    match kind {
        "guest_offset" => Ok(GuestOffset(a) < GuestOffset(b)),
        "host_offset" => Ok(HostOffset(a) < HostOffset(b)),
        "guest_cluster" => Ok(GuestCluster(a) < GuestCluster(b)),
        "host_cluster" => Ok(HostCluster(a) < HostCluster(b)),
        "count" => Ok(ClusterCount(a) < ClusterCount(b)),
        _ => Err(Trouble::NoCall),
    }
}

fn operator(word: &str, kind: &str, a: u64, b: u64) -> Result<Answer, Trouble> {
    match word {
        "+" | "+=" => Ok(Answer::Number(upward(word, kind, a, b)?)),
        "-" | "-=" | "from" => Ok(Answer::Number(downward(word, kind, a, b)?)),
        "before" => Ok(Answer::Flag(is_before(kind, a, b)?)),
        _ => Err(Trouble::NoCall),
    }
}

// Returns the text of an offset or a count.
fn shown(alloc: Global, kind: &str, n: u64) -> Result<String, Trouble> {
    match kind {
        "guest_offset" => Ok(GuestOffset(n).to_string(alloc)?),
        "host_offset" => Ok(HostOffset(n).to_string(alloc)?),
        "count" => Ok(ClusterCount(n).to_string(alloc)?),
        _ => Err(Trouble::NoCall),
    }
}

/// Returns the answer of an operator, or the text of a value.
///
/// The line is `sum KIND A OPERATOR B`, where `from` is the distance from B to A, or `shown KIND N`.
pub fn sums(alloc: Global, words: &[&str]) -> Result<String, Trouble> {
    match words {
        ["sum", kind, a, word, b] => {
            answered(alloc, operator(word, kind, number(a)?, number(b)?))
        }
        ["shown", kind, n] => shown(alloc, kind, number(n)?),
        _ => Err(Trouble::NoCall),
    }
}
