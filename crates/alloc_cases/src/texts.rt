// Formats results of calls as text.
use cases::joined;
use std::alloc::{AllocError, Global};

/// A run of clusters in a script: the first, their number, and whether they are metadata.
pub type Parts = (u64, u64, bool);

/// Returns the text of consecutive clusters: `data 8+3`.
pub fn parts_text(alloc: Global, parts: Parts) -> Result<String, AllocError> {
    let (first, count, is_metadata) = parts;
    let kind = if is_metadata { "metadata" } else { "data" };
    format!(in alloc; "{kind} {first}+{count}")
}

/// Returns the text of numbers, with equal consecutive ones together: `1*8 0`. The text of no numbers is `-`.
pub fn numbers_text(alloc: Global, numbers: &[u64]) -> Result<String, AllocError> {
    let mut text = String::new(alloc);
    let mut value = 0u64;
    let mut count = 0u64;
    for number in numbers.iter() {
        if count > 0 && *number == value {
            count = count.saturating_add(1);
        } else {
            push_numbers(alloc, &mut text, value, count)?;
            value = *number;
            count = 1;
        }
    }
    push_numbers(alloc, &mut text, value, count)?;
    if text.is_empty() {
        joined(&mut text, "-")?;
    }
    Ok(text)
}

fn push_numbers(
    alloc: Global,
    text: &mut String,
    value: u64,
    count: u64,
) -> Result<(), AllocError> {
    if count == 0 {
        return Ok(());
    }
    let run = if count == 1 {
        value.to_string(alloc)?
    } else {
        format!(in alloc; "{value}*{count}")?
    };
    joined(text, run.as_str())
}

/// Returns the text of leaked clusters, with each run of an excess refcount of 1 together: `8-31 40*2`. The text of no clusters is `none`.
pub fn leaks_text(alloc: Global, leaks: &[(u64, u64)]) -> Result<String, AllocError> {
    let mut text = String::new(alloc);
    let mut first = 0u64;
    let mut end = 0u64;
    for (cluster, excess_refcount) in leaks.iter() {
        if *excess_refcount == 1 && *cluster == end && first < end {
            end = end.saturating_add(1);
            continue;
        }
        push_run(alloc, &mut text, first, end)?;
        first = *cluster;
        end = first.saturating_add(1);
        if *excess_refcount != 1 {
            let leak = format!(in alloc; "{cluster}*{excess_refcount}")?;
            joined(&mut text, leak.as_str())?;
            end = first;
        }
    }
    push_run(alloc, &mut text, first, end)?;
    if text.is_empty() {
        joined(&mut text, "none")?;
    }
    Ok(text)
}

// Appends the clusters from `first` to before `end` to a text.
fn push_run(alloc: Global, text: &mut String, first: u64, end: u64) -> Result<(), AllocError> {
    if end <= first {
        return Ok(());
    }
    let last = end - 1;
    let run = if last == first {
        first.to_string(alloc)?
    } else {
        format!(in alloc; "{first}-{last}")?
    };
    joined(text, run.as_str())
}
