// The mappings of L2 entries. Each is three words of a script.
ghost use Rattle.std.specs.Prelude.{◌≤◌};

use crate::answer::Answer;
use crate::limits::cluster_bits;
use cases::{Trouble, number};
use qcow2_metadata::L2Mapping;
use qcow2_types::{HostCluster, HostOffset};
use std::alloc::{AllocError, Global};

fn mark(copied: bool) -> &'static str {
    if copied { "copied" } else { "shared" }
}

/// Returns the text of a mapping.
///
/// It is `data CLUSTER MARK`, `zeroes CLUSTER MARK` with `-` for no cluster, `below PLACE -`, or `packed PLACE LENGTH`. A mark is `copied`
/// or `shared`.
pub fn mapping_text(alloc: Global, mapping: L2Mapping) -> Result<String, AllocError> {
    match mapping {
        L2Mapping::DataFile {
            host_cluster,
            copied,
        } => {
            let (cluster, mark) = (host_cluster.0, mark(copied));
            format!(in alloc; "data {cluster} {mark}")
        }
        L2Mapping::Backing { backing_offset } => format!(in alloc; "below {backing_offset} -"),
        L2Mapping::Zero {
            host_cluster,
            copied,
        } => zeroes_text(alloc, host_cluster, mark(copied)),
        L2Mapping::Compressed {
            host_offset,
            length,
        } => {
            let place = host_offset.0;
            format!(in alloc; "packed {place} {length}")
        }
    }
}

fn zeroes_text(
    alloc: Global,
    cluster: Option<HostCluster>,
    mark: &str,
) -> Result<String, AllocError> {
    match cluster {
        Some(cluster) => {
            let cluster = cluster.0;
            format!(in alloc; "zeroes {cluster} {mark}")
        }
        None => format!(in alloc; "zeroes - {mark}"),
    }
}

// Returns true if a mark is `copied`.
fn is_copied(word: &str) -> Result<bool, Trouble> {
    match word {
        "copied" => Ok(true),
        "shared" => Ok(false),
        _ => Err(Trouble::NoCall),
    }
}

/// A mapping as a script has it.
#[derive(Clone, Copy)]
enum Written {
    Data(u64, bool),
    Below(u64),
    Kept(u64, bool),
    Zeroes(bool),
    Packed(u64, u64),
}

fn zeroes(cluster: &str, mark: &str) -> Result<Written, Trouble> {
    let copied = is_copied(mark)?;
    if cluster == "-" {
        Ok(Written::Zeroes(copied))
    } else {
        Ok(Written::Kept(number(cluster)?, copied))
    }
}

fn written_as(kind: &str, first: &str, second: &str) -> Result<Written, Trouble> {
    match kind {
        "data" => Ok(Written::Data(number(first)?, is_copied(second)?)),
        "below" if second == "-" => Ok(Written::Below(number(first)?)),
        "zeroes" => zeroes(first, second),
        "packed" => Ok(Written::Packed(number(first)?, number(second)?)),
        _ => Err(Trouble::NoCall),
    }
}

// Converts a `Written` to a mapping. It is a macro so that nothing is called while another mapping is held. A check has no proof of such a
// call if the types are another crate's.
macro_rules! mapping {
    ($written:expr) => {
        match $written {
            Written::Data(cluster, copied) => L2Mapping::DataFile {
                host_cluster: HostCluster(cluster),
                copied,
            },
            Written::Below(backing_offset) => L2Mapping::Backing { backing_offset },
            Written::Kept(cluster, copied) => L2Mapping::Zero {
                host_cluster: Some(HostCluster(cluster)),
                copied,
            },
            Written::Zeroes(copied) => L2Mapping::Zero {
                host_cluster: None,
                copied,
            },
            Written::Packed(place, length) => L2Mapping::Compressed {
                host_offset: HostOffset(place),
                length,
            },
        }
    };
}

fn goes_on(mapping: Written, before: Written, bits: u32) -> Answer
    requires { (9 ≤ bits) × (bits ≤ 21) }
{
    let mapping = mapping!(mapping);
    let before = mapping!(before);
    Answer::Flag(mapping.is_consecutive(&before, bits))
}

/// Returns whether a mapping continues the mapping before it. The line is `BITS`, the mapping, `after` and the mapping before it.
pub fn follows(words: &[&str]) -> Result<Answer, Trouble> {
    match words {
        [bits, a, b, c, "after", x, y, z] => {
            let bits = cluster_bits(bits)?;
            let mapping = written_as(a, b, c)?;
            let before = written_as(x, y, z)?;
            Ok(goes_on(mapping, before, bits))
        }
        _ => Err(Trouble::NoCall),
    }
}
