// Runs the lines of a script that call the header of an image.
ghost use Rattle.std.specs.Prelude.{◌≤◌, IfOk};

use crate::answer::{Answer, answered};
use crate::file::Image;
use crate::limits::cluster_bits;
use crate::parts::feature_type;
use crate::tables::is_placed;
use cases::{Trouble, number, ok};
use qcow2_metadata::{Header, L1Table, RefTable, Table};
use qcow2_types::{ClustersToFreeEntry, FeatureType, PendingClusters};
use std::alloc::Global;

// Parses a text of a script: `-` for none, `n*3` for `nnn`, and any other word as it is.
fn text_of(alloc: Global, word: &str) -> Result<Option<String>, Trouble> {
    if word == "-" {
        return Ok(None);
    }
    let Some((part, count)) = word.split_once("*") else {
        return Ok(Some(word.to_string(alloc)?));
    };
    let count = number(count)?;
    if count > 4096 {
        return Err(Trouble::NoCall);
    }
    let mut text = String::new(alloc);
    for _ in 0..count {
        text.push_str(part)?;
    }
    Ok(Some(text))
}

fn refcount_order(word: &str) -> Result<u32, Trouble>
    ensures { IfOk result (λ order. order ≤ 6) }
{
    let order = number(word)?;
    if order > 6 {
        return Err(Trouble::NoCall);
    }
    Ok(order as u32)
}

/// Creates a header: `CLUSTER_BITS REFCOUNT_ORDER BACKING_FILE BACKING_FORMAT DATA_FILE`.
pub fn new_header(alloc: Global, words: &[&str]) -> Result<Header, Trouble> {
    let [bits, order, name, format, data_file] = words else {
        return Err(Trouble::NoCall);
    };
    let (bits, order) = (cluster_bits(bits)?, refcount_order(order)?);
    let (name, format) = (text_of(alloc, name)?, text_of(alloc, format)?);
    let data_file = text_of(alloc, data_file)?;
    Ok(Header::new(alloc, bits, order, name, format, data_file)?)
}

/// Loads the header in the file, for reading or for writing.
pub fn load_header(alloc: Global, image: &mut Image<'_>, word: &str) -> Result<Header, Trouble> {
    let writable = match word {
        "reading" => false,
        "writing" => true,
        _ => return Err(Trouble::NoCall),
    };
    Ok(Header::load(alloc, image, writable)?)
}

// Returns a number about tables from the header.
fn place_field(header: &Header, word: &str) -> Result<u64, Trouble> {
    match word {
        "l1_offset" => Ok(header.l1_table_offset().0),
        "l1_entries" => Ok(header.l1_table_entries() as u64),
        "reftable_offset" => Ok(header.reftable_offset().0),
        "reftable_clusters" => Ok(header.reftable_clusters().0),
        "reftable_entries" => Ok(header.reftable_entries() as u64),
        "snapshots" => Ok(u64::from(header.snapshots())),
        _ => Err(Trouble::NoCall),
    }
}

fn field(header: &Header, word: &str) -> Result<u64, Trouble> {
    match word {
        "version" => Ok(u64::from(header.version())),
        "size" => Ok(header.size()),
        "cluster_bits" => Ok(u64::from(header.cluster_bits())),
        "cluster_size" => Ok(header.cluster_size() as u64),
        "l2_entries" => Ok(header.l2_entries() as u64),
        "refcount_order" => Ok(u64::from(header.refcount_order())),
        "rb_bits" => Ok(u64::from(header.rb_bits())),
        "rb_entries" => Ok(header.rb_entries() as u64),
        _ => place_field(header, word),
    }
}

// Returns a text of the header, or `none`.
fn shown(alloc: Global, text: Option<&str>) -> Result<String, Trouble> {
    Ok(text.unwrap_or("none").to_string(alloc)?)
}

fn feature_name(
    alloc: Global,
    header: &Header,
    kind: FeatureType,
    bit: u64,
) -> Result<String, Trouble> {
    if bit > 0xffff_ffff {
        return Err(Trouble::NoCall);
    }
    shown(alloc, header.feature_name(kind, bit as u32))
}

fn getter(alloc: Global, header: &Header, words: &[&str]) -> Result<String, Trouble> {
    match words {
        ["backing_file"] => shown(alloc, header.backing_filename()),
        ["backing_format"] => shown(alloc, header.backing_format()),
        ["data_file"] => shown(alloc, header.external_data_filename()),
        ["external_data"] => answered(alloc, Ok(Answer::Flag(header.external_data_file()))),
        ["feature", kind, bit] => { feature_name(alloc, header, feature_type(kind)?, number(bit)?) }
        [word] => answered(alloc, Ok(Answer::Number(field(header, word)?))),
        _ => Err(Trouble::NoCall),
    }
}

fn require(alloc: Global, header: &Header, version: u64) -> Result<String, Trouble> {
    if version > 0xffff_ffff {
        return Err(Trouble::NoCall);
    }
    header.require_version(version as u32)?;
    Ok(ok(alloc)?)
}

fn write(alloc: Global, header: &mut Header, image: &mut Image<'_>) -> Result<String, Trouble> {
    header.write(alloc, image)?;
    Ok(ok(alloc)?)
}

// Makes one of the three writes of a part of the header.
fn write_pointer(
    alloc: Global,
    header: &Header,
    image: &mut Image<'_>,
    word: &str,
) -> Result<String, Trouble> {
    match word {
        "size" => header.write_size(alloc, image)?,
        "l1" => header.write_l1_table_pointer(alloc, image)?,
        "reftable" => header.write_reftable_pointer(alloc, image)?,
        _ => return Err(Trouble::NoCall),
    }
    Ok(ok(alloc)?)
}

// Takes the values from the header in the file.
fn update(
    alloc: Global,
    header: &mut Header,
    image: &mut Image<'_>,
    word: &str,
) -> Result<String, Trouble> {
    let other = load_header(alloc, image, word)?;
    header.update(&other)?;
    Ok(ok(alloc)?)
}

/// Makes a call of the header that needs no storage.
pub fn header_call(alloc: Global, header: &mut Header, words: &[&str]) -> Result<String, Trouble> {
    match words {
        ["set_size", size] => {
            header.set_size(number(size)?);
            Ok(ok(alloc)?)
        }
        ["forget_feature_names"] => {
            header.forget_feature_names();
            Ok(ok(alloc)?)
        }
        ["require", version] => require(alloc, header, number(version)?),
        _ => getter(alloc, header, words),
    }
}

/// Makes a call of the header that needs the storage.
pub fn header_in_file(
    alloc: Global,
    header: &mut Header,
    image: &mut Image<'_>,
    words: &[&str],
) -> Result<String, Trouble> {
    match words {
        ["write"] => write(alloc, header, image),
        ["write", word] => write_pointer(alloc, header, image, word),
        ["update", word] => update(alloc, header, image, word),
        _ => Err(Trouble::NoCall),
    }
}

/// Makes the header reference an L1 table. Before the call the table's clusters are pending (allocated, and not yet referenced).
pub fn link_l1(alloc: Global, header: &mut Header, table: &L1Table) -> Result<String, Trouble> {
    if table.cluster_bits() != header.cluster_bits() || !is_placed(table) {
        return Err(Trouble::NoCall);
    }
    let pending = match table.get_cluster() {
        Some(cluster) => {
            let entry = ClustersToFreeEntry::metadata(cluster, table.cluster_count());
            Some(PendingClusters::new(entry))
        }
        None => None,
    };
    header.set_l1_table(table, pending);
    Ok(ok(alloc)?)
}

/// Makes the header reference a refcount table.
pub fn name_reftable(
    alloc: Global,
    header: &mut Header,
    table: &RefTable,
) -> Result<String, Trouble> {
    if table.cluster_bits() != header.cluster_bits() || !is_placed(table) {
        return Err(Trouble::NoCall);
    }
    header.set_reftable(table);
    Ok(ok(alloc)?)
}
