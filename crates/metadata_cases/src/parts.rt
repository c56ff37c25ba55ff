// Runs the lines of a script on feature bits, clusters to free, and the parts of a header with a fixed size.
ghost use Rattle.std.specs.Prelude.{◌≡◌, length};

use crate::answer::{Answer, answered};
use cases::{Trouble, number, runs, size};
use qcow2_types::{
    AutoclearFeatures, ClusterCount, ClustersToFreeEntry, CompatibleFeatures, FeatureType,
    HostCluster, IncompatibleFeatures, OnDiskStruct, PendingClusters, V2Header, V3HeaderBase,
};
use std::alloc::Global;

/// Parses a type of features.
pub fn feature_type(word: &str) -> Result<FeatureType, Trouble> {
    match word {
        "incompatible" => Ok(FeatureType::Incompatible),
        "compatible" => Ok(FeatureType::Compatible),
        "autoclear" => Ok(FeatureType::Autoclear),
        _ => Err(Trouble::NoCall),
    }
}

fn incompatible_feature(word: &str) -> Result<(FeatureType, u8), Trouble> {
    match word {
        "dirty" => Ok(IncompatibleFeatures::Dirty.into()),
        "corrupt" => Ok(IncompatibleFeatures::Corrupt.into()),
        "external_data_file" => Ok(IncompatibleFeatures::ExternalDataFile.into()),
        "compression_type" => Ok(IncompatibleFeatures::CompressionType.into()),
        "extended_l2_entries" => Ok(IncompatibleFeatures::ExtendedL2Entries.into()),
        _ => Err(Trouble::NoCall),
    }
}

fn feature(word: &str) -> Result<(FeatureType, u8), Trouble> {
    match word {
        "lazy_refcounts" => Ok(CompatibleFeatures::LazyRefcounts.into()),
        "bitmaps" => Ok(AutoclearFeatures::Bitmaps.into()),
        "raw_external_data" => Ok(AutoclearFeatures::RawExternalData.into()),
        _ => incompatible_feature(word),
    }
}

fn type_word(kind: FeatureType) -> &'static str {
    match kind {
        FeatureType::Incompatible => "incompatible",
        FeatureType::Compatible => "compatible",
        FeatureType::Autoclear => "autoclear",
    }
}

// Returns a feature's type, the number of the type, and the feature's bit.
fn shown_feature(alloc: Global, word: &str) -> Result<String, Trouble> {
    let (kind, bit) = feature(word)?;
    let (name, number) = (type_word(kind), kind.to_kind());
    Ok(format!(in alloc; "{name} {number} bit {bit}")?)
}

// Returns the type with a number.
fn type_of_number(alloc: Global, kind: u64) -> Result<String, Trouble> {
    if kind > 255 {
        return Err(Trouble::NoCall);
    }
    let name = match FeatureType::from_kind(kind as u8) {
        Some(kind) => type_word(kind),
        None => "none",
    };
    Ok(name.to_string(alloc)?)
}

// Makes an entry of clusters of a script: data or metadata.
fn entry_of(word: &str, first: u64, count: u64) -> Result<ClustersToFreeEntry, Trouble> {
    match word {
        "data" => Ok(ClustersToFreeEntry::data(HostCluster(first), ClusterCount(count))),
        "metadata" => Ok(ClustersToFreeEntry::metadata(HostCluster(first), ClusterCount(count))),
        _ => Err(Trouble::NoCall),
    }
}

// Returns the text of an entry: first its getters, then its parts.
fn shown_entry(alloc: Global, entry: ClustersToFreeEntry) -> Result<String, Trouble> {
    let (first, count) = (entry.first_cluster().0, entry.count().0);
    let is_metadata = entry.is_metadata();
    let (part, number, mark) = entry.into_parts();
    let (part, number) = (part.0, number.0);
    Ok(format!(in alloc; "{first} {count} {is_metadata} parts {part} {number} {mark}")?)
}

// Makes pending clusters (allocated, and not yet referenced). Then the clusters are made persistent, or become an entry of clusters to
// free.
fn pending(alloc: Global, entry: ClustersToFreeEntry, is_named: bool) -> Result<String, Trouble> {
    let pending = PendingClusters::new(entry);
    let first = pending.cluster().0;
    if is_named {
        pending.make_persistent();
        return Ok(format!(in alloc; "{first} named")?);
    }
    shown_entry(alloc, pending.into_entry())
}

fn older(bytes: &[u8]) -> Result<V2Header, Trouble> {
    if bytes.len() != V2Header::SIZE {
        return Err(Trouble::NoCall);
    }
    Ok(V2Header::from_bytes(bytes))
}

fn newer(bytes: &[u8]) -> Result<V3HeaderBase, Trouble> {
    if bytes.len() != V3HeaderBase::SIZE {
        return Err(Trouble::NoCall);
    }
    Ok(V3HeaderBase::from_bytes(bytes))
}

fn older_field(v2: &V2Header, word: &str) -> Result<u64, Trouble> {
    match word {
        "magic" => Ok(u64::from(v2.magic)),
        "version" => Ok(u64::from(v2.version)),
        "backing_filename_offset" => Ok(v2.backing_filename_offset),
        "backing_filename_size" => Ok(u64::from(v2.backing_filename_size)),
        "cluster_bits" => Ok(u64::from(v2.cluster_bits)),
        "size" => Ok(v2.size),
        "crypt_method" => Ok(u64::from(v2.crypt_method)),
        "l1_size" => Ok(u64::from(v2.l1_size)),
        "l1_table_offset" => Ok(v2.l1_table_offset),
        "refcount_table_offset" => Ok(v2.refcount_table_offset),
        "refcount_table_clusters" => Ok(u64::from(v2.refcount_table_clusters)),
        "nb_snapshots" => Ok(u64::from(v2.nb_snapshots)),
        "snapshots_offset" => Ok(v2.snapshots_offset),
        _ => Err(Trouble::NoCall),
    }
}

fn newer_field(v3: &V3HeaderBase, word: &str) -> Result<u64, Trouble> {
    match word {
        "incompatible_features" => Ok(v3.incompatible_features),
        "compatible_features" => Ok(v3.compatible_features),
        "autoclear_features" => Ok(v3.autoclear_features),
        "refcount_order" => Ok(u64::from(v3.refcount_order)),
        "header_length" => Ok(u64::from(v3.header_length)),
        _ => Err(Trouble::NoCall),
    }
}

// Returns some of the bytes of a version 2 header, written over other bytes.
fn older_bytes(alloc: Global, v2: &V2Header, at: usize, count: usize) -> Result<String, Trouble> {
    let mut bytes = [0xaau8; 72];
    v2.to_bytes(&mut bytes);
    match bytes.get(at..at.saturating_add(count)) {
        Some(part) => Ok(runs(alloc, part)?),
        None => Err(Trouble::NoCall),
    }
}

fn newer_bytes(alloc: Global, v3: &V3HeaderBase) -> Result<String, Trouble> {
    let mut bytes = [0xaau8; 32];
    v3.to_bytes(&mut bytes);
    Ok(runs(alloc, &bytes)?)
}

fn older_part(alloc: Global, word: &str, bytes: &[u8]) -> Result<String, Trouble> {
    let v2 = older(bytes)?;
    answered(alloc, Ok(Answer::Word(older_field(&v2, word)?)))
}

fn newer_part(alloc: Global, word: &str, v3: &V3HeaderBase) -> Result<String, Trouble> {
    if word == "bytes" {
        return newer_bytes(alloc, v3);
    }
    answered(alloc, Ok(Answer::Word(newer_field(v3, word)?)))
}

// Returns the length in bytes of a part of a header.
fn part_length(word: &str) -> Result<Answer, Trouble> {
    match word {
        "older" => Ok(Answer::Number(V2Header::SIZE as u64)),
        "newer" => Ok(Answer::Number(V3HeaderBase::SIZE as u64)),
        _ => Err(Trouble::NoCall),
    }
}

// Makes a call of a part of a header, decoded from the bytes of the file.
fn part(alloc: Global, words: &[&str], file: &[u8]) -> Result<String, Trouble> {
    match words {
        [word, "length"] => answered(alloc, part_length(word)),
        ["older", "bytes", at, count] => {
            older_bytes(alloc, &older(file)?, size(at)?, size(count)?)
        }
        ["older", word] => older_part(alloc, word, file),
        ["newer", word] => newer_part(alloc, word, &newer(file)?),
        ["default", word] => newer_part(alloc, word, &V3HeaderBase::default()),
        _ => Err(Trouble::NoCall),
    }
}

// Parses clusters: data or metadata, the first cluster, and the count.
fn handed_over(words: &[&str]) -> Result<ClustersToFreeEntry, Trouble> {
    let [word, first, count] = words else {
        return Err(Trouble::NoCall);
    };
    entry_of(word, number(first)?, number(count)?)
}

// Shows an entry, or makes its clusters pending and then persistent or free.
fn entry(alloc: Global, word: &str, entry: ClustersToFreeEntry) -> Result<String, Trouble> {
    match word {
        "named" => pending(alloc, entry, true),
        "unnamed" => pending(alloc, entry, false),
        _ => shown_entry(alloc, entry),
    }
}

/// Makes a call of features, clusters to free, or parts of a header in the bytes of the file.
pub fn parts(alloc: Global, words: &[&str], file: &[u8]) -> Result<String, Trouble> {
    match words {
        ["feature", word] => shown_feature(alloc, word),
        ["feature_type", kind] => type_of_number(alloc, number(kind)?),
        ["to_free", rest @ ..] => entry(alloc, "alone", handed_over(rest)?),
        ["pending", word, rest @ ..] => entry(alloc, word, handed_over(rest)?),
        ["part", rest @ ..] => part(alloc, rest, file),
        _ => Err(Trouble::NoCall),
    }
}
