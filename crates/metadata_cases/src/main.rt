//! Runs scripts of calls to the metadata of qcow2 images and checks their answers. The input is the bytes of a file. The output is a
//! header, a table or a refcount block, and the answers of its calls. Terms are explained in docs/GLOSSARY.md.
//!
//! A case has a file, the storage that holds it, a header, and one L1 table, L2 table, refcount table and refcount block. Raw entries are
//! printed in hexadecimal digits after `0x`. All other numbers are decimal.
//!
//! # The file and its storage
//!
//! - `put OFFSET BYTES`; `word OFFSET NUMBER`, eight bytes in big-endian order; `text OFFSET WORDS`; `cut LENGTH`.
//! - `on UNIT [fuse N]`: puts the file into a storage. All four alignments are UNIT, and the Nth call of the storage fails.
//!   `read OFFSET N`, `size`; `calls`, the number of calls; `asked`, the requests since they were last printed.
//!
//! # A header
//!
//! - `header load reading | writing`; `header new CLUSTER_BITS REFCOUNT_ORDER BACKING_FILE BACKING_FORMAT DATA_FILE`, `-` for none and
//!   `n*3` for `nnn`.
//! - `header set_size N`; `header set_l1`, `header set_reftable`: the header now references the case's table; `header require VERSION`;
//!   `header forget_feature_names`.
//! - `header write`, `header write size | l1 | reftable`; `header update reading | writing`: takes the values from the file's header.
//! - `header version`, `size`, `cluster_bits`, `cluster_size`, `l2_entries`, `refcount_order`, `rb_bits`, `rb_entries`, `l1_offset`,
//!   `l1_entries`, `reftable_offset`, `reftable_clusters`, `reftable_entries`, `snapshots`, `backing_file`, `backing_format`, `data_file`,
//!   `external_data`; `header feature KIND BIT`, the feature's name.
//! - `laws` calls each law of the crate.
//!
//! # Tables and blocks
//!
//! - `l1` and `reftable`: `load CLUSTER ENTRIES`, `make` (an empty table), `grow INDEX` (a copy that has an entry at the index),
//!   `enter INDEX` (the case's L2 table or refcount block), `in_bounds INDEX`.
//! - `l2`: `load CLUSTER`, `new`, `copy`, `write_if_modified`; `[guard] mapping CLUSTER`, `[guard] packed CLUSTER`, of a guest cluster;
//!   `map INDEX CLUSTER [pending]`, `zero INDEX keep | free`, `discard INDEX`, which print the clusters to free, `from FIRST count N`.
//!   `stored CLUSTER entries`, `stored CLUSTER mapping CLUSTER`: of the L2 table in the first CLUSTER, which is loaded for the call and
//!   only read.
//! - Each of `l1`, `l2` and `reftable`: `name`, `most`, `entries`, `word INDEX`, `kept INDEX` (or `none`), `cluster`, `offset`, `bytes`,
//!   `clusters`, `cluster_bits`, `modified`, `set_cluster CLUSTER`, `unset_cluster`, `set_modified`, `clear_modified`, `write`,
//!   `write INDEX`.
//! - `block`: `load CLUSTER`, `new`, `write`, `write_if_modified`; `entries`, `cluster_bits`, `cluster`, `offset`, `modified`,
//!   `set_cluster CLUSTER`, `set_modified`, `clear_modified`; `get INDEX`, `[guard] is_zero INDEX`, `increment INDEX`, `decrement INDEX`,
//!   `lower INDEX BY`.
//!
//! # Entries and mappings
//!
//! - `entry l1 word | table | copied | reserved HOW NUMBER`, with `plain`, `naming` or `empty` as HOW;
//!   `entry reftable word | block | reserved HOW NUMBER`;
//!   `entry l2 word | cluster | external_cluster | compressed | copied | zero | reserved | descriptor | range HOW NUMBER`, with also
//!   `plain_unmarked`, `unmarked`, `zero`, `zero_copied` and `zero_shared`. `plain` is a raw entry of an image with the case's header.
//! - `follows BITS MAPPING after MAPPING`. A MAPPING is `data CLUSTER MARK`, `zeroes CLUSTER MARK` with `-` for no cluster,
//!   `below PLACE -` or `packed PLACE LENGTH`; a MARK is `copied` or `shared`.
//! - `word_at OFFSET` of the file; `offset_in NUMBER`, `block_offset_in NUMBER`: the offset in a raw entry.
//!
//! # Offsets and counts
//!
//! - `guest offset in_cluster | cluster | begins | l1_index | l2_index | rest_of_cluster | rest_of_table OFFSET BITS`;
//!   `guest cluster offset | next_table | l1_index | l2_index | next NUMBER BITS`; `guest of L1_INDEX L2_INDEX BITS`.
//! - `host offset in_cluster | cluster | begins OFFSET BITS`; `host begin - CLUSTER BITS`; `host beside OFFSET CLUSTER BITS`;
//!   `host counter rt_index | rb_index | rt_of_both | rb_of_both CLUSTER BLOCK_BITS`; `host of RT_INDEX RB_INDEX BLOCK_BITS`.
//! - `clusters of_bytes | of_whole | bytes N BITS`.
//! - `sum KIND A + | - | += | -= | from | before B`, with `guest_offset`, `host_offset`, `guest_cluster`, `host_cluster` or `count` as
//!   KIND; `shown KIND N`.
//!
//! # Parts
//!
//! - `feature NAME`; `feature_type NUMBER`; `to_free data | metadata FIRST COUNT`; `pending named | unnamed data | metadata FIRST COUNT`.
//! - `part older | newer length`; of the bytes of the file, `part older FIELD`, `part older bytes AT COUNT`, `part newer FIELD | bytes`;
//!   `part default FIELD | bytes`.
#![tactic(auto)]

mod answer;
mod blocks;
mod entries;
mod file;
mod headers;
mod l2;
mod lawful;
mod limits;
mod mappings;
mod parts;
mod places;
mod state;
mod sums;
mod tables;
mod upper;

use answer::answered;
use cases::{Layer, Notes, Trouble, run};
use entries::{entry, plain};
use file::edit;
use imago_storage::Fault;
use lawful::laws;
use mappings::follows;
use parts::parts;
use places::places;
use state::Metadata;
use std::alloc::Global;
use std::cell::Cell;
use std::process::ExitCode;
use sums::sums;

/// The topic of a call, by the first word of a line.
#[derive(Clone, Copy)]
enum Topic {
    File,
    Storage,
    Places,
    Sums,
    Parts,
    Plain,
    Tables,
}

fn topic_of(word: &str) -> Topic {
    match word {
        "put" | "word" | "text" | "cut" => Topic::File,
        "on" | "read" | "size" | "calls" | "asked" => Topic::Storage,
        "guest" | "host" | "clusters" => Topic::Places,
        "sum" | "shown" => Topic::Sums,
        "feature" | "feature_type" | "to_free" | "pending" | "part" => Topic::Parts,
        "word_at" | "offset_in" | "block_offset_in" => Topic::Plain,
        _ => Topic::Tables,
    }
}

// Makes a call of the storage.
fn storage(state: &mut Metadata<'_>, alloc: Global, words: &[&str]) -> Result<String, Trouble> {
    match words {
        ["on", align] => state.open(alloc, align, "0"),
        ["on", align, "fuse", n] => state.open(alloc, align, n),
        _ => state.look(alloc, words),
    }
}

// Makes a call of a header, a table, a block or a single entry.
fn table_call(
    state: &mut Metadata<'_>,
    alloc: Global,
    topic: &str,
    words: &[&str],
) -> Result<String, Trouble> {
    match topic {
        "header" => state.header_words(alloc, words),
        "l1" => answered(alloc, state.l1_words(alloc, words)),
        "l2" => state.l2_words(alloc, words),
        "reftable" => answered(alloc, state.reftable_words(alloc, words)),
        "block" => answered(alloc, state.block_words(alloc, words)),
        "entry" => entry(alloc, state.header()?, words),
        "follows" => answered(alloc, follows(words)),
        "laws" => answered(alloc, laws(state.header()?)),
        _ => Err(Trouble::NoCall),
    }
}

// Makes any call and returns its answer.
fn answer_of(state: &mut Metadata<'_>, alloc: Global, words: &[&str]) -> Result<String, Trouble> {
    let [first, rest @ ..] = words else {
        return Err(Trouble::NoCall);
    };
    match topic_of(first) {
        Topic::File => edit(alloc, &mut state.file, words),
        Topic::Storage => storage(state, alloc, words),
        Topic::Places => places(alloc, words),
        Topic::Sums => sums(alloc, words),
        Topic::Parts => parts(alloc, words, &state.file),
        Topic::Plain => plain(alloc, words, &state.file),
        Topic::Tables => table_call(state, alloc, first, rest),
    }
}

impl<'a> Layer for Metadata<'a> {
    fn begin(&mut self) {
        self.clear();
    }

    // `Fault::Limit` is printed with its number.
    fn answer(&mut self, alloc: Global, words: &[&str]) -> Result<String, Trouble> {
        match answer_of(self, alloc, words) {
            Err(Trouble::Refused(Fault::Limit(n))) => Ok(format!(in alloc; "limit {n}")?),
            answered => answered,
        }
    }
}

fn main(rt: HostRuntime) -> ExitCode {
    let notes = Cell::new(Notes::none());
    let mut state = Metadata::new(rt.alloc(), &notes);
    run(&rt, &mut state)
}
