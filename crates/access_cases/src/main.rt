//! Runs scripts of calls to disks and checks their answers. The disks are chains of raw images and of one-cluster images (a small format
//! for tests). Terms are explained in docs/GLOSSARY.md.
//!
//! # Layers
//!
//! A disk is built from the bottom up. Each `layer` is stacked on the layers before it, and each layer except the lowest must be `backed`.
//!
//! - `layer raw [read_only] STORAGE`: a raw image. A STORAGE is `[fixed | fuse N] MEM REQ ZERO DISCARD HAS BYTES`. With `fixed`, it
//!   refuses resizes. With `fuse N`, its Nth call fails. Then follow its four alignments, what it supports (`z` zeroes, `d` discards, `zd`
//!   both, `-` neither), and its bytes.
//! - `layer words SIZE IMAGE [fuse N] [MARK ..]`: a one-cluster image of SIZE bytes, with nothing mapped. IMAGE is its number. With
//!   `fuse N`, the Nth call of its file fails. Marks: `read_only`, `backed` (a byte that it has no data for is read from the layer
//!   below), `through` (it reports that the layers below can be written), `zeroed` and `barred` (all of its bytes are 0, or can't be
//!   read), `failed`, `missing` (a file).
//! - `layer holding IMAGE [fuse N] [backed] BYTES`: a one-cluster image that is mapped and holds these bytes.
//! - `open STORAGE`, `open_told WRITING DIRECT FILE STORAGE`, `create`, `create_open` and `create_unopened SIZE MODE STORAGE`: a raw image
//!   from its builders.
//! - `close` drops the disk. `other` swaps the disk with the other disk. `flatten` copies the disk into the other disk, which must have
//!   nothing prepared.
//!
//! # Calls
//!
//! - The calls of a disk, and of the driver of its top layer, that `access_calls::called` has.
//! - `prepare OFFSET N [overwrite]`, `commit`, `cancel`. `mapping` prints the mapping that the script keeps between calls, prepared and not
//!   yet committed. `mapping STORAGE OFFSET N [IMAGE CLAIM]` makes one. `other_mapping` swaps it with the other mapping.
//! - Of the top layer's storage: `storage` (its bytes), `write_storage OFFSET BYTES`, `count` (the count of its fuse), `asked` (the
//!   requests of all storages), `resized` (the mode of the last resize). Of one-cluster images: `lookups` of each layer, `faults`.
//! - Without a disk: `opening [WRITING DIRECT FILE]`, `creating` and `create_builder SIZE MODE`, `gate NAME`, `nothing_below OFFSET N`,
//!   `check_range ACCESS UNIT SIZE OFFSET N`. At any time: `probe STORAGE`.
#![tactic(auto)]

mod building;
mod clusters;
mod disks;
mod drivers;
mod file_reads;
mod layers;
mod repairing;
mod storages;
mod texts;

use cases::{Notes, run};
use disks::Disks;
use std::cell::Cell;
use std::process::ExitCode;
use storages::Notebook;

fn main(rt: HostRuntime) -> ExitCode {
    let asked = Cell::new(Notes::none());
    let mode = Cell::new(None);
    let mut disks = Disks::new(Notebook {
        asked: &asked,
        mode: &mode,
    });
    let status = run(&rt, &mut disks);
    disks.close();
    status
}
