//! Runs scripts that check the checker and the plain reader (which uses no driver). The scripts describe the images byte by byte. Terms are
//! explained in docs/GLOSSARY.md.
//!
//! A case begins with an empty file. A VALUE is a number, `copied`, `compressed`, `zero` or `greatest` (the flags and the greatest offset
//! of raw entries), `A<<B`, or a sum of these, such as `copied+0xa00`.
//!
//! # The file
//!
//! - `header NAME=VALUE ..`: a header of version 3 with clusters of 512 bytes and 16-bit refcounts, for a disk of 65,536 bytes. The
//!   refcount table is in cluster 1 and the L1 table in cluster 3. The given fields replace these defaults. `small NAME=VALUE ..` also
//!   writes the tables: a refcount block in cluster 2 in which clusters 0 to 6 have refcount 1, an L2 table in cluster 4, and data in
//!   clusters 5 and 6. `field NAME=VALUE ..` sets fields.
//! - `worked`: replaces the file with an image of 65,536 bytes with the bytes 01 02 03 at guest offset 510, an L2 table in cluster 4, and
//!   data in clusters 5 and 6.
//! - `word PLACE VALUE ..`: raw entries from offset PLACE on. `row PLACE COUNT FIRST STEP`: COUNT raw entries, each greater by STEP than
//!   the one before. `put PLACE BYTES`. `count WIDTH BLOCK INDEX COUNT [TIMES]`: sets TIMES refcounts of WIDTH bits, from INDEX on, to
//!   COUNT, in the refcount block at offset BLOCK. `cut LENGTH`.
//! - Settings of the storages that are made of the file: `align N`, `fuse N` (the Nth call fails), `fixed` (no resizes).
//!
//! # Results
//!
//! - `check`: `no leaks`, `leaks CLUSTER:EXCESS ..`, or a finding, such as `error 27 under-counted 5`. `finding NAME`: the text of a
//!   finding.
//! - `plain OFFSET LENGTH [FORMAT ..]`: bytes by a plain read, of one qcow2 file or of a chain of `qcow2`, `raw` and `vmdk` files; `none`
//!   is a chain without files.
//! - `bytes OFFSET LENGTH`, `length` of the file.
//! - Of the storage that was made last: `calls`, the number of calls; `changes`, the number of calls that changed it; `change N`, the Nth
//!   call that changed it, such as `write OFFSET LENGTH`.
#![tactic(auto)]

mod changes;
mod files;
mod findings;
mod images;
mod kept;
mod looks;
mod values;
mod worked;

use cases::{Notes, run};
use images::Images;
use std::cell::Cell;
use std::process::ExitCode;

fn main(rt: HostRuntime) -> ExitCode {
    let notes = Cell::new(Notes::none());
    let calls = Cell::new(0);
    let mut images = Images::new(&notes, &calls);
    run(&rt, &mut images)
}
