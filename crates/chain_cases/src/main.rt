//! Runs scripts of calls of chains of image files: qcow2, VMDK and raw images, over files that a script gives by their bytes.
//!
//! Offsets, lengths, sizes and alignments are in bytes. `docs/CASES.md` describes the format of a script. Terms are explained in
//! docs/GLOSSARY.md.
//!
//! # Files
//!
//! - `file NAME [fuse N] [align N] BYTES`: adds a file. Its storages have this alignment, and their Nth call fails.
//! - `put NAME OFFSET BYTES` writes bytes to a file. `more NAME BYTES` appends bytes, and `line NAME WORDS` a line of text.
//!   `cut NAME LENGTH` sets its length. A storage that was opened before doesn't change.
//! - `create NAME SIZE [clusters N] [width N] [mode MODE] [over NAME as FORMAT]`: replaces a file with a new qcow2 image, which is created over
//!   the file by the builder. The disk has SIZE bytes. `over` gives the name of a backing file, and its format. If the creation fails, the
//!   file stays. `create_stops NAME OFFSET N SIZE ..`: creates the image over a copy of the file, and reports the crash images like `stops`.
//! - `prefixes qcow2 | vmdk NAME FIRST LAST [OFFSET N]`: opens the first bytes of a file as an image, for each length from FIRST to LAST.
//!   It answers the size of the disk, or the bytes of the range, or the fault. If another length has another answer, `and at LENGTH ANSWER`
//!   follows for the first such length.
//! - `probe qcow2 | vmdk NAME`: `true` if the file begins like an image of this format, and otherwise `false`.
//!
//! # Layers
//!
//! A disk is built from the bottom up. Each `layer` (an image) becomes the new top, and must be one that reads unallocated bytes from the
//! layer below, if any.
//!
//! - `layer raw NAME [writing]`: a file as a raw image.
//! - `layer qcow2 NAME [writing] [backed | alone] [caches L R]`: a file as a qcow2 image, opened by its builder. `backed` and `alone` say
//!   whether unallocated bytes are read from layers below. Its caches hold L L2 tables and R refcount blocks.
//! - `layer qcow2 NAME plain [writing]`: a file as a qcow2 image, opened by `open_image` without a builder.
//! - `layer vmdk NAME [writing]`: a descriptor, with its extents, which are files of the case. `layer vmdk NAME plain` doesn't open the
//!   extents. `open_extents` opens those extents of a descriptor on top that aren't open yet.
//! - `close`: drops the disk.
//! - `chain [writing] [number N] [LAYER [over LAYER] ..]`: opens files as a chain by one call, the top first. The chain replaces the disk.
//!   A LAYER is `FORMAT FILE [with NAME FILE] ..`, where NAME is the name by which the image opens the extra file. `chain committing [number
//!   N] [below_number N] [LAYER [over LAYER] ..]` opens the image below the top for writing, too. Its number is 1 by default.
//! - `checked_chain [writing] [number N] LAYER [over LAYER] .. [; CALL] ..`: like `chain`, but the checker must accept the top file, and a list
//!   of calls is made by the same call. It answers like `list`, or with the finding. With `committing`, as for `chain`, it must accept the
//!   second file, too.
//!
//! # Calls
//!
//! - The calls of a disk and of the driver of its top layer that `access_calls::called` lists.
//! - `prepare OFFSET N [overwrite]`, `commit`, `cancel`: prepare a mapping (a run that is written and not yet committed), and commit or
//!   cancel it. `mapping` answers the prepared mapping, and `mapping STORAGE OFFSET N` makes one without state. `belongs`: `true` if an
//!   image with the number of the top layer prepared the mapping, and otherwise `false`.
//! - `counts`: the numbers of calls that the image files of the layers got, the top first. `asked`: the calls that all storages got since
//!   the last `asked` or `forget`.
//! - `snapshot`: copies the current files of the disk. It answers the layers, the top first, each followed by `/`: the format and the
//!   length of the file, and the names and lengths of the extra files. `snapshot LAYER FILE OFFSET N` answers bytes of a copy.
//! - `flatten SIZE [OFFSET N]`: copies the disk into a new raw disk of SIZE bytes in memory. It answers all its bytes, or a range.
//! - `if_open CALL`: makes the call if the case has an open disk, and otherwise answers `closed`.
//!
//! # Drivers
//!
//! - `image`: the length of the image file of the top layer. `image OFFSET N` and `write_image OFFSET BYTES` read and write this file.
//!   `extra INDEX OFFSET N` and `write_extra INDEX OFFSET BYTES` read and write the file of an extent. `extra_name INDEX` answers the name
//!   of an extra file, in quotes.
//! - `into_image OFFSET N`: takes the image file out of the top layer's driver, and answers these bytes of it. The disk is dropped.
//! - For a qcow2 image on top: `failed`; `backing`, and `set_backing true | false`; `debug`. `names` answers whether the data is in an
//!   external file, and the names in the header, in quotes or `none`: the data file, the backing file and its format.
//! - `builder FORMAT NAME [writing] [options FILE]`: opens a file by a builder. It answers the builder's format, `writing` or `reading`,
//!   the file name in its options or `without`, and the size of the disk.
//! - `spend raw | vmdk NAME commit | cancel STORAGE OFFSET N`: commits or cancels a mapping without state (with nothing to commit), with
//!   the driver of this format over a file. If the call fails and returns the mapping, `back` and the mapping follow the fault. The extents
//!   of a descriptor aren't opened.
//!
//! # Crash images
//!
//! A crash image is the bytes of a file after a crash between two of its requests.
//!
//! - `keep_logs [ALIGNMENT] ..`: from here on `layer`, `chain`, `close` and the calls of a disk are made on disks over files that keep logs
//!   of their requests. There is one disk for each alignment: up to three, or 1, 8, 512 and 4096 by default. The answer is that of the
//!   first disk. An answer that differs from that of the previous disk follows after `and at ALIGNMENT`. A fuse counts the requests of each
//!   disk separately.
//! - `stops OFFSET N LAYER [over LAYER] ..`, with layers as in `chain`: reports the crash images of the top file since `forget`: the bytes
//!   before the first request since then, and after each request. A report has the number of leaked clusters or the checker's finding, and
//!   the bytes of the range as the files say. Reports have `/` between them. Consecutive equal reports are written once, and each has
//!   `COUNT:` in front. Apart from these requests, the files have the bytes that the case gave them.
//! - `states OFFSET N LAYER [over LAYER] ..`: like `stops`, but without the numbers of leaked clusters and of reports.
//!
//! # Scripts of the program
//!
//! - `in_memory`, with the words of `chain`: opens copies of the files as a chain, in addition to the disk. The calls below run scripts on
//!   it.
//! - `script LINE [; LINE] ..`: runs a script. It answers the lines that the script writes, each followed by `/`, and `too many` if the
//!   script has more lines than allowed. If a line is `error 20`, this is the answer of the whole script. `script_bytes BYTES` runs a
//!   script of these bytes. `script_count BYTES` answers only the numbers of lines and bytes that it writes.
//! - `script_in ROOM LINE [; LINE] ..`: runs a script whose writer takes at most ROOM bytes. It answers `ok`, or the reason if the script
//!   ended early. `run_fault NAME`: the text of such a reason, which is `read`, `write`, `lines` or `memory`.
//! - `script_read CAUSE N LINE [; LINE] ..`: like `script`, but the reader fails after N bytes. `script_write CAUSE N LINE [; LINE] ..`:
//!   the writer fails after N bytes. The cause is `broken` or `memory`, which are permanent, or `interrupted`, which happens once. If the
//!   script ended early, the reason follows the lines.
//! - `saved`: how many bytes of the top file the last script saved that didn't end early, or `none`. `saved OFFSET N`: a range of these
//!   bytes. `saved_below [OFFSET N]`: likewise for the file below the top, which is saved if that image is writable.
//! - `answer_text BYTES`: the text of an answer that consists of these bytes, followed by `/`.
//! - `arguments [WORD] ..`: parses arguments of the program. It answers `reading /`, `writing /` or `committing /`, and the layers, the top
//!   first, each followed by `/`, or `none` if the list is empty. The text of a layer is `FORMAT PATH [with NAME at PATH] ..`.
#![tactic(auto)]

mod arguments;
mod builders;
mod chains;
mod copies;
mod creations;
mod files;
mod images;
mod layers;
mod lending;
mod logs;
mod opened;
mod openings;
mod prefixes;
mod qcow2_calls;
mod scripts;
mod stops;
mod streams;

use cases::{Notes, run};
use chains::Chains;
use std::cell::Cell;
use std::process::ExitCode;

fn main(rt: HostRuntime) -> ExitCode {
    let notes = Cell::new(Notes::none());
    let mut chains = Chains::new(rt.alloc(), &notes);
    let status = run(&rt, &mut chains);
    chains.close();
    status
}
