//! Runs scripts with calls of a qcow2 image's caches, its allocator and its free list, and compares the results. Terms are explained in
//! docs/GLOSSARY.md.
//!
//! The first lines of a case describe an image, `open` opens it, and each further line is a call. Consecutive clusters are written as
//! `data FIRST+COUNT` or `metadata FIRST+COUNT`. Raw entries of tables are printed in hexadecimal without `0x`, all other numbers in
//! decimal.
//!
//! # The image
//!
//! - `image BITS WIDTH CLUSTERS`: a header for clusters of 2^BITS bytes and refcounts of WIDTH bits, at the start of CLUSTERS clusters of
//!   zeros. BITS is 9, 10, 12 or 16. `made WIDTH COUNTED`: an image with clusters of 512 bytes. The first COUNTED clusters have refcount 1,
//!   the refcount table is cluster 1, and it references the block in cluster 2.
//! - `reftable CLUSTER CLUSTERS`, `block INDEX CLUSTER`: the refcount table, and an entry of it. `count FIRST COUNT [TIMES]`: refcounts.
//! - `l1 CLUSTER ENTRIES SIZE`, `table INDEX CLUSTER`, `mapped TABLE INDEX CLUSTER`: the L1 table of a disk of SIZE bytes, an L1 entry, and
//!   an L2 entry.
//! - `word OFFSET VALUE`, `put OFFSET BYTES`: 8 bytes, or any bytes, at an offset.
//! - `open TABLES BLOCKS [MARK]`: opens the image with caches for TABLES tables and BLOCKS blocks. The search for free clusters starts at
//!   MARK, or at 0. `fuse N`: the Nth storage request from the opening on fails. `fuse BEFORE N MOST`: request BEFORE + N fails, unless N
//!   is 0 or greater than MOST.
//! - `asked`: the storage requests since the last `asked`.
//!
//! # The allocator
//!
//! - `take COUNT KIND`, `take_at CLUSTER`: allocate clusters, which are pending then (not yet referenced). `free`: frees the list.
//!   `grow INDEX`, `grow_by MORE`: grow the refcount table. `mark CLUSTER`: sets the first-free hint, where searches for free clusters
//!   start, and reloads the refcount table. `drop_counts`: drops the cached blocks.
//! - `reftable_in_memory`: the table's offset and clusters, and its number of entries in memory.
//!
//! # The caches
//!
//! - `find_table`, `find_block`, `touch_table`, `touch_block CLUSTER`: look up a table or a block; a touched one is dirty. `words`,
//!   `counts CLUSTER FIRST COUNT`: raw entries of a table, refcounts of a block. `mapping TABLE INDEX`: the host cluster of an L2 entry.
//!   `entries CLUSTER`: the number of a block's refcounts.
//! - `name TABLE INDEX`: links the last pending clusters. `unname TABLE INDEX`: clears an entry. Both print the clusters that they add to
//!   the list, or `nothing`.
//! - `blocks_first`, `tables_first`: set the write order. `flush`, `flush_blocks`, `drop_tables`, `drop_blocks`.
//! - `put_table`, `put_block FROM TO`: put the table or block that the file has in cluster FROM into the cache at cluster TO. `back_table`,
//!   `back_block FIRST COUNT`: the cluster, state and contents of the value that a failed put returned. `put_again table | block`: puts it
//!   again.
//!
//! # The file
//!
//! - `written`: the changes since the last `written`: `5` for a write of cluster 5, `5+2` for one of two clusters, `OFFSET:LENGTH` for any
//!   other. `stops`: `sound`, or the checker's fault in a crash image (the file after a crash between two requests). `leaks`, `leaked`: the
//!   clusters that leak in the last crash image, and their number. `leaks_are_kept`: `yes` if that is the number of clusters that `keep`
//!   consumed.
//! - `counted FIRST COUNT`: refcounts in the file. `word_in_file OFFSET`: 8 bytes as a decimal number. `bytes_in_file OFFSET COUNT`.
//!
//! # The list
//!
//! - `wait KIND FIRST COUNT`: adds an entry. `guard KIND FIRST COUNT`: makes clusters pending, with a reserved slot (memory for their
//!   entry). `keep`, `return`: the last pending clusters are referenced, or given back; `none` if nothing is pending. `hold`: reserves a
//!   slot. `reserve COUNT`: reserves memory for COUNT entries, and no slot. `give_back KIND FIRST COUNT`; `shorten INDEX COUNT`;
//!   `remove INDEX`; `take_list`, and `taken`, the entries that it took.
//! - `list`, `held`, `length`, `first_metadata`.
//!
//! # A cache of numbers
//!
//! - `cache of SIZE sound | odd_flushes_fail | load_fails KEY`: a cache that loads each key as its value.
//! - `cache fill FIRST COUNT`; `cache find KEY HOW`, `cache insert KEY VALUE HOW`, where HOW is `flushing` if another value may be flushed,
//!   or `unflushed`; `cache write KEY VALUE`; `cache flush`, `drop`; `cache forget`, `pin`, `unpin KEY`.
//! - `cache at KEY`, `cache pins KEY`; `cache flushed`, `dropped`: the first 64 values since the last such line; `cache loads`.
//!
//! # Any call
//!
//! - `steady CALL`: if memory runs out before the call has done anything, the state must be unchanged, and the call is made again.
//!   `any CALL`: `ok` for any result but an error.
#![tactic(auto)]

mod allocating;
mod caching;
mod image;
mod judging;
mod keyed;
mod listing;
mod looking;
mod opened;
mod putting;
mod texts;

use cases::{Layer, Notes, Trouble, number, ok, run, size, told};
use image::Draft;
use imago_storage::Fault;
use keyed::{Keyed, Noted};
use listing::Waiting;
use opened::{Open, Opening};
use putting::Returned;
use std::alloc::Global;
use std::cell::Cell;
use std::process::ExitCode;

/// The values of a case.
#[derive(Drop)]
struct Values<'a> {
    alloc: Global,
    draft: Draft,
    fuse: u64,
    open: Option<Open<'a>>,
    waiting: Waiting,
    returned: Returned,
    keyed: Option<Keyed<'a>>,
    notes: &'a Cell<Notes>,
    dropped: &'a Cell<Noted>,
}

/// The topic of a line.
#[derive(Clone, Copy)]
enum Topic {
    /// The description of the image.
    Image,
    /// The free list.
    List,
    /// The allocator.
    Allocator,
    /// The caches.
    Caches,
    /// Values that are put into the caches.
    Putting,
    /// The file.
    File,
    /// Opening the image, and its storage requests.
    Opening,
    /// A cache of numbers.
    Keyed,
}

// Returns the topic of a line about an open image, by its first word.
fn open_topic(word: &str) -> Option<Topic> {
    match word {
        "take"
        | "take_at"
        | "free"
        | "grow"
        | "grow_by"
        | "mark"
        | "drop_counts"
        | "reftable_in_memory" => { Some(Topic::Allocator) }
        "counts"
        | "words"
        | "mapping"
        | "entries"
        | "name"
        | "unname"
        | "find_table"
        | "find_block"
        | "touch_table"
        | "touch_block"
        | "blocks_first"
        | "tables_first"
        | "flush"
        | "flush_blocks"
        | "drop_tables"
        | "drop_blocks" => Some(Topic::Caches),
        "put_table" | "put_block" | "put_again" | "back_table" | "back_block" => {
            Some(Topic::Putting)
        }
        "written" | "stops" | "leaks" | "leaked" | "word_in_file" | "bytes_in_file" | "counted" =>
            Some(Topic::File),
        _ => None,
    }
}

// Returns the topic of a line, by its first word.
fn topic_of(word: &str) -> Option<Topic> {
    match word {
        "image"
        | "made"
        | "word"
        | "put"
        | "reftable"
        | "block"
        | "count"
        | "l1"
        | "table"
        | "mapped" => Some(Topic::Image),
        "list"
        | "taken"
        | "held"
        | "length"
        | "first_metadata"
        | "wait"
        | "guard"
        | "give_back"
        | "hold"
        | "reserve"
        | "shorten"
        | "take_list"
        | "keep"
        | "return"
        | "remove" => { Some(Topic::List) }
        "fuse" | "open" | "asked" => Some(Topic::Opening),
        "cache" => Some(Topic::Keyed),
        _ => open_topic(word),
    }
}

impl<'a> Values<'a> {
    // Opens the image that was described.
    fn open(&mut self, tables: usize, blocks: usize, mark: Option<u64>) -> Result<(), Trouble> {
        let opening = Opening {
            tables,
            blocks,
            mark,
            fuse: self.fuse,
        };
        let bytes = self.draft.copy()?;
        let copy = self.draft.copy()?;
        self.open = None;
        let opened = Open::new(self.alloc, bytes, copy, opening, self.notes)?;
        self.open = Some(opened);
        self.notes.set(Notes::none());
        Ok(())
    }

    // Makes storage request `before + number` fail, or none if `number` is 0.
    fn set_fuse(&mut self, before: u64, number: u64) {
        self.fuse = if number == 0 {
            0
        } else {
            before.saturating_add(number)
        };
    }

    // Like `set_fuse`, but no request fails if `number` is greater than `most`.
    fn set_fuse_within(&mut self, before: u64, number: u64, most: u64) {
        self.set_fuse(before, if number > most { 0 } else { number });
    }

    fn begin_open(&mut self, words: &[&str]) -> Result<String, Trouble> {
        match words {
            ["asked"] => return Ok(told(self.alloc, self.notes)?),
            ["fuse", count] => self.set_fuse(0, number(count)?),
            ["fuse", before, count, most] => {
                self.set_fuse_within(number(before)?, number(count)?, number(most)?)
            }
            ["open", tables, blocks] => self.open(size(tables)?, size(blocks)?, None)?,
            ["open", tables, blocks, mark] => {
                self.open(size(tables)?, size(blocks)?, Some(number(mark)?))?
            }
            _ => return Err(Trouble::NoCall),
        }
        Ok(ok(self.alloc)?)
    }

    // Answers a line about the cache of numbers.
    fn call_keyed(&mut self, words: &[&str]) -> Result<String, Trouble> {
        let [_, rest @ ..] = words else {
            return Err(Trouble::NoCall);
        };
        if let ["of", rest @ ..] = rest {
            let keyed = Keyed::new(self.alloc, rest, self.dropped)?;
            self.keyed = Some(keyed);
            return Ok(ok(self.alloc)?);
        }
        match &mut self.keyed {
            Some(keyed) => keyed.answer(rest),
            None => Err(Trouble::NoCall),
        }
    }

    fn describe(&mut self, words: &[&str]) -> Result<String, Trouble> {
        self.draft.describe(words)?;
        Ok(ok(self.alloc)?)
    }

    // Answers a line about an open image.
    fn call(&mut self, topic: Topic, words: &[&str]) -> Result<String, Trouble> {
        let Some(open) = &mut self.open else {
            return Err(Trouble::NoCall);
        };
        match topic {
            Topic::Allocator => open.allocate(&mut self.waiting, words),
            Topic::Caches => open.cache(&mut self.waiting, words),
            Topic::Putting => self.returned.answer(open, words),
            Topic::File => open.look_at_file(words),
            _ => Err(Trouble::NoCall),
        }
    }
}

impl<'a> Values<'a> {
    // Makes the call of a line.
    fn make(&mut self, words: &[&str]) -> Result<String, Trouble> {
        let Some(word) = words.first() else {
            return Err(Trouble::NoCall);
        };
        match topic_of(word) {
            Some(Topic::Image) => self.describe(words),
            Some(Topic::List) => self.waiting.answer(words),
            Some(Topic::Opening) => self.begin_open(words),
            Some(Topic::Keyed) => self.call_keyed(words),
            Some(topic) => self.call(topic, words),
            None => Err(Trouble::NoCall),
        }
    }

    // Returns a text of the list and of the refcount table in memory, and the numbers of changes of the file and of pending runs.
    fn state(&self) -> Result<(String, [usize; 2]), Trouble> {
        let Some(open) = &self.open else {
            return Err(Trouble::NoCall);
        };
        let list = self.waiting.text()?;
        let held = self.waiting.list.held();
        let table = open.reftable_text()?;
        let changes = open.file.image.requests().len();
        let text = format!(in self.alloc; "{list}; {held}; {table}")?;
        Ok((text, [changes, self.waiting.pending()]))
    }

    // Returns `yes` if as many clusters leak in the last crash image as were allocated and kept.
    fn leaks_are_kept(&mut self) -> Result<String, Trouble> {
        let kept = self.waiting.kept();
        let Some(open) = &mut self.open else {
            return Err(Trouble::NoCall);
        };
        let leaked = open.leaks(true)?;
        let is_kept = leaked.as_str() == kept.to_string(self.alloc)?.as_str();
        let word = if is_kept { "yes" } else { "no" };
        Ok(word.to_string(self.alloc)?)
    }

    // Makes a call. If memory runs out before the call has done anything, checks that the state is unchanged, and makes the call again.
    fn make_steady(&mut self, words: &[&str]) -> Result<String, Trouble> {
        let (before, done) = self.state()?;
        match self.make(words) {
            Err(Trouble::Refused(Fault::Memory)) => {
                let (after, done_after) = self.state()?;
                if done_after != done {
                    return Err(Trouble::Refused(Fault::Memory));
                }
                if before.as_str() != after.as_str() {
                    return Ok(format!(in self.alloc; "changed to {after}")?);
                }
                self.make(words)
            }
            answer => answer,
        }
    }
}

impl<'a> Layer for Values<'a> {
    fn begin(&mut self) {
        self.draft = Draft::new(self.alloc);
        self.fuse = 0;
        self.open = None;
        self.waiting = Waiting::new(self.alloc);
        self.returned = Returned::nothing();
        self.keyed = None;
        self.notes.set(Notes::none());
    }

    fn answer(&mut self, _alloc: Global, words: &[&str]) -> Result<String, Trouble> {
        match words {
            ["steady", rest @ ..] => self.make_steady(rest),
            ["any", rest @ ..] => {
                self.make(rest)?;
                Ok(ok(self.alloc)?)
            }
            ["leaks_are_kept"] => self.leaks_are_kept(),
            _ => self.make(words),
        }
    }
}

fn main(rt: HostRuntime) -> ExitCode {
    let notes = Cell::new(Notes::none());
    let dropped = Cell::new(Noted::nothing());
    let alloc = rt.alloc();
    let mut values = Values {
        alloc,
        draft: Draft::new(alloc),
        fuse: 0,
        open: None,
        waiting: Waiting::new(alloc),
        returned: Returned::nothing(),
        keyed: None,
        notes: &notes,
        dropped: &dropped,
    };
    run(&rt, &mut values)
}
