// The two disks of a test script, its prepared mappings (runs that are written and not yet committed), and the calls that its lines make.
use crate::building::{Creation, Told, create, create_builder, creating, gate, open, opening};
use crate::clusters::PreparedCluster;
use crate::drivers::Driver;
use crate::layers::{Disk, add, driver_of, kept_by, lookups, probe, write_storage};
use crate::storages::{Base, Notebook, storage_of};
use crate::texts;
use access_calls::{
    called, cancel, commit, done, flatten, mode_of, nothing_below, prepare, prepared, run_of, top,
};
use cases::{Layer, Notes, Trouble, bytes, number, ok, size, told};
use imago_access::{FormatAccess, PreparedDataMapping, check_range};
use imago_formats::Raw;
use std::alloc::Global;
use std::mem;

type Prepared = PreparedDataMapping<PreparedCluster>;

/// The disk that calls go to, another disk, and a prepared mapping (a run that is written and not yet committed) for each.
pub struct Disks<'a> {
    disk: Option<Disk<'a>>,
    other: Option<Disk<'a>>,
    mapping: Option<Prepared>,
    other_mapping: Option<Prepared>,
    notes: Notebook<'a>,
}

// Drops a mapping.
fn let_go(mapping: Option<Prepared>) {
    if let Some(mapping) = mapping {
        let _state = mapping.into_state();
    }
}

fn written_to_storage<'a>(
    alloc: Global,
    disk: &mut Disk<'a>,
    offset: u64,
    words: &[&str],
) -> Result<(), Trouble> {
    let given = bytes(alloc, words)?;
    write_storage(alloc, top(disk)?, &given, offset)
}

// Makes a call of a disk.
fn call<'a>(alloc: Global, disk: &mut Disk<'a>, words: &[&str]) -> Result<String, Trouble> {
    match words {
        ["lookups"] => lookups(alloc, disk),
        [word] if matches!(*word, "count" | "storage" | "faults") => {
            kept_by(alloc, top(disk)?, word)
        }
        ["write_storage", first, rest @ ..] => {
            done(alloc, written_to_storage(alloc, disk, number(first)?, rest))
        }
        _ => called(alloc, disk, words),
    }
}

// Parses how an image is opened: `writing` or `reading`, `direct` or `cached`, and a name or `-`.
fn told_of<'x>(words: &[&'x str]) -> Result<Told<'x>, Trouble> {
    let [writing, direct, file] = words else {
        return Err(Trouble::NoCall);
    };
    Ok(Told {
        is_writing: *writing == "writing",
        is_direct: *direct == "direct",
        file: if *file == "-" { None } else { Some(*file) },
    })
}

fn is_writable(word: &str) -> Result<bool, Trouble> {
    match word {
        "writable" => Ok(true),
        "read_only" => Ok(false),
        _ => Err(Trouble::NoCall),
    }
}

// Checks that a range may be changed. The words are access, unit, size, offset and length.
fn checked(alloc: Global, words: [&str; 5]) -> Result<String, Trouble> {
    let [access, unit, size, offset, n] = words;
    let (writable, unit) = (is_writable(access)?, number(unit)?);
    let (size, offset, n) = (number(size)?, number(offset)?, number(n)?);
    if unit == 0 {
        return Err(Trouble::NoCall);
    }
    check_range(writable, unit, size, offset, n)?;
    Ok(ok(alloc)?)
}

// Makes a call that takes two words and needs no disk.
fn alone_of_two(alloc: Global, word: &str, first: u64, last: &str) -> Result<String, Trouble> {
    match word {
        "creating" => creating(alloc, first, mode_of(last)?),
        "create_builder" => create_builder(alloc, first, mode_of(last)?),
        "nothing_below" => nothing_below(alloc, first, number(last)?),
        _ => Err(Trouble::NoCall),
    }
}

// Makes a call that needs no disk.
fn alone(alloc: Global, words: &[&str]) -> Result<String, Trouble> {
    match words {
        ["gate", name] => gate(alloc, name),
        ["opening"] => opening(alloc, None),
        ["opening", rest @ ..] => opening(alloc, Some(told_of(rest)?)),
        ["check_range", access, unit, size, offset, n] => {
            checked(alloc, [*access, *unit, *size, *offset, *n])
        }
        [word, first, last] => alone_of_two(alloc, word, number(first)?, last),
        _ => Err(Trouble::NoCall),
    }
}

impl<'a> Disks<'a> {
    /// Creates the disks of a script, without any layer (image).
    pub fn new(notes: Notebook<'a>) -> Self {
        Disks {
            disk: None,
            other: None,
            mapping: None,
            other_mapping: None,
            notes,
        }
    }

    /// Drops both disks and both mappings.
    pub fn close(self) {
        let Disks {
            disk,
            other,
            mapping,
            other_mapping,
            notes: _notes,
        } = self;
        drop(disk);
        drop(other);
        let_go(mapping);
        let_go(other_mapping);
    }

    fn keep(&mut self, mapping: Option<Prepared>) {
        let_go(mem::replace(&mut self.mapping, mapping));
    }

    fn add(&mut self, alloc: Global, words: &[&str]) -> Result<String, Trouble> {
        let driver = driver_of(alloc, words, self.notes)?;
        let disk = add(alloc, driver, self.disk.take())?;
        self.disk = Some(disk);
        Ok(ok(alloc)?)
    }

    // Replaces the disk with a raw image.
    fn put(&mut self, raw: Raw<Base<'a>>) {
        self.disk = Some(FormatAccess::new(Driver::Raw(raw)));
    }

    // Opens a raw image with its builder. The answer is the builder's options.
    fn open(
        &mut self,
        alloc: Global,
        told: Option<Told<'_>>,
        words: &[&str],
    ) -> Result<String, Trouble> {
        let storage = storage_of(alloc, words, self.notes)?;
        let mut text = String::new(alloc);
        let raw = open(alloc, storage, told, &mut text)?;
        self.put(raw);
        Ok(text)
    }

    // Creates a raw image with a size and a mode.
    fn create(
        &mut self,
        alloc: Global,
        creation: Creation,
        size: &str,
        mode: &str,
        words: &[&str],
    ) -> Result<String, Trouble> {
        let (size, mode) = (number(size)?, mode_of(mode)?);
        let storage = storage_of(alloc, words, self.notes)?;
        let raw = create(alloc, creation, storage, size, mode)?;
        self.put(raw);
        Ok(ok(alloc)?)
    }

    fn prepared(
        &mut self,
        alloc: Global,
        offset: u64,
        n: u64,
        overwrite: bool,
    ) -> Result<String, Trouble> {
        let Some(disk) = &mut self.disk else {
            return Err(Trouble::NoCall);
        };
        if self.mapping.is_some() {
            return Err(Trouble::NoCall);
        }
        let mapping = prepare(alloc, disk, offset, n, overwrite)?;
        self.keep(Some(mapping));
        self.told_mapping(alloc)
    }

    fn told_mapping(&self, alloc: Global) -> Result<String, Trouble> {
        match &self.mapping {
            None => Ok("none".to_string(alloc)?),
            Some(mapping) => Ok(prepared(alloc, mapping)?),
        }
    }

    // Commits the mapping. A mapping that the call gives back is kept.
    fn commit(&mut self, alloc: Global) -> Result<String, Trouble> {
        let Some(disk) = &mut self.disk else {
            return Err(Trouble::NoCall);
        };
        let Some(mapping) = self.mapping.take() else {
            return Err(Trouble::NoCall);
        };
        match commit(alloc, disk, mapping) {
            Ok(()) => Ok(ok(alloc)?),
            Err((fault, back)) => {
                self.keep(back);
                Err(Trouble::Refused(fault))
            }
        }
    }

    // Cancels the mapping. A mapping that the call gives back is kept.
    fn cancel(&mut self, alloc: Global) -> Result<String, Trouble> {
        let Some(disk) = &mut self.disk else {
            return Err(Trouble::NoCall);
        };
        let Some(mapping) = self.mapping.take() else {
            return Err(Trouble::NoCall);
        };
        match cancel(disk, mapping) {
            Ok(()) => Ok(ok(alloc)?),
            Err((fault, back)) => {
                self.keep(Some(back));
                Err(Trouble::Refused(fault))
            }
        }
    }

    // Copies the disk into the other disk.
    fn flatten(&mut self, alloc: Global) -> Result<(), Trouble> {
        let Some(source) = &mut self.disk else {
            return Err(Trouble::NoCall);
        };
        let Some(target) = &mut self.other else {
            return Err(Trouble::NoCall);
        };
        flatten(alloc, source, target)
    }

    // Makes a mapping from its words: storage, offset and length, then the image and the number of its state, if any.
    fn make_mapping(&mut self, alloc: Global, words: &[&str]) -> Result<String, Trouble> {
        let mapping = match words {
            [storage, offset, n] => {
                let (storage, offset, n) = (size(storage)?, number(offset)?, number(n)?);
                PreparedDataMapping::existing(storage, offset, n)
            }
            [storage, offset, n, image, mapping_id] => {
                let (storage, offset, n) = (size(storage)?, number(offset)?, number(n)?);
                let (image, mapping_id) = (number(image)?, number(mapping_id)?);
                let state = PreparedCluster { image, mapping_id };
                PreparedDataMapping::to_commit(storage, offset, n, state)
            }
            _ => return Err(Trouble::NoCall),
        };
        self.keep(Some(mapping));
        self.told_mapping(alloc)
    }

    // Makes a call of the disk, or a call that needs none.
    fn call(&mut self, alloc: Global, words: &[&str]) -> Result<String, Trouble> {
        match &mut self.disk {
            None => alone(alloc, words),
            Some(disk) => call(alloc, disk, words),
        }
    }

    // Makes a call about the mappings of a case, or about what its storages record.
    fn mapped(&mut self, alloc: Global, words: &[&str]) -> Result<String, Trouble> {
        match words {
            ["prepare", offset, rest @ ..] => {
                let (n, overwrite) = run_of(rest)?;
                self.prepared(alloc, number(offset)?, n, overwrite)
            }
            ["commit"] => self.commit(alloc),
            ["cancel"] => self.cancel(alloc),
            ["mapping"] => self.told_mapping(alloc),
            ["mapping", rest @ ..] => self.make_mapping(alloc, rest),
            ["flatten"] => done(alloc, self.flatten(alloc)),
            ["asked"] => Ok(told(alloc, self.notes.asked)?),
            ["resized"] => Ok(texts::mode(self.notes.mode.replace(None)).to_string(alloc)?),
            _ => self.call(alloc, words),
        }
    }
}

impl<'a> Layer for Disks<'a> {
    fn begin(&mut self) {
        self.disk = None;
        self.other = None;
        self.keep(None);
        let_go(self.other_mapping.take());
        self.notes.asked.set(Notes::none());
        self.notes.mode.set(None);
    }

    fn answer(&mut self, alloc: Global, words: &[&str]) -> Result<String, Trouble> {
        match words {
            ["layer", rest @ ..] => self.add(alloc, rest),
            ["open", rest @ ..] => self.open(alloc, None, rest),
            ["open_told", writing, direct, file, rest @ ..] => {
                let told = told_of(&[*writing, *direct, *file])?;
                self.open(alloc, Some(told), rest)
            }
            ["create", size, mode, rest @ ..] => {
                self.create(alloc, Creation::Alone, size, mode, rest)
            }
            ["create_open", size, mode, rest @ ..] => {
                self.create(alloc, Creation::Opened, size, mode, rest)
            }
            ["create_unopened", size, mode, rest @ ..] => {
                self.create(alloc, Creation::Unopened, size, mode, rest)
            }
            ["probe", rest @ ..] => {
                let mut storage = storage_of(alloc, rest, self.notes)?;
                probe(alloc, &mut storage)
            }
            ["close"] => {
                self.disk = None;
                Ok(ok(alloc)?)
            }
            ["other"] => {
                mem::swap(&mut self.disk, &mut self.other);
                Ok(ok(alloc)?)
            }
            ["other_mapping"] => {
                mem::swap(&mut self.mapping, &mut self.other_mapping);
                Ok(ok(alloc)?)
            }
            _ => self.mapped(alloc, words),
        }
    }
}
