// The disk of a case, its prepared mapping (a run that is written and not yet committed), and their calls.
use crate::builders::{by_builder, spend};
use crate::copies::{copied, flattened};
use crate::files::NamedStorages;
use crate::layers::{add, image_of, open_extents};
use crate::lending::{given_back, lent};
use crate::openings;
use crate::qcow2_calls::said;
use access_calls::{called, calls_of, cancel, commit, done, prepare, prepared, run_of, told_all};
use cases::{Trouble, number, ok, size};
use imago_access::{FormatAccess, FormatDriverInstance, ImplicitOpenGate, PreparedDataMapping};
use imago_storage::Storage;
use qcow2_image::PreparedMappingState;
use qimg_chain::chain::ImageDriver;
use std::alloc::Global;
use std::mem;

type Prepared = PreparedDataMapping<PreparedMappingState>;

/// The disk of a case, over storages of type `S`.
pub type Disk<S> = FormatAccess<ImageDriver<S>>;

/// The open disk and the prepared mapping, if any.
pub struct Opened<S: Storage> {
    disk: Option<Disk<S>>,
    mapping: Option<Prepared>,
}

// Replaces an optional value, and drops the old one.
fn put<T: Drop>(place: &mut Option<T>, value: Option<T>) {
    *place = value;
}

// Drops a mapping, and discards its state.
fn let_go(mapping: Option<Prepared>) {
    if let Some(mapping) = mapping {
        if let Some(state) = mapping.into_state() {
            state.give_up();
        }
    }
}

// Returns true if an image with the number of the top layer prepared the mapping. Also returns the mapping.
fn belongs<S: Storage>(mapping: Prepared, disk: &Disk<S>) -> (bool, Prepared) {
    let (storage, offset, length) = (mapping.storage(), mapping.offset(), mapping.length());
    let Some(state) = mapping.into_state() else {
        return (
            false,
            PreparedDataMapping::existing(storage, offset, length),
        );
    };
    let is_its = match disk.inner() {
        ImageDriver::Qcow2(image) => state.belongs_to(image),
        ImageDriver::Raw(_) | ImageDriver::Vmdk(_) => false,
    };
    (
        is_its,
        PreparedDataMapping::to_commit(storage, offset, length, state),
    )
}

impl<S: Storage + Drop> Opened<S> {
    /// Creates a value without a disk and without a mapping.
    pub fn new() -> Self {
        Opened {
            disk: None,
            mapping: None,
        }
    }

    /// Drops the disk and the mapping.
    pub fn close(self) {
        let Opened { disk, mapping } = self;
        drop(disk);
        let_go(mapping);
    }

    /// Drops the disk and the mapping. A new disk can then be opened.
    pub fn clear(&mut self) {
        put(&mut self.disk, None);
        self.keep(None);
    }

    /// Returns the open disk, if any.
    pub fn disk(&self) -> Option<&Disk<S>> {
        self.disk.as_ref()
    }

    fn keep(&mut self, mapping: Option<Prepared>) {
        let_go(mem::replace(&mut self.mapping, mapping));
    }

    fn add<F: NamedStorages<S> + ImplicitOpenGate<S>>(
        &mut self,
        alloc: Global,
        words: &[&str],
        files: &mut F,
    ) -> Result<String, Trouble> {
        let image = image_of(alloc, words, files)?;
        let disk = add(alloc, image, self.disk.take())?;
        put(&mut self.disk, Some(disk));
        Ok(ok(alloc)?)
    }

    // Opens files as a chain, which replaces the open disk. If the opening fails, the case has no disk.
    fn open_chain<F: NamedStorages<S>>(
        &mut self,
        alloc: Global,
        words: &[&str],
        files: &mut F,
    ) -> Result<String, Trouble> {
        put(&mut self.disk, None);
        let disk = openings::open(alloc, words, files)?;
        put(&mut self.disk, Some(disk));
        Ok(ok(alloc)?)
    }

    // Checks the top file, opens files as a chain, which replaces the open disk, and makes a list of calls on it. Returns the answers, or
    // the finding of the checker. The first `;` ends the layers.
    fn open_and_drive<F: NamedStorages<S>>(
        &mut self,
        alloc: Global,
        words: &[&str],
        files: &mut F,
    ) -> Result<String, Trouble> {
        put(&mut self.disk, None);
        let (layers, list) = match words.iter().position(|word| *word == ";") {
            Some(end) => (&words[..end], &words[end + 1..]),
            None => (words, &words[..0]),
        };
        let calls = calls_of(alloc, list)?;
        match openings::open_and_drive(alloc, layers, &calls, files)? {
            Ok((disk, answers)) => {
                put(&mut self.disk, Some(disk));
                told_all(alloc, &answers?)
            }
            Err(finding) => Ok(finding.to_string(alloc)?),
        }
    }

    // Returns the open disk, or `Trouble::NoCall` if the case has none.
    fn open(&mut self) -> Result<&mut Disk<S>, Trouble> {
        self.disk.as_mut().ok_or(Trouble::NoCall)
    }

    fn prepare(&mut self, alloc: Global, offset: &str, words: &[&str]) -> Result<String, Trouble> {
        let (n, overwrite) = run_of(words)?;
        let offset = number(offset)?;
        if self.mapping.is_some() {
            return Err(Trouble::NoCall);
        }
        let mapping = prepare(alloc, self.open()?, offset, n, overwrite)?;
        self.keep(Some(mapping));
        self.told_mapping(alloc)
    }

    fn told_mapping(&self, alloc: Global) -> Result<String, Trouble> {
        match &self.mapping {
            None => Ok("none".to_string(alloc)?),
            Some(mapping) => Ok(prepared(alloc, mapping)?),
        }
    }

    // Commits the mapping. If the call returns the mapping, it is kept.
    fn commit(&mut self, alloc: Global) -> Result<String, Trouble> {
        let Some(disk) = &mut self.disk else {
            return Err(Trouble::NoCall);
        };
        let Some(mapping) = self.mapping.take() else {
            return Err(Trouble::NoCall);
        };
        match commit(alloc, disk, mapping) {
            Ok(()) => Ok(ok(alloc)?),
            Err((fault, back)) => {
                self.keep(back);
                Err(Trouble::Refused(fault))
            }
        }
    }

    // Cancels the mapping. If the call returns the mapping, it is kept.
    fn cancel(&mut self, alloc: Global) -> Result<String, Trouble> {
        let Some(disk) = &mut self.disk else {
            return Err(Trouble::NoCall);
        };
        let Some(mapping) = self.mapping.take() else {
            return Err(Trouble::NoCall);
        };
        match cancel(disk, mapping) {
            Ok(()) => Ok(ok(alloc)?),
            Err((fault, back)) => {
                self.keep(Some(back));
                Err(Trouble::Refused(fault))
            }
        }
    }

    // Answers whether an image with the number of the top layer prepared the mapping.
    fn belongs(&mut self, alloc: Global) -> Result<String, Trouble> {
        let Some(disk) = &self.disk else {
            return Err(Trouble::NoCall);
        };
        let Some(mapping) = self.mapping.take() else {
            return Err(Trouble::NoCall);
        };
        let (is_its, mapping) = belongs(mapping, disk);
        self.keep(Some(mapping));
        Ok(is_its.to_string(alloc)?)
    }

    // Makes a mapping without state, and keeps it.
    fn make_mapping(&mut self, alloc: Global, words: [&str; 3]) -> Result<String, Trouble> {
        let [storage, offset, n] = words;
        let (storage, offset, n) = (size(storage)?, number(offset)?, number(n)?);
        self.keep(Some(PreparedDataMapping::existing(storage, offset, n)));
        self.told_mapping(alloc)
    }

    // Drops the disk, and reads bytes of the image file that the top layer's driver returns.
    fn into_image(&mut self, alloc: Global, offset: u64, n: u64) -> Result<String, Trouble> {
        match self.disk.take() {
            Some(disk) => given_back(alloc, disk, offset, n),
            None => Err(Trouble::NoCall),
        }
    }

    // Makes a call of the mapping or of the disk.
    fn called(&mut self, alloc: Global, words: &[&str]) -> Result<String, Trouble> {
        match words {
            ["prepare", offset, rest @ ..] => self.prepare(alloc, offset, rest),
            ["commit"] => self.commit(alloc),
            ["cancel"] => self.cancel(alloc),
            ["belongs"] => self.belongs(alloc),
            ["mapping"] => self.told_mapping(alloc),
            ["mapping", storage, offset, n] => self.make_mapping(alloc, [*storage, *offset, *n]),
            ["snapshot", rest @ ..] => copied(alloc, self.open()?, rest),
            ["flatten", rest @ ..] => flattened(alloc, self.open()?, rest),
            ["into_image", offset, n] => self.into_image(alloc, number(offset)?, number(n)?),
            [
                "image" | "write_image" | "extra" | "write_extra" | "extra_name",
                ..
            ] => { lent(alloc, self.open()?, words) }
            ["names" | "failed" | "backing" | "set_backing" | "debug", ..] => {
                said(alloc, self.open()?, words)
            }
            _ => called(alloc, self.open()?, words),
        }
    }

    /// Opens or closes a disk, or makes a call of the disk or the mapping.
    ///
    /// # Errors
    ///
    /// - `Trouble::NoCall` if the words aren't a call, or the call needs a disk, a mapping or a file that doesn't exist.
    /// - `Trouble::Refused` if the call fails.
    pub fn answer<F: NamedStorages<S> + ImplicitOpenGate<S>>(
        &mut self,
        alloc: Global,
        words: &[&str],
        files: &mut F,
    ) -> Result<String, Trouble> {
        match words {
            ["layer", rest @ ..] => self.add(alloc, rest, files),
            ["chain", rest @ ..] => self.open_chain(alloc, rest, files),
            ["checked_chain", rest @ ..] => self.open_and_drive(alloc, rest, files),
            ["close"] => {
                put(&mut self.disk, None);
                Ok(ok(alloc)?)
            }
            ["open_extents"] => done(alloc, open_extents(alloc, self.open()?, files)),
            ["builder", rest @ ..] => by_builder(alloc, files, rest),
            ["spend", rest @ ..] => spend(alloc, files, rest),
            ["if_open", ..] if self.disk.is_none() => Ok("closed".to_string(alloc)?),
            ["if_open", rest @ ..] => self.called(alloc, rest),
            _ => self.called(alloc, words),
        }
    }
}
