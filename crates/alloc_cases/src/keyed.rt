// A cache of numbers by number, over a backend that notes its calls. A script can make some of these calls fail.
ghost use Rattle.std.specs.Prelude.{⊤};

use cases::{Trouble, joined, number, ok, size};
use imago_storage::Fault;
use qcow2_alloc::{AsyncLruCache, AsyncLruCacheBackend, NotLent};
use std::alloc::{AllocError, Global};
use std::cell::Cell;

/// The maximum number of values that are noted.
const ROOM: usize = 64;

/// The maximum number of pins of a value.
const PINS: u64 = 8;

/// Values that were flushed, or dropped without a flush, by key. Notes take no memory, so that only the cache itself can run out of memory.
#[derive(Clone, Copy)]
pub struct Noted {
    pairs: [(u64, u64); ROOM],
    count: usize,
}

impl Noted {
    pub fn nothing() -> Self {
        Noted {
            pairs: [(0, 0); ROOM],
            count: 0,
        }
    }

    fn note(&mut self, key: u64, value: u64) {
        let count = self.count;
        if let Some(place) = self.pairs.get_mut(count) {
            *place = (key, value);
        }
        self.count = count.saturating_add(1);
    }
}

/// The values that were flushed, and the number of loads.
#[derive(Drop)]
pub struct Device {
    flushed: Noted,
    loads: u64,
}

/// A backend that loads the key as the value. It can be set to fail to load one key, or to flush odd keys.
#[derive(Drop)]
struct Backend<'a> {
    fails_odd_flushes: bool,
    fails_load_of: Option<u64>,
    dropped: &'a Cell<Noted>,
}

impl<'a> AsyncLruCacheBackend for Backend<'a> {
    type Key = u64;

    type Value = u64;

    type Device = Device;

    ghost loads = { λ _ _ _ _. ⊤ };

    ghost flushes = { λ _ _ _ _ _ _. ⊤ };

    fn load(&self, device: &mut Device, key: u64) -> Result<u64, Fault> {
        device.loads = device.loads.saturating_add(1);
        if self.fails_load_of == Some(key) {
            return Err(Fault::DamagedTable);
        }
        Ok(key)
    }

    fn flush(&self, device: &mut Device, key: u64, value: &mut u64) -> Result<(), Fault> {
        device.flushed.note(key, *value);
        if self.fails_odd_flushes && key % 2 == 1 {
            return Err(Fault::Storage);
        }
        Ok(())
    }

    fn evict(&self, key: u64, value: u64) {
        let mut dropped = self.dropped.get();
        dropped.note(key, value);
        self.dropped.set(dropped);
    }
}

/// The cache of a case, and its device.
#[derive(Drop)]
pub struct Keyed<'a> {
    alloc: Global,
    cache: AsyncLruCache<u64, u64, Backend<'a>>,
    device: Device,
    dropped: &'a Cell<Noted>,
}

// Returns the text of keys with their values.
fn noted_text(alloc: Global, noted: Noted) -> Result<String, AllocError> {
    let mut text = String::new(alloc);
    for (key, value) in noted.pairs.iter().take(noted.count) {
        let pair = format!(in alloc; "{key}:{value}")?;
        joined(&mut text, pair.as_str())?;
    }
    if noted.count == 0 {
        joined(&mut text, "nothing")?;
    }
    Ok(text)
}

// Returns true for `flushing`, and false for `unflushed`.
fn may_flush(word: &str) -> Result<bool, Trouble> {
    match word {
        "flushing" => Ok(true),
        "unflushed" => Ok(false),
        _ => Err(Trouble::NoCall),
    }
}

impl<'a> Keyed<'a> {
    // Returns a cache of at most `size` values.
    fn of_backend(
        alloc: Global,
        size: usize,
        backend: Backend<'a>,
        dropped: &'a Cell<Noted>,
    ) -> Result<Self, Trouble> {
        if size == 0 {
            return Err(Trouble::NoCall);
        }
        Ok(Keyed {
            alloc,
            cache: AsyncLruCache::new(alloc, backend, size)?,
            device: Device {
                flushed: Noted::nothing(),
                loads: 0,
            },
            dropped,
        })
    }

    /// Returns a cache for the words of a script: its size, and `sound`, `odd_flushes_fail` or `load_fails KEY`.
    pub fn new(alloc: Global, words: &[&str], dropped: &'a Cell<Noted>) -> Result<Self, Trouble> {
        let mut backend = Backend {
            fails_odd_flushes: false,
            fails_load_of: None,
            dropped,
        };
        let size = match words {
            [room, "sound"] => size(room)?,
            [room, "odd_flushes_fail"] => {
                backend.fails_odd_flushes = true;
                size(room)?
            }
            [room, "load_fails", key] => {
                backend.fails_load_of = Some(number(key)?);
                size(room)?
            }
            _ => return Err(Trouble::NoCall),
        };
        dropped.set(Noted::nothing());
        Keyed::of_backend(alloc, size, backend, dropped)
    }

    // Returns the text of the value at a key, found or loaded.
    fn find(&mut self, key: u64, may_flush: bool) -> Result<String, Trouble> {
        let alloc = self.alloc;
        match self.cache.get_or_insert(&mut self.device, key, may_flush) {
            Ok(value) => Ok(value.to_string(alloc)?),
            Err(NotLent::Full) => Ok("full".to_string(alloc)?),
            Err(NotLent::Refused(fault)) => Err(Trouble::Refused(fault)),
        }
    }

    // Writes to the value at a key, found or loaded.
    fn write(&mut self, key: u64, value: u64) -> Result<(), Trouble> {
        match self.cache.get_or_insert(&mut self.device, key, false) {
            Ok(place) => {
                *place = value;
                Ok(())
            }
            Err(NotLent::Full) => Err(Trouble::NoCall),
            Err(NotLent::Refused(fault)) => Err(Trouble::Refused(fault)),
        }
    }

    // Puts a value at a key. Returns the text of the value that the cache returned, if any.
    fn insert(&mut self, key: u64, value: u64, may_flush: bool) -> Result<String, Trouble> {
        match self.cache.insert(&mut self.device, key, value, may_flush) {
            Ok(None) => Ok(ok(self.alloc)?),
            Ok(Some(back)) => Ok(format!(in self.alloc; "back {back}")?),
            Err((Fault::Memory, _)) => Err(Trouble::Refused(Fault::Memory)),
            Err((fault, back)) => Ok(format!(in self.alloc; "{fault} back {back}")?),
        }
    }

    // Finds or loads `count` keys from `first` on. No value is flushed for them.
    fn fill(&mut self, first: u64, count: u64) -> Result<(), Trouble> {
        for step in 0..count {
            self.find(first.wrapping_add(step), false)?;
        }
        Ok(())
    }

    // Returns the text of the value at a key, if it is cached.
    fn at(&self, key: u64) -> Result<String, Trouble> {
        match self.cache.get(key) {
            Some(value) => Ok(value.to_string(self.alloc)?),
            None => Ok("none".to_string(self.alloc)?),
        }
    }

    // Returns the number of pins of the value at a key, if it is cached.
    fn pins(&self, key: u64) -> Result<String, Trouble> {
        match self.cache.pins(key) {
            Some(pins) => Ok(pins.to_string(self.alloc)?),
            None => Ok("none".to_string(self.alloc)?),
        }
    }

    // Adds a pin to the value at a key, which must be cached.
    fn pin(&mut self, key: u64) -> Result<(), Trouble> {
        match self.cache.pins(key) {
            Some(pins) if pins < PINS => {
                self.cache.pin(key);
                Ok(())
            }
            _ => Err(Trouble::NoCall),
        }
    }

    // Removes a pin from the value at a key, which must be pinned.
    fn unpin(&mut self, key: u64) -> Result<(), Trouble> {
        match self.cache.pins(key) {
            Some(pins) if pins > 0 => {
                self.cache.unpin(key);
                Ok(())
            }
            _ => Err(Trouble::NoCall),
        }
    }

    // Returns the values that were flushed since the last call, in order.
    fn flushed(&mut self) -> Result<String, Trouble> {
        let text = noted_text(self.alloc, self.device.flushed)?;
        self.device.flushed = Noted::nothing();
        Ok(text)
    }

    // Returns the values that were dropped without a flush since the last call, in order.
    fn dropped(&mut self) -> Result<String, Trouble> {
        let dropped = self.dropped.replace(Noted::nothing());
        Ok(noted_text(self.alloc, dropped)?)
    }

    // Answers a line that reads the cache or its device.
    fn tell(&mut self, words: &[&str]) -> Result<String, Trouble> {
        match words {
            ["flushed"] => self.flushed(),
            ["dropped"] => self.dropped(),
            ["loads"] => Ok(self.device.loads.to_string(self.alloc)?),
            ["at", key] => self.at(number(key)?),
            ["pins", key] => self.pins(number(key)?),
            _ => Err(Trouble::NoCall),
        }
    }

    // Makes a call without a result.
    fn change(&mut self, words: &[&str]) -> Result<(), Trouble> {
        match words {
            ["fill", first, count] => self.fill(number(first)?, number(count)?),
            ["write", key, value] => self.write(number(key)?, number(value)?),
            ["flush"] => Ok(self.cache.flush(&mut self.device)?),
            ["drop"] => Ok(self.cache.invalidate()?),
            ["forget", key] => Ok(self.cache.forget(number(key)?)?),
            ["pin", key] => self.pin(number(key)?),
            ["unpin", key] => self.unpin(number(key)?),
            _ => Err(Trouble::NoCall),
        }
    }

    /// Answers a line about the cache.
    pub fn answer(&mut self, words: &[&str]) -> Result<String, Trouble> {
        match words {
            ["find", key, flushing] => self.find(number(key)?, may_flush(flushing)?),
            ["insert", key, value, flushing] => {
                self.insert(number(key)?, number(value)?, may_flush(flushing)?)
            }
            ["flushed" | "dropped" | "loads" | "at" | "pins", ..] => self.tell(words),
            _ => {
                self.change(words)?;
                Ok(ok(self.alloc)?)
            }
        }
    }
}
