//! A least-recently-used cache over a backend that loads and flushes its values. A value that is pinned is neither evicted nor dropped.
//! Definitions: specs/Cache.antt.
ghost use Rattle.std.specs.Prelude.{IsTrue, IsErr, ◌↔◌, List, ◌≡◌, ◌<◌, ◌+◌, ◌-◌, ◌^◌, ℕ, [], IfOk, OnOk, IfErr, length, ◌∷◌, true, Ok, Err, None, IfSome, IsSome, Result, Some, Option};
ghost use Rattle.std.specs.Option.{option_map, option_copied};
ghost use Rattle.std.specs.NonZero.{non_zero_usize_get};
ghost use Rattle.std.specs.List.{IsDistinct};
ghost use Rattle.std.specs.Map.{keys_of, lookup, set_value, remove_entry};
ghost use Rattle.imago_storage.specs.declared.fault.Fault.{Fault};
ghost use Rattle.imago_storage.specs.declared.fault.Fault.TheVariants.{Memory};
ghost use Rattle.qcow2_alloc.specs.Cache as spec;
ghost use Rattle.qcow2_alloc.specs.Cache.{victim};

use imago_storage::Fault;
use lru::LruCache;
use std::alloc::Global;
use std::hash::Hash;
use std::num::NonZeroUsize;

/// Loads and flushes the values of a cache.
pub trait AsyncLruCacheBackend {
    /// The key that identifies a value.
    type Key: Copy + Eq + Hash;

    /// The values that are cached.
    type Value: Drop;

    /// The device that values are loaded from and flushed to.
    type Device;

    /// Relates the device before a load, the key, the result, and the device after it.
    ghost loads: { Self.Device → Self.Key → Result Self.Value Fault → Self.Device → Type 0 };

    /// Relates the device and the value before a flush, the result, and the device and the value after it.
    ghost flushes: { Self.Device → Self.Key → Self.Value → Result Unit Fault → Self.Device → Self.Value → Type 0 };

    /// Returns the value at `key`, as the device has it.
    fn load(&self, device: &mut Self::Device, key: Self::Key) -> Result<Self::Value, Fault>
        ensures { loads device.old key result device.new };

    /// Writes a value to the device if it is dirty. If the call fails, the value can be flushed again.
    fn flush(
        &self,
        device: &mut Self::Device,
        key: Self::Key,
        value: &mut Self::Value,
    ) -> Result<(), Fault>
        ensures { flushes device.old key value.old result device.new value.new };

    /// Takes a value that is dropped without a flush.
    fn evict(&self, _key: Self::Key, _value: Self::Value) {}
}

/// The reason why a cache returns no reference to a value.
#[derive(Clone, Copy, Debug, Drop, PartialEq, Eq)]
pub enum NotLent {
    /// The cache is full, and a flush isn't allowed.
    Full,
    /// A flush or a load failed, all entries are pinned, or memory ran out.
    Refused(Fault),
}

// The outcome of a request for an entry: granted, or denied because the cache is full and a flush isn't allowed.
#[derive(Clone, Copy, Drop)]
pub(crate) enum Admission {
    Granted,
    Denied,
}

/// A value and the number of its pins.
#[derive(Drop)]
pub struct Slot<V> {
    /// The value.
    pub value: V,
    /// The number of pins. While it is above 0, the value is neither evicted nor dropped.
    pub pins: usize,
}

/// A cache of values by key, with a fixed maximum number of entries.
///
/// In contracts the cache is the list of its entries, the most recently used first.
#[derive(Drop)]
pub struct AsyncLruCache<K: Copy + Eq + Hash, V, B: AsyncLruCacheBackend<Key = K, Value = V>> {
    pub(crate) backend: B,
    pub(crate) slots: LruCache<K, Slot<V>>,
}

impl<K: Copy + Eq + Hash, V: Drop, B: AsyncLruCacheBackend<Key = K, Value = V>> AsyncLruCache<
    K,
    V,
    B,
> {
    ghost use Rattle.qcow2_alloc.specs.declared.async_lru_cache.Slot.{Slot};
    ghost use Rattle.qcow2_alloc.specs.declared.async_lru_cache.Admission.TheVariants.{Granted};
    ghost use Rattle.qcow2_alloc.specs.Cache.{cache_kind, with_entries, hit, fault_of, FlushedLast, FlushedEach, DroppedLast, FlushedAt, Evicted, MadeRoom, Loaded, Readied, Overwritten, Added, Inserted, kept_pinned};
    ghost use Rattle.std.specs.Borrow.{sem};
    ghost use Rattle.std.specs.Prelude.{IsSomeAnd, Bool};
    ghost use Rattle.lru.specs.LruCache.{lru_cache};
    ghost use Rattle.std.specs.Option.{option_copied_mut};
    ghost use Rattle.qcow2_alloc.specs.Lending.{cache_types, lends_value, lends_found};

    // Returns the value at `key` for writing. Its entry becomes the most recently used.
    pub(crate) fn get_mut(&mut self, key: K) -> Option<&mut V>
        ensures* writes_back { sem 𝓛 (lends_value (cache_types K.row V.row B.row B.Device.row K.Hash) self.entry key result) }
        ensures value { option_copied_mut result ≡ option_map (λ s. s.value) (lookup (K.eq key) self.old.slots.entries) }
    {
        match self.slots.get_mut(&key) {
            Some(slot) => Some(&mut slot.value),
            None => None,
        }
    }

    /// Returns the value at `key`, if it is cached. The order of use doesn't change.
    pub fn get(&self, key: K) -> Option<&V>
        ensures { option_copied result ≡ option_map (λ s. s.value) (lookup (K.eq key) self.now.slots.entries) }
    {
        match self.slots.peek(&key) {
            Some(slot) => Some(&slot.value),
            None => None,
        }
    }

    /// Returns the number of pins of the value at `key`, if it is cached. The order of use doesn't change.
    pub fn pins(&self, key: K) -> Option<u64>
        ensures { result ≡ option_map (λ s. s.pins) (lookup (K.eq key) self.now.slots.entries) }
    {
        match self.slots.peek(&key) {
            Some(slot) => Some(slot.pins as u64),
            None => None,
        }
    }

    // Returns the least recently used key that isn't pinned.
    fn victim(&self) -> Option<K>
        ensures { result ≡ victim self.now.slots.entries }
    {
        let mut entries = self.slots.iter();
        while let Some((key, slot)) = entries.next_back() {
            if slot.pins == 0 {
                return Some(*key);
            }
        }
        None
    }

    // Flushes the value at `key`. Its entry stays cached.
    fn flush_at(&mut self, device: &mut B::Device, key: K) -> Result<(), Fault>
        requires { IsSome (lookup (K.eq key) self.old.slots.entries) }
        ensures flushed { FlushedAt K.eq B.flushes key device.old self.old.slots.entries result device.new self.new.slots.entries }
        ensures others { self.new ≡ with_entries self.old self.new.slots.entries }
    {
        match self.slots.peek_mut(&key) {
            Some(slot) => self.backend.flush(device, key, &mut slot.value),
            None => Ok(()),
        }
    }

    // Makes space for one more entry: if the cache is full, it evicts the least recently used entry that isn't pinned.
    fn make_room(&mut self, device: &mut B::Device, may_flush: bool) -> Result<Admission, Fault>
        ensures fits { result ≡ Ok Granted → length self.new.slots.entries < self.new.slots.cap }
        ensures absent { result ≡ Ok Granted → (k : K) → lookup (K.eq k) self.old.slots.entries ≡ None
            → lookup (K.eq k) self.new.slots.entries ≡ None }
        ensures room { MadeRoom (cache_kind K.eq B.loads B.flushes self.old.slots.cap) may_flush device.old self.old.slots.entries
            result device.new self.new.slots.entries }
        ensures others { self.new ≡ with_entries self.old self.new.slots.entries }
    {
        if self.slots.len() < self.slots.cap().get() {
            return Ok(Admission::Granted);
        }
        if !may_flush {
            return Ok(Admission::Denied);
        }
        match self.victim() {
            None => Err(Fault::CacheFull),
            Some(key) => self.evict_at(device, key),
        }
    }

    // Flushes the value at `key` and removes its entry.
    fn evict_at(&mut self, device: &mut B::Device, key: K) -> Result<Admission, Fault>
        requires { IsSome (lookup (K.eq key) self.old.slots.entries) }
        ensures shorter { OnOk result (length self.new.slots.entries < length self.old.slots.entries) }
        ensures absent { OnOk result ((k : K) → lookup (K.eq k) self.old.slots.entries ≡ None
            → lookup (K.eq k) self.new.slots.entries ≡ None) }
        ensures evicted { Evicted K.eq B.flushes key device.old self.old.slots.entries result device.new self.new.slots.entries }
        ensures others { self.new ≡ with_entries self.old self.new.slots.entries }
    {
        self.flush_at(device, key)?;
        self.slots.pop(&key);
        Ok(Admission::Granted)
    }

    // Adds a new key with its value as the most recently used entry. The cache isn't full.
    fn put_new(&mut self, key: K, value: V) -> Result<(), (Fault, V)>
        requires room { length self.old.slots.entries < self.old.slots.cap }
        requires fresh { lookup (K.eq key) self.old.slots.entries ≡ None }
        ensures ok { OnOk result (self.new ≡ with_entries self.old ((key, record { value = value; pins = 0 }) ∷ self.old.slots.entries)) }
        ensures err { IfErr result (λ e. (e ≡ (Memory, value)) × (self.new ≡ self.old)) }
    {
        match self.slots.push(key, Slot { value, pins: 0 }) {
            Ok(_) => Ok(()),
            Err(failed) => Err((Fault::Memory, failed.value.1.value)),
        }
    }

    // Loads the value at a key that isn't cached, and adds it. The cache isn't full.
    fn load_at(&mut self, device: &mut B::Device, key: K) -> Result<Admission, Fault>
        requires room { length self.old.slots.entries < self.old.slots.cap }
        requires fresh { lookup (K.eq key) self.old.slots.entries ≡ None }
        ensures loaded { Loaded B.loads key device.old self.old.slots.entries result device.new self.new.slots.entries }
        ensures others { self.new ≡ with_entries self.old self.new.slots.entries }
    {
        let value = self.backend.load(device, key)?;
        match self.put_new(key, value) {
            Ok(()) => Ok(Admission::Granted),
            Err((fault, _)) => Err(fault),
        }
    }

    // Finds the entry at `key`, or loads it.
    pub(crate) fn ready(
        &mut self,
        device: &mut B::Device,
        key: K,
        may_flush: bool,
    ) -> Result<Admission, Fault>
        ensures readied { Readied (cache_kind K.eq B.loads B.flushes self.old.slots.cap) may_flush key device.old
            self.old.slots.entries result device.new self.new.slots.entries }
        ensures others { self.new ≡ with_entries self.old self.new.slots.entries }
    {
        if self.slots.contains(&key) {
            return Ok(Admission::Granted);
        }
        match self.make_room(device, may_flush)? {
            Admission::Granted => self.load_at(device, key),
            Admission::Denied => Ok(Admission::Denied),
        }
    }

    // Replaces the value at a cached key. Its entry becomes the most recently used.
    fn put_over(&mut self, key: K, value: V)
        requires { IsSome (lookup (K.eq key) self.old.slots.entries) }
        ensures { self.new ≡ with_entries self.old (hit (K.eq key) self.old.slots.entries value) }
    {
        if let Some(place) = self.get_mut(key) {
            *place = value;
        }
    }

    // Flushes the value at a cached key, and then replaces it.
    fn overwrite(
        &mut self,
        device: &mut B::Device,
        key: K,
        value: V,
    ) -> Result<Option<V>, (Fault, V)>
        requires { IsSome (lookup (K.eq key) self.old.slots.entries) }
        ensures written { Overwritten K.eq B.flushes (key, value) device.old self.old.slots.entries result device.new
            self.new.slots.entries }
        ensures others { self.new ≡ with_entries self.old self.new.slots.entries }
    {
        match self.flush_at(device, key) {
            Ok(()) => {
                self.put_over(key, value);
                Ok(None)
            }
            Err(fault) => Err((fault, value)),
        }
    }

    // Adds a new key with its value, and evicts an entry for it if the cache is full.
    fn add(
        &mut self,
        device: &mut B::Device,
        key: K,
        value: V,
        may_flush: bool,
    ) -> Result<Option<V>, (Fault, V)>
        requires { lookup (K.eq key) self.old.slots.entries ≡ None }
        ensures added { Added (cache_kind K.eq B.loads B.flushes self.old.slots.cap) may_flush (key, value) device.old
            self.old.slots.entries result device.new self.new.slots.entries }
        ensures others { self.new ≡ with_entries self.old self.new.slots.entries }
    {
        match self.make_room(device, may_flush) {
            Ok(Admission::Granted) => {
                self.put_new(key, value)?;
                Ok(None)
            }
            Ok(Admission::Denied) => Ok(Some(value)),
            Err(fault) => Err((fault, value)),
        }
    }

    /// Returns the value at `key`, found or loaded. Its entry becomes the most recently used.
    ///
    /// If the cache is full and `may_flush` is set, the least recently used value that isn't pinned is flushed, and its entry is removed.
    ///
    /// # Errors
    ///
    /// - `NotLent::Full` if the cache is full and `may_flush` isn't set. Nothing has changed.
    /// - `Fault::CacheFull` if all entries of the full cache are pinned. Nothing has changed.
    /// - The error of the backend's flush. All entries are still cached.
    /// - The error of the backend's load, or `Fault::Memory`. An entry that was flushed to make space is gone.
    pub fn get_or_insert(
        &mut self,
        device: &mut B::Device,
        key: K,
        may_flush: bool,
    ) -> Result<&mut V, NotLent>
        ensures* writes_back { sem 𝓛 (lends_found (cache_types K.row V.row B.row B.Device.row K.Hash)
            (cache_kind K.eq B.loads B.flushes self.old.slots.cap) self.entry device.old device.new key may_flush result) }
        ensures value { IfOk result (λ v. (mid : List (K × Slot V))
            × Readied (cache_kind K.eq B.loads B.flushes self.old.slots.cap) may_flush key device.old self.old.slots.entries (Ok Granted)
            device.new mid
            × (option_map (λ s. s.value) (lookup (K.eq key) mid) ≡ Some v.now)) }
    {
        match self.ready(device, key, may_flush) {
            Ok(Admission::Granted) => match self.get_mut(key) {
                Some(value) => Ok(value),
                None => unreachable!(),
            },
            Ok(Admission::Denied) => Err(NotLent::Full),
            Err(fault) => Err(NotLent::Refused(fault)),
        }
    }

    /// Puts a value at `key`. Its entry becomes the most recently used. A value that was cached there is flushed first, and its pins stay.
    ///
    /// If a flush is needed and `may_flush` isn't set, the call returns the value and changes nothing.
    ///
    /// # Errors
    ///
    /// The value is returned with the fault.
    ///
    /// - `Fault::CacheFull` if all entries of the full cache are pinned. Nothing has changed.
    /// - The error of the backend's flush. All entries are still cached.
    /// - `Fault::Memory` if memory ran out. The entry that was evicted for the value is gone.
    pub fn insert(
        &mut self,
        device: &mut B::Device,
        key: K,
        value: V,
        may_flush: bool,
    ) -> Result<Option<V>, (Fault, V)>
        ensures inserted { Inserted (cache_kind K.eq B.loads B.flushes self.old.slots.cap) may_flush (key, value) device.old
            self.old.slots.entries result device.new self.new.slots.entries }
        ensures others { self.new ≡ with_entries self.old self.new.slots.entries }
    {
        if !self.slots.contains(&key) {
            return self.add(device, key, value, may_flush);
        }
        if !may_flush {
            return Ok(Some(value));
        }
        self.overwrite(device, key, value)
    }

    // Flushes the least recently used value. Its entry becomes the most recently used.
    fn flush_last(&mut self, device: &mut B::Device) -> Result<(), Fault>
        requires nonempty { 0 < length self.old.slots.entries }
        requires distinct { IsDistinct K.eq (keys_of self.old.slots.entries) }
        ensures flushed { FlushedLast B.flushes device.old self.old.slots.entries result device.new self.new.slots.entries }
        ensures others { self.new ≡ with_entries self.old self.new.slots.entries }
    {
        let key = match self.slots.peek_lru() {
            Some((key, _)) => *key,
            None => return Ok(()),
        };
        match self.slots.get_mut(&key) {
            Some(slot) => self.backend.flush(device, key, &mut slot.value),
            None => Ok(()),
        }
    }

    /// Flushes every value, the least recently used first. All entries stay cached, and the order of use doesn't change.
    ///
    /// # Errors
    ///
    /// After a fault the other values are flushed, too. The last fault is returned; but if there was a `Fault::Memory` or `Fault::Storage`,
    /// the last of these.
    pub fn flush(&mut self, device: &mut B::Device) -> Result<(), Fault>
        ensures flushed { FlushedEach B.flushes device.old self.old.slots.entries (fault_of result) device.new self.new.slots.entries }
        ensures others { self.new ≡ with_entries self.old self.new.slots.entries }
    {
        let mut fault = None;
        for _ in 0..self.slots.len() {
            let flushed = self.flush_last(device);
            fault = latest(fault, flushed);
        }
        match fault {
            None => Ok(()),
            Some(fault) => Err(fault),
        }
    }

    // Drops the least recently used value without flushing it. If it is pinned, its entry becomes the most recently used instead.
    fn drop_last(&mut self)
        requires nonempty { 0 < length self.old.slots.entries }
        requires distinct { IsDistinct K.eq (keys_of self.old.slots.entries) }
        ensures dropped { DroppedLast self.old.slots.entries self.new.slots.entries }
        ensures others { self.new ≡ with_entries self.old self.new.slots.entries }
    {
        let (key, pinned) = match self.slots.peek_lru() {
            Some((key, slot)) => (*key, slot.pins > 0),
            None => unreachable!(),
        };
        if pinned {
            self.slots.promote(&key);
        } else if let Some((key, slot)) = self.slots.pop_lru() {
            self.backend.evict(key, slot.value);
        }
    }

    /// Drops every value that isn't pinned, without flushing it.
    ///
    /// # Errors
    ///
    /// - `Fault::CacheFull` if a pinned value is still cached. The other values are dropped.
    pub fn invalidate(&mut self) -> Result<(), Fault>
        ensures keeps_pinned { self.new ≡ with_entries self.old (kept_pinned self.old.slots.entries) }
        ensures ok { OnOk result (kept_pinned self.old.slots.entries ≡ []) }
        ensures err { IfErr result (λ e. (e ≡ Fault.CacheFull) × (kept_pinned self.old.slots.entries ≡ [] → ⊥)) }
    {
        for _ in 0..self.slots.len() {
            self.drop_last();
        }
        if self.slots.is_empty() {
            Ok(())
        } else {
            Err(Fault::CacheFull)
        }
    }

    // Returns true if the value at `key` is pinned.
    fn is_pinned(&self, key: K) -> bool
        ensures { IsTrue result ↔ IsSomeAnd (lookup (K.eq key) self.now.slots.entries) (λ s. 0 < s.pins) }
    {
        let slot = self.slots.peek(&key);
        match slot {
            Some(slot) => slot.pins > 0,
            None => false,
        }
    }

    /// Drops the value at `key`, if it is cached, without flushing it.
    ///
    /// # Errors
    ///
    /// - `Fault::CacheFull` if the value is pinned. Nothing has changed.
    pub fn forget(&mut self, key: K) -> Result<(), Fault>
        ensures pinned { IsSomeAnd (lookup (K.eq key) self.old.slots.entries) (λ s. 0 < s.pins) → IsErr result }
        ensures ok { OnOk result (self.new ≡ with_entries self.old (remove_entry (K.eq key) self.old.slots.entries)) }
        ensures err { IfErr result (λ e. (e ≡ Fault.CacheFull) × IsSomeAnd (lookup (K.eq key) self.old.slots.entries) (λ s. 0 < s.pins)
            × (self.new ≡ self.old)) }
    {
        if self.is_pinned(key) {
            return Err(Fault::CacheFull);
        }
        if let Some(slot) = self.slots.pop(&key) {
            self.backend.evict(key, slot.value);
        }
        Ok(())
    }

    /// Returns an empty cache of at most `size` entries.
    ///
    /// # Errors
    ///
    /// - `Fault::Memory` if memory ran out.
    pub fn new(alloc: Global, backend: B, size: usize) -> Result<Self, Fault>
    where
        B: Drop,
        requires { 0 < size }
        ensures empty { IfOk result (λ c. c ≡ record { backend = backend; slots = lru_cache [] size }) }
        ensures memory { IfErr result (λ e. e ≡ Memory) }
    {
        match NonZeroUsize::new(size) {
            Some(cap) => match LruCache::new(alloc, cap) {
                Ok(slots) => Ok(AsyncLruCache { backend, slots }),
                Err(_) => Err(Fault::Memory),
            },
            None => unreachable!(),
        }
    }

    /// Adds a pin to the value at `key`, which must be cached. The order of use doesn't change.
    pub fn pin(&mut self, key: K)
        requires { IsSomeAnd (lookup (K.eq key) self.old.slots.entries) (λ s. s.pins + 1 < 2 ^ 64) }
        ensures { IfSome (lookup (K.eq key) self.old.slots.entries) (λ s.
            self.new ≡ with_entries self.old (set_value (K.eq key) self.old.slots.entries (record s { pins = s.pins + 1 }))) }
    {
        if let Some(slot) = self.slots.peek_mut(&key) {
            slot.pins += 1;
        }
    }

    /// Removes a pin from the value at `key`, which must be cached and pinned. The order of use doesn't change.
    pub fn unpin(&mut self, key: K)
        requires { IsSomeAnd (lookup (K.eq key) self.old.slots.entries) (λ s. 0 < s.pins) }
        ensures { IfSome (lookup (K.eq key) self.old.slots.entries) (λ s.
            self.new ≡ with_entries self.old (set_value (K.eq key) self.old.slots.entries (record s { pins = s.pins - 1 }))) }
    {
        if let Some(slot) = self.slots.peek_mut(&key) {
            slot.pins -= 1;
        }
    }
}

// Returns the fault to report after one more result.
fn latest(first: Option<Fault>, answer: Result<(), Fault>) -> Option<Fault>
    ensures { result ≡ spec.latest first answer }
{
    let fault = match answer {
        Ok(()) => return first,
        Err(fault) => fault,
    };
    match first {
        Some(earlier) => {
            if !is_not_resource_error(earlier) && is_not_resource_error(fault) {
                Some(earlier)
            } else {
                Some(fault)
            }
        }
        None => Some(fault),
    }
}

// Returns true if the fault is neither `Fault::Memory` nor `Fault::Storage`.
fn is_not_resource_error(fault: Fault) -> bool
    ensures { result ≡ spec.is_not_resource_error fault }
{
    !matches!(fault, Fault::Memory | Fault::Storage)
}
