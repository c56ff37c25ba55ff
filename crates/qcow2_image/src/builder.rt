// A builder that opens a qcow2 image, with one call for each option.
ghost use Rattle.std.specs.Prelude.{◌≡◌, ◌↔◌, false, None, Some, IfOk, IfErr, IsOk, IsOkUnless};
ghost use Rattle.imago_storage.specs.declared.fault.Fault.{Fault};
ghost use Rattle.imago_access.specs.Building.{IsOpened};
ghost use Rattle.imago_access.specs.declared.format.Format.TheVariants as format;
ghost use Rattle.qcow2_types.specs.Bytes.{bytes_of};
ghost use Rattle.qcow2_image.specs.Caching.{AreCacheSizes};
ghost use Rattle.qcow2_image.specs.Opening.{IsOpenedAs, WhyNotOpened};

use crate::cache_entries::CacheEntries;
use crate::opening::open_with;
use crate::qcow2::Qcow2;
use imago_access::{
    DriverModel, Format, FormatDriverBuilder, FormatDriverBuilderBase, ImplicitOpenGate,
};
use imago_storage::{Fault, Storage, StorageOpenOptions};
use std::alloc::Global;

/// A builder that opens a qcow2 image, with the errors of `Qcow2::open_image`.
///
/// It opens no other file. An external data file isn't supported, and a backing file is opened separately, as the next layer of a chain.
#[derive(Drop)]
pub struct Qcow2OpenBuilder<S> {
    base: FormatDriverBuilderBase<S>,
    backing: Option<bool>,
    number: u64,
    entries: CacheEntries,
}

// Returns the builder for an image file, with the defaults: read-only, number 0, and 128 and 32 cache entries.
fn builder_for<S: Storage>(image: S) -> Qcow2OpenBuilder<S>
    ensures base { result.base ≡ record { image = image; writable = false; options = None } }
    ensures others { (result.backing ≡ None) × (result.number ≡ 0) }
    ensures entries { (result.entries.l2_tables ≡ 128) × (result.entries.refcount_blocks ≡ 32) }
{
    Qcow2OpenBuilder {
        base: FormatDriverBuilderBase::new(image),
        backing: None,
        number: 0,
        entries: CacheEntries::usual(),
    }
}

impl<S: Storage> Qcow2OpenBuilder<S> {
    /// Sets whether unallocated bytes are read from a backing file. If not, they are 0.
    ///
    /// The default comes from the header: true if it has a backing file name.
    pub fn backing(mut self, backing: bool) -> Self
        ensures { result ≡ record self { backing = Some backing } }
    {
        self.backing = Some(backing);
        self
    }

    /// Sets the number of the open image, 0 by default. No other open image may have the same number.
    pub fn number(mut self, number: u64) -> Self
        ensures { result ≡ record self { number = number } }
    {
        self.number = number;
        self
    }

    /// Sets how many L2 tables and refcount blocks are kept in memory at most. The defaults are 128 and 32.
    ///
    /// # Errors
    ///
    /// - `Fault::BadArgument` if a number isn't from 2 to 65,536.
    ///
    /// # On error
    ///
    /// The image file is dropped.
    pub fn cache_entries(mut self, l2_tables: usize, refcount_blocks: usize) -> Result<Self, Fault>
        ensures entries { IfOk result (λ b. (b.entries.l2_tables ≡ l2_tables) × (b.entries.refcount_blocks ≡ refcount_blocks)) }
        ensures others { IfOk result (λ b. (b.base ≡ self.base) × (b.backing ≡ self.backing) × (b.number ≡ self.number)) }
        ensures ok { IsOk result ↔ AreCacheSizes l2_tables refcount_blocks }
        ensures err { IsOkUnless result Fault.BadArgument }
    {
        self.entries = CacheEntries::new(l2_tables, refcount_blocks)?;
        Ok(self)
    }
}

impl<S: Storage> FormatDriverBuilder<S> for Qcow2OpenBuilder<S> {
    type Format = Qcow2<S>;

    const FORMAT: Format = Format::Qcow2;

    ghost FORMAT = { format.Qcow2 };

    ghost image_of = { λ b. b.base.image };

    ghost writable_of = { λ b. b.base.writable };

    ghost options_of = { λ b. b.base.options };

    ghost number_of = { λ b. b.number };

    ghost with_writable = { λ b writable. record b { base = record b.base { writable = writable } } };

    ghost opens = { λ b d.
        let image = S.state b.base.image in
        IsOpenedAs S.Storage image b.base.writable b.backing b.number b.entries.l2_tables b.entries.refcount_blocks d
        × IsOpened ⟦<Qcow2<S> as DriverModel>⟧ format.Qcow2 b.base.writable b.number image d };

    ghost refuses = { λ b fault. WhyNotOpened S.state b.base.writable (bytes_of (S.state b.base.image).bytes) fault };

    ghost opened = { λ b d opens. opens.1 };

    fn new(image: S) -> Self
        ensures image { ⟦<Qcow2OpenBuilder<S> as FormatDriverBuilder<S>>⟧.image_of result ≡ image }
        ensures writable { ⟦<Qcow2OpenBuilder<S> as FormatDriverBuilder<S>>⟧.writable_of result ≡ false }
        ensures options { ⟦<Qcow2OpenBuilder<S> as FormatDriverBuilder<S>>⟧.options_of result ≡ None }
        ensures number { ⟦<Qcow2OpenBuilder<S> as FormatDriverBuilder<S>>⟧.number_of result ≡ 0 }
        // The header decides whether there is a backing file, and the caches have their default sizes.
        ensures backing { result.backing ≡ None }
        ensures entries { (result.entries.l2_tables ≡ 128) × (result.entries.refcount_blocks ≡ 32) }
    {
        builder_for(image)
    }

    fn write(mut self, write: bool) -> Self {
        self.base.set_write(write);
        self
    }

    fn storage_open_options(mut self, options: StorageOpenOptions) -> Self
        ensures image { let b = ⟦<Qcow2OpenBuilder<S> as FormatDriverBuilder<S>>⟧ in b.image_of result ≡ b.image_of self }
        ensures writable { let b = ⟦<Qcow2OpenBuilder<S> as FormatDriverBuilder<S>>⟧ in b.writable_of result ≡ b.writable_of self }
        ensures options { ⟦<Qcow2OpenBuilder<S> as FormatDriverBuilder<S>>⟧.options_of result ≡ Some options }
        ensures number { let b = ⟦<Qcow2OpenBuilder<S> as FormatDriverBuilder<S>>⟧ in b.number_of result ≡ b.number_of self }
        // Nothing else changes.
        ensures others { result ≡ record self { base = record self.base { options = Some options } } }
    {
        self.base.set_storage_open_options(options);
        self
    }

    fn open<G: ImplicitOpenGate<S>>(self, alloc: Global, gate: &mut G) -> Result<Qcow2<S>, Fault>
        ensures ok { IfOk result (⟦<Qcow2OpenBuilder<S> as FormatDriverBuilder<S>>⟧.opens self) }
        ensures err { IfErr result (⟦<Qcow2OpenBuilder<S> as FormatDriverBuilder<S>>⟧.refuses self) }
        // The gate, which would open other files, isn't used.
        ensures gate { gate.new ≡ gate.old }
    {
        let Qcow2OpenBuilder {
            base,
            backing,
            number,
            entries,
        } = self;
        let writable = base.get_writable();
        let image = base.open_image(gate)?;
        open_with(alloc, image, writable, backing, number, entries)
    }

    fn get_writable(&self) -> bool {
        self.base.get_writable()
    }

    fn get_storage_open_options(&self) -> Option<&StorageOpenOptions> {
        self.base.get_storage_opts()
    }
}

impl<S: Storage> Qcow2<S> {
    /// Returns a builder that opens an image option by option.
    pub fn builder(image: S) -> Qcow2OpenBuilder<S>
        ensures base { result.base ≡ record { image = image; writable = false; options = None } }
        ensures others { (result.backing ≡ None) × (result.number ≡ 0) }
        ensures entries { (result.entries.l2_tables ≡ 128) × (result.entries.refcount_blocks ≡ 32) }
    {
        builder_for(image)
    }
}
