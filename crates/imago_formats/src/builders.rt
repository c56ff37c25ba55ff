// Builders that open or create a raw image, and open a VMDK image.
ghost use Rattle.std.specs.Prelude.{refl, map, ◌≡◌, [], true, false, Ok, Err, None, IsTrue, IfOk, IfErr};
ghost use Rattle.std.proofs.Common.{sym};
ghost use Rattle.imago_storage.specs.declared.fault.Fault.TheVariants.{Unsupported};
ghost use Rattle.imago_access.specs.Refusals.{unusable_fault};
ghost use Rattle.imago_formats.specs.Descriptor.{descriptor_of};
ghost use Rattle.imago_formats.specs.DescriptorView.{kept_extents, kept_names};
ghost use Rattle.imago_formats.specs.VmdkOpening.{MayRefuse, NotBuilt, OpensNext};
ghost use Rattle.imago_formats.specs.VmdkLaws.{as_stated, said_still, written};
ghost use Rattle.imago_access.specs.Building.{OpensCreated, NotOpened};
ghost use Rattle.imago_access.specs.declared.format.Format.TheVariants as format;
ghost use Rattle.imago_access.specs.declared.format.PreallocateMode.TheVariants as mode;
ghost use Rattle.std.proofs.Common.{ap};
ghost use Rattle.imago_access.specs.Layer.{Layer};
ghost use Rattle.imago_formats.specs.RawHome.{never};
ghost use Rattle.imago_formats.specs.RawOpening.{IsRaw, as_long, kept_same};
ghost use Rattle.imago_formats.specs.Creating.{IsNewRaw, NotCreated};

use crate::raw::{Raw, grow_storage, storage_mode};
use crate::vmdk::Vmdk;
use imago_access::{
    DriverModel, Format, FormatCreateBuilder, FormatCreateBuilderBase, FormatDriverBuilder,
    FormatDriverBuilderBase, ImplicitOpenGate, MakeOpenBuilder, PreallocateMode,
};
use imago_storage::{Fault, Storage, StorageOpenOptions};
use std::alloc::Global;

/// A builder that opens a raw image. Opening never fails, and makes no request. The gate (the value that opens files by name) isn't called,
/// because a raw image references no other file.
#[derive(Drop)]
pub struct RawOpenBuilder<S> {
    base: FormatDriverBuilderBase<S>,
}

impl<S: Storage> FormatDriverBuilder<S> for RawOpenBuilder<S> {
    type Format = Raw<S>;

    const FORMAT: Format = Format::Raw;

    ghost FORMAT = { format.Raw };

    ghost image_of = { λ b. b.base.image };

    ghost writable_of = { λ b. b.base.writable };

    ghost options_of = { λ b. b.base.options };

    ghost number_of = { λ b. 0 };

    ghost with_writable = { λ b writable. record b { base = record b.base { writable = writable } } };

    ghost opens = { λ b d. (d.storage ≡ b.base.image) × IsRaw ⟦<Raw<S> as DriverModel>⟧ (S.state b.base.image) b.base.writable d };

    ghost refuses = { λ b fault. ⊥ };

    ghost opened = { λ b d opens. record {
      format_is = refl;
      writable_is = ap (λ (l : Layer). l.fixed.writable) opens.1.0;
      number_is = refl;
      size_is = as_long (S.state b.base.image) (S.state d.storage) d.size (ap S.state opens.0) (ap (λ (l : Layer). l.size) opens.1.0);
      meant = record { size = opens.1.1; exactly = never; cell = λ p low. refl };
      counted = λ c. refl;
      unchanged_but_faults = kept_same (S.state b.base.image) (S.state d.storage) (ap S.state opens.0);
      free = refl;
      usable = refl;
      coherent = tt;
      has_no_dirty_data = tt;
      stays_stable = opens.1.1;
      well_formed = λ keeps sound. (keeps, opens.1.1);
    } };

    fn new(image: S) -> Self {
        RawOpenBuilder {
            base: FormatDriverBuilderBase::new(image),
        }
    }

    fn write(mut self, write: bool) -> Self {
        self.base.set_write(write);
        self
    }

    fn storage_open_options(mut self, options: StorageOpenOptions) -> Self {
        self.base.set_storage_open_options(options);
        self
    }

    fn open<G: ImplicitOpenGate<S>>(self, _alloc: Global, gate: &mut G) -> Result<Raw<S>, Fault>
        ensures ok { IfOk result (⟦<RawOpenBuilder<S> as FormatDriverBuilder<S>>⟧.opens self) }
        ensures err { IfErr result (⟦<RawOpenBuilder<S> as FormatDriverBuilder<S>>⟧.refuses self) }
        // The gate isn't called.
        ensures gate { gate.new ≡ gate.old }
    {
        let writable = self.base.get_writable();
        let image = self.base.open_image(gate)?;
        Ok(Raw::open_image(image, writable))
    }

    fn get_writable(&self) -> bool {
        self.base.get_writable()
    }

    fn get_storage_open_options(&self) -> Option<&StorageOpenOptions> {
        self.base.get_storage_opts()
    }
}

/// A builder that opens a VMDK image read-only: its descriptor, and then the files of its extents, which the gate (the value that opens
/// files by name) opens.
///
/// # Errors
///
/// - `Fault::Unsupported` if the builder asks for a writable image. This is checked first.
/// - The errors of `Vmdk::open_image` and of `Vmdk::open_implicit_dependencies_gated`. If no extent needs a file, the call only fails with
///   the descriptor's own error, `Fault::Memory`, or `Fault::Storage` if the storage may fail.
#[derive(Drop)]
pub struct VmdkOpenBuilder<S> {
    base: FormatDriverBuilderBase<S>,
}

impl<S: Storage> FormatDriverBuilder<S> for VmdkOpenBuilder<S> {
    type Format = Vmdk<S>;

    const FORMAT: Format = Format::Vmdk;

    ghost FORMAT = { format.Vmdk };

    ghost image_of = { λ b. b.base.image };

    ghost writable_of = { λ b. b.base.writable };

    ghost options_of = { λ b. b.base.options };

    ghost number_of = { λ b. 0 };

    ghost with_writable = { λ b writable. record b { base = record b.base { writable = writable } } };

    ghost opens = { λ b d. (b.base.writable ≡ false) × (S.state d.image ≡ S.state b.base.image)
        × (descriptor_of (S.state b.base.image).bytes ≡ Ok (kept_extents d.disk.extents.items))
        × (unusable_fault (⟦<Vmdk<S> as DriverModel>⟧.layer d) ≡ None) × ⟦<Vmdk<S> as DriverModel>⟧.coherent d };

    ghost refuses = { λ b fault. MayRefuse S.state b.base.writable (descriptor_of (S.state b.base.image).bytes) fault };

    ghost opened = { λ b d opens.
        let kept = kept_same (S.state b.base.image) (S.state d.image) opens.1 in
        let said = said_still (S.state b.base.image) (S.state d.image) d.disk.extents.items kept opens.2 in record {
          format_is = refl;
          writable_is = sym opens.0;
          number_is = refl;
          size_is = as_stated d.disk.extents.items (S.state d.image) (map S.state d.files.items) said;
          meant = written d.disk.extents.items (S.state d.image) (map S.state d.files.items) said;
          counted = λ c. refl;
          unchanged_but_faults = kept;
          free = refl;
          usable = opens.3;
          coherent = opens.4;
          has_no_dirty_data = tt;
          stays_stable = tt;
          well_formed = λ keeps sound. (keeps, opens.4, said);
        } };

    fn new(image: S) -> Self {
        VmdkOpenBuilder {
            base: FormatDriverBuilderBase::new(image),
        }
    }

    fn write(mut self, write: bool) -> Self {
        self.base.set_write(write);
        self
    }

    fn storage_open_options(mut self, options: StorageOpenOptions) -> Self {
        self.base.set_storage_open_options(options);
        self
    }

    fn open<G: ImplicitOpenGate<S>>(self, alloc: Global, gate: &mut G) -> Result<Vmdk<S>, Fault>
        ensures ok { IfOk result (⟦<VmdkOpenBuilder<S> as FormatDriverBuilder<S>>⟧.opens self) }
        ensures err { IfErr result (⟦<VmdkOpenBuilder<S> as FormatDriverBuilder<S>>⟧.refuses self) }
        // The files are those that the gate opened for the names of the extents, in order.
        ensures files { IfOk result (λ d. OpensNext G.answers (kept_names d.disk.extents.items) ([], gate.old) (d.files.items, gate.new)) }
        // The call fails before the gate is called, or while the files of the extents are opened.
        ensures cause { IfErr result (NotBuilt S.state G.answers self.base.writable (S.state self.base.image) gate.old gate.new) }
    {
        if self.base.get_writable() {
            return Err(Fault::Unsupported);
        }
        let image = self.base.open_image(gate)?;
        let mut vmdk = Vmdk::open_image(alloc, image)?;
        vmdk.open_implicit_dependencies_gated(alloc, gate)?;
        Ok(vmdk)
    }

    fn get_writable(&self) -> bool {
        self.base.get_writable()
    }

    fn get_storage_open_options(&self) -> Option<&StorageOpenOptions> {
        self.base.get_storage_opts()
    }
}

impl<S: Storage> Vmdk<S> {
    /// Returns a builder that opens a VMDK image, option by option.
    pub fn builder(image: S) -> VmdkOpenBuilder<S>
        ensures { result ≡ record { base = record { image = image; writable = false; options = None } } }
    {
        VmdkOpenBuilder::new(image)
    }
}

/// A builder that creates a raw image: the storage is truncated to 0 bytes, resized to the size of the disk, and flushed.
///
/// # Errors
///
/// - `Fault::Unsupported` if the storage doesn't support one of these resizes.
/// - `Fault::Memory`, `Fault::Storage`.
/// - `create_open` also returns the error of the closure that makes the builder.
///
/// # On error
///
/// The storage is dropped.
#[derive(Drop)]
pub struct RawCreateBuilder<S> {
    base: FormatCreateBuilderBase<S>,
}

impl<S: Storage> FormatCreateBuilder<S> for RawCreateBuilder<S> {
    const FORMAT: Format = Format::Raw;

    ghost FORMAT = { format.Raw };

    type DriverBuilder = RawOpenBuilder<S>;

    ghost storage_of = { λ b. b.base.image };

    ghost size_of = { λ b. b.base.size };

    ghost preallocate_of = { λ b. b.base.preallocate };

    ghost creates = { λ b s. IsNewRaw (S.state b.base.image) (S.state s) b.base.size };

    ghost hands = { λ b s. IsNewRaw (S.state b.base.image) (S.state s) b.base.size };

    ghost opens_with = { λ b made opening. opening ≡ ⟦<RawOpenBuilder<S> as FormatDriverBuilder<S>>⟧.with_writable made true };

    ghost refuses = { λ b fault. NotCreated fault };

    fn new(image: S) -> Self {
        RawCreateBuilder {
            base: FormatCreateBuilderBase::new(image),
        }
    }

    fn size(mut self, size: u64) -> Self {
        self.base.set_size(size);
        self
    }

    fn preallocate(mut self, preallocate: PreallocateMode) -> Self {
        self.base.set_preallocate(preallocate);
        self
    }

    fn get_size(&self) -> u64 {
        self.base.get_size()
    }

    fn get_preallocate(&self) -> PreallocateMode {
        self.base.get_preallocate()
    }

    fn create(self, _alloc: Global) -> Result<S, Fault> {
        let size = self.base.get_size();
        let mode = storage_mode(self.base.get_preallocate());
        let mut image = self.base.get_image();
        grow_storage(&mut image, 0, size, mode)?;
        image.flush()?;
        Ok(image)
    }

    fn create_open<G: ImplicitOpenGate<S>, F: MakeOpenBuilder<S, RawOpenBuilder<S>> + Drop>(
        self,
        alloc: Global,
        gate: &mut G,
        open_builder: F,
    ) -> Result<Raw<S>, Fault>
        requires { let c = ⟦<RawCreateBuilder<S> as FormatCreateBuilder<S>>⟧ in (s : S) → c.hands self s → F.takes open_builder s }
        ensures ok { let c = ⟦<RawCreateBuilder<S> as FormatCreateBuilder<S>>⟧ in let o = ⟦<RawOpenBuilder<S> as FormatDriverBuilder<S>>⟧ in
            IfOk result (λ d. OpensCreated (c.hands self) (F.makes open_builder) (c.opens_with self) (λ b. o.opens b d)) }
        ensures format { IfOk result (λ d. (⟦<Raw<S> as DriverModel>⟧.layer d).fixed.format ≡ format.Raw) }
        ensures writable { IfOk result (λ d. IsTrue (⟦<Raw<S> as DriverModel>⟧.layer d).fixed.writable) }
        ensures err { let c = ⟦<RawCreateBuilder<S> as FormatCreateBuilder<S>>⟧ in
            let o = ⟦<RawOpenBuilder<S> as FormatDriverBuilder<S>>⟧ in
            IfErr result (NotOpened (c.refuses self) (c.hands self) (F.makes open_builder) (c.opens_with self) o.refuses) }
        // The gate isn't called.
        ensures gate { gate.new ≡ gate.old }
    {
        let image = self.create(alloc)?;
        let builder = open_builder.make(image)?;
        builder.write(true).open(alloc, gate)
    }
}

impl<S: Storage> Raw<S> {
    /// Returns a builder that opens a raw image, option by option.
    pub fn builder(image: S) -> RawOpenBuilder<S>
        ensures { result ≡ record { base = record { image = image; writable = false; options = None } } }
    {
        RawOpenBuilder::new(image)
    }

    /// Returns a builder that creates a raw image, option by option.
    pub fn create_builder(image: S) -> RawCreateBuilder<S>
        ensures { result ≡ record { base = record { image = image; size = 0; preallocate = mode.None } } }
    {
        RawCreateBuilder::new(image)
    }
}
