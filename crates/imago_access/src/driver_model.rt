// Ghost traits: what contracts see of a driver, and of the layers below it. Only contracts and proofs use them.
ghost use Rattle.std.specs.Prelude.{ℕ, List};
ghost use Rattle.imago_storage.specs.State.{StorageState};
ghost use Rattle.imago_storage.specs.Steps.{Call};
ghost use Rattle.imago_storage.specs.declared.fault.Fault.{Fault};
ghost use Rattle.imago_access.specs.Layer.{Layer};
ghost use Rattle.imago_access.specs.declared.format.PreallocateMode.{PreallocateMode};

/// The model of a driver that contracts see: a layer (its image without the backing chain), the states of its storages, and facts that the
/// driver defines for itself.
///
/// The storages of a driver are known by number: the image file has the number 0, and the other files follow.
pub trait DriverModel {
    /// The data with which the driver commits a prepared mapping (a run that is written and not yet committed).
    type State;

    /// The image as a layer of a chain: its size, what each byte is, and what never changes.
    ghost layer: { Self → Layer };

    /// The state of the image file.
    ghost image: { Self → StorageState };

    /// The states of the other files.
    ghost extras: { Self → List StorageState };

    /// The metadata in memory agrees with the files, so lookups return what the files say.
    ghost coherent: { Self → Type 0 };

    /// The driver's invariant, which holds for a consistent image. While it holds, changes do what their contracts say, and only the listed
    /// errors occur.
    ghost well_formed: { Self → Type 0 };

    /// Nothing in memory is dirty, so lookups change no file.
    ghost has_no_dirty_data: { Self → Type 0 };

    /// A property that every call preserves, even one that fails with a resource error (`Fault::Memory`, `Fault::Storage`).
    ghost stable: { Self → Type 0 };

    /// The excess refcount of each cluster: its refcount in the file, minus its references, minus what is pending. Pending are allocated
    /// clusters that aren't linked yet, and clusters to free. If nothing is pending, the excess leaks. In a format without refcounts it is
    /// 0.
    ghost excess_refcount: { Self → ℕ → ℕ };

    /// Nothing that the format could deallocate is allocated for the byte. Bytes past the end of the disk may count as unallocated.
    ghost unallocated: { Self → ℕ → Type 0 };

    /// The byte has space of its own, which a write or a zeroing keeps for the byte. A byte with space that isn't its own, such as a
    /// compressed one, has no allocation and isn't unallocated either.
    ghost has_allocation: { Self → ℕ → Type 0 };

    /// The byte is neither stored in a storage nor unreadable, if the format has a way to say that a byte is 0. Bytes past the end of the
    /// disk may count as zeroed.
    ghost zeroed: { Self → ℕ → Type 0 };

    /// The layer itself maps the byte as 0 (an explicit zero). A byte that reads through to the layer below is never an explicit zero.
    /// Neither is a byte that is 0 only because nothing is allocated and no layer is below.
    ghost explicit_zero: { Self → ℕ → Type 0 };

    /// The mapping that a state belongs to. `tag` is the number of the image that prepared the mapping.
    ghost mapping_id: { Self.State → ℕ };

    ghost tag: { Self.State → ℕ };

    /// A file with these bytes is consistent as an image of this kind.
    ghost sound: { ℕ → List ℕ → Type 0 };

    /// Between the first state and the second, nothing or only parts of the call were carried out.
    ghost began: { Self → Call → Self → Type 0 };

    /// The driver's own errors for a call that began in this state, over these layers below (the backing chain).
    ghost own_cause: { Self → List Layer → Call → Fault → Type 0 };

    /// The driver's own errors for a growth to a size in this mode.
    ghost growth_cause: { Self → List Layer → ℕ → PreallocateMode → Fault → Type 0 };
}

/// The model of the layers below an image (its backing chain): the layers, the highest first, and the states of their storages.
pub trait LayersBelowModel {
    /// The layers.
    ghost layers_below: { Self → List Layer };

    /// The states of their storages, those of the highest layer first.
    ghost files_of_layers_below: { Self → List StorageState };

    /// The metadata in memory agrees with the files of each layer.
    ghost coherent_below: { Self → Type 0 };

    /// The driver of the highest of these layers, if any, is well-formed.
    ghost well_formed_below: { Self → Type 0 };

    /// Nothing in memory is dirty, so lookups change no file.
    ghost have_no_dirty_data_below: { Self → Type 0 };

    /// The states of the storages of the layers below the highest one.
    ghost deeper_files: { Self → List StorageState };

    /// Nothing in memory is dirty in the layers below the highest one.
    ghost deeper_have_no_dirty_data: { Self → Type 0 };

    /// A property that every call preserves.
    ghost stable_below: { Self → Type 0 };
}
