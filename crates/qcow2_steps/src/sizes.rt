//! Law on changing the disk size in the header of an image whose caches are empty. Definitions: specs/Sizes.antt.

ghost use Rattle.std.specs.Prelude.{◌≡◌, ℕ, List};
ghost use Rattle.qcow2_types.specs.Bytes.{Bytes};
ghost use Rattle.qcow2_types.specs.Header.{Header};
ghost use Rattle.qcow2_types.specs.Pending.{FreeEntry};
ghost use Rattle.qcow2_metadata.specs.Tables.{TableValue};
ghost use Rattle.qcow2_alloc.specs.GuestView.{IsSound};
ghost use Rattle.qcow2_steps.specs.Sizes.{KeepsAllButSize, WritesHeaderSize, rested};

/// Law: if the header of a consistent image with nothing cached is set to another disk size, the image stays consistent. Guest bytes,
/// mappings, refcounts and references are the same.
pub fn changing_the_disk_size()
    ensures { (f : Bytes) (H : Header) (n : ℕ) (x : Bytes) (table : TableValue) (pending : List FreeEntry)
        → IsSound (rested f H table pending) → WritesHeaderSize f H n x → KeepsAllButSize f H n x table pending }
{}
