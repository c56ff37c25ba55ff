//! Laws of a qcow2 image: what its disk reads by the format, what its calls leak, and which calls it declines. A law is a function without
//! code, whose contract is a theorem for users of the definitions.

ghost use Rattle.std.specs.Prelude.{◌≡◌, ◌<◌, ◌+◌, ℕ, List, false, Ok};
ghost use Rattle.imago_storage.specs.Disk.{Value};
ghost use Rattle.imago_storage.specs.Steps.{Call};
ghost use Rattle.imago_access.specs.Layer.{Cell, IsFree, Layer, through};
ghost use Rattle.imago_access.specs.Room.{IsUndeclined};
ghost use Rattle.qcow2_types.specs.Bytes.{Bytes, bytes_of};
ghost use Rattle.qcow2_types.specs.Consistency.{IsConsistent, leaks};
ghost use Rattle.qcow2_types.specs.Disk.{in_qcow2, size_in_header};
ghost use Rattle.qcow2_types.specs.Header.{Header, has_external_data, header_of};
ghost use Rattle.qcow2_image.specs.Allocating.{waits_in};
ghost use Rattle.qcow2_image.specs.ImageLayer.{qcow2_leaks, qcow2_meaning};
ghost use Rattle.qcow2_image.specs.Leaking.{KeepsLeaks, counts_in, leaks_of, names_in, pending};
ghost use Rattle.qcow2_image.specs.Opening.{IsOpenedAs};
ghost use Rattle.qcow2_image.specs.Rooms.{IsWellFormed};
ghost use Rattle.qcow2_image.specs.Seen.{layer_of};
ghost use Rattle.qcow2_image.specs.Writing.{NeedsZeroFlag};

use crate::qcow2::Qcow2;
use imago_access::DriverModel;
use imago_storage::Storage;

/// Law: if an image is opened over a file, its disk has the size in the header, and each byte reads as the tables say.
///
/// The law on bytes is for images without an external data file. An unallocated byte is read from the layers below (the backing chain), or
/// is 0 if the image has none.
pub fn layers_show_what_images_do()
    ensures size { (blank : Cell) (file : List ℕ) → (qcow2_meaning blank file).size ≡ size_in_header (header_of false (bytes_of file)) }
    ensures shown { (blank : Cell) (file : List ℕ) (external : Bytes) (H : Header) (p : ℕ) (below : Value)
        → header_of false (bytes_of file) ≡ Ok H → has_external_data H.fields ≡ false → p < H.fields.size
        → through ((qcow2_meaning blank file).cell p) below ≡ in_qcow2 (bytes_of file) external (Ok H) p (through blank below) }
{}

/// Law: if each of two successive calls keeps the leaks of an image, the pair keeps them.
///
/// Leaks are excess refcounts: refcounts beyond the references and what is pending (allocated and not yet referenced, or on the free list).
/// If nothing is pending before and after, the excess refcount of each cluster is the same before and after. So a well-formed image leaks
/// the same clusters. Nothing is pending right after an image is opened, nor while the free list is empty and no mapping is prepared.
pub fn leaks_add_up<S: Storage>()
    ensures both { (a b c : _) → KeepsLeaks S.Storage a b → KeepsLeaks S.Storage b c → KeepsLeaks S.Storage a c }
    ensures alike { (old new : _) → KeepsLeaks S.Storage old new → ((c : ℕ) → pending S.Storage old c ≡ 0)
        → ((c : ℕ) → pending S.Storage new c ≡ 0)
        → (c : ℕ) → counts_in S.Storage new c + names_in S.Storage old c ≡ counts_in S.Storage old c + names_in S.Storage new c }
    ensures listed { (old new : _) → IsWellFormed S.Storage old → IsWellFormed S.Storage new → KeepsLeaks S.Storage old new
        → ((c : ℕ) → pending S.Storage old c ≡ 0) → ((c : ℕ) → pending S.Storage new c ≡ 0)
        → leaks_of S.Storage new ≡ leaks_of S.Storage old }
    ensures opened { (before writable backing number tables blocks d : _)
        → IsOpenedAs S.Storage before writable backing number tables blocks d → (c : ℕ) → pending S.Storage d c ≡ 0 }
    ensures none { (d : _) → waits_in d.tables.space ≡ false → IsFree (layer_of S.Storage d) → (c : ℕ) → pending S.Storage d c ≡ 0 }
{}

/// Law: if each cluster has the same excess refcount (refcount minus references) in two consistent files, both leak the same clusters.
///
/// The leaks are those that a checker lists. `IsCounted` says what the file of a layer leaks after a flush with no mapping prepared.
pub fn consistent_files_leak_alike()
    ensures { (one other : List ℕ) (H K : Header) → IsConsistent (bytes_of one) H → IsConsistent (bytes_of other) K
        → ((c : ℕ) → qcow2_leaks other c ≡ qcow2_leaks one c) → leaks (bytes_of other) K.fields ≡ leaks (bytes_of one) H.fields }
{}

/// Law: an image of version 3 has no cause of its own to decline a zeroing or a discard, and an image of version 2 has none to decline a
/// discard to the backing file (`IsUndeclined`).
///
/// So for a chain with such an image on top, the clauses on zeroed and deallocated units hold. The law stands for every call.
pub fn zeroing_and_discards_are_not_declined<S: Storage>()
    ensures { let d = ⟦<Qcow2<S> as DriverModel>⟧ in (image : _) (below : List Layer) (call : Call) → d.well_formed image
        → (NeedsZeroFlag call → 2 < image.tables.file.header.fields.version)
        → IsUndeclined (d.own_cause image below call) }
{}
