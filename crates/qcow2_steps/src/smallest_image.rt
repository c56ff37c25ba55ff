//! Laws on the smallest qcow2 image, which is what a new image starts as. Definitions: specs/SmallestImage.antt.

ghost use Rattle.std.specs.Prelude.{◌≡◌, ◌≢◌, ◌+◌, ◌-◌, ◌*◌, ◌/◌, ◌^◌, ◌≤◌, ℕ, Option, Some, true, IsTrue, List, [], replicate, slice_set};
ghost use Rattle.qcow2_types.specs.Bytes.{Bytes};
ghost use Rattle.qcow2_types.specs.Consistency.{IsConsistent, leaks};
ghost use Rattle.qcow2_types.specs.Counts.{counters_of_block};
ghost use Rattle.qcow2_types.specs.Entries.{entry};
ghost use Rattle.qcow2_types.specs.Header.{Fields, Header, Shaped, cluster_size, entries_of_cluster};
ghost use Rattle.qcow2_types.specs.HeaderBytes.{fits_first_cluster, written};
ghost use Rattle.qcow2_types.specs.TableBytes.{Packs};
ghost use Rattle.qcow2_types.specs.Words.{unmapped};
ghost use Rattle.qcow2_metadata.specs.Reloading.{IsReloadable, is_text};
ghost use Rattle.qcow2_metadata.specs.Tables.{IsGrownLength, padded};
ghost use Rattle.qcow2_steps.specs.SmallestImage.{AreFirstCounters, AreFirstEntries, IsSmallestImage, incremented, smallest_header, with_parts};

/// Law: the smallest image is consistent and has no leaks. No guest cluster is mapped.
///
/// It has a disk of size 0 and three clusters: the header, the refcount table and one refcount block. This is true of each cluster size
/// and refcount width that a header may have.
pub fn the_smallest_image_is_consistent()
    ensures consistent { (f : Bytes) (H : Header) → IsSmallestImage f H → IsConsistent f H }
    ensures leaks { (f : Bytes) (H : Header) → IsSmallestImage f H → leaks f H.fields ≡ [] }
    ensures entries { (f : Bytes) (H : Header) → IsSmallestImage f H → (guest : ℕ) → entry f H.fields guest ≡ unmapped }
{}

/// Law: these are the parts of the smallest image in memory.
///
/// - The header is a new one with the refcount table in cluster 1. It loads again if it fits its cluster, its texts are UTF-8, and the
///   backing file's name, if any, isn't empty.
/// - The refcounts are those of a new block, with the first three incremented.
/// - The refcount table is grown from none to an entry at index 0. It has the entries of one cluster, which `clusters` counts as
///   `Header::set_reftable` does. The first entry is set to the block in cluster 2.
pub fn parts_of_the_smallest_image()
    ensures header { (bits order : ℕ) (name format : Option (List ℕ)) → 9 ≤ bits → bits ≤ 21 → order ≤ 6
        → IsTrue (fits_first_cluster (smallest_header bits order name format)) → name ≢ Some [] → IsTrue (is_text name)
        → IsTrue (is_text format) → IsReloadable true (smallest_header bits order name format) }
    ensures counters { (h : Fields) → Shaped h
        → AreFirstCounters h (incremented (incremented (incremented (replicate (counters_of_block h) 0) 0) 1) 2) }
    ensures length { (h : Fields) (n : ℕ) → Shaped h → IsGrownLength (entries_of_cluster h) (counters_of_block h) 0 n
        → n ≡ entries_of_cluster h }
    ensures raw_entries { (h : Fields) → Shaped h
        → AreFirstEntries h (slice_set (padded [] (entries_of_cluster h)) 0 (2 * cluster_size h)) }
    ensures clusters { (h : Fields) → Shaped h → (8 * entries_of_cluster h + (cluster_size h - 1)) / cluster_size h ≡ 1 }
{}

/// Law: if the block, the refcount table and the header of the smallest image are written to a file, each to its cluster, the file is the
/// smallest image. The other bytes of the file don't matter.
pub fn writing_the_smallest_image()
    ensures { (f : Bytes) (bits order : ℕ) (name format : Option (List ℕ)) (counters block raw_entries : List ℕ)
        → IsReloadable true (smallest_header bits order name format)
        → AreFirstCounters (smallest_header bits order name format).fields counters → Packs order counters block
        → AreFirstEntries (smallest_header bits order name format).fields raw_entries
        → IsSmallestImage (with_parts f (smallest_header bits order name format) block raw_entries)
        (written (smallest_header bits order name format)) }
{}
