//! Laws (functions without code whose contracts are theorems) on the constants and the definitions of the qcow2 format. They hold for every
//! image.

ghost use Rattle.std.specs.Prelude.{◌≡◌, ◌≤◌, ◌-◌, ◌^◌, ℕ, Bool, List, [], ◌∷◌, Result, Ok};
ghost use Rattle.qcow2_types.specs.TableBytes.{ArePackable, block_bytes, Packs};
ghost use Rattle.qcow2_types.specs.Bytes.{Bytes, be};
ghost use Rattle.qcow2_types.specs.Words.{table_offset};
ghost use Rattle.qcow2_types.specs.Header.{Header, Limited, header_of, cluster_size};
ghost use Rattle.qcow2_types.specs.Counts.{counter_bits};
ghost use Rattle.qcow2_types.specs.Consistency.{Finding, IsVerdict};

use crate::{
    MAGIC, MAX_CLUSTER_SIZE, MAX_OFFSET, MAX_REFCOUNT_WIDTH, MIN_CLUSTER_SIZE, MIN_REFCOUNT_WIDTH,
};

/// Law: if a header loads, it starts with the magic number. Its cluster size and refcount width are between the smallest and the largest.
/// The sizes of its disk and tables, and the offsets of its tables, are within their limits.
pub fn loaded_header_is_within_limits()
    ensures magic { (writing : Bool) (f : Bytes) (h : Header) → header_of writing f ≡ Ok h → be f 0 4 ≡ MAGIC }
    ensures least_cluster { (writing : Bool) (f : Bytes) (h : Header) → header_of writing f ≡ Ok h
        → MIN_CLUSTER_SIZE ≤ cluster_size h.fields }
    ensures greatest_cluster { (writing : Bool) (f : Bytes) (h : Header) → header_of writing f ≡ Ok h
        → cluster_size h.fields ≤ MAX_CLUSTER_SIZE }
    ensures least_width { (writing : Bool) (f : Bytes) (h : Header) → header_of writing f ≡ Ok h
        → MIN_REFCOUNT_WIDTH ≤ counter_bits h.fields }
    ensures greatest_width { (writing : Bool) (f : Bytes) (h : Header) → header_of writing f ≡ Ok h
        → counter_bits h.fields ≤ MAX_REFCOUNT_WIDTH }
    // The sizes of the disk and of the tables, and the offsets of the tables.
    ensures limited { (writing : Bool) (f : Bytes) (h : Header) → header_of writing f ≡ Ok h → Limited h.fields }
{}

/// Law: if an entry is an L1 entry, or an L2 entry that isn't compressed, its offset is at most `MAX_OFFSET`.
pub fn place_is_within_limit()
    ensures { (raw_entry : ℕ) → table_offset raw_entry ≤ MAX_OFFSET }
{}

/// Law: if two verdicts are true of an image, they are equal. A verdict is the result of a check: the leaks of a consistent image, or the
/// first finding (error). So a check never reports a finding in a consistent image, and never reports leaks of an image with a finding.
pub fn image_has_one_verdict()
    ensures { (f : Bytes) (a b : Result (List (ℕ × ℕ)) Finding) → IsVerdict f a → IsVerdict f b → a ≡ b }
{}

/// Law: the constants are those of the format: clusters of 2^9 to 2^21 bytes, refcounts of 2^0 to 2^6 bits, and offsets in bits 9 to 55.
pub fn limits_are_the_formats()
    ensures least_cluster { MIN_CLUSTER_SIZE ≡ 2 ^ 9 }
    ensures greatest_cluster { MAX_CLUSTER_SIZE ≡ 2 ^ 21 }
    ensures least_width { MIN_REFCOUNT_WIDTH ≡ 2 ^ 0 }
    ensures greatest_width { MAX_REFCOUNT_WIDTH ≡ 2 ^ 6 }
    ensures place { MAX_OFFSET ≡ 2 ^ 56 - 2 ^ 9 }
{}

/// Law: if refcounts fit their width and fill whole bytes, they are stored as `block_bytes`, and only as these bytes. Other refcounts can't
/// be stored.
pub fn counters_have_their_bytes()
    ensures packed { (order : ℕ) (counters : List ℕ) → ArePackable order counters → Packs order counters (block_bytes order counters) }
    ensures packable { (order : ℕ) (counters bytes : List ℕ) → Packs order counters bytes → ArePackable order counters }
    ensures only { (order : ℕ) (counters bytes : List ℕ) → Packs order counters bytes → bytes ≡ block_bytes order counters }
{}

/// Law: `block_bytes` gives the bytes of these examples: one refcount of 64 bits, two of 16 bits, and several of 8, 2 and 1 bits.
pub fn bytes_of_some_counters()
    ensures bits_64 { block_bytes 6 (0x0102_0304_0506_0708 ∷ []) ≡ 1 ∷ 2 ∷ 3 ∷ 4 ∷ 5 ∷ 6 ∷ 7 ∷ 8 ∷ [] }
    ensures bits_16 { block_bytes 4 (1 ∷ 0x1234 ∷ []) ≡ 0 ∷ 1 ∷ 0x12 ∷ 0x34 ∷ [] }
    ensures bits_8 { block_bytes 3 (1 ∷ 255 ∷ 3 ∷ []) ≡ 1 ∷ 255 ∷ 3 ∷ [] }
    ensures two_bits { block_bytes 1 (1 ∷ 2 ∷ 3 ∷ 0 ∷ 3 ∷ 0 ∷ 0 ∷ 1 ∷ []) ≡ 0x39 ∷ 0x43 ∷ [] }
    ensures one_bit { block_bytes 0 (1 ∷ 0 ∷ 1 ∷ 0 ∷ 0 ∷ 0 ∷ 0 ∷ 1 ∷ []) ≡ 0x85 ∷ [] }
{}
