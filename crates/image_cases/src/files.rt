// Writes the fields of a header, raw entries and refcounts to a file.
use crate::values::value;
use cases::Trouble;
use imago_storage::{MemStorage, StorageExt};
use std::alloc::Global;

/// A field of a header: its name, its offset, its width in bytes, and its default.
type Field = (&'static str, u64, usize, u64);

// The defaults: version 3, clusters of 512 bytes, 16-bit refcounts, a disk of 65,536 bytes, the refcount table in cluster 1, and an L1
// table with two entries in cluster 3.
const FIELDS: [Field; 18] = [
    ("magic", 0, 4, 0x5146_49fb),
    ("version", 4, 4, 3),
    ("backing_offset", 8, 8, 0),
    ("backing_length", 16, 4, 0),
    ("cluster_bits", 20, 4, 9),
    ("size", 24, 8, 65_536),
    ("encryption", 32, 4, 0),
    ("l1_entries", 36, 4, 2),
    ("l1_offset", 40, 8, 1_536),
    ("refcount_table_offset", 48, 8, 512),
    ("refcount_table_clusters", 56, 4, 1),
    ("snapshots", 60, 4, 0),
    ("snapshots_offset", 64, 8, 0),
    ("incompatible", 72, 8, 0),
    ("compatible", 80, 8, 0),
    ("autoclear", 88, 8, 0),
    ("refcount_order", 96, 4, 4),
    ("header_length", 100, 4, 104),
];

// Writes the low `width` bytes of a number at an offset, in big-endian order.
fn put_number(
    image: &mut MemStorage,
    alloc: Global,
    place: u64,
    width: usize,
    value: u64,
) -> Result<(), Trouble> {
    let bytes = value.to_be_bytes();
    let skipped = 8usize.checked_sub(width).ok_or(Trouble::NoCall)?;
    let lowest = bytes.get(skipped..).ok_or(Trouble::NoCall)?;
    Ok(image.write(alloc, lowest, place)?)
}

/// Writes raw entries of 64 bits from offset `place` on.
///
/// # Errors
///
/// - `Trouble::NoCall` if a value isn't a number.
/// - `Trouble::Refused` if memory runs out.
pub fn put_words(
    image: &mut MemStorage,
    alloc: Global,
    place: u64,
    words: &[&str],
) -> Result<(), Trouble> {
    let mut at = place;
    for word in words.iter() {
        put_number(image, alloc, at, 8, value(word)?)?;
        at = at.wrapping_add(8);
    }
    Ok(())
}

/// Writes `count` raw entries of 64 bits from offset `place` on. The first is `first`, and each next one is greater by `step`.
///
/// # Errors
///
/// - `Trouble::Refused` if memory runs out.
pub fn put_row(
    image: &mut MemStorage,
    alloc: Global,
    place: u64,
    count: u64,
    (first, step): (u64, u64),
) -> Result<(), Trouble> {
    let mut word = first;
    let mut at = place;
    for _ in 0..count {
        put_number(image, alloc, at, 8, word)?;
        word = word.wrapping_add(step);
        at = at.wrapping_add(8);
    }
    Ok(())
}

// Returns the field of a header with this name.
fn field_of(name: &str) -> Result<Field, Trouble> {
    for field in FIELDS {
        if field.0 == name {
            return Ok(field);
        }
    }
    Err(Trouble::NoCall)
}

/// Sets fields of a header, each by a text `NAME=VALUE`.
///
/// # Errors
///
/// - `Trouble::NoCall` if a text doesn't have the name of a field and a number.
/// - `Trouble::Refused` if memory runs out.
pub fn put_fields(image: &mut MemStorage, alloc: Global, words: &[&str]) -> Result<(), Trouble> {
    for word in words.iter() {
        let (name, number) = word.split_once("=").ok_or(Trouble::NoCall)?;
        let (_, place, width, _) = field_of(name)?;
        put_number(image, alloc, place, width, value(number)?)?;
    }
    Ok(())
}

/// Writes a header of 104 bytes. Its fields are the defaults of `FIELDS`, except those that `words` set.
///
/// # Errors
///
/// Like `put_fields`.
pub fn put_header(image: &mut MemStorage, alloc: Global, words: &[&str]) -> Result<(), Trouble> {
    for (_, place, width, usual) in FIELDS {
        put_number(image, alloc, place, width, usual)?;
    }
    put_fields(image, alloc, words)
}

/// Writes a header like `put_header`, and the tables of a small image. The refcount block is cluster 2, in which clusters 0 to 6 have
/// refcount 1. The L2 table is cluster 4, and the data is in clusters 5 and 6.
///
/// # Errors
///
/// Like `put_fields`.
pub fn put_small(image: &mut MemStorage, alloc: Global, words: &[&str]) -> Result<(), Trouble> {
    put_header(image, alloc, words)?;
    put_words(image, alloc, 512, &["0x400"])?;
    put_words(
        image,
        alloc,
        1024,
        &["0x0001000100010001", "0x0001000100010000"],
    )?;
    put_words(image, alloc, 1536, &["copied+0x800"])?;
    put_words(image, alloc, 2048, &["copied+0xa00", "copied+0xc00"])
}

// Sets a refcount of less than 8 bits, which begins `bit` bits after offset `place`.
fn put_narrow(
    image: &mut MemStorage,
    alloc: Global,
    (place, bit): (u64, u64),
    width: u64,
    count: u64,
) -> Result<(), Trouble> {
    let at = place.wrapping_add(bit / 8);
    let below = bit % 8;
    let mut byte = [0u8];
    image.read(alloc, &mut byte, at)?;
    let ones = match width {
        1 => 1u64,
        2 => 3,
        _ => 15,
    };
    let mask = ones << below;
    let others = u64::from(byte[0]) & !mask;
    let [.., lowest] = (others | (count << below) & mask).to_be_bytes();
    Ok(image.write(alloc, &[lowest], at)?)
}

/// Sets a refcount of `width` bits in the block at offset `block`.
///
/// # Errors
///
/// - `Trouble::NoCall` if no refcount has this width.
/// - `Trouble::Refused` if memory runs out.
pub fn put_counter(
    image: &mut MemStorage,
    alloc: Global,
    (width, block): (u64, u64),
    index: u64,
    count: u64,
) -> Result<(), Trouble> {
    let bit = index.wrapping_mul(width);
    let place = block.wrapping_add(bit / 8);
    match width {
        1 | 2 | 4 => put_narrow(image, alloc, (block, bit), width, count),
        8 => put_number(image, alloc, place, 1, count),
        16 => put_number(image, alloc, place, 2, count),
        32 => put_number(image, alloc, place, 4, count),
        64 => put_number(image, alloc, place, 8, count),
        _ => Err(Trouble::NoCall),
    }
}
