// Parses a whole descriptor.
ghost use Rattle.std.specs.Prelude.{◌≡◌, ◌⊎◌, ◌<◌, ◌^◌, ◌≤◌, ◌++◌, ◌∷◌, [], ℕ, length, drop, map, slice_index_or, IfOk, IfErr, OnOk, Ok, Err};
ghost use Rattle.std.specs.Option.{option_to_list};
ghost use Rattle.std.specs.Str.{bytes_eq};
ghost use Rattle.std.specs.Str.Lines.{lines, strip_carriage_return};
ghost use Rattle.imago_storage.specs.declared.fault.Fault.TheVariants.{Memory, DamagedDescriptor};
ghost use Rattle.imago_formats.specs.Descriptor.{extents_of, read_from, said_by, signature, size_of};
ghost use Rattle.imago_formats.specs.DescriptorView.{AddsLine, kept_extent, kept_extents, seen_extent};

use crate::vmdk::descriptor::{Extent, Source};
use crate::vmdk::disk::Disk;
use crate::vmdk::lines::read_line;
use crate::vmdk::words::{byte_at, text_of};
use imago_storage::Fault;
use std::alloc::Global;

/// The greatest size of a descriptor in bytes.
pub(crate) const MOST_BYTES: usize = 1 << 20;

// The first line of every descriptor.
const SIGNATURE: &[u8] = b"# Disk DescriptorFile";

/// Parses a text, and returns the disk of its extents.
#[tactic(auto, using(crate::specs::VmdkLaws::size_kept))]
pub(crate) fn read_text(alloc: Global, text: &[u8]) -> Result<Disk, Fault>
    ensures ok { IfOk result (λ d. read_from text.now ≡ Ok (kept_extents d.extents.items)) }
    ensures err { IfErr result (λ e. (e ≡ Memory) ⊎ (read_from text.now ≡ Err e)) }
{
    text_of(text)?;
    let (first, rest) = split_line(text);
    if text.len() > MOST_BYTES || !is_signature(first) {
        return Err(Fault::DamagedDescriptor);
    }
    let extents = read_lines(alloc, rest)?;
    Disk::new(extents)
}

/// Returns true if the line is the first of a descriptor.
pub(crate) fn is_signature(line: &[u8]) -> bool
    ensures { result ≡ bytes_eq line.now signature }
{
    line == SIGNATURE
}

// Parses lines, and returns their extents in order.
fn read_lines(alloc: Global, text: &[u8]) -> Result<Vec<Extent<String>>, Fault>
    ensures ok { IfOk result (λ xs. extents_of (lines text.now) ≡ Ok (kept_extents xs.items)) }
    ensures err { IfErr result (λ e. (e ≡ Memory) ⊎ (extents_of (lines text.now) ≡ Err e)) }
{
    let mut extents = Vec::new(alloc);
    let mut rest = text;
    while !rest.is_empty() {
        let (line, more) = split_line(rest);
        add_line(alloc, &mut extents, line)?;
        rest = more;
    }
    Ok(extents)
}

// Appends the extent that a line describes, if any.
fn add_line(alloc: Global, extents: &mut Vec<Extent<String>>, line: &[u8]) -> Result<(), Fault>
    ensures ok { OnOk result (AddsLine line.now (kept_extents extents.old.items) (kept_extents extents.new.items)) }
    ensures err { IfErr result (λ e. (e ≡ Memory) ⊎ (said_by line.now ≡ Err e)) }
{
    let extent = match read_line(line)? {
        Some(extent) => extent,
        None => return Ok(()),
    };
    let kept = keep(alloc, extent)?;
    match extents.push(kept) {
        Ok(()) => Ok(()),
        Err(_) => Err(Fault::Memory),
    }
}

// Copies an extent with its file's name.
fn keep(alloc: Global, extent: Extent<&str>) -> Result<Extent<String>, Fault>
    ensures ok { IfOk result (λ x. kept_extent x ≡ seen_extent extent.entry) }
    ensures err { IfErr result (λ e. e ≡ Memory) }
{
    let Extent {
        access,
        sectors,
        source,
    } = extent;
    let source = match source {
        Source::Zero => Source::Zero,
        Source::Flat { name, sector } => match String::from_str(alloc, name) {
            Ok(name) => Source::Flat { name, sector },
            Err(_) => return Err(Fault::Memory),
        },
    };
    Ok(Extent {
        access,
        sectors,
        source,
    })
}

/// Returns the first line of a text without its end, and the text after it.
pub(crate) fn split_line(text: &[u8]) -> (&[u8], &[u8])
    ensures first { result.0.now ≡ slice_index_or (lines text.now) 0 [] }
    ensures remainder { lines result.1.now ≡ drop 1 (lines text.now) }
    ensures whole { 0 < length text.now → lines text.now ≡ result.0.now ∷ lines result.1.now }
    ensures shorter { 0 < length text.now → length result.1.now < length text.now }
{
    let end = byte_at(text, b'\n');
    if end == text.len() {
        return text.split_at(end);
    }
    let line = text.split_at(end).0;
    let rest = text.split_at(end + 1).1;
    (without_return(line), rest)
}

// Returns a line without the carriage return at its end.
fn without_return(line: &[u8]) -> &[u8]
    ensures { result.now ≡ strip_carriage_return line.now }
{
    if line.is_empty() || line[line.len() - 1] != b'\r' {
        return line;
    }
    &line[..line.len() - 1]
}
