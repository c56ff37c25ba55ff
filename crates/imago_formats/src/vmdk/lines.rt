// Parses one line of a descriptor.
ghost use Rattle.std.specs.Prelude.{◌≡◌, IfOk, IfErr, Ok, Err, option_map};
ghost use Rattle.imago_formats.specs.Descriptor.{access_of, extent_of, flat_of, in_file, is_carried, is_skipped, named, said_by, sector_of, setting_of, source_of};
ghost use Rattle.imago_formats.specs.DescriptorView.{seen_extent, seen_source};

use crate::vmdk::descriptor::{Access, Extent, Source};
use crate::vmdk::words::{
    begins_blank, begins_with, byte_at, decimal, is_word, past_blanks, split_word, text_of,
};
use imago_storage::Fault;

/// Parses a line. Returns its extent, if it describes one.
pub(crate) fn read_line(line: &[u8]) -> Result<Option<Extent<&str>>, Fault>
    ensures ok { IfOk result (λ found. said_by line.now ≡ Ok (option_map seen_extent found)) }
    ensures err { IfErr result (λ e. said_by line.now ≡ Err e) }
{
    let text = past_blanks(line);
    if is_skipped(text) {
        return Ok(None);
    }
    let (first, rest) = split_word(text);
    match access_of(first) {
        Some(access) => Ok(Some(read_extent(access, rest)?)),
        None => {
            check_setting(text)?;
            Ok(None)
        }
    }
}

// Returns true if the text is empty or a comment.
fn is_skipped(text: &[u8]) -> bool
    ensures { result ≡ is_skipped text.now }
{
    text.is_empty() || begins_with(b'#', text)
}

// Parses an access keyword.
fn access_of(word: &[u8]) -> Option<Access>
    ensures { result ≡ access_of word.now }
{
    if word == b"RW".as_slice() {
        return Some(Access::ReadWrite);
    }
    if word == b"RDONLY".as_slice() {
        return Some(Access::ReadOnly);
    }
    if word == b"NOACCESS".as_slice() {
        return Some(Access::NoAccess);
    }
    None
}

// Parses an extent, from the text after its access keyword.
fn read_extent(access: Access, text: &[u8]) -> Result<Extent<&str>, Fault>
    ensures ok { IfOk result (λ x. extent_of access text.now ≡ Ok (seen_extent x)) }
    ensures err { IfErr result (λ e. extent_of access text.now ≡ Err e) }
{
    let (count, rest) = split_word(text);
    let sectors = decimal(count)?;
    let source = read_source(sectors, rest)?;
    Ok(Extent {
        access,
        sectors,
        source,
    })
}

// Parses the source of an extent, from the text after its number of sectors.
fn read_source(sectors: u64, text: &[u8]) -> Result<Source<&str>, Fault>
    ensures ok { IfOk result (λ x. source_of sectors text.now ≡ Ok (seen_source x)) }
    ensures err { IfErr result (λ e. source_of sectors text.now ≡ Err e) }
{
    let (kind, rest) = split_word(text);
    if kind == b"FLAT".as_slice() {
        return read_file(sectors, rest);
    }
    if kind == b"ZERO".as_slice() {
        if rest.is_empty() {
            return Ok(Source::Zero);
        }
        return Err(Fault::DamagedDescriptor);
    }
    if kind.is_empty() {
        return Err(Fault::DamagedDescriptor);
    }
    Err(Fault::Unsupported)
}

// Parses the file name and the sector, from the text after the type.
fn read_file(sectors: u64, text: &[u8]) -> Result<Source<&str>, Fault>
    ensures ok { IfOk result (λ x. flat_of sectors text.now ≡ Ok (seen_source x)) }
    ensures err { IfErr result (λ e. flat_of sectors text.now ≡ Err e) }
{
    if !begins_with(b'"', text) {
        return Err(Fault::DamagedDescriptor);
    }
    read_quoted(sectors, &text[1..])
}

// Parses the file name and the sector, from the text after the opening quote.
fn read_quoted(sectors: u64, text: &[u8]) -> Result<Source<&str>, Fault>
    ensures ok { IfOk result (λ x. named sectors text.now ≡ Ok (seen_source x)) }
    ensures err { IfErr result (λ e. named sectors text.now ≡ Err e) }
{
    let end = byte_at(text, b'"');
    if end == text.len() {
        return Err(Fault::DamagedDescriptor);
    }
    let name = text_of(&text[..end])?;
    let sector = read_sector(&text[end + 1..])?;
    in_file(name, sectors, sector)
}

// Parses the sector with the first byte of the extent, from the text after the closing quote.
fn read_sector(text: &[u8]) -> Result<u64, Fault>
    ensures { result ≡ sector_of text.now }
{
    let rest = past_blanks(text);
    if rest.is_empty() {
        return Ok(0);
    }
    let (digits, more) = split_word(rest);
    if begins_blank(text) && more.is_empty() {
        return decimal(digits);
    }
    Err(Fault::DamagedDescriptor)
}

// Returns these sectors of a file, if their bytes end below 2^64.
fn in_file(name: &str, sectors: u64, sector: u64) -> Result<Source<&str>, Fault>
    ensures ok { IfOk result (λ x. in_file name.now sectors sector ≡ Ok (seen_source x)) }
    ensures err { IfErr result (λ e. in_file name.now sectors sector ≡ Err e) }
{
    match sector.checked_add(sectors) {
        Some(end) if end <= u64::MAX / 512 => Ok(Source::Flat { name, sector }),
        _ => Err(Fault::DamagedDescriptor),
    }
}

// Checks that a line that describes no extent is a supported setting.
fn check_setting(text: &[u8]) -> Result<(), Fault>
    ensures ok { IfOk result (λ _. setting_of text.now ≡ Ok None) }
    ensures err { IfErr result (λ e. setting_of text.now ≡ Err e) }
{
    let end = byte_at(text, b'=');
    if end == text.len() {
        return Err(Fault::DamagedDescriptor);
    }
    if !is_carried(&text[..end], past_blanks(&text[end + 1..])) {
        return Err(Fault::Unsupported);
    }
    Ok(())
}

// Returns true if the key may have this value.
fn is_carried(key: &[u8], value: &[u8]) -> bool
    ensures { result ≡ is_carried key.now value.now }
{
    if is_word(b"version", key) {
        return is_word(b"1", value) || is_word(b"2", value) || is_word(b"3", value);
    }
    if is_word(b"parentCID", key) {
        let (id, rest) = split_word(value);
        return id.eq_ignore_ascii_case(b"ffffffff") && rest.is_empty();
    }
    true
}
