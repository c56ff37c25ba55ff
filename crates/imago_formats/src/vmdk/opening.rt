// Opens the files of the extents, and checks that reads can reach the extents.
ghost use Rattle.std.specs.Prelude.{◌≡◌, ◌⊎◌, ◌<◌, ◌≤◌, ◌^◌, ◌++◌, ◌∷◌, [], is_some, length, map, slice_index_or, Ok, Err, IfErr, IfNone, IfSome, IsErr, IsFalse, IsTrue, OnOk};
ghost use Rattle.std.specs.Option.{option_map, option_to_list};
ghost use Rattle.std.specs.String.{string_bytes};
ghost use Rattle.imago_storage.specs.Through.{round_up};
ghost use Rattle.imago_storage.specs.declared.fault.Fault.TheVariants.{DamagedDescriptor, Memory};
ghost use Rattle.imago_formats.specs.DescriptorView.{kept_names};
ghost use Rattle.imago_formats.specs.VmdkLayer.{AreInReach, end_in_file, files_asked, has_file, name_in};
ghost use Rattle.imago_formats.specs.VmdkOpening.{OpensNext, StopsOpening};

use crate::vmdk::descriptor::{Access, Extent, Source};
use imago_access::ImplicitOpenGate;
use imago_storage::{Fault, padded_end};
use std::alloc::Global;

/// Opens the missing files of the extents by their names, in order.
///
/// # Errors
///
/// - An error of the gate.
/// - `Fault::Memory` if memory for a file's entry runs out. The gate isn't called for that file.
///
/// # On error
///
/// Files that were opened remain open.
pub(crate) fn open_files<S: Drop, G: ImplicitOpenGate<S>>(
    alloc: Global,
    gate: &mut G,
    extents: &[Extent<String>],
    files: &mut Vec<S>,
) -> Result<(), Fault>
    ensures all { OnOk result (files_asked extents.now ≤ length files.new.items) }
    ensures opens { let names = kept_names extents.now in
        OnOk result (OpensNext G.answers names (files.old.items, gate.old) (files.new.items, gate.new)) }
    ensures err { let names = kept_names extents.now in
        IfErr result (StopsOpening G.answers names (files.old.items, gate.old) (files.new.items, gate.new)) }
{
    let mut number = 0;
    for extent in extents {
        let name = match file_name(extent) {
            Some(name) => name,
            None => continue,
        };
        number += 1;
        if number <= files.len() {
            continue;
        }
        open_file(alloc, gate, name, files)?;
    }
    Ok(())
}

// Opens one more file. Memory for its entry is reserved first, so that no file is opened in vain.
fn open_file<S: Drop, G: ImplicitOpenGate<S>>(
    alloc: Global,
    gate: &mut G,
    name: &str,
    files: &mut Vec<S>,
) -> Result<(), Fault>
    ensures ok { OnOk result
        ((file : S) × (files.new.items ≡ files.old.items ++ file ∷ []) × G.answers gate.old name.now (Ok file) gate.new) }
    ensures err { IfErr result (λ e. ((e ≡ Memory) × (gate.new ≡ gate.old)) ⊎ G.answers gate.old name.now (Err e) gate.new) }
    ensures unchanged_on_error { IsErr result → files.new.items ≡ files.old.items }
{
    match files.reserve(1) {
        Ok(()) => {}
        Err(_) => return Err(Fault::Memory),
    }
    let file = gate.open_storage(alloc, name)?;
    files.push_reserved(file);
    Ok(())
}

// Returns the name of the file that an extent needs.
fn file_name(extent: &Extent<String>) -> Option<&str>
    ensures some_if_file { is_some result ≡ has_file extent.now }
    ensures name { option_to_list (option_map (λ name. name.now) result)
        ≡ map (λ name. string_bytes name) (name_in extent.now.access extent.now.source) }
{
    match extent.access {
        Access::NoAccess => None,
        Access::ReadWrite | Access::ReadOnly => match &extent.source {
            Source::Flat { name, .. } => Some(name.as_str()),
            Source::Zero => None,
        },
    }
}

/// Returns the name of the file with `before` files before it, or an empty text.
pub(crate) fn name_of(extents: &[Extent<String>], before: usize) -> &str
    ensures { result.now ≡ slice_index_or (kept_names extents.now) before [] }
{
    let mut left = before;
    for extent in extents {
        let name = match file_name(extent) {
            Some(name) => name,
            None => continue,
        };
        if left == 0 {
            return name;
        }
        left -= 1;
    }
    ""
}

/// Checks that reads padded to whole units can reach the end of each extent in its file.
pub(crate) fn check_reach(extents: &[Extent<String>], unit: u64) -> Result<(), Fault>
    requires { 0 < unit }
    ensures ok { OnOk result (AreInReach unit extents.now) }
    ensures err { IfErr result (λ e. (e ≡ DamagedDescriptor) × (AreInReach unit extents.now → ⊥)) }
{
    for extent in extents {
        if !is_addressable(extent, unit) {
            return Err(Fault::DamagedDescriptor);
        }
    }
    Ok(())
}

// Returns true if reads padded to whole units can reach the end of one extent.
fn is_addressable(extent: &Extent<String>, unit: u64) -> bool
    requires { 0 < unit }
    ensures yes { IsTrue result → round_up unit (end_in_file extent.now.access extent.now.source extent.now.sectors) < 2 ^ 64 }
    ensures no { IsFalse result → 2 ^ 64 ≤ round_up unit (end_in_file extent.now.access extent.now.source extent.now.sectors) }
{
    match end_of(extent) {
        Some(end) => padded_end(end, 0, unit).is_some(),
        None => false,
    }
}

// Returns the end of an extent in its file, in bytes, if it is below 2^64. An extent without a file ends at 0.
fn end_of(extent: &Extent<String>) -> Option<u64>
    ensures end_if_some { IfSome result (λ n. n ≡ end_in_file extent.now.access extent.now.source extent.now.sectors) }
    ensures none { IfNone result (2 ^ 64 ≤ end_in_file extent.now.access extent.now.source extent.now.sectors) }
{
    match extent.access {
        Access::NoAccess => Some(0),
        Access::ReadWrite | Access::ReadOnly => match extent.source {
            Source::Flat { sector, .. } => sector.checked_add(extent.sectors)?.checked_mul(512),
            Source::Zero => Some(0),
        },
    }
}
