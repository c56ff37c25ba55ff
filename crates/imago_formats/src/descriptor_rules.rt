//! Laws on the text of VMDK descriptors: examples, and the form of the lines that describe an extent or a setting. A law is a function
//! without code whose contract is a theorem.

ghost use Rattle.std.specs.Prelude.{◌≡◌, ◌++◌, ◌∷◌, [], ℕ, List, Option, Some, None, Ok, Err, codes, map};
ghost use Rattle.std.specs.List.{filter_map};
ghost use Rattle.imago_storage.specs.declared.fault.Fault.{Fault};
ghost use Rattle.imago_storage.specs.declared.fault.Fault.TheVariants.{DamagedDescriptor, Unsupported};
ghost use Rattle.imago_formats.specs.Descriptor.{descriptor_of, extents_of, said_by, size_of};
ghost use Rattle.imago_formats.specs.DescriptorLines.{IsExtentLine};
ghost use Rattle.imago_formats.specs.RefusedLines.{IsAccessLine, IsOtherExtent};
ghost use Rattle.imago_formats.specs.SettingLines.{HasNoSign, IsCarriedSetting, IsOtherLine, IsSettingLine, IsSilent};
ghost use Rattle.imago_formats.specs.WorkedDescriptor.{descriptor_with, extent, other_extents, other_text, quoted, two_extents, two_sectors};
ghost use Rattle.imago_formats.specs.declared.vmdk.descriptor.Access.TheVariants.{ReadWrite};
ghost use Rattle.imago_formats.specs.declared.vmdk.descriptor.Source.TheVariants.{Zero};
ghost use Rattle.imago_formats.specs.declared.vmdk.descriptor.Extent.{Extent};

/// Law: if a file has one of the example texts, it is a valid descriptor with the stated extents. One text has two extents, one has every
/// other allowed form, and one has no line after the first.
pub fn worked_descriptors()
    ensures two { descriptor_of two_sectors ≡ Ok two_extents }
    ensures size { size_of two_extents ≡ 1024 }
    ensures other { descriptor_of other_text ≡ Ok other_extents }
    ensures none { descriptor_of (descriptor_with []) ≡ Ok [] }
{}

/// Law: if a file has one of the example texts with a wrong first line, an unsupported setting or an unknown line, it fails with the stated
/// error.
pub fn refused_settings()
    ensures first_line { descriptor_of (codes "# Disk DescriptorFile " ++ 10 ∷ []) ≡ Err DamagedDescriptor }
    ensures version { descriptor_of (descriptor_with (codes "version=4" ∷ [])) ≡ Err Unsupported }
    ensures in_quotes { descriptor_of (descriptor_with ((codes "version=" ++ quoted (codes "1")) ∷ [])) ≡ Err Unsupported }
    ensures parent { descriptor_of (descriptor_with (codes "parentCID=fffffffe" ∷ [])) ≡ Err Unsupported }
    ensures neither { descriptor_of (descriptor_with (codes "what" ∷ [])) ≡ Err DamagedDescriptor }
{}

/// Law: if a file has one of the example texts with an invalid extent, it fails with the stated error. Each line is checked from left to
/// right, and the first line with a fault decides. The size of the disk is checked last. The example with the largest extent is valid.
pub fn refused_extents()
    ensures other_type { descriptor_of (descriptor_with (codes "RW 1 SPARSE" ∷ codes "what" ∷ [])) ≡ Err Unsupported }
    ensures count { descriptor_of (descriptor_with (codes "RW x SPARSE" ∷ [])) ≡ Err DamagedDescriptor }
    ensures more { descriptor_of (descriptor_with (codes "RW 1 ZERO 0" ∷ [])) ≡ Err DamagedDescriptor }
    ensures unquoted { descriptor_of (descriptor_with (codes "RW 1 FLAT a" ∷ [])) ≡ Err DamagedDescriptor }
    ensures largest { descriptor_of (descriptor_with (codes "RW 18014398509481983 ZERO" ∷ []))
        ≡ Ok (extent ReadWrite 18014398509481983 Zero ∷ []) }
    ensures too_large { descriptor_of (descriptor_with (codes "RW 18014398509481983 ZERO" ∷ codes "RW 1 ZERO" ∷ []))
        ≡ Err DamagedDescriptor }
{}

/// Law: if all lines after the first one are valid, the disk has their extents in order. Otherwise the first invalid line decides the
/// error.
pub fn lines_in_order()
    ensures all { (found : List (Option (Extent (List ℕ)))) (lines : List (List ℕ)) → map said_by lines ≡ map (λ o. Ok o) found
        → extents_of lines ≡ Ok (filter_map (λ o. o) found) }
    ensures first { (found : List (Option (Extent (List ℕ)))) (before rest : List (List ℕ)) (line : List ℕ) (fault : Fault)
        → map said_by before ≡ map (λ o. Ok o) found → said_by line ≡ Err fault → extents_of (before ++ line ∷ rest) ≡ Err fault }
{}

/// Law: a line describes an extent exactly if it has the form of `IsExtentLine`. Any other line that begins with an access keyword is an
/// error: unsupported if its number of sectors is followed by another extent type, and damaged otherwise.
pub fn extent_lines()
    ensures read { (x : Extent (List ℕ)) (line : List ℕ) → said_by line ≡ Ok (Some x) → IsExtentLine x line }
    ensures made { (x : Extent (List ℕ)) (line : List ℕ) → IsExtentLine x line → said_by line ≡ Ok (Some x) }
    ensures uncarried { (line : List ℕ) → IsOtherExtent line → said_by line ≡ Err Unsupported }
    ensures damaged { (line : List ℕ) → IsAccessLine line → ((x : Extent (List ℕ)) → IsExtentLine x line → ⊥) → (IsOtherExtent line → ⊥)
        → said_by line ≡ Err DamagedDescriptor }
{}

/// Law: if a line is blank or a comment, it is ignored. If it is a setting, its key and value decide if it is supported. If it has no
/// equals sign and describes no extent, it is damaged.
pub fn setting_lines()
    ensures silent { (line : List ℕ) → IsSilent line → said_by line ≡ Ok None }
    ensures carried { (key value line : List ℕ) → IsSettingLine key value line → IsCarriedSetting key value → said_by line ≡ Ok None }
    ensures uncarried { (key value line : List ℕ) → IsSettingLine key value line → (IsCarriedSetting key value → ⊥)
        → said_by line ≡ Err Unsupported }
    ensures neither { (text line : List ℕ) → IsOtherLine text line → HasNoSign text → said_by line ≡ Err DamagedDescriptor }
{}
