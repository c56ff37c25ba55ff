//! Laws (functions without code whose contracts are theorems) on writing cached metadata to the image file. In each law f is the file, and
//! g is the file with all dirty L2 entries and refcounts of the caches written to it. The laws don't say how the caches are organised.
//! Definitions: specs/Versions.antt.

ghost use Rattle.std.specs.Prelude.{◌≡◌, ◌≤◌, ◌+◌, ◌⊎◌, ℕ};
ghost use Rattle.imago_storage.specs.Disk.{Value};
ghost use Rattle.qcow2_types.specs.Bytes.{Bytes};
ghost use Rattle.qcow2_types.specs.Header.{Fields};
ghost use Rattle.qcow2_types.specs.Entries.{l2_table};
ghost use Rattle.qcow2_types.specs.Counts.{count};
ghost use Rattle.qcow2_types.specs.References.{contents, of_mapping, of_copied, meets, refs};
ghost use Rattle.qcow2_types.specs.Disk.{shown};
ghost use Rattle.qcow2_types.specs.Slots.{slot, Live};
ghost use Rattle.qcow2_types.specs.Frames.{ShowsAs};
ghost use Rattle.qcow2_types.specs.Versions.{of_either, references_in_either, copied, ReferencedOnce, SamePlaces, IsBetween, KeepsSlots, ChangesSlot, BlocksFirst, TablesFirst};

/// Law: if each L2 entry of a file x means the same as in f or the same as in g, x has no references that neither f nor g has.
///
/// Each cluster has at most as many references in x as f and g have together, if an entry counts once for both. Each cluster also has at
/// most as many references with the COPIED flag in x as f and g have together. If x replaces f, the references of x and g together don't
/// increase. Clusters of the structure (header, tables, refcount blocks) and COPIED clusters that were referenced once still are. If each
/// guest cluster reads in x as in f or as in g, so does each guest byte. If no entry differs, f and g together have the references of f.
pub fn a_file_between_two_versions()
    ensures references { (f x g : Bytes) (h : Fields) (c : ℕ) → IsBetween f x g h → refs x h c ≤ references_in_either f g h c }
    ensures copied_references { (f x g : Bytes) (h : Fields) → IsBetween f x g h → (c : ℕ) → contents x h (of_copied h (meets h c)) ≤ copied f g h c }
    ensures falls { (f x g : Bytes) (h : Fields) (c : ℕ) → IsBetween f x g h → references_in_either x g h c ≤ references_in_either f g h c }
    ensures apart { (f x g : Bytes) (h : Fields) → IsBetween f x g h → ReferencedOnce f g h → ReferencedOnce x g h }
    ensures shows { (f x g external : Bytes) (h : Fields) → ((guest : ℕ) → ShowsAs x f h guest ⊎ ShowsAs x g h guest)
        → (p : ℕ) (below : Value)
        → (shown x external h p below ≡ shown f external h p below) ⊎ (shown x external h p below ≡ shown g external h p below) }
    ensures clean { (f g : Bytes) (h : Fields) (c : ℕ) → ((i j : ℕ) → Live (l2_table f h) h i j → slot g h i j ≡ slot f h i j)
        → references_in_either f g h c ≡ refs f h c }
{}

/// Law: if one L2 entry changes in memory, references change only by this entry.
///
/// The references of both versions together change by what the entry references in either version. The references in memory change by what
/// its old and its new value reference.
pub fn changing_an_entry_in_memory()
    ensures either { (f g new : Bytes) (h : Fields) (i j c : ℕ) → ChangesSlot f g new h i j
        → references_in_either f new h c + of_either h (meets h c) (slot f h i j) (slot g h i j)
        ≡ references_in_either f g h c + of_either h (meets h c) (slot f h i j) (slot new h i j) }
    ensures memory { (f g new : Bytes) (h : Fields) (i j c : ℕ) → SamePlaces f g h → SamePlaces f new h → ChangesSlot f g new h i j
        → refs new h c + of_mapping h (meets h c) (slot g h i j) ≡ refs g h c + of_mapping h (meets h c) (slot new h i j) }
{}

/// Law: if L2 tables and refcount blocks are written in the order of the caches' dependency, the invariant of the refcounts (`BlocksFirst`
/// or `TablesFirst`) still holds. The file after the write is x.
///
/// If blocks are written first, a table can be written once no refcount differs, and a block at any time. If tables are written first, a
/// table can be written at any time. A block can be written once no entry differs and the refcounts in memory cover the references in
/// memory. If neither depends on the other, both invariants hold, and tables and blocks can be written at any time.
pub fn writing_in_order()
    ensures table_after_blocks { (f x g : Bytes) (h : Fields) → BlocksFirst f g h → ((c : ℕ) → count g h c ≡ count f h c)
        → IsBetween f x g h
        → ((c : ℕ) → count x h c ≡ count f h c) → BlocksFirst x g h }
    ensures block_before_tables { (f x g : Bytes) (h : Fields) → BlocksFirst f g h → KeepsSlots f x h
        → ((c : ℕ) → (count x h c ≡ count f h c) ⊎ (count x h c ≡ count g h c)) → BlocksFirst x g h }
    ensures table_before_blocks { (f x g : Bytes) (h : Fields) → TablesFirst f g h → IsBetween f x g h
        → ((c : ℕ) → count x h c ≡ count f h c) → TablesFirst x g h }
    ensures block_after_tables { (f x g : Bytes) (h : Fields) → TablesFirst f g h → KeepsSlots f g h → ((c : ℕ) → refs g h c ≤ count g h c)
        → KeepsSlots f x h
        → ((c : ℕ) → (count x h c ≡ count f h c) ⊎ (count x h c ≡ count g h c)) → TablesFirst x g h }
    ensures table_without_order { (f x g : Bytes) (h : Fields) → BlocksFirst f g h → TablesFirst f g h → IsBetween f x g h
        → ((c : ℕ) → count x h c ≡ count f h c) → BlocksFirst x g h }
    ensures block_without_order { (f x g : Bytes) (h : Fields) → BlocksFirst f g h → TablesFirst f g h → KeepsSlots f x h
        → ((c : ℕ) → (count x h c ≡ count f h c) ⊎ (count x h c ≡ count g h c)) → TablesFirst x g h }
{}

/// Law: if no refcount differs between the file and memory, refcount blocks can depend on L2 tables (tables are written first). If no L2
/// entry differs, and the refcounts in memory cover the references in memory, tables can depend on blocks.
pub fn changing_the_order()
    ensures tables_first { (f g : Bytes) (h : Fields) → BlocksFirst f g h → ((c : ℕ) → count g h c ≡ count f h c) → TablesFirst f g h }
    ensures blocks_first { (f g : Bytes) (h : Fields) → TablesFirst f g h → KeepsSlots f g h → ((c : ℕ) → refs g h c ≤ count g h c)
        → BlocksFirst f g h }
{}
