//! Laws (functions without code whose contracts are theorems) that compute the format's definitions for one small image, byte for byte. Its
//! disk has 65,536 bytes, in clusters of 512, and 01 02 03 was written at guest offset 510. Read them as examples of the definitions.

ghost use Rattle.std.specs.Prelude.{◌≡◌, ◌+◌, ◌^◌, [], ◌∷◌, Ok, Err, None, map, true, false};
ghost use Rattle.imago_storage.specs.Disk.{byte, barred};
ghost use Rattle.imago_storage.specs.declared.fault.Fault.TheVariants.{DamagedHeader, Unsupported, Limit};
ghost use Rattle.qcow2_types.specs.Words.{data_at, unmapped, zeroes, packed, damaged};
ghost use Rattle.qcow2_types.specs.Header.{header_of};
ghost use Rattle.qcow2_types.specs.Entries.{entry};
ghost use Rattle.qcow2_types.specs.Counts.{count};
ghost use Rattle.qcow2_types.specs.References.{refs};
ghost use Rattle.qcow2_types.specs.Consistency.{IsConsistent, IsVerdict, leaks};
ghost use Rattle.qcow2_types.specs.Consistency.Finding.{header, snapshots, external, table, shared_table, under_counted, false_copied};
ghost use Rattle.qcow2_types.specs.Disk.{at, qcow2, raw};
ghost use Rattle.qcow2_types.specs.WorkedImage.{of_pieces, image, image_fields, image_header, with_bytes, header_with_features, fields_with_order, older_fields, older_header, written_bytes};

/// Law: the image is consistent (its refcounts cover the references) and leaks nothing.
pub fn is_consistent()
    ensures consistent { IsConsistent (of_pieces image) image_header }
    ensures leaks { leaks (of_pieces image) image_fields ≡ [] }
    ensures verdict { IsVerdict (of_pieces image) (Ok []) }
{}

/// Law: guest clusters 0, 1, 2 and 64 have these mappings, and host clusters 0 to 7 have these refcounts and references.
pub fn tables()
    ensures entries { map (entry (of_pieces image) image_fields) (0 ∷ 1 ∷ 2 ∷ 64 ∷ [])
        ≡ data_at 5 true ∷ data_at 6 true ∷ unmapped ∷ unmapped ∷ [] }
    ensures counts { map (count (of_pieces image) image_fields) (0 ∷ 1 ∷ 2 ∷ 3 ∷ 4 ∷ 5 ∷ 6 ∷ 7 ∷ []) ≡ 1 ∷ 1 ∷ 1 ∷ 1 ∷ 1 ∷ 1 ∷ 1 ∷ 0 ∷ [] }
    ensures references { map (refs (of_pieces image) image_fields) (0 ∷ 1 ∷ 2 ∷ 3 ∷ 4 ∷ 5 ∷ 6 ∷ 7 ∷ [])
        ≡ 1 ∷ 1 ∷ 1 ∷ 1 ∷ 1 ∷ 1 ∷ 1 ∷ 0 ∷ [] }
{}

/// Law: the guest reads these bytes at offsets 508 to 515, with no backing file, and at offsets 510 and 1024 over a raw backing file of one
/// byte. If guest cluster 0 is compressed, its bytes can't be read.
pub fn shown_bytes()
    ensures alone { map (at (qcow2 (of_pieces image) (λ _. 0) ∷ [])) (508 ∷ 509 ∷ 510 ∷ 511 ∷ 512 ∷ 513 ∷ 514 ∷ 515 ∷ []) ≡ written_bytes }
    ensures over_raw { map (at (qcow2 (of_pieces image) (λ _. 0) ∷ raw (9 ∷ []) ∷ [])) (510 ∷ 1024 ∷ []) ≡ byte 1 ∷ byte 0 ∷ [] }
    ensures compressed { at (qcow2 (with_bytes 2048 (64 ∷ [])) (λ _. 0) ∷ []) 0 ≡ barred }
    ensures compressed_entry { entry (with_bytes 2048 (64 ∷ [])) image_fields 0 ≡ packed 2560 512 }
{}

/// Law: if the refcount of cluster 5 is 0, a check reports cluster 5 as its first finding (error).
pub fn under_counted_cluster()
    ensures { IsVerdict (with_bytes 1034 (0 ∷ 0 ∷ [])) (Err (under_counted 5)) }
{}

/// Law: a check has these results for changed images: two COPIED entries that reference one cluster; a refcount of 1 for a cluster that
/// nothing references; two entries without the COPIED flag that reference a cluster of refcount 2; and a compressed cluster.
pub fn changed_counts_and_words()
    ensures false_copied { IsVerdict (with_bytes 2056 (128 ∷ 0 ∷ 0 ∷ 0 ∷ 0 ∷ 0 ∷ 10 ∷ 0 ∷ [])) (Err (false_copied 5)) }
    ensures counted_only { IsVerdict (with_bytes 1042 (0 ∷ 1 ∷ [])) (Ok ((9, 1) ∷ [])) }
    ensures shared { IsVerdict (of_pieces ((2048, 0 ∷ 0 ∷ 0 ∷ 0 ∷ 0 ∷ 0 ∷ 10 ∷ 0 ∷ 0 ∷ 0 ∷ 0 ∷ 0 ∷ 0 ∷ 0 ∷ 10 ∷ 0 ∷ []) ∷ (
      1034,
      0 ∷ 2 ∷ [],
    ) ∷ image)) (Ok ((6, 1) ∷ [])) }
    ensures compressed { IsVerdict (with_bytes 2048 (64 ∷ 0 ∷ 0 ∷ 0 ∷ 0 ∷ 0 ∷ 10 ∷ 0 ∷ [])) (Ok []) }
{}

/// Law: a check reports these findings (errors) before it looks at the refcounts: a header that doesn't load, a snapshot, external data, a
/// damaged L2 entry, and a shared cluster. In the last image an L1 entry references the L1 table in cluster 3.
pub fn changed_structure()
    ensures header { IsVerdict (with_bytes 23 (8 ∷ [])) (Err header) }
    ensures snapshots { IsVerdict (with_bytes 60 (0 ∷ 0 ∷ 0 ∷ 1 ∷ [])) (Err snapshots) }
    ensures external { IsVerdict (with_bytes 79 (4 ∷ [])) (Err external) }
    ensures table { IsVerdict (with_bytes 2055 (2 ∷ [])) (Err table) }
    ensures shared_table { IsVerdict (with_bytes 1536 (128 ∷ 0 ∷ 0 ∷ 0 ∷ 0 ∷ 0 ∷ 6 ∷ 0 ∷ [])) (Err (shared_table 3)) }
{}

/// Law: these headers load: the image's own, its fields as version 2, and one with the dirty bit, which loads only for reading.
pub fn loaded_headers()
    ensures newer { header_of true (of_pieces image) ≡ Ok image_header }
    ensures older { header_of true (with_bytes 4 (0 ∷ 0 ∷ 0 ∷ 2 ∷ [])) ≡ Ok older_header }
    ensures older_entries { map (entry (with_bytes 4 (0 ∷ 0 ∷ 0 ∷ 2 ∷ [])) older_fields) (0 ∷ 1 ∷ 2 ∷ 64 ∷ [])
        ≡ data_at 5 true ∷ data_at 6 true ∷ unmapped ∷ unmapped ∷ [] }
    ensures older_bytes { map (at (qcow2 (with_bytes 4 (0 ∷ 0 ∷ 0 ∷ 2 ∷ [])) (λ _. 0) ∷ []))
        (508 ∷ 509 ∷ 510 ∷ 511 ∷ 512 ∷ 513 ∷ 514 ∷ 515 ∷ []) ≡ written_bytes }
    ensures dirty_read { header_of false (with_bytes 79 (1 ∷ [])) ≡ Ok (header_with_features 1) }
    ensures dirty_written { header_of true (with_bytes 79 (1 ∷ [])) ≡ Err Unsupported }
{}

/// Law: these headers don't load, by their version, cluster bits, refcount order, features, size, L1 entries and L1 offset.
pub fn refused_headers()
    ensures version { header_of false (with_bytes 4 (0 ∷ 0 ∷ 0 ∷ 4 ∷ [])) ≡ Err Unsupported }
    ensures small_clusters { header_of false (with_bytes 23 (8 ∷ [])) ≡ Err DamagedHeader }
    ensures large_clusters { header_of false (with_bytes 23 (22 ∷ [])) ≡ Err DamagedHeader }
    ensures order { header_of false (with_bytes 99 (7 ∷ [])) ≡ Err DamagedHeader }
    ensures features { header_of false (with_bytes 79 (16 ∷ [])) ≡ Err Unsupported }
    ensures size { header_of false (with_bytes 24 (128 ∷ [])) ≡ Err (Limit (2 ^ 63 + 65536)) }
    ensures l1_entries { header_of false (with_bytes 36 (0 ∷ 64 ∷ 0 ∷ 1 ∷ [])) ≡ Err (Limit 4194305) }
    ensures l1_place { header_of false (with_bytes 47 (1 ∷ [])) ≡ Err DamagedHeader }
{}

/// Law: with these entries, the first guest cluster reads as given, over a raw backing file that starts with 9: unmapped, zero, zero in
/// version 2 (damaged), and compressed in two sectors.
pub fn other_words()
    ensures unmapped { at (qcow2 (with_bytes 2048 (0 ∷ 0 ∷ 0 ∷ 0 ∷ 0 ∷ 0 ∷ 0 ∷ 0 ∷ [])) (λ _. 0) ∷ raw (9 ∷ []) ∷ []) 0 ≡ byte 9 }
    ensures unmapped_alone { at (qcow2 (with_bytes 2048 (0 ∷ 0 ∷ 0 ∷ 0 ∷ 0 ∷ 0 ∷ 0 ∷ 0 ∷ [])) (λ _. 0) ∷ []) 0 ≡ byte 0 }
    ensures zero { at (qcow2 (with_bytes 2048 (0 ∷ 0 ∷ 0 ∷ 0 ∷ 0 ∷ 0 ∷ 0 ∷ 1 ∷ [])) (λ _. 0) ∷ raw (9 ∷ []) ∷ []) 0 ≡ byte 0 }
    ensures zero_entry { entry (with_bytes 2048 (0 ∷ 0 ∷ 0 ∷ 0 ∷ 0 ∷ 0 ∷ 0 ∷ 1 ∷ [])) image_fields 0 ≡ zeroes None false }
    ensures older_zero { entry (of_pieces ((4, 0 ∷ 0 ∷ 0 ∷ 2 ∷ []) ∷ (2048, 0 ∷ 0 ∷ 0 ∷ 0 ∷ 0 ∷ 0 ∷ 0 ∷ 1 ∷ []) ∷ image)) older_fields
        0 ≡ damaged }
    ensures compressed { entry (with_bytes 2048 (96 ∷ 0 ∷ 0 ∷ 0 ∷ 0 ∷ 0 ∷ 10 ∷ 1 ∷ [])) image_fields 0 ≡ packed 2561 1023 }
{}

/// Law: refcounts of 8, 32 and 64 bits, which fill whole bytes, are decoded like this.
pub fn wide_counters()
    ensures eight_bits { map (count (with_bytes 1024 (1 ∷ 2 ∷ 3 ∷ 4 ∷ 5 ∷ 6 ∷ 255 ∷ 0 ∷ 0 ∷ 0 ∷ 0 ∷ 0 ∷ 0 ∷ 0 ∷ [])) (fields_with_order 3))
        (0 ∷ 1 ∷ 6 ∷ 7 ∷ 8 ∷ []) ≡ 1 ∷ 2 ∷ 255 ∷ 0 ∷ 0 ∷ [] }
    ensures bits_32 { map (count (with_bytes 1024 (0 ∷ 0 ∷ 0 ∷ 1 ∷ 1 ∷ 0 ∷ 0 ∷ 2 ∷ 0 ∷ 0 ∷ 0 ∷ 0 ∷ 0 ∷ 0 ∷ 0 ∷ 0 ∷ []))
        (fields_with_order 5)) (0 ∷ 1 ∷ 2 ∷ []) ≡ 1 ∷ 16777218 ∷ 0 ∷ [] }
    ensures bits_64 { map (count (with_bytes 1024 (0 ∷ 0 ∷ 0 ∷ 0 ∷ 0 ∷ 0 ∷ 0 ∷ 1 ∷ 0 ∷ 0 ∷ 0 ∷ 1 ∷ 0 ∷ 0 ∷ 0 ∷ 2 ∷ []))
        (fields_with_order 6)) (0 ∷ 1 ∷ 2 ∷ []) ≡ 1 ∷ 4294967298 ∷ 0 ∷ [] }
{}

/// Law: refcounts of 1, 2 and 4 bits, which share bytes, are decoded like this.
pub fn narrow_counters()
    ensures one_bit { map (count (with_bytes 1024 (127 ∷ 0 ∷ 0 ∷ 0 ∷ 0 ∷ 0 ∷ 0 ∷ 0 ∷ 0 ∷ 0 ∷ 0 ∷ 0 ∷ 0 ∷ 0 ∷ [])) (fields_with_order 0))
        (0 ∷ 1 ∷ 6 ∷ 7 ∷ 8 ∷ []) ≡ 1 ∷ 1 ∷ 1 ∷ 0 ∷ 0 ∷ [] }
    ensures two_bits { map (count (with_bytes 1024 (85 ∷ 21 ∷ 0 ∷ 0 ∷ 0 ∷ 0 ∷ 0 ∷ 0 ∷ 0 ∷ 0 ∷ 0 ∷ 0 ∷ 0 ∷ 0 ∷ [])) (fields_with_order 1))
        (0 ∷ 1 ∷ 6 ∷ 7 ∷ 8 ∷ []) ≡ 1 ∷ 1 ∷ 1 ∷ 0 ∷ 0 ∷ [] }
    ensures four_bits { map (count (with_bytes 1024 (17 ∷ 17 ∷ 17 ∷ 1 ∷ 0 ∷ 0 ∷ 0 ∷ 0 ∷ 0 ∷ 0 ∷ 0 ∷ 0 ∷ 0 ∷ 0 ∷ [])) (fields_with_order 2))
        (0 ∷ 1 ∷ 6 ∷ 7 ∷ 8 ∷ []) ≡ 1 ∷ 1 ∷ 1 ∷ 0 ∷ 0 ∷ [] }
{}

/// Law: if a compressed range starts at the last byte of cluster 5, clusters 5, 6 and 7 have these references.
pub fn compressed_ranges()
    ensures one_sector { map (refs (with_bytes 2048 (64 ∷ 0 ∷ 0 ∷ 0 ∷ 0 ∷ 0 ∷ 11 ∷ 255 ∷ [])) image_fields) (5 ∷ 6 ∷ 7 ∷ [])
        ≡ 1 ∷ 1 ∷ 0 ∷ [] }
    ensures two_sectors { map (refs (with_bytes 2048 (96 ∷ 0 ∷ 0 ∷ 0 ∷ 0 ∷ 0 ∷ 11 ∷ 255 ∷ [])) image_fields) (5 ∷ 6 ∷ 7 ∷ [])
        ≡ 1 ∷ 2 ∷ 0 ∷ [] }
{}
