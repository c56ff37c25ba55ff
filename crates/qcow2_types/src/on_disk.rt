// The header fields of fixed size as two structs, for bytes 0 to 71 and for bytes 72 to 103, with conversions from and to bytes. The bytes
// are defined in specs/OnDisk.antt.

ghost use Rattle.std.specs.Prelude.{◌≡◌, ◌+◌, ◌≤◌, ◌++◌, ℕ, List, length, take};
ghost use Rattle.std.specs.Int.{w32, w64, to_be_bytes};
ghost use Rattle.qcow2_types.specs.OnDisk.{v2_bytes, v3_bytes};

/// A value that is stored in a file as bytes: its fields in order, each a big-endian number.
pub trait OnDiskStruct: Sized {
    ghost SIZE: { ℕ };

    ghost on_disk: { Self → List ℕ };

    /// The size of a value, in bytes.
    const SIZE: usize;

    /// Reads a value from `bytes`, which has a length of `SIZE`. Every slice of this length is a valid value.
    fn from_bytes(bytes: &[u8]) -> Self
        requires size { length bytes.now ≡ SIZE }
        ensures { on_disk result ≡ bytes.now };

    /// Writes the value to `bytes`, which has a length of `SIZE`.
    fn to_bytes(&self, bytes: &mut [u8])
        requires size { length bytes.old ≡ SIZE }
        ensures { bytes.new ≡ on_disk self.now };
}

/// The fields in bytes 0 to 71 of an image, which versions 2 and 3 have (the section "Header" of the format). Offsets and sizes are in
/// bytes.
#[derive(Clone, Copy, PartialEq, Eq, Debug)]
pub struct V2Header {
    /// The magic number, `MAGIC` in each image.
    pub magic: u32,
    /// The version, 2 or 3.
    pub version: u32,
    /// The offset of the backing file's name, 0 for none.
    pub backing_filename_offset: u64,
    /// The length of the backing file's name, in bytes.
    pub backing_filename_size: u32,
    /// The cluster bits: a cluster has 2^`cluster_bits` bytes.
    pub cluster_bits: u32,
    /// The size of the guest's disk.
    pub size: u64,
    /// The encryption method, 0 for none.
    pub crypt_method: u32,
    /// The number of entries of the L1 table.
    pub l1_size: u32,
    /// The offset of the L1 table.
    pub l1_table_offset: u64,
    /// The offset of the refcount table.
    pub refcount_table_offset: u64,
    /// The size of the refcount table, in clusters.
    pub refcount_table_clusters: u32,
    /// The number of snapshots.
    pub nb_snapshots: u32,
    /// The offset of the snapshot table.
    pub snapshots_offset: u64,
}

/// The fields in bytes 72 to 103 of an image, which only version 3 has (the section "Header" of the format).
#[derive(Clone, Copy, PartialEq, Eq, Debug)]
pub struct V3HeaderBase {
    /// The incompatible features, by their bits (`IncompatibleFeatures`).
    pub incompatible_features: u64,
    /// The compatible features, by their bits (`CompatibleFeatures`).
    pub compatible_features: u64,
    /// The autoclear features, by their bits (`AutoclearFeatures`).
    pub autoclear_features: u64,
    /// The refcount order: a refcount has 2^`refcount_order` bits.
    pub refcount_order: u32,
    /// The length of the header from byte 0, without its extensions, in bytes.
    pub header_length: u32,
}

/// The default has no feature bit, refcounts of 16 bits, and no field after byte 103.
impl Default for V3HeaderBase {
    ghost is_default = { λ h. h ≡ record {
      incompatible_features = 0;
      compatible_features = 0;
      autoclear_features = 0;
      refcount_order = 4;
      header_length = 104;
    } };

    fn default() -> V3HeaderBase {
        V3HeaderBase {
            incompatible_features: 0,
            compatible_features: 0,
            autoclear_features: 0,
            refcount_order: 4,
            header_length: 104,
        }
    }
}

// Returns the number in the 4 bytes at `at`.
fn u32_at(bytes: &[u8], at: usize) -> u32
    requires { at + 4 ≤ length bytes.now }
    ensures { take (at + 4) bytes.now ≡ take at bytes.now ++ to_be_bytes w32 result }
{
    let mut number = [0; 4];
    number.copy_from_slice(&bytes[at..at + 4]);
    u32::from_be_bytes(number)
}

// Returns the number in the 8 bytes at `at`.
fn u64_at(bytes: &[u8], at: usize) -> u64
    requires { at + 8 ≤ length bytes.now }
    ensures { take (at + 8) bytes.now ≡ take at bytes.now ++ to_be_bytes w64 result }
{
    let mut number = [0; 8];
    number.copy_from_slice(&bytes[at..at + 8]);
    u64::from_be_bytes(number)
}

// Writes a number to the 4 bytes at `at`. The bytes before `at` don't change.
fn put_u32(bytes: &mut [u8], at: usize, number: u32)
    requires { at + 4 ≤ length bytes.old }
    ensures { take (at + 4) bytes.new ≡ take at bytes.old ++ to_be_bytes w32 number }
{
    bytes[at..at + 4].copy_from_slice(&number.to_be_bytes());
}

// Writes a number to the 8 bytes at `at`. The bytes before `at` don't change.
fn put_u64(bytes: &mut [u8], at: usize, number: u64)
    requires { at + 8 ≤ length bytes.old }
    ensures { take (at + 8) bytes.new ≡ take at bytes.old ++ to_be_bytes w64 number }
{
    bytes[at..at + 8].copy_from_slice(&number.to_be_bytes());
}

impl OnDiskStruct for V2Header {
    ghost SIZE = { 72 };

    ghost on_disk = { v2_bytes };

    const SIZE: usize = 72;

    fn from_bytes(bytes: &[u8]) -> V2Header {
        V2Header {
            magic: u32_at(bytes, 0),
            version: u32_at(bytes, 4),
            backing_filename_offset: u64_at(bytes, 8),
            backing_filename_size: u32_at(bytes, 16),
            cluster_bits: u32_at(bytes, 20),
            size: u64_at(bytes, 24),
            crypt_method: u32_at(bytes, 32),
            l1_size: u32_at(bytes, 36),
            l1_table_offset: u64_at(bytes, 40),
            refcount_table_offset: u64_at(bytes, 48),
            refcount_table_clusters: u32_at(bytes, 56),
            nb_snapshots: u32_at(bytes, 60),
            snapshots_offset: u64_at(bytes, 64),
        }
    }

    fn to_bytes(&self, bytes: &mut [u8]) {
        put_u32(bytes, 0, self.magic);
        put_u32(bytes, 4, self.version);
        put_u64(bytes, 8, self.backing_filename_offset);
        put_u32(bytes, 16, self.backing_filename_size);
        put_u32(bytes, 20, self.cluster_bits);
        put_u64(bytes, 24, self.size);
        put_u32(bytes, 32, self.crypt_method);
        put_u32(bytes, 36, self.l1_size);
        put_u64(bytes, 40, self.l1_table_offset);
        put_u64(bytes, 48, self.refcount_table_offset);
        put_u32(bytes, 56, self.refcount_table_clusters);
        put_u32(bytes, 60, self.nb_snapshots);
        put_u64(bytes, 64, self.snapshots_offset);
    }
}

impl OnDiskStruct for V3HeaderBase {
    ghost SIZE = { 32 };

    ghost on_disk = { v3_bytes };

    const SIZE: usize = 32;

    fn from_bytes(bytes: &[u8]) -> V3HeaderBase {
        V3HeaderBase {
            incompatible_features: u64_at(bytes, 0),
            compatible_features: u64_at(bytes, 8),
            autoclear_features: u64_at(bytes, 16),
            refcount_order: u32_at(bytes, 24),
            header_length: u32_at(bytes, 28),
        }
    }

    fn to_bytes(&self, bytes: &mut [u8]) {
        put_u64(bytes, 0, self.incompatible_features);
        put_u64(bytes, 8, self.compatible_features);
        put_u64(bytes, 16, self.autoclear_features);
        put_u32(bytes, 24, self.refcount_order);
        put_u32(bytes, 28, self.header_length);
    }
}
