// The `HostFile` trait: a file outside of this program, as the host answers for it.
ghost use Rattle.std.specs.Prelude.{◌≡◌, ℕ, ◌+◌, ◌<◌, ◌^◌, length, replicate, slice_index, IsTrue, IfOk, OnOk, OnErr};
ghost use Rattle.imago_storage.specs.Calls.{Reads};
ghost use Rattle.imago_storage.specs.Log.{resized, splice};
ghost use Rattle.host_file.specs.FileState.{FileState, IsChangedTo, IsOnlyRead};

use std::io;

/// A file of the host, which is read and written at offsets in bytes.
///
/// Nothing can be proved of what a host answers. So contracts describe the file by a `FileState`: its bytes if all
/// its answers were true, and whether they all were. An answer is true if it fits the first bytes of the file, changed by each write since.
/// A read may return other bytes, and no code can notice it. So the premise of a theorem about a file is that the file answered truthfully
/// to the end.
///
/// A write that fails counts as not done. If it has changed bytes, a later read of them isn't answered truthfully.
///
/// This crate implements the trait for `OsFile`, a file of the operating system, and `MemoryFile`, for tests.
pub trait HostFile: Drop {
    /// The state that contracts describe the file by.
    ghost state: { Self → FileState };

    /// The content of a file consists of bytes.
    ghost are_bytes: { (file : Self) → (k : ℕ) → slice_index (state file).held k < 256 };

    /// Returns the length in bytes.
    ///
    /// # Errors
    ///
    /// The error of the host.
    fn size(&mut self) -> io::Result<u64>
        ensures size { IfOk result (λ n. IsTrue (state self.new).truthful → n ≡ length (state self.old).held) }
        ensures only_read { IsOnlyRead (state self.old) (state self.new) };

    /// Fills the buffer with the bytes from `offset` on.
    ///
    /// # Errors
    ///
    /// The error of the host, also if the file ends before the range does. The contents of the buffer are then unspecified.
    fn read_at(&mut self, offset: u64, buf: &mut [u8]) -> io::Result<()>
        ensures read { OnOk result (IsTrue (state self.new).truthful → Reads (state self.old).held offset buf.new) }
        ensures only_read { IsOnlyRead (state self.old) (state self.new) };

    /// Writes `data` at `offset`. A gap between the old end and the range is 0.
    ///
    /// # Errors
    ///
    /// The error of the host.
    fn write_at(&mut self, offset: u64, data: &[u8]) -> io::Result<()>
        requires { 0 < length «data».now }
        ensures ok { OnOk result (IsChangedTo (splice (state self.old).held offset «data».now) (state self.old) (state self.new)) }
        ensures err { OnErr result (state self.new ≡ state self.old) };

    /// Writes zeroes over a range. A gap between the old end and the range is 0.
    ///
    /// # Errors
    ///
    /// The error of the host.
    fn zero_at(&mut self, offset: u64, length: u64) -> io::Result<()>
        requires some { 0 < length }
        requires fits { offset + length < 2 ^ 64 }
        ensures ok { OnOk result (IsChangedTo (splice (state self.old).held offset (replicate length 0)) (state self.old) (state self.new)) }
        ensures err { OnErr result (state self.new ≡ state self.old) };

    /// Sets the length in bytes. New bytes are 0.
    ///
    /// # Errors
    ///
    /// The error of the host.
    fn set_len(&mut self, size: u64) -> io::Result<()>
        ensures ok { OnOk result (IsChangedTo (resized (state self.old).held size) (state self.old) (state self.new)) }
        ensures err { OnErr result (state self.new ≡ state self.old) };

    /// Makes all written bytes durable: they survive a crash of the machine.
    ///
    /// # Errors
    ///
    /// The error of the host. Some of the bytes may then be lost, and a later `sync` may not report it.
    fn sync(&mut self) -> io::Result<()>
        ensures { state self.new ≡ state self.old };
}
