// `OsFile`: a file of the operating system.
ghost use Rattle.std.specs.Prelude.{◌+◌, ◌<◌, ◌^◌, IfOk};
ghost use Rattle.host_file.specs.Events.{as_bytes};
ghost use Rattle.host_file.specs.OsFile.{IsFresh};

use crate::record::Record;
use crate::{FirstBytes, HostFile};
use std::fs::{self, OpenOptions};
use std::io;
use std::marker::PhantomData;
use std::os::fd::AsRawFd;
use std::os::unix::fs::FileExt;

// The system counts bytes of a file by signed 64-bit numbers.
const MAX_SIZE: u64 = (1 << 63) - 1;

// The number of times that a call is tried which a signal interrupts.
const TRIES: usize = 100;

// The number of zeroes that one call writes at most.
const PIECE: u64 = 1 << 16;

static ZEROES: [u8; 1 << 16] = [0; 1 << 16];

/// An open file of the operating system.
///
/// Contracts describe it by its calls with their answers, and by what it held when it was opened: what `C` says of its number. A call is
/// noted once, after it succeeded. It isn't proved that the system did what a note says, so read each method: it makes the call
/// that it notes.
///
/// Nothing else may write to the file before it is closed. Nothing locks it.
#[derive(Drop)]
pub struct OsFile<C: FirstBytes> {
    file: fs::File,
    // Only clauses read the number and the calls.
    number: u64,
    calls: Record,
    first: PhantomData<C>,
}

impl<C: FirstBytes> OsFile<C> {
    ghost use Rattle.host_file.specs.OsFile.{os_state};

    /// Opens a regular file to read it, and also to write to it if `writable` is true.
    ///
    /// `number` stands for the file in contracts, and for what it holds now. So each call needs another number. No code reads it.
    ///
    /// # Errors
    ///
    /// - The kind `Unsupported` if the file isn't a regular file.
    /// - Any other error of the system, for example if the file doesn't exist.
    #[tactic(auto, unfolding(crate::specs::OsFile::os_state, crate::specs::Events::state_after))]
    pub fn open(rt: &HostRuntime, path: &str, writable: bool, number: u64) -> io::Result<OsFile<C>>
        ensures { IfOk result (λ file. IsFresh (as_bytes (C.bytes number)) (os_state C.FirstBytes file)) }
    {
        let file = open_regular(rt, path, writable)?;
        Ok(OsFile {
            file,
            number,
            calls: Record::new(),
            first: PhantomData,
        })
    }
}

#[tactic(auto, unfolding(crate::specs::OsFile::os_state, crate::specs::Events::state_after))]
impl<C: FirstBytes> HostFile for OsFile<C> {
    ghost use Rattle.host_file.specs.OsFile.{os_state};
    ghost use Rattle.host_file.specs.Bytes.{os_are_bytes};

    ghost state = { os_state C.FirstBytes };

    ghost are_bytes = { os_are_bytes C.FirstBytes };

    fn size(&mut self) -> io::Result<u64> {
        let size = self.file.metadata()?.len();
        self.calls.sized(size);
        Ok(size)
    }

    fn read_at(&mut self, offset: u64, buf: &mut [u8]) -> io::Result<()> {
        check_range(offset, buf.len() as u64)?;
        self.file.read_exact_at(buf, offset)?;
        self.calls.read(offset, buf);
        Ok(())
    }

    fn write_at(&mut self, offset: u64, data: &[u8]) -> io::Result<()> {
        check_range(offset, data.len() as u64)?;
        self.file.write_all_at(data, offset)?;
        self.calls.written(offset, data);
        Ok(())
    }

    fn zero_at(&mut self, offset: u64, length: u64) -> io::Result<()> {
        check_range(offset, length)?;
        write_zeroes(&self.file, offset, length)?;
        self.calls.zeroed(offset, length);
        Ok(())
    }

    fn set_len(&mut self, size: u64) -> io::Result<()> {
        check_range(0, size)?;
        set_len(&self.file, size)?;
        self.calls.resized(size);
        Ok(())
    }

    fn sync(&mut self) -> io::Result<()> {
        sync(&self.file)
    }
}

// Returns an error if the range ends past the greatest size of a file.
fn check_range(offset: u64, length: u64) -> io::Result<()> {
    if offset > MAX_SIZE || length > MAX_SIZE - offset {
        return Err(io::ErrorKind::InvalidInput.into());
    }
    Ok(())
}

// Opens a regular file, with a descriptor above those of the standard streams.
fn open_regular(rt: &HostRuntime, path: &str, writable: bool) -> io::Result<fs::File> {
    // The metadata comes first, because opening a pipe can wait forever.
    if !fs::metadata(rt, path)?.is_file() {
        return Err(io::ErrorKind::Unsupported.into());
    }
    let mut file = OpenOptions::new()
        .read(true)
        .write(writable)
        .open(rt, path)?;
    // Output to a standard stream that was closed must not go to the file.
    if file.as_raw_fd() <= 2 {
        file = file.try_clone()?;
    }
    // The path may have got another file in between.
    if !file.metadata()?.is_file() {
        return Err(io::ErrorKind::Unsupported.into());
    }
    Ok(file)
}

// Writes zeroes over the range, in pieces.
fn write_zeroes(file: &fs::File, offset: u64, length: u64) -> io::Result<()>
    requires { offset + length < 2 ^ 64 }
{
    let mut done = 0;
    while done < length {
        let piece = (length - done).min(PIECE);
        file.write_all_at(&ZEROES[..piece as usize], offset + done)?;
        done += piece;
    }
    Ok(())
}

// Sets the length of the file.
fn set_len(file: &fs::File, size: u64) -> io::Result<()> {
    for _ in 0..TRIES {
        match file.set_len(size) {
            Err(error) if error.kind() == io::ErrorKind::Interrupted => {}
            outcome => return outcome,
        }
    }
    Err(io::ErrorKind::Interrupted.into())
}

// Makes the bytes of the file durable.
fn sync(file: &fs::File) -> io::Result<()> {
    for _ in 0..TRIES {
        match file.sync_data() {
            Err(error) if error.kind() == io::ErrorKind::Interrupted => {}
            outcome => return outcome,
        }
    }
    Err(io::ErrorKind::Interrupted.into())
}
