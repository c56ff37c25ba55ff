// Lines of a script that read the files themselves: `check`, with the result of the checker for the top file, and `plain`, with a plain
// read.
ghost use Rattle.std.specs.Prelude.{IfOk, IfErr};
ghost use Rattle.qcow2_metadata.specs.Loading.{file};
ghost use Rattle.qimg_chain.specs.RunAnswers.{Checks, IsLength, ReadsPlainly, WhyNoBuffer};

use super::calls::MOST_READ;
use crate::chain::{NamesFiles, lend, plain_read};
use crate::script::{Answer, Bytes};
use imago_access::{Format, FormatAccess, FormatDriverInstance};
use imago_storage::{Fault, MemStorage, MemoryView};
use qimg_core::check::check;
use std::alloc::Global;

/// Allocates a buffer of `count` bytes.
///
/// # Errors
///
/// - `Fault::BadArgument` if `count` is more than 32,768.
/// - `Fault::Memory` if memory runs out.
fn buffer(alloc: Global, count: u64) -> Result<Vec<u8>, Fault>
    ensures ok { IfOk result (λ buf. IsLength count buf.items) }
    ensures err { IfErr result (WhyNoBuffer count) }
{
    if count > MOST_READ {
        return Err(Fault::BadArgument);
    }
    Ok(vec![in alloc; 0u8; count as usize]?)
}

/// Returns the result of the checker for the top file as it is now. The file isn't copied.
///
/// If the top isn't a qcow2 image, the answer is always `Fault::Unsupported`, also if memory runs out.
pub fn check_top<D: FormatDriverInstance<Storage = MemStorage>>(
    alloc: Global,
    chain: &FormatAccess<D>,
) -> Answer
    ensures { Checks (D.layer chain.now.0).fixed.format (file (D.image chain.now.0)) result }
{
    let top = chain.inner();
    match top.format() {
        Format::Qcow2 => {}
        Format::Raw | Format::Vmdk => return Answer::Refused(Fault::Unsupported),
    }
    let mut image = MemoryView::new(top.image_file().as_bytes());
    match check(alloc, &mut image) {
        Ok(leaks) => Answer::Number(leaks.len() as u64),
        Err(finding) => Answer::Unsound(finding),
    }
}

/// Reads a range of the disk that the files mean as they are now, by a plain read (which opens them as a new chain). The files aren't
/// copied.
///
/// # Errors
///
/// - `Fault::BadArgument` if `count` is more than 32,768.
/// - `Fault::Memory` if memory runs out.
/// - The errors of `plain_read`.
pub fn read_plainly<D: FormatDriverInstance<Storage = MemStorage> + NamesFiles>(
    alloc: Global,
    chain: &FormatAccess<D>,
    offset: u64,
    count: u64,
) -> Result<Bytes, Fault>
    ensures { ReadsPlainly D.DriverModel D.names offset count result chain.now }
{
    let mut buf = buffer(alloc, count)?;
    let files = lend(alloc, chain)?;
    plain_read(alloc, files, offset, &mut buf)?;
    Ok(Bytes::from(buf))
}
