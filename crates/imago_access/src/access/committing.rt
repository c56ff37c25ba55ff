// `commit_down`: copies the data of the top image to the layer below it (its backing file), and empties the top. Definitions:
// specs/Committing.antt.
ghost use Rattle.std.specs.Prelude.{◌≡◌, ◌<◌, ◌≤◌, ◌+◌, length, map, IfOk, IfErr, OnOk, IsErrOf, Some, None, false, true};
ghost use Rattle.imago_storage.specs.declared.fault.Fault.{Fault};
ghost use Rattle.imago_access.specs.Layer.{IsFree};
ghost use Rattle.imago_access.specs.Layers.{chain};
ghost use Rattle.imago_access.specs.Files.{HadNoResourceError};
ghost use Rattle.imago_access.specs.Going.{LookupCall};
ghost use Rattle.imago_access.specs.Refusals.{unusable_fault};
ghost use Rattle.imago_access.specs.Running.{IsIntactChain};
ghost use Rattle.imago_access.specs.ChainCalls.{ChainFails};
ghost use Rattle.imago_access.specs.Failing.{Fails};
ghost use Rattle.imago_access.specs.Committing.{some_failed, pair_refusal, commit_down_refusal, IsOwnRun, OwnReadCause, CopiesDown, TakesRun, TakesOwnTo, IsSettled, IsFailedOrSound, EmptiesTop, CommitsDown, StepsRefused, CommitDownFails, CommitDownRefused, MarksAfter, MarksCommitFailed, SparesMemory, IsCommittable, NextPair, OfNext};

use crate::access::FormatAccess;
use crate::access::discarding::{Discarding, discard_all};
use crate::drivers::FormatDriverInstance;
use crate::mapping::ShallowMapping;
use imago_storage::Fault;
use std::alloc::Global;

// The most bytes that are copied by one read and write.
const PIECE: u64 = 65_536;

// Returns true if a call failed with `Memory` or `Storage`.
fn had_resource_error(outcome: Result<(), Fault>) -> bool
    ensures none { result ≡ false → HadNoResourceError outcome }
    ensures some { HadNoResourceError outcome → result ≡ false }
    ensures ok { OnOk outcome (result ≡ false) }
{
    matches!(outcome, Err(Fault::Memory | Fault::Storage))
}

// Checks whether the data of the top image can be committed to the next one, while no layer has failed.
fn check_pair<D: FormatDriverInstance>(top: &D, next: &D) -> Result<(), Fault>
    ensures ok { OnOk result (pair_refusal (D.layer top.now) (D.layer next.now) ≡ None) }
    ensures err { IfErr result (λ e. pair_refusal (D.layer top.now) (D.layer next.now) ≡ Some e) }
{
    if !top.writable() || !next.writable() {
        return Err(Fault::ReadOnly);
    }
    if next.size() < top.size() {
        return Err(Fault::BadArgument);
    }
    top.ready()?;
    next.ready()
}

// Reads the first run of a range inside the image's disk, if the image maps the run itself. Returns the length of the run, in bytes, and
// whether the start of the buffer now has its bytes.
fn read_own_run<D: FormatDriverInstance>(
    alloc: Global,
    driver: &mut D,
    buf: &mut [u8],
    offset: u64,
) -> Result<(usize, bool), Fault>
    requires nonempty { 0 < length buf.old }
    requires inside { offset + length buf.old ≤ (D.layer driver.old).size }
    ensures run { IfOk result (λ r. (0 < r.0) × (r.0 ≤ length buf.old)) }
    ensures own { D.coherent driver.old → IfOk result (λ r. IsOwnRun (D.layer driver.old) offset buf.new r.0 r.1) }
    ensures lookup_call { LookupCall D.DriverModel (HadNoResourceError result) driver.old driver.new }
    ensures failed { IfErr result (Fails D.DriverModel driver.old driver.new) }
    ensures cause { D.coherent driver.old → IfErr result (OwnReadCause (D.layer driver.old)) }
{
    let (mapping, length) = driver.get_mapping(alloc, offset, buf.len() as u64)?;
    let n = length as usize;
    match mapping {
        ShallowMapping::Raw {
            storage,
            offset: place,
            ..
        } => {
            driver.read_mapped(alloc, storage, place, &mut buf[..n])?;
            Ok((n, true))
        }
        ShallowMapping::Zero { explicit } => {
            buf[..n].fill(0);
            Ok((n, explicit))
        }
        ShallowMapping::Special { .. } => Err(Fault::Barred),
        ShallowMapping::Indirect { .. } => Ok((n, false)),
        ShallowMapping::Eof => Ok((n, false)),
    }
}

// Copies the first run of a range inside the top's disk to the next layer, if the top maps the run itself. Returns the length of the run,
// in bytes. Before a change of the next layer `begun` becomes true.
fn copy_run<D: FormatDriverInstance>(
    alloc: Global,
    driver: &mut D,
    next: &mut FormatAccess<D>,
    buf: &mut [u8],
    offset: u64,
    begun: &mut bool,
) -> Result<usize, Fault>
    requires free { IsFree (D.layer next.old.0) }
    requires nonempty { 0 < length buf.old }
    requires inside { offset + length buf.old ≤ (D.layer driver.old).size }
    ensures run { IfOk result (λ n. (0 < n) × (n ≤ length buf.old)) }
    ensures copies { CopiesDown D.DriverModel result driver.old driver.new next.old next.new }
    ensures taken { TakesRun D.DriverModel offset result driver.old next.old next.new }
    ensures begun { begun.new ≡ false → (begun.old ≡ false) × (next.new ≡ next.old) }
{
    let (n, is_own) = read_own_run(alloc, driver, buf, offset)?;
    if is_own {
        *begun = true;
        next.write(alloc, &buf[..n], offset)?;
    }
    Ok(n)
}

// Copies each run that the top maps itself to the next layer.
fn copy_down<D: FormatDriverInstance>(
    alloc: Global,
    driver: &mut D,
    next: &mut FormatAccess<D>,
    buf: &mut [u8],
    begun: &mut bool,
) -> Result<(), Fault>
    requires free { IsFree (D.layer next.old.0) }
    requires room { length buf.old ≡ 65536 }
    requires begun { begun.old ≡ false }
    ensures copies { CopiesDown D.DriverModel result driver.old driver.new next.old next.new }
    ensures taken { OnOk result (TakesOwnTo D.DriverModel (D.layer driver.old).size driver.old next.old next.new) }
    ensures begun { begun.new ≡ false → next.new ≡ next.old }
{
    let size = driver.size();
    let mut done = 0;
    while done < size {
        let n = PIECE.min(size - done);
        done += copy_run(alloc, driver, next, &mut buf[..n as usize], done, begun)? as u64;
    }
    Ok(())
}

// Copies the top's own bytes to the next layer and flushes that layer. It is also flushed if the copy was refused.
fn fill_next<D: FormatDriverInstance>(
    alloc: Global,
    driver: &mut D,
    next: &mut FormatAccess<D>,
    buf: &mut [u8],
    begun: &mut bool,
) -> Result<(), Fault>
    requires free { IsFree (D.layer next.old.0) }
    requires room { length buf.old ≡ 65536 }
    requires begun { begun.old ≡ false }
    ensures copies { CopiesDown D.DriverModel result driver.old driver.new next.old next.new }
    ensures taken { OnOk result (TakesOwnTo D.DriverModel (D.layer driver.old).size driver.old next.old next.new) }
    ensures settled { IsIntactChain D.DriverModel next.old → unusable_fault (D.layer next.old.0) ≡ None → HadNoResourceError result
        → IsSettled D.DriverModel next.new.0 }
    ensures begun { begun.new ≡ false → next.new ≡ next.old }
    ensures all_begun { OnOk result (begun.new ≡ true) }
{
    let copied = copy_down(alloc, driver, next, buf, begun);
    if had_resource_error(copied) {
        return copied;
    }
    *begun = true;
    next.driver.flush(alloc)?;
    copied
}

// Discards the whole disk of the top to the layers below, and flushes the top.
fn empty_top<D: FormatDriverInstance>(alloc: Global, driver: &mut D) -> Result<(), Fault>
    requires free { IsFree (D.layer driver.old) }
    ensures empties { EmptiesTop D.DriverModel result driver.old driver.new }
{
    let size = driver.size();
    discard_all(alloc, driver, Discarding::ToBacking, 0, size)?;
    driver.flush(alloc)
}

// Commits the data of the top image to the next layer, without a mark after an error.
fn commit_steps<D: FormatDriverInstance>(
    alloc: Global,
    driver: &mut D,
    next: &mut FormatAccess<D>,
    buf: &mut [u8],
    begun: &mut bool,
) -> Result<(), Fault>
    requires free { IsFree (D.layer driver.old) }
    requires next_free { IsFree (D.layer next.old.0) }
    requires room { length buf.old ≡ 65536 }
    requires begun { begun.old ≡ false }
    requires allowed { pair_refusal (D.layer driver.old) (D.layer next.old.0) ≡ None }
    ensures does { CommitsDown D.DriverModel result (driver.old, chain next.old) (driver.new, chain next.new) }
    ensures usable { IsFailedOrSound D.DriverModel next.old next.new }
    ensures failed { IfErr result (ChainFails D.DriverModel (driver.old, chain next.old) (driver.new, chain next.new)) }
    ensures spared { begun.new ≡ false
        → IfErr result (SparesMemory D.DriverModel (driver.old, chain next.old) (driver.new, chain next.new)) }
    ensures cause { StepsRefused D.DriverModel result driver.old next.old (chain next.new) }
{
    driver.flush(alloc)?;
    fill_next(alloc, driver, next, buf, begun)?;
    empty_top(alloc, driver)
}

// Marks an image failed after `Storage`, and after `Memory` once a change was begun.
fn mark_after<D: FormatDriverInstance>(driver: &mut D, outcome: Result<(), Fault>, begun: bool)
    ensures { MarksAfter D.DriverModel outcome begun driver.old driver.new }
{
    match outcome {
        Err(Fault::Storage) => driver.mark_failed(),
        Err(Fault::Memory) => {
            if begun {
                driver.mark_failed();
            }
        }
        _ => {}
    }
}

// Commits the data of the top image to the next layer. After `Storage`, and after `Memory` once a change of the next layer was begun, the
// top is marked failed.
fn commit_marked<D: FormatDriverInstance>(
    alloc: Global,
    driver: &mut D,
    next: &mut FormatAccess<D>,
    buf: &mut [u8],
) -> Result<(), Fault>
    requires free { IsFree (D.layer driver.old) }
    requires next_free { IsFree (D.layer next.old.0) }
    requires room { length buf.old ≡ 65536 }
    requires allowed { pair_refusal (D.layer driver.old) (D.layer next.old.0) ≡ None }
    ensures does { CommitsDown D.DriverModel result (driver.old, chain next.old) (driver.new, chain next.new) }
    ensures usable { IsFailedOrSound D.DriverModel next.old next.new }
    ensures failed { IfErr result (ChainFails D.DriverModel (driver.old, chain next.old) (driver.new, chain next.new)) }
    ensures marks_failed { IfErr result (MarksCommitFailed D.DriverModel (driver.old, chain next.old) (driver.new, chain next.new)) }
    ensures cause { StepsRefused D.DriverModel result driver.old next.old (chain next.new) }
{
    let mut begun = false;
    let result = commit_steps(alloc, driver, next, buf, &mut begun);
    mark_after(driver, result, begun);
    result
}

impl<D: FormatDriverInstance> FormatAccess<D> {
    // Returns true if a layer has failed.
    fn any_failed(&self) -> bool
        ensures { result ≡ some_failed (map D.layer (chain self.now)) }
    {
        let own = self.driver.failed();
        match &self.below {
            None => own,
            Some(below) => own || below.any_failed(),
        }
    }

    // Checks whether the data of the top image can be committed to the next layer.
    fn check_commit_down(&self) -> Result<(), Fault>
        ensures ok { OnOk result (commit_down_refusal (D.layer self.now.0) (map D.layer self.now.1) ≡ None) }
        ensures err { IfErr result (λ e. commit_down_refusal (D.layer self.now.0) (map D.layer self.now.1) ≡ Some e) }
    {
        if self.any_failed() {
            return Err(Fault::Failed);
        }
        match &self.below {
            None => Err(Fault::MissingBelow),
            Some(next) => check_pair(&self.driver, &next.driver),
        }
    }

    /// Commits the data of the top image to the layer below it (its backing file), and empties the top image, as `qemu-img commit` does.
    ///
    /// The top is flushed first. Then the bytes of each run that the top itself maps as data or as explicit zeroes are written to the layer
    /// below, in pieces of at most 65,536 bytes, and that layer is flushed. Then the whole disk of the top is discarded to the layer below,
    /// and the top is flushed again. The disk doesn't change. After success the layer below reads as the disk at each offset below the
    /// disk's size. The layers below that one are only read.
    ///
    /// # Preconditions
    ///
    /// No mapping is prepared in the top image or in the layer below it: each one was committed or cancelled.
    ///
    /// # Errors
    ///
    /// These are checked first, in this order, and nothing changes:
    ///
    /// - `Fault::Failed` if a layer of the chain has failed.
    /// - `Fault::MissingBelow` if the top has no layer below it.
    /// - `Fault::ReadOnly` if the top or the layer below it wasn't opened for writing.
    /// - `Fault::BadArgument` if the layer below is smaller than the top.
    /// - `Fault::MissingData` if the top or the layer below it needs a file that wasn't handed in.
    ///
    /// Later errors:
    ///
    /// - `Fault::Barred`, `Fault::DamagedTable` if a byte that the top itself maps can't be read.
    /// - `Fault::RangeOverflow` if the end of a range, rounded up to the alignment, doesn't fit `u64`.
    /// - An error of a driver's own (`DriverModel::own_cause`), for a write to the layer below or for the discard of the top.
    /// - `Fault::Memory`, `Fault::Storage`.
    ///
    /// # On error
    ///
    /// After an error other than `Fault::Memory` and `Fault::Storage` the disk is unchanged, and what was written to the layer below is
    /// flushed. After `Fault::Storage` the top has failed, if its format marks failures. After `Fault::Memory` it has failed, or the layers
    /// below are unchanged.
    ///
    /// # Crash safety
    ///
    /// Each crash image of the two files (the files after a crash during the call) is consistent. Until the layer below is flushed, the
    /// top's file stays as the first flush left it, and over each crash image of the file below it reads as the disk. From then on the file
    /// below stays as it is, and over it each crash image of the top's file reads as the disk. This requires that the file below said what
    /// the layer's disk is before the call, as after a flush.
    pub fn commit_down(&mut self, alloc: Global) -> Result<(), Fault>
        requires free { IsFree (D.layer self.old.0) }
        requires next_free { OfNext (λ n. IsFree (D.layer n.0)) self.old.1 }

        // The effect, and crash images.
        ensures does { CommitsDown D.DriverModel result self.old self.new }

        // Early outcomes.
        ensures early_outcome { (f : Fault) → commit_down_refusal (D.layer self.old.0) (map D.layer self.old.1) ≡ Some f
            → IsErrOf result f × (self.new ≡ self.old) }

        // Errors, and the failed state after them.
        ensures failed { IfErr result (CommitDownFails D.DriverModel self.old self.new) }
        ensures marks_failed { IfErr result (MarksCommitFailed D.DriverModel self.old self.new) }
        ensures next_usable { NextPair (IsFailedOrSound D.DriverModel) self.old.1 self.new.1 }
        ensures cause { IsCommittable D.DriverModel self.old → IfErr result (CommitDownRefused D.DriverModel self.old self.new) }
    {
        self.check_commit_down()?;
        let mut buf = match vec![in alloc; 0u8; PIECE as usize] {
            Ok(buf) => buf,
            Err(_) => return Err(Fault::Memory),
        };
        match &mut self.below {
            None => Err(Fault::MissingBelow),
            Some(next) => commit_marked(alloc, &mut self.driver, next, &mut buf),
        }
    }
}
