//! Laws about scripts, arguments, chains of files, plain reads, flushes and crash images. A law is a function without code. Its `ensures`
//! clauses are a theorem for users of the definitions.
ghost use Rattle.std.specs.Prelude.{◌≡◌, ◌||◌, ◌∷◌, [], ℕ, Bool, IsSome, List, None, Option, Result, length, true, false};
ghost use Rattle.imago_access.specs.ChainCalls.{WontDecline};
ghost use Rattle.imago_access.specs.ChainLooks.{ChainReads};
ghost use Rattle.imago_access.specs.Running.{chain_disk};
ghost use Rattle.imago_access.specs.declared.format.Format.TheVariants.{Qcow2, Raw};
ghost use Rattle.imago_storage.specs.Disk.{Disk};
ghost use Rattle.imago_storage.specs.Log.{log_state};
ghost use Rattle.imago_storage.specs.MemStorage.{mem_state};
ghost use Rattle.imago_storage.specs.State.{CrashImageIsBytes};
ghost use Rattle.imago_storage.specs.Steps.{Call as DiskCall};
ghost use Rattle.imago_storage.specs.Through.{EachCrashImageIn};
ghost use Rattle.imago_storage.specs.declared.fault.Fault.{Fault};
ghost use Rattle.imago_storage.specs.declared.log.LogStorage.{LogStorage};
ghost use Rattle.imago_storage.specs.declared.memory.MemStorage.{MemStorage};
ghost use Rattle.qcow2_types.specs.Bytes.{bytes_of};
ghost use Rattle.qcow2_types.specs.Consistency.{IsConsistent};
ghost use Rattle.qcow2_types.specs.Header.{Header};
ghost use Rattle.qcow2_image.specs.Writing.{IsClearing, NeedsZeroFlag};
ghost use Rattle.qimg_calls.specs.Held.{chain_with_mapping};
ghost use Rattle.qimg_calls.specs.Runs.{Driven, IsSameChain, MayCommit, moment};
ghost use Rattle.qimg_calls.specs.Since.{Since, flushed};
ghost use Rattle.qimg_calls.specs.declared.call.Answer.{Answer};
ghost use Rattle.qimg_calls.specs.declared.call.Call.{Call};
ghost use Rattle.qimg_core.specs.declared.plain.ChainFile.{ChainFile};
ghost use Rattle.qimg_chain.specs.Arguments.{Asked, AskFor};
ghost use Rattle.qimg_chain.specs.Chains.{IsFit, OfSecond, OfTop, OpenMode};
ghost use Rattle.qimg_chain.specs.FileMeanings.{IsDiskOf, files_bytes};
ghost use Rattle.qimg_chain.specs.FlushedFiles.{EachFlushMeans, HandedMeanToo, IsChainOf, IsOpenedSince, LeaksWhatItDid, Opened, opened_as};
ghost use Rattle.qimg_chain.specs.Headline.{RunFrom, ToOpen};
ghost use Rattle.qimg_chain.specs.PlainReads.{IsPlainlyRead};
ghost use Rattle.qimg_chain.specs.Refusals.{ArePlaced, FirstCause, FormChain};
ghost use Rattle.qimg_chain.specs.Saving.{SavedFiles};
ghost use Rattle.qimg_chain.specs.Script.{IsLine};
ghost use Rattle.qimg_chain.specs.OpenedAgain.{IsDiskSince, IsLeftOf, ReadsAsFiles};
ghost use Rattle.qimg_chain.specs.TopChecks.{IsAccepted};
ghost use Rattle.qimg_chain.specs.ScriptRuns.{answers_of, calls_of};
ghost use Rattle.qimg_chain.specs.ToldStops.{AreLoggedFiles, GoesOnTelling, IsLeftIn, IsLoggedAlone, OpensTelling, CrashImagesConsistent, TellsAll};
ghost use Rattle.qimg_chain.specs.declared.chain.image_driver.ImageDriver.TheVariants as variant;
ghost use Rattle.qimg_chain.specs.declared.run.fault.RunFault.{RunFault};
ghost use Rattle.qimg_chain.specs.declared.script.line.Line.{Line};

use crate::chain::{ImageDriver, NamesFiles};
use imago_access::{DriverModel, FormatDriverInstance};
use imago_storage::{LogStorage, MemStorage, Storage};

/// Law: if two lines of a script have the same spelling, both are the same line.
pub fn a_text_is_one_line_at_most()
    ensures { (text : List ℕ) (one other : Line) → IsLine text one → IsLine text other → one ≡ other }
{}

/// Law: if the program's arguments have a meaning, they have no other one. So the program reads them as the user means them.
pub fn arguments_are_read_in_one_way()
    ensures { (words : List (List ℕ)) (one other : Asked) → AskFor words one → AskFor words other → one ≡ other }
{}

/// Law: if two faults are first causes why files don't form a chain (an image and its backing chain), both are the same fault.
pub fn files_have_one_first_cause<S: Storage>()
    ensures { (writable : Bool) (files : List (ChainFile S)) (one other : Fault)
        → FirstCause S.state writable files one → FirstCause S.state writable files other → one ≡ other }
{}

/// Law: if files form a chain, there is no first cause against it. So `open_chain` returns a first cause exactly if the files have one,
/// apart from memory and storage errors.
pub fn a_chain_has_no_cause<S: Storage>()
    ensures { (writable : Bool) (files : List (ChainFile S)) (fault : Fault)
        → FormChain S.state writable files → FirstCause S.state writable files fault → ⊥ }
{}

/// Law: if a raw file is in memory, it is a chain by itself, which can be opened for writing and is ready for calls. Its bytes don't
/// matter. So the premise about the top in `open_chain` and `run_files` can be satisfied.
pub fn a_raw_file_may_be_written()
    ensures { (file : ChainFile MemStorage) → file.format ≡ Raw
        → FormChain mem_state true (file ∷ []) × OfTop (IsFit mem_state) (file ∷ []) }
{}

/// Law: if a qcow2 image in memory is consistent (it passes `check`) and has no backing file, it is a chain by itself, for reading and for
/// writing. `qcow2_types::worked_image` is one.
pub fn a_consistent_image_may_be_written()
    ensures { (writable : Bool) (file : ChainFile MemStorage) (h : Header) → file.format ≡ Qcow2
        → IsConsistent (bytes_of (mem_state file.image).bytes) h → h.backing_name ≡ None
        → FormChain mem_state writable (file ∷ []) × OfTop (IsFit mem_state) (file ∷ []) }
{}

/// Law: a chain whose top is a well-formed qcow2 image of version 3 declines no zeroing and no discard (`WontDecline`). One of version 2
/// declines no discard to the backing file. Version 3 is the one that can zero clusters by itself.
///
/// So over such a chain a successful discard leaves no cluster allocated that it covers completely, and a successful zeroing leaves no data in
/// one. See `drive`, `units`.
pub fn a_qcow2_top_zeroes_and_discards<S: Storage>()
    ensures { let d = ⟦<ImageDriver<S> as DriverModel>⟧ in (image : _) (below : List _) (call : DiskCall) → d.well_formed (variant.Qcow2 image)
        → (NeedsZeroFlag call → IsSome (d.layer (variant.Qcow2 image)).fixed.granularity) → IsClearing call
        → WontDecline d call (variant.Qcow2 image, below) }
{}

/// Law: if a plain read of files and a read of an opened chain both succeed, they return the same bytes.
///
/// The plain read opens the files only for itself. The chain was opened over files with the same bytes, in any storages. The law follows
/// from the contracts of `plain_read`, `open_chain` and `FormatAccess::read`. The read doesn't change the disk of the chain, so later reads
/// agree too.
pub fn a_plain_read_and_a_read_agree<S: Storage, T: Storage, D: FormatDriverInstance>()
    ensures agree { (files : List (ChainFile S)) (others : List (ChainFile T)) (old new : D × List D) (offset n : ℕ) (plain buf : List ℕ)
        → files_bytes S.state files ≡ files_bytes T.state others → IsDiskOf (chain_disk D.layer old) (files_bytes T.state others)
        → IsPlainlyRead S.state files offset n plain → length plain ≡ n → ChainReads D.DriverModel offset n buf old new → buf ≡ plain }
    ensures again { (files : List (ChainFile T)) (old new : D × List D) (offset n : ℕ) (buf : List ℕ)
        → IsDiskOf (chain_disk D.layer old) (files_bytes T.state files) → ChainReads D.DriverModel offset n buf old new
        → IsDiskOf (chain_disk D.layer new) (files_bytes T.state files) }
{}

/// Law: if a flush in a list of calls succeeds, or a commit to the layer below, the files of the chain by themselves mean its disk
/// afterwards. These are the current file of the top, and the files below, which haven't changed since opening. After a commit, the file of
/// the layer below is the current one, too.
///
/// For a list with a commit, `MayCommit` must hold, as in `qimg_calls::drive`.
///
/// No mapping may be prepared before the flush (no run may wait for its commit), and no earlier call may have ended with a resource error
/// (`Fault::Memory`, `Fault::Storage`). Each cluster of the top's file leaks what it leaked when the chain was opened, or nothing if a
/// repair of leaks has succeeded since. The law applies to a chain that `open_chain` or `open_for_commit` opens and `drive` drives, also if
/// earlier lists have driven it (`IsOpenedSince`), and to each flush in a script, as `run_files` or `run_for_commit` runs it.
pub fn files_mean_the_disk_after_a_flush<S: Storage, D: NamesFiles>()
    ensures list { (m : OpenMode) (files : List (ChainFile S)) (since : Since) (list : List Call) (answers : List Answer)
        (opened : Opened D) (old new : D × List D) (driven : Driven D.DriverModel since list answers old new)
        → IsChainOf D.DriverModel D.names S.state m files opened.drivers → IsOpenedSince D.DriverModel opened old
        → MayCommit D.DriverModel list old
        → EachFlushMeans D.DriverModel D.names opened list answers (moment (chain_with_mapping old None) since) driven.last }
    ensures script { (what : ToOpen) (input before after : Option (List ℕ)) (result : Result (Option SavedFiles) RunFault)
        (ran : RunFrom D.DriverModel D.names what input before after result) (fit : OfTop (IsFit mem_state) what.files)
        (next_fit : IsSome what.mode.next → OfSecond (IsFit mem_state) what.files)
        → let replies = ran.scripted.replies in let start = moment (chain_with_mapping ran.opened None) (flushed (chain_disk D.layer ran.opened)) in
        let opened = opened_as ran.opened false false in
        EachFlushMeans D.DriverModel D.names opened (calls_of replies) (answers_of replies) start (ran.headline fit next_fit).last }
{}

/// Law: a chain is the same chain as itself, and stays the same through a second list of calls if it does through a first one. So it does
/// through all lists of calls that end without a resource error, as `qimg_calls::drive` says of each (`Driven`: `same_chain`). Its leaks have
/// been repaired if one of the lists has done so, and data was committed to the layer below if one of them has done that.
pub fn a_chain_stays_the_same<D: FormatDriverInstance>()
    ensures same { (c : D × List D) → IsSameChain D.DriverModel false false c c }
    ensures again { (a b c : D × List D) (repairs commits repairs_too commits_too : Bool)
        → IsSameChain D.DriverModel repairs commits a b → IsSameChain D.DriverModel repairs_too commits_too b c
        → IsSameChain D.DriverModel (repairs || repairs_too) (commits || commits_too) a c }
{}

/// Law: if the files of a chain of images mean its disk, so do the files that were supplied at opening, with the current bytes of the top's
/// file. For a VMDK top, its further files (extents) are found by the names in the image. No data may have been committed to the layer
/// below.
pub fn files_handed_in_mean_the_disk_too<S: Storage>()
    ensures { HandedMeanToo ⟦<ImageDriver<S> as DriverModel>⟧ ⟦<ImageDriver<S> as NamesFiles>⟧.names S.state }
{}

/// Law: if the files of a chain of images mean its disk, a consistent qcow2 top has the leaks (refcounts beyond the references) that it had
/// when the chain was opened, or none after a repair of leaks.
pub fn a_qcow2_top_leaks_what_it_did<S: Storage>()
    ensures { LeaksWhatItDid ⟦<ImageDriver<S> as DriverModel>⟧ ⟦<ImageDriver<S> as NamesFiles>⟧.names }
{}

/// Law: if a chain exposes its crash images, each crash image during a list of calls is consistent, and is one that its call may leave.
///
/// A crash image is the bytes of the top's file after a crash between two requests. `qimg_calls::drive` says which ones a call may leave.
/// The law holds if no call ended with a resource error (`Fault::Memory`, `Fault::Storage`). So the clauses of `drive` about crash images
/// aren't empty for such a chain.
pub fn crash_images_of_a_list_are_those_of_its_calls<D: FormatDriverInstance>()
    ensures left { (since : Since) (list : List Call) (answers : List Answer) (old new : D × List D)
        → GoesOnTelling D.DriverModel since list answers old new
        → EachCrashImageIn (IsLeftIn D.DriverModel list answers (moment (chain_with_mapping old None) since)) (D.image old.0) (D.image new.0) }
    ensures in_order { (since : Since) (list : List Call) (answers : List Answer) (old new : D × List D)
        → GoesOnTelling D.DriverModel since list answers old new → TellsAll D.DriverModel list answers (moment (chain_with_mapping old None) since) new }
    ensures sound { (since : Since) (list : List Call) (answers : List Answer) (old new : D × List D)
        → GoesOnTelling D.DriverModel since list answers old new
        → EachCrashImageIn (D.sound (D.layer old.0).fixed.kind) (D.image old.0) (D.image new.0) }
{}

/// Law: if a consistent qcow2 image's storage has just begun to expose its crash images over new memory, the image opens as a chain that
/// exposes them.
fn an_image_opens_reporting_crash_images<S: Storage>()
    ensures formed { (writable : Bool) (file : ChainFile S) → IsLoggedAlone S.state file
        → FormChain S.state writable (file ∷ []) × OfTop (IsFit S.state) (file ∷ []) × OfTop (λ f. CrashImageIsBytes (S.state f.image)) (file ∷ []) }
    ensures telling { let d = ⟦<ImageDriver<S> as DriverModel>⟧ in (m : OpenMode) (files : List (ChainFile S))
        → AreLoggedFiles S.state m files → OpensTelling d S.state m files }
    ensures crash_images { let d = ⟦<ImageDriver<S> as DriverModel>⟧ in (m : OpenMode) (files : List (ChainFile S))
        → AreLoggedFiles S.state m files → CrashImagesConsistent d S.state m files }
{}

/// Law: if files form a chain with a consistent qcow2 image on top, they open as a chain that exposes its crash images. The top must be in
/// a new `LogStorage` over new memory, and `open_chain` or `open_for_commit` opens the files.
///
/// A crash image is the bytes of the top's file after a crash between two requests. So each crash image during a list of calls over the
/// chain is a consistent image, if no call ends with a resource error (`Fault::Memory`, `Fault::Storage`). A consistent image without a
/// backing file, in such a storage, is a chain by itself.
pub fn an_image_on_a_log_opens_reporting_crash_images()
    ensures formed { (writable : Bool) (file : ChainFile (LogStorage MemStorage)) → IsLoggedAlone (log_state mem_state) file
        → FormChain (log_state mem_state) writable (file ∷ []) × OfTop (IsFit (log_state mem_state)) (file ∷ [])
        × OfTop (λ f. CrashImageIsBytes (log_state mem_state f.image)) (file ∷ []) }
    ensures telling { let d = ⟦<ImageDriver<LogStorage<MemStorage>> as DriverModel>⟧ in
        (m : OpenMode) (files : List (ChainFile (LogStorage MemStorage)))
        → AreLoggedFiles (log_state mem_state) m files → OpensTelling d (log_state mem_state) m files }
    ensures crash_images { let d = ⟦<ImageDriver<LogStorage<MemStorage>> as DriverModel>⟧ in
        (m : OpenMode) (files : List (ChainFile (LogStorage MemStorage)))
        → AreLoggedFiles (log_state mem_state) m files → CrashImagesConsistent d (log_state mem_state) m files }
{
    an_image_opens_reporting_crash_images::<LogStorage<MemStorage>>()
}

/// Law: a crash image of a raw or qcow2 top, opened again over files with the bytes of those below, is a chain whose disk the crash clause
/// describes.
///
/// A crash image is the top's file after a crash between two requests, as `session::drive_files` describes it (`LeftSince`). `since` has the
/// values at the last flush, and the calls begun since. By `formed`, `chain::open_chain` opens the files, resource errors aside, if those
/// below are layers by themselves (`ArePlaced`). Its disk is the one that the files mean. By `reads`, each byte of it reads as at that flush,
/// or as such a call gives it. By `accepted`, the checker accepts the crash image. By `read_so`, all this holds of the crash images that
/// `qimg_calls::drive` describes, also in later lists of calls, as long as no data is committed to the layer below.
pub fn a_crash_image_opens_again<S: Storage, T: Storage>()
    ensures formed { (writable : Bool) (top : ChainFile S) (below : List (ChainFile S)) (since : Since) (again : ChainFile T)
        (others : List (ChainFile T)) → FormChain S.state writable (top ∷ below) → ArePlaced T.state false others
        → IsLeftOf S.state T.state top below since again others → FormChain T.state writable (again ∷ others) }
    ensures accepted { (top : ChainFile S) (below : List (ChainFile S)) (since : Since) (again : ChainFile T) (others : List (ChainFile T))
        → IsLeftOf S.state T.state top below since again others → IsAccepted T.state again }
    ensures read_so { ReadsAsFiles ⟦<ImageDriver<S> as DriverModel>⟧ ⟦<ImageDriver<S> as NamesFiles>⟧.names S.state }
    ensures reads { (top : ChainFile S) (below : List (ChainFile S)) (since : Since) (again : ChainFile T) (others : List (ChainFile T))
        (disk : Disk) → IsLeftOf S.state T.state top below since again others → IsDiskOf disk (files_bytes T.state (again ∷ others))
        → IsDiskSince S.state top below since disk }
{}
