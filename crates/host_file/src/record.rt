// The record of the calls on a file. Only clauses read it.
ghost use Rattle.std.specs.Prelude.{◌≡◌, List, [], ◌∷◌};
ghost use Rattle.std.specs.Borrow.{ftrue};
ghost use Rattle.host_file.specs.Events.{Event};
ghost use Rattle.host_file.specs.Notes.{event_of};

use std::marker::{Model, PhantomData};

// The kinds of calls.
const SIZED: u64 = 0;

const READ: u64 = 1;

const WRITTEN: u64 = 2;

const ZEROED: u64 = 3;

const RESIZED: u64 = 4;

/// The calls on a file that succeeded, with their answers, the newest first. It takes no memory.
///
/// `new` and `note` are proved by hand, because they set a list that no memory holds. Only `OsFile` and `MemoryFile` use them.
#[derive(Drop)]
pub struct Record {
    marker: PhantomData<u8>,
    pub ghost events: { List Event },
}

impl Model for Record {
    ghost also_owns = { λ _. ftrue };
}

impl Record {
    ghost use Rattle.host_file.specs.Events.Event.{Sized, Read, Written, Zeroed, Resized};

    // Creates an empty record.
    pub(crate) fn new() -> Record
        ensures { result.events ≡ [] }
    {
        Record {
            marker: PhantomData,
        }
    }

    // Notes a call. `kind` is one of the constants above.
    fn note(&mut self, _kind: u64, _offset: u64, _size: u64, _bytes: &[u8])
        ensures { self.new.events ≡ event_of _kind _offset _size _bytes.now ∷ self.old.events }
    {}

    // Notes the length that was returned.
    pub(crate) fn sized(&mut self, size: u64)
        ensures { self.new.events ≡ Sized size ∷ self.old.events }
    {
        self.note(SIZED, 0, size, &[]);
    }

    // Notes that these bytes were read.
    pub(crate) fn read(&mut self, offset: u64, bytes: &[u8])
        ensures { self.new.events ≡ Read offset bytes.now ∷ self.old.events }
    {
        self.note(READ, offset, 0, bytes);
    }

    // Notes that these bytes were written.
    pub(crate) fn written(&mut self, offset: u64, bytes: &[u8])
        ensures { self.new.events ≡ Written offset bytes.now ∷ self.old.events }
    {
        self.note(WRITTEN, offset, 0, bytes);
    }

    // Notes that zeroes were written over the range.
    pub(crate) fn zeroed(&mut self, offset: u64, size: u64)
        ensures { self.new.events ≡ Zeroed offset size ∷ self.old.events }
    {
        self.note(ZEROED, offset, size, &[]);
    }

    // Notes that the length was set.
    pub(crate) fn resized(&mut self, size: u64)
        ensures { self.new.events ≡ Resized size ∷ self.old.events }
    {
        self.note(RESIZED, 0, size, &[]);
    }
}
