// The pages that were missing.
ghost use Rattle.std.specs.Prelude.{◌≡◌, ◌⊎◌};

use imago_storage::Fault;
use std::alloc::Global;
use std::cell::RefCell;

/// A page that was missing in a read.
#[derive(Clone, Copy, Debug, PartialEq, Eq)]
pub struct Miss {
    /// The number of the file that its storage got.
    pub file: usize,
    /// The number of the page in that file.
    pub page: u64,
}

/// The pages that were missing in reads, in the order of the reads. A page may occur more than once.
#[derive(Drop)]
pub struct Misses {
    pages: RefCell<Vec<Miss>>,
}

impl Misses {
    /// Returns an empty list.
    pub fn new(alloc: Global) -> Self {
        Misses {
            pages: RefCell::new(Vec::new(alloc)),
        }
    }

    /// Notes a page. Returns the error of the read.
    pub fn note(&self, miss: Miss) -> Fault
        ensures { (result ≡ Fault.Storage) ⊎ (result ≡ Fault.Memory) }
    {
        let Ok(mut pages) = self.pages.try_borrow_mut() else {
            return Fault::Storage;
        };
        match pages.push(miss) {
            Ok(()) => Fault::Storage,
            Err(_) => Fault::Memory,
        }
    }

    /// Returns the pages that were noted.
    pub fn into_pages(self) -> Vec<Miss> {
        self.pages.into_inner()
    }
}
