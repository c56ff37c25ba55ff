// The values of a case (a script with its own file): the file, the storage that holds it, a header, and one table of each kind.
ghost use Rattle.std.specs.Prelude.{◌≤◌};

use crate::answer::{Answer, answered};
use crate::blocks::{block_call, block_in_file, load_block, new_block};
use crate::file::{Image, image_of, look};
use crate::headers::{
    header_call, header_in_file, link_l1, load_header, name_reftable, new_header,
};
use crate::l2::{copy_of, l2_call, load_l2, new_l2, stored_call, write_if_modified};
use crate::tables::table_words;
use crate::upper::upper_words;
use cases::{Notes, Trouble, number, ok, size};
use qcow2_metadata::{Header, L1Table, L2Table, RefBlock, RefTable, Table};
use qcow2_types::HostCluster;
use std::alloc::Global;
use std::cell::Cell;
/// The values of a case. Each of them except the file is `None` until a call makes or loads it.

#[derive(Drop)]
pub struct Metadata<'a> {
    notes: &'a Cell<Notes>,
    pub file: Vec<u8>,
    image: Option<Image<'a>>,
    header: Option<Header>,
    l1: Option<L1Table>,
    l2: Option<L2Table>,
    reftable: Option<RefTable>,
    block: Option<RefBlock>,
}

// Returns true if only L2 tables have calls that begin with this word.
fn is_alone(word: &str) -> bool {
    matches!(
        word,
        "mapping" | "guard" | "packed" | "map" | "zero" | "discard"
    )
}

// Parses the number of a host cluster.
fn cluster(word: &str) -> Result<HostCluster, Trouble> {
    Ok(HostCluster(number(word)?))
}
/// Creates the values of an empty case. The storages record their requests in `notes`.

impl<'a> Metadata<'a> {
    pub fn new(alloc: Global, notes: &'a Cell<Notes>) -> Self {
        Metadata {
            notes,
            file: Vec::new(alloc),
            image: None,
            header: None,
            l1: None,
            l2: None,
            reftable: None,
            block: None,
        }
    }

    /// Drops all values of the case.
    pub fn clear(&mut self) {
        self.notes.set(Notes::none());
        self.file.clear();
        self.image = None;
        self.header = None;
        self.l1 = None;
        self.l2 = None;
        self.reftable = None;
        self.block = None;
    }

    /// Puts the file into a storage with alignment `align` whose `n`th call fails.
    pub fn open(&mut self, alloc: Global, align: &str, n: &str) -> Result<String, Trouble> {
        let image = image_of(&self.file, size(align)?, number(n)?, self.notes)?;
        self.image = Some(image);
        Ok(ok(alloc)?)
    }

    /// Returns what the storage holds, or which requests it got.
    pub fn look(&mut self, alloc: Global, words: &[&str]) -> Result<String, Trouble> {
        match &mut self.image {
            Some(image) => look(alloc, image, self.notes, words),
            None => Err(Trouble::NoCall),
        }
    }

    /// Returns the header, if the case has one.
    pub fn header(&self) -> Result<&Header, Trouble> {
        match &self.header {
            Some(header) => Ok(header),
            None => Err(Trouble::NoCall),
        }
    }

    fn load_header(&mut self, alloc: Global, word: &str) -> Result<Answer, Trouble> {
        let Some(image) = &mut self.image else {
            return Err(Trouble::NoCall);
        };
        let header = load_header(alloc, image, word)?;
        self.header = Some(header);
        Ok(Answer::Done)
    }

    fn new_header(&mut self, alloc: Global, words: &[&str]) -> Result<Answer, Trouble> {
        let header = new_header(alloc, words)?;
        self.header = Some(header);
        Ok(Answer::Done)
    }

    fn header_in_file(&mut self, alloc: Global, words: &[&str]) -> Result<String, Trouble> {
        let (Some(header), Some(image)) = (&mut self.header, &mut self.image) else {
            return Err(Trouble::NoCall);
        };
        header_in_file(alloc, header, image, words)
    }

    fn header_alone(&mut self, alloc: Global, words: &[&str]) -> Result<String, Trouble> {
        match &mut self.header {
            Some(header) => header_call(alloc, header, words),
            None => Err(Trouble::NoCall),
        }
    }

    fn link_l1(&mut self, alloc: Global) -> Result<String, Trouble> {
        let (Some(header), Some(table)) = (&mut self.header, &self.l1) else {
            return Err(Trouble::NoCall);
        };
        link_l1(alloc, header, table)
    }

    fn name_reftable(&mut self, alloc: Global) -> Result<String, Trouble> {
        let (Some(header), Some(table)) = (&mut self.header, &self.reftable) else {
            return Err(Trouble::NoCall);
        };
        name_reftable(alloc, header, table)
    }

    /// Makes a call of the header.
    pub fn header_words(&mut self, alloc: Global, words: &[&str]) -> Result<String, Trouble> {
        match words {
            ["load", word] => answered(alloc, self.load_header(alloc, word)),
            ["new", rest @ ..] => answered(alloc, self.new_header(alloc, rest)),
            ["set_l1"] => self.link_l1(alloc),
            ["set_reftable"] => self.name_reftable(alloc),
            ["write", ..] | ["update", ..] => self.header_in_file(alloc, words),
            _ => self.header_alone(alloc, words),
        }
    }

    /// Makes a call of the L1 table.
    pub fn l1_words(&mut self, alloc: Global, words: &[&str]) -> Result<Answer, Trouble> {
        let tables = (&mut self.l1, &self.l2);
        upper_words(alloc, tables, &self.header, &mut self.image, words)
    }

    /// Makes a call of the refcount table.
    pub fn reftable_words(&mut self, alloc: Global, words: &[&str]) -> Result<Answer, Trouble> {
        let tables = (&mut self.reftable, &self.block);
        upper_words(alloc, tables, &self.header, &mut self.image, words)
    }

    fn load_l2(&mut self, alloc: Global, cluster: HostCluster) -> Result<Answer, Trouble> {
        let (Some(header), Some(image)) = (&self.header, &mut self.image) else {
            return Err(Trouble::NoCall);
        };
        let table = load_l2(alloc, image, header, cluster)?;
        self.l2 = Some(table);
        Ok(Answer::Done)
    }

    fn new_l2(&mut self, alloc: Global) -> Result<Answer, Trouble> {
        let table = new_l2(alloc, self.header()?)?;
        self.l2 = Some(table);
        Ok(Answer::Done)
    }

    fn copy_l2(&mut self, alloc: Global) -> Result<Answer, Trouble> {
        let Some(table) = &self.l2 else {
            return Err(Trouble::NoCall);
        };
        let table = copy_of(alloc, table)?;
        self.l2 = Some(table);
        Ok(Answer::Done)
    }

    fn write_l2_if_modified(&mut self, alloc: Global) -> Result<Answer, Trouble> {
        let (Some(table), Some(image)) = (&mut self.l2, &mut self.image) else {
            return Err(Trouble::NoCall);
        };
        write_if_modified(alloc, table, image)
    }

    // Makes a call of the L2 table in a cluster of the file. The table is only read.
    fn l2_stored(
        &mut self,
        alloc: Global,
        cluster: HostCluster,
        words: &[&str],
    ) -> Result<String, Trouble> {
        let (Some(header), Some(image)) = (&self.header, &mut self.image) else {
            return Err(Trouble::NoCall);
        };
        stored_call(alloc, image, header, cluster, words)
    }

    // Makes a call that only L2 tables have.
    fn l2_alone(&mut self, alloc: Global, words: &[&str]) -> Result<String, Trouble> {
        match &mut self.l2 {
            Some(table) => l2_call(alloc, table, words),
            None => Err(Trouble::NoCall),
        }
    }

    /// Makes a call of the L2 table.
    pub fn l2_words(&mut self, alloc: Global, words: &[&str]) -> Result<String, Trouble> {
        match words {
            ["load", word] => answered(alloc, self.load_l2(alloc, cluster(word)?)),
            ["stored", word, rest @ ..] => self.l2_stored(alloc, cluster(word)?, rest),
            ["new"] => answered(alloc, self.new_l2(alloc)),
            ["copy"] => answered(alloc, self.copy_l2(alloc)),
            ["write_if_modified"] => answered(alloc, self.write_l2_if_modified(alloc)),
            [word, ..] if is_alone(word) => self.l2_alone(alloc, words),
            _ => answered(
                alloc,
                table_words(alloc, &mut self.l2, &mut self.image, words),
            ),
        }
    }

    fn load_block(&mut self, alloc: Global, cluster: HostCluster) -> Result<Answer, Trouble> {
        let (Some(header), Some(image)) = (&self.header, &mut self.image) else {
            return Err(Trouble::NoCall);
        };
        let block = load_block(alloc, image, header, cluster)?;
        self.block = Some(block);
        Ok(Answer::Done)
    }

    fn new_block(&mut self, alloc: Global) -> Result<Answer, Trouble> {
        let block = new_block(alloc, self.header()?)?;
        self.block = Some(block);
        Ok(Answer::Done)
    }

    fn block_in_file(&mut self, alloc: Global, words: &[&str]) -> Result<Answer, Trouble> {
        let (Some(block), Some(image)) = (&mut self.block, &mut self.image) else {
            return Err(Trouble::NoCall);
        };
        block_in_file(alloc, block, image, words)
    }

    fn block_alone(&mut self, words: &[&str]) -> Result<Answer, Trouble> {
        match &mut self.block {
            Some(block) => block_call(block, words),
            None => Err(Trouble::NoCall),
        }
    }

    /// Makes a call of the refcount block.
    pub fn block_words(&mut self, alloc: Global, words: &[&str]) -> Result<Answer, Trouble> {
        match words {
            ["load", word] => self.load_block(alloc, cluster(word)?),
            ["new"] => self.new_block(alloc),
            ["write" | "write_if_modified"] => self.block_in_file(alloc, words),
            _ => self.block_alone(words),
        }
    }
}
