// The tables in memory: a list of entries of one kind, with the table's cluster in the file, and a dirty flag.
ghost use Rattle.std.specs.Prelude.{◌≡◌, ℕ, ◌^◌, ◌<◌, ◌≤◌, IsTrue, length, Some, None, true, false};
ghost use Rattle.qcow2_types.specs.Header.{layout_of};
ghost use Rattle.qcow2_types.specs.TableBytes.{AreFit};
ghost use Rattle.qcow2_metadata.specs.Tables.{IsTable, IsLength, AreSound, with_raw_entry, raw_entry_valid};

use crate::Header;
use crate::entries::TableEntry;
use crate::layout::TableLayout;
use crate::table::Table;
use qcow2_types::HostCluster;
use std::marker::Model;

/// A table of entries of one kind, kept in memory.
#[derive(Drop)]
pub struct EntryTable<E: TableEntry> {
    content: Vec<E>,
    layout: TableLayout,
    cluster: Option<HostCluster>,
    modified: bool,
}

impl<E: TableEntry> Model for EntryTable<E> {
    ghost use Rattle.qcow2_metadata.specs.Tables.{TableValue};

    ghost Value = { TableValue };

    ghost use Rattle.qcow2_metadata.specs.TableView.{seen_table, IsWordTable};

    ghost view = { seen_table E.raw_entries };

    ghost invariant = { IsWordTable E.raw_entries E.kind };
}

impl<E: TableEntry> Table for EntryTable<E> {
    type InternalEntry = E;

    type Entry = E;

    ghost value = { λ t. t };

    ghost MAX_ENTRIES = { E.MAX_ENTRIES };

    const NAME: &'static str = E::TABLE_NAME;

    const MAX_ENTRIES: usize = E::MAX_ENTRIES;

    fn from_data(content: Vec<E>, header: &Header) -> EntryTable<E>
        requires long { IsLength E.kind (layout_of header.now.fields) (length (E.raw_entries content.items)) }
        requires sound { AreSound E.kind (layout_of header.now.fields) (E.raw_entries content.items) }
        requires fit { AreFit (E.raw_entries content.items) }
        ensures { result ≡ record { layout = layout_of header.now.fields; raw_entries = E.raw_entries content.items; cluster = None; modified = true } }
    {
        EntryTable::of_raw_entries(content, TableLayout::of_header(header))
    }

    fn entries(&self) -> usize {
        self.content.len()
    }

    fn get_ref(&self, index: usize) -> Option<&E> {
        self.content.get(index)
    }

    fn get(&self, index: usize) -> E {
        match self.content.get(index) {
            Some(entry) => *entry,
            None => E::empty(),
        }
    }

    fn get_cluster(&self) -> Option<HostCluster> {
        self.cluster
    }

    fn set_cluster(&mut self, cluster: HostCluster) {
        self.cluster = Some(cluster);
        self.modified = true;
    }

    fn unset_cluster(&mut self) {
        self.cluster = None;
    }

    fn cluster_bits(&self) -> u32 {
        self.layout.cluster_bits()
    }

    fn is_modified(&self) -> bool {
        self.modified
    }

    fn set_modified(&mut self) {
        self.modified = true;
    }

    fn clear_modified(&mut self) {
        self.modified = false;
    }

    ghost few = { E.few };
}

impl<E: TableEntry> EntryTable<E> {
    /// Returns the table of these entries. Each entry must be valid in an image of this layout. The table has no cluster in the file yet,
    /// and is dirty.
    pub(crate) fn of_raw_entries(content: Vec<E>, layout: TableLayout) -> EntryTable<E>
        requires long { IsLength E.kind layout (length (E.raw_entries content.items)) }
        requires sound { AreSound E.kind layout (E.raw_entries content.items) }
        requires fit { AreFit (E.raw_entries content.items) }
        ensures { result ≡ record { layout = layout; raw_entries = E.raw_entries content.items; cluster = None; modified = true } }
    {
        let _ = layout.cluster_bits();
        EntryTable {
            content,
            layout,
            cluster: None,
            modified: true,
        }
    }

    /// Returns the header values that the meaning of the entries depends on.
    pub(crate) fn layout(&self) -> TableLayout
        ensures value { result ≡ self.now.layout }
        ensures table { IsTable E.kind self.now }
    {
        self.layout
    }

    /// Returns the entries.
    pub(crate) fn content(&self) -> &[E]
        ensures value { E.raw_entries result.now ≡ self.now.raw_entries }
        ensures table { IsTable E.kind self.now }
    {
        &self.content
    }

    /// Sets the entry at an index. The table is now dirty.
    pub(crate) fn set_entry(&mut self, index: usize, entry: E)
        requires bounds { index < length self.old.raw_entries }
        requires sound { IsTrue (raw_entry_valid E.kind self.old.layout (E.raw_entry entry)) }
        requires fits { E.raw_entry entry < 2 ^ 64 }
        ensures { self.new ≡ with_raw_entry self.old index (E.raw_entry entry) }
    {
        self.content[index] = entry;
        self.modified = true;
    }
}
