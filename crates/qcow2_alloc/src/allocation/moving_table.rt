//! Writes a grown refcount table to its free area: sets the area's refcounts, writes its missing blocks and the table, and makes the header
//! reference the table by one request.
ghost use Rattle.std.specs.Prelude.{◌≡◌, ◌≢◌, ◌≤◌, ◌<◌, ◌+◌, ◌-◌, ◌*◌, ◌^◌, ℕ, List, OnOk, OnErr, IfErr, IsOkUnless, length};
ghost use Rattle.qcow2_metadata.specs.Places.{IsAddressable};
ghost use Rattle.qcow2_metadata.specs.Tables.{IsPlacedTable};
ghost use Rattle.qcow2_types.specs.Counts.{counters_of_block};
ghost use Rattle.qcow2_types.specs.Pending.{FreeEntry};
ghost use Rattle.qcow2_alloc.specs.Allocators.{table_of, first_free_of};
ghost use Rattle.qcow2_alloc.specs.Caches.{cached_in, KeepsTables};
ghost use Rattle.qcow2_alloc.specs.Finding.{PinsNothing};
ghost use Rattle.qcow2_alloc.specs.Growing.{lacking};
ghost use Rattle.qcow2_alloc.specs.MovingTables.{MovesTable, LinksNewBlocks, ForgetsRun, IsPinnedWithin, TakesFreeArea, IsPlan, EntersFree, waiting_then};
ghost use Rattle.qcow2_alloc.specs.State.{image_state};

use crate::allocation::Allocator;
use crate::allocation::searching::Run;
use crate::cache::MetadataCaches;
use crate::file::ImageFile;
use imago_storage::{Fault, Storage};
use qcow2_metadata::{Header, RefBlock, RefTable, Table};
use qcow2_types::HostCluster;

impl Allocator {
    // Writes a grown copy of the refcount table to a free area, and makes it the image's table.
    //
    // The call fails with `Fault::Memory`; with `Fault::Storage`; with `Fault::CacheFull` like the public calls, and then some clusters of
    // the area may leak; and with `Fault::Counter` and `Fault::DamagedTable`, which a consistent image rules out.
    pub(super) fn fill_free_area<S: Storage>(
        &mut self,
        file: &mut ImageFile<S>,
        caches: &mut MetadataCaches<S>,
        table: RefTable,
        room: Run,
    ) -> Result<(), Fault>
        requires { IsPlan file.old.header.fields (table_of self.old) room table }
        ensures fills { (pending : List FreeEntry)
            → EntersFree S.state room table (image_state (table_of self.old) caches.old file.old pending) result
            (image_state (table_of self.new) caches.new file.new (waiting_then result file.old.header.fields pending)) }
        ensures mark { first_free_of self.new ≡ first_free_of self.old }
    {
        self.take_free_area(file, caches, room)?;
        self.move_table(file, table)
    }

    // Sets the refcounts of a free area, and writes its missing blocks to its first clusters. Refcounts in old blocks are in the file
    // before new blocks are referenced.
    fn take_free_area<S: Storage>(
        &self,
        file: &mut ImageFile<S>,
        caches: &mut MetadataCaches<S>,
        room: Run,
    ) -> Result<(), Fault>
        requires reach { IsAddressable file.old.header.fields.cluster_bits (room.first + (room.len - 1)) }
        requires blocks_fit { lacking (table_of self.now) (counters_of_block file.old.header.fields) room.first room.len ≤ room.len }
        ensures { (pending : List FreeEntry)
            → TakesFreeArea S.state room (image_state (table_of self.now) caches.old file.old pending) result
            (image_state (table_of self.now) caches.new file.new pending) }
    {
        self.count_referenced(file, caches, room)?;
        caches.flush_rb(file)?;
        // Blocks that are cached for these clusters are stale.
        let blocks = self.lacking_for(room, file.header.rb_bits());
        forget_run(caches, room.first(), blocks)?;
        self.write_new_blocks(file, room)
    }

    // Writes a table to its clusters, and then makes the header reference it instead of the old refcount table.
    fn move_table<S: Storage>(
        &mut self,
        file: &mut ImageFile<S>,
        mut table: RefTable,
    ) -> Result<(), Fault>
        requires placed { IsPlacedTable table }
        requires table_bounded { length table.raw_entries ≤ 2 ^ 20 }
        requires bits { table.layout.cluster_bits ≡ file.old.header.fields.cluster_bits }
        requires old_placed { IsPlacedTable (table_of self.old) }
        requires old_bits { (table_of self.old).layout.cluster_bits ≡ file.old.header.fields.cluster_bits }
        ensures moves { MovesTable S.state table (table_of self.old) file.old result (table_of self.new) file.new }
        ensures mark { first_free_of self.new ≡ first_free_of self.old }
    {
        table.write(self.alloc, &mut file.image)?;
        file.header.set_reftable(&table);
        match file
            .header
            .write_reftable_pointer(self.alloc, &mut file.image)
        {
            Ok(()) => {
                self.reftable = table;
                Ok(())
            }
            Err(fault) => {
                file.header.set_reftable(&self.reftable);
                Err(fault)
            }
        }
    }

    // Makes entries of a table reference the missing blocks of a run: they are in its first clusters, in the order of their indices.
    pub(super) fn link_new_blocks(
        &self,
        table: &mut RefTable,
        header: &Header,
        run: Run,
    ) -> Result<(), Fault>
        requires bits { table.old.layout.cluster_bits ≡ header.now.fields.cluster_bits }
        requires start_nonzero { run.first ≢ 0 }
        requires reach { IsAddressable header.now.fields.cluster_bits (run.first + (run.len - 1)) }
        requires inside { run.first + run.len ≤ length table.old.raw_entries * counters_of_block header.now.fields }
        requires room { lacking (table_of self.now) (counters_of_block header.now.fields) run.first run.len ≤ run.len }
        ensures ok { OnOk result (LinksNewBlocks header.now.fields (table_of self.now) run table.old table.new) }
        ensures err { IsOkUnless result Fault.Memory }
    {
        // This block only carries the cluster for each entry.
        let mut block = RefBlock::new_cleared(self.alloc, header)?;
        let rb_bits = header.rb_bits();
        let HostCluster(end) = run.next();
        let HostCluster(mut place) = run.first();
        let mut index = run.first().rt_index(rb_bits);
        while HostCluster::from_ref_indices(index, 0, rb_bits).0 < end {
            if self.block_cluster(index).is_none() {
                block.set_cluster(HostCluster(place));
                table.enter_refblock(index, &block, None);
                place += 1;
            }
            index += 1;
        }
        Ok(())
    }
}

// Drops the cached refcount blocks of `count` clusters from `first` on, without writing them. It stops at a block that is pinned.
fn forget_run<S: Storage>(
    caches: &mut MetadataCaches<S>,
    first: HostCluster,
    count: u64,
) -> Result<(), Fault>
    requires fits { first + count ≤ 2 ^ 64 }
    ensures forgets { ForgetsRun first count (cached_in caches.old) result (cached_in caches.new) }
    ensures order { caches.new.order ≡ caches.old.order }
    ensures pins { PinsNothing (cached_in caches.old).blocks (cached_in caches.new).blocks }
    ensures room { KeepsTables caches.old caches.new }
    ensures err { IfErr result (λ fault. (fault ≡ Fault.CacheFull) × IsPinnedWithin first count caches.old) }
{
    for index in 0..count {
        caches.rb_forget(HostCluster(first.0 + index))?;
    }
    Ok(())
}
