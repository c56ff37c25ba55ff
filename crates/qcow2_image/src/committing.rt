// Commits and cancels prepared mappings (runs that are written and not yet committed). A commit links the L2 entries of the guest clusters
// to their host clusters. Definitions: specs/Committing.antt.
ghost use Rattle.std.specs.Prelude.{◌≡◌, ◌≤◌, ◌-◌, ◌↔◌, IsTrue};
ghost use Rattle.qcow2_types.specs.Entries.{l2_entries};
ghost use Rattle.qcow2_image.specs.Committing.{CancelsUnspent, CommitsUnspent, GivesBack, IsLinkable, LinksHost, TakesUnspent, held_after};

use crate::mappings::Reserved;
use crate::qcow2::{PreparedMappingState, Qcow2};
use crate::reloading::drop_cached;
use crate::tables::Tables;
use crate::unspent::Unspent;
use imago_access::PreparedDataMapping;
use imago_storage::{Fault, Storage};
use qcow2_alloc::ClustersToFreeList;
use qcow2_clusters::{Space, link_run};
use qcow2_types::{
    ClusterCount, ClustersToFreeEntry, GuestCluster, HostCluster, MAX_OFFSET, PendingClusters,
};

// Returns true if L2 entries can reference the host clusters, and the entries of the guest clusters are in one L2 table.
fn is_linkable(
    host: HostCluster,
    count: ClusterCount,
    guest: GuestCluster,
    cluster_bits: u32,
    entries: usize,
) -> bool
    requires bits { (9 ≤ cluster_bits) × (cluster_bits ≤ 21) }
    requires entries { entries ≡ l2_entries cluster_bits }
    ensures { IsTrue result ↔ IsLinkable cluster_bits guest host count }
{
    let row = entries - guest.l2_index(cluster_bits);
    let most = MAX_OFFSET >> cluster_bits;
    if host.0 == 0 || count.0 == 0 || count.0 > row as u64 || host.0 > most {
        return false;
    }
    count.0 - 1 <= most - host.0
}

// Releases a reserved slot of the free list, if any. A preallocated zero cluster has none.
fn let_go(to_free: &mut ClustersToFreeList, is_kept: bool)
    ensures entries { to_free.new.entries ≡ to_free.old.entries }
    ensures held { to_free.new.held ≡ held_after is_kept to_free.old.held }
{
    if !is_kept {
        if let Some(hold) = to_free.reserved_slot() {
            to_free.release(hold);
        }
    }
}

// Links consecutive guest clusters to their host clusters, in their L2 table. Then it releases the slot of the free list.
pub(crate) fn link_host<S: Storage>(
    tables: &mut Tables<S>,
    clusters: Reserved,
    guest: GuestCluster,
) -> Result<(), Fault>
    ensures { LinksHost S.Storage clusters guest tables.old result tables.new }
{
    let cluster_bits = tables.file.header.cluster_bits();
    let entries = tables.file.header.l2_entries();
    if !is_linkable(clusters.host, clusters.count, guest, cluster_bits, entries) {
        return Err(Fault::DamagedTable);
    }
    let Some(mut space) = tables.space.take() else {
        return Err(Fault::DamagedTable);
    };
    let _dropped = drop_cached(&mut tables.caches);
    let named = link_run(
        &mut tables.file,
        &mut tables.caches,
        &mut space,
        clusters.table,
        guest,
        clusters.host,
        clusters.count,
    );
    match named {
        Ok(()) => {
            let_go(&mut space.to_free, clusters.is_kept);
            tables.space = Some(space);
            Ok(())
        }
        Err(fault) => {
            tables.space = Some(space);
            Err(fault)
        }
    }
}

// Adds host clusters that no entry references to the free list, if a slot is reserved for them. Otherwise they leak. A preallocated zero
// cluster stays preallocated.
fn give_back(space: &mut Option<Space>, host: HostCluster, count: ClusterCount, is_kept: bool)
    ensures { GivesBack is_kept host count space.old space.new }
{
    if is_kept {
        return;
    }
    let Some(space) = space else {
        return;
    };
    if let Some(hold) = space.to_free.reserved_slot() {
        let entry = ClustersToFreeEntry::data(host, count);
        space.to_free.give_back(hold, PendingClusters::new(entry));
    }
}

impl<S: Storage> Qcow2<S> {
    // Takes the prepared mapping out of the image, if it has this state.
    fn take_unspent(&mut self, state: PreparedMappingState) -> Option<Unspent<S>>
        ensures { TakesUnspent S.Storage state.mapping_id self.old result self.new }
    {
        let PreparedMappingState {
            number: _number,
            mapping_id,
        } = state;
        let is_it = match &self.unspent {
            Some(unspent) => unspent.mapping_id == mapping_id,
            None => false,
        };
        if is_it { self.unspent.take() } else { None }
    }

    // Links the guest clusters of a prepared mapping to their host clusters. Any error sets the image to failed, as a part may have been
    // written.
    pub(crate) fn commit_unspent(
        &mut self,
        state: PreparedMappingState,
    ) -> Result<(), (Fault, Option<PreparedDataMapping<PreparedMappingState>>)>
        ensures { CommitsUnspent S.Storage state.mapping_id self.old result self.new }
    {
        let Some(unspent) = self.take_unspent(state) else {
            return Ok(());
        };
        // Its contract bounds the bytes.
        let _bytes = self.tables.file.image.size();
        let clusters = Reserved {
            table: unspent.table,
            host: unspent.host,
            count: unspent.count,
            is_kept: unspent.is_kept,
        };
        match link_host(&mut self.tables, clusters, unspent.guest) {
            Ok(()) => Ok(()),
            Err(fault) => {
                self.failed = true;
                Err((fault, None))
            }
        }
    }

    // Cancels a prepared mapping. Its host clusters go to the free list, except a preallocated zero cluster.
    pub(crate) fn cancel_unspent(&mut self, state: PreparedMappingState)
        ensures { CancelsUnspent S.Storage state.mapping_id self.old self.new }
    {
        if let Some(unspent) = self.take_unspent(state) {
            give_back(
                &mut self.tables.space,
                unspent.host,
                unspent.count,
                unspent.is_kept,
            );
        }
    }
}
