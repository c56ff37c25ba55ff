// The numbers of L2 tables and refcount blocks that the caches of an image hold.
ghost use Rattle.std.specs.Prelude.{◌≡◌, ◌≤◌, ◌↔◌, IsOk, IfOk, IsOkUnless};
ghost use Rattle.std.proofs.Props.{props};
ghost use Rattle.imago_storage.specs.declared.fault.Fault.{Fault};
ghost use Rattle.qcow2_image.specs.Caching.{AreCacheSizes};

use imago_storage::Fault;

/// The largest numbers of L2 tables and refcount blocks that are kept in memory.
#[derive(Drop)]
pub(crate) struct CacheEntries {
    pub(crate) l2_tables: usize,
    pub(crate) refcount_blocks: usize,
    ghost sized: { AreCacheSizes l2_tables refcount_blocks } by { Prim.hlevel props },
}

impl CacheEntries {
    // Returns the default: 128 L2 tables and 32 refcount blocks.
    pub(crate) fn usual() -> Self
        ensures { (result.l2_tables ≡ 128) × (result.refcount_blocks ≡ 32) }
    {
        CacheEntries {
            l2_tables: 128,
            refcount_blocks: 32,
        }
    }

    // Returns these numbers of entries, each from 2 to 65,536. Any other number is `Fault::BadArgument`.
    pub(crate) fn new(l2_tables: usize, refcount_blocks: usize) -> Result<Self, Fault>
        ensures entries { IfOk result (λ e. (e.l2_tables ≡ l2_tables) × (e.refcount_blocks ≡ refcount_blocks)) }
        ensures ok { IsOk result ↔ AreCacheSizes l2_tables refcount_blocks }
        ensures err { IsOkUnless result Fault.BadArgument }
    {
        let sizes = 2..=65_536;
        if !sizes.contains(&l2_tables) || !sizes.contains(&refcount_blocks) {
            return Err(Fault::BadArgument);
        }
        Ok(CacheEntries {
            l2_tables,
            refcount_blocks,
        })
    }
}
