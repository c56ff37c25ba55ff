//! The L2 tables and refcount blocks of a qcow2 image in memory: caches with a write order, and the allocator of clusters. The write order
//! keeps the file consistent after a crash between any two requests. A block is a refcount block. Terms are explained in docs/GLOSSARY.md.
#![tactic(auto)]

mod allocation;
mod async_lru_cache;
mod cache;
mod clusters_to_free;
mod file;
pub mod laws;

pub use allocation::Allocator;
pub use async_lru_cache::{AsyncLruCache, AsyncLruCacheBackend, NotLent, Slot};
pub use cache::{CacheDependency, L2CacheBackend, MetadataCaches, RefBlockCacheBackend};
pub use clusters_to_free::{ClustersToFreeList, PendingAllocation, ReservedSlot};
pub use file::ImageFile;
