//! The keep of the office's rows, and the simplest implementation: lists in memory.
#![tactic(auto)]

mod cache;
mod cached_keep;
mod cached_reading;
mod drawing;
mod everyone;
mod ghosts;
mod holder;
mod keep;
mod keep_fault;
mod known_graph;
mod mem_keep;
mod plant_row;
mod remembered;
mod slices;
mod staged_changes;
mod tracing;

pub use cached_keep::CachedKeep;
pub use ghosts::{
    a_cached_keep_has_rows_for_some_owners, a_cached_keep_has_the_content_inside,
    a_cached_keep_is_as_open_as_the_one_inside, a_keep_in_memory_has_its_content,
    a_keep_in_memory_has_rows_for_some_owners, a_keep_in_memory_is_always_open,
};
pub use holder::Holder;
pub use keep::Keep;
pub use keep_fault::KeepFault;
pub use mem_keep::MemKeep;
pub use staged_changes::StagedChanges;
