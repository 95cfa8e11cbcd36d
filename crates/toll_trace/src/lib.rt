//! The genealogy of lots: the edges that recorded consumption draws between them, and traces
//! along these edges. IEC 62264-2 defines material lots and material actuals. This office's own
//! profile defines edges and traces.
#![tactic(auto)]

mod edge_index;
mod edges;
mod found;
mod graph;
mod in_order;
mod index;
mod laws;
mod numbers;
mod places;
mod plain;
mod recorded;
mod search;
mod several;
mod step;
mod way;

pub use edges::edges_of;
pub use graph::Graph;
pub use in_order::put_in_order;
pub use laws::traces_are_unique;
pub use plain::plain_trace;
pub use recorded::Recorded;
pub use several::trace_among;
pub use step::{Step, steps_are_ordered};
pub use way::Way;
