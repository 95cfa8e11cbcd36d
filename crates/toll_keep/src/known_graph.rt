//! Remembered graphs of owners.
ghost use Rattle.std.specs.Prelude.{◌≡◌, IfOk};
ghost use Rattle.toll_trace.specs.Edges.{IsEdge};
ghost use Rattle.toll_trace.specs.Graph.{IsGraph};

use std::alloc::{AllocError, Global};
use toll_base::{Name, Slice};
use toll_trace::Graph;

/// The graph of the edges of an owner's own batches.
pub struct KnownGraph {
    pub owner: Name,
    /// The owner that the slice of the owner's rows names. Changes of that owner's rows change the
    /// graph. It is the same owner in everything that a keep stores.
    pub named: Name,
    pub graph: Graph,
}

/// Written by hand: a derived `Drop` is expanded at every exit of every function that owns one.
impl Drop for KnownGraph {
    fn drop(self) {
        let KnownGraph {
            owner: _,
            named: _,
            graph: _,
        } = self;
    }
}

impl KnownGraph {
    /// The graph of the owner with these rows. It fails only if memory runs out.
    pub fn of(alloc: Global, owner: &Name, slice: &Slice) -> Result<Self, AllocError>
        ensures owner { IfOk result (λ known. known.owner ≡ owner.now) }
        ensures named { IfOk result (λ known. known.named ≡ slice.now.owner) }
        ensures graph { IfOk result (λ known. IsGraph (IsEdge slice.now) known.graph) }
    {
        Ok(KnownGraph {
            owner: *owner,
            named: *slice.owner(),
            graph: Graph::of_slice(alloc, slice)?,
        })
    }
}
