//! The two ways along edges.
ghost use Rattle.std.specs.Prelude.{◌≡◌};

use toll_base::{Edge, LotId};

/// Which way a trace goes along the edges.
#[derive(Clone, Copy, Debug, PartialEq, Eq)]
pub enum Way {
    /// From a product to the lots that went into it: each edge reversed.
    Back,
    /// From a consumed lot to its products: each edge as it is.
    Forward,
}

impl Way {
    ghost use Rattle.toll_trace.specs.Chain.{step_ends};

    /// The lot that a step along the edge leaves, and the lot that it reaches.
    pub(crate) fn ends(self, edge: &Edge) -> (LotId, LotId)
        ensures { result ≡ step_ends self edge.now }
    {
        match self {
            Way::Back => (edge.to, edge.from),
            Way::Forward => (edge.from, edge.to),
        }
    }
}
