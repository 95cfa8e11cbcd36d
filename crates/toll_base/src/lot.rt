//! Lots: their names, their origin and their disposition.
ghost use Rattle.std.specs.Prelude.{◌≡◌};
ghost use Rattle.toll_base.specs.Lots.{lot_cmp, edge_cmp};
ghost use Rattle.toll_base.specs.ValueWords.{disposition_word};

use crate::bounded::BatchNo;
use crate::name::Name;
use std::cmp::Ordering;

/// What may be done with a lot (the status of a material lot, IEC 62264-2).
#[derive(Clone, Copy, PartialEq, Eq)]
pub enum Disposition {
    /// The first disposition, and again after a result out of limits. The lot takes material, and
    /// gives none to a batch or a shipment.
    Quarantined,
    /// The lot gives material, and takes none.
    Released,
    /// Final. The lot takes no material, and gives none to a batch or a shipment.
    Rejected,
}

impl Disposition {
    /// How it is printed: `quarantined`, `released` or `rejected`.
    pub fn word(&self) -> &'static str
        ensures { result.now ≡ disposition_word self.now }
    {
        match self {
            Disposition::Quarantined => "quarantined",
            Disposition::Released => "released",
            Disposition::Rejected => "rejected",
        }
    }
}

/// The origin of a lot: receipts, or one batch of its owner, never both.
#[derive(Clone, Copy)]
pub enum Origin {
    Receipts,
    Batch { order: Name, number: BatchNo },
}

/// A lot of an owner. Lots are ordered by their owner, then by their name.
#[derive(Clone, Copy, Debug, PartialEq, Eq, PartialOrd, Ord)]
pub struct LotId {
    pub owner: Name,
    pub lot: Name,
}

/// A step of genealogy: material of one lot went into the other.
#[derive(Clone, Copy, Debug, PartialEq, Eq, PartialOrd, Ord)]
pub struct Edge {
    pub from: LotId,
    pub to: LotId,
}

/// Lots are ordered by their owner, then by their name, and edges by the lot that they lead from, then
/// by the one that they lead to.
pub fn lots_and_edges_are_ordered(lots: (LotId, LotId), edges: (Edge, Edge)) -> (Ordering, Ordering)
    ensures lots { result.0 ≡ lot_cmp lots.0 lots.1 }
    ensures edges { result.1 ≡ edge_cmp edges.0 edges.1 }
{
    (lots.0.cmp(&lots.1), edges.0.cmp(&edges.1))
}
