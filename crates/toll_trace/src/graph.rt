//! Traces over joints.
ghost use Rattle.std.specs.Prelude.{◌≡◌, ◌++◌, length, map, Contains, IfOk, OnOk};
ghost use Rattle.std.specs.List.Sorted.{IsStrictlySortedBy-prop};
ghost use Rattle.toll_base.specs.Lots.{lot_cmp};
ghost use Rattle.toll_trace.specs.Chain.{IsJoined};
ghost use Rattle.toll_trace.specs.Common.{IsStrictlySortedBy};
ghost use Rattle.toll_trace.specs.Numbers.{AreBelow, HaveUsed};
ghost use Rattle.toll_trace.specs.Trace.{IsTrace};

use crate::edge_index::EdgeIndex;
use crate::in_order::put_in_order;
use crate::numbers::numbered;
use crate::places::Place;
use crate::recorded::Recorded;
use crate::several::trace_among;
use crate::step::Step;
use crate::way::Way;
use std::alloc::{AllocError, Global};
use toll_base::{Edge, LotId, Slice};

/// Joints for both ways along edges, for traces over many edges. Lots are numbers there: their places
/// in the list of the graph's lots.
#[derive(Drop)]
pub struct Graph {
    /// In order, each once.
    pub(crate) lots: Vec<LotId>,
    forward: EdgeIndex,
    back: EdgeIndex,
    ghost sorted: { IsStrictlySortedBy lot_cmp lots.items } by { IsStrictlySortedBy-prop lot_cmp lots.items },
    ghost forward_within: { AreBelow (length lots.items) forward.targets.items },
    ghost back_within: { AreBelow (length lots.items) back.targets.items },
}

impl Graph {
    ghost use Rattle.std.specs.Prelude.{List};
    ghost use Rattle.toll_base.specs.declared.lot.Edge.{Edge};
    ghost use Rattle.toll_trace.specs.Graph.{IsGraph, IsGraphOf, Leads, joints_of};
    ghost use Rattle.toll_trace.specs.Edges.{IsEdge};
    ghost use Rattle.toll_trace.specs.Recorded.{Draws};

    /// A graph of these edges. The list may have repeats, loops and cycles. It fails only if memory runs out.
    pub fn build(alloc: Global, edges: &[Edge]) -> Result<Self, AllocError>
        ensures { IfOk result (IsGraphOf edges.now) }
    {
        let lots = lots_joined(alloc, edges)?;
        let forward = EdgeIndex::of_edges(alloc, &lots, edges, Way::Forward)?;
        let back = EdgeIndex::of_edges(alloc, &lots, edges, Way::Back)?;
        Ok(Graph {
            lots,
            forward,
            back,
        })
    }

    /// A graph of the edges that standing actuals of the slice draw. It fails only if memory runs out.
    pub fn of_slice(alloc: Global, slice: &Slice) -> Result<Self, AllocError>
        ensures { IfOk result (IsGraph (IsEdge slice.now)) }
    {
        Graph::of_recorded(alloc, Recorded::new(alloc).with(alloc, slice)?)
    }

    /// A graph of the edges that the recorded uses draw. It fails only if memory runs out.
    pub fn of_recorded(alloc: Global, recorded: Recorded) -> Result<Self, AllocError>
        ensures { IfOk result (IsGraph (Draws recorded)) }
    {
        let lots = lots_used(alloc, &recorded.consumptions, &recorded.productions)?;
        let mut consumptions = numbered(alloc, &lots, &recorded.consumptions)?;
        let mut productions = numbered(alloc, &lots, &recorded.productions)?;
        let forward = EdgeIndex::of_uses(alloc, &consumptions, &mut productions, Way::Forward)?;
        let back = EdgeIndex::of_uses(alloc, &productions, &mut consumptions, Way::Back)?;
        Ok(Graph {
            lots,
            forward,
            back,
        })
    }

    /// Every lot that ends a chain of the graph's edges from the lot: the same steps as those of
    /// [`crate::plain_trace`]. It walks each joint once at most. It fails only if memory runs out.
    pub fn trace(&self, alloc: Global, from: &LotId, way: Way) -> Result<Vec<Step>, AllocError>
        ensures led { IfOk result (λ trace. IsTrace (Leads self.now way) from.now trace.items) }
        ensures edges { IfOk result (λ trace. (edges : List Edge) → IsGraphOf edges self.now
            → IsTrace (IsJoined edges way) from.now trace.items) }
    {
        trace_among(alloc, &[self], from, way)
    }

    /// The joints for that way.
    pub(crate) fn joints(&self, way: Way) -> &EdgeIndex
        ensures joints { result.now ≡ joints_of way self.now }
        ensures within { AreBelow (length self.now.lots.items) result.now.targets.items }
        ensures sorted { IsStrictlySortedBy lot_cmp self.now.lots.items }
    {
        match way {
            Way::Back => &self.back,
            Way::Forward => &self.forward,
        }
    }
}

/// The lots that the edges join, in order, each once.
fn lots_joined(alloc: Global, edges: &[Edge]) -> Result<Vec<LotId>, AllocError>
    ensures sorted { IfOk result (λ lots. IsStrictlySortedBy lot_cmp lots.items) }
    ensures every { IfOk result (λ lots. (e : _) → Contains edges.now e
        → Contains lots.items e.from × Contains lots.items e.to) }
{
    let mut lots = Vec::new(alloc);
    for edge in edges {
        lots.push(edge.from)?;
        lots.push(edge.to)?;
    }
    put_in_order(&mut lots);
    Ok(lots)
}

/// The lots that are consumed or produced, in order, each once.
fn lots_used(
    alloc: Global,
    consumptions: &[(Place, LotId)],
    productions: &[(Place, LotId)],
) -> Result<Vec<LotId>, AllocError>
    ensures sorted { IfOk result (λ lots. IsStrictlySortedBy lot_cmp lots.items) }
    ensures used { IfOk result (λ lots. HaveUsed consumptions.now productions.now lots.items) }
{
    let mut lots = Vec::new(alloc);
    add_used(&mut lots, consumptions)?;
    add_used(&mut lots, productions)?;
    put_in_order(&mut lots);
    Ok(lots)
}

/// Adds the lots of these uses.
fn add_used(lots: &mut Vec<LotId>, uses: &[(Place, LotId)]) -> Result<(), AllocError>
    ensures { OnOk result (lots.new.items ≡ lots.old.items ++ map (λ used. used.1) uses.now) }
{
    for (_, lot) in uses {
        lots.push(*lot)?;
    }
    Ok(())
}
