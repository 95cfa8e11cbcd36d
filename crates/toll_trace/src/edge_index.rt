//! Joints, through which lots lead to one another.
ghost use Rattle.std.specs.Prelude.{◌≡◌, length, map, IfOk};
ghost use Rattle.std.specs.List.Sorted.{IsSortedBy};
ghost use Rattle.std.specs.Ordering.{is_lt};
ghost use Rattle.toll_trace.specs.EdgeIndex.{AreWithin};
ghost use Rattle.toll_trace.specs.Places.{order_along, chain_segment_cmp, AreAhead};

use crate::index::Index;
use crate::numbers::number_in;
use crate::places::{Place, ahead_of, put_in_order_along};
use crate::way::Way;
use std::alloc::{AllocError, Global};
use toll_base::{Edge, LotId};

/// Neighbouring joints: those from `start` on, before `end`.
#[derive(Clone, Copy)]
pub(crate) struct Span {
    pub(crate) start: usize,
    pub(crate) end: usize,
}

/// Lots enter spans of joints, and at each joint a lot leaves. A lot that enters a span leads to all
/// lots that leave it. A lot is a number: its place in the graph's list of lots.
#[derive(Drop)]
pub(crate) struct EdgeIndex {
    pub(crate) sources: Index<usize, Span>,
    pub(crate) targets: Vec<usize>,
    ghost within: { AreWithin targets.items sources },
}

impl EdgeIndex {
    ghost use Rattle.std.specs.Prelude.{◌↔◌, ℕ, Contains};
    ghost use Rattle.toll_base.specs.declared.lot.LotId.{LotId};
    ghost use Rattle.toll_base.specs.Lots.{lot_cmp};
    ghost use Rattle.toll_trace.specs.Chain.{IsJoined};
    ghost use Rattle.toll_trace.specs.Common.{IsStrictlySortedBy};
    ghost use Rattle.toll_trace.specs.EdgeIndex.{LeadsThrough};
    ghost use Rattle.toll_trace.specs.Leads.{IsIndexedStep};
    ghost use Rattle.toll_trace.specs.Numbers.{AreBelow};
    ghost use Rattle.std.specs.List.Sorted.{IsPermutation};
    ghost use Rattle.toll_trace.specs.Places.{PassesThrough};

    /// A joint for each edge between lots of the list. For a step that way along the edge, the lot at
    /// its start enters the joint, and the lot at its end leaves it.
    pub(crate) fn of_edges(
        alloc: Global,
        lots: &[LotId],
        edges: &[Edge],
        way: Way,
    ) -> Result<Self, AllocError>
        requires sorted { IsStrictlySortedBy lot_cmp lots.now }
        requires listed { (e : _) → Contains edges.now e
            → Contains lots.now e.from × Contains lots.now e.to }
        ensures joined { IfOk result (λ joints. (a b : LotId)
            → IsIndexedStep lots.now joints a b ↔ IsJoined edges.now way a b) }
        ensures within { IfOk result (λ joints. AreBelow (length lots.now) joints.targets.items) }
    {
        let mut sources = Vec::new(alloc);
        let mut targets = Vec::new(alloc);
        for edge in edges {
            let (from, to) = way.ends(edge);
            let start = targets.len();
            let end = start + 1;
            sources.push((number_in(lots, &from), Span { start, end }))?;
            targets.push(number_in(lots, &to))?;
        }
        Ok(EdgeIndex {
            sources: Index::new(sources),
            targets,
        })
    }

    /// A joint for each use at which a lot leaves. A lot that enters a chain at a place leads to all
    /// lots that leave the chain ahead. Puts the leaving uses in the order of that way.
    pub(crate) fn of_uses(
        alloc: Global,
        entering: &[(Place, usize)],
        leaving: &mut [(Place, usize)],
        way: Way,
    ) -> Result<Self, AllocError>
        ensures moved { IsPermutation leaving.old leaving.new }
        ensures joined { IfOk result (λ joints. (m n : ℕ)
            → LeadsThrough joints.sources joints.targets.items m n ↔ PassesThrough way entering.now leaving.old m n) }
        ensures targets { IfOk result (λ joints. (n : ℕ) → Contains joints.targets.items n
            → (v : _) × Contains leaving.old v × (v.1 ≡ n)) }
    {
        put_in_order_along(leaving, way);
        let targets = numbers_used(alloc, leaving)?;
        let sources = entries_ahead(alloc, entering, leaving, way)?;
        Ok(EdgeIndex {
            sources: Index::new(sources),
            targets,
        })
    }
}

/// For each use at which a lot enters, the lot with the span of the uses ahead of it.
fn entries_ahead(
    alloc: Global,
    entering: &[(Place, usize)],
    leaving: &[(Place, usize)],
    way: Way,
) -> Result<Vec<(usize, Span)>, AllocError>
    requires { IsSortedBy (λ u v. is_lt (order_along way chain_segment_cmp u.0 v.0)) leaving.now }
    ensures { IfOk result (λ sources. AreAhead way entering.now leaving.now sources.items) }
{
    let mut sources = Vec::new(alloc);
    for (place, lot) in entering {
        sources.push((*lot, ahead_of(leaving, way, place)))?;
    }
    Ok(sources)
}

/// The numbers of the lots of these uses.
fn numbers_used(alloc: Global, uses: &[(Place, usize)]) -> Result<Vec<usize>, AllocError>
    ensures { IfOk result (λ numbers. numbers.items ≡ map (λ used. used.1) uses.now) }
{
    let mut numbers = Vec::new(alloc);
    for (_, number) in uses {
        numbers.push(*number)?;
    }
    Ok(numbers)
}
