//! The edges between lots.
ghost use Rattle.std.specs.Prelude.{◌≡◌, ◌≤◌, ◌++◌, IfOk, OnOk, filter, map};
ghost use Rattle.std.specs.List.{flat_map, dedup};
ghost use Rattle.toll_base.specs.Bytes.{bytes_cmp};
ghost use Rattle.toll_base.specs.Table.{IsInKeyOrder};
ghost use Rattle.toll_trace.specs.Edges.{AreEdges, IsEdge};
ghost use Rattle.toll_trace.specs.Uses.{AreLeft, use_as, standing_use, uses, same_use, is_not_above, edge_between, edges_from};

use crate::in_order::put_in_order;
use crate::index::Index;
use std::alloc::{AllocError, Global};
use toll_base::{BatchNo, Edge, LotId, Move, MoveRow, Name, Role, Segment, Slice};

/// A batch within its owner: an order, and the batch's number.
pub(crate) type Batch = (Name, BatchNo);

/// A segment of a batch uses a lot, to consume it or to produce it. Uses are ordered by their lot, then
/// by their segment.
#[derive(Clone, Copy, PartialEq, Eq, PartialOrd, Ord)]
pub(crate) struct LotUse {
    pub(crate) lot: LotId,
    pub(crate) segment: Segment,
}

/// The pairs of lots, in order and each once, such that two standing actuals of one batch of the
/// slice's owner consume the one and produce the other. The consumption's segment isn't above the
/// production's. An actual is standing if no void has its key.
///
/// A batch's lots are paired, each once, and not its actuals. Two lots have an edge if and only if the
/// lowest segment that consumes the one isn't above the highest segment that produces the other. It fails
/// only if memory runs out.
pub fn edges_of(alloc: Global, slice: &Slice) -> Result<Vec<Edge>, AllocError>
    ensures { IfOk result (λ edges. AreEdges (IsEdge slice.now) edges.items) }
{
    let mut consumptions = uses(alloc, slice, Role::Consumed)?;
    leave_lowest(&mut consumptions);
    let mut productions = uses(alloc, slice, Role::Produced)?;
    leave_highest(&mut productions);
    let mut edges = edges_among(alloc, &consumptions, &Index::new(productions))?;
    put_in_order(&mut edges);
    Ok(edges)
}

/// Leaves one of the uses of a lot by a batch, in the lowest of their segments.
fn leave_lowest(uses: &mut Vec<(Batch, LotUse)>)
    ensures { AreLeft (λ lowest segment. lowest ≤ segment) uses.old.items uses.new.items }
{
    uses.sort_unstable();
    leave_first(uses);
}

/// Leaves one of the uses of a lot by a batch, in the highest of their segments.
fn leave_highest(uses: &mut Vec<(Batch, LotUse)>)
    ensures { AreLeft (λ highest segment. segment ≤ highest) uses.old.items uses.new.items }
{
    uses.sort_unstable_by(|a, b| b.cmp(a));
    leave_first(uses);
}

/// Leaves the first of neighbouring uses of one lot by one batch.
fn leave_first(uses: &mut Vec<(Batch, LotUse)>)
    ensures { uses.new.items ≡ dedup same_use uses.old.items }
{
    uses.dedup_by(|later, first| later.0 == first.0 && later.1.lot == first.1.lot);
}

/// The edges from each consumed lot to the lots that its batch produces, with repeats.
fn edges_among(
    alloc: Global,
    consumptions: &[(Batch, LotUse)],
    productions: &Index<Batch, LotUse>,
) -> Result<Vec<Edge>, AllocError>
    ensures { IfOk result
        (λ edges. edges.items ≡ flat_map (edges_from productions.now) consumptions.now) }
{
    let mut edges = Vec::new(alloc);
    for (batch, consumption) in consumptions {
        add_edges(&mut edges, consumption, productions.at(batch))?;
    }
    Ok(edges)
}

/// The uses of the standing actuals of this role, each with its batch.
pub(crate) fn uses(
    alloc: Global,
    slice: &Slice,
    role: Role,
) -> Result<Vec<(Batch, LotUse)>, AllocError>
    ensures found { IfOk result (λ found. found.items ≡ uses role slice.now) }
    ensures key_order { IsInKeyOrder bytes_cmp (λ row. row.key) slice.now.moves }
{
    slice
        .moves()
        .iter()
        .filter_map(|row| standing_use(slice, role, row))
        .collect(alloc)
}

/// The use of the movement, if it is an actual of this role and no void has its key.
fn standing_use(slice: &Slice, role: Role, row: &MoveRow) -> Option<(Batch, LotUse)>
    ensures { result ≡ standing_use role slice.now row.now }
{
    if slice.is_voided(&row.key) {
        return None;
    }
    use_as(role, &row.what)
}

/// The use and its batch, if an actual of this role is recorded.
fn use_as(role: Role, what: &Move) -> Option<(Batch, LotUse)>
    ensures { result ≡ use_as role what.now }
{
    match *what {
        Move::Actual {
            order,
            number,
            segment,
            role: recorded,
            lot,
            ..
        } if recorded == role => Some(((order, number), LotUse { segment, lot })),
        _ => None,
    }
}

/// Adds the edges from the consumed lot to the lots that its batch produces in the same or a higher segment.
fn add_edges(
    edges: &mut Vec<Edge>,
    consumption: &LotUse,
    productions: &[(Batch, LotUse)],
) -> Result<(), AllocError>
    ensures { OnOk result (edges.new.items ≡ edges.old.items ++ map (edge_between consumption.now)
        (filter (is_not_above consumption.now) productions.now)) }
{
    for (_, production) in productions {
        if consumption.segment <= production.segment {
            edges.push(Edge {
                from: consumption.lot,
                to: production.lot,
            })?;
        }
    }
    Ok(())
}
