//! A trace by rounds over the whole list of edges.
ghost use Rattle.std.specs.Prelude.{◌≡◌, IfOk};
ghost use Rattle.toll_trace.specs.Chain.{IsJoined};
ghost use Rattle.toll_trace.specs.Search.{IsLevel, next_lot};
ghost use Rattle.toll_trace.specs.Trace.{IsTrace};

use crate::found::Found;
use crate::in_order::put_in_order;
use crate::step::Step;
use crate::way::Way;
use std::alloc::{AllocError, Global};
use toll_base::{Edge, LotId};

/// Every lot that ends a chain of these edges from the lot, that lot itself among them: each once, with the
/// fewest edges of such a chain, by (steps, owner, lot). For [`Way::Back`] each edge is reversed. The list of
/// edges may have repeats, loops and cycles.
///
/// Reads the whole list for each step away from the lot. Only tests call it: programs use [`crate::Graph`],
/// which gives the same answer faster if there are many edges. It fails only if memory runs out.
pub fn plain_trace(
    alloc: Global,
    edges: &[Edge],
    from: &LotId,
    way: Way,
) -> Result<Vec<Step>, AllocError>
    ensures { IfOk result (λ trace. IsTrace (IsJoined edges.now way) from.now trace.items) }
{
    let mut found = Found::new(alloc, from)?;
    let mut lots = next_lots(alloc, edges, way, &found)?;
    let mut steps = 0;
    'rounds: while !lots.is_empty() {
        steps += 1;
        found.add(steps, &lots)?;
        lots = next_lots(alloc, edges, way, &found)?;
    }
    Ok(found.into_steps())
}

/// The lots that one edge reaches from those found and that aren't found yet, in order.
fn next_lots(
    alloc: Global,
    edges: &[Edge],
    way: Way,
    found: &Found,
) -> Result<Vec<LotId>, AllocError>
    ensures { IfOk result (λ lots. IsLevel (IsJoined edges.now way) found.now lots.items) }
{
    let mut lots: Vec<LotId> = edges
        .iter()
        .filter_map(|edge| next_lot(edge, way, found))
        .collect(alloc)?;
    put_in_order(&mut lots);
    Ok(lots)
}

/// The lot that the edge reaches from a found one, if it isn't found yet.
fn next_lot(edge: &Edge, way: Way, found: &Found) -> Option<LotId>
    ensures { result ≡ next_lot way found.now edge.now }
{
    let (from, to) = way.ends(edge);
    if found.has(&from) && !found.has(&to) {
        return Some(to);
    }
    None
}
