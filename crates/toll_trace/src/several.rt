//! Traces over several graphs.
ghost use Rattle.std.specs.Prelude.{◌≡◌, map, IfOk};
ghost use Rattle.toll_trace.specs.Graph.{LeadAmong};
ghost use Rattle.toll_trace.specs.Trace.{IsTrace};

use crate::graph::Graph;
use crate::search::{Part, search};
use crate::step::Step;
use crate::way::Way;
use std::alloc::{AllocError, Global};
use toll_base::LotId;

/// Every lot that ends a chain of the edges of these graphs from the lot. It walks each joint once at most.
/// It fails only if memory runs out.
pub fn trace_among(
    alloc: Global,
    graphs: &[&Graph],
    from: &LotId,
    way: Way,
) -> Result<Vec<Step>, AllocError>
    ensures { IfOk result (λ trace. IsTrace
        (LeadAmong (map (λ graph. graph.now) graphs.now) way) from.now trace.items) }
{
    let mut parts = Vec::new(alloc);
    for graph in graphs {
        parts.push(Part::of(alloc, &graph.lots, graph.joints(way), from)?)?;
    }
    search(alloc, &mut parts, from)
}
