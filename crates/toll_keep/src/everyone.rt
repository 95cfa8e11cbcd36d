//! The edges of all owners.
ghost use Rattle.std.specs.Prelude.{IfOk};
ghost use Rattle.toll_keep.specs.Holding.{AreGathered};

use std::alloc::{AllocError, Global};
use toll_base::{Edge, Slice};
use toll_trace::edges_of;

/// The edges of all of these slices, in no order. An edge of several slices comes several times. It fails
/// only if memory runs out.
pub fn edges_among(alloc: Global, slices: &[Slice]) -> Result<Vec<Edge>, AllocError>
    ensures { IfOk result (λ edges. AreGathered slices.now edges.items) }
{
    let mut edges = Vec::new(alloc);
    for slice in slices {
        edges.extend_from_slice(&edges_of(alloc, slice)?)?;
    }
    Ok(edges)
}
