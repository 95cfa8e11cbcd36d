//! Lots with their distance.
ghost use Rattle.std.specs.Prelude.{◌≡◌};
ghost use Rattle.toll_trace.specs.Order.{step_cmp};

use std::cmp::Ordering;
use toll_base::LotId;

/// A lot of a trace, with the number of edges of a shortest chain to it. Steps are ordered by that
/// number, then by the lot's owner, then by its name.
#[derive(Clone, Copy, PartialEq, Eq, PartialOrd, Ord)]
pub struct Step {
    pub steps: u64,
    pub lot: LotId,
}

/// Steps are ordered by their number, then by their lot's owner, then by its name.
pub fn steps_are_ordered(a: &Step, b: &Step) -> Ordering
    ensures { result ≡ step_cmp a.now b.now }
{
    a.cmp(b)
}
