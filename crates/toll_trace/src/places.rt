//! The places where batches use lots, in the order of a way.
ghost use Rattle.std.specs.Prelude.{◌≡◌};
ghost use Rattle.std.specs.List.Sorted.{IsPermutation, IsSortedBy};
ghost use Rattle.std.specs.Ordering.{is_lt};
ghost use Rattle.toll_trace.specs.Places.{order_along, chain_cmp, chain_segment_cmp, IsAheadOf};

use crate::edge_index::Span;
use crate::edges::Batch;
use crate::way::Way;
use std::cmp::Ordering;
use toll_base::Segment;

/// A batch of one of several slices: the number of the slice, and the batch. It is a chain of segments.
pub(crate) type Chain = (usize, Batch);

/// A segment of a chain.
pub(crate) type Place = (Chain, Segment);

/// The span of the uses that lie ahead of the place in its chain, those at the place included. The
/// uses are in the order of that way.
pub(crate) fn ahead_of(uses: &[(Place, usize)], way: Way, place: &Place) -> Span
    requires { IsSortedBy (λ u v. is_lt (order_along way chain_segment_cmp u.0 v.0)) uses.now }
    ensures { IsAheadOf way uses.now place.now result }
{
    let start = uses.partition_point(|used| order(way, &used.0, place).is_lt());
    let end = uses.partition_point(|used| chain_order(way, &used.0.0, &place.0).is_le());
    Span { start, end }
}

/// Puts uses in the order of that way.
pub(crate) fn put_in_order_along(uses: &mut [(Place, usize)], way: Way)
    ensures moved { IsPermutation uses.old uses.new }
    ensures sorted { IsSortedBy
        (λ u v. is_lt (order_along way chain_segment_cmp u.0 v.0)) uses.new }
{
    match way {
        Way::Back => uses.sort_unstable_by(|a, b| b.0.cmp(&a.0)),
        Way::Forward => uses.sort_unstable_by(|a, b| a.0.cmp(&b.0)),
    }
}

/// The order of places along that way: by their chains, then by their segments.
fn order(way: Way, a: &Place, b: &Place) -> Ordering
    ensures { result ≡ order_along way chain_segment_cmp a.now b.now }
{
    match way {
        Way::Back => b.cmp(a),
        Way::Forward => a.cmp(b),
    }
}

/// The order of chains along that way.
fn chain_order(way: Way, a: &Chain, b: &Chain) -> Ordering
    ensures { result ≡ order_along way chain_cmp a.now b.now }
{
    match way {
        Way::Back => b.cmp(a),
        Way::Forward => a.cmp(b),
    }
}
