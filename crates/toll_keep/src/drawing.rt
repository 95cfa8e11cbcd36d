//! Changes that leave the graphs of owners as they are.
ghost use Rattle.std.specs.Prelude.{◌≡◌, not, filter};
ghost use Rattle.toll_keep.specs.Graphs.{is_actual, may_change_graph, lacks_key, may_draw};

use crate::known_graph::KnownGraph;
use toll_base::{Change, Move, Name, Row, Slice};

/// Forgets the graphs of owners if one of the changes may add or remove an edge of theirs. The slices
/// are those from before the changes.
pub fn forget_drawn(graphs: &mut Vec<KnownGraph>, slices: &[Slice], changes: &[Change])
    ensures { graphs.new.items ≡ filter (λ known. not (may_change_graph slices.now changes.now known)) graphs.old.items }
{
    graphs.retain(|known| !may_change_graph(slices, changes, known));
}

fn may_change_graph(slices: &[Slice], changes: &[Change], known: &KnownGraph) -> bool
    ensures { result ≡ may_change_graph slices.now changes.now known.now }
{
    changes.iter().any(|change| may_draw(slices, known, change))
}

// Whether the change may add or remove an edge of the graph's owner. A movement that isn't an actual adds
// no edge, and removes none if no movement has its key.
fn may_draw(slices: &[Slice], known: &KnownGraph, change: &Change) -> bool
    ensures { result ≡ may_draw slices.now known.now.owner known.now.named change.now }
{
    match change {
        Change::Put(of, Row::Move(row)) => {
            *of == known.named
                && (is_actual(&row.what) || !lacks_key(slices, &known.owner, &row.key))
        }
        Change::Put(of, Row::Void(_)) => *of == known.named,
        _ => false,
    }
}

fn is_actual(what: &Move) -> bool
    ensures { result ≡ is_actual what.now }
{
    matches!(what, Move::Actual { .. })
}

// Whether the owner's slice is among these, and has no movement with this key.
fn lacks_key(slices: &[Slice], owner: &Name, key: &Name) -> bool
    ensures { result ≡ lacks_key slices.now owner.now key.now }
{
    slices.iter().any(|slice| *slice.owner() == *owner && slice.movement(key).is_none())
}
