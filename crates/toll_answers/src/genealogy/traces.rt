//! Genealogy of an owner, and of the plant, cut to one owner's lots.
ghost use Rattle.std.specs.Prelude.{◌≡◌, ◌↔◌, List, Contains};
ghost use Rattle.toll_answers.specs.Common.{Bytes, Edge, LotId, MoveRow, History, acts, standing, IsRowsOf, IsLawful, AreEdges, IsEdge, Way};
ghost use Rattle.toll_base.specs.Slice.{Slice};
ghost use Rattle.toll_answers.specs.Agreement.{AreKnown, LeadsIntoOwn, TracesAgree};
ghost use Rattle.toll_answers.specs.Edges.{WasDone, IsOwnEdge};

/// A movement of an owner stands (no later command voids it) exactly if it was recorded and no command
/// at all voids its key.
pub fn a_movement_stands_unless_it_is_voided()
    ensures { (H : History) (o : Bytes) (row : MoveRow) → IsLawful H
        → WasDone (acts o H) row ↔ Contains (standing H) (o, row) }
{}

/// An edge of an owner's batch leads to a lot of the owner, from one of the owner or of HOUSE, and
/// both lots are known.
pub fn lots_of_edges_are_known()
    ensures owners { (H : History) (o : Bytes) (e : Edge) → IsLawful H → IsOwnEdge (acts o H) e
        → LeadsIntoOwn o e }
    ensures known { (H : History) (o : Bytes) (e : Edge) → IsLawful H → IsOwnEdge (acts o H) e
        → AreKnown H e }
{}

/// The edges of a slice, as `toll_trace::edges_of` gives them, are its owner's edges over every lawful
/// history whose rows the slice has.
pub fn edges_of_a_slice_are_the_owners()
    ensures { (H : History) (s : Slice) (edges : List Edge) → IsLawful H → IsRowsOf H s
        → AreEdges (IsEdge s) edges → AreEdges (IsOwnEdge (acts s.owner H)) edges }
{}

/// The plant's trace from an owner's lot, back or forward, has at that owner's lots exactly the
/// steps of the owner's own trace. This holds of HOUSE too, because material that leaves HOUSE's lots
/// doesn't come back.
pub fn plants_traces_within_an_owner_are_the_owners()
    ensures { (H : History) (o : Bytes) (way : Way) (a : LotId) → IsLawful H → a.owner ≡ o
        → TracesAgree H o way a }
{}
