//! Laws of contents, and of the histories that they stand for.
ghost use Rattle.std.specs.Prelude.{◌≡◌, Option, List, []};
ghost use Rattle.toll_base.specs.Bytes.{Bytes};
ghost use Rattle.toll_base.specs.declared.decision.Change.{Change};
ghost use Rattle.toll_base.specs.declared.lot.Edge.{Edge};
ghost use Rattle.toll_history.specs.History.{History, owner_known};
ghost use Rattle.toll_history.specs.Holders.{OpenedBatch};
ghost use Rattle.toll_history.specs.Verdict.{IsLawful};
ghost use Rattle.toll_trace.specs.Edges.{AreEdges};
ghost use Rattle.toll_answers.specs.Edges.{AreOwnEdges, IsPlantEdge};
ghost use Rattle.toll_keep.specs.Content.{Content, empty_content, knows, ContentKeepsRules, AllChangesFit, PutsToKnown};
ghost use Rattle.toll_keep.specs.Holding.{IsHolder, IsEdgeOfSome};
ghost use Rattle.toll_desk.specs.Occupied.{AreContentEdges, EachKeepsRules, HasOwnersRows, HoldsUnit, IsOccupied};
ghost use Rattle.toll_desk.specs.Representing.{Represents};
ghost use Rattle.toll_keep.specs.declared.holder.Holder.{Holder};

/// A content without rows stands for the history without commands.
pub fn nothing_stands_for_no_commands()
    ensures { Represents empty_content [] }
{}

/// The rows of a lawful history keep the rules.
pub fn lawful_rows_keep_the_rules()
    ensures { (H : History) (c : Content) → IsLawful H → Represents c H → ContentKeepsRules c }
{}

/// A content knows the same owners as its history.
pub fn owners_are_known_alike()
    ensures { (H : History) (c : Content) → Represents c H → (o : Bytes) → knows c o ≡ owner_known H o }
{}

/// In a lawful history at most one batch holds a unit: two batches, of any owners, that were opened on
/// it and aren't closed are the same.
pub fn a_unit_has_one_holder()
    ensures { (H : History) (unit : Bytes) (a b : OpenedBatch) → IsLawful H → HoldsUnit H unit a → HoldsUnit H unit b → a ≡ b }
{}

/// The batch that holds a unit is the one that holds it in the history. If no batch holds it there, no
/// batch holds it here.
pub fn units_have_the_same_holders()
    ensures { (H : History) (c : Content) (unit : Bytes) (answer : Option Holder) → IsLawful H → Represents c H → IsHolder c unit answer
        → IsOccupied H unit answer }
{}

/// The edges of an owner's rows are the owner's edges in the history: none for an unknown owner.
pub fn edges_are_the_owners()
    ensures { (H : History) (c : Content) (o : Bytes) (edges : List Edge) → IsLawful H → Represents c H → AreContentEdges c o edges → AreOwnEdges H o edges }
{}

/// The edges of all rows are the plant's edges in the history.
pub fn all_edges_are_the_plants()
    ensures { (H : History) (c : Content) (edges : List Edge) → IsLawful H → Represents c H → AreEdges (IsEdgeOfSome c) edges → AreEdges (IsPlantEdge H) edges }
{}

/// Changes fit if they keep the rules of each owner's rows and put rows of known owners only.
pub fn changes_that_keep_the_rules_fit()
    ensures { (c : Content) (changes : List Change) → HasOwnersRows c → EachKeepsRules c changes → PutsToKnown c changes → AllChangesFit c changes }
{}
