//! Worked examples of genealogy: what the definitions say of them, computed.
ghost use Rattle.std.specs.Prelude.{◌≡◌, [], ◌∷◌};
ghost use Rattle.toll_answers.specs.Common.{house_name, acts, verdicts, accepted_verdicts, acme, one_product, AreEdges, Back, Forward};
ghost use Rattle.toll_trace.specs.Search.{step_at};
ghost use Rattle.toll_answers.specs.Agreement.{IsOwnTrace};
ghost use Rattle.toll_answers.specs.Edges.{IsOwnEdge};
ghost use Rattle.toll_answers.specs.Worked.{a, circle, consumed_in_a_circle, h1, h2, house_material, into, made_of_house_material, p1, q1};

/// What a batch consumed went into what it produced in no lower segment: A and H-1 of the first
/// segment into P1, and B of the second into nothing.
pub fn edges_of_a_batch()
    ensures { AreEdges (IsOwnEdge (acts acme one_product)) (into a p1 ∷ into h1 p1 ∷ []) }
{}

/// The product of a batch is traced back to what went into it, and that forward to it.
pub fn traces_of_a_batch()
    ensures back { IsOwnTrace one_product acme Back p1
        (step_at 0 p1 ∷ step_at 1 a ∷ step_at 1 h1 ∷ []) }
    ensures forward { IsOwnTrace one_product acme Forward h1 (step_at 0 h1 ∷ step_at 1 p1 ∷ []) }
{}

/// Every command of the two further setups is accepted.
pub fn setups_of_genealogy_are_accepted()
    ensures circle { verdicts [] consumed_in_a_circle ≡ accepted_verdicts consumed_in_a_circle }
    ensures house_material { verdicts [] made_of_house_material
        ≡ accepted_verdicts made_of_house_material }
{}

/// If two lots went into each other, each is one step from the other, both ways, and no lot is listed
/// twice.
pub fn traces_of_a_circle()
    ensures back { IsOwnTrace circle acme Back p1 (step_at 0 p1 ∷ step_at 1 q1 ∷ []) }
    ensures forward { IsOwnTrace circle acme Forward p1 (step_at 0 p1 ∷ step_at 1 q1 ∷ []) }
{}

/// An owner's trace goes by the owner's batches alone: back from P1 it ends at HOUSE's lot H-2, and
/// HOUSE's own goes from H-1 to H-2.
pub fn traces_go_by_the_owners_batches()
    ensures owners { IsOwnTrace house_material acme Back p1 (step_at 0 p1 ∷ step_at 1 h2 ∷ []) }
    ensures house { IsOwnTrace house_material house_name Forward h1
        (step_at 0 h1 ∷ step_at 1 h2 ∷ []) }
{}
