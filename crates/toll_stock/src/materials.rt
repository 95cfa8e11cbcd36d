//! Materials.
ghost use Rattle.std.specs.Prelude.{◌≡◌, [], ◌∷◌, IfOk};
ghost use Rattle.toll_stock.specs.Common.{changes_of, KeepsRules, AddMaterial, by, IsDecided, Decides, DecisionKeepsRules, PutsOnly, facts_of, material_checks};
ghost use Rattle.toll_base.specs.declared.decision.Change.TheVariants as Change;
ghost use Rattle.toll_base.specs.declared.rows.Row.TheVariants as Row;

use std::alloc::{AllocError, Global};
use toll_base::{
    Change, Decision, MOST_MATERIALS, MaterialRow, Measure, Name, Refusal, Row, Slice,
};

/// Adds a material, whose amounts are in this measure.
///
/// [`Refusal::MaterialExists`] if the owner has one of this name, then [`Refusal::LimitReached`]
/// at 200 materials. It fails only if memory runs out.
pub fn add_material(
    alloc: Global,
    slice: &Slice,
    material: Name,
    measure: Measure,
) -> Result<Decision, AllocError>
    ensures decides { IfOk result (Decides (by slice.now.owner
        (AddMaterial (record { material = material; measure = measure }))) slice.now) }
    ensures rules { IfOk result (DecisionKeepsRules slice.now) }
    ensures own { IfOk result (λ d. PutsOnly slice.now.owner (changes_of d)) }
{
    plan_material(alloc, slice, &MaterialRow { material, measure })
}

fn plan_material(alloc: Global, slice: &Slice, row: &MaterialRow) -> Result<Decision, AllocError>
    ensures plan { IfOk result (IsDecided (material_checks (facts_of slice.now) row.now)
        (Change.Put slice.now.owner (Row.Material row.now) ∷ [])) }
    ensures kept { KeepsRules slice.now }
{
    let owner = *slice.owner();
    if slice.material(&row.material).is_some() {
        return Ok(Decision::Refuse(Refusal::MaterialExists));
    }
    if slice.materials().len() >= MOST_MATERIALS {
        return Ok(Decision::Refuse(Refusal::LimitReached));
    }
    Decision::accept(alloc, Change::Put(owner, Row::Material(*row)))
}
