//! Recipes.
ghost use Rattle.std.specs.Prelude.{◌≡◌, is_some, [], ◌∷◌, IfOk};
ghost use Rattle.toll_work.specs.Common.{changes_of, KeepsRules, AddRecipe, Require, by, IsDecided, Decides, DecidesWith, DecisionKeepsRules, PutsOnly, facts_of, recipe_checks, tables_for};
ghost use Rattle.toll_base.specs.declared.decision.Change.TheVariants as Change;
ghost use Rattle.toll_base.specs.declared.rows.Row.TheVariants as Row;
ghost use Rattle.toll_work.specs.Plans.{IsRequirementPlan};

use crate::crossing::crosses;
use std::alloc::{AllocError, Global};
use toll_base::{
    Change, Decision, Keyed, MOST_RECIPES, MOST_REQUIREMENTS, Name, RecipeRow, Refusal,
    RequirementRow, Row, Segment, Slice,
};

/// Adds a recipe of that many segments.
///
/// [`Refusal::RecipeExists`] if the owner has one of this name, then [`Refusal::LimitReached`] at
/// 200 recipes. It fails only if memory runs out.
pub fn add_recipe(
    alloc: Global,
    slice: &Slice,
    recipe: Name,
    segments: Segment,
) -> Result<Decision, AllocError>
    ensures decides { IfOk result (Decides (by slice.now.owner (AddRecipe (record { recipe = recipe; segments = segments }))) slice.now) }
    ensures rules { IfOk result (DecisionKeepsRules slice.now) }
    ensures own { IfOk result (λ d. PutsOnly slice.now.owner (changes_of d)) }
{
    plan_recipe(alloc, slice, &RecipeRow { recipe, segments })
}

fn plan_recipe(alloc: Global, slice: &Slice, row: &RecipeRow) -> Result<Decision, AllocError>
    ensures plan { IfOk result (IsDecided (recipe_checks (facts_of slice.now) row.now) (Change.Put slice.now.owner (Row.Recipe row.now) ∷ [])) }
    ensures kept { KeepsRules slice.now }
{
    let owner = *slice.owner();
    if slice.recipe(&row.recipe).is_some() {
        return Ok(Decision::Refuse(Refusal::RecipeExists));
    }
    if slice.recipes().len() >= MOST_RECIPES {
        return Ok(Decision::Refuse(Refusal::LimitReached));
    }
    Decision::accept(alloc, Change::Put(owner, Row::Recipe(*row)))
}

/// Requires that much of the source's material, or produces it, in a segment of a recipe. `house` has
/// the rows of HOUSE, even if the owner is HOUSE.
///
/// [`Refusal::UnknownRecipe`], then [`Refusal::RecipeInUse`] if an order names the recipe, then
/// [`Refusal::BadSegment`] above the recipe's segments, then [`Refusal::CrossOwner`] if the source
/// is another owner, or HOUSE of what is produced, then [`Refusal::UnknownMaterial`] of the source,
/// then [`Refusal::RequirementExists`], then [`Refusal::LimitReached`] at 2,000 requirements. It fails only
/// if memory runs out.
pub fn require(
    alloc: Global,
    own: &Slice,
    house: &Slice,
    row: RequirementRow,
) -> Result<Decision, AllocError>
    ensures decides { IfOk result (DecidesWith (by own.now.owner (Require row)) own.now house.now) }
    ensures rules { IfOk result (DecisionKeepsRules own.now) }
    ensures own { IfOk result (λ d. PutsOnly own.now.owner (changes_of d)) }
{
    plan_requirement(alloc, own, house, &row)
}

fn plan_requirement(
    alloc: Global,
    own: &Slice,
    house: &Slice,
    row: &RequirementRow,
) -> Result<Decision, AllocError>
    ensures plan { IfOk result (IsRequirementPlan own.now house.now row.now) }
    ensures kept { KeepsRules own.now }
{
    let owner = *own.owner();
    let Some(recipe) = own.recipe(&row.recipe) else {
        return Ok(Decision::Refuse(Refusal::UnknownRecipe));
    };
    if is_recipe_used(own, &row.recipe) {
        return Ok(Decision::Refuse(Refusal::RecipeInUse));
    }
    if row.segment > recipe.segments {
        return Ok(Decision::Refuse(Refusal::BadSegment));
    }
    if crosses(&owner, row.role, &row.source) {
        return Ok(Decision::Refuse(Refusal::CrossOwner));
    }
    if !has_material(own, house, row) {
        return Ok(Decision::Refuse(Refusal::UnknownMaterial));
    }
    if own.requirement(&row.key()).is_some() {
        return Ok(Decision::Refuse(Refusal::RequirementExists));
    }
    if own.requirements().len() >= MOST_REQUIREMENTS {
        return Ok(Decision::Refuse(Refusal::LimitReached));
    }
    Decision::accept(alloc, Change::Put(owner, Row::Requirement(*row)))
}

// Whether an order names the recipe, cancelled or not.
fn is_recipe_used(slice: &Slice, recipe: &Name) -> bool
    ensures { result ≡ (facts_of slice.now).recipe_used recipe.now }
{
    slice.orders().iter().any(|row| row.recipe == *recipe)
}

// Whether the source, which is the owner or HOUSE, has the material.
fn has_material(own: &Slice, house: &Slice, row: &RequirementRow) -> bool
    ensures { result ≡ is_some ((tables_for own.now.owner (facts_of own.now) (facts_of house.now) row.now.source).material row.now.material) }
{
    if row.source == *own.owner() {
        own.material(&row.material).is_some()
    } else {
        house.material(&row.material).is_some()
    }
}
