//! Tests of materials.
ghost use Rattle.std.specs.Prelude.{◌≡◌, [], ◌∷◌, IfOk};
ghost use Rattle.toll_stock.specs.Common.{list_any, same_bytes, changes_of, KeepsRules, AddTest, by, IsDecided, Decides, DecisionKeepsRules, PutsOnly, facts_of, test_checks};
ghost use Rattle.toll_base.specs.declared.decision.Change.TheVariants as Change;
ghost use Rattle.toll_base.specs.declared.rows.Row.TheVariants as Row;

use std::alloc::{AllocError, Global};
use toll_base::{Change, Decision, Limits, MOST_TESTS, Name, Refusal, Row, Slice, TestRow};

/// Adds a test of the material, which a result within these limits passes.
///
/// [`Refusal::UnknownMaterial`] if the owner has no such material, [`Refusal::TestExists`] if
/// the material has a test of this name, [`Refusal::MaterialInUse`] if a lot is of the material,
/// then [`Refusal::LimitReached`] at 2,000 tests. It fails only if memory runs out.
pub fn add_test(
    alloc: Global,
    slice: &Slice,
    material: Name,
    test: Name,
    limits: Limits,
) -> Result<Decision, AllocError>
    ensures decides { IfOk result (Decides (by slice.now.owner
        (AddTest (record { material = material; test = test; limits = limits }))) slice.now) }
    ensures rules { IfOk result (DecisionKeepsRules slice.now) }
    ensures own { IfOk result (λ d. PutsOnly slice.now.owner (changes_of d)) }
{
    let row = TestRow {
        material,
        test,
        limits,
    };
    plan_test(alloc, slice, &row)
}

fn plan_test(alloc: Global, slice: &Slice, row: &TestRow) -> Result<Decision, AllocError>
    ensures plan { IfOk result (IsDecided (test_checks (facts_of slice.now) row.now)
        (Change.Put slice.now.owner (Row.Test row.now) ∷ [])) }
    ensures kept { KeepsRules slice.now }
{
    let owner = *slice.owner();
    if slice.material(&row.material).is_none() {
        return Ok(Decision::Refuse(Refusal::UnknownMaterial));
    }
    if slice.test(&row.material, &row.test).is_some() {
        return Ok(Decision::Refuse(Refusal::TestExists));
    }
    if is_in_use(slice, &row.material) {
        return Ok(Decision::Refuse(Refusal::MaterialInUse));
    }
    if slice.tests().len() >= MOST_TESTS {
        return Ok(Decision::Refuse(Refusal::LimitReached));
    }
    Decision::accept(alloc, Change::Put(owner, Row::Test(*row)))
}

// Whether a lot is of the material.
fn is_in_use(slice: &Slice, material: &Name) -> bool
    ensures { result ≡ list_any (λ row. same_bytes row.material material.now) slice.now.lots }
{
    slice.lots().iter().any(|row| row.material == *material)
}
