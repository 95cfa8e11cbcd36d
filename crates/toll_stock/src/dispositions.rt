//! Dispositions of lots.
ghost use Rattle.std.specs.Prelude.{◌≡◌, not, ◌&&◌, map, Some, [], IfOk};
ghost use Rattle.toll_stock.specs.Common.{list_any, changes_of, KeepsRules, is_some_where, Release, Reject, by, IsDecided, Decides, DecisionKeepsRules, is_outside, PutsOnly, facts_of, latest_in, release_checks, reject_checks, tests_open};
ghost use Rattle.toll_base.specs.declared.decision.Change.TheVariants as Change;
ghost use Rattle.toll_stock.specs.LotRows.{given_disposition};
ghost use Rattle.toll_stock.specs.Plans.{IsDispositionPlan, is_open_test};

use crate::results::{count_results, is_outside};
use std::alloc::{AllocError, Global};
use toll_base::{Change, Decision, Disposition, LotRow, Name, Refusal, Row, Slice, TestRow};

/// Releases a lot.
///
/// [`Refusal::UnknownLot`] if the owner has no such lot, [`Refusal::NotQuarantined`] if it is
/// released or rejected, then [`Refusal::TestsOpen`] if a test of its material has no result of
/// the lot, or its latest is out of the test's limits. It fails only if memory runs out.
pub fn release(alloc: Global, slice: &Slice, lot: Name) -> Result<Decision, AllocError>
    ensures decides { IfOk result (Decides (by slice.now.owner (Release lot)) slice.now) }
    ensures rules { IfOk result (DecisionKeepsRules slice.now) }
    ensures own { IfOk result (λ d. PutsOnly slice.now.owner (changes_of d)) }
{
    plan_release(alloc, slice, &lot)
}

/// Rejects a lot, for good.
///
/// [`Refusal::UnknownLot`] if the owner has no such lot, then [`Refusal::Rejected`] if it is
/// rejected already. It fails only if memory runs out.
pub fn reject(alloc: Global, slice: &Slice, lot: Name) -> Result<Decision, AllocError>
    ensures decides { IfOk result (Decides (by slice.now.owner (Reject lot)) slice.now) }
    ensures rules { IfOk result (DecisionKeepsRules slice.now) }
    ensures own { IfOk result (λ d. PutsOnly slice.now.owner (changes_of d)) }
{
    plan_rejection(alloc, slice, &lot)
}

fn plan_release(alloc: Global, slice: &Slice, lot: &Name) -> Result<Decision, AllocError>
    ensures plan { IfOk result (IsDispositionPlan
        (release_checks (facts_of slice.now) lot.now) slice.now lot.now Disposition.Released) }
    ensures kept { KeepsRules slice.now }
{
    let owner = *slice.owner();
    let Some(known) = slice.lot(lot) else {
        return Ok(Decision::Refuse(Refusal::UnknownLot));
    };
    if !matches!(known.disposition, Disposition::Quarantined) {
        return Ok(Decision::Refuse(Refusal::NotQuarantined));
    }
    if are_tests_open(slice, lot) {
        return Ok(Decision::Refuse(Refusal::TestsOpen));
    }
    put_lot(alloc, owner, known, Disposition::Released)
}

fn plan_rejection(alloc: Global, slice: &Slice, lot: &Name) -> Result<Decision, AllocError>
    ensures plan { IfOk result (IsDispositionPlan
        (reject_checks (facts_of slice.now) lot.now) slice.now lot.now Disposition.Rejected) }
    ensures kept { KeepsRules slice.now }
{
    let owner = *slice.owner();
    let Some(known) = slice.lot(lot) else {
        return Ok(Decision::Refuse(Refusal::UnknownLot));
    };
    if matches!(known.disposition, Disposition::Rejected) {
        return Ok(Decision::Refuse(Refusal::Rejected));
    }
    put_lot(alloc, owner, known, Disposition::Rejected)
}

// Puts the lot's row with this disposition.
fn put_lot(
    alloc: Global,
    owner: Name,
    known: LotRow,
    disposition: Disposition,
) -> Result<Decision, AllocError>
    ensures { IfOk result (IsDecided []
        (map (Change.Put owner) (given_disposition (λ row. disposition) (Some known)))) }
{
    let row = LotRow {
        disposition,
        ..known
    };
    Decision::accept(alloc, Change::Put(owner, Row::Lot(row)))
}

// Whether a test of the lot's material has no latest result within its limits.
fn are_tests_open(slice: &Slice, lot: &Name) -> bool
    ensures { result ≡ tests_open (facts_of slice.now) lot.now }
{
    match slice.lot(lot) {
        None => false,
        Some(known) => is_one_open(slice, lot, &known.material),
    }
}

// Whether a test of the material has no latest result of the lot within its limits.
fn is_one_open(slice: &Slice, lot: &Name, material: &Name) -> bool
    ensures { result ≡ list_any (is_open_test slice.now lot.now material.now) slice.now.tests }
{
    slice.tests().iter().any(|test| test.material == *material && !is_passed(slice, lot, test))
}

// Whether the latest result of the lot's test is there, and within its limits.
fn is_passed(slice: &Slice, lot: &Name, test: &TestRow) -> bool
    ensures { result ≡ is_some_where (λ value. not
        (is_outside test.now.limits value)) (latest_in slice.now lot.now test.now.test) }
{
    let number = count_results(slice, lot, &test.test);
    match slice.result(lot, &test.test, number) {
        None => false,
        Some(known) => !is_outside(&test.limits, known.value),
    }
}
