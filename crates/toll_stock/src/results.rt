//! Results of tests.
ghost use Rattle.std.specs.Prelude.{◌≡◌, ◌≤◌, ◌&&◌, if◌then◌else◌, [], ◌∷◌, length, IfOk};
ghost use Rattle.toll_stock.specs.Common.{changes_of, KeepsRules, RecordResult, by, IsDecided, Decides, DecisionKeepsRules, is_outside, PutsOnly, count_results_in};
ghost use Rattle.toll_base.specs.declared.decision.Change.TheVariants as Change;
ghost use Rattle.toll_base.specs.declared.rows.Row.TheVariants as Row;
ghost use Rattle.toll_stock.specs.Plans.{IsResultPlan, lot_after};

use crate::lot_rows::results_of;
use std::alloc::{AllocError, Global};
use toll_base::{
    Change, Day, Decision, Disposition, Limits, LotRow, MOST_RESULTS, Name, Refusal, ResultRow,
    Row, Slice, Value,
};

/// Records a result of a test of a lot. Out of the test's limits it makes a released lot
/// quarantined again.
///
/// [`Refusal::UnknownLot`] if the owner has no such lot, [`Refusal::UnknownTest`] if the
/// lot's material has no such test, [`Refusal::Rejected`] if the lot is rejected, then
/// [`Refusal::LimitReached`] at 20,000 results. It fails only if memory runs out.
pub fn record_result(
    alloc: Global,
    slice: &Slice,
    lot: Name,
    test: Name,
    value: Value,
    day: Day,
) -> Result<Decision, AllocError>
    ensures decides { IfOk result
        (Decides (by slice.now.owner (RecordResult lot test value day)) slice.now) }
    ensures rules { IfOk result (DecisionKeepsRules slice.now) }
    ensures own { IfOk result (λ d. PutsOnly slice.now.owner (changes_of d)) }
{
    plan_result(alloc, slice, &lot, &test, value, day)
}

fn plan_result(
    alloc: Global,
    slice: &Slice,
    lot: &Name,
    test: &Name,
    value: Value,
    day: Day,
) -> Result<Decision, AllocError>
    ensures plan { IfOk result (IsResultPlan slice.now lot.now test.now value day) }
    ensures kept { KeepsRules slice.now }
{
    let owner = *slice.owner();
    let Some(known) = slice.lot(lot) else {
        return Ok(Decision::Refuse(Refusal::UnknownLot));
    };
    let Some(tested) = slice.test(&known.material, test) else {
        return Ok(Decision::Refuse(Refusal::UnknownTest));
    };
    if matches!(known.disposition, Disposition::Rejected) {
        return Ok(Decision::Refuse(Refusal::Rejected));
    }
    if slice.results().len() >= MOST_RESULTS {
        return Ok(Decision::Refuse(Refusal::LimitReached));
    }
    let number = count_results(slice, lot, test) + 1;
    let row = ResultRow {
        lot: *lot,
        test: *test,
        number,
        value,
        day,
    };
    put_result(
        alloc,
        owner,
        row,
        after_result(known, &tested.limits, value),
    )
}

// The lot's row after a result of this value.
fn after_result(known: LotRow, limits: &Limits, value: Value) -> LotRow
    ensures { result ≡ lot_after limits.now value known }
{
    let released = matches!(known.disposition, Disposition::Released);
    let disposition = if released && is_outside(limits, value) {
        Disposition::Quarantined
    } else {
        known.disposition
    };
    LotRow {
        disposition,
        ..known
    }
}

// Puts the result, and the lot's row.
fn put_result(
    alloc: Global,
    owner: Name,
    row: ResultRow,
    lot: LotRow,
) -> Result<Decision, AllocError>
    ensures { IfOk result
        (IsDecided [] (Change.Put owner (Row.Result row) ∷ Change.Put owner (Row.Lot lot) ∷ [])) }
{
    let changes = [
        Change::Put(owner, Row::Result(row)),
        Change::Put(owner, Row::Lot(lot)),
    ];
    Decision::accept_all(alloc, &changes)
}

/// Whether the value is out of the limits.
pub(crate) fn is_outside(limits: &Limits, value: Value) -> bool
    ensures { result ≡ is_outside limits.now value }
{
    value < limits.low || limits.high < value
}

/// How many results of the lot's test there are, which is the number of the latest.
pub(crate) fn count_results(slice: &Slice, lot: &Name, test: &Name) -> u64
    ensures count { result ≡ count_results_in slice.now lot.now test.now }
    ensures bound { result ≤ length slice.now.results }
{
    results_of(slice, lot)
        .iter()
        .filter(|row| row.test == *test)
        .count() as u64
}
