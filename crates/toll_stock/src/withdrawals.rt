//! Shipments and scrapping.
ghost use Rattle.std.specs.Prelude.{◌≡◌, IfOk};
ghost use Rattle.toll_stock.specs.Common.{changes_of, KeepsRules, moves, Decides, DecisionKeepsRules, verdict_of_result, PutsOnly, facts_of, Checks, verdict_of_checks, ship_checks};
ghost use Rattle.toll_base.specs.declared.movement.Move.TheVariants as Move;
ghost use Rattle.toll_stock.specs.Plans.{IsWithdrawalPlan};

use crate::movements::{check_enough, check_taking, decide_movement};
use std::alloc::{AllocError, Global};
use toll_base::{
    Amount, Change, Day, Decision, Disposition, Move, MoveRow, Name, Refusal, Row, Slice,
};
use toll_history::sublot_losing;

/// Ships an amount from a sublot of a released lot.
///
/// A known key with equal content is repeated, or [`Refusal::Voided`], with other content
/// [`Refusal::KeyConflict`]. Then [`Refusal::UnknownLot`], [`Refusal::UnknownSublot`],
/// [`Refusal::NotReleased`], [`Refusal::NotEnough`], and [`Refusal::LimitReached`] at 20,000
/// movements. It fails only if memory runs out.
pub fn ship(
    alloc: Global,
    slice: &Slice,
    key: Name,
    lot: Name,
    sublot: Name,
    amount: Amount,
    day: Day,
) -> Result<Decision, AllocError>
    ensures decides { IfOk result
        (Decides (moves slice.now.owner key (Move.Ship lot sublot) amount day) slice.now) }
    ensures rules { IfOk result (DecisionKeepsRules slice.now) }
    ensures own { IfOk result (λ d. PutsOnly slice.now.owner (changes_of d)) }
{
    let row = MoveRow {
        key,
        what: Move::Ship { lot, sublot },
        amount,
        day,
    };
    let checked = check_shipment(slice, &lot, &sublot, amount);
    plan_withdrawal(alloc, slice, &row, lot, sublot, checked)
}

/// Scraps an amount from a sublot, whatever its lot's disposition.
///
/// A known key with equal content is repeated, or [`Refusal::Voided`], with other content
/// [`Refusal::KeyConflict`]. Then [`Refusal::UnknownLot`], [`Refusal::UnknownSublot`],
/// [`Refusal::NotEnough`], and [`Refusal::LimitReached`] at 20,000 movements. It fails only if memory runs
/// out.
pub fn scrap(
    alloc: Global,
    slice: &Slice,
    key: Name,
    lot: Name,
    sublot: Name,
    amount: Amount,
    day: Day,
) -> Result<Decision, AllocError>
    ensures decides { IfOk result
        (Decides (moves slice.now.owner key (Move.Scrap lot sublot) amount day) slice.now) }
    ensures rules { IfOk result (DecisionKeepsRules slice.now) }
    ensures own { IfOk result (λ d. PutsOnly slice.now.owner (changes_of d)) }
{
    let row = MoveRow {
        key,
        what: Move::Scrap { lot, sublot },
        amount,
        day,
    };
    let checked = check_taking(slice, &lot, &sublot, amount);
    plan_withdrawal(alloc, slice, &row, lot, sublot, checked)
}

fn plan_withdrawal(
    alloc: Global,
    slice: &Slice,
    row: &MoveRow,
    lot: Name,
    sublot: Name,
    checked: Result<(), Refusal>,
) -> Result<Decision, AllocError>
    ensures plan { (checks : Checks) → verdict_of_result checked ≡ verdict_of_checks checks
        → IfOk result (IsWithdrawalPlan checks slice.now row.now lot sublot) }
    ensures kept { KeepsRules slice.now }
{
    let owner = *slice.owner();
    let left = sublot_losing(slice, lot, sublot, row.amount);
    let changes = [
        Change::Put(owner, Row::Move(*row)),
        Change::Put(owner, Row::Sublot(left)),
    ];
    decide_movement(alloc, slice, row, checked, &changes)
}

fn check_shipment(slice: &Slice, lot: &Name, sublot: &Name, amount: Amount) -> Result<(), Refusal>
    ensures { verdict_of_result result
        ≡ verdict_of_checks (ship_checks (facts_of slice.now) lot.now sublot.now amount) }
{
    let Some(known) = slice.lot(lot) else {
        return Err(Refusal::UnknownLot);
    };
    if slice.sublot(lot, sublot).is_none() {
        return Err(Refusal::UnknownSublot);
    }
    if !matches!(known.disposition, Disposition::Released) {
        return Err(Refusal::NotReleased);
    }
    check_enough(slice, lot, sublot, amount)
}
