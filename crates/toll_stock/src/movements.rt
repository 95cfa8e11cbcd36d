//! What the decisions on movements have in common.
ghost use Rattle.std.specs.Prelude.{◌≡◌, ◌++◌, Some, IfOk};
ghost use Rattle.toll_stock.specs.Common.{IsDecided, verdict_of_result, facts_of, Checks, verdict_of_checks, key_checks, scrap_checks};
ghost use Rattle.toll_stock.specs.Plans.{enough_checks};

use std::alloc::{AllocError, Global};
use toll_base::{Amount, Change, Decision, MOST_MOVEMENTS, MoveRow, Name, Refusal, Slice};
use toll_history::decide_known;

/// The decision on a movement: by its key if that is known; otherwise the refusal of its checks, or these
/// changes if there is none. It fails only if memory runs out.
pub fn decide_movement(
    alloc: Global,
    slice: &Slice,
    row: &MoveRow,
    checked: Result<(), Refusal>,
    changes: &[Change],
) -> Result<Decision, AllocError>
    ensures { (checks : Checks) → verdict_of_result checked ≡ verdict_of_checks checks
        → IfOk result (IsDecided (key_checks (facts_of slice.now) row.now ++ checks) changes.now) }
{
    if let Some(known) = decide_known(slice, row) {
        return Ok(known);
    }
    match checked {
        Ok(()) => Decision::accept_all(alloc, changes),
        Err(why) => Ok(Decision::Refuse(why)),
    }
}

/// Whether the amount can be taken from the sublot: [`Refusal::UnknownLot`], [`Refusal::UnknownSublot`], then as
/// [`check_enough`] says.
pub fn check_taking(slice: &Slice, lot: &Name, sublot: &Name, amount: Amount) -> Result<(), Refusal>
    ensures { verdict_of_result result
        ≡ verdict_of_checks (scrap_checks (facts_of slice.now) lot.now sublot.now amount) }
{
    if slice.lot(lot).is_none() {
        return Err(Refusal::UnknownLot);
    }
    if slice.sublot(lot, sublot).is_none() {
        return Err(Refusal::UnknownSublot);
    }
    check_enough(slice, lot, sublot, amount)
}

/// Whether there is enough in the sublot, and room for a movement: [`Refusal::NotEnough`], then
/// [`Refusal::LimitReached`] at [`MOST_MOVEMENTS`] movements.
pub fn check_enough(slice: &Slice, lot: &Name, sublot: &Name, amount: Amount) -> Result<(), Refusal>
    ensures { verdict_of_result result
        ≡ verdict_of_checks (enough_checks (facts_of slice.now) lot.now sublot.now amount) }
{
    if slice.amount_in(lot, sublot) < amount.get() {
        return Err(Refusal::NotEnough);
    }
    if slice.moves().len() >= MOST_MOVEMENTS {
        return Err(Refusal::LimitReached);
    }
    Ok(())
}
