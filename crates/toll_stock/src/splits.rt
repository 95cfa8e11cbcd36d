//! Splits.
ghost use Rattle.std.specs.Prelude.{◌≡◌, IfOk};
ghost use Rattle.toll_stock.specs.Common.{changes_of, KeepsRules, moves, Decides, DecisionKeepsRules, verdict_of_result, PutsOnly, facts_of, verdict_of_checks};
ghost use Rattle.toll_base.specs.declared.movement.Move.TheVariants as Move;
ghost use Rattle.toll_stock.specs.Plans.{IsSplitPlan, parted_checks};

use crate::movements::{check_taking, decide_movement};
use std::alloc::{AllocError, Global};
use toll_base::{Amount, Change, Day, Decision, Move, MoveRow, Name, Refusal, Row, Slice};
use toll_history::{has_room_in, sublot_gaining, sublot_losing};

/// Moves an amount from a sublot to another one of the same lot, new or known.
///
/// A known key with equal content is repeated, or [`Refusal::Voided`], with other content
/// [`Refusal::KeyConflict`]. Then [`Refusal::SameSublot`], [`Refusal::UnknownLot`],
/// [`Refusal::UnknownSublot`], [`Refusal::NotEnough`], and [`Refusal::LimitReached`] at 20,000
/// movements. It fails only if memory runs out.
pub fn split(
    alloc: Global,
    slice: &Slice,
    key: Name,
    lot: Name,
    sublot: Name,
    target: Name,
    amount: Amount,
    day: Day,
) -> Result<Decision, AllocError>
    ensures decides { IfOk result
        (Decides (moves slice.now.owner key (Move.Split lot sublot target) amount day) slice.now) }
    ensures rules { IfOk result (DecisionKeepsRules slice.now) }
    ensures own { IfOk result (λ d. PutsOnly slice.now.owner (changes_of d)) }
{
    let row = MoveRow {
        key,
        what: Move::Split {
            lot,
            sublot,
            target,
        },
        amount,
        day,
    };
    plan_split(alloc, slice, &row, lot, sublot, target)
}

fn plan_split(
    alloc: Global,
    slice: &Slice,
    row: &MoveRow,
    lot: Name,
    sublot: Name,
    target: Name,
) -> Result<Decision, AllocError>
    ensures plan { IfOk result (IsSplitPlan slice.now row.now lot sublot target) }
    ensures kept { KeepsRules slice.now }
{
    let owner = *slice.owner();
    let checked = check_split(slice, &lot, &sublot, &target, row.amount);
    let to = sublot_gaining(slice, lot, target, row.amount);
    let from = sublot_losing(slice, lot, sublot, row.amount);
    let changes = [
        Change::Put(owner, Row::Move(*row)),
        Change::Put(owner, Row::Sublot(to)),
        Change::Put(owner, Row::Sublot(from)),
    ];
    decide_movement(alloc, slice, row, checked, &changes)
}

fn check_split(
    slice: &Slice,
    lot: &Name,
    sublot: &Name,
    target: &Name,
    amount: Amount,
) -> Result<(), Refusal>
    ensures { verdict_of_result result ≡ verdict_of_checks (parted_checks
        (facts_of slice.now) lot.now sublot.now target.now amount) }
{
    if *sublot == *target {
        return Err(Refusal::SameSublot);
    }
    match check_taking(slice, lot, sublot, amount) {
        Err(why) => Err(why),
        Ok(()) if has_room_in(slice, lot, target, amount) => Ok(()),
        Ok(()) => Err(Refusal::LimitReached),
    }
}
