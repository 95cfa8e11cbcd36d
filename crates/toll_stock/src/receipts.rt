//! Receipts.
ghost use Rattle.std.specs.Prelude.{◌≡◌, IfOk};
ghost use Rattle.toll_stock.specs.Common.{changes_of, KeepsRules, moves, Decides, DecisionKeepsRules, verdict_of_result, PutsOnly, facts_of, verdict_of_checks};
ghost use Rattle.toll_base.specs.declared.movement.Move.TheVariants as Move;
ghost use Rattle.toll_stock.specs.Plans.{IsReceiptPlan, received_checks};

use crate::movements::decide_movement;
use std::alloc::{AllocError, Global};
use toll_base::{
    Amount, Change, Day, Decision, Disposition, LotRow, MOST_LOTS, MOST_MOVEMENTS, Move, MoveRow,
    Name, Origin, Refusal, Row, Slice,
};
use toll_history::{has_room_in, sublot_gaining};

/// Receives an amount of a material into a sublot, new or known, of a lot that is new, or of this
/// material, from receipts and quarantined.
///
/// A known key with equal content is repeated, or [`Refusal::Voided`], with other content
/// [`Refusal::KeyConflict`]. Then [`Refusal::UnknownMaterial`]; for a known lot
/// [`Refusal::WrongOrigin`], [`Refusal::WrongMaterial`] and [`Refusal::NotQuarantined`]; then
/// [`Refusal::LimitReached`] at [`MOST_MOVEMENTS`] movements or [`MOST_LOTS`] lots. It fails only if memory
/// runs out.
pub fn receive(
    alloc: Global,
    slice: &Slice,
    key: Name,
    material: Name,
    lot: Name,
    sublot: Name,
    amount: Amount,
    day: Day,
) -> Result<Decision, AllocError>
    ensures decides { IfOk result (Decides
        (moves slice.now.owner key (Move.Receive material lot sublot) amount day) slice.now) }
    ensures rules { IfOk result (DecisionKeepsRules slice.now) }
    ensures own { IfOk result (λ d. PutsOnly slice.now.owner (changes_of d)) }
{
    let row = MoveRow {
        key,
        what: Move::Receive {
            material,
            lot,
            sublot,
        },
        amount,
        day,
    };
    plan_receipt(alloc, slice, &row, material, lot, sublot)
}

fn plan_receipt(
    alloc: Global,
    slice: &Slice,
    row: &MoveRow,
    material: Name,
    lot: Name,
    sublot: Name,
) -> Result<Decision, AllocError>
    ensures plan { IfOk result (IsReceiptPlan slice.now row.now material lot sublot) }
    ensures kept { KeepsRules slice.now }
{
    let owner = *slice.owner();
    let checked = check_receipt(slice, &material, &lot, &sublot, row.amount);
    let lot_row = LotRow {
        lot,
        material,
        origin: Origin::Receipts,
        disposition: Disposition::Quarantined,
    };
    let sublot_row = sublot_gaining(slice, lot, sublot, row.amount);
    let changes = [
        Change::Put(owner, Row::Move(*row)),
        Change::Put(owner, Row::Lot(lot_row)),
        Change::Put(owner, Row::Sublot(sublot_row)),
    ];
    decide_movement(alloc, slice, row, checked, &changes)
}

fn check_receipt(
    slice: &Slice,
    material: &Name,
    lot: &Name,
    sublot: &Name,
    amount: Amount,
) -> Result<(), Refusal>
    ensures { verdict_of_result result ≡ verdict_of_checks (received_checks
        (facts_of slice.now) material.now lot.now sublot.now amount) }
{
    if slice.material(material).is_none() {
        return Err(Refusal::UnknownMaterial);
    }
    if let Some(known) = slice.lot(lot) {
        if !matches!(known.origin, Origin::Receipts) {
            return Err(Refusal::WrongOrigin);
        }
        if known.material != *material {
            return Err(Refusal::WrongMaterial);
        }
        if !matches!(known.disposition, Disposition::Quarantined) {
            return Err(Refusal::NotQuarantined);
        }
    } else if slice.lots().len() >= MOST_LOTS {
        return Err(Refusal::LimitReached);
    }
    if slice.moves().len() >= MOST_MOVEMENTS || !has_room_in(slice, lot, sublot, amount) {
        return Err(Refusal::LimitReached);
    }
    Ok(())
}
