//! Voids.
ghost use Rattle.std.specs.Prelude.{◌≡◌, false, Some, IfOk};
ghost use Rattle.toll_work.specs.Common.{same_bytes, changes_of, move_at, by, DecidesWith, DecisionKeepsRules, verdict_of_result, PutsOnlyWith, facts_of, verdict_of_checks};
ghost use Rattle.toll_history.specs.Command.{Void};
ghost use Rattle.toll_work.specs.ActualPlans.{IsGivingPlan, IsTakingPlan};
ghost use Rattle.toll_work.specs.Voiding.{void_batch_checks, actual_sublot};

use crate::actuals::{ActualUse, slice_for, use_of};
use crate::crossing::crosses;
use std::alloc::{AllocError, Global};
use toll_base::{Amount, BatchNo, Change, Decision, Name, Refusal, Role, Row, Slice, VoidRow};
use toll_history::{has_room_in, sublot_gaining, sublot_losing};

/// Voids the actual with this key of a batch that isn't closed: what it consumed is given back to its
/// sublot, whatever the lot's disposition, and what it produced is taken out. A lot that it produced
/// stays known, with its material and origin, and no disposition changes.
///
/// [`Refusal::UnknownKey`] if `own`'s owner has no actual with the key, then [`Refusal::Voided`],
/// [`Refusal::BatchClosed`], and for a production [`Refusal::NotEnough`] if its sublot holds less
/// than its amount. If the owner is HOUSE both slices are HOUSE's. It fails only if memory runs out.
pub fn void_actual(
    alloc: Global,
    own: &Slice,
    house: &Slice,
    key: Name,
) -> Result<Decision, AllocError>
    ensures decides { IfOk result (DecidesWith (by own.now.owner (Void key)) own.now house.now) }
    ensures rules { IfOk result (DecisionKeepsRules own.now) }
    ensures house_rules { same_bytes own.now.owner house.now.owner ≡ false → IfOk result (DecisionKeepsRules house.now) }
    ensures own { IfOk result (λ d. PutsOnlyWith own.now.owner (actual_sublot (move_at own.now key)) (changes_of d)) }
{
    // Reading the owners shows the rules of both slices.
    let _own = own.owner();
    let _house = house.owner();
    let Some(row) = own.movement(&key) else {
        return Ok(Decision::Refuse(Refusal::UnknownKey));
    };
    match use_of(&row.what) {
        Some((Role::Consumed, used)) => give_back(alloc, own, house, key, &used, row.amount),
        Some((Role::Produced, used)) => take_out(alloc, own, key, &used, row.amount),
        None => Ok(Decision::Refuse(Refusal::UnknownKey)),
    }
}

fn give_back(
    alloc: Global,
    own: &Slice,
    house: &Slice,
    key: Name,
    used: &ActualUse,
    amount: Amount,
) -> Result<Decision, AllocError>
    ensures plan { IfOk result (IsGivingPlan own.now house.now key used.now amount) }
{
    if let Err(why) = check_open(own, &key, &used.order, used.number) {
        return Ok(Decision::Refuse(why));
    }
    let source = slice_for(own, house, &used.lot.owner);
    if source.sublot(&used.lot.lot, &used.sublot).is_none()
        || !has_room_in(source, &used.lot.lot, &used.sublot, amount)
    {
        return Ok(Decision::Refuse(Refusal::LimitReached));
    }
    if crosses(own.owner(), Role::Consumed, &used.lot.owner) {
        return Ok(Decision::Refuse(Refusal::LimitReached));
    }
    let held = sublot_gaining(source, used.lot.lot, used.sublot, amount);
    let voided = Change::Put(*own.owner(), Row::Void(VoidRow { key }));
    Decision::accept_all(
        alloc,
        &[voided, Change::Put(used.lot.owner, Row::Sublot(held))],
    )
}

fn take_out(
    alloc: Global,
    own: &Slice,
    key: Name,
    used: &ActualUse,
    amount: Amount,
) -> Result<Decision, AllocError>
    ensures plan { IfOk result (IsTakingPlan own.now key used.now amount) }
{
    if let Err(why) = check_open(own, &key, &used.order, used.number) {
        return Ok(Decision::Refuse(why));
    }
    if own.amount_in(&used.lot.lot, &used.sublot) < amount.get() {
        return Ok(Decision::Refuse(Refusal::NotEnough));
    }
    if own.sublot(&used.lot.lot, &used.sublot).is_none() {
        return Ok(Decision::Refuse(Refusal::LimitReached));
    }
    let left = sublot_losing(own, used.lot.lot, used.sublot, amount);
    Decision::accept_all(
        alloc,
        &[
            Change::Put(*own.owner(), Row::Void(VoidRow { key })),
            Change::Put(*own.owner(), Row::Sublot(left)),
        ],
    )
}

// Whether the actual stands, and its batch isn't closed.
fn check_open(own: &Slice, key: &Name, order: &Name, number: BatchNo) -> Result<(), Refusal>
    ensures { verdict_of_result result ≡ verdict_of_checks (void_batch_checks (facts_of own.now) key.now order.now number) }
{
    if own.is_voided(key) {
        return Err(Refusal::Voided);
    }
    if let Some(batch) = own.batch(order, number) {
        if batch.closed {
            return Err(Refusal::BatchClosed);
        }
    }
    Ok(())
}
