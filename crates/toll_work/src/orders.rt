//! Orders.
ghost use Rattle.std.specs.Prelude.{◌≡◌, true, is_some, Some, [], IfOk};
ghost use Rattle.toll_work.specs.Common.{changes_of, order_at, KeepsRules, PlaceOrder, CancelOrder, by, Decides, DecisionKeepsRules, verdict_of_result, PutsOnly, facts_of, verdict_of_checks, uncancelled_order_checks};
ghost use Rattle.toll_work.specs.Plans.{IsCancelPlan, IsOrderPlan};

use std::alloc::{AllocError, Global};
use toll_base::{Change, Decision, MOST_ORDERS, Name, OrderRow, Placing, Refusal, Row, Slice};

/// Places an order.
///
/// An order of this name by the same recipe and of as many batches is repeated, even if it was
/// cancelled. Otherwise [`Refusal::OrderExists`] if the owner has an order of this name, then
/// [`Refusal::UnknownRecipe`], then [`Refusal::LimitReached`] at 2,000 orders. It fails only if memory runs
/// out.
pub fn place_order(alloc: Global, slice: &Slice, placing: &Placing) -> Result<Decision, AllocError>
    ensures decides { IfOk result (Decides (by slice.now.owner (PlaceOrder placing.now)) slice.now) }
    ensures rules { IfOk result (DecisionKeepsRules slice.now) }
    ensures own { IfOk result (λ d. PutsOnly slice.now.owner (changes_of d)) }
    ensures kept { is_some (order_at slice.now placing.now.order) ≡ true → IfOk result (λ d. changes_of d ≡ []) }
{
    plan_order(alloc, slice, placing)
}

fn plan_order(alloc: Global, slice: &Slice, placing: &Placing) -> Result<Decision, AllocError>
    ensures plan { IfOk result (IsOrderPlan slice.now placing.now) }
    ensures kept { KeepsRules slice.now }
{
    let owner = *slice.owner();
    if let Some(known) = slice.order(&placing.order) {
        if known.recipe == placing.recipe && known.batches == placing.batches {
            return Ok(Decision::Repeated);
        }
        return Ok(Decision::Refuse(Refusal::OrderExists));
    }
    if slice.recipe(&placing.recipe).is_none() {
        return Ok(Decision::Refuse(Refusal::UnknownRecipe));
    }
    if slice.orders().len() >= MOST_ORDERS {
        return Ok(Decision::Refuse(Refusal::LimitReached));
    }
    let row = OrderRow::placed(placing);
    Decision::accept(alloc, Change::Put(owner, Row::Order(row)))
}

/// Cancels the order.
///
/// [`Refusal::UnknownOrder`], then [`Refusal::OrderCancelled`] if it was cancelled before, then
/// [`Refusal::OrderStarted`] if a batch of it was opened. It fails only if memory runs out.
pub fn cancel_order(alloc: Global, slice: &Slice, order: Name) -> Result<Decision, AllocError>
    ensures decides { IfOk result (Decides (by slice.now.owner (CancelOrder order)) slice.now) }
    ensures rules { IfOk result (DecisionKeepsRules slice.now) }
    ensures own { IfOk result (λ d. PutsOnly slice.now.owner (changes_of d)) }
{
    plan_cancelling(alloc, slice, &order)
}

fn plan_cancelling(alloc: Global, slice: &Slice, order: &Name) -> Result<Decision, AllocError>
    ensures plan { IfOk result (IsCancelPlan slice.now order.now) }
    ensures kept { KeepsRules slice.now }
{
    let owner = *slice.owner();
    let known = match find_uncancelled(slice, order) {
        Ok(known) => known,
        Err(why) => return Ok(Decision::Refuse(why)),
    };
    if count_opened(slice, order) > 0 {
        return Ok(Decision::Refuse(Refusal::OrderStarted));
    }
    let row = OrderRow {
        cancelled: true,
        ..known
    };
    Decision::accept(alloc, Change::Put(owner, Row::Order(row)))
}

/// The order: [`Refusal::UnknownOrder`] if the owner has none of this name, then [`Refusal::OrderCancelled`].
pub fn find_uncancelled(slice: &Slice, order: &Name) -> Result<OrderRow, Refusal>
    ensures checks { verdict_of_result result ≡ verdict_of_checks (uncancelled_order_checks (facts_of slice.now) order.now) }
    ensures order { IfOk result (λ row. order_at slice.now order.now ≡ Some row) }
{
    let Some(known) = slice.order(order) else {
        return Err(Refusal::UnknownOrder);
    };
    if known.cancelled {
        return Err(Refusal::OrderCancelled);
    }
    Ok(known)
}

/// How many batches of the order were opened.
pub fn count_opened(slice: &Slice, order: &Name) -> u64
    ensures { result ≡ (facts_of slice.now).opened order.now }
{
    slice
        .batches()
        .iter()
        .filter(|row| row.order == *order)
        .count() as u64
}
