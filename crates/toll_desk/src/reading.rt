//! Replies to owners about their rows.
ghost use Rattle.std.specs.Prelude.{◌≡◌, true, [], IfOk, is_ok};
ghost use Rattle.toll_base.specs.Slice.{Slice};
ghost use Rattle.toll_base.specs.declared.request.Request.{Request};
ghost use Rattle.toll_base.specs.declared.request.Request.TheVariants.{Batch, Orders, Stock};
ghost use Rattle.toll_history.specs.History.{History};
ghost use Rattle.toll_history.specs.OverRows.{OverRows};
ghost use Rattle.toll_history.specs.OwnerFacts.{IsRowsOf};
ghost use Rattle.toll_desk.specs.Clauses.{IsLotShown, IsOrderShown, IsReadingPlan, RowsAnswerOwner};
ghost use Rattle.toll_desk.specs.Translations.{meaning_of_reply};

use crate::plan::Plan;
use crate::request::Reply;
use std::alloc::{AllocError, Global};
use toll_answers::{lot_view, stock_lines};
use toll_base::{BatchNo, Name, OrderRow, Refusal, Slice};
use toll_work::batch_view;

/// The plan of a reply that changes nothing. It fails only if memory runs out.
pub fn shown(alloc: Global, reply: Result<Reply, AllocError>) -> Result<Plan<Reply>, AllocError>
    ensures reported { IfOk reply (λ reply. is_ok (meaning_of_reply reply) ≡ true) → IfOk result (λ planned. is_ok (meaning_of_reply planned.reply) ≡ true) }
    ensures none { IfOk result (λ planned. planned.changes.items ≡ []) }
    ensures over { (H : History) (s : Slice) (q : Request) → IsReadingPlan H s q reply result }
{
    match reply {
        Ok(reply) => Ok(Plan::unchanged(alloc, reply)),
        Err(error) => Err(error),
    }
}

/// All orders. It fails only if memory runs out.
pub fn orders_shown(alloc: Global, slice: &Slice) -> Result<Reply, AllocError>
    ensures reported { IfOk result (λ reply. is_ok (meaning_of_reply reply) ≡ true) }
    ensures over { OverRows slice.now (λ H. RowsAnswerOwner H slice.now.owner Orders result) }
{
    match copied(alloc, slice.orders()) {
        Ok(orders) => Ok(Reply::Orders(orders)),
        Err(error) => Err(error),
    }
}

fn copied(alloc: Global, orders: &[OrderRow]) -> Result<Vec<OrderRow>, AllocError>
    ensures { IfOk result (λ rows. rows.items ≡ orders.now) }
{
    orders.to_vec(alloc)
}

/// The order as it is now.
pub fn order_shown(slice: &Slice, order: &Name) -> Reply
    ensures reported { is_ok (meaning_of_reply result) ≡ true }
    ensures over { (H : History) → IsRowsOf H slice.now → IsOrderShown H slice.now.owner order.now result }
{
    match slice.order(order) {
        Some(row) => Reply::Order(row),
        None => Reply::Refused(Refusal::UnknownOrder),
    }
}

/// The batch as it is now. It fails only if memory runs out.
pub fn batch_shown(
    alloc: Global,
    slice: &Slice,
    order: &Name,
    number: BatchNo,
) -> Result<Reply, AllocError>
    ensures reported { IfOk result (λ reply. is_ok (meaning_of_reply reply) ≡ true) }
    ensures over { OverRows slice.now (λ H. RowsAnswerOwner H slice.now.owner (Batch order.now number) result) }
{
    if slice.order(order).is_none() {
        return Ok(Reply::Refused(Refusal::UnknownOrder));
    }
    match batch_view(alloc, slice, order, number) {
        Ok(Some(view)) => Ok(Reply::Batch(view)),
        Ok(None) => Ok(Reply::Refused(Refusal::UnknownBatch)),
        Err(error) => Err(error),
    }
}

/// All lots, with the amount on hand of each. It fails only if memory runs out.
pub fn stock_shown(alloc: Global, slice: &Slice) -> Result<Reply, AllocError>
    ensures reported { IfOk result (λ reply. is_ok (meaning_of_reply reply) ≡ true) }
    ensures over { OverRows slice.now (λ H. RowsAnswerOwner H slice.now.owner Stock result) }
{
    match stock_lines(alloc, slice) {
        Ok(lines) => Ok(Reply::Stock(lines)),
        Err(error) => Err(error),
    }
}

/// The lot as it is now. It fails only if memory runs out.
pub fn lot_shown(alloc: Global, slice: &Slice, lot: &Name) -> Result<Reply, AllocError>
    ensures reported { IfOk result (λ reply. is_ok (meaning_of_reply reply) ≡ true) }
    ensures over { OverRows slice.now (λ H. IsLotShown H slice.now.owner lot.now result) }
{
    match lot_view(alloc, slice, lot) {
        Ok(Some(view)) => Ok(Reply::Lot(view)),
        Ok(None) => Ok(Reply::Refused(Refusal::UnknownLot)),
        Err(error) => Err(error),
    }
}
