//! Plans of owners' requests that change rows.
ghost use Rattle.std.specs.Prelude.{◌≡◌, true, false, [], IfOk, is_ok};
ghost use Rattle.toll_base.specs.Bytes.{Bytes};
ghost use Rattle.toll_base.specs.Changes.{changes_of};
ghost use Rattle.toll_base.specs.declared.request.Request.TheVariants.{Cancel, Place, Reject, Release};
ghost use Rattle.toll_history.specs.OverRows.{OverOwnRows};
ghost use Rattle.toll_history.specs.OwnChanges.{PutsOnly};
ghost use Rattle.toll_desk.specs.Clauses.{ChangesIfMayWrite, IsDisposedOver, IsPlannedOver, OverSlice};
ghost use Rattle.toll_desk.specs.Translations.{is_granted, meaning_of_reply};

use crate::plan::Plan;
use crate::reading::{lot_shown, order_shown};
use crate::request::Reply;
use std::alloc::{AllocError, Global};
use toll_answers::{LotView, lot_view};
use toll_base::{Decision, Disposition, LotRow, Name, OrderRow, Placing, Refusal, Slice};
use toll_stock::{reject, release};
use toll_work::{cancel_order, place_order};

// ---- orders

/// The plan of placing an order. It fails only if memory runs out.
pub fn plan_order(
    alloc: Global,
    slice: &Slice,
    placing: &Placing,
) -> Result<Plan<Reply>, AllocError>
    ensures reported { IfOk result (λ planned. is_ok (meaning_of_reply planned.reply) ≡ true) }
    ensures idle { IfOk result (ChangesIfMayWrite (OverSlice slice.now) (Place placing.now)) }
    ensures over { OverOwnRows slice.now (λ H. IsPlannedOver H slice.now (Place placing.now) result) }
    ensures puts { IfOk result (λ planned. PutsOnly slice.now.owner planned.changes.items) }
{
    // This names the bounds for the proof.
    let _within = placing.batches.get();
    match place_order(alloc, slice, placing) {
        Ok(Decision::Accept(changes)) => Ok(Plan {
            reply: Reply::Order(OrderRow::placed(placing)),
            changes,
        }),
        // The answer for a cancelled order is the order as it is now.
        Ok(Decision::Repeated) => Ok(Plan::unchanged(alloc, order_shown(slice, &placing.order))),
        Ok(Decision::Refuse(why)) => Ok(Plan::unchanged(alloc, Reply::Refused(why))),
        Err(error) => Err(error),
    }
}

/// The plan of cancelling an order. It fails only if memory runs out.
pub fn plan_cancelling(alloc: Global, slice: &Slice, order: Name) -> Result<Plan<Reply>, AllocError>
    ensures reported { IfOk result (λ planned. is_ok (meaning_of_reply planned.reply) ≡ true) }
    ensures quiet { IfOk result (λ planned. is_granted (meaning_of_reply planned.reply) ≡ false → planned.changes.items ≡ []) }
    ensures over { OverOwnRows slice.now (λ H. IsPlannedOver H slice.now (Cancel order) result) }
    ensures puts { IfOk result (λ planned. PutsOnly slice.now.owner planned.changes.items) }
{
    let Some(row) = slice.order(&order) else {
        return Ok(Plan::unchanged(alloc, Reply::Refused(Refusal::UnknownOrder)));
    };
    match cancel_order(alloc, slice, order) {
        Ok(Decision::Accept(changes)) => Ok(Plan {
            reply: Reply::Order(OrderRow {
                cancelled: true,
                ..row
            }),
            changes,
        }),
        Ok(Decision::Repeated) => Ok(Plan::unchanged(alloc, Reply::Order(row))),
        Ok(Decision::Refuse(why)) => Ok(Plan::unchanged(alloc, Reply::Refused(why))),
        Err(error) => Err(error),
    }
}

// ---- lots

/// The plan of releasing a lot. It fails only if memory runs out.
pub fn plan_release(alloc: Global, slice: &Slice, lot: Name) -> Result<Plan<Reply>, AllocError>
    ensures reported { IfOk result (λ planned. is_ok (meaning_of_reply planned.reply) ≡ true) }
    ensures quiet { IfOk result (λ planned. is_granted (meaning_of_reply planned.reply) ≡ false → planned.changes.items ≡ []) }
    ensures over { OverOwnRows slice.now (λ H. IsPlannedOver H slice.now (Release lot) result) }
    ensures puts { IfOk result (λ planned. PutsOnly slice.now.owner planned.changes.items) }
{
    let decision = release(alloc, slice, lot)?;
    disposed(alloc, slice, &lot, Disposition::Released, decision)
}

/// The plan of rejecting a lot. It fails only if memory runs out.
pub fn plan_rejection(alloc: Global, slice: &Slice, lot: Name) -> Result<Plan<Reply>, AllocError>
    ensures reported { IfOk result (λ planned. is_ok (meaning_of_reply planned.reply) ≡ true) }
    ensures quiet { IfOk result (λ planned. is_granted (meaning_of_reply planned.reply) ≡ false → planned.changes.items ≡ []) }
    ensures over { OverOwnRows slice.now (λ H. IsPlannedOver H slice.now (Reject lot) result) }
    ensures puts { IfOk result (λ planned. PutsOnly slice.now.owner planned.changes.items) }
{
    let decision = reject(alloc, slice, lot)?;
    disposed(alloc, slice, &lot, Disposition::Rejected, decision)
}

// The lot with the disposition that the decision gave it.
fn disposed(
    alloc: Global,
    slice: &Slice,
    lot: &Name,
    disposition: Disposition,
    decision: Decision,
) -> Result<Plan<Reply>, AllocError>
    ensures reported { IfOk result (λ planned. is_ok (meaning_of_reply planned.reply) ≡ true) }
    ensures quiet { IfOk result (λ planned. is_granted (meaning_of_reply planned.reply) ≡ false → planned.changes.items ≡ []) }
    ensures over { OverOwnRows slice.now (λ H. IsDisposedOver H slice.now lot.now disposition decision result) }
    ensures puts { (o : Bytes) → PutsOnly o (changes_of decision) → IfOk result (λ planned. PutsOnly o planned.changes.items) }
{
    match decision {
        Decision::Accept(changes) => match lot_view(alloc, slice, lot) {
            Ok(Some(view)) => Ok(Plan {
                reply: Reply::Lot(with_disposition(view, disposition)),
                changes,
            }),
            Ok(None) => Ok(Plan::unchanged(alloc, Reply::Refused(Refusal::UnknownLot))),
            Err(error) => Err(error),
        },
        Decision::Repeated => match lot_shown(alloc, slice, lot) {
            Ok(reply) => Ok(Plan::unchanged(alloc, reply)),
            Err(error) => Err(error),
        },
        Decision::Refuse(why) => Ok(Plan::unchanged(alloc, Reply::Refused(why))),
    }
}

fn with_disposition(view: LotView, disposition: Disposition) -> LotView
    ensures { result ≡ record view { row = record view.row { disposition = disposition } } }
{
    LotView {
        row: LotRow {
            disposition,
            ..view.row
        },
        ..view
    }
}
