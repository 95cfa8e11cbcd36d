//! Plans of owners' requests over their rows.
ghost use Rattle.std.specs.Prelude.{◌≡◌, List, Contains, IfOk, OnErr};
ghost use Rattle.toll_base.specs.Bytes.{Bytes};
ghost use Rattle.toll_history.specs.OwnChanges.{PutsOnly};
ghost use Rattle.toll_keep.specs.CallEffects.{IsReading};
ghost use Rattle.toll_keep.specs.HeldFor.{KeepsHeld, KeepsOneMore};
ghost use Rattle.toll_keep.specs.Meaning.{meaning_for};
ghost use Rattle.toll_keep.specs.Reads.{IsContentKept, ReadsOneMore};
ghost use Rattle.toll_desk.specs.Clauses.{ChangesIfMayWrite, IfRowsOf, IsPlannedFor, IsPlannedOver, OverContentRows, OverOwner, OverSlice};
ghost use Rattle.toll_desk.specs.Reads.{Over};
ghost use Rattle.toll_desk.specs.Translations.{meaning_of_reply};

use crate::plan::Plan;
use crate::reading::{batch_shown, lot_shown, order_shown, orders_shown, shown, stock_shown};
use crate::request::Reply;
use crate::tracing::plan_trace;
use crate::writing::{plan_cancelling, plan_order, plan_rejection, plan_release};
use std::alloc::{AllocError, Global};
use toll_base::{Name, Request, Slice};
use toll_keep::{Keep, KeepFault};
use toll_trace::Way;

/// The reply to an admitted owner's request if its changes succeed, and these changes.
pub fn plan_for<K: Keep>(
    alloc: Global,
    keep: &mut K,
    owner: &Name,
    request: &Request,
) -> Plan<Reply>
    ensures reads { IsReading K.meaning keep.old keep.new (meaning_of_reply result.reply) }
    ensures idle { ChangesIfMayWrite (OverContentRows K.meaning keep.old keep.new owner.now) request.now result }
    ensures plan { OverOwner K.meaning keep.old keep.new owner.now (λ c H. IsPlannedFor c H owner.now request.now result) }
    ensures alone { (os : List Bytes) → Contains os owner.now
        → IsReading (meaning_for K.meaning K.part os) keep.old keep.new (meaning_of_reply result.reply) }
    ensures quiet { (os : List Bytes) → Contains os owner.now
        → ChangesIfMayWrite (OverContentRows (meaning_for K.meaning K.part os) keep.old keep.new owner.now) request.now result }
    ensures own { (os : List Bytes) → Contains os owner.now → OverOwner (meaning_for K.meaning K.part os) keep.old keep.new owner.now
        (λ c H. IsPlannedFor c H owner.now request.now result) }
    ensures puts { PutsOnly owner.now result.changes.items }
    ensures others { (os : List Bytes) → KeepsHeld (meaning_for K.meaning K.part os) keep.old keep.new (meaning_of_reply result.reply) }
{
    match keep.slice(alloc, owner) {
        Ok(Some(slice)) => match plan_over(alloc, keep, &slice, request) {
            Ok(planned) => planned,
            Err(_) => Plan::unchanged(alloc, Reply::Fault(KeepFault::Memory)),
        },
        Ok(None) => Plan::unchanged(alloc, Reply::Forbidden),
        Err(fault) => Plan::unchanged(alloc, Reply::Fault(fault)),
    }
}

// The same over the rows of the owner. A trace also follows the edges that the keep has.
#[tactic(auto, using(crate::proofs::OwnerPlans::plan_unread, crate::proofs::OwnerPlans::plan_kept_unread))]
fn plan_over<K: Keep>(
    alloc: Global,
    keep: &mut K,
    slice: &Slice,
    request: &Request,
) -> Result<Plan<Reply>, AllocError>
    ensures reads { IfOk result (λ planned. ReadsOneMore K.meaning keep.old keep.new (meaning_of_reply planned.reply)) }
    ensures kept { IsContentKept K.meaning keep.old keep.new }
    ensures unread { OnErr result (keep.new ≡ keep.old) }
    ensures idle { IfOk result (ChangesIfMayWrite (OverSlice slice.now) request.now) }
    ensures over { Over K.meaning keep.old keep.new (λ c H. IfRowsOf H slice.now (IsPlannedOver H slice.now request.now result)) }
    ensures alone { (os : List Bytes) → Contains os slice.now.owner
        → IfOk result (λ planned. ReadsOneMore (meaning_for K.meaning K.part os) keep.old keep.new (meaning_of_reply planned.reply)) }
    ensures stays { (os : List Bytes) → IsContentKept (meaning_for K.meaning K.part os) keep.old keep.new }
    ensures own { (os : List Bytes) → Contains os slice.now.owner → Over (meaning_for K.meaning K.part os) keep.old keep.new
        (λ c H. IfRowsOf H slice.now (IsPlannedOver H slice.now request.now result)) }
    ensures puts { IfOk result (λ planned. PutsOnly slice.now.owner planned.changes.items) }
    ensures others { (os : List Bytes)
        → IfOk result (λ planned. KeepsOneMore (meaning_for K.meaning K.part os) keep.old keep.new (meaning_of_reply planned.reply)) }
{
    let owner = *slice.owner();
    match *request {
        Request::Orders => shown(alloc, orders_shown(alloc, slice)),
        Request::Order(order) => shown(alloc, Ok(order_shown(slice, &order))),
        Request::Place(placing) => plan_order(alloc, slice, &placing),
        Request::Cancel(order) => plan_cancelling(alloc, slice, order),
        Request::Batch { order, number } => shown(alloc, batch_shown(alloc, slice, &order, number)),
        Request::Stock => shown(alloc, stock_shown(alloc, slice)),
        Request::Lot(lot) => shown(alloc, lot_shown(alloc, slice, &lot)),
        Request::Release(lot) => plan_release(alloc, slice, lot),
        Request::Reject(lot) => plan_rejection(alloc, slice, lot),
        Request::Back(lot) => Ok(plan_trace(alloc, keep, slice, owner, lot, Way::Back)),
        Request::Forward(lot) => Ok(plan_trace(alloc, keep, slice, owner, lot, Way::Forward)),
        Request::HouseForward(lot) => {
            Ok(plan_trace(alloc, keep, slice, Name::house(), lot, Way::Forward))
        }
    }
}
