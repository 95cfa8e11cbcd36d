//! Owners' traces.
ghost use Rattle.std.specs.Prelude.{◌≡◌, List, Contains, []};
ghost use Rattle.toll_base.specs.Bytes.{Bytes};
ghost use Rattle.toll_base.specs.Lots.{lot_id};
ghost use Rattle.toll_history.specs.History.{History};
ghost use Rattle.toll_history.specs.OwnerFacts.{IsRowsOf};
ghost use Rattle.toll_history.specs.Verdict.{IsLawful};
ghost use Rattle.toll_keep.specs.HeldFor.{KeepsOneMore};
ghost use Rattle.toll_keep.specs.Meaning.{meaning_for};
ghost use Rattle.toll_keep.specs.Reads.{IsContentKept, ReadsOneMore};
ghost use Rattle.toll_desk.specs.Clauses.{RowsAnswerTrace};
ghost use Rattle.toll_desk.specs.Translations.{meaning_of_reply};
ghost use Rattle.toll_desk.specs.Questions.{may_trace};
ghost use Rattle.toll_desk.specs.Reads.{Over};

use crate::plan::Plan;
use crate::request::Reply;
use std::alloc::Global;
use toll_answers::has_consumed;
use toll_base::{LotId, Name, Refusal, Slice};
use toll_keep::Keep;
use toll_trace::Way;

/// The plan of a trace of the slice's owner, from the lot of this owner, which is its own or HOUSE's.
pub fn plan_trace<K: Keep>(
    alloc: Global,
    keep: &mut K,
    slice: &Slice,
    owner: Name,
    lot: Name,
    way: Way,
) -> Plan<Reply>
    ensures reads { ReadsOneMore K.meaning keep.old keep.new (meaning_of_reply result.reply) }
    ensures kept { IsContentKept K.meaning keep.old keep.new }
    ensures none { result.changes.items ≡ [] }
    ensures over { Over K.meaning keep.old keep.new (λ c H. RowsAnswerTrace H slice.now (lot_id owner lot) way (meaning_of_reply result.reply)) }
    ensures alone { (os : List Bytes) → Contains os slice.now.owner
        → ReadsOneMore (meaning_for K.meaning K.part os) keep.old keep.new (meaning_of_reply result.reply) }
    ensures stays { (os : List Bytes) → IsContentKept (meaning_for K.meaning K.part os) keep.old keep.new }
    ensures own { (os : List Bytes) → Contains os slice.now.owner → Over (meaning_for K.meaning K.part os) keep.old keep.new
        (λ c H. RowsAnswerTrace H slice.now (lot_id owner lot) way (meaning_of_reply result.reply)) }
    ensures others { (os : List Bytes) → KeepsOneMore (meaning_for K.meaning K.part os) keep.old keep.new (meaning_of_reply result.reply) }
{
    let reply = trace_own(alloc, keep, slice, &LotId { owner, lot }, way);
    Plan::unchanged(alloc, reply)
}

/// The trace over the edges of the owner's own batches. [`Refusal::UnknownLot`] if the owner has no
/// such lot, or, for a lot of HOUSE, if no batch of the owner consumed it.
fn trace_own<K: Keep>(alloc: Global, keep: &mut K, slice: &Slice, lot: &LotId, way: Way) -> Reply
    ensures reads { ReadsOneMore K.meaning keep.old keep.new (meaning_of_reply result) }
    ensures kept { IsContentKept K.meaning keep.old keep.new }
    ensures over { Over K.meaning keep.old keep.new (λ c H. RowsAnswerTrace H slice.now lot.now way (meaning_of_reply result)) }
    ensures alone { (os : List Bytes) → Contains os slice.now.owner
        → ReadsOneMore (meaning_for K.meaning K.part os) keep.old keep.new (meaning_of_reply result) }
    ensures stays { (os : List Bytes) → IsContentKept (meaning_for K.meaning K.part os) keep.old keep.new }
    ensures own { (os : List Bytes) → Contains os slice.now.owner → Over (meaning_for K.meaning K.part os) keep.old keep.new
        (λ c H. RowsAnswerTrace H slice.now lot.now way (meaning_of_reply result)) }
    ensures others { (os : List Bytes) → KeepsOneMore (meaning_for K.meaning K.part os) keep.old keep.new (meaning_of_reply result) }
{
    if !may_trace(slice, lot) {
        return Reply::Refused(Refusal::UnknownLot);
    }
    match keep.trace(alloc, &[*slice.owner()], lot, way) {
        Ok(steps) => Reply::Trace(steps),
        Err(fault) => Reply::Fault(fault),
    }
}

// Whether the slice's owner has the lot, or, for a lot of HOUSE, whether a batch of the owner consumed it.
fn may_trace(slice: &Slice, lot: &LotId) -> bool
    ensures { (H : History) → IsLawful H → IsRowsOf H slice.now → result ≡ may_trace H slice.now.owner lot.now }
{
    if lot.owner == *slice.owner() {
        slice.lot(&lot.lot).is_some()
    } else {
        has_consumed(slice, lot)
    }
}
