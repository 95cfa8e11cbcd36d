//! Owners' requests over a keep.
ghost use Rattle.std.specs.Prelude.{List, Contains};
ghost use Rattle.toll_base.specs.Bytes.{Bytes};
ghost use Rattle.toll_answers.specs.Replies.{IsValidOwnerRequest};
ghost use Rattle.toll_history.specs.OwnChanges.{PutsOnly};
ghost use Rattle.toll_keep.specs.CallEffects.{IsReading};
ghost use Rattle.toll_keep.specs.HeldFor.{KeepsHeld};
ghost use Rattle.toll_keep.specs.Meaning.{meaning_for};
ghost use Rattle.toll_desk.specs.Clauses.{ChangesIfMayWrite, IsPlannedBy, OverContentRows};
ghost use Rattle.toll_desk.specs.OfficeSteps.{owner_steps};
ghost use Rattle.toll_desk.specs.Reads.{Over};
ghost use Rattle.toll_desk.specs.Steps.{IsKeepStep};
ghost use Rattle.toll_desk.specs.Translations.{meaning_of_reply};

use crate::admission::admit;
use crate::committing::commit;
use crate::plan::Plan;
use crate::planning::plan_for;
use crate::request::Reply;
use std::alloc::Global;
use toll_base::Request;
use toll_keep::{Keep, KeepFault};

/// The reply to an owner's request if its changes succeed, and these changes. Nothing is changed
/// yet. A question, a forbidden or refused request, and an order that already exists have no
/// changes.
pub fn owner_plan<K: Keep>(
    alloc: Global,
    keep: &mut K,
    owner: &[u8],
    key: &[u8],
    request: &Request,
) -> Plan<Reply>
    ensures reads { IsReading K.meaning keep.old keep.new (meaning_of_reply result.reply) }
    ensures idle { ChangesIfMayWrite (OverContentRows K.meaning keep.old keep.new owner.now) request.now result }
    ensures plan { Over K.meaning keep.old keep.new (λ c H. IsPlannedBy c H owner.now key.now request.now result) }
    ensures alone { (os : List Bytes) → Contains os owner.now
        → IsReading (meaning_for K.meaning K.part os) keep.old keep.new (meaning_of_reply result.reply) }
    ensures quiet { (os : List Bytes) → Contains os owner.now
        → ChangesIfMayWrite (OverContentRows (meaning_for K.meaning K.part os) keep.old keep.new owner.now) request.now result }
    ensures own { (os : List Bytes) → Contains os owner.now → Over (meaning_for K.meaning K.part os) keep.old keep.new
        (λ c H. IsPlannedBy c H owner.now key.now request.now result) }
    ensures puts { PutsOnly owner.now result.changes.items }
    ensures others { (os : List Bytes) → KeepsHeld (meaning_for K.meaning K.part os) keep.old keep.new (meaning_of_reply result.reply) }
{
    match admit(alloc, keep, owner, key) {
        Ok(Some(owner)) => plan_for(alloc, keep, &owner, request),
        Ok(None) => Plan::unchanged(alloc, Reply::Forbidden),
        Err(fault) => Plan::unchanged(alloc, Reply::Fault(fault)),
    }
}

/// Does an owner's request, and returns the reply. After [`KeepFault::Memory`] nothing has changed.
/// Only tests call it: programs call [`owner_plan`], and make the changes once the reply's text is there.
pub fn owner_do<K: Keep>(
    alloc: Global,
    keep: &mut K,
    owner: &[u8],
    key: &[u8],
    request: &Request,
) -> Reply
    ensures step { IsKeepStep K.meaning (owner_steps owner.now key.now) keep.old request.now (meaning_of_reply result) keep.new }
    ensures alone { (os : List Bytes) → Contains os owner.now
        → IsKeepStep (meaning_for K.meaning K.part os) (owner_steps owner.now key.now) keep.old request.now (meaning_of_reply result) keep.new }
    ensures others { (os : List Bytes) → ¬ (Contains os owner.now) → KeepsHeld (meaning_for K.meaning K.part os) keep.old keep.new (meaning_of_reply result) }
{
    // For the proof: the bounds that the types give the values.
    keeps_bounds(request);
    let planned = owner_plan(alloc, keep, owner, key, request);
    let made = commit(alloc, keep, &planned.changes);
    planned.finished(made)
}

// A law: the values of a request are within the bounds of their types.
fn keeps_bounds(request: &Request)
    ensures { IsValidOwnerRequest request.now }
{
    if let Request::Place(placing) = *request {
        let _within = placing.batches.get();
    }
}
