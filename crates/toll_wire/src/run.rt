//! Runs of events.
ghost use Rattle.std.specs.List.{AllByRecursion};
ghost use Rattle.std.specs.Prelude.{◌≡◌, IfOk, List, OnErr};
ghost use Rattle.toll_base.specs.Bytes.{Bytes};
ghost use Rattle.toll_keep.specs.Meaning.{NeverCloses, meaning_for};
ghost use Rattle.toll_desk.specs.Reads.{Over};
ghost use Rattle.toll_wire.specs.OfficeRuns.{AreServed, AreSteps, IsEventServed, IsOpenAnswer, IsRequest, IsRequestAnswered, IsRunFor, IsRunOf};

use crate::answering::reply_by_router;
use crate::event::{Answer, Event};
use crate::routes::OfficeRouter;
use std::alloc::{AllocError, Global};
use toll_desk::plant_do;
use toll_keep::Keep;

/// Answers the events one by one, each over the rows that those before it left: a run, in which each owner's
/// replies are those that its own part gives alone. After a stop during an event, the rows are those
/// that all events before it left, or those that it leaves with them. Of requests alone, those of some owners
/// are a run of their own, whatever rows the keep has of others. Over a keep that never closes, the only fault
/// in an answer is that there was no memory. An `Err` means that there was no memory for the answers, and no
/// event acted.
pub fn run_events<K: Keep>(
    alloc: Global,
    keep: &mut K,
    events: &[Event],
) -> Result<Vec<Answer>, AllocError>
    ensures err { OnErr result (keep.new ≡ keep.old) }
    ensures honest { K.meaning.is_honest keep.new → K.meaning.is_honest keep.old }
    ensures served { IfOk result (λ answers. AreServed K.meaning keep.old events.now answers.items keep.new) }
    ensures run { Over K.meaning keep.old keep.new (λ c H. IfOk result (λ answers. IsRunOf (K.meaning.holds keep.new) H events.now answers.items)) }
    ensures steps { Over K.meaning keep.old keep.new (λ c H. IfOk result (λ answers. AreSteps K.meaning keep.old c H events.now answers.items keep.new)) }
    ensures alone { (os : List Bytes) → AllByRecursion IsRequest events.now → Over (meaning_for K.meaning K.part os) keep.old keep.new
        (λ c H. IfOk result (λ answers. IsRunFor os ((K.part os).holds keep.new) H events.now answers.items)) }
    ensures open { NeverCloses K.meaning → Over K.meaning keep.old keep.new (λ c H. IfOk result (λ answers. AllByRecursion IsOpenAnswer answers.items)) }
{
    let mut router = OfficeRouter::new();
    let mut answers = Vec::with_capacity(alloc, events.len())?;
    for event in events {
        let answer = answer_event(alloc, &mut router, keep, event);
        answers.push_reserved(answer);
    }
    Ok(answers)
}

fn answer_event<K: Keep>(
    alloc: Global,
    router: &mut OfficeRouter,
    keep: &mut K,
    event: &Event,
) -> Answer
    ensures served { IsEventServed K.meaning keep.old event.now result keep.new }
    ensures alone { (os : List Bytes) → IsRequest event.now → IsRequestAnswered os K.meaning K.part keep.old event.now result keep.new }
{
    match event {
        Event::Owner(bytes) => Answer::Bytes(reply_by_router(alloc, router, keep, bytes)),
        Event::Plant(command) => Answer::Plant(plant_do(alloc, keep, command)),
    }
}
