//! The replies to the plant's commands.
ghost use Rattle.std.specs.Prelude.{◌≡◌, Ok};
ghost use Rattle.toll_base.specs.Changes.{changes_of};
ghost use Rattle.toll_history.specs.Decision.{verdict_of};
ghost use Rattle.toll_answers.specs.PlantAnswers.{Judged};
ghost use Rattle.toll_desk.specs.Clauses.{ChangesIfAccepted};
ghost use Rattle.toll_desk.specs.Translations.{meaning_of_plant_reply};
ghost use Rattle.toll_desk.specs.Outcome.{finished};

use crate::plan::Plan;
use std::alloc::Global;
use toll_base::{Decision, Refusal};
use toll_keep::KeepFault;

/// The reply to a command of the plant.
#[derive(Drop)]
pub enum PlantReply {
    Accepted,
    Repeated,
    Refused(Refusal),
    /// The text that answers a question.
    Text(Vec<u8>),
    Fault(KeepFault),
}

impl Plan<PlantReply> {
    /// The plan of a decision.
    pub fn of(alloc: Global, decision: Decision) -> Self
        ensures reported { meaning_of_plant_reply result.reply ≡ Ok (Judged (verdict_of decision)) }
        ensures changes { result.changes.items ≡ changes_of decision }
        ensures quiet { ChangesIfAccepted result }
    {
        match decision {
            Decision::Accept(changes) => Plan {
                reply: PlantReply::Accepted,
                changes,
            },
            Decision::Repeated => Plan::unchanged(alloc, PlantReply::Repeated),
            Decision::Refuse(why) => Plan::unchanged(alloc, PlantReply::Refused(why)),
        }
    }

    /// The reply after the attempt to make the changes.
    pub fn finished(self, made: Result<(), KeepFault>) -> PlantReply
        ensures { meaning_of_plant_reply result ≡ finished (meaning_of_plant_reply self.reply) made }
    {
        match made {
            Ok(()) => self.reply,
            Err(fault) => PlantReply::Fault(fault),
        }
    }
}
