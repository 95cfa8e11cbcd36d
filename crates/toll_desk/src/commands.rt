//! Commands of the plant.
ghost use Rattle.toll_history.specs.Verdict.{IsValidAction};
ghost use Rattle.toll_answers.specs.PlantAnswers.{recorded_command};
ghost use Rattle.toll_keep.specs.CallEffects.{IsReading};
ghost use Rattle.toll_desk.specs.Clauses.{ChangesIfAccepted, IsPlantPlanned};
ghost use Rattle.toll_desk.specs.OfficeSteps.{plant_steps};
ghost use Rattle.toll_desk.specs.Steps.{IsKeepStep};
ghost use Rattle.toll_desk.specs.Translations.{meaning_of_plant_reply};
ghost use Rattle.toll_desk.specs.Reads.{Over};
ghost use Rattle.toll_desk.specs.Subjects.{IsCommandSuchThat};

use crate::committing::commit;
use crate::deciding::decide;
use crate::plan::Plan;
use crate::plant_cmd::PlantReply;
use std::alloc::Global;
use toll_answers::PlantCmd;
use toll_keep::{Keep, KeepFault};

/// Decides a command of the plant, and does it if it is accepted.
pub fn run_command<K: Keep>(alloc: Global, keep: &mut K, command: &PlantCmd) -> PlantReply
    requires { IsCommandSuchThat IsValidAction (recorded_command command.now) }
    ensures { IsKeepStep K.meaning plant_steps keep.old command.now (meaning_of_plant_reply result) keep.new }
{
    let planned = plan(alloc, keep, command);
    let made = commit(alloc, keep, &planned.changes);
    planned.finished(made)
}

// The reply if its changes succeed, and these changes. Nothing is changed yet.
fn plan<K: Keep>(alloc: Global, keep: &mut K, command: &PlantCmd) -> Plan<PlantReply>
    requires { IsCommandSuchThat IsValidAction (recorded_command command.now) }
    ensures reads { IsReading K.meaning keep.old keep.new (meaning_of_plant_reply result.reply) }
    ensures quiet { ChangesIfAccepted result }
    ensures plan { Over K.meaning keep.old keep.new (λ c H. IsPlantPlanned c H command.now result) }
{
    match decide(alloc, keep, command) {
        Ok(decision) => Plan::of(alloc, decision),
        Err(fault) => Plan::unchanged(alloc, PlantReply::Fault(fault)),
    }
}
