//! Commands of the plant whose changes are pending.
ghost use Rattle.std.specs.Prelude.{◌≡◌, [], false, true};
ghost use Rattle.toll_history.specs.Verdict.{IsValidAction};
ghost use Rattle.toll_answers.specs.PlantAnswers.{IsValidCommand, recorded_command};
ghost use Rattle.toll_keep.specs.Content.{Content};
ghost use Rattle.toll_keep.specs.StagedChanges.{IsOver};
ghost use Rattle.toll_desk.specs.Clauses.{ChangesIfAccepted};
ghost use Rattle.toll_desk.specs.Translations.{meaning_of_plant_reply};
ghost use Rattle.toll_desk.specs.PlantStaged.{IsPlannedOn, IsPlantStaged, IsStagedAs, IsVerdictOrMemory, looks_at_two};
ghost use Rattle.toll_desk.specs.Subjects.{IsCommandSuchThat, is_shared};

use crate::deciding::{Both, both_over};
use crate::decisions::decide_shared;
use crate::plan::Plan;
use crate::plant_cmd::PlantReply;
use std::alloc::Global;
use toll_answers::PlantCmd;
use toll_base::Refusal;
use toll_keep::{Keep, KeepFault, StagedChanges};

/// Does a command that is decided over its owner's rows and HOUSE's: a requirement, an actual or a void. It
/// refuses a command that couldn't be read. The rows are those of the keep with the pending changes put. The
/// command's changes are then pending too, and the keep doesn't have them yet.
///
/// `Err` means that the rows couldn't be read. If there is no memory to decide, or to hold the changes, the
/// reply is [`KeepFault::Memory`], and no more changes are pending.
pub fn plant_stage<K: Keep>(
    alloc: Global,
    keep: &mut K,
    pending: &mut StagedChanges,
    command: &PlantCmd,
) -> Result<PlantReply, KeepFault>
    requires { looks_at_two command.now ≡ true }
    ensures held { IsPlantStaged K.meaning (keep.old, pending.old) command.now result (keep.new, pending.new) }
    ensures valid { IsValidCommand command.now }
{
    // For the proof: the bounds that the types give the values.
    command.keeps_bounds();
    match command {
        PlantCmd::Unread(why) => Ok(PlantReply::Refused(*why)),
        _ => stage_shared(alloc, keep, pending, command),
    }
}

fn stage_shared<K: Keep>(
    alloc: Global,
    keep: &mut K,
    pending: &mut StagedChanges,
    command: &PlantCmd,
) -> Result<PlantReply, KeepFault>
    requires shared { IsCommandSuchThat (λ a. is_shared a ≡ true) (recorded_command command.now) }
    requires valid { IsCommandSuchThat IsValidAction (recorded_command command.now) }
    ensures { IsPlantStaged K.meaning (keep.old, pending.old) command.now result (keep.new, pending.new) }
{
    match both_over(alloc, keep, pending, &command.owner()) {
        Ok(both) => {
            let planned = plan_on(alloc, both, command);
            Ok(stage_changes(alloc, pending, planned))
        }
        Err(fault) => Err(fault),
    }
}

// The reply if its changes succeed, and these changes, over these rows of its owner and of HOUSE.
fn plan_on(alloc: Global, both: Option<Both>, command: &PlantCmd) -> Plan<PlantReply>
    requires shared { IsCommandSuchThat (λ a. is_shared a ≡ true) (recorded_command command.now) }
    requires valid { IsCommandSuchThat IsValidAction (recorded_command command.now) }
    ensures quiet { ChangesIfAccepted result }
    ensures judged { IsVerdictOrMemory (meaning_of_plant_reply result.reply) }
    ensures plan { IsPlannedOn both command.now result }
{
    match both {
        Some(both) => match decide_shared(alloc, &both.own, &both.house, command) {
            Ok(decision) => Plan::of(alloc, decision),
            Err(_) => Plan::unchanged(alloc, PlantReply::Fault(KeepFault::Memory)),
        },
        None => Plan::unchanged(alloc, PlantReply::Refused(Refusal::UnknownOwner)),
    }
}

// Adds the changes of a plan to the pending ones, and gives its reply.
fn stage_changes(
    alloc: Global,
    pending: &mut StagedChanges,
    planned: Plan<PlantReply>,
) -> PlantReply
    ensures held { IsStagedAs pending.old pending.new planned result }
    ensures over { (c : Content) → IsOver c pending.old → IsOver c pending.new }
{
    let made = match pending.stage(alloc, &planned.changes) {
        Ok(()) => Ok(()),
        Err(_) => Err(KeepFault::Memory),
    };
    planned.finished(made)
}
