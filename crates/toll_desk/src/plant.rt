//! The plant's commands and questions over a keep.
ghost use Rattle.toll_answers.specs.PlantAnswers.{IsValidCommand};
ghost use Rattle.toll_desk.specs.OfficeSteps.{plant_steps};
ghost use Rattle.toll_desk.specs.Steps.{IsKeepStep};
ghost use Rattle.toll_desk.specs.Translations.{meaning_of_plant_reply};

use crate::commands::run_command;
use crate::plant_cmd::PlantReply;
use crate::questions::answer_question;
use std::alloc::Global;
use toll_answers::PlantCmd;
use toll_keep::{Keep, KeepFault};

/// Does a command of the plant, or answers a question.
///
/// Only an accepted command changes rows. After [`KeepFault::Memory`] nothing has changed. A recall also
/// answers [`KeepFault::Damaged`] if one of its lots has no row. No history has such a lot, and the keep goes
/// on after this fault.
pub fn plant_do<K: Keep>(alloc: Global, keep: &mut K, command: &PlantCmd) -> PlantReply
    ensures step { IsKeepStep K.meaning plant_steps keep.old command.now (meaning_of_plant_reply result) keep.new }
    ensures valid { IsValidCommand command.now }
{
    // For the proof: the bounds that the types give the values.
    command.keeps_bounds();
    match *command {
        PlantCmd::Unread(why) => PlantReply::Refused(why),
        PlantCmd::Orders { .. }
        | PlantCmd::Stock { .. }
        | PlantCmd::Batch { .. }
        | PlantCmd::Trace { .. }
        | PlantCmd::Recall { .. } => answer_question(alloc, keep, command),
        _ => run_command(alloc, keep, command),
    }
}
