//! Laws of what clients ask over a keep.
ghost use Rattle.std.specs.Prelude.{List};
ghost use Rattle.toll_server.specs.Runs.{Tasks, Turn};
ghost use Rattle.toll_plant.specs.ImportStates.{ImportState};
ghost use Rattle.toll_service.specs.Events.{ServedTurn};
ghost use Rattle.toll_service.specs.Serving.{IsRunWhereAnswered};
ghost use Rattle.toll_service.specs.Sessions.{AreSessionRuns};
ghost use Rattle.toll_service.specs.Whole.{AreAllOfRequest};

use crate::office_path::KeepOpener;
use toll_keep::Keep;

/// Let clients ask an office that answers each of them over its keep, one turn after another. All that they
/// ask is a run of events: each request is its own event, each frame of the plant is the events that it asks
/// for, and each turn of an import is the events of its records. So what holds for runs holds for all replies
/// to clients.
pub fn turns_over_a_keep_are_a_run<K: Keep, O>()
    ensures { (keep : O → K) (old new : O) (turns : List (Turn ImportState)) → IsRunWhereAnswered K.meaning keep old new turns }
{}

/// A client's request or call may take several turns, with other clients' turns in between. All of its turns
/// together are the events that it asks for, and its reply in the end is their answers. For an import these
/// are all records of the file up to a fault, in order, and the report of their outcomes.
pub fn turns_of_a_request_are_all_of_it()
    ensures { (tasks : Tasks ImportState) (parts : List ServedTurn) → AreAllOfRequest tasks parts }
{}

/// What an office's service serves between two openings of its office is a run. All its turns that asked an
/// office were taken over the one keep that was open, one after another. In all other turns the client was
/// refused or an import was given up.
pub fn turns_between_two_openings_are_a_run<K: Keep, O: KeepOpener<K>, D>()
    ensures { AreSessionRuns K.meaning O.is_opened O.is_found O.has_damaged D }
{}
