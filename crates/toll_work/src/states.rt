//! The states of batches: their words, and which command leads from which to which.
ghost use Rattle.std.specs.Prelude.{◌≡◌};
ghost use Rattle.toll_work.specs.Common.{next_state, word_of_state};

use toll_base::State::{
    Aborted, Aborting, Complete, Held, Holding, Idle, Paused, Pausing, Restarting, Running,
    Stopped, Stopping,
};
use toll_base::StateCommand::{Abort, Done, Hold, Pause, Reset, Restart, Resume, Start, Stop};
use toll_base::{State, StateCommand};

/// The word of a state.
pub trait StateWord {
    ghost use Rattle.std.specs.Prelude.{ℕ, List};

    ghost word_of: { Self → List ℕ };

    /// How it is printed, such as `idle`.
    fn word(&self) -> &'static str
        ensures { result.now ≡ word_of self.now };
}

impl StateWord for State {
    ghost word_of = { word_of_state };

    fn word(&self) -> &'static str {
        match self {
            Idle => "idle",
            Running => "running",
            Pausing => "pausing",
            Paused => "paused",
            Holding => "holding",
            Held => "held",
            Restarting => "restarting",
            Stopping => "stopping",
            Stopped => "stopped",
            Aborting => "aborting",
            Aborted => "aborted",
            Complete => "complete",
        }
    }
}

/// The state that the command leads to, if it leads anywhere.
pub fn next(state: State, command: StateCommand) -> Option<State>
    ensures { result ≡ next_state state command }
{
    match (state, command) {
        (Idle, Start) | (Paused, Resume) | (Restarting, Done) => Some(Running),
        (Running, Pause) => Some(Pausing),
        (Pausing, Done) => Some(Paused),
        (Running | Pausing | Paused | Restarting, Hold) => Some(Holding),
        (Holding, Done) => Some(Held),
        (Held, Restart) => Some(Restarting),
        (Running | Pausing | Paused | Holding | Held | Restarting, Stop) => Some(Stopping),
        (Stopping, Done) => Some(Stopped),
        (Running | Pausing | Paused | Holding | Held | Restarting, Abort) => Some(Aborting),
        (Stopping | Stopped, Abort) => Some(Aborting),
        (Aborting, Done) => Some(Aborted),
        (Running, Done) => Some(Complete),
        (Stopped | Aborted | Complete, Reset) => Some(Idle),
        _ => None,
    }
}
