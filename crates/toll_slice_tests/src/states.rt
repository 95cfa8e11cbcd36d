//! The states of a batch, and the commands that lead from one to another.
use toll_base::State::{
    Aborted, Aborting, Complete, Held, Holding, Idle, Paused, Pausing, Restarting, Running,
    Stopped, Stopping,
};
use toll_base::{State, StateCommand};
use toll_work::{StateWord, next};

const STATES: &[(State, &str)] = &[
    (Idle, "idle"),
    (Running, "running"),
    (Pausing, "pausing"),
    (Paused, "paused"),
    (Holding, "holding"),
    (Held, "held"),
    (Restarting, "restarting"),
    (Stopping, "stopping"),
    (Stopped, "stopped"),
    (Aborting, "aborting"),
    (Aborted, "aborted"),
    (Complete, "complete"),
];

const WORDS: &[&str] = &[
    "done", "start", "stop", "hold", "restart", "abort", "reset", "pause", "resume",
];

// From which state which command leads to which: of 108 pairs these 31.
const LEADING: &[(&str, &str, &str)] = &[
    ("idle", "start", "running"),
    ("running", "done", "complete"),
    ("running", "stop", "stopping"),
    ("running", "hold", "holding"),
    ("running", "abort", "aborting"),
    ("running", "pause", "pausing"),
    ("pausing", "done", "paused"),
    ("pausing", "stop", "stopping"),
    ("pausing", "hold", "holding"),
    ("pausing", "abort", "aborting"),
    ("paused", "stop", "stopping"),
    ("paused", "hold", "holding"),
    ("paused", "abort", "aborting"),
    ("paused", "resume", "running"),
    ("holding", "done", "held"),
    ("holding", "stop", "stopping"),
    ("holding", "abort", "aborting"),
    ("held", "stop", "stopping"),
    ("held", "restart", "restarting"),
    ("held", "abort", "aborting"),
    ("restarting", "done", "running"),
    ("restarting", "stop", "stopping"),
    ("restarting", "hold", "holding"),
    ("restarting", "abort", "aborting"),
    ("stopping", "done", "stopped"),
    ("stopping", "abort", "aborting"),
    ("stopped", "abort", "aborting"),
    ("stopped", "reset", "idle"),
    ("aborting", "done", "aborted"),
    ("aborted", "reset", "idle"),
    ("complete", "reset", "idle"),
];

// The word of the state that the command leads to, empty if it leads nowhere.
fn led(state: &str, command: &str) -> &'static str {
    for line in LEADING {
        let (from, by, to) = *line;
        if from == state && by == command {
            return to;
        }
    }
    ""
}

fn leads_so(state: State, word: &str, command: &str) -> bool {
    let Some(read) = StateCommand::read(command.as_bytes()) else {
        return false;
    };
    match next(state, read) {
        Some(to) => to.word() == led(word, command),
        None => led(word, command).is_empty(),
    }
}

// The first command that doesn't lead from the state as the table says.
fn wrong_command(state: State, word: &str) -> Option<&'static str> {
    for command in WORDS {
        if !leads_so(state, word, command) {
            return Some(*command);
        }
    }
    None
}

// The word of the first state that isn't its own, or from which a command doesn't lead as the table
// says, and that command.
fn wrong_cell() -> Option<(&'static str, &'static str)> {
    for line in STATES {
        let (state, word) = *line;
        if state.word() != word {
            return Some((word, ""));
        }
        if let Some(command) = wrong_command(state, word) {
            return Some((word, command));
        }
    }
    None
}

#[test]
fn commands_lead_as_in_the_table(rt: HostRuntime) {
    assert_eq!(rt; wrong_cell(), None);
}

#[test]
fn other_words_are_no_commands(rt: HostRuntime) {
    assert!(rt; StateCommand::read(b"Start").is_none());
}
