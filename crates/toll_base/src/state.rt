//! States of batches.

/// The state of a batch. The states are named after IEC 61512-1. This project defines which command
/// leads from which state to which.
#[derive(Clone, Copy, PartialEq, Eq)]
pub enum State {
    Idle,
    Running,
    Pausing,
    Paused,
    Holding,
    Held,
    Restarting,
    Stopping,
    Stopped,
    Aborting,
    Aborted,
    Complete,
}
