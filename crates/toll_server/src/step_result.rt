//! The result of a step of a connection.
ghost use Rattle.std.specs.Prelude.{◌≡◌, ◌≢◌, ◌↔◌, ◌<◌, ◌+◌, ◌^◌};
ghost use Rattle.toll_server.specs.Steps.{event_count_after};
ghost use Rattle.toll_protocol.specs.declared.streams.write_status.WriteStatus.{WriteStatus};

use toll_protocol::WriteStatus;

/// The result of a step of a connection.
#[derive(Clone, Copy, Debug, PartialEq, Eq)]
pub enum StepResult {
    /// It advances when its stream does, or at its turn.
    Waits,
    /// Its request is whole, and joins the queue for the service.
    Joins,
    /// Its reply is written whole.
    Answered,
    /// A read or a write failed, or there was no memory.
    Failed,
}

impl StepResult {
    /// The result of a step with this status of the reply's writing.
    pub fn after(status: WriteStatus) -> Self
        ensures answered { result ≡ StepResult.Answered ↔ status ≡ WriteStatus.Written }
        ensures waits { result ≡ StepResult.Waits ↔ status ≡ WriteStatus.Waiting }
        ensures unjoined { result ≢ StepResult.Joins }
    {
        match status {
            WriteStatus::Written => StepResult::Answered,
            WriteStatus::Waiting => StepResult::Waits,
            WriteStatus::Failed => StepResult::Failed,
        }
    }

    /// The number of events after this result: a request that became whole adds one.
    pub fn count(self, event_count: u128) -> u128
        requires { event_count + 1 < 2 ^ 128 }
        ensures { result ≡ event_count_after self event_count }
    {
        match self {
            StepResult::Joins => event_count + 1,
            StepResult::Waits | StepResult::Answered | StepResult::Failed => event_count,
        }
    }
}
