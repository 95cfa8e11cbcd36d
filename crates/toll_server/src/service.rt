//! The service that answers requests.
ghost use Rattle.std.specs.Prelude.{ℕ, List};
ghost use Rattle.toll_server.specs.RequestBuffers.{bytes_received, listener_of};
ghost use Rattle.toll_server.specs.declared.listener.Listener.{Listener};
ghost use Rattle.toll_server.specs.declared.poll.Poll.{Poll};

use crate::poll::Poll;
use crate::request_buffer::RequestBuffer;
use std::alloc::Global;

/// Answers requests, one turn after another. A reply may take several turns, and other requests are answered
/// between them.
pub trait Service {
    /// The rest of a request that was begun.
    type Task: Drop;

    /// The party of a request. Requests are answered party by party, in turn.
    type Party: Eq + Drop;

    // This request, which came in at this listener, is of this party.
    ghost is_by: { Listener → List ℕ → Self.Party → Type 0 };

    // The service before answers this request, from this listener, with this result, and becomes the service
    // after.
    ghost answers: { Self → Listener → List ℕ → Poll Self.Task → Self → Type 0 };

    // The service before resumes this task with this result, and becomes the service after.
    ghost resumes: { Self → Self.Task → Poll Self.Task → Self → Type 0 };

    /// The party whose turn this request takes.
    fn party(request: &RequestBuffer) -> Self::Party
        ensures { is_by (listener_of request.now) (bytes_received request.now) result };

    /// The reply to a request, or what is left to do before there is one.
    fn answer(&mut self, alloc: Global, request: &RequestBuffer) -> Poll<Self::Task>
        ensures { answers self.old (listener_of request.now) (bytes_received request.now) result self.new };

    /// Resumes the task that an earlier turn left: the reply, or what is left to do before there is one.
    fn resume(&mut self, alloc: Global, task: Self::Task) -> Poll<Self::Task>
        ensures { resumes self.old task result self.new };
}
