//! One connection, from its first byte to the last of its reply.
ghost use Rattle.std.specs.Prelude.{◌≡◌, ◌≢◌, [], None, Some, IfNone, IfOk, IfSome, IsSome};
ghost use Rattle.toll_server.specs.RequestBuffers.{bytes_received, listener_of};
ghost use Rattle.toll_server.specs.ConnectionStates.{last_poll, reply_in_state, task_of, ticket_after, ticket_of};
ghost use Rattle.toll_server.specs.Steps.{Advances, AnswersOrResumes, JoinsAs, Writes, deadline_after, deadline_from, handed_over};
ghost use Rattle.toll_server.specs.declared.connection_state.ConnectionState.{ConnectionState};
ghost use Rattle.toll_server.specs.declared.step_result.StepResult.{StepResult};

use crate::connection_state::ConnectionState;
use crate::listener::Listener;
use crate::poll::Poll;
use crate::request_buffer::RequestBuffer;
use crate::service::Service;
use crate::step_result::StepResult;
use crate::ticket::Ticket;
use std::alloc::{AllocError, Global};
use std::mem;
use toll_protocol::{ReadStatus, ResponseWriter, Stream};

/// How many milliseconds a connection may take for its request, and again for taking the reply.
pub const MOST_MILLISECONDS: u64 = 10_000;

/// A connection: the bytes received of its request, its state, and the millisecond at which its time for its
/// request or its reply is over. The time of a connection that waits for a turn of its service isn't over.
#[derive(Drop)]
pub struct Connection<S, T, P> {
    pub stream: S,
    pub request: RequestBuffer,
    pub state: ConnectionState<T, P>,
    pub deadline: u64,
}

/// The result of a turn of the service for the connection that had this place in the queue.
#[derive(Drop)]
pub struct TurnOutcome<T, P> {
    pub ticket: Ticket<P>,
    pub poll: Poll<T>,
}

impl<S: Stream, T: Drop, P: Drop> Connection<S, T, P> {
    /// A connection that was accepted at this listener now, and from which nothing was received yet. An `Err` if there
    /// is no memory for its request.
    pub fn new(alloc: Global, listener: Listener, stream: S, now: u64) -> Result<Self, AllocError>
        ensures stream { IfOk result (λ connection. connection.stream ≡ stream) }
        ensures request { IfOk result (λ connection. (bytes_received connection.request ≡ []) × (listener_of connection.request ≡ listener)) }
        ensures state { IfOk result (λ connection. connection.state ≡ ConnectionState.Reading) }
        ensures deadline { IfOk result (λ connection. connection.deadline ≡ deadline_from now) }
    {
        match RequestBuffer::new(alloc, listener) {
            Ok(request) => Ok(Connection {
                stream,
                request,
                state: ConnectionState::Reading,
                deadline: now.saturating_add(MOST_MILLISECONDS),
            }),
            Err(e) => Err(e),
        }
    }

    /// Advances as far as the stream does: reads on, and joins the queue for its service once its request is
    /// whole; or writes on. While the connection waits for its turn, nothing is read or written.
    pub fn advance<O: Service<Task = T, Party = P>>(&mut self, event_count: u128) -> StepResult
        ensures joins { JoinsAs O.is_by event_count self.old self.new result }
        ensures same { last_poll self.new.state ≡ last_poll self.old.state }
        ensures steps { Advances S.Source S.Sink self.old self.new result }
    {
        if !matches!(self.state, ConnectionState::Reading) {
            return self.write_pending();
        }
        match self.request.read_on(&mut self.stream) {
            ReadStatus::Waiting => StepResult::Waits,
            ReadStatus::Failed => StepResult::Failed,
            ReadStatus::Complete => {
                let party = O::party(&self.request);
                self.state = ConnectionState::Queued(Ticket::new(party, event_count));
                StepResult::Joins
            }
        }
    }

    /// Has the service take a turn for the connection, if it waits for one: its request is answered, or its
    /// task is resumed. The outcome is to be [stored](Connection::store_poll). `None` if the connection doesn't wait
    /// for a turn: nothing is done then.
    pub fn take_turn<O: Service<Task = T, Party = P>>(
        &mut self,
        alloc: Global,
        service: &mut O,
    ) -> Option<TurnOutcome<T, P>>
        ensures asks { IfSome result (λ o. AnswersOrResumes O.answers O.resumes self.old.state self.old.request o.poll service.old service.new) }
        ensures ticket { IfSome result (λ o. ticket_of self.old.state ≡ Some o.ticket) }
        ensures taken { IfSome result (λ o. self.new ≡ handed_over self.old) }
        ensures none { IfNone result ((ticket_of self.old.state ≡ None) × (self.new ≡ self.old) × (service.new ≡ service.old)) }
    {
        match mem::replace(&mut self.state, ConnectionState::Reading) {
            ConnectionState::Queued(ticket) => {
                let poll = service.answer(alloc, &self.request);
                Some(TurnOutcome { ticket, poll })
            }
            ConnectionState::Working(ticket, task) => {
                let poll = service.resume(alloc, task);
                Some(TurnOutcome { ticket, poll })
            }
            state => {
                self.state = state;
                None
            }
        }
    }

    /// Stores the outcome of a turn of the service: begins to write the reply, if there is one, and otherwise
    /// waits for the next turn.
    pub fn store_poll(
        &mut self,
        outcome: TurnOutcome<T, P>,
        event_count: u128,
        now: u64,
    ) -> StepResult
        requires { reply_in_state self.old.state ≡ None }
        ensures taken { last_poll self.new.state ≡ Some outcome.poll }
        ensures ticket { ticket_of self.new.state ≡ ticket_after outcome.poll event_count outcome.ticket }
        ensures pending { IsSome (ticket_of self.new.state) → result ≡ StepResult.Waits }
        ensures request { self.new.request ≡ self.old.request }
        ensures writes { Writes S.Sink self.old self.new result }
        ensures deadline { self.new.deadline ≡ deadline_after None (reply_in_state self.new.state) self.old.deadline now }
    {
        if matches!(outcome.poll, Poll::Ready(_)) {
            self.deadline = now.saturating_add(MOST_MILLISECONDS);
        }
        self.state = ConnectionState::after(outcome.poll, outcome.ticket, event_count);
        self.write_pending()
    }

    // Writes on, if there is a reply.
    fn write_pending(&mut self) -> StepResult
        ensures idle { reply_in_state self.old.state ≡ None → (self.new ≡ self.old) × (result ≡ StepResult.Waits) }
        ensures same { last_poll self.new.state ≡ last_poll self.old.state }
        ensures ticket { ticket_of self.new.state ≡ ticket_of self.old.state }
        ensures answers { result ≢ StepResult.Waits → IsSome (reply_in_state self.new.state) }
        ensures unjoined { result ≢ StepResult.Joins }
        ensures request { self.new.request ≡ self.old.request }
        ensures deadline { self.new.deadline ≡ self.old.deadline }
        ensures writes { Writes S.Sink self.old self.new result }
    {
        match &mut self.state {
            ConnectionState::Writing(reply) => StepResult::after(reply.write_on(&mut self.stream)),
            ConnectionState::Reading
            | ConnectionState::Queued(_)
            | ConnectionState::Working(_, _) => StepResult::Waits,
        }
    }
}
