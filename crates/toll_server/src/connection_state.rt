//! The state of a connection.
ghost use Rattle.std.specs.Prelude.{◌≡◌, Some, IfSome, option_copied};
ghost use Rattle.toll_server.specs.ConnectionStates.{last_poll, reply_in_state, state_behind, ticket_after, ticket_of};

use crate::poll::Poll;
use crate::ticket::Ticket;
use toll_protocol::ResponseWriter;

/// How far a connection is between its first byte and the last of its reply.
#[derive(Drop)]
pub enum ConnectionState<T, P> {
    /// Its request isn't whole yet.
    Reading,
    /// Its request is whole, and waits for its turn.
    Queued(Ticket<P>),
    /// Its service has this task left before there is a reply. The task waits for its turn.
    Working(Ticket<P>, T),
    /// Its reply is being written.
    Writing(ResponseWriter),
}

impl<T: Drop, P: Drop> ConnectionState<T, P> {
    /// The state after a turn of the connection that had that place in the queue: its reply, or a place at
    /// the queue's end.
    pub fn after(poll: Poll<T>, ticket: Ticket<P>, event_count: u128) -> Self
        ensures poll { last_poll result ≡ Some poll }
        ensures ticket { ticket_of result ≡ ticket_after poll event_count ticket }
        ensures begun { IfSome (reply_in_state result) (λ reply. reply.written ≡ 0) }
    {
        match poll {
            Poll::Ready(reply) => ConnectionState::Writing(ResponseWriter::new(reply)),
            Poll::Pending(task) => ConnectionState::Working(
                Ticket::new(ticket.party, event_count),
                task,
            ),
        }
    }

    /// Its place in the queue: `None` unless it waits for its turn.
    pub fn ticket(&self) -> Option<&Ticket<P>>
        ensures { option_copied result ≡ ticket_of self.now }
    {
        match self {
            ConnectionState::Queued(ticket) | ConnectionState::Working(ticket, _) => Some(ticket),
            ConnectionState::Reading | ConnectionState::Writing(_) => None,
        }
    }
}

impl<T: Drop, P: PartialEq + Drop> ConnectionState<T, P> {
    /// Notes that this party has a turn now.
    pub fn put_behind(&mut self, party: &P, event_count: u128)
        ensures { self.new ≡ state_behind P.eq party.now event_count self.old }
    {
        match self {
            ConnectionState::Queued(ticket) => ticket.put_behind(party, event_count),
            ConnectionState::Working(ticket, _) => ticket.put_behind(party, event_count),
            ConnectionState::Reading | ConnectionState::Writing(_) => {}
        }
    }
}
