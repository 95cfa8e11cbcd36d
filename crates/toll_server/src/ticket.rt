//! A place in the queue for the service.
ghost use Rattle.std.specs.Prelude.{◌≡◌};
ghost use Rattle.toll_server.specs.ConnectionStates.{ticket_behind};

/// A place in the queue for the service: its party, the number of events when it joined the queue, and the
/// number of events when its wait began. The wait begins when it joins, or anew at its party's latest turn
/// since.
#[derive(Drop)]
pub struct Ticket<P> {
    pub party: P,
    pub queued: u128,
    pub since: u128,
}

impl<P: Drop> Ticket<P> {
    /// A place of this party at the queue's end.
    pub fn new(party: P, event_count: u128) -> Self
        ensures party { result.party ≡ party }
        ensures queued { result.queued ≡ event_count }
        ensures since { result.since ≡ event_count }
    {
        Ticket {
            party,
            queued: event_count,
            since: event_count,
        }
    }
}

impl<P: PartialEq + Drop> Ticket<P> {
    /// Notes that this party has a turn now. If it is this ticket's party, the wait begins anew.
    pub fn put_behind(&mut self, party: &P, event_count: u128)
        ensures { self.new ≡ ticket_behind P.eq party.now event_count self.old }
    {
        if *party == self.party {
            self.since = event_count;
        }
    }
}
