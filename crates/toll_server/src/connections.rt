//! The open connections.
ghost use Rattle.std.specs.Prelude.{◌≡◌, ◌↔◌, ◌≤◌, ◌<◌, ◌+◌, ◌⊎◌, ◌^◌, [], None, IfSome, IsTrue, OnErr, OnOk};
ghost use Rattle.slab.specs.Slab.{HasRoomFor, Updates, get, slab_len};
ghost use Rattle.toll_server.specs.Connections.{AddsNext, ClosesExpired, Hears, IsDueAt, IsDueTo, IsInTime, IsOverShare, IsShed, KeepsTasks, MakesRoom, MayJoin, TimesReply, WindsDown, most_submitted, stays_after};
ghost use Rattle.toll_server.specs.Steps.{waiting_of};
ghost use Rattle.toll_server.specs.Networks.{Accepts, IsPaused, IsPausedAt, ListensFor, Tallies, owners_at};
ghost use Rattle.toll_server.specs.declared.listener.Listener.{Listener};
ghost use Rattle.toll_server.specs.declared.network.TheConstants.{MOST_OPEN_CONNECTIONS};

use crate::connection::Connection;
use crate::expiry::{
    PLANT_RESERVE, close_expired, close_readers, earliest_of, evict_oldest, next_of, number_of,
    places_of, put_behind,
};
use crate::filter::Filter;
use crate::listener::Listener;
use crate::network::{Accepted, Network, NetworkFault};
use crate::service::Service;
use crate::step_result::StepResult;
use slab::Slab;
use std::alloc::{AllocError, Global};
use toll_protocol::Stream;

/// How many connections are accepted between two waits at most, those included that closed before they were
/// accepted, so that the open ones are served.
const MOST_ACCEPTS: usize = 64;

/// For how many milliseconds no connection is accepted after there were no resources, unless a connection
/// closes before.
const PAUSE_MILLISECONDS: u64 = 1000;

/// How many places in the queue a party may have for each connection that may still send its request.
const PLACES_FOR_EACH: usize = 2;

/// Whether connections are accepted.
#[derive(Clone, Copy, Debug, PartialEq, Eq)]
pub enum AcceptState {
    /// Connections are accepted as they come.
    Open,
    /// More connections may be waiting. They are accepted after the open ones were served.
    Backlogged,
    /// There were no resources. The next attempt is when a connection has closed, or at this millisecond.
    Paused(u64),
}

/// The open connections, how many there may be, how many owners are still to be accepted, and the number of
/// events so far: requests that became whole, and turns that the service took. It never holds more connections
/// than there may be, and there may be at least one and at most
/// [`MOST_OPEN_CONNECTIONS`](crate::MOST_OPEN_CONNECTIONS).
#[derive(Drop)]
pub struct Connections<S, T, P> {
    pub slots: Slab<Connection<S, T, P>>,
    pub most_open: usize,
    pub owners_left: u64,
    pub accept_state: AcceptState,
    pub event_count: u128,
    ghost least: { 1 ≤ most_open },
    ghost most: { most_open ≤ MOST_OPEN_CONNECTIONS },
    ghost within: { slab_len slots ≤ most_open },
}

impl<S: Stream, T: Drop, P: Eq + Drop> Connections<S, T, P> {
    ghost use Rattle.toll_server.specs.Accepting.{HasAccepted};
    ghost use Rattle.toll_server.specs.Rounds.{TakesNext};
    ghost use Rattle.toll_server.specs.ServerEvents.{Accepting, HasRun, queue_events, server_at};

    /// No connection is open yet, as many may be at once as this network admits, and this number of owners is
    /// to be accepted.
    pub fn new<W: Network<Stream = S>>(alloc: Global, network: &W, owners_left: u64) -> Self
        ensures empty { slab_len result.slots ≡ 0 }
        ensures most_open { IfSome (W.limit network.now) (λ most. result.most_open ≡ most) }
        ensures owners_left { result.owners_left ≡ owners_left }
        ensures event_count { result.event_count ≡ 0 }
        ensures accept_state { result.accept_state ≡ AcceptState.Open }
    {
        Connections {
            slots: Slab::new(alloc),
            most_open: network.most_connections(),
            owners_left,
            accept_state: AcceptState::Open,
            event_count: 0,
        }
    }

    /// Whether all owners were accepted, and all connections are closed.
    pub fn is_over(&self) -> bool
        ensures { IsTrue result ↔ ((self.now.owners_left ≡ 0) × (slab_len self.now.slots ≡ 0)) }
    {
        self.owners_left == 0 && self.slots.is_empty()
    }

    /// How many milliseconds to wait at most, so that no connection stays longer than its time. The limit is
    /// 0 while a connection waits for its turn. `None`, which is no limit, if no connection is open and new ones are
    /// accepted as they come.
    pub fn wait_limit(&self, now: u64) -> Option<u64>
        ensures in_time { IsInTime result now self.now.slots }
        ensures cause { IfSome result (λ most. IsDueAt self.now.accept_state now most ⊎ IsDueTo self.now.slots now most) }
    {
        if earliest_of(&self.slots, Filter::Queued).is_some() {
            return Some(0);
        }
        match (self.accept_state, earliest_of(&self.slots, Filter::Timed)) {
            (AcceptState::Backlogged, _) => Some(0),
            (AcceptState::Open, None) => None,
            (AcceptState::Open, Some(first)) => Some(first.deadline.saturating_sub(now)),
            (AcceptState::Paused(deadline), None) => Some(deadline.saturating_sub(now)),
            (AcceptState::Paused(deadline), Some(first)) => Some(
                first.deadline.min(deadline).saturating_sub(now),
            ),
        }
    }

    /// Accepts connections that wait at a listener, while owners are still to be accepted, and times them
    /// from now on. If too many are open then, the connection that has been reading longest is closed. It is
    /// also closed if there are no resources for one more, after the connections that came just now were
    /// read. If no connection is reading then, none is accepted for a while. An `Err` if no connection can ever be
    /// accepted again, as the network reports.
    pub fn accept<W: Network<Stream = S>>(
        &mut self,
        alloc: Global,
        network: &mut W,
    ) -> Result<(), NetworkFault>
        ensures tally { Tallies (Accepts result self.old.accept_state self.old.owners_left self.new.owners_left) (W.tally network.old) (W.tally network.new) }
        ensures left { self.new.owners_left ≤ self.old.owners_left }
        ensures fails { OnErr result (0 < self.new.owners_left) }
        ensures listens { Tallies (λ t u. u.is_listening ≡ t.is_listening) (W.tally network.old) (W.tally network.new) }
        ensures added { Tallies (HasAccepted result self.old self.new) (W.tally network.old) (W.tally network.new) }
        ensures ran { (ran : HasRun P.eq S.Source S.Sink self.old.most_open (server_at self.old Accepting) (server_at self.new Accepting)
            (W.tally network.old) (W.tally network.new)) × (queue_events ran.events ≡ []) }
        ensures event_count { self.new.event_count ≡ self.old.event_count }
        ensures most_open { self.new.most_open ≡ self.old.most_open }
    {
        let now = network.now();
        if self.is_paused(now) {
            return Ok(());
        }
        self.accept_state = AcceptState::Open;
        let mut came = 0;
        for _ in 0..MOST_ACCEPTS {
            if self.owners_left == 0 {
                return Ok(());
            }
            match network.accept_next(self.slots.vacant_key()) {
                Ok(Accepted::Aborted) => continue,
                Ok(Accepted::Connected(listener, stream)) => {
                    if self.add_connection(alloc, listener, stream, now).is_err() {
                        self.make_room(came, now);
                        return Ok(());
                    }
                    came += 1;
                }
                Ok(Accepted::NoneWaiting) => return Ok(()),
                Ok(Accepted::NoResources) => {
                    self.make_room(came, now);
                    return Ok(());
                }
                Err(fault) => return Err(fault),
            }
        }
        self.accept_state = AcceptState::Backlogged;
        Ok(())
    }

    /// Closes the network's listeners, once no owner is to be accepted any more.
    pub fn stop_listening<W: Network<Stream = S>>(&self, network: &mut W)
        ensures listens { Tallies (λ t u. ListensFor self.now.owners_left t.is_listening u.is_listening) (W.tally network.old) (W.tally network.new) }
        ensures rest { Tallies (λ t u. u ≡ record t { is_listening = u.is_listening }) (W.tally network.old) (W.tally network.new) }
    {
        if self.owners_left == 0 {
            network.close_listeners();
        }
    }

    fn is_paused(&self, now: u64) -> bool
        ensures deadline { IsTrue result ↔ IsPausedAt now self.now.accept_state }
        ensures paused { IsTrue result → IsPaused self.now.accept_state }
    {
        match self.accept_state {
            AcceptState::Paused(deadline) => now < deadline,
            AcceptState::Open | AcceptState::Backlogged => false,
        }
    }

    // Adds a connection, if there is memory for it. If too many are open then, the connection that has been
    // reading longest is closed.
    fn add_connection(
        &mut self,
        alloc: Global,
        listener: Listener,
        stream: S,
        now: u64,
    ) -> Result<(), AllocError>
        requires { 0 < self.old.owners_left }
        ensures owners_left { self.new.owners_left + owners_at listener ≡ self.old.owners_left }
        ensures added { OnOk result (AddsNext self.old.most_open now listener stream self.old.slots self.new.slots) }
        ensures same { OnErr result (self.new.slots.slots ≡ self.old.slots.slots) }
        ensures event_count { self.new.event_count ≡ self.old.event_count }
        ensures most_open { self.new.most_open ≡ self.old.most_open }
        ensures accept_state { self.new.accept_state ≡ self.old.accept_state }
    {
        self.count_owner(listener);
        let connection = Connection::new(alloc, listener, stream, now)?;
        let Ok(_key) = self.slots.insert(connection) else {
            return Err(AllocError);
        };
        if self.slots.len() > self.most_open {
            evict_oldest(&mut self.slots);
        }
        Ok(())
    }

    // Counts down the owners to be accepted, if the connection is an owner's.
    fn count_owner(&mut self, listener: Listener)
        requires { 0 < self.old.owners_left }
        ensures owners_left { self.new.owners_left + owners_at listener ≡ self.old.owners_left }
        ensures slots { self.new.slots ≡ self.old.slots }
        ensures event_count { self.new.event_count ≡ self.old.event_count }
        ensures most_open { self.new.most_open ≡ self.old.most_open }
        ensures accept_state { self.new.accept_state ≡ self.old.accept_state }
    {
        if listener == Listener::Owners {
            self.owners_left -= 1;
        }
    }

    // If there are no resources for one more, closes the connection that has been reading longest, unless
    // connections came just now (`came` is above 0) and were not read yet.
    fn make_room(&mut self, came: usize, now: u64)
        ensures room { MakesRoom came now self.old.slots self.new.slots self.new.accept_state }
        ensures owners_left { self.new.owners_left ≡ self.old.owners_left }
        ensures event_count { self.new.event_count ≡ self.old.event_count }
        ensures most_open { self.new.most_open ≡ self.old.most_open }
    {
        if came > 0 || evict_oldest(&mut self.slots) {
            self.accept_state = AcceptState::Backlogged;
            return;
        }
        self.accept_state = AcceptState::Paused(now.saturating_add(PAUSE_MILLISECONDS));
    }

    /// Advances the connection with this key as far as its stream goes. It is closed after its reply is
    /// written, or if a read or a write failed. It stays if a read or a write would wait, or if its request
    /// is whole and waits for its turn. It is closed without an answer if its party has its share of the
    /// queue already: two places for each connection that may still send its request. For owners these are
    /// [`PLANT_RESERVE`] fewer, so some are left for the plant. So a party fills at most two thirds of the
    /// queue, and leaves room for those that have less.
    pub fn advance<O: Service<Task = T, Party = P>>(&mut self, key: usize)
        requires { self.old.event_count + 1 < 2 ^ 128 }
        ensures joins { MayJoin O.is_by key self.old.event_count self.new.event_count self.old.slots self.new.slots }
        ensures more { self.new.event_count ≤ self.old.event_count + 1 }
        ensures most_open { self.new.most_open ≡ self.old.most_open }
        ensures tasks { KeepsTasks self.old.slots self.new.slots }
        ensures hears { Hears P.eq self.old.most_open S.Source S.Sink key self.old.slots self.new.slots }
        ensures fewer { slab_len self.new.slots ≤ slab_len self.old.slots }
        ensures owners_left { self.new.owners_left ≡ self.old.owners_left }
    {
        let Some(mut connection) = self.slots.try_remove(key) else {
            return;
        };
        let step = connection.advance::<O>(self.event_count);
        if self.is_shed(&connection, step) {
            self.accept_state = AcceptState::Open;
            return;
        }
        self.event_count = step.count(self.event_count);
        self.keep(connection, step);
    }

    // Whether the connection is closed after this step, though its request is whole.
    fn is_shed(&self, connection: &Connection<S, T, P>, step: StepResult) -> bool
        ensures { IsTrue result ↔ IsShed P.eq self.now.most_open self.now.slots.slots connection.now step }
    {
        step == StepResult::Joins && self.is_over_share(connection)
    }

    // Whether the party of this connection has its share of the queue already.
    fn is_over_share(&self, connection: &Connection<S, T, P>) -> bool
        ensures { IsTrue result ↔ IsOverShare P.eq self.now.most_open self.now.slots.slots (waiting_of connection.now) }
    {
        let Some(ticket) = connection.state.ticket() else {
            return false;
        };
        let most = most_submitted(self.most_open, connection.request.listener());
        let room = most.saturating_sub(number_of(&self.slots, Filter::Submitted));
        places_of(&self.slots, &ticket.party) >= PLACES_FOR_EACH * room
    }

    /// Has the service take a turn for the connection that has waited longest, if one waits. A party's wait
    /// begins with its latest turn, or when a request of it became whole. The time of a reply begins when the
    /// turn that gave it is over. A connection with a reply is closed after the reply is written, or if a write
    /// of it failed.
    pub fn take_turn<W: Network<Stream = S>, O: Service<Task = T, Party = P>>(
        &mut self,
        alloc: Global,
        network: &mut W,
        service: &mut O,
    )
        requires { self.old.event_count + 1 < 2 ^ 128 }
        ensures turn { TakesNext P.eq O.is_by O.answers O.resumes S.Source S.Sink self.old self.new service.old service.new }
        ensures more { self.new.event_count ≤ self.old.event_count + 1 }
        ensures most_open { self.new.most_open ≡ self.old.most_open }
        ensures deadline { TimesReply self.old.slots self.new.slots (W.tally network.old) (W.tally network.new) }
        ensures fewer { slab_len self.new.slots ≤ slab_len self.old.slots }
        ensures owners_left { self.new.owners_left ≡ self.old.owners_left }
    {
        let Some(next) = next_of(&self.slots) else {
            return;
        };
        let Some(mut connection) = self.slots.try_remove(next.key) else {
            return;
        };
        let Some(outcome) = connection.take_turn(alloc, service) else {
            return;
        };
        put_behind(&mut self.slots, &outcome.ticket.party, self.event_count);
        let step = connection.store_poll(outcome, self.event_count, network.now());
        self.event_count += 1;
        self.keep(connection, step);
    }

    /// Closes the connections that are reading, once no owner is to be accepted and none is connected. So an
    /// idle client of the plant doesn't delay the end.
    pub fn wind_down(&mut self)
        ensures readers { WindsDown self.old.owners_left self.old.slots self.new.slots }
        ensures owners_left { self.new.owners_left ≡ self.old.owners_left }
        ensures event_count { self.new.event_count ≡ self.old.event_count }
        ensures most_open { self.new.most_open ≡ self.old.most_open }
    {
        if self.owners_left > 0 {
            return;
        }
        match earliest_of(&self.slots, Filter::Owners) {
            Some(_) => {}
            None => close_readers(&mut self.slots),
        }
    }

    // Puts back a connection that was taken out, if it waits, and closes it otherwise.
    fn keep(&mut self, connection: Connection<S, T, P>, step: StepResult)
        requires room { HasRoomFor self.old.slots 1 }
        requires fewer { slab_len self.old.slots < self.old.most_open }
        requires out { get self.old.slots self.old.slots.vacant_key ≡ None }
        ensures kept { Updates self.old.slots self.new.slots self.old.slots.vacant_key (stays_after step connection) }
        ensures more { slab_len self.new.slots ≤ slab_len self.old.slots + 1 }
        ensures owners_left { self.new.owners_left ≡ self.old.owners_left }
        ensures event_count { self.new.event_count ≡ self.old.event_count }
        ensures most_open { self.new.most_open ≡ self.old.most_open }
    {
        if matches!(step, StepResult::Waits | StepResult::Joins) {
            let _ = self.slots.insert_reserved(connection);
            return;
        }
        self.accept_state = AcceptState::Open;
    }

    /// Closes the connections whose time is over, and no others.
    pub fn close_expired(&mut self, now: u64)
        ensures gone { ClosesExpired now self.old.slots self.new.slots }
        ensures owners_left { self.new.owners_left ≡ self.old.owners_left }
        ensures event_count { self.new.event_count ≡ self.old.event_count }
        ensures most_open { self.new.most_open ≡ self.old.most_open }
    {
        let before = self.slots.len();
        close_expired(&mut self.slots, now);
        if self.slots.len() < before {
            self.accept_state = AcceptState::Open;
        }
    }
}

// How many connections may have sent their requests when one at this listener joins them.
fn most_submitted(most_open: usize, listener: Listener) -> usize
    ensures result { result ≡ most_submitted most_open listener }
    ensures most { 1 ≤ most_open → result ≤ most_open }
{
    match listener {
        Listener::Owners => most_open.saturating_sub(PLANT_RESERVE).max(1),
        Listener::Plant => most_open,
    }
}
