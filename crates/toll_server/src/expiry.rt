//! Searching the open connections: whose time is over, which is closed to make room, and which has the next turn.
ghost use Rattle.std.specs.Prelude.{◌≡◌, ◌↔◌, ◌≤◌, ◌+◌, ℕ, IfSome, IfNone, IsTrue, option_map};
ghost use Rattle.slab.specs.Slab.{get, slab_len};
ghost use Rattle.toll_server.specs.Connections.{ClosesExpired, ClosesReaders, EvictsOldest, EvictsReader, IsBefore, IsEarliest, IsEvicted, IsExpired, IsLonger, NobodyWaits, NoneIncluded, OnlyAt, connection_behind, evicted_first, is_included_at, is_place_of, number_of, places_of, queue_in, wait_in};
ghost use Rattle.toll_server.specs.Queues.{IsNext};
ghost use Rattle.toll_server.specs.declared.filter.Filter.{Filter};

use crate::connection::Connection;
use crate::filter::Filter;
use crate::listener::Listener;
use slab::Slab;
use toll_protocol::Stream;

/// How many connections are kept for the plant, so that owners' connections close none of its.
pub const PLANT_RESERVE: usize = 8;

/// The connection with the least time left, and when its time is over.
#[derive(Clone, Copy)]
pub struct Earliest {
    pub key: usize,
    pub deadline: u64,
}

/// The connection whose time is over first, of those that the filter includes. `None` if it includes none.
pub fn earliest_of<S: Stream, T: Drop, P: Drop>(
    connections: &Slab<Connection<S, T, P>>,
    filter: Filter,
) -> Option<Earliest>
    ensures found { IfSome result (λ first. IsEarliest filter connections.now first.key first.deadline) }
    ensures none { IfNone result (NoneIncluded filter connections.now) }
{
    let mut first: Option<Earliest> = None;
    for key in 0..connections.capacity() {
        let Some(connection) = connections.get(key) else {
            continue;
        };
        if !filter.includes(connection) {
            continue;
        }
        if !is_before(connection.deadline, first) {
            continue;
        }
        first = Some(Earliest {
            key,
            deadline: connection.deadline,
        });
    }
    first
}

// Whether this moment comes before that of the other one, if there is one.
fn is_before(deadline: u64, first: Option<Earliest>) -> bool
    ensures { IsTrue result ↔ IsBefore deadline first }
{
    match first {
        Some(first) => deadline < first.deadline,
        None => true,
    }
}

/// Closes the connections whose time is over. The time of one that waits for its turn never is.
pub fn close_expired<S: Stream, T: Drop, P: Drop>(
    connections: &mut Slab<Connection<S, T, P>>,
    now: u64,
)
    ensures gone { ClosesExpired now connections.old connections.new }
    ensures fewer { slab_len connections.new ≤ slab_len connections.old }
{
    for key in 0..connections.capacity() {
        if is_expired(connections, key, now) {
            let _ = connections.try_remove(key);
        }
    }
}

// Whether there is a connection with this key, and its time is over.
fn is_expired<S: Stream, T: Drop, P: Drop>(
    connections: &Slab<Connection<S, T, P>>,
    key: usize,
    now: u64,
) -> bool
    ensures { IsTrue result ↔ IsExpired now (get connections.now key) }
{
    match connections.get(key) {
        Some(connection) => Filter::Timed.includes(connection) && connection.deadline <= now,
        None => false,
    }
}

/// How many connections the filter includes.
pub fn number_of<S: Stream, T: Drop, P: Drop>(
    connections: &Slab<Connection<S, T, P>>,
    filter: Filter,
) -> usize
    ensures { result ≡ number_of filter connections.now.slots }
{
    let mut number = 0;
    for key in 0..connections.capacity() {
        if is_included(connections, key, filter) {
            number += 1;
        }
    }
    number
}

// Whether there is a connection with this key that the filter includes.
fn is_included<S: Stream, T: Drop, P: Drop>(
    connections: &Slab<Connection<S, T, P>>,
    key: usize,
    filter: Filter,
) -> bool
    ensures { result ≡ is_included_at filter (get connections.now key) }
{
    match connections.get(key) {
        Some(connection) => filter.includes(connection),
        None => false,
    }
}

/// How many places in the queue the party has.
pub fn places_of<S: Stream, T: Drop, P: PartialEq + Drop>(
    connections: &Slab<Connection<S, T, P>>,
    party: &P,
) -> usize
    ensures { result ≡ places_of P.eq party.now connections.now.slots }
{
    let mut number = 0;
    for key in 0..connections.capacity() {
        if is_place_of(connections, key, party) {
            number += 1;
        }
    }
    number
}

// Whether there is a connection of the party with this key that waits for its turn.
fn is_place_of<S: Stream, T: Drop, P: PartialEq + Drop>(
    connections: &Slab<Connection<S, T, P>>,
    key: usize,
    party: &P,
) -> bool
    ensures { result ≡ is_place_of P.eq party.now (get connections.now key) }
{
    let Some(connection) = connections.get(key) else {
        return false;
    };
    match connection.state.ticket() {
        Some(ticket) => *party == ticket.party,
        None => false,
    }
}

/// Closes a connection that is reading, if one is, and returns whether one was closed. It is the owners' that
/// has been reading longest, or the plant's if no owner's is reading or more than [`PLANT_RESERVE`] of the
/// plant's are. So neither listener's clients close those of the other.
pub fn evict_oldest<S: Stream, T: Drop, P: Drop>(
    connections: &mut Slab<Connection<S, T, P>>,
) -> bool
    ensures evicts { EvictsOldest connections.old connections.new }
    ensures some { IsTrue result → EvictsReader connections.old connections.new }
    ensures none { ¬ (IsTrue result) → NoneIncluded Filter.Reading connections.old × (connections.new ≡ connections.old) }
{
    match first_evicted(connections) {
        Some(first) => connections.try_remove(first.key).is_some(),
        None => false,
    }
}

// The connection that is closed first, of those that are reading.
fn first_evicted<S: Stream, T: Drop, P: Drop>(
    connections: &Slab<Connection<S, T, P>>,
) -> Option<Earliest>
    ensures found { IfSome result (λ first. IsEvicted connections.now first.key first.deadline) }
    ensures none { IfNone result (NoneIncluded Filter.Reading connections.now) }
{
    match earliest_of(connections, Filter::ReadingAt(evicted_first(connections))) {
        Some(first) => Some(first),
        None => earliest_of(connections, Filter::Reading),
    }
}

// The listener whose connections are closed first, of those that are reading.
fn evicted_first<S: Stream, T: Drop, P: Drop>(connections: &Slab<Connection<S, T, P>>) -> Listener
    ensures { result ≡ evicted_first connections.now.slots }
{
    if number_of(connections, Filter::ReadingAt(Listener::Plant)) > PLANT_RESERVE {
        Listener::Plant
    } else {
        Listener::Owners
    }
}

/// Closes all connections that are reading.
pub fn close_readers<S: Stream, T: Drop, P: Drop>(connections: &mut Slab<Connection<S, T, P>>)
    ensures closes { ClosesReaders connections.old connections.new }
    ensures fewer { slab_len connections.new ≤ slab_len connections.old }
{
    while evict_oldest(connections) {}
}

/// When a connection's wait for its turn began, and when it joined the queue.
#[derive(Clone, Copy)]
pub struct Wait {
    pub since: u128,
    pub queued: u128,
}

/// The connection that has the next turn, and how long it has waited.
#[derive(Clone, Copy)]
pub struct Next {
    pub key: usize,
    pub wait: Wait,
}

/// The connection that has waited longest for its turn. `None` if none waits.
pub fn next_of<S: Stream, T: Drop, P: Drop>(connections: &Slab<Connection<S, T, P>>) -> Option<Next>
    ensures found { IfSome result (λ next. IsNext (queue_in connections.now) next.key) }
    ensures none { IfNone result (NobodyWaits connections.now) }
{
    let mut next: Option<Next> = None;
    for key in 0..connections.capacity() {
        let Some(wait) = wait_of(connections, key) else {
            continue;
        };
        if !is_longer(wait, next) {
            continue;
        }
        next = Some(Next { key, wait });
    }
    next
}

// How long the connection with this key has waited, if it waits.
fn wait_of<S: Stream, T: Drop, P: Drop>(
    connections: &Slab<Connection<S, T, P>>,
    key: usize,
) -> Option<Wait>
    ensures { result ≡ option_map wait_in (queue_in connections.now key) }
{
    let connection = connections.get(key)?;
    let ticket = connection.state.ticket()?;
    Some(Wait {
        since: ticket.since,
        queued: ticket.queued,
    })
}

// Whether this wait is longer than that of the other one, if there is one.
fn is_longer(wait: Wait, next: Option<Next>) -> bool
    ensures { IsTrue result ↔ IsLonger wait next }
{
    match next {
        Some(
            Next {
                key: _,
                wait: other,
            },
        ) => {
            wait.since < other.since || (wait.since == other.since && wait.queued < other.queued)
        }
        None => true,
    }
}

/// Notes that this party has a turn now: the wait of each of its connections begins anew.
pub fn put_behind<S: Stream, T: Drop, P: PartialEq + Drop>(
    connections: &mut Slab<Connection<S, T, P>>,
    party: &P,
    event_count: u128,
)
    ensures behind { (key : ℕ) → get connections.new key ≡ option_map (connection_behind P.eq party.now event_count) (get connections.old key) }
    ensures vacant { connections.new.vacant_key ≡ connections.old.vacant_key }
    ensures capacity { connections.new.capacity ≡ connections.old.capacity }
    ensures len { slab_len connections.new ≡ slab_len connections.old }
{
    for key in 0..connections.capacity() {
        put_one_behind(connections, key, party, event_count);
    }
}

// Begins the wait of the connection with this key anew, if it waits and is of that party.
fn put_one_behind<S: Stream, T: Drop, P: PartialEq + Drop>(
    connections: &mut Slab<Connection<S, T, P>>,
    key: usize,
    party: &P,
    event_count: u128,
)
    ensures behind { get connections.new key ≡ option_map (connection_behind P.eq party.now event_count) (get connections.old key) }
    ensures others { OnlyAt key connections.old connections.new }
    ensures vacant { connections.new.vacant_key ≡ connections.old.vacant_key }
    ensures capacity { connections.new.capacity ≡ connections.old.capacity }
    ensures len { slab_len connections.new ≡ slab_len connections.old }
{
    if let Some(connection) = connections.get_mut(key) {
        connection.state.put_behind(party, event_count);
    }
}
