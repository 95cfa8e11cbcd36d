//! The event loop of a server, which serves connections side by side.
ghost use Rattle.std.specs.Prelude.{◌≡◌, ◌≤◌, ◌<◌, ◌+◌, ◌^◌, ℕ, OnErr, OnOk};
ghost use Rattle.slab.specs.Slab.{slab_len};
ghost use Rattle.toll_server.specs.Queues.{IsServedInTurn};
ghost use Rattle.toll_server.specs.Rounds.{HasHeard, HasWaited, ListensTill, ServesFrom};
ghost use Rattle.toll_server.specs.Runs.{IsWholeRun};
ghost use Rattle.toll_server.specs.ServerEvents.{Accepting, IsServed, server_at};
ghost use Rattle.toll_server.specs.Networks.{BreaksDown, EndsSo, Tallies};
ghost use Rattle.toll_server.specs.declared.connections.AcceptState.{AcceptState};

use crate::connections::Connections;
use crate::network::{MOST_READY, Network, NetworkFault};
use crate::service::Service;
use std::alloc::Global;

/// How serving ended.
#[derive(Clone, Copy, Debug, PartialEq, Eq)]
pub enum ServingEnd {
    /// This number of owners was accepted, and all connections are closed.
    All,
    /// There was nothing to wait for, or no connection could ever be accepted again.
    Fault,
    /// The network was waited for 18,446,744,073,709,551,615 times.
    Spent,
}

/// Serves this number of owners side by side, and the clients of the plant that connect meanwhile. A request
/// that is whole joins a queue. After each wait, all connections that may advance do so, and then the service
/// takes one turn for the connection that has waited longest: it answers a request, or resumes the task that
/// an earlier turn left. A party's wait begins anew with each of its turns, so no party has two turns while
/// another one waits. The service changes by nothing else. As soon as the last owner was accepted, the listeners
/// are closed. After all owners were served, connections of the plant whose requests aren't whole are closed.
///
/// A connection that came is answered, or closed because its client is late, gone or one too many, its party has
/// its share of the queue, memory lacked, or all owners were served.
///
/// Before its turn a connection costs the reading of at most a whole request, and after it the writing of its
/// reply, each in no more than [`MOST_MILLISECONDS`](crate::MOST_MILLISECONDS).
pub fn serve<W: Network, O: Service>(
    alloc: Global,
    network: &mut W,
    service: &mut O,
    count: u64,
) -> ServingEnd
    ensures events { (most : ℕ) × IsServed O.Party.eq W.Stream.Source W.Stream.Sink most O.is_by O.answers O.resumes (W.limit network.old) count
        (result ≡ ServingEnd.All) service.old service.new (W.tally network.old) (W.tally network.new) }
    ensures run { IsWholeRun O.answers O.resumes service.old service.new (result ≡ ServingEnd.All) }
    ensures in_turn { IsServedInTurn O.Party.eq O.is_by O.answers O.resumes service.old service.new }
    ensures end { Tallies (EndsSo result count) (W.tally network.old) (W.tally network.new) }
    ensures listens { Tallies (ListensTill count) (W.tally network.old) (W.tally network.new) }
    ensures asks { Tallies (λ t u. 0 < count → t.accepts < u.accepts) (W.tally network.old) (W.tally network.new) }
{
    let mut connections = Connections::new(alloc, network, count);
    serve_all(alloc, network, service, &mut connections)
}

// Serves the owners that are still to be accepted, over connections that are none yet.
fn serve_all<W: Network, O: Service>(
    alloc: Global,
    network: &mut W,
    service: &mut O,
    connections: &mut Connections<W::Stream, O::Task, O::Party>,
) -> ServingEnd
    requires fresh { connections.old.event_count ≡ 0 }
    requires open { connections.old.accept_state ≡ AcceptState.Open }
    ensures served { ServesFrom O.Party.eq O.is_by O.answers O.resumes W.Stream.Source W.Stream.Sink connections.old.most_open
        (server_at connections.old Accepting) (server_at connections.new Accepting) service.old service.new (W.tally network.old) (W.tally network.new) }
    ensures over { result ≡ ServingEnd.All → slab_len connections.new.slots ≡ 0 }
    ensures end { Tallies (EndsSo result connections.old.owners_left) (W.tally network.old) (W.tally network.new) }
    ensures listens { Tallies (ListensTill connections.old.owners_left) (W.tally network.old) (W.tally network.new) }
    ensures asks { Tallies (λ t u. 0 < connections.old.owners_left → t.accepts < u.accepts) (W.tally network.old) (W.tally network.new) }
{
    for _ in 0..u64::MAX {
        if connections.accept(alloc, network).is_err() {
            return ServingEnd::Fault;
        }
        connections.stop_listening(network);
        connections.wind_down();
        if connections.is_over() {
            return ServingEnd::All;
        }
        match wait_and_advance::<W, O>(network, connections) {
            Ok(()) => connections.take_turn(alloc, network, service),
            Err(_) => return ServingEnd::Fault,
        }
    }
    ServingEnd::Spent
}

// Waits, advances the connections that may advance then, and closes those whose time was over when the wait
// ended. Fails if the network can't be waited for: no connection was advanced or closed then.
fn wait_and_advance<W: Network, O: Service>(
    network: &mut W,
    connections: &mut Connections<W::Stream, O::Task, O::Party>,
) -> Result<(), NetworkFault>
    requires { connections.old.event_count + MOST_READY < 2 ^ 128 }
    ensures waited { OnOk result ((now : ℕ) × HasWaited O.Party.eq O.is_by O.answers O.resumes W.Stream.Source W.Stream.Sink now connections.old connections.new
        (W.tally network.old) (W.tally network.new)) }
    ensures fails { OnErr result (Tallies BreaksDown (W.tally network.old) (W.tally network.new)) }
    ensures unheard { OnErr result (connections.new ≡ connections.old) }
    ensures event_count { connections.new.event_count ≤ connections.old.event_count + MOST_READY }
    ensures owners_left { connections.new.owners_left ≡ connections.old.owners_left }
    ensures most_open { connections.new.most_open ≡ connections.old.most_open }
{
    let limit = connections.wait_limit(network.now());
    let now = network.wait(limit)?;
    advance_all::<W, O>(network, connections);
    connections.close_expired(now);
    Ok(())
}

// Advances the connections that may advance.
fn advance_all<W: Network, O: Service>(
    network: &mut W,
    connections: &mut Connections<W::Stream, O::Task, O::Party>,
)
    requires { connections.old.event_count + MOST_READY < 2 ^ 128 }
    ensures heard { HasHeard O.Party.eq O.is_by O.answers O.resumes W.Stream.Source W.Stream.Sink
        connections.old connections.new (W.tally network.old) (W.tally network.new) }
    ensures event_count { connections.new.event_count ≤ connections.old.event_count + MOST_READY }
    ensures owners_left { connections.new.owners_left ≡ connections.old.owners_left }
    ensures most_open { connections.new.most_open ≡ connections.old.most_open }
{
    for _ in 0..MOST_READY {
        let Some(key) = network.next_ready() else {
            return;
        };
        connections.advance::<O>(key);
    }
}
