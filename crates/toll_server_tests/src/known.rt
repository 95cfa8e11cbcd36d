//! A network with a known tally. It shows that a network can meet the clauses of `Network` about tallies, and
//! what the clauses of `serve` about tallies say of it.
ghost use Rattle.std.specs.Prelude.{◌≡◌, ◌≤◌, ◌+◌, ◌-◌, [], ◌∷◌, All, IsFalse, IsTrue, Some, length, true};
ghost use Rattle.toll_server.specs.Networks.{ListensFor};
ghost use Rattle.toll_server_tests.specs.Known.{ServesOwner, arrivals_of, backlog_of, known_keys, new_tally, count_of_owners, wake_of, wakes_of};

use http_server::Log;
use std::alloc::Global;
use std::cell::Cell;
use std::io;
use std::io::{Read, Write};
use toll_protocol::Stream;
use toll_server::{
    Accepted, Listener, Network, NetworkFault, Poll, RequestBuffer, Service, ServingEnd, serve,
};

const REQUEST: &[u8] = b"GET / HTTP/1.1\r\nHost: x\r\n\r\n";

/// An owner's connection. Its unread bytes are known.
#[derive(Drop)]
struct OwnerStream<'l> {
    unread: &'l [u8],
    /// How many bytes the server has written.
    written: &'l Cell<usize>,
}

impl Read for OwnerStream<'_> {
    ghost remaining = { λ stream. Some stream.unread.now };

    fn read(&mut self, buffer: &mut [u8]) -> io::Result<usize> {
        self.unread.read(buffer)
    }
}

impl Write for OwnerStream<'_> {
    fn write(&mut self, bytes: &[u8]) -> io::Result<usize> {
        let written = self.written.get().saturating_add(bytes.len());
        self.written.set(written);
        Ok(bytes.len())
    }

    fn flush(&mut self) -> io::Result<()> {
        Ok(())
    }
}

impl Stream for OwnerStream<'_> {
    ghost use Rattle.std.specs.Prelude.{refl};

    ghost apart = { λ _. refl };
}

/// The limit of a wait, and the millisecond at which it ended.
type Span = (Option<u64>, u64);

/// The owner's key if it was accepted before a wait, and whether the network listened.
type Door = (Option<usize>, bool);

/// A network that one owner connects to. Its whole request is there from the start. Each wait takes a
/// millisecond, and the owner is ready after it. A wait without a limit fails, since nobody else connects.
///
/// A tally has counts and lists without a bound, so they are in logs that only proofs read. The other fields
/// determine the rest of the tally.
#[derive(Drop)]
struct KnownNetwork<'l> {
    request: &'l [u8],
    written: &'l Cell<usize>,
    /// The key of the owner, once it was accepted.
    owner: Option<usize>,
    ready: Option<usize>,
    has_failed: bool,
    /// Whether the latest call of `accept_next` found no client.
    none_waiting: bool,
    is_listening: bool,
    clock: u64,
    accepts: Log<(), ()>,
    waits: Log<(), ()>,
    wakes: Log<Span, Door>,
    missed: Log<(), ()>,
}

impl<'l> KnownNetwork<'l> {
    /// A network that has done nothing yet. The owner will send this request.
    fn new(request: &'l [u8], written: &'l Cell<usize>) -> Self
        ensures { ⟦<KnownNetwork<'static> as Network>⟧.tally result ≡ Some new_tally }
    {
        KnownNetwork {
            request,
            written,
            owner: None,
            ready: None,
            has_failed: false,
            none_waiting: false,
            is_listening: true,
            clock: 0,
            accepts: Log::new(),
            waits: Log::new(),
            wakes: Log::new(),
            missed: Log::new(),
        }
    }
}

// The count after one more call.
fn one_more(count: &Log<(), ()>) -> Log<(), ()>
    ensures { length result.items ≡ length count.now.items + 1 }
{
    count.and(&(), &())
}

// Counts the connection that is ready and wasn't handed out, if there is one.
fn add_missed(missed: &mut Log<(), ()>, ready: Option<usize>)
    ensures { length missed.new.items ≡ length missed.old.items + length (known_keys ready) }
{
    if ready.is_some() {
        *missed = one_more(missed);
    }
}

// The waits after one more.
fn with_wait(wakes: &Log<Span, Door>, span: Span, door: Door) -> Log<Span, Door>
    ensures { wakes_of result.items ≡ wake_of (span, door) ∷ wakes_of wakes.now.items }
{
    wakes.and(&span, &door)
}

impl<'l> Network for KnownNetwork<'l> {
    type Stream = OwnerStream<'l>;

    ghost tally = { λ network. Some (record {
      owners = count_of_owners network.owner;
      accepts = length network.accepts.items;
      waits = length network.waits.items;
      failed = network.has_failed;
      arrivals = arrivals_of (record { unread = network.request; written = network.written }) network.owner;
      shortages = [];
      wakes = wakes_of network.wakes.items;
      unheard = known_keys network.ready;
      missed = length network.missed.items;
      backlog = backlog_of network.none_waiting;
      is_listening = network.is_listening;
      clock = network.clock;
    }) };

    fn most_connections(&self) -> usize {
        1
    }

    fn wait(&mut self, most: Option<u64>) -> Result<u64, NetworkFault> {
        self.waits = one_more(&self.waits);
        if most.is_none() {
            self.has_failed = true;
            return Err(NetworkFault);
        }
        add_missed(&mut self.missed, self.ready);
        self.clock = self.clock.saturating_add(1);
        self.ready = self.owner;
        let span = (most, self.clock);
        let door = (self.owner, self.is_listening);
        self.wakes = with_wait(&self.wakes, span, door);
        Ok(self.clock)
    }

    fn next_ready(&mut self) -> Option<usize> {
        self.ready.take()
    }

    fn accept_next(&mut self, key: usize) -> Result<Accepted<OwnerStream<'l>>, NetworkFault> {
        self.accepts = one_more(&self.accepts);
        if self.owner.is_some() || !self.is_listening {
            self.none_waiting = true;
            return Ok(Accepted::NoneWaiting);
        }
        self.owner = Some(key);
        self.none_waiting = false;
        let stream = OwnerStream {
            unread: self.request,
            written: self.written,
        };
        Ok(Accepted::Connected(Listener::Owners, stream))
    }

    fn close_listeners(&mut self) {
        self.is_listening = false;
    }

    fn now(&mut self) -> u64 {
        self.clock
    }
}

// Serves this number of owners over a new network, and returns how that ended and what became of the network.
// The clauses follow from those of `serve` about tallies.
fn serve_known<'l, O: Service>(
    alloc: Global,
    request: &'l [u8],
    written: &'l Cell<usize>,
    service: &mut O,
    count: u64,
) -> (ServingEnd, KnownNetwork<'l>)
    ensures requests { ServesOwner O.answers O.resumes result.1.owner result.1.request.now service.old service.new }
    ensures heard { length result.1.missed.items ≡ 0 }
    ensures all { result.0 ≡ ServingEnd.All → count_of_owners result.1.owner ≡ count }
    ensures fault { result.0 ≡ ServingEnd.Fault → IsTrue result.1.has_failed }
    ensures closed { count ≤ count_of_owners result.1.owner → IsFalse result.1.is_listening }
    ensures waits { All (λ wake. ListensFor (count - wake.owners) true wake.is_listening) (wakes_of result.1.wakes.items) }
    ensures listens { count_of_owners result.1.owner + 1 ≤ count → IsTrue result.1.is_listening }
{
    let mut network = KnownNetwork::new(request, written);
    let end = serve(alloc, &mut network, service, count);
    (end, network)
}

/// A service that answers each request at once with the bytes of the request.
#[derive(Drop)]
struct Echo {
    answered: u64,
}

impl Service for Echo {
    ghost use Rattle.std.specs.Prelude.{⊤};

    type Task = ();

    type Party = ();

    ghost is_by = { λ listener request party. ⊤ };

    ghost answers = { λ old listener request poll new. ⊤ };

    ghost resumes = { λ old task poll new. ⊤ };

    fn party(_request: &RequestBuffer) {}

    fn answer(&mut self, alloc: Global, request: &RequestBuffer) -> Poll<()> {
        self.answered = self.answered.saturating_add(1);
        Poll::Ready(request.bytes().to_vec(alloc).unwrap_or(Vec::new(alloc)))
    }

    fn resume(&mut self, alloc: Global, _task: ()) -> Poll<()> {
        Poll::Ready(Vec::new(alloc))
    }
}

/// The owner is accepted, heard after the first wait, and answered. If a second owner is to come, the network
/// listens until a wait fails.
#[test]
fn one_owner_is_served_over_a_network_with_a_tally(rt: HostRuntime) {
    for (count, wanted) in [(1, ServingEnd::All), (2, ServingEnd::Fault)] {
        let written = Cell::new(0);
        let mut echo = Echo { answered: 0 };
        let (end, network) = serve_known(rt.alloc(), REQUEST, &written, &mut echo, count);
        assert_eq!(rt; end, wanted);
        assert_eq!(rt; echo.answered, 1);
        assert_eq!(rt; written.get(), REQUEST.len());
        assert_eq!(rt; network.request, REQUEST);
        assert_eq!(rt; network.owner, Some(0));
        assert_eq!(rt; network.clock, 1);
        assert_eq!(rt; network.has_failed, count > 1);
        assert_eq!(rt; network.none_waiting, count > 1);
        assert_eq!(rt; network.is_listening, count > 1);
    }
}
