//! The outside of a server: streams, a clock, and waiting for them.
use crate::listener::Listener;
use thiserror::Error;
use toll_protocol::Stream;

/// The network can't be waited for, or no connection can ever be accepted again.
#[derive(Clone, Copy, Debug, PartialEq, Eq, Drop, Error)]
#[error("Net")]
pub struct NetworkFault;

/// The result of an attempt to accept a connection.
#[derive(Drop)]
pub enum Accepted<S> {
    /// This connection, at that listener.
    Connected(Listener, S),
    /// A connection closed before it was accepted. Others may wait after it.
    Aborted,
    /// No connection waits at a listener.
    NoneWaiting,
    /// No connection can be accepted now, whether or not one waits: there is no descriptor left, or no
    /// memory.
    NoResources,
}

/// How many connections are open at once, at most.
pub const MOST_OPEN_CONNECTIONS: usize = 900;

/// How many connections may advance after one wait.
pub const MOST_READY: usize = 4096;

/// Streams, a clock and the waiting for both. No contract says what happens when.
pub trait Network {
    ghost use Rattle.std.specs.Prelude.{◌≡◌, ◌≤◌, ℕ, Option, None, IfSome, option_map};
    ghost use Rattle.toll_server.specs.Networks.{HandsOut, ShowsTime, Tallies, Tally, WaitsOnce, after_accept, after_close};

    /// A connection. A read or a write of it that would wait fails with `WouldBlock`.
    type Stream: Stream;

    // What the network has done, if that is known.
    ghost tally: { Self → Option (Tally Self.Stream) } = { λ _. None };

    // How many connections may be open at once, if that is known.
    ghost limit: { Self → Option ℕ } = { λ _. None };

    /// How many connections may be open at once, so that descriptors are left for everything else that the
    /// program opens. It is asked once, before the first wait.
    fn most_connections(&self) -> usize
        ensures least { 1 ≤ result }
        ensures most { result ≤ MOST_OPEN_CONNECTIONS }
        ensures known { IfSome (limit self.now) (λ most. result ≡ most) };

    /// Waits until a connection comes or may advance, or this number of milliseconds is over. `None` is no limit.
    /// Returns the clock's time then. A connection advances until its reads and writes would wait, and is then
    /// reported again. A connection that waits at a listener and was not accepted need not be reported again. An `Err`
    /// if it can't wait.
    fn wait(&mut self, most: Option<u64>) -> Result<u64, NetworkFault>
        ensures { Tallies (WaitsOnce most result) (tally self.old) (tally self.new) };

    /// The next connection that may advance since the last wait, by its key. There are at most [`MOST_READY`]
    /// of them. `None` if all were given.
    fn next_ready(&mut self) -> Option<usize>
        ensures { Tallies (HandsOut result) (tally self.old) (tally self.new) };

    /// Accepts the next connection that waits at a listener. It has this key from then on. An `Err` if none can ever
    /// be accepted again.
    fn accept_next(&mut self, key: usize) -> Result<Accepted<Self::Stream>, NetworkFault>
        ensures { tally self.new ≡ option_map (after_accept key result) (tally self.old) };

    /// Closes the listeners. From then on each connection is refused at once, and so are those that wait to be
    /// accepted. Connections that were accepted stay open. It has no effect if the listeners are closed already.
    fn close_listeners(&mut self)
        ensures { tally self.new ≡ option_map after_close (tally self.old) };

    /// The milliseconds since a fixed moment.
    fn now(&mut self) -> u64
        ensures { Tallies (ShowsTime result) (tally self.old) (tally self.new) };
}
