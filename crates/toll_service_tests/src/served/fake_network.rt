//! Clients in memory, which come at once, each with its whole request.
use crate::served::Client;
use std::cell::Cell;
use std::io;
use std::io::{ErrorKind, Read, Write};
use toll_protocol::Stream;
use toll_server::{Accepted, Listener, MOST_OPEN_CONNECTIONS, Network, NetworkFault};

/// How many clients had exactly the replies that they should have, and at which listener the last of them
/// came.
#[derive(Drop)]
pub struct Log {
    pub replied: Cell<usize>,
    pub last: Cell<Option<Listener>>,
}

impl Log {
    /// No client had a reply.
    pub fn new() -> Self {
        Log {
            replied: Cell::new(0),
            last: Cell::new(None),
        }
    }
}

/// The clients that come, one after another. All are ready after the only wait.
#[derive(Drop)]
pub struct FakeNetwork<'l> {
    coming: &'l [Client<'l>],
    came: usize,
    ready: usize,
    log: &'l Log,
}

impl<'l> FakeNetwork<'l> {
    /// No client has come yet.
    pub fn new(coming: &'l [Client<'l>], log: &'l Log) -> Self {
        FakeNetwork {
            coming,
            came: 0,
            ready: 0,
            log,
        }
    }
}

impl<'l> Network for FakeNetwork<'l> {
    type Stream = Guest<'l>;

    fn most_connections(&self) -> usize {
        MOST_OPEN_CONNECTIONS
    }

    fn wait(&mut self, most: Option<u64>) -> Result<u64, NetworkFault> {
        if self.ready == 0 || most == Some(0) {
            return Ok(0);
        }
        Err(NetworkFault)
    }

    fn next_ready(&mut self) -> Option<usize> {
        if self.ready == self.came {
            return None;
        }
        let key = self.ready;
        self.ready = key.saturating_add(1);
        Some(key)
    }

    fn accept_next(&mut self, _key: usize) -> Result<Accepted<Guest<'l>>, NetworkFault> {
        match self.coming.get(self.came) {
            Some(visit) => {
                self.came = self.came.saturating_add(1);
                Ok(Accepted::Connected(visit.listener, Guest::new(visit, self.log)))
            }
            None => Ok(Accepted::NoneWaiting),
        }
    }

    fn close_listeners(&mut self) {
        self.coming = &[];
    }

    fn now(&mut self) -> u64 {
        0
    }
}

/// One of the clients, with what is left of its request and of its reply.
#[derive(Drop)]
pub struct Guest<'l> {
    listener: Listener,
    asks: &'l [u8],
    wants: &'l [u8],
    log: &'l Log,
}

impl<'l> Guest<'l> {
    fn new(visit: &Client<'l>, log: &'l Log) -> Self {
        Guest {
            listener: visit.listener,
            asks: visit.bytes,
            wants: visit.expected,
            log,
        }
    }
}

impl Read for Guest<'_> {
    fn read(&mut self, buffer: &mut [u8]) -> io::Result<usize> {
        if self.asks.is_empty() {
            return Err(ErrorKind::WouldBlock.into());
        }
        let n = self.asks.len().min(buffer.len());
        let (given, rest) = self.asks.split_at(n);
        buffer[..n].copy_from_slice(given);
        self.asks = rest;
        Ok(n)
    }
}

impl Write for Guest<'_> {
    fn write(&mut self, bytes: &[u8]) -> io::Result<usize> {
        let Some(rest) = self.wants.strip_prefix(bytes) else {
            return Err(ErrorKind::BrokenPipe.into());
        };
        self.wants = rest;
        if rest.is_empty() {
            self.log
                .replied
                .set(self.log.replied.get().saturating_add(1));
            self.log.last.set(Some(self.listener));
        }
        Ok(bytes.len())
    }

    fn flush(&mut self) -> io::Result<()> {
        Ok(())
    }
}

impl Stream for Guest<'_> {
    ghost use Rattle.std.specs.Prelude.{refl};

    ghost apart = { λ _. refl };
}
