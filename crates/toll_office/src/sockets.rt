//! The network of a server, on the system's sockets.
ghost use Rattle.std.specs.Prelude.{◌≤◌, Some};
ghost use Rattle.toll_server.specs.declared.network.TheConstants.{MOST_OPEN_CONNECTIONS};

use crate::descriptors::most_connections;
use crate::plant_listener::{ListenerFault, PlantListener};
use crate::readiness::are_waiting;
use crate::socket_stream::SocketStream;
use mio::net::TcpListener;
use mio::{Events, Interest, Poll, Token};
use std::io;
use std::io::ErrorKind;
use std::net::{Ipv4Addr, SocketAddr, SocketAddrV4};
use std::os::fd::AsRawFd;
use std::time::{Duration, Instant};
use toll_files::{FaultLog, ServingFault};
use toll_server::{Accepted, Listener, Network, NetworkFault};
use toll_service::Announcing;

/// How many events one wait gives at most.
const MOST_EVENTS: usize = 256;

/// The listeners' tokens. The tokens of connections follow: each is its key and [`FIRST_CONNECTION`].
const OWNERS: usize = 0;

const PLANT: usize = 1;

const FIRST_CONNECTION: usize = 2;

/// A port of this machine, a socket file for the plant, and the connections accepted at them.
#[derive(Drop)]
pub struct Sockets<'a> {
    rt: &'a HostRuntime,
    office: &'a str,
    most_open: usize,
    poll: Poll,
    events: Events,
    delivered: usize,
    owners: Option<TcpListener>,
    plant: Result<PlantListener<'a>, ListenerFault>,
    listener: FaultLog,
    resources: FaultLog,
    since: Instant,
    ghost least: { 1 ≤ most_open },
    ghost most: { most_open ≤ MOST_OPEN_CONNECTIONS },
}

impl<'a> Sockets<'a> {
    /// Listens at this port of this machine alone, or at a free port if it is 0. Listens also for the plant
    /// at the socket file beside the office's file, if one can be made. If another program has the office's
    /// lock or listens there, or the socket file is gone later, that is retried after each wait until the
    /// listeners are closed. An `Err` if it can't listen at the port, or the system gives no poll, clock or memory.
    pub fn listen(rt: &'a HostRuntime, port: u16, office: &'a str) -> io::Result<Self> {
        let address = SocketAddr::V4(SocketAddrV4::new(Ipv4Addr::LOCALHOST, port));
        let mut owners = TcpListener::bind(rt, address)?;
        let poll = Poll::new(rt)?;
        poll.registry()
            .register(&mut owners, Token(OWNERS), Interest::READABLE)?;
        let mut sockets = Sockets {
            rt,
            office,
            most_open: most_connections(rt),
            poll,
            events: Events::with_capacity(rt.alloc(), MOST_EVENTS)?,
            delivered: 0,
            owners: Some(owners),
            plant: Err(ListenerFault::Locked),
            listener: FaultLog::new(),
            resources: FaultLog::new(),
            since: Instant::now(rt)?,
        };
        sockets.open_plant_listener();
        Ok(sockets)
    }

    /// The port of the owners' listener. An `Err` if it is closed, or the system can't say it.
    pub fn port(&self) -> io::Result<u16> {
        match &self.owners {
            Some(owners) => Ok(owners.local_addr()?.port()),
            None => Err(ErrorKind::NotConnected.into()),
        }
    }

    // Opens the plant's listener, unless it is open or can't be made.
    fn open_plant_listener(&mut self) {
        if !PlantListener::is_wanted(self.rt, &self.plant) {
            return;
        }
        if self.plant.is_ok() {
            self.listener
                .update(self.rt, Some(ServingFault::PlantSocket));
        }
        self.plant = PlantListener::open(self.rt, self.office);
        if let Ok(listener) = &mut self.plant {
            if listener
                .register(self.poll.registry(), Token(PLANT))
                .is_err()
            {
                self.plant = Err(ListenerFault::Socket);
            }
        }
        let fault = self.plant.is_err().then_some(ServingFault::PlantSocket);
        self.listener.update(self.rt, fault);
    }

    // The next connection. Connections of the plant come first. A listener is asked only if a connection waits there:
    // asking in vain takes the system much longer than looking.
    fn accept(&self) -> io::Result<(Listener, SocketStream)> {
        let plant = self.plant.as_ref().ok();
        let (plant_waits, owner_waits) = are_waiting(
            plant.map(|listener| listener.as_raw_fd()),
            self.owners.as_ref().map(|listener| listener.as_raw_fd()),
        );
        match plant {
            Some(listener) if plant_waits => match listener.accept() {
                Ok(stream) => return Ok((Listener::Plant, SocketStream::Plant(stream))),
                Err(fault) if fault.kind() == ErrorKind::WouldBlock => {}
                Err(fault) => return Err(fault),
            },
            _ => {}
        }
        match &self.owners {
            Some(listener) if owner_waits => {
                let (stream, _) = listener.accept()?;
                Ok((Listener::Owners, SocketStream::Owner(stream)))
            }
            _ => Err(ErrorKind::WouldBlock.into()),
        }
    }

    // The next connection, which has this key from then on.
    fn take(&self, key: usize) -> io::Result<(Listener, SocketStream)> {
        let (listener, mut stream) = self.accept()?;
        let token = Token(key.saturating_add(FIRST_CONNECTION));
        stream.register(self.poll.registry(), token)?;
        Ok((listener, stream))
    }
}

impl Network for Sockets<'_> {
    type Stream = SocketStream;

    ghost limit = { λ sockets. Some sockets.most_open };

    fn most_connections(&self) -> usize {
        self.most_open
    }

    fn wait(&mut self, most: Option<u64>) -> Result<u64, NetworkFault> {
        self.delivered = 0;
        let waited = self
            .poll
            .poll(&mut self.events, most.map(Duration::from_millis));
        self.open_plant_listener();
        match waited {
            Ok(()) => Ok(self.now()),
            Err(fault) if fault.kind() == ErrorKind::Interrupted => Ok(self.now()),
            Err(_) => Err(NetworkFault),
        }
    }

    fn next_ready(&mut self) -> Option<usize> {
        for _ in 0..MOST_EVENTS {
            let event = self.events.iter().nth(self.delivered)?;
            self.delivered = self.delivered.saturating_add(1);
            if let Some(key) = event.token().0.checked_sub(FIRST_CONNECTION) {
                return Some(key);
            }
        }
        None
    }

    fn accept_next(&mut self, key: usize) -> Result<Accepted<SocketStream>, NetworkFault> {
        match self.take(key) {
            Ok((listener, stream)) => {
                self.resources.update(self.rt, None);
                Ok(Accepted::Connected(listener, stream))
            }
            Err(fault) => match fault.kind() {
                ErrorKind::WouldBlock => Ok(Accepted::NoneWaiting),
                ErrorKind::ConnectionAborted | ErrorKind::Interrupted => Ok(Accepted::Aborted),
                _ => {
                    self.resources
                        .update(self.rt, Some(ServingFault::NoResources));
                    Ok(Accepted::NoResources)
                }
            },
        }
    }

    // The socket file of the plant is removed with its listener.
    fn close_listeners(&mut self) {
        self.owners = None;
        self.plant = Err(ListenerFault::Closed);
    }

    fn now(&mut self) -> u64 {
        match self.since.elapsed(self.rt) {
            Ok(gone) => u64::try_from(gone.as_millis()).unwrap_or(u64::MAX),
            Err(_) => u64::MAX,
        }
    }
}

impl Announcing for Sockets<'_> {
    // Prints `listening PORT` on standard output.
    fn announce(&self, rt: &HostRuntime) -> io::Result<()> {
        let port = self.port()?;
        println!(rt; "listening {port}")
    }
}
