//! The listener at which a server accepts the plant's commands.
use crate::socket_file::{SocketFile, is_taken};
use mio::net::UnixStream;
use mio::{Registry, Token};
use std::alloc::AllocError;
use std::io;
use std::io::{ErrorKind, Write};
use std::os::fd::RawFd;
use std::time::Instant;
use toll_files::take_lock;
use toll_programs::VERSION;
use toll_protocol::handshake;

/// The socket file `FILE.sock` beside an office's file, by which the plant's commands reach its server. Each
/// client that connects is sent a handshake with the server's build.
#[derive(Drop)]
pub struct PlantListener<'a> {
    file: SocketFile<'a>,
    handshake: Vec<u8>,
}

/// Why a server has no listener for the plant. The plant's commands then open the office's file themselves.
#[derive(Clone, Copy, Debug, PartialEq, Eq)]
pub enum ListenerFault {
    /// Another program has the lock of the office's file. A retry may succeed.
    Locked,
    /// At this moment another server listened there, or something else was in the place of the socket file. A
    /// retry may succeed.
    Taken(Instant),
    /// The socket file can't be made, or there is no memory.
    Socket,
    /// The server has closed its listeners.
    Closed,
}

/// After how many seconds it is retried if something else is in the place of the socket file.
const PAUSE_SECONDS: u64 = 1;

impl<'a> PlantListener<'a> {
    /// Whether a listener is to be opened, because none is there yet or its socket file is gone. This is
    /// asked after each wait, so if something else is in its place, the answer is true once a second at most.
    pub fn is_wanted(rt: &HostRuntime, listener: &Result<Self, ListenerFault>) -> bool {
        match listener {
            Ok(listener) => !listener.file.is_there(),
            Err(ListenerFault::Locked) => true,
            Err(ListenerFault::Taken(since)) => {
                matches!(since.elapsed(rt), Ok(gone) if gone.as_secs() >= PAUSE_SECONDS)
            }
            Err(ListenerFault::Socket | ListenerFault::Closed) => false,
        }
    }

    /// Listens for the office in this file, under its lock. The lock isn't taken if something else is in the
    /// place of the socket file. Locked if the lock isn't taken, Taken if something else is in that place, Socket
    /// if the listener can't be made.
    pub fn open(rt: &'a HostRuntime, office: &str) -> Result<Self, ListenerFault> {
        let Ok(path) = socket_path(rt, office) else {
            return Err(ListenerFault::Socket);
        };
        if is_taken(rt, path.as_str()) {
            return Err(taken(rt));
        }
        let Ok(lease) = take_lock(rt, office) else {
            return Err(ListenerFault::Locked);
        };
        let listener = PlantListener::make(rt, path);
        lease.release();
        listener
    }

    fn make(rt: &'a HostRuntime, path: String) -> Result<Self, ListenerFault> {
        let Ok(handshake) = handshake(rt.alloc(), VERSION) else {
            return Err(ListenerFault::Socket);
        };
        match SocketFile::listen(rt, path) {
            Ok(file) => Ok(PlantListener { file, handshake }),
            Err(fault) => match fault.kind() {
                ErrorKind::AddrInUse | ErrorKind::AlreadyExists => Err(taken(rt)),
                _ => Err(ListenerFault::Socket),
            },
        }
    }

    /// Registers the listener by this token, which reports that a client connects. An `Err` if the system refuses.
    pub fn register(&mut self, registry: &Registry, token: Token) -> io::Result<()> {
        self.file.register(registry, token)
    }

    /// The descriptor at which connections wait.
    pub fn as_raw_fd(&self) -> RawFd {
        self.file.as_raw_fd()
    }

    /// The next connection, which was sent the handshake. `WouldBlock` if none waits. A client that can't be sent the
    /// handshake has gone, which is `ConnectionAborted`. Any other fault is that of the system.
    pub fn accept(&self) -> io::Result<UnixStream> {
        let mut stream = self.file.accept()?;
        match stream.write(&self.handshake) {
            Ok(n) if n == self.handshake.len() => Ok(stream),
            _ => Err(ErrorKind::ConnectionAborted.into()),
        }
    }
}

// The fault that something else is in the place of the socket file now.
fn taken(rt: &HostRuntime) -> ListenerFault {
    match Instant::now(rt) {
        Ok(now) => ListenerFault::Taken(now),
        Err(_) => ListenerFault::Socket,
    }
}

/// The path of the socket file of the office in this file. An `Err` if there is no memory for it.
pub fn socket_path(rt: &HostRuntime, office: &str) -> Result<String, AllocError> {
    format!(in rt.alloc(); "{office}.sock")
}
