//! A connection of an owner or of the plant, on the system's sockets.
use mio::net::{TcpStream, UnixStream};
use mio::{Interest, Registry, Token};
use std::io;
use std::io::{Read, Write};
use toll_protocol::Stream;

/// A connection that never waits: a read or a write that would wait fails with `WouldBlock`.
#[derive(Drop)]
pub enum SocketStream {
    Owner(TcpStream),
    Plant(UnixStream),
}

impl SocketStream {
    /// Registers the connection by this token, which from now on reports that it may advance. An `Err` if the system
    /// refuses.
    pub fn register(&mut self, registry: &Registry, token: Token) -> io::Result<()> {
        let both = Interest::READABLE | Interest::WRITABLE;
        match self {
            SocketStream::Owner(stream) => registry.register(stream, token, both),
            SocketStream::Plant(stream) => registry.register(stream, token, both),
        }
    }
}

impl Read for SocketStream {
    fn read(&mut self, buffer: &mut [u8]) -> io::Result<usize> {
        match self {
            SocketStream::Owner(stream) => stream.read(buffer),
            SocketStream::Plant(stream) => stream.read(buffer),
        }
    }
}

impl Write for SocketStream {
    fn write(&mut self, bytes: &[u8]) -> io::Result<usize> {
        match self {
            SocketStream::Owner(stream) => stream.write(bytes),
            SocketStream::Plant(stream) => stream.write(bytes),
        }
    }

    fn flush(&mut self) -> io::Result<()> {
        Ok(())
    }
}

impl Stream for SocketStream {
    ghost use Rattle.std.specs.Prelude.{refl};

    ghost apart = { λ _. refl };
}
