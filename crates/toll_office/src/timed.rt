//! A socket with a time limit.
use std::io;
use std::io::{ErrorKind, Read, Write};
use std::net::TcpStream;
use std::time::{Duration, Instant};

/// How many seconds a client may take for its request, and again for taking the reply.
const MOST_SECONDS: u64 = 10;

/// A socket whose reads and writes fail once the time is up, even if each of them moved a few bytes.
#[derive(Drop)]
pub struct Timed<'a> {
    rt: &'a HostRuntime,
    socket: &'a TcpStream,
    since: Instant,
}

impl<'a> Timed<'a> {
    /// Starts the time of this socket, which is over in [`MOST_SECONDS`]. An `Err` if the clock can't be read.
    pub fn new(rt: &'a HostRuntime, socket: &'a TcpStream) -> io::Result<Self> {
        let since = Instant::now(rt)?;
        Ok(Timed { rt, socket, since })
    }

    // The time that is left. `TimedOut` if none is.
    fn left(&self) -> io::Result<Duration> {
        let gone = self.since.elapsed(self.rt)?;
        match Duration::from_secs(MOST_SECONDS).checked_sub(gone) {
            Some(left) if !left.is_zero() => Ok(left),
            _ => Err(ErrorKind::TimedOut.into()),
        }
    }
}

impl Read for Timed<'_> {
    fn read(&mut self, buffer: &mut [u8]) -> io::Result<usize> {
        let left = self.left()?;
        self.socket.set_read_timeout(Some(left))?;
        let mut socket = self.socket;
        socket.read(buffer)
    }
}

impl Write for Timed<'_> {
    fn write(&mut self, bytes: &[u8]) -> io::Result<usize> {
        let left = self.left()?;
        self.socket.set_write_timeout(Some(left))?;
        let mut socket = self.socket;
        socket.write(bytes)
    }

    fn flush(&mut self) -> io::Result<()> {
        Ok(())
    }
}
