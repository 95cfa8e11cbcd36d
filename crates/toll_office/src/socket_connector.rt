//! A command's connection to the server of a file.
use crate::plant_listener::socket_path;
use std::io::{ErrorKind, Read, Write};
use std::os::unix::fs::{FileTypeExt, MetadataExt};
use std::os::unix::net::UnixStream;
use std::time::Duration;
use std::{fs, io};
use toll_programs::{Connector, TrackedStream};

/// Connects to the server of a file, by the socket file beside it.
#[derive(Drop)]
pub struct SocketConnector;

/// How many seconds a server may take for its handshake.
const HANDSHAKE_SECONDS: u64 = 5;

/// A connection to a server. Until the first write, a read that waits longer than five seconds fails; the
/// first write comes after the handshake was read. After that, a read waits as long as it takes.
#[derive(Drop)]
pub struct ServerStream {
    stream: UnixStream,
    is_limited: bool,
}

impl Read for ServerStream {
    fn read(&mut self, buffer: &mut [u8]) -> io::Result<usize> {
        self.stream.read(buffer)
    }
}

impl Write for ServerStream {
    fn write(&mut self, bytes: &[u8]) -> io::Result<usize> {
        if self.is_limited {
            self.stream.set_read_timeout(None)?;
            self.is_limited = false;
        }
        self.stream.write(bytes)
    }

    fn flush(&mut self) -> io::Result<()> {
        Ok(())
    }
}

impl Connector<TrackedStream<ServerStream>> for SocketConnector {
    fn connect(&mut self, rt: &HostRuntime, path: &str) -> Option<TrackedStream<ServerStream>> {
        let stream = connect(rt, path)?;
        let limit = Duration::from_secs(HANDSHAKE_SECONDS);
        stream.set_read_timeout(Some(limit)).ok()?;
        Some(TrackedStream::new(ServerStream {
            stream,
            is_limited: true,
        }))
    }
}

// A connection to the server of the office in this file, if it has one.
fn connect(rt: &HostRuntime, office: &str) -> Option<UnixStream> {
    let path = socket_path(rt, office).ok()?;
    if !is_of_its_owner(rt, office, path.as_str()) {
        return None;
    }
    UnixStream::connect(rt, path.as_str()).ok()
}

// Whether there is a socket file that belongs to the owner of the office's file. Without this check, any user
// that may put files beside the office's file could receive the commands.
fn is_of_its_owner(rt: &HostRuntime, office: &str, path: &str) -> bool {
    match (owner_of(rt, office), fs::symlink_metadata(rt, path)) {
        (Ok(owner), Ok(socket)) => socket.file_type().is_socket() && socket.uid() == owner,
        _ => false,
    }
}

// The user that owns the office's file. If there is no file, that is this process's user, who would make it.
fn owner_of(rt: &HostRuntime, office: &str) -> io::Result<u32> {
    match fs::metadata(rt, office) {
        Ok(file) => Ok(file.uid()),
        Err(fault) if fault.kind() == ErrorKind::NotFound => Ok(fs::metadata(
            rt,
            "/proc/self",
        )?.uid()),
        Err(fault) => Err(fault),
    }
}
