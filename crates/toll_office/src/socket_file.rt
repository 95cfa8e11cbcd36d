//! The socket file of a server.
use mio::net::{UnixListener, UnixStream};
use mio::{Interest, Registry, Token};
use std::fs::Permissions;
use std::io::ErrorKind;
use std::os::fd::{AsRawFd, RawFd};
use std::os::unix::fs::{FileTypeExt, PermissionsExt};
use std::{fs, io};
use toll_files::{FILE_MODE, FileId};

/// How many connections may wait before the file has its mode.
const MOST_EARLY: usize = 8192;

/// A socket file at which a server listens, and to which only the server's user may connect. It is removed
/// when the listening ends.
pub struct SocketFile<'a> {
    rt: &'a HostRuntime,
    path: String,
    made: FileId,
    listener: UnixListener,
}

impl Drop for SocketFile<'_> {
    fn drop(self) {
        let SocketFile {
            rt,
            path,
            made,
            listener: _,
        } = self;
        if is_at(rt, path.as_str(), made) {
            let _ = fs::remove_file(rt, path.as_str());
        }
    }
}

impl<'a> SocketFile<'a> {
    /// Listens at this path, and makes the socket file there. A socket file that a stopped server left there
    /// is replaced. An `Err` if a server listens there, if the file there is not a socket file or belongs to
    /// another user, or if the path is longer than 107 bytes: the file there then stays. Also an `Err` if the
    /// system refuses to listen.
    pub fn listen(rt: &'a HostRuntime, path: String) -> io::Result<Self> {
        clear(rt, path.as_str())?;
        let listener = UnixListener::bind(rt, path.as_str())?;
        let made = FileId::from(&fs::symlink_metadata(rt, path.as_str())?);
        let file = SocketFile {
            rt,
            path,
            made,
            listener,
        };
        fs::set_permissions(rt, file.path.as_str(), Permissions::from_mode(FILE_MODE))?;
        file.turn_away_early();
        Ok(file)
    }

    /// Whether the socket file that was made is still at its path.
    pub fn is_there(&self) -> bool {
        is_at(self.rt, self.path.as_str(), self.made)
    }

    // Closes connections that came before the file had its mode, because any user may have made them.
    fn turn_away_early(&self) {
        for _ in 0..MOST_EARLY {
            if self.listener.accept().is_err() {
                return;
            }
        }
    }

    /// Registers the listener by this token, which reports that a client connects. An `Err` if the system refuses.
    pub fn register(&mut self, registry: &Registry, token: Token) -> io::Result<()> {
        registry.register(&mut self.listener, token, Interest::READABLE)
    }

    /// The descriptor at which connections wait.
    pub fn as_raw_fd(&self) -> RawFd {
        self.listener.as_raw_fd()
    }

    /// The next connection. `WouldBlock` if none waits; any other fault is that of the system.
    pub fn accept(&self) -> io::Result<UnixStream> {
        let (stream, _) = self.listener.accept()?;
        Ok(stream)
    }
}

// Whether the file that was made is at this path.
fn is_at(rt: &HostRuntime, path: &str, made: FileId) -> bool {
    matches!(fs::symlink_metadata(rt, path), Ok(metadata) if FileId::from(&metadata) == made)
}

/// Whether a file is at this path that stays: one at which another server listens, or one that is no socket
/// file.
pub fn is_taken(rt: &HostRuntime, path: &str) -> bool {
    match fs::symlink_metadata(rt, path) {
        Ok(found) if found.file_type().is_socket() => UnixStream::connect(rt, path).is_ok(),
        Ok(_) => true,
        Err(_) => false,
    }
}

// Removes the socket file that a stopped server left there.
fn clear(rt: &HostRuntime, path: &str) -> io::Result<()> {
    let found = match fs::symlink_metadata(rt, path) {
        Ok(found) => found,
        Err(fault) if fault.kind() == ErrorKind::NotFound => return Ok(()),
        Err(fault) => return Err(fault),
    };
    if !found.file_type().is_socket() {
        return Err(ErrorKind::AlreadyExists.into());
    }
    match UnixStream::connect(rt, path) {
        Ok(_) => Err(ErrorKind::AddrInUse.into()),
        Err(fault) if fault.kind() == ErrorKind::ConnectionRefused => fs::remove_file(rt, path),
        Err(fault) => Err(fault),
    }
}
