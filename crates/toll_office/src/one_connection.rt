//! Serving one connection on a socket.
use crate::timed::Timed;
use std::net::{TcpListener, TcpStream};
use toll_keep::Keep;
use toll_protocol::{ReadFault, read_request, write_whole};
use toll_service::{KeepOpener, OfficePath, Out, answer_once};

/// How the serving of one connection ended.
#[derive(Clone, Copy)]
pub enum Served {
    /// A reply was written. It may say that the office is unavailable.
    Answered,
    /// The request did not come, or not in time, or there was no memory to read it. No reply was written.
    ReadFault,
    /// The reply could not be written whole, or not in time.
    WriteFault,
    /// No connection could be accepted.
    AcceptFault,
}

/// Serves one connection over the office at this path: reads the request, takes the lock, opens the file,
/// answers, closes the file, releases the lock, and writes the reply. The reply is 503 if the lock isn't
/// taken or the file isn't opened. Only tests call it: the program serves with
/// [`serve_file`](toll_service::serve_file).
pub fn serve_one<K: Keep, O: KeepOpener<K>>(
    office_path: &mut OfficePath<'_, O>,
    listener: &TcpListener,
) -> Served {
    let rt = office_path.rt;
    let Ok((socket, _)) = listener.accept() else {
        return Served::AcceptFault;
    };
    match take_request(rt, &socket) {
        Ok(request) => give(rt, &socket, &answer_once(office_path, &request)),
        Err(_) => Served::ReadFault,
    }
}

// Reads the request, which the client must send within the time.
fn take_request(rt: &HostRuntime, socket: &TcpStream) -> Result<Vec<u8>, ReadFault> {
    match Timed::new(rt, socket) {
        Ok(mut timed) => read_request(rt.alloc(), &mut timed),
        Err(_) => Err(ReadFault::Io),
    }
}

// Writes the reply, which the client must take within the time.
fn give(rt: &HostRuntime, socket: &TcpStream, reply: &Out) -> Served {
    let Ok(mut timed) = Timed::new(rt, socket) else {
        return Served::WriteFault;
    };
    match write_whole(&mut timed, reply.bytes()) {
        Ok(()) => Served::Answered,
        Err(_) => Served::WriteFault,
    }
}
