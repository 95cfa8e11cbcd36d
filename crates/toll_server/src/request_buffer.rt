//! A request, as its bytes come.
ghost use Rattle.std.specs.Prelude.{◌≡◌, ◌≢◌, ◌⊎◌, [], IfOk};
ghost use Rattle.std.specs.Io.KnownBytes.{IsAtEnd};
ghost use Rattle.toll_protocol.specs.Streams.{AppendsRead, NoneBlocked, OneBlocked};
ghost use Rattle.toll_protocol.specs.declared.streams.read_status.ReadStatus.{ReadStatus};
ghost use Rattle.toll_server.specs.RequestBuffers.{IsComplete, bytes_received, listener_of};

use crate::listener::Listener;
use std::alloc::{AllocError, Global};
use toll_protocol::{Frame, MOST_CALL_BYTES, ReadStatus, RequestReader, Source};

/// The bytes received of a request.
#[derive(Drop)]
pub enum RequestBuffer {
    Owner(RequestReader),
    Plant(Frame),
}

impl RequestBuffer {
    /// A request at this listener, of which no byte was received yet. An `Err` if there is no memory to receive it.
    pub fn new(alloc: Global, listener: Listener) -> Result<Self, AllocError>
        ensures { IfOk result (λ request. (bytes_received request ≡ []) × (listener_of request ≡ listener)) }
    {
        match listener {
            Listener::Owners => match RequestReader::new(alloc) {
                Ok(http) => Ok(RequestBuffer::Owner(http)),
                Err(e) => Err(e),
            },
            Listener::Plant => Ok(RequestBuffer::Plant(Frame::new(alloc))),
        }
    }

    /// The listener that accepted the request's connection.
    pub fn listener(&self) -> Listener
        ensures { result ≡ listener_of self.now }
    {
        match self {
            RequestBuffer::Owner(_) => Listener::Owners,
            RequestBuffer::Plant(_) => Listener::Plant,
        }
    }

    /// All bytes of the request that were received so far.
    pub fn bytes(&self) -> &[u8]
        ensures { result.now ≡ bytes_received self.now }
    {
        match self {
            RequestBuffer::Owner(http) => http.bytes(),
            RequestBuffer::Plant(frame) => frame.bytes.as_slice(),
        }
    }

    /// Reads on until the request is whole, or a read fails, as one does that would wait, or there is no
    /// memory.
    pub fn read_on<R: Source>(&mut self, reader: &mut R) -> ReadStatus
        ensures given { AppendsRead (R.unread reader.old) (R.unread reader.new) (bytes_received self.old) (bytes_received self.new) }
        ensures listener { listener_of self.new ≡ listener_of self.old }
        ensures complete { result ≡ ReadStatus.Complete → IsComplete self.new ⊎ IsAtEnd (R.unread reader.new) }
        ensures early { result ≢ ReadStatus.Complete → ¬ (IsComplete self.new) }
        ensures waits { result ≡ ReadStatus.Waiting → OneBlocked (R.blocked reader.old) (R.blocked reader.new) }
        ensures goes_on { result ≢ ReadStatus.Waiting → NoneBlocked (R.blocked reader.old) (R.blocked reader.new) }
        ensures write_side { R.write_side reader.new ≡ R.write_side reader.old }
    {
        match self {
            RequestBuffer::Owner(http) => http.read_on(reader),
            RequestBuffer::Plant(frame) => frame.read_on(reader, MOST_CALL_BYTES),
        }
    }
}
