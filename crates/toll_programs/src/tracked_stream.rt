//! Connections that report whether a read of them has failed.
use std::io;
use std::io::{Read, Write};
use toll_protocol::{Sink, Source, Stream};

/// A connection that reports whether a read of it has failed.
pub trait TracksReads: Stream {
    ghost use Rattle.std.specs.Prelude.{◌≡◌, Some};

    /// Whether a read of the connection has failed since it was made.
    fn has_failed(&self) -> bool
        ensures { Self.Source.has_failed self.now ≡ Some result };
}

/// A stream, and whether a read of it has failed.
#[derive(Drop)]
pub struct TrackedStream<S> {
    stream: S,
    has_failed: bool,
}

impl<S: Drop> TrackedStream<S> {
    /// Tracks the reads of this stream from now on.
    pub fn new(stream: S) -> Self {
        TrackedStream {
            stream,
            has_failed: false,
        }
    }
}

impl<S: Read + Drop> Source for TrackedStream<S> {
    ghost use Rattle.std.specs.Prelude.{Some};

    ghost unread = { λ tracked. S.Read.remaining tracked.stream };

    ghost has_failed = { λ tracked. Some tracked.has_failed };

    fn read_some(&mut self, buffer: &mut [u8]) -> io::Result<usize> {
        let read = self.stream.read(buffer);
        self.has_failed = self.has_failed || read.is_err();
        read
    }
}

impl<S: Write + Drop> Sink for TrackedStream<S> {
    fn write_some(&mut self, bytes: &[u8]) -> io::Result<usize> {
        self.stream.write(bytes)
    }
}

impl<S: Read + Write + Drop> Stream for TrackedStream<S> {
    ghost use Rattle.std.specs.Prelude.{refl};

    ghost apart = { λ _. refl };
}

impl<S: Read + Write + Drop> TracksReads for TrackedStream<S> {
    fn has_failed(&self) -> bool {
        self.has_failed
    }
}
