//! Readers and writers that fail.
use std::alloc::Global;
use std::io;
use std::io::{ErrorKind, Read, Write};
use toll_wire::{ReadFault, read_request};

/// Gives these bytes, at most this many with each read, and then ends. Once before that it fails.
#[derive(Drop)]
pub struct Source<'b> {
    pub bytes: &'b [u8],
    pub piece: usize,
    pub fails: bool,
}

impl Read for Source<'_> {
    fn read(&mut self, buf: &mut [u8]) -> io::Result<usize> {
        if self.bytes.is_empty() && self.fails {
            self.fails = false;
            return Err(io::Error::from(ErrorKind::ConnectionReset));
        }
        let n = self.bytes.len().min(buf.len()).min(self.piece);
        let (given, rest) = self.bytes.split_at(n);
        buf[..n].copy_from_slice(given);
        self.bytes = rest;
        Ok(n)
    }
}

/// Reads a request from a stream that gives these bytes in pieces, and then fails or ends.
pub fn read_pieces(
    alloc: Global,
    bytes: &[u8],
    piece: usize,
    fails: bool,
) -> Result<Vec<u8>, ReadFault> {
    let mut source = Source {
        bytes,
        piece,
        fails,
    };
    read_request(alloc, &mut source)
}

/// Takes so many bytes, so many at most with each write, then fails once, and takes the rest.
#[derive(Drop)]
pub struct Sink {
    pub taken: Vec<u8>,
    pub piece: usize,
    pub room: usize,
}

impl Write for Sink {
    fn write(&mut self, buf: &[u8]) -> io::Result<usize> {
        if self.room == 0 {
            self.room = usize::MAX;
            return Err(io::Error::from(ErrorKind::BrokenPipe));
        }
        let n = buf.len().min(self.piece).min(self.room);
        self.taken.extend_from_slice(&buf[..n])?;
        self.room -= n;
        Ok(n)
    }

    fn flush(&mut self) -> io::Result<()> {
        Ok(())
    }
}
