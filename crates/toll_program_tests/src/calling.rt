//! What is handed to a server, and what is printed of its response.
use crate::frames::{STOCK, TOLD};
use std::alloc::Global;
use std::cell::Cell;
use std::io;
use std::io::{ErrorKind, Read, Write};
use toll_programs::{TrackedStream, run_on_server};

/// What is handed over in each case.
const WORDS: &[&str] = &["stock", "ACME"];

/// The handshake of this build.
const GREETING: &[u8] = b"\0\0\0\x19toll 1.1, office format 2";

/// Nothing, an answer that was cut, or one without a status.
const NO_ANSWERS: [&[u8]; 3] = [b"", b"\0\0\0\x0a\x01\0\0\0\x02now", b"\0\0\0\0"];

/// No handshake, one that was cut, that of another build, or this build's with something after it.
const OTHER_HANDSHAKES: [&[u8]; 4] = [
    b"",
    b"\0\0\0\x19toll 1.1, office format ",
    b"\0\0\0\x19toll 1.1, office format 1",
    b"\0\0\0\x19toll 1.1, office format 2?",
];

/// A server that sends a handshake, and its response once it received the request. After that, reading fails.
#[derive(Drop)]
struct Server<'a> {
    gives: &'a [u8],
    answers: &'a [u8],
    takes: &'a [u8],
    is_asked: &'a Cell<bool>,
}

impl Read for Server<'_> {
    fn read(&mut self, buffer: &mut [u8]) -> io::Result<usize> {
        if self.gives.is_empty() {
            return Err(ErrorKind::ConnectionReset.into());
        }
        let n = self.gives.len().min(buffer.len());
        let (given, rest) = self.gives.split_at(n);
        buffer[..n].copy_from_slice(given);
        self.gives = rest;
        Ok(n)
    }
}

impl Write for Server<'_> {
    fn write(&mut self, bytes: &[u8]) -> io::Result<usize> {
        let Some(rest) = self.takes.strip_prefix(bytes) else {
            return Err(ErrorKind::BrokenPipe.into());
        };
        self.takes = rest;
        if rest.is_empty() {
            self.gives = self.answers;
            self.is_asked.set(true);
        }
        Ok(bytes.len())
    }

    fn flush(&mut self) -> io::Result<()> {
        Ok(())
    }
}

/// Whether a server was asked, what is printed of its response, and the exit status.
#[derive(Clone, Copy)]
struct End {
    is_asked: bool,
    status: Option<u64>,
    output: &'static [u8],
    error: &'static [u8],
}

const PRINTED: End = End {
    is_asked: true,
    status: Some(1),
    output: b"no",
    error: b"why",
};

const LOST: End = End {
    is_asked: true,
    status: Some(3),
    output: b"",
    error: b"fault Lost\n",
};

const LEFT: End = End {
    is_asked: false,
    status: None,
    output: b"",
    error: b"",
};

// Whether handing the words to a server that sends this and receives that ends in this way.
fn comes_to(alloc: Global, gives: &[u8], takes: &[u8], answers: &[u8], end: &End) -> bool {
    let is_asked = Cell::new(false);
    let mut server = TrackedStream::new(Server {
        gives,
        answers,
        takes,
        is_asked: &is_asked,
    });
    let mut output = Vec::new(alloc);
    let mut error = Vec::new(alloc);
    let status = run_on_server(alloc, &mut server, WORDS, None, &mut output, &mut error);
    (is_asked.get(), status) == (end.is_asked, end.status)
        && output.as_slice() == end.output
        && error.as_slice() == end.error
}

#[test]
fn a_servers_answer_is_printed(rt: HostRuntime) {
    assert!(rt; comes_to(rt.alloc(), GREETING, STOCK, TOLD, &PRINTED));
}

#[test]
fn a_server_that_sends_nothing_has_lost_the_answer(rt: HostRuntime) {
    for answers in NO_ANSWERS {
        let is_lost = comes_to(rt.alloc(), GREETING, STOCK, answers, &LOST);
        assert!(rt; is_lost, "where it tells {:?}", answers);
    }
}

#[test]
fn what_no_server_of_the_build_takes_is_left_to_the_program(rt: HostRuntime) {
    for greeting in OTHER_HANDSHAKES {
        let is_left = comes_to(rt.alloc(), greeting, STOCK, TOLD, &LEFT);
        assert!(rt; is_left, "where it gives {:?}", greeting);
    }
    assert!(rt; comes_to(rt.alloc(), GREETING, b"frob", TOLD, &LEFT));
}
