//! Requests that come in pieces, and streams that fail.
use crate::wire::answers::{PLACE, PLACED, office};
use crate::wire::requests::{repeated, request, with_fields};
use std::alloc::Global;
use std::test::Fail;
use toll_keep::MemKeep;
use toll_stories::{Sink, check, read_pieces};
use toll_wire::{ReadFault, WriteFault, answer, write_reply};

// Whether a request is answered with this status.
fn is_answered(alloc: Global, keep: &mut MemKeep, bytes: &[u8], status: &str) -> bool {
    answer(alloc, keep, bytes).bytes().get(9..12) == Some(status.as_bytes())
}

// The same of one that comes in pieces of so many bytes.
fn is_answered_in_pieces(
    alloc: Global,
    keep: &mut MemKeep,
    bytes: &[u8],
    piece: usize,
    status: &str,
) -> Result<bool, ReadFault> {
    let came = read_pieces(alloc, bytes, piece, false)?;
    Ok(is_answered(alloc, keep, &came, status))
}

/// Fails if a request has a reply with another status, whole or in whatever pieces it comes.
fn check_status(alloc: Global, bytes: &[u8], status: &str) -> Result<(), Fail> {
    let mut keep = office(alloc)?;
    let is_so = is_answered(alloc, &mut keep, bytes, status)
        && is_answered_in_pieces(alloc, &mut keep, bytes, bytes.len(), status)?
        && is_answered_in_pieces(alloc, &mut keep, bytes, 1, status)?;
    check(is_so, status)
}

/// A front, a part so many times, and an end of a head's fields, and the status.
const HEADS: &[(&str, &str, usize, &str, &str)] = &[
    ("x: ", "x", 8192 - 83, "\r\n", "200"),
    ("x: ", "x", 8193 - 83, "\r\n", "400"),
    ("", "x: y\r\n", 29, "", "200"),
    ("", "x: y\r\n", 30, "", "400"),
];

fn check_head(alloc: Global, fields: &str, status: &str) -> Result<(), Fail> {
    let bytes = with_fields(alloc, "GET /stock HTTP/1.1", fields, "")?;
    check_status(alloc, &bytes, status)
}

#[test]
fn a_head_has_limits(rt: HostRuntime) -> Result<(), Fail> {
    for row in HEADS {
        let (front, part, count, end, status) = *row;
        let fields = repeated(rt.alloc(), front, part, count, end)?;
        check_head(rt.alloc(), fields.as_str(), status)?;
    }
    Ok(())
}

/// A path of 8,000 bytes is read whole, and is of no route.
#[test]
fn a_long_path_is_of_no_route(rt: HostRuntime) -> Result<(), Fail> {
    let line = repeated(rt.alloc(), "GET /lots/", "A", 7994, " HTTP/1.1")?;
    let bytes = with_fields(rt.alloc(), line.as_str(), "", "")?;
    check_status(rt.alloc(), &bytes, "404")
}

/// How many blanks come before the body, what its head claims, the body, and the status.
const BODIES: &[(usize, &str, &str, &str)] = &[
    (4096 - PLACE.len(), "content-length: 4096\r\n", PLACE, "200"),
    (4096 - PLACE.len(), "content-length: 4097\r\n", PLACE, "413"),
    (0, "content-length: 10\r\n", "123456789", "400"),
    (0, "content-length: 5000\r\n", "1234567890", "413"),
];

#[test]
fn a_body_has_a_limit(rt: HostRuntime) -> Result<(), Fail> {
    for row in BODIES {
        let (blanks, fields, end, status) = *row;
        let body = repeated(rt.alloc(), "", " ", blanks, end)?;
        let bytes = with_fields(rt.alloc(), "POST /orders HTTP/1.1", fields, body.as_str())?;
        check_status(rt.alloc(), &bytes, status)?;
    }
    Ok(())
}

const FIELDS: &[(&str, &str)] = &[
    ("host: 127.0.0.1\r\n", "400"),
    ("transfer-encoding: chunked\r\n", "501"),
    ("content-length: +5\r\n", "400"),
    ("content-length: 0\r\ncontent-length: 0\r\n", "400"),
    ("content-length: 999999999999999999999999999999\r\n", "413"),
];

#[test]
fn fields_are_checked(rt: HostRuntime) -> Result<(), Fail> {
    for row in FIELDS {
        let (fields, status) = *row;
        check_head(rt.alloc(), fields, status)?;
    }
    Ok(())
}

const FORMS: &[(&str, &str)] = &[
    (
        "GET /stock HTTP/1.0\r\ntoll-owner: ACME\r\ntoll-key: ACMEKEY1\r\n\r\n",
        "200",
    ),
    (
        "GET /stock HTTP/1.1\r\nhost: h\r\nTOLL-OWNER: ACME\r\ntoll-key: ACMEKEY1\r\n\r\n",
        "200",
    ),
    (
        "GET /stock HTTP/1.1\nhost: h\ntoll-owner: ACME\ntoll-key: ACMEKEY1\n\n",
        "400",
    ),
    (
        "GET /stock HTTP/1.1\r\ntoll-owner: ACME\r\ntoll-key: ACMEKEY1\r\n\r\n",
        "400",
    ),
    (
        "GET /stock HTTP/1.1\r\nhost: h\r\ntoll-owner: ACME\r\n\r\n",
        "403",
    ),
    (
        "GET /stock?x=1 HTTP/1.1\r\nhost: h\r\ntoll-owner: ACME\r\ntoll-key: ACMEKEY1\r\n\r\n",
        "200",
    ),
    (
        "GET http://127.0.0.1/stock HTTP/1.1\r\nhost: h\r\ntoll-owner: ACME\r\ntoll-key: ACMEKEY1\r\n\r\n",
        "404",
    ),
];

#[test]
fn forms_of_heads_are_distinguished(rt: HostRuntime) -> Result<(), Fail> {
    for row in FORMS {
        let (text, status) = *row;
        check_status(rt.alloc(), text.as_bytes(), status)?;
    }
    Ok(())
}

// Whether these bytes are read of a stream that gives them in pieces, and then fails.
fn is_read(alloc: Global, bytes: &[u8]) -> bool {
    match read_pieces(alloc, bytes, 100, true) {
        Ok(came) => came.as_slice() == bytes,
        Err(_) => false,
    }
}

// Whether the failure is reported if the last of these bytes is missing.
fn is_cut_short(alloc: Global, bytes: &[u8]) -> bool {
    match bytes.split_last() {
        Some((_, early)) => matches!(read_pieces(alloc, early, 100, true), Err(ReadFault::Io)),
        None => false,
    }
}

#[test]
fn a_request_that_came_is_enough(rt: HostRuntime) -> Result<(), Fail> {
    let whole = request(rt.alloc(), "POST /orders", PLACE)?;
    let is_enough = is_read(rt.alloc(), &whole) && is_cut_short(rt.alloc(), &whole);
    check(is_enough, "read otherwise")
}

// The outcome of writing the reply to a stream that takes this many bytes with each write, and has room for
// so many; and how many it took, if these are a first part of the reply.
fn write_to(alloc: Global, piece: usize, room: usize) -> (Result<(), WriteFault>, Option<usize>) {
    let mut sink = Sink {
        taken: Vec::new(alloc),
        piece,
        room,
    };
    let wrote = write_reply(&mut sink, PLACED);
    let is_front = PLACED.starts_with(&sink.taken);
    (wrote, is_front.then_some(sink.taken.len()))
}

#[test]
fn a_failed_write_is_reported(rt: HostRuntime) {
    for room in 0..PLACED.len() {
        let written = room as u64;
        let reported = write_to(rt.alloc(), PLACED.len(), room);
        assert!(rt;
            reported == (Err(WriteFault { written }), Some(room)),
            "at {room}"
        );
    }
    let reported = write_to(rt.alloc(), 1, PLACED.len());
    assert!(rt; reported == (Ok(()), Some(PLACED.len())));
}
