//! Requests and what they are answered.
use crate::wire::lines::events_of;
use crate::wire::requests::{keyed, reply, request};
use std::alloc::{AllocError, Global};
use std::test::Fail;
use toll_desk::PlantReply;
use toll_keep::{Keep, MemKeep};
use toll_stories::{Refused, Refusing, WITH_ACME, check, check_chapter};
use toll_wire::{Answer, answer, run_events};

/// The body that asks for order O-1, of two batches by recipe R-1.
pub const PLACE: &str = "{\"order\":\"O-1\",\"recipe\":\"R-1\",\"batches\":2}";

const ORDER: &str = "{\"batches\":2,\"order\":\"O-1\",\"recipe\":\"R-1\",\"status\":\"open\"}";

const ORDERS: &str =
    "{\"orders\":[{\"batches\":2,\"order\":\"O-1\",\"recipe\":\"R-1\",\"status\":\"open\"}]}";

const NO_ROUTE: &str = "{\"error\":\"NoRoute\"}";

const BAD_REQUEST: &str = "{\"error\":\"BadRequest\"}";

/// The reply to it, byte for byte.
pub const PLACED: &[u8] =
    b"HTTP/1.1 200 OK\r\ncontent-type: application/json\r\ncontent-length: 58\r\nconnection: close\r\n\r\n{\"batches\":2,\"order\":\"O-1\",\"recipe\":\"R-1\",\"status\":\"open\"}";

const LISTED: &[u8] =
    b"HTTP/1.1 200 OK\r\ncontent-type: application/json\r\ncontent-length: 71\r\nconnection: close\r\n\r\n{\"orders\":[{\"batches\":2,\"order\":\"O-1\",\"recipe\":\"R-1\",\"status\":\"open\"}]}";

const FORBIDDEN: &[u8] =
    b"HTTP/1.1 403 Forbidden\r\ncontent-type: application/json\r\ncontent-length: 21\r\nconnection: close\r\n\r\n{\"error\":\"Forbidden\"}";

const UNAVAILABLE: &[u8] =
    b"HTTP/1.1 503 Service Unavailable\r\ncontent-type: application/json\r\ncontent-length: 23\r\nconnection: close\r\n\r\n{\"error\":\"Unavailable\"}";

const NONE: &[u8] =
    b"HTTP/1.1 200 OK\r\ncontent-type: application/json\r\ncontent-length: 13\r\nconnection: close\r\n\r\n{\"orders\":[]}";

/// ACME with a recipe.
pub fn office(alloc: Global) -> Result<MemKeep, Fail> {
    let mut keep = MemKeep::new(alloc);
    check_chapter(alloc, &mut keep, WITH_ACME)?;
    Ok(keep)
}

/// A request of ACME and its reply: method and target, body, status, body.
type Row = [&'static str; 4];

fn check_reply(alloc: Global, keep: &mut MemKeep, row: &Row) -> Result<(), Fail> {
    let [line, body, status, reported] = *row;
    let bytes = request(alloc, line, body)?;
    let wanted = reply(alloc, status, reported)?;
    let out = answer(alloc, keep, &bytes);
    check(out.bytes() == wanted.as_slice(), line)
}

/// Fails if one of the requests, one after another, has another reply.
fn check_replies(alloc: Global, keep: &mut MemKeep, rows: &[Row]) -> Result<(), Fail> {
    for row in rows {
        check_reply(alloc, keep, row)?;
    }
    Ok(())
}

const PLACED_AND_LISTED: &[&str] = &[
    "owner-add ACME ACMEKEY1",
    "recipe-add ACME R-1 2",
    "> ACME ACMEKEY1 POST /orders {\"order\":\"O-1\",\"recipe\":\"R-1\",\"batches\":2}",
    "> ACME ACMEKEY1 GET /orders",
];

// Whether both commands of the plant are accepted, and ACME has its order and the list of it as replies.
fn are_placed_and_listed(answers: &[Answer]) -> bool {
    match answers {
        [
            Answer::Plant(PlantReply::Accepted),
            Answer::Plant(PlantReply::Accepted),
            Answer::Bytes(placed),
            Answer::Bytes(listed),
        ] => placed.bytes() == PLACED && listed.bytes() == LISTED,
        _ => false,
    }
}

#[test]
fn an_order_is_placed_and_listed(rt: HostRuntime) -> Result<(), Fail> {
    let events = events_of(rt.alloc(), PLACED_AND_LISTED)?;
    let answers = run_events(rt.alloc(), &mut MemKeep::new(rt.alloc()), &events)?;
    check(are_placed_and_listed(&answers), "other answers")
}

const WITH_3_BATCHES: &str = "{\"order\":\"O-1\",\"recipe\":\"R-1\",\"batches\":3}";

const EXISTS: &str = "{\"code\":17,\"error\":\"OrderExists\"}";

const UNKNOWN: &str = "{\"code\":18,\"error\":\"UnknownOrder\"}";

const REPLIES: &[Row] = &[
    ["POST /orders", PLACE, "200 OK", ORDER],
    ["POST /orders", PLACE, "200 OK", ORDER],
    ["POST /orders", WITH_3_BATCHES, "409 Conflict", EXISTS],
    ["GET /orders", "", "200 OK", ORDERS],
    ["GET /orders?x=1", "", "200 OK", ORDERS],
    ["GET /orders/O-1", "", "200 OK", ORDER],
    ["GET /orders/O-2", "", "404 Not Found", UNKNOWN],
    ["GET /nowhere", "", "404 Not Found", NO_ROUTE],
    ["GET /orders/abc", "", "404 Not Found", NO_ROUTE],
    ["GET http://127.0.0.1/orders", "", "404 Not Found", NO_ROUTE],
    [
        "POST /orders",
        "{\"order\":\"O-1\"}",
        "400 Bad Request",
        BAD_REQUEST,
    ],
];

#[test]
fn requests_get_their_replies(rt: HostRuntime) -> Result<(), Fail> {
    check_replies(rt.alloc(), &mut office(rt.alloc())?, REPLIES)
}

const PLACING: &[Row] = &[["POST /orders", PLACE, "200 OK", ORDER]];

const LISTING: &[Row] = &[["GET /orders", "", "200 OK", ORDERS]];

const ANOTHER_ORDER: &str = "{\"order\":\"O-2\",\"recipe\":\"R-1\",\"batches\":1}";

/// The fields of a client without a valid key.
const STRANGERS: &[&str] = &[
    "toll-owner: NOBODY\r\ntoll-key: ACMEKEY1\r\n",
    "toll-owner: ACME\r\ntoll-key: ACMEKEY2\r\n",
    "toll-owner: ACME\r\n",
    "toll-key: ACMEKEY1\r\n",
    "toll-owner: ACME\r\ntoll-key: ACMEKEY1\r\ntoll-key: ACMEKEY1\r\n",
    "toll-owner: HOUSE\r\ntoll-key: ACMEKEY1\r\n",
];

const ASKED_BY_STRANGERS: &[&str] = &[
    "GET /orders",
    "POST /orders",
    "GET /nowhere",
    "POST /orders/O-1",
];

// Whether what is asked with these fields is forbidden.
fn is_forbidden(
    alloc: Global,
    keep: &mut MemKeep,
    line: &str,
    fields: &str,
) -> Result<bool, AllocError> {
    let bytes = keyed(alloc, line, fields, ANOTHER_ORDER)?;
    Ok(answer(alloc, keep, &bytes).bytes() == FORBIDDEN)
}

/// Fails if anything is not forbidden with these fields.
fn check_forbidden(alloc: Global, keep: &mut MemKeep, fields: &str) -> Result<(), Fail> {
    for line in ASKED_BY_STRANGERS {
        check(is_forbidden(alloc, keep, line, fields)?, line)?;
    }
    Ok(())
}

fn check_strangers(alloc: Global, keep: &mut MemKeep) -> Result<(), Fail> {
    check_replies(alloc, keep, PLACING)?;
    for fields in STRANGERS {
        check_forbidden(alloc, keep, fields)?;
    }
    check_replies(alloc, keep, LISTING)
}

#[test]
fn a_request_without_a_key_is_forbidden(rt: HostRuntime) -> Result<(), Fail> {
    check_strangers(rt.alloc(), &mut office(rt.alloc())?)
}

/// A request of ACME: method and target, and body.
pub type Request = (&'static str, &'static str);

/// Fails if ACME's request has other bytes as its reply.
pub fn check_bytes<K: Keep>(
    alloc: Global,
    keep: &mut K,
    requested: Request,
    wanted: &[u8],
) -> Result<(), Fail> {
    let (line, body) = requested;
    let bytes = request(alloc, line, body)?;
    let out = answer(alloc, keep, &bytes);
    check(out.bytes() == wanted, line)
}

// The first change finds no memory.
const PLACED_AT_LAST: &[(Request, &[u8])] = &[
    (("POST /orders", PLACE), UNAVAILABLE),
    (("GET /orders", ""), NONE),
    (("POST /orders", PLACE), PLACED),
    (("GET /orders", ""), LISTED),
];

#[test]
fn an_order_that_is_not_kept_is_not_placed(rt: HostRuntime) -> Result<(), Fail> {
    let mut keep = Refusing::new(office(rt.alloc())?, Refused::Apply);
    for row in PLACED_AT_LAST {
        let (requested, wanted) = *row;
        check_bytes(rt.alloc(), &mut keep, requested, wanted)?;
    }
    Ok(())
}

// How long the first front is that is answered otherwise.
fn other_front(alloc: Global, keep: &mut MemKeep, whole: &[u8], wanted: &[u8]) -> Option<usize> {
    for len in 0..whole.len() {
        if answer(alloc, keep, &whole[..len]).bytes() != wanted {
            return Some(len);
        }
    }
    None
}

#[test]
fn each_front_of_a_request_is_a_bad_one(rt: HostRuntime) -> Result<(), Fail> {
    let whole = request(rt.alloc(), "POST /orders", PLACE)?;
    let wanted = reply(rt.alloc(), "400 Bad Request", BAD_REQUEST)?;
    let other = other_front(rt.alloc(), &mut office(rt.alloc())?, &whole, &wanted);
    check(other.is_none(), "a front is answered otherwise")
}
