//! A keep that is asked at both doors, and clients that ask it side by side.
mod fake_network;
mod given_up;
mod imports;
mod known_opener;
mod long;
mod services;

use crate::served::fake_network::{FakeNetwork, Log};
use std::alloc::{AllocError, Global};
use toll_keep::{Keep, KeepFault, MemKeep};
use toll_protocol::Response;
use toll_server::{Listener, Poll, RequestBuffer, ServingEnd};
use toll_service::{KeepService, TurnResult, answer_at, serve_keep};
use toll_stories::{Refused, Refusing};
use toll_wire::OfficeRouter;

/// The listener at which a client comes, what it asks, and the reply to it.
#[derive(Clone, Copy)]
struct Client<'a> {
    listener: Listener,
    bytes: &'a [u8],
    expected: &'a [u8],
}

const ADD_OWNER: Client<'static> = Client {
    listener: Listener::Plant,
    bytes: b"\0\0\0\x1c\0\0\0\x18owner-add\0ACME\0ACMEKEY1\0",
    expected: b"\0\0\0\x0e\0\0\0\0\x09accepted\n",
};

const ADD_RECIPE: Client<'static> = Client {
    listener: Listener::Plant,
    bytes: b"\0\0\0\x1a\0\0\0\x16recipe-add\0ACME\0R-1\02\0",
    expected: b"\0\0\0\x0e\0\0\0\0\x09accepted\n",
};

const ADD_AGAIN: Client<'static> = Client {
    listener: Listener::Plant,
    bytes: b"\0\0\0\x1c\0\0\0\x18owner-add\0ACME\0ACMEKEY1\0",
    expected: b"\0\0\0\x1b\x01\0\0\0\x16refused 4 OwnerExists\n",
};

const PLACE: Client<'static> = Client {
    listener: Listener::Owners,
    bytes: b"POST /orders HTTP/1.1\r\nhost: a\r\ntoll-owner: ACME\r\ntoll-key: ACMEKEY1\r\ncontent-length: 42\r\n\r\n{\"order\":\"O-1\",\"recipe\":\"R-1\",\"batches\":2}",
    expected: b"HTTP/1.1 200 OK\r\ncontent-type: application/json\r\ncontent-length: 58\r\nconnection: close\r\n\r\n{\"batches\":2,\"order\":\"O-1\",\"recipe\":\"R-1\",\"status\":\"open\"}",
};

const IMPORT: Client<'static> = Client {
    listener: Listener::Plant,
    bytes: b"\0\0\0\x82\0\0\0\x07import\0\x01key,owner,order,batch,segment,use,material,lot_owner,lot,sublot,amount,day\nK2,NOBODY,O,1,1,consumed,M,ACME,A,S1,40,11\n",
    expected: b"\0\0\0Q\x01\0\0\0L     1 refused 3 UnknownOwner\naccepted 0 repeated 0 refused 1 bad 0 fault 0\n",
};

const BAD_IMPORT: Client<'static> = Client {
    listener: Listener::Plant,
    bytes: b"\0\0\0\x1b\0\0\0\rimport\0a.csv\0\x01no header",
    expected: b"\0\0\0\x10\x02\0\0\0\0bad header\n",
};

const LIST: Client<'static> = Client {
    listener: Listener::Owners,
    bytes: b"GET /orders HTTP/1.1\r\nhost: a\r\ntoll-owner: ACME\r\ntoll-key: ACMEKEY1\r\ncontent-length: 0\r\n\r\n",
    expected: b"HTTP/1.1 200 OK\r\ncontent-type: application/json\r\ncontent-length: 71\r\nconnection: close\r\n\r\n{\"orders\":[{\"batches\":2,\"order\":\"O-1\",\"recipe\":\"R-1\",\"status\":\"open\"}]}",
};

/// Words that are no command, in a frame, and a front of one that would be.
const NO_COMMAND: &[u8] = b"\0\0\0\x09\0\0\0\x05frob\0";

const CUT: &[u8] = b"\0\0\0\x1c\0\0\0\x18owner-add\0BOLT\0BOLT";

/// The response to the plant if a change had no memory.
const NO_MEMORY: &[u8] = b"\0\0\0\x12\x03\0\0\0\0fault Memory\n";

/// More turns than anything takes that is asked here.
const MOST_TURNS: usize = 4;

const VISITS: &[Client<'static>] = &[
    ADD_OWNER, ADD_RECIPE, ADD_AGAIN, PLACE, IMPORT, BAD_IMPORT, LIST,
];

// What is there before the clients that come together and take turns, the plant and the owner.
const SETUP: &[Client<'static>] = &[ADD_OWNER, ADD_RECIPE];

const SIDE_BY_SIDE: &[Client<'static>] = &[ADD_AGAIN, PLACE, IMPORT, BAD_IMPORT, LIST];

// The outcome of one more turn, if an import is left.
fn resume<K: Keep>(alloc: Global, keep: &mut K, reply: TurnResult) -> TurnResult {
    let TurnResult { poll, fault } = reply;
    match poll {
        Poll::Pending(importing) => importing.resume(alloc, keep),
        Poll::Ready(bytes) => TurnResult {
            poll: Poll::Ready(bytes),
            fault,
        },
    }
}

// The request that has come if a client sent these bytes, and no more.
fn received(alloc: Global, listener: Listener, bytes: &[u8]) -> Result<RequestBuffer, AllocError> {
    let mut request = RequestBuffer::new(alloc, listener)?;
    let mut unread = bytes;
    let _ = request.read_on(&mut unread);
    Ok(request)
}

// The answer by a router of its own.
fn answer_alone<K: Keep>(
    alloc: Global,
    keep: &mut K,
    listener: Listener,
    requested: &[u8],
) -> Result<TurnResult, AllocError> {
    let request = received(alloc, listener, requested)?;
    answer_at(alloc, &mut OfficeRouter::new(), keep, &request)
}

// The answer to what comes so, with all turns that it takes.
fn answer_whole<K: Keep>(
    alloc: Global,
    keep: &mut K,
    listener: Listener,
    requested: &[u8],
) -> Result<TurnResult, AllocError> {
    let mut reply = answer_alone(alloc, keep, listener, requested)?;
    for _ in 0..MOST_TURNS {
        reply = resume(alloc, keep, reply);
    }
    Ok(reply)
}

// The exit status in the response.
fn status_of(reply: &TurnResult) -> Option<u8> {
    match &reply.poll {
        Poll::Ready(bytes) => Response::read(bytes).map(|reported| reported.status),
        Poll::Pending(_) => None,
    }
}

// Whether this is the response, and the fault that was met.
fn tells(reply: &TurnResult, reported: &[u8], fault: Option<KeepFault>) -> bool {
    match &reply.poll {
        Poll::Ready(bytes) => bytes.as_slice() == reported && reply.fault == fault,
        Poll::Pending(_) => false,
    }
}

// Whether the response to this client is exactly this, and the fault that was met.
fn is_expected<K: Keep>(
    alloc: Global,
    keep: &mut K,
    visit: &Client<'_>,
    fault: Option<KeepFault>,
) -> Result<bool, AllocError> {
    let reply = answer_whole(alloc, keep, visit.listener, visit.bytes)?;
    Ok(tells(&reply, visit.expected, fault))
}

#[test]
fn each_listener_replies_as_the_program_would(rt: HostRuntime) -> Result<(), AllocError> {
    let mut keep = MemKeep::new(rt.alloc());
    for visit in VISITS {
        let is_right = is_expected(rt.alloc(), &mut keep, visit, None)?;
        assert!(rt; is_right, "at {:?}", visit.bytes);
    }
    Ok(())
}

#[test]
fn clients_side_by_side_get_their_own_replies(rt: HostRuntime) -> Result<(), AllocError> {
    let mut keep = MemKeep::new(rt.alloc());
    for visit in SETUP {
        let is_right = is_expected(rt.alloc(), &mut keep, visit, None)?;
        assert!(rt; is_right, "at {:?}", visit.bytes);
    }
    let mut office = KeepService::new(keep);
    let log = Log::new();
    let served = serve_keep(
        rt.alloc(),
        &mut FakeNetwork::new(SIDE_BY_SIDE, &log),
        &mut office,
        2,
    );
    assert_eq!(rt; served, ServingEnd::All);
    assert_eq!(rt; log.replied.get(), SIDE_BY_SIDE.len());
    let placed = is_expected(rt.alloc(), &mut office.keep, &LIST, None)?;
    assert!(rt; placed);
    Ok(())
}

#[test]
fn a_frame_that_was_cut_does_nothing(rt: HostRuntime) -> Result<(), AllocError> {
    let mut keep = MemKeep::new(rt.alloc());
    let reply = answer_alone(rt.alloc(), &mut keep, Listener::Plant, CUT)?;
    assert!(rt; tells(&reply, b"", None));
    let reply = answer_alone(rt.alloc(), &mut keep, Listener::Plant, NO_COMMAND)?;
    assert_eq!(rt; status_of(&reply), Some(2));
    Ok(())
}

#[test]
fn after_a_fault_the_keep_is_left(rt: HostRuntime) -> Result<(), AllocError> {
    let mut keep = Refusing::new(MemKeep::new(rt.alloc()), Refused::Apply);
    let refused = Client {
        expected: NO_MEMORY,
        ..ADD_OWNER
    };
    let met = Some(KeepFault::Memory);
    let is_right = is_expected(rt.alloc(), &mut keep, &refused, met)?;
    assert!(rt; is_right);
    let is_right = is_expected(rt.alloc(), &mut keep, &ADD_OWNER, None)?;
    assert!(rt; is_right);
    Ok(())
}
