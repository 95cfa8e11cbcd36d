//! Requests of different owners that are answered together.
use crate::wire::answers::{PLACE, PLACED};
use crate::wire::requests::keyed;
use std::alloc::{AllocError, Global};
use std::test::Fail;
use toll_keep::{Keep, KeepFault, MemKeep};
use toll_stories::{Refused, Refusing, check, check_chapter};
use toll_wire::{GroupEnd, OfficeRouter, answer, answer_together};

// ACME and BOLT, each with a recipe of its own.
const WITH_TWO_OWNERS: &str = r#"
owner-add ACME ACMEKEY1
owner-add BOLT BOLTKEY1
recipe-add ACME R-1 2
recipe-add BOLT R-1 2
"#;

const ACME: &str = "toll-owner: ACME\r\ntoll-key: ACMEKEY1\r\n";

const BOLT: &str = "toll-owner: BOLT\r\ntoll-key: BOLTKEY1\r\n";

const STRANGER: &str = "toll-owner: CARGO\r\ntoll-key: ACMEKEY1\r\n";

/// A request: method and target, fields, and body.
type Row = [&'static str; 3];

const GROUP: &[Row] = &[
    ["POST /orders", ACME, PLACE],
    ["GET /nowhere", STRANGER, ""],
    ["POST /orders", BOLT, PLACE],
    ["GET /orders", "", ""],
    ["GET /orders/O-1", ACME, ""],
    ["GET /orders", BOLT, ""],
];

// The first four are of four clients. The fifth is ACME's again.
const GROUP_LEN: usize = 4;

fn office(alloc: Global) -> Result<MemKeep, Fail> {
    let mut keep = MemKeep::new(alloc);
    check_chapter(alloc, &mut keep, WITH_TWO_OWNERS)?;
    Ok(keep)
}

fn requests(alloc: Global) -> Result<Vec<Vec<u8>>, AllocError> {
    let mut requests = Vec::with_capacity(alloc, GROUP.len())?;
    for row in GROUP {
        let [line, fields, body] = *row;
        requests.push(keyed(alloc, line, fields, body)?)?;
    }
    Ok(requests)
}

// Answers the requests that begin at this one together.
fn answer_group<K: Keep>(
    alloc: Global,
    keep: &mut K,
    requests: &[Vec<u8>],
) -> Result<GroupEnd, AllocError> {
    let mut texts = Vec::with_capacity(alloc, requests.len())?;
    for request in requests {
        texts.push(request.as_slice())?;
    }
    Ok(answer_together(alloc, &mut OfficeRouter::new(), keep, &texts))
}

// Fails if the replies are not those that the requests get one by one.
fn check_replies(alloc: Global, replies: &[Vec<u8>], requests: &[Vec<u8>]) -> Result<(), Fail> {
    let mut keep = office(alloc)?;
    for (reply, request) in replies.iter().zip(requests) {
        let out = answer(alloc, &mut keep, request);
        check(out.bytes() == reply.as_slice(), "another reply")?;
    }
    Ok(())
}

// Whether the first reply is that of the order.
fn is_placed(replies: &[Vec<u8>]) -> bool {
    match replies {
        [first, ..] => first.as_slice() == PLACED,
        [] => false,
    }
}

#[test]
fn different_owners_are_answered_together(rt: HostRuntime) -> Result<(), Fail> {
    let requests = requests(rt.alloc())?;
    let mut keep = office(rt.alloc())?;
    let GroupEnd::Done(replies) = answer_group(rt.alloc(), &mut keep, &requests)? else {
        return Err("the group has no replies".into());
    };
    check(replies.len() == GROUP_LEN, "another group")?;
    check(is_placed(&replies), "no order")?;
    check_replies(rt.alloc(), &replies, &requests)
}

#[test]
fn a_group_sees_what_the_one_before_it_changed(rt: HostRuntime) -> Result<(), Fail> {
    let requests = requests(rt.alloc())?;
    let mut keep = office(rt.alloc())?;
    let _replies = answer_group(rt.alloc(), &mut keep, &requests)?;
    let Some(rest) = requests.get(GROUP_LEN..) else {
        return Err("no requests are left".into());
    };
    let GroupEnd::Done(later) = answer_group(rt.alloc(), &mut keep, rest)? else {
        return Err("the rest has no replies".into());
    };
    check(is_placed(&later), "the order is not there")
}

#[test]
fn a_group_that_is_not_kept_is_not_answered(rt: HostRuntime) -> Result<(), Fail> {
    let requests = requests(rt.alloc())?;
    let mut keep = Refusing::new(office(rt.alloc())?, Refused::Apply);
    let refused = answer_group(rt.alloc(), &mut keep, &requests)?;
    let is_refused = match refused {
        GroupEnd::Refused { count, fault } => count == GROUP_LEN && fault == KeepFault::Memory,
        _ => false,
    };
    check(is_refused, "the group is not refused")?;
    let GroupEnd::Done(replies) = answer_group(rt.alloc(), &mut keep, &requests)? else {
        return Err("the group has no replies".into());
    };
    check_replies(rt.alloc(), &replies, &requests)
}
