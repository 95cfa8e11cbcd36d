//! Runs of events, as bytes.
use crate::wire::lines::events_of;
use std::alloc::{AllocError, Global};
use std::test::Fail;
use toll_keep::MemKeep;
use toll_stories::check;
use toll_wire::{Answer, run_events};

const BY_THEMSELVES: &[&str] = &[
    "owner-add ACME ACMEKEY1",
    "material-add ACME M kg",
    "recipe-add ACME R 2",
    "receive ACME K1 M A S 10 1",
    "> ACME ACMEKEY1 POST /orders {\"order\":\"O\",\"recipe\":\"R\",\"batches\":1}",
    "> ACME ACMEKEY1 POST /lots/A/release",
    "> ACME ACMEKEY1 GET /stock",
    "> ACME ACMEKEY1 GET /trace/back/B",
    "> ACME ACMEKEY1 GET /nowhere",
    "> ACME ACMEKEY1 GET /orders",
];

// BOLT has an order and lots of the same names.
const BESIDE_BOLT: &[&str] = &[
    "owner-add BOLT BOLTKEY1",
    "owner-add ACME ACMEKEY1",
    "material-add BOLT M liter",
    "> BOLT BOLTKEY1 GET /stock",
    "material-add ACME M kg",
    "recipe-add BOLT R 1",
    "recipe-add ACME R 2",
    "receive BOLT K1 M A S 77 1",
    "receive ACME K1 M A S 10 1",
    "> BOLT BOLTKEY1 POST /orders {\"order\":\"O\",\"recipe\":\"R\",\"batches\":9}",
    "> ACME ACMEKEY1 POST /orders {\"order\":\"O\",\"recipe\":\"R\",\"batches\":1}",
    "> BOLT BOLTKEY1 POST /lots/A/reject",
    "> ACME ACMEKEY1 POST /lots/A/release",
    "receive BOLT K2 M B S 5 1",
    "> ACME ACMEKEY1 GET /stock",
    "> ACME ACMEKEY1 GET /trace/back/B",
    "> ACME ACMEKEY2 GET /nowhere",
    "> ACME ACMEKEY1 GET /nowhere",
    "> BOLT BOLTKEY1 POST /orders/O/cancel",
    "> ACME ACMEKEY1 GET /orders",
];

// The replies to the lines of ACME with its key, one after another.
fn told_to_acme(alloc: Global, lines: &[&str]) -> Result<Vec<u8>, AllocError> {
    let events = events_of(alloc, lines)?;
    let answers = run_events(alloc, &mut MemKeep::new(alloc), &events)?;
    let mut reported = Vec::new(alloc);
    for (line, answer) in lines.iter().zip(answers.iter()) {
        if let Answer::Bytes(out) = answer
            && line.starts_with("> ACME ACMEKEY1")
        {
            reported.extend_from_slice(out.bytes())?;
        }
    }
    Ok(reported)
}

#[test]
fn an_owner_gets_the_same_replies_beside_others(rt: HostRuntime) -> Result<(), Fail> {
    let reported = told_to_acme(rt.alloc(), BY_THEMSELVES)?;
    let beside = told_to_acme(rt.alloc(), BESIDE_BOLT)?;
    let is_same = reported.as_slice() == beside.as_slice();
    check(
        is_same && reported.starts_with(b"HTTP/1.1 200 OK\r\n"),
        "told otherwise",
    )
}
