//! Imports in turns, with others in between.
use crate::served::fake_network::{FakeNetwork, Log};
use crate::served::{
    ADD_OWNER, ADD_RECIPE, Client, LIST, PLACE, answer_alone, is_expected, resume, tells,
};
use std::alloc::{AllocError, Global};
use std::test::Fail;
use toll_keep::{Keep, KeepFault, MemKeep};
use toll_plant::GROUP_RECORDS;
use toll_protocol::{Call, EncodeFault, Response};
use toll_server::{Listener, ServingEnd};
use toll_service::{KeepService, serve_keep};
use toll_stories::{Refused, Refusing};

const HEADER: &str = "key,owner,order,batch,segment,use,material,lot_owner,lot,sublot,amount,day\n";

const RECORD: &str = "K2,ACME,O-1,1,1,consumed,M,ACME,A,S1,40,11\n";

/// Those of two groups, and one more.
const RECORDS: usize = 2 * GROUP_RECORDS + 1;

/// The requests after each of the first two groups, which change the outcomes of the records after it.
const BETWEEN: [&[Client<'static>]; 2] = [&[ADD_OWNER], &[ADD_RECIPE, PLACE]];

/// What asks for the import of the records.
pub fn import_of_records(alloc: Global) -> Result<Vec<u8>, EncodeFault> {
    let mut file = String::from_str(alloc, HEADER)?;
    for _ in 0..RECORDS {
        file.push_str(RECORD)?;
    }
    Call::encode(alloc, &["import"], Some(file.as_bytes()))
}

/// What is printed of this import, if this many records after these have that outcome.
pub fn push_lines(
    alloc: Global,
    text: &mut String,
    first: usize,
    count: usize,
    outcome: &str,
) -> Result<(), AllocError> {
    for i in 0..count {
        let number = first.saturating_add(i);
        let line = format!(in alloc; "{number:>6} {outcome}\n")?;
        text.push_str(line.as_str())?;
    }
    Ok(())
}

// The response to the plant if this was printed.
fn reported(alloc: Global, status: u8, text: &str) -> Result<Vec<u8>, EncodeFault> {
    let reported = Response {
        status,
        output: text.as_bytes(),
        error: b"",
    };
    reported.encode(alloc)
}

// The response to the plant if others asked in between.
fn told_with_others(alloc: Global) -> Result<Vec<u8>, EncodeFault> {
    let mut text = String::new(alloc);
    push_lines(alloc, &mut text, 1, GROUP_RECORDS, "refused 3 UnknownOwner")?;
    push_lines(
        alloc,
        &mut text,
        501,
        GROUP_RECORDS,
        "refused 18 UnknownOrder",
    )?;
    push_lines(alloc, &mut text, 1001, 1, "refused 22 UnknownBatch")?;
    text.push_str("accepted 0 repeated 0 refused 1001 bad 0 fault 0\n")?;
    reported(alloc, 1, text.as_str())
}

// The response to the plant if the second group met a fault.
fn told_with_a_fault(alloc: Global) -> Result<Vec<u8>, EncodeFault> {
    let mut text = String::new(alloc);
    push_lines(alloc, &mut text, 1, GROUP_RECORDS, "refused 3 UnknownOwner")?;
    push_lines(alloc, &mut text, 501, 1, "fault Memory")?;
    text.push_str("accepted 0 repeated 0 refused 500 bad 0 fault 1\n")?;
    reported(alloc, 3, text.as_str())
}

// Whether all of these clients have the replies that they should have.
fn are_told<K: Keep>(
    alloc: Global,
    keep: &mut K,
    visits: &[Client<'static>],
) -> Result<bool, AllocError> {
    for visit in visits {
        if !is_expected(alloc, keep, visit, None)? {
            return Ok(false);
        }
    }
    Ok(true)
}

#[test]
fn each_group_finds_what_was_done_before_it(rt: HostRuntime) -> Result<(), Fail> {
    let mut keep = MemKeep::new(rt.alloc());
    let requested = import_of_records(rt.alloc())?;
    let mut reply = answer_alone(rt.alloc(), &mut keep, Listener::Plant, &requested)?;
    for visits in BETWEEN {
        reply = resume(rt.alloc(), &mut keep, reply);
        let are_told = are_told(rt.alloc(), &mut keep, visits)?;
        assert!(rt; are_told);
    }
    let reply = resume(rt.alloc(), &mut keep, reply);
    let wanted = told_with_others(rt.alloc())?;
    assert!(rt; tells(&reply, &wanted, None));
    Ok(())
}

#[test]
fn behind_a_fault_no_group_acts(rt: HostRuntime) -> Result<(), Fail> {
    let mut keep = MemKeep::new(rt.alloc());
    let requested = import_of_records(rt.alloc())?;
    let reply = answer_alone(rt.alloc(), &mut keep, Listener::Plant, &requested)?;
    let reply = resume(rt.alloc(), &mut keep, reply);
    let mut keep = Refusing::new(keep, Refused::Behind(0));
    let reply = resume(rt.alloc(), &mut keep, reply);
    let wanted = told_with_a_fault(rt.alloc())?;
    assert!(rt; tells(&reply, &wanted, Some(KeepFault::Memory)));
    Ok(())
}

// The response if a batch's order is known, and the batch is not.
fn told_of_a_batch(alloc: Global) -> Result<Vec<u8>, EncodeFault> {
    let mut text = String::new(alloc);
    push_lines(alloc, &mut text, 1, RECORDS, "refused 22 UnknownBatch")?;
    text.push_str("accepted 0 repeated 0 refused 1001 bad 0 fault 0\n")?;
    reported(alloc, 1, text.as_str())
}

#[test]
fn owners_are_answered_before_an_import_is_over(rt: HostRuntime) -> Result<(), Fail> {
    let requested = import_of_records(rt.alloc())?;
    let reported = told_of_a_batch(rt.alloc())?;
    let import = Client {
        listener: Listener::Plant,
        bytes: &requested,
        expected: &reported,
    };
    let mut keep = MemKeep::new(rt.alloc());
    let is_ready = are_told(rt.alloc(), &mut keep, &[ADD_OWNER, ADD_RECIPE])?;
    assert!(rt; is_ready);
    let visits = [import, PLACE, LIST];
    let mut office = KeepService::new(keep);
    let log = Log::new();
    let served = serve_keep(
        rt.alloc(),
        &mut FakeNetwork::new(&visits, &log),
        &mut office,
        2,
    );
    assert_eq!(rt; served, ServingEnd::All);
    assert_eq!(rt; log.replied.get(), visits.len());
    assert_eq!(rt; log.last.get(), Some(Listener::Plant));
    Ok(())
}
