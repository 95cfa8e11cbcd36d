//! Stories of how many rows there may be.
use std::alloc::{AllocError, Global};
use std::test::Fail;
use toll_keep::MemKeep;
use toll_stories::{WITH_BATCH, WITH_RECIPE, check, check_said_over, say};

// The pieces, with the number between them.
fn line_of(alloc: Global, pieces: &[&str], number: u64) -> Result<String, AllocError> {
    let mut line = String::new(alloc);
    let [first, rest @ ..] = pieces else {
        return Ok(line);
    };
    line.push_str(first)?;
    for piece in rest {
        line.push_str(&format!(in alloc; "{number}{piece}")?)?;
    }
    Ok(line)
}

// How many of the numbers from 0 are accepted between these pieces, and what is said to the next.
fn fill(alloc: Global, keep: &mut MemKeep, pieces: &[&str]) -> Result<String, AllocError> {
    for number in 0..100_000 {
        let line = line_of(alloc, pieces, number)?;
        let said = say(alloc, keep, &line)?;
        if said.as_str() != "accepted" {
            return format!(in alloc; "{number}, {said}");
        }
    }
    format!(in alloc; "all")
}

// Fails if another number of them is accepted, or the next has another answer.
fn check_filled(
    alloc: Global,
    keep: &mut MemKeep,
    pieces: &[&str],
    wanted: &str,
) -> Result<(), Fail> {
    let filled = fill(alloc, keep, pieces)?;
    if filled.as_str() == wanted {
        return Ok(());
    }
    Err(filled.into())
}

#[test]
fn there_are_64_owners_at_most(rt: HostRuntime) -> Result<(), Fail> {
    let mut keep = MemKeep::new(rt.alloc());
    check_filled(
        rt.alloc(),
        &mut keep,
        &["owner-add W-", " OWNERKEY1"],
        "64, refused LimitReached",
    )
}

#[test]
fn there_are_200_units_at_most(rt: HostRuntime) -> Result<(), Fail> {
    let mut keep = MemKeep::new(rt.alloc());
    check_filled(
        rt.alloc(),
        &mut keep,
        &["unit-add U-", ""],
        "200, refused LimitReached",
    )
}

// Says it with each number from 1 to 99, which is accepted.
fn check_each(alloc: Global, keep: &mut MemKeep, pieces: &[&str]) -> Result<(), Fail> {
    for number in 1..100 {
        let line = line_of(alloc, pieces, number)?;
        let said = say(alloc, keep, &line)?;
        check(said.as_str() == "accepted", &line)?;
    }
    Ok(())
}

const WITH_99_BATCHES: &str = r#"
> ACME ACMEKEY1 POST /orders {"order":"O","recipe":"R","batches":99}
= 200 {"batches":99,"order":"O","recipe":"R","status":"open"}
"#;

// What is said to each batch on its way from open to closed.
const UP_TO_CLOSED: &[&[&str]] = &[
    &["do ACME O ", " start"],
    &["do ACME O ", " done"],
    &["close ACME O ", ""],
];

const NO_BATCH_MORE: &str = r#"
close ACME O 99
= refused BatchClosed
open ACME O U-0
= refused NoMoreBatches
open ACME O U-9999
= refused NoMoreBatches
"#;

#[test]
fn an_order_has_its_batches_and_no_more(rt: HostRuntime) -> Result<(), Fail> {
    let mut keep = MemKeep::new(rt.alloc());
    check_said_over(rt.alloc(), &mut keep, &[WITH_RECIPE, WITH_99_BATCHES])?;
    check_filled(
        rt.alloc(),
        &mut keep,
        &["unit-add U-", ""],
        "199, refused LimitReached",
    )?;
    check_filled(
        rt.alloc(),
        &mut keep,
        &["open ACME O U-", ""],
        "99, refused NoMoreBatches",
    )?;
    for pieces in UP_TO_CLOSED {
        check_each(rt.alloc(), &mut keep, pieces)?;
    }
    check_said_over(rt.alloc(), &mut keep, &[NO_BATCH_MORE])
}

// A voided actual counts as before.
const VOIDED: &str = r#"
void ACME N7
actual N200 ACME O 1 1 produced P ACME P1 S1 1 11
= refused LimitReached
actual N8 ACME O 1 1 produced P ACME P1 S1 1 11
= repeated
batch ACME O 1
: O/1 running U1 open
:  1 consumed ACME             M                       100              0
:  1 produced ACME             P                        90            199
"#;

#[test]
fn a_batch_has_200_actuals(rt: HostRuntime) -> Result<(), Fail> {
    let mut keep = MemKeep::new(rt.alloc());
    check_said_over(rt.alloc(), &mut keep, &[WITH_RECIPE, WITH_BATCH])?;
    check_filled(
        rt.alloc(),
        &mut keep,
        &["actual N", " ACME O 1 1 produced P ACME P1 S1 1 11"],
        "200, refused LimitReached",
    )?;
    check_said_over(rt.alloc(), &mut keep, &[VOIDED])
}
