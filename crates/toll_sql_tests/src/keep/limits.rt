//! How many lots and movements an owner may have.
use crate::keep::offices::empty_tables;
use std::alloc::Global;
use std::test::Fail;
use toll_base::{Amount, Day, Name};
use toll_desk::{PlantCmd, plant_do};
use toll_keep::Keep;
use toll_stories::{WITH_RECIPE, check_said_over, plant_said};

// A receipt with this number in its key, into this lot. It is no line, because reading a line takes most of
// the time of many receipts.
fn receipt(alloc: Global, number: u64, lot: Name) -> Result<PlantCmd, Fail> {
    let key = format!(in alloc; "K{number}")?;
    Ok(PlantCmd::Receive {
        owner: Name::parse(b"ACME")?,
        key: Name::parse(key.as_bytes())?,
        material: Name::parse(b"M")?,
        lot,
        sublot: Name::parse(b"S1")?,
        amount: Amount::new(1)?,
        day: Day::new(10)?,
    })
}

// The lot with this number.
fn lot_of(alloc: Global, number: u64) -> Result<Name, Fail> {
    let lot = format!(in alloc; "L{number}")?;
    Ok(Name::parse(lot.as_bytes())?)
}

// The answer to the receipt with this number into this lot.
fn receive<K: Keep>(alloc: Global, keep: &mut K, number: u64, lot: Name) -> Result<String, Fail> {
    let command = receipt(alloc, number, lot)?;
    Ok(plant_said(alloc, &plant_do(alloc, keep, &command))?)
}

// The answer to the last of this many receipts, each into a lot of its own if they are spread.
fn receive_all<K: Keep>(
    alloc: Global,
    keep: &mut K,
    most: u64,
    are_spread: bool,
) -> Result<String, Fail> {
    let mut said = String::new(alloc);
    for number in 0..most {
        let lot = lot_of(alloc, if are_spread { number } else { 0 })?;
        said = receive(alloc, keep, number, lot)?;
    }
    Ok(said)
}

const ONE_LOT_MORE: &str = r#"
receive ACME K M L5000 S1 1 10
= refused LimitReached
receive ACME K M L0 S1 1 10
"#;

#[test]
fn an_owner_has_5000_lots(rt: HostRuntime) -> Result<(), Fail> {
    let mut keep = empty_tables(rt.alloc())?;
    check_said_over(rt.alloc(), &mut keep, &[WITH_RECIPE])?;
    let last = receive_all(rt.alloc(), &mut keep, 5_000, true)?;
    assert!(rt; last.as_str() == "accepted", "{last}");
    check_said_over(rt.alloc(), &mut keep, &[ONE_LOT_MORE])
}

const ONE_MOVEMENT_MORE: &str = r#"
receive ACME K M L0 S1 1 10
= refused LimitReached
receive ACME K19999 M L0 S1 1 10
= repeated
"#;

#[test]
fn an_owner_has_20000_movements(rt: HostRuntime) -> Result<(), Fail> {
    let mut keep = empty_tables(rt.alloc())?;
    check_said_over(rt.alloc(), &mut keep, &[WITH_RECIPE])?;
    let last = receive_all(rt.alloc(), &mut keep, 20_000, false)?;
    assert!(rt; last.as_str() == "accepted", "{last}");
    check_said_over(rt.alloc(), &mut keep, &[ONE_MOVEMENT_MORE])
}
