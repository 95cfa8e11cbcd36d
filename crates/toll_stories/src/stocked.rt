//! An office with much in stock.
use crate::plant_cmd;
use std::alloc::{AllocError, Global};
use std::test::Fail;
use toll_base::{Amount, Day, Name};
use toll_desk::{PlantCmd, PlantReply, plant_do};
use toll_keep::Keep;

/// The numbers of its sublots, each of five digits.
const FIRST: u64 = 10_000;

const LAST: u64 = 23_000;

const WITH_MATERIAL: [&[&str]; 2] = [
    &["owner-add", "ACME", "ACMEKEY1"],
    &["material-add", "ACME", "M", "kg"],
];

// Fails if this command is not accepted.
fn accept<K: Keep>(alloc: Global, keep: &mut K, command: &PlantCmd) -> Result<(), Fail> {
    match plant_do(alloc, keep, command) {
        PlantReply::Accepted => Ok(()),
        _ => Err("not accepted".into()),
    }
}

// A receipt of the sublot with this number.
fn receipt(alloc: Global, number: u64) -> Result<PlantCmd, Fail> {
    let sublot = format!(in alloc; "S{number}")?;
    let sublot = Name::parse(sublot.as_bytes())?;
    Ok(PlantCmd::Receive {
        owner: Name::parse(b"ACME")?,
        key: sublot,
        material: Name::parse(b"M")?,
        lot: Name::parse(b"A")?,
        sublot,
        amount: Amount::new(1)?,
        day: Day::new(10)?,
    })
}

// Does the command that these words ask for.
fn accept_words<K: Keep>(alloc: Global, keep: &mut K, words: &[&str]) -> Result<(), Fail> {
    match plant_cmd(alloc, words)? {
        Some(command) => accept(alloc, keep, &command),
        None => Err("no command".into()),
    }
}

// Receives the sublot with this number.
fn accept_receipt<K: Keep>(alloc: Global, keep: &mut K, number: u64) -> Result<(), Fail> {
    let command = receipt(alloc, number)?;
    accept(alloc, keep, &command)
}

/// Fills an office without rows: its stock is a text of more than 1,048,576 bytes.
pub fn fill_stock<K: Keep>(alloc: Global, keep: &mut K) -> Result<(), Fail> {
    for words in WITH_MATERIAL {
        accept_words(alloc, keep, words)?;
    }
    for number in FIRST..LAST {
        accept_receipt(alloc, keep, number)?;
    }
    Ok(())
}

/// The text of its stock.
pub fn stock_text(alloc: Global) -> Result<String, AllocError> {
    let mut text = String::new(alloc);
    for number in FIRST..LAST {
        text.push_str("A                S")?;
        let line = format!(in alloc;
            "{number}           M                quarantined              1 kg\n"
        )?;
        text.push_str(line.as_str())?;
    }
    Ok(text)
}
