//! Many receipts with ample memory, each followed by a look at the stock.
use crate::{WITH_BATCH, WITH_RECIPE, check_said_over, say};
use std::alloc::{AllocError, Global};
use std::test::Fail;
use toll_keep::Keep;

const RECEIPTS: u64 = 300;

// What is said to the receipt with this number.
fn receive<K: Keep>(alloc: Global, keep: &mut K, number: u64) -> Result<String, AllocError> {
    let line = format!(in alloc; "receive ACME Z-{number} M Z S 1 12")?;
    say(alloc, keep, line.as_str())
}

// The stock once so many of them came, one of each.
fn stock_with(alloc: Global, amount: u64) -> Result<String, AllocError> {
    let lot = "\"disposition\":\"quarantined\",\"lot\":\"Z\",\"material\":\"M\",\"measure\":\"kg\"";
    format!(in alloc;
        "200 {{\"lots\":[{{\"amount\":100,\"disposition\":\"released\",\"lot\":\"A\",\"material\":\"M\",\"measure\":\"kg\"}},{{\"amount\":{amount},{lot}}}]}}"
    )
}

// Fails if the receipt with this number is not accepted, or the stock after it is another one.
fn check_receipt<K: Keep>(alloc: Global, keep: &mut K, number: u64) -> Result<(), Fail> {
    let said = receive(alloc, keep, number)?;
    let stock = say(alloc, keep, "> ACME ACMEKEY1 GET /stock")?;
    if said.as_str() == "accepted" && stock == stock_with(alloc, number)? {
        return Ok(());
    }
    Err(format!(in alloc; "{number}: {said}, {stock}")?.into())
}

/// Fails if one of 300 receipts is not accepted, or the stock after it is another one.
pub fn check_receipts<K: Keep>(alloc: Global, keep: &mut K) -> Result<(), Fail> {
    check_said_over(alloc, keep, &[WITH_RECIPE, WITH_BATCH])?;
    for number in 1..RECEIPTS + 1 {
        check_receipt(alloc, keep, number)?;
    }
    Ok(())
}
