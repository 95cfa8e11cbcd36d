//! What scripts print.
use crate::tables::empty_tables;
use std::alloc::Global;
use std::test::Fail;
use toll_keep::{Keep, MemKeep};
use toll_programs::{ScriptEnd, script};
use toll_stories::text_of;

/// ACME with a recipe, a released lot and a batch that runs.
pub const BEGUN: (&str, &str) = (
    "owner-add ACME ACMEKEY1
owner-add BOLT BOLTKEY1
unit-add U1
material-add ACME M kg
material-add ACME P kg
recipe-add ACME R 2
require ACME R 1 consumed ACME M 100
require ACME R 1 produced ACME P 90
receive ACME K1 M A S1 100 10
> ACME ACMEKEY1 POST /orders {\"order\":\"O\",\"recipe\":\"R\",\"batches\":1}
> ACME ACMEKEY1 POST /lots/A/release
open ACME O U1
do ACME O 1 start
",
    "accepted
accepted
accepted
accepted
accepted
accepted
accepted
accepted
accepted
200 {\"batches\":1,\"order\":\"O\",\"recipe\":\"R\",\"status\":\"open\"}
200 {\"disposition\":\"released\",\"lot\":\"A\",\"material\":\"M\",\"measure\":\"kg\",\"origin\":\"receipts\",\"results\":[],\"sublots\":[{\"amount\":100,\"sublot\":\"S1\"}]}
accepted
accepted
",
);

/// Fails if one of these scripts, one after another over an empty keep, ends early or has another output:
/// over lists, and over the program's tables.
pub fn check_prints(alloc: Global, rows: &[(&str, &str)]) -> Result<(), Fail> {
    check_prints_over(alloc, &mut MemKeep::new(alloc), rows)?;
    check_prints_over(alloc, &mut empty_tables(alloc)?, rows)
}

/// The same over this keep.
pub fn check_prints_over<K: Keep>(
    alloc: Global,
    keep: &mut K,
    rows: &[(&str, &str)],
) -> Result<(), Fail> {
    for (text, wanted) in rows {
        check_print(alloc, keep, text, wanted)?;
    }
    Ok(())
}

/// How a script ends over this keep, and what it writes.
pub fn run<K: Keep>(alloc: Global, keep: &mut K, text: &[u8]) -> (ScriptEnd, Vec<u8>) {
    let mut input = text;
    let mut output = Vec::new(alloc);
    let end = script(alloc, &mut input, &mut output, keep);
    (end, output)
}

// Fails with the script's output, if that isn't the wanted one.
fn check_print<K: Keep>(alloc: Global, keep: &mut K, text: &str, wanted: &str) -> Result<(), Fail> {
    let (end, printed) = run(alloc, keep, text.as_bytes());
    let said = text_of(&printed);
    if end == ScriptEnd::Done && said == wanted {
        return Ok(());
    }
    Err(format!(in alloc; "{end:?} at {text}: {said}")?.into())
}
