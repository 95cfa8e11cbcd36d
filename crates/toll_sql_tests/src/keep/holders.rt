//! The batch that holds a unit, in tables whose row for it is none of the office's: that is reported as
//! damage, and the unit is neither free nor held.
use crate::keep::offices::{TableKeep, empty_tables};
use crate::keep::rows::{batch, fill_all};
use crate::keep::tables::adopted;
use sqlite::{Connection, MemStore};
use std::alloc::Global;
use std::test::Fail;
use toll_keep::{CachedKeep, Keep, KeepFault};
use toll_sql::SqlKeep;
use toll_stories::{WITH_BATCH, WITH_RECIPE, check, check_said_over};

// Statements that leave a row of a batch on the unit that is no batch: a state and a number that there are
// none of, an order that has no name, an owner that has none; and one beside a batch that is one.
const BROKEN: [&str; 5] = [
    "UPDATE batches SET state = 12",
    "UPDATE batches SET number = 100",
    "UPDATE batches SET ord = 'in'",
    "UPDATE batches SET owner = ''",
    "INSERT INTO batches VALUES ('ACME', 'P', 1, 'U', 12, 0)",
];

// Fails if the holder of the unit isn't reported as damage.
fn check_broken(alloc: Global, statement: &str) -> Result<(), Fail> {
    let mut keep = SqlKeep::in_memory(alloc)?;
    fill_all(alloc, &mut keep)?;
    let mut conn = keep.into_connection();
    conn.execute(statement, &[])?;
    let reported = adopted(alloc, conn)?.holder(alloc, &batch()?.unit).err();
    check(reported == Some(KeepFault::Damaged), statement)
}

#[test]
fn a_row_that_is_no_batch_holds_no_unit(rt: HostRuntime) -> Result<(), Fail> {
    for statement in BROKEN {
        check_broken(rt.alloc(), statement)?;
    }
    Ok(())
}

// The batch of ACME on U1 has no state now.
fn without_state(alloc: Global, keep: TableKeep) -> Result<Connection<MemStore>, Fail> {
    let mut conn = keep.inside().into_connection();
    conn.execute("UPDATE batches SET state = 12", &[])?;
    Ok(conn)
}

const BOLT_IS_PLACED: &str = r#"
recipe-add BOLT R 1
> BOLT BOLTKEY1 POST /orders {"order":"O","recipe":"R","batches":1}
= 200 {"batches":1,"order":"O","recipe":"R","status":"open"}
"#;

const NEITHER_FREE_NOR_HELD: &str = r#"
open BOLT O U1
= fault Damaged
open BOLT O U1
= fault Closed
"#;

#[test]
fn a_batch_is_opened_on_no_unit_with_a_broken_row(rt: HostRuntime) -> Result<(), Fail> {
    let alloc = rt.alloc();
    let mut keep = empty_tables(alloc)?;
    check_said_over::<TableKeep>(alloc, &mut keep, &[WITH_RECIPE, WITH_BATCH, BOLT_IS_PLACED])?;
    let found = adopted(alloc, without_state(alloc, keep)?)?;
    check_said_over::<TableKeep>(
        alloc,
        &mut CachedKeep::new(alloc, found),
        &[NEITHER_FREE_NOR_HELD],
    )
}
