//! Rows in SQLite: the same as those in memory, found again, and never taken as true if they are damaged.
use crate::keep::checks::{check_all, check_counts};
use crate::keep::rows::{acme, batch, fill, fill_all};
use sqlite::{Connection, MemStore};
use std::alloc::Global;
use std::test::Fail;
use toll_keep::{CachedKeep, Keep, KeepFault};
use toll_sql::{OpenFault, SqlKeep};
use toll_stories::check;

fn filled(alloc: Global) -> Result<SqlKeep<MemStore>, Fail> {
    let mut keep = SqlKeep::in_memory(alloc)?;
    fill_all(alloc, &mut keep)?;
    Ok(keep)
}

/// The keep that is found in the store.
pub(crate) fn adopted(
    alloc: Global,
    conn: Connection<MemStore>,
) -> Result<SqlKeep<MemStore>, Fail> {
    match SqlKeep::adopt(alloc, conn) {
        Ok(keep) => Ok(keep),
        Err((fault, _)) => Err(fault.into()),
    }
}

#[test]
fn tables_are_reported_as_lists_are(rt: HostRuntime) -> Result<(), Fail> {
    check_all(rt.alloc(), &mut filled(rt.alloc())?)
}

#[test]
fn tables_are_reported_by_a_cached_keep(rt: HostRuntime) -> Result<(), Fail> {
    check_all(
        rt.alloc(),
        &mut CachedKeep::new(rt.alloc(), filled(rt.alloc())?),
    )
}

#[test]
fn tables_are_made_once(rt: HostRuntime) -> Result<(), Fail> {
    let conn = filled(rt.alloc())?.into_connection();
    let Some((fault, conn)) = SqlKeep::create(conn).err() else {
        return Err("made over tables".into());
    };
    check(fault == OpenFault::NotOurs, "refused otherwise")?;
    check_all(rt.alloc(), &mut adopted(rt.alloc(), conn)?)
}

/// The number that the statement reads.
pub(crate) fn number(conn: &mut Connection<MemStore>, statement: &str) -> Result<i64, Fail> {
    let row = conn.query_row(statement, &[])?;
    Ok(row.get(0)?)
}

/// Fails if a store isn't refused for this reason after this statement.
pub(crate) fn check_refused(
    alloc: Global,
    mut conn: Connection<MemStore>,
    statement: &str,
    wanted: OpenFault,
) -> Result<(), Fail> {
    conn.execute(statement, &[])?;
    match SqlKeep::adopt(alloc, conn) {
        Err((fault, _)) if fault == wanted => Ok(()),
        _ => Err(statement.into()),
    }
}

#[test]
fn a_store_of_others_is_not_ours(rt: HostRuntime) -> Result<(), Fail> {
    let foreign = Connection::open_in_memory(rt.alloc())?;
    let statement = "CREATE TABLE notes (note TEXT)";
    check_refused(rt.alloc(), foreign, statement, OpenFault::NotOurs)
}

// Statements after which the office's own store is refused: it has another version or none, lacks a table, or
// has a table or an index that touches the office's rows.
const REFUSED: [(&str, OpenFault); 7] = [
    ("UPDATE meta SET value = 3", OpenFault::NotOurs),
    ("DELETE FROM meta", OpenFault::NotOurs),
    ("UPDATE meta SET value = 1", OpenFault::Damaged),
    ("DROP TABLE voids", OpenFault::Damaged),
    ("DROP TABLE results", OpenFault::Damaged),
    (
        "CREATE TABLE notes (lot TEXT, owner TEXT REFERENCES owners (owner))",
        OpenFault::Damaged,
    ),
    (
        "CREATE UNIQUE INDEX lots_apart ON lots (lot)",
        OpenFault::Damaged,
    ),
];

#[test]
fn what_touches_the_tables_is_damage(rt: HostRuntime) -> Result<(), Fail> {
    for (statement, fault) in &REFUSED {
        let conn = filled(rt.alloc())?.into_connection();
        check_refused(rt.alloc(), conn, statement, *fault)?;
    }
    Ok(())
}

// Statements that make what is no harm to the office's rows, and a query that counts what stays of it.
const OTHERS: [(&str, &str, i64); 6] = [
    (
        "CREATE TABLE notes (owner TEXT, note TEXT UNIQUE)",
        "SELECT COUNT(*) FROM notes",
        0,
    ),
    (
        "CREATE VIEW held AS SELECT owner, sum(amount) FROM sublots GROUP BY owner",
        "SELECT COUNT(*) FROM held",
        0,
    ),
    (
        "CREATE INDEX moves_by_lot ON moves (lot_owner, lot)",
        "SELECT COUNT(*) FROM sqlite_schema WHERE name = 'moves_by_lot'",
        1,
    ),
    (
        "CREATE TABLE notes (note TEXT); CREATE INDEX lots_by_material ON lots (material); CREATE VIEW owned AS SELECT owner FROM owners",
        "SELECT COUNT(*) FROM owned",
        1,
    ),
    (
        "CREATE TABLE notes (note TEXT); INSERT INTO notes VALUES ('a'), ('b')",
        "SELECT COUNT(*) FROM notes",
        2,
    ),
    (
        "CREATE INDEX moves_by_batch ON moves (owner, ord, number, kind)",
        "SELECT COUNT(*) FROM sqlite_schema WHERE type = 'index' AND name = 'moves_by_batch'",
        1,
    ),
];

// Fails if the store isn't adopted with its rows after these statements, takes no more, or loses what isn't
// the office's.
fn check_adopted(alloc: Global, statements: &str, query: &str, count: i64) -> Result<(), Fail> {
    let mut keep = adopted(alloc, damaged(alloc, statements)?)?;
    fill(alloc, &mut keep, &acme()?.owner, batch()?)?;
    check_all(alloc, &mut keep)?;
    let kept = number(&mut keep.into_connection(), query)?;
    check(kept == count, query)
}

#[test]
fn what_others_made_beside_the_tables_is_let_be(rt: HostRuntime) -> Result<(), Fail> {
    for (statements, query, count) in &OTHERS {
        check_adopted(rt.alloc(), statements, query, *count)?;
    }
    Ok(())
}

// Statements that leave rows which must not be taken as true.
const DAMAGES: [&str; 11] = [
    "UPDATE batches SET state = 12",
    "UPDATE batches SET closed = 2",
    "UPDATE moves SET amount = -1",
    "UPDATE moves SET lot = 'in'",
    "UPDATE moves SET kind = 9",
    "INSERT INTO lots VALUES ('ACME', 'A', 'M', '', 0, 0)",
    "INSERT INTO orders VALUES ('ACME', 'O-1', 'R', 100, 0)",
    "INSERT INTO materials VALUES ('ACME', 'm', 'kg')",
    "INSERT INTO materials VALUES ('ACME', 'M', 'kg'); INSERT INTO lots VALUES ('ACME', 'A', 'M', '', 0, 3)",
    "INSERT INTO materials VALUES ('ACME', 'M', 'kg'); INSERT INTO lots VALUES ('ACME', 'A', 'M', '', 0, 2); INSERT INTO sublots VALUES ('ACME', 'A', 'S', -1)",
    "INSERT INTO moves WITH RECURSIVE n (i) AS (SELECT 1 UNION ALL SELECT i + 1 FROM n WHERE i < 19999) SELECT 'ACME', 'N' || i, 0, 'ACME', 'A', 'S', '', 'M', '', 0, 0, 1, 0 FROM n",
];

// Statements that leave rows which are just within the bounds, with 20,000 movements.
const BOUNDS: &str =
    "INSERT INTO materials VALUES ('ACME', 'M', 'kg'); INSERT INTO lots VALUES ('ACME', 'A', 'M', '', 0, 2); INSERT INTO sublots VALUES ('ACME', 'A', 'S', 0); INSERT INTO moves WITH RECURSIVE n (i) AS (SELECT 1 UNION ALL SELECT i + 1 FROM n WHERE i < 19998) SELECT 'ACME', 'N' || i, 0, 'ACME', 'A', 'S', '', 'M', '', 0, 0, 1, 0 FROM n";

// A store in which these statements ran after the rows were put.
fn damaged(alloc: Global, damage: &str) -> Result<Connection<MemStore>, Fail> {
    let mut conn = filled(alloc)?.into_connection();
    conn.execute_batch(damage)?;
    Ok(conn)
}

// Whether the calls that read and change rows answer Closed.
fn are_rows_closed<K: Keep>(alloc: Global, keep: &mut K) -> Result<bool, Fail> {
    let closed = Some(KeepFault::Closed);
    Ok(
        keep.slice(alloc, &acme()?.owner).err() == closed
            && keep.owners(alloc).err() == closed
            && keep.units(alloc).err() == closed
            && keep.apply(alloc, &[]).err() == closed,
    )
}

// Whether the calls for the holder of a unit, and for edges, answer Closed.
fn is_genealogy_closed<K: Keep>(alloc: Global, keep: &mut K) -> Result<bool, Fail> {
    let closed = Some(KeepFault::Closed);
    Ok(
        keep.holder(alloc, &batch()?.unit).err() == closed
            && keep.edges(alloc, &acme()?.owner).err() == closed
            && keep.all_edges(alloc).err() == closed,
    )
}

// Whether damage is found when the rows are read, and the keep is closed then.
fn is_damaged<K: Keep>(alloc: Global, keep: &mut K) -> Result<bool, Fail> {
    let found = keep.slice(alloc, &acme()?.owner).err();
    Ok(
        found == Some(KeepFault::Damaged)
            && are_rows_closed(alloc, keep)?
            && is_genealogy_closed(alloc, keep)?,
    )
}

// Fails if the damage isn't found.
fn check_damage(alloc: Global, damage: &str) -> Result<(), Fail> {
    let mut keep = adopted(alloc, damaged(alloc, damage)?)?;
    check(is_damaged(alloc, &mut keep)?, damage)
}

#[test]
fn damaged_rows_are_found_and_close_the_keep(rt: HostRuntime) -> Result<(), Fail> {
    for damage in DAMAGES {
        check_damage(rt.alloc(), damage)?;
    }
    Ok(())
}

#[test]
fn rows_within_the_bounds_are_no_damage(rt: HostRuntime) -> Result<(), Fail> {
    let alloc = rt.alloc();
    let mut keep = adopted(alloc, damaged(alloc, BOUNDS)?)?;
    check_counts(alloc, &mut keep, &acme()?.owner, Some((1, 20_000)))
}

#[test]
fn another_owners_damage_is_no_harm(rt: HostRuntime) -> Result<(), Fail> {
    let alloc = rt.alloc();
    let mut conn = filled(alloc)?.into_connection();
    conn.execute(
        "INSERT INTO orders VALUES ('HOUSE', 'O-1', 'R', 100, 0)",
        &[],
    )?;
    let mut keep = adopted(alloc, conn)?;
    check_counts(alloc, &mut keep, &acme()?.owner, Some((1, 2)))
}
