//! Stores of version 1, made by its statements: adopted with their rows, and refused if the version is
//! another one.
use crate::keep::checks::check_all;
use crate::keep::tables::{adopted, check_refused, number};
use sqlite::{Connection, MemStore};
use std::alloc::Global;
use std::test::Fail;
use toll_sql::OpenFault;
use toll_stories::check;

// The tables of version 1: no voids, and no index.
const TABLES: [&str; 13] = [
    "CREATE TABLE meta (name TEXT NOT NULL, value INTEGER NOT NULL, PRIMARY KEY (name)) STRICT",
    "CREATE TABLE owners (owner TEXT NOT NULL, okey TEXT NOT NULL, PRIMARY KEY (owner)) STRICT",
    "CREATE TABLE units (unit TEXT NOT NULL, PRIMARY KEY (unit)) STRICT",
    "CREATE TABLE materials (owner TEXT NOT NULL, material TEXT NOT NULL, measure TEXT NOT NULL, PRIMARY KEY (owner, material)) STRICT",
    "CREATE TABLE tests (owner TEXT NOT NULL, material TEXT NOT NULL, test TEXT NOT NULL, low INTEGER NOT NULL, high INTEGER NOT NULL, PRIMARY KEY (owner, material, test)) STRICT",
    "CREATE TABLE recipes (owner TEXT NOT NULL, recipe TEXT NOT NULL, segments INTEGER NOT NULL, PRIMARY KEY (owner, recipe)) STRICT",
    "CREATE TABLE requirements (owner TEXT NOT NULL, recipe TEXT NOT NULL, segment INTEGER NOT NULL, role INTEGER NOT NULL, source TEXT NOT NULL, material TEXT NOT NULL, amount INTEGER NOT NULL, PRIMARY KEY (owner, recipe, segment, role, source, material)) STRICT",
    "CREATE TABLE orders (owner TEXT NOT NULL, ord TEXT NOT NULL, recipe TEXT NOT NULL, batches INTEGER NOT NULL, cancelled INTEGER NOT NULL, PRIMARY KEY (owner, ord)) STRICT",
    "CREATE TABLE batches (owner TEXT NOT NULL, ord TEXT NOT NULL, number INTEGER NOT NULL, unit TEXT NOT NULL, state INTEGER NOT NULL, closed INTEGER NOT NULL, PRIMARY KEY (owner, ord, number)) STRICT",
    "CREATE TABLE lots (owner TEXT NOT NULL, lot TEXT NOT NULL, material TEXT NOT NULL, ord TEXT NOT NULL, number INTEGER NOT NULL, disposition INTEGER NOT NULL, PRIMARY KEY (owner, lot)) STRICT",
    "CREATE TABLE sublots (owner TEXT NOT NULL, lot TEXT NOT NULL, sublot TEXT NOT NULL, amount INTEGER NOT NULL, PRIMARY KEY (owner, lot, sublot)) STRICT",
    "CREATE TABLE moves (owner TEXT NOT NULL, mkey TEXT NOT NULL, kind INTEGER NOT NULL, lot_owner TEXT NOT NULL, lot TEXT NOT NULL, sublot TEXT NOT NULL, target TEXT NOT NULL, material TEXT NOT NULL, ord TEXT NOT NULL, number INTEGER NOT NULL, segment INTEGER NOT NULL, amount INTEGER NOT NULL, day INTEGER NOT NULL, PRIMARY KEY (owner, mkey)) STRICT",
    "CREATE TABLE results (owner TEXT NOT NULL, lot TEXT NOT NULL, test TEXT NOT NULL, number INTEGER NOT NULL, value INTEGER NOT NULL, day INTEGER NOT NULL, PRIMARY KEY (owner, lot, test, number)) STRICT",
];

// The version; ACME, the unit U, a batch on it, and what it consumed and produced.
const ROWS: [&str; 6] = [
    "INSERT INTO meta VALUES ('toll', 1)",
    "INSERT INTO owners VALUES ('ACME', 'ACMEKEY1')",
    "INSERT INTO units VALUES ('U')",
    "INSERT INTO batches VALUES ('ACME', 'O', 1, 'U', 0, 0)",
    "INSERT INTO moves VALUES ('ACME', 'K1', 4, 'ACME', 'IN', 'IN', '', 'IN', 'O', 1, 1, 1, 0)",
    "INSERT INTO moves VALUES ('ACME', 'K2', 5, 'ACME', 'OUT', 'OUT', '', 'OUT', 'O', 1, 1, 1, 0)",
];

fn run_all(conn: &mut Connection<MemStore>, statements: &[&str]) -> Result<(), Fail> {
    for statement in statements {
        conn.execute(statement, &[])?;
    }
    Ok(())
}

// A store of version 1 with these rows.
fn first_store(alloc: Global) -> Result<Connection<MemStore>, Fail> {
    let mut conn = Connection::open_in_memory(alloc)?;
    run_all(&mut conn, &TABLES)?;
    run_all(&mut conn, &ROWS)?;
    Ok(conn)
}

// Fails if the store has a version other than 2, or rows in the table that version 1 doesn't have.
fn check_version(conn: &mut Connection<MemStore>) -> Result<(), Fail> {
    let version = number(conn, "SELECT value FROM meta WHERE name = 'toll'")?;
    let rows = number(conn, "SELECT COUNT(*) FROM meta")?;
    let voids = number(conn, "SELECT COUNT(*) FROM voids")?;
    check((version, rows, voids) == (2, 1, 0), "another version")
}

#[test]
fn a_store_of_version_1_is_adopted_with_its_rows(rt: HostRuntime) -> Result<(), Fail> {
    let alloc = rt.alloc();
    let mut keep = adopted(alloc, first_store(alloc)?)?;
    check_all(alloc, &mut keep)?;
    let mut conn = keep.into_connection();
    check_version(&mut conn)?;
    check_all(alloc, &mut adopted(alloc, conn)?)
}

const REFUSED: [(&str, OpenFault); 6] = [
    ("UPDATE meta SET value = 0", OpenFault::NotOurs),
    ("UPDATE meta SET value = 3", OpenFault::NotOurs),
    ("UPDATE meta SET value = -1", OpenFault::NotOurs),
    ("UPDATE meta SET name = 'till'", OpenFault::NotOurs),
    ("UPDATE meta SET value = 2", OpenFault::Damaged),
    ("DROP TABLE results", OpenFault::Damaged),
];

#[test]
fn a_store_of_version_1_has_its_tables_and_its_version(rt: HostRuntime) -> Result<(), Fail> {
    for (statement, fault) in &REFUSED {
        check_refused(rt.alloc(), first_store(rt.alloc())?, statement, *fault)?;
    }
    Ok(())
}
