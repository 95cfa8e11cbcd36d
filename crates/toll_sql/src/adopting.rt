//! Tables that a store already has.
ghost use Rattle.std.specs.Prelude.{◌≡◌, ◌≢◌, ◌⊎◌, false, None, Some, Ok, Err, IsTrue, IfOk, IfErr};
ghost use Rattle.sqlite.specs.Held.{state};
ghost use Rattle.sqlite.specs.State.{HasCleanDisk};
ghost use Rattle.sqlite.specs.Steps.{over_memory};
ghost use Rattle.toll_keep.specs.Content.{empty_content};
ghost use Rattle.toll_sql.specs.Causes.{is_disk_fault};
ghost use Rattle.toll_sql.specs.First.{AreFirst, IsFirst, Raised, first_version};
ghost use Rattle.toll_sql.specs.Holds.{version};
ghost use Rattle.toll_sql.specs.Opening.{Adopts, Brings};
ghost use Rattle.toll_sql.specs.Others.{HasOurs, IsJustOurs};
ghost use Rattle.toll_sql.specs.Stores.{HoldsIn, LiesIdle};

use crate::creating::{TABLES_VERSION, create_tables, raise_or_none};
use crate::open_fault::{OpenFault, open_fault_of};
use crate::schema_check::{Layout, layout_of};
use crate::version::{find_version, read_first_version, read_version};
use sqlite::{Alter, Connection, Error, ErrorCode, MemStore};
use sqlite_schema::schema::Schema;
use std::alloc::Global;

/// The earlier version, which had no voids.
const FIRST_VERSION: u64 = 1;

/// Takes the office's tables as they are. Those of this version stay, and so do tables, indexes and views
/// that others have made after them. Those of version 1 must be alone. They are brought to this version in
/// one transaction.
/// NotOurs if `meta` has no row of the office with one of these versions, or a transaction is open.
/// Damaged if it has one, and a table, a column or a key is missing or differs, or comes in another order,
/// or another table refers to any table, or another unique index is on a table of the office.
/// Memory if memory runs out, and Disk if the disk fails or refuses. No other row is read. A refusal leaves
/// the store as it is, or, after Disk, perhaps with all of this version.
pub fn adopt_tables<S: Alter>(alloc: Global, conn: &mut Connection<S>) -> Result<(), OpenFault>
    ensures adopts { Adopts (state S.Store conn.old) (state S.Store conn.new) result }
{
    conn.set_step_limit(None);
    if !conn.is_autocommit() {
        return Err(OpenFault::NotOurs);
    }
    match layout_in(alloc, conn.schema()) {
        Ok(Layout::Ours) => adopt_ours(conn),
        Ok(Layout::First) => adopt_first(conn),
        Ok(Layout::Other) => adopt_other(conn),
        Err(fault) => Err(fault),
    }
}

// Which tables these are. Memory if there is no memory to make the office's tables beside them.
fn layout_in(alloc: Global, schema: &Schema) -> Result<Layout, OpenFault>
    ensures ours { result ≡ Ok Layout.Ours → HasOurs schema.now }
    ensures first { result ≡ Ok Layout.First → AreFirst schema.now }
    ensures other { result ≡ Ok Layout.Other → (¬ HasOurs schema.now) × (¬ AreFirst schema.now) }
    ensures fault { IfErr result (λ fault. fault ≡ OpenFault.Memory) }
{
    match new_office(alloc) {
        Ok(office) => Ok(layout_of(schema, office.schema())),
        Err(fault) => Err(fault),
    }
}

// Reads the version. The tables are ours.
fn adopt_ours<S: Alter>(conn: &mut Connection<S>) -> Result<(), OpenFault>
    requires autocommit { conn.old.in_transaction ≡ false }
    requires settled { LiesIdle (state S.Store conn.old) }
    requires ours { HasOurs (state S.Store conn.old).now.schema }
    requires unlimited { conn.old.step_limit ≡ None }
    ensures adopts { Adopts (state S.Store conn.old) (state S.Store conn.new) result }
{
    match read_version(conn) {
        Ok(stored_version) => {
            if stored_version == Some(TABLES_VERSION) {
                Ok(())
            } else {
                Err(misfit(stored_version, FIRST_VERSION))
            }
        },
        Err(error) => Err(open_fault_of(error.into_error())),
    }
}

// The fault of tables that aren't of the version that was read: Damaged if that is our other version,
// else NotOurs.
fn misfit(stored_version: Option<u64>, other: u64) -> OpenFault
    ensures damaged { result ≡ OpenFault.Damaged → stored_version ≡ Some other }
    ensures foreign { result ≡ OpenFault.NotOurs → stored_version ≢ Some other }
    ensures known { (result ≡ OpenFault.Damaged) ⊎ (result ≡ OpenFault.NotOurs) }
{
    if stored_version == Some(other) {
        OpenFault::Damaged
    } else {
        OpenFault::NotOurs
    }
}

// Reads the version, and brings the tables to this version. They are those of version 1.
fn adopt_first<S: Alter>(conn: &mut Connection<S>) -> Result<(), OpenFault>
    requires autocommit { conn.old.in_transaction ≡ false }
    requires settled { LiesIdle (state S.Store conn.old) }
    requires first { AreFirst (state S.Store conn.old).now.schema }
    requires unlimited { conn.old.step_limit ≡ None }
    ensures adopts { Adopts (state S.Store conn.old) (state S.Store conn.new) result }
{
    match read_first_version(conn) {
        Ok(stored_version) => {
            if stored_version == Some(FIRST_VERSION) {
                raise_all(conn)
            } else {
                Err(misfit(stored_version, TABLES_VERSION))
            }
        },
        Err(error) => Err(open_fault_of(error)),
    }
}

// Brings the tables of a store of version 1 to this version.
fn raise_all<S: Alter>(conn: &mut Connection<S>) -> Result<(), OpenFault>
    requires autocommit { conn.old.in_transaction ≡ false }
    requires settled { HasCleanDisk (state S.Store conn.old) → LiesIdle (state S.Store conn.old) }
    ensures brings { Brings IsFirst Raised (state S.Store conn.old) (state S.Store conn.new) result }
{
    match raise_or_none(conn) {
        Ok(()) => Ok(()),
        Err(error) => Err(open_fault_of(error)),
    }
}

// The fault for an error of reading the version: NotOurs if the query can't be made.
fn read_fault_of(error: Error) -> OpenFault
    ensures memory { result ≡ OpenFault.Memory → error ≡ Error.SqliteFailure ErrorCode.OutOfMemory }
    ensures disk { result ≡ OpenFault.Disk → IsTrue (is_disk_fault error) }
    ensures foreign { result ≡ OpenFault.NotOurs → (error ≢ Error.SqliteFailure ErrorCode.OutOfMemory) × (is_disk_fault error ≡ false) }
    ensures undamaged { result ≢ OpenFault.Damaged }
{
    match error {
        Error::SqliteFailure(ErrorCode::OutOfMemory) => OpenFault::Memory,
        error => match open_fault_of(error) {
            OpenFault::Disk => OpenFault::Disk,
            _ => OpenFault::NotOurs,
        },
    }
}

// The fault of tables of neither version: Damaged if the version read is one of ours, else NotOurs.
fn fault_of_others(stored_version: Option<u64>) -> OpenFault
    ensures damaged { result ≡ OpenFault.Damaged → (stored_version ≡ Some first_version) ⊎ (stored_version ≡ Some version) }
    ensures foreign { result ≡ OpenFault.NotOurs → (stored_version ≢ Some first_version) × (stored_version ≢ Some version) }
    ensures known { (result ≡ OpenFault.Damaged) ⊎ (result ≡ OpenFault.NotOurs) }
{
    match stored_version {
        Some(FIRST_VERSION | TABLES_VERSION) => OpenFault::Damaged,
        _ => OpenFault::NotOurs,
    }
}

// Refuses other tables. The version shows whether they should be the office's.
fn adopt_other<S: Alter>(conn: &mut Connection<S>) -> Result<(), OpenFault>
    requires autocommit { conn.old.in_transaction ≡ false }
    requires settled { LiesIdle (state S.Store conn.old) }
    requires other { (¬ HasOurs (state S.Store conn.old).now.schema) × (¬ AreFirst (state S.Store conn.old).now.schema) }
    requires unlimited { conn.old.step_limit ≡ None }
    ensures adopts { Adopts (state S.Store conn.old) (state S.Store conn.new) result }
{
    match find_version(conn) {
        Ok(stored_version) => Err(fault_of_others(stored_version)),
        Err(error) => Err(read_fault_of(error)),
    }
}

/// A store in memory with the office's tables, which are empty. Memory if memory runs out.
pub(crate) fn new_office(alloc: Global) -> Result<Connection<MemStore>, OpenFault>
    ensures made { IfOk result (λ c. HoldsIn (state over_memory c) empty_content × IsJustOurs (state over_memory c).now.schema) }
    ensures unlimited { IfOk result (λ c. (c.step_limit ≡ None) × (c.in_transaction ≡ false)) }
    ensures fault { IfErr result (λ fault. fault ≡ OpenFault.Memory) }
{
    let Ok(mut conn) = Connection::open_in_memory(alloc) else {
        return Err(OpenFault::Memory);
    };
    match create_tables(&mut conn) {
        Ok(()) => Ok(conn),
        Err(_) => Err(OpenFault::Memory),
    }
}
