//! Making the tables.
ghost use Rattle.std.specs.Prelude.{◌≡◌, false};
ghost use Rattle.sqlite.specs.Held.{state};
ghost use Rattle.sqlite.specs.State.{HasCleanDisk};
ghost use Rattle.toll_sql.specs.Create.{IsMaking, IsNewDatabase, IsShapedAs, IsWholeOrNothing, MakesAllTables, MakesTable, WritesVersion};
ghost use Rattle.toll_sql.specs.First.{MakesRaised, Raised, first_ours};
ghost use Rattle.toll_sql.specs.Opening.{Creates};
ghost use Rattle.toll_sql.specs.Plain.{no_schema};
ghost use Rattle.toll_sql.specs.Stores.{IsTransactionStep, LiesIdle};
ghost use Rattle.toll_sql.specs.Schema.{every_table, made_all, made_before};

use crate::encode::meta_values;
use crate::open_fault::{OpenFault, open_fault_of};
use crate::schema_check::is_blank;
use crate::table_kind::TableKind;
use crate::writing::put;
use sqlite::{Alter, Connection, Error, Transaction};

/// The version of these tables.
pub(crate) const TABLES_VERSION: u64 = 2;

/// All tables, in the order of making them.
pub(crate) fn every_table() -> [TableKind; 14]
    ensures { result ≡ every_table }
{
    [
        TableKind::Meta,
        TableKind::Owners,
        TableKind::Units,
        TableKind::Materials,
        TableKind::Tests,
        TableKind::Recipes,
        TableKind::Requirements,
        TableKind::Orders,
        TableKind::Batches,
        TableKind::Lots,
        TableKind::Sublots,
        TableKind::Moves,
        TableKind::Results,
        TableKind::Voids,
    ]
}

/// Makes the table, after those before it, or fails with the error of the store.
pub(crate) fn make_table<S: Alter>(
    tx: &mut Transaction<'_, S>,
    table: TableKind,
) -> Result<usize, Error>
    ensures same_reference { tx.new.conn.ghost_name ≡ tx.old.conn.ghost_name }
    ensures steps { IsTransactionStep (IsMaking (made_before table)) (MakesTable table) (state S.Store tx.old.conn.now) (state S.Store tx.new.conn.now) result }
{
    tx.execute(table.create_text(), &[])
}

// Writes the version, after all tables are made.
fn write_version<S: Alter>(tx: &mut Transaction<'_, S>) -> Result<(), Error>
    ensures same_reference { tx.new.conn.ghost_name ≡ tx.old.conn.ghost_name }
    ensures steps { IsTransactionStep (IsShapedAs made_all) WritesVersion (state S.Store tx.old.conn.now) (state S.Store tx.new.conn.now) result }
{
    put(tx, TableKind::Meta, &meta_values(TABLES_VERSION))
}

// Makes all tables. None of them exists yet.
fn make_tables<S: Alter>(tx: &mut Transaction<'_, S>) -> Result<(), Error>
    ensures same_reference { tx.new.conn.ghost_name ≡ tx.old.conn.ghost_name }
    ensures steps { IsTransactionStep (IsMaking no_schema) MakesAllTables (state S.Store tx.old.conn.now) (state S.Store tx.new.conn.now) result }
{
    for table in every_table() {
        make_table(tx, table)?;
    }
    Ok(())
}

// Makes all tables, and writes the version.
fn make_all<S: Alter>(tx: &mut Transaction<'_, S>) -> Result<(), Error>
    ensures same_reference { tx.new.conn.ghost_name ≡ tx.old.conn.ghost_name }
    ensures steps { IsTransactionStep (IsMaking no_schema) (λ _ new. IsNewDatabase new.now)
        (state S.Store tx.old.conn.now) (state S.Store tx.new.conn.now) result }
{
    make_tables(tx)?;
    write_version(tx)
}

// Makes all tables and writes the version in one transaction, or makes nothing.
fn create_or_none<S: Alter>(conn: &mut Connection<S>) -> Result<(), Error>
    requires autocommit { conn.old.in_transaction ≡ false }
    requires settled { HasCleanDisk (state S.Store conn.old) → LiesIdle (state S.Store conn.old) }
    ensures whole { IsWholeOrNothing (IsMaking no_schema) IsNewDatabase (state S.Store conn.old) (state S.Store conn.new) result }
{
    let mut tx = conn.transaction();
    make_all(&mut tx)?;
    tx.commit()
}

/// Makes the tables of the office, in one transaction, on a store that has none. NotOurs if the store
/// has tables, or a transaction is open: nothing is written. Memory if memory runs out, and Disk if the
/// disk fails or refuses: the store has none of the tables, or, after Disk, perhaps all.
pub fn create_tables<S: Alter>(conn: &mut Connection<S>) -> Result<(), OpenFault>
    ensures creates { Creates (state S.Store conn.old) (state S.Store conn.new) result }
{
    conn.set_step_limit(None);
    if !conn.is_autocommit() || !is_blank(conn.schema()) {
        return Err(OpenFault::NotOurs);
    }
    match create_or_none(conn) {
        Ok(()) => Ok(()),
        Err(error) => Err(open_fault_of(error)),
    }
}

// Brings the tables of version 1 to this version.
fn raise<S: Alter>(tx: &mut Transaction<'_, S>) -> Result<(), Error>
    ensures same_reference { tx.new.conn.ghost_name ≡ tx.old.conn.ghost_name }
    ensures steps { IsTransactionStep (IsShapedAs first_ours) MakesRaised (state S.Store tx.old.conn.now) (state S.Store tx.new.conn.now) result }
{
    make_table(tx, TableKind::Voids)?;
    write_version(tx)
}

/// Brings the tables of version 1 to this version in one transaction, or changes nothing and fails with the
/// error of the store.
pub(crate) fn raise_or_none<S: Alter>(conn: &mut Connection<S>) -> Result<(), Error>
    requires autocommit { conn.old.in_transaction ≡ false }
    requires settled { HasCleanDisk (state S.Store conn.old) → LiesIdle (state S.Store conn.old) }
    ensures whole { IsWholeOrNothing (IsShapedAs first_ours) (Raised (state S.Store conn.old).now) (state S.Store conn.old) (state S.Store conn.new) result }
{
    let mut tx = conn.transaction();
    raise(&mut tx)?;
    tx.commit()
}
