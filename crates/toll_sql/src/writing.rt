//! Writing rows into the tables.
ghost use Rattle.std.specs.Prelude.{◌≡◌, ◌≢◌, false, Err, IsTrue, OnOk};
ghost use Rattle.sqlite.specs.Held.{state};
ghost use Rattle.sqlite.specs.State.{HasCleanDisk, Survives};
ghost use Rattle.sqlite.specs.Values.{bound};
ghost use Rattle.toll_base.specs.declared.decision.Change.TheVariants.{Put};
ghost use Rattle.toll_sql.specs.Causes.{Reason};
ghost use Rattle.toll_sql.specs.Create.{IsWholeOrNothing};
ghost use Rattle.toll_sql.specs.Stores.{Applies, IsApplied, IsReady, IsTransactionStep, LeavesPut, MakesPuts, PutsAll, PutsChange, StaysOnErr, WritesRow};

use crate::encode::{
    MOST_INT, batch_values, lot_values, material_values, move_values, order_values, owner_values,
    recipe_values, requirement_values, result_values, sublot_values, test_values, unit_values,
    void_values,
};
use crate::last_puts::last_puts;
use crate::store_errors::fault_of;
use crate::table_kind::TableKind;
use sqlite::types::ValueRef;
use sqlite::{Alter, Connection, Error, Transaction};
use std::alloc::Global;
use toll_base::{Change, Name, Row};
use toll_keep::KeepFault;

/// The number of changes from which on sublots that are put again are looked for. One command makes fewer.
const MANY_CHANGES: usize = 8;

/// The column of a sublot's amount.
const AMOUNT: usize = 3;

/// The column of a result's number.
const NUMBER: usize = 3;

/// Makes all of these changes, in order, in one transaction, or fails and makes none: Disk if the disk fails or
/// refuses, otherwise Memory.
pub fn make_changes<S: Alter>(
    conn: &mut Connection<S>,
    alloc: Global,
    changes: &[Change],
) -> Result<(), KeepFault>
    requires { conn.old.in_transaction ≡ false }
    ensures ended { conn.new.in_transaction ≡ false }
    ensures limit { conn.new.step_limit ≡ conn.old.step_limit }
    ensures all { Applies changes.now (state S.Store conn.old) (state S.Store conn.new) result }
    ensures none { StaysOnErr (state S.Store conn.old) (state S.Store conn.new) result }
    ensures cause { HasCleanDisk (state S.Store conn.new) → result ≡ Err KeepFault.Disk → Reason (state S.Store conn.old) (state S.Store conn.new) }
    ensures unclosed { result ≢ Err KeepFault.Closed }
    ensures whole { result ≢ Err KeepFault.Damaged }
    ensures live { HasCleanDisk (state S.Store conn.new) → IsTrue (state S.Store conn.new).is_open → IsTrue (state S.Store conn.old).is_open }
    ensures shown { HasCleanDisk (state S.Store conn.new) → OnOk result (IsTrue (state S.Store conn.new).is_open) }
    ensures crash { Survives (state S.Store conn.old) (state S.Store conn.new) (LeavesPut changes.now (state S.Store conn.old)) }
{
    match put_or_none(conn, alloc, changes) {
        Ok(()) => Ok(()),
        Err(error) => Err(fault_of(error)),
    }
}

// Puts the rows of all changes, in order, or none.
fn put_or_none<S: Alter>(
    conn: &mut Connection<S>,
    alloc: Global,
    changes: &[Change],
) -> Result<(), Error>
    requires { conn.old.in_transaction ≡ false }
    ensures whole { IsWholeOrNothing IsReady (IsApplied changes.now (state S.Store conn.old).now) (state S.Store conn.old) (state S.Store conn.new) result }
{
    // This question is for the proof alone: outside a transaction nothing is pending.
    let _autocommit = conn.is_autocommit();
    let mut tx = conn.transaction();
    put_all(&mut tx, alloc, changes)?;
    tx.commit()
}

// Makes all changes, in order. Of several that put one sublot it makes the last, which leaves the same rows.
fn put_all<S: Alter>(
    tx: &mut Transaction<'_, S>,
    alloc: Global,
    changes: &[Change],
) -> Result<(), Error>
    ensures same_reference { tx.new.conn.ghost_name ≡ tx.old.conn.ghost_name }
    ensures writes { IsTransactionStep IsReady (MakesPuts (PutsAll changes.now)) (state S.Store tx.old.conn.now) (state S.Store tx.new.conn.now) result }
{
    if changes.len() < MANY_CHANGES {
        return put_each(tx, changes);
    }
    let last = last_puts(alloc, changes)?;
    put_each(tx, &last)
}

// Makes each change, in order.
fn put_each<S: Alter>(tx: &mut Transaction<'_, S>, changes: &[Change]) -> Result<(), Error>
    ensures same_reference { tx.new.conn.ghost_name ≡ tx.old.conn.ghost_name }
    ensures writes { IsTransactionStep IsReady (MakesPuts (PutsAll changes.now)) (state S.Store tx.old.conn.now) (state S.Store tx.new.conn.now) result }
{
    for change in changes {
        put_change(tx, change)?;
    }
    Ok(())
}

// Makes the change.
fn put_change<S: Alter>(tx: &mut Transaction<'_, S>, change: &Change) -> Result<(), Error>
    ensures same_reference { tx.new.conn.ghost_name ≡ tx.old.conn.ghost_name }
    ensures writes { IsTransactionStep IsReady (MakesPuts (PutsChange change.now)) (state S.Store tx.old.conn.now) (state S.Store tx.new.conn.now) result }
{
    // This names the type for the proof: a change may have a row.
    let _row: Option<Row> = None;
    match change {
        Change::Owner(row) => put(tx, TableKind::Owners, &owner_values(row)),
        Change::Unit(row) => put(tx, TableKind::Units, &unit_values(row)),
        Change::Put(owner, row) => put_row(tx, owner, row),
    }
}

// Puts the owner's row. An amount or a number too great for a column, which no rules allow, is out of range.
fn put_row<S: Alter>(tx: &mut Transaction<'_, S>, owner: &Name, row: &Row) -> Result<(), Error>
    ensures same_reference { tx.new.conn.ghost_name ≡ tx.old.conn.ghost_name }
    ensures writes { IsTransactionStep IsReady (MakesPuts (PutsChange (Put owner.now row.now)))
        (state S.Store tx.old.conn.now) (state S.Store tx.new.conn.now) result }
{
    match row {
        Row::Material(row) => put(tx, TableKind::Materials, &material_values(owner, row)),
        Row::Test(row) => put(tx, TableKind::Tests, &test_values(owner, row)),
        Row::Recipe(row) => put(tx, TableKind::Recipes, &recipe_values(owner, row)),
        Row::Requirement(row) => put(tx, TableKind::Requirements, &requirement_values(owner, row)),
        Row::Order(row) => put(tx, TableKind::Orders, &order_values(owner, row)),
        Row::Batch(row) => put(tx, TableKind::Batches, &batch_values(owner, row)),
        Row::Lot(row) => put(tx, TableKind::Lots, &lot_values(owner, row)),
        Row::Sublot(row) if row.amount > MOST_INT => Err(Error::IntegralValueOutOfRange(AMOUNT)),
        Row::Sublot(row) => put(tx, TableKind::Sublots, &sublot_values(owner, row)),
        Row::Move(row) => put(tx, TableKind::Moves, &move_values(owner, row)),
        Row::Result(row) if row.number > MOST_INT => Err(Error::IntegralValueOutOfRange(NUMBER)),
        Row::Result(row) => put(tx, TableKind::Results, &result_values(owner, row)),
        Row::Void(row) => put(tx, TableKind::Voids, &void_values(owner, row)),
    }
}

/// Puts a row of these cells into the table, or replaces the one with its key. Fails with the error of the store.
pub fn put<S: Alter>(
    tx: &mut Transaction<'_, S>,
    table: TableKind,
    cells: &[ValueRef<'_>],
) -> Result<(), Error>
    ensures same_reference { tx.new.conn.ghost_name ≡ tx.old.conn.ghost_name }
    ensures writes { WritesRow table (bound cells.now) (state S.Store tx.old.conn.now) (state S.Store tx.new.conn.now) result }
{
    match tx.execute(table.put_text(), cells) {
        Ok(_) => Ok(()),
        Err(error) => Err(error),
    }
}
