//! The version of a store.
ghost use Rattle.std.specs.Prelude.{◌≡◌, ◌↔◌, false, ℕ, Some, IsTrue, IfErr, IfOk, IfSome, OnOk, codes};
ghost use Rattle.sqlite.specs.Held.{state};
ghost use Rattle.sqlite.specs.Order.{column};
ghost use Rattle.sqlite.specs.State.{HasCleanDisk, IsUnchanged};
ghost use Rattle.sqlite.specs.declared.types.Value.TheVariants.{Text};
ghost use Rattle.toll_sql.specs.Asked.{AreReadBy, meta_text};
ghost use Rattle.toll_sql.specs.Asking.{IsQuerying, OverOurs};
ghost use Rattle.toll_sql.specs.First.{AreFirst, HasVersion, IsVersionIn, HasVersionRow, meta_rows};
ghost use Rattle.toll_sql.specs.Opening.{FindsVersion, IsQueryInside, LeavesTables, IsUnreadFor};
ghost use Rattle.toll_sql.specs.Rows.{AreAll};
ghost use Rattle.toll_sql.specs.Stores.{LiesIdle};
ghost use Rattle.toll_sql.specs.declared.table_kind.TableKind.TheVariants.{Meta};

use crate::cells::number_at;
use crate::queries::{StoreError, all_rows};
use crate::table_kind::TableKind;
use sqlite::types::ValueRef;
use sqlite::{Alter, Connection, Error, Row, Transaction};

// Whether the row of `meta` is the office's.
fn is_office(row: &Row) -> bool
    ensures { IsTrue result ↔ column row.now 0 ≡ Text (codes "toll") }
{
    match row.get_ref(0) {
        Ok(ValueRef::Text(name)) => name == b"toll".as_slice(),
        _ => false,
    }
}

/// The version in these rows of `meta`, if they have one.
pub(crate) fn version_in(rows: &[Row]) -> Option<u64>
    ensures { IsVersionIn rows.now result }
{
    match rows {
        [] => None,
        [row, rows @ ..] => {
            if is_office(row) {
                number_at(row, 1)
            } else {
                version_in(rows)
            }
        },
    }
}

/// The version of the store, if it has one, or the error of the store. Its tables are ours.
pub(crate) fn read_version<S: Alter>(conn: &mut Connection<S>) -> Result<Option<u64>, StoreError>
    ensures asks { IsQuerying (state S.Store conn.old) (state S.Store conn.new) result }
    ensures version { OverOurs (state S.Store conn.old) (state S.Store conn.new)
        (λ db. (n : ℕ) → HasVersion n db → IfOk result (λ reported. reported ≡ Some n)) }
    ensures reported { OverOurs (state S.Store conn.old) (state S.Store conn.new)
        (λ db. IfOk result (λ reported. IfSome reported (λ n. HasVersionRow n (meta_rows db)))) }
    ensures found { HasCleanDisk (state S.Store conn.new) → IfOk result (FindsVersion (state S.Store conn.old).now) }
{
    let rows = all_rows(conn, TableKind::Meta)?;
    Ok(version_in(rows.as_slice()))
}

/// The version of the store, if it has one, or the error of the store. Its tables may be any. Nothing is written.
pub(crate) fn find_version<S: Alter>(conn: &mut Connection<S>) -> Result<Option<u64>, Error>
    requires autocommit { conn.old.in_transaction ≡ false }
    requires settled { LiesIdle (state S.Store conn.old) }
    ensures left { LeavesTables (state S.Store conn.old) (state S.Store conn.new) result }
    ensures found { HasCleanDisk (state S.Store conn.new) → IfOk result (FindsVersion (state S.Store conn.old).now) }
    ensures unread { HasCleanDisk (state S.Store conn.new) → IfErr result (IsUnreadFor conn.old.step_limit (state S.Store conn.old).now) }
{
    let mut tx = conn.transaction();
    let rows = query_version(&mut tx)?;
    Ok(version_in(rows.as_slice()))
}

// The rows of `meta`, in a transaction that has written nothing.
fn query_version<S: Alter>(tx: &mut Transaction<'_, S>) -> Result<Vec<Row>, Error>
    ensures same_reference { tx.new.conn.ghost_name ≡ tx.old.conn.ghost_name }
    ensures asks { IsQueryInside (state S.Store tx.old.conn.now) (state S.Store tx.new.conn.now) result }
    ensures read { HasCleanDisk (state S.Store tx.new.conn.now) → IfOk result (λ rows. AreReadBy (state S.Store tx.old.conn.now).now meta_text rows.items) }
    ensures unread { HasCleanDisk (state S.Store tx.new.conn.now) → IfErr result (IsUnreadFor tx.old.conn.now.step_limit (state S.Store tx.old.conn.now).now) }
{
    tx.query_all(TableKind::Meta.select_text(), &[])
}

/// The version of the store, if it has one, or the error of the store. Its tables are those of version 1.
pub(crate) fn read_first_version<S: Alter>(conn: &mut Connection<S>) -> Result<Option<u64>, Error>
    requires autocommit { conn.old.in_transaction ≡ false }
    requires settled { LiesIdle (state S.Store conn.old) }
    requires first { AreFirst (state S.Store conn.old).now.schema }
    ensures left { LeavesTables (state S.Store conn.old) (state S.Store conn.new) result }
    ensures unchanged { HasCleanDisk (state S.Store conn.new) → OnOk result (IsUnchanged (state S.Store conn.old) (state S.Store conn.new)) }
    ensures version { HasCleanDisk (state S.Store conn.new) → (n : ℕ) → HasVersion n (state S.Store conn.old).now.trees
        → IfOk result (λ reported. reported ≡ Some n) }
    ensures reported { HasCleanDisk (state S.Store conn.new) →
        IfOk result (λ reported. IfSome reported (λ n. HasVersionRow n (meta_rows (state S.Store conn.old).now.trees))) }
    ensures found { HasCleanDisk (state S.Store conn.new) → IfOk result (FindsVersion (state S.Store conn.old).now) }
{
    let rows = first_rows(conn)?;
    Ok(version_in(rows.as_slice()))
}

// The rows of `meta`. The tables are those of version 1.
fn first_rows<S: Alter>(conn: &mut Connection<S>) -> Result<Vec<Row>, Error>
    requires autocommit { conn.old.in_transaction ≡ false }
    requires settled { LiesIdle (state S.Store conn.old) }
    requires first { AreFirst (state S.Store conn.old).now.schema }
    ensures left { LeavesTables (state S.Store conn.old) (state S.Store conn.new) result }
    ensures unchanged { HasCleanDisk (state S.Store conn.new) → OnOk result (IsUnchanged (state S.Store conn.old) (state S.Store conn.new)) }
    ensures rows { HasCleanDisk (state S.Store conn.new) → IfOk result (λ rows. AreAll Meta (state S.Store conn.old).now.trees rows.items) }
    ensures read { HasCleanDisk (state S.Store conn.new) → IfOk result (λ rows. AreReadBy (state S.Store conn.old).now meta_text rows.items) }
{
    conn.query_all(TableKind::Meta.select_text(), &[])
}
