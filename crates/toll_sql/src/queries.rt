//! The queries that read rows of the tables.
ghost use Rattle.std.specs.Prelude.{◌≡◌, [], ◌∷◌, true, false, Err, IfOk, IsPermutation, IsTrue, OnOk};
ghost use Rattle.sqlite.specs.Held.{state};
ghost use Rattle.sqlite.specs.State.{HasCleanDisk};
ghost use Rattle.toll_trace.specs.Edges.{IsEdge};
ghost use Rattle.toll_keep.specs.Holding.{IsEdgeOfSome};
ghost use Rattle.toll_sql.specs.Asked.{AreReadBy, AreReadWith};
ghost use Rattle.toll_sql.specs.AskedTexts.{all_text};
ghost use Rattle.toll_sql.specs.Asking.{ForContent, IsFinding, IsQuerying, OverOurs, OverOwned};
ghost use Rattle.toll_sql.specs.EdgeRows.{AreOwnersPairs, ForAllMoves, ForMoves, ShowEdges};
ghost use Rattle.toll_sql.specs.HolderRows.{AreBatchesOn, ShowHolders, open_on};
ghost use Rattle.toll_sql.specs.Rows.{AreOfOwner, AreAll};
ghost use Rattle.toll_sql.specs.Schema.{is_owned, select_text};

use crate::store_errors::MemoryLack;
use crate::table_kind::TableKind;
use sqlite::types::ValueRef;
use sqlite::{Alter, Connection, Error, Row};
use std::marker::Model;
use toll_base::Name;
use toll_keep::KeepFault;

/// An error that the store gave to one of these queries. Nothing else makes one.
#[derive(Drop)]
pub struct StoreError {
    error: Error,
}

impl Model for StoreError {
    ghost use Rattle.toll_sql.specs.Common.{Error};

    ghost Value = { Error };

    ghost view = { λ e. e.error };
}

impl StoreError {
    /// The store's own error.
    pub fn into_error(self) -> Error
        ensures { result ≡ self }
    {
        self.error
    }
}

// The store's answer.
fn of_store(answer: Result<Vec<Row>, Error>) -> Result<Vec<Row>, StoreError>
    ensures { result ≡ answer }
{
    match answer {
        Ok(rows) => Ok(rows),
        Err(error) => Err(StoreError { error }),
    }
}

/// Asks whether the store is open, and reads nothing. Disk if it has shut itself. Memory if there is no
/// memory to ask it.
pub fn find_open<S: Alter>(conn: &mut Connection<S>, lack: &mut MemoryLack) -> Result<(), KeepFault>
    ensures finds { IsFinding (state S.Store conn.old) (state S.Store conn.new) result }
    ensures lack { result ≡ Err KeepFault.Memory → IsTrue lack.new.is_noted }
    ensures unnoted { OnOk result (lack.new ≡ lack.old) }
{
    match conn.prepare("") {
        Ok(_statement) => Ok(()),
        Err(error) => Err(lack.fault_of(StoreError { error })),
    }
}

/// The owner's rows of the table, in the order of its key, or the error of the store.
pub fn owners_rows<S: Alter>(
    conn: &mut Connection<S>,
    table: TableKind,
    owner: &Name,
) -> Result<Vec<Row>, StoreError>
    ensures asks { is_owned table ≡ true → IsQuerying (state S.Store conn.old) (state S.Store conn.new) result }
    ensures rows { OverOwned table (state S.Store conn.old) (state S.Store conn.new) (λ db. IfOk result (λ rows. AreOfOwner table owner.now db rows.items)) }
{
    of_store(conn.query_all(table.select_text(), &[ValueRef::Text(owner.as_bytes())]))
}

/// All rows of a table whose rows belong to no owner, in the order of its key, or the error of the store.
pub fn all_rows<S: Alter>(
    conn: &mut Connection<S>,
    table: TableKind,
) -> Result<Vec<Row>, StoreError>
    ensures asks { is_owned table ≡ false → IsQuerying (state S.Store conn.old) (state S.Store conn.new) result }
    ensures rows { is_owned table ≡ false → OverOurs (state S.Store conn.old) (state S.Store conn.new)
        (λ db. IfOk result (λ rows. AreAll table db rows.items)) }
    ensures read { HasCleanDisk (state S.Store conn.new) → IfOk result (λ rows. AreReadBy (state S.Store conn.old).now (select_text table) rows.items) }
{
    of_store(conn.query_all(table.select_text(), &[]))
}

/// The lots of each consumption and each production of one batch of the owner, if neither is voided and the
/// consumption's segment isn't above the production's.
pub fn owners_pairs<S: Alter>(
    conn: &mut Connection<S>,
    owner: &Name,
) -> Result<Vec<Row>, StoreError>
    ensures asks { IsQuerying (state S.Store conn.old) (state S.Store conn.new) result }
    ensures read { HasCleanDisk (state S.Store conn.new) → IfOk result (λ rows. AreOwnersPairs (state S.Store conn.old).now owner.now rows.items) }
    ensures rows { ForMoves owner.now (state S.Store conn.old) (state S.Store conn.new) (λ s. IfOk result (λ rows. ShowEdges (IsEdge s) rows.items)) }
{
    of_store(conn.query_all(
        "SELECT c.lot_owner, c.lot, p.lot_owner, p.lot FROM moves AS c JOIN moves AS p ON p.owner = c.owner AND p.ord = c.ord AND p.number = c.number LEFT JOIN voids AS v ON v.owner = c.owner AND v.mkey = c.mkey LEFT JOIN voids AS w ON w.owner = p.owner AND w.mkey = p.mkey WHERE c.owner = ?1 AND c.kind = 4 AND p.kind = 5 AND c.segment <= p.segment AND v.mkey IS NULL AND w.mkey IS NULL",
        &[ValueRef::Text(owner.as_bytes())],
    ))
}

/// The same for the batches of all owners.
pub fn all_pairs<S: Alter>(conn: &mut Connection<S>) -> Result<Vec<Row>, StoreError>
    ensures asks { IsQuerying (state S.Store conn.old) (state S.Store conn.new) result }
    ensures read { HasCleanDisk (state S.Store conn.new) → IfOk result (λ rows. AreReadWith (state S.Store conn.old).now all_text [] rows.items) }
    ensures rows { ForAllMoves (state S.Store conn.old) (state S.Store conn.new) (λ c. IfOk result (λ rows. ShowEdges (IsEdgeOfSome c) rows.items)) }
{
    of_store(conn.query_all(
        "SELECT c.lot_owner, c.lot, p.lot_owner, p.lot FROM moves AS c JOIN moves AS p ON p.owner = c.owner AND p.ord = c.ord AND p.number = c.number LEFT JOIN voids AS v ON v.owner = c.owner AND v.mkey = c.mkey LEFT JOIN voids AS w ON w.owner = p.owner AND w.mkey = p.mkey WHERE c.kind = 4 AND p.kind = 5 AND c.segment <= p.segment AND v.mkey IS NULL AND w.mkey IS NULL",
        &[],
    ))
}

/// The batches on the unit, of all owners, that aren't closed.
pub fn open_batches<S: Alter>(conn: &mut Connection<S>, unit: &Name) -> Result<Vec<Row>, StoreError>
    ensures asks { IsQuerying (state S.Store conn.old) (state S.Store conn.new) result }
    ensures read { HasCleanDisk (state S.Store conn.new) → IfOk result (λ rows. AreBatchesOn (state S.Store conn.old).now unit.now rows.items) }
    ensures rows { ForContent (state S.Store conn.old) (state S.Store conn.new) (λ c. IfOk result (λ rows. ShowHolders c unit.now rows.items)) }
    ensures found { OverOurs (state S.Store conn.old) (state S.Store conn.new) (λ db. IfOk result (λ rows. IsPermutation (open_on unit.now db) rows.items)) }
{
    of_store(conn.query_all(
        "SELECT owner, ord, number, unit, state, closed FROM batches WHERE unit = ?1 AND closed = 0",
        &[ValueRef::Text(unit.as_bytes())],
    ))
}
