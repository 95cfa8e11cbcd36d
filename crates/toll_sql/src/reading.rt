//! An owner's rows, read from the tables into a slice.
ghost use Rattle.std.specs.Prelude.{◌≡◌, ◌≢◌, [], ◌∷◌, Err, IsTrue, OnOk};
ghost use Rattle.sqlite.specs.Held.{state};
ghost use Rattle.sqlite.specs.Order.{column};
ghost use Rattle.sqlite.specs.declared.types.Value.TheVariants.{Text};
ghost use Rattle.std.specs.List.{AllByRecursion};
ghost use Rattle.toll_base.specs.Bytes.{Bytes};
ghost use Rattle.toll_base.specs.Slice.{with_row};
ghost use Rattle.toll_base.specs.SliceRules.{KeepsRules};
ghost use Rattle.toll_sql.specs.Fronts.{front_slice};
ghost use Rattle.toll_sql.specs.Reading.{ForOwned, ForRow, ForStored, ReadsNext, TakesRows, next_of};
ghost use Rattle.toll_sql.specs.Shown.{AreOwnedBy, IsRowOfOwner};
ghost use Rattle.toll_sql.specs.StoredLaws.{AreStoredOfOwner};

use crate::queries::owners_rows;
use crate::store_errors::MemoryLack;
use crate::stored::StoredRow;
use crate::table_kind::TableKind;
use sqlite::{Alter, Connection, Row as Stored};
use toll_base::{Name, Row, Slice};
use toll_keep::KeepFault;

/// Reads the owner's rows of this kind, which the table has. Damaged if one isn't of this kind or breaks the
/// rules. Memory and Disk are faults of the store.
pub fn read_table<S: Alter, X: StoredRow>(
    conn: &mut Connection<S>,
    lack: &mut MemoryLack,
    slice: &mut Slice,
    owner: &Name,
    table: TableKind,
) -> Result<(), KeepFault>
    ensures reads { table ≡ X.kind.table → AreStoredOfOwner X.kind
        → ReadsNext table owner.now (state S.Store conn.old) (state S.Store conn.new) slice.old slice.new result }
    ensures named { OnOk result (slice.new.owner ≡ slice.old.owner) }
    ensures lack { result ≡ Err KeepFault.Memory → IsTrue lack.new.is_noted }
{
    match owners_rows(conn, table, owner) {
        Ok(rows) => read_rows::<X>(slice, lack, &rows),
        Err(error) => Err(lack.fault_of(error)),
    }
}

// Puts in the stored rows, which are all rows of this kind. Damaged is the fault of the first one that isn't
// a row of this kind or breaks the rules. Memory is only the fault of a row that fits.
fn read_rows<X: StoredRow>(
    slice: &mut Slice,
    lack: &mut MemoryLack,
    rows: &[Stored],
) -> Result<(), KeepFault>
    ensures reads { ForStored X.kind rows.now slice.old (λ s. OnOk result (slice.new ≡ front_slice (next_of X.kind.table) 0 s)) }
    ensures shown { (o : Bytes) → AreOwnedBy o rows.now → OnOk result (AllByRecursion (IsRowOfOwner X.kind o) rows.now) }
    ensures whole { ForStored X.kind rows.now slice.old (λ s. KeepsRules s → result ≢ Err KeepFault.Damaged) }
    ensures takes { ForOwned X.kind rows.now (λ o. TakesRows X.kind.table o rows.now slice.old slice.new result) }
    ensures disk { result ≢ Err KeepFault.Disk }
    ensures closed { result ≢ Err KeepFault.Closed }
    ensures named { OnOk result (slice.new.owner ≡ slice.old.owner) }
    ensures lack { result ≡ Err KeepFault.Memory → IsTrue lack.new.is_noted }
{
    for row in rows {
        read_row::<X>(slice, lack, row)?;
    }
    Ok(())
}

// Puts the stored row in.
fn read_row<X: StoredRow>(
    slice: &mut Slice,
    lack: &mut MemoryLack,
    row: &Stored,
) -> Result<(), KeepFault>
    ensures reads { ForRow X.kind row.now (λ r. OnOk result (slice.new ≡ with_row slice.old r)) }
    ensures shown { (o : Bytes) → column row.now 0 ≡ Text o → OnOk result (IsRowOfOwner X.kind o row.now) }
    ensures whole { ForRow X.kind row.now (λ r. KeepsRules (with_row slice.old r) → result ≢ Err KeepFault.Damaged) }
    ensures takes { ForOwned X.kind (row.now ∷ []) (λ o. TakesRows X.kind.table o (row.now ∷ []) slice.old slice.new result) }
    ensures disk { result ≢ Err KeepFault.Disk }
    ensures closed { result ≢ Err KeepFault.Closed }
    ensures named { OnOk result (slice.new.owner ≡ slice.old.owner) }
    ensures lack { result ≡ Err KeepFault.Memory → IsTrue lack.new.is_noted }
{
    match X::read(row) {
        Some(it) => put_read(slice, lack, it.into_row()),
        None => Err(KeepFault::Damaged),
    }
}

// Puts the row in if the slice then keeps its rules.
fn put_read(slice: &mut Slice, lack: &mut MemoryLack, row: Row) -> Result<(), KeepFault>
    ensures made { OnOk result (slice.new ≡ with_row slice.old row) }
    ensures whole { KeepsRules (with_row slice.old row) → result ≢ Err KeepFault.Damaged }
    ensures fits { OnOk result (KeepsRules (with_row slice.old row)) }
    ensures lacks { result ≡ Err KeepFault.Memory → KeepsRules (with_row slice.old row) × (slice.new ≡ slice.old) }
    ensures disk { result ≢ Err KeepFault.Disk }
    ensures closed { result ≢ Err KeepFault.Closed }
    ensures named { OnOk result (slice.new.owner ≡ slice.old.owner) }
    ensures lack { result ≡ Err KeepFault.Memory → IsTrue lack.new.is_noted }
{
    if !slice.fits(&row) {
        return Err(KeepFault::Damaged);
    }
    lack.put(slice, row)
}
