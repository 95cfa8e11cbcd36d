//! Owners and units, read from the tables.
ghost use Rattle.std.specs.Prelude.{◌≡◌, ◌≢◌, Err, map, IfOk, IsTrue};
ghost use Rattle.sqlite.specs.Held.{state};
ghost use Rattle.sqlite.specs.State.{HasCleanDisk};
ghost use Rattle.std.specs.List.{AllByRecursion};
ghost use Rattle.toll_sql.specs.Asking.{IsLooking};
ghost use Rattle.toll_sql.specs.Cells.{columns_from};
ghost use Rattle.toll_sql.specs.Kinds.{owner_kind, unit_kind};
ghost use Rattle.toll_sql.specs.PlantRows.{ForCells, ForOwners, ForRows, ForUnits, LacksAtRow};
ghost use Rattle.toll_sql.specs.Shown.{AreReported};
ghost use Rattle.toll_sql.specs.StoredLaws.{AreStoredOfPlant};
ghost use Rattle.toll_sql.specs.Schema.{width_of};

use crate::plant_row::StoredPlantRow;
use crate::queries::all_rows;
use crate::store_errors::MemoryLack;
use sqlite::{Alter, Connection, Row as Stored};
use std::alloc::Global;
use toll_base::{OwnerRow, UnitRow};
use toll_keep::KeepFault;

/// The owners besides HOUSE, in the order of their names: each row that the store gives, whatever its
/// tables have. Damaged if a row isn't the office's. Memory and Disk are faults of the store.
pub fn read_owners<S: Alter>(
    conn: &mut Connection<S>,
    lack: &mut MemoryLack,
    alloc: Global,
) -> Result<Vec<OwnerRow>, KeepFault>
    ensures looks { IsLooking (state S.Store conn.old) (state S.Store conn.new) result }
    ensures reads { ForOwners (state S.Store conn.old) (state S.Store conn.new) (λ owners. IfOk result (λ rows. rows.items ≡ owners)) }
    ensures shown { HasCleanDisk (state S.Store conn.new) → IfOk result (λ rows. AreReported owner_kind (state S.Store conn.old).now rows.items) }
    ensures whole { ForOwners (state S.Store conn.old) (state S.Store conn.new) (λ _. result ≢ Err KeepFault.Damaged) }
    ensures lack { result ≡ Err KeepFault.Memory → IsTrue lack.new.is_noted }
{
    read_all::<S, OwnerRow>(conn, lack, alloc)
}

/// The units, in the order of their names: each row that the store gives, whatever its tables have.
/// Damaged if a row isn't the office's. Memory and Disk are faults of the store.
pub fn read_units<S: Alter>(
    conn: &mut Connection<S>,
    lack: &mut MemoryLack,
    alloc: Global,
) -> Result<Vec<UnitRow>, KeepFault>
    ensures looks { IsLooking (state S.Store conn.old) (state S.Store conn.new) result }
    ensures reads { ForUnits (state S.Store conn.old) (state S.Store conn.new) (λ units. IfOk result (λ rows. rows.items ≡ units)) }
    ensures shown { HasCleanDisk (state S.Store conn.new) → IfOk result (λ rows. AreReported unit_kind (state S.Store conn.old).now rows.items) }
    ensures whole { ForUnits (state S.Store conn.old) (state S.Store conn.new) (λ _. result ≢ Err KeepFault.Damaged) }
    ensures lack { result ≡ Err KeepFault.Memory → IsTrue lack.new.is_noted }
{
    read_all::<S, UnitRow>(conn, lack, alloc)
}

// All rows of the table.
fn read_all<S: Alter, X: StoredPlantRow>(
    conn: &mut Connection<S>,
    lack: &mut MemoryLack,
    alloc: Global,
) -> Result<Vec<X>, KeepFault>
    ensures looks { AreStoredOfPlant X.kind → IsLooking (state S.Store conn.old) (state S.Store conn.new) result }
    ensures reads { ForRows X.kind (state S.Store conn.old) (state S.Store conn.new) (λ l. IfOk result (λ rows. rows.items ≡ l)) }
    ensures shown { HasCleanDisk (state S.Store conn.new) → IfOk result (λ rows. AreReported X.kind (state S.Store conn.old).now rows.items) }
    ensures whole { ForRows X.kind (state S.Store conn.old) (state S.Store conn.new) (λ _. result ≢ Err KeepFault.Damaged) }
    ensures lack { result ≡ Err KeepFault.Memory → IsTrue lack.new.is_noted }
{
    match all_rows(conn, X::table()) {
        Ok(rows) => list_rows::<X>(alloc, lack, &rows),
        Err(error) => Err(lack.fault_of(error)),
    }
}

// The rows of these stored rows.
fn list_rows<X: StoredPlantRow>(
    alloc: Global,
    lack: &mut MemoryLack,
    rows: &[Stored],
) -> Result<Vec<X>, KeepFault>
    ensures reads { ForCells X.kind rows.now (λ l. IfOk result (λ listed. listed.items ≡ l)) }
    ensures shown { IfOk result (λ listed.
        (map X.kind.cells listed.items ≡ map (columns_from 0 (width_of X.kind.table)) rows.now) × AllByRecursion X.kind.is_valid listed.items) }
    ensures whole { ForCells X.kind rows.now (λ _. result ≢ Err KeepFault.Damaged) }
    ensures lacks { LacksAtRow X.kind rows.now result }
    ensures lack { result ≡ Err KeepFault.Memory → IsTrue lack.new.is_noted }
    ensures disk { result ≢ Err KeepFault.Disk }
    ensures closed { result ≢ Err KeepFault.Closed }
{
    let mut listed = Vec::new(alloc);
    for row in rows {
        let Some(it) = X::read(row) else {
            return Err(KeepFault::Damaged);
        };
        lack.append(&mut listed, it)?;
    }
    Ok(listed)
}
