//! The batch that holds a unit, read from the tables.
ghost use Rattle.std.specs.Prelude.{◌≡◌, ◌≢◌, [], ◌∷◌, Err, None, IfOk, IfSome, IsTrue, OnOk};
ghost use Rattle.sqlite.specs.Held.{state};
ghost use Rattle.sqlite.specs.declared.types.Value.TheVariants.{Text};
ghost use Rattle.sqlite.specs.State.{HasCleanDisk};
ghost use Rattle.toll_keep.specs.Holding.{IsHolder};
ghost use Rattle.toll_sql.specs.AskedTexts.{unit_text};
ghost use Rattle.toll_sql.specs.Asking.{ForContent, IsLooking, OverOurs};
ghost use Rattle.toll_sql.specs.HolderRows.{AreBatchRows, HasNoBatch, IsHolderOf, IsRowOfBatch, IsShownIn, ShowsNoBatch, ReportsHolder};

use crate::cells::name_at;
use crate::queries::open_batches;
use crate::store_errors::MemoryLack;
use crate::stored::StoredRow;
use sqlite::{Alter, Connection, Row};
use toll_base::{BatchRow, Name};
use toll_keep::{Holder, KeepFault};

/// The batch, of any owner, that holds the unit: `None` if no batch does.
///
/// Memory and Disk are faults of the store. Damaged comes if the store gives a row that isn't a batch's, and
/// only then. The batch is that of a row that the store gives. After `None` the store gives no row. All this
/// is true whatever the tables have: only the rows of open batches on this unit matter.
pub fn read_holder<S: Alter>(
    conn: &mut Connection<S>,
    lack: &mut MemoryLack,
    unit: &Name,
) -> Result<Option<Holder>, KeepFault>
    ensures looks { IsLooking (state S.Store conn.old) (state S.Store conn.new) result }
    ensures reads { ForContent (state S.Store conn.old) (state S.Store conn.new) (λ c. IfOk result (IsHolder c unit.now)) }
    ensures shown { HasCleanDisk (state S.Store conn.new) → IfOk result (IsHolderOf (state S.Store conn.old).now unit_text (Text unit.now ∷ [])) }
    ensures whole { ForContent (state S.Store conn.old) (state S.Store conn.new) (λ _. result ≢ Err KeepFault.Damaged) }
    ensures alone { OverOurs (state S.Store conn.old) (state S.Store conn.new) (λ db. ReportsHolder unit.now db result) }
    ensures lack { result ≡ Err KeepFault.Memory → IsTrue lack.new.is_noted }
{
    match open_batches(conn, unit) {
        Ok(rows) => holder_in(&rows),
        Err(error) => Err(lack.fault_of(error)),
    }
}

// The batch of the rows: that of the last row, if there are several. Each must be a batch's row.
fn holder_in(rows: &[Row]) -> Result<Option<Holder>, KeepFault>
    ensures shown { IfOk result (IsShownIn rows.now) }
    ensures whole { OnOk result (AreBatchRows rows.now) }
    ensures damaged { result ≡ Err KeepFault.Damaged → HasNoBatch rows.now }
    ensures memory { result ≢ Err KeepFault.Memory }
    ensures disk { result ≢ Err KeepFault.Disk }
    ensures closed { result ≢ Err KeepFault.Closed }
{
    let mut found = None;
    for row in rows {
        match holder_at(row) {
            Some(holder) => found = Some(holder),
            None => return Err(KeepFault::Damaged),
        }
    }
    Ok(found)
}

// The batch of the row.
fn holder_at(row: &Row) -> Option<Holder>
    ensures some { IfSome result (IsRowOfBatch row.now) }
    ensures none { result ≡ None → ShowsNoBatch row.now }
{
    let owner = name_at(row, 0)?;
    let batch = BatchRow::read(row)?;
    Some(Holder {
        owner,
        order: batch.order,
        number: batch.number,
    })
}
