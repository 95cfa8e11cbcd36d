//! All rows of an owner, read from the tables.
ghost use Rattle.std.specs.Prelude.{◌≡◌, ◌≢◌, ◌||◌, true, None, Err, IfOk, IfSome, IsTrue, OnOk, is_some};
ghost use Rattle.sqlite.specs.Held.{state};
ghost use Rattle.sqlite.specs.State.{HasCleanDisk};
ghost use Rattle.std.specs.List.{list_any};
ghost use Rattle.toll_base.specs.Bytes.{bytes_cmp, same_bytes};
ghost use Rattle.toll_base.specs.SliceRules.{KeepsRules};
ghost use Rattle.toll_base.specs.Table.{row_at};
ghost use Rattle.toll_base.specs.Values.{house_name};
ghost use Rattle.toll_keep.specs.Content.{ContentKeepsRules, slice_of};
ghost use Rattle.toll_sql.specs.Asking.{ForContent, ForSlice, IsLooking};
ghost use Rattle.toll_sql.specs.Fronts.{front_slice};
ghost use Rattle.toll_sql.specs.Reading.{ReadsNext, ReadsOn, ReportsOwnerAlone};
ghost use Rattle.toll_sql.specs.Shown.{IsReportedUnknown, ShowsOwnRows, ShowsSlice, tables_of_owners};
ghost use Rattle.toll_sql.specs.Schema.{is_owned};
ghost use Rattle.toll_sql.specs.declared.table_kind.TableKind.TheVariants.{Materials};

use crate::creating::every_table;
use crate::listing::read_owners;
use crate::reading::read_table;
use crate::store_errors::MemoryLack;
use crate::table_kind::TableKind;
use sqlite::{Alter, Connection};
use std::alloc::Global;
use toll_base::{
    BatchRow, LotRow, MaterialRow, MoveRow, Name, OrderRow, OwnerRow, RecipeRow, RequirementRow,
    ResultRow, Slice, SublotRow, TestRow, VoidRow,
};
use toll_keep::KeepFault;

/// The number of tables, at the start of the list, whose rows belong to no owner.
const UNOWNED_TABLES: usize = 3;

/// All rows of an owner: `None` for an unknown owner. HOUSE is always known. If rows are given, each of the
/// owner's rows in the tables is a row of the office, and its values are values of their kinds. Any other row
/// is Damaged. An owner is unknown only if no row of owners that the store gives names it. The answer for one
/// owner holds whatever rows the tables have of others. Memory and Disk are faults of the store.
pub fn read_slice<S: Alter>(
    conn: &mut Connection<S>,
    lack: &mut MemoryLack,
    alloc: Global,
    owner: &Name,
) -> Result<Option<Slice>, KeepFault>
    ensures looks { IsLooking (state S.Store conn.old) (state S.Store conn.new) result }
    ensures reads { ForContent (state S.Store conn.old) (state S.Store conn.new) (λ c. IfOk result (λ slice. slice ≡ slice_of c owner.now)) }
    ensures shown { ShowsSlice owner.now (state S.Store conn.old) (state S.Store conn.new) result }
    ensures known { HasCleanDisk (state S.Store conn.new) → IfOk result (λ slice. slice ≡ None → IsReportedUnknown (state S.Store conn.old).now owner.now) }
    ensures whole { ForContent (state S.Store conn.old) (state S.Store conn.new) (λ c. ContentKeepsRules c → result ≢ Err KeepFault.Damaged) }
    ensures alone { ReportsOwnerAlone owner.now (state S.Store conn.old) (state S.Store conn.new) result }
    ensures named { IfOk result (λ slice. IfSome slice (λ s. s.owner ≡ owner.now)) }
    ensures lack { result ≡ Err KeepFault.Memory → IsTrue lack.new.is_noted }
{
    let owners = read_owners(conn, lack, alloc)?;
    if !is_known(&owners, owner) {
        return Ok(None);
    }
    let slice = read_rows_of(conn, lack, alloc, owner)?;
    Ok(Some(slice))
}

// Whether the owner is HOUSE or one of these.
fn is_known(owners: &[OwnerRow], owner: &Name) -> bool
    ensures { result ≡ (same_bytes owner.now house_name || is_some (row_at bytes_cmp (λ row. row.owner) owners.now owner.now)) }
{
    *owner == Name::house() || is_among(owners, owner)
}

fn is_among(owners: &[OwnerRow], owner: &Name) -> bool
    ensures { result ≡ list_any (λ row. same_bytes owner.now row.owner) owners.now }
{
    owners.iter().any(|row| *owner == row.owner)
}

/// All rows of the owner, whether it is known or not. Its faults are those of [`read_slice`].
pub fn read_rows_of<S: Alter>(
    conn: &mut Connection<S>,
    lack: &mut MemoryLack,
    alloc: Global,
    owner: &Name,
) -> Result<Slice, KeepFault>
    requires { HasCleanDisk (state S.Store conn.old) → IsTrue (state S.Store conn.old).is_open }
    ensures looks { IsLooking (state S.Store conn.old) (state S.Store conn.new) result }
    ensures reads { ForSlice owner.now (state S.Store conn.old) (state S.Store conn.new) (λ s. IfOk result (λ slice. slice ≡ s)) }
    ensures shown { ShowsOwnRows tables_of_owners owner.now (state S.Store conn.old) (state S.Store conn.new) result }
    ensures whole { ForSlice owner.now (state S.Store conn.old) (state S.Store conn.new) (λ s. KeepsRules s → result ≢ Err KeepFault.Damaged) }
    ensures named { IfOk result (λ slice. slice.owner ≡ owner.now) }
    ensures lack { result ≡ Err KeepFault.Memory → IsTrue lack.new.is_noted }
{
    let mut slice = Slice::new(alloc, *owner);
    read_tables(conn, lack, &mut slice, owner)?;
    Ok(slice)
}

// Reads the owner's rows of each table whose rows belong to owners, after the tables that its rows refer to.
fn read_tables<S: Alter>(
    conn: &mut Connection<S>,
    lack: &mut MemoryLack,
    slice: &mut Slice,
    owner: &Name,
) -> Result<(), KeepFault>
    requires { HasCleanDisk (state S.Store conn.old) → IsTrue (state S.Store conn.old).is_open }
    ensures reads { ReadsOn (front_slice Materials 0) (λ s. s) tables_of_owners owner.now
        (state S.Store conn.old) (state S.Store conn.new) slice.old slice.new result }
    ensures named { OnOk result (slice.new.owner ≡ slice.old.owner) }
    ensures lack { result ≡ Err KeepFault.Memory → IsTrue lack.new.is_noted }
{
    let every = every_table();
    for table in &every[UNOWNED_TABLES..] {
        read_kind(conn, lack, slice, owner, *table)?;
    }
    Ok(())
}

// Reads the owner's rows of this table.
fn read_kind<S: Alter>(
    conn: &mut Connection<S>,
    lack: &mut MemoryLack,
    slice: &mut Slice,
    owner: &Name,
    table: TableKind,
) -> Result<(), KeepFault>
    ensures reads { is_owned table ≡ true → ReadsNext table owner.now (state S.Store conn.old) (state S.Store conn.new) slice.old slice.new result }
    ensures named { OnOk result (slice.new.owner ≡ slice.old.owner) }
    ensures lack { result ≡ Err KeepFault.Memory → IsTrue lack.new.is_noted }
{
    match table {
        TableKind::Materials => read_table::<S, MaterialRow>(conn, lack, slice, owner, table),
        TableKind::Tests => read_table::<S, TestRow>(conn, lack, slice, owner, table),
        TableKind::Recipes => read_table::<S, RecipeRow>(conn, lack, slice, owner, table),
        TableKind::Requirements => read_table::<S, RequirementRow>(conn, lack, slice, owner, table),
        TableKind::Orders => read_table::<S, OrderRow>(conn, lack, slice, owner, table),
        TableKind::Batches => read_table::<S, BatchRow>(conn, lack, slice, owner, table),
        TableKind::Lots => read_table::<S, LotRow>(conn, lack, slice, owner, table),
        TableKind::Sublots => read_table::<S, SublotRow>(conn, lack, slice, owner, table),
        TableKind::Moves => read_table::<S, MoveRow>(conn, lack, slice, owner, table),
        TableKind::Results => read_table::<S, ResultRow>(conn, lack, slice, owner, table),
        TableKind::Voids => read_table::<S, VoidRow>(conn, lack, slice, owner, table),
        TableKind::Meta | TableKind::Owners | TableKind::Units => Ok(()),
    }
}
