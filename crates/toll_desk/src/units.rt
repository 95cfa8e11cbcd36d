//! Decisions on adding owners and units.
ghost use Rattle.std.specs.Prelude.{◌≡◌, [], ◌∷◌, Some, IfOk};
ghost use Rattle.toll_base.specs.Bytes.{bytes_cmp};
ghost use Rattle.toll_base.specs.Table.{row_at};
ghost use Rattle.toll_base.specs.Values.{house_name};
ghost use Rattle.toll_base.specs.declared.decision.Change.TheVariants as Change;
ghost use Rattle.toll_history.specs.Command.{AddOwner, AddUnit, by};
ghost use Rattle.toll_history.specs.Decision.{IsDecided};
ghost use Rattle.toll_keep.specs.CallEffects.{IsReading};
ghost use Rattle.toll_desk.specs.Admission.{owner_row_checks, unit_row_checks};
ghost use Rattle.toll_desk.specs.Clauses.{IsDecidedOver};

use crate::admission::{find_owner, is_house, is_same};
use std::alloc::{AllocError, Global};
use toll_base::{
    Change, Decision, MOST_OWNERS, MOST_UNITS, Name, OwnerKey, OwnerRow, Refusal, Row, UnitRow,
};
use toll_keep::{Keep, KeepFault};

/// The decision on adding an owner. It fails if a call of the keep does, or with [`KeepFault::Memory`] if
/// memory runs out.
pub fn decide_owner<K: Keep>(
    alloc: Global,
    keep: &mut K,
    owner: Name,
    key: OwnerKey,
) -> Result<Decision, KeepFault>
    ensures reads { IsReading K.meaning keep.old keep.new result }
    ensures over { IsDecidedOver K.meaning keep.old keep.new (Some (by owner (AddOwner key))) result }
{
    match keep.owners(alloc) {
        Ok(rows) => match judge_owner(alloc, &rows, OwnerRow { owner, key }) {
            Ok(decision) => Ok(decision),
            Err(_) => Err(KeepFault::Memory),
        },
        Err(fault) => Err(fault),
    }
}

fn judge_owner(alloc: Global, rows: &[OwnerRow], row: OwnerRow) -> Result<Decision, AllocError>
    ensures { IfOk result (IsDecided (owner_row_checks rows.now row) (Change.Owner row ∷ [])) }
{
    // Code that makes changes must name the type of rows.
    let _row: Option<Row> = None;
    let name = row.owner;
    if is_house(name.as_bytes()) || find_owner(rows, name.as_bytes()).is_some() {
        return Ok(Decision::Refuse(Refusal::OwnerExists));
    }
    if rows.len() >= MOST_OWNERS {
        return Ok(Decision::Refuse(Refusal::LimitReached));
    }
    Decision::accept(alloc, Change::Owner(row))
}

/// The decision on adding a unit. It fails if a call of the keep does, or with [`KeepFault::Memory`] if
/// memory runs out.
pub fn decide_unit<K: Keep>(alloc: Global, keep: &mut K, unit: Name) -> Result<Decision, KeepFault>
    ensures reads { IsReading K.meaning keep.old keep.new result }
    ensures over { IsDecidedOver K.meaning keep.old keep.new (Some (by house_name (AddUnit unit))) result }
{
    match keep.units(alloc) {
        Ok(rows) => match judge_unit(alloc, &rows, UnitRow { unit }) {
            Ok(decision) => Ok(decision),
            Err(_) => Err(KeepFault::Memory),
        },
        Err(fault) => Err(fault),
    }
}

fn judge_unit(alloc: Global, rows: &[UnitRow], row: UnitRow) -> Result<Decision, AllocError>
    ensures { IfOk result (IsDecided (unit_row_checks rows.now row) (Change.Unit row ∷ [])) }
{
    // Code that makes changes must name the type of rows.
    let _row: Option<Row> = None;
    let name = row.unit;
    if find_unit(rows, name.as_bytes()).is_some() {
        return Ok(Decision::Refuse(Refusal::UnitExists));
    }
    if rows.len() >= MOST_UNITS {
        return Ok(Decision::Refuse(Refusal::LimitReached));
    }
    Decision::accept(alloc, Change::Unit(row))
}

/// The unit of this name, among those that were added.
pub fn find_unit(rows: &[UnitRow], unit: &[u8]) -> Option<UnitRow>
    ensures { result ≡ row_at bytes_cmp (λ row. row.unit) rows.now unit.now }
{
    rows.iter()
        .find(|row| is_same(unit, row.unit.as_bytes()))
        .copied()
}
