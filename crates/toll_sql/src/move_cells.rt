//! Reading the kind of a stored movement.
ghost use Rattle.std.specs.Prelude.{◌≡◌, ◌↔◌, pos, [], None, IsTrue, IfSome};
ghost use Rattle.sqlite.specs.Order.{column};
ghost use Rattle.sqlite.specs.declared.types.Value.TheVariants.{Int, Text};
ghost use Rattle.toll_base.specs.Bytes.{Bytes};
ghost use Rattle.toll_base.specs.Values.{is_name};
ghost use Rattle.toll_sql.specs.Encode.{actual_kind};
ghost use Rattle.toll_sql.specs.Moves.{ShowsMove, ShowsNoActual, ShowsNoMove, ShowsNoReceipt, ShowsNoSplit, ShowsNoTaking, ShowsTaking};
ghost use Rattle.toll_sql.specs.Valid.{IsMove};

use crate::cells::{bounded_at, is_empty_at, is_zero_at, lot_at, name_at, number_at};
use sqlite::Row;
use sqlite::types::ValueRef;
use toll_base::{Move, Name, Role};

/// What the movement of these cells moves: `None` if they aren't a movement's cells.
pub fn move_at(row: &Row) -> Option<Move>
    ensures some { (o : Bytes) → column row.now 0 ≡ Text o → IfSome result (ShowsMove o row.now) }
    ensures valid { IfSome result IsMove }
    ensures none { result ≡ None → ShowsNoMove row.now }
{
    match number_at(row, 2)? {
        0 => receipt_at(row),
        1 => split_at(row),
        2 => {
            let (lot, sublot) = taking_at(row)?;
            Some(Move::Ship { lot, sublot })
        }
        3 => {
            let (lot, sublot) = taking_at(row)?;
            Some(Move::Scrap { lot, sublot })
        }
        4 => actual_at(row, Role::Consumed),
        5 => actual_at(row, Role::Produced),
        _ => None,
    }
}

fn receipt_at(row: &Row) -> Option<Move>
    ensures some { (o : Bytes) → column row.now 0 ≡ Text o → column row.now 2 ≡ Int (pos 0) → IfSome result (ShowsMove o row.now) }
    ensures valid { IfSome result IsMove }
    ensures none { result ≡ None → ShowsNoReceipt row.now }
{
    if !is_own(row) || !is_empty_at(row, 6) || !is_without_batch(row) {
        return None;
    }
    Some(Move::Receive {
        material: name_at(row, 7)?,
        lot: name_at(row, 4)?,
        sublot: name_at(row, 5)?,
    })
}

fn split_at(row: &Row) -> Option<Move>
    ensures some { (o : Bytes) → column row.now 0 ≡ Text o → column row.now 2 ≡ Int (pos 1) → IfSome result (ShowsMove o row.now) }
    ensures valid { IfSome result IsMove }
    ensures none { result ≡ None → ShowsNoSplit row.now }
{
    if !is_own(row) || !is_empty_at(row, 7) || !is_without_batch(row) {
        return None;
    }
    Some(Move::Split {
        lot: name_at(row, 4)?,
        sublot: name_at(row, 5)?,
        target: name_at(row, 6)?,
    })
}

// The lot and the sublot that a shipment or a scrapping takes from.
fn taking_at(row: &Row) -> Option<(Name, Name)>
    ensures some { (o : Bytes) → column row.now 0 ≡ Text o → IfSome result (λ from. ShowsTaking o row.now from.0 from.1) }
    ensures valid { IfSome result (λ from. IsTrue (is_name from.0) × IsTrue (is_name from.1)) }
    ensures none { result ≡ None → ShowsNoTaking row.now }
{
    if !is_own(row) || !is_empty_at(row, 6) || !is_empty_at(row, 7) || !is_without_batch(row) {
        return None;
    }
    Some((name_at(row, 4)?, name_at(row, 5)?))
}

fn actual_at(row: &Row, role: Role) -> Option<Move>
    ensures some { (o : Bytes) → column row.now 2 ≡ Int (pos (actual_kind role)) → IfSome result (ShowsMove o row.now) }
    ensures valid { IfSome result IsMove }
    ensures none { result ≡ None → ShowsNoActual role row.now }
{
    if !is_empty_at(row, 6) {
        return None;
    }
    Some(Move::Actual {
        order: name_at(row, 8)?,
        number: bounded_at(row, 9)?,
        segment: bounded_at(row, 10)?,
        role,
        material: name_at(row, 7)?,
        lot: lot_at(row, 3, 4)?,
        sublot: name_at(row, 5)?,
    })
}

// Whether the lot belongs to the owner of the row.
fn is_own(row: &Row) -> bool
    ensures { (o : Bytes) → column row.now 0 ≡ Text o → IsTrue result ↔ (column row.now 3 ≡ Text o) }
{
    match (row.get_ref(0), row.get_ref(3)) {
        (Ok(ValueRef::Text(owner)), Ok(ValueRef::Text(lot_owner))) => owner == lot_owner,
        _ => false,
    }
}

// Whether the row names no batch.
fn is_without_batch(row: &Row) -> bool
    ensures { IsTrue result ↔ ((column row.now 8 ≡ Text []) × (column row.now 9 ≡ Int (pos 0)) × (column row.now 10 ≡ Int (pos 0))) }
{
    is_empty_at(row, 8) && is_zero_at(row, 9) && is_zero_at(row, 10)
}
