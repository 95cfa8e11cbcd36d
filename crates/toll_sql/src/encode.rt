//! Cells of rows for the tables.
ghost use Rattle.std.specs.Prelude.{◌≡◌, ℕ, pos, IsTrue, [], ◌∷◌};
ghost use Rattle.sqlite.specs.Values.{bound};
ghost use Rattle.toll_base.specs.Roles.{role_number};
ghost use Rattle.toll_base.specs.Values.{is_name};
ghost use Rattle.toll_sql.specs.Encode as stored;
ghost use Rattle.toll_sql.specs.Valid.{IsOwner, IsUnit, IsMaterial, IsTest, IsRecipe, IsRequirement, IsOrder, IsBatch, IsLot, IsOrigin, IsSublot, IsMovement, IsResult, IsVoid, IsStorable};

use crate::move_parts::MoveParts;
use sqlite::types::ValueRef;
use toll_base::{
    BatchRow, Disposition, LotRow, MaterialRow, MoveRow, Name, OrderRow, Origin, OwnerRow,
    RecipeRow, RequirementRow, ResultRow, Role, State, SublotRow, TestRow, UnitRow, VoidRow,
};

/// The greatest whole number that a column can have.
pub const MOST_INT: u64 = 9_223_372_036_854_775_807;

/// The cells of `meta`, which say that the tables are the office's, of this version.
pub fn meta_values<'a>(version: u64) -> [ValueRef<'a>; 2]
    requires { IsStorable version }
    ensures cells { bound result ≡ stored.meta_cells version }
{
    [ValueRef::Text(b"toll"), number(version)]
}

/// An owner's cells.
pub fn owner_values<'a>(row: &'a OwnerRow) -> [ValueRef<'a>; 2]
    ensures cells { bound result ≡ stored.owner_cells row.now }
    ensures valid { IsOwner row.now }
{
    [
        ValueRef::Text(row.owner.as_bytes()),
        ValueRef::Text(row.key.as_bytes()),
    ]
}

/// A unit's cells.
pub fn unit_values<'a>(row: &'a UnitRow) -> [ValueRef<'a>; 1]
    ensures cells { bound result ≡ stored.unit_cells row.now }
    ensures valid { IsUnit row.now }
{
    [ValueRef::Text(row.unit.as_bytes())]
}

/// A material's cells.
pub fn material_values<'a>(owner: &'a Name, row: &'a MaterialRow) -> [ValueRef<'a>; 3]
    ensures cells { bound result ≡ stored.material_cells owner.now row.now }
    ensures valid { IsTrue (is_name owner.now) × IsMaterial row.now }
{
    [
        ValueRef::Text(owner.as_bytes()),
        ValueRef::Text(row.material.as_bytes()),
        ValueRef::Text(row.measure.as_bytes()),
    ]
}

/// A test's cells.
pub fn test_values<'a>(owner: &'a Name, row: &'a TestRow) -> [ValueRef<'a>; 5]
    ensures cells { bound result ≡ stored.test_cells owner.now row.now }
    ensures valid { IsTrue (is_name owner.now) × IsTest row.now }
{
    [
        ValueRef::Text(owner.as_bytes()),
        ValueRef::Text(row.material.as_bytes()),
        ValueRef::Text(row.test.as_bytes()),
        ValueRef::Int(row.limits.low.get()),
        ValueRef::Int(row.limits.high.get()),
    ]
}

/// A recipe's cells.
pub fn recipe_values<'a>(owner: &'a Name, row: &'a RecipeRow) -> [ValueRef<'a>; 3]
    ensures cells { bound result ≡ stored.recipe_cells owner.now row.now }
    ensures valid { IsTrue (is_name owner.now) × IsRecipe row.now }
{
    [
        ValueRef::Text(owner.as_bytes()),
        ValueRef::Text(row.recipe.as_bytes()),
        number(row.segments.get()),
    ]
}

/// A requirement's cells.
pub fn requirement_values<'a>(owner: &'a Name, row: &'a RequirementRow) -> [ValueRef<'a>; 7]
    ensures cells { bound result ≡ stored.requirement_cells owner.now row.now }
    ensures valid { IsTrue (is_name owner.now) × IsRequirement row.now }
{
    [
        ValueRef::Text(owner.as_bytes()),
        ValueRef::Text(row.recipe.as_bytes()),
        number(row.segment.get()),
        number(role_number(row.role)),
        ValueRef::Text(row.source.as_bytes()),
        ValueRef::Text(row.material.as_bytes()),
        number(row.amount.get()),
    ]
}

/// An order's cells.
pub fn order_values<'a>(owner: &'a Name, row: &'a OrderRow) -> [ValueRef<'a>; 5]
    ensures cells { bound result ≡ stored.order_cells owner.now row.now }
    ensures valid { IsTrue (is_name owner.now) × IsOrder row.now }
{
    [
        ValueRef::Text(owner.as_bytes()),
        ValueRef::Text(row.order.as_bytes()),
        ValueRef::Text(row.recipe.as_bytes()),
        number(row.batches.get()),
        number(flag(row.cancelled)),
    ]
}

/// A batch's cells.
pub fn batch_values<'a>(owner: &'a Name, row: &'a BatchRow) -> [ValueRef<'a>; 6]
    ensures cells { bound result ≡ stored.batch_cells owner.now row.now }
    ensures valid { IsTrue (is_name owner.now) × IsBatch row.now }
{
    [
        ValueRef::Text(owner.as_bytes()),
        ValueRef::Text(row.order.as_bytes()),
        number(row.number.get()),
        ValueRef::Text(row.unit.as_bytes()),
        number(state_number(row.state)),
        number(flag(row.closed)),
    ]
}

/// A lot's cells.
pub fn lot_values<'a>(owner: &'a Name, row: &'a LotRow) -> [ValueRef<'a>; 6]
    ensures cells { bound result ≡ stored.lot_cells owner.now row.now }
    ensures valid { IsTrue (is_name owner.now) × IsLot row.now }
{
    let (order, batch) = origin_parts(&row.origin);
    [
        ValueRef::Text(owner.as_bytes()),
        ValueRef::Text(row.lot.as_bytes()),
        ValueRef::Text(row.material.as_bytes()),
        ValueRef::Text(order),
        number(batch),
        number(disposition_number(row.disposition)),
    ]
}

/// A sublot's cells.
pub fn sublot_values<'a>(owner: &'a Name, row: &'a SublotRow) -> [ValueRef<'a>; 4]
    requires { IsStorable row.now.amount }
    ensures cells { bound result ≡ stored.sublot_cells owner.now row.now }
    ensures valid { IsTrue (is_name owner.now) × IsSublot row.now }
{
    [
        ValueRef::Text(owner.as_bytes()),
        ValueRef::Text(row.lot.as_bytes()),
        ValueRef::Text(row.sublot.as_bytes()),
        number(row.amount),
    ]
}

/// A movement's cells.
pub fn move_values<'a>(owner: &'a Name, row: &'a MoveRow) -> [ValueRef<'a>; 13]
    ensures cells { bound result ≡ stored.move_cells owner.now row.now }
    ensures valid { IsTrue (is_name owner.now) × IsMovement row.now }
{
    let parts = MoveParts::of(owner, &row.what);
    [
        ValueRef::Text(owner.as_bytes()),
        ValueRef::Text(row.key.as_bytes()),
        number(parts.kind),
        ValueRef::Text(parts.lot_owner),
        ValueRef::Text(parts.lot),
        ValueRef::Text(parts.sublot),
        ValueRef::Text(parts.target),
        ValueRef::Text(parts.material),
        ValueRef::Text(parts.order),
        number(parts.number),
        number(parts.segment),
        number(row.amount.get()),
        number(row.day.get()),
    ]
}

/// A result's cells.
pub fn result_values<'a>(owner: &'a Name, row: &'a ResultRow) -> [ValueRef<'a>; 6]
    requires { IsStorable row.now.number }
    ensures cells { bound result ≡ stored.result_cells owner.now row.now }
    ensures valid { IsTrue (is_name owner.now) × IsResult row.now }
{
    [
        ValueRef::Text(owner.as_bytes()),
        ValueRef::Text(row.lot.as_bytes()),
        ValueRef::Text(row.test.as_bytes()),
        number(row.number),
        ValueRef::Int(row.value.get()),
        number(row.day.get()),
    ]
}

/// A void's cells.
pub fn void_values<'a>(owner: &'a Name, row: &'a VoidRow) -> [ValueRef<'a>; 2]
    ensures cells { bound result ≡ stored.void_cells owner.now row.now }
    ensures valid { IsTrue (is_name owner.now) × IsVoid row.now }
{
    [
        ValueRef::Text(owner.as_bytes()),
        ValueRef::Text(row.key.as_bytes()),
    ]
}

fn number<'a>(n: u64) -> ValueRef<'a>
    requires { IsStorable n }
    ensures { result ≡ ValueRef.Int (pos n) }
{
    ValueRef::Int(n as i64)
}

fn flag(value: bool) -> u64
    ensures { result ≡ stored.flag value }
{
    if value { 1 } else { 0 }
}

fn role_number(role: Role) -> u64
    ensures { result ≡ role_number role }
{
    match role {
        Role::Consumed => 0,
        Role::Produced => 1,
    }
}

fn disposition_number(disposition: Disposition) -> u64
    ensures { result ≡ stored.disposition_number disposition }
{
    match disposition {
        Disposition::Quarantined => 0,
        Disposition::Released => 1,
        Disposition::Rejected => 2,
    }
}

fn state_number(state: State) -> u64
    ensures { result ≡ stored.state_number state }
{
    match state {
        State::Idle => 0,
        State::Running => 1,
        State::Pausing => 2,
        State::Paused => 3,
        State::Holding => 4,
        State::Held => 5,
        State::Restarting => 6,
        State::Stopping => 7,
        State::Stopped => 8,
        State::Aborting => 9,
        State::Aborted => 10,
        State::Complete => 11,
    }
}

// The order and the number of the batch that the lot comes from. `''` and 0 if there is no batch.
fn origin_parts(origin: &Origin) -> (&[u8], u64)
    ensures order { result.0.now ≡ stored.origin_order origin.now }
    ensures number { result.1 ≡ stored.origin_number origin.now }
    ensures storable { IsStorable result.1 }
    ensures valid { IsOrigin origin.now }
{
    match origin {
        Origin::Receipts => (b"", 0),
        Origin::Batch { order, number } => (order.as_bytes(), number.get()),
    }
}
