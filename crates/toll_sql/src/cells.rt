//! Reading cells of stored rows as values.
ghost use Rattle.std.specs.Prelude.{◌≡◌, ◌≢◌, ◌≤◌, ◌↔◌, ℕ, ℤ, pos, List, [], Bool, None, IsTrue, IfSome};
ghost use Rattle.sqlite.specs.Order.{column};
ghost use Rattle.sqlite.specs.declared.types.Value.TheVariants.{Int, Text};
ghost use Rattle.toll_base.specs.Roles.{role_number};
ghost use Rattle.toll_base.specs.Values.{is_name, is_measure, is_owner_key, IsValue};
ghost use Rattle.toll_base.specs.declared.limits.Limits.{Limits as Bounds};
ghost use Rattle.toll_base.specs.declared.lot.Disposition.{Disposition as Dispositions};
ghost use Rattle.toll_base.specs.declared.lot.LotId.{LotId as Lots};
ghost use Rattle.toll_base.specs.declared.role.Role.{Role as Roles};
ghost use Rattle.toll_base.specs.declared.state.State.{State as States};
ghost use Rattle.toll_sql.specs.Encode as stored;
ghost use Rattle.toll_sql.specs.Shown.{ShowsNoOrigin};
ghost use Rattle.toll_sql.specs.Valid.{IsLotId, IsOrigin, IsStorable};

use sqlite::Row;
use sqlite::types::ValueRef;
use toll_base::{
    Bounded, Disposition, Limits, LotId, Measure, Name, Origin, OwnerKey, Role, State, Value,
};

// The text in this column, if it has one.
fn text_at(row: &Row, at: usize) -> Option<&[u8]>
    ensures some { IfSome result (λ t. column row.now at ≡ Text t.now) }
    ensures none { result ≡ None → (t : List ℕ) → column row.now at ≢ Text t }
{
    match row.get_ref(at) {
        Ok(ValueRef::Text(bytes)) => Some(bytes),
        _ => None,
    }
}

// The whole number in this column, if it has one.
fn int_at(row: &Row, at: usize) -> Option<i64>
    ensures some { IfSome result (λ n. column row.now at ≡ Int n) }
    ensures none { result ≡ None → (n : ℤ) → column row.now at ≢ Int n }
{
    match row.get_ref(at) {
        Ok(ValueRef::Int(n)) => Some(n),
        _ => None,
    }
}

/// The name in this column, if it is one.
pub fn name_at(row: &Row, at: usize) -> Option<Name>
    ensures some { IfSome result (λ n. column row.now at ≡ Text n) }
    ensures valid { IfSome result (λ n. IsTrue (is_name n)) }
    ensures none { result ≡ None → (n : List ℕ) → IsTrue (is_name n) → column row.now at ≢ Text n }
{
    Name::parse(text_at(row, at)?).ok()
}

/// The lot that these columns name, its owner and itself, if they are names.
pub fn lot_at(row: &Row, owner: usize, lot: usize) -> Option<LotId>
    ensures some { IfSome result (λ l. (column row.now owner ≡ Text l.owner) × (column row.now lot ≡ Text l.lot)) }
    ensures valid { IfSome result IsLotId }
    ensures none { result ≡ None → (l : Lots) → IsLotId l → column row.now owner ≡ Text l.owner → column row.now lot ≢ Text l.lot }
{
    Some(LotId {
        owner: name_at(row, owner)?,
        lot: name_at(row, lot)?,
    })
}

/// The measure in this column, if it is one.
pub fn measure_at(row: &Row, at: usize) -> Option<Measure>
    ensures some { IfSome result (λ n. column row.now at ≡ Text n) }
    ensures valid { IfSome result (λ n. IsTrue (is_measure n)) }
    ensures none { result ≡ None → (n : List ℕ) → IsTrue (is_measure n) → column row.now at ≢ Text n }
{
    Measure::parse(text_at(row, at)?).ok()
}

/// The owner's key in this column, if it is one.
pub fn key_at(row: &Row, at: usize) -> Option<OwnerKey>
    ensures some { IfSome result (λ n. column row.now at ≡ Text n) }
    ensures valid { IfSome result (λ n. IsTrue (is_owner_key n)) }
    ensures none { result ≡ None → (n : List ℕ) → IsTrue (is_owner_key n) → column row.now at ≢ Text n }
{
    OwnerKey::parse(text_at(row, at)?).ok()
}

/// The whole number in this column, if it is one and not negative.
pub fn number_at(row: &Row, at: usize) -> Option<u64>
    ensures some { IfSome result (λ n. column row.now at ≡ Int (pos n)) }
    ensures valid { IfSome result IsStorable }
    ensures none { result ≡ None → (n : ℕ) → column row.now at ≢ Int (pos n) }
{
    match row.get_ref(at) {
        Ok(ValueRef::Int(n)) if 0 <= n => Some(n as u64),
        _ => None,
    }
}

/// The number in this column, if it is within the bounds.
pub fn bounded_at<const LEAST: u64, const MOST: u64>(
    row: &Row,
    at: usize,
) -> Option<Bounded<LEAST, MOST>>
    ensures some { IfSome result (λ n. column row.now at ≡ Int (pos n)) }
    ensures valid { IfSome result (λ n. (LEAST ≤ n) × (n ≤ MOST)) }
    ensures none { result ≡ None → (n : ℕ) → LEAST ≤ n → n ≤ MOST → column row.now at ≢ Int (pos n) }
{
    Bounded::new(number_at(row, at)?).ok()
}

/// The value of a test in this column, if it is one.
pub fn value_at(row: &Row, at: usize) -> Option<Value>
    ensures some { IfSome result (λ n. column row.now at ≡ Int n) }
    ensures valid { IfSome result IsValue }
    ensures none { result ≡ None → (n : ℤ) → IsValue n → column row.now at ≢ Int n }
{
    Value::new(int_at(row, at)?).ok()
}

/// Whether the column has 1 rather than 0, if it has one of them.
pub fn flag_at(row: &Row, at: usize) -> Option<bool>
    ensures some { IfSome result (λ b. column row.now at ≡ Int (pos (stored.flag b))) }
    ensures none { result ≡ None → (b : Bool) → column row.now at ≢ Int (pos (stored.flag b)) }
{
    match number_at(row, at) {
        Some(0) => Some(false),
        Some(1) => Some(true),
        _ => None,
    }
}

/// The role in this column, if its number is that of one.
pub fn role_at(row: &Row, at: usize) -> Option<Role>
    ensures some { IfSome result (λ r. column row.now at ≡ Int (pos (role_number r))) }
    ensures none { result ≡ None → (r : Roles) → column row.now at ≢ Int (pos (role_number r)) }
{
    match number_at(row, at) {
        Some(0) => Some(Role::Consumed),
        Some(1) => Some(Role::Produced),
        _ => None,
    }
}

/// The disposition in this column, if its number is that of one.
pub fn disposition_at(row: &Row, at: usize) -> Option<Disposition>
    ensures some { IfSome result (λ d. column row.now at ≡ Int (pos (stored.disposition_number d))) }
    ensures none { result ≡ None → (d : Dispositions) → column row.now at ≢ Int (pos (stored.disposition_number d)) }
{
    match number_at(row, at) {
        Some(0) => Some(Disposition::Quarantined),
        Some(1) => Some(Disposition::Released),
        Some(2) => Some(Disposition::Rejected),
        _ => None,
    }
}

/// The state in this column, if its number is that of one.
pub fn state_at(row: &Row, at: usize) -> Option<State>
    ensures some { IfSome result (λ s. column row.now at ≡ Int (pos (stored.state_number s))) }
    ensures none { result ≡ None → (s : States) → column row.now at ≢ Int (pos (stored.state_number s)) }
{
    match number_at(row, at) {
        Some(0) => Some(State::Idle),
        Some(1) => Some(State::Running),
        Some(2) => Some(State::Pausing),
        Some(3) => Some(State::Paused),
        Some(4) => Some(State::Holding),
        Some(5) => Some(State::Held),
        Some(6) => Some(State::Restarting),
        Some(7) => Some(State::Stopping),
        Some(8) => Some(State::Stopped),
        Some(9) => Some(State::Aborting),
        Some(10) => Some(State::Aborted),
        Some(11) => Some(State::Complete),
        _ => None,
    }
}

/// The limits of a test in these columns, if they are values in order.
pub fn limits_at(row: &Row, low: usize, high: usize) -> Option<Limits>
    ensures some { IfSome result (λ l. (column row.now low ≡ Int l.low) × (column row.now high ≡ Int l.high)) }
    ensures valid { IfSome result (λ l. IsValue l.low × IsValue l.high) }
    ensures none { result ≡ None → (l : Bounds) → IsValue l.low → IsValue l.high → column row.now low ≡ Int l.low → column row.now high ≢ Int l.high }
{
    Limits::new(value_at(row, low)?, value_at(row, high)?).ok()
}

/// The origin of a lot, in these columns: an order and the number of a batch.
pub fn origin_at(row: &Row, order: usize, number: usize) -> Option<Origin>
    ensures some { IfSome result (λ o. (column row.now order ≡ Text (stored.origin_order o)) × (column row.now number ≡ Int (pos (stored.origin_number o)))) }
    ensures valid { IfSome result IsOrigin }
    ensures none { result ≡ None → ShowsNoOrigin order number row.now }
{
    if is_empty_at(row, order) && is_zero_at(row, number) {
        return Some(Origin::Receipts);
    }
    Some(Origin::Batch {
        order: name_at(row, order)?,
        number: bounded_at(row, number)?,
    })
}

/// Whether the column has the empty text.
pub fn is_empty_at(row: &Row, at: usize) -> bool
    ensures { IsTrue result ↔ (column row.now at ≡ Text []) }
{
    match row.get_ref(at) {
        Ok(ValueRef::Text(bytes)) => bytes.is_empty(),
        _ => false,
    }
}

/// Whether the column has 0.
pub fn is_zero_at(row: &Row, at: usize) -> bool
    ensures { IsTrue result ↔ (column row.now at ≡ Int (pos 0)) }
{
    match row.get_ref(at) {
        Ok(ValueRef::Int(n)) => n == 0,
        _ => false,
    }
}
