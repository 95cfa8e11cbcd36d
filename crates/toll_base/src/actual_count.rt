//! How many actuals each batch has.
ghost use Rattle.std.specs.Prelude.{◌≡◌, ℕ, ◌+◌, ◌<◌, ◌≤◌, ◌^◌, OnOk, true, is_some};
ghost use Rattle.toll_base.specs.ActualCounts.{actual_count_at, count_of, counts_for, HasRowFor, HaveSameBatches};
ghost use Rattle.toll_base.specs.Bytes.{Bytes};
ghost use Rattle.toll_base.specs.SliceRules.{is_actual_of};

use crate::bounded::BatchNo;
use crate::movement::Move;
use crate::name::Name;
use crate::table::{Keyed, Table};
use std::alloc::AllocError;

/// How many actuals a batch has.
#[derive(Clone, Copy)]
pub struct ActualCount {
    pub order: Name,
    pub number: BatchNo,
    pub count: u64,
}

impl Keyed for ActualCount {
    type Key = (Name, BatchNo);

    ghost key_of = { λ row. (row.order, row.number) };

    fn key(&self) -> (Name, BatchNo) {
        (self.order, self.number)
    }
}

/// The count of this batch.
pub fn count_in(counts: &Table<ActualCount>, order: &Name, number: BatchNo) -> u64
    ensures { result ≡ count_of counts.now order.now number }
{
    match counts.get(&(*order, number)) {
        Some(row) => row.count,
        None => 0,
    }
}

/// Gives the batch of an actual a row with the count 0, if it has no row yet. No count changes. It fails
/// only if memory runs out.
pub fn add_row(counts: &mut Table<ActualCount>, what: &Move) -> Result<(), AllocError>
    ensures same { (order : Bytes) (number : ℕ) → count_of counts.new order number ≡ count_of counts.old order number }
    ensures kept { (order : Bytes) (number : ℕ) → is_some (actual_count_at counts.old order number) ≡ true
        → is_some (actual_count_at counts.new order number) ≡ true }
    ensures row { OnOk result (HasRowFor counts.new what.now) }
{
    if let Move::Actual { order, number, .. } = what {
        if counts.get(&(*order, *number)).is_none() {
            counts.put(ActualCount {
                order: *order,
                number: *number,
                count: 0,
            })?;
        }
    }
    Ok(())
}

/// Counts the movement if it is an actual.
pub fn add_one(counts: &mut Table<ActualCount>, what: &Move)
    requires row { HasRowFor counts.old what.now }
    requires room { (order : Bytes) (number : ℕ) → count_of counts.old order number < 2 ^ 32 }
    ensures count { (order : Bytes) (number : ℕ) → count_of counts.new order number ≡ counts_for order number what.now + count_of counts.old order number }
{
    if let Move::Actual { order, number, .. } = what {
        let count = count_in(counts, order, *number) + 1;
        counts.replace(ActualCount {
            order: *order,
            number: *number,
            count,
        });
    }
}

/// Stops counting the movement if it is an actual.
pub fn subtract_one(counts: &mut Table<ActualCount>, what: &Move)
    requires row { HasRowFor counts.old what.now }
    requires counted { (order : Bytes) (number : ℕ) → is_actual_of order number what.now ≡ true → 1 ≤ count_of counts.old order number }
    ensures count { (order : Bytes) (number : ℕ) → counts_for order number what.now + count_of counts.new order number ≡ count_of counts.old order number }
    ensures same { HaveSameBatches counts.old counts.new }
{
    if let Move::Actual { order, number, .. } = what {
        let count = count_in(counts, order, *number) - 1;
        counts.replace(ActualCount {
            order: *order,
            number: *number,
            count,
        });
    }
}
