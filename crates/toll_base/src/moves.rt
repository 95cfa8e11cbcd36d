//! The movements of an owner.
ghost use Rattle.std.specs.Prelude.{◌≡◌, ℕ, ◌<◌, ◌≤◌, ◌^◌, length, List, [], OnOk, OnErr, IfOk};
ghost use Rattle.toll_base.specs.ActualCounts.{AreRecounted, HasKnown, HasRowFor, count_of};
ghost use Rattle.toll_base.specs.Bytes.{Bytes, bytes_cmp};
ghost use Rattle.toll_base.specs.SliceRules.{count_actuals};
ghost use Rattle.toll_base.specs.Table.{row_at, put_row, has_room, IsInKeyOrder};

use crate::actual_count::{ActualCount, add_one, add_row, count_in, subtract_one};
use crate::bounded::BatchNo;
use crate::capacity::MOST_MOVEMENTS;
use crate::move_rows::MoveRows;
use crate::movement::{Move, MoveRow};
use crate::name::Name;
use crate::table::Table;
use std::alloc::{AllocError, Global};
use std::marker::Model;

/// The movements in the order of their keys, with the number of actuals of each batch.
pub struct Moves {
    rows: MoveRows,
    actuals: Table<ActualCount>,
}

/// Written by hand: a derived `Drop` is expanded at every exit of every function that owns rows.
impl Drop for Moves {
    fn drop(self) {
        let Moves {
            rows: _,
            actuals: _,
        } = self;
    }
}

impl Model for Moves {
    ghost use Rattle.std.specs.Prelude.{List};
    ghost use Rattle.toll_base.specs.ActualCounts.{AreCountsOf};
    ghost use Rattle.toll_base.specs.Bytes.{bytes_cmp};
    ghost use Rattle.toll_base.specs.Table.{IsInKeyOrder};
    ghost use Rattle.toll_base.specs.declared.movement.MoveRow.{MoveRow};

    ghost Value = { List MoveRow };

    ghost view = { λ m. m.rows };

    ghost invariant = { λ m. AreCountsOf m.actuals m.rows };
}

impl Moves {
    /// No movements. It takes no memory yet.
    pub fn new(alloc: Global) -> Self
        ensures { result ≡ [] }
    {
        Moves {
            rows: MoveRows::new(alloc),
            actuals: Table::new(alloc),
        }
    }

    /// The movements in order.
    pub fn rows(&self) -> &MoveRows
        ensures rows { result.now ≡ self.now }
        ensures order { IsInKeyOrder bytes_cmp (λ row. row.key) self.now }
    {
        // For the proof: they are in order.
        let _len = self.rows.len();
        &self.rows
    }

    /// The movement with this key.
    pub fn get(&self, key: &Name) -> Option<MoveRow>
        ensures { result ≡ row_at bytes_cmp (λ row. row.key) self.now key.now }
    {
        self.rows.get(key)
    }

    /// Whether a movement has this movement's key, or there are fewer movements than `most`.
    pub fn has_room(&self, row: &MoveRow, most: usize) -> bool
        ensures { result ≡ has_room bytes_cmp (λ row. row.key) most self.now row.now }
    {
        self.rows.has_room(row, most)
    }

    /// How many actuals the batch has.
    pub fn count_actuals(&self, order: &Name, number: BatchNo) -> u64
        ensures { result ≡ count_actuals order.now number self.now }
    {
        count_in(&self.actuals, order, number)
    }

    /// A copy of the movements. It fails only if memory runs out.
    pub fn copy(&self, alloc: Global) -> Result<Self, AllocError>
        ensures { IfOk result (λ copied. copied ≡ self.now) }
    {
        let rows = self.rows.copy(alloc)?;
        let actuals = self.actuals.copy(alloc)?;
        Ok(Moves { rows, actuals })
    }

    /// Adds the movement, or replaces the one with its key. If memory runs out, nothing changes.
    pub fn put(&mut self, row: MoveRow) -> Result<(), AllocError>
        requires { length self.old ≤ MOST_MOVEMENTS }
        ensures ok { OnOk result (self.new ≡ put_row bytes_cmp (λ row. row.key) self.old row) }
        ensures err { OnErr result (self.new ≡ self.old) }
    {
        add_row(&mut self.actuals, &row.what)?;
        let known = self.rows.put(row)?;
        recount(&mut self.actuals, &known, &row.what);
        Ok(())
    }
}

// Counts a movement that was put. It replaces the known one, if there is one.
fn recount(counts: &mut Table<ActualCount>, known: &Option<MoveRow>, what: &Move)
    requires rows { HasRowFor counts.old what.now }
    requires known { HasKnown counts.old known.now }
    requires room { (order : Bytes) (number : ℕ) → count_of counts.old order number < 2 ^ 32 }
    ensures { AreRecounted known.now what.now counts.old counts.new }
{
    if let Some(known) = known {
        subtract_one(counts, &known.what);
    }
    add_one(counts, what);
}
