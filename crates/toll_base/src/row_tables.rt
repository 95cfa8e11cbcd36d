//! The tables of one owner's rows.
ghost use Rattle.std.specs.Prelude.{◌≡◌, ◌≤◌, length, OnOk, OnErr, IfOk, true};
ghost use Rattle.toll_base.specs.Slice.{empty_slice, with_row, move_at};
ghost use Rattle.toll_base.specs.SliceRules.{row_fits, batch_has_room, is_actual_of};
ghost use Rattle.toll_base.specs.Words.{is_some_where};
ghost use Rattle.toll_base.specs.declared.rows.Row.TheVariants.{Lot, Sublot};

use crate::bounded::BatchNo;
use crate::capacity::{
    MOST_ACTUALS, MOST_LOTS, MOST_MATERIALS, MOST_MOVEMENTS, MOST_ORDERS, MOST_RECIPES,
    MOST_REQUIREMENTS, MOST_RESULTS, MOST_STOCK, MOST_SUBLOTS, MOST_TESTS,
};
use crate::movement::{Move, MoveRow};
use crate::moves::Moves;
use crate::name::Name;
use crate::rows::{
    BatchRow, LotRow, MaterialRow, OrderRow, RecipeRow, RequirementRow, ResultRow, Row, SublotRow,
    TestRow, VoidRow,
};
use crate::table::Table;
use std::alloc::{AllocError, Global};
use std::marker::Model;

/// A table of each kind of one owner's rows. The rows may break the rules of a slice.
pub struct RowTables {
    pub owner: Name,
    pub materials: Table<MaterialRow>,
    pub tests: Table<TestRow>,
    pub recipes: Table<RecipeRow>,
    pub requirements: Table<RequirementRow>,
    pub orders: Table<OrderRow>,
    pub batches: Table<BatchRow>,
    pub lots: Table<LotRow>,
    pub sublots: Table<SublotRow>,
    pub moves: Moves,
    pub results: Table<ResultRow>,
    pub voids: Table<VoidRow>,
}

impl Model for RowTables {
    ghost use Rattle.toll_base.specs.Slice as rows;

    ghost Value = { rows.Slice };

    ghost use Rattle.toll_base.specs.SliceView.{slice_view};

    ghost view = { slice_view };
}

/// Written by hand: a derived `Drop` is expanded at every exit of every function that owns rows.
impl Drop for RowTables {
    fn drop(self) {
        let RowTables {
            owner: _,
            materials: _,
            tests: _,
            recipes: _,
            requirements: _,
            orders: _,
            batches: _,
            lots: _,
            sublots: _,
            moves: _,
            results: _,
            voids: _,
        } = self;
    }
}

impl RowTables {
    /// No rows of this owner. It takes no memory yet.
    pub fn new(alloc: Global, owner: Name) -> Self
        ensures { result ≡ empty_slice owner }
    {
        RowTables {
            owner,
            materials: Table::new(alloc),
            tests: Table::new(alloc),
            recipes: Table::new(alloc),
            requirements: Table::new(alloc),
            orders: Table::new(alloc),
            batches: Table::new(alloc),
            lots: Table::new(alloc),
            sublots: Table::new(alloc),
            moves: Moves::new(alloc),
            results: Table::new(alloc),
            voids: Table::new(alloc),
        }
    }

    /// Adds the row, or replaces the one with its key. If memory runs out, nothing changes.
    pub fn put(&mut self, row: Row) -> Result<(), AllocError>
        requires { length self.old.moves ≤ MOST_MOVEMENTS }
        ensures ok { OnOk result (self.new ≡ with_row self.old row) }
        ensures err { OnErr result (self.new ≡ self.old) }
    {
        match row {
            Row::Material(row) => self.materials.put(row),
            Row::Test(row) => self.tests.put(row),
            Row::Recipe(row) => self.recipes.put(row),
            Row::Requirement(row) => self.requirements.put(row),
            Row::Order(row) => self.orders.put(row),
            Row::Batch(row) => self.batches.put(row),
            Row::Lot(row) => self.lots.put(row),
            Row::Sublot(row) => self.sublots.put(row),
            Row::Move(row) => self.moves.put(row),
            Row::Result(row) => self.results.put(row),
            Row::Void(row) => self.voids.put(row),
        }
    }

    /// Whether the rules of a slice still hold after this row is put, if they hold before.
    pub fn fits(&self, row: &Row) -> bool
        ensures { result ≡ row_fits self.now row.now }
    {
        match row {
            Row::Material(row) => self.materials.has_room(row, MOST_MATERIALS),
            Row::Test(row) => self.tests.has_room(row, MOST_TESTS),
            Row::Recipe(row) => self.recipes.has_room(row, MOST_RECIPES),
            Row::Requirement(row) => self.requirements.has_room(row, MOST_REQUIREMENTS),
            Row::Order(row) => self.orders.has_room(row, MOST_ORDERS),
            Row::Lot(row) => self.lot_fits(row),
            Row::Sublot(row) => self.sublot_fits(row),
            Row::Move(row) => self.moves.has_room(row, MOST_MOVEMENTS) && self.batch_has_room(row),
            Row::Result(row) => self.results.has_room(row, MOST_RESULTS),
            Row::Batch(_) | Row::Void(_) => true,
        }
    }

    // Whether there is room for the lot, and the owner has its material.
    fn lot_fits(&self, row: &LotRow) -> bool
        ensures { result ≡ row_fits self.now (Lot row.now) }
    {
        self.lots.has_room(row, MOST_LOTS) && self.materials.get(&row.material).is_some()
    }

    // Whether there is room for the sublot and its amount, and the owner has its lot.
    fn sublot_fits(&self, row: &SublotRow) -> bool
        ensures { result ≡ row_fits self.now (Sublot row.now) }
    {
        self.sublots.has_room(row, MOST_SUBLOTS)
            && row.amount <= MOST_STOCK
            && self.lots.get(&row.lot).is_some()
    }

    // Whether the movement's batch has room for one more actual, or already has the replaced one.
    fn batch_has_room(&self, row: &MoveRow) -> bool
        ensures { result ≡ batch_has_room self.now row.now.key row.now.what }
    {
        match &row.what {
            Move::Actual { order, number, .. } => {
                self.moves.count_actuals(order, *number) < MOST_ACTUALS
                    || self.has_actual(&row.key, order, *number)
            }
            _ => true,
        }
    }

    fn has_actual(&self, key: &Name, order: &Name, number: BatchNo) -> bool
        ensures { result ≡ is_some_where (λ row. is_actual_of order.now number row.what) (move_at self.now key.now) }
    {
        match self.moves.get(key) {
            None => false,
            Some(known) => known.is_actual_of(order, number),
        }
    }

    /// A copy of the rows. It fails only if memory runs out.
    pub fn copy(&self, alloc: Global) -> Result<Self, AllocError>
        ensures { IfOk result (λ copied. copied ≡ self.now) }
    {
        Ok(RowTables {
            owner: self.owner,
            materials: self.materials.copy(alloc)?,
            tests: self.tests.copy(alloc)?,
            recipes: self.recipes.copy(alloc)?,
            requirements: self.requirements.copy(alloc)?,
            orders: self.orders.copy(alloc)?,
            batches: self.batches.copy(alloc)?,
            lots: self.lots.copy(alloc)?,
            sublots: self.sublots.copy(alloc)?,
            moves: self.moves.copy(alloc)?,
            results: self.results.copy(alloc)?,
            voids: self.voids.copy(alloc)?,
        })
    }
}
