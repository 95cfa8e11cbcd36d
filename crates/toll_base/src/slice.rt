//! All rows of one owner.
ghost use Rattle.std.specs.Prelude.{◌≡◌, ℕ, ◌≤◌, List, [], ◌↔◌, OnOk, OnErr, IfOk, IsTrue, is_some, if◌then◌else◌};
ghost use Rattle.toll_base.specs.Bytes.{bytes_cmp};
ghost use Rattle.toll_base.specs.Keys.{pair_cmp, batch_cmp, result_cmp, requirement_cmp};
ghost use Rattle.toll_base.specs.Slice.{empty_slice, with_row, material_at, test_at, recipe_at, requirement_at, order_at, batch_at, lot_at, sublot_at, move_at, result_at, void_at, amount_at};
ghost use Rattle.toll_base.specs.SliceRules.{KeepsRules, row_fits, batch_has_room, count_actuals, is_actual_of};
ghost use Rattle.toll_base.specs.Table.{IsInKeyOrder};

use crate::bounded::{BatchNo, Segment};
use crate::capacity::MOST_STOCK;
use crate::move_rows::MoveRows;
use crate::movement::MoveRow;
use crate::name::Name;
use crate::role::Role;
use crate::row_tables::RowTables;
use crate::rows::{
    BatchRow, LotRow, MaterialRow, OrderRow, RecipeRow, RequirementRow, ResultRow, Row, SublotRow,
    TestRow, VoidRow,
};
use crate::unique_slice::UniqueSlice;
use std::alloc::{AllocError, Global};
use std::marker::Model;
use std::mem;
use std::rc::Rc;

/// All rows of one owner, each kind in the order of its keys. Copies may share the rows until one
/// copy changes.
pub struct Slice {
    alloc: Global,
    rows: Sharing,
}

// The rows of a slice.
#[derive(Drop)]
enum Sharing {
    // No copy shares them.
    Own(UniqueSlice),
    // Copies may share them.
    Shared(Rc<UniqueSlice>),
}

impl Model for Slice {
    ghost use Rattle.toll_base.specs.Slice as shown;

    ghost Value = { shown.Slice };

    ghost use Rattle.toll_base.specs.SharedView.{rows_of};

    ghost view = { λ s. rows_of s.rows };
}

/// Written by hand: a derived `Drop` is expanded at every exit of every function that owns a slice.
impl Drop for Slice {
    fn drop(self) {
        let Slice { alloc: _, rows: _ } = self;
    }
}

impl Slice {
    /// No rows of this owner. It takes no memory yet.
    pub fn new(alloc: Global, owner: Name) -> Self
        ensures { result ≡ empty_slice owner }
    {
        Slice {
            alloc,
            rows: Sharing::Own(UniqueSlice::new(alloc, owner)),
        }
    }

    /// The owner whose rows these are.
    pub fn owner(&self) -> &Name
        ensures owner { result.now ≡ self.now.owner }
        ensures kept { KeepsRules self.now }
    {
        self.unique_slice().owner()
    }

    /// Adds the row, or replaces the one with its key. If memory runs out, nothing changes. Rows that a
    /// copy shares are copied first.
    pub fn put(&mut self, row: Row) -> Result<(), AllocError>
        requires { KeepsRules (with_row self.old row) }
        ensures ok { OnOk result (self.new ≡ with_row self.old row) }
        ensures err { OnErr result (self.new ≡ self.old) }
    {
        match &mut self.rows {
            Sharing::Own(rows) => rows.put(row),
            Sharing::Shared(shared) => {
                let mut rows = shared.copy(self.alloc)?;
                rows.put(row)?;
                self.rows = Sharing::Own(rows);
                Ok(())
            }
        }
    }

    /// Whether the rules of a slice hold after this row is put.
    pub fn fits(&self, row: &Row) -> bool
        ensures { IsTrue result ↔ KeepsRules (with_row self.now row.now) }
    {
        self.unique_slice().fits(row)
    }

    /// How many actuals the batch has, voided ones included.
    pub fn count_actuals(&self, order: &Name, number: BatchNo) -> u64
        ensures { result ≡ count_actuals order.now number self.now.moves }
    {
        self.rows().moves.count_actuals(order, number)
    }

    // The rows in their tables.
    fn rows(&self) -> &RowTables
        ensures { result.now ≡ self.now }
    {
        &self.unique_slice().tables
    }

    // The rows, shared or not.
    fn unique_slice(&self) -> &UniqueSlice
        ensures { result.now ≡ self.now }
    {
        match &self.rows {
            Sharing::Own(rows) => rows,
            Sharing::Shared(rows) => rows,
        }
    }
}

/// How copies share rows.
impl Slice {
    /// A copy of the slice. Shared rows aren't copied. It fails only if memory runs out.
    pub fn copy(&self, alloc: Global) -> Result<Self, AllocError>
        ensures { IfOk result (λ copied. copied ≡ self.now) }
    {
        let rows = match &self.rows {
            Sharing::Own(rows) => Sharing::Own(rows.copy(alloc)?),
            Sharing::Shared(rows) => Sharing::Shared(rows.clone()?),
        };
        Ok(Slice { alloc, rows })
    }

    /// Lets copies share the rows from now on. If memory runs out, it fails, and the rows stay as they are.
    pub fn share(&mut self, alloc: Global) -> Result<(), AllocError>
        ensures { self.new ≡ self.old }
    {
        let empty = Sharing::Own(UniqueSlice::new(alloc, *self.owner()));
        match mem::replace(&mut self.rows, empty) {
            Sharing::Own(rows) => match Rc::new(alloc, rows) {
                Ok(shared) => self.rows = Sharing::Shared(shared),
                Err(refused) => {
                    self.rows = Sharing::Own(refused.value);
                    return Err(AllocError);
                }
            },
            shared => self.rows = shared,
        }
        Ok(())
    }

    /// Takes the rows out, to change them in place, and leaves none. They are copied only if another
    /// slice shares them. If memory runs out, nothing changes.
    pub fn take(&mut self, alloc: Global) -> Result<UniqueSlice, AllocError>
        ensures rows { IfOk result (λ rows. rows ≡ self.old) }
        ensures ok { OnOk result (self.new ≡ empty_slice self.old.owner) }
        ensures err { OnErr result (self.new ≡ self.old) }
    {
        let empty = Sharing::Own(UniqueSlice::new(alloc, *self.owner()));
        match mem::replace(&mut self.rows, empty) {
            Sharing::Own(rows) => Ok(rows),
            Sharing::Shared(shared) => match Rc::try_unwrap(shared) {
                Ok(rows) => Ok(rows),
                Err(shared) => {
                    let copied = shared.copy(alloc);
                    if copied.is_err() {
                        self.rows = Sharing::Shared(shared);
                    }
                    copied
                }
            },
        }
    }

    /// These rows.
    pub fn of(alloc: Global, rows: UniqueSlice) -> Self
        ensures { result ≡ rows }
    {
        Slice {
            alloc,
            rows: Sharing::Own(rows),
        }
    }
}

/// The rows of each kind.
impl Slice {
    /// The materials, in the order of their keys.
    pub fn materials(&self) -> &[MaterialRow]
        ensures rows { result.now ≡ self.now.materials }
        ensures order { IsInKeyOrder bytes_cmp (λ row. row.material) self.now.materials }
    {
        self.rows().materials.rows()
    }

    /// The tests of the materials, in the order of their keys.
    pub fn tests(&self) -> &[TestRow]
        ensures rows { result.now ≡ self.now.tests }
        ensures order { IsInKeyOrder pair_cmp (λ row. (row.material, row.test)) self.now.tests }
    {
        self.rows().tests.rows()
    }

    /// The recipes, in the order of their keys.
    pub fn recipes(&self) -> &[RecipeRow]
        ensures rows { result.now ≡ self.now.recipes }
        ensures order { IsInKeyOrder bytes_cmp (λ row. row.recipe) self.now.recipes }
    {
        self.rows().recipes.rows()
    }

    /// The requirements of the recipes, in the order of their keys.
    pub fn requirements(&self) -> &[RequirementRow]
        ensures rows { result.now ≡ self.now.requirements }
        ensures order { IsInKeyOrder requirement_cmp (λ row. (row.recipe, row.segment, row.role, row.source, row.material)) self.now.requirements }
    {
        self.rows().requirements.rows()
    }

    /// The orders, in the order of their keys.
    pub fn orders(&self) -> &[OrderRow]
        ensures rows { result.now ≡ self.now.orders }
        ensures order { IsInKeyOrder bytes_cmp (λ row. row.order) self.now.orders }
    {
        self.rows().orders.rows()
    }

    /// The batches, in the order of their keys.
    pub fn batches(&self) -> &[BatchRow]
        ensures rows { result.now ≡ self.now.batches }
        ensures order { IsInKeyOrder batch_cmp (λ row. (row.order, row.number)) self.now.batches }
    {
        self.rows().batches.rows()
    }

    /// The lots, in the order of their keys.
    pub fn lots(&self) -> &[LotRow]
        ensures rows { result.now ≡ self.now.lots }
        ensures order { IsInKeyOrder bytes_cmp (λ row. row.lot) self.now.lots }
    {
        self.rows().lots.rows()
    }

    /// The sublots, in the order of their keys.
    pub fn sublots(&self) -> &[SublotRow]
        ensures rows { result.now ≡ self.now.sublots }
        ensures order { IsInKeyOrder pair_cmp (λ row. (row.lot, row.sublot)) self.now.sublots }
    {
        self.rows().sublots.rows()
    }

    /// The movements, in the order of their keys.
    pub fn moves(&self) -> &MoveRows
        ensures rows { result.now ≡ self.now.moves }
        ensures order { IsInKeyOrder bytes_cmp (λ row. row.key) self.now.moves }
    {
        self.rows().moves.rows()
    }

    /// The results of the tests of the lots, in the order of their keys.
    pub fn results(&self) -> &[ResultRow]
        ensures rows { result.now ≡ self.now.results }
        ensures order { IsInKeyOrder result_cmp (λ row. (row.lot, row.test, row.number)) self.now.results }
    {
        self.rows().results.rows()
    }

    /// The voided movements, in the order of their keys.
    pub fn voids(&self) -> &[VoidRow]
        ensures rows { result.now ≡ self.now.voids }
        ensures order { IsInKeyOrder bytes_cmp (λ row. row.key) self.now.voids }
    {
        self.rows().voids.rows()
    }
}

/// The row with a key.
impl Slice {
    /// The material with this name.
    pub fn material(&self, material: &Name) -> Option<MaterialRow>
        ensures { result ≡ material_at self.now material.now }
    {
        self.rows().materials.get(material)
    }

    /// The test of the material.
    pub fn test(&self, material: &Name, test: &Name) -> Option<TestRow>
        ensures { result ≡ test_at self.now (material.now, test.now) }
    {
        self.rows().tests.get(&(*material, *test))
    }

    /// The recipe with this name.
    pub fn recipe(&self, recipe: &Name) -> Option<RecipeRow>
        ensures { result ≡ recipe_at self.now recipe.now }
    {
        self.rows().recipes.get(recipe)
    }

    /// The requirement of the recipe's segment.
    pub fn requirement(&self, key: &(Name, Segment, Role, Name, Name)) -> Option<RequirementRow>
        ensures { result ≡ requirement_at self.now key.now }
    {
        self.rows().requirements.get(key)
    }

    /// The order with this name.
    pub fn order(&self, order: &Name) -> Option<OrderRow>
        ensures { result ≡ order_at self.now order.now }
    {
        self.rows().orders.get(order)
    }

    /// The batch of the order.
    pub fn batch(&self, order: &Name, number: BatchNo) -> Option<BatchRow>
        ensures { result ≡ batch_at self.now (order.now, number) }
    {
        self.rows().batches.get(&(*order, number))
    }

    /// The lot with this name.
    pub fn lot(&self, lot: &Name) -> Option<LotRow>
        ensures { result ≡ lot_at self.now lot.now }
    {
        self.rows().lots.get(lot)
    }

    /// The sublot of the lot.
    pub fn sublot(&self, lot: &Name, sublot: &Name) -> Option<SublotRow>
        ensures { result ≡ sublot_at self.now (lot.now, sublot.now) }
    {
        self.rows().sublots.get(&(*lot, *sublot))
    }

    /// The movement with this key.
    pub fn movement(&self, key: &Name) -> Option<MoveRow>
        ensures { result ≡ move_at self.now key.now }
    {
        self.rows().moves.get(key)
    }

    /// The result of the test of the lot with this number.
    pub fn result(&self, lot: &Name, test: &Name, number: u64) -> Option<ResultRow>
        ensures { result ≡ result_at self.now (lot.now, test.now, number) }
    {
        self.rows().results.get(&(*lot, *test, number))
    }

    /// The amount in the sublot, or 0 if there is no such sublot: at most 20,000,000,000,000.
    pub fn amount_in(&self, lot: &Name, sublot: &Name) -> u64
        ensures amount { result ≡ amount_at self.now (lot.now, sublot.now) }
        ensures bound { result ≤ MOST_STOCK }
    {
        // For the proof: the rows keep the rules.
        let _owner = self.owner();
        match self.sublot(lot, sublot) {
            Some(row) => row.amount,
            None => 0,
        }
    }

    /// Whether the movement with this key is voided.
    pub fn is_voided(&self, key: &Name) -> bool
        ensures { result ≡ is_some (void_at self.now key.now) }
    {
        self.rows().voids.get(key).is_some()
    }
}
