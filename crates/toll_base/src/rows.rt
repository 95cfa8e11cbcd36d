//! Rows: what the office keeps of the plant and of each owner. The fields of a row's key come first.
ghost use Rattle.std.specs.Prelude.{◌≡◌};
ghost use Rattle.toll_base.specs.Rows.{placed_row};
ghost use Rattle.toll_base.specs.ValueWords.{order_status};

use crate::bounded::{Amount, BatchNo, Day, Segment};
use crate::limits::Limits;
use crate::lot::{Disposition, Origin};
use crate::measure::Measure;
use crate::movement::MoveRow;
use crate::name::Name;
use crate::owner_key::OwnerKey;
use crate::role::Role;
use crate::state::State;
use crate::table::Keyed;
use crate::value::Value;

/// An owner, and the key of its requests. HOUSE has no key.
#[derive(Clone, Copy, Debug, PartialEq, Eq)]
pub struct OwnerRow {
    pub owner: Name,
    pub key: OwnerKey,
}

/// A unit of the plant, on which batches run.
#[derive(Clone, Copy)]
pub struct UnitRow {
    pub unit: Name,
}

/// A material definition (IEC 62264-2), and the measure of its amounts.
#[derive(Clone, Copy)]
pub struct MaterialRow {
    pub material: Name,
    pub measure: Measure,
}

/// A test of a material, and the limits that its result must meet before a lot is released.
#[derive(Clone, Copy)]
pub struct TestRow {
    pub material: Name,
    pub test: Name,
    pub limits: Limits,
}

/// A recipe: a list of segments, numbered from 1 to this number.
#[derive(Clone, Copy)]
pub struct RecipeRow {
    pub recipe: Name,
    pub segments: Segment,
}

/// An operations material specification (IEC 62264-2): how much of which material of which owner a segment of a
/// recipe consumes or produces.
#[derive(Clone, Copy, PartialEq, Eq)]
pub struct RequirementRow {
    pub recipe: Name,
    pub segment: Segment,
    pub role: Role,
    pub source: Name,
    pub material: Name,
    pub amount: Amount,
}

/// What places an order: that many batches by that recipe.
#[derive(Clone, Copy)]
pub struct Placing {
    pub order: Name,
    pub recipe: Name,
    pub batches: BatchNo,
}

/// An order, which is an operations request (IEC 62264-2): that many batches by that recipe.
#[derive(Clone, Copy)]
pub struct OrderRow {
    pub order: Name,
    pub recipe: Name,
    pub batches: BatchNo,
    pub cancelled: bool,
}

impl OrderRow {
    /// The order when it is placed, which is open.
    pub fn placed(placing: &Placing) -> OrderRow
        ensures { result ≡ placed_row placing.now }
    {
        OrderRow {
            order: placing.order,
            recipe: placing.recipe,
            batches: placing.batches,
            cancelled: false,
        }
    }

    /// Whether it is open or cancelled, as a word.
    pub fn status(&self) -> &'static str
        ensures { result.now ≡ order_status self.now.cancelled }
    {
        if self.cancelled { "cancelled" } else { "open" }
    }
}

/// A batch, which is a job order (IEC 62264-4), numbered from 1 within its order.
#[derive(Clone, Copy)]
pub struct BatchRow {
    pub order: Name,
    pub number: BatchNo,
    pub unit: Name,
    pub state: State,
    pub closed: bool,
}

/// A material lot (IEC 62264-2).
#[derive(Clone, Copy)]
pub struct LotRow {
    pub lot: Name,
    pub material: Name,
    pub origin: Origin,
    pub disposition: Disposition,
}

/// A material sublot (IEC 62264-2) of one lot, and its amount in the measure of the lot's material:
/// 0 to 20,000,000,000,000.
#[derive(Clone, Copy)]
pub struct SublotRow {
    pub lot: Name,
    pub sublot: Name,
    pub amount: u64,
}

/// A result of a test of a lot, numbered from 1 within the lot and the test.
#[derive(Clone, Copy)]
pub struct ResultRow {
    pub lot: Name,
    pub test: Name,
    pub number: u64,
    pub value: Value,
    pub day: Day,
}

/// A void: the movement with this key, an actual, is voided.
#[derive(Clone, Copy)]
pub struct VoidRow {
    pub key: Name,
}

/// A row of an owner, of any kind.
#[derive(Clone, Copy)]
pub enum Row {
    Material(MaterialRow),
    Test(TestRow),
    Recipe(RecipeRow),
    Requirement(RequirementRow),
    Order(OrderRow),
    Batch(BatchRow),
    Lot(LotRow),
    Sublot(SublotRow),
    Move(MoveRow),
    Result(ResultRow),
    Void(VoidRow),
}

impl Keyed for OwnerRow {
    type Key = Name;

    ghost key_of = { λ row. row.owner };

    fn key(&self) -> Name {
        self.owner
    }
}

impl Keyed for UnitRow {
    type Key = Name;

    ghost key_of = { λ row. row.unit };

    fn key(&self) -> Name {
        self.unit
    }
}

impl Keyed for MaterialRow {
    type Key = Name;

    ghost key_of = { λ row. row.material };

    fn key(&self) -> Name {
        self.material
    }
}

impl Keyed for TestRow {
    type Key = (Name, Name);

    ghost key_of = { λ row. (row.material, row.test) };

    fn key(&self) -> (Name, Name) {
        (self.material, self.test)
    }
}

impl Keyed for RecipeRow {
    type Key = Name;

    ghost key_of = { λ row. row.recipe };

    fn key(&self) -> Name {
        self.recipe
    }
}

impl Keyed for RequirementRow {
    type Key = (Name, Segment, Role, Name, Name);

    ghost key_of = { λ row. (row.recipe, row.segment, row.role, row.source, row.material) };

    fn key(&self) -> (Name, Segment, Role, Name, Name) {
        (
            self.recipe,
            self.segment,
            self.role,
            self.source,
            self.material,
        )
    }
}

impl Keyed for OrderRow {
    type Key = Name;

    ghost key_of = { λ row. row.order };

    fn key(&self) -> Name {
        self.order
    }
}

impl Keyed for BatchRow {
    type Key = (Name, BatchNo);

    ghost key_of = { λ row. (row.order, row.number) };

    fn key(&self) -> (Name, BatchNo) {
        (self.order, self.number)
    }
}

impl Keyed for LotRow {
    type Key = Name;

    ghost key_of = { λ row. row.lot };

    fn key(&self) -> Name {
        self.lot
    }
}

impl Keyed for SublotRow {
    type Key = (Name, Name);

    ghost key_of = { λ row. (row.lot, row.sublot) };

    fn key(&self) -> (Name, Name) {
        (self.lot, self.sublot)
    }
}

impl Keyed for ResultRow {
    type Key = (Name, Name, u64);

    ghost key_of = { λ row. (row.lot, row.test, row.number) };

    fn key(&self) -> (Name, Name, u64) {
        (self.lot, self.test, self.number)
    }
}

impl Keyed for VoidRow {
    type Key = Name;

    ghost key_of = { λ row. row.key };

    fn key(&self) -> Name {
        self.key
    }
}
