//! Movements of material.
use crate::bounded::{Amount, BatchNo, Day, Segment};
use crate::lot::LotId;
use crate::name::Name;
use crate::role::Role;

/// What a movement moves.
#[derive(Clone, Copy, PartialEq, Eq)]
pub enum Move {
    /// Material comes from outside into a sublot.
    Receive {
        material: Name,
        lot: Name,
        sublot: Name,
    },
    /// Material goes from a sublot to another one of the same lot.
    Split {
        lot: Name,
        sublot: Name,
        target: Name,
    },
    /// Material leaves the plant.
    Ship {
        lot: Name,
        sublot: Name,
    },
    /// Material is thrown away.
    Scrap {
        lot: Name,
        sublot: Name,
    },
    /// A material actual (IEC 62264-2): a batch consumes from a sublot or produces into it.
    Actual {
        order: Name,
        number: BatchNo,
        segment: Segment,
        role: Role,
        material: Name,
        lot: LotId,
        sublot: Name,
    },
}

/// A movement of material, known by its key. It is one of the rows of the owner that it concerns.
/// For an actual that is the batch's owner, even if the lot is HOUSE's.
#[derive(Clone, Copy)]
pub struct MoveRow {
    pub key: Name,
    pub what: Move,
    pub amount: Amount,
    pub day: Day,
}

impl MoveRow {
    ghost use Rattle.std.specs.Prelude.{◌≡◌};
    ghost use Rattle.toll_base.specs.Moves.{same_movement};
    ghost use Rattle.toll_base.specs.SliceRules.{is_actual_of};

    /// Whether key, kind, fields, amount and day are equal.
    pub fn is_same(&self, other: &MoveRow) -> bool
        ensures { result ≡ same_movement self.now other.now }
    {
        self.key == other.key
            && self.what == other.what
            && self.amount == other.amount
            && self.day == other.day
    }

    /// Whether it is an actual of this batch.
    pub fn is_actual_of(&self, order: &Name, number: BatchNo) -> bool
        ensures { result ≡ is_actual_of order.now number self.now.what }
    {
        match &self.what {
            Move::Actual {
                order: of,
                number: n,
                ..
            } => *order == *of && number == *n,
            _ => false,
        }
    }
}
