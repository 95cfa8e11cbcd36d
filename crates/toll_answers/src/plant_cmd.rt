//! The plant's commands and questions.
ghost use Rattle.std.specs.Prelude.{◌≡◌};
ghost use Rattle.toll_answers.specs.PlantAnswers.{IsValidCommand, concerned};

use crate::actual_row::ActualRow;
use toll_base::{
    Amount, BatchNo, Day, Limits, LotId, Measure, Name, OwnerKey, Placing, Refusal, RequirementRow,
    Segment, StateCommand, Value,
};
use toll_trace::Way;

/// A command or a question of the plant.
///
/// [`Refusal::UnknownOwner`] comes first if its owner isn't known, except for [`PlantCmd::OwnerAdd`]
/// and [`PlantCmd::UnitAdd`]. Without an owner it concerns HOUSE.
#[derive(Clone, Copy)]
pub enum PlantCmd {
    /// Adds an owner with its key: [`Refusal::OwnerExists`] if there is one of this name, HOUSE
    /// included, then [`Refusal::LimitReached`] at 64 owners besides HOUSE.
    OwnerAdd {
        owner: Name,
        key: OwnerKey,
    },
    /// Adds a unit: [`Refusal::UnitExists`], then [`Refusal::LimitReached`] at 200 units.
    UnitAdd {
        unit: Name,
    },
    /// Adds a material, as [`toll_stock::add_material`] says.
    MaterialAdd {
        owner: Name,
        material: Name,
        measure: Measure,
    },
    /// Adds a test of a material, as [`toll_stock::add_test`] says.
    TestAdd {
        owner: Name,
        material: Name,
        test: Name,
        limits: Limits,
    },
    /// Adds a recipe, as [`toll_work::add_recipe`] says.
    RecipeAdd {
        owner: Name,
        recipe: Name,
        segments: Segment,
    },
    /// Adds a requirement to a recipe, as [`toll_work::require`] says.
    Require {
        owner: Name,
        row: RequirementRow,
    },
    /// Places an order of HOUSE, as [`toll_work::place_order`] says.
    Order(Placing),
    /// Cancels an order of HOUSE, as [`toll_work::cancel_order`] says.
    Cancel {
        order: Name,
    },
    /// Opens the next batch of an order on a unit, as [`toll_work::open_batch`] says:
    /// [`Refusal::UnitBusy`] if a batch of any owner holds the unit.
    Open {
        owner: Name,
        order: Name,
        unit: Name,
    },
    /// Commands a batch to another state, as [`toll_work::command_batch`] says.
    Do {
        owner: Name,
        order: Name,
        number: BatchNo,
        command: StateCommand,
    },
    /// Closes a batch, as [`toll_work::close_batch`] says.
    Close {
        owner: Name,
        order: Name,
        number: BatchNo,
    },
    /// Receives material into a lot, as [`toll_stock::receive`] says.
    Receive {
        owner: Name,
        key: Name,
        material: Name,
        lot: Name,
        sublot: Name,
        amount: Amount,
        day: Day,
    },
    /// Splits a sublot, as [`toll_stock::split`] says.
    Split {
        owner: Name,
        key: Name,
        lot: Name,
        sublot: Name,
        target: Name,
        amount: Amount,
        day: Day,
    },
    /// Ships out of a sublot, as [`toll_stock::ship`] says.
    Ship {
        owner: Name,
        key: Name,
        lot: Name,
        sublot: Name,
        amount: Amount,
        day: Day,
    },
    /// Scraps out of a sublot, as [`toll_stock::scrap`] says.
    Scrap {
        owner: Name,
        key: Name,
        lot: Name,
        sublot: Name,
        amount: Amount,
        day: Day,
    },
    /// Records a result of a lot's test, as [`toll_stock::record_result`] says.
    Result {
        owner: Name,
        lot: Name,
        test: Name,
        value: Value,
        day: Day,
    },
    /// Releases a lot of HOUSE, as [`toll_stock::release`] says.
    Release {
        lot: Name,
    },
    /// Rejects a lot of HOUSE, as [`toll_stock::reject`] says.
    Reject {
        lot: Name,
    },
    /// Records an actual of a batch of the owner, as [`toll_work::record_actual`] says.
    Actual {
        owner: Name,
        row: ActualRow,
    },
    /// Voids an actual, as [`toll_work::void_actual`] says.
    Void {
        owner: Name,
        key: Name,
    },
    /// The text of an owner's orders.
    Orders {
        owner: Name,
    },
    /// The text of an owner's stock.
    Stock {
        owner: Name,
    },
    /// The text of a batch: [`Refusal::UnknownOrder`], then [`Refusal::UnknownBatch`].
    Batch {
        owner: Name,
        order: Name,
        number: BatchNo,
    },
    /// The text of a lot's trace, back or forward, over the batches of all owners:
    /// [`Refusal::UnknownLot`].
    Trace {
        lot: LotId,
        way: Way,
    },
    /// The text of the lots that a lot went into over the batches of all owners, with the amounts on
    /// hand and shipped of each: [`Refusal::UnknownLot`].
    Recall {
        lot: LotId,
    },
    /// A value of the command couldn't be read. The reply is this refusal, and the keep isn't asked.
    Unread(Refusal),
}

impl PlantCmd {
    /// The owner that it concerns: HOUSE, if it names no owner.
    pub fn owner(&self) -> Name
        ensures { result ≡ concerned self.now }
    {
        match *self {
            PlantCmd::OwnerAdd { owner, .. }
            | PlantCmd::MaterialAdd { owner, .. }
            | PlantCmd::TestAdd { owner, .. }
            | PlantCmd::RecipeAdd { owner, .. }
            | PlantCmd::Require { owner, .. }
            | PlantCmd::Open { owner, .. }
            | PlantCmd::Do { owner, .. }
            | PlantCmd::Close { owner, .. }
            | PlantCmd::Receive { owner, .. }
            | PlantCmd::Split { owner, .. }
            | PlantCmd::Ship { owner, .. }
            | PlantCmd::Scrap { owner, .. }
            | PlantCmd::Result { owner, .. }
            | PlantCmd::Actual { owner, .. }
            | PlantCmd::Void { owner, .. }
            | PlantCmd::Orders { owner }
            | PlantCmd::Stock { owner }
            | PlantCmd::Batch { owner, .. } => owner,
            PlantCmd::Trace { lot, .. } | PlantCmd::Recall { lot } => lot.owner,
            _ => Name::house(),
        }
    }

    /// A law: its values are within the bounds of their types. A proof learns this of a number from its
    /// [`get`](toll_base::Bounded::get).
    pub fn keeps_bounds(&self)
        ensures { IsValidCommand self.now }
    {
        match *self {
            PlantCmd::Order(placing) => {
                let _within = placing.batches.get();
            }
            PlantCmd::Receive { amount, .. }
            | PlantCmd::Split { amount, .. }
            | PlantCmd::Ship { amount, .. }
            | PlantCmd::Scrap { amount, .. } => {
                let _within = amount.get();
            }
            PlantCmd::Actual { row, .. } => {
                let _within = row.movement.amount.get();
            }
            _ => {}
        }
    }
}
