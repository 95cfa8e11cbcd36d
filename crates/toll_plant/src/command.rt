//! The commands that values make.
ghost use Rattle.std.specs.Prelude.{◌≡◌};
ghost use Rattle.toll_plant.specs.Commands.{command_from};

use crate::additions::{material_add, owner_add, recipe_add, require, test_add, unit_add};
use crate::argument::ArgumentValue;
use crate::batches::{cancel, close, do_batch, open, order};
use crate::lots::{reject, release, result};
use crate::movements::{actual, receive, scrap, ship, split, void};
use crate::questions::{batch, orders, recall, stock, trace};
use toll_desk::PlantCmd;

/// The commands that words can ask for.
#[derive(Clone, Copy)]
pub enum CommandName {
    OwnerAdd,
    UnitAdd,
    MaterialAdd,
    TestAdd,
    RecipeAdd,
    Require,
    Order,
    Cancel,
    Open,
    Do,
    Close,
    Receive,
    Split,
    Ship,
    Scrap,
    Result,
    Release,
    Reject,
    Actual,
    Void,
    Orders,
    Stock,
    Batch,
    Trace,
    Recall,
}

/// The command with these values: `None` if a value is missing, of another kind or too much.
pub fn command_from(name: CommandName, values: &[ArgumentValue]) -> Option<PlantCmd>
    ensures { result ≡ command_from name values.now }
{
    match name {
        CommandName::OwnerAdd => owner_add(values),
        CommandName::UnitAdd => unit_add(values),
        CommandName::MaterialAdd => material_add(values),
        CommandName::TestAdd => test_add(values),
        CommandName::RecipeAdd => recipe_add(values),
        CommandName::Require => require(values),
        CommandName::Order => order(values),
        CommandName::Cancel => cancel(values),
        CommandName::Open => open(values),
        CommandName::Do => do_batch(values),
        CommandName::Close => close(values),
        CommandName::Receive => receive(values),
        CommandName::Split => split(values),
        CommandName::Ship => ship(values),
        CommandName::Scrap => scrap(values),
        CommandName::Result => result(values),
        CommandName::Release => release(values),
        CommandName::Reject => reject(values),
        CommandName::Actual => actual(values),
        CommandName::Void => void(values),
        CommandName::Orders => orders(values),
        CommandName::Stock => stock(values),
        CommandName::Batch => batch(values),
        CommandName::Trace => trace(values),
        CommandName::Recall => recall(values),
    }
}
