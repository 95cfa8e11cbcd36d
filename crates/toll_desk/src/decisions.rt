//! Decisions over rows, without a keep.
ghost use Rattle.std.specs.Prelude.{◌≡◌, true, false, IfOk};
ghost use Rattle.toll_base.specs.Bytes.{same_bytes};
ghost use Rattle.toll_base.specs.Changes.{changes_of};
ghost use Rattle.toll_history.specs.Command.{by};
ghost use Rattle.toll_history.specs.Decision.{DecidesWith, DecisionKeepsRules};
ghost use Rattle.toll_history.specs.OwnChanges.{PutsOnly};
ghost use Rattle.toll_answers.specs.PlantAnswers.{recorded_command};
ghost use Rattle.toll_desk.specs.Clauses.{DecidesCommand};
ghost use Rattle.toll_desk.specs.Plans.{PutsShared};
ghost use Rattle.toll_desk.specs.Subjects.{IsCommandSuchThat, IsOfLot, ConcernsOwnRows, is_shared};

use std::alloc::{AllocError, Global};
use toll_answers::PlantCmd;
use toll_base::{Decision, Slice};
use toll_stock::{
    add_material, add_test, receive, record_result, reject, release, scrap, ship, split,
};
use toll_work::{
    add_recipe, cancel_order, close_batch, command_batch, place_order, record_actual, require,
    void_actual,
};

/// The decision over the rows of the slice's owner. It fails only if memory runs out.
pub fn decide_own(alloc: Global, slice: &Slice, command: &PlantCmd) -> Result<Decision, AllocError>
    requires { IsCommandSuchThat ConcernsOwnRows (recorded_command command.now) }
    ensures decides { DecidesCommand slice.now (recorded_command command.now) result }
    ensures rules { IfOk result (DecisionKeepsRules slice.now) }
    ensures own { IfOk result (λ d. PutsOnly slice.now.owner (changes_of d)) }
{
    match *command {
        PlantCmd::MaterialAdd {
            material,
            measure,
            ..
        } => add_material(alloc, slice, material, measure),
        PlantCmd::TestAdd {
            material,
            test,
            limits,
            ..
        } => add_test(alloc, slice, material, test, limits),
        PlantCmd::Result {
            lot,
            test,
            value,
            day,
            ..
        } => record_result(alloc, slice, lot, test, value, day),
        PlantCmd::RecipeAdd {
            recipe,
            segments,
            ..
        } => add_recipe(alloc, slice, recipe, segments),
        PlantCmd::Order(placing) => place_order(alloc, slice, &placing),
        PlantCmd::Cancel { order } => cancel_order(alloc, slice, order),
        PlantCmd::Do {
            order,
            number,
            command,
            ..
        } => command_batch(alloc, slice, order, number, command),
        PlantCmd::Close { order, number, .. } => close_batch(alloc, slice, order, number),
        _ => decide_lot(alloc, slice, command),
    }
}

// The same for a movement, and for a lot's release and rejection.
fn decide_lot(alloc: Global, slice: &Slice, command: &PlantCmd) -> Result<Decision, AllocError>
    requires { IsCommandSuchThat IsOfLot (recorded_command command.now) }
    ensures decides { DecidesCommand slice.now (recorded_command command.now) result }
    ensures rules { IfOk result (DecisionKeepsRules slice.now) }
    ensures own { IfOk result (λ d. PutsOnly slice.now.owner (changes_of d)) }
{
    match *command {
        PlantCmd::Receive {
            key,
            material,
            lot,
            sublot,
            amount,
            day,
            ..
        } => receive(alloc, slice, key, material, lot, sublot, amount, day),
        PlantCmd::Split {
            key,
            lot,
            sublot,
            target,
            amount,
            day,
            ..
        } => split(alloc, slice, key, lot, sublot, target, amount, day),
        PlantCmd::Ship {
            key,
            lot,
            sublot,
            amount,
            day,
            ..
        } => ship(alloc, slice, key, lot, sublot, amount, day),
        PlantCmd::Scrap {
            key,
            lot,
            sublot,
            amount,
            day,
            ..
        } => scrap(alloc, slice, key, lot, sublot, amount, day),
        PlantCmd::Release { lot } => release(alloc, slice, lot),
        PlantCmd::Reject { lot } => reject(alloc, slice, lot),
        _ => unreachable!(),
    }
}

/// The decision on a command that looks at HOUSE's rows too. `house` has these rows. It fails only if memory
/// runs out.
pub fn decide_shared(
    alloc: Global,
    own: &Slice,
    house: &Slice,
    command: &PlantCmd,
) -> Result<Decision, AllocError>
    requires { IsCommandSuchThat (λ a. is_shared a ≡ true) (recorded_command command.now) }
    ensures decides { IsCommandSuchThat (λ a. IfOk result (DecidesWith (by own.now.owner a) own.now house.now)) (recorded_command command.now) }
    ensures rules { IfOk result (DecisionKeepsRules own.now) }
    ensures house_rules { same_bytes own.now.owner house.now.owner ≡ false → IfOk result (DecisionKeepsRules house.now) }
    ensures own { IfOk result (λ d. PutsShared own.now.owner (changes_of d)) }
{
    // For the proof: HOUSE's slice keeps the rules of a slice too.
    let _house = house.owner();
    match *command {
        PlantCmd::Require { row, .. } => require(alloc, own, house, row),
        PlantCmd::Actual { row, .. } => record_actual(alloc, own, house, row.movement),
        PlantCmd::Void { key, .. } => void_actual(alloc, own, house, key),
        _ => unreachable!(),
    }
}
