//! Additions to the plant. Each is `None` if the values aren't those of its command.
ghost use Rattle.std.specs.Prelude.{◌≡◌};
ghost use Rattle.toll_plant.specs.Commands.{command_from, limits_of, test_add};
ghost use Rattle.toll_plant.specs.declared.command.CommandName.TheVariants as called;

use crate::argument::{ArgumentValue, from_values};
use toll_base::{Limits, Name, RequirementRow, Value};
use toll_desk::PlantCmd;

/// An owner with its key.
pub fn owner_add(values: &[ArgumentValue]) -> Option<PlantCmd>
    ensures { result ≡ command_from called.OwnerAdd values.now }
{
    from_values!(values => OwnerAdd { owner: Name, key: OwnerKey })
}

/// A unit.
pub fn unit_add(values: &[ArgumentValue]) -> Option<PlantCmd>
    ensures { result ≡ command_from called.UnitAdd values.now }
{
    from_values!(values => UnitAdd { unit: Name })
}

/// A material of an owner, with its measure.
pub fn material_add(values: &[ArgumentValue]) -> Option<PlantCmd>
    ensures { result ≡ command_from called.MaterialAdd values.now }
{
    from_values!(values => MaterialAdd { owner: Name, material: Name, measure: Measure })
}

/// A test of a material: [`PlantCmd::Unread`] if the low limit is above the high one.
pub fn test_add(values: &[ArgumentValue]) -> Option<PlantCmd>
    ensures { result ≡ command_from called.TestAdd values.now }
{
    from_values!(
        values, [owner: Name, material: Name, test: Name, low: Value, high: Value]
            => test_within(owner, material, test, low, high)
    )
}

// The test with these limits, or why they can't be limits.
fn test_within(owner: Name, material: Name, test: Name, low: Value, high: Value) -> PlantCmd
    ensures { result ≡ test_add owner material test (limits_of low high) }
{
    match Limits::new(low, high) {
        Ok(limits) => PlantCmd::TestAdd {
            owner,
            material,
            test,
            limits,
        },
        Err(why) => PlantCmd::Unread(why),
    }
}

/// A recipe of an owner.
pub fn recipe_add(values: &[ArgumentValue]) -> Option<PlantCmd>
    ensures { result ≡ command_from called.RecipeAdd values.now }
{
    from_values!(values => RecipeAdd { owner: Name, recipe: Name, segments: Segment })
}

/// A requirement of a recipe.
pub fn require(values: &[ArgumentValue]) -> Option<PlantCmd>
    ensures { result ≡ command_from called.Require values.now }
{
    from_values!(
        values, [
            owner: Name, recipe: Name, segment: Segment, role: Role, source: Name, material: Name, amount: Amount
        ] => PlantCmd::Require {
            owner, row: RequirementRow { recipe, segment, role, source, material, amount }
        }
    )
}
