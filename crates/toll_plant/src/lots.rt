//! Results and dispositions of lots. Each is `None` if the values aren't those of its command.
ghost use Rattle.std.specs.Prelude.{◌≡◌};
ghost use Rattle.toll_plant.specs.Commands.{command_from};
ghost use Rattle.toll_plant.specs.declared.command.CommandName.TheVariants as called;

use crate::argument::{ArgumentValue, from_values};
use toll_desk::PlantCmd;

/// A result of a lot's test.
pub fn result(values: &[ArgumentValue]) -> Option<PlantCmd>
    ensures { result ≡ command_from called.Result values.now }
{
    from_values!(values => Result { owner: Name, lot: Name, test: Name, value: Value, day: Day })
}

/// A lot that is released.
pub fn release(values: &[ArgumentValue]) -> Option<PlantCmd>
    ensures { result ≡ command_from called.Release values.now }
{
    from_values!(values => Release { lot: Name })
}

/// A lot that is rejected.
pub fn reject(values: &[ArgumentValue]) -> Option<PlantCmd>
    ensures { result ≡ command_from called.Reject values.now }
{
    from_values!(values => Reject { lot: Name })
}
