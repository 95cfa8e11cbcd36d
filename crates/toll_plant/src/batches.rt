//! Orders and their batches. Each is `None` if the values aren't those of its command.
ghost use Rattle.std.specs.Prelude.{◌≡◌};
ghost use Rattle.toll_plant.specs.Commands.{command_from};
ghost use Rattle.toll_plant.specs.declared.command.CommandName.TheVariants as called;

use crate::argument::{ArgumentValue, from_values};
use toll_base::Placing;
use toll_desk::PlantCmd;

/// An order of HOUSE.
pub fn order(values: &[ArgumentValue]) -> Option<PlantCmd>
    ensures { result ≡ command_from called.Order values.now }
{
    from_values!(
        values,
        [order: Name, recipe: Name, batches: BatchNo] => PlantCmd::Order(Placing {
            order,
            recipe,
            batches,
        })
    )
}

/// An order that is cancelled.
pub fn cancel(values: &[ArgumentValue]) -> Option<PlantCmd>
    ensures { result ≡ command_from called.Cancel values.now }
{
    from_values!(values => Cancel { order: Name })
}

/// The next batch of an order, on a unit.
pub fn open(values: &[ArgumentValue]) -> Option<PlantCmd>
    ensures { result ≡ command_from called.Open values.now }
{
    from_values!(values => Open { owner: Name, order: Name, unit: Name })
}

/// A command to a batch.
pub fn do_batch(values: &[ArgumentValue]) -> Option<PlantCmd>
    ensures { result ≡ command_from called.Do values.now }
{
    from_values!(values => Do { owner: Name, order: Name, number: BatchNo, command: StateCommand })
}

/// A batch that is closed.
pub fn close(values: &[ArgumentValue]) -> Option<PlantCmd>
    ensures { result ≡ command_from called.Close values.now }
{
    from_values!(values => Close { owner: Name, order: Name, number: BatchNo })
}
