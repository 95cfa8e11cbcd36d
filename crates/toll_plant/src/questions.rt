//! Questions of the plant. Each is `None` if the values aren't those of its command.
ghost use Rattle.std.specs.Prelude.{◌≡◌};
ghost use Rattle.toll_plant.specs.Commands.{command_from};
ghost use Rattle.toll_plant.specs.declared.command.CommandName.TheVariants as called;

use crate::argument::{ArgumentValue, from_values};
use toll_base::LotId;
use toll_desk::PlantCmd;

/// The orders of an owner.
pub fn orders(values: &[ArgumentValue]) -> Option<PlantCmd>
    ensures { result ≡ command_from called.Orders values.now }
{
    from_values!(values => Orders { owner: Name })
}

/// The stock of an owner.
pub fn stock(values: &[ArgumentValue]) -> Option<PlantCmd>
    ensures { result ≡ command_from called.Stock values.now }
{
    from_values!(values => Stock { owner: Name })
}

/// A batch of an order.
pub fn batch(values: &[ArgumentValue]) -> Option<PlantCmd>
    ensures { result ≡ command_from called.Batch values.now }
{
    from_values!(values => Batch { owner: Name, order: Name, number: BatchNo })
}

/// The lots that a lot is joined to.
pub fn trace(values: &[ArgumentValue]) -> Option<PlantCmd>
    ensures { result ≡ command_from called.Trace values.now }
{
    from_values!(
        values, [owner: Name, lot: Name, way: Way] => PlantCmd::Trace { lot: LotId { owner, lot }, way }
    )
}

/// The lots that a lot went into.
pub fn recall(values: &[ArgumentValue]) -> Option<PlantCmd>
    ensures { result ≡ command_from called.Recall values.now }
{
    from_values!(values, [owner: Name, lot: Name] => PlantCmd::Recall { lot: LotId { owner, lot } })
}
