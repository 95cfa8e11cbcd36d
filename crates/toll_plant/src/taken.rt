//! Material that was used or made.
ghost use Rattle.std.specs.Prelude.{◌≡◌};
ghost use Rattle.toll_plant.specs.Commands.{taken_from};

use crate::argument::{ArgumentValue, from_values};
use toll_base::{Amount, Day, LotId, Name, Role};

/// Material that was used or made in a segment of a batch, and when.
#[derive(Clone, Copy)]
pub struct Taken {
    pub role: Role,
    pub material: Name,
    pub lot: LotId,
    pub sublot: Name,
    pub amount: Amount,
    pub day: Day,
}

impl Taken {
    /// The use or making that these values say: `None` if one is missing, of another kind or too much.
    pub fn from_values(values: &[ArgumentValue]) -> Option<Self>
        ensures { result ≡ taken_from values.now }
    {
        from_values!(
            values, [
                role: Role, material: Name, owner: Name, lot: Name, sublot: Name, amount: Amount, day: Day
            ] => Taken { role, material, lot: LotId { owner, lot }, sublot, amount, day }
        )
    }
}
