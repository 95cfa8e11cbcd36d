//! The parts of paths.
ghost use Rattle.std.specs.Prelude.{◌≡◌, length, map};
ghost use Rattle.std.specs.List.{AllByRecursion};
ghost use Rattle.std.specs.Str.{IsUtf8};
ghost use Rattle.toll_wire.specs.Places.{AreValuesReadFrom, IsNumberRead, count_parts};

use crate::routes::values::Values;
use matchit::ParamsIter;
use toll_base::{BatchNo, Name, number};

/// The parts in the paths of a route.
#[derive(Clone, Copy)]
pub enum Parts {
    /// None: the route has only one path.
    Nothing,
    /// The name of an order or of a lot.
    Name,
    /// The name of an order and the number of one of its batches.
    NameAndNumber,
}

impl Parts {
    /// The values that these texts write in these parts; `None` if they write none.
    pub fn read(self, mut texts: ParamsIter<'_, '_, '_>) -> Option<Values>
        requires count { length texts ≡ count_parts self }
        requires text { AllByRecursion (λ p. IsUtf8 p.1) texts }
        ensures { AreValuesReadFrom self (map (λ p. p.1) texts.entry) result }
    {
        match self {
            Parts::Nothing => Some(Values::Nothing),
            Parts::Name => {
                let (_, name) = texts.next()?;
                Name::parse(name.as_bytes()).ok().map(Values::Name)
            }
            Parts::NameAndNumber => {
                let (_, order) = texts.next()?;
                let (_, number) = texts.next()?;
                let order = Name::parse(order.as_bytes()).ok()?;
                let number = batch_number(number.as_bytes())?;
                Some(Values::NameAndNumber(order, number))
            }
        }
    }
}

// The number of the batch with this decimal text, which has no leading zero.
fn batch_number(text: &[u8]) -> Option<BatchNo>
    ensures { IsNumberRead text.now result }
{
    if text.starts_with(b"0") {
        return None;
    }
    BatchNo::new(number(text)?).ok()
}
