//! Movements of material. Each is `None` if the values aren't those of its command.
ghost use Rattle.std.specs.Prelude.{◌≡◌, option_map};
ghost use Rattle.toll_plant.specs.Commands.{actual_command, actual_row, command_from, taken_from};
ghost use Rattle.toll_plant.specs.declared.command.CommandName.TheVariants as called;

use crate::argument::{ArgumentValue, from_values};
use crate::taken::Taken;
use toll_base::{BatchNo, Move, MoveRow, Name, Segment};
use toll_desk::{ActualRow, PlantCmd};

/// Material received into a lot.
pub fn receive(values: &[ArgumentValue]) -> Option<PlantCmd>
    ensures { result ≡ command_from called.Receive values.now }
{
    from_values!(values => Receive {
        owner: Name, key: Name, material: Name, lot: Name, sublot: Name, amount: Amount, day: Day
    })
}

/// Material put into another sublot.
pub fn split(values: &[ArgumentValue]) -> Option<PlantCmd>
    ensures { result ≡ command_from called.Split values.now }
{
    from_values!(values => Split {
        owner: Name, key: Name, lot: Name, sublot: Name, target: Name, amount: Amount, day: Day
    })
}

/// Material shipped out of a sublot.
pub fn ship(values: &[ArgumentValue]) -> Option<PlantCmd>
    ensures { result ≡ command_from called.Ship values.now }
{
    from_values!(values => Ship {
        owner: Name, key: Name, lot: Name, sublot: Name, amount: Amount, day: Day
    })
}

/// Material scrapped out of a sublot.
pub fn scrap(values: &[ArgumentValue]) -> Option<PlantCmd>
    ensures { result ≡ command_from called.Scrap values.now }
{
    from_values!(values => Scrap {
        owner: Name, key: Name, lot: Name, sublot: Name, amount: Amount, day: Day
    })
}

/// An actual of a batch.
pub fn actual(values: &[ArgumentValue]) -> Option<PlantCmd>
    ensures { result ≡ command_from called.Actual values.now }
{
    match *values {
        [
            ArgumentValue::Name(key),
            ArgumentValue::Name(owner),
            ArgumentValue::Name(order),
            ArgumentValue::BatchNo(number),
            ArgumentValue::Segment(segment),
            ref rest @ ..,
        ] => actual_of(key, owner, order, number, segment, rest),
        _ => None,
    }
}

// An actual of this segment of a batch: it takes what these values say.
fn actual_of(
    key: Name,
    owner: Name,
    order: Name,
    number: BatchNo,
    segment: Segment,
    rest: &[ArgumentValue],
) -> Option<PlantCmd>
    ensures { result
        ≡ option_map (actual_command key owner order number segment) (taken_from rest.now) }
{
    let taken = Taken::from_values(rest)?;
    let row = actual_row(key, order, number, segment, &taken);
    Some(PlantCmd::Actual { owner, row })
}

// The row of an actual of this segment of a batch.
fn actual_row(key: Name, order: Name, number: BatchNo, segment: Segment, taken: &Taken) -> ActualRow
    ensures { result ≡ actual_row key order number segment taken.now }
{
    let what = Move::Actual {
        order,
        number,
        segment,
        role: taken.role,
        material: taken.material,
        lot: taken.lot,
        sublot: taken.sublot,
    };
    let movement = MoveRow {
        key,
        what,
        amount: taken.amount,
        day: taken.day,
    };
    ActualRow { movement }
}

/// An actual that is taken back.
pub fn void(values: &[ArgumentValue]) -> Option<PlantCmd>
    ensures { result ≡ command_from called.Void values.now }
{
    from_values!(values => Void { owner: Name, key: Name })
}
